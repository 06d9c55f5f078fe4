// A ring's size and tolerance, checked once and then carried as one value.
ghost use Rattle.std.specs.Prelude.{◌≡◌, ◌<◌, ◌≤◌, Some, None, MatchResult};
ghost use Rattle.setting.specs.Settings.{unfit};

use crate::refusals::Refusal;

/// A ring of 2 to 12 switches that tolerates 1 to n − 1 faulty ones. No other value can be made.
#[derive(Clone, Copy, Debug, PartialEq, Eq)]
pub struct Setting {
    size: u32,
    tolerance: u32,
    ghost least: { 2 ≤ size },
    ghost most: { size ≤ 12 },
    ghost some: { 1 ≤ tolerance },
    ghost below: { tolerance < size },
}

impl Setting {
    /// Refuses the size first, then the tolerance.
    pub fn new(size: u32, tolerance: u32) -> Result<Setting, Refusal>
        ensures { MatchResult result (λ s. (unfit size tolerance ≡ None) × (s.size ≡ size) × (s.tolerance ≡ tolerance)) (λ e. unfit size tolerance ≡ Some e) }
    {
        if !(2..=12).contains(&size) {
            return Err(Refusal::Size);
        }
        if !(1..size).contains(&tolerance) {
            return Err(Refusal::Tolerance);
        }
        Ok(Setting { size, tolerance })
    }

    /// n, the number of switches.
    pub fn size(&self) -> u32
        ensures value { result ≡ self.now.size }
        ensures least { 2 ≤ result }
        ensures most { result ≤ 12 }
    {
        self.size
    }

    /// t, how many faulty switches the ring tolerates.
    pub fn tolerance(&self) -> u32
        ensures value { result ≡ self.now.tolerance }
        ensures least { 1 ≤ result }
        ensures most { result < self.now.size }
    {
        self.tolerance
    }
}
