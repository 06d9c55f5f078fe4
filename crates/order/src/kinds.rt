// What every kind of order means: its values have codes, one each.
ghost use Rattle.std.specs.Prelude.{◌≡◌, ℕ, ◌<◌, ◌≤◌, IfSome, Some};

/// A kind of order. Its values are told apart by codes below K, the number of its codes; a code may have no value.
pub trait Order: Sized {
    /// K, the number of codes.
    const CODES: u32;

    ghost CODES: { ℕ };

    /// The code of a value.
    ghost coded: { Self → ℕ };

    fn code(&self) -> u32
        ensures { result ≡ coded self.now };

    /// The value that has this code, if one has. (Not std's `TryFrom`: no law there ties it to `code`, and to have no value
    /// is no error of a code.)
    fn from_code(code: u32) -> Option<Self>
        ensures back { (v : Self) → coded v ≡ code → result ≡ Some v }
        ensures has { IfSome result (λ v. coded v ≡ code) };

    ghost some: { 1 ≤ CODES };

    ghost few: { CODES ≤ 16 };

    ghost below: { (v : Self) → coded v < CODES };

    ghost apart: { (v w : Self) → coded v ≡ coded w → v ≡ w };
}
