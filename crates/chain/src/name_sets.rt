// Sets of names: those that a chain has had so far, or those that speak for an order.
ghost use Rattle.std.specs.Prelude.{◌≡◌, ℕ, ◌<◌, ◌≤◌, true, false, not, ◌&&◌, ◌||◌, ◌==◌, nat_lt};
ghost use Rattle.counting.specs.Lists.{has, tally};
ghost use Rattle.chain.specs.NameSets.{in_set};

/// A set of names, as a mask: bit q is set if name q is in the set. A name from 16 up, which no ring has, is in none.
#[derive(Clone, Copy, Debug, PartialEq, Eq)]
pub struct NameSet {
    mask: u16,
}

impl NameSet {
    /// The set without a name.
    pub fn new() -> NameSet
        ensures { (q : ℕ) → in_set result q ≡ false }
    {
        NameSet { mask: 0 }
    }

    /// The set of the names of a list.
    pub fn of(names: &[u32]) -> NameSet
        ensures { (q : ℕ) → in_set result q ≡ (nat_lt q 16 && has q names.now) }
    {
        let mut set = NameSet::new();
        for name in names {
            set.insert(*name);
        }
        set
    }

    pub fn contains(self, name: u32) -> bool
        ensures { result ≡ in_set self name }
    {
        name < 16 && self.has(name)
    }

    /// Whether the set has a name that is known to be below 16, as those of a ring are, which spares a test.
    pub(crate) fn has(self, name: u32) -> bool
        requires { name < 16 }
        ensures { result ≡ in_set self name }
    {
        self.mask >> name & 1 == 1
    }

    pub fn insert(&mut self, name: u32)
        ensures put { name < 16 → (q : ℕ) → in_set self.new q ≡ (q == name || in_set self.old q) }
        ensures high { 16 ≤ name → self.new ≡ self.old }
    {
        if name < 16 {
            self.add(name);
        }
    }

    /// Puts in a name that is known to be below 16.
    pub(crate) fn add(&mut self, name: u32)
        requires { name < 16 }
        ensures { (q : ℕ) → in_set self.new q ≡ (q == name || in_set self.old q) }
    {
        self.mask |= 1 << name;
    }

    /// How many names are in the set.
    pub fn len(self) -> u32
        ensures value { result ≡ tally (in_set self) 16 }
        ensures most { result ≤ 16 }
    {
        self.mask.count_ones()
    }

    pub fn is_empty(self) -> bool
        ensures none { result ≡ true → (q : ℕ) → in_set self q ≡ false }
        ensures some { result ≡ false → (q : ℕ) × (in_set self q ≡ true) }
    {
        self.mask == 0
    }

    /// The names of this set that are not in the other.
    pub fn without(self, other: NameSet) -> NameSet
        ensures { (q : ℕ) → in_set result q ≡ (in_set self q && not (in_set other q)) }
    {
        NameSet {
            mask: self.mask & !other.mask,
        }
    }

    /// How many names below this one are not in the set.
    pub(crate) fn missing_below(self, name: u32) -> u32
        requires { name < 16 }
        ensures { result ≡ tally (λ q. not (in_set self q)) name }
    {
        (!self.mask & ((1 << name) - 1)).count_ones()
    }

    /// The name below `size` that is not in the set and has `digit` such names below it.
    pub(crate) fn nth_missing(self, size: u32, digit: u32) -> u32
        requires small { size ≤ 16 }
        requires enough { digit < tally (λ q. not (in_set self q)) size }
        ensures low { result < size }
        ensures new { in_set self result ≡ false }
        ensures place { tally (λ q. not (in_set self q)) result ≡ digit }
    {
        // Tried as `filter` and `nth`; that the answer is there and in its place was not proved.
        let mut left = digit;
        for name in 0..size {
            if !self.has(name) {
                if left == 0 {
                    return name;
                }
                left -= 1;
            }
        }
        unreachable!()
    }
}
