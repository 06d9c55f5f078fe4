// What every signing scheme means: a ledger.
ghost use Rattle.std.specs.Prelude.{◌≡◌, ℕ};
ghost use Rattle.scheme.specs.Ledgers.{Lawful, recorded, checks, Signs};

/// A signing scheme for a count of places. Its ledger has the mark of each place that is signed, and 0 for the others.
pub trait Scheme {
    /// How many places there are.
    ghost counted: { Self → ℕ };

    /// The mark of a place, or 0 where it is not signed.
    ghost ledger: { Self → ℕ → ℕ };

    fn count(&self) -> u32
        ensures { result ≡ counted self.now };

    /// How many places are signed.
    fn entries(&self) -> u32
        ensures { result ≡ recorded (ledger self.now) (counted self.now) };

    /// Whether the ledger has this mark at this place.
    fn check(&self, place: u32, mark: u32) -> bool
        ensures { result ≡ checks (ledger self.now) place mark };

    /// Signs a place and answers its mark; 0 for a place that is not below the count.
    // A number and no `Option`: a mark is 1 to 4,294,967,295 in the product's format, and 0 is its answer for none.
    fn sign(&mut self, place: u32) -> u32
        ensures signs { Signs (counted self.old) (ledger self.old) (ledger self.new) place result }
        ensures count { counted self.new ≡ counted self.old };

    /// What each `impl` shows of the two.
    ghost lawful: { Lawful counted ledger };
}
