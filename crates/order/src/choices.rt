// What every choice means: it takes a member of a set, and depends on the set alone.
ghost use Rattle.std.specs.Prelude.{◌≡◌, ℕ, ◌^◌, ◌<◌, Option};
ghost use Rattle.order.specs.Sets.{Member};

/// A plant's rule for ties. A set of codes 0 to 15 is a mask: bit k is set if code k is in the set. (A plain u16: a rule is
/// often one operation on its bits, as `Least`.)
pub trait Choice {
    /// What is taken from a set of codes.
    ghost taken: { Self → ℕ → Option ℕ };

    fn choose(&self, codes: u16) -> Option<u32>
        ensures { result ≡ taken self.now codes };

    /// A member of the set, and nothing exactly if the set is empty.
    ghost member: { (c : Self) (codes : ℕ) → codes < 2 ^ 16 → Member codes (taken c codes) };
}
