// Whether a chain bears a weight.
ghost use Rattle.std.specs.Prelude.{◌≡◌, ℕ, ◌+◌, ◌<◌, ◌≤◌, true, false, not, ◌&&◌, [], ◌∷◌, List, take, drop, nat_le, nat_lt, MatchOption};
ghost use Rattle.counting.specs.Lists.{has, tally};
ghost use Rattle.chain.specs.NameSets.{in_set};
ghost use Rattle.chain.specs.OfRing.{many, IsChain};
ghost use Rattle.chain.specs.Places.{within};
ghost use Rattle.weight.specs.Weights.{hidden, Bears};

use crate::parts::Part;
use chain::NameSet;

/// The second name of a chain, if it has one.
pub(crate) fn second_of(names: &[u32]) -> Option<u32>
    ensures { MatchOption result (take 1 (drop 1 names.now) ≡ []) (λ second. take 1 (drop 1 names.now) ≡ second ∷ []) }
{
    match names {
        [_, rest @ ..] => rest.first().copied(),
        [] => None,
    }
}

/// The set of the first names after the lead's, as many as asked for.
fn names_after_lead(names: &[u32], count: usize) -> NameSet
    ensures { (q : ℕ) → in_set result q ≡ (nat_lt q 16 && has q (take count (drop 1 names.now))) }
{
    match names {
        [_, rest @ ..] => NameSet::of(&rest[..count.min(rest.len())]),
        [] => NameSet::new(),
    }
}

impl Part<'_> {
    /// Whether the chain at a place of its order bears a weight.
    pub(crate) fn bears_at(&self, backers: NameSet, weight: u32, at: u32) -> bool
        requires backers { (q : ℕ) → self.now.chains.setting.size ≤ q → in_set backers q ≡ false }
        requires there { at < many self.now.chains.setting }
        ensures some { result ≡ true → (names : List ℕ) × IsChain self.now.chains names × (within self.now.chains.setting.size names ≡ at) × Bears self.now.chains.setting.size self.now.chains.setting.tolerance (in_set backers) weight names }
        ensures none { result ≡ false → (names : List ℕ) → IsChain self.now.chains names → within self.now.chains.setting.size names ≡ at → Bears self.now.chains.setting.size self.now.chains.setting.tolerance (in_set backers) weight names → ⊥ }
    {
        match self.chains.names_at(at) {
            Some(names) => self.bears(backers, weight, names.as_slice()),
            None => false,
        }
    }

    /// Whether S without the names that a chain hides for this weight has at least weight − 2 names.
    fn bears(&self, backers: NameSet, weight: u32, names: &[u32]) -> bool
        requires { (q : ℕ) → self.now.chains.setting.size ≤ q → in_set backers q ≡ false }
        ensures { result ≡ nat_le weight (2 + tally (λ q. in_set backers q && not (has q (hidden self.now.chains.setting.tolerance weight names.now))) self.now.chains.setting.size) }
    {
        let count = (self.chains.setting.tolerance() + 2).saturating_sub(weight);
        let hidden = names_after_lead(names, count as usize);
        weight <= 2 + backers.without(hidden).len()
    }
}
