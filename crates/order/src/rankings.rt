// The choice by a plant's own list.
ghost use Rattle.std.specs.Prelude.{◌≡◌, ℕ, ◌<◌, ◌≤◌, true, length, IfSome, Some, MatchResult, slice_index};
ghost use Rattle.order.specs.declared.refusals.Refusal.TheVariants as refusal;
ghost use Rattle.order.specs.Rankings.{EachOnce, FirstPlaces, Ranks, ranked, beats};
ghost use Rattle.order.specs.Sets.{has};
ghost use Rattle.order.specs.Earliest.{ranked_member};

use crate::choices::Choice;
use crate::refusals::Refusal;

/// Takes the code that stands first in a list of all sixteen.
#[derive(Clone, Copy, Debug, PartialEq, Eq)]
pub struct Ranked {
    /// The place of each code in the list, from 0: a code is its index, so no list is searched when a rule is asked.
    ranks: [u8; 16],
}

/// The first place of each code that a list of sixteen has, from 0; of a code that it lacks, some place of another.
fn first_places(list: &[u32]) -> [u8; 16]
    requires { length list.now ≡ 16 }
    ensures { FirstPlaces list.now result }
{
    let mut ranks = [0; 16];
    // From the last place to the first, which is then the one that stays: one pass, and no number that stands for none.
    for place in (0..16).rev() {
        let code = list[place];
        if code < 16 {
            ranks[code as usize] = place as u8;
        }
    }
    ranks
}

impl Ranked {
    /// Refuses a list that has not each of the codes 0 to 15 once, of whatever length.
    pub fn new(list: &[u32]) -> Result<Ranked, Refusal>
        ensures { MatchResult result (λ c. Ranks list.now c.ranks) (λ e. (e ≡ refusal.List) × (EachOnce list.now → ⊥)) }
    {
        if list.len() != 16 {
            return Err(Refusal::List);
        }
        let ranks = first_places(list);
        for (code, rank) in ranks.iter().enumerate() {
            if list[*rank as usize] != code as u32 {
                return Err(Refusal::List);
            }
        }
        Ok(Ranked { ranks })
    }

    /// Whether a code stands before the best so far.
    fn is_before(&self, code: u32, best: Option<u32>) -> bool
        requires code { code < 16 }
        requires best { IfSome best (λ b. b < 16) }
        ensures { result ≡ beats self.now.ranks code best }
    {
        match best {
            None => true,
            Some(best) => self.ranks[code as usize] < self.ranks[best as usize],
        }
    }
}

impl Choice for Ranked {
    ghost taken = { λ c codes. ranked c.ranks codes };

    ghost member = { λ c codes low. ranked_member c.ranks codes low };

    fn choose(&self, codes: u16) -> Option<u32>
        ensures value { result ≡ ranked self.now.ranks codes }
        ensures first { IfSome result (λ k. (j : ℕ) → j < 16 → has codes j ≡ true → slice_index self.now.ranks k ≤ slice_index self.now.ranks j) }
    {
        // Not `filter` and `min_by_key`: the contract says which of equal ranks is taken, and their proof did not close.
        let mut best = None;
        for code in 0..16u32 {
            if codes >> code & 1 == 1 && self.is_before(code, best) {
                best = Some(code);
            }
        }
        best
    }
}
