// The weight of an order over the cells of one switch.
ghost use Rattle.std.specs.Prelude.{◌≡◌, ℕ, ◌≤◌, true};
ghost use Rattle.chain.specs.NameSets.{in_set};
ghost use Rattle.weight.specs.Cells.{holds_of, held_of};
ghost use Rattle.weight.specs.Examples.{Worked};
ghost use Rattle.weight.specs.Weights.{Seconds, Borne, Weight, Smaller};

use crate::bearing::second_of;
use crate::cells::Cell;
use crate::parts::{MOST_CODES, Part};
use chain::{Chains, NameSet};

/// The weight of the order of a code: 0 if no chain of two or more names is held, and otherwise the greatest weight that a
/// held chain bears. (No `Option`: 0 is a weight, the least, and a close compares weights.)
pub fn weight(chains: &Chains, code: u32, cells: &[Cell]) -> u32
    ensures greatest { Weight chains.now.setting.size chains.now.setting.tolerance (holds_of chains.now cells.now code) result }
    ensures smaller { Smaller chains.now.setting.size chains.now.setting.tolerance }
    ensures worked { Worked }
{
    if code >= MOST_CODES {
        return 0;
    }
    let part = Part::of(chains, code, cells);
    let backers = part.second_names();
    if backers.is_empty() {
        return 0;
    }
    part.greatest_borne(backers)
}

impl Part<'_> {
    /// S: the second names of the taken chains of one order.
    fn second_names(&self) -> NameSet
        ensures { Seconds (held_of self.now.chains self.now.cells.now) (in_set result) }
    {
        let mut backers = NameSet::new();
        // By place, from that after the lead's own chain: `enumerate` and `skip` would count the same. Nested, since a chain of
        // `let`s tells a proof nothing where one fails.
        for at in 1..self.cells.len() {
            if self.cells[at].taken {
                if let Some(names) = self.chains.names_at(at as u32) {
                    if let Some(second) = second_of(names.as_slice()) {
                        backers.insert(second);
                    }
                }
            }
        }
        backers
    }

    /// The greatest weight that a taken chain bears, where S is not empty: the search goes down from |S| + 2.
    fn greatest_borne(&self, backers: NameSet) -> u32
        requires backers { Seconds (held_of self.now.chains self.now.cells.now) (in_set backers) }
        requires some { (q : ℕ) × (in_set backers q ≡ true) }
        ensures reached { Borne self.now.chains.setting.size self.now.chains.setting.tolerance (held_of self.now.chains self.now.cells.now) (in_set backers) result }
        ensures most { (v : ℕ) → Borne self.now.chains.setting.size self.now.chains.setting.tolerance (held_of self.now.chains self.now.cells.now) (in_set backers) v → v ≤ result }
    {
        let mut weight = backers.len() + 2;
        // Downwards around the places, and left from inside: a form that was asked for (docs/DECISIONS.md, 45).
        'search: while weight > 2 {
            for at in 1..self.cells.len() {
                if self.cells[at].taken && self.bears_at(backers, weight, at as u32) {
                    break 'search;
                }
            }
            weight -= 1;
        }
        weight
    }
}
