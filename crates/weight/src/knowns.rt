// Which orders a switch knows of.
ghost use Rattle.weight.specs.Cells.{holds_of, Knows};

use crate::cells::Cell;
use crate::parts::{MOST_CODES, Part};
use chain::Chains;

/// What a switch knows of orders, by the chains that it holds.
#[derive(Clone, Copy, Debug, PartialEq, Eq)]
pub enum Known {
    /// It holds no chain.
    Nothing,
    /// All its chains have the order of this code.
    Sole(u32),
    /// It holds chains of two orders or more.
    Several,
}

/// The sole order of the chains that a switch holds, or that there is none, or that there are several.
pub fn known_order(chains: &Chains, cells: &[Cell]) -> Known
    ensures { Knows (holds_of chains.now cells.now) result }
{
    if chains.lead >= chains.setting.size() {
        return Known::Nothing;
    }
    let mut known = Known::Nothing;
    for code in 0..MOST_CODES {
        if Part::of(chains, code, cells).any_taken() {
            match known {
                Known::Nothing => known = Known::Sole(code),
                _ => return Known::Several,
            }
        }
    }
    known
}
