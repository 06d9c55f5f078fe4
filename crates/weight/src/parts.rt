// The cells of one order.
ghost use Rattle.std.specs.Prelude.{◌≡◌, ℕ, ◌+◌, ◌*◌, ◌<◌, ◌≤◌, true, false, length};
ghost use Rattle.chain.specs.OfRing.{many};
ghost use Rattle.weight.specs.Cells.{taken_at};

use crate::cells::Cell;
use chain::{Chains, chains_per_order};

/// No kind of order has more codes than this.
pub(crate) const MOST_CODES: u32 = 16;

/// The cells of one order at one switch: those of its N places, as far as there are any.
#[derive(Clone, Copy, Debug)]
pub(crate) struct Part<'a> {
    pub(crate) chains: Chains,
    pub(crate) cells: &'a [Cell],
    ghost few: { length cells.now ≤ many chains.setting },
}

impl<'a> Part<'a> {
    /// N places for each code.
    pub(crate) fn of(chains: &Chains, code: u32, cells: &'a [Cell]) -> Part<'a>
        ensures chains { result.chains ≡ chains.now }
        ensures same { (k : ℕ) → k < many chains.now.setting → taken_at result.cells.now k ≡ taken_at cells.now (code * many chains.now.setting + k) }
    {
        let count = chains_per_order(&chains.setting) as usize;
        let start = (code as usize * count).min(cells.len());
        let end = (start + count).min(cells.len());
        Part {
            chains: *chains,
            cells: &cells[start..end],
        }
    }

    /// Whether any of the cells is taken.
    pub(crate) fn any_taken(&self) -> bool
        ensures some { result ≡ true → (i : ℕ) × (taken_at self.now.cells.now i ≡ true) }
        ensures none { result ≡ false → (i : ℕ) → taken_at self.now.cells.now i ≡ false }
    {
        self.cells.iter().any(|cell| cell.taken)
    }
}
