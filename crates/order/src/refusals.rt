// What is refused when a choice is made.
ghost use Rattle.std.proofs.Common.{rules};
ghost use Rattle.order.specs.Refused.{numbered, placed};

use refusal::Numbered;

/// Why a choice cannot be made.
#[derive(Clone, Copy, Debug, PartialEq, Eq)]
pub enum Refusal {
    /// A list has each of the sixteen codes once.
    List,
}

impl Numbered for Refusal {
    ghost numbered = { numbered };

    ghost placed = { placed };

    ghost apart = { Prim.search rules };

    fn number(&self) -> u32 {
        match self {
            Refusal::List => 13,
        }
    }

    /// A list is refused as a whole; a case that is not has to say its place here.
    fn position(&self) -> usize {
        match self {
            Refusal::List => 0,
        }
    }
}
