// What is refused when a scheme is made.
ghost use Rattle.std.proofs.Common.{rules, arith};
ghost use Rattle.scheme.specs.Refused.{numbered, placed};

use refusal::Numbered;

/// Why a scheme cannot be made.
#[derive(Clone, Copy, Debug, PartialEq, Eq)]
pub enum Refusal {
    /// A scheme has 1 to 16,384 places.
    Count,
    /// A book has a line for each of its places.
    Lines,
}

impl Numbered for Refusal {
    ghost numbered = { numbered };

    ghost placed = { placed };

    ghost apart = { Prim.search (rules, arith) };

    fn number(&self) -> u32 {
        match self {
            Refusal::Count => 11,
            Refusal::Lines => 12,
        }
    }

    /// None of these is about a list; a case that is one day has to say its place here.
    fn position(&self) -> usize {
        match self {
            Refusal::Count | Refusal::Lines => 0,
        }
    }
}
