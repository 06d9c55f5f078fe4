// What is refused of a chain's names.
ghost use Rattle.std.proofs.Common.{rules};
ghost use Rattle.chain.specs.Refused.{numbered, placed};

use refusal::Numbered;

/// The first fault of a chain's names. A place in the list of names counts from 1.
#[derive(Clone, Copy, Debug, PartialEq, Eq)]
pub enum Refusal {
    /// A chain has 1 to t + 1 names.
    Length,
    /// The name at this place is not below n.
    Beyond(u32),
    /// The first name is not the lead's.
    NotLead,
    /// The name at this place stands in the chain before.
    Repeated(u32),
}

impl Numbered for Refusal {
    ghost numbered = { numbered };

    ghost placed = { placed };

    ghost apart = { Prim.search rules };

    fn number(&self) -> u32 {
        match self {
            Refusal::Length => 31,
            Refusal::Beyond(_) => 32,
            Refusal::NotLead => 33,
            Refusal::Repeated(_) => 34,
        }
    }

    /// The place of the name at fault; 0 where the number of names is at fault.
    fn position(&self) -> usize {
        match self {
            Refusal::Length => 0,
            Refusal::Beyond(place) | Refusal::Repeated(place) => *place as usize,
            Refusal::NotLead => 1,
        }
    }
}
