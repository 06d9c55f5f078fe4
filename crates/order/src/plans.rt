// Plans: the numbers 0 to 15.
ghost use Rattle.std.specs.Prelude.{◌≡◌, ◌<◌, ◌≤◌, MatchOption};
ghost use Rattle.std.proofs.Common.{rules, arith};

use crate::kinds::Order;

/// A plan by its number, 0 to 15.
#[derive(Clone, Copy, Debug, PartialEq, Eq)]
pub struct Plan {
    number: u32,
    ghost below: { number < 16 },
}

impl Plan {
    /// The plan of this number; none from 16 up.
    pub fn new(number: u32) -> Option<Plan>
        ensures { MatchOption result (16 ≤ number) (λ p. p.number ≡ number) }
    {
        if number < 16 {
            Some(Plan { number })
        } else {
            None
        }
    }

    pub fn number(&self) -> u32
        ensures value { result ≡ self.now.number }
        ensures bound { result < 16 }
    {
        self.number
    }
}

impl Order for Plan {
    const CODES: u32 = 16;

    ghost CODES = { 16 };

    ghost coded = { λ p. p.number };

    ghost some = { Prim.search rules };

    ghost few = { Prim.search rules };

    ghost below = { Prim.search rules };

    ghost apart = { Prim.grind (arith, Self.row.coded.inj) };

    fn code(&self) -> u32 {
        Plan::number(self)
    }

    fn from_code(code: u32) -> Option<Plan> {
        Plan::new(code)
    }
}
