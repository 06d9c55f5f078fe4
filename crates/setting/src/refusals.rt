// What is refused before a ring runs.
ghost use Rattle.std.proofs.Common.{rules, arith};
ghost use Rattle.setting.specs.Refused.{numbered, placed};

use refusal::Numbered;

/// The first rule that a size, a tolerance or a number of sound switches breaks.
#[derive(Clone, Copy, Debug, PartialEq, Eq)]
pub enum Refusal {
    /// A ring has 2 to 12 switches.
    Size,
    /// A ring tolerates 1 to n − 1 faulty switches.
    Tolerance,
    /// Of n switches, n − t to n are sound.
    SoundCount,
}

impl Numbered for Refusal {
    ghost numbered = { numbered };

    ghost placed = { placed };

    ghost apart = { Prim.search (rules, arith) };

    fn number(&self) -> u32 {
        match self {
            Refusal::Size => 21,
            Refusal::Tolerance => 22,
            Refusal::SoundCount => 14,
        }
    }

    /// None of these is about a list; a case that is one day has to say its place here.
    fn position(&self) -> usize {
        match self {
            Refusal::Size | Refusal::Tolerance | Refusal::SoundCount => 0,
        }
    }
}
