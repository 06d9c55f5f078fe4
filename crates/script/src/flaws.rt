// What can be wrong with a line of a script.
ghost use Rattle.std.specs.Prelude.{◌≡◌};
ghost use Rattle.script.specs.Flaws.{numbered, placed, byte_of};
ghost use Rattle.std.proofs.Common.{rules, arith};

use refusal::Numbered;
use setting::Refusal;

/// What is wrong with a line. A byte's place counts from 1.
#[derive(Clone, Copy, Debug, PartialEq, Eq)]
pub enum Flaw {
    /// Not one bracketed form filling the line, over 200 bytes, or past byte 32,768 of the script.
    NotAForm,
    /// The first item is none of the words that are served.
    UnknownWord(usize),
    /// An item is missing, too many, empty or of another sort.
    WrongItem(usize),
    /// A number has a leading zero or is above 4,294,967,295.
    WrongNumber(usize),
    /// The form was read, and what it asks for was refused.
    Refused(Refusal),
}

impl Numbered for Flaw {
    ghost numbered = { numbered };

    ghost placed = { placed };

    ghost apart = { Prim.search (rules, arith) };

    fn number(&self) -> u32 {
        match self {
            Flaw::NotAForm => 81,
            Flaw::UnknownWord(_) => 82,
            Flaw::WrongItem(_) => 83,
            Flaw::WrongNumber(_) => 84,
            Flaw::Refused(refusal) => refusal.number(),
        }
    }

    /// The position that is written beside the number: the byte at fault, or the refusal's own position.
    fn position(&self) -> usize {
        match self {
            Flaw::Refused(refusal) => refusal.position(),
            _ => self.byte(),
        }
    }
}

impl Flaw {
    /// The byte of the line at fault; a form that was refused is so as a whole, and begins at byte 1.
    pub fn byte(&self) -> usize
        ensures { result ≡ byte_of self.now }
    {
        match self {
            Flaw::UnknownWord(byte) | Flaw::WrongItem(byte) | Flaw::WrongNumber(byte) => *byte,
            Flaw::NotAForm | Flaw::Refused(_) => 1,
        }
    }
}

/// A flaw together with the number of its line in the script, from 1.
#[derive(Clone, Copy, Debug, PartialEq, Eq)]
pub struct Fault {
    pub line: u64,
    pub flaw: Flaw,
}
