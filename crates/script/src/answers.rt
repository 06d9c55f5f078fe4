// What a line is answered, and the text of it.
ghost use Rattle.std.specs.Prelude.{◌≡◌, Some, Ok, Err, MatchResult};
ghost use Rattle.script.specs.declared.flaws.Flaw.TheVariants.{Refused};
ghost use Rattle.script.specs.Answers.{obeyed, answered, answer_text, flaw_text};

use crate::flaws::{Fault, Flaw};
use crate::forms::{Form, read_form};
use refusal::Numbered;
use setting::{Refusal, quote};
use std::fmt;

/// What a form that is obeyed is answered.
#[derive(Clone, Copy, Debug, PartialEq, Eq)]
pub enum Answer {
    /// The quoted round.
    Quote(u32),
}

/// A line of a script, with its number and that of its last byte in the script, both from 1.
#[derive(Clone, Copy, Debug, PartialEq, Eq)]
pub struct Line<'a> {
    pub number: u64,
    pub last: usize,
    pub bytes: &'a [u8],
}

impl From<Refusal> for Flaw {
    ghost from_gives = { λ e r. r ≡ Refused e };

    fn from(refusal: Refusal) -> Flaw {
        Flaw::Refused(refusal)
    }
}

fn obey(form: Form) -> Result<Answer, Refusal>
    ensures { result ≡ obeyed form }
{
    match form {
        Form::Quote {
            size,
            tolerance,
            sound,
        } => Ok(Answer::Quote(quote(size, tolerance, sound)?)),
    }
}

fn reply(line: Line<'_>) -> Result<Answer, Flaw>
    ensures { result ≡ answered line.entry.last line.entry.bytes.now }
{
    let form = read_form(line.bytes, line.last)?;
    Ok(obey(form)?)
}

/// The answer to a line, or its fault.
pub fn answer_line(line: Line<'_>) -> Result<Answer, Fault>
    ensures { MatchResult result (λ a. answered line.entry.last line.entry.bytes.now ≡ Ok a) (λ f. (answered line.entry.last line.entry.bytes.now ≡ Err f.flaw) × (f.line ≡ line.entry.number)) }
{
    reply(line).map_err(|flaw| Fault {
        line: line.number,
        flaw,
    })
}

impl fmt::Display for Answer {
    ghost output = { λ a. Some (answer_text a) };

    fn fmt<W: fmt::Write>(&self, f: &mut fmt::Formatter<W>) -> fmt::Result {
        match self {
            Answer::Quote(round) => write!(f, "(quote {round})"),
        }
    }
}

impl fmt::Display for Fault {
    ghost output = { λ x. Some (flaw_text x.flaw) };

    fn fmt<W: fmt::Write>(&self, f: &mut fmt::Formatter<W>) -> fmt::Result {
        let number = self.flaw.number();
        let position = self.flaw.position();
        write!(f, "(no {number} {position})")
    }
}
