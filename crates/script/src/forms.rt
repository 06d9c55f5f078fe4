// The form that a line holds. Every item is looked at for its sort before any number is read.
ghost use Rattle.std.specs.Prelude.{◌≡◌, ◌∷◌, MatchResult};
ghost use Rattle.std.specs.Option.{ok_or};
ghost use Rattle.script.specs.declared.flaws.Flaw.TheVariants.{WrongNumber};
ghost use Rattle.script.specs.Forms.{ThreeNumbers, Misses, piece, pieces_at, whole, quote_of, word_of, form_of};
ghost use Rattle.script.specs.Numerals.{read};
ghost use Rattle.script.specs.QuoteLines.{ReadsQuotes};
ghost use Rattle.script.specs.Rests.{end_of, pieces_of};

use crate::brackets::is_form;
use crate::flaws::Flaw;
use crate::items::{Item, Part};
use crate::numerals::value_of;
use crate::rests::Rest;

/// The longest line that is read.
pub(crate) const LINE_BYTES: usize = 200;

/// How many bytes of a script are read, line feeds among them.
pub(crate) const SCRIPT_BYTES: usize = 32_768;

/// A form with the values of its items.
#[derive(Clone, Copy, Debug, PartialEq, Eq)]
pub enum Form {
    /// The round that a ring of `size` and `tolerance` is quoted at, where `sound` switches are sound.
    Quote {
        size: u32,
        tolerance: u32,
        sound: u32,
    },
}

/// The number that an item of digits writes.
fn number(digits: Part<'_>) -> Result<u32, Flaw>
    ensures { result ≡ ok_or (read digits.entry.bytes.now) (WrongNumber digits.entry.place) }
{
    value_of(digits.bytes).ok_or(Flaw::WrongNumber(digits.place))
}

/// Three numbers and nothing more.
fn three_numbers(rest: Rest<'_>) -> Result<(Part<'_>, Part<'_>, Part<'_>), Flaw>
    ensures { MatchResult result (λ x. ThreeNumbers (pieces_of rest.entry) x.0 x.1 x.2) (λ e. Misses (end_of rest.entry) (pieces_of rest.entry) e) }
{
    let (first, rest) = rest.next_number()?;
    let (second, rest) = rest.next_number()?;
    let (third, rest) = rest.next_number()?;
    rest.end()?;
    Ok((first, second, third))
}

/// What follows the word of a quote form.
fn read_quote(rest: Rest<'_>) -> Result<Form, Flaw>
    ensures { result ≡ quote_of (end_of rest.entry) (pieces_of rest.entry) }
{
    let (size, tolerance, sound) = three_numbers(rest)?;
    let size = number(size)?;
    let tolerance = number(tolerance)?;
    let sound = number(sound)?;
    Ok(Form::Quote {
        size,
        tolerance,
        sound,
    })
}

/// The reader that the first word selects takes what follows it. (Matched against literals: docs/DECISIONS.md, 45.)
fn read_by_word(word: Part<'_>, rest: Rest<'_>) -> Result<Form, Flaw>
    ensures { result ≡ word_of (end_of rest.entry) (piece word.entry ∷ pieces_of rest.entry) }
{
    match word.bytes {
        b"quote" => read_quote(rest),
        _ => Err(Flaw::UnknownWord(word.place)),
    }
}

/// What stands between the brackets of a line.
fn read_inside(text: Rest<'_>) -> Result<Form, Flaw>
    ensures { result ≡ word_of (end_of text.entry) (pieces_at text.entry.place text.entry.bytes.now) }
{
    if text.is_empty() {
        return Err(Flaw::WrongItem(text.place()));
    }
    let Some((Item::Word(word), rest)) = text.item() else {
        return Err(Flaw::UnknownWord(text.place()));
    };
    read_by_word(word, rest)
}

/// Whether a line is within both limits, and one bracketed form.
fn is_whole(line: &[u8], last: usize) -> bool
    ensures { result ≡ whole last line.now }
{
    line.len() <= LINE_BYTES && last <= SCRIPT_BYTES && is_form(line)
}

/// The form that a line holds. Its last byte is the script's byte number `last`.
pub fn read_form(line: &[u8], last: usize) -> Result<Form, Flaw>
    ensures value { result ≡ form_of last line.now }
    ensures quotes { ReadsQuotes last line.now result }
{
    match Rest::inside(line) {
        Some(text) if is_whole(line, last) => read_inside(text),
        _ => Err(Flaw::NotAForm),
    }
}
