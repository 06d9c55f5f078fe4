// An item of a line, and the reader that takes it from the front of what is left.
ghost use Rattle.std.specs.Prelude.{◌≡◌, ◌+◌, ◌≤◌, [], length, MatchOption};
ghost use Rattle.script.specs.Items.{span, front, Reads};

use crate::brackets::{depth_after, is_form};
use crate::numerals::is_number;

/// A part of a line, with the place of its first byte in the line, from 1.
#[derive(Clone, Copy, Debug, PartialEq, Eq)]
pub struct Part<'a> {
    pub bytes: &'a [u8],
    pub place: usize,
}

/// What stands between two spaces: each item is a part of its line.
#[derive(Clone, Copy, Debug, PartialEq, Eq)]
pub enum Item<'a> {
    Word(Part<'a>),
    /// Decimal digits and nothing else.
    Number(Part<'a>),
    /// One bracketed form.
    Form(Part<'a>),
}

/// How many bytes the item at the front has: it goes on to the first space outside its brackets, or to the end.
fn item_len(text: &[u8]) -> usize
    ensures value { result ≡ span 0 text.now }
    ensures bound { result ≤ length text.now }
{
    // As a chain this is a `position` whose closure changes the depth after each answer: no plainer.
    let mut depth = 0;
    for (i, b) in text.iter().enumerate() {
        if depth == 0 && *b == b' ' {
            return i;
        }
        depth = depth_after(depth, *b);
    }
    text.len()
}

/// The item at the front of `text`, whose first byte stands at `place` of the line, and what follows it: nothing, or a
/// space and more. None where the item is empty.
pub fn read_item(text: &[u8], place: usize) -> Option<(Item<'_>, &[u8])>
    ensures { MatchOption result (front text.now ≡ []) (λ x. Reads text.now place x.0 x.1.now) }
{
    let (bytes, rest) = text.split_at(item_len(text));
    let part = Part { bytes, place };
    if bytes.is_empty() {
        None
    } else if is_number(bytes) {
        Some((Item::Number(part), rest))
    } else if is_form(bytes) {
        Some((Item::Form(part), rest))
    } else {
        Some((Item::Word(part), rest))
    }
}
