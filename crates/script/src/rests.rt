// What is left of a line while its form is read.
ghost use Rattle.std.specs.Prelude.{◌≡◌, ◌+◌, ◌^◌, ◌<◌, true, [], length, ◌==◌, IfSome, IfOk, MatchOption, MatchResult};
ghost use Rattle.script.specs.declared.flaws.Flaw.TheVariants.{WrongItem};
ghost use Rattle.script.specs.Forms.{NextNumber, next_place, is_no_number, inner};
ghost use Rattle.script.specs.Items.{front, Reads};

use crate::flaws::Flaw;
use crate::items::{Item, Part, read_item};

/// What is left of a line, and the place in the line where it begins, from 1. (Not a `Part`, whose place may be any.)
#[derive(Clone, Copy, Debug)]
pub(crate) struct Rest<'a> {
    bytes: &'a [u8],
    place: usize,
    /// Even the place after it is a `usize`.
    ghost fits: { place + length bytes.now < 2 ^ 64 },
}

impl<'a> Rest<'a> {
    /// What stands between the first byte of a line and its last; none where these are not two.
    pub(crate) fn inside(line: &'a [u8]) -> Option<Rest<'a>>
        ensures bytes { MatchOption result (length line.now < 2) (λ r. r.bytes.now ≡ inner line.now) }
        ensures place { IfSome result (λ r. (r.place ≡ 2) × (length r.bytes.now + 2 ≡ length line.now)) }
    {
        let [_, bytes @ .., _] = line else {
            return None;
        };
        Some(Rest { bytes, place: 2 })
    }

    pub(crate) fn place(&self) -> usize
        ensures { result ≡ self.now.place }
    {
        self.place
    }

    pub(crate) fn is_empty(&self) -> bool
        ensures { result ≡ (length self.now.bytes.now == 0) }
    {
        self.bytes.is_empty()
    }

    /// The item at the front, and what follows it. None where the item is empty.
    pub(crate) fn item(self) -> Option<(Item<'a>, Rest<'a>)>
        ensures item { MatchOption result (front self.entry.bytes.now ≡ []) (λ x. Reads self.entry.bytes.now self.entry.place x.0 x.1.bytes.now) }
        ensures end { IfSome result (λ x. x.1.place + length x.1.bytes.now ≡ self.entry.place + length self.entry.bytes.now) }
    {
        let (item, bytes) = read_item(self.bytes, self.place)?;
        let place = self.place + (self.bytes.len() - bytes.len());
        Some((item, Rest { bytes, place }))
    }

    /// The next item, a number, and what follows it. Nothing is left before it, or a space stands at the front.
    pub(crate) fn next_number(self) -> Result<(Part<'a>, Rest<'a>), Flaw>
        ensures number { MatchResult result (λ x. NextNumber self.entry.place self.entry.bytes.now x.0 x.1.bytes.now) (λ e. (e ≡ WrongItem (next_place self.entry.place self.entry.bytes.now)) × (is_no_number self.entry.bytes.now ≡ true)) }
        ensures end { IfOk result (λ x. x.1.place ≡ x.0.place + length x.0.bytes.now) }
    {
        let [_, bytes @ ..] = self.bytes else {
            return Err(Flaw::WrongItem(self.place));
        };
        let place = self.place + 1;
        let Some((Item::Number(part), rest)) = (Rest { bytes, place }).item() else {
            return Err(Flaw::WrongItem(place));
        };
        Ok((part, rest))
    }

    /// Nothing may be left. What is left begins with a space, and an item too many after it.
    pub(crate) fn end(self) -> Result<(), Flaw>
        ensures { MatchResult result (λ _. self.entry.bytes.now ≡ []) (λ e. (e ≡ WrongItem (self.entry.place + 1)) × (0 < length self.entry.bytes.now)) }
    {
        if self.bytes.is_empty() {
            Ok(())
        } else {
            Err(Flaw::WrongItem(self.place + 1))
        }
    }
}
