// A scheme that keeps the signed places in lines.
ghost use Rattle.std.specs.Prelude.{◌≡◌, ℕ, ◌+◌, ◌-◌, ◌<◌, ◌≤◌, ◌⊎◌, true, length, take, slice_index, position, ◌==◌, Some, None, MatchOption, MatchResult};
ghost use Rattle.counting.specs.Lists.{distinct, below};
ghost use Rattle.scheme.specs.Counts.{unfit};

use crate::counts::check_fit;
use crate::refusals::Refusal;

mod signing;

/// The signed places, one to a line, in lines that are lent. The mark of a place is the number of its line, from 1.
// A vector would need a heap, which no scheme has: the lines are the caller's, with the number in use beside them.
#[derive(Debug, Drop)]
pub struct Book<'a> {
    lines: &'a mut [u32],
    used: u32,
    count: u32,
    ghost few: { count ≤ 16384 },
    ghost enough: { count ≤ length lines.now },
    ghost within: { used ≤ length lines.now },
    ghost apart: { distinct (take used lines.now) ≡ true },
    ghost low: { below count (take used lines.now) ≡ true },
}

impl<'a> Book<'a> {
    ghost use Rattle.scheme.specs.Books.{marks, NextLine};

    /// A scheme of `count` places with none signed, over lines that may hold anything. No line is written, and a refusal
    /// hands the lines back.
    pub fn new(lines: &'a mut [u32], count: u32) -> Result<Book<'a>, (&'a mut [u32], Refusal)>
        ensures cases { MatchResult result (λ book. (unfit count (length lines.old) ≡ None) × (book.count ≡ count) × (book.used ≡ 0)) (λ e. unfit count (length lines.old) ≡ Some e.1) }
        ensures same { MatchResult result (λ book. book.lines.now ≡ lines.old) (λ e. e.0.now ≡ lines.old) }
        ensures lent { MatchResult result (λ book. book.lines.ghost_name ≡ lines.entry.ghost_name) (λ e. e.0.ghost_name ≡ lines.entry.ghost_name) }
    {
        match check_fit(count, lines.len()) {
            Ok(()) => Ok(Book {
                lines,
                used: 0,
                count,
            }),
            Err(refusal) => Err((lines, refusal)),
        }
    }

    /// A book without places, over lines that may hold anything.
    pub fn over(lines: &'a mut [u32]) -> Book<'a>
        ensures { (result.count ≡ 0) × (result.used ≡ 0) × (result.lines.now ≡ lines.old) }
    {
        Book {
            lines,
            used: 0,
            count: 0,
        }
    }

    /// Begins anew, as a scheme of `count` places with none signed. No line is written.
    pub fn begin(&mut self, count: u32) -> Result<(), Refusal>
        ensures cases { MatchResult result (λ _. (unfit count (length self.old.lines.now) ≡ None) × (self.new.count ≡ count) × (self.new.used ≡ 0)) (λ e. (unfit count (length self.old.lines.now) ≡ Some e) × (self.new.count ≡ self.old.count) × (self.new.used ≡ self.old.used)) }
        ensures same { self.new.lines.now ≡ self.old.lines.now }
    {
        check_fit(count, self.lines.len())?;
        self.used = 0;
        self.count = count;
        Ok(())
    }

    /// The index of the line that has a place, if a line in use has it.
    fn line_of(&self, place: u32) -> Option<usize>
        ensures { result ≡ position (λ line. line == place) (take self.now.used self.now.lines.now) }
    {
        self.lines[..self.used as usize]
            .iter()
            .position(|line| *line == place)
    }

    /// The mark of a place, if it is signed.
    fn mark_of(&self, place: u32) -> Option<u32>
        ensures { MatchOption result (marks self.now place ≡ 0) (λ mark. (marks self.now place ≡ mark) × (1 ≤ mark)) }
    {
        let line = self.line_of(place)?;
        Some(line as u32 + 1)
    }

    /// The place in the line that a mark numbers, if that line is in use.
    fn place_of(&self, mark: u32) -> Option<u32>
        ensures { MatchOption result ((mark ≡ 0) ⊎ (self.now.used < mark)) (λ p. (1 ≤ mark) × (mark ≤ self.now.used) × (p ≡ slice_index self.now.lines.now (mark - 1))) }
    {
        let line = mark.checked_sub(1)?;
        self.lines[..self.used as usize].get(line as usize).copied()
    }

    /// Writes a place that is not signed into the next line. The places that are signed are different and below the
    /// count, and this is one more of them, so there is a line left.
    fn write_next(&mut self, place: u32) -> u32
        requires below { place < self.old.count }
        requires new { marks self.old place ≡ 0 }
        ensures { NextLine self.old place self.new result }
    {
        self.lines[self.used as usize] = place;
        self.used += 1;
        self.used
    }
}
