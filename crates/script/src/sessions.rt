// A script that comes in pieces: a session takes it byte by byte, and writes each answer when its line ends.
ghost use Rattle.std.specs.Prelude.{◌≡◌, ℕ, ◌+◌, ◌-◌, ◌^◌, ◌<◌, ◌≤◌, min, List, [], ◌∷◌, ◌++◌, IfOk, string_bytes, vec_len, OnOk};
ghost use Rattle.script.specs.Listing.{line_text, listing, line_feeds, counted, kept_with};

use crate::answers::{Line, answer_line};
use crate::forms::{LINE_BYTES, SCRIPT_BYTES};
use std::alloc::{AllocError, Global};

/// The first length of a line that is too long to be read.
const KEPT_BYTES: usize = LINE_BYTES + 1;

/// The first byte of a script that is past its limit.
const COUNTED_BYTES: usize = SCRIPT_BYTES + 1;

/// Reads a script and writes the answer to each of its lines. It holds no more of the script than the front of one line.
#[derive(Debug, Drop)]
pub struct Session {
    /// The number of the line that is read now, from 1, or the largest u64.
    number: u64,
    /// How many bytes of the script were read, counted up to the first that is past its limit.
    read: usize,
    /// The front of the line that is read now: one byte more than may be read, so that a line that is too long shows.
    kept: Vec<u8>,
    ghost numbered: { number < 2 ^ 64 },
    ghost counted: { read ≤ 32769 },
    ghost short: { vec_len kept ≤ 201 },
}

/// The listing of a whole script.
pub fn answer_script(heap: Global, script: &[u8]) -> Result<String, AllocError>
    ensures { IfOk result (λ out. string_bytes out ≡ listing script.now) }
{
    let mut out = String::new(heap);
    let mut session = Session::new(heap);
    session.feed(script, &mut out)?;
    session.finish(&mut out)?;
    Ok(out)
}

/// Writes the answer to a line, and a line feed.
fn write_reply(out: &mut String, line: Line<'_>) -> Result<(), AllocError>
    ensures { OnOk result (string_bytes out.new ≡ string_bytes out.old ++ line_text line.entry.last line.entry.bytes.now) }
{
    match answer_line(line) {
        Ok(answer) => writeln!(out, "{answer}"),
        Err(fault) => writeln!(out, "{fault}"),
    }
}

impl Session {
    ghost use Rattle.script.specs.Sessions.{due, Moved};

    pub fn new(heap: Global) -> Session
        ensures writes { (script : List ℕ) → due result script ≡ listing script }
        ensures counts { result.number ≡ 1 }
    {
        Session {
            number: 1,
            read: 0,
            kept: Vec::new(heap),
        }
    }

    /// Reads the next piece of the script, and writes the answers to the lines that end in it. However a script is cut
    /// into pieces, they and `finish` write its listing.
    pub fn feed(&mut self, piece: &[u8], out: &mut String) -> Result<(), AllocError>
        ensures { OnOk result (Moved self.old (string_bytes out.old) piece.now self.new (string_bytes out.new)) }
    {
        for b in piece {
            self.take_byte(*b, out)?;
        }
        Ok(())
    }

    /// The script is at its end. What follows the last line feed is a line if it is not empty.
    pub fn finish(self, out: &mut String) -> Result<(), AllocError>
        ensures { OnOk result (string_bytes out.new ≡ string_bytes out.old ++ due self []) }
    {
        if self.kept.is_empty() {
            return Ok(());
        }
        write_reply(out, self.line())
    }

    fn line(&self) -> Line<'_>
        ensures { (result.number ≡ self.now.number) × (result.last ≡ self.now.read) × (result.bytes.now ≡ self.now.kept.items) }
    {
        Line {
            number: self.number,
            last: self.read,
            bytes: self.kept.as_slice(),
        }
    }

    fn take_byte(&mut self, b: u8, out: &mut String) -> Result<(), AllocError>
        ensures { OnOk result (Moved self.old (string_bytes out.old) (b ∷ []) self.new (string_bytes out.new)) }
    {
        if b == b'\n' {
            self.end_line(out)
        } else {
            self.keep_byte(b)
        }
    }

    /// Answers the line that was read, and begins the next.
    fn end_line(&mut self, out: &mut String) -> Result<(), AllocError>
        ensures { OnOk result ((string_bytes out.new ≡ string_bytes out.old ++ line_text self.old.read self.old.kept.items) × (self.new.kept.items ≡ []) × (self.new.read ≡ counted self.old.read) × (self.new.number ≡ min (2 ^ 64 - 1) (self.old.number + 1))) }
    {
        write_reply(out, self.line())?;
        self.kept.clear();
        self.number = self.number.saturating_add(1);
        self.count_byte();
        Ok(())
    }

    fn keep_byte(&mut self, b: u8) -> Result<(), AllocError>
        ensures { OnOk result ((self.new.kept.items ≡ kept_with self.old.kept.items b) × (self.new.read ≡ counted self.old.read) × (self.new.number ≡ self.old.number)) }
    {
        if self.kept.len() < KEPT_BYTES {
            self.kept.push(b)?;
        }
        self.count_byte();
        Ok(())
    }

    fn count_byte(&mut self)
        ensures { (self.new.read ≡ counted self.old.read) × (self.new.number ≡ self.old.number) × (self.new.kept ≡ self.old.kept) }
    {
        self.read = COUNTED_BYTES.min(self.read + 1);
    }
}
