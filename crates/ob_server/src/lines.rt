//! Cuts the stream of requests into lines, which end at a line feed.
//!
//! A line feed ends a line, and the last line needs none. The reader keeps one line
//! and one room of bytes that it has read ahead, so its memory does not grow with the
//! input. The size of the room may be changed here; the limits of a line and of the
//! input are ob_base's.

ghost use Rattle.std.specs.Prelude.{◌≡◌, ◌≢◌, ◌+◌, ◌≤◌, ◌<◌, ◌↔◌, ℕ, [], if◌then◌else◌, length, IsTrue, IsFalse, IsErr, IfOk, IfSome, List, OnErr};
ghost use Rattle.std.specs.List.{position_or_len};
ghost use Rattle.ob_io.specs.Cause.{HasCause, Rose};
ghost use Rattle.ob_base.specs.Limits.{max_line_bytes, max_input_bytes};
ghost use Rattle.ob_server.specs.Lines.{is_line_feed, is_blank_line, stream_of, GivesPart, ReadsLine, IsAtEnd, StopsInLine, IsTooLong};
ghost use Rattle.ob_server.specs.LineSteps.{TakesPiece, IsPieceTooLong};
ghost use Rattle.ob_server.specs.declared.lines.LineFault.TheVariants as LineFaults;

use memchr::memchr;
use ob_base::NoMemory;
use ob_base::limits::{MAX_BODY_BYTES, MAX_INPUT_BYTES};
use ob_io::{Failed, Source};
use std::alloc::{AllocError, Global};
use std::marker::Model;
use thiserror::Error;

/// How many bytes are read ahead at most.
const ROOM: usize = 65_536;

/// Why no line was read.
#[derive(Clone, Copy, Debug, PartialEq, Eq, Error)]
pub enum LineFault {
    /// A read failed. What had come of the line by then has no line feed.
    #[error("the input failed")]
    Failed,
    /// The line of this number, from 1, is longer than a line or the input may be.
    #[error("line {0} is too long")]
    TooLong(u64),
    /// An allocation failed.
    #[error("no memory")]
    NoMemory,
}

impl From<Failed> for LineFault {
    ghost from_gives = { λ _ e. e ≡ LineFaults.Failed };

    fn from(_failed: Failed) -> LineFault {
        LineFault::Failed
    }
}

impl From<AllocError> for LineFault {
    ghost from_gives = { λ _ e. e ≡ LineFaults.NoMemory };

    fn from(_error: AllocError) -> LineFault {
        LineFault::NoMemory
    }
}

/// Reads the lines of a source, one after another. The last line stays until the next.
#[derive(Drop)]
pub struct LineReader {
    room: Vec<u8>,
    start: usize,
    end: usize,
    line: Vec<u8>,
    lines: u64,
    consumed: u64,
}

impl Model for LineReader {
    ghost use Rattle.std.specs.Prelude.{◌≡◌, ◌-◌, ◌≤◌, length, take, drop};
    ghost use Rattle.ob_server.specs.Lines.{Reading};
    ghost use Rattle.ob_base.specs.Limits.{max_line_bytes, max_input_bytes};
    ghost use Rattle.ob_server.specs.declared.lines.TheConstants.{ROOM};

    ghost Value = { Reading };

    ghost view = { λ r. record {
      held = take (r.end - r.start) (drop r.start r.room.items);
      line = r.line.items;
      lines = r.lines;
      consumed = r.consumed;
    } };

    ghost invariant = { λ r. (length r.room.items ≡ ROOM) × (r.end ≤ ROOM) × (r.start ≤ r.end)
        × (length r.line.items ≤ max_line_bytes) × (r.lines ≤ r.consumed) × (r.consumed ≤ max_input_bytes) };
}

impl LineReader {
    /// A reader at the start of its input.
    pub fn new(alloc: Global) -> Result<LineReader, NoMemory>
        ensures { IfOk result (λ reader. reader ≡ record { held = []; line = []; lines = 0; consumed = 0 }) }
    {
        Ok(LineReader {
            room: vec![in alloc; 0; ROOM]?,
            start: 0,
            end: 0,
            line: Vec::new(alloc),
            lines: 0,
            consumed: 0,
        })
    }

    /// The line that was read last, without its line feed.
    pub fn line(&self) -> &[u8]
        ensures { result.now ≡ self.now.line }
    {
        self.line.as_slice()
    }

    /// How many bytes the lines took that were read, with their line feeds.
    pub fn consumed(&self) -> u64
        ensures { result ≡ self.now.consumed }
    {
        self.consumed
    }

    /// Reads the next line of the input, which `line` then gives: `true`, or `false` at
    /// the end of the input, where there is none.
    ///
    /// `TooLong` comes as soon as a byte is read that the line or the input may not have,
    /// whether or not a line feed follows. Beyond the line's end no more is read than what
    /// one read gave. After an `Err` the reader has lost its place in the input, and is of
    /// no further use.
    pub fn advance<S: Source>(&mut self, input: &mut S) -> Result<bool, LineFault>
        ensures line { IfOk result (λ more. IsTrue more
            → ReadsLine self.old self.new (S.left input.old) (S.left input.new)) }
        ensures short { length self.new.line ≤ max_line_bytes }
        ensures in_input { self.new.consumed ≤ max_input_bytes }
        ensures end { IfOk result (λ more. IsFalse more
            → IsAtEnd self.old self.new (S.left input.old) (S.left input.new)) }

        ensures number { (n : ℕ) → result ≡ Err (LineFault.TooLong n) → n ≡ self.old.lines + 1 }
        ensures too_long { (n : ℕ) → result ≡ Err (LineFault.TooLong n)
            → IfSome (stream_of self.old (S.left input.old)) (IsTooLong self.old.consumed) }

        // A failed read shows in the source's count of faults.
        ensures failed { result ≡ Err LineFault.Failed
            → Rose (S.faults input.old) (S.faults input.new) }
        ensures within { result ≡ Err LineFault.Failed
            → StopsInLine self.old self.new (S.left input.old) (S.left input.new) }
        ensures count { S.faults input.old ≤ S.faults input.new }

        // In any case the source gave a part of what it had left.
        ensures given { (part : List ℕ) × GivesPart (S.left input.old) (S.left input.new) part }
        ensures err { OnErr result (self.new.lines ≡ self.old.lines) }
    {
        self.line.clear();
        'pieces: while !self.take_piece()? {
            if !self.fill(input)? {
                return Ok(self.end_line());
            }
        }
        Ok(true)
    }

    /// Reads the next bytes into the room, all of whose bytes are consumed, and says
    /// whether any came: none come at the end of the input.
    fn fill<S: Source>(&mut self, input: &mut S) -> Result<bool, Failed>
        requires { self.old.held ≡ [] }
        ensures given { GivesPart (S.left input.old) (S.left input.new) self.new.held }
        ensures more { IfOk result (λ more. IsTrue more ↔ (0 < length self.new.held)) }
        ensures end { IfOk result (λ more. IsFalse more
            → IfSome (S.left input.old) (λ left. left ≡ [])) }
        ensures reading { self.new ≡ record self.old { held = self.new.held } }
        ensures err { OnErr result (self.new.held ≡ []) }
        ensures cause { HasCause (S.faults input.old) (S.faults input.new) (IsErr result) }
    {
        self.start = 0;
        self.end = 0;
        let count = input.read(self.room.as_mut_slice())?;
        self.end = count;
        Ok(count > 0)
    }

    /// Counts the line that ends with the input, and says whether there is one: it isn't
    /// a line where it is empty.
    fn end_line(&mut self) -> bool
        requires { 0 < length self.old.line → self.old.lines < self.old.consumed }
        ensures some { IsTrue result ↔ (0 < length self.old.line) }
        ensures reading { self.new
            ≡ record self.old { lines = self.old.lines + (if result then 1 else 0) } }
    {
        let is_line = !self.line.is_empty();
        self.lines += u64::from(is_line);
        is_line
    }

    /// Moves the first line of the held bytes to the line, and says whether it is whole.
    fn take_piece(&mut self) -> Result<bool, LineFault>
        ensures piece { IfOk result (TakesPiece self.old self.new) }
        ensures short { length self.new.line ≤ max_line_bytes }
        ensures in_input { self.new.consumed ≤ max_input_bytes }
        ensures number { (n : ℕ) → result ≡ Err (LineFault.TooLong n) → n ≡ self.old.lines + 1 }
        ensures too_long { (n : ℕ) → result ≡ Err (LineFault.TooLong n) → IsPieceTooLong self.old }
        ensures err { OnErr result (self.new.lines ≡ self.old.lines) }
        ensures no_read { result ≢ Err LineFault.Failed }
    {
        let held = &self.room[self.start..self.end];
        let count = line_len(held);
        let whole = count < held.len();
        let taken = count + usize::from(whole);
        let length = self.line.len() + count;
        let consumed = self.consumed + taken as u64;
        if length > MAX_BODY_BYTES || consumed > MAX_INPUT_BYTES {
            return Err(LineFault::TooLong(self.lines + 1));
        }
        self.line.extend_from_slice(&held[..count])?;
        self.start += taken;
        self.consumed = consumed;
        self.lines += u64::from(whole);
        Ok(whole)
    }
}

/// The length of the first line of these bytes, without its line feed.
fn line_len(bytes: &[u8]) -> usize
    ensures value { result ≡ position_or_len is_line_feed bytes.now }
    ensures bound { result ≤ length bytes.now }
{
    memchr(b'\n', bytes).unwrap_or(bytes.len())
}

/// Whether the line has only spaces, tabs and carriage returns.
pub fn is_blank(line: &[u8]) -> bool
    ensures { result ≡ is_blank_line line.now }
{
    line.iter()
        .all(|byte| matches!(*byte, b' ' | b'\t' | b'\r'))
}
