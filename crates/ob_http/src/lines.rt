//! Where a head ends: after the first empty line that follows its request line. Each byte
//! is looked at once, in however many pieces it comes.

ghost use Rattle.std.specs.Prelude.{◌≡◌, ◌+◌, ◌≤◌, None, IsNone, IfSome, Err, length, if◌then◌else◌};
ghost use Rattle.ob_base.specs.Limits.{max_head_bytes};
ghost use Rattle.ob_io.specs.Cause.{HasCause};
ghost use Rattle.ob_http.specs.Lines.{line_text, are_empty_lines};
ghost use Rattle.ob_http.specs.Head.{head_of};
ghost use Rattle.ob_http.specs.SoFar.{IsSoFar, IsNextFeed};
ghost use Rattle.ob_http.specs.Front.{BeginsWithHead, ReadsFront};
ghost use Rattle.ob_http.specs.Connection.{connection_of};

use crate::held::Held;
use crate::inlet::HttpFault;
use memchr::memchr;
use ob_io::Door;

/// A head whose end has come.
#[derive(Clone, Copy, Debug, Drop, PartialEq, Eq)]
pub(crate) struct HeadSize {
    /// Where the text of the request line begins and ends.
    pub(crate) line: (usize, usize),
    /// How many lines there are between the request line and the empty one.
    pub(crate) fields: usize,
    /// How many bytes it takes, with the empty lines before it and the one after.
    pub(crate) size: usize,
}

/// What the front of a connection's bytes is.
#[derive(Clone, Copy, Debug, PartialEq, Eq)]
pub(crate) enum Front {
    /// A whole head.
    Head(HeadSize),
    /// As many bytes as a head may have, and no end of one among them.
    TooLong,
    /// Empty lines, up to the end of the connection.
    Empty,
    /// A part of a head, up to the end of the connection.
    Part,
}

/// The lines of a head that have come so far.
#[derive(Clone, Copy)]
struct LinesSoFar {
    /// Where the line begins that hasn't come to its end.
    start: usize,
    /// Up to where there is no further line feed.
    searched: usize,
    /// Where the text of the request line begins and ends, once it has come.
    line: Option<(usize, usize)>,
    /// How many lines have come after the request line.
    fields: usize,
}

impl LinesSoFar {
    /// Takes the next line of the bytes, which a line feed ends at `end`, and tells the head
    /// where it is the empty line after its fields.
    fn take(&mut self, bytes: &[u8], end: usize) -> Option<HeadSize>
        requires so_far { IsSoFar bytes.now self.old }
        requires at { IsNextFeed bytes.now self.old.searched end }
        ensures more { IsNone result → IsSoFar bytes.now self.new × (self.new.searched ≡ end + 1) }
        ensures head { IfSome result (λ size. BeginsWithHead bytes.now size) }
    {
        let length = text_length(&bytes[self.start..end]);
        let text = (self.start, self.start + length);
        self.start = end + 1;
        self.searched = end + 1;
        match self.line {
            None => {
                if length > 0 {
                    self.line = Some(text);
                }
                None
            }
            Some(line) => {
                if length == 0 {
                    return Some(HeadSize {
                        line,
                        fields: self.fields,
                        size: self.start,
                    });
                }
                self.fields += 1;
                None
            }
        }
    }

    /// Takes the lines that the bytes have from here on, up to the end of a head.
    fn take_all(&mut self, bytes: &[u8]) -> Option<HeadSize>
        requires { IsSoFar bytes.now self.old }
        ensures more { IsNone result → IsSoFar bytes.now self.new × (self.new.searched ≡ length bytes.now) × (head_of bytes.now ≡ None) }
        ensures head { IfSome result (λ size. BeginsWithHead bytes.now size) }
    {
        while let Some(offset) = memchr(b'\n', &bytes[self.searched..]) {
            let end = self.searched + offset;
            if let Some(head) = self.take(bytes, end) {
                return Some(head);
            }
        }
        self.searched = bytes.len();
        None
    }

    /// What the bytes are where no more of them come.
    fn unfinished(&self, bytes: &[u8]) -> Front
        requires so_far { IsSoFar bytes.now self.now }
        requires all { self.now.searched ≡ length bytes.now }
        ensures { result ≡ (if are_empty_lines bytes.now then Front.Empty else Front.Part) }
    {
        if self.line.is_none() && self.start == bytes.len() {
            Front::Empty
        } else {
            Front::Part
        }
    }
}

/// The length of a line without the carriage return at its end.
fn text_length(line: &[u8]) -> usize
    ensures { result ≡ length (line_text line.now) }
{
    match line {
        [.., b'\r'] => line.len() - 1,
        _ => line.len(),
    }
}

/// Reads a head ahead, and no more of the connection than one read beyond it.
pub(crate) fn read_front<D: Door>(door: &mut D, held: &mut Held) -> Result<Front, HttpFault>
    ensures reads { ReadsFront
        (connection_of held.old (D.left door.old) (D.written door.old))
        (connection_of held.new (D.left door.new) (D.written door.new)) result }
    ensures few { length held.new.bytes ≤ max_head_bytes }
    ensures cause { HasCause (D.faults door.old) (D.faults door.new)
        (result ≡ Err HttpFault.Failed) }
    ensures others { (D.coming door.new ≡ D.coming door.old) × (D.next_faults door.new ≡ D.next_faults door.old) }
{
    let mut lines = LinesSoFar {
        start: 0,
        searched: 0,
        line: None,
        fields: 0,
    };
    loop {
        if let Some(head) = lines.take_all(held.bytes()) {
            return Ok(Front::Head(head));
        }
        if held.is_full() {
            return Ok(Front::TooLong);
        }
        if !held.fill(door)? {
            return Ok(lines.unfinished(held.bytes()));
        }
    }
}
