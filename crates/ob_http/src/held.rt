//! What was read of a connection beyond its last message, and how much was read at all.
//! The room of one read may be changed here; the limit of a head is ob_base's, and no
//! more than one head is ever read ahead.

ghost use Rattle.std.specs.Prelude.{◌≡◌, ◌^◌, ◌≤◌, ◌<◌, ◌↔◌, [], length, drop, IsTrue, Err, option_map};
ghost use Rattle.std.specs.Result.{result_map_both};
ghost use Rattle.ob_base.specs.Limits.{max_head_bytes};
ghost use Rattle.ob_io.specs.Cause.{HasCause};
ghost use Rattle.ob_http.specs.Connection.{connection_of, more_taken};
ghost use Rattle.ob_http.specs.Front.{Fills, TakesBody};

use crate::inlet::HttpFault;
use ob_base::limits::MAX_HEAD_BYTES;
use ob_io::Door;
use std::alloc::Global;
use std::marker::Model;

/// How many bytes one read of a head asks for at most.
const PIECE: usize = 4_096;

/// The bytes of the current connection that were read ahead. One is made for each
/// connection.
#[derive(Debug, Drop)]
pub struct Held {
    alloc: Global,
    bytes: Vec<u8>,
    taken: u64,
}

impl Model for Held {
    ghost use Rattle.std.specs.Prelude.{◌^◌, ◌<◌, ◌≤◌, length};
    ghost use Rattle.ob_http.specs.Connection.{ReadAhead};
    ghost use Rattle.ob_base.specs.Limits.{max_head_bytes};

    ghost Value = { ReadAhead };

    ghost view = { λ h. record { bytes = h.bytes.items; taken = h.taken } };

    ghost invariant = { λ h. (length h.bytes.items ≤ max_head_bytes) × (h.taken < 2 ^ 64) };
}

impl Held {
    /// Nothing read yet. It takes no memory.
    pub fn new(alloc: Global) -> Held
        ensures { result ≡ record { bytes = []; taken = 0 } }
    {
        Held {
            alloc,
            bytes: Vec::new(alloc),
            taken: 0,
        }
    }

    /// How many bytes were read so far, as far as a u64 can tell.
    pub fn taken(&self) -> u64
        ensures { result ≡ self.now.taken }
    {
        self.taken
    }

    /// The bytes that were read ahead.
    pub(crate) fn bytes(&self) -> &[u8]
        ensures value { result.now ≡ self.now.bytes }
        ensures few { length self.now.bytes ≤ max_head_bytes }
        ensures counted { self.now.taken < 2 ^ 64 }
    {
        self.bytes.as_slice()
    }

    /// Whether no more can be read ahead.
    pub(crate) fn is_full(&self) -> bool
        ensures { IsTrue result ↔ (max_head_bytes ≤ length self.now.bytes) }
    {
        self.bytes.len() >= MAX_HEAD_BYTES
    }

    /// Reads more bytes ahead, and says whether any came: none come at the connection's end.
    pub(crate) fn fill<D: Door>(&mut self, door: &mut D) -> Result<bool, HttpFault>
        requires { length self.old.bytes < max_head_bytes }
        ensures fills { Fills
            (connection_of self.old (D.left door.old) (D.written door.old))
            (connection_of self.new (D.left door.new) (D.written door.new)) result }
        ensures few { length self.new.bytes ≤ max_head_bytes }
        ensures cause { HasCause (D.faults door.old) (D.faults door.new)
            (result ≡ Err HttpFault.Failed) }
        ensures others { (D.coming door.new ≡ D.coming door.old) × (D.next_faults door.new ≡ D.next_faults door.old) }
    {
        let mut piece = [0u8; PIECE];
        let room = PIECE.min(MAX_HEAD_BYTES - self.bytes.len());
        let count = door.read(&mut piece[..room])?;
        self.count(count);
        self.bytes.extend_from_slice(&piece[..count])?;
        Ok(count > 0)
    }

    /// Lets the first bytes go.
    pub(crate) fn pass(&mut self, count: usize)
        requires { count ≤ length self.old.bytes }
        ensures passes { self.new ≡ record self.old { bytes = drop count self.old.bytes } }
        ensures few { length self.new.bytes ≤ max_head_bytes }
    {
        self.bytes.drain(..count);
    }

    /// A body of this size: what of it was read ahead, then what the connection sends.
    /// `None` where the connection ends before.
    pub(crate) fn body<D: Door>(
        &mut self,
        door: &mut D,
        size: usize,
    ) -> Result<Option<Vec<u8>>, HttpFault>
        ensures takes { TakesBody
            (connection_of self.old (D.left door.old) (D.written door.old))
            (connection_of self.new (D.left door.new) (D.written door.new))
            size (result_map_both (option_map (λ body. body.items)) (λ fault. fault) result) }
        ensures few { length self.new.bytes ≤ max_head_bytes }
        ensures cause { HasCause (D.faults door.old) (D.faults door.new)
            (result ≡ Err HttpFault.Failed) }
        ensures others { (D.coming door.new ≡ D.coming door.old) × (D.next_faults door.new ≡ D.next_faults door.old) }
    {
        let mut body = Vec::with_capacity(self.alloc, size)?;
        let mut filled = size.min(self.bytes.len());
        body.extend_from_slice(&self.bytes[..filled])?;
        body.resize(size, 0)?;
        self.pass(filled);
        while filled < size {
            let count = door.read(&mut body[filled..])?;
            if count == 0 {
                return Ok(None);
            }
            self.count(count);
            filled += count;
        }
        Ok(Some(body))
    }

    /// Counts bytes that were read.
    fn count(&mut self, count: usize)
        ensures { self.new ≡ record self.old { taken = more_taken self.old.taken count } }
    {
        self.taken = self.taken.saturating_add(count as u64);
    }
}
