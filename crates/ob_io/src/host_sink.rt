//! The sink of the real thing: standard output.

ghost use Rattle.std.specs.Prelude.{◌≡◌, ◌<◌, ◌≤◌, length, None, Ok, IfOk, IsErr, is_err};
ghost use Rattle.std.specs.Io.KnownBytes.{WriteAppends};
ghost use Rattle.ob_io.specs.Cause.{HasCause};
ghost use Rattle.ob_io.specs.Bytes.{Writes};
ghost use Rattle.ob_io.specs.Faults.{count_after};

use crate::fault::{Failed, counted};
use crate::sink::Sink;
use ob_base::NoMemory;
use std::io;
use std::io::Write;
use std::marker::Model;

/// Standard output, without a buffer. Each write of the host that fails is counted, and
/// one that takes nothing of a piece that isn't empty; the count is what contracts see.
#[derive(Drop)]
pub struct StdSink<R: Print> {
    rt: R,
    faults: u64,
}

impl<R: Print> Model for StdSink<R> {
    ghost use Rattle.std.specs.Prelude.{ℕ};

    ghost Value = { ℕ };

    ghost view = { λ s. s.faults };
}

impl<R: Print> StdSink<R> {
    /// Writes where this runtime prints.
    pub fn new(rt: R) -> Result<StdSink<R>, NoMemory>
        ensures { result ≡ Ok 0 }
    {
        Ok(StdSink { rt, faults: 0 })
    }
}

impl<R: Print> Sink for StdSink<R> {
    ghost written = { λ _. None };

    ghost faults = { λ s. s };

    fn write(&mut self, piece: &[u8]) -> Result<usize, Failed>
        ensures writes { IfOk result (λ n. Writes None None piece.now n) }
        ensures counted { self.new ≡ count_after (is_err result) self.old }
        ensures cause { HasCause self.old self.new (IsErr result) }
    {
        write_counted(&mut io::writer(&self.rt), piece, &mut self.faults)
    }
}

/// Writes to any writer, and counts the write where it fails or takes nothing of a piece
/// that isn't empty.
fn write_counted<W: Write>(writer: &mut W, piece: &[u8], faults: &mut u64) -> Result<usize, Failed>
    // Says which bytes were written where the writer tells them.
    ensures bytes { WriteAppends (W.contents writer.old) (W.contents writer.new) result piece.now }
    ensures takes { IfOk result (λ n. (n ≤ length piece.now) × (0 < length piece.now → 0 < n)) }
    ensures counted { faults.new ≡ count_after (is_err result) faults.old }
    ensures cause { HasCause faults.old faults.new (IsErr result) }
{
    let count = counted(writer.write(piece), faults)?;
    if count == 0 && !piece.is_empty() {
        *faults = faults.saturating_add(1);
        return Err(Failed);
    }
    Ok(count)
}
