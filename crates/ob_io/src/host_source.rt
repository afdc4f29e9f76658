//! The source of the real thing: standard input.

ghost use Rattle.std.specs.Prelude.{◌≡◌, None, IfOk, OnErr, IsOk, IsErr, is_err};
ghost use Rattle.std.specs.Io.KnownBytes.{ReadConsumes};
ghost use Rattle.ob_io.specs.Cause.{HasCause};
ghost use Rattle.ob_io.specs.Bytes.{Reads};
ghost use Rattle.ob_io.specs.Faults.{count_after};

use crate::fault::{Failed, counted};
use crate::source::Source;
use ob_base::NoMemory;
use std::io::{Input, Read};
use std::marker::Model;

/// How many bytes one read asks of the host at most.
const READ_SIZE: usize = 8192;

/// Standard input. Each read of the host that fails is counted, an interrupted one too.
#[derive(Drop)]
pub struct StdSource<R: Input> {
    reader: R::Reader,
    faults: u64,
}

impl<R: Input> Model for StdSource<R> {
    ghost use Rattle.ob_io.specs.Host.{HostInput};

    ghost Value = { HostInput };

    ghost view = { λ s. record { left = R.Reader.remaining s.reader; faults = s.faults } };
}

impl<R: Input> StdSource<R> {
    /// Reads what comes in to this runtime.
    pub fn new(rt: &R) -> Result<StdSource<R>, NoMemory>
        ensures fresh { IfOk result (λ s. s.faults ≡ 0) }
        ensures succeeds { IsOk result }
    {
        Ok(StdSource {
            reader: rt.reader(),
            faults: 0,
        })
    }
}

impl<R: Input> Source for StdSource<R> {
    ghost left = { λ _. None };

    ghost faults = { λ s. s.faults };

    /// The host may write anywhere in what it is handed, so it is handed an array and
    /// not the room.
    fn read(&mut self, room: &mut [u8]) -> Result<usize, Failed>
        ensures reads { IfOk result (λ n. Reads None None room.old room.new n) }
        ensures failed { OnErr result (room.new ≡ room.old) }
        // Says which bytes these are only where the runtime's reader tells them.
        ensures bytes { ReadConsumes self.old.left self.new.left result room.new }
        ensures counted { self.new.faults ≡ count_after (is_err result) self.old.faults }
        ensures cause { HasCause self.old.faults self.new.faults (IsErr result) }
    {
        let mut bytes = [0u8; READ_SIZE];
        let limit = room.len().min(READ_SIZE);
        let count = counted(self.reader.read(&mut bytes[..limit]), &mut self.faults)?;
        room[..count].copy_from_slice(&bytes[..count]);
        Ok(count)
    }
}
