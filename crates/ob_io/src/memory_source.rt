//! Sources that hold their bytes in memory: one that never fails, and one whose chosen
//! reads fail. The one with failures is the other and a `FailPlan`, so that nothing
//! but the failures can differ.

ghost use Rattle.std.specs.Prelude.{◌≡◌, ℕ, ◌↔◌, max, [], length, Some, Ok, IfOk, OnErr, IsErr, is_err};
ghost use Rattle.ob_io.specs.Cause.{HasCause};
ghost use Rattle.ob_io.specs.Bytes.{Reads};
ghost use Rattle.ob_io.specs.Plan.{FailsNext, after_call};
ghost use Rattle.ob_io.specs.Memory.{read_count};

use crate::fault::Failed;
use crate::plan::FailPlan;
use crate::source::Source;
use ob_base::NoMemory;
use std::marker::Model;

/// A source of bytes in memory that never fails.
#[derive(Debug, Drop)]
pub struct SureSource {
    bytes: Vec<u8>,
    taken: usize,
    cut: usize,
}

impl Model for SureSource {
    ghost use Rattle.std.specs.Prelude.{ℕ, ◌≤◌, length, drop};
    ghost use Rattle.ob_io.specs.Memory.{Stream};

    ghost Value = { Stream };

    ghost view = { λ s. record { left = drop s.taken s.bytes.items; cut = s.cut } };

    ghost invariant = { λ s. (s.taken ≤ length s.bytes.items) × (1 ≤ s.cut) };
}

impl SureSource {
    /// Gives these bytes, at most `cut` of them in one read. A cut of 0 counts as 1.
    pub fn new(bytes: Vec<u8>, cut: usize) -> Result<SureSource, NoMemory>
        ensures { result ≡ Ok (record { left = bytes.items; cut = max cut 1 }) }
    {
        Ok(SureSource {
            bytes,
            taken: 0,
            cut: cut.max(1),
        })
    }

    /// Gives these bytes from now on, cut as before.
    pub(crate) fn restart(&mut self, bytes: Vec<u8>)
        ensures { self.new ≡ record { left = bytes.items; cut = self.old.cut } }
    {
        self.bytes = bytes;
        self.taken = 0;
    }

    /// Has nothing to give any more.
    pub(crate) fn end(&mut self)
        ensures { self.new ≡ record { left = []; cut = self.old.cut } }
    {
        self.taken = self.bytes.len();
    }
}

impl Source for SureSource {
    ghost left = { λ s. Some s.left };

    ghost faults = { λ _. 0 };

    fn read(&mut self, room: &mut [u8]) -> Result<usize, Failed>
        ensures answer { result ≡ Ok (read_count self.old (length room.old)) }
        ensures reads { IfOk result (λ n.
            Reads (Some self.old.left) (Some self.new.left) room.old room.new n) }
        ensures cut { self.new.cut ≡ self.old.cut }
    {
        let left = &self.bytes[self.taken..];
        let count = self.cut.min(room.len().min(left.len()));
        room[..count].copy_from_slice(&left[..count]);
        self.taken += count;
        Ok(count)
    }
}

/// A source of bytes in memory whose chosen reads fail.
#[derive(Debug, Drop)]
pub struct MemSource {
    source: SureSource,
    plan: FailPlan,
}

impl Model for MemSource {
    ghost use Rattle.ob_io.specs.Memory.{PlannedStream};

    ghost Value = { PlannedStream };

    ghost view = { λ s. record { stream = s.source; plan = s.plan } };
}

impl MemSource {
    /// Gives these bytes, at most `cut` of them in one read. A cut of 0 counts as 1.
    /// The reads that `fail` numbers, counted from 1, fail.
    pub fn new(bytes: Vec<u8>, cut: usize, fail: Vec<u64>) -> Result<MemSource, NoMemory>
        ensures { result ≡ Ok (record {
          stream = record { left = bytes.items; cut = max cut 1 };
          plan = record { fail = fail.items; made = 0; faults = 0 };
        }) }
    {
        Ok(MemSource {
            source: SureSource::new(bytes, cut)?,
            plan: FailPlan::new(fail),
        })
    }
}

impl Source for MemSource {
    ghost left = { λ s. Some s.stream.left };

    ghost faults = { λ s. s.plan.faults };

    fn read(&mut self, room: &mut [u8]) -> Result<usize, Failed>
        ensures fails { IsErr result ↔ FailsNext self.old.plan }
        ensures answer { IfOk result (λ n. n ≡ read_count self.old.stream (length room.old)) }
        ensures reads { IfOk result (λ n.
            Reads (Some self.old.stream.left) (Some self.new.stream.left) room.old room.new n) }
        ensures cut { self.new.stream.cut ≡ self.old.stream.cut }
        ensures failed { OnErr result
            ((self.new.stream ≡ self.old.stream) × (room.new ≡ room.old)) }
        ensures counted { self.new.plan ≡ after_call (is_err result) self.old.plan }
        ensures cause { HasCause self.old.plan.faults self.new.plan.faults (IsErr result) }
    {
        if self.plan.next_fails() {
            return Err(Failed);
        }
        self.source.read(room)
    }
}
