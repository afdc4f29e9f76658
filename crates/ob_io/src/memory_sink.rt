//! Sinks that keep what is written in memory: one that fails only where it is full, and
//! one whose chosen writes fail too. Their memory is taken when they are made, so that
//! no write can fail for want of it.

ghost use Rattle.std.specs.Prelude.{◌≡◌, ◌+◌, ◌↔◌, ◌⊎◌, true, false, min, [], length, Some, IfOk, OnErr, IsOk, IsErr, is_err};
ghost use Rattle.ob_io.specs.Cause.{HasCause};
ghost use Rattle.ob_io.specs.Bytes.{Writes};
ghost use Rattle.ob_io.specs.Plan.{FailsNext, after_call};
ghost use Rattle.ob_io.specs.Faults.{count_after};
ghost use Rattle.ob_io.specs.Memory.{IsFullFor, SameBytes, total_faults};

use crate::fault::Failed;
use crate::plan::FailPlan;
use crate::sink::Sink;
use ob_base::NoMemory;
use std::alloc::Global;
use std::marker::Model;

/// A sink in memory that fails only where it is full.
#[derive(Debug, Drop)]
pub struct SureSink {
    written: Vec<u8>,
    room: usize,
    faults: u64,
}

impl Model for SureSink {
    ghost use Rattle.std.specs.Prelude.{ℕ, ◌+◌, ◌≤◌, vec_len, vec_capacity};
    ghost use Rattle.ob_io.specs.Memory.{Buffer};

    ghost Value = { Buffer };

    ghost view = { λ s. record { written = s.written.items; room = s.room; faults = s.faults } };

    ghost invariant = { λ s. vec_len s.written + s.room ≤ vec_capacity s.written };
}

impl SureSink {
    /// Has room for so many bytes, whose memory it takes at once: NoMemory where there
    /// is too little of it.
    pub fn new(alloc: Global, room: usize) -> Result<SureSink, NoMemory>
        ensures made { IfOk result (λ s. s ≡ record { written = []; room = room; faults = 0 }) }
        ensures succeeds { room ≡ 0 → IsOk result }
    {
        Ok(SureSink {
            written: Vec::with_capacity(alloc, room)?,
            room,
            faults: 0,
        })
    }

    /// All bytes that were written.
    pub fn written(&self) -> &[u8]
        ensures { result.now ≡ self.now.written }
    {
        &self.written
    }
}

impl Sink for SureSink {
    ghost written = { λ s. Some s.written };

    ghost faults = { λ s. s.faults };

    fn write(&mut self, piece: &[u8]) -> Result<usize, Failed>
        ensures fails { IsErr result ↔ IsFullFor piece.now self.old }
        ensures answer { IfOk result (λ n. n ≡ min (length piece.now) self.old.room) }
        ensures writes { IfOk result (λ n.
            Writes (Some self.old.written) (Some self.new.written) piece.now n) }
        ensures room { IfOk result (λ n. self.new.room + n ≡ self.old.room) }
        ensures failed { OnErr result (SameBytes self.old self.new) }
        ensures counted { self.new.faults ≡ count_after (is_err result) self.old.faults }
        ensures cause { HasCause self.old.faults self.new.faults (IsErr result) }
    {
        let count = piece.len().min(self.room);
        if count == 0 && !piece.is_empty() {
            self.faults = self.faults.saturating_add(1);
            return Err(Failed);
        }
        match self.written.extend_from_slice(&piece[..count]) {
            Ok(()) => {
                self.room -= count;
                Ok(count)
            }
            // Not reached: the memory was taken when the sink was made.
            Err(_) => Err(Failed),
        }
    }
}

/// A sink in memory that fails where it is full, and whose chosen writes fail.
#[derive(Debug, Drop)]
pub struct MemSink {
    sink: SureSink,
    plan: FailPlan,
}

impl Model for MemSink {
    ghost use Rattle.ob_io.specs.Memory.{PlannedBuffer};

    ghost Value = { PlannedBuffer };

    ghost view = { λ s. record { buffer = s.sink; plan = s.plan } };
}

impl MemSink {
    /// Has room for so many bytes, whose memory it takes at once: NoMemory where there
    /// is too little of it. The writes that `fail` numbers, counted from 1, fail.
    pub fn new(alloc: Global, room: usize, fail: Vec<u64>) -> Result<MemSink, NoMemory>
        ensures made { IfOk result (λ s. s ≡ record {
          buffer = record { written = []; room = room; faults = 0 };
          plan = record { fail = fail.items; made = 0; faults = 0 };
        }) }
        ensures succeeds { room ≡ 0 → IsOk result }
    {
        Ok(MemSink {
            sink: SureSink::new(alloc, room)?,
            plan: FailPlan::new(fail),
        })
    }

    /// All bytes that were written.
    pub fn written(&self) -> &[u8]
        ensures { result.now ≡ self.now.buffer.written }
    {
        self.sink.written()
    }
}

impl Sink for MemSink {
    ghost written = { λ s. Some s.buffer.written };

    ghost faults = { total_faults };

    fn write(&mut self, piece: &[u8]) -> Result<usize, Failed>
        ensures fails { IsErr result ↔
            (FailsNext self.old.plan ⊎ IsFullFor piece.now self.old.buffer) }
        ensures answer { IfOk result (λ n. n ≡ min (length piece.now) self.old.buffer.room) }
        ensures writes { IfOk result (λ n.
            Writes (Some self.old.buffer.written) (Some self.new.buffer.written) piece.now n) }
        ensures room { IfOk result (λ n. self.new.buffer.room + n ≡ self.old.buffer.room) }
        ensures failed { OnErr result (SameBytes self.old.buffer self.new.buffer) }

        // A write that the plan fails counts there, another in the buffer.
        ensures planned { FailsNext self.old.plan →
            (self.new.plan ≡ after_call true self.old.plan)
            × (self.new.buffer.faults ≡ self.old.buffer.faults) }
        ensures unplanned { ¬ (FailsNext self.old.plan) →
            (self.new.plan ≡ after_call false self.old.plan)
            × (self.new.buffer.faults ≡ count_after (is_err result) self.old.buffer.faults) }
        ensures cause { HasCause (total_faults self.old) (total_faults self.new) (IsErr result) }
    {
        if self.plan.next_fails() {
            return Err(Failed);
        }
        self.sink.write(piece)
    }
}
