//! Doors that hold their connections in memory: one whose calls fail only where there is no
//! room for what is written, and one whose chosen calls fail too. Their memory is taken when
//! they are made, so that no call can fail for want of it.

ghost use Rattle.std.specs.Prelude.{◌≡◌, ◌^◌, ◌<◌, ◌≤◌, ◌↔◌, ◌⊎◌, nat_lt, true, false, [], map, length, take, max, Some, None, Ok, IfOk, OnErr, IsErr, is_err, option_map, slice_get};
ghost use Rattle.std.specs.List.{sum};
ghost use Rattle.ob_io.specs.Cause.{HasCause};
ghost use Rattle.ob_io.specs.Bytes.{Reads};
ghost use Rattle.ob_io.specs.Connections.{Admits, extend_last};
ghost use Rattle.ob_io.specs.Faults.{count_after};
ghost use Rattle.ob_io.specs.Plan.{FailsNext, after_call};
ghost use Rattle.ob_io.specs.Memory.{read_count};
ghost use Rattle.ob_io.specs.MemoryDoor.{current_stream, write_count, room_after, IsFullDoor, connection_faults, parts_of};

use crate::door::Door;
use crate::fault::Failed;
use crate::memory_source::SureSource;
use crate::plan::FailPlan;
use crate::source::Source;
use ob_base::NoMemory;
use std::alloc::Global;
use std::marker::Model;
use std::vec::IntoIter;

/// A door of connections in memory. A call fails only where what is written finds no room.
/// What is written without a connection is taken and goes nowhere.
#[derive(Drop)]
pub struct SureDoor {
    coming: IntoIter<Vec<u8>>,
    current: SureSource,
    written: Vec<u8>,
    sizes: Vec<usize>,
    room: usize,
    faults: u64,
}

impl Model for SureDoor {
    ghost use Rattle.std.specs.Prelude.{◌≡◌, ◌+◌, ◌≤◌, map, length, vec_len, vec_capacity};
    ghost use Rattle.std.specs.List.{sum};
    ghost use Rattle.std.specs.Vec.Iter.{into_iter_items};
    ghost use Rattle.ob_io.specs.MemoryDoor.{Streams, parts_of};

    ghost Value = { Streams };

    ghost view = { λ d. record {
      coming = map (λ bytes. bytes.items) (into_iter_items d.coming);
      left = d.current.left;
      cut = d.current.cut;
      written = parts_of d.sizes.items d.written.items;
      room = d.room;
      faults = d.faults;
    } };

    ghost invariant = { λ d.
        (vec_len d.sizes + length (into_iter_items d.coming) ≤ vec_capacity d.sizes)
        × (vec_len d.written + d.room ≤ vec_capacity d.written)
        × (sum d.sizes.items ≡ length d.written.items) };
}

impl SureDoor {
    /// Connections that send these bytes, one after another. A read gives at most `cut` bytes;
    /// 0 counts as 1. There is room for so many bytes that are written, to all of them
    /// together, whose memory is taken at once: NoMemory where there is too little of it.
    pub fn new(
        alloc: Global,
        streams: Vec<Vec<u8>>,
        cut: usize,
        room: usize,
    ) -> Result<SureDoor, NoMemory>
        ensures { IfOk result (λ door. door ≡ record {
          coming = map (λ bytes. bytes.items) streams.items;
          left = [];
          cut = max cut 1;
          written = [];
          room = room;
          faults = 0;
        }) }
    {
        Ok(SureDoor {
            sizes: Vec::with_capacity(alloc, streams.len())?,
            coming: streams.into_iter(),
            current: SureSource::new(Vec::new(alloc), cut)?,
            written: Vec::with_capacity(alloc, room)?,
            room,
            faults: 0,
        })
    }

    /// What was written to the connection of this number, counted from 0: none where it
    /// hasn't come.
    pub fn written(&self, number: usize) -> Option<&[u8]>
        ensures { option_map (λ bytes. bytes.now) result ≡ slice_get self.now.written number }
    {
        part_at(&self.written, &self.sizes, number)
    }
}

impl Door for SureDoor {
    ghost coming = { λ d. Some d.coming };

    ghost left = { λ d. Some d.left };

    ghost written = { λ d. Some d.written };

    ghost next_faults = { λ _. 0 };

    ghost faults = { λ d. d.faults };

    fn next(&mut self) -> Result<bool, Failed>
        ensures answer { result ≡ Ok (nat_lt 0 (length self.old.coming)) }
        ensures admits { IfOk result (λ admitted. Admits (Some self.old.coming) (Some self.new.coming) (Some self.old.left) (Some self.new.left) (Some self.old.written) (Some self.new.written) admitted) }
        ensures same { (self.new.cut ≡ self.old.cut) × (self.new.room ≡ self.old.room) × (self.new.faults ≡ self.old.faults) }
    {
        let Some(bytes) = self.coming.next() else {
            return Ok(false);
        };
        match self.sizes.push(0) {
            Ok(()) => {
                self.current.restart(bytes);
                Ok(true)
            }
            // Not reached: the memory was taken when the door was made.
            Err(_) => Err(Failed),
        }
    }

    fn read(&mut self, room: &mut [u8]) -> Result<usize, Failed>
        ensures answer { result ≡ Ok (read_count (current_stream self.old) (length room.old)) }
        ensures reads { IfOk result (λ n. Reads (Some self.old.left) (Some self.new.left) room.old room.new n) }
        ensures same { self.new ≡ record self.old { left = self.new.left } }
    {
        self.current.read(room)
    }

    fn write(&mut self, piece: &[u8]) -> Result<usize, Failed>
        ensures fails { IsErr result ↔ IsFullDoor piece.now self.old }
        ensures answer { IfOk result (λ n. n ≡ write_count self.old (length piece.now)) }
        ensures writes { IfOk result (λ n. self.new.written ≡ extend_last (take n piece.now) self.old.written) }
        ensures room { IfOk result (λ n. self.new.room ≡ room_after self.old n) }
        ensures failed { OnErr result ((self.new.written ≡ self.old.written) × (self.new.room ≡ self.old.room)) }
        ensures same { (self.new.coming ≡ self.old.coming) × (self.new.left ≡ self.old.left) × (self.new.cut ≡ self.old.cut) }
        ensures counted { self.new.faults ≡ count_after (is_err result) self.old.faults }
        ensures cause { HasCause self.old.faults self.new.faults (IsErr result) }
    {
        let Some(size) = self.sizes.last_mut() else {
            return Ok(piece.len());
        };
        let count = piece.len().min(self.room);
        if count == 0 && !piece.is_empty() {
            self.faults = self.faults.saturating_add(1);
            return Err(Failed);
        }
        match self.written.extend_from_slice(&piece[..count]) {
            Ok(()) => {
                *size += count;
                self.room -= count;
                Ok(count)
            }
            // Not reached: the memory was taken when the door was made.
            Err(_) => Err(Failed),
        }
    }

    fn shut(&mut self)
        ensures { self.new ≡ record self.old { left = [] } }
    {
        self.current.end();
    }
}

/// The part of this number, of those of these sizes: none where there are fewer.
fn part_at<'b>(bytes: &'b [u8], sizes: &[usize], number: usize) -> Option<&'b [u8]>
    requires { sum sizes.now ≡ length bytes.now }
    ensures { option_map (λ part. part.now) result ≡ slice_get (parts_of sizes.now bytes.now) number }
{
    if number >= sizes.len() {
        return None;
    }
    let start = size_before(sizes, number);
    Some(&bytes[start..start + sizes[number]])
}

/// The sum of the sizes before this number.
fn size_before(sizes: &[usize], number: usize) -> usize
    requires within { number ≤ length sizes.now }
    requires fits { sum sizes.now < 2 ^ 64 }
    ensures { result ≡ sum (take number sizes.now) }
{
    let mut start = 0;
    for size in &sizes[..number] {
        start += *size;
    }
    start
}

/// A door of connections in memory whose chosen calls fail, and writes that find no room.
#[derive(Drop)]
pub struct MemDoor {
    door: SureDoor,
    plan: FailPlan,
    next_faults: u64,
    faults: u64,
}

impl Model for MemDoor {
    ghost use Rattle.ob_io.specs.MemoryDoor.{PlannedStreams};

    ghost Value = { PlannedStreams };

    ghost view = { λ d. record { streams = d.door; plan = d.plan; next_faults = d.next_faults; faults = d.faults } };
}

impl MemDoor {
    /// As `SureDoor::new`. The calls that `fail` numbers fail; `next`, `read` and `write`
    /// are counted together, from 1.
    pub fn new(
        alloc: Global,
        streams: Vec<Vec<u8>>,
        cut: usize,
        room: usize,
        fail: Vec<u64>,
    ) -> Result<MemDoor, NoMemory>
        ensures { IfOk result (λ door. door ≡ record {
          streams = record {
            coming = map (λ bytes. bytes.items) streams.items;
            left = [];
            cut = max cut 1;
            written = [];
            room = room;
            faults = 0;
          };
          plan = record { fail = fail.items; made = 0; faults = 0 };
          next_faults = 0;
          faults = 0;
        }) }
    {
        Ok(MemDoor {
            door: SureDoor::new(alloc, streams, cut, room)?,
            plan: FailPlan::new(fail),
            next_faults: 0,
            faults: 0,
        })
    }

    /// What was written to the connection of this number, counted from 0: none where it
    /// hasn't come.
    pub fn written(&self, number: usize) -> Option<&[u8]>
        ensures { option_map (λ bytes. bytes.now) result ≡ slice_get self.now.streams.written number }
    {
        self.door.written(number)
    }

    /// Counts a read or a write, and the fault where it is to fail.
    fn passes(&mut self) -> Result<(), Failed>
        ensures fails { IsErr result ↔ FailsNext self.old.plan }
        ensures counted { self.new ≡ record self.old { plan = after_call (is_err result) self.old.plan; faults = count_after (is_err result) self.old.faults } }
        ensures cause { HasCause (connection_faults self.old) (connection_faults self.new) (IsErr result) }
    {
        if self.plan.next_fails() {
            self.faults = self.faults.saturating_add(1);
            return Err(Failed);
        }
        Ok(())
    }
}

impl Door for MemDoor {
    ghost coming = { λ d. Some d.streams.coming };

    ghost left = { λ d. Some d.streams.left };

    ghost written = { λ d. Some d.streams.written };

    ghost next_faults = { λ d. d.next_faults };

    ghost faults = { connection_faults };

    fn next(&mut self) -> Result<bool, Failed>
        ensures fails { IsErr result ↔ FailsNext self.old.plan }
        ensures answer { IfOk result (λ admitted. admitted ≡ nat_lt 0 (length self.old.streams.coming)) }
        ensures admits { IfOk result (λ admitted. Admits (Some self.old.streams.coming) (Some self.new.streams.coming) (Some self.old.streams.left) (Some self.new.streams.left)
            (Some self.old.streams.written) (Some self.new.streams.written) admitted) }
        ensures failed { OnErr result (self.new.streams ≡ self.old.streams) }
        ensures same { (self.new.streams.cut ≡ self.old.streams.cut) × (self.new.streams.room ≡ self.old.streams.room) × (self.new.streams.faults ≡ self.old.streams.faults) × (self.new.faults ≡ self.old.faults) }
        ensures counted { (self.new.plan ≡ after_call (is_err result) self.old.plan) × (self.new.next_faults ≡ count_after (is_err result) self.old.next_faults) }
        ensures cause { HasCause self.old.next_faults self.new.next_faults (IsErr result) }
    {
        if self.plan.next_fails() {
            self.next_faults = self.next_faults.saturating_add(1);
            return Err(Failed);
        }
        self.door.next()
    }

    fn read(&mut self, room: &mut [u8]) -> Result<usize, Failed>
        ensures fails { IsErr result ↔ FailsNext self.old.plan }
        ensures answer { IfOk result (λ n. n ≡ read_count (current_stream self.old.streams) (length room.old)) }
        ensures reads { IfOk result (λ n. Reads (Some self.old.streams.left) (Some self.new.streams.left) room.old room.new n) }
        ensures failed { OnErr result ((self.new.streams ≡ self.old.streams) × (room.new ≡ room.old)) }
        ensures same { self.new.streams ≡ record self.old.streams { left = self.new.streams.left } }
        ensures counted { (self.new.plan ≡ after_call (is_err result) self.old.plan)
            × (self.new.faults ≡ count_after (is_err result) self.old.faults) }
        ensures next_count { self.new.next_faults ≡ self.old.next_faults }
        ensures cause { HasCause (connection_faults self.old) (connection_faults self.new) (IsErr result) }
    {
        self.passes()?;
        self.door.read(room)
    }

    fn write(&mut self, piece: &[u8]) -> Result<usize, Failed>
        ensures fails { IsErr result ↔ (FailsNext self.old.plan ⊎ IsFullDoor piece.now self.old.streams) }
        ensures answer { IfOk result (λ n. n ≡ write_count self.old.streams (length piece.now)) }
        ensures writes { IfOk result (λ n. self.new.streams.written ≡ extend_last (take n piece.now) self.old.streams.written) }
        ensures room { IfOk result (λ n. self.new.streams.room ≡ room_after self.old.streams n) }
        ensures failed { OnErr result ((self.new.streams.written ≡ self.old.streams.written) × (self.new.streams.room ≡ self.old.streams.room)) }
        ensures same { (self.new.streams.coming ≡ self.old.streams.coming) × (self.new.streams.left ≡ self.old.streams.left) × (self.new.streams.cut ≡ self.old.streams.cut) }

        // A write that the plan fails counts with the plan's faults, another with the streams'.
        ensures planned { FailsNext self.old.plan →
            (self.new.plan ≡ after_call true self.old.plan)
            × (self.new.faults ≡ count_after true self.old.faults)
            × (self.new.streams.faults ≡ self.old.streams.faults) }
        ensures unplanned { ¬ (FailsNext self.old.plan) →
            (self.new.plan ≡ after_call false self.old.plan)
            × (self.new.faults ≡ self.old.faults)
            × (self.new.streams.faults ≡ count_after (is_err result) self.old.streams.faults) }
        ensures next_count { self.new.next_faults ≡ self.old.next_faults }
        ensures cause { HasCause (connection_faults self.old) (connection_faults self.new) (IsErr result) }
    {
        self.passes()?;
        self.door.write(piece)
    }

    fn shut(&mut self)
        ensures { self.new ≡ record self.old { streams = record self.old.streams { left = [] } } }
    {
        self.door.shut();
    }
}
