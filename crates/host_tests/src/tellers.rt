//! That each form in memory tells what it holds. A form that told nothing would meet
//! its trait, too: so the proof is the test.

ghost use Rattle.std.specs.Prelude.{IsSome};

use ob_base::NoMemory;
use ob_io::{
    Clock, Door, Files, Keeper, MemClock, MemDoor, MemFiles, MemKeeper, MemSink, MemSource, Sink,
    Source, SureDoor, SureFiles, SureKeeper, SureSink, SureSource,
};
use std::alloc::Global;
use std::test::Fail;

/// Takes a source that tells its bytes.
fn source_tells<S: Source>(source: &S)
    requires { IsSome (S.left source.now) }
{
    let _ = source;
}

/// Takes a sink that tells what was written.
fn sink_tells<S: Sink>(sink: &S)
    requires { IsSome (S.written sink.now) }
{
    let _ = sink;
}

/// Takes a clock that tells the moments to come.
fn clock_tells<C: Clock>(clock: &C)
    requires { IsSome (C.coming clock.now) }
{
    let _ = clock;
}

/// Takes a keeper that tells what is kept.
fn keeper_tells<K: Keeper>(keeper: &K)
    requires { IsSome (K.kept keeper.now) }
{
    let _ = keeper;
}

/// Takes files that tell their texts.
fn files_tell<F: Files>(files: &F)
    requires { IsSome (F.texts files.now) }
{
    let _ = files;
}

/// Takes a door that tells all of its connections.
fn door_tells<D: Door>(door: &D)
    requires coming { IsSome (D.coming door.now) }
    requires left { IsSome (D.left door.now) }
    requires written { IsSome (D.written door.now) }
{
    let _ = door;
}

/// Hands out the sources, the sinks and the clock.
fn streams_tell(alloc: Global) -> Result<(), NoMemory> {
    source_tells(&SureSource::new(Vec::new(alloc), 1)?);
    source_tells(&MemSource::new(Vec::new(alloc), 1, Vec::new(alloc))?);
    sink_tells(&SureSink::new(alloc, 0)?);
    sink_tells(&MemSink::new(alloc, 0, Vec::new(alloc))?);
    clock_tells(&MemClock::new(0, 1)?);
    Ok(())
}

/// Hands out the keepers, the files and the doors.
fn rooms_tell(alloc: Global) -> Result<(), NoMemory> {
    keeper_tells(&SureKeeper::new(alloc, Vec::new(alloc), Vec::new(alloc))?);
    keeper_tells(&MemKeeper::new(alloc, Vec::new(alloc), Vec::new(alloc), Vec::new(alloc))?);
    files_tell(&SureFiles::new(alloc, Vec::new(alloc))?);
    files_tell(&MemFiles::new(alloc, Vec::new(alloc), Vec::new(alloc))?);
    door_tells(&SureDoor::new(alloc, Vec::new(alloc), 1, 0)?);
    door_tells(&MemDoor::new(alloc, Vec::new(alloc), 1, 0, Vec::new(alloc))?);
    Ok(())
}

#[test]
fn forms_in_memory_tell(rt: HostRuntime) -> Result<(), Fail> {
    streams_tell(rt.alloc())?;
    rooms_tell(rt.alloc())?;
    Ok(())
}
