//! Streams and a clock in memory.

use crate::told::{agree, tell, tell_bytes, tell_reads, tell_value, tell_writes};
use ob_base::NoMemory;
use ob_base::limits::{MAX_MOMENT, MIN_MOMENT};
use ob_io::{Clock, MemClock, MemSink, MemSource, SureSink, SureSource};
use std::alloc::Global;
use std::test::Fail;

/// Sources that cut, and one whose calls of some numbers fail.
fn tell_sources(alloc: Global, text: &mut String) -> Result<(), NoMemory> {
    let mut room = [b'.'; 3];
    let mut source = SureSource::new(b"abcde".to_vec(alloc)?, 2)?;
    tell_reads(text, &mut source, &mut room, 4);
    tell(text, "cut of zero:");
    let mut source = SureSource::new(b"fg".to_vec(alloc)?, 0)?;
    tell_reads(text, &mut source, &mut [], 1);
    tell_reads(text, &mut source, &mut room, 1);
    Ok(())
}

/// A source whose second and fourth call fail.
fn tell_failing_source(alloc: Global, text: &mut String) -> Result<(), NoMemory> {
    let mut room = [b'.'; 2];
    let fail = [2, 4].to_vec(alloc)?;
    let mut source = MemSource::new(b"xyz".to_vec(alloc)?, 8, fail)?;
    tell_reads(text, &mut source, &mut room, 5);
    Ok(())
}

/// A sink that fills up, and one whose first and third call fail.
fn tell_sinks(alloc: Global, text: &mut String) -> Result<(), NoMemory> {
    let mut sink = SureSink::new(alloc, 3)?;
    tell_writes(text, &mut sink, "2210");
    tell_bytes(text, sink.written());
    tell(text, "fails at 1 and 3:");
    let mut sink = MemSink::new(alloc, 2, [1, 3].to_vec(alloc)?)?;
    tell_writes(text, &mut sink, "11021");
    tell_bytes(text, sink.written());
    Ok(())
}

/// Adds three moments of a clock.
fn tell_moments(text: &mut String, start: i64, step: i64) {
    if MIN_MOMENT <= start && start <= MAX_MOMENT {
        if let Ok(mut clock) = MemClock::new(start, step) {
            for _ in 0..3u8 {
                tell_value(text, &clock.now());
            }
        }
    }
}

/// Clocks, which stay in their years.
fn tell_clocks(text: &mut String) {
    tell_moments(text, 0, 60);
    tell_moments(text, 10, -20);
    tell_moments(text, MAX_MOMENT - 3, 2);
    tell_moments(text, MIN_MOMENT + 1, -1);
    tell_moments(text, 1, i64::MAX);
}

/// All of them.
fn tell_all(alloc: Global, text: &mut String) -> Result<(), NoMemory> {
    tell_sources(alloc, text)?;
    tell(text, "fails at 2 and 4:");
    tell_failing_source(alloc, text)?;
    tell(text, "sinks:");
    tell_sinks(alloc, text)?;
    tell(text, "clocks:");
    tell_clocks(text);
    Ok(())
}

#[test]
fn streams_and_clocks(rt: HostRuntime) -> Result<(), Fail> {
    let mut text = String::new(rt.alloc());
    tell_all(rt.alloc(), &mut text)?;
    agree(
        &rt,
        text.as_str(),
        "2 ab. 2 cd. 1 ed. 0 ed. cut of zero: 0  1 fd. \
         fails at 2 and 4: 2 xy failed xy 1 zy failed zy 0 zy \
         sinks: 2 1 failed 0 yzy fails at 1 and 3: failed 1 failed 1 failed xy \
         clocks: 0 60 120 10 -10 -30 253402300796 253402300798 253402300798 \
         -62135596799 -62135596800 -62135596800 1 1 1 ",
    );
    Ok(())
}
