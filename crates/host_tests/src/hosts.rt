//! The clock and the standard streams of the host, and of one that is odd.

use crate::odd_host::Odd;
use crate::told::{agree, tell, tell_reads, tell_value, tell_writes};
use ob_base::NoMemory;
use ob_base::limits::MAX_MOMENT;
use ob_io::{Clock, HostClock, StdSink, StdSource};
use std::test::Fail;

/// The clock and the standard streams of the host.
fn tell_host(rt: &HostRuntime, text: &mut String) -> Result<(), NoMemory> {
    let moment = HostClock::new(rt)?.now();
    // 2023-11-14, which lies behind.
    tell_value(text, &(1_700_000_000 < moment));
    tell_value(text, &(moment <= MAX_MOMENT));
    let mut sink = StdSink::new(rt)?;
    tell_writes(text, &mut sink, "2");
    let mut source = StdSource::new(rt)?;
    tell_reads(text, &mut source, &mut [], 1);
    Ok(())
}

/// Those of an odd host.
fn tell_odd(text: &mut String) -> Result<(), NoMemory> {
    let mut clock = HostClock::new(&Odd)?;
    tell_value(text, &clock.now());
    let mut sink = StdSink::new(&Odd)?;
    tell_writes(text, &mut sink, "10");
    let mut room = [b'.'; 2];
    let mut source = StdSource::new(&Odd)?;
    tell_reads(text, &mut source, &mut room, 3);
    Ok(())
}

/// Both, one behind the other.
fn tell_both(rt: &HostRuntime, text: &mut String) -> Result<(), NoMemory> {
    tell_host(rt, text)?;
    tell(text, "odd:");
    tell_odd(text)
}

#[test]
fn hosts_have_a_clock_and_streams(rt: HostRuntime) -> Result<(), Fail> {
    let mut text = String::new(rt.alloc());
    tell_both(&rt, &mut text)?;
    agree(
        &rt,
        text.as_str(),
        "true true 2 0  odd: 0 failed 0 2 ab 1 cb 0 cb ",
    );
    Ok(())
}
