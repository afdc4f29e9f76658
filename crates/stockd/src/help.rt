//! Help and the version, which are told in place of a run. What they say is settled in
//! `ob_words`.

ghost use Rattle.std.specs.Prelude.{◌≤◌};
ghost use Rattle.ob_io.specs.Cause.{Rose};
ghost use Rattle.stockd.specs.Telling.{EndsTelling};

use ob_base::NoMemory;
use ob_io::{Failed, Sink};
use ob_server::{Ending, write_all};
use ob_words::{VERSION, help_text};
use std::alloc::Global;

/// Tells what words may be.
pub(crate) fn told_help<W: Sink>(alloc: Global, output: &mut W) -> Ending
    ensures ending { EndsTelling (Rose (W.faults output.old) (W.faults output.new)) result }
    ensures output_count { W.faults output.old ≤ W.faults output.new }
{
    match help_text(alloc) {
        Ok(text) => told(output, text.as_str()),
        Err(NoMemory) => Ending::NoMemory,
    }
}

/// Tells the version.
pub(crate) fn told_version<W: Sink>(output: &mut W) -> Ending
    ensures ending { EndsTelling (Rose (W.faults output.old) (W.faults output.new)) result }
    ensures output_count { W.faults output.old ≤ W.faults output.new }
{
    told(output, VERSION)
}

/// Tells a text.
fn told<W: Sink>(output: &mut W, text: &str) -> Ending
    ensures ending { EndsTelling (Rose (W.faults output.old) (W.faults output.new)) result }
    ensures output_count { W.faults output.old ≤ W.faults output.new }
{
    match write_all(output, text.as_bytes()) {
        Ok(()) => Ending::Done,
        Err(Failed) => Ending::WriteFault,
    }
}
