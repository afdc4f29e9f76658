//! How a run ends: its status, and the last line that tells it.

ghost use Rattle.std.specs.Prelude.{◌≡◌, ◌≤◌, ◌++◌, option_map, OnOk, OnErr, IsErr};
ghost use Rattle.ob_io.specs.Cause.{Rose, HasCause};
ghost use Rattle.ob_server.specs.Ending.{status_of, last_line, WritesPart, WritesLast};

use crate::output::write_all;
use itoa::Buffer;
use ob_base::Word;
use ob_io::{Failed, Sink};

/// Why a run ended.
#[derive(Debug, Drop)]
pub enum Ending {
    /// The input was read to its end and all replies were written; or the store was audited, and
    /// what it keeps is what it should be.
    Done,
    /// The store was audited, and what it keeps isn't what it should be, as the report says.
    Differs,
    /// The words are none that are served.
    Usage,
    /// Something stands against a module: `module NAME: KIND PLACE`.
    Module(Word),
    /// The input or the files could not be read.
    ReadFault,
    /// A reply or a report could not be written.
    WriteFault,
    /// The keeper failed while the store was opened or audited.
    KeeperFault,
    /// An allocation failed outside a request.
    NoMemory,
    /// The rows that are kept are those of no sound tables, as this cell shows: `MODEL ID FIELD`.
    Store(Word),
    /// The line of this number is too long.
    TooLong(u64),
}

impl Ending {
    /// The status that the process ends with, from 0 to 9.
    pub fn status(&self) -> u8
        ensures { result ≡ status_of self.now }
    {
        match self {
            Ending::Done => 0,
            Ending::Differs => 1,
            Ending::Usage => 2,
            Ending::Module(_) => 3,
            Ending::ReadFault => 4,
            Ending::WriteFault => 5,
            Ending::KeeperFault => 6,
            Ending::NoMemory => 7,
            Ending::Store(_) => 8,
            Ending::TooLong(_) => 9,
        }
    }

    /// Writes the last line to this output, where the ending has one, without taking memory. A
    /// fault of the sink leaves the status as it is.
    pub fn tell<W: Sink>(&self, output: &mut W)
        ensures line { WritesLast (Rose (W.faults output.old) (W.faults output.new))
            (W.written output.old) (W.written output.new) (last_line self.now) }
        ensures count { W.faults output.old ≤ W.faults output.new }
    {
        match self {
            Ending::Done | Ending::Differs | Ending::WriteFault => {}
            Ending::Usage => tell(
                output,
                "",
                "usage: stockd call|serve|audit|gen [options]",
                "\n",
            ),
            Ending::Module(fault) => tell(output, "", fault.as_str(), "\n"),
            Ending::ReadFault => tell(output, "", "read fault", "\n"),
            Ending::KeeperFault => tell(output, "", "keeper fault", "\n"),
            Ending::NoMemory => tell(output, "", "no memory", "\n"),
            Ending::Store(cell) => tell(output, "store ", cell.as_str(), "\n"),
            Ending::TooLong(line) => {
                let mut digits = Buffer::new();
                tell(output, "line ", digits.format(*line), " too long\n");
            }
        }
    }
}

/// Writes a text between two others as far as the sink takes them.
fn tell<W: Sink>(output: &mut W, before: &str, text: &str, after: &str)
    ensures line { WritesLast (Rose (W.faults output.old) (W.faults output.new))
        (W.written output.old) (W.written output.new)
        (before.now ++ text.now ++ after.now) }
    ensures count { W.faults output.old ≤ W.faults output.new }
{
    let _ = write_between(output, before, text, after);
}

/// Writes a text between two others. It takes no memory.
fn write_between<W: Sink>(
    output: &mut W,
    before: &str,
    text: &str,
    after: &str,
) -> Result<(), Failed>
    ensures ok { OnOk result (W.written output.new
        ≡ option_map (λ w. w ++ (before.now ++ text.now ++ after.now)) (W.written output.old)) }
    ensures err { OnErr result (WritesPart (W.written output.old) (W.written output.new)
        (before.now ++ text.now ++ after.now)) }
    ensures cause { HasCause (W.faults output.old) (W.faults output.new) (IsErr result) }
{
    write_all(output, before.as_bytes())?;
    write_all(output, text.as_bytes())?;
    write_all(output, after.as_bytes())
}
