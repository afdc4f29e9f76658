//! The audit of the rows that are kept. What a report says is settled in `ob_audit`; here it is
//! written, and how the run ends with it.

ghost use Rattle.std.specs.Prelude.{◌≡◌, ◌≤◌, ◌++◌, ℕ, List, Some, ⊤, IsErr, OnErr, OnOk, option_map};
ghost use Rattle.ob_io.specs.Cause.{HasCause, Rose};
ghost use Rattle.ob_io.specs.Store.{Store};
ghost use Rattle.ob_server.specs.Ending.{HasReason, WritesPart};
ghost use Rattle.ob_server.specs.Session.{reply_lines};
ghost use Rattle.stockd.specs.Audit.{TellsReport, WritesReport};

use ob_audit::{AuditFault, Report, audit};
use ob_base::Word;
use ob_io::{Failed, Keeper, Sink};
use ob_schema::Schema;
use ob_server::{Ending, write_line};
use std::alloc::Global;

/// Audits the rows that are kept, and writes the report once the whole of it is made.
pub(crate) fn audited<K: Keeper, W: Sink>(
    alloc: Global,
    keeper: &mut K,
    output: &mut W,
    schema: &Schema,
) -> Ending
    // Of a report on the rows that the keeper tells this was written, or nothing.
    ensures told { (store : Store) → K.kept keeper.old ≡ Some store
        → (written : List ℕ) × TellsReport schema.now store (Rose (K.faults keeper.old) (K.faults keeper.new)) result written
        × (W.written output.new ≡ option_map (λ before. before ++ written) (W.written output.old)) }
    ensures reason { HasReason ⊤ ⊥ (Rose (W.faults output.old) (W.faults output.new))
        (Rose (K.faults keeper.old) (K.faults keeper.new)) result }
    ensures same { K.kept keeper.new ≡ K.kept keeper.old }
    ensures output_count { W.faults output.old ≤ W.faults output.new }
{
    match audit(alloc, keeper, schema) {
        Ok(report) => report_written(output, &report),
        Err(AuditFault::Keeper) => Ending::KeeperFault,
        Err(AuditFault::NoMemory) => Ending::NoMemory,
    }
}

/// Writes a report, and says how the run ends with it.
fn report_written<W: Sink>(output: &mut W, report: &Report) -> Ending
    ensures told { WritesReport report.now result (W.written output.old) (W.written output.new) }
    ensures reason { HasReason ⊤ ⊥ (Rose (W.faults output.old) (W.faults output.new)) ⊥ result }
    ensures output_count { W.faults output.old ≤ W.faults output.new }
{
    if write_lines(output, report.lines.as_slice()).is_err() {
        return Ending::WriteFault;
    }
    if report.equal {
        Ending::Done
    } else {
        Ending::Differs
    }
}

/// Writes each text on a line.
fn write_lines<W: Sink>(output: &mut W, lines: &[Word]) -> Result<(), Failed>
    ensures ok { OnOk result (W.written output.new
        ≡ option_map (λ before. before ++ reply_lines lines.now) (W.written output.old)) }
    ensures err { OnErr result (WritesPart (W.written output.old) (W.written output.new) (reply_lines lines.now)) }
    ensures cause { HasCause (W.faults output.old) (W.faults output.new) (IsErr result) }
{
    for line in lines {
        write_line(output, line.as_str())?;
    }
    Ok(())
}
