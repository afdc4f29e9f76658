//! The call: rows that can't be read are told first, then what their plain values break, and
//! where they break nothing what is kept beside them.

ghost use Rattle.std.specs.Prelude.{◌≡◌, ◌≤◌, ◌∷◌, [], All, IfErr, IfOk, IfSome, codes, false};
ghost use Rattle.ob_audit.specs.Comparing.{IsFull};
ghost use Rattle.ob_audit.specs.Reading.{AreStored, IsFitStored};
ghost use Rattle.ob_audit.specs.Report.{IsReport, StopsAudit};
ghost use Rattle.ob_audit.specs.Rows.{ArePlain};
ghost use Rattle.ob_io.specs.Cause.{Rose};
ghost use Rattle.ob_io.specs.Store.{Store};
ghost use Rattle.ob_schema.specs.Broken.{AreSound};

use crate::comparing::add_fields;
use crate::fault::{AuditFault, ReadingFault};
use crate::lines::{broken_line, last_line, unreadable_line};
use crate::reading::{StoreRows, read_store};
use crate::report::Report;
use crate::sums::add_sums;
use ob_base::{Cell, NoMemory, Sequence, Value, Word};
use ob_io::Keeper;
use ob_schema::Schema;
use ob_tables::Tables;
use std::alloc::Global;

/// Reads all rows of a keeper, and tells how what they keep for computed fields compares with
/// the values from scratch. The rows stay as they were.
pub fn audit<K: Keeper>(
    alloc: Global,
    keeper: &mut K,
    schema: &Schema,
) -> Result<Report, AuditFault>
    ensures report { IfOk result (λ report. IfSome (K.kept keeper.old) (λ store. IsReport schema.now store report)) }
    ensures fault { IfErr result (StopsAudit (Rose (K.faults keeper.old) (K.faults keeper.new))) }
    ensures same { K.kept keeper.new ≡ K.kept keeper.old }
    ensures count { K.faults keeper.old ≤ K.faults keeper.new }
{
    match read_store(alloc, keeper, schema) {
        Ok(rows) => Ok(report_on(alloc, schema, &rows)?),
        Err(ReadingFault::Unreadable(cell)) => {
            Ok(short_report(alloc, unreadable_line(alloc, schema, cell)?)?)
        }
        Err(ReadingFault::Keeper) => Err(AuditFault::Keeper),
        Err(ReadingFault::NoMemory) => Err(AuditFault::NoMemory),
    }
}

/// The report on rows that can be read.
fn report_on(alloc: Global, schema: &Schema, rows: &StoreRows<'_>) -> Result<Report, NoMemory>
    requires models { rows.now.tables.models ≡ schema.now }
    requires fit { All (IsFitStored schema.now) rows.now.stored }
    ensures { IfOk result (λ report. (store : Store) → ArePlain schema.now store rows.now.tables.tables
        → AreStored schema.now store rows.now.stored → IsReport schema.now store report) }
{
    rows.tables.fit_together();
    match rows.tables.broken()? {
        Some(broken) => short_report(alloc, broken_line(alloc, schema, broken)?),
        None => full_report(alloc, schema, &rows.tables, rows.stored.as_slice()),
    }
}

/// The report of one line, and that what is kept isn't what it should be.
fn short_report(alloc: Global, line: Word) -> Result<Report, NoMemory>
    ensures lines { IfOk result (λ report. report.lines ≡ line ∷ codes "audit differs" ∷ []) }
    ensures equal { IfOk result (λ report. report.equal ≡ false) }
{
    let mut lines = Sequence::new(alloc);
    lines.push(line)?;
    lines.push(last_line(alloc, false)?)?;
    Ok(Report {
        lines,
        equal: false,
    })
}

/// The report on tables that break nothing, by what is kept for their computed cells.
fn full_report(
    alloc: Global,
    schema: &Schema,
    tables: &Tables<'_>,
    stored: &[(Cell, Value)],
) -> Result<Report, NoMemory>
    requires models { tables.now.models ≡ schema.now }
    requires sound { AreSound tables.now.models tables.now.tables }
    requires fit { All (IsFitStored schema.now) stored.now }
    ensures { IfOk result (IsFull tables.now stored.now) }
{
    let mut report = Report {
        lines: Sequence::new(alloc),
        equal: true,
    };
    add_fields(alloc, schema, tables, stored, &mut report)?;
    add_sums(alloc, schema, tables, &mut report)?;
    let last = last_line(alloc, report.equal)?;
    report.lines.push(last)?;
    Ok(report)
}
