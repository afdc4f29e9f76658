//! Cells that are marked, and those among them of which it isn't known yet what reads them. Each
//! cell is marked once.

ghost use Rattle.std.specs.Prelude.{◌≡◌, ◌⊎◌, Contains, IfErr, IfOk};
ghost use Rattle.ob_base.specs.declared.id.Cell.{Cell};
ghost use Rattle.ob_schema.specs.Facts.{FailedBehind, OfAllTold};
ghost use Rattle.ob_schema.specs.Plain.{plain_at};
ghost use Rattle.ob_schema.specs.ReadCells.{cell_at};
ghost use Rattle.ob_trigger.specs.Affected.{cell_step};
ghost use Rattle.ob_trigger.specs.Asking.{AskedAlone};
ghost use Rattle.ob_trigger.specs.Faults.{IsCloseFault};
ghost use Rattle.ob_trigger.specs.Marks.{HasMark, KeepsCount, MarksMore};
ghost use Rattle.ob_trigger.specs.Readers.{AllLead, ReadsBy};

use crate::fault::CloseFault;
use crate::index::Reader;
use crate::walking::{ids_of, rows_to};
use ob_base::{Cell, NoMemory, RecId};
use ob_schema::{Links, Step};
use std::alloc::Global;
use std::collections::BTreeSet;

/// Marks a reader's cells that read what stands in a row.
pub(crate) fn mark_reader<W: Links>(
    alloc: Global,
    reader: &Reader,
    id: RecId,
    marked: &mut BTreeSet<Cell>,
    waiting: &mut Vec<Cell>,
    worlds: &mut W,
) -> Result<(), CloseFault<W::Fault>>
    requires { AllLead (W.registry worlds.old) reader.now.front }
    ensures told { IfOk result (λ _. OfAllTold (W.tells worlds.old)
        (λ sides. MarksMore marked.old marked.new waiting.old.items waiting.new.items
        (ReadsBy (plain_at sides.before (W.registry worlds.old)) id reader.now))) }
    ensures computed { IfOk result (λ _. (cell : Cell) → HasMark marked.new cell → HasMark marked.old cell ⊎ (cell_step cell ≡ reader.now.computed)) }
    ensures count { IfOk result (λ _. KeepsCount marked.old marked.new waiting.old.items waiting.new.items) }
    ensures fault { IfErr result (IsCloseFault (FailedBehind W.asks W.has_failed worlds.old worlds.new)) }
    ensures stays { AskedAlone W.asks W.registry W.tells worlds.old worlds.new }
{
    let rows = rows_to(alloc, reader.front.as_slice(), id, worlds)?;
    mark_rows(alloc, reader.computed, &rows, marked, waiting)?;
    Ok(())
}

/// Marks the cells of a field in some rows.
fn mark_rows(
    alloc: Global,
    field: Step,
    rows: &BTreeSet<RecId>,
    marked: &mut BTreeSet<Cell>,
    waiting: &mut Vec<Cell>,
) -> Result<(), NoMemory>
    ensures marked { IfOk result (λ _. MarksMore marked.old marked.new waiting.old.items waiting.new.items
        (λ cell. (cell ≡ cell_at field cell.id) × Contains rows.now.keys cell.id)) }
    ensures count { IfOk result (λ _. KeepsCount marked.old marked.new waiting.old.items waiting.new.items) }
{
    let ids = ids_of(alloc, rows)?;
    for id in ids.as_slice() {
        let cell = Cell {
            model: field.model,
            id: *id,
            field: field.field,
        };
        mark(marked, waiting, cell)?;
    }
    Ok(())
}

/// Marks a cell, and has it wait if it wasn't marked.
fn mark(marked: &mut BTreeSet<Cell>, waiting: &mut Vec<Cell>, cell: Cell) -> Result<(), NoMemory>
    ensures marked { IfOk result (λ _. MarksMore marked.old marked.new waiting.old.items waiting.new.items (λ other. other ≡ cell)) }
    ensures count { IfOk result (λ _. KeepsCount marked.old marked.new waiting.old.items waiting.new.items) }
{
    if !marked.insert(cell)? {
        return Ok(());
    }
    waiting.push(cell)?;
    Ok(())
}
