//! The values of expressions over the cells of a line.

ghost use Rattle.std.specs.Prelude.{◌≡◌};
ghost use Rattle.ob_expr.specs.Checking.{AreFound};
ghost use Rattle.ob_expr.specs.TypedTree.{IsWellKinded, typed_tree_of};

use crate::cells::{Cells, Unread};
use crate::expressions::{checked, put_kind};
use crate::fields::{Fields, model_of};
use ob_base::{Cell, Counted, FieldNo, Steps};
use ob_expr::{EvalFault, Fresh, Scope, Typed, eval, reads_along_paths};
use probe_parts::items::id_of;
use probe_parts::told::{Told, put_value};
use probe_parts::words::unescaped;
use std::alloc::Global;

/// Adds the value of an expression in a row, over the cells of the line.
pub(crate) fn put_evaluation(
    alloc: Global,
    told: &mut Told,
    fields: &Fields,
    times: u32,
    asked: &str,
) {
    let Some((row, text)) = asked.split_once(" | ") else {
        return told.put("not asked");
    };
    let (row, given) = match row.split_once(" with ") {
        Some(both) => both,
        None => (row, ""),
    };
    let Some(cell) = row_cell(row) else {
        return told.put("not asked");
    };
    put_over(alloc, told, fields, times, cell, given, text);
}

/// Adds the value of an expression in a row, over the cells that are given.
fn put_over(
    alloc: Global,
    told: &mut Told,
    fields: &Fields,
    times: u32,
    cell: Cell,
    given: &str,
    text: &str,
) {
    let mut cells = Cells::of(alloc, told, fields, given);
    if told.is_malformed() {
        return told.put("not asked");
    }
    let text = unescaped(alloc, told, text);
    if let Some(typed) = checked(alloc, told, fields, cell.model, text.as_str()) {
        put_evaluated(alloc, told, fields, times, &typed, cell, &mut cells);
    }
}

/// A cell of the row that words name; it is of no field, since nothing is kept.
fn row_cell(row: &str) -> Option<Cell> {
    let (model, id) = row.split_once(' ')?;
    Some(Cell {
        model: model_of(model)?,
        id: id_of(id)?,
        field: FieldNo(0),
    })
}

/// Adds what a checked expression comes to, and the cells that are read for it.
fn put_evaluated(
    alloc: Global,
    told: &mut Told,
    fields: &Fields,
    times: u32,
    typed: &Typed,
    cell: Cell,
    cells: &mut Cells,
)
    requires kinded { IsWellKinded (typed_tree_of typed.now) }
    requires found { AreFound (⟦<Fields as Scope>⟧.finds fields.now) cell.model (typed_tree_of typed.now) }
{
    let mut steps = Steps::new(Counted { total: 0 });
    for _ in 1..times {
        let _ = value_in(alloc, fields, typed, cell, cells, &mut steps);
    }
    let before = steps.ledger().total;
    cells.keep_reads();
    let outcome = value_in(alloc, fields, typed, cell, cells, &mut steps);
    let ticks = steps.ledger().total.wrapping_sub(before);
    put_kind(told, typed.kind());
    told.put(" ");
    put_outcome(alloc, told, cell, outcome);
    told.put(" ticks:");
    told.put_count(ticks);
    cells.put_reads(told, fields);
}

/// The value of a checked expression over the cells.
fn value_in(
    alloc: Global,
    _fields: &Fields,
    typed: &Typed,
    cell: Cell,
    cells: &mut Cells,
    steps: &mut Steps<Counted>,
) -> Result<Fresh, EvalFault<Unread>>
    requires kinded { IsWellKinded (typed_tree_of typed.now) }
    requires found { AreFound (⟦<Fields as Scope>⟧.finds _fields.now) cell.model (typed_tree_of typed.now) }
{
    // The laws that an evaluation comes to no cells but those along its paths, and that these
    // hold values of their kinds.
    reads_along_paths();
    cells.hold_their_kinds();
    eval(alloc, typed, cell, cells, steps)
}

/// Adds a value, or why there is none.
fn put_outcome(
    alloc: Global,
    told: &mut Told,
    cell: Cell,
    outcome: Result<Fresh, EvalFault<Unread>>,
) {
    match outcome {
        Ok(fresh) if fresh.cell() == cell => put_value(alloc, told, fresh.value()),
        Ok(_) => told.put("another cell"),
        Err(EvalFault::ZeroDivisor) => told.put("zero divisor"),
        Err(EvalFault::Read(Unread::NoValue)) => told.put("no value"),
        Err(EvalFault::Read(Unread::NoMemory) | EvalFault::NoMemory) => told.lack(),
        Err(fault) => told.put_shown(&fault),
    }
}
