//! Rows that a change makes, and which rows are there behind it.

ghost use Rattle.std.specs.Prelude.{◌≡◌, ◌↔◌, ◌⊎◌, All, Contains, IfErr, IfOk, IsSome, false, is_some};
ghost use Rattle.std.specs.Option.{option_map_or};
ghost use Rattle.ob_base.specs.declared.id.Cell.{Cell};
ghost use Rattle.ob_schema.specs.Facts.{FailedBehind, OfAllTold};
ghost use Rattle.ob_schema.specs.Links.{Leads, led_to};
ghost use Rattle.ob_schema.specs.Models.{FieldHas, HasModel, field_at, is_computed_from, is_id_from};
ghost use Rattle.ob_schema.specs.declared.info.Origin.TheVariants as origin;
ghost use Rattle.ob_schema.specs.Tables.{row_at};
ghost use Rattle.ob_trigger.specs.Affected.{HasComputedField};
ghost use Rattle.ob_trigger.specs.Asking.{AskedAlone};
ghost use Rattle.ob_trigger.specs.Faults.{IsCloseFault};
ghost use Rattle.ob_trigger.specs.Marks.{IsIdBeside, IsInEditedRow, HasMark};

use crate::building::last_field;
use crate::fault::CloseFault;
use ob_base::{Cell, FieldNo, ModelNo, NoMemory, RecId, RefList};
use ob_schema::{Links, Origin, Schema, Side};
use std::alloc::Global;
use std::collections::BTreeSet;

/// Marks the computed cells of the rows whose `id` is edited: those that the change makes, or
/// takes away.
pub(crate) fn mark_edited_rows(
    schema: &Schema,
    edited: &[Cell],
    marked: &mut BTreeSet<Cell>,
) -> Result<(), NoMemory>
    ensures { IfOk result (λ _. (cell : Cell) → HasMark marked.new cell ↔ (HasMark marked.old cell ⊎ IsInEditedRow schema.now edited.now cell)) }
{
    for cell in edited {
        mark_row_of(schema, *cell, marked)?;
    }
    Ok(())
}

/// Marks the computed cells of the row of a cell, if that is the row's `id`.
fn mark_row_of(schema: &Schema, own: Cell, marked: &mut BTreeSet<Cell>) -> Result<(), NoMemory>
    ensures { IfOk result (λ _. (cell : Cell) → HasMark marked.new cell
        ↔ (HasMark marked.old cell ⊎ (HasComputedField schema.now cell × IsIdBeside schema.now cell own))) }
{
    if !is_id(schema, own) {
        return Ok(());
    }
    mark_row(schema, own.model, own.id, marked)?;
    Ok(())
}

/// Whether a cell is its row's `id`.
fn is_id(schema: &Schema, cell: Cell) -> bool
    ensures { result ≡ option_map_or (λ field. is_id_from field.origin) (field_at schema.now cell.model cell.field) false }
{
    match schema.find_field(cell.model, cell.field) {
        Some(field) => matches!(field.origin, Origin::Id),
        None => false,
    }
}

/// Marks the computed cells of a row.
fn mark_row(
    schema: &Schema,
    model: ModelNo,
    id: RecId,
    marked: &mut BTreeSet<Cell>,
) -> Result<(), NoMemory>
    ensures { IfOk result (λ _. (cell : Cell) → HasMark marked.new cell
        ↔ (HasMark marked.old cell ⊎ ((cell.model ≡ model) × (cell.id ≡ id) × HasComputedField schema.now cell))) }
{
    let count = last_field(schema, model);
    for place in 0..count {
        let cell = Cell {
            model,
            id,
            field: FieldNo(place + 1),
        };
        mark_if_computed(schema, cell, marked)?;
    }
    Ok(())
}

/// Marks a cell, if a formula computes it.
fn mark_if_computed(
    schema: &Schema,
    cell: Cell,
    marked: &mut BTreeSet<Cell>,
) -> Result<(), NoMemory>
    ensures { IfOk result (λ _. (other : Cell) → HasMark marked.new other
        ↔ (HasMark marked.old other ⊎ ((other ≡ cell) × HasComputedField schema.now cell))) }
{
    if !is_computed(schema, cell) {
        return Ok(());
    }
    marked.insert(cell)?;
    Ok(())
}

/// Whether a formula computes a cell.
fn is_computed(schema: &Schema, cell: Cell) -> bool
    ensures { result ≡ option_map_or (λ field. is_computed_from field.origin) (field_at schema.now cell.model cell.field) false }
{
    match schema.find_field(cell.model, cell.field) {
        Some(field) => matches!(field.origin, Origin::Computed(_)),
        None => false,
    }
}

/// Those of some cells whose rows are there behind the change.
pub(crate) fn there_behind<W: Links>(
    alloc: Global,
    schema: &Schema,
    cells: &[Cell],
    worlds: &mut W,
) -> Result<BTreeSet<Cell>, CloseFault<W::Fault>>
    requires over { W.registry worlds.old ≡ schema.now }
    requires models { All (λ cell. HasModel schema.now cell.model) cells.now }
    ensures told { IfOk result (λ there. OfAllTold (W.tells worlds.old) (λ sides. (cell : Cell)
        → HasMark there cell ↔ (Contains cells.now cell × IsSome (row_at sides.behind cell.model cell.id)))) }
    ensures among { IfOk result (λ there. (cell : Cell) → HasMark there cell → Contains cells.now cell) }
    ensures fault { IfErr result (IsCloseFault (FailedBehind W.asks W.has_failed worlds.old worlds.new)) }
    ensures stays { AskedAlone W.asks W.registry W.tells worlds.old worlds.new }
{
    let mut there = BTreeSet::new(alloc);
    for cell in cells {
        add_if_there(schema, *cell, &mut there, worlds)?;
    }
    Ok(there)
}

/// Adds a cell, if its row is there behind the change.
fn add_if_there<W: Links>(
    schema: &Schema,
    cell: Cell,
    there: &mut BTreeSet<Cell>,
    worlds: &mut W,
) -> Result<(), CloseFault<W::Fault>>
    requires over { W.registry worlds.old ≡ schema.now }
    requires model { HasModel schema.now cell.model }
    ensures told { IfOk result (λ _. OfAllTold (W.tells worlds.old) (λ sides. (other : Cell) → HasMark there.new other
        ↔ (HasMark there.old other ⊎ ((other ≡ cell) × IsSome (row_at sides.behind cell.model cell.id))))) }
    ensures among { IfOk result (λ _. (other : Cell) → HasMark there.new other → HasMark there.old other ⊎ (other ≡ cell)) }
    ensures fault { IfErr result (IsCloseFault (FailedBehind W.asks W.has_failed worlds.old worlds.new)) }
    ensures stays { AskedAlone W.asks W.registry W.tells worlds.old worlds.new }
{
    if !is_there(schema, cell, worlds)? {
        return Ok(());
    }
    there.insert(cell)?;
    Ok(())
}

/// Whether the row of a cell is there behind the change.
fn is_there<W: Links>(
    schema: &Schema,
    cell: Cell,
    worlds: &mut W,
) -> Result<bool, CloseFault<W::Fault>>
    requires over { W.registry worlds.old ≡ schema.now }
    requires model { HasModel schema.now cell.model }
    ensures told { IfOk result (λ there. OfAllTold (W.tells worlds.old) (λ sides. there ≡ is_some (row_at sides.behind cell.model cell.id))) }
    ensures fault { IfErr result (IsCloseFault (FailedBehind W.asks W.has_failed worlds.old worlds.new)) }
    ensures stays { AskedAlone W.asks W.registry W.tells worlds.old worlds.new }
{
    let id = Cell {
        field: id_field(schema, cell.model),
        ..cell
    };
    let ids = targets_behind(id, worlds)?;
    Ok(!ids.is_empty())
}

/// The rows to which a cell leads behind the change.
fn targets_behind<W: Links>(cell: Cell, worlds: &mut W) -> Result<RefList, CloseFault<W::Fault>>
    requires { FieldHas (W.registry worlds.old) Leads cell.model cell.field }
    ensures told { IfOk result (λ ids. OfAllTold (W.tells worlds.old) (λ sides. ids ≡ led_to (W.registry worlds.old) sides.behind cell)) }
    ensures fault { IfErr result (IsCloseFault (FailedBehind W.asks W.has_failed worlds.old worlds.new)) }
    ensures stays { AskedAlone W.asks W.registry W.tells worlds.old worlds.new }
{
    worlds.targets(Side::New, cell).map_err(CloseFault::World)
}

/// The number of the field `id` of a model.
fn id_field(schema: &Schema, model: ModelNo) -> FieldNo
    requires { HasModel schema.now model }
    ensures { FieldHas schema.now (λ field. field.origin ≡ origin.Id) model result }
{
    schema.parts_fit_together();
    match schema.field(model, "id") {
        Some(number) => number,
        None => unreachable!(),
    }
}
