//! What becomes of the tables where rows go: the edits that take the rows out, and leave in cells
//! that name them what is left of their values.

ghost use Rattle.std.specs.Prelude.{◌≡◌, ◌≤◌, ◌++◌, ◌∷◌, [], All, IfErr, IfOk, IsSome, OnOk, filter, map, not};
ghost use Rattle.ob_base.specs.Rising.{IsRising};
ghost use Rattle.ob_cache.specs.Calls.{Refuses};
ghost use Rattle.ob_cache.specs.Standing.{RestsAt, Stays};
ghost use Rattle.ob_cache.specs.declared.stages.Phase.TheVariants as phase;
ghost use Rattle.ob_io.specs.Cause.{Rose};
ghost use Rattle.ob_unlink.specs.Deletion as spec;
ghost use Rattle.ob_unlink.specs.Deletion.{leads_to_gone, row_of_cell};
ghost use Rattle.ob_unlink.specs.DeletionSteps.{IsFitCell, IsMakingNone, gone_edits, left_edit, staying};
ghost use Rattle.ob_rows.specs.RowSets.{has_key};
ghost use Rattle.ob_schema.specs.Models.{HasField};
ghost use Rattle.ob_schema.specs.Tables.{Tables, kept_at};

use ob_base::{Cell, NoMemory, RecId, RefList, Refusal, RowKey, Value};
use ob_cache::Engine;
use ob_io::Keeper;
use ob_rows::settled_value;
use ob_schema::{FieldInfo, OnDelete, Schema};
use ob_tables::Edit;
use std::alloc::Global;
use std::collections::BTreeSet;

/// The row of a cell.
pub(crate) fn row_of(cell: Cell) -> RowKey
    ensures { result ≡ row_of_cell cell }
{
    RowKey {
        model: cell.model,
        id: cell.id,
    }
}

/// The edits that leave in cells of rows that stay what is left of their values, where some rows
/// go.
pub(crate) fn left_edits<K: Keeper>(
    alloc: Global,
    engine: &mut Engine<'_, K>,
    cells: &[Cell],
    rows: &BTreeSet<RowKey>,
) -> Result<Vec<Edit>, Refusal>
    requires fields { All (IsFitCell engine.old.held.models) cells.now }
    requires rest { engine.old.held.phase ≡ phase.Settled }
    ensures told { IfOk result (λ edits. (tables : Tables) → RestsAt (K.kept engine.old.keeper.now) engine.old.held tables
        → All (λ cell. IsSome (kept_at tables cell)) cells.now
        → edits.items ≡ map (left_edit engine.old.held.models (has_key rows.now) tables) (staying (has_key rows.now) cells.now)) }
    ensures fit { IfOk result (λ edits. All (IsMakingNone engine.old.held.models) edits.items) }
    ensures causes { IfErr result (Refuses (Rose (K.faults engine.old.keeper.now) (K.faults engine.new.keeper.now)) (λ _. ⊥)) }
    ensures same { Stays (K.kept engine.old.keeper.now) engine.old.held (K.kept engine.new.keeper.now) engine.new.held }
    ensures count { K.faults engine.old.keeper.now ≤ K.faults engine.new.keeper.now }
    ensures lender { engine.new.keeper.ghost_name ≡ engine.old.keeper.ghost_name }
{
    let mut edits = Vec::new(alloc);
    for cell in cells {
        push_left(alloc, engine, *cell, rows, &mut edits)?;
    }
    Ok(edits)
}

/// Puts the one of a cell behind others, where its row stays.
fn push_left<K: Keeper>(
    alloc: Global,
    engine: &mut Engine<'_, K>,
    cell: Cell,
    rows: &BTreeSet<RowKey>,
    edits: &mut Vec<Edit>,
) -> Result<(), Refusal>
    requires field { IsFitCell engine.old.held.models cell }
    requires rest { engine.old.held.phase ≡ phase.Settled }
    ensures told { IfOk result (λ _. (tables : Tables) → RestsAt (K.kept engine.old.keeper.now) engine.old.held tables
        → IsSome (kept_at tables cell)
        → edits.new.items ≡ edits.old.items ++ map (left_edit engine.old.held.models (has_key rows.now) tables) (staying (has_key rows.now) (cell ∷ []))) }
    ensures fit { IfOk result (λ _. All (IsMakingNone engine.old.held.models) edits.old.items → All (IsMakingNone engine.old.held.models) edits.new.items) }
    ensures causes { IfErr result (Refuses (Rose (K.faults engine.old.keeper.now) (K.faults engine.new.keeper.now)) (λ _. ⊥)) }
    ensures same { Stays (K.kept engine.old.keeper.now) engine.old.held (K.kept engine.new.keeper.now) engine.new.held }
    ensures count { K.faults engine.old.keeper.now ≤ K.faults engine.new.keeper.now }
    ensures lender { engine.new.keeper.ghost_name ≡ engine.old.keeper.ghost_name }
{
    if rows.contains(&row_of(cell)) {
        return Ok(());
    }
    // The law of registries, by which a row keeps the value of a plain field of its own.
    let schema = engine.schema();
    schema.parts_fit_together();
    let Some(value) = settled_value(engine, cell)? else {
        return Ok(());
    };
    push_edit(alloc, schema, cell, value, rows, edits)?;
    Ok(())
}

/// Puts behind others the edit that leaves in a cell what is left of this value.
fn push_edit(
    alloc: Global,
    schema: &Schema,
    cell: Cell,
    value: Value,
    rows: &BTreeSet<RowKey>,
    edits: &mut Vec<Edit>,
) -> Result<(), NoMemory>
    requires field { HasField schema.now cell.model cell.field }
    ensures { OnOk result (edits.new.items ≡ edits.old.items ++ Edit.Set cell (spec.left_at schema.now (has_key rows.now) cell value) ∷ []) }
{
    let field = schema.info(cell.model, cell.field);
    let value = left_of(alloc, field, value, rows)?;
    edits.push(Edit::Set { cell, value })?;
    Ok(())
}

/// What is left of a value of a field, where some rows go.
fn left_of(
    alloc: Global,
    field: &FieldInfo,
    value: Value,
    rows: &BTreeSet<RowKey>,
) -> Result<Value, NoMemory>
    ensures { IfOk result (λ left. left ≡ spec.left_of (leads_to_gone (has_key rows.now) field.now) field.now.ondelete value) }
{
    match value {
        Value::Ref(id) => Ok(left_of_one(field, id, rows)),
        Value::Refs(ids) => Ok(Value::Refs(remaining(alloc, field, ids.as_slice(), rows)?)),
        value => Ok(value),
    }
}

/// What is left of a many2one.
fn left_of_one(field: &FieldInfo, id: RecId, rows: &BTreeSet<RowKey>) -> Value
    ensures { result ≡ spec.left_of (leads_to_gone (has_key rows.now) field.now) field.now.ondelete (Value.Ref id) }
{
    if leads_to_gone(field, id, rows) && is_unset(field.ondelete) {
        Value::Nil
    } else {
        Value::Ref(id)
    }
}

/// Those of a list's rows that stay.
fn remaining(
    alloc: Global,
    field: &FieldInfo,
    ids: &[RecId],
    rows: &BTreeSet<RowKey>,
) -> Result<RefList, NoMemory>
    requires { IsRising ids.now }
    ensures { IfOk result (λ left. left ≡ filter (λ id. not (leads_to_gone (has_key rows.now) field.now id)) ids.now) }
{
    let mut left = RefList::new(alloc);
    for id in ids {
        if !leads_to_gone(field, *id, rows) {
            left.push(*id)?;
        }
    }
    Ok(left)
}

/// Whether a field leads to a row that goes.
fn leads_to_gone(field: &FieldInfo, id: RecId, rows: &BTreeSet<RowKey>) -> bool
    ensures { result ≡ leads_to_gone (has_key rows.now) field.now id }
{
    match field.relation {
        Some(model) => rows.contains(&RowKey { model, id }),
        None => false,
    }
}

/// Whether a many2one is unset where the row that it names goes.
fn is_unset(action: OnDelete) -> bool
    ensures { result ≡ spec.is_unset action }
{
    matches!(action, OnDelete::SetNull)
}

/// Puts behind other edits those that take rows out.
pub(crate) fn push_gone(edits: &mut Vec<Edit>, rows: &[RowKey]) -> Result<(), NoMemory>
    ensures { OnOk result (edits.new.items ≡ edits.old.items ++ gone_edits rows.now) }
{
    for row in rows {
        edits.push(Edit::Gone {
            model: row.model,
            id: row.id,
        })?;
    }
    Ok(())
}
