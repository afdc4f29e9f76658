//! Rows that go, at once: the least set that has the row and each one that names one of them by a
//! many2one with `cascade`. Of the rows that stay a many2one with `set null` is unset, and lists are
//! left without them. All over the tables with the edits so far. Which rows are taken stands in
//! `taking`.

ghost use Rattle.std.specs.Prelude.{◌≡◌, All, IfErr, IfOk, OnOk};
ghost use Rattle.ob_base.specs.Rising.{IsRising};
ghost use Rattle.ob_cache.specs.Calls.{Refuses};
ghost use Rattle.ob_cache.specs.Stages.{IsUsable};
ghost use Rattle.ob_effect.specs.Deletion.{AreFitCells, AreFitRows, IsFitCell, TakesFit};
ghost use Rattle.ob_effect.specs.Effect.{Asks, IsFitChange, IsNoted, IsStep, IsWriterOver, KeepsNotes};
ghost use Rattle.ob_effect.specs.Relations.{IsRelation};
ghost use Rattle.ob_io.specs.Cause.{Rose};
ghost use Rattle.ob_schema.specs.Fields.{IsGivable};
ghost use Rattle.ob_schema.specs.Models.{HasModel};
ghost use Rattle.ob_tables.specs.Fitting.{IsFitId};

mod taking;

use crate::cells::row_of;
use crate::deletion::taking::{add_found, take};
use crate::notes::{Notes, note_gone, note_touch};
use crate::relations::KeptRelation;
use crate::rows::Writer;
use crate::staged::{is_there, naming, stage_changes, value_at};
use ob_base::{Cell, NoMemory, Op, RecId, RefList, Refusal, RowKey, Value};
use ob_cache::Engine;
use ob_io::Keeper;
use ob_schema::{FieldInfo, OnDelete, Schema};
use ob_tables::Edit;
use std::alloc::Global;
use std::collections::BTreeSet;

/// The rows that go, and the cells that name any of them.
#[derive(Drop)]
pub(crate) struct Deletion {
    pub(crate) rows: Vec<RowKey>,
    pub(crate) cells: Vec<Cell>,
    pub(crate) taken: BTreeSet<RowKey>,
}

/// Deletes a row, with what cascades take.
pub(crate) fn delete<K: Keeper>(
    engine: &mut Engine<'_, K>,
    writer: &Writer<'_>,
    notes: &mut Notes,
    row: RowKey,
) -> Result<(), Refusal>
    requires writer { IsWriterOver engine.old.held.models writer.now }
    requires usable { IsUsable engine.old.held.phase }
    requires noted { IsNoted engine.old.held.models notes.old engine.old.held }
    requires model { HasModel engine.old.held.models row.model }
    ensures step { IsStep K.Keeper writer.entry.now.by engine.old engine.new notes.new result }
{
    note_touch(notes, writer.schema, &writer.by, Op::Unlink, row)?;
    if !is_there(engine, row)? {
        return Ok(());
    }
    let deletion = deletion_of(writer.alloc, engine, writer.relations, row)?;
    note_rows(notes, writer.schema, deletion.rows.as_slice())?;
    let mut edits = Vec::new(writer.alloc);
    push_left(writer, engine, &deletion, &mut edits)?;
    push_gone(writer.schema, deletion.rows.as_slice(), &mut edits)?;
    stage_changes(engine, edits.as_slice())
}

/// What goes with a row.
fn deletion_of<K: Keeper>(
    alloc: Global,
    engine: &mut Engine<'_, K>,
    relations: &[KeptRelation],
    row: RowKey,
) -> Result<Deletion, Refusal>
    requires relations { All (IsRelation engine.old.held.models) relations.now }
    requires usable { IsUsable engine.old.held.phase }
    requires row { HasModel engine.old.held.models row.model }
    requires fit { IsFitId row.id }
    ensures rows { IfOk result (λ deletion. AreFitRows engine.old.held.models deletion.rows.items) }
    ensures cells { IfOk result (λ deletion. AreFitCells engine.old.held.models deletion.cells.items) }
    ensures causes { IfErr result (Refuses (Rose (K.faults engine.old.keeper.now) (K.faults engine.new.keeper.now)) (λ _. ⊥)) }
    ensures asked { Asks K.Keeper engine.old engine.new }
{
    let mut deletion = Deletion {
        rows: Vec::new(alloc),
        cells: Vec::new(alloc),
        taken: BTreeSet::new(alloc),
    };
    let mut waiting = Vec::new(alloc);
    take(&mut deletion, &mut waiting, row)?;
    while let Some(next) = waiting.pop() {
        add_holders(engine, relations, next, &mut deletion, &mut waiting)?;
        // The bound of each such set.
        let _ = deletion.taken.len();
    }
    Ok(deletion)
}

/// Adds the cells that name a row, and takes the rows that go with it.
fn add_holders<K: Keeper>(
    engine: &mut Engine<'_, K>,
    relations: &[KeptRelation],
    row: RowKey,
    deletion: &mut Deletion,
    waiting: &mut Vec<RowKey>,
) -> Result<(), Refusal>
    requires relations { All (IsRelation engine.old.held.models) relations.now }
    requires usable { IsUsable engine.old.held.phase }
    ensures taken { OnOk result (TakesFit engine.old.held.models deletion.old deletion.new waiting.old.items waiting.new.items) }
    ensures causes { IfErr result (Refuses (Rose (K.faults engine.old.keeper.now) (K.faults engine.new.keeper.now)) (λ _. ⊥)) }
    ensures asked { Asks K.Keeper engine.old engine.new }
{
    for relation in relations {
        if relation.target == row.model {
            add_by(engine, *relation, row.id, deletion, waiting)?;
        }
    }
    Ok(())
}

/// The same by one relation.
fn add_by<K: Keeper>(
    engine: &mut Engine<'_, K>,
    relation: KeptRelation,
    id: RecId,
    deletion: &mut Deletion,
    waiting: &mut Vec<RowKey>,
) -> Result<(), Refusal>
    requires relation { IsRelation engine.old.held.models relation }
    requires usable { IsUsable engine.old.held.phase }
    ensures taken { OnOk result (TakesFit engine.old.held.models deletion.old deletion.new waiting.old.items waiting.new.items) }
    ensures causes { IfErr result (Refuses (Rose (K.faults engine.old.keeper.now) (K.faults engine.new.keeper.now)) (λ _. ⊥)) }
    ensures asked { Asks K.Keeper engine.old engine.new }
{
    let ids = naming(engine, relation.model, relation.field, id)?;
    add_found(relation, ids.as_slice(), deletion, waiting)?;
    Ok(())
}

/// Notes the rows that go.
fn note_rows(notes: &mut Notes, schema: &Schema, rows: &[RowKey]) -> Result<(), Refusal>
    requires rows { AreFitRows schema.now rows.now }
    ensures noted { OnOk result (KeepsNotes schema.now notes.old notes.new) }
    ensures causes { IfErr result (λ why. why ≡ Refusal.NoMemory) }
{
    for row in rows {
        note_gone(notes, schema, *row)?;
    }
    Ok(())
}

/// Puts behind others the edits that leave in cells of rows that stay what is left of their values.
fn push_left<K: Keeper>(
    writer: &Writer<'_>,
    engine: &mut Engine<'_, K>,
    deletion: &Deletion,
    edits: &mut Vec<Edit>,
) -> Result<(), Refusal>
    requires over { writer.now.schema.now ≡ engine.old.held.models }
    requires usable { IsUsable engine.old.held.phase }
    requires cells { AreFitCells engine.old.held.models deletion.now.cells.items }
    ensures fit { OnOk result (All (IsFitChange engine.old.held.models) edits.old.items → All (IsFitChange engine.old.held.models) edits.new.items) }
    ensures causes { IfErr result (Refuses (Rose (K.faults engine.old.keeper.now) (K.faults engine.new.keeper.now)) (λ _. ⊥)) }
    ensures asked { Asks K.Keeper engine.old engine.new }
{
    for cell in &deletion.cells {
        if !deletion.taken.contains(&row_of(*cell)) {
            push_left_of(writer, engine, *cell, &deletion.taken, edits)?;
        }
    }
    Ok(())
}

/// Puts behind others the edit that leaves in a cell what is left of its value.
fn push_left_of<K: Keeper>(
    writer: &Writer<'_>,
    engine: &mut Engine<'_, K>,
    cell: Cell,
    taken: &BTreeSet<RowKey>,
    edits: &mut Vec<Edit>,
) -> Result<(), Refusal>
    requires over { writer.now.schema.now ≡ engine.old.held.models }
    requires usable { IsUsable engine.old.held.phase }
    requires cell { IsFitCell engine.old.held.models cell }
    ensures fit { OnOk result (All (IsFitChange engine.old.held.models) edits.old.items → All (IsFitChange engine.old.held.models) edits.new.items) }
    ensures causes { IfErr result (Refuses (Rose (K.faults engine.old.keeper.now) (K.faults engine.new.keeper.now)) (λ _. ⊥)) }
    ensures asked { Asks K.Keeper engine.old engine.new }
{
    let Some(value) = value_at(engine, cell)? else {
        return Ok(());
    };
    let field = writer.schema.info(cell.model, cell.field);
    let value = left_of(writer.alloc, field, value, taken)?;
    edits.push(Edit::Set { cell, value })?;
    Ok(())
}

/// What is left of a value of a field, where some rows go.
fn left_of(
    alloc: Global,
    field: &FieldInfo,
    value: Value,
    taken: &BTreeSet<RowKey>,
) -> Result<Value, NoMemory>
    requires { IsGivable field.now value }
    ensures { IfOk result (IsGivable field.now) }
{
    match value {
        Value::Ref(id) if is_unset(field, id, taken) => Ok(Value::Nil),
        Value::Refs(ids) => Ok(Value::Refs(remaining(alloc, field, ids.as_slice(), taken)?)),
        value => Ok(value),
    }
}

/// Whether a many2one is unset, where some rows go.
fn is_unset(field: &FieldInfo, id: RecId, taken: &BTreeSet<RowKey>) -> bool {
    leads_to(field, id, taken) && matches!(field.ondelete, OnDelete::SetNull)
}

/// Those of a list's rows that stay.
fn remaining(
    alloc: Global,
    field: &FieldInfo,
    ids: &[RecId],
    taken: &BTreeSet<RowKey>,
) -> Result<RefList, NoMemory>
    requires { IsRising ids.now }
    ensures { IfOk result IsRising }
{
    let mut left = RefList::new(alloc);
    for id in ids {
        if !leads_to(field, *id, taken) {
            left.push(*id)?;
        }
    }
    // What such a list is.
    let _ = left.as_slice();
    Ok(left)
}

/// Whether a field leads to one of some rows.
fn leads_to(field: &FieldInfo, id: RecId, taken: &BTreeSet<RowKey>) -> bool {
    match field.relation {
        Some(model) => taken.contains(&RowKey { model, id }),
        None => false,
    }
}

/// Puts behind others the edits that take the rows out.
fn push_gone(schema: &Schema, rows: &[RowKey], edits: &mut Vec<Edit>) -> Result<(), NoMemory>
    requires rows { AreFitRows schema.now rows.now }
    ensures { OnOk result (All (IsFitChange schema.now) edits.old.items → All (IsFitChange schema.now) edits.new.items) }
{
    let _ = schema;
    for row in rows {
        edits.push(Edit::Gone {
            model: row.model,
            id: row.id,
        })?;
    }
    Ok(())
}
