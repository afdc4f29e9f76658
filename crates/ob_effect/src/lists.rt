//! Lists of rows: what names the rows of one, and how rows are put in and taken out. Those of a
//! one2many name the list's row by an inverse, so they are written or deleted by that; those of a
//! many2many that mirrors another have its row in lists of their own, which is no write of them.

ghost use Rattle.std.specs.Prelude.{◌≡◌, IfErr, IfOk, OnErr, OnOk};
ghost use Rattle.ob_base.specs.Rising.{IsRising};
ghost use Rattle.ob_cache.specs.Calls.{Refuses};
ghost use Rattle.ob_cache.specs.Stages.{IsUsable};
ghost use Rattle.ob_effect.specs.Effect.{Asks, ChangesSome, IsNoted, IsStep, IsWriterOver, Keeps};
ghost use Rattle.ob_effect.specs.Lists.{IsKeptList, IsListField, IsListOf};
ghost use Rattle.ob_effect.specs.Rows.{IsLinkField};
ghost use Rattle.ob_io.specs.Cause.{Rose};
ghost use Rattle.ob_tables.specs.Fitting.{IsFitId};

use crate::cells::{cell_of, row_of};
use crate::deletion::delete;
use crate::ids::{with_id, without};
use crate::notes::Notes;
use crate::rows::{Writer, set_link};
use crate::staged::{is_there, naming, stage_change, value_at};
use ob_base::{Cell, FieldNo, ModelNo, NoMemory, RecId, RefList, Refusal, RowKey, Value};
use ob_cache::Engine;
use ob_io::Keeper;
use ob_schema::{OnDelete, Schema};
use ob_tables::Edit;
use std::alloc::Global;
use std::collections::BTreeSet;

/// Where it stands which rows a list has: in its own row, in an inverse of the rows, or in lists of
/// the rows that it mirrors.
#[derive(Clone, Copy, Debug, PartialEq, Eq)]
pub(crate) enum Keeping {
    Own,
    Inverse(FieldNo),
    Mirror(FieldNo),
}

/// A cell that is a list of rows of a model.
#[derive(Clone, Copy)]
pub(crate) struct RowList {
    pub(crate) cell: Cell,
    pub(crate) target: ModelNo,
    pub(crate) keeping: Keeping,
}

/// The list that a cell is.
pub(crate) fn list_of(schema: &Schema, cell: Cell) -> RowList
    requires field { IsListField schema.now cell.model cell.field }
    ensures list { IsListOf schema.now result }
    ensures cell { result.cell ≡ cell }
{
    // The law of registries, by which a list is one of rows of a model.
    schema.parts_fit_together();
    let info = schema.info(cell.model, cell.field);
    let Some(target) = info.relation else {
        unreachable!();
    };
    let keeping = match (info.inverse, info.mirror) {
        (Some(inverse), _) => Keeping::Inverse(inverse),
        (None, Some(mirror)) => Keeping::Mirror(mirror),
        (None, None) => Keeping::Own,
    };
    RowList {
        cell,
        target,
        keeping,
    }
}

/// The rows of a list; of one whose row isn't there those that name it.
pub(crate) fn ids_in<K: Keeper>(
    alloc: Global,
    engine: &mut Engine<'_, K>,
    list: RowList,
) -> Result<RefList, Refusal>
    requires usable { IsUsable engine.old.held.phase }
    requires list { IsListOf engine.old.held.models list }
    ensures causes { IfErr result (Refuses (Rose (K.faults engine.old.keeper.now) (K.faults engine.new.keeper.now)) (λ _. ⊥)) }
    ensures asked { Asks K.Keeper engine.old engine.new }
{
    match list.keeping {
        Keeping::Inverse(field) | Keeping::Mirror(field) => {
            naming(engine, list.target, field, list.cell.id)
        }
        Keeping::Own => match value_at(engine, list.cell)? {
            Some(Value::Refs(ids)) => Ok(ids),
            _ => Ok(RefList::new(alloc)),
        },
    }
}

/// Puts a row into a list, where it is there.
pub(crate) fn link<K: Keeper>(
    engine: &mut Engine<'_, K>,
    writer: &Writer<'_>,
    notes: &mut Notes,
    list: RowList,
    id: RecId,
) -> Result<(), Refusal>
    requires writer { IsWriterOver engine.old.held.models writer.now }
    requires usable { IsUsable engine.old.held.phase }
    requires noted { IsNoted engine.old.held.models notes.old engine.old.held }
    requires list { IsListOf engine.old.held.models list }
    ensures step { IsStep K.Keeper writer.entry.now.by engine.old engine.new notes.new result }
{
    let row = row_in(list, id);
    match list.keeping {
        Keeping::Inverse(field) => {
            if !is_there(engine, row)? {
                return Ok(());
            }
            set_link(engine, writer, notes, row, field, Value::Ref(list.cell.id))
        }
        Keeping::Mirror(field) => put_in(writer.alloc, engine, cell_of(row, field), list.cell.id),
        Keeping::Own => put_in(writer.alloc, engine, list.cell, id),
    }
}

/// Takes a row out of a list. One that names the list's row by an inverse with `cascade` is deleted.
pub(crate) fn unlink<K: Keeper>(
    engine: &mut Engine<'_, K>,
    writer: &Writer<'_>,
    notes: &mut Notes,
    list: RowList,
    id: RecId,
) -> Result<(), Refusal>
    requires writer { IsWriterOver engine.old.held.models writer.now }
    requires usable { IsUsable engine.old.held.phase }
    requires noted { IsNoted engine.old.held.models notes.old engine.old.held }
    requires list { IsListOf engine.old.held.models list }
    ensures step { IsStep K.Keeper writer.entry.now.by engine.old engine.new notes.new result }
{
    let row = row_in(list, id);
    match list.keeping {
        Keeping::Inverse(field) => unlink_line(engine, writer, notes, row, field),
        Keeping::Mirror(field) => take_out(writer.alloc, engine, cell_of(row, field), list.cell.id),
        Keeping::Own => take_out(writer.alloc, engine, list.cell, id),
    }
}

/// Takes a row that names another one by an inverse out of its list.
fn unlink_line<K: Keeper>(
    engine: &mut Engine<'_, K>,
    writer: &Writer<'_>,
    notes: &mut Notes,
    row: RowKey,
    field: FieldNo,
) -> Result<(), Refusal>
    requires writer { IsWriterOver engine.old.held.models writer.now }
    requires usable { IsUsable engine.old.held.phase }
    requires noted { IsNoted engine.old.held.models notes.old engine.old.held }
    requires field { IsLinkField engine.old.held.models row.model field }
    ensures step { IsStep K.Keeper writer.entry.now.by engine.old engine.new notes.new result }
{
    if !is_there(engine, row)? {
        return Ok(());
    }
    match writer.schema.info(row.model, field).ondelete {
        OnDelete::Cascade => delete(engine, writer, notes, row),
        _ => set_link(engine, writer, notes, row, field, Value::Nil),
    }
}

/// Takes all rows out of a list.
pub(crate) fn clear<K: Keeper>(
    engine: &mut Engine<'_, K>,
    writer: &Writer<'_>,
    notes: &mut Notes,
    list: RowList,
) -> Result<(), Refusal>
    requires writer { IsWriterOver engine.old.held.models writer.now }
    requires usable { IsUsable engine.old.held.phase }
    requires noted { IsNoted engine.old.held.models notes.old engine.old.held }
    requires list { IsListOf engine.old.held.models list }
    ensures step { IsStep K.Keeper writer.entry.now.by engine.old engine.new notes.new result }
{
    set(engine, writer, notes, list, &[])
}

/// Makes a list these rows: the others are taken out, and these are put in.
pub(crate) fn set<K: Keeper>(
    engine: &mut Engine<'_, K>,
    writer: &Writer<'_>,
    notes: &mut Notes,
    list: RowList,
    ids: &[RecId],
) -> Result<(), Refusal>
    requires writer { IsWriterOver engine.old.held.models writer.now }
    requires usable { IsUsable engine.old.held.phase }
    requires noted { IsNoted engine.old.held.models notes.old engine.old.held }
    requires list { IsListOf engine.old.held.models list }
    ensures step { IsStep K.Keeper writer.entry.now.by engine.old engine.new notes.new result }
{
    let wanted = id_set(writer.alloc, ids)?;
    match list.keeping {
        Keeping::Own => set_own(writer.alloc, engine, list.cell, &wanted),
        _ => {
            unlink_others(engine, writer, notes, list, &wanted)?;
            link_each(engine, writer, notes, list, ids)
        }
    }
}

/// Puts rows into a list.
fn link_each<K: Keeper>(
    engine: &mut Engine<'_, K>,
    writer: &Writer<'_>,
    notes: &mut Notes,
    list: RowList,
    ids: &[RecId],
) -> Result<(), Refusal>
    requires writer { IsWriterOver engine.old.held.models writer.now }
    requires usable { IsUsable engine.old.held.phase }
    requires noted { IsNoted engine.old.held.models notes.old engine.old.held }
    requires list { IsListOf engine.old.held.models list }
    ensures step { IsStep K.Keeper writer.entry.now.by engine.old engine.new notes.new result }
{
    for id in ids {
        link(engine, writer, notes, list, *id)?;
    }
    Ok(())
}

/// Takes the rows out of a list that aren't among some.
fn unlink_others<K: Keeper>(
    engine: &mut Engine<'_, K>,
    writer: &Writer<'_>,
    notes: &mut Notes,
    list: RowList,
    wanted: &BTreeSet<RecId>,
) -> Result<(), Refusal>
    requires writer { IsWriterOver engine.old.held.models writer.now }
    requires usable { IsUsable engine.old.held.phase }
    requires noted { IsNoted engine.old.held.models notes.old engine.old.held }
    requires list { IsListOf engine.old.held.models list }
    ensures step { IsStep K.Keeper writer.entry.now.by engine.old engine.new notes.new result }
{
    let before = ids_in(writer.alloc, engine, list)?;
    for id in before.as_slice() {
        if !wanted.contains(id) {
            unlink(engine, writer, notes, list, *id)?;
        }
    }
    Ok(())
}

/// Puts an id into a list that a row keeps, where the row is there.
fn put_in<K: Keeper>(
    alloc: Global,
    engine: &mut Engine<'_, K>,
    cell: Cell,
    id: RecId,
) -> Result<(), Refusal>
    requires usable { IsUsable engine.old.held.phase }
    requires cell { IsKeptList engine.old.held.models cell.model cell.field }
    ensures changed { OnOk result (ChangesSome K.Keeper engine.old engine.new) }
    ensures kept { OnErr result (Keeps K.Keeper engine.old engine.new) }
    ensures causes { IfErr result (Refuses (Rose (K.faults engine.old.keeper.now) (K.faults engine.new.keeper.now)) (λ _. ⊥)) }
{
    let Some(Value::Refs(before)) = value_at(engine, cell)? else {
        return Ok(());
    };
    let ids = with_id(alloc, before, id)?;
    set_list(alloc, engine, cell, ids)
}

/// Takes an id out of a list that a row keeps, where the row is there.
fn take_out<K: Keeper>(
    alloc: Global,
    engine: &mut Engine<'_, K>,
    cell: Cell,
    id: RecId,
) -> Result<(), Refusal>
    requires usable { IsUsable engine.old.held.phase }
    requires cell { IsKeptList engine.old.held.models cell.model cell.field }
    ensures changed { OnOk result (ChangesSome K.Keeper engine.old engine.new) }
    ensures kept { OnErr result (Keeps K.Keeper engine.old engine.new) }
    ensures causes { IfErr result (Refuses (Rose (K.faults engine.old.keeper.now) (K.faults engine.new.keeper.now)) (λ _. ⊥)) }
{
    let Some(Value::Refs(before)) = value_at(engine, cell)? else {
        return Ok(());
    };
    let ids = without(alloc, before.as_slice(), id)?;
    set_list(alloc, engine, cell, ids)
}

/// Makes a list that a row keeps these ids, where the row is there.
fn set_own<K: Keeper>(
    alloc: Global,
    engine: &mut Engine<'_, K>,
    cell: Cell,
    ids: &BTreeSet<RecId>,
) -> Result<(), Refusal>
    requires usable { IsUsable engine.old.held.phase }
    requires cell { IsKeptList engine.old.held.models cell.model cell.field }
    ensures changed { OnOk result (ChangesSome K.Keeper engine.old engine.new) }
    ensures kept { OnErr result (Keeps K.Keeper engine.old engine.new) }
    ensures causes { IfErr result (Refuses (Rose (K.faults engine.old.keeper.now) (K.faults engine.new.keeper.now)) (λ _. ⊥)) }
{
    if !is_there(engine, row_of(cell))? {
        return Ok(());
    }
    set_cell(alloc, engine, cell, ids)
}

/// Makes a list that a row keeps these ids.
fn set_cell<K: Keeper>(
    alloc: Global,
    engine: &mut Engine<'_, K>,
    cell: Cell,
    ids: &BTreeSet<RecId>,
) -> Result<(), Refusal>
    requires usable { IsUsable engine.old.held.phase }
    requires id { IsFitId cell.id }
    requires cell { IsKeptList engine.old.held.models cell.model cell.field }
    ensures changed { OnOk result (ChangesSome K.Keeper engine.old engine.new) }
    ensures kept { OnErr result (Keeps K.Keeper engine.old engine.new) }
    ensures causes { IfErr result (Refuses (Rose (K.faults engine.old.keeper.now) (K.faults engine.new.keeper.now)) (λ _. ⊥)) }
{
    let ids = rising(alloc, ids)?;
    set_list(alloc, engine, cell, ids)
}

/// Makes a list that a row keeps these ids, which rise.
fn set_list<K: Keeper>(
    alloc: Global,
    engine: &mut Engine<'_, K>,
    cell: Cell,
    ids: RefList,
) -> Result<(), Refusal>
    requires usable { IsUsable engine.old.held.phase }
    requires id { IsFitId cell.id }
    requires cell { IsKeptList engine.old.held.models cell.model cell.field }
    requires ids { IsRising ids }
    ensures changed { OnOk result (ChangesSome K.Keeper engine.old engine.new) }
    ensures kept { OnErr result (Keeps K.Keeper engine.old engine.new) }
    ensures causes { IfErr result (Refuses (Rose (K.faults engine.old.keeper.now) (K.faults engine.new.keeper.now)) (λ _. ⊥)) }
{
    let value = Value::Refs(ids);
    stage_change(alloc, engine, Edit::Set { cell, value })
}

/// A row of the model of a list.
pub(crate) fn row_in(list: RowList, id: RecId) -> RowKey
    ensures { (result.model ≡ list.target) × (result.id ≡ id) }
{
    RowKey {
        model: list.target,
        id,
    }
}

/// Ids as a set.
fn id_set(alloc: Global, ids: &[RecId]) -> Result<BTreeSet<RecId>, NoMemory> {
    let mut set = BTreeSet::new(alloc);
    for id in ids {
        set.insert(*id)?;
    }
    Ok(set)
}

/// The ids of a set, rising.
fn rising(alloc: Global, ids: &BTreeSet<RecId>) -> Result<RefList, NoMemory>
    ensures { IfOk result IsRising }
{
    let mut list = RefList::new(alloc);
    for id in ids {
        list.push(*id)?;
    }
    // What such a list is.
    let _ = list.as_slice();
    Ok(list)
}
