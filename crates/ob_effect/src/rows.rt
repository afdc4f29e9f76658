//! Rows that are made of values, and rows whose values are set, with what their author stamps. The
//! edits are staged, and what they do and break by themselves is noted.

ghost use Rattle.std.specs.Prelude.{◌≡◌, All, Any, Contains, IfErr, IfOk, IfSome, OnErr, OnOk};
ghost use Rattle.ob_base.specs.Times.{IsMoment};
ghost use Rattle.ob_cache.specs.Calls.{Refuses};
ghost use Rattle.ob_cache.specs.Stages.{IsUsable};
ghost use Rattle.ob_effect.specs.Effect.{Asks, IsFitChange, IsNoted, IsStep, IsWriterOver, Keeps, KeepsNotes, MakesRow, Takes};
ghost use Rattle.ob_effect.specs.Objects.{IsTypedValue};
ghost use Rattle.ob_effect.specs.Rows.{IsLink, IsSettable};
ghost use Rattle.ob_rows.specs.Makeable.{IsMakeable};
ghost use Rattle.ob_io.specs.Cause.{Rose};
ghost use Rattle.ob_schema.specs.Fields.{HasFieldType};
ghost use Rattle.ob_schema.specs.Models.{HasField, HasModel, field_at};
ghost use Rattle.ob_tables.specs.Fitting.{AreFitIn, IsFitId};

use crate::asking::Caller;
use crate::cells::cell_of;
use crate::notes::{Notes, note_given, note_named, note_touch};
use crate::relations::KeptRelation;
use crate::staged::{is_there, next_id, stage, stage_changes, value_at};
use ob_base::{
    BrokenKind, FieldNo, ModelNo, NoMemory, Op, RecId, Refusal, RowKey, Sequence, Value, value_eq,
};
use ob_cache::Engine;
use ob_io::Keeper;
use ob_rows::{Author, is_stamp, stamp};
use ob_schema::{FieldInfo, Schema};
use ob_tables::{Edit, next_ids_after};
use std::alloc::Global;

/// What rows are made and changed with: memory, the registry with the relations that rows keep, who
/// makes them and when, and who calls.
#[derive(Clone, Copy)]
pub struct Writer<'c> {
    pub alloc: Global,
    pub schema: &'c Schema,
    pub relations: &'c [KeptRelation],
    pub author: Author,
    pub by: Caller<'c>,
}

/// A many2one of a row that is made, and the id that it gets without being given a value.
#[derive(Clone, Copy)]
pub struct LinkTo {
    pub field: FieldNo,
    pub id: RecId,
}

/// Makes a row of the given values and of links, under the next id of its model.
pub(crate) fn make_row<K: Keeper>(
    engine: &mut Engine<'_, K>,
    writer: &Writer<'_>,
    notes: &mut Notes,
    model: ModelNo,
    given: &[(FieldNo, Value)],
    links: &[LinkTo],
) -> Result<RowKey, Refusal>
    requires writer { IsWriterOver engine.old.held.models writer.now }
    requires usable { IsUsable engine.old.held.phase }
    requires noted { IsNoted engine.old.held.models notes.old engine.old.held }
    requires model { HasModel engine.old.held.models model }
    requires given { All (IsTypedValue engine.old.held.models model) given.now }
    requires links { All (IsLink engine.old.held.models model) links.now }
    ensures step { IsStep K.Keeper writer.entry.now.by engine.old engine.new notes.new result }
    ensures row { IfOk result (λ row. row.model ≡ model) }
    ensures fit { IfOk result (λ row. IsFitId row.id) }
    ensures taken { IfOk result (λ row. Takes K.Keeper model row.id engine.old engine.new) }
{
    let id = next_id(engine, model)?;
    let row = RowKey { model, id };
    note_touch(notes, writer.schema, &writer.by, Op::Create, row)?;
    note_values(notes, writer.schema, row, given)?;
    let values = filled(writer, model, given, links)?;
    stage_row(writer.alloc, engine, row, values)?;
    Ok(row)
}

/// Stages that a row is made of values.
fn stage_row<K: Keeper>(
    alloc: Global,
    engine: &mut Engine<'_, K>,
    row: RowKey,
    values: Sequence<(FieldNo, Value)>,
) -> Result<(), Refusal>
    requires usable { IsUsable engine.old.held.phase }
    requires id { IsFitId row.id }
    requires fit { AreFitIn engine.old.held.models row.model values }
    ensures made { OnOk result (MakesRow K.Keeper row engine.old engine.new) }
    ensures kept { OnErr result (Keeps K.Keeper engine.old engine.new) }
    ensures causes { IfErr result (Refuses (Rose (K.faults engine.old.keeper.now) (K.faults engine.new.keeper.now)) (λ _. ⊥)) }
{
    let mut edits = Vec::new(alloc);
    edits.push(Edit::Make {
        model: row.model,
        id: row.id,
        values,
    })?;
    // The law of next ids.
    next_ids_after();
    stage(engine, edits.as_slice())
}

/// Sets the given values in a row that is written, where it is there.
pub(crate) fn set_values<K: Keeper>(
    engine: &mut Engine<'_, K>,
    writer: &Writer<'_>,
    notes: &mut Notes,
    row: RowKey,
    given: &[(FieldNo, Value)],
) -> Result<(), Refusal>
    requires writer { IsWriterOver engine.old.held.models writer.now }
    requires usable { IsUsable engine.old.held.phase }
    requires noted { IsNoted engine.old.held.models notes.old engine.old.held }
    requires model { HasModel engine.old.held.models row.model }
    requires given { All (IsTypedValue engine.old.held.models row.model) given.now }
    ensures step { IsStep K.Keeper writer.entry.now.by engine.old engine.new notes.new result }
{
    note_values(notes, writer.schema, row, given)?;
    if !is_there(engine, row)? {
        return Ok(());
    }
    note_changes(engine, writer.schema, notes, row, given)?;
    let mut edits = Vec::new(writer.alloc);
    push_values(writer, &mut edits, row, given)?;
    push_stamps(writer, &mut edits, row)?;
    stage_changes(engine, edits.as_slice())
}

/// Sets a many2one of a row that is thereby written and that is there.
pub(crate) fn set_link<K: Keeper>(
    engine: &mut Engine<'_, K>,
    writer: &Writer<'_>,
    notes: &mut Notes,
    row: RowKey,
    field: FieldNo,
    value: Value,
) -> Result<(), Refusal>
    requires writer { IsWriterOver engine.old.held.models writer.now }
    requires usable { IsUsable engine.old.held.phase }
    requires noted { IsNoted engine.old.held.models notes.old engine.old.held }
    requires id { IsFitId row.id }
    requires field { IsSettable engine.old.held.models row.model field value }
    ensures step { IsStep K.Keeper writer.entry.now.by engine.old engine.new notes.new result }
{
    note_touch(notes, writer.schema, &writer.by, Op::Write, row)?;
    note_change(engine, writer.schema, notes, row, field, &value)?;
    let mut edits = Vec::new(writer.alloc);
    edits.push(Edit::Set {
        cell: cell_of(row, field),
        value,
    })?;
    push_stamps(writer, &mut edits, row)?;
    stage_changes(engine, edits.as_slice())
}

/// Notes what values give a row.
fn note_values(
    notes: &mut Notes,
    schema: &Schema,
    row: RowKey,
    given: &[(FieldNo, Value)],
) -> Result<(), Refusal>
    requires given { All (IsTypedValue schema.now row.model) given.now }
    ensures noted { OnOk result (KeepsNotes schema.now notes.old notes.new) }
    ensures causes { IfErr result (λ why. why ≡ Refusal.NoMemory) }
{
    for one in given {
        let cell = cell_of(row, one.0);
        note_given(notes, schema, cell);
        if let Value::Ref(id) = &one.1 {
            note_named(notes, schema, cell, *id)?;
        }
    }
    Ok(())
}

/// Notes the fixed fields of a row that are given other values than they have.
fn note_changes<K: Keeper>(
    engine: &mut Engine<'_, K>,
    schema: &Schema,
    notes: &mut Notes,
    row: RowKey,
    given: &[(FieldNo, Value)],
) -> Result<(), Refusal>
    requires usable { IsUsable engine.old.held.phase }
    requires over { schema.now ≡ engine.old.held.models }
    requires given { All (IsTypedValue schema.now row.model) given.now }
    ensures noted { OnOk result (KeepsNotes schema.now notes.old notes.new) }
    ensures causes { IfErr result (Refuses (Rose (K.faults engine.old.keeper.now) (K.faults engine.new.keeper.now)) (λ _. ⊥)) }
    ensures asked { Asks K.Keeper engine.old engine.new }
{
    for one in given {
        note_change(engine, schema, notes, row, one.0, &one.1)?;
    }
    Ok(())
}

/// Notes that a fixed field of a row that is there is given another value than it has.
fn note_change<K: Keeper>(
    engine: &mut Engine<'_, K>,
    schema: &Schema,
    notes: &mut Notes,
    row: RowKey,
    field: FieldNo,
    value: &Value,
) -> Result<(), Refusal>
    requires usable { IsUsable engine.old.held.phase }
    requires over { schema.now ≡ engine.old.held.models }
    requires field { HasField schema.now row.model field }
    ensures noted { OnOk result (KeepsNotes schema.now notes.old notes.new) }
    ensures causes { IfErr result (Refuses (Rose (K.faults engine.old.keeper.now) (K.faults engine.new.keeper.now)) (λ _. ⊥)) }
    ensures asked { Asks K.Keeper engine.old engine.new }
{
    let info = schema.info(row.model, field);
    if !(info.fixed && info.is_plain_kept()) {
        return Ok(());
    }
    let cell = cell_of(row, field);
    let before = value_at(engine, cell)?;
    if is_other(before, value) {
        notes.breaks(BrokenKind::Fixed, cell);
    }
    Ok(())
}

/// Whether a value is another one than there was, where there was one.
fn is_other(before: Option<Value>, value: &Value) -> bool {
    match before {
        Some(before) => !value_eq(&before, value),
        None => false,
    }
}

/// Puts behind others the edits that set given values: of fields whose values rows keep.
fn push_values(
    writer: &Writer<'_>,
    edits: &mut Vec<Edit>,
    row: RowKey,
    given: &[(FieldNo, Value)],
) -> Result<(), NoMemory>
    requires id { IsFitId row.id }
    requires given { All (IsTypedValue writer.now.schema.now row.model) given.now }
    ensures { OnOk result (All (IsFitChange writer.entry.now.schema.now) edits.old.items → All (IsFitChange writer.entry.now.schema.now) edits.new.items) }
{
    for one in given {
        if writer.schema.info(row.model, one.0).is_plain_kept() {
            let value = one.1.try_clone(writer.alloc)?;
            edits.push(Edit::Set {
                cell: cell_of(row, one.0),
                value,
            })?;
        }
    }
    Ok(())
}

/// Puts behind others the edits that stamp a row that is changed.
fn push_stamps(writer: &Writer<'_>, edits: &mut Vec<Edit>, row: RowKey) -> Result<(), NoMemory>
    requires model { HasModel writer.now.schema.now row.model }
    requires moment { IsMoment writer.now.author.now }
    requires id { IsFitId row.id }
    ensures { OnOk result (All (IsFitChange writer.entry.now.schema.now) edits.old.items → All (IsFitChange writer.entry.now.schema.now) edits.new.items) }
{
    let count = writer.schema.model_info(row.model).fields.len();
    for index in 0..count {
        push_stamp(writer, edits, row, FieldNo(index as u16 + 1))?;
    }
    Ok(())
}

/// Puts behind others the edit that stamps a field of a row that is changed, where one is due.
fn push_stamp(
    writer: &Writer<'_>,
    edits: &mut Vec<Edit>,
    row: RowKey,
    number: FieldNo,
) -> Result<(), NoMemory>
    requires field { HasField writer.now.schema.now row.model number }
    requires makeable { IfSome (field_at writer.now.schema.now row.model number) IsMakeable }
    requires moment { IsMoment writer.now.author.now }
    requires id { IsFitId row.id }
    ensures { OnOk result (All (IsFitChange writer.entry.now.schema.now) edits.old.items → All (IsFitChange writer.entry.now.schema.now) edits.new.items) }
{
    let field = writer.schema.info(row.model, number);
    let name = field.name.as_str();
    if field.is_plain_kept() && is_stamp(false, name) {
        edits.push(Edit::Set {
            cell: cell_of(row, number),
            value: stamp(writer.author, name),
        })?;
    }
    Ok(())
}

/// The values of the plain fields of a row that is made, which get one.
fn filled(
    writer: &Writer<'_>,
    model: ModelNo,
    given: &[(FieldNo, Value)],
    links: &[LinkTo],
) -> Result<Sequence<(FieldNo, Value)>, NoMemory>
    requires model { HasModel writer.now.schema.now model }
    requires moment { IsMoment writer.now.author.now }
    requires given { All (IsTypedValue writer.now.schema.now model) given.now }
    requires links { All (IsLink writer.now.schema.now model) links.now }
    ensures { IfOk result (AreFitIn writer.entry.now.schema.now model) }
{
    let mut values = Sequence::new(writer.alloc);
    let count = writer.schema.model_info(model).fields.len();
    for index in 0..count {
        let number = FieldNo(index as u16 + 1);
        if writer.schema.info(model, number).is_plain_kept() {
            if let Some(value) = filled_value(writer, model, number, given, links)? {
                values.push((number, value))?;
            }
        }
    }
    Ok(values)
}

/// The value that a plain field of a row that is made gets, if any: a stamp, a link, what is given,
/// or its default.
fn filled_value(
    writer: &Writer<'_>,
    model: ModelNo,
    number: FieldNo,
    given: &[(FieldNo, Value)],
    links: &[LinkTo],
) -> Result<Option<Value>, NoMemory>
    requires field { HasField writer.now.schema.now model number }
    requires makeable { IfSome (field_at writer.now.schema.now model number) IsMakeable }
    requires moment { IsMoment writer.now.author.now }
    requires given { All (IsTypedValue writer.now.schema.now model) given.now }
    requires links { All (IsLink writer.now.schema.now model) links.now }
    ensures { IfOk result (λ value. IfSome value (HasFieldType (field_at writer.entry.now.schema.now model number))) }
{
    let field = writer.schema.info(model, number);
    let name = field.name.as_str();
    if is_stamp(true, name) {
        return Ok(Some(stamp(writer.author, name)));
    }
    if let Some(id) = link_id(links, number) {
        return Ok(Some(Value::Ref(id)));
    }
    match value_for(given, number).or(field.default.as_ref()) {
        Some(value) => Ok(Some(value.try_clone(writer.alloc)?)),
        None => Ok(None),
    }
}

/// The id that a link gets.
pub(crate) fn link_id(links: &[LinkTo], number: FieldNo) -> Option<RecId>
    ensures { IfSome result (λ id. Any (λ link. (link.field ≡ number) × (link.id ≡ id)) links.now) }
{
    for link in links {
        if link.field == number {
            return Some(link.id);
        }
    }
    None
}

/// The value that is given for a field.
fn value_for(given: &[(FieldNo, Value)], number: FieldNo) -> Option<&Value>
    ensures { IfSome result (λ value. Contains given.now (number, value.now)) }
{
    for one in given {
        if one.0 == number {
            return Some(&one.1);
        }
    }
    None
}
