//! The effect of objects of values: rows are made and written, and commands carried out from the
//! left, each over the tables that the edits before it left. Of a row first its own values are set,
//! then those of its parents, then the commands on its lists, by byte order of names.
//!
//! Rooms: `parents` (what becomes of a row's parents), `own` (which values of an object are the
//! row's own, and which a parent's), `made` (which rows an object makes), `listed` (the lists that
//! commands on a row mean) and `named` (whether the rows that a command names are there).

ghost use Rattle.std.specs.Prelude.{◌≡◌, All, IfErr, IfOk, IfSome, List, true};
ghost use Rattle.ob_cache.specs.Calls.{Refuses};
ghost use Rattle.ob_cache.specs.Stages.{IsUsable};
ghost use Rattle.ob_codec.specs.CommandForms.{IsObject};
ghost use Rattle.ob_codec.specs.Held.{HasIdsAndObjects};
ghost use Rattle.ob_effect.specs.Effect.{Asks, IsNoted, IsStep, IsWriterOver, Takes};
ghost use Rattle.ob_effect.specs.Lists.{IsListField, IsListOf};
ghost use Rattle.ob_effect.specs.Objects.{AreTypedOrders, IsObjectFor};
ghost use Rattle.ob_effect.specs.Rows.{IsLink};
ghost use Rattle.ob_definition.specs.Types.{is_list};
ghost use Rattle.ob_io.specs.Cause.{Rose};
ghost use Rattle.ob_schema.specs.Models.{FieldHas, HasField, HasModel};
ghost use Rattle.ob_schema.specs.declared.info.ModelInfo.{ModelInfo};
ghost use Rattle.serde_json.specs.View.{view};

mod listed;
mod made;
mod named;
pub(crate) mod own;
mod parents;

use crate::cells::row_of;
use crate::deletion::delete;
use crate::effect::listed::{Listed, is_gone, lists_of};
use crate::effect::made::Made;
use crate::effect::named::names_rows;
use crate::effect::own::own_values;
use crate::effect::parents::{change_parents, make_parents};
use crate::lists::{Keeping, RowList, clear, ids_in, link, list_of, row_in, set, unlink};
use crate::notes::{Notes, note_given, note_touch};
use crate::object::{Object, object_of};
use crate::rows::{LinkTo, Writer, make_row, set_values};
use crate::staged::is_there;
use ob_base::{BrokenKind, ModelNo, Op, RecId, Refusal, RowKey};
use ob_cache::Engine;
use ob_call::Json;
use ob_codec::Command;
use ob_io::Keeper;

/// Makes a row of an object of values, with rows of the parents that no id links and with what its
/// commands do. Where a one2many makes it, it is linked back.
#[cycle(effect)]
pub fn create_row<K: Keeper>(
    engine: &mut Engine<'_, K>,
    writer: &Writer<'_>,
    notes: &mut Notes,
    model: ModelNo,
    object: &Object,
    back: Option<LinkTo>,
) -> Result<RecId, Refusal>
    requires writer { IsWriterOver engine.old.held.models writer.now }
    requires usable { IsUsable engine.old.held.phase }
    requires noted { IsNoted engine.old.held.models notes.old engine.old.held }
    requires model { HasModel engine.old.held.models model }
    requires object { IsObjectFor engine.old.held.models model object.now }
    requires back { IfSome back (IsLink engine.old.held.models model) }
    ensures step { IsStep K.Keeper writer.entry.now.by engine.old engine.new notes.new result }
    ensures taken { IfOk result (λ id. Takes K.Keeper model id engine.old engine.new) }
{
    let mut parents = Vec::new(writer.alloc);
    let links = make_parents(engine, writer, notes, model, object, back, &mut parents)?;
    let own = own_values(writer.alloc, writer.schema, model, object, links.as_slice())?;
    let row = make_row(
        engine,
        writer,
        notes,
        model,
        own.as_slice(),
        links.as_slice(),
    )?;
    let made = Made::Row(parents.as_slice());
    change_parents(engine, writer, notes, row, object, made)?;
    carry_all(engine, writer, notes, row, object, made)?;
    Ok(row.id)
}

/// Writes an object of values to a row.
#[cycle(effect)]
pub fn write_row<K: Keeper>(
    engine: &mut Engine<'_, K>,
    writer: &Writer<'_>,
    notes: &mut Notes,
    row: RowKey,
    object: &Object,
) -> Result<(), Refusal>
    requires writer { IsWriterOver engine.old.held.models writer.now }
    requires usable { IsUsable engine.old.held.phase }
    requires noted { IsNoted engine.old.held.models notes.old engine.old.held }
    requires model { HasModel engine.old.held.models row.model }
    requires object { IsObjectFor engine.old.held.models row.model object.now }
    ensures step { IsStep K.Keeper writer.entry.now.by engine.old engine.new notes.new result }
{
    note_touch(notes, writer.schema, &writer.by, Op::Write, row)?;
    let own = own_values(writer.alloc, writer.schema, row.model, object, &[])?;
    set_values(engine, writer, notes, row, own.as_slice())?;
    change_parents(engine, writer, notes, row, object, Made::Nothing)?;
    carry_all(engine, writer, notes, row, object, Made::Nothing)
}

/// Carries out the commands on the lists of a row and of its parents, of the rows that its links
/// name before any command; some of these rows are made with the commands.
#[cycle(effect)]
fn carry_all<K: Keeper>(
    engine: &mut Engine<'_, K>,
    writer: &Writer<'_>,
    notes: &mut Notes,
    row: RowKey,
    object: &Object,
    made: Made<'_>,
) -> Result<(), Refusal>
    requires writer { IsWriterOver engine.old.held.models writer.now }
    requires usable { IsUsable engine.old.held.phase }
    requires noted { IsNoted engine.old.held.models notes.old engine.old.held }
    requires orders { All (AreTypedOrders engine.old.held.models row.model) object.now.orders.items }
    ensures step { IsStep K.Keeper writer.entry.now.by engine.old engine.new notes.new result }
{
    let lists = lists_of(engine, writer, row, object.orders.as_slice())?;
    for one in &lists {
        carry_field(engine, writer, notes, row, *one, made)?;
    }
    Ok(())
}

/// Carries out the commands on a list of a row, or of a parent's row as long as that is there.
#[cycle(effect)]
fn carry_field<K: Keeper>(
    engine: &mut Engine<'_, K>,
    writer: &Writer<'_>,
    notes: &mut Notes,
    row: RowKey,
    one: Listed<'_>,
    made: Made<'_>,
) -> Result<(), Refusal>
    requires writer { IsWriterOver engine.old.held.models writer.now }
    requires usable { IsUsable engine.old.held.phase }
    requires noted { IsNoted engine.old.held.models notes.old engine.old.held }
    requires list { IsListField engine.old.held.models one.cell.model one.cell.field }
    requires commands { All HasIdsAndObjects one.orders.now.commands }
    ensures step { IsStep K.Keeper writer.entry.now.by engine.old engine.new notes.new result }
{
    note_given(notes, writer.schema, one.cell);
    if is_gone(engine, row, one.cell)? {
        return Ok(());
    }
    let list = list_of(writer.schema, one.cell);
    let commands = one.orders.commands.as_slice();
    if is_kept_fixed(writer, one, made) {
        carry_fixed(engine, writer, notes, list, commands)
    } else {
        carry_list(engine, writer, notes, list, commands)
    }
}

/// Whether a list is fixed: its field is, and its row isn't one that the object makes.
fn is_kept_fixed(writer: &Writer<'_>, one: Listed<'_>, made: Made<'_>) -> bool
    requires { HasField writer.now.schema.now one.cell.model one.cell.field }
{
    writer.schema.info(one.cell.model, one.cell.field).fixed && !made.has_row(one.behind)
}

/// Carries out commands on a fixed list, which may not change by them.
#[cycle(effect)]
fn carry_fixed<K: Keeper>(
    engine: &mut Engine<'_, K>,
    writer: &Writer<'_>,
    notes: &mut Notes,
    list: RowList,
    commands: &[Command],
) -> Result<(), Refusal>
    requires writer { IsWriterOver engine.old.held.models writer.now }
    requires usable { IsUsable engine.old.held.phase }
    requires noted { IsNoted engine.old.held.models notes.old engine.old.held }
    requires list { IsListOf engine.old.held.models list }
    requires commands { All HasIdsAndObjects commands.now }
    ensures step { IsStep K.Keeper writer.entry.now.by engine.old engine.new notes.new result }
{
    let before = ids_in(writer.alloc, engine, list)?;
    carry_list(engine, writer, notes, list, commands)?;
    let after = ids_in(writer.alloc, engine, list)?;
    let is_changed = before.as_slice() != after.as_slice();
    if is_changed && is_there(engine, row_of(list.cell))? {
        notes.breaks(BrokenKind::Fixed, list.cell);
    }
    Ok(())
}

/// Carries out commands on a list, from the left.
#[cycle(effect)]
fn carry_list<K: Keeper>(
    engine: &mut Engine<'_, K>,
    writer: &Writer<'_>,
    notes: &mut Notes,
    list: RowList,
    commands: &[Command],
) -> Result<(), Refusal>
    requires writer { IsWriterOver engine.old.held.models writer.now }
    requires usable { IsUsable engine.old.held.phase }
    requires noted { IsNoted engine.old.held.models notes.old engine.old.held }
    requires list { IsListOf engine.old.held.models list }
    requires commands { All HasIdsAndObjects commands.now }
    ensures step { IsStep K.Keeper writer.entry.now.by engine.old engine.new notes.new result }
{
    for command in commands {
        carry_command(engine, writer, notes, list, command)?;
    }
    Ok(())
}

/// Carries out a command on a list. One that names a row that isn't there edits nothing, and breaks
/// the list's cell.
#[cycle(effect)]
fn carry_command<K: Keeper>(
    engine: &mut Engine<'_, K>,
    writer: &Writer<'_>,
    notes: &mut Notes,
    list: RowList,
    command: &Command,
) -> Result<(), Refusal>
    requires writer { IsWriterOver engine.old.held.models writer.now }
    requires usable { IsUsable engine.old.held.phase }
    requires noted { IsNoted engine.old.held.models notes.old engine.old.held }
    requires list { IsListOf engine.old.held.models list }
    requires command { HasIdsAndObjects command.now }
    ensures step { IsStep K.Keeper writer.entry.now.by engine.old engine.new notes.new result }
{
    if !names_rows(engine, list.target, command)? {
        notes.breaks(BrokenKind::MissingRef, list.cell);
        return Ok(());
    }
    match command {
        Command::Create(json) => create_in(engine, writer, notes, list, json),
        Command::Update(id, json) => update_in(engine, writer, notes, row_in(list, *id), json),
        Command::Delete(id) => delete(engine, writer, notes, row_in(list, *id)),
        Command::Unlink(id) => unlink(engine, writer, notes, list, *id),
        Command::Link(id) => link(engine, writer, notes, list, *id),
        Command::Clear => clear(engine, writer, notes, list),
        Command::Set(ids) => set(engine, writer, notes, list, ids.as_slice()),
    }
}

/// Makes a row and puts it into a list: into a one2many by its link back.
#[cycle(effect)]
fn create_in<K: Keeper>(
    engine: &mut Engine<'_, K>,
    writer: &Writer<'_>,
    notes: &mut Notes,
    list: RowList,
    json: &Json,
) -> Result<(), Refusal>
    requires writer { IsWriterOver engine.old.held.models writer.now }
    requires usable { IsUsable engine.old.held.phase }
    requires noted { IsNoted engine.old.held.models notes.old engine.old.held }
    requires list { IsListOf engine.old.held.models list }
    requires object { IsObject (view json.now) }
    ensures step { IsStep K.Keeper writer.entry.now.by engine.old engine.new notes.new result }
{
    let object = object_of(writer.alloc, writer.schema, list.target, json)?;
    let back = link_back(list);
    let id = create_row(engine, writer, notes, list.target, &object, back)?;
    match list.keeping {
        Keeping::Inverse(_) => Ok(()),
        _ => link(engine, writer, notes, list, id),
    }
}

/// The link back to the row of a one2many.
fn link_back(list: RowList) -> Option<LinkTo>
    ensures { (models : List ModelInfo) → IsListOf models list → IfSome result (IsLink models list.target) }
{
    match list.keeping {
        Keeping::Inverse(field) => Some(LinkTo {
            field,
            id: list.cell.id,
        }),
        _ => None,
    }
}

/// Writes an object of values to a row of a list.
#[cycle(effect)]
fn update_in<K: Keeper>(
    engine: &mut Engine<'_, K>,
    writer: &Writer<'_>,
    notes: &mut Notes,
    row: RowKey,
    json: &Json,
) -> Result<(), Refusal>
    requires writer { IsWriterOver engine.old.held.models writer.now }
    requires usable { IsUsable engine.old.held.phase }
    requires noted { IsNoted engine.old.held.models notes.old engine.old.held }
    requires model { HasModel engine.old.held.models row.model }
    requires object { IsObject (view json.now) }
    ensures step { IsStep K.Keeper writer.entry.now.by engine.old engine.new notes.new result }
{
    let object = object_of(writer.alloc, writer.schema, row.model, json)?;
    write_row(engine, writer, notes, row, &object)
}
