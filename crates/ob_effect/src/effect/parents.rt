//! What becomes of the parents of a row that is made or written: one whose link isn't given by an
//! id is made before the row, of what is given behind the link; what is given behind another one is
//! written to the row that the link names once the row's own values are set.

ghost use Rattle.std.specs.Prelude.{All, IfOk, IfSome};
ghost use Rattle.ob_cache.specs.Stages.{IsPlainCell, IsUsable};
ghost use Rattle.ob_effect.specs.Effect.{IsNoted, IsStep, IsWriterOver, KeepsNotes};
ghost use Rattle.ob_effect.specs.Objects.{IsObjectFor};
ghost use Rattle.ob_effect.specs.Parents.{IsParentOf};
ghost use Rattle.ob_effect.specs.Rows.{IsLink};
ghost use Rattle.ob_schema.specs.Models.{HasField, HasModel};

use crate::cells::cell_of;
use crate::effect::made::Made;
use crate::effect::own::{behind, field_behind, gives_behind, is_linked};
use crate::notes::{Notes, note_given, note_touch};
use crate::object::Object;
use crate::rows::{LinkTo, Writer, link_id, make_row, set_values};
use crate::staged::{linked_row, value_at};
use ob_base::{Cell, FieldNo, ModelNo, Op, RecId, Refusal, RowKey, Value};
use ob_cache::Engine;
use ob_io::Keeper;
use ob_schema::ParentInfo;

/// Makes the parents of a row that no id links, and gives the links of the row: the one back to a
/// list that makes it, and those to the parents that are made, which `made` gets too.
pub(crate) fn make_parents<K: Keeper>(
    engine: &mut Engine<'_, K>,
    writer: &Writer<'_>,
    notes: &mut Notes,
    model: ModelNo,
    object: &Object,
    back: Option<LinkTo>,
    made: &mut Vec<FieldNo>,
) -> Result<Vec<LinkTo>, Refusal>
    requires writer { IsWriterOver engine.old.held.models writer.now }
    requires usable { IsUsable engine.old.held.phase }
    requires noted { IsNoted engine.old.held.models notes.old engine.old.held }
    requires model { HasModel engine.old.held.models model }
    requires object { IsObjectFor engine.old.held.models model object.now }
    requires back { IfSome back (IsLink engine.old.held.models model) }
    ensures step { IsStep K.Keeper writer.entry.now.by engine.old engine.new notes.new result }
    ensures links { IfOk result (λ links. All (IsLink engine.old.held.models model) links.items) }
{
    let mut links = Vec::new(writer.alloc);
    if let Some(back) = back {
        links.push(back)?;
    }
    let parents = writer.schema.model_info(model).inherits.as_slice();
    for parent in parents {
        make_parent(
            engine, writer, notes, model, object, *parent, &mut links, made,
        )?;
    }
    Ok(links)
}

/// Makes a parent of a row, where no id links it, and links it.
fn make_parent<K: Keeper>(
    engine: &mut Engine<'_, K>,
    writer: &Writer<'_>,
    notes: &mut Notes,
    model: ModelNo,
    object: &Object,
    parent: ParentInfo,
    links: &mut Vec<LinkTo>,
    made: &mut Vec<FieldNo>,
) -> Result<(), Refusal>
    requires writer { IsWriterOver engine.old.held.models writer.now }
    requires usable { IsUsable engine.old.held.phase }
    requires noted { IsNoted engine.old.held.models notes.old engine.old.held }
    requires parent { IsParentOf engine.old.held.models model parent }
    requires object { IsObjectFor engine.old.held.models model object.now }
    ensures step { IsStep K.Keeper writer.entry.now.by engine.old engine.new notes.new result }
    ensures links { IfOk result (λ _. All (IsLink engine.old.held.models model) links.old.items → All (IsLink engine.old.held.models model) links.new.items) }
{
    let link = parent.link;
    if link_id(links.as_slice(), link).is_some() || is_linked(object, link) {
        return Ok(());
    }
    // The law of registries, by which a link to a parent is a many2one to its model.
    writer.schema.parts_fit_together();
    let values = behind(writer.alloc, writer.schema, model, parent, object)?;
    let row = make_row(engine, writer, notes, parent.model, values.as_slice(), &[])?;
    made.push(link)?;
    links.push(LinkTo {
        field: link,
        id: row.id,
    })?;
    Ok(())
}

/// Writes what is given behind links to the rows that these name, but to parents made with it.
pub(crate) fn change_parents<K: Keeper>(
    engine: &mut Engine<'_, K>,
    writer: &Writer<'_>,
    notes: &mut Notes,
    row: RowKey,
    object: &Object,
    made: Made<'_>,
) -> Result<(), Refusal>
    requires writer { IsWriterOver engine.old.held.models writer.now }
    requires usable { IsUsable engine.old.held.phase }
    requires noted { IsNoted engine.old.held.models notes.old engine.old.held }
    requires model { HasModel engine.old.held.models row.model }
    requires object { IsObjectFor engine.old.held.models row.model object.now }
    ensures step { IsStep K.Keeper writer.entry.now.by engine.old engine.new notes.new result }
{
    let parents = writer.schema.model_info(row.model).inherits.as_slice();
    for parent in parents {
        change_parent(engine, writer, notes, row, object, *parent, made)?;
    }
    Ok(())
}

/// The same for one parent, where anything is given behind its link.
fn change_parent<K: Keeper>(
    engine: &mut Engine<'_, K>,
    writer: &Writer<'_>,
    notes: &mut Notes,
    row: RowKey,
    object: &Object,
    parent: ParentInfo,
    made: Made<'_>,
) -> Result<(), Refusal>
    requires writer { IsWriterOver engine.old.held.models writer.now }
    requires usable { IsUsable engine.old.held.phase }
    requires noted { IsNoted engine.old.held.models notes.old engine.old.held }
    requires parent { IsParentOf engine.old.held.models row.model parent }
    requires object { IsObjectFor engine.old.held.models row.model object.now }
    ensures step { IsStep K.Keeper writer.entry.now.by engine.old engine.new notes.new result }
{
    if made.has_parent(parent.link) || !gives_behind(writer.schema, row.model, parent, object) {
        return Ok(());
    }
    // The law of registries, by which a link to a parent is a many2one to its model.
    writer.schema.parts_fit_together();
    let link = cell_of(row, parent.link);
    let Some(linked) = linked_row(engine, link, parent.model)? else {
        return note_dangling(engine, writer, notes, link, parent, object);
    };
    note_touch(notes, writer.schema, &writer.by, Op::Write, linked)?;
    let values = behind(writer.alloc, writer.schema, row.model, parent, object)?;
    set_values(engine, writer, notes, linked, values.as_slice())
}

/// Notes what is given behind a link that names a row which isn't there.
fn note_dangling<K: Keeper>(
    engine: &mut Engine<'_, K>,
    writer: &Writer<'_>,
    notes: &mut Notes,
    link: Cell,
    parent: ParentInfo,
    object: &Object,
) -> Result<(), Refusal>
    requires writer { IsWriterOver engine.old.held.models writer.now }
    requires usable { IsUsable engine.old.held.phase }
    requires noted { IsNoted engine.old.held.models notes.old engine.old.held }
    requires parent { IsParentOf engine.old.held.models link.model parent }
    requires link { IsPlainCell engine.old.held.models link }
    requires object { IsObjectFor engine.old.held.models link.model object.now }
    ensures step { IsStep K.Keeper writer.entry.now.by engine.old engine.new notes.new result }
{
    let Some(Value::Ref(id)) = value_at(engine, link)? else {
        return Ok(());
    };
    for one in &object.values {
        note_behind(writer, notes, link, parent, id, one.0);
    }
    note_orders_behind(writer, notes, link, parent, id, object);
    Ok(())
}

/// Notes the commands that are given behind such a link.
fn note_orders_behind(
    writer: &Writer<'_>,
    notes: &mut Notes,
    link: Cell,
    parent: ParentInfo,
    id: RecId,
    object: &Object,
)
    requires parent { IsParentOf writer.now.schema.now link.model parent }
    requires object { IsObjectFor writer.now.schema.now link.model object.now }
    ensures noted { KeepsNotes writer.entry.now.schema.now notes.old notes.new }
{
    for one in &object.orders {
        note_behind(writer, notes, link, parent, id, one.field);
    }
}

/// Notes what a field is given behind such a link.
fn note_behind(
    writer: &Writer<'_>,
    notes: &mut Notes,
    link: Cell,
    parent: ParentInfo,
    id: RecId,
    field: FieldNo,
)
    requires parent { IsParentOf writer.now.schema.now link.model parent }
    requires field { HasField writer.now.schema.now link.model field }
    ensures noted { KeepsNotes writer.entry.now.schema.now notes.old notes.new }
{
    if let Some(field) = field_behind(writer.schema, link.model, parent, field) {
        let cell = Cell {
            model: parent.model,
            id,
            field,
        };
        note_given(notes, writer.schema, cell);
    }
}
