//! What becomes of the parents of a row that is made: one whose link isn't given by an id is made
//! before the row, of what is given behind the link; another one is changed behind it.

ghost use Rattle.std.specs.Prelude.{◌≡◌, ◌++◌, All, IfOk, OnOk};
ghost use Rattle.std.specs.List.{flat_map};
ghost use Rattle.ob_base.specs.Times.{IsMoment};
ghost use Rattle.ob_orm.specs.NewRows as spec;
ghost use Rattle.ob_orm.specs.NewRows.{field_behind, linked, parent_change, parents_of, with_parent, with_parents};
ghost use Rattle.ob_orm.specs.NewRowSteps.{AddsEdits, HoldsNextIds, IsReady, IsTyped, MayFit, so_far};
ghost use Rattle.ob_schema.specs.Models.{HasModel, IsParentIn};
ghost use Rattle.ob_schema.specs.Tables.{Tables};

use crate::making::filling::{filled, value_for};
use crate::making::next_ids::Making;
use crate::making::{Maker, make_one};
use crate::writing::push_row_edits;
use ob_base::{FieldNo, ModelNo, NoMemory, RecId, Value};
use ob_schema::{Origin, ParentInfo, Schema};
use ob_tables::Edit;

/// Makes the parents of a row whose links aren't given by an id, and gives the links to them.
pub(crate) fn make_parents(
    maker: &Maker<'_>,
    making: &mut Making,
    model: ModelNo,
    given: &mut Vec<(FieldNo, Value)>,
) -> Result<(), NoMemory>
    requires model { HasModel maker.now.schema.now model }
    requires moment { IsMoment maker.now.author.now }
    requires typed { All (IsTyped maker.now.schema.now model) given.old.items }
    requires ready { IsReady maker.now.schema.now making.old }
    ensures typed { OnOk result (All (IsTyped maker.entry.now.schema.now model) given.new.items) }
    ensures adds { OnOk result (AddsEdits making.old making.new) }
    ensures ready { OnOk result (IsReady maker.entry.now.schema.now making.new) }
    ensures made { OnOk result ((old : Tables) → HoldsNextIds maker.entry.now.schema.now old making.old
        → let begun = with_parents maker.entry.now.schema.now maker.entry.now.author (so_far maker.entry.now.schema.now old making.old) model given.old.items (parents_of maker.entry.now.schema.now model) in
        (making.new.edits.items ≡ making.old.edits.items ++ begun.edits) × (given.new.items ≡ begun.given) × HoldsNextIds maker.entry.now.schema.now old making.new) }
{
    let parents = maker.schema.model_info(model).inherits.as_slice();
    for parent in parents {
        make_parent(maker, making, model, *parent, given)?;
    }
    Ok(())
}

/// Makes a parent of a row, where its link isn't given by an id.
fn make_parent(
    maker: &Maker<'_>,
    making: &mut Making,
    model: ModelNo,
    parent: ParentInfo,
    given: &mut Vec<(FieldNo, Value)>,
) -> Result<(), NoMemory>
    requires model { HasModel maker.now.schema.now model }
    requires parent { IsParentIn maker.now.schema.now model parent }
    requires moment { IsMoment maker.now.author.now }
    requires typed { All (IsTyped maker.now.schema.now model) given.old.items }
    requires ready { IsReady maker.now.schema.now making.old }
    ensures typed { OnOk result (All (IsTyped maker.entry.now.schema.now model) given.new.items) }
    ensures adds { OnOk result (AddsEdits making.old making.new) }
    ensures ready { OnOk result (IsReady maker.entry.now.schema.now making.new) }
    ensures made { OnOk result ((old : Tables) → HoldsNextIds maker.entry.now.schema.now old making.old
        → let begun = with_parent maker.entry.now.schema.now maker.entry.now.author (so_far maker.entry.now.schema.now old making.old) model given.old.items parent in
        (making.new.edits.items ≡ making.old.edits.items ++ begun.edits) × (given.new.items ≡ begun.given) × HoldsNextIds maker.entry.now.schema.now old making.new) }
{
    if linked(given.as_slice(), parent.link).is_some() {
        return Ok(());
    }
    let values = behind(maker, model, parent, given.as_slice())?;
    let id = make_one(maker, making, parent.model, values.as_slice())?;
    given.insert(0, (parent.link, Value::Ref(id)))?;
    Ok(())
}

/// The edits that set what is given behind links that are given by an id in the rows that they
/// name. The caller sees to it that the registry has the model, that each value is one of its field,
/// and that the moment lies within the years 0001 to 9999.
pub fn parent_changes(
    maker: &Maker<'_>,
    model: ModelNo,
    given: &[(FieldNo, Value)],
) -> Result<Vec<Edit>, NoMemory>
    requires model { HasModel maker.now.schema.now model }
    requires moment { IsMoment maker.now.author.now }
    requires typed { All (IsTyped maker.now.schema.now model) given.now }
    ensures edits { IfOk result (λ edits. edits.items ≡ flat_map (parent_change maker.entry.now.schema.now maker.entry.now.author model given.now) (parents_of maker.entry.now.schema.now model)) }
    ensures fit { IfOk result (λ edits. All (MayFit maker.entry.now.schema.now) edits.items) }
{
    let mut edits = Vec::new(maker.alloc);
    let parents = maker.schema.model_info(model).inherits.as_slice();
    for parent in parents {
        push_change(maker, &mut edits, model, *parent, given)?;
    }
    Ok(edits)
}

/// Puts those of one parent behind others.
fn push_change(
    maker: &Maker<'_>,
    edits: &mut Vec<Edit>,
    model: ModelNo,
    parent: ParentInfo,
    given: &[(FieldNo, Value)],
) -> Result<(), NoMemory>
    requires model { HasModel maker.now.schema.now model }
    requires parent { IsParentIn maker.now.schema.now model parent }
    requires moment { IsMoment maker.now.author.now }
    requires typed { All (IsTyped maker.now.schema.now model) given.now }
    ensures edits { OnOk result (edits.new.items ≡ edits.old.items ++ parent_change maker.entry.now.schema.now maker.entry.now.author model given.now parent) }
    ensures fit { OnOk result (All (MayFit maker.entry.now.schema.now) edits.old.items → All (MayFit maker.entry.now.schema.now) edits.new.items) }
{
    let Some(id) = linked(given, parent.link) else {
        return Ok(());
    };
    let values = behind(maker, model, parent, given)?;
    if values.is_empty() {
        return Ok(());
    }
    let changed = filled(maker, false, parent.model, values.as_slice())?;
    push_row_edits(maker.alloc, edits, parent.model, id.0, changed.as_slice())
}

/// The row that a link names, where it is given by an id.
pub fn linked(given: &[(FieldNo, Value)], link: FieldNo) -> Option<RecId>
    ensures { result ≡ linked given.now link }
{
    match value_for(given, link) {
        Some(Value::Ref(id)) => Some(*id),
        _ => None,
    }
}

/// The values that are given to fields of a parent, by the parent's numbers. The caller sees to it
/// that the registry has the model, that the parent is one of it, and that each value is one of its
/// field.
pub fn behind(
    maker: &Maker<'_>,
    model: ModelNo,
    parent: ParentInfo,
    given: &[(FieldNo, Value)],
) -> Result<Vec<(FieldNo, Value)>, NoMemory>
    requires model { HasModel maker.now.schema.now model }
    requires parent { IsParentIn maker.now.schema.now model parent }
    requires typed { All (IsTyped maker.now.schema.now model) given.now }
    ensures values { IfOk result (λ values. values.items ≡ spec.behind maker.entry.now.schema.now model parent.link given.now) }
    ensures typed { IfOk result (λ values. All (IsTyped maker.entry.now.schema.now parent.model) values.items) }
{
    // The law of registries, by which a delegated field has the keys of the parent's.
    maker.schema.parts_fit_together();
    let mut values = Vec::new(maker.alloc);
    for one in given {
        if let Some(field) = field_behind(maker.schema, model, parent.link, one.0) {
            values.push((field, one.1.try_clone(maker.alloc)?))?;
        }
    }
    Ok(values)
}

/// The parent's field behind a link for which a field of a model stands.
fn field_behind(schema: &Schema, model: ModelNo, link: FieldNo, number: FieldNo) -> Option<FieldNo>
    ensures { result ≡ field_behind schema.now model link number }
{
    match &schema.find_field(model, number)?.origin {
        Origin::Delegated(at) if at.link == link => Some(at.field),
        _ => None,
    }
}
