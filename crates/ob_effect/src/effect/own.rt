//! Which values of an object are a row's own, and which are those of its parents.

ghost use Rattle.std.specs.Prelude.{All, IfOk, IfSome};
ghost use Rattle.ob_effect.specs.Objects.{IsObjectFor, IsTypedValue};
ghost use Rattle.ob_effect.specs.Parents.{IsParentOf, StandsBehind};
ghost use Rattle.ob_schema.specs.Models.{HasField};

use crate::object::Object;
use crate::rows::{LinkTo, link_id};
use ob_base::{FieldNo, ModelNo, NoMemory, Value};
use ob_schema::{Origin, ParentInfo, Schema};
use std::alloc::Global;

/// The values that an object gives the row's own fields, links that are set otherwise left out.
pub(crate) fn own_values(
    alloc: Global,
    schema: &Schema,
    model: ModelNo,
    object: &Object,
    links: &[LinkTo],
) -> Result<Vec<(FieldNo, Value)>, NoMemory>
    requires { IsObjectFor schema.now model object.now }
    ensures { IfOk result (λ values. All (IsTypedValue schema.now model) values.items) }
{
    let mut values = Vec::new(alloc);
    for one in &object.values {
        if is_own(schema, model, one.0) && link_id(links, one.0).is_none() {
            let value = one.1.try_clone(alloc)?;
            values.push((one.0, value))?;
        }
    }
    Ok(values)
}

/// The values that an object gives the fields of a parent, by the parent's numbers.
pub(crate) fn behind(
    alloc: Global,
    schema: &Schema,
    model: ModelNo,
    parent: ParentInfo,
    object: &Object,
) -> Result<Vec<(FieldNo, Value)>, NoMemory>
    requires parent { IsParentOf schema.now model parent }
    requires object { IsObjectFor schema.now model object.now }
    ensures { IfOk result (λ values. All (IsTypedValue schema.now parent.model) values.items) }
{
    let mut values = Vec::new(alloc);
    for one in &object.values {
        if let Some(field) = field_behind(schema, model, parent, one.0) {
            let value = one.1.try_clone(alloc)?;
            values.push((field, value))?;
        }
    }
    Ok(values)
}

/// Whether an object gives a parent anything, a value or commands.
pub(crate) fn gives_behind(
    schema: &Schema,
    model: ModelNo,
    parent: ParentInfo,
    object: &Object,
) -> bool
    requires parent { IsParentOf schema.now model parent }
    requires object { IsObjectFor schema.now model object.now }
{
    gives_value(schema, model, parent, object) || gives_orders(schema, model, parent, object)
}

/// Whether an object gives a parent a value.
fn gives_value(schema: &Schema, model: ModelNo, parent: ParentInfo, object: &Object) -> bool
    requires parent { IsParentOf schema.now model parent }
    requires object { IsObjectFor schema.now model object.now }
{
    for one in &object.values {
        if field_behind(schema, model, parent, one.0).is_some() {
            return true;
        }
    }
    false
}

/// Whether an object gives a parent's list commands.
fn gives_orders(schema: &Schema, model: ModelNo, parent: ParentInfo, object: &Object) -> bool
    requires parent { IsParentOf schema.now model parent }
    requires object { IsObjectFor schema.now model object.now }
{
    for one in &object.orders {
        if field_behind(schema, model, parent, one.field).is_some() {
            return true;
        }
    }
    false
}

/// Whether an object gives a link an id.
pub(crate) fn is_linked(object: &Object, link: FieldNo) -> bool {
    for one in &object.values {
        if one.0 == link {
            return matches!(one.1, Value::Ref(_));
        }
    }
    false
}

/// Whether a field's value stands in the row itself, or comes of it.
fn is_own(schema: &Schema, model: ModelNo, field: FieldNo) -> bool
    requires { HasField schema.now model field }
{
    !matches!(schema.info(model, field).origin, Origin::Delegated(_))
}

/// The parent's field behind a link for which a field of a model stands.
pub(crate) fn field_behind(
    schema: &Schema,
    model: ModelNo,
    parent: ParentInfo,
    field: FieldNo,
) -> Option<FieldNo>
    requires parent { IsParentOf schema.now model parent }
    requires field { HasField schema.now model field }
    ensures { IfSome result (StandsBehind schema.now model parent field) }
{
    // The law of registries, by which a delegated field has the keys of the parent's.
    schema.parts_fit_together();
    match &schema.info(model, field).origin {
        Origin::Delegated(at) if at.link == parent.link && at.model == parent.model => {
            Some(at.field)
        }
        _ => None,
    }
}
