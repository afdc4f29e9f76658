//! What an object gives a row that is made or changed: which fields its keys name, the values of
//! their form, to its own fields and, through the links to its parents, to those of their rows, and
//! the first place that is wrong. All is read in one walk. A further kind of field that calls give
//! begins with `is_settable`.

ghost use Rattle.std.specs.Prelude.{◌≡◌, ◌++◌, [], All, IfOk, IfSome, None, OnOk, false, option_map};
ghost use Rattle.std.specs.Option.{option_or};
ghost use Rattle.std.specs.Result.{result_err};
ghost use Rattle.serde_json.specs.View.{members_view, view};
ghost use Rattle.ob_call.specs.Arguments.{entries};
ghost use Rattle.ob_call.specs.Forms.{fields_at};
ghost use Rattle.ob_call.specs.Places.{below_steps};
ghost use Rattle.ob_definition.specs.Types.{is_list};
ghost use Rattle.ob_orm.specs.GivenValues.{formed, formed_values, given_to, keyed_fields, object_from, set_by, wrong_value};
ghost use Rattle.ob_orm.specs.NewRowSteps.{HasTargetKeys, IsTyped};
ghost use Rattle.ob_orm.specs.ObjectSteps.{object_place, object_view};
ghost use Rattle.ob_orm.specs.RowValues.{valued};
ghost use Rattle.ob_rows.specs.Values.{first_key, is_settable_name, new_values_fault};
ghost use Rattle.ob_schema.specs.Fields.{Holds, columns};
ghost use Rattle.ob_schema.specs.Models.{HasField, HasModel, field_at, model_at};

use crate::objects::ObjectSpot;
use crate::row_values::{given_value, push_valued};
use ob_base::{FieldNo, ModelNo, NoMemory, Place, Refusal, Sequence, Value};
use ob_call::{Below, Form, Json};
use ob_rows::is_settable;
use ob_schema::{FieldInfo, Schema};
use serde_json::Map;
use std::alloc::Global;

/// An object of values, each for a field of a model that calls give, its own or a parent's.
#[derive(Clone, Copy)]
pub(crate) struct NewValues<'s> {
    pub(crate) schema: &'s Schema,
    pub(crate) model: ModelNo,
    pub ghost known: { HasModel schema.now model },
}

impl Form for NewValues<'_> {
    ghost use Rattle.ob_call.specs.Forms.{fields_at};
    ghost use Rattle.ob_rows.specs.Values.{new_values_fault};

    ghost fault = { λ values json. new_values_fault values.schema.now (fields_at values.schema.now values.model) json };

    fn fault<'j>(&self, _alloc: Global, json: &'j Json) -> Result<Option<Below<'j>>, NoMemory> {
        match json {
            Json::Object(members) => Ok(first_key(self.schema, self.model, members)),
            _ => Ok(Some(Below::Whole)),
        }
    }
}

/// The first key that no call may give, in byte order.
fn first_key<'j>(
    schema: &Schema,
    model: ModelNo,
    members: &'j Map<String, Json>,
) -> Option<Below<'j>>
    requires { HasModel schema.now model }
    ensures { option_map below_steps result
        ≡ first_key (is_settable_name schema.now (fields_at schema.now model)) (entries (members_view members.now.entries)) }
{
    for key in members.keys() {
        if !is_given(schema, model, key.as_str()) {
            return Some(Below::Key(key.as_str()));
        }
    }
    None
}

/// Whether calls give values to the field of this name.
fn is_given(schema: &Schema, model: ModelNo, name: &str) -> bool
    requires { HasModel schema.now model }
    ensures { result ≡ is_settable_name schema.now (fields_at schema.now model) name.now }
{
    match schema.field(model, name) {
        Some(number) => is_settable(schema, schema.info(model, number)),
        None => false,
    }
}

/// What an object gives a row of a model: the fields that its keys name, in byte order of these, the
/// values that have their form, by the numbers of the model's fields, and the first place that is
/// wrong.
#[derive(Drop)]
pub(crate) struct GivenObject {
    pub(crate) fields: Vec<FieldNo>,
    pub(crate) values: Sequence<(FieldNo, Value)>,
    pub(crate) wrong: Option<Place>,
}

/// What an object gives a row of a model.
pub(crate) fn given_object(
    alloc: Global,
    schema: &Schema,
    model: ModelNo,
    spot: ObjectSpot<'_>,
    json: &Json,
) -> Result<GivenObject, NoMemory>
    requires model { HasModel schema.now model }
    requires form { new_values_fault schema.now (fields_at schema.now model) (view json.now) ≡ None }
    ensures given { IfOk result (λ object. IfSome (model_at schema.now model)
        (λ info. object_view object ≡ object_from schema.now info (record { place = object_place spot.entry; json = view json.now }))) }
    ensures typed { IfOk result (λ object. All (IsTyped schema.now model) object.values) }
{
    let Some(members) = json.as_object() else {
        unreachable!();
    };
    let mut object = GivenObject {
        fields: keyed_fields(alloc, schema, model, members)?,
        values: Sequence::new(alloc),
        wrong: None,
    };
    give_values(alloc, schema, model, spot, members, &mut object)?;
    Ok(object)
}

/// The fields that the keys of an object name.
fn keyed_fields(
    alloc: Global,
    schema: &Schema,
    model: ModelNo,
    members: &Map<String, Json>,
) -> Result<Vec<FieldNo>, NoMemory>
    requires { HasModel schema.now model }
    ensures { IfOk result (λ fields. fields.items ≡ keyed_fields (fields_at schema.now model) (members_view members.now.entries)) }
{
    let mut fields = Vec::new(alloc);
    for key in members.keys() {
        if let Some(number) = schema.field(model, key.as_str()) {
            fields.push(number)?;
        }
    }
    Ok(fields)
}

/// Adds to an object without values what its members give, field by field.
fn give_values(
    alloc: Global,
    schema: &Schema,
    model: ModelNo,
    spot: ObjectSpot<'_>,
    members: &Map<String, Json>,
    object: &mut GivenObject,
) -> Result<(), NoMemory>
    requires model { HasModel schema.now model }
    requires empty { object.old.values ≡ [] }
    requires right { object.old.wrong ≡ None }
    ensures fields { object.new.fields ≡ object.old.fields }
    ensures given { OnOk result (IfSome (model_at schema.now model) (λ info. let place = object_place spot.entry in let ms = members_view members.now.entries in
        (object.new.values ≡ formed_values schema.now place ms (columns info)) × (object.new.wrong ≡ wrong_value schema.now place ms (columns info)))) }
    ensures typed { OnOk result (All (IsTyped schema.now model) object.new.values) }
{
    let count = schema.model_info(model).fields.len();
    for index in 0..count {
        let number = FieldNo(index as u16 + 1);
        let given = value_given(alloc, schema, model, number, spot, members)?;
        note_value(object, number, given)?;
    }
    Ok(())
}

/// Notes what an object gives a field: its value, or the place that is wrong, where none before it
/// is.
fn note_value(
    object: &mut GivenObject,
    number: FieldNo,
    given: Result<Option<Value>, Place>,
) -> Result<(), NoMemory>
    ensures fields { object.new.fields ≡ object.old.fields }
    ensures values { OnOk result (object.new.values ≡ object.old.values ++ valued number (formed given)) }
    ensures wrong { OnOk result (object.new.wrong ≡ option_or object.old.wrong (result_err given)) }
{
    match given {
        Ok(value) => push_valued(&mut object.values, number, value),
        Err(place) => {
            if object.wrong.is_none() {
                object.wrong = Some(place);
            }
            Ok(())
        }
    }
}

/// The value that they give a field, if any, or the place that is wrong.
fn value_given(
    alloc: Global,
    schema: &Schema,
    model: ModelNo,
    number: FieldNo,
    spot: ObjectSpot<'_>,
    members: &Map<String, Json>,
) -> Result<Result<Option<Value>, Place>, NoMemory>
    requires field { HasField schema.now model number }
    requires keys { IfSome (field_at schema.now model number) (HasTargetKeys schema.now) }
    ensures given { IfOk result (λ given. IfSome (field_at schema.now model number)
        (λ field. given ≡ given_to schema.now (object_place spot.entry) (members_view members.now.entries) field)) }
    ensures holds { IfOk result (λ given. IfOk given (λ value. IfSome (field_at schema.now model number) (λ field. IfSome value (Holds field)))) }
{
    let field = schema.info(model, number);
    let Some(json) = set_by(schema, field, members) else {
        return Ok(Ok(None));
    };
    match given_value(alloc, schema, model, number, spot, json) {
        Ok(value) => Ok(Ok(Some(value))),
        Err(Refusal::Request(place)) => Ok(Err(place)),
        Err(_) => Err(NoMemory),
    }
}

/// What the members of an object give a field, where calls give values to it.
fn set_by<'j>(
    schema: &Schema,
    field: &FieldInfo,
    members: &'j Map<String, Json>,
) -> Option<&'j Json>
    requires keys { HasTargetKeys schema.now field.now }
    ensures given { option_map (λ json. view json.now) result ≡ set_by schema.now (members_view members.now.entries) field.now }
    ensures flat { IfSome result (λ _. is_list field.now.field_type ≡ false) }
{
    if is_settable(schema, field) {
        members.get(field.name.as_str())
    } else {
        None
    }
}
