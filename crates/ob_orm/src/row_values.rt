//! The value that the JSON of a call gives a field of a row, with the number of the field. A field
//! that gets none isn't named: a row that is made has there what the tables know, and another one
//! keeps what it has.

ghost use Rattle.std.specs.Prelude.{◌≡◌, ◌∷◌, ◌++◌, [], IfOk, IfSome, None, OnOk, false, if◌then◌else◌};
ghost use Rattle.serde_json.specs.View.{view};
ghost use Rattle.ob_base.specs.declared.place.PathStep.TheVariants.{Key};
ghost use Rattle.ob_codec.specs.JsonForm.{value_from};
ghost use Rattle.ob_schema.specs.Fields.{Holds};
ghost use Rattle.ob_schema.specs.Models.{HasField, field_at};
ghost use Rattle.ob_definition.specs.Types.{is_list};
ghost use Rattle.ob_orm.specs.ObjectSteps.{object_place};
ghost use Rattle.ob_orm.specs.RowValues.{placed, valued};
ghost use Rattle.ob_orm.specs.CreateSteps.{IsFaultAt};
ghost use Rattle.ob_call.specs.Results.{IsResultOf};

use crate::objects::ObjectSpot;
use ob_base::{FieldNo, ModelNo, NoMemory, Refusal, Sequence, Value};
use ob_call::Json;
use ob_codec::{CodecFault, Input, from_json};
use ob_schema::{FieldInfo, Schema};
use std::alloc::Global;

/// Puts a field's value behind others, where it gets one.
pub(crate) fn push_valued(
    values: &mut Sequence<(FieldNo, Value)>,
    number: FieldNo,
    value: Option<Value>,
) -> Result<(), NoMemory>
    ensures { OnOk result (values.new ≡ values.old ++ valued number value) }
{
    match value {
        Some(value) => values.push((number, value)),
        None => Ok(()),
    }
}

/// The value that JSON gives a field.
pub(crate) fn given_value(
    alloc: Global,
    schema: &Schema,
    model: ModelNo,
    number: FieldNo,
    object: ObjectSpot<'_>,
    json: &Json,
) -> Result<Value, Refusal>
    requires field { HasField schema.now model number }
    requires no_list { IfSome (field_at schema.now model number)
        (λ field. is_list field.field_type ≡ false) }
    ensures value { IfSome (field_at schema.now model number)
        (λ field. IsResultOf (λ value. value) result
        (placed (object_place object.entry ++ Key field.name ∷ [])
        (value_from field.field_type field.selection (view json.now)))) }
    ensures holds { IfOk result (λ value. IfSome (field_at schema.now model number)
        (λ field. Holds field value)) }
{
    let name = schema.info(model, number).name.as_str();
    match from_json(alloc, schema, model, number, json) {
        Ok(Input::Plain(value)) => Ok(value),
        Ok(Input::Commands(_)) => unreachable!(),
        Err(fault) => Err(fault_refusal(alloc, object, name, &fault)),
    }
}

/// The refusal of a value that isn't read, at the place of the fault.
fn fault_refusal(alloc: Global, object: ObjectSpot<'_>, name: &str, fault: &CodecFault) -> Refusal
    ensures { IsFaultAt (object_place object.entry ++ Key name.now ∷ []) fault.now result }
{
    match fault {
        CodecFault::Shape(place) | CodecFault::Range(place) | CodecFault::Unknown(place) => {
            object.malformed_below_key(alloc, name, place)
        }
        CodecFault::NoMemory => Refusal::NoMemory,
    }
}

/// The value of a field that isn't given: in a row that is made its default, where it has one.
pub(crate) fn default_value(
    alloc: Global,
    made: bool,
    field: &FieldInfo,
) -> Result<Option<Value>, NoMemory>
    ensures { IfOk result (λ value. value ≡ (if made then field.now.default else None)) }
{
    if !made {
        return Ok(None);
    }
    match &field.default {
        Some(value) => Ok(Some(value.try_clone(alloc)?)),
        None => Ok(None),
    }
}
