//! Values from and to JSON. The table of forms stands in specs/JsonForm, the forms of
//! commands in specs/CommandForms; a form changes there, and in the room that reads or
//! tells it. Here the field is looked up.

ghost use Rattle.std.specs.Prelude.{◌≡◌, ◌≢◌, false, IfErr, IfOk, IfSome, List, Option, Ok, Err};
ghost use Rattle.serde_json.specs.Data.{Data};
ghost use Rattle.serde_json.specs.View.{view};
ghost use Rattle.ob_base.specs.declared.value.Value.{Value};
ghost use Rattle.ob_schema.specs.Fields.{Holds};
ghost use Rattle.ob_schema.specs.Models.{HasField, field_at};
ghost use Rattle.ob_definition.specs.Types.{is_list};
ghost use Rattle.ob_definition.specs.Values.{IsValueOf};
ghost use Rattle.ob_definition.specs.declared.field_type.Choice.{Choice};
ghost use Rattle.ob_definition.specs.declared.field_type.FieldType.{FieldType};
ghost use Rattle.ob_schema.specs.declared.info.FieldInfo.{FieldInfo};
ghost use Rattle.ob_codec.specs.CommandForms.{IsOrderListJson};
ghost use Rattle.ob_codec.specs.Commands.{orders_of};
ghost use Rattle.ob_definition.specs.Values.{HasType};
ghost use Rattle.ob_codec.specs.Held.{GivesHeld, HasFieldType, HasLimits, HaveIdsAndObjects, IsHeldAs};
ghost use Rattle.ob_codec.specs.Input.{Order};
ghost use Rattle.ob_codec.specs.JsonForm.{IsInput, IsInputFault, IsJsonOf, value_from};

use crate::commands::commands_of;
use crate::fault::CodecFault;
use crate::input::{Input, Json};
use crate::replies::value_json;
use crate::scalars::value_of;
use ob_base::{FieldNo, ModelNo, NoMemory, Value};
use ob_dates::{one_day_text, one_moment_text};
use ob_schema::{Choice, FieldType, Schema};
use std::alloc::Global;

/// What JSON gives a field: a value, or the commands of a list. A boolean takes `true`,
/// `false` and `null`; an integer one of 64 bits, with `false` and `null` as 0; each other
/// type takes `false` and `null` as unset. Commands are those of the Odoo 17 developer
/// documentation, ORM API, `Command`. A fault is told at its place below the value.
pub fn from_json(
    alloc: Global,
    schema: &Schema,
    model: ModelNo,
    field: FieldNo,
    json: &Json,
) -> Result<Input, CodecFault>
    requires { HasField schema.now model field }
    ensures given { IfOk result (λ input. IfSome (field_at schema.now model field)
        (λ info. IsInput info.field_type info.selection (view json.now) input)) }
    ensures fault { IfErr result (λ fault. fault ≢ CodecFault.NoMemory →
        IfSome (field_at schema.now model field)
        (λ info. IsInputFault info.field_type info.selection (view json.now) fault)) }
    // A value within the limits of what the field may hold.
    ensures holds { IfOk result (GivesHeld (field_at schema.now model field)) }
    // Commands name ids within their limits, and their values are objects.
    ensures commands { IfOk result HaveIdsAndObjects }
{
    let info = schema.info(model, field);
    input_of(alloc, info.field_type, info.selection.as_slice(), json)
}

/// What JSON gives a field of this type, with these choices where it is a selection.
pub(crate) fn input_of(
    alloc: Global,
    field_type: FieldType,
    choices: &[Choice],
    json: &Json,
) -> Result<Input, CodecFault>
    ensures given { IfOk result (IsInput field_type choices.now (view json.now)) }
    ensures fault { IfErr result (λ fault. fault ≢ CodecFault.NoMemory →
        IsInputFault field_type choices.now (view json.now) fault) }
    ensures holds { IfOk result (IsHeldAs field_type choices.now) }
    ensures commands { IfOk result HaveIdsAndObjects }
{
    if field_type.is_list() {
        Ok(Input::Commands(commands_of(alloc, json)?))
    } else {
        Ok(Input::Plain(value_of(alloc, field_type, choices, json)?))
    }
}

/// The JSON of a field's value, as replies have it. The value is one of the field's type;
/// how many targets it names, and which ids, doesn't matter here.
pub fn to_json(
    alloc: Global,
    schema: &Schema,
    model: ModelNo,
    field: FieldNo,
    value: &Value,
) -> Result<Json, NoMemory>
    requires field { HasField schema.now model field }
    requires value { HasFieldType (field_at schema.now model field) value.now }
    ensures { IfOk result (λ json. IsJsonOf value.now (view json)) }
{
    value_json(alloc, value)
}

/// A value has one JSON.
pub fn one_json()
    ensures { (v : Value) (a b : Data) → IsJsonOf v a → IsJsonOf v b → a ≡ b }
{
    one_day_text();
    one_moment_text();
}

/// The JSON of a value that is no list is read as that value; lists are given by commands.
pub fn reads_back()
    ensures { (t : FieldType) (choices : List Choice) (v : Value) (d : Data) → is_list t ≡ false →
        IsValueOf t choices v → IsJsonOf v d → value_from t choices d ≡ Ok v }
{}

/// JSON is read as these commands exactly where it is theirs, each by one of seven forms.
pub fn command_forms()
    ensures read { (orders : List Order) (d : Data) → orders_of d ≡ Ok orders → IsOrderListJson orders d }
    ensures taken { (orders : List Order) (d : Data) → IsOrderListJson orders d → orders_of d ≡ Ok orders }
{}

/// A value that a field may hold is one of its type within the limits, and no other is.
pub fn type_and_limits()
    ensures has_type { (t : FieldType) (choices : List Choice) (v : Value) → IsValueOf t choices v → HasType t choices v }
    ensures has_limits { (t : FieldType) (choices : List Choice) (v : Value) → IsValueOf t choices v → HasLimits t v }
    ensures of_field { (field : Option FieldInfo) (v : Value) → IfSome field (λ info. Holds info v) → HasFieldType field v }
    ensures both { (t : FieldType) (choices : List Choice) (v : Value)
        → HasType t choices v → HasLimits t v → IsValueOf t choices v }
{}
