//! The JSON of values, as replies have it. The forms stand in specs/JsonForm, in `IsJsonOf`.

ghost use Rattle.std.specs.Prelude.{◌≡◌, IfOk, map};
ghost use Rattle.serde_json.specs.View.{view};
ghost use Rattle.ob_codec.specs.CommandForms.{id_json, list_json};
ghost use Rattle.ob_codec.specs.Held.{HasText};
ghost use Rattle.ob_codec.specs.JsonForm.{IsJsonOf};

use crate::input::Json;
use ob_base::{NoMemory, RecId, Value};
use ob_dates::{day_text, moment_text};
use std::alloc::Global;

/// The JSON of a value.
pub(crate) fn value_json(alloc: Global, value: &Value) -> Result<Json, NoMemory>
    requires { HasText value.now }
    ensures { IfOk result (λ json. IsJsonOf value.now (view json)) }
{
    match value {
        Value::Nil => Ok(Json::Bool(false)),
        Value::Bool(flag) => Ok(Json::Bool(*flag)),
        Value::Int(number) => Ok(Json::from(*number)),
        Value::Word(word) => Ok(Json::try_from_str(alloc, word.as_str())?),
        Value::Day(day) => Ok(Json::String(day_text(alloc, *day)?.into_string())),
        Value::Moment(moment) => Ok(Json::String(moment_text(alloc, *moment)?.into_string())),
        Value::Ref(id) => Ok(Json::from(id.0)),
        Value::Refs(ids) => ids_json(alloc, ids.as_slice()),
    }
}

/// The JSON of the ids of a list.
fn ids_json(alloc: Global, ids: &[RecId]) -> Result<Json, NoMemory>
    ensures { IfOk result (λ json. view json ≡ list_json (map id_json ids.now)) }
{
    let mut items = Vec::new(alloc);
    for id in ids {
        items.push(Json::from(id.0))?;
    }
    Ok(Json::Array(items))
}
