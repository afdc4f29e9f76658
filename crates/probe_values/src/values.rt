//! Values from and to JSON, and their order.

ghost use Rattle.ob_schema.specs.Models.{HasField, HasModel};

use crate::told::{joined, put_command, put_shortened};
use ob_base::{FieldNo, ModelNo, RefList, Value, value_cmp};
use ob_codec::{CodecFault, Command, Input, Json, from_json, to_json, type_and_limits};
use ob_schema::{FieldType, Schema};
use probe_parts::parts::{ids_of, json_of};
use probe_parts::told::{Told, put_json, put_value};
use std::alloc::Global;

/// Tells the answer to a line of this word about a field, whose name stands first.
pub(crate) fn put_of_field(
    alloc: Global,
    told: &mut Told,
    schema: &Schema,
    model: ModelNo,
    times: u32,
    word: &str,
    asked: &str,
)
    requires { HasModel schema.now model }
{
    let Some((name, text)) = asked.split_once(' ') else {
        return told.put("no value");
    };
    let Some(field) = schema.field(model, name) else {
        return told.put("no field");
    };
    match word {
        "value" => put_asked(alloc, told, schema, model, field, times, text),
        "given" => put_given(alloc, told, schema, model, field, text),
        "order" => put_order(alloc, told, schema, model, field, text),
        _ => put_targets(alloc, told, schema, model, field, text),
    }
}

/// Adds what JSON gives a field, as replies tell it.
fn put_asked(
    alloc: Global,
    told: &mut Told,
    schema: &Schema,
    model: ModelNo,
    field: FieldNo,
    times: u32,
    text: &str,
)
    requires { HasField schema.now model field }
{
    for _ in 1..times {
        let mut unread = Told::new(alloc);
        put_told(alloc, &mut unread, schema, model, field, text);
    }
    put_told(alloc, told, schema, model, field, text);
}

/// Adds what a text of JSON gives a field, as replies tell it.
fn put_told(
    alloc: Global,
    told: &mut Told,
    schema: &Schema,
    model: ModelNo,
    field: FieldNo,
    text: &str,
)
    requires { HasField schema.now model field }
{
    let json = json_of(alloc, told, text);
    if told.is_malformed() {
        told.put("no JSON");
    } else {
        put_input(alloc, told, schema, model, field, &json);
    }
}

/// Adds what JSON gives a field, as replies tell it.
#[tactic(auto, using(crate::proofs::Held::held))]
fn put_input(
    alloc: Global,
    told: &mut Told,
    schema: &Schema,
    model: ModelNo,
    field: FieldNo,
    json: &Json,
)
    requires { HasField schema.now model field }
{
    match from_json(alloc, schema, model, field, json) {
        Ok(Input::Plain(value)) => {
            type_and_limits();
            match to_json(alloc, schema, model, field, &value) {
                Ok(json) => put_json(alloc, told, &json),
                Err(_) => told.lack(),
            }
        }
        Ok(Input::Commands(commands)) => put_commands(alloc, told, commands.as_slice()),
        Err(fault) => put_fault(told, fault),
    }
}

/// Adds why JSON gives a field no value.
fn put_fault(told: &mut Told, fault: CodecFault) {
    match fault {
        CodecFault::NoMemory => told.lack(),
        other => told.put_shown(&other),
    }
}

/// Adds commands with spaces between them.
fn put_commands(alloc: Global, told: &mut Told, commands: &[Command]) {
    let mut between = "";
    for command in commands {
        told.put(between);
        put_command(alloc, told, command);
        between = " ";
    }
}

/// Adds the value that JSON in pieces gives a field.
fn put_given(
    alloc: Global,
    told: &mut Told,
    schema: &Schema,
    model: ModelNo,
    field: FieldNo,
    pieces: &str,
)
    requires { HasField schema.now model field }
{
    let text = joined(alloc, told, pieces);
    let json = json_of(alloc, told, text.as_str());
    if told.is_malformed() {
        return told.put("no JSON");
    }
    if let Some(value) = plain_value(alloc, told, schema, model, field, &json) {
        let mut text = Told::new(alloc);
        put_value(alloc, &mut text, &value);
        put_shortened(told, text);
    }
}

/// Adds the order of the two values that a list gives the field.
fn put_order(
    alloc: Global,
    told: &mut Told,
    schema: &Schema,
    model: ModelNo,
    field: FieldNo,
    text: &str,
)
    requires { HasField schema.now model field }
{
    let json = json_of(alloc, told, text);
    let Json::Array(pair) = &json else {
        return told.put("no list");
    };
    let [a, b] = pair.as_slice() else {
        return told.put("no pair");
    };
    let Some(a) = plain_value(alloc, told, schema, model, field, a) else {
        return;
    };
    if let Some(b) = plain_value(alloc, told, schema, model, field, b) {
        told.put_debug(&value_cmp(&a, &b));
    }
}

/// The value that JSON gives a field; adds why it gives none.
fn plain_value(
    alloc: Global,
    told: &mut Told,
    schema: &Schema,
    model: ModelNo,
    field: FieldNo,
    json: &Json,
) -> Option<Value>
    requires { HasField schema.now model field }
{
    match from_json(alloc, schema, model, field, json) {
        Ok(Input::Plain(value)) => Some(value),
        Ok(Input::Commands(_)) => {
            told.put("commands");
            None
        }
        Err(fault) => {
            put_fault(told, fault);
            None
        }
    }
}

/// Adds the JSON of a field of many targets that names these.
fn put_targets(
    alloc: Global,
    told: &mut Told,
    schema: &Schema,
    model: ModelNo,
    field: FieldNo,
    text: &str,
)
    requires { HasField schema.now model field }
{
    let json = json_of(alloc, told, text);
    if told.is_malformed() {
        return told.put("no JSON");
    }
    let ids = ids_of(alloc, told, &json);
    if told.is_malformed() {
        return told.put("no ids");
    }
    put_named(alloc, told, schema, model, field, ids);
}

/// Adds the JSON of a field of many targets that names these.
fn put_named(
    alloc: Global,
    told: &mut Told,
    schema: &Schema,
    model: ModelNo,
    field: FieldNo,
    ids: RefList,
)
    requires { HasField schema.now model field }
{
    match schema.info(model, field).field_type {
        FieldType::Many2many | FieldType::One2many => {
            match to_json(alloc, schema, model, field, &Value::Refs(ids)) {
                Ok(json) => put_json(alloc, told, &json),
                Err(_) => told.lack(),
            }
        }
        _ => told.put("another type"),
    }
}
