//! What an object of JSON gives the fields of a row: values, and commands on lists, whose own
//! objects are read when their commands are carried out. A value that isn't of its form gives
//! nothing here, and is told in `findings`.

ghost use Rattle.std.specs.Prelude.{◌<◌, ◌≤◌, IfOk, OnOk};
ghost use Rattle.ob_codec.specs.CommandForms.{IsObject};
ghost use Rattle.ob_effect.specs.Objects.{IsInputFor, IsObjectFor, KeepsDepth, deepest_of, input_depth};
ghost use Rattle.ob_schema.specs.Models.{HasField, HasModel};
ghost use Rattle.serde_json.specs.Data.{depth};
ghost use Rattle.serde_json.specs.View.{view};

use ob_base::{FieldNo, ModelNo, NoMemory, Sequence, Value};
use ob_call::Json;
use ob_codec::{CodecFault, Command, Input, command_forms, from_json};
use ob_schema::Schema;
use std::alloc::Global;

/// What fields are given, by their numbers in the row's own model and in byte order of their names.
#[derive(Drop)]
pub struct Object {
    pub values: Vec<(FieldNo, Value)>,
    pub orders: Vec<Orders>,
}

/// What is to be done to a list of rows, from the left.
#[derive(Drop)]
pub struct Orders {
    pub field: FieldNo,
    pub commands: Sequence<Command>,
}

/// What an object of values gives the fields of a model.
pub fn object_of(
    alloc: Global,
    schema: &Schema,
    model: ModelNo,
    json: &Json,
) -> Result<Object, NoMemory>
    requires model { HasModel schema.now model }
    requires object { IsObject (view json.now) }
    ensures fits { IfOk result (IsObjectFor schema.now model) }
    // The objects of its commands are less deep.
    ensures depth { IfOk result (λ object. deepest_of object.orders.items < depth (view json.now)) }
{
    let Json::Object(members) = json else {
        unreachable!();
    };
    let mut object = Object {
        values: Vec::new(alloc),
        orders: Vec::new(alloc),
    };
    for (name, json) in members {
        if let Some(field) = schema.field(model, name.as_str()) {
            read_field(alloc, schema, model, field, json, &mut object)?;
        }
    }
    Ok(object)
}

/// Takes in what a field is given.
fn read_field(
    alloc: Global,
    schema: &Schema,
    model: ModelNo,
    field: FieldNo,
    json: &Json,
    object: &mut Object,
) -> Result<(), NoMemory>
    requires field { HasField schema.now model field }
    ensures fits { OnOk result (IsObjectFor schema.now model object.old → IsObjectFor schema.now model object.new) }
    ensures depth { OnOk result (KeepsDepth (depth (view json.now)) object.old object.new) }
{
    match input_of(alloc, schema, model, field, json) {
        Ok(Input::Plain(value)) => {
            object.values.push((field, value))?;
            Ok(())
        }
        Ok(Input::Commands(commands)) => {
            object.orders.push(Orders { field, commands })?;
            Ok(())
        }
        Err(CodecFault::NoMemory) => Err(NoMemory),
        Err(_) => Ok(()),
    }
}

/// What JSON gives a field. The objects of commands are no deeper than it.
pub fn input_of(
    alloc: Global,
    schema: &Schema,
    model: ModelNo,
    field: FieldNo,
    json: &Json,
) -> Result<Input, CodecFault>
    requires field { HasField schema.now model field }
    ensures fits { IfOk result (IsInputFor schema.now model field) }
    ensures depth { IfOk result (λ input. input_depth input ≤ depth (view json.now)) }
{
    // The law of commands, by which their objects stand in the list that gives them.
    command_forms();
    from_json(alloc, schema, model, field, json)
}
