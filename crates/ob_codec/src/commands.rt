//! The commands of x2many fields, from JSON: lists whose first element is a code, as the
//! Odoo 17 ORM's `Command` has them. The forms, and which fault is told first, stand in
//! specs/Commands and specs/CommandForms: a new command gets its arm here, and its form there.

ghost use Rattle.std.specs.Prelude.{All, IfOk, map};
ghost use Rattle.serde_json.specs.View.{view, number_view};
ghost use Rattle.ob_codec.specs.Commands.{clear_from, code_of, code_of_number, create_from};
ghost use Rattle.ob_codec.specs.Commands.{named_row, order_at, order_from, orders_of, set_from, update_from};
ghost use Rattle.ob_codec.specs.Held.{HasIdsAndObjects};
ghost use Rattle.ob_codec.specs.Input.{order_of};
ghost use Rattle.ob_codec.specs.Steps.{IsCodecResult, each_from};

use crate::elements::{element, ended, id_in, ids_in, ignored, passed_in, values_in};
use crate::fault::CodecFault;
use crate::input::{Command, Json};
use crate::place::{range, shape};
use ob_base::{RecId, Sequence};
use serde_json::Number;
use std::alloc::Global;

/// The commands of a list's value.
#[tactic(auto, unfolding(crate::specs::Commands::orders_of))]
pub(crate) fn commands_of(alloc: Global, json: &Json) -> Result<Sequence<Command>, CodecFault>
    ensures form { IsCodecResult (map order_of) result (orders_of (view json.now)) }
    ensures whole { IfOk result (All HasIdsAndObjects) }
{
    match json {
        Json::Array(items) => commands_from(alloc, items.as_slice()),
        _ => Err(shape(alloc, &[])),
    }
}

/// The commands of the items of a list.
fn commands_from(alloc: Global, items: &[Json]) -> Result<Sequence<Command>, CodecFault>
    ensures { IsCodecResult (map order_of) result (each_from order_at 0 (map view items.now)) }
{
    let mut commands = Sequence::new(alloc);
    for (number, item) in items.iter().enumerate() {
        commands.push(command_at(alloc, number, item)?)?;
    }
    Ok(commands)
}

/// The command at this number of a list.
#[tactic(auto, unfolding(crate::specs::Commands::order_at))]
fn command_at(alloc: Global, command: usize, json: &Json) -> Result<Command, CodecFault>
    ensures { IsCodecResult order_of result (order_at command (view json.now)) }
{
    match json {
        Json::Array(elements) => command_from(alloc, command, elements.as_slice()),
        _ => Err(shape(alloc, &[command])),
    }
}

/// The command of these elements.
#[tactic(auto, unfolding(crate::specs::Commands::order_from, crate::specs::Commands::order_by))]
fn command_from(alloc: Global, command: usize, elements: &[Json]) -> Result<Command, CodecFault>
    ensures { IsCodecResult order_of result (order_from command (map view elements.now)) }
{
    let first = element(alloc, command, 0, elements)?;
    match code_of(alloc, command, first)? {
        0 => create_from(alloc, command, elements),
        1 => update_from(alloc, command, elements),
        2 => Ok(Command::Delete(named_row(alloc, command, elements)?)),
        3 => Ok(Command::Unlink(named_row(alloc, command, elements)?)),
        4 => Ok(Command::Link(named_row(alloc, command, elements)?)),
        5 => clear_from(alloc, command, elements),
        6 => set_from(alloc, command, elements),
        _ => Err(range(alloc, &[command, 0])),
    }
}

/// The code that a command begins with.
#[tactic(auto, unfolding(crate::specs::Commands::code_of))]
fn code_of(alloc: Global, command: usize, json: &Json) -> Result<u64, CodecFault>
    ensures { IsCodecResult (λ code. code) result (code_of command (view json.now)) }
{
    match json {
        Json::Number(number) => code_of_number(alloc, command, number),
        _ => Err(shape(alloc, &[command, 0])),
    }
}

/// The code that a number is.
#[tactic(auto, unfolding(crate::specs::Commands::code_of_number))]
fn code_of_number(alloc: Global, command: usize, number: &Number) -> Result<u64, CodecFault>
    ensures { IsCodecResult (λ code. code) result (code_of_number command (number_view number.now)) }
{
    match number.as_u64() {
        Some(code) => Ok(code),
        None if number.is_f64() => Err(shape(alloc, &[command, 0])),
        None => Err(range(alloc, &[command, 0])),
    }
}

/// `[0, _, values]`
#[tactic(auto, unfolding(crate::specs::Commands::create_from))]
fn create_from(alloc: Global, command: usize, elements: &[Json]) -> Result<Command, CodecFault>
    ensures { IsCodecResult order_of result (create_from command (map view elements.now)) }
{
    passed_in(alloc, command, 1, elements)?;
    let values = values_in(alloc, command, 2, elements)?;
    ended(alloc, command, 3, elements)?;
    Ok(Command::Create(values.clone()?))
}

/// `[1, id, values]`
#[tactic(auto, unfolding(crate::specs::Commands::update_from))]
fn update_from(alloc: Global, command: usize, elements: &[Json]) -> Result<Command, CodecFault>
    ensures { IsCodecResult order_of result (update_from command (map view elements.now)) }
{
    let id = id_in(alloc, command, 1, elements)?;
    let values = values_in(alloc, command, 2, elements)?;
    ended(alloc, command, 3, elements)?;
    Ok(Command::Update(id, values.clone()?))
}

/// The id of `[code, id]` or `[code, id, _]`.
#[tactic(auto, unfolding(crate::specs::Commands::named_row, crate::specs::Commands::passed_if_any))]
fn named_row(alloc: Global, command: usize, elements: &[Json]) -> Result<RecId, CodecFault>
    ensures { IsCodecResult (λ id. id) result (named_row command (map view elements.now)) }
{
    let id = id_in(alloc, command, 1, elements)?;
    if let Some(json) = elements.get(2) {
        ignored(alloc, command, 2, json)?;
    }
    ended(alloc, command, 3, elements)?;
    Ok(id)
}

/// `[5]`, with any further elements.
fn clear_from(alloc: Global, command: usize, elements: &[Json]) -> Result<Command, CodecFault>
    ensures { IsCodecResult order_of result (clear_from command (map view elements.now)) }
{
    for number in 1..elements.len() {
        ignored(alloc, command, number, &elements[number])?;
    }
    Ok(Command::Clear)
}

/// `[6, _, ids]`
#[tactic(auto, unfolding(crate::specs::Commands::set_from))]
fn set_from(alloc: Global, command: usize, elements: &[Json]) -> Result<Command, CodecFault>
    ensures { IsCodecResult order_of result (set_from command (map view elements.now)) }
{
    passed_in(alloc, command, 1, elements)?;
    let ids = ids_in(alloc, command, 2, elements)?;
    ended(alloc, command, 3, elements)?;
    Ok(Command::Set(ids))
}
