//! The elements of a command, from JSON: ids, objects of values, and what is passed over.
//! `command` is the command's number in its list, and `k` that of the element. The forms
//! stand in specs/Commands.

ghost use Rattle.std.specs.Prelude.{◌∷◌, [], IfOk, map};
ghost use Rattle.serde_json.specs.View.{view, number_view};
ghost use Rattle.ob_base.specs.Ids.{IsId};
ghost use Rattle.ob_codec.specs.Commands.{element, ended, id_in, id_of_json, id_of_number, ids_in, ids_of};
ghost use Rattle.ob_codec.specs.Commands.{ignored, passed_in, values_in};
ghost use Rattle.ob_codec.specs.Steps.{IsCodecResult, each_from};

use crate::fault::CodecFault;
use crate::input::Json;
use crate::place::{range, shape};
use ob_base::limits::MAX_ID;
use ob_base::{RecId, Sequence};
use serde_json::Number;
use std::alloc::Global;

/// An element of a command.
#[tactic(auto, unfolding(crate::specs::Commands::element))]
pub(crate) fn element(
    alloc: Global,
    command: usize,
    k: usize,
    elements: &[Json],
) -> Result<&Json, CodecFault>
    ensures { IsCodecResult (λ json. view json.now) result (element command k (map view elements.now)) }
{
    match elements.get(k) {
        Some(json) => Ok(json),
        None => Err(shape(alloc, &[command, k])),
    }
}

/// Passes over an element, which may be any scalar.
#[tactic(auto, unfolding(crate::specs::Commands::ignored))]
pub(crate) fn ignored(
    alloc: Global,
    command: usize,
    k: usize,
    json: &Json,
) -> Result<(), CodecFault>
    ensures { IsCodecResult (λ _. tt) result (ignored command k (view json.now)) }
{
    match json {
        Json::Array(_) | Json::Object(_) => Err(shape(alloc, &[command, k])),
        _ => Ok(()),
    }
}

/// An element that is passed over.
#[tactic(auto, unfolding(crate::specs::Commands::passed_in))]
pub(crate) fn passed_in(
    alloc: Global,
    command: usize,
    k: usize,
    elements: &[Json],
) -> Result<(), CodecFault>
    ensures { IsCodecResult (λ _. tt) result (passed_in command k (map view elements.now)) }
{
    ignored(alloc, command, k, element(alloc, command, k, elements)?)
}

/// An element that is an object of values.
#[tactic(auto, unfolding(crate::specs::Commands::values_in))]
pub(crate) fn values_in(
    alloc: Global,
    command: usize,
    k: usize,
    elements: &[Json],
) -> Result<&Json, CodecFault>
    ensures { IsCodecResult (λ json. view json.now) result (values_in command k (map view elements.now)) }
{
    let json = element(alloc, command, k, elements)?;
    match json {
        Json::Object(_) => Ok(json),
        _ => Err(shape(alloc, &[command, k])),
    }
}

/// An element that is an id.
#[tactic(auto, unfolding(crate::specs::Commands::id_in))]
pub(crate) fn id_in(
    alloc: Global,
    command: usize,
    k: usize,
    elements: &[Json],
) -> Result<RecId, CodecFault>
    ensures { IsCodecResult (λ id. id) result (id_in command k (map view elements.now)) }
{
    id_of_json(alloc, &[command, k], element(alloc, command, k, elements)?)
}

/// An element that is a list of ids.
#[tactic(auto, unfolding(crate::specs::Commands::ids_in))]
pub(crate) fn ids_in(
    alloc: Global,
    command: usize,
    k: usize,
    elements: &[Json],
) -> Result<Sequence<RecId>, CodecFault>
    ensures { IsCodecResult (λ ids. ids) result (ids_in command k (map view elements.now)) }
{
    ids_of(alloc, command, k, element(alloc, command, k, elements)?)
}

/// The ids of a list.
#[tactic(auto, unfolding(crate::specs::Commands::ids_of))]
fn ids_of(
    alloc: Global,
    command: usize,
    k: usize,
    json: &Json,
) -> Result<Sequence<RecId>, CodecFault>
    ensures { IsCodecResult (λ ids. ids) result (ids_of command k (view json.now)) }
{
    match json {
        Json::Array(items) => ids_from(alloc, command, k, items.as_slice()),
        _ => Err(shape(alloc, &[command, k])),
    }
}

/// The ids of the items of a list.
fn ids_from(
    alloc: Global,
    command: usize,
    k: usize,
    items: &[Json],
) -> Result<Sequence<RecId>, CodecFault>
    ensures { IsCodecResult (λ ids. ids) result
        (each_from (λ n. id_of_json (command ∷ k ∷ n ∷ [])) 0 (map view items.now)) }
{
    let mut ids = Sequence::new(alloc);
    for (number, item) in items.iter().enumerate() {
        ids.push(id_of_json(alloc, &[command, k, number], item)?)?;
    }
    Ok(ids)
}

/// Nothing stands at this number or after it.
#[tactic(auto, unfolding(crate::specs::Commands::ended))]
pub(crate) fn ended(
    alloc: Global,
    command: usize,
    k: usize,
    elements: &[Json],
) -> Result<(), CodecFault>
    ensures { IsCodecResult (λ _. tt) result (ended command k (map view elements.now)) }
{
    if k < elements.len() {
        return Err(shape(alloc, &[command, k]));
    }
    Ok(())
}

/// An id at the item of these numbers.
#[tactic(auto, unfolding(crate::specs::Commands::id_of_json))]
fn id_of_json(alloc: Global, numbers: &[usize], json: &Json) -> Result<RecId, CodecFault>
    ensures { IsCodecResult (λ id. id) result (id_of_json numbers.now (view json.now)) }
{
    match json {
        Json::Number(number) => id_of_number(alloc, numbers, number),
        _ => Err(shape(alloc, numbers)),
    }
}

/// An id within its limits, as a number at the item of these numbers.
#[tactic(auto, unfolding(crate::specs::Commands::id_of_number))]
pub(crate) fn id_of_number(
    alloc: Global,
    numbers: &[usize],
    number: &Number,
) -> Result<RecId, CodecFault>
    ensures form { IsCodecResult (λ id. id) result (id_of_number numbers.now (number_view number.now)) }
    ensures holds { IfOk result IsId }
{
    match number.as_u64() {
        Some(id) if 1 <= id && id <= MAX_ID => Ok(RecId(id)),
        None if number.is_f64() => Err(shape(alloc, numbers)),
        _ => Err(range(alloc, numbers)),
    }
}
