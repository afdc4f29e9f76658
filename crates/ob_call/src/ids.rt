//! Forms that need no registry: ids, and any value; and the ids that an argument names.

ghost use Rattle.std.specs.Prelude.{◌≡◌, ◌∷◌, [], is_some, map, min, option_map, IfOk, Some};
ghost use Rattle.std.specs.List.{filter_map};
ghost use Rattle.std.specs.Option.{option_map_or};
ghost use Rattle.serde_json.specs.View.{view};
ghost use Rattle.ob_call.specs.Forms.{first_item, id_from, ids_fault};
ghost use Rattle.ob_call.specs.Ids.{named_ids, once};
ghost use Rattle.ob_call.specs.Places.{below_steps};

use crate::call::Json;
use crate::form::Form;
use crate::places::Below;
use ob_base::NoMemory;
use ob_base::limits::MAX_ID;
use std::alloc::Global;
use std::collections::BTreeSet;

/// A list of ids, or one id.
#[derive(Clone, Copy, Debug)]
pub struct Ids;

impl Form for Ids {
    ghost use Rattle.ob_call.specs.Forms.{ids_fault};

    ghost fault = { λ _ json. ids_fault json };

    fn fault<'j>(&self, _alloc: Global, json: &'j Json) -> Result<Option<Below<'j>>, NoMemory> {
        Ok(ids_fault(json))
    }
}

/// Any value: the call doesn't read it.
#[derive(Clone, Copy, Debug)]
pub struct Unread;

impl Form for Unread {
    ghost use Rattle.std.specs.Prelude.{None};

    ghost fault = { λ _ _. None };

    fn fault<'j>(&self, _alloc: Global, _json: &'j Json) -> Result<Option<Below<'j>>, NoMemory> {
        Ok(None)
    }
}

/// An id of 1 to 4,294,967,295; no other value is one.
pub fn id_of(json: &Json) -> Option<u64>
    ensures { result ≡ id_from (view json.now) }
{
    match json.as_u64() {
        Some(id) if 1 <= id && id <= MAX_ID => Some(id),
        _ => None,
    }
}

/// Where a list has something else than an id, or there is neither a list nor an id.
fn ids_fault(json: &Json) -> Option<Below<'_>>
    ensures { option_map below_steps result ≡ ids_fault (view json.now) }
{
    match json {
        Json::Array(items) => first_no_id(items.as_slice()),
        _ => match id_of(json) {
            Some(_) => None,
            None => Some(Below::Whole),
        },
    }
}

/// The first item that is no id.
fn first_no_id(items: &[Json]) -> Option<Below<'_>>
    ensures { option_map below_steps result
        ≡ first_item (λ json. is_some (id_from json)) 0 (map view items.now) }
{
    let number = items.iter().position(|item| id_of(item).is_none())?;
    Some(Below::Item(number))
}

/// The ids that an argument names, each once at its first place.
pub fn named_ids(alloc: Global, json: &Json) -> Result<Vec<u64>, NoMemory>
    ensures { IfOk result (λ ids. ids.items ≡ named_ids (view json.now)) }
{
    match json {
        Json::Array(items) => distinct_ids(alloc, items.as_slice()),
        _ => one_id(alloc, json),
    }
}

/// The one id.
fn one_id(alloc: Global, json: &Json) -> Result<Vec<u64>, NoMemory>
    ensures { IfOk result (λ ids. ids.items ≡ filter_map id_from (view json.now ∷ [])) }
{
    let mut ids = Vec::new(alloc);
    if let Some(id) = id_of(json) {
        ids.push(id)?;
    }
    Ok(ids)
}

/// The ids of a list, each once at its first place.
fn distinct_ids(alloc: Global, items: &[Json]) -> Result<Vec<u64>, NoMemory>
    ensures { IfOk result (λ ids. ids.items ≡ once (filter_map id_from (map view items.now))) }
{
    let mut seen = BTreeSet::new(alloc);
    let mut ids = Vec::new(alloc);
    for item in items {
        if let Some(id) = id_of(item) {
            if seen.insert(id)? {
                ids.push(id)?;
            }
        }
    }
    Ok(ids)
}

/// The lesser of an id and the one before it, where there is one: of ids that are missing, met
/// one after another, the least.
pub fn least(before: Option<u64>, id: u64) -> Option<u64>
    ensures { result ≡ Some (option_map_or (λ other. min other id) before id) }
{
    match before {
        Some(other) => Some(other.min(id)),
        None => Some(id),
    }
}
