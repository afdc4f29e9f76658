//! Parts of JSON: members of objects, items of lists, ids and lists of ids. Where one is of
//! another form that is noted, and it reads as nothing.

ghost use Rattle.std.specs.Prelude.{◌<◌, All, IsTrue};

use crate::told::Told;
use ob_base::{RecId, RefList};
use std::alloc::Global;

/// A value in JSON.
pub type Json = serde_json::Value;

/// The JSON of a text; null where it is none.
pub fn json_of(alloc: Global, told: &mut Told, text: &str) -> Json {
    match Json::from_str(alloc, text) {
        Ok(json) => json,
        Err(error) => {
            if error.is_memory() {
                told.lack();
            } else {
                told.refuse();
            }
            Json::Null
        }
    }
}

/// A part of an object; the whole where it has none of this name.
pub fn part<'j>(told: &mut Told, json: &'j Json, name: &str) -> &'j Json {
    match json.get(name) {
        Some(part) => part,
        None => {
            told.refuse();
            json
        }
    }
}

/// A text that is a part of an object.
pub fn text_part<'j>(told: &mut Told, json: &'j Json, name: &str) -> &'j str {
    let part = part(told, json, name);
    text_of(told, part)
}

/// The items of a list that is a part of an object.
pub fn list_part<'j>(told: &mut Told, json: &'j Json, name: &str) -> &'j [Json] {
    let part = part(told, json, name);
    items_of(told, part)
}

/// A text.
pub fn text_of<'j>(told: &mut Told, json: &'j Json) -> &'j str {
    match json {
        Json::String(text) => text.as_str(),
        _ => {
            told.refuse();
            ""
        }
    }
}

/// The items of a list.
pub fn items_of<'j>(told: &mut Told, json: &'j Json) -> &'j [Json] {
    match json {
        Json::Array(items) => items.as_slice(),
        _ => {
            told.refuse();
            &[]
        }
    }
}

/// An id.
pub fn id_of(told: &mut Told, json: &Json) -> RecId {
    RecId(told.found(json.as_u64(), 0))
}

/// The ids of a list, which rise.
pub fn ids_of(alloc: Global, told: &mut Told, json: &Json) -> RefList {
    let mut ids = RefList::new(alloc);
    for item in items_of(told, json) {
        let id = id_of(told, item);
        add_id(told, &mut ids, id);
    }
    ids
}

/// The ids from one to another.
pub fn range_of(alloc: Global, told: &mut Told, json: &Json) -> RefList {
    let mut ids = RefList::new(alloc);
    if let [first, last] = items_of(told, json) {
        let (first, last) = (id_of(told, first), id_of(told, last));
        add_range(told, &mut ids, first, last);
    } else {
        told.refuse();
    }
    ids
}

/// Adds the ids from one to another.
fn add_range(told: &mut Told, ids: &mut RefList, first: RecId, last: RecId) {
    for id in first.0..=last.0 {
        if told.lacks_memory() {
            return;
        }
        add_id(told, ids, RecId(id));
    }
}

/// Adds an id that is above all of a list.
pub fn add_id(told: &mut Told, ids: &mut RefList, id: RecId) {
    if !is_next(ids, id) {
        told.refuse();
    } else if ids.push(id).is_err() {
        told.lack();
    }
}

/// Whether an id is above all of a list, by its last one.
fn is_next(ids: &RefList, id: RecId) -> bool
    ensures { IsTrue result → All (λ before. before.0 < id.0) ids.now }
{
    match ids.as_slice().last() {
        Some(last) => last.0 < id.0,
        None => true,
    }
}
