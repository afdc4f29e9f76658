//! The form of objects of values: each key is a name of a field of the model.

ghost use Rattle.std.specs.Prelude.{◌≡◌, ◌∷◌, [], IfOk, map, option_map};
ghost use Rattle.serde_json.specs.View.{members_view, view};
ghost use Rattle.ob_base.specs.declared.place.PathStep.TheVariants.{Item};
ghost use Rattle.ob_call.specs.Arguments.{entries};
ghost use Rattle.ob_call.specs.Forms.{fields_at};
ghost use Rattle.ob_call.specs.Places.{below_steps};
ghost use Rattle.ob_commands.specs.Asked as spec;
ghost use Rattle.ob_schema.specs.Models.{HasModel};

use ob_base::{ModelNo, NoMemory, PathStep, Place};
use ob_call::{Below, Json};
use ob_schema::Schema;
use serde_json::Map;
use std::alloc::Global;

/// An object whose keys are names of a model's fields.
#[derive(Clone, Copy)]
pub(crate) struct Values<'s> {
    pub(crate) schema: &'s Schema,
    pub(crate) model: ModelNo,
    pub ghost known: { HasModel schema.now model },
}

/// Where a value is neither such an object nor a list of such.
pub(crate) fn objects_fault<'j>(
    alloc: Global,
    values: &Values<'_>,
    json: &'j Json,
) -> Result<Option<Below<'j>>, NoMemory>
    ensures { IfOk result (λ told. option_map below_steps told ≡ spec.objects_fault (fields_at values.now.schema.now values.now.model) (view json.now)) }
{
    match json.as_array() {
        Some(items) => wrong_item(alloc, values, items.as_slice()),
        None => Ok(object_fault(values, json)),
    }
}

/// Where a value isn't such an object.
pub(crate) fn object_fault<'j>(values: &Values<'_>, json: &'j Json) -> Option<Below<'j>>
    ensures { option_map below_steps result ≡ spec.object_fault (fields_at values.now.schema.now values.now.model) (view json.now) }
{
    match json {
        Json::Object(members) => unknown_key(values.schema, values.model, members),
        _ => Some(Below::Whole),
    }
}

/// The first key that is no field's name, in byte order.
fn unknown_key<'j>(
    schema: &Schema,
    model: ModelNo,
    members: &'j Map<String, Json>,
) -> Option<Below<'j>>
    requires { HasModel schema.now model }
    ensures { option_map below_steps result ≡ spec.unknown_key (fields_at schema.now model) (entries (members_view members.now.entries)) }
{
    for key in members.keys() {
        if schema.field(model, key.as_str()).is_none() {
            return Some(Below::Key(key.as_str()));
        }
    }
    None
}

/// Where the first item that is no such object is wrong.
fn wrong_item<'j>(
    alloc: Global,
    values: &Values<'_>,
    items: &'j [Json],
) -> Result<Option<Below<'j>>, NoMemory>
    ensures { IfOk result (λ told. option_map below_steps told ≡ spec.wrong_item (fields_at values.now.schema.now values.now.model) 0 (map view items.now)) }
{
    for (number, item) in items.iter().enumerate() {
        if let Some(below) = object_fault(values, item) {
            let place = below_item(alloc, number, &below)?;
            return Ok(Some(Below::Place(place)));
        }
    }
    Ok(None)
}

/// The steps from a list down to a place in one of its items.
fn below_item(alloc: Global, number: usize, below: &Below<'_>) -> Result<Place, NoMemory>
    ensures { IfOk result (λ place. place ≡ Item number ∷ below_steps below.now) }
{
    let mut place = item_place(alloc, number)?;
    match below {
        Below::Whole => {}
        Below::Item(inner) => place.push(PathStep::Item(*inner as u64))?,
        Below::Key(name) => place.push_key(alloc, name)?,
        Below::Place(further) => place.extend(alloc, further)?,
    }
    Ok(place)
}

/// The place of an item.
pub(crate) fn item_place(alloc: Global, number: usize) -> Result<Place, NoMemory>
    ensures { IfOk result (λ place. place ≡ Item number ∷ []) }
{
    let mut place = Place::whole(alloc);
    place.push(PathStep::Item(number as u64))?;
    Ok(place)
}
