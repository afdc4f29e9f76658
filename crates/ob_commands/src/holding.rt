//! Which creates and writes are carried out here: those whose values name a field that `ob_orm` gives
//! no value, a list of rows say, or one that calls may not give.

ghost use Rattle.std.specs.Prelude.{◌≡◌, option_map};
ghost use Rattle.std.specs.List.{list_any};
ghost use Rattle.serde_json.specs.View.{members_view, view};
ghost use Rattle.ob_call.specs.Arguments.{entries};
ghost use Rattle.ob_call.specs.Forms.{fields_at};
ghost use Rattle.ob_commands.specs.Holding as spec;
ghost use Rattle.ob_schema.specs.Models.{HasModel};

use ob_base::ModelNo;
use ob_call::{Call, Json};
use ob_rows::is_settable;
use ob_schema::Schema;
use serde_json::Map;

/// Whether the values of a call name a field that `ob_orm` gives no value, where they are its
/// argument at this position, or by the name `vals`: one object, or a list of objects, any of which
/// does.
pub fn gives_others(schema: &Schema, call: &Call<'_>, position: usize) -> bool
    requires model { HasModel schema.now call.now.model }
    ensures { result ≡ spec.gives_others schema.now (fields_at schema.now call.entry.now.model) position (view call.entry.now.args.now) (view call.entry.now.kw.now) }
{
    match vals_of(call, position) {
        Some(json) => name_others(schema, call.model, json),
        None => false,
    }
}

/// The argument of a call at this position, or the one by the name `vals`.
fn vals_of<'j>(call: &Call<'j>, position: usize) -> Option<&'j Json>
    ensures { option_map (λ json. view json.now) result ≡ spec.vals_of position (view call.entry.now.args.now) (view call.entry.now.kw.now) }
{
    match item_at(call.args, position) {
        Some(json) => Some(json),
        None => call.kw.get("vals"),
    }
}

/// The item of a list at a position; no other value has one.
fn item_at(json: &Json, position: usize) -> Option<&Json>
    ensures { option_map (λ item. view item.now) result ≡ spec.item_at position (view json.now) }
{
    match json {
        Json::Array(items) => items.get(position),
        _ => None,
    }
}

/// Whether an object of values names such a field, or one of a list of such objects.
fn name_others(schema: &Schema, model: ModelNo, json: &Json) -> bool
    requires { HasModel schema.now model }
    ensures { result ≡ spec.name_others schema.now (fields_at schema.now model) (view json.now) }
{
    match json {
        Json::Array(items) => some_names_other(schema, model, items.as_slice()),
        _ => names_other(schema, model, json),
    }
}

/// Whether one of some objects of values names such a field.
fn some_names_other(schema: &Schema, model: ModelNo, items: &[Json]) -> bool
    requires { HasModel schema.now model }
    ensures { result ≡ list_any (λ item. spec.names_other schema.now (fields_at schema.now model) (view item)) items.now }
{
    items.iter().any(|item| names_other(schema, model, item))
}

/// Whether an object of values names such a field.
fn names_other(schema: &Schema, model: ModelNo, json: &Json) -> bool
    requires { HasModel schema.now model }
    ensures { result ≡ spec.names_other schema.now (fields_at schema.now model) (view json.now) }
{
    match json {
        Json::Object(members) => has_other(schema, model, members),
        _ => false,
    }
}

/// Whether a key is the name of such a field.
fn has_other(schema: &Schema, model: ModelNo, members: &Map<String, Json>) -> bool
    requires { HasModel schema.now model }
    ensures { result ≡ list_any (λ e. spec.is_other_name schema.now (fields_at schema.now model) e.0) (entries (members_view members.now.entries)) }
{
    for key in members.keys() {
        if is_other_name(schema, model, key.as_str()) {
            return true;
        }
    }
    false
}

/// Whether a text is the name of a field that `ob_orm` gives no value.
fn is_other_name(schema: &Schema, model: ModelNo, name: &str) -> bool
    requires { HasModel schema.now model }
    ensures { result ≡ spec.is_other_name schema.now (fields_at schema.now model) name.now }
{
    match schema.field(model, name) {
        Some(field) => !is_settable(schema, schema.info(model, field)),
        None => false,
    }
}
