//! The context of a call, which every call takes beside its arguments. What else of it is to be
//! read is a function here, by its key; all other keys are passed over.

ghost use Rattle.std.specs.Prelude.{◌≡◌, option_map};
ghost use Rattle.serde_json.specs.View.{view};
ghost use Rattle.ob_call.specs.Context.{active_test, is_false, value_of_key};

use crate::call::Json;

/// Whether a search may leave out rows that aren't active, by the arguments by name: not where
/// their `context` has an `active_test` that is literally `false`.
pub fn active_test(kw: &Json) -> bool
    ensures { result ≡ active_test (view kw.now) }
{
    match value_of_key(kw, "context") {
        Some(context) => !is_false(value_of_key(context, "active_test")),
        None => true,
    }
}

/// Whether a value is there and is `false`.
fn is_false(json: Option<&Json>) -> bool
    ensures { result ≡ is_false (option_map (λ found. view found.now) json.entry) }
{
    matches!(json, Some(Json::Bool(false)))
}

/// The value of a key of an object; no other value has one.
fn value_of_key<'j>(json: &'j Json, name: &str) -> Option<&'j Json>
    ensures { option_map (λ found. view found.now) result ≡ value_of_key name.now (view json.now) }
{
    match json {
        Json::Object(members) => members.get(name),
        _ => None,
    }
}
