//! The groupings of a call as they are written, and those that are used: looked up before the
//! arguments are judged, since neither the key of an aggregate may be that of a grouping or of the
//! count, nor an order go by another grouping than those that are used.

ghost use Rattle.std.specs.Prelude.{◌≡◌, map, option_map, IfOk, Some};
ghost use Rattle.std.specs.String.{string_bytes};
ghost use Rattle.serde_json.specs.View.{view};
ghost use Rattle.ob_call.specs.Context.{value_of_key};
ghost use Rattle.ob_call.specs.Forms.{fields_at};
ghost use Rattle.ob_group.specs.GroupForms.{count_key, first_in, is_lazy, item_at, items_in, not_null, written_argument, written_in, written_of};
ghost use Rattle.ob_group.specs.GroupParts.{IsWrittenOver, grouping_view, json_view, used_of, written_view};
ghost use Rattle.ob_schema.specs.Models.{HasModel};

use crate::groupings::{Grouping, grouping_of, groupings_in};
use ob_base::{ModelNo, NoMemory};
use ob_call::Json;
use ob_schema::Schema;
use std::alloc::Global;

/// What is given for groupings, the grouping for which the first text of it stands, if it does for
/// one, all groupings, and whether the first alone is used.
#[derive(Drop)]
pub(crate) struct Written<'j> {
    pub(crate) items: &'j [Json],
    pub(crate) first: Option<Grouping<'j>>,
    pub(crate) groupings: Vec<Grouping<'j>>,
    pub(crate) lazy: bool,
}

/// What is written of groupings, whatever else the arguments are.
pub(crate) fn written_of<'j>(
    alloc: Global,
    schema: &Schema,
    model: ModelNo,
    args: &'j Json,
    kw: &'j Json,
) -> Result<Written<'j>, NoMemory>
    requires { HasModel schema.now model }
    ensures written { IfOk result (λ written. written_view written ≡ written_of (fields_at schema.now model) (view args.now) (view kw.now)) }
    ensures there { IfOk result (IsWrittenOver schema.now model) }
{
    let groupby = written_argument(args, kw, 2, "groupby");
    let lazy = written_argument(args, kw, 6, "lazy");
    written_in(alloc, schema, model, groupby, lazy)
}

/// What is written by what is given for groupings and for `lazy`.
pub(crate) fn written_in<'j>(
    alloc: Global,
    schema: &Schema,
    model: ModelNo,
    groupby: Option<&'j Json>,
    lazy: Option<&Json>,
) -> Result<Written<'j>, NoMemory>
    requires { HasModel schema.now model }
    ensures written { IfOk result (λ written. written_view written ≡ written_in (fields_at schema.now model) (json_view groupby.entry) (json_view lazy.entry)) }
    ensures there { IfOk result (IsWrittenOver schema.now model) }
{
    let items = items_in(groupby);
    let groupings = groupings_in(alloc, schema, model, items)?;
    Ok(Written {
        items,
        first: first_in(schema, model, items),
        groupings,
        lazy: is_lazy(lazy),
    })
}

/// What is given for groupings: the items of a list, or another value alone.
fn items_in<'j>(groupby: Option<&'j Json>) -> &'j [Json]
    ensures { map view result.now ≡ items_in (json_view groupby.entry) }
{
    match groupby {
        Some(json) => items_of(json),
        None => &[],
    }
}

/// The items of a list, or another value alone.
fn items_of(json: &Json) -> &[Json]
    ensures { map view result.now ≡ items_in (Some (view json.now)) }
{
    match json {
        Json::Array(items) => items.as_slice(),
        _ => std::slice::from_ref(json),
    }
}

/// The grouping for which the first text among items stands, if it does for one.
fn first_in<'j>(schema: &Schema, model: ModelNo, items: &'j [Json]) -> Option<Grouping<'j>>
    requires { HasModel schema.now model }
    ensures { option_map grouping_view result ≡ first_in (fields_at schema.now model) (map view items.now) }
{
    for item in items {
        if let Some(text) = item.as_str() {
            return grouping_of(schema, model, text);
        }
    }
    None
}

/// Whether the first grouping alone is used: unless `false` is given.
fn is_lazy(lazy: Option<&Json>) -> bool
    ensures { result ≡ is_lazy (json_view lazy.entry) }
{
    match lazy {
        Some(Json::Bool(lazy)) => *lazy,
        _ => true,
    }
}

/// The groupings that are used: all, or the first alone.
pub(crate) fn used<'w, 'j>(written: &'w Written<'j>) -> &'w [Grouping<'j>]
    ensures { result.now ≡ used_of written.now }
{
    let groupings = written.groupings.as_slice();
    if !written.lazy {
        return groupings;
    }
    &groupings[..groupings.len().min(1)]
}

/// The key under which the number of a group's rows is told.
pub(crate) fn count_key(alloc: Global, written: &Written<'_>) -> Result<String, NoMemory>
    ensures { IfOk result (λ key. string_bytes key ≡ count_key (written_view written.now)) }
{
    match written.first {
        Some(grouping) if written.lazy => {
            let mut key = String::from_str(alloc, grouping.name)?;
            key.push_str("_count")?;
            Ok(key)
        }
        _ => Ok(String::from_str(alloc, "__count")?),
    }
}

/// An argument before it is judged, wherever it is given: at its position, unless that is `null`,
/// else by its name.
fn written_argument<'j>(args: &'j Json, kw: &'j Json, number: usize, name: &str) -> Option<&'j Json>
    ensures { json_view result ≡ written_argument number name.now (view args.now) (view kw.now) }
{
    match item_at(args, number) {
        Some(json) => Some(json),
        None => member_of(kw, name),
    }
}

/// An item of a list, unless it is `null`; no other value has one.
fn item_at<'j>(json: &'j Json, number: usize) -> Option<&'j Json>
    ensures { json_view result ≡ item_at number (view json.now) }
{
    let Json::Array(items) = json else {
        return None;
    };
    not_null(items.as_slice().get(number)?)
}

/// A value, unless it is `null`.
fn not_null(json: &Json) -> Option<&Json>
    ensures { json_view result ≡ not_null (view json.now) }
{
    match json {
        Json::Null => None,
        _ => Some(json),
    }
}

/// The value of a key of an object; no other value has one.
fn member_of<'j>(json: &'j Json, name: &str) -> Option<&'j Json>
    ensures { json_view result ≡ value_of_key name.now (view json.now) }
{
    match json {
        Json::Object(members) => members.get(name),
        _ => None,
    }
}
