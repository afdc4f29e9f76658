//! Groups as replies tell them: of each the groupings as they are written, with what its rows hold
//! for them, the number of its rows, and the aggregates.

ghost use Rattle.std.specs.Prelude.{◌≡◌, [], false, length, map, All, IfOk, List};
ghost use Rattle.ob_base.specs.declared.id.FieldNo.{FieldNo};
ghost use Rattle.ob_base.specs.declared.id.RecId.{RecId};
ghost use Rattle.ob_base.specs.declared.value.Value.{Value};
ghost use Rattle.ob_codec.specs.Held.{HasText};
ghost use Rattle.ob_codec.specs.JsonForm.{IsJsonOf};
ghost use Rattle.ob_group.specs.GroupParts.{AreGathered, AreOrderedGroups, AreSome, HasTexts, IsGroupOf, IsPut, IsWhole, aggregate_view, asked_view, first_rows, group_of, grouping_view, key_at, own_keys, row_of, rows_in, rows_items};
ghost use Rattle.ob_group.specs.GroupValues.{column_of};
ghost use Rattle.ob_group.specs.Groups.{AreTold, TellsAmounts, TellsGroup, TellsKeys};
ghost use Rattle.serde_json.specs.Data.{put};
ghost use Rattle.serde_json.specs.View.{items_of, members_view, view};
ghost use Rattle.serde_json.specs.Written.{has_float, items_have_float, members_have_float};

use crate::aggregates::Aggregate;
use crate::amounts::amount_json;
use crate::asked::AskedGroups;
use crate::gathered::Groups;
use crate::groupings::Grouping;
use ob_base::{NoMemory, Value};
use ob_call::{Json, put_member};
use ob_dates::{day_text, moment_text};
use ob_query::{Key, ids_json, window_of};
use serde_json::Map;
use std::alloc::Global;

/// A group: by what it is ordered, and of each row what it holds for the aggregates.
#[derive(Drop)]
pub(crate) struct Group {
    pub(crate) keys: Vec<Key>,
    pub(crate) rows: Vec<Vec<Value>>,
}

/// The objects of groups: from one on, at most so many.
pub(crate) fn group_objects(
    alloc: Global,
    asked: &AskedGroups<'_>,
    groups: Groups,
) -> Result<Vec<Json>, NoMemory>
    requires { AreSome groups }
    ensures told { IfOk result (λ objects. (held : FieldNo → RecId → Value) → (ids : List RecId) → AreGathered held (asked_view asked.now) ids groups
        → AreTold held (asked_view asked.now) ids (map view objects.items)) }
    ensures plain { IfOk result (λ objects. items_have_float (items_of (map view objects.items)) ≡ false) }
{
    let groups = groups_in_order(alloc, asked, groups)?;
    let mut objects = Vec::new(alloc);
    let window = window_of(groups.as_slice(), asked.offset, asked.limit);
    for group in window {
        let object = group_object(alloc, asked, group)?;
        objects.push(object)?;
    }
    Ok(objects)
}

/// The groups in their order. Without groupings there is one of all rows.
fn groups_in_order(
    alloc: Global,
    asked: &AskedGroups<'_>,
    groups: Groups,
) -> Result<Vec<Group>, NoMemory>
    requires { AreSome groups }
    ensures told { IfOk result (λ list. (held : FieldNo → RecId → Value) → (ids : List RecId) → AreGathered held (asked_view asked.now) ids groups
        → AreOrderedGroups held (asked_view asked.now) ids list.items) }
    ensures texts { IfOk result (λ list. All HasTexts list.items) }
{
    let count = groups.len();
    if asked.groupings().is_empty() {
        return whole_group(alloc, groups);
    }
    listed(alloc, groups, count)
}

/// The one group of all rows, also of none.
fn whole_group(alloc: Global, groups: Groups) -> Result<Vec<Group>, NoMemory>
    ensures { IfOk result (IsWhole groups) }
{
    let rows = first_rows(alloc, groups);
    let mut list = Vec::new(alloc);
    list.push(Group {
        keys: Vec::new(alloc),
        rows,
    })?;
    Ok(list)
}

/// The rows of the first group of a map; of none there are none.
fn first_rows(alloc: Global, groups: Groups) -> Vec<Vec<Value>>
    ensures { rows_in result ≡ first_rows groups.entries }
{
    let mut groups = groups;
    match groups.pop_first() {
        Some((_keys, rows)) => rows,
        None => Vec::new(alloc),
    }
}

/// The groups of a map, in its order, of which there are about so many.
fn listed(alloc: Global, groups: Groups, count: usize) -> Result<Vec<Group>, NoMemory>
    ensures { IfOk result (λ list. list.items ≡ map group_of groups.entries) }
{
    let mut groups = groups;
    let mut list = Vec::with_capacity(alloc, count)?;
    while let Some((keys, rows)) = groups.pop_first() {
        list.push(Group { keys, rows })?;
    }
    Ok(list)
}

/// The object of a group.
fn group_object(alloc: Global, asked: &AskedGroups<'_>, group: &Group) -> Result<Json, NoMemory>
    requires { HasTexts group.now }
    ensures told { IfOk result (λ json. (held : FieldNo → RecId → Value) → (ids : List RecId) → IsGroupOf held (asked_view asked.now) ids group.now
        → TellsGroup held (asked_view asked.now) ids (own_keys (asked_view asked.now) group.now) (view json)) }
    ensures plain { IfOk result (λ json. has_float (view json) ≡ false) }
{
    let mut members = Map::new(alloc);
    put_keys(alloc, &mut members, asked, group)?;
    let rows = group.rows.as_slice();
    put_member(
        alloc,
        &mut members,
        asked.count_key.as_str(),
        Json::from(rows.len()),
    )?;
    put_amounts(alloc, &mut members, asked.aggregates.as_slice(), rows)?;
    Ok(Json::Object(members))
}

/// Puts what a group has for each grouping, which stands behind what it has for the terms.
fn put_keys(
    alloc: Global,
    members: &mut Map<String, Json>,
    asked: &AskedGroups<'_>,
    group: &Group,
) -> Result<(), NoMemory>
    requires texts { HasTexts group.now }
    requires plain { members_have_float (members_view members.old.entries) ≡ false }
    ensures told { IfOk result (λ _. length (own_keys (asked_view asked.now) group.now) ≡ length (asked_view asked.now).groupings
        → TellsKeys (asked_view asked.now).groupings (own_keys (asked_view asked.now) group.now) (members_view members.old.entries) (members_view members.new.entries)) }
    ensures plain { IfOk result (λ _. members_have_float (members_view members.new.entries) ≡ false) }
{
    let keys = group.keys.as_slice();
    let own = &keys[keys.len().min(asked.terms.len())..];
    put_each_key(alloc, members, asked.groupings(), own)
}

/// Puts these keys, each under the text of its grouping.
fn put_each_key(
    alloc: Global,
    members: &mut Map<String, Json>,
    groupings: &[Grouping<'_>],
    keys: &[Key],
) -> Result<(), NoMemory>
    requires texts { All (λ key. HasText key.value) keys.now }
    requires plain { members_have_float (members_view members.old.entries) ≡ false }
    ensures told { IfOk result (λ _. length keys.now ≡ length groupings.now
        → TellsKeys (map grouping_view groupings.now) (map (λ key. key.value) keys.now) (members_view members.old.entries) (members_view members.new.entries)) }
    ensures plain { IfOk result (λ _. members_have_float (members_view members.new.entries) ≡ false) }
{
    for (number, grouping) in groupings.iter().enumerate() {
        let json = key_json_at(alloc, keys, number)?;
        put_key(alloc, members, grouping, json)?;
    }
    Ok(())
}

/// Puts a value under the text of its grouping.
fn put_key(
    alloc: Global,
    members: &mut Map<String, Json>,
    grouping: &Grouping<'_>,
    json: Json,
) -> Result<(), NoMemory>
    ensures { IfOk result (λ _. members_view members.new.entries ≡ put grouping.now.text.now (view json) (members_view members.old.entries)) }
{
    put_member(alloc, members, grouping.text, json)
}

/// Puts the aggregates of a group's rows.
fn put_amounts(
    alloc: Global,
    members: &mut Map<String, Json>,
    aggregates: &[Aggregate<'_>],
    rows: &[Vec<Value>],
) -> Result<(), NoMemory>
    requires { members_have_float (members_view members.old.entries) ≡ false }
    ensures told { IfOk result (λ _. (held : FieldNo → RecId → Value) → (ids : List RecId) → rows_items rows.now ≡ map (row_of held (map aggregate_view aggregates.now)) ids
        → TellsAmounts held ids (map aggregate_view aggregates.now) (members_view members.old.entries) (members_view members.new.entries)) }
    ensures plain { IfOk result (λ _. members_have_float (members_view members.new.entries) ≡ false) }
{
    for (number, aggregate) in aggregates.iter().enumerate() {
        put_amount(alloc, members, aggregate, rows, number)?;
    }
    Ok(())
}

/// Puts what an aggregate makes of what rows hold at a number.
fn put_amount(
    alloc: Global,
    members: &mut Map<String, Json>,
    aggregate: &Aggregate<'_>,
    rows: &[Vec<Value>],
    number: usize,
) -> Result<(), NoMemory>
    requires { members_have_float (members_view members.old.entries) ≡ false }
    ensures told { IfOk result (λ _. IsPut aggregate.now (column_of number rows.now) (members_view members.old.entries) (members_view members.new.entries)) }
    ensures plain { IfOk result (λ _. members_have_float (members_view members.new.entries) ≡ false) }
{
    let json = amount_json(alloc, aggregate.amount, rows, number)?;
    put_member(alloc, members, aggregate.key, json)
}

/// The JSON of the key at a number; unset where there is none.
fn key_json_at(alloc: Global, keys: &[Key], number: usize) -> Result<Json, NoMemory>
    requires { All (λ key. HasText key.value) keys.now }
    ensures told { IfOk result (λ json. IsJsonOf (key_at keys.now number).value (view json)) }
    ensures plain { IfOk result (λ json. has_float (view json) ≡ false) }
{
    match keys.get(number) {
        Some(key) => key_json(alloc, &key.value),
        None => Ok(Json::Bool(false)),
    }
}

/// The JSON of what a group has for a grouping.
fn key_json(alloc: Global, value: &Value) -> Result<Json, NoMemory>
    requires { HasText value.now }
    ensures told { IfOk result (λ json. IsJsonOf value.now (view json)) }
    ensures plain { IfOk result (λ json. has_float (view json) ≡ false) }
{
    match value {
        Value::Nil => Ok(Json::Bool(false)),
        Value::Bool(flag) => Ok(Json::Bool(*flag)),
        Value::Int(number) => Ok(Json::from(*number)),
        Value::Word(word) => Ok(Json::try_from_str(alloc, word.as_str())?),
        Value::Day(day) => Ok(Json::String(day_text(alloc, *day)?.into_string())),
        Value::Moment(moment) => Ok(Json::String(moment_text(alloc, *moment)?.into_string())),
        Value::Ref(id) => Ok(Json::from(id.0)),
        Value::Refs(ids) => ids_json(alloc, ids.as_slice()),
    }
}
