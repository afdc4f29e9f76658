//! Rows gathered by their groups: of each row that is found it is asked once what the caller sees of it
//! for the groupings, by which it goes to its group, and for the aggregates.

ghost use Rattle.std.specs.Prelude.{◌≡◌, ◌++◌, ◌∷◌, [], if◌then◌else◌, ◌||◌, List, is_some, map, true, All, IfErr, IfOk, None};
ghost use Rattle.ob_access.specs.Policies.{IsPolicyOver};
ghost use Rattle.ob_cache.specs.Calls.{HasTables, models_at, standpoint};
ghost use Rattle.ob_cache.specs.declared.stages.Phase.TheVariants as phase;
ghost use Rattle.ob_codec.specs.Held.{HasText};
ghost use Rattle.ob_group.specs.GroupParts.{AreGathered, AreSome, IsAskedOver, aggregate_view, asked_view, group_at, grouping_view, is_alike, row_of, rows_at, rows_in, sort_keys, sort_keys_of, term_key, term_view};
ghost use Rattle.ob_group.specs.GroupPeriods.{group_value};
ghost use Rattle.ob_group.specs.Groups.{keys_of};
ghost use Rattle.ob_query.specs.Search.{held_of};
ghost use Rattle.ob_query.specs.SearchParts.{found_ahead, found_by, told_to};
ghost use Rattle.ob_query.specs.SearchQuestions.{IsUnanswered, OnlyAsked, TellsTo};
ghost use Rattle.ob_query.specs.declared.searching.order.Key.{Key};
ghost use Rattle.ob_schema.specs.Facts.{OfAllTold};
ghost use Rattle.ob_schema.specs.Models.{HasField};
ghost use Rattle.ob_schema.specs.Tables.{Tables};

use crate::aggregates::Aggregate;
use crate::amounts::value_at;
use crate::asked::AskedGroups;
use crate::groupings::Grouping;
use crate::period::group_value;
use crate::terms::GroupTerm;
use ob_base::{FieldNo, ModelNo, NoMemory, RecId, Value};
use ob_cache::Engine;
use ob_io::{KeepFault, Keeper};
use ob_query::{Caller, Key, Walk, next_found, rising, value_in};
use std::alloc::Global;
use std::collections::BTreeMap;

/// The rows of groups by what these are ordered by: of each row what it holds for the aggregates.
pub(crate) type Groups = BTreeMap<Vec<Key>, Vec<Vec<Value>>>;

/// All rows that are found, by their groups.
pub(crate) fn gathered<K: Keeper>(
    alloc: Global,
    engine: &mut Engine<'_, K>,
    asked: &AskedGroups<'_>,
) -> Result<Groups, KeepFault>
    requires over { IsAskedOver (models_at (standpoint K.Keeper engine.old)) asked.now }
    requires rest { (standpoint K.Keeper engine.old).held.phase ≡ phase.Settled }
    ensures told { IfOk result (λ groups. (tables : Tables) → HasTables (standpoint K.Keeper engine.old) tables
        → AreGathered (held_of (told_to (models_at (standpoint K.Keeper engine.old)) tables asked.now.sought) asked.now.sought.model) (asked_view asked.now)
        (found_by (models_at (standpoint K.Keeper engine.old)) tables asked.now.sought) groups) }
    ensures some { IfOk result AreSome }
    ensures asked { OnlyAsked K.Keeper engine.old engine.new }
    ensures causes { IfErr result (IsUnanswered K.Keeper engine.old engine.new) }
{
    // The law of the registry.
    engine.schema().parts_fit_together();
    let mut walk = Walk::new(alloc);
    gathered_from(alloc, engine, asked, &mut walk)
}

/// The rows that are found from where the walk stands, by their groups.
fn gathered_from<K: Keeper>(
    alloc: Global,
    engine: &mut Engine<'_, K>,
    asked: &AskedGroups<'_>,
    walk: &mut Walk,
) -> Result<Groups, KeepFault>
    requires over { IsAskedOver (models_at (standpoint K.Keeper engine.old)) asked.now }
    requires rest { (standpoint K.Keeper engine.old).held.phase ≡ phase.Settled }
    ensures told { IfOk result (λ groups. (tables : Tables) → HasTables (standpoint K.Keeper engine.old) tables
        → AreGathered (held_of (told_to (models_at (standpoint K.Keeper engine.old)) tables asked.now.sought) asked.now.sought.model) (asked_view asked.now)
        (found_ahead (models_at (standpoint K.Keeper engine.old)) tables asked.now.sought walk.old) groups) }
    ensures some { IfOk result AreSome }
    ensures asked { OnlyAsked K.Keeper engine.old engine.new }
    ensures causes { IfErr result (IsUnanswered K.Keeper engine.old engine.new) }
{
    let mut groups = BTreeMap::new(alloc);
    while let Some(id) = next_found(alloc, engine, &asked.sought, walk)? {
        let keys = keys_of_row(alloc, engine, asked, id)?;
        let row = row_values(
            alloc,
            engine,
            &asked.sought.by,
            asked.sought.model,
            asked.aggregates.as_slice(),
            id,
        )?;
        add(alloc, &mut groups, keys, row)?;
    }
    Ok(groups)
}

/// By what the group of a row is ordered.
fn keys_of_row<K: Keeper>(
    alloc: Global,
    engine: &mut Engine<'_, K>,
    asked: &AskedGroups<'_>,
    id: RecId,
) -> Result<Vec<Key>, KeepFault>
    requires over { IsAskedOver (models_at (standpoint K.Keeper engine.old)) asked.now }
    requires known { OfAllTold (TellsTo K.Keeper asked.now.sought.by engine.old) (λ told. told.knows asked.now.sought.model id ≡ true) }
    ensures told { IfOk result (λ keys. OfAllTold (TellsTo K.Keeper asked.now.sought.by engine.old)
        (λ told. keys.items ≡ sort_keys_of (held_of told asked.now.sought.model) (asked_view asked.now) id)) }
    ensures texts { IfOk result (λ keys. All (λ key. HasText key.value) keys.items) }
    ensures asked { OnlyAsked K.Keeper engine.old engine.new }
    ensures causes { IfErr result (IsUnanswered K.Keeper engine.old engine.new) }
{
    let values = group_values(
        alloc,
        engine,
        &asked.sought.by,
        asked.sought.model,
        asked.groupings(),
        id,
    )?;
    Ok(sort_keys(alloc, asked.terms.as_slice(), values.as_slice())?)
}

/// What the groupings make of a row that is there.
fn group_values<K: Keeper>(
    alloc: Global,
    engine: &mut Engine<'_, K>,
    by: &Caller<'_>,
    model: ModelNo,
    groupings: &[Grouping<'_>],
    id: RecId,
) -> Result<Vec<Value>, KeepFault>
    requires policy { IsPolicyOver (models_at (standpoint K.Keeper engine.old)) by.now.policy.now }
    requires fields { All (λ g. HasField (models_at (standpoint K.Keeper engine.old)) model g.field) groupings.now }
    requires known { OfAllTold (TellsTo K.Keeper by.now engine.old) (λ told. told.knows model id ≡ true) }
    ensures told { IfOk result (λ values. OfAllTold (TellsTo K.Keeper by.now engine.old)
        (λ told. values.items ≡ keys_of (held_of told model) (map grouping_view groupings.now) id)) }
    ensures texts { IfOk result (λ values. All HasText values.items) }
    ensures asked { OnlyAsked K.Keeper engine.old engine.new }
    ensures causes { IfErr result (IsUnanswered K.Keeper engine.old engine.new) }
{
    let mut values = Vec::new(alloc);
    for grouping in groupings {
        let value = value_in(alloc, engine, by, model, field_of(grouping), id)?;
        values.push(grouped(grouping, value))?;
    }
    Ok(values)
}

/// The field of a grouping.
fn field_of(grouping: &Grouping<'_>) -> FieldNo
    ensures { result ≡ grouping.now.field }
{
    grouping.field
}

/// What a grouping makes of a value.
fn grouped(grouping: &Grouping<'_>, value: Value) -> Value
    requires { HasText value }
    ensures value { result ≡ group_value grouping.now.period value }
    ensures text { HasText result }
{
    group_value(grouping.period, value)
}

/// What a row that is there holds for the aggregates.
fn row_values<K: Keeper>(
    alloc: Global,
    engine: &mut Engine<'_, K>,
    by: &Caller<'_>,
    model: ModelNo,
    aggregates: &[Aggregate<'_>],
    id: RecId,
) -> Result<Vec<Value>, KeepFault>
    requires policy { IsPolicyOver (models_at (standpoint K.Keeper engine.old)) by.now.policy.now }
    requires fields { All (λ a. HasField (models_at (standpoint K.Keeper engine.old)) model a.field) aggregates.now }
    requires known { OfAllTold (TellsTo K.Keeper by.now engine.old) (λ told. told.knows model id ≡ true) }
    ensures told { IfOk result (λ values. OfAllTold (TellsTo K.Keeper by.now engine.old)
        (λ told. values.items ≡ row_of (held_of told model) (map aggregate_view aggregates.now) id)) }
    ensures asked { OnlyAsked K.Keeper engine.old engine.new }
    ensures causes { IfErr result (IsUnanswered K.Keeper engine.old engine.new) }
{
    let mut values = Vec::new(alloc);
    for aggregate in aggregates {
        let value = value_in(alloc, engine, by, model, told_field(aggregate), id)?;
        values.push(value)?;
    }
    Ok(values)
}

/// The field of an aggregate.
fn told_field(aggregate: &Aggregate<'_>) -> FieldNo
    ensures { result ≡ aggregate.now.field }
{
    aggregate.field
}

/// By what a group is ordered: its values for the terms, and then all.
fn sort_keys(alloc: Global, terms: &[GroupTerm], values: &[Value]) -> Result<Vec<Key>, NoMemory>
    requires { All HasText values.now }
    ensures keys { IfOk result (λ keys. keys.items ≡ sort_keys (map term_view terms.now) values.now) }
    ensures texts { IfOk result (λ keys. All (λ key. HasText key.value) keys.items) }
{
    let mut keys = term_keys(alloc, terms, values)?;
    for value in values {
        let value = value.try_clone(alloc)?;
        keys.push(rising(value))?;
    }
    Ok(keys)
}

/// The values of a group for the terms.
fn term_keys(alloc: Global, terms: &[GroupTerm], values: &[Value]) -> Result<Vec<Key>, NoMemory>
    requires { All HasText values.now }
    ensures keys { IfOk result (λ keys. keys.items ≡ map (term_key values.now) terms.now) }
    ensures texts { IfOk result (λ keys. All (λ key. HasText key.value) keys.items) }
{
    let mut keys = Vec::new(alloc);
    for term in terms {
        let key = term_key(alloc, term, values)?;
        keys.push(key)?;
    }
    Ok(keys)
}

/// The value of a group for a term.
fn term_key(alloc: Global, term: &GroupTerm, values: &[Value]) -> Result<Key, NoMemory>
    requires { All HasText values.now }
    ensures key { IfOk result (λ key. key ≡ term_key values.now term.now) }
    ensures text { IfOk result (λ key. HasText key.value) }
{
    let value = value_at(alloc, values, term.number)?;
    Ok(Key {
        descending: term.descending,
        value,
    })
}

/// Adds a row to its group.
fn add(alloc: Global, groups: &mut Groups, keys: Vec<Key>, row: Vec<Value>) -> Result<(), NoMemory>
    ensures rows { IfOk result (λ _. (at : List Key) → rows_at groups.new at ≡ rows_at groups.old at ++ (if is_alike keys.items at then row.items ∷ [] else [])) }
    ensures groups { IfOk result (λ _. (at : List Key) → is_some (group_at groups.new at) ≡ (is_alike keys.items at || is_some (group_at groups.old at))) }
{
    let mut rows = taken_rows(alloc, groups, &keys);
    rows.push(row)?;
    groups.insert(keys, rows)?;
    Ok(())
}

/// The rows of a group, which is taken out of the map; of one that isn't there there are none.
fn taken_rows(alloc: Global, groups: &mut Groups, keys: &Vec<Key>) -> Vec<Vec<Value>>
    ensures rows { rows_in result ≡ rows_at groups.old keys.now.items }
    ensures groups { (at : List Key) → group_at groups.new at
        ≡ (if is_alike keys.now.items at then None else group_at groups.old at) }
{
    match groups.remove(keys) {
        Some(rows) => rows,
        None => Vec::new(alloc),
    }
}
