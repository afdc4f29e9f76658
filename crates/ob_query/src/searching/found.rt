//! The rows that a search finds, of those that the caller sees: as many as are answered, and no more of them, where their order
//! is that of their ids; else all, with what they are ordered by, which is read once of each.

ghost use Rattle.std.specs.Prelude.{◌≡◌, ◌≢◌, ◌^◌, ◌-◌, ◌<◌, true, drop, length, map, IfErr, IfOk, IfSome, OnOk};
ghost use Rattle.ob_cache.specs.Calls.{HasTables, models_at, standpoint};
ghost use Rattle.ob_cache.specs.declared.stages.Phase.TheVariants as phase;
ghost use Rattle.ob_query.specs.Search.{held_of, is_shown};
ghost use Rattle.ob_query.specs.SearchKeys.{key_of};
ghost use Rattle.ob_query.specs.SearchOrder.{limited};
ghost use Rattle.ob_query.specs.SearchParts.{AreFound, AreRanked, IsSoughtOver, found_ahead, found_by, is_known_found, sought_view};
ghost use Rattle.ob_query.specs.SearchQuestions.{IsTaken, IsUnanswered, OnlyAsked, TellsTo, distance};
ghost use Rattle.ob_schema.specs.Facts.{OfAllTold};
ghost use Rattle.ob_schema.specs.Tables.{Tables};

use crate::searching::order::{Key, Ranked, ids_in_order};
use crate::searching::questions::{is_known, meets, value_in};
use crate::searching::sought::Sought;
use crate::searching::walk::Walk;
use ob_base::{RecId, Value};
use ob_cache::Engine;
use ob_io::{KeepFault, Keeper};
use std::alloc::Global;

/// The ids of the rows that are sought, in their order, from the first that is asked for on and as
/// many as are.
pub fn sought_ids<K: Keeper>(
    alloc: Global,
    engine: &mut Engine<'_, K>,
    sought: &Sought<'_>,
) -> Result<Vec<RecId>, KeepFault>
    requires over { IsSoughtOver (models_at (standpoint K.Keeper engine.old)) sought.now }
    requires rest { (standpoint K.Keeper engine.old).held.phase ≡ phase.Settled }
    ensures told { IfOk result (λ ids. (tables : Tables) → HasTables (standpoint K.Keeper engine.old) tables
        → AreFound (models_at (standpoint K.Keeper engine.old)) tables sought.now ids.items) }
    ensures asked { OnlyAsked K.Keeper engine.old engine.new }
    ensures causes { IfErr result (IsUnanswered K.Keeper engine.old engine.new) }
{
    // The law of the registry.
    engine.schema().parts_fit_together();
    let mut walk = Walk::new(alloc);
    if sought.order.is_empty() {
        skip_found(alloc, engine, sought, &mut walk)?;
        return first_found(alloc, engine, sought, &mut walk);
    }
    let rows = ranked_found(alloc, engine, sought, &mut walk)?;
    Ok(ids_in_order(alloc, rows, sought.offset, sought.limit)?)
}

/// Passes over as many of the rows that are found as the search leaves out at the front.
fn skip_found<K: Keeper>(
    alloc: Global,
    engine: &mut Engine<'_, K>,
    sought: &Sought<'_>,
    walk: &mut Walk,
) -> Result<(), KeepFault>
    requires over { IsSoughtOver (models_at (standpoint K.Keeper engine.old)) sought.now }
    requires rest { (standpoint K.Keeper engine.old).held.phase ≡ phase.Settled }
    ensures told { OnOk result ((tables : Tables) → HasTables (standpoint K.Keeper engine.old) tables
        → found_ahead (models_at (standpoint K.Keeper engine.old)) tables sought.now walk.new
        ≡ drop sought.now.offset (found_ahead (models_at (standpoint K.Keeper engine.old)) tables sought.now walk.old)) }
    ensures asked { OnlyAsked K.Keeper engine.old engine.new }
    ensures causes { IfErr result (IsUnanswered K.Keeper engine.old engine.new) }
{
    for _skipped in 0..sought.offset {
        if next_found(alloc, engine, sought, walk)?.is_none() {
            return Ok(());
        }
    }
    Ok(())
}

/// The ids of the next rows that are found, as many as are asked for.
fn first_found<K: Keeper>(
    alloc: Global,
    engine: &mut Engine<'_, K>,
    sought: &Sought<'_>,
    walk: &mut Walk,
) -> Result<Vec<RecId>, KeepFault>
    requires over { IsSoughtOver (models_at (standpoint K.Keeper engine.old)) sought.now }
    requires rest { (standpoint K.Keeper engine.old).held.phase ≡ phase.Settled }
    ensures told { IfOk result (λ ids. (tables : Tables) → HasTables (standpoint K.Keeper engine.old) tables
        → ids.items ≡ limited sought.now.limit (found_ahead (models_at (standpoint K.Keeper engine.old)) tables sought.now walk.old)) }
    ensures asked { OnlyAsked K.Keeper engine.old engine.new }
    ensures causes { IfErr result (IsUnanswered K.Keeper engine.old engine.new) }
{
    let mut ids = Vec::new(alloc);
    while let Some(id) = next_found(alloc, engine, sought, walk)? {
        ids.push(id)?;
        if ids.len() as u64 == sought.limit {
            return Ok(ids);
        }
    }
    Ok(ids)
}

/// How many rows are found, counted no further than is asked for.
pub fn count_found<K: Keeper>(
    alloc: Global,
    engine: &mut Engine<'_, K>,
    sought: &Sought<'_>,
) -> Result<u64, KeepFault>
    requires over { IsSoughtOver (models_at (standpoint K.Keeper engine.old)) sought.now }
    requires rest { (standpoint K.Keeper engine.old).held.phase ≡ phase.Settled }
    ensures told { IfOk result (λ count. (tables : Tables) → HasTables (standpoint K.Keeper engine.old) tables
        → count ≡ length (limited sought.now.limit (found_by (models_at (standpoint K.Keeper engine.old)) tables sought.now))) }
    ensures asked { OnlyAsked K.Keeper engine.old engine.new }
    ensures causes { IfErr result (IsUnanswered K.Keeper engine.old engine.new) }
{
    let most = most_of(sought.limit);
    // The law of the registry.
    engine.schema().parts_fit_together();
    let mut walk = Walk::new(alloc);
    for count in 0..most {
        if next_found(alloc, engine, sought, &mut walk)?.is_none() {
            return Ok(count);
        }
    }
    Ok(most)
}

/// How many rows are counted at most by a limit.
fn most_of(limit: u64) -> u64
    ensures all { limit ≡ 0 → result ≡ 2 ^ 64 - 1 }
    ensures some { limit ≢ 0 → result ≡ limit }
{
    if limit == 0 { u64::MAX } else { limit }
}

/// All rows that are found from where the walk stands, with what they are ordered by.
fn ranked_found<K: Keeper>(
    alloc: Global,
    engine: &mut Engine<'_, K>,
    sought: &Sought<'_>,
    walk: &mut Walk,
) -> Result<Vec<Ranked>, KeepFault>
    requires over { IsSoughtOver (models_at (standpoint K.Keeper engine.old)) sought.now }
    requires rest { (standpoint K.Keeper engine.old).held.phase ≡ phase.Settled }
    ensures told { IfOk result (λ rows. (tables : Tables) → HasTables (standpoint K.Keeper engine.old) tables
        → AreRanked (models_at (standpoint K.Keeper engine.old)) tables sought.now (found_ahead (models_at (standpoint K.Keeper engine.old)) tables sought.now walk.old) rows.items) }
    ensures asked { OnlyAsked K.Keeper engine.old engine.new }
    ensures causes { IfErr result (IsUnanswered K.Keeper engine.old engine.new) }
{
    let mut rows = Vec::new(alloc);
    while let Some(id) = next_found(alloc, engine, sought, walk)? {
        let keys = keys_of(alloc, engine, sought, id)?;
        rows.push(Ranked { keys, id })?;
    }
    Ok(rows)
}

/// What a row that is found holds for each term of the order.
fn keys_of<K: Keeper>(
    alloc: Global,
    engine: &mut Engine<'_, K>,
    sought: &Sought<'_>,
    id: RecId,
) -> Result<Vec<Key>, KeepFault>
    requires over { IsSoughtOver (models_at (standpoint K.Keeper engine.old)) sought.now }
    requires known { OfAllTold (TellsTo K.Keeper sought.now.by engine.old) (λ told. told.knows sought.now.model id ≡ true) }
    ensures told { IfOk result (λ keys. OfAllTold (TellsTo K.Keeper sought.now.by engine.old)
        (λ told. keys.items ≡ map (key_of (held_of told sought.now.model) id) sought.now.order)) }
    ensures asked { OnlyAsked K.Keeper engine.old engine.new }
    ensures causes { IfErr result (IsUnanswered K.Keeper engine.old engine.new) }
{
    let mut keys = Vec::new(alloc);
    for term in sought.order.as_slice() {
        let value = value_in(alloc, engine, &sought.by, sought.model, term.field, id)?;
        let descending = term.descending;
        keys.push(Key { descending, value })?;
    }
    Ok(keys)
}

/// The next row that is found.
pub fn next_found<K: Keeper>(
    alloc: Global,
    engine: &mut Engine<'_, K>,
    sought: &Sought<'_>,
    walk: &mut Walk,
) -> Result<Option<RecId>, KeepFault>
    requires over { IsSoughtOver (models_at (standpoint K.Keeper engine.old)) sought.now }
    requires rest { (standpoint K.Keeper engine.old).held.phase ≡ phase.Settled }
    ensures told { IfOk result (λ next. (tables : Tables) → HasTables (standpoint K.Keeper engine.old) tables
        → IsTaken next (found_ahead (models_at (standpoint K.Keeper engine.old)) tables sought.now walk.old) (found_ahead (models_at (standpoint K.Keeper engine.old)) tables sought.now walk.new)) }
    ensures known { IfOk result (λ next. IfSome next (λ id. OfAllTold (TellsTo K.Keeper sought.now.by engine.new) (λ told. told.knows sought.now.model id ≡ true))) }
    ensures nearer { IfOk result (λ next. IfSome next (λ _. distance walk.new < distance walk.old)) }
    ensures asked { OnlyAsked K.Keeper engine.old engine.new }
    ensures causes { IfErr result (IsUnanswered K.Keeper engine.old engine.new) }
{
    loop {
        let Some(id) = walk.next(engine, sought.model)? else {
            return Ok(None);
        };
        if is_found(alloc, engine, sought, id)? {
            return Ok(Some(id));
        }
    }
}

/// Whether a row is found: the caller sees it, it is active where that is asked for, and meets the domain.
fn is_found<K: Keeper>(
    alloc: Global,
    engine: &mut Engine<'_, K>,
    sought: &Sought<'_>,
    id: RecId,
) -> Result<bool, KeepFault>
    requires over { IsSoughtOver (models_at (standpoint K.Keeper engine.old)) sought.now }
    ensures told { IfOk result (λ b. OfAllTold (TellsTo K.Keeper sought.now.by engine.old)
        (λ told. b ≡ is_known_found told sought.now id)) }
    ensures asked { OnlyAsked K.Keeper engine.old engine.new }
    ensures causes { IfErr result (IsUnanswered K.Keeper engine.old engine.new) }
{
    if !is_known(alloc, engine, &sought.by, sought.model, id)? {
        return Ok(false);
    }
    if !is_shown(alloc, engine, sought, id)? {
        return Ok(false);
    }
    meets(alloc, engine, sought, id)
}

/// Whether the field that is asked for is true in a row that is there, if one is.
fn is_shown<K: Keeper>(
    alloc: Global,
    engine: &mut Engine<'_, K>,
    sought: &Sought<'_>,
    id: RecId,
) -> Result<bool, KeepFault>
    requires over { IsSoughtOver (models_at (standpoint K.Keeper engine.old)) sought.now }
    requires known { OfAllTold (TellsTo K.Keeper sought.now.by engine.old) (λ told. told.knows sought.now.model id ≡ true) }
    ensures told { IfOk result (λ b. OfAllTold (TellsTo K.Keeper sought.now.by engine.old) (λ told. b ≡ is_shown told sought.now.model (sought_view sought.now) id)) }
    ensures asked { OnlyAsked K.Keeper engine.old engine.new }
    ensures causes { IfErr result (IsUnanswered K.Keeper engine.old engine.new) }
{
    match sought.active {
        Some(field) => Ok(matches!(
            value_in(alloc, engine, &sought.by, sought.model, field, id)?,
            Value::Bool(true)
        )),
        None => Ok(true),
    }
}
