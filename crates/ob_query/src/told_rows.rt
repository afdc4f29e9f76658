//! Rows as replies tell them: the object of a row's id and fields, each as the caller sees it, and
//! the objects of rows by their ids. Each call that tells rows goes by these.

ghost use Rattle.std.specs.Prelude.{◌≡◌, false, map, true, All, Contains, IfErr, IfOk, IfSome};
ghost use Rattle.serde_json.specs.View.{items_of, view};
ghost use Rattle.serde_json.specs.Written.{has_float, items_have_float};
ghost use Rattle.ob_access.specs.Policies.{IsPolicyOver};
ghost use Rattle.ob_cache.specs.Calls.{KeeperRose, Refuses, models_at, standpoint};
ghost use Rattle.ob_query.specs.Read.{TellsRow};
ghost use Rattle.ob_query.specs.ReadParts.{TellsCell, TellsOrHides};
ghost use Rattle.ob_query.specs.ReadRows.{AreFetched};
ghost use Rattle.ob_query.specs.SearchQuestions.{OnlyAsked, TellsTo};
ghost use Rattle.ob_call.specs.Columns.{columns_at};
ghost use Rattle.ob_schema.specs.Facts.{OfAllTold};
ghost use Rattle.ob_schema.specs.Models.{HasField, HasModel, model_at};

use crate::caller::Caller;
use crate::searching::questions::{is_known, value_in};
use ob_base::{FieldNo, ModelNo, RecId, Refusal};
use ob_cache::Engine;
use ob_call::{Json, least, put_member};
use ob_codec::to_json;
use ob_io::Keeper;
use serde_json::Map;
use std::alloc::Global;

/// What was fetched of rows by their ids.
#[derive(Drop)]
pub(crate) struct Fetched {
    /// The objects of those that the caller sees, in the order of the ids.
    pub(crate) objects: Vec<Json>,
    /// The least id of a row that he doesn't see.
    pub(crate) hidden: Option<u64>,
}

/// The objects of the rows of these ids, in their order, and the least id of one that the caller
/// doesn't see.
pub(crate) fn fetched_rows<K: Keeper>(
    alloc: Global,
    engine: &mut Engine<'_, K>,
    by: &Caller<'_>,
    model: ModelNo,
    ids: &[u64],
    fields: &[FieldNo],
) -> Result<Fetched, Refusal>
    requires policy { IsPolicyOver (models_at (standpoint K.Keeper engine.old)) by.now.policy.now }
    requires model { HasModel (models_at (standpoint K.Keeper engine.old)) model }
    requires fields { All (HasField (models_at (standpoint K.Keeper engine.old)) model) fields.now }
    ensures told { IfOk result (λ rows. OfAllTold (TellsTo K.Keeper by.now engine.old) (λ told.
        IfSome (model_at (models_at (standpoint K.Keeper engine.old)) model) (λ info. AreFetched told model (columns_at info fields.now) ids.now (map view rows.objects.items) rows.hidden))) }
    ensures hidden { IfOk result (λ rows. IfSome rows.hidden (Contains ids.now)) }
    ensures causes { IfErr result (Refuses (KeeperRose (standpoint K.Keeper engine.old) (standpoint K.Keeper engine.new)) (λ _. ⊥)) }
    ensures plain { IfOk result (λ rows. items_have_float (items_of (map view rows.objects.items)) ≡ false) }
    ensures asked { OnlyAsked K.Keeper engine.old engine.new }
{
    let mut objects = Vec::new(alloc);
    let mut hidden = None;
    for id in ids {
        match row_object(alloc, engine, by, model, fields, RecId(*id))? {
            Some(object) => objects.push(object)?,
            None => hidden = least(hidden, *id),
        }
    }
    Ok(Fetched { objects, hidden })
}

/// The object that tells of a row: its id and these fields; none where the caller doesn't see it.
fn row_object<K: Keeper>(
    alloc: Global,
    engine: &mut Engine<'_, K>,
    by: &Caller<'_>,
    model: ModelNo,
    fields: &[FieldNo],
    id: RecId,
) -> Result<Option<Json>, Refusal>
    requires policy { IsPolicyOver (models_at (standpoint K.Keeper engine.old)) by.now.policy.now }
    requires model { HasModel (models_at (standpoint K.Keeper engine.old)) model }
    requires fields { All (HasField (models_at (standpoint K.Keeper engine.old)) model) fields.now }
    ensures told { IfOk result (λ told. OfAllTold (TellsTo K.Keeper by.now engine.old) (λ seen.
        IfSome (model_at (models_at (standpoint K.Keeper engine.old)) model) (λ info. TellsOrHides seen model (columns_at info fields.now) id told))) }
    ensures causes { IfErr result (Refuses (KeeperRose (standpoint K.Keeper engine.old) (standpoint K.Keeper engine.new)) (λ _. ⊥)) }
    ensures plain { IfOk result (λ told. IfSome told (λ json. has_float (view json) ≡ false)) }
    ensures asked { OnlyAsked K.Keeper engine.old engine.new }
{
    if !is_known(alloc, engine, by, model, id)? {
        return Ok(None);
    }
    let object = known_object(alloc, engine, by, model, fields, id)?;
    Ok(Some(object))
}

/// The object that tells of a row that the caller sees.
fn known_object<K: Keeper>(
    alloc: Global,
    engine: &mut Engine<'_, K>,
    by: &Caller<'_>,
    model: ModelNo,
    fields: &[FieldNo],
    id: RecId,
) -> Result<Json, Refusal>
    requires policy { IsPolicyOver (models_at (standpoint K.Keeper engine.old)) by.now.policy.now }
    requires fields { All (HasField (models_at (standpoint K.Keeper engine.old)) model) fields.now }
    requires known { OfAllTold (TellsTo K.Keeper by.now engine.old) (λ told. told.knows model id ≡ true) }
    ensures told { IfOk result (λ json. OfAllTold (TellsTo K.Keeper by.now engine.old) (λ told.
        IfSome (model_at (models_at (standpoint K.Keeper engine.old)) model) (λ info. TellsRow told model (columns_at info fields.now) id (view json)))) }
    ensures causes { IfErr result (Refuses (KeeperRose (standpoint K.Keeper engine.old) (standpoint K.Keeper engine.new)) (λ _. ⊥)) }
    ensures plain { IfOk result (λ json. has_float (view json) ≡ false) }
    ensures asked { OnlyAsked K.Keeper engine.old engine.new }
{
    let mut members = Map::new(alloc);
    put_member(alloc, &mut members, "id", Json::from(id.0))?;
    for field in fields {
        let field = *field;
        let json = cell_json(alloc, engine, by, model, field, id)?;
        let name = engine.schema().info(model, field).name.as_str();
        put_member(alloc, &mut members, name, json)?;
    }
    Ok(Json::Object(members))
}

/// What the caller sees of a cell, as replies tell it.
fn cell_json<K: Keeper>(
    alloc: Global,
    engine: &mut Engine<'_, K>,
    by: &Caller<'_>,
    model: ModelNo,
    field: FieldNo,
    id: RecId,
) -> Result<Json, Refusal>
    requires policy { IsPolicyOver (models_at (standpoint K.Keeper engine.old)) by.now.policy.now }
    requires field { HasField (models_at (standpoint K.Keeper engine.old)) model field }
    requires known { OfAllTold (TellsTo K.Keeper by.now engine.old) (λ told. told.knows model id ≡ true) }
    ensures told { IfOk result (λ json. OfAllTold (TellsTo K.Keeper by.now engine.old) (λ told. TellsCell told model field id (view json))) }
    ensures causes { IfErr result (Refuses (KeeperRose (standpoint K.Keeper engine.old) (standpoint K.Keeper engine.new)) (λ _. ⊥)) }
    ensures plain { IfOk result (λ json. has_float (view json) ≡ false) }
    ensures asked { OnlyAsked K.Keeper engine.old engine.new }
{
    let value = value_in(alloc, engine, by, model, field, id)?;
    Ok(to_json(alloc, engine.schema(), model, field, &value)?)
}
