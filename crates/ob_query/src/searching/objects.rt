//! The objects of the rows that a search finds: each is told as a `read` tells it. A row that is
//! found is one that the caller sees, so none is left out where the keeper tells its rows.

ghost use Rattle.std.specs.Prelude.{◌≡◌, false, map, All, IfErr, IfOk, IfSome};
ghost use Rattle.serde_json.specs.View.{view};
ghost use Rattle.serde_json.specs.Written.{has_float};
ghost use Rattle.ob_cache.specs.Calls.{KeeperRose, Refuses, models_at, standpoint};
ghost use Rattle.ob_call.specs.Columns.{columns_at};
ghost use Rattle.ob_query.specs.ReadRows.{ListsRows};
ghost use Rattle.ob_query.specs.SearchParts.{HaveRows, IsSoughtOver};
ghost use Rattle.ob_query.specs.SearchQuestions.{OnlyAsked, TellsTo};
ghost use Rattle.ob_schema.specs.Facts.{OfAllTold};
ghost use Rattle.ob_schema.specs.Models.{HasField, model_at};

use crate::searching::sought::SoughtObjects;
use crate::told_rows::fetched_rows;
use ob_base::{NoMemory, RecId, Refusal};
use ob_cache::Engine;
use ob_call::Json;
use ob_io::Keeper;
use std::alloc::Global;

/// The answer that has the objects of these rows, in the order of their ids.
pub(crate) fn objects_told<K: Keeper>(
    alloc: Global,
    engine: &mut Engine<'_, K>,
    asked: &SoughtObjects<'_>,
    ids: &[RecId],
) -> Result<Json, Refusal>
    requires over { IsSoughtOver (models_at (standpoint K.Keeper engine.old)) asked.now.sought }
    requires fields { All (HasField (models_at (standpoint K.Keeper engine.old)) asked.now.sought.model) asked.now.fields.items }
    ensures told { IfOk result (λ json. OfAllTold (TellsTo K.Keeper asked.now.sought.by engine.old) (λ told. HaveRows told asked.now.sought.model ids.now
        → IfSome (model_at (models_at (standpoint K.Keeper engine.old)) asked.now.sought.model) (λ info. ListsRows told asked.now.sought.model (columns_at info asked.now.fields.items) (map (λ id. id.0) ids.now) (view json)))) }
    ensures causes { IfErr result (Refuses (KeeperRose (standpoint K.Keeper engine.old) (standpoint K.Keeper engine.new)) (λ _. ⊥)) }
    ensures plain { IfOk result (λ json. has_float (view json) ≡ false) }
    ensures asked { OnlyAsked K.Keeper engine.old engine.new }
{
    let ids = numbers_of(alloc, ids)?;
    let sought = &asked.sought;
    let fields = asked.fields.as_slice();
    let rows = fetched_rows(
        alloc,
        engine,
        &sought.by,
        sought.model,
        ids.as_slice(),
        fields,
    )?;
    Ok(Json::Array(rows.objects))
}

/// The numbers that ids are.
fn numbers_of(alloc: Global, ids: &[RecId]) -> Result<Vec<u64>, NoMemory>
    ensures { IfOk result (λ numbers. numbers.items ≡ map (λ id. id.0) ids.now) }
{
    Ok(ids.iter().map(|id| id.0).collect(alloc)?)
}
