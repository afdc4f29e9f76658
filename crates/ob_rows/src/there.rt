//! Which of the rows that a call names are there.

ghost use Rattle.std.specs.Prelude.{◌≡◌, ◌≤◌, Contains, IfErr, IfOk, IfSome, None};
ghost use Rattle.ob_cache.specs.Calls.{Refuses};
ghost use Rattle.ob_cache.specs.Standing.{RestsAt, Stays};
ghost use Rattle.ob_cache.specs.Telling.{TellsFacts};
ghost use Rattle.ob_cache.specs.declared.stages.Phase.TheVariants as phase;
ghost use Rattle.ob_io.specs.Cause.{Rose};
ghost use Rattle.ob_rows.specs.AskingSteps.{AreKnown};
ghost use Rattle.ob_rows.specs.Rights.{rows_named};
ghost use Rattle.ob_rows.specs.There.{MissesOnly};
ghost use Rattle.ob_schema.specs.Facts.{OfAllTold};
ghost use Rattle.ob_schema.specs.Models.{HasModel};
ghost use Rattle.ob_schema.specs.Tables.{Tables};

use ob_base::{ModelNo, RecId, Refusal};
use ob_cache::Engine;
use ob_call::least;
use ob_io::Keeper;

/// The least of some ids that no row of a model has, by what the engine settled last; none where each
/// has one. Refused only where the keeper fails or memory is wanting. The caller sees to it that the
/// engine has settled and that the registry has the model. The engine stays as it was.
pub fn missing_id<K: Keeper>(
    engine: &mut Engine<'_, K>,
    model: ModelNo,
    ids: &[u64],
) -> Result<Option<u64>, Refusal>
    requires model { HasModel engine.old.held.models model }
    requires rest { engine.old.held.phase ≡ phase.Settled }
    ensures told { IfOk result (λ missing. (tables : Tables) → RestsAt (K.kept engine.old.keeper.now) engine.old.held tables → MissesOnly model tables ids.now missing) }
    ensures known { IfOk result (λ missing. missing ≡ None → OfAllTold (TellsFacts (K.kept engine.old.keeper.now) engine.old.held) (AreKnown (rows_named model ids.now))) }
    ensures asked { IfOk result (λ missing. IfSome missing (Contains ids.now)) }
    ensures causes { IfErr result (Refuses (Rose (K.faults engine.old.keeper.now) (K.faults engine.new.keeper.now)) (λ _. ⊥)) }
    ensures same { Stays (K.kept engine.old.keeper.now) engine.old.held (K.kept engine.new.keeper.now) engine.new.held }
    ensures count { K.faults engine.old.keeper.now ≤ K.faults engine.new.keeper.now }
    ensures lender { engine.new.keeper.ghost_name ≡ engine.old.keeper.ghost_name }
{
    let mut missing = None;
    for id in ids {
        let there = is_there(engine, model, RecId(*id))?;
        if !there {
            missing = least(missing, *id);
        }
    }
    Ok(missing)
}

/// Whether a row of a model is there, by what the engine settled last. Refused only where the keeper
/// fails or memory is wanting. The caller sees to it that the engine has settled and that the
/// registry has the model. The engine stays as it was.
pub fn is_there<K: Keeper>(
    engine: &mut Engine<'_, K>,
    model: ModelNo,
    id: RecId,
) -> Result<bool, Refusal>
    requires model { HasModel engine.old.held.models model }
    requires rest { engine.old.held.phase ≡ phase.Settled }
    ensures told { IfOk result (λ there. OfAllTold (TellsFacts (K.kept engine.old.keeper.now) engine.old.held) (λ told. there ≡ told.knows model id)) }
    ensures causes { IfErr result (Refuses (Rose (K.faults engine.old.keeper.now) (K.faults engine.new.keeper.now)) (λ _. ⊥)) }
    ensures same { Stays (K.kept engine.old.keeper.now) engine.old.held (K.kept engine.new.keeper.now) engine.new.held }
    ensures count { K.faults engine.old.keeper.now ≤ K.faults engine.new.keeper.now }
    ensures lender { engine.new.keeper.ghost_name ≡ engine.old.keeper.ghost_name }
{
    Ok(engine.has_row(model, id)?)
}
