//! How a call's edits are settled: all of them, or none. Each call that changes rows makes its
//! edits and hands them here once.

ghost use Rattle.std.specs.Prelude.{◌≡◌, ◌≤◌, ℕ, All, IfErr, OnErr, OnOk};
ghost use Rattle.ob_base.specs.Tally.{ticked_times};
ghost use Rattle.ob_base.specs.declared.id.ModelNo.{ModelNo};
ghost use Rattle.ob_cache.specs.Calls.{Refuses};
ghost use Rattle.ob_cache.specs.Stages.{resting, settled_of, with_edits};
ghost use Rattle.ob_cache.specs.Standing.{IsAtRest, NextIdsUpTo, OfStages, RestsAt, Stands, max_next_id};
ghost use Rattle.ob_cache.specs.declared.stages.Phase.TheVariants as phase;
ghost use Rattle.ob_io.specs.Cause.{Rose};
ghost use Rattle.ob_rows.specs.Settling.{BreaksField, IsBrokenBy, KeepsTables};
ghost use Rattle.ob_schema.specs.Tables.{Tables};
ghost use Rattle.ob_tables.specs.After.{after};
ghost use Rattle.ob_tables.specs.Changes.{MakesBelow};
ghost use Rattle.ob_tables.specs.Fitting.{IsFitEdit};

use ob_base::{Ledger, Refusal, Steps};
use ob_cache::Engine;
use ob_io::Keeper;
use ob_tables::Edit;

/// Settles the engine with all of these edits, one behind another; it isn't flushed. Where the tables
/// with them break something the refusal names one thing that they break, by its cell; where the
/// keeper fails or memory is wanting it says so; and the engine rests as it did. The caller sees to it
/// that the engine rests, that each edit fits the registry, and that no row is made under an id past
/// the greatest next id that can be kept.
pub fn settle_edits<K: Keeper, L: Ledger>(
    engine: &mut Engine<'_, K>,
    edits: &[Edit],
    steps: &mut Steps<L>,
) -> Result<(), Refusal>
    requires fit { All (IsFitEdit engine.old.held.models) edits.now }
    requires below { (model : ModelNo) → All (MakesBelow model max_next_id) edits.now }
    requires rest { IsAtRest engine.old.held.models engine.old.held }
    ensures settled { OnOk result ((tables : Tables) → RestsAt (K.kept engine.old.keeper.now) engine.old.held tables
        → Stands (K.kept engine.new.keeper.now) engine.new.held (settled_of (with_edits (resting engine.old.held.models tables) edits.now))) }
    ensures refused { IfErr result (λ why. (tables : Tables) → RestsAt (K.kept engine.old.keeper.now) engine.old.held tables
        → RestsAt (K.kept engine.new.keeper.now) engine.new.held tables
        × Refuses (Rose (K.faults engine.old.keeper.now) (K.faults engine.new.keeper.now)) (IsBrokenBy engine.old.held.models (after engine.old.held.models tables edits.now)) why) }
    ensures causes { IfErr result (Refuses (Rose (K.faults engine.old.keeper.now) (K.faults engine.new.keeper.now)) (BreaksField engine.old.held.models)) }
    ensures models { engine.new.held.models ≡ engine.old.held.models }
    ensures phase { engine.new.held.phase ≡ phase.Settled }
    ensures next_ids { NextIdsUpTo max_next_id engine.new.held }
    ensures count { K.faults engine.old.keeper.now ≤ K.faults engine.new.keeper.now }
    ensures ticks { (n : ℕ) × (steps.new ≡ ticked_times n L.noted steps.old) }
    ensures same { K.kept engine.new.keeper.now ≡ K.kept engine.old.keeper.now }
    ensures lender { engine.new.keeper.ghost_name ≡ engine.old.keeper.ghost_name }
{
    let settled = stage_edits(engine, edits, steps);
    if settled.is_err() {
        engine.forget();
    }
    settled
}

/// Stages edits and settles. After a refusal the engine is spoiled.
fn stage_edits<K: Keeper, L: Ledger>(
    engine: &mut Engine<'_, K>,
    edits: &[Edit],
    steps: &mut Steps<L>,
) -> Result<(), Refusal>
    requires fit { All (IsFitEdit engine.old.held.models) edits.now }
    requires below { (model : ModelNo) → All (MakesBelow model max_next_id) edits.now }
    requires rest { IsAtRest engine.old.held.models engine.old.held }
    ensures settled { OnOk result (OfStages (K.kept engine.old.keeper.now) engine.old.held
        (λ at. Stands (K.kept engine.new.keeper.now) engine.new.held (settled_of (with_edits at edits.now)))) }
    ensures phase { OnOk result (engine.new.held.phase ≡ phase.Settled) }
    ensures next_ids { OnOk result (NextIdsUpTo max_next_id engine.new.held) }
    ensures refused { IfErr result (λ why. OfStages (K.kept engine.old.keeper.now) engine.old.held
        (λ at. Refuses (Rose (K.faults engine.old.keeper.now) (K.faults engine.new.keeper.now)) (IsBrokenBy at.models (after at.models at.staged edits.now)) why)) }
    ensures spoiled { OnErr result ((tables : Tables) → RestsAt (K.kept engine.old.keeper.now) engine.old.held tables → KeepsTables (K.kept engine.new.keeper.now) engine.new.held tables) }
    ensures causes { IfErr result (Refuses (Rose (K.faults engine.old.keeper.now) (K.faults engine.new.keeper.now)) (BreaksField engine.old.held.models)) }
    ensures models { engine.new.held.models ≡ engine.old.held.models }
    ensures count { K.faults engine.old.keeper.now ≤ K.faults engine.new.keeper.now }
    ensures ticks { (n : ℕ) × (steps.new ≡ ticked_times n L.noted steps.old) }
    ensures same { K.kept engine.new.keeper.now ≡ K.kept engine.old.keeper.now }
    ensures lender { engine.new.keeper.ghost_name ≡ engine.old.keeper.ghost_name }
{
    engine.stage(edits)?;
    Ok(engine.settle(steps)?)
}
