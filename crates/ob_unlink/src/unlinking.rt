//! `unlink`: the named rows go, with those that cascades reach. The caller is asked for the right on
//! the model, and for the rules of the rows that he names, and for nothing else.
//!
//! Rooms: `deletion` and `taking` (which rows go, and which cells name them), `barring` (what keeps
//! rows from going) and `leaving` (the edits). By which fields rows name others is told by
//! `kept_relations` of ob_rows. What it means is `Unlinks`, over the definitions of `Deletion`, and why
//! it may be refused over any keeper `UnlinkCause`: a change begins with these.

ghost use Rattle.std.specs.Prelude.{◌≡◌, ◌≤◌, ◌∷◌, ℕ, codes, false, map, true, All, IfErr, IfOk, IfSome, IsSome, OnOk};
ghost use Rattle.ob_access.specs.Policies.{IsPolicyOver};
ghost use Rattle.serde_json.specs.View.{view};
ghost use Rattle.serde_json.specs.Written.{has_float};
ghost use Rattle.ob_base.specs.Limits.{max_id};
ghost use Rattle.ob_base.specs.Tally.{ticked_times};
ghost use Rattle.ob_base.specs.declared.refusal.Op.TheVariants as op;
ghost use Rattle.ob_cache.specs.Calls.{AnswersBy, HasTables, IsCalled, IsResting, Refuses, models_at, standpoint};
ghost use Rattle.ob_cache.specs.Standing.{IsAtRest, RestsAt, Stays};
ghost use Rattle.ob_cache.specs.Telling.{TellsFacts};
ghost use Rattle.ob_cache.specs.declared.stages.Phase.TheVariants as phase;
ghost use Rattle.ob_call.specs.Arguments.{are_apart};
ghost use Rattle.ob_call.specs.ArgumentsSteps.{expected_of, names_of};
ghost use Rattle.ob_call.specs.Called.{called_by, result_view};
ghost use Rattle.ob_call.specs.Forms.{ids_fault};
ghost use Rattle.ob_call.specs.Results.{IsResultOf};
ghost use Rattle.ob_io.specs.Cause.{Rose};
ghost use Rattle.ob_rows.specs.AskingSteps.{AdmitsBy, AreKnown};
ghost use Rattle.ob_rows.specs.Settling.{BreaksField};
ghost use Rattle.ob_unlink.specs.DeletionSteps.{AreFit, Covers, HoldsBack, IsBarredBy, IsMakingNone, IsNaming, IsRestricting, IsStoppedBy, MayAllGo, MayHoldBack, MayStopUnlink, RestrictsBy, SettlesDeletion, StopsUnlink, deletion_edits, left_edit, staying};
ghost use Rattle.ob_rows.specs.RowSets.{has_key};
ghost use Rattle.ob_rows.specs.Rights.{rows_named};
ghost use Rattle.ob_unlink.specs.Unlink.{UnlinkCause, Unlinks, unlink_expects, unlinked_ids};
ghost use Rattle.ob_rows.specs.There.{AreThere};
ghost use Rattle.ob_schema.specs.Facts.{OfAllTold, told_by};
ghost use Rattle.ob_schema.specs.Models.{HasModel, model_at};
ghost use Rattle.ob_schema.specs.Tables.{Tables, kept_at};
ghost use Rattle.ob_schema.specs.declared.info.ModelInfo.{ModelInfo};

mod barring;
mod deletion;
mod leaving;
mod taking;

use crate::unlinking::barring::{test_cells, test_rows};
use crate::unlinking::deletion::{Deletion, deletion_of, listed_cells, listed_rows};
use crate::unlinking::leaving::{left_edits, push_gone};
use ob_access::Policy;
use ob_base::{Ledger, ModelNo, Op, RecId, Refusal, RowKey, Steps};
use ob_cache::Engine;
use ob_call::{Call, Ids, Json, Parameter, arguments_of, named_ids};
use ob_io::Keeper;
use ob_rows::{Caller, groups_of, may, missing_id, rows_named, settle_edits, test_rules};
use ob_tables::Edit;
use std::alloc::Global;

/// Deletes the named rows, and each row that names a deleted one by a many2one with `cascade`. Of
/// the other rows a many2one with `set null` that names a deleted row is unset, and lists are
/// without deleted rows. Answers true; the engine is then settled without the rows, and not
/// flushed. Refused are arguments of another form, at their place; a caller who may not delete rows
/// of the model; ids that no row has, the least of which is named; named rows that a rule denies
/// him, by the tables before the call, the least of which is named with the rule; a row that would
/// go and is of a managed model or locked; a row that would stay and names one that goes by a
/// many2one with `restrict`; and what the tables without the rows break. Then the engine rests as it
/// did. The caller sees to it that the engine rests.
pub fn unlink<K: Keeper, L: Ledger>(
    alloc: Global,
    engine: &mut Engine<'_, K>,
    policy: &Policy,
    call: &Call<'_>,
    steps: &mut Steps<L>,
) -> Result<Json, Refusal>
    requires model { HasModel (models_at (standpoint K.Keeper engine.old)) call.now.model }
    requires rest { IsResting (standpoint K.Keeper engine.old) }
    requires policy { IsPolicyOver (models_at (standpoint K.Keeper engine.old)) policy.now }

    // It is the machine's unlink.
    ensures call { IfSome (model_at (models_at (standpoint K.Keeper engine.old)) call.entry.now.model) (λ info.
        IsCalled (Unlinks (models_at (standpoint K.Keeper engine.old)) policy.now (called_by call.entry.now info)) (standpoint K.Keeper engine.old) (standpoint K.Keeper engine.new)
        (UnlinkCause (models_at (standpoint K.Keeper engine.old)) policy.now (called_by call.entry.now info)) (result_view result)) }
    ensures plain { IfOk result (λ json. has_float (view json) ≡ false) }
    ensures ticks { (n : ℕ) × (steps.new ≡ ticked_times n L.noted steps.old) }
    ensures lender { engine.new.keeper.ghost_name ≡ engine.old.keeper.ghost_name }
{
    delete_named(alloc, engine, policy, call, steps)
}

/// The same, clause by clause.
fn delete_named<K: Keeper, L: Ledger>(
    alloc: Global,
    engine: &mut Engine<'_, K>,
    policy: &Policy,
    call: &Call<'_>,
    steps: &mut Steps<L>,
) -> Result<Json, Refusal>
    requires model { HasModel engine.old.held.models call.now.model }
    requires rest { IsAtRest engine.old.held.models engine.old.held }
    requires policy { IsPolicyOver engine.old.held.models policy.now }
    ensures answer { let before = standpoint K.Keeper engine.old in let models = models_at before in (tables : Tables) → HasTables before tables
        → IfSome (model_at models call.entry.now.model) (λ info. AnswersBy (Unlinks models policy.now (called_by call.entry.now info)) before (standpoint K.Keeper engine.new) tables (result_view result)) }
    ensures causes { IfErr result (Refuses (Rose (K.faults engine.old.keeper.now) (K.faults engine.new.keeper.now))
        (λ why. IfSome (model_at engine.old.held.models call.entry.now.model) (λ info. UnlinkCause engine.old.held.models policy.now (called_by call.entry.now info) why))) }
    ensures rests { IsAtRest engine.old.held.models engine.new.held }
    ensures count { K.faults engine.old.keeper.now ≤ K.faults engine.new.keeper.now }
    ensures ticks { (n : ℕ) × (steps.new ≡ ticked_times n L.noted steps.old) }
    ensures plain { IfOk result (λ json. has_float (view json) ≡ false) }
    ensures same { K.kept engine.new.keeper.now ≡ K.kept engine.old.keeper.now }
    ensures lender { engine.new.keeper.ghost_name ≡ engine.old.keeper.ghost_name }
{
    let groups = groups_of(alloc, engine, policy, call.caller)?;
    let by = Caller {
        policy,
        groups: &groups,
        user: call.caller,
    };
    let ids = allowed_ids(alloc, &by, call)?;
    delete_there(alloc, engine, &by, call.model, ids.as_slice(), steps)?;
    Ok(Json::Bool(true))
}

/// The ids of the rows that a call names, whose caller may delete rows of the model.
fn allowed_ids(alloc: Global, by: &Caller<'_>, call: &Call<'_>) -> Result<Vec<u64>, Refusal>
    ensures value { (info : ModelInfo) → IsNaming (λ ids. ids.items) by.now call.entry.now.model result (unlinked_ids (called_by call.entry.now info)) }
    ensures low { IfOk result (λ ids. All (λ id. id ≤ max_id) ids.items) }
{
    let ids = unlinked_ids(alloc, call)?;
    if may(by, Op::Unlink, call.model) {
        Ok(ids)
    } else {
        Err(Refusal::Right(call.model, Op::Unlink))
    }
}

/// The ids of the rows that a call names, or the first place that is wrong.
fn unlinked_ids(alloc: Global, call: &Call<'_>) -> Result<Vec<u64>, Refusal>
    ensures value { (info : ModelInfo) → IsResultOf (λ ids. ids.items) result (unlinked_ids (called_by call.entry.now info)) }
    ensures low { IfOk result (λ ids. All (λ id. id ≤ max_id) ids.items) }
{
    let expected = unlink_parameters();
    let given = arguments_of(alloc, &expected, call.args, call.kw)?;
    let Some(ids) = &given[0] else {
        unreachable!();
    };
    let ids = named_ids(alloc, ids.json)?;
    Ok(ids)
}

/// What an unlink is called with: ids.
fn unlink_parameters() -> [Parameter<Ids>; 1]
    ensures expects { map (expected_of (λ _ json. ids_fault json)) result ≡ unlink_expects }
    ensures apart { are_apart (codes "context" ∷ names_of result) ≡ true }
{
    [Parameter {
        name: "ids",
        required: true,
        form: Ids,
    }]
}

/// Settles the engine without rows, which are all there and admitted; else it rests as it did.
fn delete_there<K: Keeper, L: Ledger>(
    alloc: Global,
    engine: &mut Engine<'_, K>,
    by: &Caller<'_>,
    model: ModelNo,
    ids: &[u64],
    steps: &mut Steps<L>,
) -> Result<(), Refusal>
    requires model { HasModel engine.old.held.models model }
    requires low { All (λ id. id ≤ max_id) ids.now }
    requires rest { IsAtRest engine.old.held.models engine.old.held }
    requires policy { IsPolicyOver engine.old.held.models by.now.policy.now }
    ensures settled { OnOk result ((tables : Tables) → RestsAt (K.kept engine.old.keeper.now) engine.old.held tables
        → AreThere model tables ids.now × AdmitsBy by.now (told_by engine.old.held.models tables) op.Unlink (rows_named model ids.now)
        × SettlesDeletion (K.kept engine.new.keeper.now) engine.new.held engine.old.held.models tables (rows_named model ids.now)) }
    ensures refused { IfErr result (λ why. (tables : Tables) → RestsAt (K.kept engine.old.keeper.now) engine.old.held tables
        → RestsAt (K.kept engine.new.keeper.now) engine.new.held tables
        × Refuses (Rose (K.faults engine.old.keeper.now) (K.faults engine.new.keeper.now)) (StopsUnlink engine.old.held.models by.now model tables ids.now) why) }
    ensures causes { IfErr result (Refuses (Rose (K.faults engine.old.keeper.now) (K.faults engine.new.keeper.now)) (MayStopUnlink engine.old.held.models model ids.now)) }
    ensures rests { IsAtRest engine.old.held.models engine.new.held }
    ensures count { K.faults engine.old.keeper.now ≤ K.faults engine.new.keeper.now }
    ensures ticks { (n : ℕ) × (steps.new ≡ ticked_times n L.noted steps.old) }
    ensures same { K.kept engine.new.keeper.now ≡ K.kept engine.old.keeper.now }
    ensures lender { engine.new.keeper.ghost_name ≡ engine.old.keeper.ghost_name }
{
    let missing = missing_id(engine, model, ids)?;
    if let Some(id) = missing {
        return Err(Refusal::Missing(model, RecId(id)));
    }
    delete_admitted(alloc, engine, by, model, ids, steps)
}

/// The same of rows that are there.
fn delete_admitted<K: Keeper, L: Ledger>(
    alloc: Global,
    engine: &mut Engine<'_, K>,
    by: &Caller<'_>,
    model: ModelNo,
    ids: &[u64],
    steps: &mut Steps<L>,
) -> Result<(), Refusal>
    requires model { HasModel engine.old.held.models model }
    requires low { All (λ id. id ≤ max_id) ids.now }
    requires rest { IsAtRest engine.old.held.models engine.old.held }
    requires policy { IsPolicyOver engine.old.held.models by.now.policy.now }
    requires known { OfAllTold (TellsFacts (K.kept engine.old.keeper.now) engine.old.held) (AreKnown (rows_named model ids.now)) }
    ensures settled { OnOk result ((tables : Tables) → RestsAt (K.kept engine.old.keeper.now) engine.old.held tables
        → AreThere model tables ids.now
        → AdmitsBy by.now (told_by engine.old.held.models tables) op.Unlink (rows_named model ids.now)
        × SettlesDeletion (K.kept engine.new.keeper.now) engine.new.held engine.old.held.models tables (rows_named model ids.now)) }
    ensures refused { IfErr result (λ why. (tables : Tables) → RestsAt (K.kept engine.old.keeper.now) engine.old.held tables
        → AreThere model tables ids.now
        → RestsAt (K.kept engine.new.keeper.now) engine.new.held tables
        × Refuses (Rose (K.faults engine.old.keeper.now) (K.faults engine.new.keeper.now)) (HoldsBack engine.old.held.models by.now model tables ids.now) why) }
    ensures causes { IfErr result (Refuses (Rose (K.faults engine.old.keeper.now) (K.faults engine.new.keeper.now)) (MayHoldBack engine.old.held.models model ids.now)) }
    ensures rests { IsAtRest engine.old.held.models engine.new.held }
    ensures count { K.faults engine.old.keeper.now ≤ K.faults engine.new.keeper.now }
    ensures ticks { (n : ℕ) × (steps.new ≡ ticked_times n L.noted steps.old) }
    ensures same { K.kept engine.new.keeper.now ≡ K.kept engine.old.keeper.now }
    ensures lender { engine.new.keeper.ghost_name ≡ engine.old.keeper.ghost_name }
{
    let rows = rows_named(alloc, model, ids)?;
    test_rules(alloc, engine, by, Op::Unlink, rows.as_slice())?;
    delete_all(alloc, engine, model, ids, steps)
}

/// The same of rows that are admitted.
fn delete_all<K: Keeper, L: Ledger>(
    alloc: Global,
    engine: &mut Engine<'_, K>,
    model: ModelNo,
    ids: &[u64],
    steps: &mut Steps<L>,
) -> Result<(), Refusal>
    requires model { HasModel engine.old.held.models model }
    requires low { All (λ id. id ≤ max_id) ids.now }
    requires rest { IsAtRest engine.old.held.models engine.old.held }
    ensures settled { OnOk result ((tables : Tables) → RestsAt (K.kept engine.old.keeper.now) engine.old.held tables
        → AreThere model tables ids.now → SettlesDeletion (K.kept engine.new.keeper.now) engine.new.held engine.old.held.models tables (rows_named model ids.now)) }
    ensures refused { IfErr result (λ why. (tables : Tables) → RestsAt (K.kept engine.old.keeper.now) engine.old.held tables
        → AreThere model tables ids.now
        → RestsAt (K.kept engine.new.keeper.now) engine.new.held tables
        × Refuses (Rose (K.faults engine.old.keeper.now) (K.faults engine.new.keeper.now)) (IsStoppedBy engine.old.held.models tables (rows_named model ids.now)) why) }
    ensures causes { IfErr result (Refuses (Rose (K.faults engine.old.keeper.now) (K.faults engine.new.keeper.now)) (BreaksField engine.old.held.models)) }
    ensures rests { IsAtRest engine.old.held.models engine.new.held }
    ensures count { K.faults engine.old.keeper.now ≤ K.faults engine.new.keeper.now }
    ensures ticks { (n : ℕ) × (steps.new ≡ ticked_times n L.noted steps.old) }
    ensures same { K.kept engine.new.keeper.now ≡ K.kept engine.old.keeper.now }
    ensures lender { engine.new.keeper.ghost_name ≡ engine.old.keeper.ghost_name }
{
    // The law of registries.
    engine.schema().parts_fit_together();
    let deletion = deletion_of(alloc, engine, model, ids)?;
    let edits = deletion_edits(alloc, engine, &deletion)?;
    settle_edits(engine, edits.as_slice(), steps)
}

/// The edits of a deletion, all rows of which may go.
fn deletion_edits<K: Keeper>(
    alloc: Global,
    engine: &mut Engine<'_, K>,
    deletion: &Deletion,
) -> Result<Vec<Edit>, Refusal>
    requires fit { AreFit engine.old.held.models deletion.now.rows deletion.now.cells }
    requires rest { engine.old.held.phase ≡ phase.Settled }
    ensures told { IfOk result (λ edits. (tables : Tables) → RestsAt (K.kept engine.old.keeper.now) engine.old.held tables
        → Covers engine.old.held.models tables deletion.now.rows deletion.now.cells
        → MayAllGo engine.old.held.models tables deletion.now.rows
        × (edits.items ≡ deletion_edits engine.old.held.models tables deletion.now.rows deletion.now.cells)) }
    ensures fit { IfOk result (λ edits. All (IsMakingNone engine.old.held.models) edits.items) }
    ensures refused { IfErr result (λ why. (tables : Tables) → RestsAt (K.kept engine.old.keeper.now) engine.old.held tables
        → Covers engine.old.held.models tables deletion.now.rows deletion.now.cells
        → Refuses (Rose (K.faults engine.old.keeper.now) (K.faults engine.new.keeper.now)) (IsBarredBy engine.old.held.models tables deletion.now.rows) why) }
    ensures causes { IfErr result (Refuses (Rose (K.faults engine.old.keeper.now) (K.faults engine.new.keeper.now)) (BreaksField engine.old.held.models)) }
    ensures same { Stays (K.kept engine.old.keeper.now) engine.old.held (K.kept engine.new.keeper.now) engine.new.held }
    ensures count { K.faults engine.old.keeper.now ≤ K.faults engine.new.keeper.now }
    ensures lender { engine.new.keeper.ghost_name ≡ engine.old.keeper.ghost_name }
{
    let rows = listed_rows(alloc, &deletion.rows)?;
    edits_of(alloc, engine, deletion, rows.as_slice())
}

/// The same, with the rows as a list.
fn edits_of<K: Keeper>(
    alloc: Global,
    engine: &mut Engine<'_, K>,
    deletion: &Deletion,
    rows: &[RowKey],
) -> Result<Vec<Edit>, Refusal>
    requires listed { rows.now ≡ deletion.now.rows.keys }
    requires fit { AreFit engine.old.held.models deletion.now.rows deletion.now.cells }
    requires rest { engine.old.held.phase ≡ phase.Settled }
    ensures told { IfOk result (λ edits. (tables : Tables) → RestsAt (K.kept engine.old.keeper.now) engine.old.held tables
        → Covers engine.old.held.models tables deletion.now.rows deletion.now.cells
        → MayAllGo engine.old.held.models tables deletion.now.rows
        × (edits.items ≡ deletion_edits engine.old.held.models tables deletion.now.rows deletion.now.cells)) }
    ensures fit { IfOk result (λ edits. All (IsMakingNone engine.old.held.models) edits.items) }
    ensures refused { IfErr result (λ why. (tables : Tables) → RestsAt (K.kept engine.old.keeper.now) engine.old.held tables
        → Covers engine.old.held.models tables deletion.now.rows deletion.now.cells
        → Refuses (Rose (K.faults engine.old.keeper.now) (K.faults engine.new.keeper.now)) (IsBarredBy engine.old.held.models tables deletion.now.rows) why) }
    ensures causes { IfErr result (Refuses (Rose (K.faults engine.old.keeper.now) (K.faults engine.new.keeper.now)) (BreaksField engine.old.held.models)) }
    ensures same { Stays (K.kept engine.old.keeper.now) engine.old.held (K.kept engine.new.keeper.now) engine.new.held }
    ensures count { K.faults engine.old.keeper.now ≤ K.faults engine.new.keeper.now }
    ensures lender { engine.new.keeper.ghost_name ≡ engine.old.keeper.ghost_name }
{
    test_rows(engine, rows)?;
    let mut edits = cell_edits(alloc, engine, deletion)?;
    push_gone(&mut edits, rows)?;
    Ok(edits)
}

/// The edits of the cells that name rows of a deletion, where none keeps these from going.
fn cell_edits<K: Keeper>(
    alloc: Global,
    engine: &mut Engine<'_, K>,
    deletion: &Deletion,
) -> Result<Vec<Edit>, Refusal>
    requires fit { AreFit engine.old.held.models deletion.now.rows deletion.now.cells }
    requires rest { engine.old.held.phase ≡ phase.Settled }
    ensures free { IfOk result (λ _. All (λ cell. IsRestricting engine.old.held.models (has_key deletion.now.rows) cell → ⊥) deletion.now.cells.keys) }
    ensures told { IfOk result (λ edits. (tables : Tables) → RestsAt (K.kept engine.old.keeper.now) engine.old.held tables
        → All (λ cell. IsSome (kept_at tables cell)) deletion.now.cells.keys
        → edits.items ≡ map (left_edit engine.old.held.models (has_key deletion.now.rows) tables) (staying (has_key deletion.now.rows) deletion.now.cells.keys)) }
    ensures fit { IfOk result (λ edits. All (IsMakingNone engine.old.held.models) edits.items) }
    ensures refused { IfErr result (Refuses (Rose (K.faults engine.old.keeper.now) (K.faults engine.new.keeper.now)) (RestrictsBy engine.old.held.models deletion.now.rows deletion.now.cells)) }
    ensures same { Stays (K.kept engine.old.keeper.now) engine.old.held (K.kept engine.new.keeper.now) engine.new.held }
    ensures count { K.faults engine.old.keeper.now ≤ K.faults engine.new.keeper.now }
    ensures lender { engine.new.keeper.ghost_name ≡ engine.old.keeper.ghost_name }
{
    let cells = listed_cells(alloc, &deletion.cells)?;
    test_cells(engine.schema(), cells.as_slice(), &deletion.rows)?;
    left_edits(alloc, engine, cells.as_slice(), &deletion.rows)
}
