//! `write`: an object of values for each of the named rows, with what its commands do. What it
//! promises is `WritesSome`, and why it may be refused over any keeper `WriteMayCome`.

ghost use Rattle.std.specs.Prelude.{◌≡◌, ◌≤◌, ℕ, false, true, IfErr, IfOk, IfSome, None, OnErr, OnOk, ⊤};
ghost use Rattle.serde_json.specs.View.{view};
ghost use Rattle.serde_json.specs.Written.{has_float};
ghost use Rattle.ob_access.specs.Policies.{IsPolicyOver};
ghost use Rattle.ob_base.specs.Tally.{ticked_times};
ghost use Rattle.ob_base.specs.Times.{IsMoment};
ghost use Rattle.ob_base.specs.declared.refusal.Op.TheVariants as op;
ghost use Rattle.ob_cache.specs.Calls.{AnswersBy, HasTables, IsCalled, IsResting, Refuses, models_at, standpoint};
ghost use Rattle.ob_cache.specs.Stages.{IsUsable};
ghost use Rattle.ob_cache.specs.Standing.{IsAtRest};
ghost use Rattle.ob_call.specs.Called.{called_by, result_view};
ghost use Rattle.ob_call.specs.Forms.{fields_at};
ghost use Rattle.ob_call.specs.Places.{spot_place};
ghost use Rattle.ob_commands.specs.Asked.{object_fault};
ghost use Rattle.ob_commands.specs.Changes.{WriteMayCome, WritesSome};
ghost use Rattle.ob_effect.specs.Effect.{Asks, IsNoted, IsStep, IsWriterOver, Keeps};
ghost use Rattle.ob_commands.specs.Making.{ComesBack, MissesSome, SettlesTo, StopsWrite};
ghost use Rattle.ob_effect.specs.Objects.{IsObjectFor};
ghost use Rattle.ob_effect.specs.Rights.{may};
ghost use Rattle.ob_io.specs.Cause.{Rose};
ghost use Rattle.ob_schema.specs.Models.{HasModel, model_at};
ghost use Rattle.ob_schema.specs.Tables.{Tables};

use crate::asked::{Change, asked_change};
use crate::creating::finder_of;
use crate::findings::findings_in;
use crate::judging::{settle, test_found};
use ob_access::Policy;
use ob_base::{Ledger, ModelNo, Op, RecId, Refusal, RowKey, Steps};
use ob_cache::Engine;
use ob_call::{Call, Json, least};
use ob_effect::{
    Caller, Notes, Object, Writer, groups_of, kept_relations, may, object_of, write_row,
};
use ob_io::Keeper;
use ob_rows::Author;
use std::alloc::Global;

/// Sets the values that the object gives in each of the named rows, and carries out its commands on
/// their lists, row by row. Answers true; the engine is then settled with all that, and not flushed.
/// Refused is the first of: an argument that is malformed; a right that the caller lacks on a model
/// or a field; a value that is malformed; ids that no row has, the least of which is named; a row
/// that rules deny him; something that the call or its tables break. Then the engine rests as it
/// did.
pub(crate) fn write_some<K: Keeper, L: Ledger>(
    alloc: Global,
    engine: &mut Engine<'_, K>,
    policy: &Policy,
    call: &Call<'_>,
    steps: &mut Steps<L>,
) -> Result<Json, Refusal>
    requires model { HasModel (models_at (standpoint K.Keeper engine.old)) call.now.model }
    requires moment { IsMoment call.now.now }
    requires rest { IsResting (standpoint K.Keeper engine.old) }
    requires policy { IsPolicyOver (models_at (standpoint K.Keeper engine.old)) policy.now }
    ensures call { IfSome (model_at (models_at (standpoint K.Keeper engine.old)) call.entry.now.model) (λ info.
        IsCalled (WritesSome (models_at (standpoint K.Keeper engine.old)) policy.now (called_by call.entry.now info)) (standpoint K.Keeper engine.old) (standpoint K.Keeper engine.new)
        (WriteMayCome (models_at (standpoint K.Keeper engine.old)) policy.now (called_by call.entry.now info)) (result_view result)) }
    ensures plain { IfOk result (λ json. has_float (view json) ≡ false) }
    ensures ticks { (n : ℕ) × (steps.new ≡ ticked_times n L.noted steps.old) }
    ensures lender { engine.new.keeper.ghost_name ≡ engine.old.keeper.ghost_name }
{
    write_asked(alloc, engine, policy, call, steps)
}

/// The same, clause by clause.
fn write_asked<K: Keeper, L: Ledger>(
    alloc: Global,
    engine: &mut Engine<'_, K>,
    policy: &Policy,
    call: &Call<'_>,
    steps: &mut Steps<L>,
) -> Result<Json, Refusal>
    requires model { HasModel engine.old.held.models call.now.model }
    requires moment { IsMoment call.now.now }
    requires rest { IsAtRest engine.old.held.models engine.old.held }
    requires policy { IsPolicyOver engine.old.held.models policy.now }
    ensures answer { let before = standpoint K.Keeper engine.old in let models = models_at before in (tables : Tables) → HasTables before tables
        → IfSome (model_at models call.entry.now.model) (λ info. AnswersBy (WritesSome models policy.now (called_by call.entry.now info)) before (standpoint K.Keeper engine.new) tables (result_view result)) }
    ensures causes { IfErr result (Refuses (Rose (K.faults engine.old.keeper.now) (K.faults engine.new.keeper.now))
        (λ why. IfSome (model_at engine.old.held.models call.entry.now.model) (λ info. WriteMayCome engine.old.held.models policy.now (called_by call.entry.now info) why))) }
    ensures rests { IsAtRest engine.old.held.models engine.new.held }
    ensures count { K.faults engine.old.keeper.now ≤ K.faults engine.new.keeper.now }
    ensures ticks { (n : ℕ) × (steps.new ≡ ticked_times n L.noted steps.old) }
    ensures plain { IfOk result (λ json. has_float (view json) ≡ false) }
    ensures same { K.kept engine.new.keeper.now ≡ K.kept engine.old.keeper.now }
    ensures lender { engine.new.keeper.ghost_name ≡ engine.old.keeper.ghost_name }
{
    let change = asked_change(alloc, engine.schema(), call)?;
    let groups = groups_of(alloc, engine, policy, call.caller)?;
    let by = Caller {
        policy,
        groups: &groups,
        user: call.caller,
    };
    change_whole(alloc, engine, by, call, &change, steps)?;
    Ok(Json::Bool(true))
}

/// Carries out a change; after a refusal the engine rests as it did.
fn change_whole<K: Keeper, L: Ledger>(
    alloc: Global,
    engine: &mut Engine<'_, K>,
    by: Caller<'_>,
    call: &Call<'_>,
    change: &Change<'_>,
    steps: &mut Steps<L>,
) -> Result<(), Refusal>
    requires model { HasModel engine.old.held.models call.now.model }
    requires moment { IsMoment call.now.now }
    requires rest { IsAtRest engine.old.held.models engine.old.held }
    requires policy { IsPolicyOver engine.old.held.models by.policy.now }
    requires form { object_fault (fields_at engine.old.held.models call.now.model) (view change.now.vals.json.now) ≡ None }
    ensures settled { OnOk result (SettlesTo K.Keeper (λ _ _. ⊤) engine.old engine.new) }
    ensures granted { OnOk result (may by.entry op.Write call.entry.now.model ≡ true) }
    ensures back { OnErr result (ComesBack K.Keeper engine.old engine.new) }
    ensures refused { IfErr result (Refuses (Rose (K.faults engine.old.keeper.now) (K.faults engine.new.keeper.now))
        (StopsWrite K.Keeper by.entry call.entry.now.model change.entry.now.ids.items engine.old (spot_place change.entry.now.vals.spot))) }
    ensures ticks { (n : ℕ) × (steps.new ≡ ticked_times n L.noted steps.old) }
{
    let changed = change_rows(alloc, engine, by, call, change, steps);
    if changed.is_err() {
        engine.forget();
    }
    changed
}

/// Carries out a change. After a refusal the engine may have staged something.
fn change_rows<K: Keeper, L: Ledger>(
    alloc: Global,
    engine: &mut Engine<'_, K>,
    by: Caller<'_>,
    call: &Call<'_>,
    change: &Change<'_>,
    steps: &mut Steps<L>,
) -> Result<(), Refusal>
    requires model { HasModel engine.old.held.models call.now.model }
    requires moment { IsMoment call.now.now }
    requires rest { IsAtRest engine.old.held.models engine.old.held }
    requires policy { IsPolicyOver engine.old.held.models by.policy.now }
    requires form { object_fault (fields_at engine.old.held.models call.now.model) (view change.now.vals.json.now) ≡ None }
    ensures settled { OnOk result (SettlesTo K.Keeper (λ _ _. ⊤) engine.old engine.new) }
    ensures granted { OnOk result (may by.entry op.Write call.entry.now.model ≡ true) }
    ensures kept { OnErr result (Keeps K.Keeper engine.old engine.new) }
    ensures refused { IfErr result (Refuses (Rose (K.faults engine.old.keeper.now) (K.faults engine.new.keeper.now))
        (StopsWrite K.Keeper by.entry call.entry.now.model change.entry.now.ids.items engine.old (spot_place change.entry.now.vals.spot))) }
    ensures ticks { (n : ℕ) × (steps.new ≡ ticked_times n L.noted steps.old) }
{
    if !may(&by, Op::Write, call.model) {
        return Err(Refusal::Right(call.model, Op::Write));
    }
    let missing = missing_id(engine, call.model, change.ids.as_slice())?;
    let schema = engine.schema();
    let relations = kept_relations(alloc, schema)?;
    let writer = Writer {
        alloc,
        schema,
        relations: relations.as_slice(),
        author: Author {
            user: call.caller,
            now: call.now,
        },
        by,
    };
    let mut notes = Notes::new(alloc);
    let object = object_of(alloc, schema, call.model, change.vals.json)?;
    write_each(
        engine,
        &writer,
        &mut notes,
        call.model,
        change.ids.as_slice(),
        &object,
    )?;
    let found = findings_in(&finder_of(&writer), call.model, change.vals.json)?;
    test_found(&writer, change.vals.spot, found)?;
    if let Some(id) = missing {
        return Err(Refusal::Missing(call.model, RecId(id)));
    }
    settle(engine, &writer, &notes, steps)
}

/// Writes an object of values to each of some rows.
fn write_each<K: Keeper>(
    engine: &mut Engine<'_, K>,
    writer: &Writer<'_>,
    notes: &mut Notes,
    model: ModelNo,
    ids: &[u64],
    object: &Object,
) -> Result<(), Refusal>
    requires writer { IsWriterOver engine.old.held.models writer.now }
    requires usable { IsUsable engine.old.held.phase }
    requires noted { IsNoted engine.old.held.models notes.old engine.old.held }
    requires model { HasModel engine.old.held.models model }
    requires object { IsObjectFor engine.old.held.models model object.now }
    ensures step { IsStep K.Keeper writer.entry.now.by engine.old engine.new notes.new result }
{
    for id in ids {
        let row = RowKey {
            model,
            id: RecId(*id),
        };
        write_row(engine, writer, notes, row, object)?;
    }
    Ok(())
}

/// The least of the ids that no row has.
fn missing_id<K: Keeper>(
    engine: &mut Engine<'_, K>,
    model: ModelNo,
    ids: &[u64],
) -> Result<Option<u64>, Refusal>
    requires usable { IsUsable engine.old.held.phase }
    requires model { HasModel engine.old.held.models model }
    ensures missing { IfOk result (λ missing. IfSome missing (MissesSome K.Keeper model ids.now engine.old)) }
    ensures causes { IfErr result (Refuses (Rose (K.faults engine.old.keeper.now) (K.faults engine.new.keeper.now)) (λ _. ⊥)) }
    ensures asked { Asks K.Keeper engine.old engine.new }
{
    let mut missing = None;
    for id in ids {
        let there = engine.has_row(model, RecId(*id))?;
        if !there {
            missing = least(missing, *id);
        }
    }
    Ok(missing)
}
