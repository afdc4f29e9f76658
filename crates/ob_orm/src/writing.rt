//! `write`: values of the named rows.
//!
//! Rooms: `change` (what a write asks for), `touched` (which rows it touches), `barring` (what bars
//! it) and `edits` (what it sets, in the rows and in those of their parents). What it means is
//! `Writes`, and why it may be refused over any keeper `WriteCause`: a change begins with these. What
//! its caller may do is asked in `asking`, which rows are there in `there`; how edits are settled
//! stands in `settling`, how the values of a row are filled in `making`.

ghost use Rattle.std.specs.Prelude.{◌≡◌, ◌≤◌, ◌++◌, ℕ, false, All, IfErr, IfOk, IfSome, OnOk};
ghost use Rattle.serde_json.specs.View.{view};
ghost use Rattle.serde_json.specs.Written.{has_float};
ghost use Rattle.ob_access.specs.Policies.{IsPolicyOver};
ghost use Rattle.ob_base.specs.Limits.{max_id};
ghost use Rattle.ob_base.specs.Tally.{ticked_times};
ghost use Rattle.ob_base.specs.Times.{IsMoment};
ghost use Rattle.ob_cache.specs.Calls.{AnswersBy, HasTables, IsCalled, IsResting, Refuses, models_at, standpoint};
ghost use Rattle.ob_cache.specs.Stages.{resting, settled_of, with_edits};
ghost use Rattle.ob_cache.specs.Standing.{IsAtRest, RestsAt, Stands};
ghost use Rattle.ob_call.specs.Called.{called_by, result_view};
ghost use Rattle.ob_io.specs.Cause.{Rose};
ghost use Rattle.ob_rows.specs.Author.{author_by};
ghost use Rattle.ob_orm.specs.NewRows.{row_edits};
ghost use Rattle.ob_orm.specs.NewRowSteps.{IsTyped};
ghost use Rattle.ob_orm.specs.Write.{IsAdmissible, MayStopWrite, StopsWrite, WriteCause, Writes, edits_of};
ghost use Rattle.ob_orm.specs.WriteSteps.{asked_change};
ghost use Rattle.ob_schema.specs.Models.{HasModel, model_at};
ghost use Rattle.ob_schema.specs.Tables.{Tables};

mod barring;
mod change;
pub(crate) mod edits;
mod touched;

use crate::making::Maker;
use crate::writing::barring::test_change;
use crate::writing::change::{Change, asked_change};
use crate::writing::edits::change_edits;
use ob_access::Policy;
use ob_base::{Cell, FieldNo, Ledger, ModelNo, NoMemory, RecId, Refusal, Steps, Value};
use ob_cache::Engine;
use ob_call::{Call, Json};
use ob_io::Keeper;
use ob_rows::{Author, Caller, groups_of, settle_edits};
use ob_tables::Edit;
use std::alloc::Global;

/// Sets the values that the object gives in each of the named rows, and stamps each with the caller
/// and the call's moment; another field keeps its value. What it gives for fields of a parent is set,
/// with the same stamps, in the row that the link to it names behind the change; a parent's row for
/// which nothing is given isn't changed. Answers true; the engine is then settled with the change,
/// and not flushed. Refused are, the first of these: arguments of another form, at their place; a
/// caller who may not write rows of the model, or of a parent of which a row is changed, the first
/// in the order of the changes; a field that he may not give a value, the first that the object
/// names; a value of another form, at its place; ids that no row has, the least of which is named;
/// rows, of parents among them, that a rule denies him by the tables before the call, the least of
/// which is named with the rule; and what the tables with the change break. Then the engine rests as
/// it did. A value that hasn't its form changes no row of a parent. No list of rows is given so far,
/// no field of the model is `fixed`, and no row of it or of a parent locked or managed: the caller of
/// this function sees to it that the model has none of these (`is_writable`), that the engine rests,
/// and that the moment lies within the years 0001 to 9999.
pub fn write<K: Keeper, L: Ledger>(
    alloc: Global,
    engine: &mut Engine<'_, K>,
    policy: &Policy,
    call: &Call<'_>,
    steps: &mut Steps<L>,
) -> Result<Json, Refusal>
    requires model { HasModel (models_at (standpoint K.Keeper engine.old)) call.now.model }
    requires moment { IsMoment call.now.now }
    requires rest { IsResting (standpoint K.Keeper engine.old) }
    requires policy { IsPolicyOver (models_at (standpoint K.Keeper engine.old)) policy.now }

    // It is the machine's write.
    ensures call { IfSome (model_at (models_at (standpoint K.Keeper engine.old)) call.entry.now.model) (λ info.
        IsCalled (Writes (models_at (standpoint K.Keeper engine.old)) policy.now (called_by call.entry.now info)) (standpoint K.Keeper engine.old) (standpoint K.Keeper engine.new)
        (WriteCause (models_at (standpoint K.Keeper engine.old)) policy.now (called_by call.entry.now info)) (result_view result)) }
    ensures plain { IfOk result (λ json. has_float (view json) ≡ false) }
    ensures ticks { (n : ℕ) × (steps.new ≡ ticked_times n L.noted steps.old) }
    ensures lender { engine.new.keeper.ghost_name ≡ engine.old.keeper.ghost_name }
{
    change_rows(alloc, engine, policy, call, steps)
}

/// The same, clause by clause.
fn change_rows<K: Keeper, L: Ledger>(
    alloc: Global,
    engine: &mut Engine<'_, K>,
    policy: &Policy,
    call: &Call<'_>,
    steps: &mut Steps<L>,
) -> Result<Json, Refusal>
    requires model { HasModel engine.old.held.models call.now.model }
    requires moment { IsMoment call.now.now }
    requires rest { IsAtRest engine.old.held.models engine.old.held }
    requires policy { IsPolicyOver engine.old.held.models policy.now }
    ensures answer { let before = standpoint K.Keeper engine.old in let models = models_at before in (tables : Tables) → HasTables before tables
        → IfSome (model_at models call.entry.now.model) (λ info. AnswersBy (Writes models policy.now (called_by call.entry.now info)) before (standpoint K.Keeper engine.new) tables (result_view result)) }
    ensures causes { IfErr result (Refuses (Rose (K.faults engine.old.keeper.now) (K.faults engine.new.keeper.now))
        (λ why. IfSome (model_at engine.old.held.models call.entry.now.model) (λ info. WriteCause engine.old.held.models policy.now (called_by call.entry.now info) why))) }
    ensures rests { IsAtRest engine.old.held.models engine.new.held }
    ensures count { K.faults engine.old.keeper.now ≤ K.faults engine.new.keeper.now }
    ensures ticks { (n : ℕ) × (steps.new ≡ ticked_times n L.noted steps.old) }
    ensures plain { IfOk result (λ json. has_float (view json) ≡ false) }
    ensures same { K.kept engine.new.keeper.now ≡ K.kept engine.old.keeper.now }
    ensures lender { engine.new.keeper.ghost_name ≡ engine.old.keeper.ghost_name }
{
    let groups = groups_of(alloc, engine, policy, call.caller)?;
    let by = Caller {
        policy,
        groups: &groups,
        user: call.caller,
    };
    let schema = engine.schema();
    let change = asked_change(alloc, schema, call)?;
    carry_out(alloc, engine, &by, call, &change, steps)?;
    Ok(Json::Bool(true))
}

/// Settles the engine with a change that nothing bars; else it rests as it did.
fn carry_out<K: Keeper, L: Ledger>(
    alloc: Global,
    engine: &mut Engine<'_, K>,
    by: &Caller<'_>,
    call: &Call<'_>,
    change: &Change,
    steps: &mut Steps<L>,
) -> Result<(), Refusal>
    requires model { HasModel engine.old.held.models call.now.model }
    requires moment { IsMoment call.now.now }
    requires policy { IsPolicyOver engine.old.held.models by.now.policy.now }
    requires caller { by.now.user ≡ call.now.caller }
    requires typed { All (IsTyped engine.old.held.models call.now.model) change.now.object.values }
    requires low { All (λ id. id ≤ max_id) change.now.ids.items }
    requires rest { IsAtRest engine.old.held.models engine.old.held }
    ensures settled { OnOk result ((tables : Tables) → RestsAt (K.kept engine.old.keeper.now) engine.old.held tables
        → IsAdmissible engine.old.held.models by.now.policy.now call.entry.now.caller call.entry.now.model tables by.now.groups.now (asked_change change.now)
        × Stands (K.kept engine.new.keeper.now) engine.new.held
        (settled_of (with_edits (resting engine.old.held.models tables) (edits_of engine.old.held.models (author_by call.entry.now) call.entry.now.model tables (asked_change change.now))))) }
    ensures refused { IfErr result (λ why. (tables : Tables) → RestsAt (K.kept engine.old.keeper.now) engine.old.held tables
        → RestsAt (K.kept engine.new.keeper.now) engine.new.held tables
        × Refuses (Rose (K.faults engine.old.keeper.now) (K.faults engine.new.keeper.now))
        (StopsWrite engine.old.held.models by.now.policy.now (author_by call.entry.now) call.entry.now.model tables by.now.groups.now (asked_change change.now)) why) }
    ensures causes { IfErr result (Refuses (Rose (K.faults engine.old.keeper.now) (K.faults engine.new.keeper.now))
        (MayStopWrite engine.old.held.models by.now.policy.now call.entry.now.caller call.entry.now.model (asked_change change.now))) }
    ensures rests { IsAtRest engine.old.held.models engine.new.held }
    ensures count { K.faults engine.old.keeper.now ≤ K.faults engine.new.keeper.now }
    ensures ticks { (n : ℕ) × (steps.new ≡ ticked_times n L.noted steps.old) }
    ensures same { K.kept engine.new.keeper.now ≡ K.kept engine.old.keeper.now }
    ensures lender { engine.new.keeper.ghost_name ≡ engine.old.keeper.ghost_name }
{
    let maker = Maker {
        alloc,
        schema: engine.schema(),
        author: Author {
            user: call.caller,
            now: call.now,
        },
    };
    test_change(&maker, engine, by, call.model, change)?;
    let edits = change_edits(&maker, engine, call.model, change)?;
    settle_edits(engine, edits.as_slice(), steps)
}

/// Puts the edits that set each of some values in a row, by the numbers of its fields, behind others.
pub fn push_row_edits(
    alloc: Global,
    edits: &mut Vec<Edit>,
    model: ModelNo,
    id: u64,
    values: &[(FieldNo, Value)],
) -> Result<(), NoMemory>
    ensures { OnOk result (edits.new.items ≡ edits.old.items ++ row_edits model values.now id) }
{
    for given in values {
        let cell = Cell {
            model,
            id: RecId(id),
            field: given.0,
        };
        let value = given.1.try_clone(alloc)?;
        edits.push(Edit::Set { cell, value })?;
    }
    Ok(())
}
