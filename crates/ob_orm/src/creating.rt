//! `create`: rows of given values, under the model's next ids in turn, with rows of parents.
//!
//! Rooms: `rows` (what a create asks for) and `given` (what an object gives a row). What it means is
//! `Creates`, and why it may be refused over any keeper `CreateCause`: a change begins with these.
//! How rows are made of given values stands in `making`, what the edits do to rows, for which rights
//! and rules are asked, in `touching`, and how edits are settled in `settling`.

ghost use Rattle.std.specs.Prelude.{◌≡◌, ◌≤◌, ◌++◌, ℕ, All, false, get_or, IfErr, IfOk, IfSome, OnOk, map};
ghost use Rattle.serde_json.specs.View.{view};
ghost use Rattle.serde_json.specs.Written.{has_float};
ghost use Rattle.ob_access.specs.Policies.{IsPolicyOver};
ghost use Rattle.ob_base.specs.Tally.{ticked_times};
ghost use Rattle.ob_base.specs.Times.{IsMoment};
ghost use Rattle.ob_cache.specs.Calls.{AnswersBy, HasTables, IsCalled, IsResting, Refuses, models_at, settled_over, standpoint};
ghost use Rattle.ob_cache.specs.Standing.{IsAtRest, RestsAt, Stands, Stays};
ghost use Rattle.ob_call.specs.Called.{called_by, result_view};
ghost use Rattle.ob_codec.specs.CommandForms.{list_json, number_json};
ghost use Rattle.ob_io.specs.Cause.{Rose};
ghost use Rattle.ob_rows.specs.Author.{author_by};
ghost use Rattle.ob_orm.specs.Create.{CreateCause, Creates, MayStopCreate, StopsCreate, ids_told, with_rows};
ghost use Rattle.ob_orm.specs.CreateSteps.{AdmitsChanged, AdmitsMade, CreatesBy, IsAllowedBy, IsMadeBy, IsPlanned, MayStopSettling, StopsSettling, rows_view};
ghost use Rattle.ob_orm.specs.NewRows.{made_rows};
ghost use Rattle.ob_orm.specs.NewRowSteps.{HoldsNextIds, IsReady, IsTyped, so_far};
ghost use Rattle.ob_orm.specs.Touches.{may_touch};
ghost use Rattle.ob_orm.specs.TouchSteps.{AreOfModels, MayDo};
ghost use Rattle.ob_schema.specs.Models.{HasModel, model_at};
ghost use Rattle.ob_schema.specs.Tables.{Tables};

pub(crate) mod given;
mod rows;

use crate::creating::rows::{Rows, asked_rows};
use crate::making::limits::settle_rows;
use crate::making::next_ids::{Making, begun};
use crate::making::{Maker, make_rows};
use crate::touching::{Touched, first_withheld, test_touched, touched_by};
use ob_access::Policy;
use ob_base::{
    FieldNo, Ledger, ModelNo, NoMemory, Op, Place, RecId, Refusal, Sequence, Steps, Value,
};
use ob_cache::Engine;
use ob_call::{Call, Json};
use ob_io::Keeper;
use ob_rows::{Author, Caller, first_unwritable, groups_of};
use std::alloc::Global;

/// Rows that are to be made: the edits, and how the rows' ids are told.
#[derive(Drop)]
struct Plan {
    making: Making,
    told: Json,
}

/// Makes a row of the values that the object gives, or one of each object of the list, in its
/// order, and stamps it with the caller and the call's moment; a field that isn't given has its
/// default, else it is unset, false, 0 or the empty list. Answers the row's id, or the list of the
/// rows' ids; the engine is then settled with the rows, and not flushed. Of a model with parents
/// each row has rows of these: one that no given id names is made before it, of what is given for
/// its fields, and in another one what is given is set; these are stamped too. Else the call is
/// refused, with the first of: arguments of another form, at their place; a right that its caller
/// lacks to make rows of the model, or to make or change one of those that are made or changed, in
/// the order in which they are; a field that he may not give a value; a value of another form, at
/// its place; a row of a parent that was there, is changed, and a rule denies him, the least; what
/// the tables with the rows break; and a row that is made and a rule denies him in these tables, the
/// least. Then the engine rests as it did. He is judged by his groups before the call. The caller of
/// this function sees to it that rows of the model and of its parents may be made and changed
/// (`is_creatable`), that the engine rests, that the policy is one over its registry, and that the
/// moment lies within the years 0001 to 9999.
pub fn create<K: Keeper, L: Ledger>(
    alloc: Global,
    engine: &mut Engine<'_, K>,
    policy: &Policy,
    call: &Call<'_>,
    steps: &mut Steps<L>,
) -> Result<Json, Refusal>
    requires model { HasModel (models_at (standpoint K.Keeper engine.old)) call.now.model }
    requires moment { IsMoment call.now.now }
    requires rest { IsResting (standpoint K.Keeper engine.old) }
    requires policy { IsPolicyOver (models_at (standpoint K.Keeper engine.old)) policy.now }

    // It is the machine's create.
    ensures call { let before = standpoint K.Keeper engine.old in let models = models_at before in
        IfSome (model_at models call.entry.now.model) (λ info. let c = called_by call.entry.now info in
        IsCalled (Creates models policy.now c) before (standpoint K.Keeper engine.new) (CreateCause models policy.now c) (result_view result)) }
    ensures plain { IfOk result (λ json. has_float (view json) ≡ false) }
    ensures ticks { (n : ℕ) × (steps.new ≡ ticked_times n L.noted steps.old) }
    ensures lender { engine.new.keeper.ghost_name ≡ engine.old.keeper.ghost_name }
{
    create_rows(alloc, engine, policy, call, steps)
}

/// The same, clause by clause.
fn create_rows<K: Keeper, L: Ledger>(
    alloc: Global,
    engine: &mut Engine<'_, K>,
    policy: &Policy,
    call: &Call<'_>,
    steps: &mut Steps<L>,
) -> Result<Json, Refusal>
    requires model { HasModel engine.old.held.models call.now.model }
    requires moment { IsMoment call.now.now }
    requires rest { IsAtRest engine.old.held.models engine.old.held }
    requires policy { IsPolicyOver engine.old.held.models policy.now }
    ensures answer { let before = standpoint K.Keeper engine.old in let models = models_at before in (tables : Tables) → HasTables before tables
        → IfSome (model_at models call.entry.now.model) (λ info. AnswersBy (Creates models policy.now (called_by call.entry.now info)) before (standpoint K.Keeper engine.new) tables (result_view result)) }
    ensures causes { IfErr result (Refuses (Rose (K.faults engine.old.keeper.now) (K.faults engine.new.keeper.now))
        (λ why. IfSome (model_at engine.old.held.models call.entry.now.model) (λ info. CreateCause engine.old.held.models policy.now (called_by call.entry.now info) why))) }
    ensures rests { IsAtRest engine.old.held.models engine.new.held }
    ensures count { K.faults engine.old.keeper.now ≤ K.faults engine.new.keeper.now }
    ensures ticks { (n : ℕ) × (steps.new ≡ ticked_times n L.noted steps.old) }
    ensures plain { IfOk result (λ json. has_float (view json) ≡ false) }
    ensures same { K.kept engine.new.keeper.now ≡ K.kept engine.old.keeper.now }
    ensures lender { engine.new.keeper.ghost_name ≡ engine.old.keeper.ghost_name }
{
    let groups = groups_of(alloc, engine, policy, call.caller)?;
    let by = Caller {
        policy,
        groups: &groups,
        user: call.caller,
    };
    create_by(alloc, engine, &by, call, steps)
}

/// The same, by the caller's groups.
fn create_by<K: Keeper, L: Ledger>(
    alloc: Global,
    engine: &mut Engine<'_, K>,
    by: &Caller<'_>,
    call: &Call<'_>,
    steps: &mut Steps<L>,
) -> Result<Json, Refusal>
    requires model { HasModel engine.old.held.models call.now.model }
    requires moment { IsMoment call.now.now }
    requires rest { IsAtRest engine.old.held.models engine.old.held }
    requires policy { IsPolicyOver engine.old.held.models by.now.policy.now }
    requires user { by.now.user ≡ call.now.caller }
    ensures answer { let before = standpoint K.Keeper engine.old in let models = models_at before in (tables : Tables) → HasTables before tables
        → IfSome (model_at models call.entry.now.model) (λ info. AnswersBy (CreatesBy models by.now (called_by call.entry.now info)) before (standpoint K.Keeper engine.new) tables (result_view result)) }
    ensures causes { IfErr result (Refuses (Rose (K.faults engine.old.keeper.now) (K.faults engine.new.keeper.now))
        (λ why. IfSome (model_at engine.old.held.models call.entry.now.model) (λ info. CreateCause engine.old.held.models by.now.policy.now (called_by call.entry.now info) why))) }
    ensures rests { IsAtRest engine.old.held.models engine.new.held }
    ensures count { K.faults engine.old.keeper.now ≤ K.faults engine.new.keeper.now }
    ensures ticks { (n : ℕ) × (steps.new ≡ ticked_times n L.noted steps.old) }
    ensures plain { IfOk result (λ json. has_float (view json) ≡ false) }
    ensures same { K.kept engine.new.keeper.now ≡ K.kept engine.old.keeper.now }
    ensures lender { engine.new.keeper.ghost_name ≡ engine.old.keeper.ghost_name }
{
    let rows = asked_rows(alloc, engine.schema(), call)?;
    make_asked(alloc, engine, by, call, rows, steps)
}

/// Settles the engine with rows that a caller asks for, and answers their ids; else it rests as it
/// did.
fn make_asked<K: Keeper, L: Ledger>(
    alloc: Global,
    engine: &mut Engine<'_, K>,
    by: &Caller<'_>,
    call: &Call<'_>,
    rows: Rows,
    steps: &mut Steps<L>,
) -> Result<Json, Refusal>
    requires model { HasModel engine.old.held.models call.now.model }
    requires moment { IsMoment call.now.now }
    requires typed { All (All (IsTyped engine.old.held.models call.now.model)) rows.values.items }
    requires rest { IsAtRest engine.old.held.models engine.old.held }
    requires policy { IsPolicyOver engine.old.held.models by.now.policy.now }
    requires user { by.now.user ≡ call.now.caller }
    ensures settled { IfOk result (λ json. (tables : Tables) → RestsAt (K.kept engine.old.keeper.now) engine.old.held tables
        → IsMadeBy engine.old.held.models by.now (author_by call.entry.now) call.entry.now.model tables (rows_view rows) (view json)
        × Stands (K.kept engine.new.keeper.now) engine.new.held (settled_over engine.old.held.models tables (with_rows engine.old.held.models (author_by call.entry.now) call.entry.now.model tables (rows_view rows)))) }
    ensures refused { IfErr result (λ why. (tables : Tables) → RestsAt (K.kept engine.old.keeper.now) engine.old.held tables
        → RestsAt (K.kept engine.new.keeper.now) engine.new.held tables
        × Refuses (Rose (K.faults engine.old.keeper.now) (K.faults engine.new.keeper.now))
        (StopsCreate engine.old.held.models by.now.policy.now (author_by call.entry.now) call.entry.now.model tables by.now.groups.now (rows_view rows)) why) }
    ensures causes { IfErr result (Refuses (Rose (K.faults engine.old.keeper.now) (K.faults engine.new.keeper.now))
        (MayStopCreate engine.old.held.models by.now.policy.now call.entry.now.caller call.entry.now.model (rows_view rows))) }
    ensures rests { IsAtRest engine.old.held.models engine.new.held }
    ensures count { K.faults engine.old.keeper.now ≤ K.faults engine.new.keeper.now }
    ensures ticks { (n : ℕ) × (steps.new ≡ ticked_times n L.noted steps.old) }
    ensures plain { IfOk result (λ json. has_float (view json) ≡ false) }
    ensures same { K.kept engine.new.keeper.now ≡ K.kept engine.old.keeper.now }
    ensures lender { engine.new.keeper.ghost_name ≡ engine.old.keeper.ghost_name }
{
    let Rows {
        values,
        fields,
        wrong,
        is_list,
    } = rows;
    let model = call.model;
    let plan = planned(alloc, engine, call, values, is_list)?;
    let edits = plan.making.edits.as_slice();
    let touched = touched_by(alloc, engine, (Op::Create, model), edits)?;
    allowed(by, model, &touched, fields.as_slice(), wrong)?;
    settle_admitted(alloc, engine, by, &plan.making, &touched, steps)?;
    Ok(plan.told)
}

/// Rows that a call asks for, of these values, as they are made.
fn planned<K: Keeper>(
    alloc: Global,
    engine: &mut Engine<'_, K>,
    call: &Call<'_>,
    values: Vec<Sequence<(FieldNo, Value)>>,
    is_list: bool,
) -> Result<Plan, Refusal>
    requires model { HasModel engine.old.held.models call.now.model }
    requires moment { IsMoment call.now.now }
    requires typed { All (All (IsTyped engine.old.held.models call.now.model)) values.items }
    requires rest { IsAtRest engine.old.held.models engine.old.held }
    ensures planned { IfOk result (λ plan. (tables : Tables) → RestsAt (K.kept engine.old.keeper.now) engine.old.held tables
        → IsPlanned engine.old.held.models (author_by call.entry.now) call.entry.now.model values.items is_list tables plan) }
    ensures within { IfOk result (λ plan. All (MayDo (may_touch engine.old.held.models call.entry.now.model)) plan.making.edits.items) }
    ensures ready { IfOk result (λ plan. IsReady engine.old.held.models plan.making) }
    ensures plain { IfOk result (λ plan. has_float (view plan.told) ≡ false) }
    ensures causes { IfErr result (Refuses (Rose (K.faults engine.old.keeper.now) (K.faults engine.new.keeper.now)) (λ _. ⊥)) }
    ensures same { Stays (K.kept engine.old.keeper.now) engine.old.held (K.kept engine.new.keeper.now) engine.new.held }
    ensures count { K.faults engine.old.keeper.now ≤ K.faults engine.new.keeper.now }
    ensures lender { engine.new.keeper.ghost_name ≡ engine.old.keeper.ghost_name }
{
    let mut making = begun(alloc, engine)?;
    let maker = Maker {
        alloc,
        schema: engine.schema(),
        author: Author {
            user: call.caller,
            now: call.now,
        },
    };
    let told = told_rows(&maker, &mut making, call.model, values, is_list)?;
    Ok(Plan { making, told })
}

/// Makes rows, and answers how their ids are told: the list of them, or that of the one row.
fn told_rows(
    maker: &Maker<'_>,
    making: &mut Making,
    model: ModelNo,
    values: Vec<Sequence<(FieldNo, Value)>>,
    is_list: bool,
) -> Result<Json, NoMemory>
    requires model { HasModel maker.now.schema.now model }
    requires moment { IsMoment maker.now.author.now }
    requires typed { All (All (IsTyped maker.now.schema.now model)) values.items }
    requires ready { IsReady maker.now.schema.now making.old }
    ensures ready { OnOk result (IsReady maker.entry.now.schema.now making.new) }
    ensures made { IfOk result (λ json. (old : Tables) → HoldsNextIds maker.entry.now.schema.now old making.old
        → let made = made_rows maker.entry.now.schema.now maker.entry.now.author (so_far maker.entry.now.schema.now old making.old) model values.items in
        (making.new.edits.items ≡ making.old.edits.items ++ made.edits) × (view json ≡ ids_told is_list made.ids)) }
    ensures plain { IfOk result (λ json. has_float (view json) ≡ false) }
{
    let ids = make_rows(maker, making, model, values)?;
    if is_list {
        id_list(maker.alloc, ids.as_slice())
    } else {
        Ok(first_id(ids.as_slice()))
    }
}

/// The list of ids.
fn id_list(alloc: Global, ids: &[RecId]) -> Result<Json, NoMemory>
    ensures { IfOk result (λ json. view json ≡ list_json (map number_json (map (λ id. id.0) ids.now))) }
{
    let mut items = Vec::new(alloc);
    for id in ids {
        items.push(Json::from(id.0))?;
    }
    Ok(Json::Array(items))
}

/// The first of ids, or 0.
fn first_id(ids: &[RecId]) -> Json
    ensures { view result ≡ number_json (get_or (map (λ id. id.0) ids.now) 0 0) }
{
    match ids.first() {
        Some(id) => Json::from(id.0),
        None => Json::from(0u64),
    }
}

/// Whether a caller may do what is asked for, and give these fields of a model values, none of
/// which is wrong. Refused is the first that he may not, else the place that is wrong.
fn allowed(
    by: &Caller<'_>,
    model: ModelNo,
    touched: &Touched,
    fields: &[FieldNo],
    wrong: Option<Place>,
) -> Result<(), Refusal>
    ensures { IsAllowedBy by.now model touched.now.askings.items fields.now wrong result }
{
    if let Some((op, model)) = first_withheld(by, touched.askings.as_slice()) {
        return Err(Refusal::Right(model, op));
    }
    if let Some(field) = first_unwritable(by, model, fields) {
        return Err(Refusal::FieldRight(model, field));
    }
    match wrong {
        Some(place) => Err(Refusal::Request(place)),
        None => Ok(()),
    }
}

/// Settles the engine with rows that were made, where rules admit to a caller those that are
/// changed, as they were before, and those that are made, in the tables with them; else it rests as
/// it did.
fn settle_admitted<K: Keeper, L: Ledger>(
    alloc: Global,
    engine: &mut Engine<'_, K>,
    by: &Caller<'_>,
    making: &Making,
    touched: &Touched,
    steps: &mut Steps<L>,
) -> Result<(), Refusal>
    requires ready { IsReady engine.old.held.models making.now }
    requires models { AreOfModels engine.old.held.models touched.now }
    requires rest { IsAtRest engine.old.held.models engine.old.held }
    requires policy { IsPolicyOver engine.old.held.models by.now.policy.now }
    ensures settled { OnOk result ((tables : Tables) → RestsAt (K.kept engine.old.keeper.now) engine.old.held tables
        → let new = so_far engine.old.held.models tables making.now in
        AdmitsChanged engine.old.held.models by.now touched.now tables × AdmitsMade engine.old.held.models by.now touched.now new
        × Stands (K.kept engine.new.keeper.now) engine.new.held (settled_over engine.old.held.models tables new)) }
    ensures refused { IfErr result (λ why. (tables : Tables) → RestsAt (K.kept engine.old.keeper.now) engine.old.held tables
        → RestsAt (K.kept engine.new.keeper.now) engine.new.held tables
        × Refuses (Rose (K.faults engine.old.keeper.now) (K.faults engine.new.keeper.now))
        (StopsSettling engine.old.held.models by.now touched.now tables (so_far engine.old.held.models tables making.now)) why) }
    ensures causes { IfErr result (Refuses (Rose (K.faults engine.old.keeper.now) (K.faults engine.new.keeper.now)) (MayStopSettling engine.old.held.models touched.now)) }
    ensures rests { IsAtRest engine.old.held.models engine.new.held }
    ensures count { K.faults engine.old.keeper.now ≤ K.faults engine.new.keeper.now }
    ensures ticks { (n : ℕ) × (steps.new ≡ ticked_times n L.noted steps.old) }
    ensures same { K.kept engine.new.keeper.now ≡ K.kept engine.old.keeper.now }
    ensures lender { engine.new.keeper.ghost_name ≡ engine.old.keeper.ghost_name }
{
    test_touched(alloc, engine, by, Op::Write, &touched.changed)?;
    settle_rows(engine, making, steps)?;
    let admitted = test_touched(alloc, engine, by, Op::Create, &touched.made);
    if admitted.is_err() {
        engine.forget();
    }
    admitted
}
