//! `create`: rows of objects of values, with what their commands do. What it promises is
//! `CreatesSome`, and why it may be refused over any keeper `CreateMayCome`.

ghost use Rattle.std.specs.Prelude.{◌≡◌, ◌≤◌, ℕ, false, All, IfErr, IfOk, IfSome, None, OnErr, OnOk, length, map, true, vec_len};
ghost use Rattle.serde_json.specs.View.{view};
ghost use Rattle.serde_json.specs.Written.{has_float};
ghost use Rattle.ob_access.specs.Policies.{IsPolicyOver};
ghost use Rattle.ob_base.specs.Tally.{ticked_times};
ghost use Rattle.ob_base.specs.Times.{IsMoment};
ghost use Rattle.ob_base.specs.declared.refusal.Op.TheVariants as op;
ghost use Rattle.ob_cache.specs.Calls.{AnswersBy, HasTables, IsCalled, IsResting, Refuses, models_at, standpoint};
ghost use Rattle.ob_cache.specs.Stages.{IsUsable};
ghost use Rattle.ob_cache.specs.Standing.{IsAtRest};
ghost use Rattle.ob_call.specs.Called.{called_by, result_view};
ghost use Rattle.ob_call.specs.Forms.{fields_at};
ghost use Rattle.ob_call.specs.Places.{spot_place};
ghost use Rattle.ob_codec.specs.CommandForms.{IsObject, list_json, number_json};
ghost use Rattle.ob_commands.specs.Asked.{objects_fault};
ghost use Rattle.ob_commands.specs.Changes.{CreateMayCome, CreatesSome, TellsFor};
ghost use Rattle.ob_effect.specs.Effect.{IsNoted, IsStep, IsWriterOver, Keeps};
ghost use Rattle.ob_commands.specs.Finding.{IsFound};
ghost use Rattle.ob_commands.specs.Making.{ComesBack, SettlesTo, StopsCreate, TakeAll, TellsTaken};
ghost use Rattle.ob_effect.specs.Rights.{may};
ghost use Rattle.ob_io.specs.Cause.{Rose};
ghost use Rattle.ob_schema.specs.Models.{HasModel, model_at};
ghost use Rattle.ob_schema.specs.Tables.{Tables};

use crate::asked::asked_objects;
use crate::asked::forms::item_place;
use crate::findings::{Finder, Findings, add_findings, findings_in};
use crate::judging::{settle, test_found};
use ob_access::Policy;
use ob_base::{Ledger, NoMemory, Op, RecId, Refusal, Steps};
use ob_cache::Engine;
use ob_call::{Call, Given, Json};
use ob_effect::{Caller, Notes, Writer, create_row, groups_of, kept_relations, may, object_of};
use ob_io::Keeper;
use ob_rows::Author;
use std::alloc::Global;

/// Makes a row of the values that the object gives, or one of each object of the list, in its
/// order, with rows of the parents that no id links and with what the commands on its lists do.
/// Answers the row's id, or the list of the rows' ids; the engine is then settled with all that, and
/// not flushed. Refused is the first of: an argument that is malformed; a right that the caller
/// lacks on a model or a field; a value that is malformed; a row that rules deny him; something that
/// the call or its tables break. Then the engine rests as it did.
pub(crate) fn create_some<K: Keeper, L: Ledger>(
    alloc: Global,
    engine: &mut Engine<'_, K>,
    policy: &Policy,
    call: &Call<'_>,
    steps: &mut Steps<L>,
) -> Result<Json, Refusal>
    requires model { HasModel (models_at (standpoint K.Keeper engine.old)) call.now.model }
    requires moment { IsMoment call.now.now }
    requires rest { IsResting (standpoint K.Keeper engine.old) }
    requires policy { IsPolicyOver (models_at (standpoint K.Keeper engine.old)) policy.now }
    ensures call { IfSome (model_at (models_at (standpoint K.Keeper engine.old)) call.entry.now.model) (λ info.
        IsCalled (CreatesSome (models_at (standpoint K.Keeper engine.old)) policy.now (called_by call.entry.now info)) (standpoint K.Keeper engine.old) (standpoint K.Keeper engine.new)
        (CreateMayCome (models_at (standpoint K.Keeper engine.old)) policy.now (called_by call.entry.now info)) (result_view result)) }
    ensures plain { IfOk result (λ json. has_float (view json) ≡ false) }
    ensures ticks { (n : ℕ) × (steps.new ≡ ticked_times n L.noted steps.old) }
    ensures lender { engine.new.keeper.ghost_name ≡ engine.old.keeper.ghost_name }
{
    create_asked(alloc, engine, policy, call, steps)
}

/// The same, clause by clause.
fn create_asked<K: Keeper, L: Ledger>(
    alloc: Global,
    engine: &mut Engine<'_, K>,
    policy: &Policy,
    call: &Call<'_>,
    steps: &mut Steps<L>,
) -> Result<Json, Refusal>
    requires model { HasModel engine.old.held.models call.now.model }
    requires moment { IsMoment call.now.now }
    requires rest { IsAtRest engine.old.held.models engine.old.held }
    requires policy { IsPolicyOver engine.old.held.models policy.now }
    ensures answer { let before = standpoint K.Keeper engine.old in let models = models_at before in (tables : Tables) → HasTables before tables
        → IfSome (model_at models call.entry.now.model) (λ info. AnswersBy (CreatesSome models policy.now (called_by call.entry.now info)) before (standpoint K.Keeper engine.new) tables (result_view result)) }
    ensures causes { IfErr result (Refuses (Rose (K.faults engine.old.keeper.now) (K.faults engine.new.keeper.now))
        (λ why. IfSome (model_at engine.old.held.models call.entry.now.model) (λ info. CreateMayCome engine.old.held.models policy.now (called_by call.entry.now info) why))) }
    ensures rests { IsAtRest engine.old.held.models engine.new.held }
    ensures count { K.faults engine.old.keeper.now ≤ K.faults engine.new.keeper.now }
    ensures ticks { (n : ℕ) × (steps.new ≡ ticked_times n L.noted steps.old) }
    ensures plain { IfOk result (λ json. has_float (view json) ≡ false) }
    ensures same { K.kept engine.new.keeper.now ≡ K.kept engine.old.keeper.now }
    ensures lender { engine.new.keeper.ghost_name ≡ engine.old.keeper.ghost_name }
{
    let vals = asked_objects(alloc, engine.schema(), call)?;
    let groups = groups_of(alloc, engine, policy, call.caller)?;
    let by = Caller {
        policy,
        groups: &groups,
        user: call.caller,
    };
    make_whole(alloc, engine, by, call, vals, steps)
}

/// Makes rows that a call asks for, and answers how their ids are told; after a refusal the engine
/// rests as it did.
fn make_whole<K: Keeper, L: Ledger>(
    alloc: Global,
    engine: &mut Engine<'_, K>,
    by: Caller<'_>,
    call: &Call<'_>,
    vals: Given<'_>,
    steps: &mut Steps<L>,
) -> Result<Json, Refusal>
    requires model { HasModel engine.old.held.models call.now.model }
    requires moment { IsMoment call.now.now }
    requires rest { IsAtRest engine.old.held.models engine.old.held }
    requires policy { IsPolicyOver engine.old.held.models by.policy.now }
    requires form { objects_fault (fields_at engine.old.held.models call.now.model) (view vals.json.now) ≡ None }
    ensures made { IfOk result (λ json. SettlesTo K.Keeper (λ old new. TellsFor call.entry.now.model old new (view vals.entry.json.now) (view json)) engine.old engine.new) }
    ensures granted { OnOk result (may by.entry op.Create call.entry.now.model ≡ true) }
    ensures back { OnErr result (ComesBack K.Keeper engine.old engine.new) }
    ensures refused { IfErr result (Refuses (Rose (K.faults engine.old.keeper.now) (K.faults engine.new.keeper.now)) (StopsCreate K.Keeper by.entry engine.old (spot_place vals.entry.spot))) }
    ensures plain { IfOk result (λ json. has_float (view json) ≡ false) }
    ensures ticks { (n : ℕ) × (steps.new ≡ ticked_times n L.noted steps.old) }
{
    let made = make_asked(alloc, engine, by, call, vals, steps);
    if made.is_err() {
        engine.forget();
    }
    made
}

/// Makes rows that a call asks for, and answers how their ids are told. After a refusal the engine
/// may have staged something.
fn make_asked<K: Keeper, L: Ledger>(
    alloc: Global,
    engine: &mut Engine<'_, K>,
    by: Caller<'_>,
    call: &Call<'_>,
    vals: Given<'_>,
    steps: &mut Steps<L>,
) -> Result<Json, Refusal>
    requires model { HasModel engine.old.held.models call.now.model }
    requires moment { IsMoment call.now.now }
    requires rest { IsAtRest engine.old.held.models engine.old.held }
    requires policy { IsPolicyOver engine.old.held.models by.policy.now }
    requires form { objects_fault (fields_at engine.old.held.models call.now.model) (view vals.json.now) ≡ None }
    ensures made { IfOk result (λ json. SettlesTo K.Keeper (λ old new. TellsFor call.entry.now.model old new (view vals.entry.json.now) (view json)) engine.old engine.new) }
    ensures granted { OnOk result (may by.entry op.Create call.entry.now.model ≡ true) }
    ensures kept { OnErr result (Keeps K.Keeper engine.old engine.new) }
    ensures refused { IfErr result (Refuses (Rose (K.faults engine.old.keeper.now) (K.faults engine.new.keeper.now)) (StopsCreate K.Keeper by.entry engine.old (spot_place vals.entry.spot))) }
    ensures plain { IfOk result (λ json. has_float (view json) ≡ false) }
    ensures ticks { (n : ℕ) × (steps.new ≡ ticked_times n L.noted steps.old) }
{
    if !may(&by, Op::Create, call.model) {
        return Err(Refusal::Right(call.model, Op::Create));
    }
    let schema = engine.schema();
    let relations = kept_relations(alloc, schema)?;
    let writer = Writer {
        alloc,
        schema,
        relations: relations.as_slice(),
        author: Author {
            user: call.caller,
            now: call.now,
        },
        by,
    };
    let mut notes = Notes::new(alloc);
    let mut found = Findings::none();
    let told = make_told(engine, &writer, &mut notes, call, vals.json, &mut found)?;
    test_found(&writer, vals.spot, found)?;
    settle(engine, &writer, &notes, steps)?;
    Ok(told)
}

/// Makes a row of an object, or one of each object of a list, and answers how their ids are told.
fn make_told<K: Keeper>(
    engine: &mut Engine<'_, K>,
    writer: &Writer<'_>,
    notes: &mut Notes,
    call: &Call<'_>,
    json: &Json,
    found: &mut Findings,
) -> Result<Json, Refusal>
    requires writer { IsWriterOver engine.old.held.models writer.now }
    requires usable { IsUsable engine.old.held.phase }
    requires noted { IsNoted engine.old.held.models notes.old engine.old.held }
    requires model { HasModel engine.old.held.models call.now.model }
    requires form { objects_fault (fields_at engine.old.held.models call.now.model) (view json.now) ≡ None }
    requires found { IsFound writer.now.by found.old }
    ensures step { IsStep K.Keeper writer.entry.now.by engine.old engine.new notes.new result }
    ensures told { IfOk result (λ told. TellsTaken K.Keeper call.entry.now.model (view json.now) (view told) engine.old engine.new) }
    ensures found { OnOk result (IsFound writer.entry.now.by found.new) }
    ensures plain { IfOk result (λ told. has_float (view told) ≡ false) }
{
    match json.as_array() {
        Some(items) => {
            let ids = make_each(engine, writer, notes, call, items.as_slice(), found)?;
            Ok(id_list(writer.alloc, ids.as_slice())?)
        }
        None => {
            add_findings(found, findings_in(&finder_of(writer), call.model, json)?);
            let object = object_of(writer.alloc, writer.schema, call.model, json)?;
            let id = create_row(engine, writer, notes, call.model, &object, None)?;
            Ok(Json::from(id.0))
        }
    }
}

/// Makes a row of each object of a list.
fn make_each<K: Keeper>(
    engine: &mut Engine<'_, K>,
    writer: &Writer<'_>,
    notes: &mut Notes,
    call: &Call<'_>,
    items: &[Json],
    found: &mut Findings,
) -> Result<Vec<RecId>, Refusal>
    requires writer { IsWriterOver engine.old.held.models writer.now }
    requires usable { IsUsable engine.old.held.phase }
    requires noted { IsNoted engine.old.held.models notes.old engine.old.held }
    requires model { HasModel engine.old.held.models call.now.model }
    requires objects { All (λ json. IsObject (view json)) items.now }
    requires found { IsFound writer.now.by found.old }
    ensures step { IsStep K.Keeper writer.entry.now.by engine.old engine.new notes.new result }
    ensures taken { IfOk result (λ ids. TakeAll K.Keeper call.entry.now.model ids.items engine.old engine.new) }
    ensures each { IfOk result (λ ids. vec_len ids ≡ length items.now) }
    ensures found { OnOk result (IsFound writer.entry.now.by found.new) }
{
    let mut ids = Vec::new(writer.alloc);
    for (number, json) in items.iter().enumerate() {
        let own = findings_in(&finder_of(writer), call.model, json)?;
        add_findings(found, in_item(writer.alloc, number, own)?);
        let object = object_of(writer.alloc, writer.schema, call.model, json)?;
        let id = create_row(engine, writer, notes, call.model, &object, None)?;
        ids.push(id)?;
    }
    Ok(ids)
}

/// What is found in an item of a list, with places from the list on.
fn in_item(alloc: Global, number: usize, found: Findings) -> Result<Findings, NoMemory>
    ensures { IfOk result (λ placed. placed.withheld ≡ found.withheld) }
{
    let Findings { withheld, wrong } = found;
    let wrong = match wrong {
        Some(below) => {
            let mut place = item_place(alloc, number)?;
            place.extend(alloc, &below)?;
            Some(place)
        }
        None => None,
    };
    Ok(Findings { withheld, wrong })
}

/// What goes through objects of values of rows that are written.
pub(crate) fn finder_of<'c>(writer: &Writer<'c>) -> Finder<'c>
    ensures schema { result.schema.now ≡ writer.now.schema.now }
    ensures by { result.by ≡ writer.now.by }
{
    Finder {
        alloc: writer.alloc,
        schema: writer.schema,
        by: writer.by,
    }
}

/// The list of ids.
fn id_list(alloc: Global, ids: &[RecId]) -> Result<Json, NoMemory>
    ensures { IfOk result (λ json. view json ≡ list_json (map number_json (map (λ id. id.0) ids.now))) }
{
    let mut items = Vec::new(alloc);
    for id in ids {
        items.push(Json::from(id.0))?;
    }
    Ok(Json::Array(items))
}
