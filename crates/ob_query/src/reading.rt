//! `read`: the named fields of the named rows, as the caller sees them.
//!
//! Room: `read_form` (the forms of its arguments); how rows are told stands in `told_rows` beside
//! this one. What it means is `Reads`, and why it may be refused over any keeper `ReadCause`: a
//! change begins with these.

ghost use Rattle.std.specs.Prelude.{◌≡◌, false, Contains, IfErr, IfOk, IfSome};
ghost use Rattle.serde_json.specs.View.{view};
ghost use Rattle.serde_json.specs.Written.{has_float};
ghost use Rattle.ob_access.specs.Policies.{IsPolicyOver};
ghost use Rattle.ob_cache.specs.Calls.{HasTables, IsAsked, IsResting, KeeperRose, Refuses, TellsBy, models_at, standpoint};
ghost use Rattle.ob_call.specs.Called.{called_by, result_view};
ghost use Rattle.ob_query.specs.Callers.{IsAskedBy};
ghost use Rattle.ob_query.specs.NamedFields.{read_named};
ghost use Rattle.ob_query.specs.Read.{ReadCause, Reads};
ghost use Rattle.ob_query.specs.ReadArguments.{asked_of};
ghost use Rattle.ob_query.specs.ReadParts.{IsHiddenAmong, IsLeastMissing, IsReadOver, TellsAsked, read_view, told_read};
ghost use Rattle.ob_query.specs.SearchQuestions.{OnlyAsked, TellsOf, TellsTo};
ghost use Rattle.ob_schema.specs.Facts.{OfAllTold};
ghost use Rattle.ob_schema.specs.Models.{HasModel, model_at};
ghost use Rattle.ob_schema.specs.Tables.{Tables};

mod read_form;

use crate::caller::{Caller, granted, groups_of};
use crate::naming::names_naming;
use crate::reading::read_form::read_parameters;
use crate::searching::questions::exists;
use crate::searching::sought::told_fields;
use crate::told_rows::fetched_rows;
use ob_access::Policy;
use ob_base::{FieldNo, Ledger, ModelNo, Op, RecId, Refusal, Steps};
use ob_cache::Engine;
use ob_call::{Call, Json, arguments_of, least, named_fields, named_ids};
use ob_io::Keeper;
use ob_schema::Schema;
use std::alloc::Global;

/// What a read asks for, and who asks: which rows of a model, and which fields of them.
#[derive(Drop)]
pub(crate) struct Asked<'c> {
    pub(crate) by: Caller<'c>,
    pub(crate) model: ModelNo,
    pub(crate) ids: Vec<u64>,
    pub(crate) fields: Vec<FieldNo>,
}

/// Answers one object for each named row, in the order of the ids, each id once at its
/// first place: the id and the named fields, or where none is named all that the caller may read.
/// Refused are arguments of another form, at their place; a caller who may not read the model's
/// rows, or a field that is named; ids that don't exist, the least of which is named; and else ids
/// of rows that aren't admitted to him, the least of which is named. The caller sees to it that the
/// engine rests.
pub fn read<K: Keeper, L: Ledger>(
    alloc: Global,
    engine: &mut Engine<'_, K>,
    policy: &Policy,
    call: &Call<'_>,
    _steps: &mut Steps<L>,
) -> Result<Json, Refusal>
    requires model { HasModel (models_at (standpoint K.Keeper engine.old)) call.now.model }
    requires rest { IsResting (standpoint K.Keeper engine.old) }
    requires policy { IsPolicyOver (models_at (standpoint K.Keeper engine.old)) policy.now }

    // It is the machine's read of the model, whatever the tables.
    ensures call { let before = standpoint K.Keeper engine.old in let models = models_at before in
        IfSome (model_at models call.entry.now.model) (λ info. let c = called_by call.entry.now info in
        IsAsked (Reads models policy.now c) before (standpoint K.Keeper engine.new) (ReadCause policy.now c) (result_view result)) }
    ensures plain { IfOk result (λ json. has_float (view json) ≡ false) }

    // It counts no evaluation.
    ensures ticks { _steps.new ≡ _steps.old }
    ensures lender { engine.new.keeper.ghost_name ≡ engine.old.keeper.ghost_name }
{
    objects_read(alloc, engine, policy, call)
}

/// The objects of the rows that a call asks for.
fn objects_read<K: Keeper>(
    alloc: Global,
    engine: &mut Engine<'_, K>,
    policy: &Policy,
    call: &Call<'_>,
) -> Result<Json, Refusal>
    requires model { HasModel (models_at (standpoint K.Keeper engine.old)) call.now.model }
    requires rest { IsResting (standpoint K.Keeper engine.old) }
    requires policy { IsPolicyOver (models_at (standpoint K.Keeper engine.old)) policy.now }

    // Over a keeper that tells its rows it is the machine's read.
    ensures answer { let before = standpoint K.Keeper engine.old in let models = models_at before in (tables : Tables) → HasTables before tables
        → IfSome (model_at models call.entry.now.model) (λ info. TellsBy (Reads models policy.now (called_by call.entry.now info)) before (standpoint K.Keeper engine.new) tables (result_view result)) }

    // Over any keeper each refusal has its cause.
    ensures causes { IfErr result (Refuses (KeeperRose (standpoint K.Keeper engine.old) (standpoint K.Keeper engine.new))
        (λ why. IfSome (model_at (models_at (standpoint K.Keeper engine.old)) call.entry.now.model) (λ info. ReadCause policy.now (called_by call.entry.now info) why))) }
    ensures plain { IfOk result (λ json. has_float (view json) ≡ false) }
    ensures asked { OnlyAsked K.Keeper engine.old engine.new }
{
    let groups = groups_of(alloc, engine, policy, call.caller)?;
    let by = Caller {
        policy,
        groups: &groups,
        user: call.caller,
    };
    let asked = asked_rows(alloc, engine.schema(), by, call)?;
    match least_missing(engine, asked.model, asked.ids.as_slice())? {
        Some(id) => Err(Refusal::Missing(asked.model, RecId(id))),
        None => told_rows(alloc, engine, &asked),
    }
}

/// What a call asks for, or why the caller may not ask it.
fn asked_rows<'c>(
    alloc: Global,
    schema: &Schema,
    by: Caller<'c>,
    call: &Call<'_>,
) -> Result<Asked<'c>, Refusal>
    requires policy { IsPolicyOver schema.now by.policy.now }
    requires model { HasModel schema.now call.now.model }
    ensures asked { IfSome (model_at schema.now call.entry.now.model) (λ info. let c = called_by call.entry.now info in
        IsAskedBy by.entry c.model (λ asked meant. read_view info asked ≡ told_read by.entry c.model meant) (asked_of c) (read_named c) result) }
    ensures by { IfOk result (λ asked. asked.by ≡ by.entry) }
    ensures model { IfOk result (λ asked. asked.model ≡ call.entry.now.model) }
    ensures over { IfOk result (IsReadOver schema.now) }
{
    let expected = read_parameters(schema, call.model);
    let given = arguments_of(alloc, &expected, call.args, call.kw)?;
    let Some(ids) = &given[0] else {
        unreachable!();
    };
    let ids = named_ids(alloc, ids.json)?;
    let (model, names) = (call.model, &given[1]);
    let namings = [names_naming(alloc, schema, model, names)?];
    granted(&by, model, &namings)?;
    let fields = named_fields(alloc, schema, model, names)?;
    let fields = told_fields(alloc, &by, model, fields.as_slice())?;
    Ok(Asked {
        by,
        model,
        ids,
        fields,
    })
}

/// The least of some ids that doesn't exist, if there is one.
fn least_missing<K: Keeper>(
    engine: &mut Engine<'_, K>,
    model: ModelNo,
    ids: &[u64],
) -> Result<Option<u64>, Refusal>
    requires { HasModel (models_at (standpoint K.Keeper engine.old)) model }
    ensures told { IfOk result (λ missing. OfAllTold (TellsOf K.Keeper engine.old) (λ told. IsLeastMissing told model ids.now missing)) }
    ensures among { IfOk result (λ missing. IfSome missing (Contains ids.now)) }
    ensures causes { IfErr result (Refuses (KeeperRose (standpoint K.Keeper engine.old) (standpoint K.Keeper engine.new)) (λ _. ⊥)) }
    ensures asked { OnlyAsked K.Keeper engine.old engine.new }
{
    let mut missing = None;
    for id in ids {
        if !exists(engine, model, RecId(*id))? {
            missing = least(missing, *id);
        }
    }
    Ok(missing)
}

/// The objects of the rows of ids that exist, in their order; or the least of them whose row isn't
/// admitted to the caller.
fn told_rows<K: Keeper>(
    alloc: Global,
    engine: &mut Engine<'_, K>,
    asked: &Asked<'_>,
) -> Result<Json, Refusal>
    requires over { IsReadOver (models_at (standpoint K.Keeper engine.old)) asked.now }
    ensures told { OfAllTold (TellsTo K.Keeper asked.now.by engine.old) (λ told.
        IfSome (model_at (models_at (standpoint K.Keeper engine.old)) asked.now.model) (λ info. TellsAsked told (KeeperRose (standpoint K.Keeper engine.old) (standpoint K.Keeper engine.new)) asked.now.model (read_view info asked.now) (result_view result))) }
    ensures hidden { IfErr result (Refuses (KeeperRose (standpoint K.Keeper engine.old) (standpoint K.Keeper engine.new)) (IsHiddenAmong asked.now.model asked.now.ids.items)) }
    ensures plain { IfOk result (λ json. has_float (view json) ≡ false) }
    ensures asked { OnlyAsked K.Keeper engine.old engine.new }
{
    let model = asked.model;
    let (ids, fields) = (asked.ids.as_slice(), asked.fields.as_slice());
    let rows = fetched_rows(alloc, engine, &asked.by, model, ids, fields)?;
    match rows.hidden {
        Some(id) => Err(Refusal::Rule(model, Op::Read, RecId(id), None)),
        None => Ok(Json::Array(rows.objects)),
    }
}
