//! `search` and `search_count`: which rows of a model a domain finds, in their order, and how
//! many; `search_read`: their objects. All is answered from the caller's view.
//!
//! Rooms: `forms` (the forms of their arguments), `sought` (what these ask for), `walk` (over the
//! ids of rows, a page at a time), `questions` (to the engine, of a row), `found` (the rows that
//! are found), `order` (rows in their order) and `objects` (of the rows that are told). What the
//! calls mean is `Searches`, `SearchCounts` and `SearchReads`, and why each may be refused
//! `SearchCause`, `SearchCountCause` and `SearchReadCause`: a change begins with these.

ghost use Rattle.std.specs.Prelude.{◌≡◌, ◌∷◌, [], false, map, option_map, All, IfErr, IfOk, IfSome, List};
ghost use Rattle.std.specs.Option.{option_map_or};
ghost use Rattle.serde_json.specs.View.{view};
ghost use Rattle.serde_json.specs.Written.{has_float};
ghost use Rattle.ob_access.specs.Policies.{IsPolicyOver};
ghost use Rattle.ob_cache.specs.Calls.{HasTables, IsAsked, IsResting, KeeperRose, Refuses, TellsBy, models_at, standpoint};
ghost use Rattle.ob_call.specs.Called.{called_by, result_view};
ghost use Rattle.ob_codec.specs.CommandForms.{id_json, list_json};
ghost use Rattle.ob_call.specs.ArgumentsSteps.{given_of};
ghost use Rattle.ob_call.specs.Forms.{fields_at};
ghost use Rattle.ob_domain.specs.Naming.{named_fields};
ghost use Rattle.ob_domain.specs.Trees.{tree_of_domain};
ghost use Rattle.ob_query.specs.Callers.{IsAllowed, IsAskedBy, in_turn, is_first};
ghost use Rattle.ob_query.specs.NamedFields.{count_named, name_fields, objects_named, search_named};
ghost use Rattle.ob_query.specs.Search.{SearchCause, SearchCountCause, SearchCounts, SearchReadCause, SearchReads, Searches};
ghost use Rattle.ob_query.specs.SearchForms.{counted_of, objects_of, sought_of};
ghost use Rattle.ob_query.specs.SearchParts.{IsSoughtOver, IsToldObjects, objects_view, sought_view, told_objects, told_sought};
ghost use Rattle.ob_query.specs.SearchQuestions.{OnlyAsked};
ghost use Rattle.ob_schema.specs.Models.{HasField, HasModel, model_at};
ghost use Rattle.ob_schema.specs.Paths.{step_at};
ghost use Rattle.ob_schema.specs.Tables.{Tables};
ghost use Rattle.ob_schema.specs.declared.info.ModelInfo.{ModelInfo};

pub mod forms;
pub mod found;
mod objects;
pub mod order;
pub mod questions;
pub mod searched;
pub mod sought;
pub mod walk;

use crate::caller::{Caller, granted, groups_of};
use crate::naming::{domain_naming, names_naming, order_naming};
use crate::searching::forms::{count_parameters, search_parameters, search_read_parameters};
use crate::searching::found::{count_found, sought_ids};
use crate::searching::objects::objects_told;
use crate::searching::sought::{
    Arguments, Sought, SoughtObjects, in_told_order, objects_by, sought_by, told_objects,
};
pub use crate::searching::walk::Walk;
use ob_access::Policy;
use ob_base::{Ledger, NoMemory, RecId, Refusal, Steps};
use ob_cache::Engine;
use ob_call::{Call, Given, Json, arguments_of};
use ob_io::Keeper;
use ob_schema::Schema;
use std::alloc::Global;

/// Answers the ids of the rows that meet a domain, of those that the caller sees, in the order that
/// is asked for, else the model's, else by id: from `offset` on, at most `limit` of them. Rows that
/// aren't active are left out, unless the domain asks of `active` outside `any` or the context's
/// `active_test` is `false`. Refused are arguments of another form, at their place; a caller who
/// may not read the model's rows; and one who may not read a field that the domain or the order
/// names. The caller sees to it that the engine rests.
pub fn search<K: Keeper, L: Ledger>(
    alloc: Global,
    engine: &mut Engine<'_, K>,
    policy: &Policy,
    call: &Call<'_>,
    _steps: &mut Steps<L>,
) -> Result<Json, Refusal>
    requires model { HasModel (models_at (standpoint K.Keeper engine.old)) call.now.model }
    requires rest { IsResting (standpoint K.Keeper engine.old) }
    requires policy { IsPolicyOver (models_at (standpoint K.Keeper engine.old)) policy.now }

    // It is the machine's search of the model, whatever the tables.
    ensures call { let before = standpoint K.Keeper engine.old in let models = models_at before in
        IfSome (model_at models call.entry.now.model) (λ info. let c = called_by call.entry.now info in
        IsAsked (Searches models policy.now c) before (standpoint K.Keeper engine.new) (SearchCause models policy.now c) (result_view result)) }
    ensures plain { IfOk result (λ json. has_float (view json) ≡ false) }

    // It counts no evaluation.
    ensures ticks { _steps.new ≡ _steps.old }
    ensures lender { engine.new.keeper.ghost_name ≡ engine.old.keeper.ghost_name }
{
    searched_ids(alloc, engine, policy, call)
}

/// Answers how many rows meet a domain, at most `limit`: those of a `search`.
pub fn search_count<K: Keeper, L: Ledger>(
    alloc: Global,
    engine: &mut Engine<'_, K>,
    policy: &Policy,
    call: &Call<'_>,
    _steps: &mut Steps<L>,
) -> Result<Json, Refusal>
    requires model { HasModel (models_at (standpoint K.Keeper engine.old)) call.now.model }
    requires rest { IsResting (standpoint K.Keeper engine.old) }
    requires policy { IsPolicyOver (models_at (standpoint K.Keeper engine.old)) policy.now }

    // It is the machine's count of the model's rows, whatever the tables.
    ensures call { let before = standpoint K.Keeper engine.old in let models = models_at before in
        IfSome (model_at models call.entry.now.model) (λ info. let c = called_by call.entry.now info in
        IsAsked (SearchCounts models policy.now c) before (standpoint K.Keeper engine.new) (SearchCountCause models policy.now c) (result_view result)) }
    ensures plain { IfOk result (λ json. has_float (view json) ≡ false) }

    // It counts no evaluation.
    ensures ticks { _steps.new ≡ _steps.old }
    ensures lender { engine.new.keeper.ghost_name ≡ engine.old.keeper.ghost_name }
{
    counted_rows(alloc, engine, policy, call)
}

/// Answers the objects of the rows that meet a domain, those of a `search` in its order, `offset`
/// and `limit`: of each the id and the named fields, or where none is named all that the caller
/// may read. Without a domain all rows that he sees meet it. Refused is what a `search` refuses,
/// and a caller who may not read a field that is named. The caller sees to it that the engine rests.
pub fn search_read<K: Keeper, L: Ledger>(
    alloc: Global,
    engine: &mut Engine<'_, K>,
    policy: &Policy,
    call: &Call<'_>,
    _steps: &mut Steps<L>,
) -> Result<Json, Refusal>
    requires model { HasModel (models_at (standpoint K.Keeper engine.old)) call.now.model }
    requires rest { IsResting (standpoint K.Keeper engine.old) }
    requires policy { IsPolicyOver (models_at (standpoint K.Keeper engine.old)) policy.now }

    // It is the machine's search of the model's rows with their objects, whatever the tables.
    ensures call { let before = standpoint K.Keeper engine.old in let models = models_at before in
        IfSome (model_at models call.entry.now.model) (λ info. let c = called_by call.entry.now info in
        IsAsked (SearchReads models policy.now c) before (standpoint K.Keeper engine.new) (SearchReadCause models policy.now c) (result_view result)) }
    ensures plain { IfOk result (λ json. has_float (view json) ≡ false) }

    // It counts no evaluation.
    ensures ticks { _steps.new ≡ _steps.old }
    ensures lender { engine.new.keeper.ghost_name ≡ engine.old.keeper.ghost_name }
{
    searched_objects(alloc, engine, policy, call)
}

/// The ids of the rows for which a call searches.
fn searched_ids<K: Keeper>(
    alloc: Global,
    engine: &mut Engine<'_, K>,
    policy: &Policy,
    call: &Call<'_>,
) -> Result<Json, Refusal>
    requires model { HasModel (models_at (standpoint K.Keeper engine.old)) call.now.model }
    requires rest { IsResting (standpoint K.Keeper engine.old) }
    requires policy { IsPolicyOver (models_at (standpoint K.Keeper engine.old)) policy.now }

    // Over a keeper that tells its rows it is the machine's search.
    ensures answer { let before = standpoint K.Keeper engine.old in let models = models_at before in (tables : Tables) → HasTables before tables
        → IfSome (model_at models call.entry.now.model) (λ info. TellsBy (Searches models policy.now (called_by call.entry.now info)) before (standpoint K.Keeper engine.new) tables (result_view result)) }

    // Over any keeper each refusal has its cause.
    ensures causes { IfErr result (Refuses (KeeperRose (standpoint K.Keeper engine.old) (standpoint K.Keeper engine.new))
        (λ why. IfSome (model_at (models_at (standpoint K.Keeper engine.old)) call.entry.now.model) (λ info. SearchCause (models_at (standpoint K.Keeper engine.old)) policy.now (called_by call.entry.now info) why))) }
    ensures plain { IfOk result (λ json. has_float (view json) ≡ false) }
    ensures asked { OnlyAsked K.Keeper engine.old engine.new }
{
    let groups = groups_of(alloc, engine, policy, call.caller)?;
    let by = Caller {
        policy,
        groups: &groups,
        user: call.caller,
    };
    let sought = asked_search(alloc, engine.schema(), by, call)?;
    let ids = sought_ids(alloc, engine, &sought)?;
    Ok(ids_json(alloc, ids.as_slice())?)
}

/// How many rows a call counts.
fn counted_rows<K: Keeper>(
    alloc: Global,
    engine: &mut Engine<'_, K>,
    policy: &Policy,
    call: &Call<'_>,
) -> Result<Json, Refusal>
    requires model { HasModel (models_at (standpoint K.Keeper engine.old)) call.now.model }
    requires rest { IsResting (standpoint K.Keeper engine.old) }
    requires policy { IsPolicyOver (models_at (standpoint K.Keeper engine.old)) policy.now }

    // Over a keeper that tells its rows it is the machine's count.
    ensures answer { let before = standpoint K.Keeper engine.old in let models = models_at before in (tables : Tables) → HasTables before tables
        → IfSome (model_at models call.entry.now.model) (λ info. TellsBy (SearchCounts models policy.now (called_by call.entry.now info)) before (standpoint K.Keeper engine.new) tables (result_view result)) }

    // Over any keeper each refusal has its cause.
    ensures causes { IfErr result (Refuses (KeeperRose (standpoint K.Keeper engine.old) (standpoint K.Keeper engine.new))
        (λ why. IfSome (model_at (models_at (standpoint K.Keeper engine.old)) call.entry.now.model) (λ info. SearchCountCause (models_at (standpoint K.Keeper engine.old)) policy.now (called_by call.entry.now info) why))) }
    ensures plain { IfOk result (λ json. has_float (view json) ≡ false) }
    ensures asked { OnlyAsked K.Keeper engine.old engine.new }
{
    let groups = groups_of(alloc, engine, policy, call.caller)?;
    let by = Caller {
        policy,
        groups: &groups,
        user: call.caller,
    };
    let sought = asked_count(alloc, engine.schema(), by, call)?;
    let count = count_found(alloc, engine, &sought)?;
    Ok(Json::from(count))
}

/// The objects of the rows for which a call searches.
fn searched_objects<K: Keeper>(
    alloc: Global,
    engine: &mut Engine<'_, K>,
    policy: &Policy,
    call: &Call<'_>,
) -> Result<Json, Refusal>
    requires model { HasModel (models_at (standpoint K.Keeper engine.old)) call.now.model }
    requires rest { IsResting (standpoint K.Keeper engine.old) }
    requires policy { IsPolicyOver (models_at (standpoint K.Keeper engine.old)) policy.now }

    // Over a keeper that tells its rows it is the machine's search that reads.
    ensures answer { let before = standpoint K.Keeper engine.old in let models = models_at before in (tables : Tables) → HasTables before tables
        → IfSome (model_at models call.entry.now.model) (λ info. TellsBy (SearchReads models policy.now (called_by call.entry.now info)) before (standpoint K.Keeper engine.new) tables (result_view result)) }

    // Over any keeper each refusal has its cause.
    ensures causes { IfErr result (Refuses (KeeperRose (standpoint K.Keeper engine.old) (standpoint K.Keeper engine.new))
        (λ why. IfSome (model_at (models_at (standpoint K.Keeper engine.old)) call.entry.now.model) (λ info. SearchReadCause (models_at (standpoint K.Keeper engine.old)) policy.now (called_by call.entry.now info) why))) }
    ensures plain { IfOk result (λ json. has_float (view json) ≡ false) }
    ensures asked { OnlyAsked K.Keeper engine.old engine.new }
{
    let groups = groups_of(alloc, engine, policy, call.caller)?;
    let by = Caller {
        policy,
        groups: &groups,
        user: call.caller,
    };
    let asked = asked_objects(alloc, engine.schema(), by, call)?;
    let ids = sought_ids(alloc, engine, &asked.sought)?;
    objects_told(alloc, engine, &asked, ids.as_slice())
}

/// What a search asks for, or why the caller may not ask it.
fn asked_search<'c>(
    alloc: Global,
    schema: &Schema,
    by: Caller<'c>,
    call: &Call<'_>,
) -> Result<Sought<'c>, Refusal>
    requires policy { IsPolicyOver schema.now by.policy.now }
    requires model { HasModel schema.now call.now.model }
    ensures asked { IfSome (model_at schema.now call.entry.now.model) (λ info. let c = called_by call.entry.now info in
        IsAskedBy by.entry c.model (λ sought meant. sought_view sought ≡ told_sought by.entry c.model meant) (sought_of schema.now c) (search_named schema.now c) result) }
    ensures by { IfOk result (λ sought. sought.by ≡ by.entry) }
    ensures model { IfOk result (λ sought. sought.model ≡ call.entry.now.model) }
    ensures over { IfOk result (IsSoughtOver schema.now) }
{
    let expected = search_parameters(schema, call.model);
    let given = arguments_of(alloc, &expected, call.args, call.kw)?;
    let arguments = Arguments {
        domain: given[0],
        offset: given[1],
        limit: given[2],
        order: given[3],
    };
    let sought = sought_by(alloc, schema, by, call, arguments)?;
    allowed_search(alloc, sought, arguments)
}

/// What a count asks for, or why the caller may not ask it.
fn asked_count<'c>(
    alloc: Global,
    schema: &Schema,
    by: Caller<'c>,
    call: &Call<'_>,
) -> Result<Sought<'c>, Refusal>
    requires policy { IsPolicyOver schema.now by.policy.now }
    requires model { HasModel schema.now call.now.model }
    ensures asked { IfSome (model_at schema.now call.entry.now.model) (λ info. let c = called_by call.entry.now info in
        IsAskedBy by.entry c.model (λ sought meant. sought_view sought ≡ meant) (counted_of schema.now c) (count_named schema.now c) result) }
    ensures by { IfOk result (λ sought. sought.by ≡ by.entry) }
    ensures model { IfOk result (λ sought. sought.model ≡ call.entry.now.model) }
    ensures over { IfOk result (IsSoughtOver schema.now) }
{
    let expected = count_parameters(schema, call.model);
    let given = arguments_of(alloc, &expected, call.args, call.kw)?;
    let arguments = Arguments {
        domain: given[0],
        offset: None,
        limit: given[1],
        order: None,
    };
    let sought = sought_by(alloc, schema, by, call, arguments)?;
    allowed_count(alloc, sought, arguments)
}

/// What a search that reads asks for, or why the caller may not ask it.
fn asked_objects<'c>(
    alloc: Global,
    schema: &Schema,
    by: Caller<'c>,
    call: &Call<'_>,
) -> Result<SoughtObjects<'c>, Refusal>
    requires policy { IsPolicyOver schema.now by.policy.now }
    requires model { HasModel schema.now call.now.model }
    ensures asked { IfSome (model_at schema.now call.entry.now.model) (λ info. let c = called_by call.entry.now info in
        IsAskedBy by.entry c.model (λ asked meant. objects_view info asked ≡ told_objects by.entry c.model meant) (objects_of schema.now c) (objects_named schema.now c) result) }
    ensures by { IfOk result (λ asked. asked.sought.by ≡ by.entry) }
    ensures model { IfOk result (λ asked. asked.sought.model ≡ call.entry.now.model) }
    ensures over { IfOk result (λ asked. IsSoughtOver schema.now asked.sought) }
    ensures there { IfOk result (λ asked. All (HasField schema.now call.entry.now.model) asked.fields.items) }
{
    let expected = search_read_parameters(schema, call.model);
    let given = arguments_of(alloc, &expected, call.args, call.kw)?;
    let arguments = Arguments {
        domain: given[0],
        offset: given[2],
        limit: given[3],
        order: given[4],
    };
    let asked = objects_by(alloc, schema, by, call, arguments, given[1])?;
    allowed_objects(alloc, schema, asked, arguments, given[1])
}

/// A search, in the order that the caller is told, where he may ask it: he may read the model's
/// rows, and each field that the domain or the order names.
fn allowed_search<'c>(
    alloc: Global,
    sought: Sought<'c>,
    arguments: Arguments<'_>,
) -> Result<Sought<'c>, Refusal>
    ensures { let old = sought.entry in
        IsAllowed old.by old.model (in_turn ((is_first (option_map given_of arguments.entry.domain), named_fields old.model (tree_of_domain old.domain)) ∷ (is_first (option_map given_of arguments.entry.order), option_map_or (λ g. map (λ term. step_at old.model term.field) old.order) (option_map given_of arguments.entry.order) []) ∷ []))
        (λ told. (sought_view told ≡ told_sought old.by old.model (sought_view old)) × (told.by ≡ old.by) × (told.model ≡ old.model) × ((models : List ModelInfo) → IsSoughtOver models old → IsSoughtOver models told)) result }
{
    let model = sought.model;
    let namings = [
        domain_naming(alloc, model, &arguments.domain, &sought.domain)?,
        order_naming(alloc, model, &arguments.order, sought.order.as_slice())?,
    ];
    granted(&sought.by, model, &namings)?;
    Ok(in_told_order(alloc, sought)?)
}

/// A count, where the caller may ask it.
fn allowed_count<'c>(
    alloc: Global,
    sought: Sought<'c>,
    arguments: Arguments<'_>,
) -> Result<Sought<'c>, Refusal>
    ensures { let old = sought.entry in IsAllowed old.by old.model (in_turn ((is_first (option_map given_of arguments.entry.domain), named_fields old.model (tree_of_domain old.domain)) ∷ [])) (λ told. told ≡ old) result }
{
    let model = sought.model;
    let namings = [domain_naming(alloc, model, &arguments.domain, &sought.domain)?];
    granted(&sought.by, model, &namings)?;
    Ok(sought)
}

/// A search that reads, in the order and with the fields that the caller is told, where he may ask
/// it: he may read each field that is named too.
fn allowed_objects<'c>(
    alloc: Global,
    schema: &Schema,
    asked: SoughtObjects<'c>,
    arguments: Arguments<'_>,
    fields: Option<Given<'_>>,
) -> Result<SoughtObjects<'c>, Refusal>
    requires { HasModel schema.now asked.sought.model }
    ensures { let old = asked.entry.sought in
        IsAllowed old.by old.model (in_turn ((is_first (option_map given_of arguments.entry.domain), named_fields old.model (tree_of_domain old.domain))
        ∷ (is_first (option_map given_of fields.entry), map (step_at old.model) (option_map_or (λ g. name_fields (fields_at schema.now old.model) g.json) (option_map given_of fields.entry) []))
        ∷ (is_first (option_map given_of arguments.entry.order), option_map_or (λ g. map (λ term. step_at old.model term.field) old.order) (option_map given_of arguments.entry.order) []) ∷ []))
        (λ told. IsToldObjects asked.entry told) result }
{
    let sought = &asked.sought;
    let model = sought.model;
    let namings = [
        domain_naming(alloc, model, &arguments.domain, &sought.domain)?,
        names_naming(alloc, schema, model, &fields)?,
        order_naming(alloc, model, &arguments.order, sought.order.as_slice())?,
    ];
    granted(&sought.by, model, &namings)?;
    Ok(told_objects(alloc, asked)?)
}

/// The JSON of ids.
pub fn ids_json(alloc: Global, ids: &[RecId]) -> Result<Json, NoMemory>
    ensures { IfOk result (λ json. view json ≡ list_json (map id_json ids.now)) }
{
    let mut items = Vec::new(alloc);
    for id in ids {
        items.push(Json::from(id.0))?;
    }
    Ok(Json::Array(items))
}
