//! `read_group`: the rows of a model that a domain finds, by groups of what they hold for some of
//! its fields, with the number of each group's rows and what they sum up to.
//!
//! Rooms: `period` (the periods of days and moments), `groupings` and `aggregates` (as they are
//! named), `parted` (texts in two parts), `written` (which groupings there are, before the arguments are judged), `terms` (the
//! order of groups), `forms` (the forms of the arguments), `asked` (what these ask for), `gathered`
//! (the rows by their groups), `amounts` (what rows sum up to) and `told_groups` (the objects of
//! groups). What the call means is `Groups`, and why it may be refused `GroupsCause`: a change
//! begins with these.

ghost use Rattle.std.specs.Prelude.{◌≡◌, ◌∷◌, [], false, map, option_map, IfErr, IfOk, IfSome, List};
ghost use Rattle.std.specs.Option.{option_map_or};
ghost use Rattle.serde_json.specs.View.{view};
ghost use Rattle.serde_json.specs.Written.{has_float};
ghost use Rattle.ob_base.specs.declared.id.FieldNo.{FieldNo};
ghost use Rattle.ob_base.specs.declared.id.RecId.{RecId};
ghost use Rattle.ob_base.specs.declared.value.Value.{Value};
ghost use Rattle.ob_access.specs.Policies.{IsPolicyOver};
ghost use Rattle.ob_cache.specs.Calls.{HasTables, IsAsked, IsResting, KeeperRose, Refuses, TellsBy, models_at, standpoint};
ghost use Rattle.ob_call.specs.Called.{called_by, result_view};
ghost use Rattle.ob_call.specs.ArgumentsSteps.{given_of};
ghost use Rattle.ob_call.specs.Forms.{fields_at};
ghost use Rattle.ob_domain.specs.Naming.{named_fields};
ghost use Rattle.ob_domain.specs.Trees.{tree_of_domain};
ghost use Rattle.ob_query.specs.Callers.{IsAllowed, IsAskedBy, in_turn, is_first};
ghost use Rattle.ob_group.specs.GroupForms.{groups_of};
ghost use Rattle.ob_group.specs.GroupParts.{AreGathered, AreSome, IsAskedOver, TellsGroups, asked_view};
ghost use Rattle.ob_group.specs.Groups.{Groups, GroupsCause};
ghost use Rattle.ob_group.specs.NamedGroups.{entry_fields, groups_named};
ghost use Rattle.ob_query.specs.SearchQuestions.{OnlyAsked};
ghost use Rattle.ob_schema.specs.Models.{HasModel, model_at};
ghost use Rattle.ob_schema.specs.Paths.{step_at};
ghost use Rattle.ob_schema.specs.Tables.{Tables};

use crate::aggregates::entries_naming;
use crate::asked::{AskedGroups, GroupsArguments, groups_by};
use crate::forms::groups_parameters;
use crate::gathered::{Groups, gathered};
use crate::groupings::groupings_naming;
use crate::told_groups::group_objects;
use ob_access::Policy;
use ob_base::{Ledger, Refusal, Steps};
use ob_cache::Engine;
use ob_call::{Call, Json, arguments_of};
use ob_io::Keeper;
use ob_query::{Caller, domain_naming, granted, groups_of};
use ob_schema::Schema;
use std::alloc::Global;

/// Answers one object for each group of the rows that meet a domain. Rows are of one group where
/// they hold the same for each grouping, of a day or a moment the first day of its period. The
/// object has the groupings as they are written, the number of the group's rows, and the
/// aggregates. Groups go by what they have for the groupings, rising and unset last, or as
/// `orderby` says, from `offset` on and at most `limit` of them. With `lazy`, which is so where
/// it isn't said, the first grouping alone is used; without groupings there is one group, also of
/// no rows. The rows are those that the caller sees. Refused are arguments of another form, at their
/// place; a caller who may not read the model's rows; and one who may not read a field that the
/// domain, an aggregate or a grouping names, used or not. The caller sees to it that the engine
/// rests.
pub fn read_group<K: Keeper, L: Ledger>(
    alloc: Global,
    engine: &mut Engine<'_, K>,
    policy: &Policy,
    call: &Call<'_>,
    _steps: &mut Steps<L>,
) -> Result<Json, Refusal>
    requires model { HasModel (models_at (standpoint K.Keeper engine.old)) call.now.model }
    requires rest { IsResting (standpoint K.Keeper engine.old) }
    requires policy { IsPolicyOver (models_at (standpoint K.Keeper engine.old)) policy.now }

    // It is the machine's grouping of the model's rows, whatever the tables.
    ensures call { let before = standpoint K.Keeper engine.old in let models = models_at before in
        IfSome (model_at models call.entry.now.model) (λ info. let c = called_by call.entry.now info in
        IsAsked (Groups models policy.now c) before (standpoint K.Keeper engine.new) (GroupsCause models policy.now c) (result_view result)) }
    ensures plain { IfOk result (λ json. has_float (view json) ≡ false) }

    // It counts no evaluation.
    ensures ticks { _steps.new ≡ _steps.old }
    ensures lender { engine.new.keeper.ghost_name ≡ engine.old.keeper.ghost_name }
{
    grouped_rows(alloc, engine, policy, call)
}

/// The groups for which a call asks.
fn grouped_rows<K: Keeper>(
    alloc: Global,
    engine: &mut Engine<'_, K>,
    policy: &Policy,
    call: &Call<'_>,
) -> Result<Json, Refusal>
    requires model { HasModel (models_at (standpoint K.Keeper engine.old)) call.now.model }
    requires rest { IsResting (standpoint K.Keeper engine.old) }
    requires policy { IsPolicyOver (models_at (standpoint K.Keeper engine.old)) policy.now }

    // Over a keeper that tells its rows it is the machine's.
    ensures answer { let before = standpoint K.Keeper engine.old in let models = models_at before in (tables : Tables) → HasTables before tables
        → IfSome (model_at models call.entry.now.model) (λ info. TellsBy (Groups models policy.now (called_by call.entry.now info)) before (standpoint K.Keeper engine.new) tables (result_view result)) }

    // Over any keeper each refusal has its cause.
    ensures causes { IfErr result (Refuses (KeeperRose (standpoint K.Keeper engine.old) (standpoint K.Keeper engine.new))
        (λ why. IfSome (model_at (models_at (standpoint K.Keeper engine.old)) call.entry.now.model) (λ info. GroupsCause (models_at (standpoint K.Keeper engine.old)) policy.now (called_by call.entry.now info) why))) }
    ensures plain { IfOk result (λ json. has_float (view json) ≡ false) }
    ensures asked { OnlyAsked K.Keeper engine.old engine.new }
{
    let groups = groups_of(alloc, engine, policy, call.caller)?;
    let by = Caller {
        policy,
        groups: &groups,
        user: call.caller,
    };
    let asked = asked_groups(alloc, engine.schema(), by, call)?;
    let found = gathered(alloc, engine, &asked)?;
    groups_json(alloc, &asked, found)
}

/// What a call asks for, or why the caller may not ask it.
fn asked_groups<'c>(
    alloc: Global,
    schema: &Schema,
    by: Caller<'c>,
    call: &Call<'c>,
) -> Result<AskedGroups<'c>, Refusal>
    requires policy { IsPolicyOver schema.now by.policy.now }
    requires model { HasModel schema.now call.now.model }
    ensures asked { IfSome (model_at schema.now call.entry.now.model) (λ info. let c = called_by call.entry.now info in
        IsAskedBy by.entry c.model (λ asked meant. meant ≡ asked_view asked) (groups_of schema.now c) (groups_named schema.now c) result) }
    ensures by { IfOk result (λ asked. asked.sought.by ≡ by.entry) }
    ensures model { IfOk result (λ asked. asked.sought.model ≡ call.entry.now.model) }
    ensures over { IfOk result (IsAskedOver schema.now) }
{
    let expected = groups_parameters(schema, call.model, call.args, call.kw);
    let given = arguments_of(alloc, &expected, call.args, call.kw)?;
    let arguments = GroupsArguments {
        domain: given[0],
        fields: given[1],
        groupby: given[2],
        offset: given[3],
        limit: given[4],
        order: given[5],
        lazy: given[6],
    };
    let asked = groups_by(alloc, schema, by, call, arguments)?;
    allowed_groups(alloc, schema, asked, arguments)
}

/// What is asked of groups, where the caller may ask it: he may read the model's rows, and each
/// field that the domain, an aggregate or a grouping names.
fn allowed_groups<'c>(
    alloc: Global,
    schema: &Schema,
    asked: AskedGroups<'c>,
    arguments: GroupsArguments<'c>,
) -> Result<AskedGroups<'c>, Refusal>
    requires { HasModel schema.now asked.sought.model }
    ensures { let old = asked.entry.sought in
        IsAllowed old.by old.model (in_turn ((is_first (option_map given_of arguments.entry.domain), named_fields old.model (tree_of_domain old.domain))
        ∷ (is_first (option_map given_of arguments.entry.fields), map (step_at old.model) (option_map_or (λ g. entry_fields (fields_at schema.now old.model) g.json) (option_map given_of arguments.entry.fields) []))
        ∷ (is_first (option_map given_of arguments.entry.groupby), map (λ g. step_at old.model g.field) asked.entry.written.groupings.items) ∷ []))
        (λ told. told ≡ asked.entry) result }
{
    let sought = &asked.sought;
    let model = sought.model;
    let namings = [
        domain_naming(alloc, model, &arguments.domain, &sought.domain)?,
        entries_naming(alloc, schema, model, &arguments.fields)?,
        groupings_naming(alloc, model, &arguments.groupby, &asked.written)?,
    ];
    granted(&sought.by, model, &namings)?;
    Ok(asked)
}

/// The answer that has the objects of groups.
fn groups_json(alloc: Global, asked: &AskedGroups<'_>, groups: Groups) -> Result<Json, Refusal>
    requires { AreSome groups }
    ensures told { IfOk result (λ json. (held : FieldNo → RecId → Value) → (ids : List RecId) → AreGathered held (asked_view asked.now) ids groups
        → TellsGroups held (asked_view asked.now) ids (view json)) }
    ensures causes { IfErr result (λ why. why ≡ Refusal.NoMemory) }
    ensures plain { IfOk result (λ json. has_float (view json) ≡ false) }
{
    Ok(Json::Array(group_objects(alloc, asked, groups)?))
}
