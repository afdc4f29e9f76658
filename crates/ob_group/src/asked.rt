//! What the arguments of `read_group` ask for, once each is of its form.

ghost use Rattle.std.specs.Prelude.{◌≡◌, [], map, option_and_then, option_map, All, IfOk, IfSome, None, unwrap_or};
ghost use Rattle.std.specs.Option.{option_map_or};
ghost use Rattle.serde_json.specs.View.{view};
ghost use Rattle.ob_access.specs.Policies.{IsPolicyOver};
ghost use Rattle.ob_call.specs.ArgumentsSteps.{given_of};
ghost use Rattle.ob_call.specs.Called.{called_by};
ghost use Rattle.ob_call.specs.Forms.{fields_at};
ghost use Rattle.ob_group.specs.GroupForms.{aggregates_in, asked_in, group_terms, json_of, written_in};
ghost use Rattle.ob_group.specs.GroupParts.{IsAskedOver, IsWrittenOver, aggregate_view, asked_view, grouping_view, json_view, terms_view, used_of, written_view};
ghost use Rattle.ob_query.specs.SearchForms.{domain_fault};
ghost use Rattle.ob_schema.specs.Models.{HasField, HasModel, model_at};

use crate::aggregates::{Aggregate, aggregates_in};
use crate::groupings::Grouping;
use crate::terms::{GroupTerm, group_terms};
use crate::written::{Written, count_key, used, written_in};
use ob_base::{ModelNo, NoMemory};
use ob_call::{Call, Given, Json};
use ob_query::{Arguments, Caller, Sought, count_given, sought_by};
use ob_schema::Schema;
use std::alloc::Global;

/// What is asked of groups: whose rows, by which groupings, in which order, what is told of each,
/// from which group on and how many at most (0 is no limit).
#[derive(Drop)]
pub(crate) struct AskedGroups<'j> {
    pub(crate) sought: Sought<'j>,
    pub(crate) written: Written<'j>,
    pub(crate) count_key: String,
    pub(crate) aggregates: Vec<Aggregate<'j>>,
    pub(crate) terms: Vec<GroupTerm>,
    pub(crate) offset: u64,
    pub(crate) limit: u64,
}

impl<'j> AskedGroups<'j> {
    /// The groupings that are used.
    pub(crate) fn groupings(&self) -> &[Grouping<'j>]
        ensures { result.now ≡ used_of self.now.written }
    {
        used(&self.written)
    }
}

/// The arguments of a call that groups rows, each where it is given.
#[derive(Clone, Copy)]
pub(crate) struct GroupsArguments<'j> {
    pub(crate) domain: Option<Given<'j>>,
    pub(crate) fields: Option<Given<'j>>,
    pub(crate) groupby: Option<Given<'j>>,
    pub(crate) offset: Option<Given<'j>>,
    pub(crate) limit: Option<Given<'j>>,
    pub(crate) order: Option<Given<'j>>,
    pub(crate) lazy: Option<Given<'j>>,
}

/// What a call asks for by its arguments.
pub(crate) fn groups_by<'j>(
    alloc: Global,
    schema: &Schema,
    by: Caller<'j>,
    call: &Call<'_>,
    arguments: GroupsArguments<'j>,
) -> Result<AskedGroups<'j>, NoMemory>
    requires policy { IsPolicyOver schema.now by.policy.now }
    requires model { HasModel schema.now call.now.model }
    requires judged { IfSome arguments.domain (λ given. domain_fault schema.now call.now.model (view given.json.now) ≡ None) }
    ensures asked { IfOk result (λ asked. IfSome (model_at schema.now call.entry.now.model) (λ info. let c = called_by call.entry.now info in asked_view asked
        ≡ asked_in schema.now c (written_in info.fields (json_of (option_map given_of arguments.entry.groupby)) (json_of (option_map given_of arguments.entry.lazy))) (option_map given_of arguments.entry.domain)
        (option_map given_of arguments.entry.fields) (option_map given_of arguments.entry.offset) (option_map given_of arguments.entry.limit) (option_map given_of arguments.entry.order))) }
    ensures written { IfOk result (λ asked. written_view asked.written
        ≡ written_in (fields_at schema.now call.entry.now.model) (json_of (option_map given_of arguments.entry.groupby)) (json_of (option_map given_of arguments.entry.lazy))) }
    ensures by { IfOk result (λ asked. asked.sought.by ≡ by.entry) }
    ensures model { IfOk result (λ asked. asked.sought.model ≡ call.entry.now.model) }
    ensures over { IfOk result (IsAskedOver schema.now) }
{
    let rows = Arguments {
        domain: arguments.domain,
        offset: None,
        limit: None,
        order: None,
    };
    let sought = sought_by(alloc, schema, by, call, rows)?;
    let written = written_given(alloc, schema, call.model, arguments)?;
    let aggregates = aggregates_given(alloc, schema, call.model, arguments.fields)?;
    let terms = terms_given(alloc, used(&written), arguments.order)?;
    let count_key = count_key(alloc, &written)?;
    Ok(AskedGroups {
        sought,
        written,
        count_key,
        aggregates,
        terms,
        offset: count_given(arguments.offset),
        limit: count_given(arguments.limit),
    })
}

/// The groupings that are given.
fn written_given<'j>(
    alloc: Global,
    schema: &Schema,
    model: ModelNo,
    arguments: GroupsArguments<'j>,
) -> Result<Written<'j>, NoMemory>
    requires { HasModel schema.now model }
    ensures written { IfOk result (λ written. written_view written
        ≡ written_in (fields_at schema.now model) (json_of (option_map given_of arguments.entry.groupby)) (json_of (option_map given_of arguments.entry.lazy))) }
    ensures there { IfOk result (IsWrittenOver schema.now model) }
{
    let groupby = json_of(arguments.groupby);
    let lazy = json_of(arguments.lazy);
    written_in(alloc, schema, model, groupby, lazy)
}

/// The value of an argument.
fn json_of<'j>(given: Option<Given<'j>>) -> Option<&'j Json>
    ensures { json_view result ≡ json_of (option_map given_of given.entry) }
{
    match given {
        Some(given) => Some(given.json),
        None => None,
    }
}

/// The aggregates that are given.
fn aggregates_given<'j>(
    alloc: Global,
    schema: &Schema,
    model: ModelNo,
    given: Option<Given<'j>>,
) -> Result<Vec<Aggregate<'j>>, NoMemory>
    requires { HasModel schema.now model }
    ensures aggregates { IfOk result (λ aggregates. map aggregate_view aggregates.items
        ≡ option_map_or (λ g. aggregates_in (fields_at schema.now model) g.json) (option_map given_of given.entry) []) }
    ensures there { IfOk result (λ aggregates. All (λ a. HasField schema.now model a.field) aggregates.items) }
{
    match given {
        Some(given) => aggregates_in(alloc, schema, model, given.json),
        None => Ok(Vec::new(alloc)),
    }
}

/// The terms of the order that is given; none where none is.
fn terms_given(
    alloc: Global,
    used: &[Grouping<'_>],
    given: Option<Given<'_>>,
) -> Result<Vec<GroupTerm>, NoMemory>
    ensures { IfOk result (λ terms. terms_view terms
        ≡ unwrap_or (option_and_then (λ g. group_terms (map grouping_view used.now) g.json) (option_map given_of given.entry)) []) }
{
    let Some(given) = given else {
        return Ok(Vec::new(alloc));
    };
    match group_terms(alloc, used, given.json)? {
        Some(terms) => Ok(terms),
        None => Ok(Vec::new(alloc)),
    }
}
