//! What the arguments of a search ask for, once each is of its form.

ghost use Rattle.std.specs.Prelude.{◌≡◌, filter, option_map, All, IfOk, IfSome, List, None, Ok};
ghost use Rattle.serde_json.specs.View.{view};
ghost use Rattle.ob_access.specs.Policies.{IsPolicyOver};
ghost use Rattle.ob_call.specs.ArgumentsSteps.{given_of};
ghost use Rattle.ob_call.specs.Called.{called_by};
ghost use Rattle.ob_call.specs.Columns.{asked_columns};
ghost use Rattle.ob_domain.specs.Over.{IsOver};
ghost use Rattle.ob_domain.specs.Reading.{domain_from};
ghost use Rattle.ob_domain.specs.Trees.{tree_of_domain};
ghost use Rattle.ob_query.specs.SearchForms.{active_asked, active_field, count_given, domain_fault, objects_in, order_given, sought_in, tree_given};
ghost use Rattle.ob_query.specs.Callers.{may_read_field};
ghost use Rattle.ob_query.specs.Search.{told_order};
ghost use Rattle.ob_query.specs.SearchParts.{IsSoughtOver, IsToldObjects, objects_view, sought_view, told_sought};
ghost use Rattle.ob_schema.specs.Models.{HasField, HasModel, model_at};
ghost use Rattle.ob_schema.specs.Paths.{step_at};
ghost use Rattle.ob_schema.specs.declared.info.ModelInfo.{ModelInfo};

use crate::caller::{Caller, may_read_field};
use crate::naming::step_at;
use crate::searching::forms::{count_of, order_of};
use ob_base::{FieldNo, ModelNo, NoMemory, Sequence};
use ob_call::{Call, Given, Json, active_test, named_fields};
use ob_domain::{Domain, DomainFault, one_domain, read};
use ob_schema::{FieldType, OrderTerm, Schema};
use std::alloc::Global;

/// What a search asks for, and who asks: of the rows of a model that he sees those that meet a
/// domain, and in which a field is true where it asks for one, in an order, from one on, at most so many
/// (0 is no limit).
#[derive(Drop)]
pub struct Sought<'c> {
    pub by: Caller<'c>,
    pub model: ModelNo,
    pub domain: Domain,
    pub active: Option<FieldNo>,
    pub order: Sequence<OrderTerm>,
    pub offset: u64,
    pub limit: u64,
}

/// What is asked for of rows that are told: which rows, and the fields of their objects.
#[derive(Drop)]
pub struct SoughtObjects<'c> {
    pub sought: Sought<'c>,
    pub fields: Vec<FieldNo>,
}

/// The arguments of a search, each where it is given.
#[derive(Clone, Copy)]
pub struct Arguments<'j> {
    pub domain: Option<Given<'j>>,
    pub offset: Option<Given<'j>>,
    pub limit: Option<Given<'j>>,
    pub order: Option<Given<'j>>,
}

/// What a call searches for by its arguments.
pub fn sought_by<'c>(
    alloc: Global,
    schema: &Schema,
    by: Caller<'c>,
    call: &Call<'_>,
    arguments: Arguments<'_>,
) -> Result<Sought<'c>, NoMemory>
    requires policy { IsPolicyOver schema.now by.policy.now }
    requires model { HasModel schema.now call.now.model }
    requires judged { IfSome arguments.domain (λ given. domain_fault schema.now call.now.model (view given.json.now) ≡ None) }
    ensures sought { IfOk result (λ sought. IfSome (model_at schema.now call.entry.now.model) (λ info. sought_view sought
        ≡ sought_in schema.now (called_by call.entry.now info) (option_map given_of arguments.entry.domain) (option_map given_of arguments.entry.offset) (option_map given_of arguments.entry.limit) (option_map given_of arguments.entry.order))) }
    ensures by { IfOk result (λ sought. sought.by ≡ by.entry) }
    ensures model { IfOk result (λ sought. sought.model ≡ call.entry.now.model) }
    ensures over { IfOk result (IsSoughtOver schema.now) }
{
    let domain = domain_given(alloc, schema, call.model, arguments.domain)?;
    let active = active_asked(schema, call, &domain);
    let order = order_given(alloc, schema, call.model, arguments.order)?;
    Ok(Sought {
        by,
        model: call.model,
        domain,
        active,
        order,
        offset: count_given(arguments.offset),
        limit: count_given(arguments.limit),
    })
}

/// What a call searches for by its arguments, and the fields that it names, or all.
pub fn objects_by<'c>(
    alloc: Global,
    schema: &Schema,
    by: Caller<'c>,
    call: &Call<'_>,
    arguments: Arguments<'_>,
    fields: Option<Given<'_>>,
) -> Result<SoughtObjects<'c>, NoMemory>
    requires policy { IsPolicyOver schema.now by.policy.now }
    requires model { HasModel schema.now call.now.model }
    requires judged { IfSome arguments.domain (λ given. domain_fault schema.now call.now.model (view given.json.now) ≡ None) }
    ensures asked { IfOk result (λ asked. IfSome (model_at schema.now call.entry.now.model) (λ info. objects_view info asked
        ≡ objects_in (sought_in schema.now (called_by call.entry.now info) (option_map given_of arguments.entry.domain) (option_map given_of arguments.entry.offset)
        (option_map given_of arguments.entry.limit) (option_map given_of arguments.entry.order)) (asked_columns info (option_map given_of fields.entry)))) }
    ensures by { IfOk result (λ asked. asked.sought.by ≡ by.entry) }
    ensures model { IfOk result (λ asked. asked.sought.model ≡ call.entry.now.model) }
    ensures over { IfOk result (λ asked. IsSoughtOver schema.now asked.sought) }
    ensures there { IfOk result (λ asked. All (HasField schema.now call.entry.now.model) asked.fields.items) }
{
    let sought = sought_by(alloc, schema, by, call, arguments)?;
    let fields = named_fields(alloc, schema, call.model, &fields)?;
    Ok(SoughtObjects { sought, fields })
}

/// The same search, in the order of the terms alone whose fields the caller may read: of a model's
/// own order the others are passed over.
pub fn in_told_order<'c>(alloc: Global, sought: Sought<'c>) -> Result<Sought<'c>, NoMemory>
    ensures sought { IfOk result (λ told. sought_view told ≡ told_sought sought.entry.by sought.entry.model (sought_view sought.entry)) }
    ensures by { IfOk result (λ told. told.by ≡ sought.entry.by) }
    ensures model { IfOk result (λ told. told.model ≡ sought.entry.model) }
    ensures over { IfOk result (λ told. (models : List ModelInfo) → IsSoughtOver models sought.entry → IsSoughtOver models told) }
{
    let order = told_terms(alloc, &sought)?;
    let Sought {
        by,
        model,
        domain,
        active,
        offset,
        limit,
        ..
    } = sought;
    Ok(Sought {
        by,
        model,
        domain,
        active,
        order,
        offset,
        limit,
    })
}

/// The same search that reads, in the order and with the fields that the caller is told.
pub fn told_objects<'c>(
    alloc: Global,
    asked: SoughtObjects<'c>,
) -> Result<SoughtObjects<'c>, NoMemory>
    ensures { IfOk result (IsToldObjects asked.entry) }
{
    let SoughtObjects { sought, fields } = asked;
    let fields = told_fields(alloc, &sought.by, sought.model, fields.as_slice())?;
    let sought = in_told_order(alloc, sought)?;
    Ok(SoughtObjects { sought, fields })
}

/// Of some fields of a model those that the caller may read.
pub fn told_fields(
    alloc: Global,
    by: &Caller<'_>,
    model: ModelNo,
    fields: &[FieldNo],
) -> Result<Vec<FieldNo>, NoMemory>
    ensures { IfOk result (λ told. told.items ≡ filter (λ field. may_read_field by.now (step_at model field)) fields.now) }
{
    let mut told = Vec::new(alloc);
    for field in fields {
        if may_read_field(by, step_at(model, *field)) {
            told.push(*field)?;
        }
    }
    Ok(told)
}

/// Of the terms of an order those by fields that the caller may read.
fn told_terms(alloc: Global, sought: &Sought<'_>) -> Result<Sequence<OrderTerm>, NoMemory>
    ensures { IfOk result (λ terms. terms ≡ told_order sought.now.by.policy.now sought.now.by.groups.now sought.now.by.user sought.now.model sought.now.order) }
{
    let mut terms = Sequence::new(alloc);
    for term in sought.order.as_slice() {
        if may_read_field(&sought.by, step_at(sought.model, term.field)) {
            terms.push(*term)?;
        }
    }
    Ok(terms)
}

/// The domain that is given, which was judged; the empty one where none is.
fn domain_given(
    alloc: Global,
    schema: &Schema,
    model: ModelNo,
    given: Option<Given<'_>>,
) -> Result<Domain, NoMemory>
    requires model { HasModel schema.now model }
    requires judged { IfSome given (λ given. domain_fault schema.now model (view given.json.now) ≡ None) }
    ensures tree { IfOk result (λ domain. tree_of_domain domain ≡ tree_given schema.now model (option_map given_of given.entry)) }
    ensures over { IfOk result (λ domain. IsOver schema.now model (tree_of_domain domain)) }
{
    match given {
        Some(given) => domain_of(alloc, schema, model, given.json),
        None => domain_of(alloc, schema, model, &Json::Array(Vec::new(alloc))),
    }
}

/// The domain that a value is, which is one.
fn domain_of(
    alloc: Global,
    schema: &Schema,
    model: ModelNo,
    json: &Json,
) -> Result<Domain, NoMemory>
    requires model { HasModel schema.now model }
    requires judged { domain_fault schema.now model (view json.now) ≡ None }
    ensures read { IfOk result (λ domain. domain_from schema.now model (view json.now) ≡ Ok (tree_of_domain domain)) }
    ensures over { IfOk result (λ domain. IsOver schema.now model (tree_of_domain domain)) }
{
    // The law that what stands for a tree is read as it.
    one_domain();
    match read(alloc, json, schema, model) {
        Ok(domain) => Ok(domain),
        Err(DomainFault::NoMemory) => Err(NoMemory),
        Err(_) => unreachable!(),
    }
}

/// The field by which rows that aren't active are left out: `active`, where the domain doesn't
/// ask of it and the context lets.
fn active_asked(schema: &Schema, call: &Call<'_>, domain: &Domain) -> Option<FieldNo>
    requires { HasModel schema.now call.now.model }
    ensures asked { IfSome (model_at schema.now call.entry.now.model) (λ info. result ≡ active_asked (called_by call.entry.now info) (tree_of_domain domain.now)) }
    ensures there { IfSome result (HasField schema.now call.entry.now.model) }
{
    let field = active_field(schema, call.model)?;
    if !active_test(call.kw) || domain.asks(field) {
        return None;
    }
    Some(field)
}

/// The Boolean field `active` of a model, where it has one.
fn active_field(schema: &Schema, model: ModelNo) -> Option<FieldNo>
    requires { HasModel schema.now model }
    ensures found { IfSome (model_at schema.now model) (λ info. result ≡ active_field info) }
    ensures there { IfSome result (HasField schema.now model) }
{
    let field = schema.field(model, "active")?;
    if !matches!(schema.info(model, field).field_type, FieldType::Boolean) {
        return None;
    }
    Some(field)
}

/// The order that is given; the model's own where none is.
fn order_given(
    alloc: Global,
    schema: &Schema,
    model: ModelNo,
    given: Option<Given<'_>>,
) -> Result<Sequence<OrderTerm>, NoMemory>
    requires { HasModel schema.now model }
    ensures order { IfOk result (λ order. IfSome (model_at schema.now model) (λ info. order ≡ order_given info (option_map given_of given.entry))) }
    ensures there { IfOk result (λ order. All (λ term. HasField schema.now model term.field) order) }
{
    let read = match given {
        Some(given) => order_of(alloc, schema, model, given.json)?,
        None => None,
    };
    match read {
        Some(order) => Ok(order),
        None => own_order(alloc, schema, model),
    }
}

/// A model's own order.
fn own_order(
    alloc: Global,
    schema: &Schema,
    model: ModelNo,
) -> Result<Sequence<OrderTerm>, NoMemory>
    requires { HasModel schema.now model }
    ensures order { IfOk result (λ order. IfSome (model_at schema.now model) (λ info. order ≡ info.order)) }
    ensures there { IfOk result (λ order. All (λ term. HasField schema.now model term.field) order) }
{
    let order = schema.model_info(model).order.as_slice();
    Ok(Sequence::from_vec(order.to_vec(alloc)?))
}

/// The number of rows that is given; 0 where none is.
pub fn count_given(given: Option<Given<'_>>) -> u64
    ensures { result ≡ count_given (option_map given_of given.entry) }
{
    match given {
        Some(given) => count_of(given.json).unwrap_or(0),
        None => 0,
    }
}
