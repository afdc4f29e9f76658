//! The fields that the arguments of a call name, as one wants them who asks for a caller's rights
//! to them: what a domain, a list of names, an order, aggregates and groupings name, each as it is
//! written.

ghost use Rattle.std.specs.Prelude.{◌≡◌, [], find, map, not, option_map, true, IfOk};
ghost use Rattle.std.specs.List.{filter_map};
ghost use Rattle.std.specs.Option.{option_map_or};
ghost use Rattle.serde_json.specs.View.{view};
ghost use Rattle.ob_call.specs.ArgumentsSteps.{given_of};
ghost use Rattle.ob_call.specs.Forms.{fields_at, number_from};
ghost use Rattle.ob_domain.specs.Naming.{named_fields};
ghost use Rattle.ob_domain.specs.Trees.{tree_of_domain};
ghost use Rattle.ob_query.specs.Callers.{is_first, may_read_field, named_of, named_where};
ghost use Rattle.ob_query.specs.NamedFields.{name_fields};
ghost use Rattle.ob_schema.specs.Models.{HasModel};
ghost use Rattle.ob_schema.specs.Paths.{step_at};

use crate::caller::{Caller, may_read_field};
use ob_base::{FieldNo, ModelNo, NoMemory};
use ob_call::{Given, Json, Spot};
use ob_domain::Domain;
use ob_schema::{OrderTerm, Schema, Step};
use std::alloc::Global;

/// The fields that an argument names, and whether it is given by its position. One that isn't
/// given names none.
#[derive(Drop)]
pub struct Naming {
    pub positioned: bool,
    pub fields: Vec<Step>,
}

impl Naming {
    /// What an argument names, if it is given.
    pub fn of(given: &Option<Given<'_>>, fields: Vec<Step>) -> Naming
        ensures positioned { result.positioned ≡ is_first (option_map given_of given.now) }
        ensures fields { result.fields ≡ fields }
    {
        Naming {
            positioned: is_positioned(given),
            fields,
        }
    }
}

/// Whether an argument is given by its position.
fn is_positioned(given: &Option<Given<'_>>) -> bool
    ensures { result ≡ is_first (option_map given_of given.now) }
{
    match given {
        Some(given) => matches!(given.spot, Spot::Position(_)),
        None => true,
    }
}

/// The first field that he may not read which arguments name that are given by position, or the
/// others.
pub fn first_where(by: &Caller<'_>, namings: &[Naming], positioned: bool) -> Option<Step>
    ensures { result ≡ find (λ field. not (may_read_field by.now field)) (named_where positioned (map named_of namings.now)) }
{
    for naming in namings {
        if naming.positioned == positioned {
            if let Some(field) = first_denied(by, naming.fields.as_slice()) {
                return Some(field);
            }
        }
    }
    None
}

/// The first of some fields that he may not read.
fn first_denied(by: &Caller<'_>, fields: &[Step]) -> Option<Step>
    ensures { result ≡ find (λ field. not (may_read_field by.now field)) fields.now }
{
    for field in fields {
        if !may_read_field(by, *field) {
            return Some(*field);
        }
    }
    None
}

/// What a domain names, which is given.
pub fn domain_naming(
    alloc: Global,
    model: ModelNo,
    given: &Option<Given<'_>>,
    domain: &Domain,
) -> Result<Naming, NoMemory>
    ensures positioned { IfOk result (λ naming. naming.positioned ≡ is_first (option_map given_of given.now)) }
    ensures fields { IfOk result (λ naming. naming.fields.items ≡ named_fields model (tree_of_domain domain.now)) }
{
    Ok(Naming::of(given, domain.fields(alloc, model)?))
}

/// What an order names: the fields of its terms where it is given, and none of the model's own.
pub fn order_naming(
    alloc: Global,
    model: ModelNo,
    given: &Option<Given<'_>>,
    order: &[OrderTerm],
) -> Result<Naming, NoMemory>
    ensures positioned { IfOk result (λ naming. naming.positioned ≡ is_first (option_map given_of given.now)) }
    ensures fields { IfOk result (λ naming. naming.fields.items ≡ option_map_or (λ g. map (λ term. step_at model term.field) order.now) (option_map given_of given.now) []) }
{
    let mut fields = Vec::new(alloc);
    if given.is_some() {
        for term in order {
            fields.push(step_at(model, term.field))?;
        }
    }
    Ok(Naming::of(given, fields))
}

/// What a list of names names.
pub fn names_naming(
    alloc: Global,
    schema: &Schema,
    model: ModelNo,
    given: &Option<Given<'_>>,
) -> Result<Naming, NoMemory>
    requires { HasModel schema.now model }
    ensures positioned { IfOk result (λ naming. naming.positioned ≡ is_first (option_map given_of given.now)) }
    ensures fields { IfOk result (λ naming. naming.fields.items ≡ map (step_at model) (option_map_or (λ g. name_fields (fields_at schema.now model) g.json) (option_map given_of given.now) [])) }
{
    let fields = match given {
        Some(given) => names_in(alloc, schema, model, given.json)?,
        None => Vec::new(alloc),
    };
    Ok(Naming::of(given, fields))
}

/// The fields that the texts of a list name, in its order.
fn names_in(
    alloc: Global,
    schema: &Schema,
    model: ModelNo,
    json: &Json,
) -> Result<Vec<Step>, NoMemory>
    requires { HasModel schema.now model }
    ensures { IfOk result (λ fields. fields.items ≡ map (step_at model) (name_fields (fields_at schema.now model) (view json.now))) }
{
    match json {
        Json::Array(items) => steps_of(alloc, schema, model, items.as_slice()),
        _ => Ok(Vec::new(alloc)),
    }
}

/// The fields that texts name, in their order.
fn steps_of(
    alloc: Global,
    schema: &Schema,
    model: ModelNo,
    items: &[Json],
) -> Result<Vec<Step>, NoMemory>
    requires { HasModel schema.now model }
    ensures { IfOk result (λ fields. fields.items ≡ map (step_at model) (filter_map (number_from (fields_at schema.now model)) (map view items.now))) }
{
    let mut fields = Vec::new(alloc);
    for item in items {
        if let Some(field) = field_named(schema, model, item) {
            fields.push(step_at(model, field))?;
        }
    }
    Ok(fields)
}

/// The field that a text names.
fn field_named(schema: &Schema, model: ModelNo, json: &Json) -> Option<FieldNo>
    requires { HasModel schema.now model }
    ensures { result ≡ number_from (fields_at schema.now model) (view json.now) }
{
    schema.field(model, json.as_str()?)
}

/// A field of a model.
pub fn step_at(model: ModelNo, field: FieldNo) -> Step
    ensures { result ≡ step_at model field }
{
    Step { model, field }
}
