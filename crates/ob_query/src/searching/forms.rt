//! The forms of the arguments of searches: a domain, a number of rows, an order.

ghost use Rattle.std.specs.Prelude.{◌≡◌, ◌∷◌, codes, map, option_map, true, All, IfOk, IfSome};
ghost use Rattle.serde_json.specs.View.{view};
ghost use Rattle.ob_call.specs.Arguments.{are_apart};
ghost use Rattle.ob_call.specs.ArgumentsSteps.{expected_of, names_of};
ghost use Rattle.ob_call.specs.Forms.{fields_at};
ghost use Rattle.ob_call.specs.Places.{below_steps};
ghost use Rattle.ob_definition.specs.Orders.{all_some, term_of_entry, terms_of};
ghost use Rattle.ob_query.specs.SearchForms.{can_order, count_expects, count_fault, count_from, domain_fault, order_fault, order_of, order_term, place_of_fault, search_expects, search_read_expects};
ghost use Rattle.ob_query.specs.SearchParts.{IsPlaceOf, search_fault};
ghost use Rattle.ob_schema.specs.Models.{HasField, HasModel};

use crate::searching::searched::Searched;
use ob_base::{ModelNo, NoMemory, Place, Sequence};
use ob_call::{Below, FieldNames, Form, Json, Parameter};
use ob_definition::{OrderEntry, order_entries};
use ob_domain::{DomainFault, one_domain, read};
use ob_schema::{FieldInfo, OrderTerm, Schema};
use std::alloc::Global;

/// How many rows an argument may count at most, less one.
const COUNT_END: u64 = 9_223_372_036_854_775_808;

/// The form of an argument of a search.
#[derive(Clone, Copy)]
pub enum SearchForm<'s> {
    Domain(Searched<'s>),
    Count,
    Order(Searched<'s>),
    Fields(FieldNames<'s>),
}

impl Form for SearchForm<'_> {
    ghost use Rattle.ob_query.specs.SearchParts.{search_fault};

    ghost fault = { λ form json. search_fault form json };

    fn fault<'j>(&self, alloc: Global, json: &'j Json) -> Result<Option<Below<'j>>, NoMemory> {
        match self {
            SearchForm::Domain(of) => domain_fault(alloc, of.schema, of.model, json),
            SearchForm::Count => Ok(count_fault(json)),
            SearchForm::Order(of) => order_fault(alloc, of.schema, of.model, json),
            SearchForm::Fields(names) => names.fault(alloc, json),
        }
    }
}

/// Where a domain of the model is wrong first.
fn domain_fault<'j>(
    alloc: Global,
    schema: &Schema,
    model: ModelNo,
    json: &'j Json,
) -> Result<Option<Below<'j>>, NoMemory>
    requires { HasModel schema.now model }
    ensures { IfOk result (λ told. option_map below_steps told ≡ domain_fault schema.now model (view json.now)) }
{
    // The law that what stands for a tree is read as it.
    one_domain();
    match read(alloc, json, schema, model) {
        Ok(_) => Ok(None),
        Err(fault) => Ok(Some(Below::Place(place_of(fault)?))),
    }
}

/// The place of a fault.
fn place_of(fault: DomainFault) -> Result<Place, NoMemory>
    ensures { IsPlaceOf fault result }
{
    match fault {
        DomainFault::Shape(place)
        | DomainFault::Field(place)
        | DomainFault::Operator(place)
        | DomainFault::Operand(place)
        | DomainFault::NotStored(place)
        | DomainFault::NoTree(place) => Ok(place),
        DomainFault::NoMemory => Err(NoMemory),
    }
}

/// Whether a value is no number of rows.
fn count_fault(json: &Json) -> Option<Below<'_>>
    ensures { option_map below_steps result ≡ count_fault (view json.now) }
{
    match count_of(json) {
        Some(_) => None,
        None => Some(Below::Whole),
    }
}

/// A number of rows.
pub fn count_of(json: &Json) -> Option<u64>
    ensures { result ≡ count_from (view json.now) }
{
    match json.as_u64() {
        Some(count) if count < COUNT_END => Some(count),
        _ => None,
    }
}

/// Whether a value is no order of the model's rows.
fn order_fault<'j>(
    alloc: Global,
    schema: &Schema,
    model: ModelNo,
    json: &'j Json,
) -> Result<Option<Below<'j>>, NoMemory>
    requires { HasModel schema.now model }
    ensures { IfOk result (λ told. option_map below_steps told ≡ order_fault (fields_at schema.now model) (view json.now)) }
{
    match order_of(alloc, schema, model, json)? {
        Some(_) => Ok(None),
        None => Ok(Some(Below::Whole)),
    }
}

/// The terms of an order, none where it has another form or a field by which rows can't be
/// ordered.
pub fn order_of(
    alloc: Global,
    schema: &Schema,
    model: ModelNo,
    json: &Json,
) -> Result<Option<Sequence<OrderTerm>>, NoMemory>
    requires { HasModel schema.now model }
    ensures order { IfOk result (λ order. order ≡ order_of (fields_at schema.now model) (view json.now)) }
    ensures there { IfOk result (λ order. IfSome order (All (λ term. HasField schema.now model term.field))) }
{
    let Some(text) = json.as_str() else {
        return Ok(None);
    };
    match order_entries(alloc, text)? {
        Some(entries) => terms_of(alloc, schema, model, entries.as_slice()),
        None => Ok(None),
    }
}

/// The terms for which entries stand, none where one stands for none.
fn terms_of(
    alloc: Global,
    schema: &Schema,
    model: ModelNo,
    entries: &[OrderEntry<'_>],
) -> Result<Option<Sequence<OrderTerm>>, NoMemory>
    requires { HasModel schema.now model }
    ensures terms { IfOk result (λ terms. terms ≡ all_some (map (order_term (fields_at schema.now model)) (terms_of entries.now))) }
    ensures there { IfOk result (λ terms. IfSome terms (All (λ term. HasField schema.now model term.field))) }
{
    let mut terms = Sequence::new(alloc);
    for entry in entries {
        match order_term(schema, model, entry) {
            Some(term) => terms.push(term)?,
            None => return Ok(None),
        }
    }
    Ok(Some(terms))
}

/// The term for which an entry stands.
fn order_term(schema: &Schema, model: ModelNo, entry: &OrderEntry<'_>) -> Option<OrderTerm>
    requires { HasModel schema.now model }
    ensures term { result ≡ order_term (fields_at schema.now model) (term_of_entry entry.now) }
    ensures there { IfSome result (λ term. HasField schema.now model term.field) }
{
    let field = schema.field(model, entry.name)?;
    if !can_order(schema.info(model, field)) {
        return None;
    }
    Some(OrderTerm {
        field,
        descending: entry.descending,
    })
}

/// Whether rows can be ordered by a field.
fn can_order(field: &FieldInfo) -> bool
    ensures { result ≡ can_order field.now }
{
    !field.field_type.is_list() && field.store
}

/// What a search is called with: a domain, from which row on, how many, and an order.
pub fn search_parameters(schema: &Schema, model: ModelNo) -> [Parameter<SearchForm<'_>>; 4]
    requires { HasModel schema.now model }
    ensures expects { map (expected_of search_fault) result ≡ search_expects schema.now model (fields_at schema.now model) }
    ensures apart { are_apart (codes "context" ∷ names_of result) ≡ true }
{
    [
        Parameter {
            name: "domain",
            required: true,
            form: SearchForm::Domain(Searched { schema, model }),
        },
        Parameter {
            name: "offset",
            required: false,
            form: SearchForm::Count,
        },
        Parameter {
            name: "limit",
            required: false,
            form: SearchForm::Count,
        },
        Parameter {
            name: "order",
            required: false,
            form: SearchForm::Order(Searched { schema, model }),
        },
    ]
}

/// What a count is called with: a domain, and how many rows are counted.
pub fn count_parameters(schema: &Schema, model: ModelNo) -> [Parameter<SearchForm<'_>>; 2]
    requires { HasModel schema.now model }
    ensures expects { map (expected_of search_fault) result ≡ count_expects schema.now model }
    ensures apart { are_apart (codes "context" ∷ names_of result) ≡ true }
{
    [
        Parameter {
            name: "domain",
            required: true,
            form: SearchForm::Domain(Searched { schema, model }),
        },
        Parameter {
            name: "limit",
            required: false,
            form: SearchForm::Count,
        },
    ]
}

/// What a search that reads is called with: as a search, with fields behind the domain, which
/// needn't be given.
pub fn search_read_parameters(schema: &Schema, model: ModelNo) -> [Parameter<SearchForm<'_>>; 5]
    requires { HasModel schema.now model }
    ensures expects { map (expected_of search_fault) result ≡ search_read_expects schema.now model (fields_at schema.now model) }
    ensures apart { are_apart (codes "context" ∷ names_of result) ≡ true }
{
    [
        Parameter {
            name: "domain",
            required: false,
            form: SearchForm::Domain(Searched { schema, model }),
        },
        Parameter {
            name: "fields",
            required: false,
            form: SearchForm::Fields(FieldNames { schema, model }),
        },
        Parameter {
            name: "offset",
            required: false,
            form: SearchForm::Count,
        },
        Parameter {
            name: "limit",
            required: false,
            form: SearchForm::Count,
        },
        Parameter {
            name: "order",
            required: false,
            form: SearchForm::Order(Searched { schema, model }),
        },
    ]
}
