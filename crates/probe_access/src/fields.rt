//! Which fields a domain names, from a line: one JSON object with the definitions of `models`,
//! the `model`, its `domain` and, where one field is asked about, the name of that `field`.

ghost use Rattle.ob_schema.specs.Models.{HasModel};

use ob_base::ModelNo;
use ob_domain::{Domain, DomainFault, Json, read};
use ob_schema::{Schema, Step};
use probe_parts::definitions::schema_of;
use probe_parts::parts::{part, text_part};
use probe_parts::told::Told;
use std::alloc::Global;

/// What a line asks of a domain.
#[derive(Clone, Copy)]
pub(crate) enum Question {
    /// Which fields it names.
    Fields,
    /// Whether it asks one.
    Asks,
}

/// Adds the fields that the domain of an object names, or whether it asks one of them.
pub(crate) fn put_fields(
    alloc: Global,
    told: &mut Told,
    times: u32,
    question: Question,
    json: &Json,
) {
    let models = text_part(told, json, "models");
    if let Some(schema) = schema_of(alloc, told, models) {
        put_over(alloc, told, times, question, &schema, json);
    }
}

/// Adds what is asked of a domain over a registry, or the domain's fault.
fn put_over(
    alloc: Global,
    told: &mut Told,
    times: u32,
    question: Question,
    schema: &Schema,
    json: &Json,
) {
    let name = text_part(told, json, "model");
    let Some(model) = schema.model(name) else {
        return told.refuse();
    };
    let domain = part(told, json, "domain");
    match read(alloc, domain, schema, model) {
        Ok(domain) => put_answer(alloc, told, times, question, schema, model, &domain, json),
        Err(DomainFault::NoMemory) => told.lack(),
        Err(fault) => told.put_shown(&fault),
    }
}

/// Adds what is asked of a domain that was read.
fn put_answer(
    alloc: Global,
    told: &mut Told,
    times: u32,
    question: Question,
    schema: &Schema,
    model: ModelNo,
    domain: &Domain,
    json: &Json,
)
    requires { HasModel schema.now model }
{
    match question {
        Question::Fields => put_named(alloc, told, times, schema, model, domain),
        Question::Asks => {
            let name = text_part(told, json, "field");
            put_asks(told, times, schema, model, domain, name);
        }
    }
}

/// Adds the fields that a domain names, each behind its model's name.
fn put_named(
    alloc: Global,
    told: &mut Told,
    times: u32,
    schema: &Schema,
    model: ModelNo,
    domain: &Domain,
) {
    for _ in 1..times {
        let _ = domain.fields(alloc, model);
    }
    match domain.fields(alloc, model) {
        Ok(fields) => put_steps(told, schema, fields.as_slice()),
        Err(_) => told.lack(),
    }
}

/// Adds fields with spaces between them.
fn put_steps(told: &mut Told, schema: &Schema, fields: &[Step]) {
    let mut between = "";
    for field in fields {
        told.put(between);
        put_step(told, schema, *field);
        between = " ";
    }
    if fields.is_empty() {
        told.put("none");
    }
}

/// Adds the names of a model and of its field.
fn put_step(told: &mut Told, schema: &Schema, step: Step) {
    let Some(model) = schema.find_model(step.model) else {
        return told.refuse();
    };
    let Some(field) = schema.find_field(step.model, step.field) else {
        return told.refuse();
    };
    told.put(model.name.as_str());
    told.put(".");
    told.put(field.name.as_str());
}

/// Adds whether a domain asks the field of this name.
fn put_asks(
    told: &mut Told,
    times: u32,
    schema: &Schema,
    model: ModelNo,
    domain: &Domain,
    name: &str,
)
    requires { HasModel schema.now model }
{
    let Some(field) = schema.field(model, name) else {
        return told.refuse();
    };
    for _ in 1..times {
        let _ = domain.asks(field);
    }
    told.put_bool(domain.asks(field));
}
