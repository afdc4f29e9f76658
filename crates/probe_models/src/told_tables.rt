//! What is told of tables, as JSON. A question is `["value", MODEL, ID, FIELD]`, which asks for a
//! cell's value from scratch, `["plain", MODEL, ID, FIELD]` for a plain cell's value,
//! `["ids", MODEL]` for the ids of a model's rows or `["next", MODEL]` for its next id. Its answer
//! is the cell's value, in the form in which `edits` reads values, its fault as `["overflow"]`,
//! `["too long"]`, `["division by zero"]` or `["missing"]`, a list of ids, or a next id;
//! `["not asked"]` where the question's call requires what isn't so.

ghost use Rattle.std.specs.Prelude.{◌≡◌, IsSome, IsSomeAnd, IsTrue, true};
ghost use Rattle.ob_schema.specs.Models.{field_at, is_given_from};
ghost use Rattle.ob_schema.specs.Tied.{IsTied};

use crate::edits::{cell_of, model_of};
use crate::told_models::put_number;
use ob_base::{Broken, Cell, ModelNo, Value};
use ob_schema::{Origin, Schema};
use ob_tables::{ScratchFault, Tables};
use probe_parts::parts::{Json, items_of};
use probe_parts::told::{Told, put_list, put_text};
use std::alloc::Global;
use std::fmt::Display;

/// What stands for an answer that the call's contract doesn't let be asked for.
pub(crate) const NOT_ASKED: &str = "[\"not asked\"]";

/// Adds what is broken: its kind and its cell.
pub(crate) fn put_broken(alloc: Global, told: &mut Told, schema: &Schema, broken: Broken) {
    told.put("[");
    put_fault(told, &broken.kind);
    told.put(",");
    put_cell(alloc, told, schema, broken.cell);
    told.put("]");
}

/// Adds the model, the id and the field of a cell, or `null` where it isn't of the registry.
pub(crate) fn put_cell(alloc: Global, told: &mut Told, schema: &Schema, cell: Cell) {
    let model = schema.find_model(cell.model);
    let field = schema.find_field(cell.model, cell.field);
    let (Some(model), Some(field)) = (model, field) else {
        return told.put("null");
    };
    put_text(alloc, told, model.name.as_str());
    put_number(told, ",", cell.id.0);
    told.put(",");
    put_text(alloc, told, field.name.as_str());
}

/// Adds a fault in its words.
pub(crate) fn put_fault<F: Display>(told: &mut Told, fault: &F) {
    told.put("\"");
    told.put_shown(fault);
    told.put("\"");
}

/// Adds the answers to questions.
pub(crate) fn put_answers(
    alloc: Global,
    told: &mut Told,
    schema: &Schema,
    tables: &Tables<'_>,
    is_tied: bool,
    ask: &[Json],
)
    requires models { tables.now.models ≡ schema.now }
    requires tied { IsTrue is_tied → IsTied tables.now.models tables.now.tables }
{
    let mut between = "";
    for question in ask {
        told.put(between);
        put_answer(alloc, told, schema, tables, is_tied, question);
        between = ",";
    }
}

/// Adds the answer to a question.
fn put_answer(
    alloc: Global,
    told: &mut Told,
    schema: &Schema,
    tables: &Tables<'_>,
    is_tied: bool,
    question: &Json,
)
    requires models { tables.now.models ≡ schema.now }
    requires tied { IsTrue is_tied → IsTied tables.now.models tables.now.tables }
{
    let [Json::String(word), model, parts @ ..] = items_of(told, question) else {
        return told.refuse();
    };
    let model = model_of(told, schema, model);
    let [id, field] = parts else {
        return put_of_model(told, schema, tables, word.as_str(), model);
    };
    let cell = cell_of(told, schema, model, id, field);
    if word.as_str() == "plain" {
        put_plain(alloc, told, schema, tables, cell);
    } else if is_tied && schema.find_field(cell.model, cell.field).is_some() {
        put_scratch(alloc, told, tables, cell);
    } else {
        told.put(NOT_ASKED);
    }
}

/// Adds the value of a cell from scratch.
fn put_scratch(alloc: Global, told: &mut Told, tables: &Tables<'_>, cell: Cell)
    requires tied { IsTied tables.now.models tables.now.tables }
    requires field { IsSome (field_at tables.now.models cell.model cell.field) }
{
    match tables.scratch(cell) {
        Ok(value) => put_value(alloc, told, &value),
        Err(ScratchFault::NoMemory) => told.lack(),
        Err(ScratchFault::Missing) => told.put("[\"missing\"]"),
        Err(fault) => {
            told.put("[");
            put_fault(told, &fault);
            told.put("]");
        }
    }
}

/// Adds the value of a plain cell.
fn put_plain(alloc: Global, told: &mut Told, schema: &Schema, tables: &Tables<'_>, cell: Cell)
    requires models { tables.now.models ≡ schema.now }
{
    if !is_given(schema, cell) {
        return told.put(NOT_ASKED);
    }
    match tables.plain(cell) {
        Ok(Some(value)) => put_value(alloc, told, &value),
        Ok(None) => told.put("[\"missing\"]"),
        Err(_) => told.lack(),
    }
}

/// Whether a cell's field is plain, or the id.
pub(crate) fn is_given(schema: &Schema, cell: Cell) -> bool
    ensures { IsTrue result → IsSomeAnd (field_at schema.now cell.model cell.field) (λ info. is_given_from info.origin ≡ true) }
{
    match schema.find_field(cell.model, cell.field) {
        Some(info) => matches!(&info.origin, Origin::Id | Origin::Plain),
        None => false,
    }
}

/// Adds a model's next id, or the ids of its rows.
fn put_of_model(told: &mut Told, schema: &Schema, tables: &Tables<'_>, word: &str, model: ModelNo)
    requires models { tables.now.models ≡ schema.now }
{
    if schema.find_model(model).is_none() {
        return told.put(NOT_ASKED);
    }
    if word == "next" {
        return put_number(told, "", tables.next(model));
    }
    match tables.ids(model) {
        Ok(ids) => put_list(told, ids.as_slice()),
        Err(_) => told.lack(),
    }
}

/// Adds a value.
pub(crate) fn put_value(alloc: Global, told: &mut Told, value: &Value) {
    match value {
        Value::Nil => told.put("null"),
        Value::Bool(flag) => told.put_bool(*flag),
        Value::Int(number) => told.put_number(*number),
        Value::Word(word) => put_text(alloc, told, word.as_str()),
        Value::Day(day) => put_named(told, "{\"day\":", i64::from(*day)),
        Value::Moment(moment) => put_named(told, "{\"moment\":", *moment),
        Value::Ref(id) => {
            put_number(told, "{\"id\":", id.0);
            told.put("}");
        }
        Value::Refs(ids) => {
            told.put("{\"ids\":");
            put_list(told, ids.as_slice());
            told.put("}");
        }
    }
}

/// Adds a number behind its name, in an object of its own.
fn put_named(told: &mut Told, before: &str, number: i64) {
    told.put(before);
    told.put_number(number);
    told.put("}");
}
