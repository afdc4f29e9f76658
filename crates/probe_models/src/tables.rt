//! Tables from a line: the cases of an object over the registry that its definitions make. A
//! case has the edits `before` that make tables of the empty ones untested, the `edits` that are
//! applied to these, and the questions `ask` about what they make. Of edits that don't fit only
//! their places are told.
//!
//! `edits` says what an edit is, `told_tables` what a question is and how it is answered.

ghost use Rattle.std.specs.Prelude.{◌≡◌, All, IfSome, IsTrue};
ghost use Rattle.ob_schema.specs.Broken.{IsFirstBroken};
ghost use Rattle.ob_tables.specs.After.{after};
ghost use Rattle.ob_tables.specs.Fitting.{IsFitEdit};
ghost use Rattle.probe_models.specs.Asking.{ShowsTied};

use crate::edits::{do_fit, edits, model_of};
use crate::told_tables::{put_answers, put_broken};
use ob_base::{Broken, BrokenKind, ModelNo, RecId};
use ob_schema::Schema;
use ob_tables::{ApplyFault, Edit, Tables, fits};
use probe_parts::definitions::schema_of;
use probe_parts::parts::{Json, id_of, items_of, list_part, text_part};
use probe_parts::told::Told;
use std::alloc::Global;

/// Adds the answers to the cases of an object.
pub(crate) fn put_cases(alloc: Global, told: &mut Told, times: u32, json: &Json) {
    let definitions = text_part(told, json, "definitions");
    let cases = list_part(told, json, "cases");
    if let Some(schema) = schema_of(alloc, told, definitions) {
        put_each(alloc, told, times, &schema, cases);
    }
}

/// Adds the answers to cases, as a list.
fn put_each(alloc: Global, told: &mut Told, times: u32, schema: &Schema, cases: &[Json]) {
    told.put("[");
    let mut between = "";
    for case in cases {
        told.put(between);
        put_case(alloc, told, times, schema, case);
        between = ",";
    }
    told.put("]");
}

/// Adds the answer to a case.
fn put_case(alloc: Global, told: &mut Told, times: u32, schema: &Schema, case: &Json) {
    let before = list_part(told, case, "before");
    let before = edits(alloc, told, schema, before);
    let then = list_part(told, case, "edits");
    let then = edits(alloc, told, schema, then);
    if told.is_malformed() {
        return;
    }
    if do_fit(schema, before.as_slice()) && do_fit(schema, then.as_slice()) {
        put_fitting(
            alloc,
            told,
            times,
            schema,
            case,
            before.as_slice(),
            then.as_slice(),
        );
    } else {
        put_unfit(told, schema, before.as_slice(), then.as_slice());
    }
}

/// Adds the answer to a case whose edits fit.
fn put_fitting(
    alloc: Global,
    told: &mut Told,
    times: u32,
    schema: &Schema,
    case: &Json,
    before: &[Edit],
    then: &[Edit],
)
    requires before { All (IsFitEdit schema.now) before.now }
    requires fit { All (IsFitEdit schema.now) then.now }
{
    match Tables::empty(alloc, schema).after(before) {
        Ok(tables) => put_over(alloc, told, times, schema, &tables, case, then),
        Err(_) => told.lack(),
    }
}

/// Adds the answer to a case over the tables before its edits.
fn put_over(
    alloc: Global,
    told: &mut Told,
    times: u32,
    schema: &Schema,
    tables: &Tables<'_>,
    case: &Json,
    then: &[Edit],
)
    requires models { tables.now.models ≡ schema.now }
    requires fit { All (IsFitEdit schema.now) then.now }
{
    let Some(later) = with_next(told, schema, tables, case) else {
        return;
    };
    for _ in 1..times {
        let _ = later.apply(then);
    }
    let ask = list_part(told, case, "ask");
    put_applied(alloc, told, schema, &later, then, ask);
    if let Some(ask) = case.get("still") {
        told.put(",\"still\":[");
        let ask = items_of(told, ask);
        put_answers(alloc, told, schema, tables, false, ask);
        told.put("]");
    }
    told.put("}");
}

/// Tables with the next id that a case gives a model, if it gives one.
fn with_next<'a>(
    told: &mut Told,
    schema: &Schema,
    tables: &Tables<'a>,
    case: &Json,
) -> Option<Tables<'a>>
    requires { tables.now.models ≡ schema.now }
    ensures { IfSome result (λ later. later.models ≡ schema.now) }
{
    let later = match case.get("next") {
        None => tables.try_clone(),
        Some(given) => {
            let (model, next) = model_and_id(told, schema, given);
            if schema.find_model(model).is_none() || next.0 < tables.next(model) {
                told.refuse();
                return None;
            }
            tables.with_next(model, next.0)
        }
    };
    match later {
        Ok(later) => Some(later),
        Err(_) => {
            told.lack();
            None
        }
    }
}

/// A model and an id, as a list.
fn model_and_id(told: &mut Told, schema: &Schema, json: &Json) -> (ModelNo, RecId) {
    match items_of(told, json) {
        [model, id] => (model_of(told, schema, model), id_of(told, id)),
        _ => {
            told.refuse();
            (ModelNo(0), RecId(0))
        }
    }
}

/// Adds which edits don't fit.
fn put_unfit(told: &mut Told, schema: &Schema, before: &[Edit], then: &[Edit]) {
    told.put("{\"before\":[");
    put_misfits(told, schema, before);
    told.put("],\"edits\":[");
    put_misfits(told, schema, then);
    told.put("]}");
}

/// Adds the places, from 0, of the edits that don't fit.
fn put_misfits(told: &mut Told, schema: &Schema, edits: &[Edit]) {
    let mut between = "";
    for (place, edit) in edits.iter().enumerate() {
        if !fits(schema, edit) {
            told.put(between);
            told.put_shown(&place);
            between = ",";
        }
    }
}

/// Adds what applying edits gives, and what is asked of the tables after them.
fn put_applied(
    alloc: Global,
    told: &mut Told,
    schema: &Schema,
    tables: &Tables<'_>,
    then: &[Edit],
    ask: &[Json],
)
    requires models { tables.now.models ≡ schema.now }
    requires fit { All (IsFitEdit schema.now) then.now }
{
    told.put("{\"apply\":");
    match tables.apply(then) {
        Ok(after) => {
            told.put("\"sound\",\"told\":[");
            put_answers(alloc, told, schema, &after, true, ask);
        }
        Err(ApplyFault::Broken(broken)) => {
            put_unsound(alloc, told, schema, tables, then, broken, ask);
        }
        Err(ApplyFault::NoMemory) => told.lack(),
    }
    told.put("]");
}

/// Adds what edits break first, and what is asked of the tables that they make.
fn put_unsound(
    alloc: Global,
    told: &mut Told,
    schema: &Schema,
    tables: &Tables<'_>,
    then: &[Edit],
    broken: Broken,
    ask: &[Json],
)
    requires models { tables.now.models ≡ schema.now }
    requires fit { All (IsFitEdit schema.now) then.now }
    requires first { IsFirstBroken tables.now.models (after tables.now.models tables.now.tables then.now) broken }
{
    put_broken(alloc, told, schema, broken);
    told.put(",\"told\":[");
    let is_tied = is_of_formulas(broken.kind);
    match tables.after(then) {
        Ok(after) => put_answers(alloc, told, schema, &after, is_tied, ask),
        Err(_) => told.lack(),
    }
}

/// Whether a cell may be broken in this way only over tables whose cells have values from
/// scratch.
fn is_of_formulas(kind: BrokenKind) -> bool
    ensures { IsTrue result → ShowsTied kind }
{
    matches!(
        kind,
        BrokenKind::Overflow | BrokenKind::TooLong | BrokenKind::ZeroDivisor | BrokenKind::Check
    )
}
