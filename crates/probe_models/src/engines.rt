//! An engine over a keeper in memory, part by part. A part is `["run", STEP, ..]`: an engine
//! opens what is kept, takes the steps (`steps`) and gives the keeper back; `["audit"]`, of which
//! whether the report is equal is told and its lines, as a list, or the cause in words; or a
//! change of what is kept (`changes`). Of a run a list of what its steps tell is told, or where it
//! isn't opened `{"fault":CAUSE}`, where the cause is `[MODEL, ID, FIELD]`, a cell that shows it,
//! or words.

use crate::changes::put_change;
use crate::steps::put_steps;
use crate::told_tables::{put_cell, put_fault};
use ob_audit::{Report, audit};
use ob_base::Sequence;
use ob_cache::{Engine, OpenFault};
use ob_io::MemKeeper;
use ob_schema::Schema;
use probe_parts::definitions::schema_of;
use probe_parts::parts::{Json, id_of, items_of, list_part, text_part};
use probe_parts::told::{Told, put_text};
use std::alloc::Global;

/// How many rows an engine may hold.
const CAPACITY: u32 = 16;

/// Adds what the parts of a line come to.
pub(crate) fn put_parts(alloc: Global, told: &mut Told, json: &Json) {
    let definitions = text_part(told, json, "definitions");
    let fails = list_part(told, json, "fails");
    let fails = numbers_of(alloc, told, fails);
    let parts = list_part(told, json, "parts");
    let Some(schema) = schema_of(alloc, told, definitions) else {
        return;
    };
    match MemKeeper::new(alloc, Vec::new(alloc), Vec::new(alloc), fails) {
        Ok(mut keeper) => put_each(alloc, told, &schema, &mut keeper, parts),
        Err(_) => told.lack(),
    }
}

/// Adds what parts come to, as a list.
fn put_each(
    alloc: Global,
    told: &mut Told,
    schema: &Schema,
    keeper: &mut MemKeeper,
    parts: &[Json],
) {
    told.put("[");
    let mut between = "";
    for part in parts {
        told.put(between);
        let part = items_of(told, part);
        put_part(alloc, told, schema, keeper, part);
        between = ",";
    }
    told.put("]");
}

/// The numbers of a list.
fn numbers_of(alloc: Global, told: &mut Told, list: &[Json]) -> Vec<u64> {
    let mut numbers = Sequence::new(alloc);
    for json in list {
        let number = id_of(told, json).0;
        told.add(&mut numbers, number);
    }
    numbers.into_vec()
}

/// Adds what a part comes to.
fn put_part(
    alloc: Global,
    told: &mut Told,
    schema: &Schema,
    keeper: &mut MemKeeper,
    part: &[Json],
) {
    match part {
        [Json::String(word), steps @ ..] if word.as_str() == "run" => {
            put_run(alloc, told, schema, keeper, steps);
        }
        [Json::String(word)] if word.as_str() == "audit" => {
            match audit(alloc, keeper, schema) {
                Ok(report) => put_report(alloc, told, &report),
                Err(fault) => put_fault(told, &fault),
            }
        }
        _ => put_change(alloc, told, schema, keeper, part),
    }
}

/// Adds what the steps of a run tell.
fn put_run(
    alloc: Global,
    told: &mut Told,
    schema: &Schema,
    keeper: &mut MemKeeper,
    steps: &[Json],
) {
    match Engine::begin(alloc, keeper, schema, CAPACITY) {
        Ok(mut engine) => {
            put_steps(alloc, told, &mut engine, steps);
            let _keeper = engine.close();
        }
        Err(unopened) => put_unopened(alloc, told, schema, unopened.fault),
    }
}

/// Adds why what is kept isn't opened.
fn put_unopened(alloc: Global, told: &mut Told, schema: &Schema, fault: OpenFault) {
    told.put("{\"fault\":");
    match fault {
        OpenFault::Inconsistent(cell) => {
            told.put("[");
            put_cell(alloc, told, schema, cell);
            told.put("]");
        }
        fault => put_fault(told, &fault),
    }
    told.put("}");
}

/// Adds a report.
fn put_report(alloc: Global, told: &mut Told, report: &Report) {
    told.put("[");
    told.put_bool(report.equal);
    for line in report.lines.as_slice() {
        told.put(",");
        put_text(alloc, told, line.as_str());
    }
    told.put("]");
}
