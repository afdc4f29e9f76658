//! The registry that definitions make, or their first fault.

use crate::told_models::{put_number, put_schema};
use ob_base::Sequence;
use ob_registry::build_schema;
use ob_schema::{ModelDef, SchemaFault, Spot};
use probe_parts::definitions::definitions;
use probe_parts::told::{Told, put_text};
use std::alloc::Global;

/// Adds the registry that the definitions of a line make, or their first fault.
pub(crate) fn put_built(alloc: Global, told: &mut Told, times: u32, line: &str) {
    let definitions = definitions(alloc, told, line);
    if told.is_malformed() {
        told.tell_instead(alloc, "not asked");
    } else {
        put_made(alloc, told, times, &definitions);
    }
}

/// Adds the registry that definitions make, or their first fault.
fn put_made(alloc: Global, told: &mut Told, times: u32, definitions: &Sequence<ModelDef>) {
    for _ in 1..times {
        let _ = build_schema(alloc, definitions.as_slice());
    }
    match build_schema(alloc, definitions.as_slice()) {
        Ok(schema) => put_schema(alloc, told, &schema),
        Err(fault) => put_fault(alloc, told, &fault),
    }
}

/// Adds a fault, with its variant's words.
fn put_fault(alloc: Global, told: &mut Told, fault: &SchemaFault) {
    let Some(spot) = fault.spot() else {
        return told.lack();
    };
    told.put_shown(fault);
    put_spot(alloc, told, spot);
    if let SchemaFault::Text(_, why) = fault {
        told.put(": ");
        told.put_shown(why);
    }
}

/// Adds where a fault is: the entry's place, and the field if it is at one.
fn put_spot(alloc: Global, told: &mut Told, spot: &Spot) {
    put_number(told, " at ", u64::from(spot.entry));
    if !spot.field.is_empty() {
        told.put(" ");
        put_text(alloc, told, spot.field.as_str());
    }
}
