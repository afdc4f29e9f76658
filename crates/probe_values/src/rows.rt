//! Rows as bytes, in hexadecimal digits.

ghost use Rattle.ob_schema.specs.Models.{HasModel};

use crate::told::{joined, put_shortened};
use ob_base::{ModelNo, Value};
use ob_codec::{RowFault, row_bytes, row_of};
use ob_schema::Schema;
use probe_parts::definitions::schema_of;
use probe_parts::told::{Told, put_value};
use probe_parts::words::bytes_of;
use std::alloc::Global;

/// Adds the values of the row's kept fields, with spaces between them.
pub(crate) fn put_row(
    alloc: Global,
    told: &mut Told,
    schema: &Schema,
    model: ModelNo,
    times: u32,
    digits: &str,
)
    requires { HasModel schema.now model }
{
    let bytes = bytes_of(alloc, told, digits);
    if told.is_malformed() {
        return told.put("no bytes");
    }
    for _ in 1..times {
        let _ = row_of(alloc, schema, model, bytes.as_slice());
    }
    match row_of(alloc, schema, model, bytes.as_slice()) {
        Ok(values) => put_values(alloc, told, values.as_slice()),
        Err(fault) => put_fault(told, fault),
    }
}

/// Adds the body of the row that has the values of this one.
pub(crate) fn put_body(
    alloc: Global,
    told: &mut Told,
    schema: &Schema,
    model: ModelNo,
    times: u32,
    digits: &str,
)
    requires { HasModel schema.now model }
{
    let bytes = bytes_of(alloc, told, digits);
    if told.is_malformed() {
        return told.put("no bytes");
    }
    let values = match row_of(alloc, schema, model, bytes.as_slice()) {
        Ok(values) => values,
        Err(fault) => return put_fault(told, fault),
    };
    for _ in 1..times {
        let _ = row_bytes(alloc, schema, model, values.as_slice());
    }
    match row_bytes(alloc, schema, model, values.as_slice()) {
        Ok(body) => put_digits(alloc, told, body.as_slice()),
        Err(_) => told.lack(),
    }
}

/// Adds bytes as hexadecimal digits.
fn put_digits(alloc: Global, told: &mut Told, bytes: &[u8]) {
    match hex::encode(alloc, bytes) {
        Ok(digits) => told.put(digits.as_str()),
        Err(_) => told.lack(),
    }
}

/// Adds the values of the row of the model `m` of some definitions, where its body is the same
/// again, else that body.
pub(crate) fn put_kept(alloc: Global, told: &mut Told, asked: &str) {
    let (definitions, pieces) = match asked.split_once(" > ") {
        Some(both) => both,
        None => (asked, ""),
    };
    let Some(schema) = schema_of(alloc, told, definitions) else {
        return told.put("no registry");
    };
    let Some(model) = schema.model("m") else {
        return told.put("no model");
    };
    let digits = joined(alloc, told, pieces);
    put_again(alloc, told, &schema, model, digits.as_str());
}

/// Adds the values of a row, where its body is the same again, else that body.
fn put_again(alloc: Global, told: &mut Told, schema: &Schema, model: ModelNo, digits: &str)
    requires { HasModel schema.now model }
{
    let mut again = Told::new(alloc);
    put_body(alloc, &mut again, schema, model, 1, digits);
    let again = told.take(again);
    if again.as_str() != digits {
        return told.put(again.as_str());
    }
    let mut values = Told::new(alloc);
    put_row(alloc, &mut values, schema, model, 1, digits);
    put_shortened(told, values);
}

/// Adds why bytes are no row.
fn put_fault(told: &mut Told, fault: RowFault) {
    match fault {
        RowFault::Bad => told.put("bad"),
        RowFault::NoMemory => told.lack(),
    }
}

/// Adds values with spaces between them.
fn put_values(alloc: Global, told: &mut Told, values: &[Value]) {
    let mut between = "";
    for value in values {
        told.put(between);
        put_value(alloc, told, value);
        between = " ";
    }
}
