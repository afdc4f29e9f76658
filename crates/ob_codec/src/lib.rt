//! The two forms of a field's values outside the program: JSON, and the bytes of a kept
//! row. A value has one JSON, and the values of a row have one body, which is read as them.
//!
//! Rooms: `json` (values from and to JSON), with `input` (what JSON gives a field),
//! `scalars` (its values), `commands` and `elements` (the commands of x2many fields),
//! `replies` (what replies tell) and `place` (where a fault is); `kept` (rows as bytes),
//! with `kept_form` (the numbers of the form), `kept_reading` and `kept_values` (its
//! parts and values, read) and `kept_writing` (the same, written); `fault` (why a form
//! isn't read). The definitions that contracts cite stand in specs/.
#![tactic(auto)]

mod commands;
mod elements;
mod fault;
mod input;
mod json;
mod kept;
mod kept_form;
mod kept_reading;
mod kept_values;
mod kept_writing;
mod place;
mod replies;
mod scalars;

pub use fault::{CodecFault, RowFault};
pub use input::{Command, Input, Json};
pub use json::{command_forms, from_json, one_json, reads_back, to_json, type_and_limits};
pub use kept::{one_body, one_row, row_bytes, row_of};
