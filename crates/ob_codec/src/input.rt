//! What JSON gives a field: a value, or commands on the rows that a list names, as the
//! Odoo 17 ORM's `Command` has them. A new command gets its variant here, and its form in
//! `specs/Commands`.

use ob_base::{RecId, Sequence, Value};

/// A value in JSON.
pub type Json = serde_json::Value;

/// What JSON gives a field.
#[derive(Drop)]
pub enum Input {
    /// The value of a field that is no list.
    Plain(Value),
    /// What is to be done to a list, from the left.
    Commands(Sequence<Command>),
}

/// One command on the rows that a list names. The values of `Create` and `Update` are
/// objects; what stands in them is read by further calls.
#[derive(Drop)]
pub enum Command {
    /// Creates a row of these values and links it: `[0, _, values]`.
    Create(Json),
    /// Writes these values to the row: `[1, id, values]`.
    Update(RecId, Json),
    /// Deletes the row: `[2, id]`.
    Delete(RecId),
    /// Takes the row out of the list: `[3, id]`.
    Unlink(RecId),
    /// Adds the row to the list: `[4, id]`.
    Link(RecId),
    /// Takes all rows out of the list: `[5]`.
    Clear,
    /// Makes the list these rows: `[6, _, ids]`.
    Set(Sequence<RecId>),
}
