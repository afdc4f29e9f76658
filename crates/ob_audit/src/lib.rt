//! The audit of a store: whether the values that rows keep for computed fields are those from
//! scratch, and what stands in stock of each product. It trusts nothing that is kept: it reads
//! each row anew, evaluates by the plain program of the tables, and changes nothing.
//!
//! Rooms: `auditing` (the call, and which report it gives), `report` (the lines), `fault` (why
//! there is no report). Behind them, and to be changed at will: `reading` (the rows of a keeper
//! as tables), `kept_rows` (a row by its kept form), `comparing` (stored cells and their values
//! from scratch), `sums` (the quantities of each product's quants) and `lines` (the texts).
#![tactic(auto)]

mod auditing;
mod comparing;
mod fault;
mod kept_rows;
mod lines;
mod reading;
mod report;
mod sums;

pub use auditing::audit;
pub use fault::AuditFault;
pub use report::Report;
