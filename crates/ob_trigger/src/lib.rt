//! What a change reaches: from the cells that edits change, the computed cells whose values may
//! change with them. Contract: over links that tell tables before a change and behind it, whose
//! rows can be followed, what `Triggers::close` gives lies within the cells that the edits can
//! reach, and holds each computed cell that is new or has another value.
//!
//! Rooms: `triggers` (the fields that read each field, and the closure over them), `cell_set`
//! (what it gives), `fault` (why it gives nothing), `laws` (what the definitions give). Behind
//! them stand `index` and `building` (which fields read a field, and behind which steps),
//! `walking` (the rows from which steps lead to a row), `marks` (cells that are marked), `rows`
//! (rows that are new, and which rows are there).
#![tactic(auto)]

mod building;
mod cell_set;
mod fault;
mod index;
mod laws;
mod marks;
mod rows;
mod triggers;
mod walking;

pub use cell_set::CellSet;
pub use fault::CloseFault;
pub use laws::unaffected_cells_keep_values;
pub use triggers::Triggers;
