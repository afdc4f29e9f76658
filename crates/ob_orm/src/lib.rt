//! The calls that make and change rows, `create` and `write`, over an engine of kept rows: each is
//! the machine's, and its answer is the one that the tables of plain values define. What they ask of
//! the engine and how their edits are settled stands in the crate `ob_rows`, on which `ob_unlink`
//! stands too; `install` (the rows that modules bring) stands on the public functions here, in a
//! crate of its own (`ob_install`), and so does what stages rows (`ob_stage`).
//!
//! Rooms: `creating` and `writing`, with `objects` (one object of values, or a list of them),
//! `row_values` (the value that JSON gives a field), `making` (how rows are made of given values,
//! with rows of their parents), `touching` (what edits do to rows, for which rights and rules are
//! asked), and `refusal_texts` (how refusals and cells are told). How arguments are read stands in
//! the crate `ob_call`, and what only reads in `ob_query`. The definitions stand in specs/.
#![tactic(auto)]

mod creating;
mod making;
mod objects;
mod refusal_texts;
mod row_values;
mod touching;
mod writing;

pub use creating::create;
pub use making::filling::{filled, value_for};
pub use making::limits::settle_rows;
pub use making::next_ids::{Making, begun};
pub use making::parents::{behind, linked, parent_changes};
pub use making::{Maker, make_row};
pub use refusal_texts::{cell_text, refusal_text};
pub use writing::edits::linked_row;
pub use writing::{push_row_edits, write};
