//! Tables: the plain values of rows, what edits make of them, and the values of all cells from
//! scratch.
//!
//! Rooms: `edit` (what calls do to rows), `fitting` (which edits may be asked for), `tables`
//! (the tables and their calls), `paging` (rows in pages), `sharing` (whether another row shares a
//! set of fields), `applying` (edits that are carried out where that is sound), `fault` (why a call
//! gives no answer), `formula` (what a formula gives one cell over any reads), `laws` (what the
//! definitions give). Behind them stand `row` (the values of a row), `rows` (rows, with an index of
//! which of them name which) by `holdings` (how the index follows a row), `digests` (an index of
//! which rows may share a set of fields), `reading` (what evaluations read), `outcome` (what they
//! give) and `evaluating` (what is evaluated, and when); and for what is broken `soundness`, over
//! `cells` (one by one), `unique` (sets of fields that no two rows share), `forest` (trees) and
//! `formulas`, which add to `findings`.
#![tactic(auto)]

mod applying;
mod cells;
mod digests;
mod edit;
mod evaluating;
mod fault;
mod findings;
mod fitting;
mod forest;
mod formula;
mod formulas;
mod holdings;
mod laws;
mod outcome;
mod paging;
mod reading;
mod row;
mod rows;
mod sharing;
mod soundness;
mod tables;
mod unique;
mod values;

pub use applying::ApplyFault;
pub use edit::Edit;
pub use fault::ScratchFault;
pub use fitting::{fits, is_givable};
pub use formula::formula_value;
pub use laws::{
    after_in_turn, ids_are_of_rows, next_ids_after, one_row_changes, reads_alone, sound_values,
    values_from_scratch,
};
pub use row::{initial_value, targets_of};
pub use tables::Tables;
pub use values::Values;
