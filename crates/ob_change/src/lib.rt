//! What a change of tables edits, and what of it is broken, by what it touched and what hangs on
//! that: no row is looked at that the change doesn't reach, unless it breaks a tree. Contract:
//! `edited_cells` gives the edited cells and no others; `broken_edit` tells something that is
//! broken behind the change, or nothing, where all tests of the edited cells pass that `ob_sound`
//! names. How rows are found may change here at will.
//!
//! Rooms: `change` (the tables before and behind, and the rows between them that were touched),
//! `edited` (the edited cells), `once` (cells that come up several times, each once), and a test
//! for each way of breaking: `cells` (a value, a reference, an id, a list), `gone` (rows that are
//! gone and still named), `sets` (sets of fields that no two rows share), `trees` (circles and
//! depths); `passing` asks them all.
#![tactic(auto)]

mod cells;
mod change;
mod edited;
mod gone;
mod once;
mod passing;
mod sets;
mod trees;

pub use change::Change;
pub use edited::edited_cells;
pub use passing::broken_edit;
