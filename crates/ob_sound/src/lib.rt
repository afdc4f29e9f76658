//! What keeps tables sound behind a change: which tests of what the change edits, and of the
//! computed cells that it gives another outcome, suffice; and that each of them that fails finds
//! something broken. Contract: laws of the definitions, for whoever tests so, in whatever order
//! and by whatever indexes.
//!
//! Rooms: `edits` (the edited cells, and what hangs on them), `trees` (depths below a row that is
//! moved), `lists` (the lists that rows make of those that name them), `touched` (which cells are
//! edited, by the rows that edits touch), `formulas` (what formulas give), `whole` (all of it).
#![tactic(auto)]

mod edits;
mod formulas;
mod lists;
mod touched;
mod trees;
mod whole;

pub use edits::{broken_cells_found, broken_trees_found, still_tied};
pub use formulas::{broken_formulas_found, broken_is_changed, others_keep_values};
pub use lists::{gone_rows_are_listed, lists_alone_are_edited};
pub use touched::{edited_cells_are_touched, edits_touch_their_rows};
pub use trees::depths_add;
pub use whole::{sound_tables_pass, still_sound};
