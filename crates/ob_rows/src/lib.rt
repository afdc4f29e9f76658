//! What calls that change rows ask of an engine of kept rows, and how their edits are settled, as
//! public functions on which each such call stands: the crates `ob_orm` (`create` and `write`),
//! `ob_unlink`, `ob_effect` (what commands do) and what comes next.
//!
//! Rooms: `asking` (what the caller may do, and which rows rules deny him), `author` (who makes or
//! changes rows and when, and what that stamps in them), `values` (to which fields calls give
//! values, and to which they never do), `creatable` (of which models a create makes rows and a write
//! changes them), `there` (which rows are there), `settled` (values as they were settled last),
//! `relations` (by which fields rows name others), `locking` (which rows are locked), `lasting`
//! (which rows no call deletes), `ids` (the cell `id` of a row) and `settling` (how edits are
//! settled). The definitions stand in specs/.
#![tactic(auto)]

mod asking;
mod author;
mod creatable;
mod ids;
mod lasting;
mod locking;
mod relations;
mod settled;
mod settling;
mod there;
mod values;

pub use asking::{
    Caller, Denied, first_unwritable, groups_of, least_denied, may, rows_named, test_rules,
};
pub use author::{Author, is_stamp, stamp, tells_change, tells_making};
pub use creatable::{is_creatable, is_writable};
pub use ids::id_cell;
pub use lasting::lasts;
pub use locking::{is_locked, told_field};
pub use relations::{KeptRelation, kept_relations};
pub use settled::settled_value;
pub use settling::settle_edits;
pub use there::{is_there, missing_id};
pub use values::{is_readonly, is_settable};
