//! What makes and changes rows without being called: `stage_create` and `stage_write` stage the
//! edits of a create or a write of plain values, behind what is staged already. A call that makes
//! several changes stages them one behind another, tests what is its own to test, and settles once.
//!
//! Rooms: `creating` (a row that is made, with rows of its parents), `changing` (a row that is
//! changed, with rows of its parents), `next_ids` (the ids that rows take behind edits that aren't
//! staged yet) and `staged` (what is asked of the staged tables). Which edits these are is told
//! where the calls `create` and `write` have them, in the crate `ob_orm`; what staging leaves
//! stands in specs/.
#![tactic(auto)]

mod changing;
mod creating;
mod next_ids;
mod staged;

pub use changing::stage_write;
pub use creating::stage_create;
