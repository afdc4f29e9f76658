//! `read_group`: the groups that rows of a model fall into by the values of fields, with what is told
//! of each, over an engine of kept rows. It is the machine's, as the calls of `ob_query` are, by which
//! rows are found and rights asked; what it means is one relation (`specs/Groups`).
//!
//! Rooms: `grouping` (the call), `forms` (the forms of its arguments), `written` and `groupings` (what
//! stands for groupings), `aggregates` and `amounts` (what is told of a group), `period` (days and
//! moments), `terms` (the order), `asked` (what is asked for), `gathered` (the rows of each group) and
//! `told_groups`. A further aggregate is a variant of `Amount` with its words in specs/GroupAmounts.
#![tactic(auto)]

mod aggregates;
mod amounts;
mod asked;
mod forms;
mod gathered;
mod grouping;
mod groupings;
mod handed;
mod laws;
mod parted;
mod period;
mod terms;
mod told_groups;
mod written;

pub use grouping::read_group;
pub use laws::groups_go_by_views;
