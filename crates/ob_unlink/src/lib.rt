//! The call `unlink`, over an engine of kept rows: the named rows go, with those that cascades reach.
//! It is the machine's: its answer is the one that the tables of plain values define.
//!
//! One room, `unlinking`, with its own: which rows go and which cells name them, what keeps rows from
//! going, and the edits. What every call that changes rows does (who asks, which rows are there and
//! locked, how edits are settled) stands in the crate `ob_rows`. The definitions stand in specs/.
#![tactic(auto)]

mod unlinking;

pub use unlinking::unlink;
