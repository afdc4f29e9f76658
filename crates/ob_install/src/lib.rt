//! What makes rows without being called: `install`, the rows that modules bring, in a store where no
//! row was ever made.
//!
//! One room, `installing`, with its own: the values that a row brings, how the rows are placed and
//! made, for which of them a row is made, and what they may not do. How a row is made stands in the
//! crate `ob_orm`, as a create makes it. The definitions stand in specs/.
#![tactic(auto)]

mod installing;

pub use installing::{InstallFault, install, is_new};
