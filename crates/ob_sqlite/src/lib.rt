//! The keeper of rows in SQLite: its tables, the statements on them, and the form of the
//! trait `Keeper` that asks them. It tells no rows.
//!
//! Rooms: `tables` makes the tables; `selects` and `writes` have a statement in each function;
//! `answers` tests what a statement answered and gives it as a keeper does; `reading` and
//! `writing` are the calls over an open connection; `opened` holds that connection, and `keeper`
//! counts faults; `file` opens the file of a path.
#![tactic(auto)]

mod answers;
mod fault;
mod file;
mod keeper;
mod opened;
mod reading;
mod selects;
mod tables;
mod writes;
mod writing;

pub use file::{FileKeeper, keeper_at};
pub use keeper::SqliteKeeper;
