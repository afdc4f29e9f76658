//! The engine over kept rows: the one way by which calls know and change what is kept. It
//! opens a keeper's rows exactly where they are those of sound tables, stages edits, settles
//! them exactly where the tables with them are sound, and keeps what was settled in one commit.
//!
//! Rooms: `engine` (the calls and their contract), `stages` (where an engine is between two
//! settles), `fault` (why a call gives no answer), `facts` and `links` (what the engine tells
//! domains, rules and whoever asks what edits affect), `laws` (what questions behind one another
//! are). Behind them, and to be changed at will: `held` (the tables at three moments), `staging`
//! (what edits make of tables, and which rows they touch), `whole` (sound tables with the values
//! of their computed cells), `behind` (such tables behind a change of others), `renewing` (the
//! values of computed cells behind it), `lasting` (which of them stay, since their rows do),
//! `knowing` (which of them needn't be evaluated), `failing` (whose own formula fails), `once` (the
//! rows of a list, each once), `between` (the links on its two sides), `opening` (the rows of a
//! keeper as tables), `kept_rows` (a row and its kept form) and `flushing` (what tables change in a
//! keeper).
#![tactic(auto)]

mod behind;
mod between;
mod engine;
mod facts;
mod failing;
mod fault;
mod flushing;
mod held;
mod kept_rows;
mod knowing;
mod lasting;
mod laws;
mod links;
mod native;
mod once;
mod opening;
mod renewing;
mod stages;
mod staging;
mod whole;

pub use engine::{Engine, Unopened};
pub use fault::{OpenFault, ReadFault, SettleFault};
