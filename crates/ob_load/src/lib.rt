//! Modules from their texts: which texts are read, in which order modules are taken, what
//! their tables declare, the registry of all their models, the policy of their groups, access
//! lines and rules, and the rows that a new store gets; or the first thing that stands against
//! them, with its module and its place.
//!
//! Rooms: `loading` (the one public call), `fault` (what it refuses, as it is printed),
//! `reading` (texts in the order of reading), `dependencies` (circles, and the order in which
//! modules are taken), `policy` (what all modules declare of access and bring as rows), `access`
//! (what one declares, entry by entry), `rows` and `values` (the rows that it brings, and what
//! these give to fields), `preset` (the rows of groups), `entry` and `scope` (what an entry names,
//! and where that is looked up). The form of a text and the models that it declares are read in
//! `ob_module`.
#![tactic(auto)]

mod access;
mod dependencies;
mod entry;
mod fault;
mod loading;
mod policy;
mod preset;
mod reading;
mod rows;
mod scope;
mod values;

pub use fault::{FaultyModule, LoadFault, ModuleFault};
pub use loading::{Loaded, load};
