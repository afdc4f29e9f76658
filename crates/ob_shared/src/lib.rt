//! A map in the order of its keys whose copies share what they have in common: to copy one
//! takes one step, an edit makes anew the nodes on the way to its key alone, and to give a
//! copy up frees what no other has.
//!
//! Rooms: `node` (the tree, and how it is balanced), `inserting` and `removing` (what edits
//! make of a tree), `finding` (what a tree tells), `map` (the map and its calls), `range` (the
//! entries between two bounds).
#![tactic(auto)]

mod finding;
mod inserting;
mod map;
mod node;
mod range;
mod removing;

pub use map::SharedMap;
pub use range::Range;
