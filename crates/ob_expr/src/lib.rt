//! The meaning of expressions: checked in a scope, and evaluated over cells that are there
//! already. Its contract: `check` accepts exactly what has a kind in its scope, and names the
//! first part that has none; `eval` gives the value that the expression means over the cells
//! it comes to, and ticks once.
//!
//! Rooms: `kind` and `function` are what names stand for, `typed` is what was checked, with
//! its `paths`, `operand` the kinds of operators, `checker` resolves names and kinds over a `Scope`, `evaluator` evaluates what
//! was checked over `Reads`, with the values of `computing`. A new form of the language, once
//! it has its syntax, goes through all of them.
#![tactic(auto)]

mod checker;
mod computing;
mod evaluator;
mod fault;
mod function;
mod kind;
mod operand;
mod paths;
mod row;
mod typed;

pub use checker::{TypeFault, check};
pub use evaluator::{Fresh, Reads, eval, reads_along_paths, values_from_cells, values_of_kinds};
pub use fault::EvalFault;
pub use kind::{Found, Kind, Scope};
pub use paths::Renumbering;
pub use typed::{Aggregate, Extreme, Link, Path, Typed};
