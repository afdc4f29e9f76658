//! The words that every other crate speaks: ids, values and their order, steps,
//! refusals, the limits, and the trees of expressions. It stands on nothing but the
//! standard library. Its
//! contract: `value_cmp` is the one total order of values, by which `value_eq` is
//! equality, and `tick` adds one to a count that only contracts see.
//!
//! Rooms: `id` (numbers, and cells with their order), `sequence`, `word` and `ref_list`
//! (values that contracts see as lists), `value` (the values and their one order),
//! `steps` (counting evaluations), `place` and `refusal` (what an answer other than Ok
//! names), `limits` (every bound that a caller can meet), `syntax` and `expr_fault` (what the
//! parser makes of an expression's text).
#![tactic(auto)]

mod expr_fault;
mod id;
pub mod limits;
mod memory;
mod place;
mod ref_list;
mod refusal;
mod sequence;
mod steps;
mod syntax;
mod value;
mod word;

pub use expr_fault::ExprFault;
pub use id::{Cell, FieldNo, ModelNo, RecId, RowKey, cell_cmp};
pub use memory::NoMemory;
pub use place::{PathStep, Place};
pub use ref_list::RefList;
pub use refusal::{Broken, BrokenKind, Op, Refusal, broken_cmp};
pub use sequence::Sequence;
pub use steps::{Counted, Ledger, Silent, Steps};
pub use syntax::{Expr, Operator, Prefix, call_order};
pub use value::{Value, value_cmp, value_eq};
pub use word::Word;
