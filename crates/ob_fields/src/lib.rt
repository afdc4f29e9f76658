//! The call `fields_get`: what fields a model has, of those that the caller may read. It is the
//! machine's, and asks no row but those of its caller.
//!
//! One room, `fields`, with its own: what is told of one field, and the forms of the arguments. Who
//! asks, and to which fields calls never give values, stands in the crate `ob_rows`. The definitions
//! stand in specs/.
#![tactic(auto)]

mod fields;

pub use fields::fields_get;
