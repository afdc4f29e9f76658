//! Routes of goods: the chain of pull rules that brings them to a place, and the push
//! rule that takes them on, as routes and rules of Odoo 17 Inventory have them. Rules
//! are plain data here; which of them are active the caller knows.
//!
//! Rooms: `rule` (a rule and the faults), `pull` (the chain of pull rules), `push` (the
//! push rule). What a chain is stands in specs/Routes.
#![tactic(auto)]

mod pull;
mod push;
mod rule;

pub use pull::pull_chain;
pub use push::push_next;
pub use rule::{RouteFault, RouteRule};
