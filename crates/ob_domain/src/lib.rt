//! Domains, after the Odoo 17 ORM's search domains: lists of criteria in prefix form, read
//! against the registry, and whether a row meets one. Its contract: `read` accepts exactly
//! the lists that stand for a tree over fitting fields, operators and operands, and tells the
//! first fault of any other; `holds` is the tree's meaning on a row, over facts.
//!
//! Rooms: `reading` goes through a list, `aim` finds the field that a criterion names, `operator`
//! has the operators by their texts, `criterion` what each makes of its operand, `operand`
//! the values that operands stand for; `term` and `domain` are what was read; `holding` goes
//! through it, `asked` asks the facts, `passes` tests a value, `tree` asks where rows stand in
//! a tree, `pattern` matches texts; `naming` finds the fields that it names; `fault` and `place`
//! say why a list isn't read. An operator that is added gets its text in `operator`, its operand
//! in `criterion` and its meaning in `passes`. The definitions that contracts cite stand in
//! specs/.
#![tactic(auto)]

mod aim;
mod asked;
mod criterion;
mod domain;
mod fault;
mod holding;
mod naming;
mod operand;
mod operator;
mod passes;
mod pattern;
mod place;
mod reading;
mod term;
mod tree;

pub use domain::Domain;
pub use fault::{DomainFault, HoldFault};
pub use holding::holds;
pub use naming::domains_go_by_fields;
pub use reading::{one_domain, read};

/// A value in JSON.
pub type Json = serde_json::Value;
