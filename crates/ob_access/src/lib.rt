//! Who may do what: groups, access lines, record rules and the groups of fields, after the
//! access control of the Odoo 17 ORM. A policy is data over a registry; its contract: the
//! calls answer what the definitions of specs/ say of that data, each at the cost of the
//! model's own lines, rules or field.
//!
//! Rooms: `policy` has what modules declare and the policy made of it, `ops` sets of
//! operations, `index` the lines and rules by model and operation; `groups` finds a user's
//! groups, `fitting` tests what a policy asks of its data, `rights` asks lines and fields, `users`
//! asks the rows of users, `admission` asks rules, `views` has facts as a caller sees them, `laws`
//! says what the definitions give. A new way to grant or to refuse gets its definition in specs/
//! first.
#![tactic(auto)]

mod admission;
mod fitting;
mod groups;
mod index;
mod laws;
mod ops;
mod policy;
mod rights;
mod users;
mod views;

pub use fitting::fits;
pub use groups::GroupSet;
pub use laws::{
    admissions_grow_with_groups, denier_denies, field_rights_of_the_registry, groups_are_least,
    nothing_denied_without_rules, rights_go_by_groups, rights_grow_with_groups,
    seen_rows_are_known, user_1_sees_all,
};
pub use ops::Ops;
pub use policy::{AccessLine, Group, Policy, Rule};
pub use users::Users;
pub use views::Seen;
