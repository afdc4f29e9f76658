//! The words of the program probe that ask the libraries about domains and access. Nothing is
//! kept from line to line; what an answer is, the contract of the library's call says.
//!
//! Rooms: `answer` tells a word from another; `domains` asks ob_domain and `accesses` asks
//! ob_access, over the rows of `row_facts`; `fields` asks ob_domain for the fields of a domain;
//! `policies` reads a policy, `modules` asks ob_load for one, and `presets` tells the rows that
//! modules bring; `unanswered` says why there is no answer. A further word gets its line in
//! `answer`.
#![tactic(auto)]

mod accesses;
pub mod answer;
mod domains;
mod fields;
mod modules;
mod policies;
mod presets;
mod row_facts;
mod unanswered;
