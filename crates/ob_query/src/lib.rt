//! The calls that ask of rows and change none, over an engine of kept rows: `read` of rows by
//! their ids, `search`, `search_count` and `search_read` of those that a domain finds. Each call
//! is the machine's: its answer is the one that the caller's view of the tables of plain values
//! defines, and what it means is one relation over them (`specs/Views`, `specs/Read`,
//! `specs/Search`). `read_group` stands in the crate `ob_group`, by what these share.
//!
//! Rooms: `caller` (who asks, and what he may ask), `naming` (the fields that arguments name);
//! `reading` and `searching`, each with rooms of its own for the forms of its arguments,
//! what is asked for and how rows are found; and `told_rows`, how rows are told. A further
//! call is a room beside them, with its relation in specs/. `Walk` goes over the rows of a model for
//! whoever asks of them all. How arguments are read stands in the crate `ob_call`.
#![tactic(auto)]

mod caller;
mod laws;
mod naming;
mod reading;
mod searching;
mod told_rows;

pub use caller::{Caller, granted, groups_of};
pub use laws::reads_go_by_views;
pub use naming::{Naming, domain_naming, step_at};
pub use reading::read;
pub use searching::forms::SearchForm;
pub use searching::found::next_found;
pub use searching::order::{Key, rising, window_of};
pub use searching::questions::value_in;
pub use searching::searched::Searched;
pub use searching::sought::{Arguments, Sought, count_given, sought_by};
pub use searching::{Walk, ids_json, search, search_count, search_read};
