//! One module's text: its form, what it declares, and the modules that are read by their names.
//!
//! Rooms: `form` and `keys` (where a document breaks its form first), `wrong` (the way there),
//! `tables` (what stands at keys and in lists), `definitions` (the models that a document
//! declares), `inside` (the texts that stand in the program), `modules` (what was read, by
//! names), `coming` (the names that are still to be read). What modules declare of access and
//! bring as rows is read in `ob_load`, over the registry of their models.
#![tactic(auto)]

mod coming;
mod definitions;
mod form;
pub mod inside;
mod keys;
mod modules;
mod tables;
mod wrong;

pub use coming::Coming;
pub use definitions::add_models;
pub use form::{AnyKey, AtKey, Form, Keys, ListOf, TableOf, unless};
pub use keys::{is_reference, wrong_document};
pub use modules::Modules;
pub use tables::{
    depends_of, found, is_set, listed_at, member, str_at, text_of, texts_at, word_at,
};
pub use wrong::Wrong;
