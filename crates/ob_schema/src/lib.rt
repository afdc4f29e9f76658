//! The registry: models with every name resolved, and what is asked of them.
//!
//! Rooms: `info` (models and fields with names resolved), `schema` (the registry and its
//! look-ups), `facts` (what domains and rules ask of rows), `links` (what is asked of rows to
//! follow a change), `preset` (rows that modules bring). The definitions that contracts cite
//! stand in specs/, those of a right registry among them; `ob_registry` builds one, and what is
//! declared stands in `ob_definition`.
#![tactic(auto)]

mod facts;
mod info;
mod links;
mod preset;
mod schema;

pub use facts::{Facts, questions_of_questions};
pub use info::{
    Delegation, FieldInfo, Formula, ModelInfo, OrderTerm, Origin, ParentInfo, Path, Step,
};
pub use links::{Links, Side};
pub use ob_definition::{
    Check, Choice, FieldDef, FieldType, Inherits, ModelDef, OnDelete, SchemaFault, Spot,
};
pub use preset::{Preset, PresetRow, PresetValue};
pub use schema::{Schema, meaning_by_declared_paths};
