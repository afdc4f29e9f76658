//! What module texts declare of models: definitions, a field for each key of a module file,
//! and the models that their entries make, gathered in order, with the faults that can be
//! told by names alone.
//!
//! Rooms: `field_type` (the types of fields and what they may hold), `definition` (what is
//! declared), `names`, `keys` and `orders` (whether a part is of its form), `gathering`
//! (models from their entries, with `by_name`), `made` (fields that no entry declares),
//! `fault`, `wrong` and `first` (why definitions make no registry, and which fault is the
//! first). The definitions that contracts cite stand in specs/.
#![tactic(auto)]

mod by_name;
mod definition;
mod fault;
mod field_type;
mod first;
mod gathering;
mod keys;
mod made;
mod names;
mod orders;
mod wrong;

pub use by_name::{CheckEntry, Checks, FieldEntry, Fields};
pub use definition::{Check, FieldDef, Inherits, ModelDef};
pub use fault::{SchemaFault, Spot};
pub use field_type::{Choice, FieldType, OnDelete};
pub use first::First;
pub use gathering::{GatheredModel, Gathering, GivenOrder, UniqueSet, gather};
pub use keys::{fits, is_computed, is_set};
pub use made::{Condition, Made, ParentLink, automatic_fields, is_automatic, made_fields};
pub use names::{is_field_name, is_model_name};
pub use orders::{OrderEntry, order_entries};
pub use wrong::Wrong;
