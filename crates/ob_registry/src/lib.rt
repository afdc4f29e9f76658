//! The registry that definitions make, with every name resolved, or the first thing that stands
//! against them.
//!
//! Rooms: `build` (the registry from definitions), behind it `model` and `models` (models with all
//! their fields, and what names stand for), `model_faults`, `field_faults`, `paths`, `formulas`,
//! `graph` and `strata` (what is wrong with models, keys, paths, expressions and circles),
//! `building` and `field_building` (the registry's parts). What a right registry is stands in the
//! specs of `ob_schema`; a further fault of definitions gets its room and its words in
//! specs/Faults here.
#![tactic(auto)]

mod build;
mod building;
mod field_building;
mod field_faults;
mod formulas;
mod graph;
mod model;
mod model_faults;
mod models;
mod paths;
mod strata;

pub use build::build_schema;
