//! The words of the program probe that ask the libraries of models. Nothing is kept from line to
//! line; what an answer is, the contract of the library's call says.
//!
//! Rooms: `answer` tells a word from another, `schemas` asks ob_schema what definitions make,
//! `told_models` and `told_fields` tell a registry, `modules` asks ob_load, `tables` asks
//! ob_tables what the edits that `edits` reads make, and `told_tables` tells what is asked of
//! it, `engines` asks ob_cache over a keeper in memory, step by step (`steps`, `asked`), whose
//! rows `changes` changes, `closes` asks ob_trigger what a change reaches, over the links of its
//! two tables (`sides`). How lines are read and values told stands in probe_parts.
#![tactic(auto)]

pub mod answer;
mod asked;
mod changes;
mod closes;
mod edits;
mod engines;
mod modules;
mod schemas;
mod sides;
mod steps;
mod tables;
mod told_fields;
mod told_models;
mod told_tables;
