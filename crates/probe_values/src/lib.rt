//! The words of the program probe that ask ob_base, ob_call, ob_codec, ob_dates, ob_syntax and
//! ob_expr. From line to line only the registry and the fields stand; what an answer is, the
//! contract of the library's call says.
//!
//! Rooms: `answer` tells a word from another, `registry` has the model whose fields and rows
//! are asked for. `rows` and `values` ask ob_codec, `told` writes commands and long answers,
//! `texts` asks ob_dates. `base` and `orders` ask ob_base, `arguments` ob_call. `expressions`
//! asks ob_syntax and ob_expr, over the models of `fields` and the cells of `cells`, and
//! `evaluations` asks for their values.
#![tactic(auto)]

pub mod answer;
mod arguments;
mod base;
mod cells;
mod evaluations;
mod expressions;
mod fields;
mod orders;
mod registry;
mod rows;
mod texts;
mod told;
mod values;
