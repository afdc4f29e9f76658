//! The words of the program probe that ask the libraries about stock, messages and command
//! lines. Nothing is kept from line to line; what an answer is, the contract of the library's
//! call says.
//!
//! Rooms: `answer` tells a word from another; `removals` and `quants` ask wh_quant, `moves`
//! asks wh_move, `routes` asks wh_route, `connections` asks ob_http, `envelopes` asks ob_rpc,
//! `command_lines` asks ob_words; `askable` says what `move_lines` may be asked. A further word gets its line in `answer`.
#![tactic(auto)]

pub mod answer;
mod askable;
mod command_lines;
mod connections;
mod envelopes;
mod items;
mod moves;
mod quants;
mod removals;
mod routes;
