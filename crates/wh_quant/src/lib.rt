//! The arithmetic of stock: which quants give what is wanted, and what lines of goods
//! that move make of quants, as Odoo 17 Inventory has removal strategies and quants.
//! Nothing here knows of rows, moves or rules: the callers hand in plain lists.
//!
//! Rooms: `stock` and `takes` (what candidates give, in the order of removal), `quant`
//! and `moving` (what lines make of quants), `spot` and `indexed` (finding a quant by
//! product, place and lot). What the words mean stands in specs/.
#![tactic(auto)]

mod indexed;
mod moving;
mod quant;
mod spot;
mod stock;
mod taking;

pub use moving::move_lines;
pub use quant::{Line, LineFault, Quant};
pub use stock::{Removal, Stock, Take};
pub use taking::takes;
