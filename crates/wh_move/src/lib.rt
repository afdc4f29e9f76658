//! The arithmetic of one stock move: the state that it has by what is reserved of its
//! demand, and how a demand is split where only part of it is done. The states are
//! those of a move in Odoo 17 Inventory (developer documentation, `stock.move`).
//! Nothing here knows of rows, quants or other moves.
//!
//! Rooms: `state` (the states and which one comes next), `demand` (done and left over).
#![tactic(auto)]

mod demand;
mod state;

pub use demand::split;
pub use state::{MoveState, next_state};
