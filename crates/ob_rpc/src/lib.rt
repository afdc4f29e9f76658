//! JSON-RPC 2.0, as Odoo 17's external API speaks it at /jsonrpc: the envelope
//! of a request's body and the text of the reply. What a request asks for is
//! read elsewhere, and nothing is read or written here but texts. Its contract:
//! `envelope` accepts exactly the stated bodies, else it names the first place that is
//! wrong with the id that was read, and `reply_text` is the stated text.
//!
//! Rooms: `request` (what an envelope holds), `methods` (which services and methods there are),
//! `read` (from a body to its envelope or its fault) and `reply` (from an outcome to its text).
#![tactic(auto)]

mod methods;
mod read;
mod reply;
mod request;

pub use methods::Served;
pub use read::envelope;
pub use reply::{Outcome, no_memory_reply, reply_forms_are_lines, reply_text};
pub use request::{EnvFault, Envelope};

/// Any JSON value.
pub type Json = serde_json::Value;
