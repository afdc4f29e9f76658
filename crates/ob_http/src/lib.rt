//! HTTP/1.1 as a server speaks it on one connection (RFC 9112): which messages come in,
//! whatever pieces their bytes come in, and the bytes of replies. What a body asks for is
//! read elsewhere. Its contract: `next_request` gives the items that are defined on the
//! connection's bytes, in turn, and `write_reply` writes the stated bytes.
//!
//! Rooms: `inlet` (what comes in), `held` (what was read ahead), `lines` (where a head ends),
//! `head` (the checks of a head), `fields` (what its fields say), `length` (the numbers that
//! they give), `text` (parts of texts), `request` (the next message), `reply` (the bytes of
//! replies), `writing` (in how few writes they go) and `laws` (what is known of the items).
#![tactic(auto)]

mod fields;
mod head;
mod held;
mod inlet;
mod laws;
mod length;
mod lines;
mod reply;
mod request;
mod text;
mod writing;

pub use held::Held;
pub use inlet::{HttpFault, Inlet};
pub use laws::{interim_line_stays_due, item_of_its_bytes, message_takes_bytes, one_item};
pub use reply::write_reply;
pub use request::next_request;
