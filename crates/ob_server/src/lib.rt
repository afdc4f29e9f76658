//! From requests to replies, over an engine of kept rows: the bodies on the lines of an input, or
//! the messages of connections over HTTP, are answered one after another, over a store that gets
//! the rows of its modules first, where it is new. The contract: `answer` is a step of a machine
//! that keeps plain fields alone and evaluates each computed field from scratch; `filled_lines`,
//! `filled_connections` and `serve_connection` are runs of it; and each refusal and each ending
//! has its cause.
//!
//! Rooms: `opening` has what is done before the first request; `session` serves the lines of the
//! input, `lines` cuts them; `serving` serves connections, and `connection` one of them;
//! `request` reads what a body asks for, `callers` finds who asks, `answering` answers it,
//! `service` what needs no call, `replies` has the replies, and `places` says where a body is
//! wrong; `terms` has what is handed to each request; `laws` says what follows of the machine
//! alone; `output` writes, and `ending` says how a run ends.
//! A further method of a model is a line in `request` and one in `answering`; what else each
//! request is handed is a field in `terms`; a further status is a variant in `ending`.
#![tactic(auto)]

mod answering;
mod callers;
mod connection;
mod ending;
mod laws;
mod lines;
mod opening;
mod output;
mod places;
mod replies;
mod request;
mod service;
mod serving;
mod session;
mod terms;

pub use answering::answer;
pub use connection::serve_connection;
pub use ending::Ending;
pub use laws::replies_go_by_views;
pub use opening::{filled_connections, filled_lines};
pub use output::{write_all, write_line};
pub use replies::Reply;
pub use terms::Terms;
