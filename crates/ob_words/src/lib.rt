//! The words of the command line: which ask for what, where they have rows kept and where
//! connections come. They are read by the kit's `clap`, as one simple command. Its contract:
//! `asked_of` gives exactly what words ask for by the stated grammar, or none.
//!
//! Rooms: `command` has what may be asked for, `arguments` the command of `clap` with its
//! options, their defaults and what help says of them, `values` the forms of values, `reading`
//! what words say, and `places` where rows are kept and connections come. An option more is a
//! line in `arguments`, a form in `values` and a part in `command`.
#![tactic(auto)]

mod arguments;
mod command;
mod places;
mod reading;
mod values;

pub use arguments::{VERSION, help_text};
pub use command::{Action, Asked, Command};
pub use places::{Store, Usage, address_of, store_of};
pub use reading::asked_of;
