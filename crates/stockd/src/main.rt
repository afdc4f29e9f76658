//! The program `stockd`: a business-object server. It runs over the host's files, input,
//! output and clock, and keeps its rows in memory or in a file. The contract of `run`: its
//! replies are those of a machine that keeps plain fields alone and evaluates each computed
//! field from scratch, its rows are the machine's tables, an audit tells what they are, and its
//! status has a cause. How requests are answered and served stands in `ob_server`.
//!
//! Rooms: `run` has a whole run, over any objects, by what `ob_words` reads of the words; `help`
//! tells what these may be; `auditing` writes a report; `start` has the words of the command
//! line and the host's things.
//! Nothing but `main` stands here.
#![tactic(auto)]

mod auditing;
mod help;
mod run;
mod start;

pub use run::run;
use std::process::ExitCode;

fn main(rt: HostRuntime) -> ExitCode {
    ExitCode::from(start::started(&rt, &rt, &rt))
}
