//! The program `probe`: it answers each line of its input by a call of a library, on one line.
//! Other implementations are compared with the libraries through it, and benches time it. Which
//! words there are, and what is told of each, the heads of the rooms `answer` of probe_values,
//! probe_models, probe_access and probe_stock say: a further word goes there.
#![tactic(auto)]

use probe_access::answer as access;
use probe_models::answer as models;
use probe_parts::program::{Probe, answer_lines};
use probe_parts::told::Told;
use probe_stock::answer as stock;
use probe_values::answer::Values;
use std::alloc::Global;
use std::process::ExitCode;

/// All words, with what stands from line to line.
#[derive(Drop)]
struct Words {
    values: Values,
}

impl Probe for Words {
    fn answer(&self, alloc: Global, told: &mut Told, times: u32, word: &str, rest: &str) {
        let is_known = self.values.put_answer(alloc, told, times, word, rest)
            || models::put_answer(alloc, told, times, word, rest)
            || access::put_answer(alloc, told, times, word, rest)
            || stock::put_answer(alloc, told, times, word, rest);
        if !is_known {
            told.put("no word");
        }
    }
}

fn main(rt: HostRuntime) -> ExitCode {
    match Values::new(rt.alloc()) {
        Some(values) => answer_lines(&rt, &Words { values }),
        None => ExitCode::from(7),
    }
}
