//! A probe as a program: each line of its input is answered on one line. A line that is empty
//! or begins with `#` is a remark, and told again as it is. What ends a probe early is here.

use crate::told::Told;
use crate::words::first_word;
use std::alloc::Global;
use std::io;
use std::io::Input;
use std::process::ExitCode;

/// What a probe answers.
pub trait Probe {
    /// Tells the answer to a line of this word, whose call is made so many times; the last
    /// counts.
    fn answer(&self, alloc: Global, told: &mut Told, times: u32, word: &str, rest: &str);
}

/// Why a probe stops before the end of its input.
enum Stop {
    /// A line that is no text, or a read or a write that failed.
    Outside,
    NoMemory,
}

impl From<io::Error> for Stop {
    fn from(_error: io::Error) -> Stop {
        Stop::Outside
    }
}

/// Answers each line of the input. The status is 1 where the input isn't UTF-8 or where a read
/// or a write fails, 7 where memory is wanting, else 0.
pub fn answer_lines<R: Alloc<A = Global> + Input + Print, P: Probe>(rt: &R, probe: &P) -> ExitCode {
    match each_line(rt, probe) {
        Ok(()) => ExitCode::from(0),
        Err(Stop::Outside) => ExitCode::from(1),
        Err(Stop::NoMemory) => ExitCode::from(7),
    }
}

fn each_line<R: Alloc<A = Global> + Input + Print, P: Probe>(
    rt: &R,
    probe: &P,
) -> Result<(), Stop> {
    let alloc = rt.alloc();
    for line in rt.lines(alloc) {
        let line = line?;
        let mut told = Told::new(alloc);
        answer_to(alloc, &mut told, probe, line.as_str());
        if told.lacks_memory() {
            return Err(Stop::NoMemory);
        }
        let answer = told.as_str();
        println!(rt; "{answer}")?;
    }
    Ok(())
}

/// Tells the answer to a line.
fn answer_to<P: Probe>(alloc: Global, told: &mut Told, probe: &P, line: &str) {
    if line.is_empty() || line.starts_with('#') {
        return told.put(line);
    }
    let (times, line) = times_of(line);
    let (word, rest) = first_word(line);
    probe.answer(alloc, told, times, word, rest);
}

/// How often a call is to be made, and the line that asks for it: `times N` may stand before
/// the word.
fn times_of(line: &str) -> (u32, &str) {
    let Some(rest) = line.strip_prefix("times ") else {
        return (1, line);
    };
    let Some((count, rest)) = rest.split_once(' ') else {
        return (1, line);
    };
    match count.parse() {
        Ok(times) => (times, rest),
        Err(_) => (1, line),
    }
}
