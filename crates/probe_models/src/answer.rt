//! Which library a line asks, by its first word. A new word gets its line here.
//!
//! | line | answer |
//! |---|---|
//! | `schema DEFINITIONS` | the registry that they make, or their first fault, with its entry and its field |
//! | `load MODULES FILES` | the registry that they mean, or what stands against them first |
//! | `reads FAILS MODULES FILES` | `loaded`, or what stands against them first, where the read of number FAILS fails (0: none) |
//! | `tables EDITS` | of each case the first that its edits break, or that they are sound, and what is asked of the tables after them; or the edits that don't fit |
//! | `engine PARTS` | of each part what it comes to |
//! | `closes CHANGES` | of each change the cells that it edits, and the computed ones that it may reach by the closure |
//!
//! DEFINITIONS are entries with ` || ` between them, such as
//! `name=m.a order=b | b integer | c integer compute=b\s+\s1 depends=b || inherit=m.a | d char`;
//! `definitions` of probe_parts says which keys there are, `told_models` how a registry is told.
//!
//! MODULES and FILES are as `modules` says.
//!
//! EDITS is `{"definitions":DEFINITIONS,"cases":[{"before":[EDIT, ..],"edits":[EDIT, ..],"ask":[QUESTION, ..]}, ..]}`;
//! `edits` says what an edit is, `told_tables` what a question and an answer. A case may have
//! `"next":[MODEL,ID]`, a next id that is given to the tables before its edits, and
//! `"still":[QUESTION, ..]`, which are asked of the tables before both once these are made.
//!
//! PARTS is `{"definitions":DEFINITIONS,"fails":[NUMBER, ..],"parts":[PART, ..]}`: a keeper
//! in memory that keeps nothing at first, whose calls of these numbers fail, counted from 1.
//! `engines` says what a part is, `steps` and `asked` what is told of its steps.
//!
//! CHANGES is an object of the same form as EDITS; `closes` says what is told of its cases.
//!
//! `times N` before `schema`, `load`, `tables` or `closes` makes the library's call N times and
//! tells the last answer. `not asked` stands where a call requires what isn't so.

use crate::closes::put_closes;
use crate::engines::put_parts;
use crate::modules::{put_loaded, put_reading};
use crate::schemas::put_built;
use crate::tables::put_cases;
use probe_parts::parts::json_of;
use probe_parts::told::Told;
use std::alloc::Global;

/// Tells the answer to a line of this word, whose call is made so many times; false where the
/// word isn't one of these.
pub fn put_answer(alloc: Global, told: &mut Told, times: u32, word: &str, rest: &str) -> bool {
    match word {
        "schema" => put_built(alloc, told, times, rest),
        "load" => put_loaded(alloc, told, times, rest),
        "reads" => put_reading(alloc, told, rest),
        "tables" | "engine" | "closes" => put_of_json(alloc, told, times, word, rest),
        _ => return false,
    }
    true
}

/// Tells the answer to a line of JSON: of tables, of an engine, or of a closure.
fn put_of_json(alloc: Global, told: &mut Told, times: u32, word: &str, rest: &str) {
    let json = json_of(alloc, told, rest);
    if told.is_malformed() {
        return told.tell_instead(alloc, "no JSON");
    }
    match word {
        "tables" => put_cases(alloc, told, times, &json),
        "closes" => put_closes(alloc, told, times, &json),
        _ => put_parts(alloc, told, &json),
    }
    if told.is_malformed() {
        told.tell_instead(alloc, "no case");
    }
}
