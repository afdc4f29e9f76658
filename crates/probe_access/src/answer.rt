//! Which library a line asks, by its first word. A new word gets its line here.
//!
//! | line | answer |
//! |---|---|
//! | `domain CASE` | the ids of the rows that meet the domain, or the fault with its place; ` \| ` between the answers of several domains |
//! | `fields CASE` | the fields that the domain names, as MODEL.FIELD, or the fault with its place |
//! | `asks CASE` | whether a criterion on the field stands outside `any`, or the fault with its place |
//! | `access CASE` | an answer to each question of the case, in JSON |
//! | `declared CASE` | the same by the policy of modules, or what stands against these first |
//! | `preset CASE` | the rows that modules bring, or what stands against these first |
//!
//! The CASE of `domain` is `{"model":MODEL,"user":ID,"rows":[ROW, ..],"domain":DOMAIN}`, or with
//! `"domains":[DOMAIN, ..]`. MODEL is `probe.row` or `probe.place`, or one of those that
//! `"models":DEFINITIONS` defines. `row_facts` says what a row is, `accesses` what the CASE of
//! `access` and `declared` is, `presets` that of `preset`, `fields` that of `fields` and `asks`,
//! `probe_parts::definitions` what DEFINITIONS are. With `"answered":N` so many questions about each row are answered, and `failed` stands
//! where that isn't enough: in the answer of `domain` behind the row's id, of `access` alone.
//!
//! In a CASE `«N TEXT»` stands for a text so many times. `times N` before a word makes its call
//! N times and tells the last answer. `no JSON` and `no case` tell what a line lacks.

use crate::accesses::{put_access, put_declared};
use crate::domains::put_domain;
use crate::fields::{Question, put_fields};
use crate::presets::put_preset;
use ob_domain::Json;
use probe_parts::parts::json_of;
use probe_parts::told::Told;
use probe_parts::words::first_word;
use std::alloc::Global;

/// Tells the answer to a line of this word, whose call is made so many times; false where the
/// word isn't one of these.
pub fn put_answer(alloc: Global, told: &mut Told, times: u32, word: &str, rest: &str) -> bool {
    match word {
        "domain" | "fields" | "asks" | "access" | "declared" | "preset" => {
            put_line(alloc, told, times, word, rest);
            true
        }
        _ => false,
    }
}

/// Tells the answer to a line of one of these words.
fn put_line(alloc: Global, told: &mut Told, times: u32, word: &str, rest: &str) {
    let whole = expanded(alloc, told, rest);
    let json = json_of(alloc, told, whole.as_str());
    if told.is_malformed() {
        told.tell_instead(alloc, "no JSON");
    } else {
        put_case(alloc, told, times, word, &json);
    }
}

/// Tells the answer to a case.
fn put_case(alloc: Global, told: &mut Told, times: u32, word: &str, json: &Json) {
    match word {
        "domain" => put_domain(alloc, told, times, json),
        "fields" => put_fields(alloc, told, times, Question::Fields, json),
        "asks" => put_fields(alloc, told, times, Question::Asks, json),
        "access" => put_access(alloc, told, times, json),
        "declared" => put_declared(alloc, told, times, json),
        _ => put_preset(alloc, told, json),
    }
    if told.is_malformed() {
        told.tell_instead(alloc, "no case");
    }
}

/// A text in which `«N TEXT»` stands for a text so many times.
fn expanded(alloc: Global, told: &mut Told, text: &str) -> String {
    let mut whole = Told::new(alloc);
    for piece in text.split('»') {
        match piece.split_once('«') {
            Some((before, part)) => {
                whole.put(before);
                put_times(&mut whole, part);
            }
            None => whole.put(piece),
        }
    }
    told.take(whole)
}

/// Adds the text that `N TEXT` stands for.
fn put_times(whole: &mut Told, part: &str) {
    let (count, part) = first_word(part);
    let count: u32 = match count.parse() {
        Ok(count) => count,
        Err(_) => 0,
    };
    for _ in 0..count {
        whole.put(part);
    }
}
