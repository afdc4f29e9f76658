//! The answer to a line while it is told. No call here answers how it went: where memory is
//! wanting, or where a part of the line is of another form, that is noted, and looked at once
//! behind the line. So who reads a line or tells an answer hands on no failure, and lets go of
//! nothing on the way: that keeps their proofs short.
//!
//! A value of each variant reads otherwise, where JSON has one form for several.

use crate::parts::Json;
use ob_base::{RecId, Sequence, Value};
use std::alloc::Global;
use std::fmt::{Debug, Display};

/// The answer to a line, and what stands against it.
#[derive(Drop)]
pub struct Told {
    text: String,
    /// Whether memory was wanting.
    lacks_memory: bool,
    /// Whether a part of the line is of another form.
    is_malformed: bool,
}

impl Told {
    /// An answer to which nothing is added yet.
    pub fn new(alloc: Global) -> Told {
        Told {
            text: String::new(alloc),
            lacks_memory: false,
            is_malformed: false,
        }
    }

    /// Notes that memory is wanting.
    pub fn lack(&mut self) {
        self.lacks_memory = true;
    }

    /// Notes that a part of the line is of another form.
    pub fn refuse(&mut self) {
        self.is_malformed = true;
    }

    /// Whether memory was wanting.
    pub fn lacks_memory(&self) -> bool {
        self.lacks_memory
    }

    /// Whether a part of the line was of another form.
    pub fn is_malformed(&self) -> bool {
        self.is_malformed
    }

    /// Whether nothing is told yet.
    pub fn is_empty(&self) -> bool {
        self.text.is_empty()
    }

    /// What is told.
    pub fn as_str(&self) -> &str {
        self.text.as_str()
    }

    /// Tells these words in place of all that was told.
    pub fn tell_instead(&mut self, alloc: Global, words: &str) {
        self.text = String::new(alloc);
        self.is_malformed = false;
        self.put(words);
    }

    /// Adds words.
    pub fn put(&mut self, words: &str) {
        if self.text.push_str(words).is_err() {
            self.lacks_memory = true;
        }
    }

    /// Adds whether something is so.
    pub fn put_bool(&mut self, is_so: bool) {
        self.put(if is_so { "true" } else { "false" });
    }

    /// Adds a number.
    pub fn put_number(&mut self, number: i64) {
        if write!(&mut self.text, "{number}").is_err() {
            self.lacks_memory = true;
        }
    }

    /// Adds a number that counts something.
    pub fn put_count(&mut self, number: u64) {
        if write!(&mut self.text, "{number}").is_err() {
            self.lacks_memory = true;
        }
    }

    /// Adds a value as it is shown.
    pub fn put_shown<T: Display>(&mut self, value: &T) {
        if write!(&mut self.text, "{value}").is_err() {
            self.lacks_memory = true;
        }
    }

    /// Adds a value as it is written in code.
    pub fn put_debug<T: Debug>(&mut self, value: &T) {
        if write!(&mut self.text, "{value:?}").is_err() {
            self.lacks_memory = true;
        }
    }

    /// What is told in a text of its own, which is no more than a part of this answer.
    pub fn take(&mut self, part: Told) -> String {
        if part.lacks_memory {
            self.lacks_memory = true;
        }
        part.text
    }

    /// Adds an item to a list.
    pub fn add<T: Drop>(&mut self, items: &mut Sequence<T>, item: T) {
        if items.push(item).is_err() {
            self.lacks_memory = true;
        }
    }

    /// What a part is, where it is of its form.
    pub fn found<T: Copy>(&mut self, part: Option<T>, otherwise: T) -> T {
        match part {
            Some(found) => found,
            None => {
                self.is_malformed = true;
                otherwise
            }
        }
    }
}

/// Adds a value.
pub fn put_value(alloc: Global, told: &mut Told, value: &Value) {
    match value {
        Value::Nil => told.put("unset"),
        Value::Bool(flag) => told.put_bool(*flag),
        Value::Int(number) => told.put_number(*number),
        Value::Word(word) => put_text(alloc, told, word.as_str()),
        Value::Day(day) => {
            told.put("day:");
            told.put_number(i64::from(*day));
        }
        Value::Moment(moment) => {
            told.put("moment:");
            told.put_number(*moment);
        }
        Value::Ref(id) => put_id(told, "id:", *id),
        Value::Refs(ids) => put_ids(told, "ids:", ids.as_slice()),
    }
}

/// Adds a text as JSON has it.
pub fn put_text(alloc: Global, told: &mut Told, text: &str) {
    match Json::try_from_str(alloc, text) {
        Ok(json) => put_json(alloc, told, &json),
        Err(_) => told.lack(),
    }
}

/// Adds JSON.
pub fn put_json(alloc: Global, told: &mut Told, json: &Json) {
    match json.to_string(alloc) {
        Ok(text) => told.put(text.as_str()),
        Err(_) => told.lack(),
    }
}

/// Adds an id after its word.
pub fn put_id(told: &mut Told, word: &str, id: RecId) {
    told.put(word);
    told.put_count(id.0);
}

/// Adds a list of ids, as JSON has it.
pub fn put_list(told: &mut Told, ids: &[RecId]) {
    put_ids(told, "[", ids);
    told.put("]");
}

/// Adds ids after their word.
pub fn put_ids(told: &mut Told, word: &str, ids: &[RecId]) {
    told.put(word);
    let mut between = "";
    for id in ids {
        put_id(told, between, *id);
        between = ",";
    }
}
