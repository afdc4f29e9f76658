//! The envelope of a request, and the text of a reply.

use ob_rpc::{EnvFault, Envelope, Json, Outcome, Served, envelope, no_memory_reply, reply_text};
use probe_parts::parts::json_of;
use probe_parts::told::{Told, put_json};
use probe_parts::words::{bytes_of, first_word, word_of};
use std::alloc::Global;

/// Adds the envelope of the body that a line names, or the first place of it that is wrong.
pub(crate) fn put_envelope_of(alloc: Global, told: &mut Told, asked: &str) {
    let (served, body) = first_word(asked);
    match served {
        "every" => put_body(alloc, told, Served::EveryMethod, body),
        "execute_kw" => put_body(alloc, told, Served::ExecuteKw, body),
        _ => told.put("no methods"),
    }
}

/// Adds what reading a text gives, or the bytes that it writes.
fn put_body(alloc: Global, told: &mut Told, served: Served, body: &str) {
    let Some(digits) = body.strip_prefix("hex:") else {
        return put_reading(alloc, told, served, body.as_bytes());
    };
    let bytes = bytes_of(alloc, told, digits);
    if told.is_malformed() {
        told.put("no bytes");
    } else {
        put_reading(alloc, told, served, bytes.as_slice());
    }
}

/// Adds what reading a body gives.
fn put_reading(alloc: Global, told: &mut Told, served: Served, body: &[u8]) {
    match envelope(alloc, served, body) {
        Ok(read) => put_envelope(alloc, told, &read),
        Err(EnvFault::NoMemory) => told.lack(),
        Err(EnvFault::At(place, id)) => {
            told.put("wrong at \"");
            told.put_shown(&place);
            told.put("\" by ");
            put_json(alloc, told, &id);
        }
    }
}

/// Adds the id, the service, the method and the elements of a request.
fn put_envelope(alloc: Global, told: &mut Told, read: &Envelope) {
    put_json(alloc, told, &read.id);
    told.put(" ");
    told.put(read.service.as_str());
    told.put(" ");
    told.put(read.method.as_str());
    told.put(" [");
    let mut between = "";
    for element in read.args.as_slice() {
        told.put(between);
        put_json(alloc, told, element);
        between = ",";
    }
    told.put("]");
}

/// Adds the text of the reply that a line names.
pub(crate) fn put_reply_of(alloc: Global, told: &mut Told, asked: &str) {
    if asked == "no_memory" {
        return told.put(no_memory_reply());
    }
    let (kind, rest) = first_word(asked);
    let (id, rest) = first_word(rest);
    let outcome = outcome_of(alloc, told, kind, rest);
    let id = json_of(alloc, told, id);
    if told.is_malformed() {
        told.put("no reply");
    } else {
        put_reply(alloc, told, &id, &outcome);
    }
}

/// What a reply of a kind tells.
fn outcome_of(alloc: Global, told: &mut Told, kind: &str, rest: &str) -> Outcome {
    match kind {
        "result" => Outcome::Result(json_of(alloc, told, rest)),
        "error" => error_of(alloc, told, rest),
        _ => {
            told.refuse();
            Outcome::Result(Json::Null)
        }
    }
}

/// The error of a name and a message.
fn error_of(alloc: Global, told: &mut Told, words: &str) -> Outcome {
    let Some((name, message)) = words.split_once(' ') else {
        told.refuse();
        return Outcome::Result(Json::Null);
    };
    let name = word_of(alloc, told, name);
    let message = word_of(alloc, told, message);
    Outcome::Error { name, message }
}

/// Adds the text of a reply.
fn put_reply(alloc: Global, told: &mut Told, id: &Json, outcome: &Outcome) {
    match reply_text(alloc, id, outcome) {
        Ok(text) => told.put(text.as_str()),
        Err(_) => told.lack(),
    }
}
