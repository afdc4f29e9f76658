//! How answers write commands, and what they write of a text that is very long.

use ob_codec::Command;
use probe_parts::told::{Told, put_id, put_ids, put_json};
use probe_parts::words::repeated;
use std::alloc::Global;

/// The length in bytes from which on a text is told by its length.
const LONG: usize = 1_000;

/// Adds a command.
pub(crate) fn put_command(alloc: Global, told: &mut Told, command: &Command) {
    match command {
        Command::Create(values) => {
            told.put("create:");
            put_json(alloc, told, values);
        }
        Command::Update(id, values) => {
            put_id(told, "update:", *id);
            told.put(":");
            put_json(alloc, told, values);
        }
        Command::Delete(id) => put_id(told, "delete:", *id),
        Command::Unlink(id) => put_id(told, "unlink:", *id),
        Command::Link(id) => put_id(told, "link:", *id),
        Command::Clear => told.put("clear"),
        Command::Set(ids) => put_ids(told, "set:", ids.as_slice()),
    }
}

/// Adds an answer as it is, or its length where it is long.
pub(crate) fn put_shortened(told: &mut Told, answer: Told) {
    let answer = told.take(answer);
    let length = answer.len();
    if length < LONG {
        told.put(answer.as_str());
    } else {
        told.put_shown(&length);
        told.put(" bytes");
    }
}

/// The text that pieces make, with `|` between them: `COUNT*TEXT` is a text so many times,
/// any other piece stands for itself.
pub(crate) fn joined(alloc: Global, told: &mut Told, pieces: &str) -> String {
    let mut whole = Told::new(alloc);
    for piece in pieces.split('|') {
        put_piece(alloc, &mut whole, piece);
    }
    told.take(whole)
}

/// Adds the text that a piece is.
fn put_piece(alloc: Global, whole: &mut Told, piece: &str) {
    match piece.split_once('*') {
        Some((count, _)) if count.parse::<u32>().is_ok() => {
            let text = repeated(alloc, whole, piece);
            whole.put(text.as_str());
        }
        _ => whole.put(piece),
    }
}
