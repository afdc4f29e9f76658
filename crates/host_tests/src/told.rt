//! How tests tell what happened: a count, `failed`, or what else was answered, with a blank
//! behind each. No function here fails: a text that got no memory is short, and so differs.

use ob_io::{Failed, Files, Sink, Source};
use std::fmt::Display;
use std::process::Abort;

/// Adds a word.
pub(crate) fn tell(text: &mut String, word: &str) {
    let _ = text.push_str(word);
    let _ = text.push_str(" ");
}

/// Adds a value.
pub(crate) fn tell_value<T: Display>(text: &mut String, value: &T) {
    let _ = write!(text, "{value} ");
}

/// Adds bytes, which are ASCII text in every test.
pub(crate) fn tell_bytes(text: &mut String, bytes: &[u8]) {
    tell(text, str::from_utf8(bytes).unwrap_or("?"));
}

/// Adds how many bytes a call read or wrote.
pub(crate) fn tell_count(text: &mut String, answer: Result<usize, Failed>) {
    match answer {
        Ok(count) => tell_value(text, &count),
        Err(Failed) => tell(text, "failed"),
    }
}

/// Reads so often into the room, and adds each answer and what the room holds then.
pub(crate) fn tell_reads<S: Source>(text: &mut String, source: &mut S, room: &mut [u8], times: u8) {
    for _ in 0..times {
        tell_count(text, source.read(room));
        tell_bytes(text, room);
    }
}

/// Writes `yz` for each 2, `x` for each 1 and nothing for each 0, and adds each answer.
pub(crate) fn tell_writes<S: Sink>(text: &mut String, sink: &mut S, lengths: &str) {
    for length in lengths.bytes() {
        let piece = match length {
            b'2' => "yz",
            b'1' => "x",
            _ => "",
        };
        tell_count(text, sink.write(piece.as_bytes()));
    }
}

/// Reads a file, and adds how long it is, or why it isn't read.
pub(crate) fn tell_file<F: Files>(text: &mut String, files: &mut F, name: &str) {
    match files.read_file(name) {
        Ok(bytes) => tell_value(text, &bytes.len()),
        Err(fault) => tell_value(text, &fault),
    }
}

/// Ends the test where what was told isn't what is wanted.
pub(crate) fn agree(rt: &impl Abort, text: &str, wanted: &str) {
    assert_eq!(rt; text, wanted);
}
