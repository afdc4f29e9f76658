//! Texts as lines write them: `\s` stands for a space, `\c` for a colon, `\n` and `\r` for the
//! ends of lines, and `\` before another character for it; bytes are hexadecimal digits.

use crate::told::Told;
use hex::FromHexError;
use ob_base::Word;
use std::alloc::Global;

/// The first word of a line, and what is behind the space after it.
pub fn first_word(line: &str) -> (&str, &str) {
    match line.split_once(' ') {
        Some(both) => both,
        None => (line, ""),
    }
}

/// A text as it is meant.
pub fn unescaped(alloc: Global, told: &mut Told, text: &str) -> String {
    let mut plain = String::new(alloc);
    let mut follows = false;
    for c in text.chars() {
        follows = add_meant(told, &mut plain, follows, c);
    }
    plain
}

/// Adds what a character stands for, which may follow a backslash; tells whether it is one that
/// another character is to follow.
fn add_meant(told: &mut Told, plain: &mut String, follows: bool, c: char) -> bool {
    if c == '\\' && !follows {
        return true;
    }
    if plain.push(if follows { meant(c) } else { c }).is_err() {
        told.lack();
    }
    false
}

/// A word as it is meant.
pub fn word_of(alloc: Global, told: &mut Told, text: &str) -> Word {
    Word::new(unescaped(alloc, told, text))
}

/// A word as it stands.
pub fn plain_word(alloc: Global, told: &mut Told, text: &str) -> Word {
    match Word::from_text(alloc, text) {
        Ok(word) => word,
        Err(_) => {
            told.lack();
            Word::new(String::new(alloc))
        }
    }
}

/// What a character behind a backslash stands for.
fn meant(c: char) -> char {
    match c {
        'n' => '\n',
        'r' => '\r',
        's' => ' ',
        'c' => ':',
        other => other,
    }
}

/// The text that `COUNT*TEXT` stands for, so many times as it is meant.
pub fn repeated(alloc: Global, told: &mut Told, part: &str) -> String {
    let mut whole = String::new(alloc);
    add_repeated(alloc, told, &mut whole, part);
    whole
}

/// Adds the text that `COUNT*TEXT` stands for.
fn add_repeated(alloc: Global, told: &mut Told, whole: &mut String, part: &str) {
    let Some((count, text)) = part.split_once('*') else {
        return told.refuse();
    };
    let count: u32 = told.found(count.parse().ok(), 0);
    let text = unescaped(alloc, told, text);
    for _ in 0..count {
        if whole.push_str(text.as_str()).is_err() {
            return told.lack();
        }
    }
}

/// The bytes that hexadecimal digits write.
pub fn bytes_of(alloc: Global, told: &mut Told, digits: &str) -> Vec<u8> {
    match hex::decode(alloc, digits) {
        Ok(bytes) => bytes,
        Err(FromHexError::OutOfMemory) => {
            told.lack();
            Vec::new(alloc)
        }
        Err(_) => {
            told.refuse();
            Vec::new(alloc)
        }
    }
}
