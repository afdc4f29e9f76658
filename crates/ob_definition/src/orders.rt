//! The text of an order, such as `name, id desc`, read from the front. A direction that an
//! entry may have is added in `specs/Orders` and here.

ghost use Rattle.std.specs.Prelude.{◌≡◌, ◌∷◌, [], ◌≤◌, IfOk, MatchOption, length, not, option_map};
ghost use Rattle.std.specs.List.{prefix_len};
ghost use Rattle.ob_definition.specs.Orders.{direction, is_space_or_tab, order_terms, term_of, term_of_entry, terms_of, words};

use ob_base::{NoMemory, Sequence};
use std::alloc::Global;

/// A name by which rows are ordered, as it is written, and whether they fall.
#[derive(Clone, Copy, Debug)]
pub struct OrderEntry<'a> {
    pub name: &'a str,
    pub descending: bool,
}

/// The entries of an order, in its order; none where it has another form.
pub fn order_entries(
    alloc: Global,
    text: &str,
) -> Result<Option<Sequence<OrderEntry<'_>>>, NoMemory>
    ensures { IfOk result (λ read. option_map terms_of read ≡ order_terms text.now) }
{
    let mut entries = Sequence::new(alloc);
    for piece in text.split(',') {
        match entry_of(piece) {
            Some(entry) => entries.push(entry)?,
            None => return Ok(None),
        }
    }
    Ok(Some(entries))
}

/// The entry of what stands between two commas.
fn entry_of(piece: &str) -> Option<OrderEntry<'_>>
    ensures { option_map term_of_entry result ≡ term_of (words piece.now) }
{
    let (name, rest) = next_word(piece)?;
    let Some((word, end)) = next_word(rest) else {
        return Some(OrderEntry {
            name,
            descending: false,
        });
    };
    if next_word(end).is_some() {
        return None;
    }
    Some(OrderEntry {
        name,
        descending: direction(word)?,
    })
}

/// Whether rows fall, by the word behind the name.
fn direction(word: &str) -> Option<bool>
    ensures { result ≡ direction word.now }
{
    if word.eq_ignore_ascii_case("asc") {
        Some(false)
    } else if word.eq_ignore_ascii_case("desc") {
        Some(true)
    } else {
        None
    }
}

/// The first word, and what stands behind it; none where there are only spaces and tabs.
fn next_word(text: &str) -> Option<(&str, &str)>
    ensures { MatchOption result
        (words text.now ≡ [])
        (λ parts. words text.now ≡ parts.0.now ∷ words parts.1.now) }
{
    let bytes = text.as_bytes();
    let start = space_len(bytes);
    if start == text.len() {
        return None;
    }
    let end = start + word_len(&bytes[start..]);
    Some((&text[start..end], &text[end..]))
}

/// How many spaces and tabs stand at the front.
fn space_len(bytes: &[u8]) -> usize
    ensures len { result ≡ prefix_len is_space_or_tab bytes.now }
    ensures within { result ≤ length bytes.now }
{
    bytes
        .iter()
        .take_while(|byte| is_space_or_tab(**byte))
        .count()
}

/// How many bytes of a word stand at the front.
fn word_len(bytes: &[u8]) -> usize
    ensures len { result ≡ prefix_len (λ b. not (is_space_or_tab b)) bytes.now }
    ensures within { result ≤ length bytes.now }
{
    bytes
        .iter()
        .take_while(|byte| !is_space_or_tab(**byte))
        .count()
}

fn is_space_or_tab(byte: u8) -> bool
    ensures { result ≡ is_space_or_tab byte }
{
    matches!(byte, b' ' | b'\t')
}
