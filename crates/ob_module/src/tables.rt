//! What stands at the keys of tables and in lists.

ghost use Rattle.std.specs.Prelude.{◌≡◌, IfOk, is_some, map, option_and_then, option_map};
ghost use Rattle.toml.specs.Data.{as_table, get, get_member, table};
ghost use Rattle.toml.specs.View.{table_view, view};
ghost use Rattle.ob_module.specs.Meaning.{is_set, texts_at, word_at};
ghost use Rattle.ob_module.specs.Meaning as spec;

use ob_base::{NoMemory, Sequence, Word};
use std::alloc::Global;
use toml::{Table, Value};

/// What stands at a key, where the value is a table that has it.
pub fn found<'t>(value: &'t Value, key: &str) -> Option<&'t Value>
    ensures { option_map (λ v. view v.now) result ≡ get key.now (view value.now) }
{
    match value {
        Value::Table(table) => member(table, key),
        _ => None,
    }
}

/// What stands at a key of a table.
pub fn member<'t>(table: &'t Table, key: &str) -> Option<&'t Value>
    ensures { option_map (λ v. view v.now) result ≡ get_member key.now (table_view table.now) }
{
    table.get(key)
}

/// Whether a table has a key.
pub(crate) fn has(table: &Table, key: &str) -> bool
    ensures { result ≡ is_some (get_member key.now (table_view table.now)) }
{
    member(table, key).is_some()
}

/// The text that the value is; no other value has one.
pub fn text_of(value: &Value) -> &str
    ensures { result.now ≡ spec.text_of (view value.now) }
{
    match value {
        Value::String(text) => text.as_str(),
        _ => "",
    }
}

/// The items of a list; no other value has any.
pub(crate) fn items_of(value: &Value) -> &[Value]
    ensures { map view result.now ≡ spec.items_of (view value.now) }
{
    match value {
        Value::Array(items) => items.as_slice(),
        _ => &[],
    }
}

/// The items at a key, none where there is no list.
pub(crate) fn items_at<'t>(value: &'t Value, key: &str) -> &'t [Value]
    ensures { map view result.now ≡ spec.items_at key.now (view value.now) }
{
    match found(value, key) {
        Some(list) => items_of(list),
        None => &[],
    }
}

/// The items of a document at a key, none where there is no list.
pub fn listed_at<'t>(document: &'t Table, key: &str) -> &'t [Value]
    ensures { map view result.now ≡ spec.items_at key.now (table (table_view document.now)) }
{
    match member(document, key) {
        Some(list) => items_of(list),
        None => &[],
    }
}

/// The names of the modules on which a document depends.
pub fn depends_of(document: &Table) -> &[Value]
    ensures { map (λ item. spec.text_of (view item)) result.now
        ≡ spec.depends_of (table_view document.now) }
{
    listed_at(document, "depends")
}

/// The table at a key.
pub(crate) fn table_at<'t>(value: &'t Value, key: &str) -> Option<&'t Table>
    ensures { option_map (λ t. table_view t.now) result
        ≡ option_and_then as_table (get key.now (view value.now)) }
{
    match found(value, key) {
        Some(members) => members.as_table(),
        None => None,
    }
}

/// The text at a key, as it stands there.
pub fn str_at<'t>(value: &'t Value, key: &str) -> Option<&'t str>
    ensures { option_map (λ text. text.now) result ≡ spec.text_at key.now (view value.now) }
{
    match found(value, key) {
        Some(text) => text.as_str(),
        None => None,
    }
}

/// The text at a key, the empty one where there is none.
pub fn word_at<'t>(value: &'t Value, key: &str) -> &'t str
    ensures { result.now ≡ word_at key.now (view value.now) }
{
    match str_at(value, key) {
        Some(text) => text,
        None => "",
    }
}

/// Whether a flag is set.
pub fn is_set(value: &Value, key: &str) -> bool
    ensures { result ≡ is_set key.now (view value.now) }
{
    flag_at(value, key).unwrap_or(false)
}

/// The text at a key.
pub(crate) fn text_at(alloc: Global, value: &Value, key: &str) -> Result<Option<Word>, NoMemory>
    ensures { IfOk result (λ text. text ≡ spec.text_at key.now (view value.now)) }
{
    match str_at(value, key) {
        Some(text) => Ok(Some(Word::from_text(alloc, text)?)),
        None => Ok(None),
    }
}

/// The flag at a key.
pub(crate) fn flag_at(value: &Value, key: &str) -> Option<bool>
    ensures { result ≡ spec.flag_at key.now (view value.now) }
{
    match found(value, key) {
        Some(flag) => flag.as_bool(),
        None => None,
    }
}

/// The texts of a list.
pub(crate) fn texts_of(alloc: Global, value: &Value) -> Result<Sequence<Word>, NoMemory>
    ensures { IfOk result (λ texts. texts ≡ spec.texts_of (view value.now)) }
{
    let mut texts = Sequence::new(alloc);
    for item in items_of(value) {
        texts.push(Word::from_text(alloc, text_of(item))?)?;
    }
    Ok(texts)
}

/// The texts at a key.
pub fn texts_at(alloc: Global, value: &Value, key: &str) -> Result<Option<Sequence<Word>>, NoMemory>
    ensures { IfOk result (λ texts. texts ≡ texts_at key.now (view value.now)) }
{
    match found(value, key) {
        Some(list) => Ok(Some(texts_of(alloc, list)?)),
        None => Ok(None),
    }
}

/// The text of a list's item of this number.
pub(crate) fn nth_text(alloc: Global, value: &Value, number: usize) -> Result<Word, NoMemory>
    ensures { IfOk result (λ text. text ≡ spec.nth_text number (view value.now)) }
{
    match value.get(number) {
        Some(item) => Word::from_text(alloc, text_of(item)),
        None => Word::from_text(alloc, ""),
    }
}
