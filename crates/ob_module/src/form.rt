//! Where a value of a module's text breaks its form first. A form that several tables use
//! stands here; which keys a table has, `keys` says.

ghost use Rattle.std.specs.Prelude.{◌≡◌, List, ℕ, Option, IfOk, IsTrue, Some, option_map};
ghost use Rattle.std.specs.Option.{option_map_or};
ghost use Rattle.ob_base.specs.declared.place.PathStep.{PathStep};
ghost use Rattle.ob_base.specs.declared.place.PathStep.TheVariants.{Item};
ghost use Rattle.toml.specs.Data.{Data, Members, array};
ghost use Rattle.toml.specs.View.{items_view, table_view, view};
ghost use Rattle.ob_module.specs.Forms as forms;
ghost use Rattle.ob_module.specs.Forms.{here, missing_place, stands_before};
ghost use Rattle.ob_module.specs.Keys.{is_op_name};
ghost use Rattle.ob_module.specs.Rooms.{text_test};

use crate::definitions::{ondelete_named, type_named};
use crate::tables::{found, has};
use crate::wrong::Wrong;
use ob_base::NoMemory;
use ob_definition::{is_field_name, is_model_name};
use std::alloc::Global;
use toml::{Table, Value};

/// The form of a value.
pub trait Form {
    /// Where a value breaks it first, none where it is of the form.
    ghost wrong: { Self → Data → Option (List PathStep) };

    /// Where a value breaks the form first.
    fn wrong(&self, alloc: Global, value: &Value) -> Result<Option<Wrong>, NoMemory>
        ensures { IfOk result (λ found. found ≡ wrong self.now (view value.now)) };
}

/// The keys of a table, with the forms of their values.
pub trait Keys {
    /// The form of the value at a key, none where there may be no such key.
    ghost keys: { Self → List ℕ → Option (Data → Option (List PathStep)) };

    /// A key that must be there and isn't.
    ghost missing: { Self → Members → Option (List ℕ) };

    /// Where the value at a key breaks its form first: at once where there may be no such
    /// key.
    fn wrong(&self, alloc: Global, key: &str, value: &Value) -> Result<Option<Wrong>, NoMemory>
        ensures { IfOk result (λ found.
            found ≡ option_map_or (λ form. form (view value.now)) (keys self.now key.now) here) };

    /// A key that must be there and isn't.
    fn missing(&self, table: &Table) -> Option<&'static str>
        ensures { option_map (λ key. key.now) result ≡ missing self.now (table_view table.now) };
}

/// A text, by what it may be.
#[derive(Clone, Copy)]
pub(crate) enum Text<'n> {
    Any,
    ModelName,
    FieldName,
    /// The name of a type of fields.
    FieldType,
    /// What becomes of a row whose many2one names a deleted one.
    OnDelete,
    /// The name of an operation.
    Op,
    /// This text alone.
    Exactly(&'n str),
}

impl<'n> Text<'n> {
    fn allows(self, text: &str) -> bool
        ensures { result ≡ text_test self.entry text.now }
    {
        match self {
            Text::Any => true,
            Text::ModelName => is_model_name(text),
            Text::FieldName => is_field_name(text),
            Text::FieldType => type_named(text).is_some(),
            Text::OnDelete => ondelete_named(text).is_some(),
            Text::Op => is_op_name(text),
            Text::Exactly(own) => own == text,
        }
    }
}

/// Whether a text is the name of an operation.
fn is_op_name(name: &str) -> bool
    ensures { result ≡ is_op_name name.now }
{
    matches!(name, "read" | "create" | "write" | "unlink")
}

impl<'n> Form for Text<'n> {
    ghost wrong = { λ t. forms.text_where (text_test t) };

    fn wrong(&self, alloc: Global, value: &Value) -> Result<Option<Wrong>, NoMemory> {
        let fits = match value {
            Value::String(text) => self.allows(text.as_str()),
            _ => false,
        };
        Ok(unless(alloc, fits))
    }
}

/// True or false.
#[derive(Clone, Copy)]
pub(crate) struct Flag;

impl Form for Flag {
    ghost wrong = { λ _. forms.flag };

    fn wrong(&self, alloc: Global, value: &Value) -> Result<Option<Wrong>, NoMemory> {
        Ok(unless(alloc, matches!(value, Value::Boolean(_))))
    }
}

/// A text, an integer or a flag.
#[derive(Clone, Copy)]
pub(crate) struct Constant;

impl Form for Constant {
    ghost wrong = { λ _. forms.constant };

    fn wrong(&self, alloc: Global, value: &Value) -> Result<Option<Wrong>, NoMemory> {
        let fits = matches!(
            value,
            Value::String(_) | Value::Integer(_) | Value::Boolean(_)
        );
        Ok(unless(alloc, fits))
    }
}

/// Any table.
#[derive(Clone, Copy)]
pub(crate) struct AnyTable;

impl Form for AnyTable {
    ghost wrong = { λ _. forms.any_table };

    fn wrong(&self, alloc: Global, value: &Value) -> Result<Option<Wrong>, NoMemory> {
        Ok(unless(alloc, matches!(value, Value::Table(_))))
    }
}

/// Wrong here, unless the value fits.
pub fn unless(alloc: Global, fits: bool) -> Option<Wrong>
    ensures { result ≡ forms.unless fits }
{
    if fits { None } else { Some(Wrong::here(alloc)) }
}

/// A list whose items are of a form.
#[derive(Clone, Copy)]
pub struct ListOf<F> {
    pub items: F,
}

impl<F: Form> Form for ListOf<F> {
    ghost wrong = { λ l. forms.list_of (F.wrong l.items) };

    fn wrong(&self, alloc: Global, value: &Value) -> Result<Option<Wrong>, NoMemory> {
        match value {
            Value::Array(items) => wrong_item(alloc, &self.items, items.as_slice()),
            _ => Ok(Some(Wrong::here(alloc))),
        }
    }
}

/// The first item that is wrong.
fn wrong_item<F: Form>(alloc: Global, form: &F, items: &[Value]) -> Result<Option<Wrong>, NoMemory>
    ensures { IfOk result
        (λ found. found ≡ forms.wrong_item (F.wrong form.now) 0 (items_view items.now)) }
{
    for (number, item) in items.iter().enumerate() {
        if let Some(wrong) = form.wrong(alloc, item)? {
            return Ok(Some(wrong.under_item(number as u64)?));
        }
    }
    Ok(None)
}

/// A list of two, each of its form.
#[derive(Clone, Copy)]
pub(crate) struct PairOf<A, B> {
    pub(crate) first: A,
    pub(crate) second: B,
}

impl<A: Form, B: Form> Form for PairOf<A, B> {
    ghost wrong = { λ p. forms.pair_of (A.wrong p.first) (B.wrong p.second) };

    fn wrong(&self, alloc: Global, value: &Value) -> Result<Option<Wrong>, NoMemory> {
        match value {
            Value::Array(items) => wrong_pair(alloc, self, items.as_slice()),
            _ => Ok(Some(Wrong::here(alloc))),
        }
    }
}

/// Where a list breaks the form of a pair.
fn wrong_pair<A: Form, B: Form>(
    alloc: Global,
    form: &PairOf<A, B>,
    items: &[Value],
) -> Result<Option<Wrong>, NoMemory>
    ensures { IfOk result (λ found. found ≡ forms.pair_of (A.wrong form.now.first)
        (B.wrong form.now.second) (array (items_view items.now))) }
{
    match items {
        [first, second] => match under(form.first.wrong(alloc, first)?, 0)? {
            Some(wrong) => Ok(Some(wrong)),
            None => under(form.second.wrong(alloc, second)?, 1),
        },
        _ => Ok(Some(Wrong::here(alloc))),
    }
}

/// What is wrong with an item of this number, as it is told from the list.
fn under(found: Option<Wrong>, number: u64) -> Result<Option<Wrong>, NoMemory>
    ensures { IfOk result (λ wrong. wrong ≡ forms.under (Item number) found) }
{
    match found {
        Some(wrong) => Ok(Some(wrong.under_item(number)?)),
        None => Ok(None),
    }
}

/// A table with these keys.
#[derive(Clone, Copy)]
pub struct TableOf<K> {
    pub keys: K,
}

impl<K: Keys> Form for TableOf<K> {
    ghost wrong = { λ t. forms.table_of (K.keys t.keys) (K.missing t.keys) };

    fn wrong(&self, alloc: Global, value: &Value) -> Result<Option<Wrong>, NoMemory> {
        match value {
            Value::Table(table) => wrong_member(alloc, &self.keys, table),
            _ => Ok(Some(Wrong::here(alloc))),
        }
    }
}

/// What stands at a key of a table, if anything does, is of a form.
#[derive(Clone, Copy)]
pub struct AtKey<F> {
    pub key: &'static str,
    pub form: F,
}

impl<F: Form> Form for AtKey<F> {
    ghost wrong = { λ k. forms.at_key k.key.now (F.wrong k.form) };

    fn wrong(&self, alloc: Global, value: &Value) -> Result<Option<Wrong>, NoMemory> {
        let Some(member) = found(value, self.key) else {
            return Ok(None);
        };
        match self.form.wrong(alloc, member)? {
            Some(wrong) => Ok(Some(wrong.under_key(alloc, self.key)?)),
            None => Ok(None),
        }
    }
}

/// Any keys, with values of a form.
#[derive(Clone, Copy)]
pub struct AnyKey<F> {
    pub values: F,
}

impl<F: Form> Keys for AnyKey<F> {
    ghost keys = { λ k. forms.keys_where forms.any_key (F.wrong k.values) };

    ghost missing = { λ _. forms.no_key };

    fn wrong(&self, alloc: Global, _key: &str, value: &Value) -> Result<Option<Wrong>, NoMemory> {
        self.values.wrong(alloc, value)
    }

    fn missing(&self, _table: &Table) -> Option<&'static str> {
        None
    }
}

/// The first member that is wrong, or missing.
pub(crate) fn wrong_member<K: Keys>(
    alloc: Global,
    keys: &K,
    table: &Table,
) -> Result<Option<Wrong>, NoMemory>
    ensures { IfOk result (λ found. found ≡ forms.wrong_member (K.keys keys.now)
        (K.missing keys.now (table_view table.now)) (table_view table.now)) }
{
    let missing = keys.missing(table);
    for (key, value) in table.iter() {
        if stands_before(missing, key.as_str()) {
            return missing_place(alloc, missing);
        }
        if let Some(wrong) = keys.wrong(alloc, key.as_str(), value)? {
            return Ok(Some(wrong.under_key(alloc, key.as_str())?));
        }
    }
    missing_place(alloc, missing)
}

/// Whether a missing key would stand before this one.
fn stands_before(missing: Option<&str>, key: &str) -> bool
    ensures { result ≡ stands_before (option_map (λ own. own.now) missing.entry) key.now }
{
    match missing {
        Some(own) => own < key,
        None => false,
    }
}

/// A missing key, where it would stand.
fn missing_place(alloc: Global, missing: Option<&str>) -> Result<Option<Wrong>, NoMemory>
    ensures { IfOk result
        (λ found. found ≡ missing_place (option_map (λ own. own.now) missing.entry)) }
{
    match missing {
        Some(key) => Ok(Some(Wrong::here(alloc).under_key(alloc, key)?)),
        None => Ok(None),
    }
}

/// The key, where no member of the table has it.
pub(crate) fn absent(table: &Table, key: &'static str) -> Option<&'static str>
    ensures { option_map (λ own. own.now) result ≡ forms.absent key.now (table_view table.now) }
{
    if has(table, key) { None } else { Some(key) }
}
