//! What is told of the rows of a group beside their number, as a call names it: an aggregate of
//! what they hold for a field.

ghost use Rattle.std.specs.Prelude.{◌≡◌, ◌++◌, [], map, option_and_then, option_map, option_to_list, All, IfOk, IfSome, List, None, Some, ℕ, bytes_eq, if◌then◌else◌, not, true};
ghost use Rattle.std.specs.List.{filter_map, list_all};
ghost use Rattle.std.specs.BTreeSet.{contains_text};
ghost use Rattle.std.specs.Option.{option_map_or};
ghost use Rattle.serde_json.specs.View.{view};
ghost use Rattle.ob_call.specs.ArgumentsSteps.{given_of};
ghost use Rattle.ob_call.specs.Forms.{fields_at};
ghost use Rattle.ob_call.specs.Places.{below_steps};
ghost use Rattle.ob_group.specs.GroupForms.{aggregates_fault, aggregates_in, amount_named, bracketed, entry_from, entry_of, first_wrong_entry, has_amount, has_integers, is_free, is_name, is_name_byte, named_entry, plain_entry, coloned_entry, taken_keys, told_entry, with_key};
ghost use Rattle.ob_group.specs.GroupParts.{AreTaken, IsEntryOver, aggregate_view, entry_view, parts_view, written_view};
ghost use Rattle.ob_query.specs.Callers.{is_first};
ghost use Rattle.ob_group.specs.NamedGroups.{entry_field, entry_fields};
ghost use Rattle.ob_schema.specs.Models.{HasField, HasModel};
ghost use Rattle.ob_schema.specs.Paths.{step_at};

use crate::amounts::Amount;
use crate::parted::parted;
use crate::written::{Written, count_key};
use ob_base::{FieldNo, ModelNo, NoMemory};
use ob_call::{Below, Given, Json};
use ob_query::{Naming, step_at};
use ob_schema::{FieldInfo, FieldType, Origin, Schema, Step};
use std::alloc::Global;
use std::collections::BTreeSet;

/// An aggregate: the key under which it is told, the field, and what is told of its values.
#[derive(Clone, Copy)]
pub(crate) struct Aggregate<'j> {
    pub(crate) key: &'j str,
    pub(crate) field: FieldNo,
    pub(crate) amount: Amount,
}

/// What an entry of the fields stands for.
#[derive(Clone, Copy)]
pub(crate) enum Entry<'j> {
    /// A field alone that isn't an integer.
    PassedOver,
    Told(Aggregate<'j>),
}

/// Where the fields that are given are wrong first: a list of texts, each for an aggregate, or for
/// a field that is passed over, and none under a key that is taken.
pub(crate) fn aggregates_fault<'j>(
    alloc: Global,
    schema: &Schema,
    model: ModelNo,
    written: &Written<'_>,
    json: &'j Json,
) -> Result<Option<Below<'j>>, NoMemory>
    requires { HasModel schema.now model }
    ensures { IfOk result (λ told. option_map below_steps told ≡ aggregates_fault (fields_at schema.now model) (written_view written.now) (view json.now)) }
{
    let Json::Array(items) = json else {
        return Ok(Some(Below::Whole));
    };
    let taken = taken_keys(alloc, written)?;
    first_wrong_entry(alloc, schema, model, taken, items.as_slice())
}

/// The keys that no aggregate may have: the one of the count, and the texts that are written for
/// groupings.
fn taken_keys(alloc: Global, written: &Written<'_>) -> Result<BTreeSet<String>, NoMemory>
    ensures { IfOk result (AreTaken (taken_keys (written_view written.now))) }
{
    let mut taken = BTreeSet::new(alloc);
    taken.insert(count_key(alloc, written)?)?;
    for item in written.items {
        if let Some(text) = item.as_str() {
            take_key(alloc, text, &mut taken)?;
        }
    }
    Ok(taken)
}

/// Takes a key, and answers whether it wasn't taken.
fn take_key(alloc: Global, key: &str, taken: &mut BTreeSet<String>) -> Result<bool, NoMemory>
    ensures free { IfOk result (λ free. free ≡ not (contains_text taken.old key.now)) }
    ensures taken { IfOk result (λ _. (name : List ℕ) → contains_text taken.new name ≡ (if bytes_eq key.now name then true else contains_text taken.old name)) }
{
    let key = String::from_str(alloc, key)?;
    Ok(taken.insert(key)?)
}

/// The first item that stands for nothing, or for an aggregate under a key that is taken.
fn first_wrong_entry<'j>(
    alloc: Global,
    schema: &Schema,
    model: ModelNo,
    taken: BTreeSet<String>,
    items: &'j [Json],
) -> Result<Option<Below<'j>>, NoMemory>
    requires { HasModel schema.now model }
    ensures { IfOk result (λ told. (keys : List (List ℕ)) → AreTaken keys taken → option_map below_steps told ≡ first_wrong_entry (fields_at schema.now model) keys 0 (map view items.now)) }
{
    let mut taken = taken;
    for (number, item) in items.iter().enumerate() {
        let Some(entry) = entry_from(schema, model, item) else {
            return Ok(Some(Below::Item(number)));
        };
        if !takes_key(alloc, entry, &mut taken)? {
            return Ok(Some(Below::Item(number)));
        }
    }
    Ok(None)
}

/// Whether the key of an entry isn't taken, which it is then.
fn takes_key(
    alloc: Global,
    entry: Entry<'_>,
    taken: &mut BTreeSet<String>,
) -> Result<bool, NoMemory>
    ensures free { IfOk result (λ free. (keys : List (List ℕ)) → AreTaken keys taken.old → free ≡ is_free (entry_view entry.entry) keys) }
    ensures taken { IfOk result (λ free. (keys : List (List ℕ)) → AreTaken keys taken.old → AreTaken (with_key (entry_view entry.entry) keys) taken.new) }
{
    match entry {
        Entry::Told(aggregate) => take_key(alloc, aggregate.key, taken),
        Entry::PassedOver => Ok(true),
    }
}

/// The aggregates that are given, in their order.
pub(crate) fn aggregates_in<'j>(
    alloc: Global,
    schema: &Schema,
    model: ModelNo,
    json: &'j Json,
) -> Result<Vec<Aggregate<'j>>, NoMemory>
    requires { HasModel schema.now model }
    ensures aggregates { IfOk result (λ aggregates. map aggregate_view aggregates.items ≡ aggregates_in (fields_at schema.now model) (view json.now)) }
    ensures there { IfOk result (λ aggregates. All (λ aggregate. HasField schema.now model aggregate.field) aggregates.items) }
{
    match json {
        Json::Array(items) => aggregates_of(alloc, schema, model, items.as_slice()),
        _ => Ok(Vec::new(alloc)),
    }
}

/// The aggregates for which items stand.
fn aggregates_of<'j>(
    alloc: Global,
    schema: &Schema,
    model: ModelNo,
    items: &'j [Json],
) -> Result<Vec<Aggregate<'j>>, NoMemory>
    requires { HasModel schema.now model }
    ensures aggregates { IfOk result (λ aggregates. map aggregate_view aggregates.items
        ≡ filter_map (λ d. option_and_then (λ entry. entry) (entry_from (fields_at schema.now model) d)) (map view items.now)) }
    ensures there { IfOk result (λ aggregates. All (λ aggregate. HasField schema.now model aggregate.field) aggregates.items) }
{
    let mut aggregates = Vec::new(alloc);
    for item in items {
        add_aggregate(&mut aggregates, told_in(entry_from(schema, model, item)))?;
    }
    Ok(aggregates)
}

/// The aggregate that an entry is, if there is one and it isn't passed over.
fn told_in<'j>(entry: Option<Entry<'j>>) -> Option<Aggregate<'j>>
    ensures told { option_map aggregate_view result ≡ option_and_then (λ entry. entry) (option_map entry_view entry.entry) }
    ensures entry { IfSome result (λ aggregate. entry.entry ≡ Some (Entry.Told aggregate)) }
{
    match entry {
        Some(Entry::Told(aggregate)) => Some(aggregate),
        Some(Entry::PassedOver) => None,
        None => None,
    }
}

/// Adds an aggregate, if there is one.
fn add_aggregate<'j>(
    aggregates: &mut Vec<Aggregate<'j>>,
    aggregate: Option<Aggregate<'j>>,
) -> Result<(), NoMemory>
    ensures { IfOk result (λ _. aggregates.new.items ≡ aggregates.old.items ++ option_to_list aggregate.entry) }
{
    if let Some(aggregate) = aggregate {
        aggregates.push(aggregate)?;
    }
    Ok(())
}

/// What a value stands for.
fn entry_from<'j>(schema: &Schema, model: ModelNo, json: &'j Json) -> Option<Entry<'j>>
    requires { HasModel schema.now model }
    ensures entry { option_map entry_view result ≡ entry_from (fields_at schema.now model) (view json.now) }
    ensures there { IfSome result (IsEntryOver schema.now model) }
{
    entry_of(schema, model, json.as_str()?)
}

/// What a text stands for: `field`, `field:aggregate` or `name:aggregate(field)`.
fn entry_of<'j>(schema: &Schema, model: ModelNo, text: &'j str) -> Option<Entry<'j>>
    requires { HasModel schema.now model }
    ensures entry { option_map entry_view result ≡ entry_of (fields_at schema.now model) text.now }
    ensures there { IfSome result (IsEntryOver schema.now model) }
{
    match parted(text, ':') {
        Some((key, rest)) => coloned_entry(schema, model, key, rest),
        None => plain_entry(schema, model, text),
    }
}

/// What stands behind a colon: an amount of the field before it, or one with its field in brackets.
fn coloned_entry<'j>(schema: &Schema, model: ModelNo, key: &'j str, rest: &str) -> Option<Entry<'j>>
    requires { HasModel schema.now model }
    ensures entry { option_map entry_view result ≡ coloned_entry (fields_at schema.now model) key.now rest.now }
    ensures there { IfSome result (IsEntryOver schema.now model) }
{
    match bracketed(rest) {
        Some((amount, name)) => named_entry(schema, model, key, amount, name),
        None => told_entry(schema, model, key, key, amount_named(rest)),
    }
}

/// An aggregate of the field in brackets, told under a name.
fn named_entry<'j>(
    schema: &Schema,
    model: ModelNo,
    key: &'j str,
    amount: &str,
    name: &str,
) -> Option<Entry<'j>>
    requires { HasModel schema.now model }
    ensures entry { option_map entry_view result ≡ named_entry (fields_at schema.now model) key.now amount.now name.now }
    ensures there { IfSome result (IsEntryOver schema.now model) }
{
    if !is_name(key) {
        return None;
    }
    told_entry(schema, model, key, name, amount_named(amount))
}

/// What the name of a field alone stands for: its sum, if it has integers.
fn plain_entry<'j>(schema: &Schema, model: ModelNo, name: &'j str) -> Option<Entry<'j>>
    requires { HasModel schema.now model }
    ensures entry { option_map entry_view result ≡ plain_entry (fields_at schema.now model) name.now }
    ensures there { IfSome result (IsEntryOver schema.now model) }
{
    let number = schema.field(model, name)?;
    if !has_integers(schema.info(model, number)) {
        return Some(Entry::PassedOver);
    }
    told_entry(schema, model, name, name, Some(Amount::Sum))
}

/// An aggregate of the field of a name.
fn told_entry<'j>(
    schema: &Schema,
    model: ModelNo,
    key: &'j str,
    name: &str,
    amount: Option<Amount>,
) -> Option<Entry<'j>>
    requires { HasModel schema.now model }
    ensures entry { option_map entry_view result ≡ told_entry (fields_at schema.now model) key.now name.now amount }
    ensures there { IfSome result (IsEntryOver schema.now model) }
{
    let field = schema.field(model, name)?;
    let amount = amount?;
    if !has_amount(schema.info(model, field), amount) {
        return None;
    }
    Some(Entry::Told(Aggregate { key, field, amount }))
}

/// What stands before and within brackets that end a text.
fn bracketed(text: &str) -> Option<(&str, &str)>
    ensures { option_map parts_view result ≡ bracketed text.now }
{
    let (front, rest) = parted(text, '(')?;
    let (within, end) = parted(rest, ')')?;
    if !end.is_empty() {
        return None;
    }
    Some((front, within))
}

/// Whether an aggregate can be told under a name: letters, digits and `_`.
fn is_name(text: &str) -> bool
    ensures { result ≡ is_name text.now }
{
    !text.is_empty() && has_name_bytes(text.as_bytes())
}

/// Whether each byte may stand in such a name.
fn has_name_bytes(text: &[u8]) -> bool
    ensures { result ≡ list_all is_name_byte text.now }
{
    for byte in text {
        if !is_name_byte(*byte) {
            return false;
        }
    }
    true
}

fn is_name_byte(byte: u8) -> bool
    ensures { result ≡ is_name_byte byte }
{
    byte.is_ascii_alphanumeric() || byte == b'_'
}

/// What is told of values, by its name.
#[tactic(auto, unfolding(crate::specs::GroupForms::amount_named))]
fn amount_named(name: &str) -> Option<Amount>
    ensures { result ≡ amount_named name.now }
{
    match name {
        "sum" => Some(Amount::Sum),
        "min" => Some(Amount::Least),
        "max" => Some(Amount::Greatest),
        "count" => Some(Amount::Count),
        "count_distinct" => Some(Amount::CountDistinct),
        _ => None,
    }
}

/// Whether it can be told of a field's values.
fn has_amount(field: &FieldInfo, amount: Amount) -> bool
    ensures { result ≡ has_amount amount field.now }
{
    if !field.store || field.field_type.is_list() {
        return false;
    }
    match amount {
        Amount::Sum | Amount::Least | Amount::Greatest => has_integers(field),
        Amount::Count | Amount::CountDistinct => true,
    }
}

/// Whether a field has integers, and isn't the row's id.
fn has_integers(field: &FieldInfo) -> bool
    ensures { result ≡ has_integers field.now }
{
    matches!(field.field_type, FieldType::Integer) && !matches!(field.origin, Origin::Id)
}

/// What entries name: the field of each, also of one that is passed over.
pub(crate) fn entries_naming(
    alloc: Global,
    schema: &Schema,
    model: ModelNo,
    given: &Option<Given<'_>>,
) -> Result<Naming, NoMemory>
    requires { HasModel schema.now model }
    ensures positioned { IfOk result (λ naming. naming.positioned ≡ is_first (option_map given_of given.now)) }
    ensures fields { IfOk result (λ naming. naming.fields.items ≡ map (step_at model) (option_map_or (λ g. entry_fields (fields_at schema.now model) g.json) (option_map given_of given.now) [])) }
{
    let fields = match given {
        Some(given) => entry_steps(alloc, schema, model, given.json)?,
        None => Vec::new(alloc),
    };
    Ok(Naming::of(given, fields))
}

/// The fields that the entries of a list name.
fn entry_steps(
    alloc: Global,
    schema: &Schema,
    model: ModelNo,
    json: &Json,
) -> Result<Vec<Step>, NoMemory>
    requires { HasModel schema.now model }
    ensures { IfOk result (λ fields. fields.items ≡ map (step_at model) (entry_fields (fields_at schema.now model) (view json.now))) }
{
    match json {
        Json::Array(items) => steps_of(alloc, schema, model, items.as_slice()),
        _ => Ok(Vec::new(alloc)),
    }
}

/// The fields that items name.
fn steps_of(
    alloc: Global,
    schema: &Schema,
    model: ModelNo,
    items: &[Json],
) -> Result<Vec<Step>, NoMemory>
    requires { HasModel schema.now model }
    ensures { IfOk result (λ fields. fields.items ≡ map (step_at model) (filter_map (entry_field (fields_at schema.now model)) (map view items.now))) }
{
    let mut fields = Vec::new(alloc);
    for item in items {
        if let Some(field) = entry_field(schema, model, item) {
            fields.push(step_at(model, field))?;
        }
    }
    Ok(fields)
}

/// The field that an entry names; one that is passed over is a field's name.
fn entry_field(schema: &Schema, model: ModelNo, json: &Json) -> Option<FieldNo>
    requires { HasModel schema.now model }
    ensures { result ≡ entry_field (fields_at schema.now model) (view json.now) }
{
    let text = json.as_str()?;
    match entry_of(schema, model, text)? {
        Entry::Told(aggregate) => Some(aggregate.field),
        Entry::PassedOver => schema.field(model, text),
    }
}
