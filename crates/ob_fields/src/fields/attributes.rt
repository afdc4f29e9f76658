//! What is told of a field, by the attributes that are asked for. A further attribute gets its
//! line in `attributes_of` of specs/FieldsGet, and here.

ghost use Rattle.std.specs.Prelude.{◌≡◌, ◌∷◌, [], List, false, IfOk, map, option_and_then, option_map};
ghost use Rattle.std.specs.List.{list_any};
ghost use Rattle.serde_json.specs.Data.{Data, array, boolean, string};
ghost use Rattle.serde_json.specs.View.{items_of, members_view, view};
ghost use Rattle.serde_json.specs.Written.{has_float};
ghost use Rattle.ob_call.specs.ArgumentsSteps.{given_of};
ghost use Rattle.ob_fields.specs.FieldsGet.{asks, choice_data, field_data, is_word, relation_of, selection_of, texts_in, type_name};
ghost use Rattle.ob_fields.specs.FieldsGetSteps.{AreAsked, members_put_if};
ghost use Rattle.ob_schema.specs.Models.{model_at};

use ob_base::NoMemory;
use ob_call::{Given, Json, put_member};
use ob_definition::{Choice, FieldType};
use ob_rows::is_readonly;
use ob_schema::{FieldInfo, ModelInfo, Schema};
use serde_json::Map;
use std::alloc::Global;

/// Which attributes are asked for.
#[derive(Clone, Copy, Debug)]
pub(crate) struct Attributes {
    pub(crate) name: bool,
    pub(crate) readonly: bool,
    pub(crate) relation: bool,
    pub(crate) required: bool,
    pub(crate) selection: bool,
    pub(crate) store: bool,
    pub(crate) string: bool,
    pub(crate) type_name: bool,
}

/// The attributes that an argument asks for: all, where it has no word or nothing is given.
pub(crate) fn attributes_in(given: &Option<Given<'_>>) -> Attributes
    ensures { AreAsked (texts_in (option_map given_of given.now)) result }
{
    match given {
        Some(given) => match given.json {
            Json::Array(items) => attributes_of(items.as_slice()),
            _ => attributes_of(&[]),
        },
        None => attributes_of(&[]),
    }
}

/// The attributes that words ask for.
fn attributes_of(words: &[Json]) -> Attributes
    ensures { AreAsked (map view words.now) result }
{
    Attributes {
        name: asks(words, "name"),
        readonly: asks(words, "readonly"),
        relation: asks(words, "relation"),
        required: asks(words, "required"),
        selection: asks(words, "selection"),
        store: asks(words, "store"),
        string: asks(words, "string"),
        type_name: asks(words, "type"),
    }
}

/// Whether an attribute is asked for: its word is among these, or there is none.
fn asks(words: &[Json], attribute: &str) -> bool
    ensures { result ≡ asks (map view words.now) attribute.now }
{
    words.is_empty() || has_word(words, attribute)
}

/// Whether one of the texts is this word.
fn has_word(words: &[Json], attribute: &str) -> bool
    ensures { result ≡ list_any (λ word. is_word attribute.now (view word)) words.now }
{
    words.iter().any(|word| is_word(word, attribute))
}

/// Whether a text is this word.
fn is_word(word: &Json, attribute: &str) -> bool
    ensures { result ≡ is_word attribute.now (view word.now) }
{
    match word.as_str() {
        Some(text) => attribute == text,
        None => false,
    }
}

/// The object that tells of a field what is asked for.
pub(crate) fn described(
    alloc: Global,
    schema: &Schema,
    field: &FieldInfo,
    asked: &Attributes,
) -> Result<Json, NoMemory>
    ensures told { IfOk result (λ json. (texts : List Data) → AreAsked texts asked.now → view json ≡ field_data schema.now texts field.now) }
    ensures plain { IfOk result (λ json. has_float (view json) ≡ false) }
{
    let mut members = Map::new(alloc);
    put_text(alloc, &mut members, asked.name, "name", field.name.as_str())?;
    put_flag(
        alloc,
        &mut members,
        asked.readonly,
        "readonly",
        is_readonly(schema, field),
    )?;
    put_relation(alloc, &mut members, asked.relation, schema, field)?;
    put_flag(
        alloc,
        &mut members,
        asked.required,
        "required",
        field.required,
    )?;
    put_selection(alloc, &mut members, asked.selection, field)?;
    put_flag(alloc, &mut members, asked.store, "store", field.store)?;
    put_text(
        alloc,
        &mut members,
        asked.string,
        "string",
        field.string.as_str(),
    )?;
    put_text(
        alloc,
        &mut members,
        asked.type_name,
        "type",
        type_name(field.field_type),
    )?;
    Ok(Json::Object(members))
}

/// Puts a text, where it is asked for.
fn put_text(
    alloc: Global,
    members: &mut Map<String, Json>,
    asked: bool,
    name: &str,
    text: &str,
) -> Result<(), NoMemory>
    ensures { IfOk result (λ _. members_view members.new.entries
        ≡ members_put_if asked ((name.now, string text.now) ∷ []) (members_view members.old.entries)) }
{
    if asked {
        put_member(
            alloc,
            members,
            name,
            Json::String(String::from_str(alloc, text)?),
        )?;
    }
    Ok(())
}

/// Puts a Boolean, where it is asked for.
fn put_flag(
    alloc: Global,
    members: &mut Map<String, Json>,
    asked: bool,
    name: &str,
    flag: bool,
) -> Result<(), NoMemory>
    ensures { IfOk result (λ _. members_view members.new.entries
        ≡ members_put_if asked ((name.now, boolean flag) ∷ []) (members_view members.old.entries)) }
{
    if asked {
        put_member(alloc, members, name, Json::Bool(flag))?;
    }
    Ok(())
}

/// Puts the name of the model whose rows a relation names, where it is asked for.
fn put_relation(
    alloc: Global,
    members: &mut Map<String, Json>,
    asked: bool,
    schema: &Schema,
    field: &FieldInfo,
) -> Result<(), NoMemory>
    ensures { IfOk result (λ _. members_view members.new.entries
        ≡ members_put_if asked (relation_of schema.now field.now) (members_view members.old.entries)) }
{
    match related_model(schema, field) {
        Some(model) => put_text(alloc, members, asked, "relation", model.name.as_str()),
        None => Ok(()),
    }
}

/// The model whose rows a relation names.
fn related_model<'s>(schema: &'s Schema, field: &FieldInfo) -> Option<&'s ModelInfo>
    ensures { option_map (λ info. info.now) result ≡ option_and_then (model_at schema.now) field.now.relation }
{
    schema.find_model(field.relation?)
}

/// Puts the keys of a selection with their labels, where they are asked for.
fn put_selection(
    alloc: Global,
    members: &mut Map<String, Json>,
    asked: bool,
    field: &FieldInfo,
) -> Result<(), NoMemory>
    ensures { IfOk result (λ _. members_view members.new.entries
        ≡ members_put_if asked (selection_of field.now) (members_view members.old.entries)) }
{
    if asked && field.field_type.is_selection() {
        let choices = choices_json(alloc, field.selection.as_slice())?;
        put_member(alloc, members, "selection", choices)?;
    }
    Ok(())
}

/// The list of keys with their labels.
fn choices_json(alloc: Global, choices: &[Choice]) -> Result<Json, NoMemory>
    ensures { IfOk result (λ json. view json ≡ array (items_of (map choice_data choices.now))) }
{
    let mut items = Vec::new(alloc);
    for choice in choices {
        items.push(choice_json(alloc, choice)?)?;
    }
    Ok(Json::Array(items))
}

/// A key with its label.
fn choice_json(alloc: Global, choice: &Choice) -> Result<Json, NoMemory>
    ensures { IfOk result (λ json. view json ≡ choice_data choice.now) }
{
    let mut pair = Vec::new(alloc);
    pair.push(Json::String(String::from_str(alloc, choice.key.as_str())?))?;
    pair.push(Json::String(String::from_str(alloc, choice.label.as_str())?))?;
    Ok(Json::Array(pair))
}

/// A type by the word that module files have for it.
fn type_name(field_type: FieldType) -> &'static str
    ensures { result.now ≡ type_name field_type }
{
    match field_type {
        FieldType::Boolean => "boolean",
        FieldType::Integer => "integer",
        FieldType::Char => "char",
        FieldType::Text => "text",
        FieldType::Date => "date",
        FieldType::Datetime => "datetime",
        FieldType::Selection => "selection",
        FieldType::Many2one => "many2one",
        FieldType::One2many => "one2many",
        FieldType::Many2many => "many2many",
    }
}
