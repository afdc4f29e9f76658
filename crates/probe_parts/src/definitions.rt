//! Definitions from a line. ` || ` stands between entries and ` | ` before each field of one.
//! The words before its first field are an entry's keys, such as `name=m.a` or
//! `inherits=m.a:a_id`; those of a field are its name, its type and its keys, such as
//! `b integer compute=a\s+\s1 depends=a`. A key without `=` is an empty list.
//! Names and texts are written as `words` has them.
//!
//! Behind the entries stands the model `res.users` without a key, to which fields of each model
//! lead: not where an entry makes that model, and not where `no users` stands for one.

use crate::items::{flag_of, number_of};
use crate::told::Told;
use crate::words::{first_word, word_of};
use ob_base::{Sequence, Value, Word};
use ob_registry::build_schema;
use ob_schema::{
    Check, Choice, FieldDef, FieldType, Inherits, ModelDef, OnDelete, Schema, SchemaFault,
};
use std::alloc::Global;

/// The model of the users, behind the entries of a line.
const USERS: &str = "name=res.users";

/// What stands for an entry in a line that has no such model.
const NO_USERS: &str = "no users";

/// A key with its value, whose parts have `:` between them.
#[derive(Clone, Copy)]
struct Key<'a> {
    name: &'a str,
    value: Option<&'a str>,
}

/// The registry that the definitions of a text make.
pub fn schema_of(alloc: Global, told: &mut Told, text: &str) -> Option<Schema> {
    let definitions = definitions(alloc, told, text);
    match build_schema(alloc, definitions.as_slice()) {
        Ok(schema) => Some(schema),
        Err(SchemaFault::NoMemory) => {
            told.lack();
            None
        }
        Err(_) => {
            told.refuse();
            None
        }
    }
}

/// The definitions of a line.
pub fn definitions(alloc: Global, told: &mut Told, line: &str) -> Sequence<ModelDef> {
    let mut definitions = Sequence::new(alloc);
    let mut lacks_users = true;
    if !line.is_empty() {
        for entry in line.split(" || ") {
            let is_model = entry != NO_USERS;
            let model = definition(alloc, told, if is_model { entry } else { USERS });
            lacks_users = lacks_users && !is_users(&model);
            if is_model {
                told.add(&mut definitions, model);
            }
        }
    }
    if lacks_users {
        let users = definition(alloc, told, USERS);
        told.add(&mut definitions, users);
    }
    definitions
}

/// Whether a definition makes the model of the users.
fn is_users(model: &ModelDef) -> bool {
    match &model.name {
        Some(name) => name.as_str() == "res.users",
        None => false,
    }
}

/// The definition of an entry.
fn definition(alloc: Global, told: &mut Told, entry: &str) -> ModelDef {
    let mut definition = no_model(alloc);
    match entry.split_once(" | ") {
        Some((keys, fields)) => {
            take_keys(alloc, told, &mut definition, keys);
            take_fields(alloc, told, &mut definition, fields);
        }
        None => take_keys(alloc, told, &mut definition, entry),
    }
    definition
}

/// A definition without a key.
fn no_model(alloc: Global) -> ModelDef {
    ModelDef {
        name: None,
        inherit: None,
        inherits: Sequence::new(alloc),
        order: None,
        parent: None,
        unique: Sequence::new(alloc),
        checks: Sequence::new(alloc),
        locked: None,
        managed: None,
        fields: Sequence::new(alloc),
    }
}

/// Takes keys, with spaces between them, into a definition.
fn take_keys(alloc: Global, told: &mut Told, definition: &mut ModelDef, keys: &str) {
    for word in keys.split(' ') {
        if !word.is_empty() {
            take_model_key(alloc, told, definition, key_of(word));
        }
    }
}

/// Takes fields, with ` | ` between them, into a definition.
fn take_fields(alloc: Global, told: &mut Told, definition: &mut ModelDef, fields: &str) {
    if fields.is_empty() {
        return;
    }
    for field in fields.split(" | ") {
        let field = field_definition(alloc, told, field);
        told.add(&mut definition.fields, field);
    }
}

/// The definition of a field.
fn field_definition(alloc: Global, told: &mut Told, words: &str) -> FieldDef {
    let (name, words) = first_word(words);
    let (type_name, keys) = first_word(words);
    let field_type = told.found(type_of(type_name), FieldType::Char);
    let mut field = no_key(word_of(alloc, told, name), field_type);
    for word in keys.split(' ') {
        if !word.is_empty() {
            take_field_key(alloc, told, &mut field, key_of(word));
        }
    }
    field
}

/// A field with no key but its type.
fn no_key(name: Word, field_type: FieldType) -> FieldDef {
    FieldDef {
        name,
        field_type,
        string: None,
        required: None,
        default: None,
        compute: None,
        depends: None,
        store: None,
        recursive: None,
        related: None,
        relation: None,
        inverse: None,
        mirror: None,
        ondelete: None,
        selection: None,
        groups: None,
        managed: None,
        fixed: None,
        secret: None,
    }
}

/// The key that a word is.
fn key_of(word: &str) -> Key<'_> {
    match word.split_once('=') {
        Some((name, value)) => Key {
            name,
            value: Some(value),
        },
        None => Key {
            name: word,
            value: None,
        },
    }
}

/// Takes a key into a model's definition.
fn take_model_key(alloc: Global, told: &mut Told, definition: &mut ModelDef, key: Key<'_>) {
    if let Some(text) = model_text(definition, key.name) {
        *text = Some(word(alloc, told, key));
        return;
    }
    match key.name {
        "inherits" => take_inherits(alloc, told, &mut definition.inherits, key),
        "check" => take_check(alloc, told, &mut definition.checks, key),
        "unique" => {
            let names = words(alloc, told, key);
            told.add(&mut definition.unique, names);
        }
        "managed" => definition.managed = Some(flag(told, key)),
        _ => told.refuse(),
    }
}

/// What a model's definition has of a key that is one text.
fn model_text<'d>(definition: &'d mut ModelDef, name: &str) -> Option<&'d mut Option<Word>> {
    match name {
        "name" => Some(&mut definition.name),
        "inherit" => Some(&mut definition.inherit),
        "order" => Some(&mut definition.order),
        "parent" => Some(&mut definition.parent),
        "locked" => Some(&mut definition.locked),
        _ => None,
    }
}

/// Takes a model whose fields are had through a link.
fn take_inherits(alloc: Global, told: &mut Told, all: &mut Sequence<Inherits>, key: Key<'_>) {
    let (model, link) = two_parts(told, key);
    let model = word_of(alloc, told, model);
    let link = word_of(alloc, told, link);
    told.add(all, Inherits { model, link });
}

/// Takes a condition.
fn take_check(alloc: Global, told: &mut Told, all: &mut Sequence<Check>, key: Key<'_>) {
    let (name, text) = two_parts(told, key);
    let name = word_of(alloc, told, name);
    let expression = word_of(alloc, told, text);
    told.add(all, Check { name, expression });
}

/// Takes a key into a field's definition.
fn take_field_key(alloc: Global, told: &mut Told, field: &mut FieldDef, key: Key<'_>) {
    if let Some(text) = field_text(field, key.name) {
        *text = Some(word(alloc, told, key));
    } else if let Some(names) = field_names(field, key.name) {
        *names = Some(words(alloc, told, key));
    } else if let Some(of_field) = field_flag(field, key.name) {
        *of_field = Some(flag(told, key));
    } else {
        take_other_key(alloc, told, field, key);
    }
}

/// What a field's definition has of a key that is one text.
fn field_text<'d>(field: &'d mut FieldDef, name: &str) -> Option<&'d mut Option<Word>> {
    match name {
        "string" => Some(&mut field.string),
        "compute" => Some(&mut field.compute),
        "related" => Some(&mut field.related),
        "relation" => Some(&mut field.relation),
        "inverse" => Some(&mut field.inverse),
        "mirror" => Some(&mut field.mirror),
        _ => None,
    }
}

/// What a field's definition has of a key that is a list of texts.
fn field_names<'d>(field: &'d mut FieldDef, name: &str) -> Option<&'d mut Option<Sequence<Word>>> {
    match name {
        "depends" => Some(&mut field.depends),
        "groups" => Some(&mut field.groups),
        _ => None,
    }
}

/// What a field's definition has of a key that is a flag.
fn field_flag<'d>(field: &'d mut FieldDef, name: &str) -> Option<&'d mut Option<bool>> {
    match name {
        "required" => Some(&mut field.required),
        "store" => Some(&mut field.store),
        "recursive" => Some(&mut field.recursive),
        "managed" => Some(&mut field.managed),
        "fixed" => Some(&mut field.fixed),
        "secret" => Some(&mut field.secret),
        _ => None,
    }
}

/// Takes a key of a form of its own into a field's definition.
fn take_other_key(alloc: Global, told: &mut Told, field: &mut FieldDef, key: Key<'_>) {
    match key.name {
        "default" => field.default = Some(constant(alloc, told, key)),
        "ondelete" => {
            let part = one_part(told, key);
            field.ondelete = Some(told.found(ondelete(part), OnDelete::SetNull));
        }
        "selection" => field.selection = Some(choices(alloc, told, key)),
        _ => told.refuse(),
    }
}

/// The one part of a key's value.
fn one_part<'a>(told: &mut Told, key: Key<'a>) -> &'a str {
    match key.value {
        Some(part) if !part.contains(':') => part,
        _ => {
            told.refuse();
            ""
        }
    }
}

/// The two parts of a key's value.
fn two_parts<'a>(told: &mut Told, key: Key<'a>) -> (&'a str, &'a str) {
    let both = match key.value {
        Some(value) => value.split_once(':'),
        None => None,
    };
    match both {
        Some((first, second)) if !second.contains(':') => (first, second),
        _ => {
            told.refuse();
            ("", "")
        }
    }
}

/// What a key says that is `yes` or `no`.
fn flag(told: &mut Told, key: Key<'_>) -> bool {
    let part = one_part(told, key);
    told.found(flag_of(part), false)
}

/// The one part of a key's value, as it is meant.
fn word(alloc: Global, told: &mut Told, key: Key<'_>) -> Word {
    let part = one_part(told, key);
    word_of(alloc, told, part)
}

/// The parts of a key's value as they are meant.
fn words(alloc: Global, told: &mut Told, key: Key<'_>) -> Sequence<Word> {
    let mut words = Sequence::new(alloc);
    if let Some(value) = key.value {
        for part in value.split(':') {
            let word = word_of(alloc, told, part);
            told.add(&mut words, word);
        }
    }
    words
}

/// The keys of a selection, each with its words behind it.
fn choices(alloc: Global, told: &mut Told, key: Key<'_>) -> Sequence<Choice> {
    let mut choices = Sequence::new(alloc);
    if let Some(value) = key.value {
        add_choices(alloc, told, &mut choices, value);
    }
    choices
}

/// Adds the choices of a value.
fn add_choices(alloc: Global, told: &mut Told, choices: &mut Sequence<Choice>, value: &str) {
    let mut before = None;
    for part in value.split(':') {
        before = match before {
            None => Some(part),
            Some(key) => {
                add_choice(alloc, told, choices, key, part);
                None
            }
        };
    }
    if before.is_some() {
        told.refuse();
    }
}

/// Adds a choice.
fn add_choice(
    alloc: Global,
    told: &mut Told,
    choices: &mut Sequence<Choice>,
    key: &str,
    label: &str,
) {
    let key = word_of(alloc, told, key);
    let label = word_of(alloc, told, label);
    told.add(choices, Choice { key, label });
}

/// A constant: its kind and its value.
fn constant(alloc: Global, told: &mut Told, key: Key<'_>) -> Value {
    let (kind, part) = two_parts(told, key);
    match kind {
        "bool" => Value::Bool(told.found(flag_of(part), false)),
        "int" => Value::Int(told.found(number_of(part), 0)),
        "day" => Value::Day(told.found(part.parse().ok(), 0)),
        "moment" => Value::Moment(told.found(number_of(part), 0)),
        "word" => Value::Word(word_of(alloc, told, part)),
        _ => {
            told.refuse();
            Value::Nil
        }
    }
}

/// What becomes of a row whose many2one names a row that is deleted.
fn ondelete(part: &str) -> Option<OnDelete> {
    match part {
        "set_null" => Some(OnDelete::SetNull),
        "restrict" => Some(OnDelete::Restrict),
        "cascade" => Some(OnDelete::Cascade),
        _ => None,
    }
}

/// The type of a name.
fn type_of(name: &str) -> Option<FieldType> {
    match name {
        "boolean" => Some(FieldType::Boolean),
        "integer" => Some(FieldType::Integer),
        "char" => Some(FieldType::Char),
        "text" => Some(FieldType::Text),
        "date" => Some(FieldType::Date),
        "datetime" => Some(FieldType::Datetime),
        "selection" => Some(FieldType::Selection),
        "many2one" => Some(FieldType::Many2one),
        "one2many" => Some(FieldType::One2many),
        "many2many" => Some(FieldType::Many2many),
        _ => None,
    }
}
