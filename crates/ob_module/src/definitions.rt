//! What a document declares, key by key: definitions of models and of their fields. A key
//! that the format gets is read here, and its meaning stands in `specs/Meaning`.

ghost use Rattle.std.specs.Prelude.{◌≡◌, ◌++◌, IfOk, OnOk, codes, map, option_map};
ghost use Rattle.toml.specs.Data.{get};
ghost use Rattle.toml.specs.View.{table_view, view};
ghost use Rattle.ob_module.specs.Keys as names;
ghost use Rattle.ob_module.specs.Meaning as spec;

use crate::tables::{
    flag_at, found, items_at, items_of, listed_at, nth_text, str_at, table_at, text_at, text_of,
    texts_at, texts_of,
};
use ob_base::{NoMemory, Sequence, Value as Constant, Word};
use ob_dates::{day_of, moment_of};
use ob_definition::{Check, Choice, FieldDef, FieldType, Inherits, ModelDef, OnDelete};
use std::alloc::Global;
use toml::{Table, Value};

/// The type of fields of this name.
pub(crate) fn type_named(name: &str) -> Option<FieldType>
    ensures { result ≡ names.type_named name.now }
{
    match name {
        "boolean" => Some(FieldType::Boolean),
        "integer" => Some(FieldType::Integer),
        "char" => Some(FieldType::Char),
        "text" => Some(FieldType::Text),
        "date" => Some(FieldType::Date),
        "datetime" => Some(FieldType::Datetime),
        "selection" => Some(FieldType::Selection),
        "many2one" => Some(FieldType::Many2one),
        "one2many" => Some(FieldType::One2many),
        "many2many" => Some(FieldType::Many2many),
        _ => None,
    }
}

/// What becomes of a row whose many2one names a deleted one, by its name.
pub(crate) fn ondelete_named(name: &str) -> Option<OnDelete>
    ensures { result ≡ names.ondelete_named name.now }
{
    match name {
        "set null" => Some(OnDelete::SetNull),
        "restrict" => Some(OnDelete::Restrict),
        "cascade" => Some(OnDelete::Cascade),
        _ => None,
    }
}

/// The type of a field.
fn type_of_field(field: &Value) -> FieldType
    ensures { result ≡ spec.type_of_field (view field.now) }
{
    match str_at(field, "type") {
        Some(name) => type_named(name).unwrap_or(FieldType::Boolean),
        None => FieldType::Boolean,
    }
}

/// What becomes of the row of a field whose target is deleted.
fn ondelete_of(field: &Value) -> Option<OnDelete>
    ensures { result ≡ spec.ondelete_of_field (view field.now) }
{
    match str_at(field, "ondelete") {
        Some(name) => ondelete_named(name),
        None => None,
    }
}

/// A default as a value of the type. The text of a date that doesn't exist stays a text.
fn constant_of(alloc: Global, field_type: FieldType, value: &Value) -> Result<Constant, NoMemory>
    ensures { IfOk result (λ constant. constant ≡ spec.constant_of field_type (view value.now)) }
{
    match value {
        Value::String(text) => text_constant(alloc, field_type, text.as_str()),
        Value::Integer(number) => Ok(Constant::Int(*number)),
        Value::Boolean(flag) => Ok(Constant::Bool(*flag)),
        _ => Ok(Constant::Nil),
    }
}

/// A text as a value of the type.
fn text_constant(alloc: Global, field_type: FieldType, text: &str) -> Result<Constant, NoMemory>
    ensures { IfOk result (λ constant. constant ≡ spec.text_constant field_type text.now) }
{
    match field_type {
        FieldType::Date => match day_of(text) {
            Some(day) => Ok(Constant::Day(day)),
            None => word_of(alloc, text),
        },
        FieldType::Datetime => match moment_of(text) {
            Some(moment) => Ok(Constant::Moment(moment)),
            None => word_of(alloc, text),
        },
        _ => word_of(alloc, text),
    }
}

/// A text as the value that it is itself.
fn word_of(alloc: Global, text: &str) -> Result<Constant, NoMemory>
    ensures { IfOk result (λ constant. constant ≡ Constant.Word text.now) }
{
    Ok(Constant::Word(Word::from_text(alloc, text)?))
}

/// The default of a field.
fn default_of(alloc: Global, field: &Value) -> Result<Option<Constant>, NoMemory>
    ensures { IfOk result (λ default. default ≡ option_map
        (spec.constant_of (spec.type_of_field (view field.now))) (get (codes "default") (view field.now))) }
{
    match found(field, "default") {
        Some(value) => Ok(Some(constant_of(alloc, type_of_field(field), value)?)),
        None => Ok(None),
    }
}

/// The keys of a selection with their words.
fn choices_of(alloc: Global, list: &Value) -> Result<Sequence<Choice>, NoMemory>
    ensures { IfOk result (λ choices. choices ≡ map spec.choice_from (spec.items_of (view list.now))) }
{
    let mut choices = Sequence::new(alloc);
    for pair in items_of(list) {
        choices.push(Choice {
            key: nth_text(alloc, pair, 0)?,
            label: nth_text(alloc, pair, 1)?,
        })?;
    }
    Ok(choices)
}

/// The keys of a selection with their words, where they are given.
fn selection_of(alloc: Global, field: &Value) -> Result<Option<Sequence<Choice>>, NoMemory>
    ensures { IfOk result (λ selection. selection ≡ option_map
        (λ list. map spec.choice_from (spec.items_of list)) (get (codes "selection") (view field.now))) }
{
    match found(field, "selection") {
        Some(list) => Ok(Some(choices_of(alloc, list)?)),
        None => Ok(None),
    }
}

/// A field of this name.
fn field_from(alloc: Global, name: &str, field: &Value) -> Result<FieldDef, NoMemory>
    ensures { IfOk result (λ def. def ≡ spec.field_from name.now (view field.now)) }
{
    Ok(FieldDef {
        name: Word::from_text(alloc, name)?,
        field_type: type_of_field(field),
        string: text_at(alloc, field, "string")?,
        required: flag_at(field, "required"),
        default: default_of(alloc, field)?,
        compute: text_at(alloc, field, "compute")?,
        depends: texts_at(alloc, field, "depends")?,
        store: flag_at(field, "store"),
        recursive: flag_at(field, "recursive"),
        related: text_at(alloc, field, "related")?,
        relation: text_at(alloc, field, "relation")?,
        inverse: text_at(alloc, field, "inverse")?,
        mirror: text_at(alloc, field, "mirror")?,
        ondelete: ondelete_of(field),
        selection: selection_of(alloc, field)?,
        groups: texts_at(alloc, field, "groups")?,
        managed: flag_at(field, "managed"),
        fixed: flag_at(field, "fixed"),
        secret: flag_at(field, "secret"),
    })
}

/// The fields of a model, in byte order of their names.
fn fields_from(alloc: Global, model: &Value) -> Result<Sequence<FieldDef>, NoMemory>
    ensures { IfOk result (λ fields. fields ≡ map (λ m. spec.field_from m.0 m.1)
        (spec.members_at (codes "field") (view model.now))) }
{
    match table_at(model, "field") {
        Some(table) => fields_in(alloc, table),
        None => Ok(Sequence::new(alloc)),
    }
}

/// The fields of a table, in byte order of their names.
fn fields_in(alloc: Global, table: &Table) -> Result<Sequence<FieldDef>, NoMemory>
    ensures { IfOk result (λ fields. fields
        ≡ map (λ m. spec.field_from m.0 m.1) (spec.paired (table_view table.now))) }
{
    let mut fields = Sequence::new(alloc);
    for (name, field) in table.iter() {
        fields.push(field_from(alloc, name.as_str(), field)?)?;
    }
    Ok(fields)
}

/// The checks of a model, in byte order of their names.
fn checks_from(alloc: Global, model: &Value) -> Result<Sequence<Check>, NoMemory>
    ensures { IfOk result (λ checks. checks ≡ map (λ m. spec.check_from m.0 m.1)
        (spec.members_at (codes "check") (view model.now))) }
{
    match table_at(model, "check") {
        Some(table) => checks_in(alloc, table),
        None => Ok(Sequence::new(alloc)),
    }
}

/// The checks of a table, in byte order of their names.
fn checks_in(alloc: Global, table: &Table) -> Result<Sequence<Check>, NoMemory>
    ensures { IfOk result (λ checks. checks
        ≡ map (λ m. spec.check_from m.0 m.1) (spec.paired (table_view table.now))) }
{
    let mut checks = Sequence::new(alloc);
    for (name, expression) in table.iter() {
        checks.push(Check {
            name: Word::from_text(alloc, name.as_str())?,
            expression: Word::from_text(alloc, text_of(expression))?,
        })?;
    }
    Ok(checks)
}

/// The parents of a model, each with its link.
fn parents_from(alloc: Global, model: &Value) -> Result<Sequence<Inherits>, NoMemory>
    ensures { IfOk result (λ parents. parents
        ≡ map spec.parent_from (spec.items_at (codes "inherits") (view model.now))) }
{
    let mut parents = Sequence::new(alloc);
    for pair in items_at(model, "inherits") {
        parents.push(Inherits {
            model: nth_text(alloc, pair, 0)?,
            link: nth_text(alloc, pair, 1)?,
        })?;
    }
    Ok(parents)
}

/// The sets of fields that no two rows of a model share.
fn unique_from(alloc: Global, model: &Value) -> Result<Sequence<Sequence<Word>>, NoMemory>
    ensures { IfOk result (λ sets. sets
        ≡ map spec.texts_of (spec.items_at (codes "unique") (view model.now))) }
{
    let mut sets = Sequence::new(alloc);
    for set in items_at(model, "unique") {
        sets.push(texts_of(alloc, set)?)?;
    }
    Ok(sets)
}

/// A model of a `[[model]]` table.
fn model_from(alloc: Global, model: &Value) -> Result<ModelDef, NoMemory>
    ensures { IfOk result (λ def. def ≡ spec.model_from (view model.now)) }
{
    Ok(ModelDef {
        name: text_at(alloc, model, "name")?,
        inherit: text_at(alloc, model, "inherit")?,
        inherits: parents_from(alloc, model)?,
        order: text_at(alloc, model, "order")?,
        parent: text_at(alloc, model, "parent")?,
        unique: unique_from(alloc, model)?,
        checks: checks_from(alloc, model)?,
        locked: text_at(alloc, model, "locked")?,
        managed: flag_at(model, "managed"),
        fields: fields_from(alloc, model)?,
    })
}

/// Adds the models of a document.
pub fn add_models(
    alloc: Global,
    document: &Table,
    models: &mut Sequence<ModelDef>,
) -> Result<(), NoMemory>
    ensures { OnOk result (models.new ≡ models.old ++ spec.models_of (table_view document.now)) }
{
    for model in listed_at(document, "model") {
        models.push(model_from(alloc, model)?)?;
    }
    Ok(())
}
