//! The rows of groups, which stand before all others in what a new store gets: one for each, with
//! its full name. What the row of a group has is changed here and in `specs/Preset`.

ghost use Rattle.std.specs.Prelude.{◌≡◌, ◌++◌, List, All, IfOk, IsSomeAnd, Some, codes, map};
ghost use Rattle.std.specs.List.{enumerate_from};
ghost use Rattle.toml.specs.View.{table_view, view};
ghost use Rattle.ob_load.specs.Access.{entries_of};
ghost use Rattle.ob_load.specs.Preset as spec;
ghost use Rattle.ob_module.specs.Modules.{Module, numbered};
ghost use Rattle.ob_load.specs.Rooms.{AreFitting, FitsAnywhere};
ghost use Rattle.ob_module.specs.Rooms.{modules_in};
ghost use Rattle.ob_schema.specs.declared.preset.PresetRow.{PresetRow as RowData};
ghost use Rattle.ob_schema.specs.Models.{HasModel, model_at, model_named};

use crate::scope::full_name;
use ob_base::limits::MAX_CHAR_BYTES;
use ob_base::{FieldNo, ModelNo, NoMemory, Sequence, Value, Word};
use ob_module::{Modules, listed_at, word_at};
use ob_schema::{FieldType, PresetRow, PresetValue, Schema};
use std::alloc::Global;
use toml::{Table, Value as Entry};

/// The rows of the groups of all modules; none where there is no model for them.
pub(crate) fn group_rows(
    alloc: Global,
    schema: &Schema,
    modules: &Modules,
    taken: &[usize],
) -> Result<Sequence<PresetRow>, NoMemory>
    requires { (all : List Module) × numbered (modules_in modules.now) taken.now all }
    ensures made { IfOk result (λ rows. (all : List Module) → numbered (modules_in modules.now) taken.now all → rows ≡ spec.group_rows schema.now all) }
    ensures fit { IfOk result (All (FitsAnywhere schema.now)) }
{
    match schema.model("res.groups") {
        Some(model) => rows_of(alloc, schema, model, modules, taken),
        None => Ok(Sequence::new(alloc)),
    }
}

/// The rows of the groups of all modules, of their model.
fn rows_of(
    alloc: Global,
    schema: &Schema,
    model: ModelNo,
    modules: &Modules,
    taken: &[usize],
) -> Result<Sequence<PresetRow>, NoMemory>
    requires all { (all : List Module) × numbered (modules_in modules.now) taken.now all }
    requires model { model_named schema.now (codes "res.groups") ≡ Some model }
    ensures made { IfOk result (λ rows. (all : List Module) → numbered (modules_in modules.now) taken.now all → rows ≡ spec.group_rows schema.now all) }
    ensures fit { IfOk result (All (FitsAnywhere schema.now)) }
{
    let mut rows = Sequence::new(alloc);
    for number in taken {
        let owner = modules.name(*number);
        let document = modules.document(*number);
        add_rows(alloc, schema, model, owner, document, &mut rows)?;
    }
    Ok(rows)
}

/// Adds the rows of the groups of a module.
fn add_rows(
    alloc: Global,
    schema: &Schema,
    model: ModelNo,
    owner: &str,
    document: &Table,
    rows: &mut Sequence<PresetRow>,
) -> Result<(), NoMemory>
    requires { HasModel schema.now model }
    ensures made { IfOk result (λ _. rows.new ≡ rows.old ++ map (λ p. spec.group_row schema.now model owner.now p.0 p.1) (enumerate_from 0 (entries_of (codes "group") (table_view document.now)))) }
    ensures fit { IfOk result (λ _. All (FitsAnywhere schema.now) rows.old → All (FitsAnywhere schema.now) rows.new) }
{
    let entries = listed_at(document, "group");
    for (number, entry) in entries.iter().enumerate() {
        rows.push(group_row(alloc, schema, model, owner, number, entry)?)?;
    }
    Ok(())
}

/// The row of the group of an entry.
fn group_row(
    alloc: Global,
    schema: &Schema,
    model: ModelNo,
    owner: &str,
    number: usize,
    entry: &Entry,
) -> Result<PresetRow, NoMemory>
    requires { HasModel schema.now model }
    ensures made { IfOk result (λ row. row ≡ spec.group_row schema.now model owner.now number (view entry.now)) }
    ensures fit { IfOk result (FitsAnywhere schema.now) }
{
    let name = full_name(alloc, owner, word_at(entry, "name"))?;
    let values = name_given(alloc, schema, model, name)?;
    Ok(PresetRow {
        module: Word::from_text(alloc, owner)?,
        place: Word::new(format!(in alloc; "group.{number}")?),
        model,
        values,
    })
}

/// What a full name gives to the field that has it.
fn name_given(
    alloc: Global,
    schema: &Schema,
    model: ModelNo,
    name: Word,
) -> Result<Sequence<(FieldNo, PresetValue)>, NoMemory>
    requires { HasModel schema.now model }
    ensures given { IfOk result (λ values. values ≡ spec.name_given schema.now model name) }
    ensures fit { IfOk result (λ values. (before : List RowData) → IsSomeAnd (model_at schema.now model) (λ info. AreFitting before info.fields values)) }
{
    let mut values = Sequence::new(alloc);
    if name.as_str().len() <= MAX_CHAR_BYTES {
        if let Some(field) = name_field(schema, model) {
            values.push((field, PresetValue::Plain(Value::Word(name))))?;
        }
    }
    Ok(values)
}

/// The field that has the name of a group, where it is a char.
fn name_field(schema: &Schema, model: ModelNo) -> Option<FieldNo>
    requires { HasModel schema.now model }
    ensures { result ≡ spec.name_field schema.now model }
{
    let field = schema.field(model, "name")?;
    match schema.info(model, field).field_type {
        FieldType::Char => Some(field),
        _ => None,
    }
}
