//! What rows keep for computed fields, and the values from scratch: each formula is evaluated
//! at most once by the values that are asked here, field by field in the order of the lines.

ghost use Rattle.std.specs.Prelude.{◌≡◌, All, IfOk, IfSome, IsSome, OnOk, Ok, length, true};
ghost use Rattle.ob_audit.specs.Comparing.{AddsByName, AddsFields, FitDifference, IsFound, IsJudged, IsOther, LineBy, field_of};
ghost use Rattle.ob_audit.specs.Reading.{IsFitStored, IsStoredCell};
ghost use Rattle.ob_audit.specs.Report.{AreByName, field_name, is_stored, model_name, named_models, stored_of_model};
ghost use Rattle.ob_definition.specs.Values.{IsNative};
ghost use Rattle.ob_schema.specs.Broken.{AreSound};
ghost use Rattle.ob_schema.specs.Models.{FieldHas, HasField, HasModel, IsRegistry, field_at, is_computed_from};
ghost use Rattle.ob_schema.specs.Tables.{ids_in};
ghost use Rattle.ob_schema.specs.Val.{val};

use crate::lines::{differs_line, equal_line, field_name, json_text, model_name};
use crate::report::Report;
use ob_base::limits::MAX_MODELS;
use ob_base::{Cell, FieldNo, ModelNo, NoMemory, RecId, Value, Word, value_eq};
use ob_codec::type_and_limits;
use ob_schema::{FieldInfo, Origin, Schema, Step};
use ob_tables::{ScratchFault, Tables, Values, sound_values};
use std::alloc::Global;

/// A stored cell of a field that is kept with another value than its own from scratch.
#[derive(Drop)]
pub(crate) struct Difference {
    pub(crate) id: RecId,
    pub(crate) kept: Value,
    pub(crate) scratch: Value,
}

/// Adds a line for each stored computed field, and whether no cell of it differs.
pub(crate) fn add_fields(
    alloc: Global,
    schema: &Schema,
    tables: &Tables<'_>,
    stored: &[(Cell, Value)],
    report: &mut Report,
) -> Result<(), NoMemory>
    requires models { tables.now.models ≡ schema.now }
    requires sound { AreSound tables.now.models tables.now.tables }
    requires fit { All (IsFitStored schema.now) stored.now }
    ensures { OnOk result (AddsByName tables.now stored.now report.old report.new) }
{
    tables.fit_together();
    let mut values = Values::of(tables)?;
    let named = models_by_name(alloc, schema)?;
    for (model, _) in named.as_slice() {
        add_model(alloc, schema, tables, *model, stored, &mut values, report)?;
    }
    Ok(())
}

/// The models of a registry with their names, in byte order of these.
fn models_by_name(alloc: Global, schema: &Schema) -> Result<Vec<(ModelNo, Word)>, NoMemory>
    ensures { IfOk result (λ named. AreByName schema.now named.items) }
{
    let mut named = named_models(alloc, schema)?;
    named.sort_by(|a, b| a.1.as_str().cmp(b.1.as_str()))?;
    Ok(named)
}

/// The models of a registry with their names.
fn named_models(alloc: Global, schema: &Schema) -> Result<Vec<(ModelNo, Word)>, NoMemory>
    ensures { IfOk result (λ named. named.items ≡ named_models schema.now) }
{
    schema.parts_fit_together();
    let mut named = Vec::new(alloc);
    for place in 0..MAX_MODELS {
        let model = ModelNo(place as u16 + 1);
        if let Some(info) = schema.find_model(model) {
            named.push((model, info.name.try_clone(alloc)?))?;
        }
    }
    Ok(named)
}

/// Adds the lines of a model.
fn add_model(
    alloc: Global,
    schema: &Schema,
    tables: &Tables<'_>,
    model: ModelNo,
    stored: &[(Cell, Value)],
    values: &mut Values<'_, '_>,
    report: &mut Report,
) -> Result<(), NoMemory>
    requires model { HasModel schema.now model }
    requires models { tables.now.models ≡ schema.now }
    requires sound { AreSound tables.now.models tables.now.tables }
    requires fit { All (IsFitStored schema.now) stored.now }
    requires values { values.old ≡ tables.now }
    ensures same { values.new ≡ values.old }
    ensures told { OnOk result (AddsFields tables.now stored.now (stored_of_model schema.now model) report.old report.new) }
{
    let rows = tables.ids(model)?.len();
    let fields = schema.fields(model);
    for (place, field) in fields.iter().enumerate() {
        if is_stored(field) {
            let at = Step {
                model,
                field: FieldNo(place as u16 + 1),
            };
            add_field(alloc, schema, at, rows, stored, values, report)?;
        }
    }
    Ok(())
}

/// Whether a formula gives a field's value, and rows keep it.
fn is_stored(field: &FieldInfo) -> bool
    ensures { result ≡ is_stored field.now }
{
    matches!(field.origin, Origin::Computed(_)) && field.store
}

/// Adds the line of a field.
fn add_field(
    alloc: Global,
    schema: &Schema,
    at: Step,
    rows: usize,
    stored: &[(Cell, Value)],
    values: &mut Values<'_, '_>,
    report: &mut Report,
) -> Result<(), NoMemory>
    requires field { FieldHas schema.now (λ info. is_stored info ≡ true) at.model at.field }
    requires models { values.old.models ≡ schema.now }
    requires sound { AreSound values.old.models values.old.tables }
    requires fit { All (IsFitStored schema.now) stored.now }
    requires rows { rows ≡ length (ids_in values.old.tables at.model) }
    ensures same { values.new ≡ values.old }
    ensures told { OnOk result (AddsFields values.old stored.now (field_of schema.now at) report.old report.new) }
{
    let found = first_difference(alloc, schema, at, stored, values)?;
    let line = field_line(alloc, schema, at, rows, &found)?;
    report.add(line, found.is_none())
}

/// The first of what is kept for a field that isn't the value from scratch.
fn first_difference(
    alloc: Global,
    schema: &Schema,
    at: Step,
    stored: &[(Cell, Value)],
    values: &mut Values<'_, '_>,
) -> Result<Option<Difference>, NoMemory>
    requires field { FieldHas schema.now (λ info. is_stored info ≡ true) at.model at.field }
    requires models { values.old.models ≡ schema.now }
    requires sound { AreSound values.old.models values.old.tables }
    requires fit { All (IsFitStored schema.now) stored.now }
    ensures same { values.new ≡ values.old }
    ensures found { IfOk result (IsFound values.old stored.now at) }
    ensures fit { IfOk result (λ found. IfSome found (FitDifference schema.now at)) }
{
    for (cell, kept) in stored {
        if let Some(difference) = difference_in(alloc, schema, at, *cell, kept, values)? {
            return Ok(Some(difference));
        }
    }
    Ok(None)
}

/// Whether what is kept for a cell differs; none of a cell of another field.
fn difference_in(
    alloc: Global,
    schema: &Schema,
    at: Step,
    cell: Cell,
    kept: &Value,
    values: &mut Values<'_, '_>,
) -> Result<Option<Difference>, NoMemory>
    requires field { FieldHas schema.now (λ info. is_stored info ≡ true) at.model at.field }
    requires models { values.old.models ≡ schema.now }
    requires sound { AreSound values.old.models values.old.tables }
    requires fit { IsFitStored schema.now (cell, kept.now) }
    ensures same { values.new ≡ values.old }
    ensures judged { IfOk result (IsJudged values.old at cell kept.now) }
    ensures fit { IfOk result (λ found. IfSome found (FitDifference schema.now at)) }
{
    if cell.model.0 != at.model.0 || cell.field.0 != at.field.0 {
        return Ok(None);
    }
    let Some(scratch) = other_value(schema, cell, kept, values)? else {
        return Ok(None);
    };
    let kept = kept.try_clone(alloc)?;
    let id = cell.id;
    Ok(Some(Difference { id, kept, scratch }))
}

/// The value of a cell from scratch, where it is another than the one that is kept.
fn other_value(
    schema: &Schema,
    cell: Cell,
    kept: &Value,
    values: &mut Values<'_, '_>,
) -> Result<Option<Value>, NoMemory>
    requires field { IsStoredCell schema.now cell }
    requires models { values.old.models ≡ schema.now }
    requires sound { AreSound values.old.models values.old.tables }
    ensures same { values.new ≡ values.old }
    ensures other { IfOk result (IsOther values.old cell kept.now) }
    ensures fit { IfOk result (λ found. IfSome found (λ scratch. IsFitStored schema.now (cell, scratch))) }
{
    // The laws of the registry and of sound tables: computed values are ones that fields may hold.
    schema.parts_fit_together();
    sound_values();
    match values.value(cell) {
        Ok(value) if value_eq(&value, kept) => Ok(None),
        Ok(value) => {
            value_is_native(&value);
            Ok(Some(value))
        }
        Err(ScratchFault::NoMemory) => Err(NoMemory),
        // Where its row is there, sound tables have a value for it.
        Err(_) => Ok(None),
    }
}

/// The law of values that the program holds: integers fit 64 bits, and texts are UTF-8.
fn value_is_native(value: &Value)
    ensures { IsNative value.now }
{
    match value {
        Value::Int(number) => {
            let _number = *number;
        }
        Value::Word(text) => {
            let _text = text.as_str();
        }
        _ => {}
    }
}

/// The line of a field, by the first of it that differs.
fn field_line(
    alloc: Global,
    schema: &Schema,
    at: Step,
    rows: usize,
    found: &Option<Difference>,
) -> Result<Word, NoMemory>
    requires field { HasField schema.now at.model at.field }
    requires fit { IfSome found.now (FitDifference schema.now at) }
    ensures { IfOk result (LineBy (model_name schema.now at.model) (field_name schema.now at.model at.field) rows found.now) }
{
    // The law of what fields may hold: it is of their type.
    type_and_limits();
    let model = model_name(schema, at.model);
    let field = field_name(schema, at.model, at.field);
    let Some(difference) = found else {
        return equal_line(alloc, model, field, rows);
    };
    let kept = json_text(alloc, schema, at, &difference.kept)?;
    let scratch = json_text(alloc, schema, at, &difference.scratch)?;
    let (kept, scratch) = (kept.as_str(), scratch.as_str());
    differs_line(alloc, model, field, rows, difference.id, kept, scratch)
}
