//! The texts of lines. What each is stands in specs/Report.

ghost use Rattle.std.specs.Prelude.{◌≡◌, IfOk, string_bytes};
ghost use Rattle.ob_audit.specs.Report.{IsJsonText, broken_line, differs_line, equal_line, field_name, last_line, model_name, sum_line, unreadable_line};
ghost use Rattle.ob_codec.specs.Held.{HasFieldType};
ghost use Rattle.ob_schema.specs.Models.{HasField, field_at};

use ob_base::{Broken, Cell, FieldNo, ModelNo, NoMemory, RecId, Value, Word};
use ob_codec::to_json;
use ob_schema::{Schema, Step};
use std::alloc::Global;

/// The last line.
pub(crate) fn last_line(alloc: Global, equal: bool) -> Result<Word, NoMemory>
    ensures { IfOk result (λ line. line ≡ last_line equal) }
{
    if equal {
        Word::from_text(alloc, "audit equal")
    } else {
        Word::from_text(alloc, "audit differs")
    }
}

/// The line of a row that can't be read.
pub(crate) fn unreadable_line(alloc: Global, schema: &Schema, cell: Cell) -> Result<Word, NoMemory>
    ensures { IfOk result (λ line. line ≡ unreadable_line schema.now cell) }
{
    let (model, id) = (model_name(schema, cell.model), cell.id.0);
    Ok(Word::new(format!(in alloc; "unreadable {model} {id}")?))
}

/// The line of what is broken.
pub(crate) fn broken_line(alloc: Global, schema: &Schema, broken: Broken) -> Result<Word, NoMemory>
    ensures { IfOk result (λ line. line ≡ broken_line schema.now broken) }
{
    let cell = broken.cell;
    let kind = broken.kind.name();
    let (model, id) = (model_name(schema, cell.model), cell.id.0);
    let field = field_name(schema, cell.model, cell.field);
    Ok(Word::new(format!(in alloc; "broken {kind} {model} {id} {field}")?))
}

/// The line of a field of which no cell differs.
pub(crate) fn equal_line(
    alloc: Global,
    model: &str,
    field: &str,
    rows: usize,
) -> Result<Word, NoMemory>
    ensures { IfOk result (λ line. line ≡ equal_line model.now field.now rows) }
{
    Ok(Word::new(format!(in alloc; "{model}.{field} {rows} equal")?))
}

/// The line of a field that differs first at this row.
pub(crate) fn differs_line(
    alloc: Global,
    model: &str,
    field: &str,
    rows: usize,
    id: RecId,
    kept: &str,
    scratch: &str,
) -> Result<Word, NoMemory>
    ensures { IfOk result (λ line. line ≡ differs_line model.now field.now rows id kept.now scratch.now) }
{
    let id = id.0;
    Ok(Word::new(format!(in alloc;
        "{model}.{field} {rows} differs at {id}: kept {kept} scratch {scratch}"
    )?))
}

/// The line of a product with its sum.
pub(crate) fn sum_line(alloc: Global, product: u64, total: i128) -> Result<Word, NoMemory>
    ensures { IfOk result (λ line. line ≡ sum_line (product, total)) }
{
    Ok(Word::new(format!(in alloc; "product {product} sum {total}")?))
}

/// The text of a field's value: its JSON without blanks.
pub(crate) fn json_text(
    alloc: Global,
    schema: &Schema,
    at: Step,
    value: &Value,
) -> Result<String, NoMemory>
    requires field { HasField schema.now at.model at.field }
    requires value { HasFieldType (field_at schema.now at.model at.field) value.now }
    ensures { IfOk result (λ text. IsJsonText value.now (string_bytes text)) }
{
    let json = to_json(alloc, schema, at.model, at.field, value)?;
    Ok(json.to_string(alloc)?)
}

/// The name of a model, empty where there is none of the number.
pub(crate) fn model_name(schema: &Schema, model: ModelNo) -> &str
    ensures { result.now ≡ model_name schema.now model }
{
    match schema.find_model(model) {
        Some(info) => info.name.as_str(),
        None => "",
    }
}

/// The name of a field, empty where there is none of the number.
pub(crate) fn field_name(schema: &Schema, model: ModelNo, field: FieldNo) -> &str
    ensures { result.now ≡ field_name schema.now model field }
{
    match schema.find_field(model, field) {
        Some(info) => info.name.as_str(),
        None => "",
    }
}
