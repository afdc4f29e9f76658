//! How refusals are told in replies, a name for programs and a message for people; and how a
//! cell is named.

ghost use Rattle.std.specs.Prelude.{◌≡◌, ◌++◌, codes, IfOk, string_bytes};
ghost use Rattle.ob_base.specs.Names.{op_name};
ghost use Rattle.ob_orm.specs.RefusalText.{cell_text, denial, field_name, model_name, refusal_message, refusal_name, row_text};

use ob_base::{Cell, FieldNo, ModelNo, NoMemory, Op, RecId, Refusal, Word};
use ob_schema::Schema;
use std::alloc::{AllocError, Global};

/// The name and the message by which a refusal is told. A model or a field that the registry
/// doesn't have is told by no name.
pub fn refusal_text(
    alloc: Global,
    schema: &Schema,
    refusal: &Refusal,
) -> Result<(Word, Word), NoMemory>
    ensures name { IfOk result (λ texts. texts.0 ≡ refusal_name refusal.now) }
    ensures message { IfOk result (λ texts. texts.1 ≡ refusal_message schema.now refusal.now) }
{
    let name = Word::new(name_of(alloc, refusal)?);
    let message = Word::new(message_of(alloc, schema, refusal)?);
    Ok((name, message))
}

/// A cell as it is named: the model, the id and the field, with a blank between two. A model or a
/// field that the registry doesn't have is told by no name.
pub fn cell_text(alloc: Global, schema: &Schema, cell: Cell) -> Result<Word, NoMemory>
    ensures { IfOk result (λ text. text ≡ cell_text schema.now cell) }
{
    Ok(Word::new(text_of_cell(alloc, schema, cell)?))
}

/// The name of a refusal.
fn name_of(alloc: Global, refusal: &Refusal) -> Result<String, AllocError>
    ensures { IfOk result (λ text. string_bytes text ≡ refusal_name refusal.now) }
{
    match refusal {
        Refusal::Request(_) => String::from_str(alloc, "Request"),
        Refusal::Right(_, _) => String::from_str(alloc, "Right"),
        Refusal::FieldRight(_, _) => String::from_str(alloc, "FieldRight"),
        Refusal::Missing(_, _) => String::from_str(alloc, "Missing"),
        Refusal::Rule(_, _, _, _) => String::from_str(alloc, "Rule"),
        Refusal::Constraint(broken) => format!(in alloc; "Constraint.{}", broken.kind.name()),
        Refusal::Keeper => String::from_str(alloc, "Keeper"),
        Refusal::NoMemory => String::from_str(alloc, "NoMemory"),
    }
}

/// The message of a refusal.
fn message_of(alloc: Global, schema: &Schema, refusal: &Refusal) -> Result<String, AllocError>
    ensures { IfOk result (λ text. string_bytes text ≡ refusal_message schema.now refusal.now) }
{
    match refusal {
        Refusal::Request(place) => format!(in alloc; "malformed at {place}"),
        Refusal::Right(model, op) => {
            let model = model_name(schema, *model);
            format!(in alloc; "no right {op} on {model}")
        }
        Refusal::FieldRight(model, field) => {
            let field = field_name(schema, *model, *field);
            let model = model_name(schema, *model);
            format!(in alloc; "no right on {model}.{field}")
        }
        Refusal::Missing(model, id) => {
            let (model, number) = (model_name(schema, *model), id.0);
            format!(in alloc; "{model} {number} does not exist")
        }
        Refusal::Rule(model, op, id, rule) => denial(alloc, schema, *model, *op, *id, rule),
        Refusal::Constraint(broken) => text_of_cell(alloc, schema, broken.cell),
        Refusal::Keeper => String::from_str(alloc, "keeper fault"),
        Refusal::NoMemory => String::from_str(alloc, "no memory"),
    }
}

/// That a row isn't admitted, and by which rule where that may be told.
fn denial(
    alloc: Global,
    schema: &Schema,
    model: ModelNo,
    op: Op,
    id: RecId,
    rule: &Option<Word>,
) -> Result<String, AllocError>
    ensures { IfOk result (λ text. string_bytes text
        ≡ row_text schema.now model id ++ codes " is not admitted" ++ denial rule.now (op_name op)) }
{
    let (model, number) = (model_name(schema, model), id.0);
    match rule {
        None => format!(in alloc; "{model} {number} is not admitted"),
        Some(rule) => format!(in alloc; "{model} {number} is not admitted by {rule} for {op}"),
    }
}

/// The text of a cell.
fn text_of_cell(alloc: Global, schema: &Schema, cell: Cell) -> Result<String, AllocError>
    ensures { IfOk result (λ text. string_bytes text ≡ cell_text schema.now cell) }
{
    let (model, number) = (model_name(schema, cell.model), cell.id.0);
    let field = field_name(schema, cell.model, cell.field);
    format!(in alloc; "{model} {number} {field}")
}

/// The name of a model, empty where there is none of the number.
fn model_name(schema: &Schema, model: ModelNo) -> &str
    ensures { result.now ≡ model_name schema.now model }
{
    match schema.find_model(model) {
        Some(info) => info.name.as_str(),
        None => "",
    }
}

/// The name of a field, empty where there is none of the number.
fn field_name(schema: &Schema, model: ModelNo, field: FieldNo) -> &str
    ensures { result.now ≡ field_name schema.now model field }
{
    match schema.find_field(model, field) {
        Some(info) => info.name.as_str(),
        None => "",
    }
}
