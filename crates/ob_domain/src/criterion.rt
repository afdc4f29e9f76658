//! What each operator makes of its operand on a field: the table of which fits which. An
//! operator that is added gets its arm here, and its line in `specs/Criteria`.

ghost use Rattle.std.specs.Prelude.{◌≡◌, ◌++◌, ◌∷◌, [], IfOk, IfSome};
ghost use Rattle.serde_json.specs.View.{view};
ghost use Rattle.ob_schema.specs.Models.{HasField, HasModel, field_at};
ghost use Rattle.ob_domain.specs.Criteria.{compared_from, criterion_item, is_ordered, is_text, is_nothing, path_field, paths_at, pattern_of, test_from};
ghost use Rattle.ob_domain.specs.Over.{IsItemOver, IsTestOver, IsTreeOver};
ghost use Rattle.ob_domain.specs.Patterns.{any_run, pattern_from};
ghost use Rattle.ob_domain.specs.Places.{IsResult};
ghost use Rattle.ob_domain.specs.Trees.{item_of};

use crate::Json;
use crate::aim::target_of;
use crate::fault::Unfit;
use crate::operand::{Second, nodes_of, operands_of, single, whole_operand};
use crate::operator::{Comparison, Likeness, Operator, Sense};
use crate::pattern::folded_characters;
use crate::term::{Operand, Pattern, Term, Test};
use ob_base::{ModelNo, NoMemory, Sequence};
use ob_schema::{FieldInfo, FieldType, Origin, Schema, Step};
use std::alloc::Global;

/// The field that has the path of a row in its tree.
const PATH_FIELD: &str = "parent_path";

/// The term of an operator with its operand on a field. `any` takes a domain, and is read
/// with it.
pub(crate) fn criterion_of(
    alloc: Global,
    schema: &Schema,
    at: Step,
    sense: Sense,
    operator: Operator,
    json: &Json,
) -> Result<Term, Unfit>
    requires { HasField schema.now at.model at.field }
    ensures told { IsResult item_of result (criterion_item schema.now at sense operator (view json.now)) }
    ensures over { IfOk result (λ term. IsItemOver schema.now at.model (item_of term)) }
{
    let test = test_of(alloc, schema, at, operator, json)?;
    Ok(Term::Criterion(sense, at.field, test))
}

/// What an operator with its operand asks of a field.
fn test_of(
    alloc: Global,
    schema: &Schema,
    at: Step,
    operator: Operator,
    json: &Json,
) -> Result<Test, Unfit>
    requires { HasField schema.now at.model at.field }
    ensures told { IfSome (field_at schema.now at.model at.field)
        (λ field. IsResult (λ test. test) result (test_from schema.now at field operator (view json.now))) }
    ensures over { IfOk result (IsTestOver schema.now) }
{
    let field = schema.info(at.model, at.field);
    match operator {
        Operator::EqualIfSet if is_nothing(json) => Ok(Test::Always),
        Operator::Equal | Operator::EqualIfSet => {
            let operand = whole_operand(alloc, field, Second::First, json)?;
            Ok(Test::OneOf(single(alloc, operand)?))
        }
        Operator::In => Ok(Test::OneOf(operands_of(alloc, field, json)?)),
        Operator::Compares(comparison) => {
            let operand = compared(alloc, field, comparison, json)?;
            Ok(Test::Compares(comparison, operand))
        }
        Operator::Like(likeness) => { Ok(Test::Matches(pattern_of(alloc, field, likeness, json)?)) }
        Operator::ChildOf => {
            let paths = paths_at(schema, at)?;
            Ok(Test::ChildOf(paths, nodes_of(alloc, json)?))
        }
        Operator::ParentOf => {
            let paths = paths_at(schema, at)?;
            Ok(Test::ParentOf(paths, nodes_of(alloc, json)?))
        }
        Operator::Any => Err(Unfit::Operator),
    }
}

/// Whether JSON is `false` or `null`.
fn is_nothing(json: &Json) -> bool
    ensures { result ≡ is_nothing (view json.now) }
{
    matches!(json, Json::Null | Json::Bool(false))
}

/// The operand with which a field's values are compared.
fn compared(
    alloc: Global,
    field: &FieldInfo,
    comparison: Comparison,
    json: &Json,
) -> Result<Operand, Unfit>
    ensures { IsResult (λ o. o) result (compared_from field.now comparison (view json.now)) }
{
    if !is_ordered(field.field_type) {
        return Err(Unfit::Operator);
    }
    let second = match comparison {
        Comparison::Greater | Comparison::LessOrEqual => Second::Last,
        Comparison::Less | Comparison::GreaterOrEqual => Second::First,
    };
    whole_operand(alloc, field, second, json)
}

/// Whether values of a type are compared by size.
fn is_ordered(field_type: FieldType) -> bool
    ensures { result ≡ is_ordered field_type }
{
    !field_type.is_relation() && !matches!(field_type, FieldType::Boolean)
}

/// Whether values of a type are texts.
fn is_text(field_type: FieldType) -> bool
    ensures { result ≡ is_text field_type }
{
    matches!(
        field_type,
        FieldType::Char | FieldType::Text | FieldType::Selection
    )
}

/// The pattern that a text is.
fn pattern_of(
    alloc: Global,
    field: &FieldInfo,
    likeness: Likeness,
    json: &Json,
) -> Result<Pattern, Unfit>
    ensures { IsResult (λ pattern. pattern) result (pattern_of field.now likeness (view json.now)) }
{
    if !is_text(field.field_type) {
        return Err(Unfit::Operator);
    }
    match json {
        Json::String(text) => Ok(pattern_from(alloc, likeness, text.as_str())?),
        _ => Err(Unfit::Operand),
    }
}

/// The pattern of a text: between runs where it may stand anywhere, and folded where case
/// makes no difference.
fn pattern_from(alloc: Global, likeness: Likeness, text: &str) -> Result<Pattern, NoMemory>
    ensures { IfOk result (λ pattern. pattern ≡ pattern_from likeness text.now) }
{
    let mut characters = folded_characters(alloc, likeness.folds, text)?;
    if likeness.anywhere {
        characters = between_runs(alloc, characters.as_slice())?;
    }
    Ok(Pattern {
        characters: Sequence::from_vec(characters),
        folds: likeness.folds,
    })
}

/// The characters between two runs.
fn between_runs(alloc: Global, characters: &[char]) -> Result<Vec<char>, NoMemory>
    ensures { IfOk result (λ pattern. pattern.items ≡ any_run ∷ characters.now ++ any_run ∷ []) }
{
    let mut pattern = Vec::new(alloc);
    pattern.push('%')?;
    pattern.extend_from_slice(characters)?;
    pattern.push('%')?;
    Ok(pattern)
}

/// The field with the paths of the tree in which a field names rows: the model's own by `id`,
/// a relation's by the relation.
fn paths_at(schema: &Schema, at: Step) -> Result<Step, Unfit>
    requires { HasField schema.now at.model at.field }
    ensures told { IfSome (field_at schema.now at.model at.field)
        (λ field. IsResult (λ step. step) result (paths_at schema.now at field)) }
    ensures over { IfOk result (IsTreeOver schema.now) }
{
    if let Origin::Id = &schema.info(at.model, at.field).origin {
        return path_field(schema, at.model);
    }
    match target_of(schema, at) {
        Some(target) => path_field(schema, target),
        None => Err(Unfit::NoTree),
    }
}

/// The field with the paths of a model's tree.
fn path_field(schema: &Schema, model: ModelNo) -> Result<Step, Unfit>
    requires { HasModel schema.now model }
    ensures told { IsResult (λ step. step) result (path_field schema.now model) }
    ensures over { IfOk result (IsTreeOver schema.now) }
{
    if schema.model_info(model).parent.is_none() {
        return Err(Unfit::NoTree);
    }
    match schema.field(model, PATH_FIELD) {
        Some(field) => Ok(Step { model, field }),
        None => Err(Unfit::NoTree),
    }
}
