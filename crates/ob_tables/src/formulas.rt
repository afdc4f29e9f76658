//! What formulas break: a computed cell whose own formula has no value, and a check that is
//! false. Each formula is evaluated once.

ghost use Rattle.std.specs.Prelude.{◌≡◌, ◌↔◌, IsSome, IsSomeAnd, IsTrue, OnOk, false};
ghost use Rattle.ob_base.specs.declared.value.Value.TheVariants as values;
ghost use Rattle.ob_schema.specs.Models.{HasModel, field_at, model_at};
ghost use Rattle.ob_schema.specs.Checks.{IsCheck};
ghost use Rattle.ob_tables.specs.Finding.{Anywhere, BreaksIn, Finds, Is, IsIn, IsOf, broken_by, is_of_formulas};
ghost use Rattle.ob_tables.specs.Settling.{AreOutcomes, IsOutcomeOf};
ghost use Rattle.ob_schema.specs.Tables.{ids_in, row_at};
ghost use Rattle.ob_schema.specs.Tied.{IsTied};

use crate::findings::{Findings, add_if};
use crate::outcome::{Outcome, Outcomes, Reason};
use crate::reading::Given;
use crate::tables::Tables;
use ob_base::limits::MAX_MODELS;
use ob_base::{BrokenKind, Cell, FieldNo, ModelNo, NoMemory, RecId, Value};
use std::collections::BTreeMap;

/// Finds what formulas break, where rows can be followed.
pub(crate) fn find_in_formulas(tables: &Tables<'_>, findings: &mut Findings) -> Result<(), NoMemory>
    requires { IsTied tables.now.models tables.now.tables }
    ensures { OnOk result (Finds (BreaksIn tables.now.models tables.now.tables is_of_formulas Anywhere) findings.old findings.new) }
{
    tables.fit_together();
    let given = Given::of(tables);
    let mut outcomes = BTreeMap::new(tables.alloc);
    for place in 0..MAX_MODELS {
        find_in_model(&given, &mut outcomes, ModelNo(place as u16 + 1), findings)?;
    }
    Ok(())
}

/// Finds what the formulas of a model break, if it is there.
fn find_in_model(
    given: &Given<'_, '_>,
    outcomes: &mut Outcomes,
    model: ModelNo,
    findings: &mut Findings,
) -> Result<(), NoMemory>
    requires tied { IsTied given.now.tables.now.models given.now.tables.now.tables }
    requires right { AreOutcomes given.now.tables.now.models given.now.tables.now.tables outcomes.old }
    ensures right { OnOk result (AreOutcomes given.now.tables.now.models given.now.tables.now.tables outcomes.new) }
    ensures found { OnOk result (Finds (BreaksIn given.now.tables.now.models given.now.tables.now.tables is_of_formulas (IsOf model)) findings.old findings.new) }
{
    let tables = given.tables;
    tables.fit_together();
    let Some(info) = tables.schema.find_model(model) else {
        return Ok(());
    };
    let ids = tables.ids(model)?;
    for place in 0..info.fields.len() + info.hidden.len() {
        let number = FieldNo(place as u16 + 1);
        find_in_column(given, outcomes, model, number, ids.as_slice(), findings)?;
    }
    Ok(())
}

/// Finds what the formula of a field breaks, if it has one.
fn find_in_column(
    given: &Given<'_, '_>,
    outcomes: &mut Outcomes,
    model: ModelNo,
    number: FieldNo,
    ids: &[RecId],
    findings: &mut Findings,
) -> Result<(), NoMemory>
    requires model { HasModel given.now.tables.now.models model }
    requires ids { ids.now ≡ ids_in given.now.tables.now.tables model }
    requires tied { IsTied given.now.tables.now.models given.now.tables.now.tables }
    requires right { AreOutcomes given.now.tables.now.models given.now.tables.now.tables outcomes.old }
    ensures right { OnOk result (AreOutcomes given.now.tables.now.models given.now.tables.now.tables outcomes.new) }
    ensures found { OnOk result (Finds (BreaksIn given.now.tables.now.models given.now.tables.now.tables is_of_formulas (IsIn model number)) findings.old findings.new) }
{
    for id in ids {
        let cell = Cell {
            model,
            id: *id,
            field: number,
        };
        find_in_cell(given, outcomes, cell, findings)?;
    }
    Ok(())
}

/// Finds what the formula of a cell breaks, if it has one.
fn find_in_cell(
    given: &Given<'_, '_>,
    outcomes: &mut Outcomes,
    cell: Cell,
    findings: &mut Findings,
) -> Result<(), NoMemory>
    requires row { IsSome (row_at given.now.tables.now.tables cell.model cell.id) }
    requires tied { IsTied given.now.tables.now.models given.now.tables.now.tables }
    requires right { AreOutcomes given.now.tables.now.models given.now.tables.now.tables outcomes.old }
    ensures right { OnOk result (AreOutcomes given.now.tables.now.models given.now.tables.now.tables outcomes.new) }
    ensures found { OnOk result (Finds (BreaksIn given.now.tables.now.models given.now.tables.now.tables is_of_formulas (Is cell)) findings.old findings.new) }
{
    given.laws();
    given.settle(outcomes, cell)?;
    let Some(outcome) = outcomes.get(&cell) else {
        return Ok(());
    };
    find_in_outcome(given, cell, outcome, findings);
    Ok(())
}

/// Finds what the outcome of a cell's formula breaks.
fn find_in_outcome(given: &Given<'_, '_>, cell: Cell, outcome: &Outcome, findings: &mut Findings)
    requires tied { IsTied given.now.tables.now.models given.now.tables.now.tables }
    requires outcome { IsOutcomeOf given.now.tables.now.models given.now.tables.now.tables cell outcome.now }
    ensures { Finds (BreaksIn given.now.tables.now.models given.now.tables.now.tables is_of_formulas (Is cell)) findings.old findings.new }
{
    given.laws();
    match outcome {
        Outcome::Own(reason) => add_if(findings, true, broken_by(*reason), cell),
        Outcome::Value(value) => {
            let is_broken = is_false_check(given.tables, cell, value);
            add_if(findings, is_broken, BrokenKind::Check, cell);
        }
        Outcome::Inherited(_) => {}
    }
}

/// What a cell breaks whose own formula has no value for this reason.
fn broken_by(reason: Reason) -> BrokenKind
    ensures { result ≡ broken_by reason }
{
    match reason {
        Reason::Overflow => BrokenKind::Overflow,
        Reason::TooLong => BrokenKind::TooLong,
        Reason::ZeroDivisor => BrokenKind::ZeroDivisor,
    }
}

/// Whether a value is that of a check which is false.
fn is_false_check(tables: &Tables<'_>, cell: Cell, value: &Value) -> bool
    ensures { IsTrue result ↔ ((value.now ≡ values.Bool false) × IsSomeAnd (model_at tables.now.models cell.model)
        (λ info. IsSomeAnd (field_at tables.now.models cell.model cell.field) (IsCheck info cell.field))) }
{
    is_false(value) && is_check(tables, cell)
}

fn is_false(value: &Value) -> bool
    ensures { IsTrue result ↔ (value.now ≡ values.Bool false) }
{
    match value {
        Value::Bool(flag) => !*flag,
        _ => false,
    }
}

/// Whether a cell is that of a check.
fn is_check(tables: &Tables<'_>, cell: Cell) -> bool
    ensures { IsTrue result ↔ IsSomeAnd (model_at tables.now.models cell.model)
        (λ info. IsSomeAnd (field_at tables.now.models cell.model cell.field) (IsCheck info cell.field)) }
{
    let schema = tables.schema;
    let (Some(info), Some(field)) = (
        schema.find_model(cell.model),
        schema.find_field(cell.model, cell.field),
    ) else {
        return false;
    };
    usize::from(cell.field.0) > info.fields.len() && field.name.as_str() != "locked"
}
