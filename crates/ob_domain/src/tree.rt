//! Where rows stand in a tree. A row's path has the ids of the rows above it, from the root
//! on, and its own, each with a slash behind it.

ghost use Rattle.std.specs.Prelude.{◌≡◌, ◌==◌, ◌&&◌, IfErr, IfOk, decimal, map, string_bytes};
ghost use Rattle.std.specs.List.{list_any};
ghost use Rattle.ob_expr.specs.Meaning.{cell_in, row_at};
ghost use Rattle.ob_schema.specs.Facts.{Asked, FailedBehind, OfAllTold};
ghost use Rattle.ob_domain.specs.Holding.{IsHoldFault, some_below};
ghost use Rattle.ob_domain.specs.Over.{IsTreeOver};
ghost use Rattle.ob_domain.specs.Passing.{is_part, part_of_path, rows_named, targets_of};

use crate::asked::{Row, is_known, value_in};
use crate::fault::HoldFault;
use crate::term::Operand;
use ob_base::{NoMemory, RecId, Value};
use ob_schema::{Facts, Step};
use std::alloc::Global;

/// The rows that a value names; an id names its own row.
pub(crate) fn targets_of(alloc: Global, value: &Value) -> Result<Vec<RecId>, NoMemory>
    ensures { IfOk result (λ ids. ids.items ≡ targets_of value.now) }
{
    let mut ids = Vec::new(alloc);
    match value {
        Value::Ref(id) => ids.push(*id)?,
        Value::Refs(list) => ids.extend_from_slice(list.as_slice())?,
        Value::Int(number) => if let Ok(id) = u64::try_from(*number) {
            ids.push(RecId(id))?;
        },
        _ => {}
    }
    Ok(ids)
}

/// The rows that operands name.
pub(crate) fn rows_named(
    alloc: Global,
    operands: &[Operand],
    user: RecId,
) -> Result<Vec<RecId>, NoMemory>
    ensures { IfOk result (λ ids. ids.items ≡ rows_named user operands.now) }
{
    let mut ids = Vec::new(alloc);
    for operand in operands {
        match operand {
            Operand::User => ids.push(user)?,
            Operand::Value(value) => {
                ids.extend_from_slice(targets_of(alloc, value)?.as_slice())?;
            }
        }
    }
    Ok(ids)
}

/// Whether one of some rows that are known stands below one of others, or is one.
pub(crate) fn some_below<F: Facts>(
    alloc: Global,
    paths: Step,
    uppers: &[RecId],
    lowers: &[RecId],
    facts: &mut F,
) -> Result<bool, HoldFault<F::Fault>>
    requires { IsTreeOver (F.registry facts.old) paths }
    ensures told { IfOk result (λ b. OfAllTold (F.tells facts.old) (λ told. b ≡ some_below told paths uppers.now lowers.now)) }
    ensures fault { IfErr result (IsHoldFault (FailedBehind F.asks F.has_failed facts.old facts.new)) }
    ensures asked { Asked F.asks facts.old facts.new }
    ensures same { F.registry facts.new ≡ F.registry facts.old }
    ensures kept { OfAllTold (F.tells facts.old) (F.tells facts.new) }
    ensures only { OfAllTold (F.tells facts.new) (F.tells facts.old) }
{
    let texts = texts_of(alloc, uppers)?;
    for lower in lowers {
        if stands_below(paths, texts.as_slice(), *lower, facts)? {
            return Ok(true);
        }
    }
    Ok(false)
}

/// Whether a row is known, and has one of these in its path.
fn stands_below<F: Facts>(
    paths: Step,
    texts: &[String],
    id: RecId,
    facts: &mut F,
) -> Result<bool, HoldFault<F::Fault>>
    requires { IsTreeOver (F.registry facts.old) paths }
    ensures told { IfOk result (λ b. OfAllTold (F.tells facts.old) (λ told. b ≡ (told.knows paths.model id
        && list_any (λ text. part_of_path (string_bytes text) (told.held (cell_in (row_at paths.model id) paths.field))) texts.now))) }
    ensures fault { IfErr result (IsHoldFault (FailedBehind F.asks F.has_failed facts.old facts.new)) }
    ensures asked { Asked F.asks facts.old facts.new }
    ensures same { F.registry facts.new ≡ F.registry facts.old }
    ensures kept { OfAllTold (F.tells facts.old) (F.tells facts.new) }
    ensures only { OfAllTold (F.tells facts.new) (F.tells facts.old) }
{
    let row = Row {
        model: paths.model,
        id,
    };
    if !is_known(row, facts)? {
        return Ok(false);
    }
    let path = value_in(row, paths.field, facts)?;
    Ok(is_in_path(texts, &path))
}

/// The digits of ids.
fn texts_of(alloc: Global, ids: &[RecId]) -> Result<Vec<String>, NoMemory>
    ensures { IfOk result (λ texts. map string_bytes texts.items ≡ map (λ id. decimal id.0) ids.now) }
{
    let mut texts = Vec::new(alloc);
    for id in ids {
        texts.push(format!(in alloc; "{}", id.0)?)?;
    }
    Ok(texts)
}

/// Whether one of these stands in a path.
fn is_in_path(texts: &[String], path: &Value) -> bool
    ensures { result ≡ list_any (λ text. part_of_path (string_bytes text) path.now) texts.now }
{
    let Value::Word(path) = path else {
        return false;
    };
    texts
        .iter()
        .any(|text| is_part(text.as_str(), path.as_str()))
}

/// Whether a text is one of the parts of a path.
fn is_part(text: &str, path: &str) -> bool
    ensures { result ≡ is_part text.now path.now }
{
    path.split('/').any(|part| part == text)
}
