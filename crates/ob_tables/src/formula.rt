//! What a formula gives one cell, over reads that are lent: one evaluation, whose value its
//! field can hold. It evaluates nothing else; whoever holds values by other means than tables
//! reads and counts through it too.

ghost use Rattle.std.specs.Prelude.{◌≡◌, IfErr, IfOk, Ok};
ghost use Rattle.ob_base.specs.Tally.{ticked};
ghost use Rattle.ob_base.specs.declared.id.Cell.{Cell};
ghost use Rattle.ob_expr.specs.Kinds.{HasKind};
ghost use Rattle.ob_expr.specs.Meaning.{meaning, row_of};
ghost use Rattle.ob_expr.specs.Outcome.{IsEvalFault};
ghost use Rattle.ob_expr.specs.Reads.{HoldsKinds, MayRead};
ghost use Rattle.ob_expr.specs.TypedTree.{IsWellKinded, kind_of, typed_tree_of};
ghost use Rattle.ob_schema.specs.Limited.{is_short, limited, text_limit};

use ob_base::limits::{MAX_CHAR_BYTES, MAX_TEXT_BYTES};
use ob_base::{Cell, Ledger, Steps, Value};
use ob_expr::{EvalFault, Reads, eval};
use ob_schema::{FieldInfo, FieldType, Formula};
use std::alloc::Global;

/// The value that a formula gives a cell of a field, or why it gives none: by its own doing, also
/// where the text that it means is too long for the field; since a read failed; or for want of
/// memory. It ticks once, whatever it gives.
pub fn formula_value<R: Reads, L: Ledger>(
    alloc: Global,
    info: &FieldInfo,
    formula: &Formula,
    cell: Cell,
    reads: &mut R,
    steps: &mut Steps<L>,
) -> Result<Value, EvalFault<R::Fault>>
    requires kinded { IsWellKinded (typed_tree_of formula.now.typed) }
    requires readable { MayRead (R.held reads.old) (R.can_read reads.old) (row_of cell) (typed_tree_of formula.now.typed) }
    requires held { HoldsKinds (R.held reads.old) cell.model (typed_tree_of formula.now.typed) }

    ensures value { IfOk result (λ value. limited info.now.field_type
        (meaning (R.held reads.old) (row_of cell) (typed_tree_of formula.now.typed)) ≡ Ok value) }
    ensures kind { IfOk result (HasKind (kind_of (typed_tree_of formula.now.typed))) }
    ensures fault { IfErr result (IsEvalFault (R.has_failed reads.new) (R.held reads.old)
        (limited info.now.field_type (meaning (R.held reads.old) (row_of cell) (typed_tree_of formula.now.typed)))) }

    ensures ticked { steps.new ≡ ticked L.noted steps.old }
    ensures kept { R.held reads.new ≡ R.held reads.old }
    ensures readable { (c : Cell) → R.can_read reads.old c → R.can_read reads.new c }
{
    let value = eval(alloc, &formula.typed, cell, reads, steps)?.into_value();
    if is_short(text_limit(info.field_type), &value) {
        Ok(value)
    } else {
        Err(EvalFault::TooLong)
    }
}

/// Whether a value is no text of more bytes than this.
fn is_short(limit: usize, value: &Value) -> bool
    ensures { result ≡ is_short limit value.now }
{
    match value {
        Value::Word(text) => text.as_str().len() <= limit,
        _ => true,
    }
}

/// How many bytes a text of the type may have.
fn text_limit(field_type: FieldType) -> usize
    ensures { result ≡ text_limit field_type }
{
    match field_type {
        FieldType::Text => MAX_TEXT_BYTES,
        _ => MAX_CHAR_BYTES,
    }
}
