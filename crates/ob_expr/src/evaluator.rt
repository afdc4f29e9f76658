//! Evaluation of a checked expression over cells that are there already. Each
//! evaluation is one step of the counter, and a part is read only where the parts
//! before it have a value and don't decide. A new form of the tree gets its value here and
//! in `specs/Meaning`, and what it may read in `specs/Reads`.

ghost use Rattle.std.specs.Prelude.{◌≡◌, IfOk, IfErr, Ok, Option, Some, IsOk};
ghost use Rattle.ob_base.specs.Tally.{ticked};
ghost use Rattle.ob_base.specs.declared.id.Cell.{Cell};
ghost use Rattle.ob_base.specs.declared.value.Value.{Value};
ghost use Rattle.ob_expr.specs.TypedTree.{IsWellKinded, TypedTree, kind_of, typed_tree_of};
ghost use Rattle.ob_expr.specs.ValueKinds.{GivesItsKind};
ghost use Rattle.ob_expr.specs.Chain.{each};
ghost use Rattle.ob_expr.specs.Kinds.{HasKind};
ghost use Rattle.ob_expr.specs.Meaning.{ids_of, meaning, path_value, row_at, row_of};
ghost use Rattle.ob_expr.specs.Outcome.{IsEvalFault};
ghost use Rattle.ob_expr.specs.Reads.{ComesToPaths, EachInTurn, GivesCellsValues, HoldsKinds, LacksAlongPaths, MayRead, MayReadPath, ReadsAlongPaths};
ghost use Rattle.ob_expr.specs.Told.{TellsRead};

use crate::computing::{
    chosen, decides, digits, empty_value, fitted, gathered, is_true, joined, operated, prefixed,
};
use crate::fault::EvalFault;
use crate::row::Row;
use crate::typed::{Path, Typed};
use ob_base::{Cell, Ledger, ModelNo, RecId, Steps, Value};
use std::alloc::Global;
use std::marker::Model;

/// The cells that an expression reads. What a cell holds is there already: reading it
/// evaluates nothing.
pub trait Reads {
    type Fault;

    /// What each cell holds; none where it has no value.
    ghost held: { Self → Cell → Option Value };

    /// The cells that may be read.
    ghost can_read: { Self → Cell → Type 0 };

    /// What is known of the reads after a fault at a cell.
    ghost has_failed: { Self → Self.Fault → Cell → Type 0 };

    /// Reads a cell. No cell changes by it.
    fn value(&mut self, cell: Cell) -> Result<Value, Self::Fault>
        requires { can_read self.old cell }
        ensures value { IfOk result (λ value. held self.old cell ≡ Some value) }
        ensures failed { IfErr result (λ fault. has_failed self.new fault cell) }
        ensures kept { held self.new ≡ held self.old }
        ensures readable { (c : Cell) → can_read self.old c → can_read self.new c };
}

/// A value that was evaluated for a cell. Only `eval` makes one.
#[derive(Debug, Drop)]
pub struct Fresh {
    cell: Cell,
    value: Value,
}

impl Model for Fresh {
    ghost use Rattle.ob_expr.specs.Computed.{Computed};

    ghost Value = { Computed };

    ghost view = { λ fresh. record { cell = fresh.cell; value = fresh.value } };
}

impl Fresh {
    pub fn cell(&self) -> Cell
        ensures { result ≡ self.now.cell }
    {
        self.cell
    }

    pub fn value(&self) -> &Value
        ensures { result.now ≡ self.now.value }
    {
        &self.value
    }

    pub fn into_value(self) -> Value
        ensures { result ≡ self.value }
    {
        self.value
    }
}

/// Evaluates a checked expression for a cell, over the cells along its paths from the
/// cell's row. It ticks once, before it reads. The first fault is told, operands from the left.
pub fn eval<R: Reads, L: Ledger>(
    alloc: Global,
    typed: &Typed,
    cell: Cell,
    reads: &mut R,
    steps: &mut Steps<L>,
) -> Result<Fresh, EvalFault<R::Fault>>
    requires kinded { IsWellKinded (typed_tree_of typed.now) }
    requires readable { MayRead (R.held reads.old) (R.can_read reads.old) (row_of cell) (typed_tree_of typed.now) }
    requires held { HoldsKinds (R.held reads.old) cell.model (typed_tree_of typed.now) }

    ensures cell { IfOk result (λ fresh. fresh.cell ≡ cell) }
    ensures value { IfOk result
        (λ fresh. meaning (R.held reads.old) (row_of cell) (typed_tree_of typed.now) ≡ Ok fresh.value) }
    ensures kind { IfOk result (λ fresh. HasKind (kind_of (typed_tree_of typed.now)) fresh.value) }
    ensures fault { IfErr result
        (IsEvalFault (R.has_failed reads.new) (R.held reads.old)
        (meaning (R.held reads.old) (row_of cell) (typed_tree_of typed.now))) }

    ensures ticked { steps.new ≡ ticked L.noted steps.old }
    ensures kept { R.held reads.new ≡ R.held reads.old }
    ensures readable { (c : Cell) → R.can_read reads.old c → R.can_read reads.new c }
{
    steps.tick();
    let value = value_in(alloc, typed, Row::of(cell), reads)?;
    Ok(Fresh { cell, value })
}

/// What an expression means depends on the cells along its paths alone, an evaluation comes
/// to no others, and the unread cell that an expression lacks is one of them without a value.
pub fn reads_along_paths()
    ensures meaning { (tree : TypedTree) → ReadsAlongPaths tree }
    ensures reads { (tree : TypedTree) → ComesToPaths tree }
    ensures lacks { (tree : TypedTree) → LacksAlongPaths tree }
{}

/// What an expression means is what a cell holds, or what operators make: so a day, a
/// moment and a reference are always a cell's.
pub fn values_from_cells()
    ensures { (tree : TypedTree) → GivesCellsValues tree }
{}

/// What a well kinded expression means is of its kind, where the fields along its paths hold
/// values of theirs.
pub fn values_of_kinds()
    ensures { (tree : TypedTree) → GivesItsKind tree }
{}

/// The value of an expression in a row.
#[cycle(values)]
fn value_in<R: Reads>(
    alloc: Global,
    typed: &Typed,
    row: Row,
    reads: &mut R,
) -> Result<Value, EvalFault<R::Fault>>
    requires { MayRead (R.held reads.old) (R.can_read reads.old) row (typed_tree_of typed.now) }
    ensures told { TellsRead (R.has_failed reads.new) (R.held reads.old) (λ v. v) result (meaning (R.held reads.old) row (typed_tree_of typed.now)) }
    ensures kept { R.held reads.new ≡ R.held reads.old }
    ensures readable { (c : Cell) → R.can_read reads.old c → R.can_read reads.new c }
{
    match typed {
        Typed::Id => fitted(row.id.0 as i128),
        Typed::Integer(number) => Ok(Value::Int(*number)),
        Typed::Text(text) => Ok(Value::Word(text.try_clone(alloc)?)),
        Typed::Truth(flag) => Ok(Value::Bool(*flag)),
        Typed::Unset(_) => Ok(Value::Nil),
        Typed::Path(path) => path_value(alloc, path, row, reads),
        Typed::Prefix(prefix, inner) => prefixed(*prefix, &value_in(alloc, inner, row, reads)?),
        Typed::Binary(operator, left, right) => {
            let left = value_in(alloc, left, row, reads)?;
            if decides(*operator, &left) {
                return Ok(left);
            }
            let right = value_in(alloc, right, row, reads)?;
            operated(*operator, left, right)
        }
        Typed::Chosen(which, left, right) => {
            let left = value_in(alloc, left, row, reads)?;
            let right = value_in(alloc, right, row, reads)?;
            Ok(chosen(*which, left, right))
        }
        Typed::If(condition, first, second) => {
            let condition = value_in(alloc, condition, row, reads)?;
            if is_true(&condition) {
                value_in(alloc, first, row, reads)
            } else {
                value_in(alloc, second, row, reads)
            }
        }
        Typed::Joined(parts) => joined(alloc, &values_of(alloc, parts, row, reads)?),
        Typed::Digits(inner) => digits(alloc, &value_in(alloc, inner, row, reads)?),
        Typed::Over(aggregate, path, target, inner) => {
            let targets = path_value(alloc, path, row, reads)?;
            let values = values_at(alloc, inner, *target, ids_of(&targets), reads)?;
            gathered(alloc, *aggregate, inner.kind(), values)
        }
    }
}

/// The values of parts in a row, in their turn.
#[cycle(values)]
fn values_of<R: Reads>(
    alloc: Global,
    parts: &[Typed],
    row: Row,
    reads: &mut R,
) -> Result<Vec<Value>, EvalFault<R::Fault>>
    requires { EachInTurn (λ part. IsOk (meaning (R.held reads.old) row (typed_tree_of part))) (λ part. MayRead (R.held reads.old) (R.can_read reads.old) row (typed_tree_of part)) parts.now }
    ensures told { TellsRead (R.has_failed reads.new) (R.held reads.old) (λ vs. vs.items) result (each (λ part. meaning (R.held reads.old) row (typed_tree_of part)) parts.now) }
    ensures kept { R.held reads.new ≡ R.held reads.old }
    ensures readable { (c : Cell) → R.can_read reads.old c → R.can_read reads.new c }
{
    let mut values = Vec::new(alloc);
    for part in parts {
        values.push(value_in(alloc, part, row, reads)?)?;
    }
    Ok(values)
}

/// The values of an expression in rows of a model, in their turn.
#[cycle(values)]
fn values_at<R: Reads>(
    alloc: Global,
    typed: &Typed,
    model: ModelNo,
    ids: &[RecId],
    reads: &mut R,
) -> Result<Vec<Value>, EvalFault<R::Fault>>
    requires { EachInTurn (λ id. IsOk (meaning (R.held reads.old) (row_at model id) (typed_tree_of typed.now))) (λ id. MayRead (R.held reads.old) (R.can_read reads.old) (row_at model id) (typed_tree_of typed.now)) ids.now }
    ensures told { TellsRead (R.has_failed reads.new) (R.held reads.old) (λ vs. vs.items) result (each (λ id. meaning (R.held reads.old) (row_at model id) (typed_tree_of typed.now)) ids.now) }
    ensures kept { R.held reads.new ≡ R.held reads.old }
    ensures readable { (c : Cell) → R.can_read reads.old c → R.can_read reads.new c }
{
    let mut values = Vec::new(alloc);
    for id in ids {
        let row = Row { model, id: *id };
        values.push(value_in(alloc, typed, row, reads)?)?;
    }
    Ok(values)
}

/// The value at the end of a path; behind an unset step stands nothing.
fn path_value<R: Reads>(
    alloc: Global,
    path: &Path,
    row: Row,
    reads: &mut R,
) -> Result<Value, EvalFault<R::Fault>>
    requires { MayReadPath (R.held reads.old) (R.can_read reads.old) row path.now.links path.now.field }
    ensures told { TellsRead (R.has_failed reads.new) (R.held reads.old) (λ v. v) result (path_value (R.held reads.old) row path.now) }
    ensures kept { R.held reads.new ≡ R.held reads.old }
    ensures readable { (c : Cell) → R.can_read reads.old c → R.can_read reads.new c }
{
    let mut row = row;
    for link in path.links() {
        let step = reads.value(row.cell(link.field)).map_err(EvalFault::Read)?;
        let Value::Ref(id) = step else {
            return Ok(empty_value(alloc, path.kind()));
        };
        row = Row {
            model: link.target,
            id,
        };
    }
    reads.value(row.cell(path.field())).map_err(EvalFault::Read)
}

/// The rows that a list names.
fn ids_of(value: &Value) -> &[RecId]
    ensures { result.now ≡ ids_of value.now }
{
    match value {
        Value::Refs(ids) => ids.as_slice(),
        _ => &[],
    }
}
