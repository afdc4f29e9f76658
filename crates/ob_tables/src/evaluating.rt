//! Values from scratch. Each formula is evaluated at most once, after all that stands at
//! the ends of its paths.

ghost use Rattle.std.specs.Prelude.{◌≡◌, ◌≤◌, ◌*◌, ◌+◌, ℕ, All, Err, IfErr, IfOk, IsSome, IsSomeAnd, List, Ok, OnOk, Some, true, false};
ghost use Rattle.std.specs.BTreeMap as tree;
ghost use Rattle.std.specs.FinMap.{IsAntisymmetric};
ghost use Rattle.ob_base.specs.BrokenOrder.{cell_order};
ghost use Rattle.ob_base.specs.declared.id.Cell.{Cell};
ghost use Rattle.ob_expr.specs.Meaning.{row_of};
ghost use Rattle.ob_expr.specs.Reads.{ComesToPaths, IsAlong, LacksAlongPaths, ReadsAlongPaths};
ghost use Rattle.ob_expr.specs.TypedTree.{TypedTree, typed_tree_of};
ghost use Rattle.ob_schema.specs.Models.{IsRegistry, field_at, is_delegated_from};
ghost use Rattle.ob_schema.specs.declared.info.Origin.TheVariants as origin;
ghost use Rattle.ob_definition.specs.Values.{initial_value};
ghost use Rattle.ob_schema.specs.Tied.{IsTied};
ghost use Rattle.ob_tables.specs.Faults.{HasNoValue};
ghost use Rattle.ob_tables.specs.Settling.{AreOutcomes, IsFormulaOutcome, IsSettled, IsWithin, KeepsAll, Lacks, had_in, lack_for, reason_of, row_named, values_of};
ghost use Rattle.ob_schema.specs.Tables.{Fits, row_at};
ghost use Rattle.ob_schema.specs.Val.{val};

use crate::fault::ScratchFault;
use crate::formula::formula_value;
use crate::outcome::{Outcome, Outcomes, Reason, Unread};
use crate::reading::{Given, Reader};
use crate::row::initial_value;
use ob_base::limits::{MAX_STRATUM, MAX_TREE_DEPTH};
use ob_base::{Cell, FieldNo, ModelNo, NoMemory, RecId, Silent, Steps, Value, cell_cmp};
use ob_expr::{EvalFault, reads_along_paths};
use ob_schema::{Delegation, FieldInfo, Formula, Origin};

/// How many formulas are read in turn at most: down the strata, and in each along a tree.
const MAX_CHAIN: usize = MAX_TREE_DEPTH * (MAX_STRATUM as usize + 1) + 2;

impl Given<'_, '_> {
    /// The value of a cell of a row that is there. What was evaluated before isn't evaluated
    /// again; after a fault the outcomes are of no use.
    pub(crate) fn value_of(
        &self,
        outcomes: &mut Outcomes,
        cell: Cell,
    ) -> Result<Value, ScratchFault>
        requires field { IsSome (field_at self.now.tables.now.models cell.model cell.field) }
        requires row { IsSome (row_at self.now.tables.now.tables cell.model cell.id) }
        requires tied { IsTied self.now.tables.now.models self.now.tables.now.tables }
        requires right { AreOutcomes self.now.tables.now.models self.now.tables.now.tables outcomes.old }
        ensures right { IfOk result (λ _. AreOutcomes self.now.tables.now.models self.now.tables.now.tables outcomes.new) }
        ensures value { IfOk result (λ value. values_of self.now.tables.now.models self.now.tables.now.tables cell ≡ Ok value) }
        ensures fault { IfErr result (Lacks (values_of self.now.tables.now.models self.now.tables.now.tables cell)) }
    {
        let tables = self.tables;
        let info = tables.schema.info(cell.model, cell.field);
        match &info.origin {
            Origin::Delegated(at) => self.value_behind(outcomes, cell, *at, info),
            _ => self.own_value(outcomes, cell),
        }
    }

    /// The value that a row has from the one behind a link; unset where the link is.
    fn value_behind(
        &self,
        outcomes: &mut Outcomes,
        cell: Cell,
        at: Delegation,
        info: &FieldInfo,
    ) -> Result<Value, ScratchFault>
        requires field { field_at self.now.tables.now.models cell.model cell.field ≡ Some info.now }
        requires delegated { info.now.origin ≡ origin.Delegated at }
        requires row { IsSome (row_at self.now.tables.now.tables cell.model cell.id) }
        requires tied { IsTied self.now.tables.now.models self.now.tables.now.tables }
        requires right { AreOutcomes self.now.tables.now.models self.now.tables.now.tables outcomes.old }
        ensures right { IfOk result (λ _. AreOutcomes self.now.tables.now.models self.now.tables.now.tables outcomes.new) }
        ensures value { IfOk result (λ value. values_of self.now.tables.now.models self.now.tables.now.tables cell ≡ Ok value) }
        ensures fault { IfErr result (Lacks (values_of self.now.tables.now.models self.now.tables.now.tables cell)) }
    {
        self.laws();
        let link = Cell {
            field: at.link,
            ..cell
        };
        let Some(value) = self.plain(link)? else {
            unreachable!()
        };
        match row_named(&value) {
            Some(id) => {
                let behind = Cell {
                    model: at.model,
                    id,
                    field: at.field,
                };
                self.own_value(outcomes, behind)
            }
            None => Ok(initial_value(self.alloc(), info.field_type)),
        }
    }

    /// The value of a cell that isn't delegated.
    fn own_value(&self, outcomes: &mut Outcomes, cell: Cell) -> Result<Value, ScratchFault>
        requires field { IsSomeAnd (field_at self.now.tables.now.models cell.model cell.field) (λ info. is_delegated_from info.origin ≡ false) }
        requires row { IsSome (row_at self.now.tables.now.tables cell.model cell.id) }
        requires tied { IsTied self.now.tables.now.models self.now.tables.now.tables }
        requires right { AreOutcomes self.now.tables.now.models self.now.tables.now.tables outcomes.old }
        ensures right { IfOk result (λ _. AreOutcomes self.now.tables.now.models self.now.tables.now.tables outcomes.new) }
        ensures value { IfOk result (λ value. values_of self.now.tables.now.models self.now.tables.now.tables cell ≡ Ok value) }
        ensures fault { IfErr result (Lacks (values_of self.now.tables.now.models self.now.tables.now.tables cell)) }
    {
        self.laws();
        self.settle(outcomes, cell)?;
        match outcomes.get(&cell) {
            Some(Outcome::Value(value)) => Ok(value.try_clone(self.alloc())?),
            Some(Outcome::Own(reason)) => Err(fault_for(*reason)),
            Some(Outcome::Inherited(reason)) => Err(fault_for(*reason)),
            None => match self.plain(cell)? {
                Some(value) => Ok(value),
                None => unreachable!(),
            },
        }
    }

    /// Evaluates a cell's formula, if it has one, and all that it reads before.
    pub(crate) fn settle(&self, outcomes: &mut Outcomes, cell: Cell) -> Result<(), NoMemory>
        requires row { IsSome (row_at self.now.tables.now.tables cell.model cell.id) }
        requires tied { IsTied self.now.tables.now.models self.now.tables.now.tables }
        requires right { AreOutcomes self.now.tables.now.models self.now.tables.now.tables outcomes.old }
        ensures right { IfOk result (λ _. AreOutcomes self.now.tables.now.models self.now.tables.now.tables outcomes.new) }
        ensures kept { IfOk result (λ _. KeepsAll outcomes.old outcomes.new) }
        ensures settled { IfOk result (λ _. IsSettled self.now.tables.now.models self.now.tables.now.tables outcomes.new cell) }
    {
        self.laws();
        self.settle_within(outcomes, cell, MAX_CHAIN)
    }

    /// The same, where so many formulas at most are read in turn.
    fn settle_within(
        &self,
        outcomes: &mut Outcomes,
        cell: Cell,
        chain: usize,
    ) -> Result<(), NoMemory>
        requires row { IsSome (row_at self.now.tables.now.tables cell.model cell.id) }
        requires tied { IsTied self.now.tables.now.models self.now.tables.now.tables }
        requires right { AreOutcomes self.now.tables.now.models self.now.tables.now.tables outcomes.old }
        requires within { IsWithin self.now.tables.now.models self.now.tables.now.tables chain cell }
        ensures right { IfOk result (λ _. AreOutcomes self.now.tables.now.models self.now.tables.now.tables outcomes.new) }
        ensures kept { IfOk result (λ _. KeepsAll outcomes.old outcomes.new) }
        ensures settled { IfOk result (λ _. IsSettled self.now.tables.now.models self.now.tables.now.tables outcomes.new cell) }
    {
        let tables = self.tables;
        let Some(info) = tables.schema.find_field(cell.model, cell.field) else {
            return Ok(());
        };
        let Origin::Computed(formula) = &info.origin else {
            return Ok(());
        };
        if outcomes.contains_key(&cell) {
            return Ok(());
        }
        self.laws();
        let ends = self.ends_of(&formula.typed, cell)?;
        for end in ends.as_slice() {
            self.settle_within(outcomes, *end, chain - 1)?;
        }
        let outcome = self.evaluate(outcomes, formula, info, cell)?;
        outcomes.insert(cell, outcome)?;
        Ok(())
    }

    /// What a formula gives a cell, where all that it reads is settled.
    fn evaluate(
        &self,
        outcomes: &Outcomes,
        formula: &Formula,
        info: &FieldInfo,
        cell: Cell,
    ) -> Result<Outcome, NoMemory>
        requires field { field_at self.now.tables.now.models cell.model cell.field ≡ Some info.now }
        requires computed { info.now.origin ≡ origin.Computed formula.now }
        requires row { IsSome (row_at self.now.tables.now.tables cell.model cell.id) }
        requires tied { IsTied self.now.tables.now.models self.now.tables.now.tables }
        requires right { AreOutcomes self.now.tables.now.models self.now.tables.now.tables outcomes.now }
        requires settled { (other : Cell)
            → IsAlong (had_in self.now.tables.now.models self.now.tables.now.tables) (row_of cell) (typed_tree_of formula.now.typed) other
            → IsSettled self.now.tables.now.models self.now.tables.now.tables outcomes.now other }
        ensures { IfOk result (λ outcome. IsFormulaOutcome self.now.tables.now.models self.now.tables.now.tables cell outcome info.now) }
    {
        self.laws();
        let mut reader = Reader {
            given: self,
            outcomes,
        };
        let mut steps = Steps::new(Silent);
        let alloc = self.alloc();
        match formula_value(alloc, info, formula, cell, &mut reader, &mut steps) {
            Ok(value) => Ok(Outcome::Value(value)),
            Err(EvalFault::Overflow) => Ok(Outcome::Own(Reason::Overflow)),
            Err(EvalFault::TooLong) => Ok(Outcome::Own(Reason::TooLong)),
            Err(EvalFault::ZeroDivisor) => Ok(Outcome::Own(Reason::ZeroDivisor)),
            Err(EvalFault::Read(Unread::NoValue(other))) => {
                Ok(Outcome::Inherited(reason_at(outcomes, other)))
            }
            Err(EvalFault::Read(Unread::NoMemory) | EvalFault::NoMemory) => Err(NoMemory),
        }
    }

    /// What holds of all tables, and of what expressions read.
    pub(crate) fn laws(&self)
        ensures registry { IsRegistry self.now.tables.now.models }
        ensures fits { Fits self.now.tables.now.models self.now.tables.now.tables }
        ensures meaning { (tree : TypedTree) → ReadsAlongPaths tree }
        ensures reads { (tree : TypedTree) → ComesToPaths tree }
        ensures lacks { (tree : TypedTree) → LacksAlongPaths tree }
        ensures exact { IsAntisymmetric cell_order }
    {
        reads_along_paths();
        let cell = Cell {
            model: ModelNo(1),
            id: RecId(1),
            field: FieldNo(1),
        };
        let _order = cell_cmp(&cell, &cell);
        let tables = self.tables;
        tables.fit_together();
    }
}

/// The row that a reference names, where it is set.
fn row_named(value: &Value) -> Option<RecId>
    ensures { result ≡ row_named value.now }
{
    match value {
        Value::Ref(id) => Some(*id),
        _ => None,
    }
}

/// Why a cell has no value.
fn reason_at(outcomes: &Outcomes, cell: Cell) -> Reason
    requires { IsSomeAnd (tree.get cell_order outcomes.now cell) (λ outcome. IsSome (reason_of outcome)) }
    ensures { IsSomeAnd (tree.get cell_order outcomes.now cell) (λ outcome. reason_of outcome ≡ Some result) }
{
    match outcomes.get(&cell) {
        Some(outcome) => match outcome.reason() {
            Some(reason) => reason,
            None => unreachable!(),
        },
        None => unreachable!(),
    }
}

/// The fault of a cell that has no value for this reason.
fn fault_for(reason: Reason) -> ScratchFault
    ensures { Lacks (Err (lack_for reason)) result }
{
    match reason {
        Reason::Overflow => ScratchFault::Overflow,
        Reason::TooLong => ScratchFault::TooLong,
        Reason::ZeroDivisor => ScratchFault::ZeroDivisor,
    }
}
