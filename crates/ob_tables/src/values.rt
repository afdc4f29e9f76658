//! Values from scratch over the same tables, one after the other: each formula is evaluated
//! at most once, whatever is asked, until a value is wanting. One whose value is known by other
//! means isn't evaluated at all.

ghost use Rattle.std.specs.Prelude.{◌≡◌, IfErr, IfOk, IsSome, Ok, true};
ghost use Rattle.ob_schema.specs.Models.{FieldHas, field_at, is_computed_from};
ghost use Rattle.ob_schema.specs.Tables.{row_at};
ghost use Rattle.ob_schema.specs.Tied.{IsTied};
ghost use Rattle.ob_schema.specs.Val.{val};
ghost use Rattle.ob_tables.specs.Faults.{HasNoValue};
ghost use Rattle.ob_tables.specs.Scratch.{HasScratch};

use crate::fault::ScratchFault;
use crate::outcome::{Outcome, Outcomes};
use crate::reading::Given;
use crate::tables::Tables;
use ob_base::{Cell, NoMemory, Value};
use ob_expr::{values_from_cells, values_of_kinds};
use ob_schema::Origin;
use std::collections::BTreeMap;
use std::marker::Model;

/// The values of the cells of tables whose rows lead to rows that are there and whose trees are
/// trees; contracts see the tables.
#[derive(Drop)]
pub struct Values<'t, 'a> {
    given: Given<'t, 'a>,
    outcomes: Outcomes,
}

impl<'t, 'a> Model for Values<'t, 'a> {
    ghost use Rattle.ob_schema.specs.Tables.{Standing};
    ghost use Rattle.ob_schema.specs.Tied.{IsTied};
    ghost use Rattle.ob_tables.specs.Settling.{AreOutcomes};
    ghost use Rattle.ob_expr.specs.contracts.typed.Typed as typed;
    ghost use Rattle.std.specs.Coded.{codes};
    ghost use Rattle.ob_tables.specs.Coding.{coded_standing};

    ghost coded = { coded_standing (Prim.hlevel (codes, typed.the_row.coded)) (Prim.hlevel codes) };

    ghost Value = { Standing };

    ghost view = { λ v. v.given.tables.now };

    ghost invariant = { λ v. IsTied v.given.tables.now.models v.given.tables.now.tables × AreOutcomes v.given.tables.now.models v.given.tables.now.tables v.outcomes };
}

impl<'t, 'a> Values<'t, 'a> {
    /// Nothing is evaluated yet.
    pub fn of(tables: &'t Tables<'a>) -> Result<Values<'t, 'a>, NoMemory>
        requires { IsTied tables.now.models tables.now.tables }
        ensures { IfOk result (λ values. values ≡ tables.now) }
    {
        let given = Given::of(tables);
        let outcomes = BTreeMap::new(given.alloc());
        Ok(Values { given, outcomes })
    }

    /// The value of a cell from scratch, a condition's too.
    pub fn value(&mut self, cell: Cell) -> Result<Value, ScratchFault>
        requires field { IsSome (field_at self.old.models cell.model cell.field) }
        ensures value { IfOk result (λ value. val self.old.models self.old.tables cell ≡ Ok value) }
        ensures fault { IfErr result (HasNoValue self.old.models self.old.tables cell) }
        ensures same { self.new ≡ self.old }
    {
        if !self.given.tables.has_row(cell.model, cell.id) {
            return Err(ScratchFault::Missing);
        }
        let told = self.given.value_of(&mut self.outcomes, cell);
        if told.is_err() {
            self.outcomes = BTreeMap::new(self.given.alloc());
        }
        told
    }

    /// Takes the value of a computed cell of a row that is there as known: its formula isn't
    /// evaluated from then on.
    pub fn know(&mut self, cell: Cell, value: &Value) -> Result<(), NoMemory>
        requires field { FieldHas self.old.models (λ info. is_computed_from info.origin ≡ true) cell.model cell.field }
        requires row { IsSome (row_at self.old.tables cell.model cell.id) }
        requires value { HasScratch self.old.models self.old.tables cell value.now }
        ensures { self.new ≡ self.old }
    {
        // The laws of tables and of what formulas give: a value is its formula's, of its kind.
        self.given.laws();
        values_of_kinds();
        values_from_cells();
        let value = value.try_clone(self.given.alloc())?;
        self.outcomes.insert(cell, Outcome::Value(value))?;
        Ok(())
    }

    /// The cells at the ends of the paths of a computed cell's formula; none of another cell. It
    /// tells which values are worth knowing before the cell's own is asked for.
    pub fn reads(&self, cell: Cell) -> Result<Vec<Cell>, NoMemory> {
        let tables = self.given.tables;
        let Some(info) = tables.schema.find_field(cell.model, cell.field) else {
            return Ok(Vec::new(self.given.alloc()));
        };
        match &info.origin {
            Origin::Computed(formula) => self.given.ends_of(&formula.typed, cell),
            _ => Ok(Vec::new(self.given.alloc())),
        }
    }
}
