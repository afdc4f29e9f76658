//! The fields that read each field of a registry, and the closure of a change over them: the
//! computed cells that it reaches. What reads a cell is found backwards along the paths, by the
//! links as they were before the change: where none of a path's cells is edited the path leads to
//! the same cells behind it, so these find each cell that can change. Behind the change only is
//! asked which rows are there.

ghost use Rattle.std.specs.Prelude.{◌≡◌, All, Contains, IfErr, IfOk};
ghost use Rattle.ob_base.specs.declared.id.Cell.{Cell};
ghost use Rattle.ob_schema.specs.Facts.{Asked, FailedBehind, OfAllTold};
ghost use Rattle.ob_trigger.specs.Affected.{Affected, Changed, HasComputedField, IsChange, ReadsIn};
ghost use Rattle.ob_trigger.specs.Asking.{AskedAlone};
ghost use Rattle.ob_trigger.specs.CellSets.{CellsRise};
ghost use Rattle.ob_trigger.specs.Faults.{IsCloseFault};
ghost use Rattle.ob_trigger.specs.Marks.{IsClosure, HasMark, KeepsCount, MarksComputed, MarksMore};

use crate::building::index_of;
use crate::cell_set::{CellSet, copied, listed};
use crate::fault::CloseFault;
use crate::index::{Index, readers_of};
use crate::marks::mark_reader;
use crate::rows::{mark_edited_rows, there_behind};
use ob_base::{Cell, NoMemory};
use ob_expr::reads_along_paths;
use ob_schema::{Links, Schema, Step, meaning_by_declared_paths};
use std::alloc::Global;
use std::collections::BTreeSet;
use std::marker::Model;

/// Which fields of a registry read each of its fields. Contracts see the registry.
#[derive(Drop)]
pub struct Triggers<'s> {
    schema: &'s Schema,
    index: Index,
}

impl<'s> Model for Triggers<'s> {
    ghost use Rattle.std.specs.Prelude.{List};
    ghost use Rattle.ob_schema.specs.declared.info.ModelInfo.{ModelInfo};
    ghost use Rattle.ob_trigger.specs.Readers.{IsReaderIndex};
    ghost use Rattle.ob_expr.specs.contracts.typed.Typed as typed;
    ghost use Rattle.std.specs.Coded.{codes};

    ghost coded = { Prim.hlevel (codes, typed.the_row.coded) };

    ghost Value = { List ModelInfo };

    ghost view = { λ t. t.schema.now };

    ghost invariant = { λ t. IsReaderIndex t.schema.now t.index };
}

impl<'s> Triggers<'s> {
    /// The triggers of a registry.
    pub fn build(alloc: Global, schema: &'s Schema) -> Result<Triggers<'s>, NoMemory>
        ensures { IfOk result (λ triggers. triggers ≡ schema.now) }
    {
        let index = index_of(alloc, schema)?;
        Ok(Triggers { schema, index })
    }

    /// The computed cells that a change may give other values, where `edited` are the cells that
    /// it edits. The only fault beside want of memory is one that the links answered.
    pub fn close<W: Links>(
        &self,
        alloc: Global,
        edited: &[Cell],
        worlds: &mut W,
    ) -> Result<CellSet, CloseFault<W::Fault>>
        requires { W.registry worlds.old ≡ self.now }
        ensures computed { IfOk result (All (HasComputedField self.now)) }
        ensures rising { IfOk result CellsRise }
        ensures affected { IfOk result (λ cells. OfAllTold (W.tells worlds.old)
            (λ sides. IsChange self.now sides edited.now → All (Affected self.now sides) cells)) }
        ensures changed { IfOk result (λ cells. OfAllTold (W.tells worlds.old)
            (λ sides. IsChange self.now sides edited.now → (cell : Cell) → Changed self.now sides cell → Contains cells cell)) }
        ensures fault { IfErr result (IsCloseFault (FailedBehind W.asks W.has_failed worlds.old worlds.new)) }
        ensures asked { Asked W.asks worlds.old worlds.new }
        ensures same { W.registry worlds.new ≡ W.registry worlds.old }
        ensures kept { OfAllTold (W.tells worlds.old) (W.tells worlds.new) }
        ensures only { OfAllTold (W.tells worlds.new) (W.tells worlds.old) }
    {
        // The laws of registries and of what formulas mean.
        self.schema.parts_fit_together();
        reads_along_paths();
        meaning_by_declared_paths();
        let mut marked = self.reached(alloc, edited, worlds)?;
        mark_edited_rows(self.schema, edited, &mut marked)?;
        let cells = listed(alloc, &marked)?;
        let there = there_behind(alloc, self.schema, cells.as_slice(), worlds)?;
        Ok(CellSet::of(alloc, &there)?)
    }

    /// The cells that lead to an edited one by reading one another, as the links were.
    fn reached<W: Links>(
        &self,
        alloc: Global,
        edited: &[Cell],
        worlds: &mut W,
    ) -> Result<BTreeSet<Cell>, CloseFault<W::Fault>>
        requires { W.registry worlds.old ≡ self.now }
        ensures told { IfOk result (λ marked. OfAllTold (W.tells worlds.old) (λ sides. IsClosure self.now sides edited.now marked)) }
        ensures computed { IfOk result (λ marked. (cell : Cell) → HasMark marked cell → HasComputedField self.now cell) }
        ensures fault { IfErr result (IsCloseFault (FailedBehind W.asks W.has_failed worlds.old worlds.new)) }
        ensures stays { AskedAlone W.asks W.registry W.tells worlds.old worlds.new }
    {
        let mut marked = BTreeSet::new(alloc);
        let mut waiting = copied(alloc, edited)?;
        while let Some(cell) = waiting.pop() {
            self.mark_readers(alloc, cell, &mut marked, &mut waiting, worlds)?;
            // The bound of each such set.
            let _ = marked.len();
        }
        Ok(marked)
    }

    /// Marks the cells that read a cell.
    fn mark_readers<W: Links>(
        &self,
        alloc: Global,
        cell: Cell,
        marked: &mut BTreeSet<Cell>,
        waiting: &mut Vec<Cell>,
        worlds: &mut W,
    ) -> Result<(), CloseFault<W::Fault>>
        requires { W.registry worlds.old ≡ self.now }
        ensures told { IfOk result (λ _. OfAllTold (W.tells worlds.old)
            (λ sides. MarksMore marked.old marked.new waiting.old.items waiting.new.items (λ other. ReadsIn self.now sides.before other cell))) }
        ensures computed { IfOk result (λ _. MarksComputed self.now marked.old marked.new) }
        ensures count { IfOk result (λ _. KeepsCount marked.old marked.new waiting.old.items waiting.new.items) }
        ensures fault { IfErr result (IsCloseFault (FailedBehind W.asks W.has_failed worlds.old worlds.new)) }
        ensures stays { AskedAlone W.asks W.registry W.tells worlds.old worlds.new }
    {
        self.schema.parts_fit_together();
        let step = Step {
            model: cell.model,
            field: cell.field,
        };
        for reader in readers_of(&self.index, step) {
            mark_reader(alloc, reader, cell.id, marked, waiting, worlds)?;
        }
        Ok(())
    }
}
