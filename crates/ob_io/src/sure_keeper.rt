//! A keeper in memory that never fails, but for want of memory.

ghost use Rattle.std.specs.Prelude.{◌≡◌, All, IfOk, IfSome, IsNone, OnOk, OnErr, IsOk, IsErrOf};
ghost use Rattle.ob_io.specs.Store.{IsChangeFit, all_changed, empty_store};
ghost use Rattle.ob_io.specs.Kept.{starting_changes};

use crate::keeper::{KeepFault, Keeper};
use crate::row_copy::{copy_changes, copy_row, starting_changes};
use crate::slots::Slots;
use crate::store::{Change, KeptRow};
use ob_base::{FieldNo, ModelNo, NoMemory, RecId, RefList, RowKey, Sequence};
use std::alloc::Global;
use std::marker::Model;

/// Keeps rows and next ids in memory.
#[derive(Debug, Drop)]
pub struct SureKeeper {
    alloc: Global,
    slots: Slots,
}

impl Model for SureKeeper {
    ghost use Rattle.ob_io.specs.Store.{Store};
    ghost use Rattle.ob_io.specs.Slots.{shown_store};
    ghost use Rattle.ob_io.specs.Kept.{coded_store, IsStoreFit};

    ghost Value = { Store };

    ghost coded = { coded_store };

    ghost view = { λ k. shown_store k.slots };

    ghost invariant = { λ k. IsStoreFit (shown_store k.slots) };
}

impl SureKeeper {
    /// Keeps these rows, put in the order given, and these next ids.
    pub fn new(
        alloc: Global,
        rows: Vec<(ModelNo, KeptRow)>,
        next_ids: Vec<(ModelNo, u64)>,
    ) -> Result<SureKeeper, NoMemory>
        requires { All IsChangeFit (starting_changes rows.items next_ids.items) }
        ensures { IfOk result (λ keeper. keeper ≡ all_changed (starting_changes rows.items next_ids.items) empty_store) }
    {
        let changes = starting_changes(alloc, rows, next_ids)?;
        let mut slots = Slots::new(alloc);
        slots.change_all(changes)?;
        Ok(SureKeeper { alloc, slots })
    }
}

impl Keeper for SureKeeper {
    ghost use Rattle.std.specs.Prelude.{Some, map, take};
    ghost use Rattle.ob_io.specs.declared.keeper.KeepFault.{KeepFault};
    ghost use Rattle.ob_io.specs.Cause.{HasCause};
    ghost use Rattle.ob_io.specs.Store.{next_of, row_at, rows_after, holders_after, Fits63, IsAnswerOf, IsPage, RowsNamed};

    ghost kept = { λ store. Some store };

    ghost faults = { λ _. 0 };

    fn next_id(&mut self, model: ModelNo) -> Result<u64, KeepFault>
        ensures told { IfOk result (λ next. next ≡ next_of self.old model) }
        ensures fits { IfOk result Fits63 }
        ensures same { self.new ≡ self.old }
        ensures succeeds { IsOk result }
        ensures cause { HasCause 0 0 (IsErrOf result KeepFault.Failed) }
        ensures sure { ¬ IsErrOf result KeepFault.Failed }
    {
        Ok(self.slots.next_id(model))
    }

    fn fetch(&mut self, model: ModelNo, id: RecId) -> Result<Option<KeptRow>, KeepFault>
        requires { Fits63 id.0 }
        ensures told { IfOk result (λ row. row ≡ row_at self.old model id) }
        ensures fits { IfOk result (λ row. IfSome row (IsAnswerOf id)) }
        ensures same { self.new ≡ self.old }
        // To tell that there is no such row takes no memory.
        ensures absent { IsNone (row_at self.old model id) → IsOk result }
        ensures cause { HasCause 0 0 (IsErrOf result KeepFault.Failed) }
        ensures sure { ¬ IsErrOf result KeepFault.Failed }
    {
        match self.slots.row(RowKey { model, id }) {
            Some(row) => Ok(Some(copy_row(self.alloc, row)?)),
            None => Ok(None),
        }
    }

    fn page(
        &mut self,
        model: ModelNo,
        after: RecId,
        most: u32,
    ) -> Result<Sequence<KeptRow>, KeepFault>
        requires { Fits63 after.0 }
        ensures told { IfOk result (λ rows. rows ≡ take most (rows_after self.old model after)) }
        ensures fits { IfOk result (λ rows. IsPage after most (map (λ row. row.id) rows) × All (λ row. IsAnswerOf row.id row) rows) }
        ensures named { OnOk result (RowsNamed self.old) }
        ensures same { self.new ≡ self.old }
        ensures cause { HasCause 0 0 (IsErrOf result KeepFault.Failed) }
        ensures sure { ¬ IsErrOf result KeepFault.Failed }
    {
        Ok(self.slots.page(self.alloc, model, after, most)?)
    }

    fn holders(
        &mut self,
        model: ModelNo,
        field: FieldNo,
        target: RecId,
        after: RecId,
        most: u32,
    ) -> Result<RefList, KeepFault>
        requires target { Fits63 target.0 }
        requires after { Fits63 after.0 }
        ensures told { IfOk result (λ ids. ids ≡ take most (holders_after self.old model field target after)) }
        ensures fits { IfOk result (IsPage after most) }
        ensures same { self.new ≡ self.old }
        ensures cause { HasCause 0 0 (IsErrOf result KeepFault.Failed) }
        ensures sure { ¬ IsErrOf result KeepFault.Failed }
    {
        Ok(
            self.slots
                .holders(self.alloc, model, field, target, after, most)?,
        )
    }

    fn commit(&mut self, changes: &[Change]) -> Result<(), KeepFault>
        requires { All IsChangeFit changes.now }
        ensures ok { OnOk result (self.new ≡ all_changed changes.now self.old) }
        ensures err { OnErr result (self.new ≡ self.old) }
        ensures cause { HasCause 0 0 (IsErrOf result KeepFault.Failed) }
        ensures sure { ¬ IsErrOf result KeepFault.Failed }
    {
        let copies = copy_changes(self.alloc, changes)?;
        let done = self.slots.change_all(copies);
        self.slots.drop_vacant(changes);
        Ok(done?)
    }
}
