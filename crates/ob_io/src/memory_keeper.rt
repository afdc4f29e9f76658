//! A keeper in memory whose chosen calls fail.

ghost use Rattle.std.specs.Prelude.{◌≡◌, ◌↔◌, All, IfOk, IfSome, IsNone, OnOk, OnErr, IsErr, IsErrOf};
ghost use Rattle.ob_io.specs.Store.{IsChangeFit, all_changed, empty_store};
ghost use Rattle.ob_io.specs.Kept.{starting_changes};

use crate::keeper::{KeepFault, Keeper};
use crate::plan::FailPlan;
use crate::store::{Change, KeptRow};
use crate::sure_keeper::SureKeeper;
use ob_base::{FieldNo, ModelNo, NoMemory, RecId, RefList, Sequence};
use std::alloc::Global;
use std::marker::Model;

/// Keeps rows and next ids in memory, and fails the calls that it was told to fail.
/// All five methods of the trait are counted together, from 1. A call that fails
/// changes nothing that is kept.
#[derive(Debug, Drop)]
pub struct MemKeeper {
    keeper: SureKeeper,
    plan: FailPlan,
}

impl Model for MemKeeper {
    ghost use Rattle.ob_io.specs.Kept.{Kept, coded_kept};

    ghost Value = { Kept };

    ghost coded = { coded_kept };

    ghost view = { λ k. record { store = k.keeper; plan = k.plan } };

    ghost use Rattle.std.specs.Prelude.{◌-◌, ◌^◌, ◌≤◌};

    ghost invariant = { λ k. k.plan.faults ≤ 2 ^ 64 - 1 };
}

impl MemKeeper {
    /// Keeps these rows, put in the order given, and these next ids. The calls of the
    /// numbers in `fail` fail.
    pub fn new(
        alloc: Global,
        rows: Vec<(ModelNo, KeptRow)>,
        next_ids: Vec<(ModelNo, u64)>,
        fail: Vec<u64>,
    ) -> Result<MemKeeper, NoMemory>
        requires { All IsChangeFit (starting_changes rows.items next_ids.items) }
        ensures { IfOk result (λ keeper. keeper ≡ record { store = all_changed (starting_changes rows.items next_ids.items) empty_store; plan = record { fail = fail.items; made = 0; faults = 0 } }) }
    {
        Ok(MemKeeper {
            keeper: SureKeeper::new(alloc, rows, next_ids)?,
            plan: FailPlan::new(fail),
        })
    }
}

impl Keeper for MemKeeper {
    ghost use Rattle.std.specs.Prelude.{Some, map, take};
    ghost use Rattle.ob_io.specs.declared.keeper.KeepFault.{KeepFault};
    ghost use Rattle.ob_io.specs.Cause.{HasCause};
    ghost use Rattle.ob_io.specs.Plan.{FailsNext, after_call};
    ghost use Rattle.ob_io.specs.Kept.{has_failed};
    ghost use Rattle.ob_io.specs.Store.{next_of, row_at, rows_after, holders_after, Fits63, IsAnswerOf, IsPage, RowsNamed};

    ghost kept = { λ k. Some k.store };

    ghost faults = { λ k. k.plan.faults };

    fn next_id(&mut self, model: ModelNo) -> Result<u64, KeepFault>
        ensures told { IfOk result (λ next. next ≡ next_of self.old.store model) }
        ensures fits { IfOk result Fits63 }
        ensures same { self.new.store ≡ self.old.store }
        ensures succeeds { IsErr result → FailsNext self.old.plan }
        ensures cause { HasCause self.old.plan.faults self.new.plan.faults (IsErrOf result KeepFault.Failed) }
        ensures failed { IsErrOf result KeepFault.Failed ↔ FailsNext self.old.plan }
        ensures counted { self.new.plan ≡ after_call (has_failed result) self.old.plan }
    {
        if self.plan.next_fails() {
            return Err(KeepFault::Failed);
        }
        self.keeper.next_id(model)
    }

    fn fetch(&mut self, model: ModelNo, id: RecId) -> Result<Option<KeptRow>, KeepFault>
        requires { Fits63 id.0 }
        ensures told { IfOk result (λ row. row ≡ row_at self.old.store model id) }
        ensures fits { IfOk result (λ row. IfSome row (IsAnswerOf id)) }
        ensures same { self.new.store ≡ self.old.store }
        ensures absent { IsNone (row_at self.old.store model id)
            → IsErr result → FailsNext self.old.plan }
        ensures cause { HasCause self.old.plan.faults self.new.plan.faults (IsErrOf result KeepFault.Failed) }
        ensures failed { IsErrOf result KeepFault.Failed ↔ FailsNext self.old.plan }
        ensures counted { self.new.plan ≡ after_call (has_failed result) self.old.plan }
    {
        if self.plan.next_fails() {
            return Err(KeepFault::Failed);
        }
        self.keeper.fetch(model, id)
    }

    fn page(
        &mut self,
        model: ModelNo,
        after: RecId,
        most: u32,
    ) -> Result<Sequence<KeptRow>, KeepFault>
        requires { Fits63 after.0 }
        ensures told { IfOk result (λ rows. rows ≡ take most (rows_after self.old.store model after)) }
        ensures fits { IfOk result (λ rows. IsPage after most (map (λ row. row.id) rows) × All (λ row. IsAnswerOf row.id row) rows) }
        ensures named { OnOk result (RowsNamed self.old.store) }
        ensures same { self.new.store ≡ self.old.store }
        ensures cause { HasCause self.old.plan.faults self.new.plan.faults (IsErrOf result KeepFault.Failed) }
        ensures failed { IsErrOf result KeepFault.Failed ↔ FailsNext self.old.plan }
        ensures counted { self.new.plan ≡ after_call (has_failed result) self.old.plan }
    {
        if self.plan.next_fails() {
            return Err(KeepFault::Failed);
        }
        self.keeper.page(model, after, most)
    }

    fn holders(
        &mut self,
        model: ModelNo,
        field: FieldNo,
        target: RecId,
        after: RecId,
        most: u32,
    ) -> Result<RefList, KeepFault>
        requires target { Fits63 target.0 }
        requires after { Fits63 after.0 }
        ensures told { IfOk result (λ ids. ids ≡ take most (holders_after self.old.store model field target after)) }
        ensures fits { IfOk result (IsPage after most) }
        ensures same { self.new.store ≡ self.old.store }
        ensures cause { HasCause self.old.plan.faults self.new.plan.faults (IsErrOf result KeepFault.Failed) }
        ensures failed { IsErrOf result KeepFault.Failed ↔ FailsNext self.old.plan }
        ensures counted { self.new.plan ≡ after_call (has_failed result) self.old.plan }
    {
        if self.plan.next_fails() {
            return Err(KeepFault::Failed);
        }
        self.keeper.holders(model, field, target, after, most)
    }

    fn commit(&mut self, changes: &[Change]) -> Result<(), KeepFault>
        requires { All IsChangeFit changes.now }
        ensures ok { OnOk result (self.new.store ≡ all_changed changes.now self.old.store) }
        ensures err { OnErr result (self.new.store ≡ self.old.store) }
        ensures cause { HasCause self.old.plan.faults self.new.plan.faults (IsErrOf result KeepFault.Failed) }
        ensures failed { IsErrOf result KeepFault.Failed ↔ FailsNext self.old.plan }
        ensures counted { self.new.plan ≡ after_call (has_failed result) self.old.plan }
    {
        if self.plan.next_fails() {
            return Err(KeepFault::Failed);
        }
        self.keeper.commit(changes)
    }
}
