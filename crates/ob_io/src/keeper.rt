//! Who keeps the rows.

ghost use Rattle.std.specs.Prelude.{◌≡◌, ℕ, ◌<◌, ◌≤◌, List, Option, option_map, map, take, IfOk, IfSome, OnOk, OnErr, IsErrOf, All};
ghost use Rattle.ob_io.specs.Cause.{HasCause};

use crate::store::{Change, KeptRow};
use ob_base::{FieldNo, ModelNo, NoMemory, RecId, RefList, Refusal, Sequence};
use std::alloc::AllocFailed;
use thiserror::Error;

/// Why a call of a keeper gave no answer.
#[derive(Clone, Copy, Debug, PartialEq, Eq, Error)]
pub enum KeepFault {
    /// The keeper failed. Its count of faults rose in the call, as far as a u64 can.
    #[error("the keeper failed")]
    Failed,
    /// An allocation failed.
    #[error("no memory")]
    NoMemory,
}

impl From<NoMemory> for KeepFault {
    ghost use Rattle.std.specs.Prelude.{◌≡◌};
    ghost use Rattle.ob_io.specs.declared.keeper.KeepFault.{KeepFault};

    ghost from_gives = { λ _ fault. fault ≡ KeepFault.NoMemory };

    fn from(_error: NoMemory) -> KeepFault {
        KeepFault::NoMemory
    }
}

impl<T: Drop> From<AllocFailed<T>> for KeepFault {
    ghost use Rattle.std.specs.Prelude.{◌≡◌};
    ghost use Rattle.ob_io.specs.declared.keeper.KeepFault.{KeepFault};

    ghost from_gives = { λ _ fault. fault ≡ KeepFault.NoMemory };

    fn from(_error: AllocFailed<T>) -> KeepFault {
        KeepFault::NoMemory
    }
}

impl From<KeepFault> for Refusal {
    ghost use Rattle.std.specs.Prelude.{◌≡◌};
    ghost use Rattle.ob_io.specs.Refusals.{keeper_refusal};

    ghost from_gives = { λ fault why. why ≡ keeper_refusal fault };

    fn from(fault: KeepFault) -> Refusal {
        match fault {
            KeepFault::Failed => Refusal::Keeper,
            KeepFault::NoMemory => Refusal::NoMemory,
        }
    }
}

/// Keeps rows by model and id, and a next id for each model, 1 where none was set.
/// Ids, targets and next ids that it is handed or answers are below 2^63. No call
/// but `commit` changes what is kept, whether it answers or fails.
pub trait Keeper {
    ghost use Rattle.ob_io.specs.Store.{Store, next_of, row_at, rows_after, holders_after, all_changed, Fits63, IsAnswerOf, IsPage, IsChangeFit, RowsNamed};

    /// What is kept, where the keeper tells.
    ghost kept: { Self → Option Store };

    /// How often the keeper has failed.
    ghost faults: { Self → ℕ };

    /// The model's next id.
    fn next_id(&mut self, model: ModelNo) -> Result<u64, KeepFault>
        ensures told { IfOk result (λ next. IfSome (kept self.old) (λ store. next ≡ next_of store model)) }
        ensures fits { IfOk result Fits63 }
        ensures same { kept self.new ≡ kept self.old }
        ensures cause { HasCause (faults self.old) (faults self.new) (IsErrOf result KeepFault.Failed) };

    /// The row of this id, where there is one.
    fn fetch(&mut self, model: ModelNo, id: RecId) -> Result<Option<KeptRow>, KeepFault>
        requires { Fits63 id.0 }
        ensures told { IfOk result (λ row. IfSome (kept self.old) (λ store. row ≡ row_at store model id)) }
        ensures fits { IfOk result (λ row. IfSome row (IsAnswerOf id)) }
        ensures same { kept self.new ≡ kept self.old }
        ensures cause { HasCause (faults self.old) (faults self.new) (IsErrOf result KeepFault.Failed) };

    /// The first rows with an id above that one, at most so many, rising by id.
    fn page(
        &mut self,
        model: ModelNo,
        after: RecId,
        most: u32,
    ) -> Result<Sequence<KeptRow>, KeepFault>
        requires { Fits63 after.0 }
        ensures told { IfOk result (λ rows. IfSome (kept self.old) (λ store. rows ≡ take most (rows_after store model after))) }
        // Each row that is kept stands under its own id.
        ensures named { OnOk result (IfSome (kept self.old) RowsNamed) }
        ensures fits { IfOk result (λ rows. IsPage after most (map (λ row. row.id) rows) × All (λ row. IsAnswerOf row.id row) rows) }
        ensures same { kept self.new ≡ kept self.old }
        ensures cause { HasCause (faults self.old) (faults self.new) (IsErrOf result KeepFault.Failed) };

    /// The first ids above that one, at most so many, rising, of rows with a link by
    /// this field to the target.
    fn holders(
        &mut self,
        model: ModelNo,
        field: FieldNo,
        target: RecId,
        after: RecId,
        most: u32,
    ) -> Result<RefList, KeepFault>
        requires target { Fits63 target.0 }
        requires after { Fits63 after.0 }
        ensures told { IfOk result (λ ids. IfSome (kept self.old) (λ store. ids ≡ take most (holders_after store model field target after))) }
        ensures fits { IfOk result (IsPage after most) }
        ensures same { kept self.new ≡ kept self.old }
        ensures cause { HasCause (faults self.old) (faults self.new) (IsErrOf result KeepFault.Failed) };

    /// Carries out the changes in order: all of them, or after a fault none.
    fn commit(&mut self, changes: &[Change]) -> Result<(), KeepFault>
        requires { All IsChangeFit changes.now }
        ensures ok { OnOk result (kept self.new ≡ option_map (all_changed changes.now) (kept self.old)) }
        ensures err { OnErr result (kept self.new ≡ kept self.old) }
        ensures cause { HasCause (faults self.old) (faults self.new) (IsErrOf result KeepFault.Failed) };
}
