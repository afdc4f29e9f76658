//! The ids that rows take behind edits that aren't staged yet: the next ones of the staged tables,
//! as the engine tells them, raised with each row that these edits make.

ghost use Rattle.std.specs.Prelude.{◌≡◌, ◌≤◌, ℕ, List, All, IfOk, IsErrOf};
ghost use Rattle.ob_cache.specs.Stages.{IsUsable};
ghost use Rattle.ob_cache.specs.Standing.{NextIdsUpTo, OfStages, Stays, max_next_id};
ghost use Rattle.ob_io.specs.Cause.{HasCause};
ghost use Rattle.ob_orm.specs.NewRowSteps.{MayFit};
ghost use Rattle.ob_schema.specs.Models.{HasModel};
ghost use Rattle.ob_schema.specs.Tables.{Tables, next_of};
ghost use Rattle.ob_schema.specs.declared.info.ModelInfo.{ModelInfo};
ghost use Rattle.ob_stage.specs.StageSteps.{LeaveRoom, MakesFit};
ghost use Rattle.ob_tables.specs.After.{after, edited};
ghost use Rattle.ob_tables.specs.Changes.{MakesBelow};
ghost use Rattle.ob_tables.specs.Fitting.{IsFitId};

use ob_base::{ModelNo, RecId};
use ob_cache::Engine;
use ob_io::{KeepFault, Keeper};
use ob_tables::Edit;

/// The id that a model's next row takes behind edits. The caller sees to it that next ids leave room
/// for the row.
pub(crate) fn next_id<K: Keeper>(
    engine: &mut Engine<'_, K>,
    edits: &[Edit],
    model: ModelNo,
) -> Result<RecId, KeepFault>
    requires usable { IsUsable engine.old.held.phase }
    requires model { HasModel engine.old.held.models model }
    requires fit { All (MayFit engine.old.held.models) edits.now }
    requires room { LeaveRoom 1 engine.old.held edits.now }
    ensures next { IfOk result (λ id. OfStages (K.kept engine.old.keeper.now) engine.old.held (λ at. id.0 ≡ next_of (after engine.old.held.models at.staged edits.now) model)) }
    ensures low { IfOk result IsFitId }
    ensures bound { IfOk result (λ id. (told bound : ℕ) → max_next_id ≤ told → told ≤ bound → NextIdsUpTo told engine.old.held → All (MakesBelow model bound) edits.now → id.0 ≤ bound) }
    ensures cause { HasCause (K.faults engine.old.keeper.now) (K.faults engine.new.keeper.now) (IsErrOf result KeepFault.Failed) }
    ensures same { Stays (K.kept engine.old.keeper.now) engine.old.held (K.kept engine.new.keeper.now) engine.new.held }
    ensures lender { engine.new.keeper.ghost_name ≡ engine.old.keeper.ghost_name }
{
    let mut next = engine.next_id(model)?;
    for edit in edits {
        next = next_behind(next, edit, model);
    }
    Ok(RecId(next))
}

/// The id that a model's next row takes behind one edit more.
fn next_behind(next: u64, edit: &Edit, model: ModelNo) -> u64
    requires { MakesFit edit.now }
    ensures next { (models : List ModelInfo) (tables : Tables) → HasModel models model → next ≡ next_of tables model → result ≡ next_of (edited models tables edit.now) model }
    ensures bound { (bound : ℕ) → next ≤ bound → MakesBelow model bound edit.now → result ≤ bound }
{
    let Edit::Make {
        model: other,
        id,
        ..
    } = edit
    else {
        return next;
    };
    if *other == model {
        next.max(id.0 + 1)
    } else {
        next
    }
}
