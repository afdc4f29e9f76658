//! Laws of the definitions, as clauses of functions that do nothing.

ghost use Rattle.std.specs.Prelude.{◌≡◌, List};
ghost use Rattle.ob_base.specs.declared.id.Cell.{Cell};
ghost use Rattle.ob_schema.specs.Links.{Sides};
ghost use Rattle.ob_schema.specs.Models.{IsRegistry};
ghost use Rattle.ob_schema.specs.Tied.{IsTied};
ghost use Rattle.ob_schema.specs.Val.{val};
ghost use Rattle.ob_schema.specs.declared.info.ModelInfo.{ModelInfo};
ghost use Rattle.ob_trigger.specs.Affected.{Affected, IsComputedBehind};

use ob_expr::reads_along_paths;
use ob_schema::meaning_by_declared_paths;

/// A computed cell that a change can't reach has the same value before it and behind it, or the
/// same reason to have none.
pub fn unaffected_cells_keep_values()
    ensures { (models : List ModelInfo) (sides : Sides) → IsRegistry models → IsTied models sides.before → IsTied models sides.behind
        → (cell : Cell) → IsComputedBehind models sides cell → (Affected models sides cell → ⊥) → val models sides.before cell ≡ val models sides.behind cell }
{
    reads_along_paths();
    meaning_by_declared_paths();
}
