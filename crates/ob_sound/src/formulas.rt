//! Laws of what formulas break, as clauses of functions that do nothing.

ghost use Rattle.std.specs.Prelude.{◌≡◌, List};
ghost use Rattle.ob_base.specs.declared.id.Cell.{Cell};
ghost use Rattle.ob_base.specs.declared.refusal.BrokenKind.{BrokenKind};
ghost use Rattle.ob_schema.specs.Broken.{AreSound, IsBroken};
ghost use Rattle.ob_schema.specs.Links.{Sides};
ghost use Rattle.ob_schema.specs.Models.{IsRegistry};
ghost use Rattle.ob_schema.specs.Tables.{Fits, Tables};
ghost use Rattle.ob_schema.specs.Tied.{IsTied};
ghost use Rattle.ob_schema.specs.Val.{val};
ghost use Rattle.ob_schema.specs.declared.info.ModelInfo.{ModelInfo};
ghost use Rattle.ob_sound.specs.FormulasBreak.{FormulasBreak};
ghost use Rattle.ob_trigger.specs.Affected.{Changed, IsComputedBehind};

use ob_tables::{sound_values, values_from_scratch};

/// Where rows can be followed, a computed cell that fails itself and a check that is false are
/// broken so.
pub fn broken_formulas_found()
    ensures { (models : List ModelInfo) (tables : Tables) (broken : BrokenKind) (cell : Cell)
        → IsTied models tables → FormulasBreak models tables broken cell → IsBroken models tables (record { kind = broken; cell = cell }) }
{}

/// Behind a change of sound tables whose rows can be followed still, each cell that formulas break
/// is one to which the change gives another outcome: none else need be tested.
pub fn broken_is_changed()
    ensures { (models : List ModelInfo) (sides : Sides) (broken : BrokenKind) (cell : Cell)
        → IsRegistry models → AreSound models sides.before → Fits models sides.behind → IsTied models sides.behind
        → FormulasBreak models sides.behind broken cell → Changed models sides cell }
{
    // The laws of values from scratch: they are one step of their definition over themselves,
    // and sound tables have them all.
    values_from_scratch();
    sound_values();
}

/// A computed cell that the change gives no other outcome has behind it the value that it had in
/// sound tables before, so that what is held of it stays right.
pub fn others_keep_values()
    ensures { (models : List ModelInfo) (sides : Sides) (cell : Cell)
        → IsRegistry models → AreSound models sides.before → IsComputedBehind models sides cell → (Changed models sides cell → ⊥)
        → val models sides.before cell ≡ val models sides.behind cell }
{
    sound_values();
}
