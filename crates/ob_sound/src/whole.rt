//! The laws by which tables stay sound exactly where tests pass, as clauses of functions that do
//! nothing.

ghost use Rattle.std.specs.Prelude.{List, Contains};
ghost use Rattle.ob_base.specs.declared.id.Cell.{Cell};
ghost use Rattle.ob_schema.specs.Broken.{AreSound, Sound};
ghost use Rattle.ob_schema.specs.Links.{Sides};
ghost use Rattle.ob_schema.specs.Models.{IsRegistry};
ghost use Rattle.ob_schema.specs.Tables.{Fits, Tables};
ghost use Rattle.ob_schema.specs.declared.info.ModelInfo.{ModelInfo};
ghost use Rattle.ob_sound.specs.EditsBreak.{EditsPass};
ghost use Rattle.ob_sound.specs.FormulasBreak.{FormulasPass};
ghost use Rattle.ob_trigger.specs.Affected.{Changed};

use crate::edits::still_tied;
use crate::formulas::broken_is_changed;

/// Tables that were sound are sound behind a change if they fit their registry, all tests of what
/// the change edits pass, and formulas break none of some cells, among which are all that the
/// change gives another outcome.
pub fn still_sound()
    ensures { (models : List ModelInfo) (sides : Sides) (cells : List Cell)
        → IsRegistry models → AreSound models sides.before → Fits models sides.behind
        → EditsPass models sides → ((cell : Cell) → Changed models sides cell → Contains cells cell) → FormulasPass models sides.behind cells
        → AreSound models sides.behind }
{
    still_tied();
    broken_is_changed();
}

/// Where nothing is broken all tests pass: so where one fails something is.
pub fn sound_tables_pass()
    ensures edits { (models : List ModelInfo) (sides : Sides) → Sound models sides.behind → EditsPass models sides }
    ensures formulas { (models : List ModelInfo) (tables : Tables) (cells : List Cell) → Sound models tables → FormulasPass models tables cells }
{}
