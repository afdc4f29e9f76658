//! Laws of what edits break, as clauses of functions that do nothing.

ghost use Rattle.std.specs.Prelude.{List};
ghost use Rattle.ob_base.specs.declared.id.Cell.{Cell};
ghost use Rattle.ob_base.specs.declared.refusal.BrokenKind.TheVariants as kind;
ghost use Rattle.ob_schema.specs.Broken.{IsBroken, Sound};
ghost use Rattle.ob_schema.specs.Links.{Sides};
ghost use Rattle.ob_schema.specs.Models.{IsRegistry};
ghost use Rattle.ob_schema.specs.Tied.{IsTied};
ghost use Rattle.ob_schema.specs.declared.info.ModelInfo.{ModelInfo};
ghost use Rattle.ob_sound.specs.EditsBreak.{EditsBreak, EditsTie};

/// Where rows could be followed before a change they can be behind it, if the edited references
/// and trees lead to rows that are there, and no row that is gone is still named.
pub fn still_tied()
    ensures { (models : List ModelInfo) (sides : Sides) → IsRegistry models → IsTied models sides.before → EditsTie models sides → IsTied models sides.behind }
{}

/// A test of edited cells that fails finds that cell broken.
pub fn broken_cells_found()
    ensures required { (models : List ModelInfo) (sides : Sides) (cell : Cell) → EditsBreak models sides kind.Required cell → IsBroken models sides.behind (record { kind = kind.Required; cell = cell }) }
    ensures missing { (models : List ModelInfo) (sides : Sides) (cell : Cell) → EditsBreak models sides kind.MissingRef cell → IsBroken models sides.behind (record { kind = kind.MissingRef; cell = cell }) }
    ensures unique { (models : List ModelInfo) (sides : Sides) (cell : Cell) → EditsBreak models sides kind.Unique cell → IsBroken models sides.behind (record { kind = kind.Unique; cell = cell }) }
    ensures limit { (models : List ModelInfo) (sides : Sides) (cell : Cell) → EditsBreak models sides kind.Limit cell → IsBroken models sides.behind (record { kind = kind.Limit; cell = cell }) }
{}

/// A test of trees that fails finds some row of the tree broken so: the least of them is told.
pub fn broken_trees_found()
    ensures tree { (models : List ModelInfo) (sides : Sides) (cell : Cell) → EditsBreak models sides kind.Tree cell → Sound models sides.behind → ⊥ }
    ensures depth { (models : List ModelInfo) (sides : Sides) (cell : Cell) → EditsBreak models sides kind.Depth cell → Sound models sides.behind → ⊥ }
{}
