//! Laws of the lists that rows make of those that name them, as clauses of functions that do
//! nothing: which of them a change edits, and where a row that is gone is named still.

ghost use Rattle.std.specs.Prelude.{◌≡◌, List, Contains, IsSomeAnd, true};
ghost use Rattle.std.specs.Option.{option_or};
ghost use Rattle.ob_base.specs.declared.id.Cell.{Cell};
ghost use Rattle.ob_base.specs.declared.id.RecId.{RecId};
ghost use Rattle.ob_schema.specs.Fields.{is_plain_kept};
ghost use Rattle.ob_schema.specs.Links.{Sides};
ghost use Rattle.ob_schema.specs.Models.{FieldHas, IsRegistry};
ghost use Rattle.ob_schema.specs.Plain.{naming, plain_at};
ghost use Rattle.ob_schema.specs.Tables.{row_at};
ghost use Rattle.ob_schema.specs.declared.info.ModelInfo.{ModelInfo};
ghost use Rattle.ob_sound.specs.EditsBreak.{IsGone, NamesGone};
ghost use Rattle.ob_sound.specs.Lists.{IsNamedAlike, IsOfUneditedList};

/// A cell whose row is the same on both sides is edited at most where rows that name it make its
/// value, and one of them names it on one side alone.
pub fn lists_alone_are_edited()
    ensures own { (models : List ModelInfo) (sides : Sides) (cell : Cell)
        → row_at sides.before cell.model cell.id ≡ row_at sides.behind cell.model cell.id
        → FieldHas models (λ info. option_or info.inverse info.mirror ≡ None) cell.model cell.field
        → plain_at sides.before models cell ≡ plain_at sides.behind models cell }
    ensures listed { (models : List ModelInfo) (sides : Sides) (cell : Cell)
        → row_at sides.before cell.model cell.id ≡ row_at sides.behind cell.model cell.id
        → FieldHas models (IsOfUneditedList sides cell.id) cell.model cell.field
        → plain_at sides.before models cell ≡ plain_at sides.behind models cell }
{}

/// A row that is gone is named still exactly where a plain kept relation to its model has a list
/// of rows that name it.
pub fn gone_rows_are_listed()
    ensures { (models : List ModelInfo) (sides : Sides) (cell : Cell) → IsRegistry models → NamesGone models sides cell
        → (id : RecId) × FieldHas models (λ info. (is_plain_kept info ≡ true) × IsSomeAnd info.relation (λ target. IsGone models sides target id)) cell.model cell.field
        × Contains (naming sides.behind cell.model cell.field id) cell.id }
{}
