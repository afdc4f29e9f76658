//! Laws of the definitions, as clauses of functions that do nothing.

ghost use Rattle.std.specs.FinMap as finite;
ghost use Rattle.std.specs.Prelude.{◌≡◌, ◌≢◌, ◌≤◌, ◌++◌, ℕ, All, IsOk, IsSome, List, None, Ok, Result, Some, option_map, slice_get, true};
ghost use Rattle.ob_base.specs.Rising.{IsRising};
ghost use Rattle.ob_base.specs.declared.id.Cell.{Cell};
ghost use Rattle.ob_base.specs.declared.id.FieldNo.{FieldNo};
ghost use Rattle.ob_base.specs.declared.id.ModelNo.{ModelNo};
ghost use Rattle.ob_base.specs.declared.id.RecId.{RecId};
ghost use Rattle.ob_base.specs.declared.value.Value.{Value};
ghost use Rattle.ob_expr.specs.Computing.{Lack};
ghost use Rattle.ob_schema.specs.Broken.{AreSound};
ghost use Rattle.ob_definition.specs.Values.{IsNative};
ghost use Rattle.ob_schema.specs.Fields.{Holds};
ghost use Rattle.ob_schema.specs.Models.{IsRegistry, field_at, is_computed_from, model_at};
ghost use Rattle.ob_schema.specs.declared.info.FieldInfo.{FieldInfo};
ghost use Rattle.ob_schema.specs.declared.info.Formula.{Formula};
ghost use Rattle.ob_schema.specs.declared.info.ModelInfo.{ModelInfo};
ghost use Rattle.ob_schema.specs.Plain.{naming};
ghost use Rattle.ob_tables.specs.After.{after, edited, row_of};
ghost use Rattle.ob_tables.specs.Changes.{MakesBelow, edited_row, has_row, row_names, with_id_if};
ghost use Rattle.ob_schema.specs.Tied.{IsTied};
ghost use Rattle.ob_schema.specs.Tables.{Fits, Tables, ids_in, key_of, next_of, row_at, rows_in};
ghost use Rattle.ob_schema.specs.Val.{AgreesOnRows, IsVal, ReadsNoneInVain, formula_value, or_inherited, val};
ghost use Rattle.ob_tables.specs.Agreeing.{AgreeAlong};
ghost use Rattle.ob_tables.specs.declared.edit.Edit.{Edit};
ghost use Rattle.ob_tables.specs.declared.edit.Edit.TheVariants as edit;

use ob_expr::{reads_along_paths, values_from_cells, values_of_kinds};

/// Edits after edits make what all of them make in turn.
pub fn after_in_turn()
    ensures { (models : List ModelInfo) (tables : Tables) (first second : List Edit)
        → after models (after models tables first) second ≡ after models tables (first ++ second) }
{}

/// What one edit changes: of the rows its own; of the ids of a model, and of those whose field
/// names a row, whether its own is among them.
pub fn one_row_changes()
    ensures rows { (models : List ModelInfo) (tables : Tables) (one : Edit) (model : ModelNo) (id : RecId)
        → key_of model id ≢ edited_row one → row_at (edited models tables one) model id ≡ row_at tables model id }
    ensures made { (models : List ModelInfo) (tables : Tables) (model : ModelNo) (id : RecId) (values : List (FieldNo × Value)) (info : ModelInfo)
        → model_at models model ≡ Some info
        → row_at (edited models tables (edit.Make model id values)) model id ≡ Some (row_of info values) }
    ensures set { (models : List ModelInfo) (tables : Tables) (cell : Cell) (v : Value)
        → row_at (edited models tables (edit.Set cell v)) cell.model cell.id
        ≡ option_map (λ row. finite.insert row cell.field.0 v) (row_at tables cell.model cell.id) }
    ensures gone { (models : List ModelInfo) (tables : Tables) (model : ModelNo) (id : RecId)
        → row_at (edited models tables (edit.Gone model id)) model id ≡ None }
    ensures ids { (models : List ModelInfo) (tables : Tables) (one : Edit)
        → let key = edited_row one in
        let new = edited models tables one in
        ids_in new key.model ≡ with_id_if (has_row new key) key.id (ids_in tables key.model) }
    ensures naming { (models : List ModelInfo) (tables : Tables) (one : Edit) (field : FieldNo) (id : RecId)
        → let key = edited_row one in
        let new = edited models tables one in
        naming new key.model field id ≡ with_id_if (row_names new key field id) key.id (naming tables key.model field id) }
    ensures others { (models : List ModelInfo) (tables : Tables) (one : Edit) (model : ModelNo)
        → model ≢ (edited_row one).model → rows_in (edited models tables one) model ≡ rows_in tables model }
{}

/// Over tables whose rows lead to rows that are there and whose trees are trees, values from
/// scratch are one step of their definition over themselves; so are no others; and no cell of
/// a row that is there reads one of a row that isn't.
pub fn values_from_scratch()
    ensures is_val { (models : List ModelInfo) (tables : Tables)
        → IsRegistry models → Fits models tables → IsTied models tables → IsVal models tables (val models tables) }
    ensures only { (models : List ModelInfo) (tables : Tables)
        → IsRegistry models → Fits models tables → IsTied models tables → AgreesOnRows models tables }
    ensures whole { (models : List ModelInfo) (tables : Tables)
        → IsRegistry models → Fits models tables → IsTied models tables → ReadsNoneInVain models tables }
{
    // The law that a formula reads along its paths.
    reads_along_paths();
}

/// Over tables that break nothing, each field of each row that is there has a value from
/// scratch; where the program holds the value of a computed one, its field may hold it.
pub fn sound_values()
    ensures valued { (models : List ModelInfo) (tables : Tables) → IsRegistry models → AreSound models tables
        → (cell : Cell) → IsSome (row_at tables cell.model cell.id) → IsSome (field_at models cell.model cell.field) → IsOk (val models tables cell) }
    ensures typed { (models : List ModelInfo) (tables : Tables) → IsRegistry models → AreSound models tables
        → (cell : Cell) (info : FieldInfo) → field_at models cell.model cell.field ≡ Some info → is_computed_from info.origin ≡ true
        → (v : Value) → val models tables cell ≡ Ok v → IsNative v → Holds info v }
{
    reads_along_paths();
    values_from_cells();
    values_of_kinds();
}

/// Values that agree on the cells along the paths of a formula give its cell the same.
pub fn reads_alone()
    ensures formula { (values others : Cell → Result Value Lack) (formula : Formula) (info : FieldInfo) (cell : Cell)
        → AgreeAlong values others formula cell → formula_value others formula info cell ≡ formula_value values formula info cell }
    ensures cell { (values others : Cell → Result Value Lack) (formula : Formula) (info : FieldInfo) (cell : Cell)
        → AgreeAlong values others formula cell
        → or_inherited others (formula_value others formula info cell) ≡ or_inherited values (formula_value values formula info cell) }
{
    reads_along_paths();
}

/// The ids of a model are those of its rows, and rise; so do those of the rows that name one.
pub fn ids_are_of_rows()
    ensures there { (tables : Tables) (model : ModelNo) (place : ℕ) (id : RecId) → slice_get (ids_in tables model) place ≡ Some id → IsSome (row_at tables model id) }
    ensures listed { (tables : Tables) (model : ModelNo) (id : RecId) → IsSome (row_at tables model id) → (place : ℕ) × (slice_get (ids_in tables model) place ≡ Some id) }
    ensures rising { (tables : Tables) (model : ModelNo) → IsRising (ids_in tables model) }
    ensures naming { (tables : Tables) (model : ModelNo) (field : FieldNo) (id : RecId) → IsRising (naming tables model field id) }
{}

/// Edits never lower a next id, and raise it no further than above the ids of the rows that
/// they make.
pub fn next_ids_after()
    ensures rises { (models : List ModelInfo) (tables : Tables) (edits : List Edit) (model : ModelNo)
        → next_of tables model ≤ next_of (after models tables edits) model }
    ensures bound { (models : List ModelInfo) (tables : Tables) (edits : List Edit) (model : ModelNo) (bound : ℕ)
        → All (MakesBelow model bound) edits → next_of tables model ≤ bound → next_of (after models tables edits) model ≤ bound }
{}
