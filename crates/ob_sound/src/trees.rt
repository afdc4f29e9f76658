//! Laws of depths in trees, as clauses of functions that do nothing: so the rows below one that
//! is moved are tested by its own depth and by how many steps below it each stands.

ghost use Rattle.std.specs.Prelude.{◌≡◌, ◌+◌, ℕ, List};
ghost use Rattle.ob_base.specs.declared.id.FieldNo.{FieldNo};
ghost use Rattle.ob_base.specs.declared.id.ModelNo.{ModelNo};
ghost use Rattle.ob_base.specs.declared.id.RecId.{RecId};
ghost use Rattle.ob_schema.specs.Chains.{ReachesOver};
ghost use Rattle.ob_schema.specs.Tables.{Tables};
ghost use Rattle.ob_schema.specs.Tied.{HasDepth, IsParentIn};
ghost use Rattle.ob_schema.specs.declared.info.ModelInfo.{ModelInfo};

/// A row stands as much deeper than one above it as there are steps between, and no row stands at
/// two depths.
pub fn depths_add()
    ensures below { (models : List ModelInfo) (tables : Tables) (model : ModelNo) (parent : FieldNo) (top id : RecId) (depth between : ℕ)
        → HasDepth models tables model parent depth top → ReachesOver (IsParentIn models tables model parent) between id top
        → HasDepth models tables model parent (depth + between + 1) id }
    ensures once { (models : List ModelInfo) (tables : Tables) (model : ModelNo) (parent : FieldNo) (id : RecId) (depth other : ℕ)
        → HasDepth models tables model parent depth id → HasDepth models tables model parent other id → depth ≡ other }
{}
