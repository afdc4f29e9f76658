//! The cell `id` of a row, by which calls tell what is wrong with the row as a whole.

ghost use Rattle.std.specs.Prelude.{◌≡◌, IsSomeAnd, true};
ghost use Rattle.ob_schema.specs.Models.{HasModel, field_at, is_id_from};

use ob_base::{Cell, ModelNo, RecId};
use ob_schema::Schema;

/// The cell of the field `id` of a row, whether it is there or not. The caller sees to it that the
/// registry has the model.
pub fn id_cell(schema: &Schema, model: ModelNo, id: RecId) -> Cell
    requires model { HasModel schema.now model }
    ensures row { (result.model ≡ model) × (result.id ≡ id) }
    ensures field { IsSomeAnd (field_at schema.now model result.field) (λ info. is_id_from info.origin ≡ true) }
{
    // Each model has a field of this name, which is the id.
    schema.parts_fit_together();
    match schema.field(model, "id") {
        Some(field) => Cell { model, id, field },
        None => unreachable!(),
    }
}
