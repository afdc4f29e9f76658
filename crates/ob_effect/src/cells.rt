//! Rows and their cells, and the cell `id` of a row, by which calls tell what is wrong with the row
//! as a whole.

ghost use Rattle.std.specs.Prelude.{◌≡◌, IsSomeAnd, true};
ghost use Rattle.ob_effect.specs.Cells.{cell_at, row_at_cell};
ghost use Rattle.ob_schema.specs.Models.{HasModel, field_at, is_id_from};

use ob_base::{Cell, FieldNo, RowKey};
use ob_schema::Schema;

/// The cell of a field of a row.
pub fn cell_of(row: RowKey, field: FieldNo) -> Cell
    ensures { result ≡ cell_at row field }
{
    Cell {
        model: row.model,
        id: row.id,
        field,
    }
}

/// The row of a cell.
pub(crate) fn row_of(cell: Cell) -> RowKey
    ensures { result ≡ row_at_cell cell }
{
    RowKey {
        model: cell.model,
        id: cell.id,
    }
}

/// The cell of the field `id` of a row.
pub fn id_cell(schema: &Schema, row: RowKey) -> Cell
    requires model { HasModel schema.now row.model }
    ensures row { (result.model ≡ row.model) × (result.id ≡ row.id) }
    ensures field { IsSomeAnd (field_at schema.now row.model result.field) (λ info. is_id_from info.origin ≡ true) }
{
    // Each model has a field of this name, which is the id.
    schema.parts_fit_together();
    match schema.field(row.model, "id") {
        Some(field) => cell_of(row, field),
        None => unreachable!(),
    }
}
