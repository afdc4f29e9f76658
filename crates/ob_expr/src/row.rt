//! The row whose fields an expression reads.

ghost use Rattle.std.specs.Prelude.{◌≡◌};
ghost use Rattle.ob_expr.specs.Meaning.{cell_in, row_of};

use ob_base::{Cell, FieldNo, ModelNo, RecId};

/// A row of a model.
#[derive(Clone, Copy, Debug, PartialEq, Eq)]
pub struct Row {
    pub model: ModelNo,
    pub id: RecId,
}

impl Row {
    /// The row of a cell.
    pub fn of(cell: Cell) -> Row
        ensures { result ≡ row_of cell }
    {
        Row {
            model: cell.model,
            id: cell.id,
        }
    }

    /// The cell of a field.
    pub fn cell(self, field: FieldNo) -> Cell
        ensures { result ≡ cell_in self field }
    {
        Cell {
            model: self.model,
            id: self.id,
            field,
        }
    }
}
