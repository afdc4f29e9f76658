//! Which rows no call deletes: those of a managed model, and the places that Inventory itself names.
//! A further such row stands here.

ghost use Rattle.std.specs.Prelude.{◌≡◌, ◌↔◌, IsTrue};
ghost use Rattle.ob_rows.specs.Lasting as spec;
ghost use Rattle.ob_rows.specs.Lasting.{Lasts};
ghost use Rattle.ob_schema.specs.Models.{HasModel};

use ob_base::{RecId, RowKey};
use ob_schema::{ModelInfo, Schema};

/// Whether no call deletes a row: its model is managed, or it is one of the places that Inventory
/// names by their ids, 2, 3, 5 and 7 of `stock.location`, as the module `stock` brings them: vendors,
/// customers, adjustments and scrap.
pub fn lasts(schema: &Schema, row: RowKey) -> bool
    requires model { HasModel schema.now row.model }
    ensures stated { IsTrue result ↔ Lasts schema.now row }
{
    let info = schema.model_info(row.model);
    info.managed || is_stock_place(info, row.id)
}

/// Whether a row of a model is one of those places.
fn is_stock_place(info: &ModelInfo, id: RecId) -> bool
    ensures { result ≡ spec.is_stock_place info.now id }
{
    info.name.as_str() == "stock.location" && matches!(id.0, 2 | 3 | 5 | 7)
}
