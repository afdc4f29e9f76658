//! The values of computed cells that last behind a change of tables: those whose rows are there
//! still. Only the rows that the change touched are looked at; how the others' values are carried
//! over may change here at will.

ghost use Rattle.std.specs.Prelude.{◌≡◌, ◌≤◌, IfOk, IsSome, None, OnOk};
ghost use Rattle.std.specs.BTreeMap as tree;
ghost use Rattle.ob_base.specs.BrokenOrder.{cell_order};
ghost use Rattle.ob_base.specs.declared.id.Cell.{Cell};
ghost use Rattle.ob_base.specs.declared.id.FieldNo.{FieldNo};
ghost use Rattle.ob_cache.specs.Behind.{HasNoneOf, LosesGone};
ghost use Rattle.ob_cache.specs.Rooms.{AreRight};
ghost use Rattle.ob_change.specs.Changing.{models_of, sides_of};
ghost use Rattle.ob_schema.specs.Models.{HasField};
ghost use Rattle.ob_schema.specs.Tables.{row_at};
ghost use Rattle.ob_sound.specs.Touched.{TouchesOnly};

use crate::whole::CellValues;
use ob_base::{Cell, FieldNo, ModelNo, NoMemory, RowKey};
use ob_change::Change;
use ob_schema::Schema;

/// The values of cells whose rows are there behind a change.
pub(crate) fn lasting_values(
    change: Change<'_, '_>,
    before: &CellValues,
) -> Result<CellValues, NoMemory>
    requires before { AreRight (models_of change) change.before.now.tables before.now }
    requires touches { TouchesOnly change.touched.now (sides_of change) }
    ensures lasting { IfOk result (λ copy. (cell : Cell) → IsSome (row_at change.entry.behind.now.tables cell.model cell.id)
        → tree.get cell_order copy cell ≡ tree.get cell_order before.now cell) }
    ensures gone { IfOk result (λ copy. (cell : Cell) → row_at change.entry.behind.now.tables cell.model cell.id ≡ None → tree.get cell_order copy cell ≡ None) }
{
    let mut values = before.try_clone()?;
    for key in change.touched {
        take_out_gone(change, *key, &mut values)?;
    }
    Ok(values)
}

/// Takes the values of a row out, if it isn't there behind a change.
fn take_out_gone(
    change: Change<'_, '_>,
    key: RowKey,
    values: &mut CellValues,
) -> Result<(), NoMemory>
    ensures loses { OnOk result (LosesGone change.entry.behind.now.tables values.old values.new) }
    ensures gone { OnOk result (row_at change.entry.behind.now.tables key.model key.id ≡ None → HasNoneOf (models_of change.entry) key values.new) }
{
    if change.behind.has_row(key.model, key.id) {
        return Ok(());
    }
    take_out_row(change, key, values)
}

/// Takes the values of a row out that isn't there behind a change.
fn take_out_row(
    change: Change<'_, '_>,
    key: RowKey,
    values: &mut CellValues,
) -> Result<(), NoMemory>
    requires { row_at change.behind.now.tables key.model key.id ≡ None }
    ensures loses { OnOk result (LosesGone change.entry.behind.now.tables values.old values.new) }
    ensures gone { OnOk result (HasNoneOf (models_of change.entry) key values.new) }
{
    let count = last_field(change.schema, key.model);
    for place in 0..count {
        let field = FieldNo(place + 1);
        values.remove(&cell_in(key, field))?;
    }
    Ok(())
}

/// The cell of a field in a row.
fn cell_in(key: RowKey, field: FieldNo) -> Cell
    ensures { result ≡ record { model = key.model; id = key.id; field = field } }
{
    Cell {
        model: key.model,
        id: key.id,
        field,
    }
}

/// The number of the last field of a model, conditions among them; 0 where there is no such model.
fn last_field(schema: &Schema, model: ModelNo) -> u16
    ensures { (field : FieldNo) → HasField schema.now model field → field.0 ≤ result }
{
    let Some(info) = schema.find_model(model) else {
        return 0;
    };
    // The law of the registry: a model has fewer fields than there are numbers.
    schema.parts_fit_together();
    (info.fields.len() + info.hidden.len()) as u16
}
