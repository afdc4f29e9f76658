//! The values of computed cells behind a change of sound tables: those of before, without those of
//! rows that are gone, and with the marked ones evaluated anew. How a map of values is made of
//! another may change here at will.

ghost use Rattle.std.specs.Prelude.{◌≡◌, ◌↔◌, IfErr, IfOk, IsOk, IsSome, IsSomeAnd, IsTrue, None, OnOk, Some, false, if◌then◌else◌, length};
ghost use Rattle.std.specs.BTreeMap as tree;
ghost use Rattle.std.specs.Ordering.{is_eq};
ghost use Rattle.ob_base.specs.BrokenOrder.{cell_order};
ghost use Rattle.ob_base.specs.declared.id.Cell.{Cell};
ghost use Rattle.ob_base.specs.declared.value.Value.TheVariants as values;
ghost use Rattle.ob_cache.specs.Behind.{AreKnown, AreMarked, AreUnbroken, HaveOthers, IsUnbroken, TicksUpTo};
ghost use Rattle.ob_cache.specs.Rooms.{AreRight, AreValues, IsComputedCell, IsUnsoundBy};
ghost use Rattle.ob_change.specs.Changing.{models_of, sides_of};
ghost use Rattle.ob_schema.specs.Broken.{AreSound, Sound};
ghost use Rattle.ob_schema.specs.Checks.{IsCheck};
ghost use Rattle.ob_schema.specs.Models.{field_at, model_at};
ghost use Rattle.ob_schema.specs.Tied.{IsTied};
ghost use Rattle.ob_sound.specs.Touched.{TouchesOnly};

use crate::failing::own_fault;
use crate::knowing::know_read;
use crate::lasting::lasting_values;
use crate::whole::CellValues;
use ob_base::{Broken, BrokenKind, Cell, Ledger, NoMemory, Steps, Value};
use ob_change::Change;
use ob_schema::Schema;
use ob_sound::others_keep_values;
use ob_tables::{ApplyFault, ScratchFault, Values, sound_values, values_from_scratch};

/// The values of the computed cells behind a change, or what formulas break in a marked one. Steps
/// tick once for each cell that is evaluated.
pub(crate) fn values_behind<L: Ledger>(
    change: Change<'_, '_>,
    before: &CellValues,
    marked: &[Cell],
    steps: &mut Steps<L>,
) -> Result<CellValues, ApplyFault>
    requires sound { AreSound (models_of change) change.before.now.tables }
    requires before { AreValues (models_of change) change.before.now.tables before.now }
    requires touches { TouchesOnly change.touched.now (sides_of change) }
    requires tied { IsTied (models_of change) change.behind.now.tables }
    requires marked { AreMarked (models_of change) (sides_of change) marked.now }
    ensures unbroken { IfOk result (AreUnbroken (models_of change.entry) change.entry.behind.now.tables marked.now) }
    ensures fault { IfErr result (IsUnsoundBy change.entry.behind.now) }
    ensures ticks { TicksUpTo L.noted (length marked.now) (IsOk result) steps.old steps.new }
{
    let mut values = unmarked_values(change, before, marked)?;
    let mut source = Values::of(change.behind)?;
    know_read(&values, marked, &mut source)?;
    for cell in marked {
        steps.tick();
        let value = value_behind(change, *cell, &values, &mut source)?;
        put(&mut values, *cell, value)?;
    }
    Ok(values)
}

/// The values of the cells that keep theirs behind a change.
fn unmarked_values(
    change: Change<'_, '_>,
    before: &CellValues,
    marked: &[Cell],
) -> Result<CellValues, NoMemory>
    requires sound { AreSound (models_of change) change.before.now.tables }
    requires before { AreValues (models_of change) change.before.now.tables before.now }
    requires touches { TouchesOnly change.touched.now (sides_of change) }
    requires marked { AreMarked (models_of change) (sides_of change) marked.now }
    ensures right { IfOk result (AreRight (models_of change.entry) change.entry.behind.now.tables) }
    ensures others { IfOk result (HaveOthers (models_of change.entry) (sides_of change.entry) marked.now) }
{
    // The law of what a change leaves as it was.
    change.behind.fit_together();
    others_keep_values();
    let mut values = lasting_values(change, before)?;
    for cell in marked {
        values.remove(cell)?;
    }
    Ok(values)
}

/// The value of a computed cell of a row that is there, or what formulas break.
fn value_behind(
    change: Change<'_, '_>,
    cell: Cell,
    held: &CellValues,
    source: &mut Values<'_, '_>,
) -> Result<Value, ApplyFault>
    requires source { source.old ≡ change.behind.now }
    requires known { AreKnown change.behind.now.models change.behind.now.tables held.now }
    requires tied { IsTied (models_of change) change.behind.now.tables }
    requires cell { IsComputedCell (models_of change) change.behind.now.tables cell }
    ensures same { source.new ≡ source.old }
    ensures unbroken { IfOk result (IsUnbroken (models_of change.entry) change.entry.behind.now.tables cell) }
    ensures fault { IfErr result (IsUnsoundBy change.entry.behind.now) }
{
    // The laws of tables, of values from scratch, and of sound tables, whose cells have them all.
    change.behind.fit_together();
    values_from_scratch();
    sound_values();
    match source.value(cell) {
        Ok(value) => {
            if is_false_check(change.schema, cell, &value) {
                let kind = BrokenKind::Check;
                return Err(ApplyFault::Broken(Broken { kind, cell }));
            }
            Ok(value)
        }
        Err(fault) => match fault {
            ScratchFault::NoMemory => Err(ApplyFault::NoMemory),
            _ => Err(own_fault(change, cell, held, source)),
        },
    }
}

/// Gives a cell a value.
fn put(values: &mut CellValues, cell: Cell, value: Value) -> Result<(), NoMemory>
    ensures { OnOk result ((other : Cell) → tree.get cell_order values.new other
        ≡ (if is_eq (cell_order cell other) then Some value else tree.get cell_order values.old other)) }
{
    values.insert(cell, value)?;
    Ok(())
}

/// Whether a value is that of a check which is false.
fn is_false_check(schema: &Schema, cell: Cell, value: &Value) -> bool
    ensures { IsTrue result ↔ ((value.now ≡ values.Bool false) × IsSomeAnd (model_at schema.now cell.model)
        (λ info. IsSomeAnd (field_at schema.now cell.model cell.field) (IsCheck info cell.field))) }
{
    is_false(value) && is_check(schema, cell)
}

fn is_false(value: &Value) -> bool
    ensures { IsTrue result ↔ (value.now ≡ values.Bool false) }
{
    match value {
        Value::Bool(flag) => !*flag,
        _ => false,
    }
}

/// Whether a cell is that of a check.
fn is_check(schema: &Schema, cell: Cell) -> bool
    ensures { IsTrue result ↔ IsSomeAnd (model_at schema.now cell.model)
        (λ info. IsSomeAnd (field_at schema.now cell.model cell.field) (IsCheck info cell.field)) }
{
    let (Some(info), Some(field)) = (
        schema.find_model(cell.model),
        schema.find_field(cell.model, cell.field),
    ) else {
        return false;
    };
    usize::from(cell.field.0) > info.fields.len() && field.name.as_str() != "locked"
}
