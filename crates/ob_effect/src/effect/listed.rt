//! The lists of a row that commands are given, and where each of them stands before any command.

ghost use Rattle.std.specs.Prelude.{◌≡◌, All, Contains, IfErr, IfOk, IfSome, true};
ghost use Rattle.ob_cache.specs.Calls.{Refuses};
ghost use Rattle.ob_cache.specs.Stages.{IsUsable};
ghost use Rattle.ob_effect.specs.Effect.{Asks};
ghost use Rattle.ob_effect.specs.Lists.{IsListField};
ghost use Rattle.ob_effect.specs.Objects.{AreTypedOrders};
ghost use Rattle.ob_definition.specs.Types.{is_list};
ghost use Rattle.ob_io.specs.Cause.{Rose};
ghost use Rattle.ob_schema.specs.Models.{FieldHas, HasModel};

use crate::cells::{cell_of, row_of};
use crate::object::Orders;
use crate::rows::Writer;
use crate::staged::{is_there, linked_row};
use ob_base::{Cell, FieldNo, Refusal, RowKey};
use ob_cache::Engine;
use ob_io::Keeper;
use ob_schema::Origin;

/// A list that commands are given, by its cell, and the link behind which this stands: none of the
/// row's own.
#[derive(Clone, Copy)]
pub(crate) struct Listed<'o> {
    pub(crate) cell: Cell,
    pub(crate) behind: Option<FieldNo>,
    pub(crate) orders: &'o Orders,
}

/// The lists that commands on a row mean as it stands; none where a delegated one has no parent's
/// row. A command that changes the row's links later doesn't change which lists are meant.
pub(crate) fn lists_of<'o, K: Keeper>(
    engine: &mut Engine<'_, K>,
    writer: &Writer<'_>,
    row: RowKey,
    all: &'o [Orders],
) -> Result<Vec<Listed<'o>>, Refusal>
    requires over { writer.now.schema.now ≡ engine.old.held.models }
    requires usable { IsUsable engine.old.held.phase }
    requires orders { All (AreTypedOrders engine.old.held.models row.model) all.now }
    ensures lists { IfOk result (λ lists. All (λ one. IsListField engine.old.held.models one.cell.model one.cell.field) lists.items) }
    ensures orders { IfOk result (λ lists. All (λ one. Contains all.now one.orders.now) lists.items) }
    ensures causes { IfErr result (Refuses (Rose (K.faults engine.old.keeper.now) (K.faults engine.new.keeper.now)) (λ _. ⊥)) }
    ensures asked { Asks K.Keeper engine.old engine.new }
{
    let mut lists = Vec::new(writer.alloc);
    for orders in all {
        if let Some(one) = meant_list(engine, writer, row, orders)? {
            lists.push(one)?;
        }
    }
    Ok(lists)
}

/// A list of a row that commands are given; of a delegated one that of the parent's row, where one
/// is linked.
fn meant_list<'o, K: Keeper>(
    engine: &mut Engine<'_, K>,
    writer: &Writer<'_>,
    row: RowKey,
    orders: &'o Orders,
) -> Result<Option<Listed<'o>>, Refusal>
    requires over { writer.now.schema.now ≡ engine.old.held.models }
    requires usable { IsUsable engine.old.held.phase }
    requires field { FieldHas engine.old.held.models (λ info. is_list info.field_type ≡ true) row.model orders.now.field }
    ensures list { IfOk result (λ list. IfSome list (λ one. IsListField engine.old.held.models one.cell.model one.cell.field)) }
    ensures orders { IfOk result (λ list. IfSome list (λ one. one.orders.now ≡ orders.now)) }
    ensures causes { IfErr result (Refuses (Rose (K.faults engine.old.keeper.now) (K.faults engine.new.keeper.now)) (λ _. ⊥)) }
    ensures asked { Asks K.Keeper engine.old engine.new }
{
    // The law of registries, by which a delegated field has the keys of the parent's.
    writer.schema.parts_fit_together();
    match &writer.schema.info(row.model, orders.field).origin {
        Origin::Delegated(at) => match linked_row(engine, cell_of(row, at.link), at.model)? {
            Some(parent) => Ok(Some(Listed {
                cell: cell_of(parent, at.field),
                behind: Some(at.link),
                orders,
            })),
            None => Ok(None),
        },
        _ => Ok(Some(Listed {
            cell: cell_of(row, orders.field),
            behind: None,
            orders,
        })),
    }
}

/// Whether the row of a list is a parent's that isn't there any more.
pub(crate) fn is_gone<K: Keeper>(
    engine: &mut Engine<'_, K>,
    row: RowKey,
    cell: Cell,
) -> Result<bool, Refusal>
    requires usable { IsUsable engine.old.held.phase }
    requires model { HasModel engine.old.held.models cell.model }
    ensures causes { IfErr result (Refuses (Rose (K.faults engine.old.keeper.now) (K.faults engine.new.keeper.now)) (λ _. ⊥)) }
    ensures asked { Asks K.Keeper engine.old engine.new }
{
    let at = row_of(cell);
    if at == row {
        return Ok(false);
    }
    let there = is_there(engine, at)?;
    Ok(!there)
}
