//! The links between rows that the engine tells: on the side of the tables that were settled
//! last, and on that of the tables with the edits since.

ghost use Rattle.std.specs.Prelude.{◌≡◌, ◌≤◌, ◌∷◌, [], IfOk, cond, filter, is_some};
ghost use Rattle.ob_base.specs.Rising.{IsRising};
ghost use Rattle.ob_cache.specs.Standing.{Stays};
ghost use Rattle.ob_cache.specs.Telling.{FailsLinks, TellsLinks};
ghost use Rattle.ob_io.specs.Cause.{Rose};
ghost use Rattle.ob_schema.specs.Links.{Leads, leading_to, led_to};
ghost use Rattle.ob_schema.specs.Models.{FieldHas};
ghost use Rattle.ob_schema.specs.Tables.{row_at};

use crate::engine::Engine;
use ob_base::{Cell, FieldNo, ModelNo, NoMemory, RecId, RefList, Value};
use ob_io::{KeepFault, Keeper};
use ob_schema::{Links, Origin, Schema, Side};
use ob_tables::Tables;
use std::alloc::Global;

impl<'k, K: Keeper> Links for Engine<'k, K> {
    type Fault = KeepFault;

    ghost registry = { λ engine. engine.held.models };

    ghost tells = { λ engine. TellsLinks (K.kept engine.keeper.now) engine.held };

    ghost asks = { λ old new. (new.keeper.ghost_name ≡ old.keeper.ghost_name) × Stays (K.kept old.keeper.now) old.held (K.kept new.keeper.now) new.held
        × (K.faults old.keeper.now ≤ K.faults new.keeper.now) };

    ghost has_failed = { λ old new. FailsLinks (Rose (K.faults old.keeper.now) (K.faults new.keeper.now)) };

    fn targets(&mut self, side: Side, cell: Cell) -> Result<RefList, KeepFault> {
        Ok(self.held().targets(side, cell)?)
    }

    fn sources(
        &mut self,
        side: Side,
        model: ModelNo,
        field: FieldNo,
        target: RecId,
    ) -> Result<RefList, KeepFault> {
        Ok(self.held().sources(side, model, field, target)?)
    }
}

/// The rows to which a cell leads.
pub(crate) fn targets_in(
    alloc: Global,
    schema: &Schema,
    tables: &Tables<'_>,
    cell: Cell,
) -> Result<RefList, NoMemory>
    requires over { tables.now.models ≡ schema.now }
    requires leads { FieldHas tables.now.models Leads cell.model cell.field }
    ensures { IfOk result (λ ids. ids ≡ led_to tables.now.models tables.now.tables cell) }
{
    tables.fit_together();
    match schema.info(cell.model, cell.field).origin {
        Origin::Id => only_if(alloc, tables.has_row(cell.model, cell.id), cell.id),
        _ => match tables.plain(cell)? {
            Some(Value::Ref(id)) => only_if(alloc, true, id),
            Some(Value::Refs(ids)) => Ok(ids),
            _ => Ok(RefList::new(alloc)),
        },
    }
}

/// The rows of a model whose cell of a field leads to a row. Those that a list has are found
/// from the other side.
pub(crate) fn sources_in(
    alloc: Global,
    schema: &Schema,
    tables: &Tables<'_>,
    model: ModelNo,
    field: FieldNo,
    target: RecId,
) -> Result<RefList, NoMemory>
    requires over { tables.now.models ≡ schema.now }
    requires leads { FieldHas tables.now.models Leads model field }
    ensures { IfOk result (λ ids. ids ≡ leading_to tables.now.models tables.now.tables model field target) }
{
    tables.fit_together();
    let info = schema.info(model, field);
    match (info.relation, info.inverse.or(info.mirror)) {
        (Some(relation), Some(back)) => {
            let back = Cell {
                model: relation,
                id: target,
                field: back,
            };
            named_rows(alloc, schema, tables, model, back)
        }
        (Some(_), None) => tables.naming(model, field, target),
        (None, _) => only_if(alloc, tables.has_row(model, target), target),
    }
}

/// The rows of a model that are there and to which a cell leads.
fn named_rows(
    alloc: Global,
    schema: &Schema,
    tables: &Tables<'_>,
    model: ModelNo,
    back: Cell,
) -> Result<RefList, NoMemory>
    requires over { tables.now.models ≡ schema.now }
    requires leads { FieldHas tables.now.models Leads back.model back.field }
    ensures there { IfOk result (λ ids. ids ≡ filter (λ id. is_some (row_at tables.now.tables model id)) (led_to tables.now.models tables.now.tables back)) }
    ensures rising { IfOk result IsRising }
{
    let named = targets_in(alloc, schema, tables, back)?;
    let mut there = RefList::new(alloc);
    for id in named.as_slice() {
        if tables.has_row(model, *id) {
            there.push(*id)?;
        }
    }
    // The law of these lists: they rise.
    let _ = there.as_slice();
    Ok(there)
}

/// The list of an id, or the empty one.
fn only_if(alloc: Global, is_there: bool, id: RecId) -> Result<RefList, NoMemory>
    ensures { IfOk result (λ ids. ids ≡ cond is_there (id ∷ []) []) }
{
    let mut ids = RefList::new(alloc);
    if is_there {
        ids.push(id)?;
    }
    Ok(ids)
}
