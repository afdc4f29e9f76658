//! What a call does to rows and breaks by itself, noted while it is carried out: by this it is
//! judged at the end. A right is asked for where a row is noted, and the first that is wanting
//! refuses the call.

ghost use Rattle.std.specs.Prelude.{◌≡◌, [], List, IfErr, OnOk};
ghost use Rattle.ob_cache.specs.Calls.{Refuses};
ghost use Rattle.ob_cache.specs.Standing.{Holding, NextIdsUpTo, max_next_id};
ghost use Rattle.ob_effect.specs.Effect.{IsNoted, KeepsNoted, KeepsNotes, LacksRight, made_behind};
ghost use Rattle.ob_schema.specs.Models.{HasField, HasModel};
ghost use Rattle.ob_schema.specs.declared.info.ModelInfo.{ModelInfo};

use crate::asking::{Caller, may};
use crate::cells::id_cell;
use ob_base::{Broken, BrokenKind, Cell, Op, RecId, Refusal, RowKey};
use ob_rows::lasts;
use ob_schema::{FieldInfo, Origin, Schema};
use std::alloc::Global;
use std::collections::BTreeSet;

/// A row, and what is done to it. Touches are ordered by row, then operation.
#[derive(Clone, Copy, Debug, PartialEq, Eq, PartialOrd, Ord, Hash)]
pub struct Touch {
    pub row: RowKey,
    pub op: Op,
}

/// A cell that is given an id, and the row that this names.
#[derive(Clone, Copy, Debug, PartialEq, Eq)]
pub struct Naming {
    pub cell: Cell,
    pub target: RowKey,
}

/// What is noted of a call.
#[derive(Drop)]
pub struct Notes {
    /// The rows that are written or deleted by the call, delegation or a command.
    pub touched: BTreeSet<Touch>,
    /// The rows that are made, in their order.
    pub made: Vec<RowKey>,
    /// The rows that are deleted, those by cascade among them.
    pub gone: Vec<RowKey>,
    /// The ids that values give.
    pub named: Vec<Naming>,
    /// The first thing that the call breaks by itself.
    pub broken: Option<Broken>,
}

impl Notes {
    /// Nothing is noted.
    pub fn new(alloc: Global) -> Notes
        ensures noted { (models : List ModelInfo) (held : Holding) → NextIdsUpTo max_next_id held → IsNoted models result held }
        ensures none { result.made.items ≡ [] }
    {
        Notes {
            touched: BTreeSet::new(alloc),
            made: Vec::new(alloc),
            gone: Vec::new(alloc),
            named: Vec::new(alloc),
            broken: None,
        }
    }

    /// The call breaks something.
    pub(crate) fn breaks(&mut self, kind: BrokenKind, cell: Cell)
        ensures { (models : List ModelInfo) → HasField models cell.model cell.field → KeepsNotes models self.old self.new }
    {
        if self.broken.is_none() {
            self.broken = Some(Broken { kind, cell });
        }
    }
}

/// Notes that something is done to a row.
pub(crate) fn note_touch(
    notes: &mut Notes,
    schema: &Schema,
    by: &Caller<'_>,
    op: Op,
    row: RowKey,
) -> Result<(), Refusal>
    requires model { HasModel schema.now row.model }
    ensures noted { OnOk result (KeepsNoted schema.now notes.old notes.new) }
    ensures made { OnOk result (notes.new.made.items ≡ made_behind op row notes.old.made.items) }
    ensures causes { IfErr result (Refuses ⊥ (LacksRight by.entry.now)) }
{
    if !may(by, op, row.model) {
        return Err(Refusal::Right(row.model, op));
    }
    note_managed(notes, schema, row);
    match op {
        Op::Create => notes.made.push(row)?,
        _ => {
            notes.touched.insert(Touch { row, op })?;
        }
    }
    Ok(())
}

/// Notes that a row goes.
pub(crate) fn note_gone(notes: &mut Notes, schema: &Schema, row: RowKey) -> Result<(), Refusal>
    requires model { HasModel schema.now row.model }
    ensures noted { OnOk result (KeepsNotes schema.now notes.old notes.new) }
    ensures causes { IfErr result (λ why. why ≡ Refusal.NoMemory) }
{
    note_lasting(notes, schema, row);
    notes.gone.push(row)?;
    Ok(())
}

/// A row that lasts is nothing that calls delete.
fn note_lasting(notes: &mut Notes, schema: &Schema, row: RowKey)
    requires model { HasModel schema.now row.model }
    ensures noted { KeepsNotes schema.now notes.old notes.new }
{
    if lasts(schema, row) {
        notes.breaks(BrokenKind::Managed, id_cell(schema, row));
    }
}

/// A row of a managed model is nothing that calls make, write or delete.
fn note_managed(notes: &mut Notes, schema: &Schema, row: RowKey)
    requires model { HasModel schema.now row.model }
    ensures noted { KeepsNotes schema.now notes.old notes.new }
{
    if schema.model_info(row.model).managed {
        notes.breaks(BrokenKind::Managed, id_cell(schema, row));
    }
}

/// Notes that a cell is given something: calls give nothing to the id, and to managed and computed
/// fields.
pub(crate) fn note_given(notes: &mut Notes, schema: &Schema, cell: Cell)
    requires field { HasField schema.now cell.model cell.field }
    ensures noted { KeepsNotes schema.now notes.old notes.new }
{
    if is_withheld(schema.info(cell.model, cell.field)) {
        notes.breaks(BrokenKind::Managed, cell);
    }
}

/// Whether calls give a field nothing.
fn is_withheld(field: &FieldInfo) -> bool {
    field.managed || matches!(field.origin, Origin::Id | Origin::Computed(_))
}

/// Notes that a cell is given the id of a row.
pub(crate) fn note_named(
    notes: &mut Notes,
    schema: &Schema,
    cell: Cell,
    id: RecId,
) -> Result<(), Refusal>
    requires field { HasField schema.now cell.model cell.field }
    ensures noted { OnOk result (KeepsNotes schema.now notes.old notes.new) }
    ensures causes { IfErr result (λ why. why ≡ Refusal.NoMemory) }
{
    // The law of registries, by which a relation is to a model.
    schema.parts_fit_together();
    let Some(model) = schema.info(cell.model, cell.field).relation else {
        return Ok(());
    };
    notes.named.push(Naming {
        cell,
        target: RowKey { model, id },
    })?;
    Ok(())
}
