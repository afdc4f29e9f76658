//! Whether what a call has staged is carried out: the first refusal in the stated order, else all
//! edits are settled at once. The rights that its edits ask are asked where they are noted, before
//! anything here.

ghost use Rattle.std.specs.Prelude.{◌≡◌, ◌≤◌, ◌<◌, ℕ, length, All, Contains, IfErr, IfOk, IfSome, None, OnErr, OnOk, true};
ghost use Rattle.ob_access.specs.Policies.{IsPolicyOver};
ghost use Rattle.ob_base.specs.Limits.{max_id};
ghost use Rattle.ob_base.specs.Tally.{ticked_times};
ghost use Rattle.ob_cache.specs.Calls.{Refuses};
ghost use Rattle.ob_cache.specs.Stages.{IsUsable};
ghost use Rattle.ob_cache.specs.Telling.{TellsFacts};
ghost use Rattle.ob_call.specs.Places.{spot_place};
ghost use Rattle.ob_effect.specs.Effect.{Asks, IsNoted, IsWriterOver, Keeps};
ghost use Rattle.ob_commands.specs.Finding.{IsFound, TellsFindings};
ghost use Rattle.ob_commands.specs.Judging.{DeniesBy, DeniesMade, Judges, Settles};
ghost use Rattle.ob_io.specs.Cause.{Rose};
ghost use Rattle.ob_schema.specs.Facts.{OfAllTold};
ghost use Rattle.ob_schema.specs.Models.{HasField, HasModel};

use crate::findings::Findings;
use ob_base::limits::MAX_ID;
use ob_base::{
    Broken, BrokenKind, Cell, FieldNo, Ledger, ModelNo, NoMemory, Op, Refusal, RowKey, Steps, Value,
};
use ob_cache::{Engine, ReadFault};
use ob_call::{Below, Spot, malformed};
use ob_effect::{Notes, Writer, cell_of, denier, id_cell, is_there, naming};
use ob_io::Keeper;
use ob_schema::{Facts, ModelInfo, OnDelete, Schema};
use std::alloc::Global;
use std::collections::BTreeSet;

/// Tests what is found in the objects of a call, which stand in an argument: a field that the caller
/// may not give, then a place that is wrong.
pub(crate) fn test_found(
    writer: &Writer<'_>,
    spot: Spot<'_>,
    found: Findings,
) -> Result<(), Refusal>
    requires found { IsFound writer.now.by found }
    ensures causes { IfErr result (Refuses ⊥ (TellsFindings writer.entry.now.by (spot_place spot.entry))) }
{
    let Findings { withheld, wrong } = found;
    if let Some(field) = withheld {
        return Err(Refusal::FieldRight(field.model, field.field));
    }
    match wrong {
        Some(place) => Err(malformed(writer.alloc, spot, Below::Place(place))),
        None => Ok(()),
    }
}

/// Settles what is staged, unless a rule denies a row that it touches or makes, or something is
/// broken.
pub(crate) fn settle<K: Keeper, L: Ledger>(
    engine: &mut Engine<'_, K>,
    writer: &Writer<'_>,
    notes: &Notes,
    steps: &mut Steps<L>,
) -> Result<(), Refusal>
    requires writer { IsWriterOver engine.old.held.models writer.now }
    requires usable { IsUsable engine.old.held.phase }
    requires noted { IsNoted engine.old.held.models notes.now engine.old.held }
    ensures settled { OnOk result (Settles K.Keeper engine.old engine.new) }
    ensures kept { OnErr result (Keeps K.Keeper engine.old engine.new) }
    ensures refused { IfErr result (Refuses (Rose (K.faults engine.old.keeper.now) (K.faults engine.new.keeper.now)) (Judges K.Keeper writer.entry.now.by engine.old)) }
    ensures ticks { (n : ℕ) × (steps.new ≡ ticked_times n L.noted steps.old) }
{
    test_touched(engine, writer, notes)?;
    if let Some(broken) = own_broken(engine, writer, notes)? {
        return Err(Refusal::Constraint(broken));
    }
    engine.settle(steps)?;
    test_made(engine, writer, notes)
}

/// Tests the rows that were there and are written or deleted by their rules; of several that are
/// denied the least is told.
fn test_touched<K: Keeper>(
    engine: &mut Engine<'_, K>,
    writer: &Writer<'_>,
    notes: &Notes,
) -> Result<(), Refusal>
    requires writer { IsWriterOver engine.old.held.models writer.now }
    requires usable { IsUsable engine.old.held.phase }
    requires noted { IsNoted engine.old.held.models notes.now engine.old.held }
    ensures refused { IfErr result (Refuses (Rose (K.faults engine.old.keeper.now) (K.faults engine.new.keeper.now)) (Judges K.Keeper writer.entry.now.by engine.old)) }
    ensures asked { Asks K.Keeper engine.old engine.new }
{
    for touch in &notes.touched {
        if was_there(engine, touch.row)? {
            test_row(engine, writer, touch.op, touch.row)?;
        }
    }
    Ok(())
}

/// Tests the rows that were made and are there by the rules of a create, once all is settled; of
/// several that are denied the least is told.
fn test_made<K: Keeper>(
    engine: &mut Engine<'_, K>,
    writer: &Writer<'_>,
    notes: &Notes,
) -> Result<(), Refusal>
    requires writer { IsWriterOver engine.old.held.models writer.now }
    requires models { All (λ row. HasModel engine.old.held.models row.model) notes.now.made.items }
    ensures refused { IfErr result (Refuses (Rose (K.faults engine.old.keeper.now) (K.faults engine.new.keeper.now)) (DeniesMade K.Keeper writer.entry.now.by engine.old)) }
    ensures asked { Asks K.Keeper engine.old engine.new }
{
    let made = row_set(writer.alloc, notes.made.as_slice())?;
    for row in &made {
        if was_there(engine, *row)? {
            test_row(engine, writer, Op::Create, *row)?;
        }
    }
    Ok(())
}

/// Rows as a set.
fn row_set(alloc: Global, rows: &[RowKey]) -> Result<BTreeSet<RowKey>, NoMemory>
    ensures { IfOk result (λ set. All (Contains rows.now) set.keys) }
{
    let mut set = BTreeSet::new(alloc);
    for row in rows {
        set.insert(*row)?;
    }
    Ok(set)
}

/// Tests a row by the rules.
fn test_row<K: Keeper>(
    engine: &mut Engine<'_, K>,
    writer: &Writer<'_>,
    op: Op,
    row: RowKey,
) -> Result<(), Refusal>
    requires over { IsPolicyOver engine.old.held.models writer.now.by.policy.now }
    requires known { OfAllTold (TellsFacts (K.kept engine.old.keeper.now) engine.old.held) (λ told. told.knows row.model row.id ≡ true) }
    ensures refused { IfErr result (Refuses (Rose (K.faults engine.old.keeper.now) (K.faults engine.new.keeper.now))
        (DeniesBy (TellsFacts (K.kept engine.old.keeper.now) engine.old.held) writer.entry.now.by op row)) }
    ensures asked { Asks K.Keeper engine.old engine.new }
{
    match denier(writer.alloc, engine, &writer.by, op, row)? {
        Some(rule) => Err(Refusal::Rule(row.model, op, row.id, Some(rule))),
        None => Ok(()),
    }
}

/// Whether a row was there when edits were settled last.
fn was_there<K: Keeper>(engine: &mut Engine<'_, K>, row: RowKey) -> Result<bool, Refusal>
    requires model { HasModel engine.old.held.models row.model }
    ensures told { IfOk result (λ there. OfAllTold (TellsFacts (K.kept engine.old.keeper.now) engine.old.held) (λ told. there ≡ told.knows row.model row.id)) }
    ensures causes { IfErr result (Refuses (Rose (K.faults engine.old.keeper.now) (K.faults engine.new.keeper.now)) (λ _. ⊥)) }
    ensures asked { Asks K.Keeper engine.old engine.new }
{
    match engine.known(row.model, row.id) {
        Ok(known) => Ok(known),
        Err(ReadFault::Missing) => Ok(false),
        Err(ReadFault::Keeper) => Err(Refusal::Keeper),
        Err(ReadFault::NoMemory) => Err(Refusal::NoMemory),
    }
}

/// Something that the call breaks by itself, whatever its tables break.
fn own_broken<K: Keeper>(
    engine: &mut Engine<'_, K>,
    writer: &Writer<'_>,
    notes: &Notes,
) -> Result<Option<Broken>, Refusal>
    requires writer { IsWriterOver engine.old.held.models writer.now }
    requires usable { IsUsable engine.old.held.phase }
    requires noted { IsNoted engine.old.held.models notes.now engine.old.held }
    ensures broken { IfOk result (λ broken. IfSome broken (λ b. HasField engine.old.held.models b.cell.model b.cell.field)) }
    ensures low { IfOk result (λ broken. broken ≡ None → All (λ row. row.id.0 ≤ max_id) notes.now.made.items) }
    ensures causes { IfErr result (Refuses (Rose (K.faults engine.old.keeper.now) (K.faults engine.new.keeper.now)) (λ _. ⊥)) }
    ensures asked { Asks K.Keeper engine.old engine.new }
{
    if let Some(broken) = notes.broken {
        return Ok(Some(broken));
    }
    if let Some(broken) = past_limit(writer.schema, notes) {
        return Ok(Some(broken));
    }
    if let Some(broken) = some_locked(engine, writer.schema, notes)? {
        return Ok(Some(broken));
    }
    if let Some(broken) = some_restricting(engine, writer, notes)? {
        return Ok(Some(broken));
    }
    some_missing(engine, notes)
}

/// A row that is made under an id past the limit of ids.
fn past_limit(schema: &Schema, notes: &Notes) -> Option<Broken>
    requires models { All (λ row. HasModel schema.now row.model) notes.now.made.items }
    ensures broken { IfSome result (λ b. HasField schema.now b.cell.model b.cell.field) }
    ensures low { result ≡ None → All (λ row. row.id.0 ≤ max_id) notes.now.made.items }
{
    for row in &notes.made {
        if row.id.0 > MAX_ID {
            return Some(Broken {
                kind: BrokenKind::Limit,
                cell: id_cell(schema, *row),
            });
        }
    }
    None
}

/// A row that was locked before the call and is written or goes.
fn some_locked<K: Keeper>(
    engine: &mut Engine<'_, K>,
    schema: &Schema,
    notes: &Notes,
) -> Result<Option<Broken>, Refusal>
    requires over { schema.now ≡ engine.old.held.models }
    requires usable { IsUsable engine.old.held.phase }
    requires noted { IsNoted engine.old.held.models notes.now engine.old.held }
    ensures broken { IfOk result (λ broken. IfSome broken (λ b. HasField engine.old.held.models b.cell.model b.cell.field)) }
    ensures causes { IfErr result (Refuses (Rose (K.faults engine.old.keeper.now) (K.faults engine.new.keeper.now)) (λ _. ⊥)) }
    ensures asked { Asks K.Keeper engine.old engine.new }
{
    for touch in &notes.touched {
        if let Some(broken) = locked(engine, schema, touch.row)? {
            return Ok(Some(broken));
        }
    }
    for row in &notes.gone {
        if let Some(broken) = locked(engine, schema, *row)? {
            return Ok(Some(broken));
        }
    }
    Ok(None)
}

/// What a row breaks that was locked when edits were settled last.
fn locked<K: Keeper>(
    engine: &mut Engine<'_, K>,
    schema: &Schema,
    row: RowKey,
) -> Result<Option<Broken>, Refusal>
    requires over { schema.now ≡ engine.old.held.models }
    requires usable { IsUsable engine.old.held.phase }
    requires model { HasModel engine.old.held.models row.model }
    ensures broken { IfOk result (λ broken. IfSome broken (λ b. HasField engine.old.held.models b.cell.model b.cell.field)) }
    ensures causes { IfErr result (Refuses (Rose (K.faults engine.old.keeper.now) (K.faults engine.new.keeper.now)) (λ _. ⊥)) }
    ensures asked { Asks K.Keeper engine.old engine.new }
{
    let Some(field) = locking_field(schema, row.model) else {
        return Ok(None);
    };
    match engine.read_settled(cell_of(row, field)) {
        Ok(Value::Bool(true)) => Ok(Some(Broken {
            kind: BrokenKind::Locked,
            cell: told_cell(schema, row),
        })),
        Ok(_) => Ok(None),
        Err(ReadFault::Missing) => Ok(None),
        Err(ReadFault::Keeper) => Err(Refusal::Keeper),
        Err(ReadFault::NoMemory) => Err(Refusal::NoMemory),
    }
}

/// The condition that locks rows of a model.
fn locking_field(schema: &Schema, model: ModelNo) -> Option<FieldNo>
    requires model { HasModel schema.now model }
    ensures there { IfSome result (HasField schema.now model) }
{
    let info = schema.model_info(model);
    let place = locking_place(info)?;
    Some(FieldNo((info.fields.len() + place) as u16 + 1))
}

/// Its place among the conditions.
fn locking_place(info: &ModelInfo) -> Option<usize>
    ensures within { IfSome result (λ place. place < length info.now.hidden) }
{
    info.hidden
        .as_slice()
        .iter()
        .position(|field| field.name.as_str() == "locked")
}

/// The cell by which a locked row is told: the state of the pickings and the moves of stock, else
/// the id.
fn told_cell(schema: &Schema, row: RowKey) -> Cell
    requires model { HasModel schema.now row.model }
    ensures there { HasField schema.now result.model result.field }
{
    let name = schema.model_info(row.model).name.as_str();
    if name == "stock.picking" || name == "stock.move" {
        if let Some(state) = schema.field(row.model, "state") {
            return cell_of(row, state);
        }
    }
    id_cell(schema, row)
}

/// A row that stays and names one that went by a many2one with `restrict`.
fn some_restricting<K: Keeper>(
    engine: &mut Engine<'_, K>,
    writer: &Writer<'_>,
    notes: &Notes,
) -> Result<Option<Broken>, Refusal>
    requires writer { IsWriterOver engine.old.held.models writer.now }
    requires usable { IsUsable engine.old.held.phase }
    ensures broken { IfOk result (λ broken. IfSome broken (λ b. HasField engine.old.held.models b.cell.model b.cell.field)) }
    ensures causes { IfErr result (Refuses (Rose (K.faults engine.old.keeper.now) (K.faults engine.new.keeper.now)) (λ _. ⊥)) }
    ensures asked { Asks K.Keeper engine.old engine.new }
{
    for row in &notes.gone {
        if let Some(cell) = restricting(engine, writer, *row)? {
            return Ok(Some(Broken {
                kind: BrokenKind::Restrict,
                cell,
            }));
        }
    }
    Ok(None)
}

/// The cell of a row that names one that went, by a many2one with `restrict`.
fn restricting<K: Keeper>(
    engine: &mut Engine<'_, K>,
    writer: &Writer<'_>,
    row: RowKey,
) -> Result<Option<Cell>, Refusal>
    requires writer { IsWriterOver engine.old.held.models writer.now }
    requires usable { IsUsable engine.old.held.phase }
    ensures field { IfOk result (λ cell. IfSome cell (λ cell. HasField engine.old.held.models cell.model cell.field)) }
    ensures causes { IfErr result (Refuses (Rose (K.faults engine.old.keeper.now) (K.faults engine.new.keeper.now)) (λ _. ⊥)) }
    ensures asked { Asks K.Keeper engine.old engine.new }
{
    for relation in writer.relations {
        if relation.target == row.model && matches!(relation.action, Some(OnDelete::Restrict)) {
            let ids = naming(engine, relation.model, relation.field, row.id)?;
            if let Some(id) = ids.as_slice().first() {
                return Ok(Some(Cell {
                    model: relation.model,
                    id: *id,
                    field: relation.field,
                }));
            }
        }
    }
    Ok(None)
}

/// An id in a value that no row has.
fn some_missing<K: Keeper>(
    engine: &mut Engine<'_, K>,
    notes: &Notes,
) -> Result<Option<Broken>, Refusal>
    requires usable { IsUsable engine.old.held.phase }
    requires noted { IsNoted engine.old.held.models notes.now engine.old.held }
    ensures broken { IfOk result (λ broken. IfSome broken (λ b. HasField engine.old.held.models b.cell.model b.cell.field)) }
    ensures causes { IfErr result (Refuses (Rose (K.faults engine.old.keeper.now) (K.faults engine.new.keeper.now)) (λ _. ⊥)) }
    ensures asked { Asks K.Keeper engine.old engine.new }
{
    for named in &notes.named {
        if !is_there(engine, named.target)? {
            return Ok(Some(Broken {
                kind: BrokenKind::MissingRef,
                cell: named.cell,
            }));
        }
    }
    Ok(None)
}
