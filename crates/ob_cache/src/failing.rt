//! Which cell's own formula fails, where a computed cell has no value: what it reads is followed
//! to a cell that has none though all that it reads has. How it is followed may change here at
//! will.

ghost use Rattle.std.specs.Prelude.{◌≡◌, [], IfOk, IfSome, IsSome, IsSomeAnd, None, Ok};
ghost use Rattle.ob_cache.specs.Behind.{AreKnown};
ghost use Rattle.ob_cache.specs.Failing.{HasAlong, HasRead, TellsStep, step_by};
ghost use Rattle.ob_cache.specs.Rooms.{IsUnsoundBy};
ghost use Rattle.ob_change.specs.Changing.{models_of};
ghost use Rattle.ob_expr.specs.Meaning.{row_at as place_at, row_of};
ghost use Rattle.ob_schema.specs.Broken.{Sound};
ghost use Rattle.ob_schema.specs.Models.{field_at};
ghost use Rattle.ob_schema.specs.Tables.{row_at};
ghost use Rattle.ob_schema.specs.Tied.{IsTied};
ghost use Rattle.ob_schema.specs.Val.{val};
ghost use Rattle.ob_schema.specs.declared.info.Origin.TheVariants as origin;
ghost use Rattle.ob_sound.specs.FormulasBreak.{FormulasBreak};

use crate::knowing::know_read;
use crate::whole::CellValues;
use ob_base::limits::{MAX_STRATUM, MAX_TREE_DEPTH};
use ob_base::{Broken, BrokenKind, Cell, FieldNo, ModelNo, NoMemory, RecId, Value};
use ob_change::Change;
use ob_expr::{Link, reads_along_paths};
use ob_schema::{Formula, Origin};
use ob_sound::broken_formulas_found;
use ob_tables::{ApplyFault, ScratchFault, Tables, Values, targets_of, values_from_scratch};

/// How many formulas are read in turn at most: down the strata, and in each along a tree.
const MAX_CHAIN: usize = MAX_TREE_DEPTH * (MAX_STRATUM as usize + 1) + 2;

/// Why a computed cell has no value.
#[derive(Clone, Copy, Debug, PartialEq, Eq)]
pub(crate) enum Step {
    /// Its own formula fails.
    Fails(BrokenKind),
    /// It reads a cell that has none.
    Reads(Cell),
    /// It isn't told, as of a cell that isn't computed.
    Ends,
}

/// What formulas break, where a computed cell has no value: the cell whose own formula fails.
pub(crate) fn own_fault(
    change: Change<'_, '_>,
    cell: Cell,
    held: &CellValues,
    source: &mut Values<'_, '_>,
) -> ApplyFault
    requires source { source.old ≡ change.behind.now }
    requires known { AreKnown change.behind.now.models change.behind.now.tables held.now }
    requires tied { IsTied (models_of change) change.behind.now.tables }
    requires unsound { Sound change.behind.now.models change.behind.now.tables → ⊥ }
    ensures same { source.new ≡ source.old }
    ensures fault { IsUnsoundBy change.entry.behind.now result }
{
    // The law by which what formulas break is broken.
    broken_formulas_found();
    match failing(change, cell, held, source) {
        Ok(Some(broken)) => ApplyFault::Broken(broken),
        // No chain of cells that read one another is so long, and all of them are computed.
        Ok(None) => anything_broken(change.behind),
        Err(NoMemory) => ApplyFault::NoMemory,
    }
}

/// The cell whose own formula fails, as far as cells that read one another lead to it.
fn failing(
    change: Change<'_, '_>,
    cell: Cell,
    held: &CellValues,
    source: &mut Values<'_, '_>,
) -> Result<Option<Broken>, NoMemory>
    requires source { source.old ≡ change.behind.now }
    requires known { AreKnown change.behind.now.models change.behind.now.tables held.now }
    requires tied { IsTied (models_of change) change.behind.now.tables }
    ensures same { source.new ≡ source.old }
    ensures fails { IfOk result (λ told. IfSome told (λ broken.
        FormulasBreak (models_of change.entry) change.entry.behind.now.tables broken.kind broken.cell)) }
{
    let mut at = cell;
    for _read in 0..MAX_CHAIN {
        // What was known goes with a fault.
        know_read(held, &[at], source)?;
        match step_from(change, at, source)? {
            Step::Fails(kind) => return Ok(Some(Broken { kind, cell: at })),
            Step::Reads(other) => at = other,
            Step::Ends => return Ok(None),
        }
    }
    Ok(None)
}

/// Why a cell has no value.
fn step_from(
    change: Change<'_, '_>,
    cell: Cell,
    source: &mut Values<'_, '_>,
) -> Result<Step, NoMemory>
    requires source { source.old ≡ change.behind.now }
    requires tied { IsTied (models_of change) change.behind.now.tables }
    ensures same { source.new ≡ source.old }
    ensures step { IfOk result (TellsStep (models_of change.entry) change.entry.behind.now.tables cell) }
{
    let Some(info) = change.schema.find_field(cell.model, cell.field) else {
        return Ok(Step::Ends);
    };
    let Origin::Computed(formula) = &info.origin else {
        return Ok(Step::Ends);
    };
    if !change.behind.has_row(cell.model, cell.id) {
        return Ok(Step::Ends);
    }
    match lacking(change, formula, cell, source)? {
        Some(other) => Ok(Step::Reads(other)),
        None => own_step(change, formula, cell, source),
    }
}

/// Why a cell has no value though all has one that its formula reads.
fn own_step(
    change: Change<'_, '_>,
    formula: &Formula,
    cell: Cell,
    source: &mut Values<'_, '_>,
) -> Result<Step, NoMemory>
    requires source { source.old ≡ change.behind.now }
    requires tied { IsTied (models_of change) change.behind.now.tables }
    requires computed { IsSomeAnd (field_at (models_of change) cell.model cell.field)
        (λ info. info.origin ≡ origin.Computed formula.now) }
    requires row { IsSome (row_at change.behind.now.tables cell.model cell.id) }
    requires read { HasRead (models_of change) change.behind.now.tables formula.now cell }
    ensures same { source.new ≡ source.old }
    ensures step { IfOk result (TellsStep (models_of change.entry) change.entry.behind.now.tables cell) }
{
    // The laws of tables, of values from scratch, and of what formulas read.
    change.behind.fit_together();
    values_from_scratch();
    reads_along_paths();
    match source.value(cell) {
        Ok(_value) => Ok(Step::Ends),
        Err(fault) => match fault {
            ScratchFault::NoMemory => Err(NoMemory),
            _ => Ok(step_by(fault)),
        },
    }
}

/// Why a cell has no value that lacks it by its own doing.
fn step_by(fault: ScratchFault) -> Step
    ensures { result ≡ step_by fault }
{
    match fault {
        ScratchFault::Overflow => Step::Fails(BrokenKind::Overflow),
        ScratchFault::TooLong => Step::Fails(BrokenKind::TooLong),
        ScratchFault::ZeroDivisor => Step::Fails(BrokenKind::ZeroDivisor),
        _ => Step::Ends,
    }
}

/// A cell along the paths of a formula that has no value.
fn lacking(
    change: Change<'_, '_>,
    formula: &Formula,
    cell: Cell,
    source: &mut Values<'_, '_>,
) -> Result<Option<Cell>, NoMemory>
    requires source { source.old ≡ change.behind.now }
    ensures same { source.new ≡ source.old }
    ensures read { IfOk result (λ told. told ≡ None
        → HasRead (models_of change.entry) change.entry.behind.now.tables formula.now cell) }
{
    let paths = formula.typed.paths(change.alloc)?;
    for path in paths.as_slice() {
        let links = path.links();
        let field = path.field();
        if let Some(other) = lacking_along(change, cell.model, cell.id, links, field, source)? {
            return Ok(Some(other));
        }
    }
    Ok(None)
}

/// A cell along a path from a row that has no value.
fn lacking_along(
    change: Change<'_, '_>,
    model: ModelNo,
    id: RecId,
    links: &[Link],
    field: FieldNo,
    source: &mut Values<'_, '_>,
) -> Result<Option<Cell>, NoMemory>
    requires source { source.old ≡ change.behind.now }
    ensures same { source.new ≡ source.old }
    ensures along { IfOk result (λ told. told ≡ None
        → HasAlong (models_of change.entry) change.entry.behind.now.tables (place_at model id) links.now field) }
{
    let Some((link, rest)) = links.split_first() else {
        return lacking_at(change, Cell { model, id, field }, source);
    };
    let at = Cell {
        model,
        id,
        field: link.field,
    };
    let Some(value) = value_at(change, at, source)? else {
        return Ok(Some(at));
    };
    for target in targets_of(&value) {
        if let Some(other) = lacking_along(change, link.target, *target, rest, field, source)? {
            return Ok(Some(other));
        }
    }
    Ok(None)
}

/// The cell at the end of a path, where it has no value.
fn lacking_at(
    change: Change<'_, '_>,
    cell: Cell,
    source: &mut Values<'_, '_>,
) -> Result<Option<Cell>, NoMemory>
    requires source { source.old ≡ change.behind.now }
    ensures same { source.new ≡ source.old }
    ensures along { IfOk result (λ told. told ≡ None
        → HasAlong (models_of change.entry) change.entry.behind.now.tables (row_of cell) [] cell.field) }
{
    match value_at(change, cell, source)? {
        Some(_value) => Ok(None),
        None => Ok(Some(cell)),
    }
}

/// The value of a cell, where it has one.
fn value_at(
    change: Change<'_, '_>,
    cell: Cell,
    source: &mut Values<'_, '_>,
) -> Result<Option<Value>, NoMemory>
    requires source { source.old ≡ change.behind.now }
    ensures same { source.new ≡ source.old }
    ensures value { IfOk result (λ told. IfSome told (λ value.
        val (models_of change.entry) change.entry.behind.now.tables cell ≡ Ok value)) }
{
    let Some(_info) = change.schema.find_field(cell.model, cell.field) else {
        return Ok(None);
    };
    match source.value(cell) {
        Ok(value) => Ok(Some(value)),
        Err(ScratchFault::NoMemory) => Err(NoMemory),
        Err(_) => Ok(None),
    }
}

/// Something that is broken in tables, where something is.
fn anything_broken(tables: &Tables<'_>) -> ApplyFault
    requires { Sound tables.now.models tables.now.tables → ⊥ }
    ensures { IsUnsoundBy tables.now result }
{
    match tables.broken() {
        Ok(Some(broken)) => ApplyFault::Broken(broken),
        Ok(None) => unreachable!(),
        Err(NoMemory) => ApplyFault::NoMemory,
    }
}
