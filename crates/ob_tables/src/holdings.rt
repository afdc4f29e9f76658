//! Which rows name which, as an index: a holding for each row, field and row that it names by
//! the field, whatever the schema says of the field. How it follows what rows keep may change
//! here at will.

ghost use Rattle.std.specs.Prelude.{◌≡◌, ◌≤◌, IfOk, length, take};
ghost use Rattle.ob_base.specs.Rising.{IsRising};
ghost use Rattle.ob_base.specs.declared.id.FieldNo.{FieldNo};
ghost use Rattle.ob_base.specs.declared.id.RecId.{RecId};
ghost use Rattle.ob_schema.specs.Plain.{targets_of};
ghost use Rattle.ob_tables.specs.Holdings.{CellHeld, IsStep, RowHeld, has_id, holding_at, holding_of, is_held, kept_by, names_by, names_where};

use crate::row::{PlainRow, targets_of};
use ob_base::{Cell, FieldNo, ModelNo, NoMemory, RecId, RowKey};
use ob_shared::SharedMap;
use std::cmp::Ordering;

/// A row that names another of its field's targets. In their order the rows that name one by a
/// field stand together, rising.
#[derive(Clone, Copy, Debug, PartialEq, Eq, PartialOrd, Ord, Hash)]
pub(crate) struct Holding {
    pub(crate) model: ModelNo,
    pub(crate) field: FieldNo,
    pub(crate) target: RecId,
    pub(crate) holder: RecId,
}

/// The holdings of rows.
pub(crate) type Holdings = SharedMap<Holding, ()>;

/// What becomes of the least of two lists' targets, with those that are left.
#[derive(Clone, Copy, Debug)]
pub(crate) enum Step<'s> {
    /// It is named no more.
    Goes(RecId, &'s [RecId]),
    /// It is named from now on.
    Comes(RecId, &'s [RecId]),
    /// It is named as before.
    Stays(RecId, &'s [RecId], &'s [RecId]),
}

/// Makes the holdings of a row those of another row in its place.
pub(crate) fn turn_row(
    holdings: &mut Holdings,
    key: RowKey,
    old: &PlainRow,
    new: &PlainRow,
) -> Result<(), NoMemory>
    requires { (field : FieldNo) (target : RecId) → is_held holdings.old (holding_at key field target) ≡ names_by old.now field target }
    ensures { IfOk result (λ _. RowHeld key (names_by new.now) holdings.old holdings.new) }
{
    turn_fields(holdings, key, old, new)?;
    add_fields(holdings, key, old, new)
}

/// Of the fields that a row has, makes its holdings those of another.
fn turn_fields(
    holdings: &mut Holdings,
    key: RowKey,
    old: &PlainRow,
    new: &PlainRow,
) -> Result<(), NoMemory>
    requires { (field : FieldNo) (target : RecId) → is_held holdings.old (holding_at key field target) ≡ names_by old.now field target }
    ensures { IfOk result (λ _. RowHeld key (names_where old.now new.now) holdings.old holdings.new) }
{
    for (field, value) in old.iter() {
        let after = targets_by(new, *field);
        turn(holdings, cell_at(key, *field), targets_of(value), after)?;
    }
    Ok(())
}

/// Adds the holdings of a row by the fields that another doesn't have.
fn add_fields(
    holdings: &mut Holdings,
    key: RowKey,
    old: &PlainRow,
    new: &PlainRow,
) -> Result<(), NoMemory>
    requires { (field : FieldNo) (target : RecId) → is_held holdings.old (holding_at key field target) ≡ names_where old.now new.now field target }
    ensures { IfOk result (λ _. RowHeld key (names_by new.now) holdings.old holdings.new) }
{
    for (field, value) in new.iter() {
        if !old.contains_key(field) {
            turn(holdings, cell_at(key, *field), &[], targets_of(value))?;
        }
    }
    Ok(())
}

/// The rows that a row names by a field.
fn targets_by(row: &PlainRow, field: u16) -> &[RecId]
    ensures { result.now ≡ targets_of (kept_by row.now (record { 0 = field })) }
{
    match row.get(&field) {
        Some(value) => targets_of(value),
        None => &[],
    }
}

/// Makes the targets of a cell, which rise, others that rise: what is in both is left alone.
fn turn(holdings: &mut Holdings, cell: Cell, old: &[RecId], new: &[RecId]) -> Result<(), NoMemory>
    requires rising { IsRising old.now }
    requires held { (target : RecId) → is_held holdings.old (holding_of cell target) ≡ has_id old.now target }
    ensures { IfOk result (λ _. CellHeld cell new.now holdings.old holdings.new) }
{
    let same = same_front(old, new);
    let mut gone = &old[same..];
    let mut come = &new[same..];
    while let Some(step) = next_step(gone, come) {
        match step {
            Step::Goes(target, rest) => {
                holdings.remove(&holding_of(cell, target))?;
                gone = rest;
            }
            Step::Comes(target, rest) => {
                holdings.insert(holding_of(cell, target), ())?;
                come = rest;
            }
            Step::Stays(_, rest, others) => {
                gone = rest;
                come = others;
            }
        }
    }
    Ok(())
}

/// How many targets two lists have in common at their front: to add one to a long list is then to
/// look at each of the others once, with no search in the index.
fn same_front(a: &[RecId], b: &[RecId]) -> usize
    ensures within { (result ≤ length a.now) × (result ≤ length b.now) }
    ensures same { take result a.now ≡ take result b.now }
{
    let most = a.len().min(b.len());
    for place in 0..most {
        if a[place] != b[place] {
            return place;
        }
    }
    most
}

/// What becomes of the least target.
fn next_step<'s>(gone: &'s [RecId], come: &'s [RecId]) -> Option<Step<'s>>
    requires { IsRising gone.now }
    ensures { IsStep gone.now come.now result }
{
    let Some((next, others)) = come.split_first() else {
        let (first, rest) = gone.split_first()?;
        return Some(Step::Goes(*first, rest));
    };
    let Some((first, rest)) = gone.split_first() else {
        return Some(Step::Comes(*next, others));
    };
    Some(match first.cmp(next) {
        Ordering::Less => Step::Goes(*first, rest),
        Ordering::Greater => Step::Comes(*next, others),
        Ordering::Equal => Step::Stays(*first, rest, others),
    })
}

fn cell_at(key: RowKey, field: u16) -> Cell
    ensures { result ≡ record { model = key.model; id = key.id; field = record { 0 = field } } }
{
    Cell {
        model: key.model,
        id: key.id,
        field: FieldNo(field),
    }
}

fn holding_of(cell: Cell, target: RecId) -> Holding
    ensures { result ≡ holding_of cell target }
{
    Holding {
        model: cell.model,
        field: cell.field,
        target,
        holder: cell.id,
    }
}
