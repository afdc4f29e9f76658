//! Two tables as the sides of a change, with the rows to which cells lead and those that lead to
//! a row found by look-ups, so that asking costs nothing for rows that aren't asked of. Of the
//! tables they tell nothing that a proof knows: that the answers are theirs is tested.

ghost use Rattle.std.specs.Prelude.{◌≡◌, IsSomeAnd, true};
ghost use Rattle.ob_schema.specs.Models.{field_at, is_given_from};

use crate::told_tables::is_given;
use ob_base::limits::MAX_MODELS;
use ob_base::{Cell, FieldNo, ModelNo, NoMemory, RecId, RefList};
use ob_schema::{Links, Origin, Schema, Side};
use ob_tables::{Tables, targets_of};
use probe_parts::parts::add_id;
use probe_parts::told::Told;
use std::alloc::Global;
use std::collections::BTreeMap;

/// Ids by cells.
type Ids = BTreeMap<Cell, RefList>;

/// To which rows the cells of tables lead, and which rows of a model lead to one by a field: these
/// stand by a cell of that model and field, and of the id of the row to which they lead.
#[derive(Drop)]
pub(crate) struct Ends {
    targets: Ids,
    sources: Ids,
}

/// The links of a change.
#[derive(Drop)]
pub(crate) struct Sides<'a> {
    pub(crate) alloc: Global,
    pub(crate) schema: &'a Schema,
    pub(crate) before: &'a Ends,
    pub(crate) behind: &'a Ends,
}

impl Sides<'_> {
    /// Those of a side.
    fn on(&self, side: Side) -> &Ends {
        match side {
            Side::Old => self.before,
            Side::New => self.behind,
        }
    }
}

impl Links for Sides<'_> {
    type Fault = NoMemory;

    ghost registry = { λ sides. sides.schema.now };

    ghost tells = { λ _ _. ⊥ };

    ghost asks = { λ _ _. Unit {0} };

    ghost has_failed = { λ _ _ _. Unit {0} };

    fn targets(&mut self, side: Side, cell: Cell) -> Result<RefList, NoMemory> {
        ids_at(self.alloc, &self.on(side).targets, cell)
    }

    fn sources(
        &mut self,
        side: Side,
        model: ModelNo,
        field: FieldNo,
        target: RecId,
    ) -> Result<RefList, NoMemory> {
        let at = Cell {
            model,
            id: target,
            field,
        };
        ids_at(self.alloc, &self.on(side).sources, at)
    }
}

/// The ids by a cell.
fn ids_at(alloc: Global, ids: &Ids, cell: Cell) -> Result<RefList, NoMemory> {
    match ids.get(&cell) {
        Some(found) => found.try_clone(alloc),
        None => Ok(RefList::new(alloc)),
    }
}

/// Where the cells of tables lead.
pub(crate) fn ends_of(alloc: Global, told: &mut Told, schema: &Schema, tables: &Tables<'_>) -> Ends
    requires { tables.now.models ≡ schema.now }
{
    let mut ends = Ends {
        targets: BTreeMap::new(alloc),
        sources: BTreeMap::new(alloc),
    };
    for place in 0..MAX_MODELS as u16 {
        let model = ModelNo(place + 1);
        if schema.find_model(model).is_some() {
            match tables.ids(model) {
                Ok(ids) => add_rows(
                    alloc,
                    told,
                    schema,
                    tables,
                    &mut ends,
                    model,
                    ids.as_slice(),
                ),
                Err(_) => told.lack(),
            }
        }
    }
    ends
}

/// Adds where the cells of rows lead.
fn add_rows(
    alloc: Global,
    told: &mut Told,
    schema: &Schema,
    tables: &Tables<'_>,
    ends: &mut Ends,
    model: ModelNo,
    ids: &[RecId],
)
    requires { tables.now.models ≡ schema.now }
{
    for id in ids {
        for number in 1..u16::MAX {
            let cell = Cell {
                model,
                id: *id,
                field: FieldNo(number),
            };
            let Some(info) = schema.find_field(model, cell.field) else {
                break;
            };
            if let Origin::Id = info.origin {
                add_end(alloc, told, ends, cell, cell.id);
            } else if is_given(schema, cell) {
                add_ends(alloc, told, tables, ends, cell);
            }
        }
    }
}

/// Adds where a cell leads that calls give a value.
fn add_ends(alloc: Global, told: &mut Told, tables: &Tables<'_>, ends: &mut Ends, cell: Cell)
    requires { IsSomeAnd (field_at tables.now.models cell.model cell.field) (λ info. is_given_from info.origin ≡ true) }
{
    match tables.plain(cell) {
        Ok(Some(value)) => {
            for id in targets_of(&value) {
                add_end(alloc, told, ends, cell, *id);
            }
        }
        Ok(None) => {}
        Err(_) => told.lack(),
    }
}

/// Adds that a cell leads to a row.
fn add_end(alloc: Global, told: &mut Told, ends: &mut Ends, cell: Cell, target: RecId) {
    add_at(alloc, told, &mut ends.targets, cell, target);
    let back = Cell { id: target, ..cell };
    add_at(alloc, told, &mut ends.sources, back, cell.id);
}

/// Adds an id by a cell.
fn add_at(alloc: Global, told: &mut Told, ids: &mut Ids, cell: Cell, id: RecId) {
    let mut found = match ids.remove(&cell) {
        Some(found) => found,
        None => RefList::new(alloc),
    };
    add_id(told, &mut found, id);
    if ids.insert(cell, found).is_err() {
        told.lack();
    }
}
