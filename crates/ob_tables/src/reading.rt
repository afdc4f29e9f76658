//! What evaluations read: plain cells as rows give them, and what was evaluated before.

ghost use Rattle.std.specs.Prelude.{◌≡◌, ◌++◌, IfOk};
ghost use Rattle.ob_expr.specs.Meaning.{row_at, row_of};
ghost use Rattle.ob_expr.specs.TypedTree.{typed_tree_of};
ghost use Rattle.ob_schema.specs.Plain.{plain_at};
ghost use Rattle.ob_tables.specs.Settling.{ends_along, ends_of};

use crate::outcome::{Outcome, Outcomes, Unread};
use crate::row::targets_of;
use crate::tables::Tables;
use ob_base::{Cell, FieldNo, ModelNo, NoMemory, RecId, Value};
use ob_expr::{Link, Reads, Typed};
use std::alloc::Global;

/// Tables, from which evaluations read.
#[derive(Drop)]
pub(crate) struct Given<'t, 'a> {
    pub(crate) tables: &'t Tables<'a>,
}

impl<'t, 'a> Given<'t, 'a> {
    pub(crate) fn of(tables: &'t Tables<'a>) -> Given<'t, 'a>
        ensures { result.tables.now ≡ tables.now }
    {
        Given { tables }
    }

    pub(crate) fn alloc(&self) -> Global {
        let tables = self.tables;
        tables.alloc
    }

    /// The value of a plain cell; none of another, and where its row isn't there.
    pub(crate) fn plain(&self, cell: Cell) -> Result<Option<Value>, NoMemory>
        ensures { IfOk result (λ value. value ≡ plain_at self.now.tables.now.tables self.now.tables.now.models cell) }
    {
        self.tables.plain_of(cell)
    }

    /// The cells at the ends of an expression's paths, from the row of a cell.
    pub(crate) fn ends_of(&self, typed: &Typed, cell: Cell) -> Result<Vec<Cell>, NoMemory>
        ensures { IfOk result (λ ends. ends.items ≡ ends_of (plain_at self.now.tables.now.tables self.now.tables.now.models) (row_of cell) (typed_tree_of typed.now)) }
    {
        let mut ends = Vec::new(self.alloc());
        let paths = typed.paths(self.alloc())?;
        for path in paths.as_slice() {
            self.add_ends(cell.model, cell.id, path.links(), path.field(), &mut ends)?;
        }
        Ok(ends)
    }

    /// Adds the cells at the end of links from a row.
    fn add_ends(
        &self,
        model: ModelNo,
        id: RecId,
        links: &[Link],
        field: FieldNo,
        ends: &mut Vec<Cell>,
    ) -> Result<(), NoMemory>
        ensures { IfOk result (λ _. ends.new.items ≡ ends.old.items
            ++ ends_along (plain_at self.now.tables.now.tables self.now.tables.now.models) (row_at model id) links.now field) }
    {
        let Some((link, rest)) = links.split_first() else {
            ends.push(Cell { model, id, field })?;
            return Ok(());
        };
        let field_of_link = link.field;
        let Some(value) = self.plain(Cell {
            model,
            id,
            field: field_of_link,
        })?
        else {
            return Ok(());
        };
        for target in targets_of(&value) {
            self.add_ends(link.target, *target, rest, field, ends)?;
        }
        Ok(())
    }
}

/// What cells hold after some evaluations.
#[derive(Drop)]
pub(crate) struct Reader<'r, 't, 'a> {
    pub(crate) given: &'r Given<'t, 'a>,
    pub(crate) outcomes: &'r Outcomes,
}

impl Reads for Reader<'_, '_, '_> {
    ghost use Rattle.std.specs.Prelude.{true, IsTrue};
    ghost use Rattle.ob_tables.specs.Settling.{FailsAt, held_in};

    type Fault = Unread;

    ghost held = { λ reads. held_in reads.given.now.tables.now.models reads.given.now.tables.now.tables reads.outcomes.now };

    ghost can_read = { λ _ _. IsTrue true };

    ghost has_failed = { λ reads. FailsAt (held_in reads.given.now.tables.now.models reads.given.now.tables.now.tables reads.outcomes.now) };

    fn value(&mut self, cell: Cell) -> Result<Value, Unread> {
        let alloc = self.given.alloc();
        match self.outcomes.get(&cell) {
            Some(Outcome::Value(value)) => Ok(value.try_clone(alloc)?),
            Some(_) => Err(Unread::NoValue(cell)),
            None => match self.given.plain(cell)? {
                Some(value) => Ok(value),
                None => Err(Unread::NoValue(cell)),
            },
        }
    }
}
