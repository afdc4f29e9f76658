//! The links between rows on the two sides of a change of tables, as whoever asks what the change
//! affects follows them. They tell exactly these tables.

ghost use Rattle.std.specs.Prelude.{◌≡◌, ⊤};
ghost use Rattle.ob_change.specs.Changing.{models_of, sides_of};
ghost use Rattle.ob_schema.specs.Links.{tables_on};

use crate::links::{sources_in, targets_in};
use ob_base::{Cell, FieldNo, ModelNo, NoMemory, RecId, RefList};
use ob_change::Change;
use ob_schema::{Links, Side};
use ob_tables::Tables;

/// Tables before a change and behind it.
#[derive(Drop)]
pub(crate) struct Between<'t, 'a> {
    pub(crate) change: Change<'t, 'a>,
}

impl<'t, 'a> Between<'t, 'a> {
    fn tables_on(&self, side: Side) -> &'t Tables<'a>
        ensures { result.now ≡ record { models = models_of self.now.change; tables = tables_on (sides_of self.now.change) side } }
    {
        match side {
            Side::Old => self.change.before,
            Side::New => self.change.behind,
        }
    }
}

impl Links for Between<'_, '_> {
    type Fault = NoMemory;

    ghost registry = { λ between. models_of between.change };

    ghost tells = { λ between sides. sides ≡ sides_of between.change };

    ghost asks = { λ _ _. ⊤ };

    ghost has_failed = { λ _ _ _. ⊤ };

    fn targets(&mut self, side: Side, cell: Cell) -> Result<RefList, NoMemory> {
        let tables = self.tables_on(side);
        targets_in(self.change.alloc, self.change.schema, tables, cell)
    }

    fn sources(
        &mut self,
        side: Side,
        model: ModelNo,
        field: FieldNo,
        target: RecId,
    ) -> Result<RefList, NoMemory> {
        let tables = self.tables_on(side);
        let change = self.change;
        sources_in(change.alloc, change.schema, tables, model, field, target)
    }
}
