//! Rows in pages: the first ids above one, as a keeper gives them.

ghost use Rattle.std.specs.Prelude.{◌≡◌, IfOk, filter, map, nat_lt};
ghost use Rattle.ob_schema.specs.Models.{HasModel};
ghost use Rattle.ob_schema.specs.Plain.{naming};
ghost use Rattle.ob_schema.specs.Tables.{ids_in, rows_in};
ghost use Rattle.ob_tables.specs.Paging.{first_above};
ghost use Rattle.ob_tables.specs.Rooms.{shown_row};

use crate::tables::Tables;
use ob_base::{FieldNo, ModelNo, NoMemory, RecId, RefList};

impl<'a> Tables<'a> {
    /// The first ids above one of a model's rows, at most so many, rising.
    pub fn ids_above(&self, model: ModelNo, after: RecId, most: u32) -> Result<RefList, NoMemory>
        requires { HasModel self.now.models model }
        ensures { IfOk result (λ ids. ids ≡ first_above after most (ids_in self.now.tables model)) }
    {
        let mut ids = RefList::new(self.alloc);
        for (key, _) in self.rows_above(model, after) {
            if ids.len() >= most as usize {
                break;
            }
            ids.push(key.id)?;
        }
        Ok(ids)
    }

    /// The first ids above one, at most so many, rising, of a model's rows that name a row by a
    /// field.
    pub fn naming_above(
        &self,
        model: ModelNo,
        field: FieldNo,
        id: RecId,
        after: RecId,
        most: u32,
    ) -> Result<RefList, NoMemory>
        requires { HasModel self.now.models model }
        ensures { IfOk result (λ ids. ids ≡ first_above after most (naming self.now.tables model field id)) }
    {
        let mut ids = RefList::new(self.alloc);
        for (holding, _) in self.holders_above(model, field, id, after) {
            if ids.len() >= most as usize {
                break;
            }
            ids.push(holding.holder)?;
        }
        Ok(ids)
    }
}
