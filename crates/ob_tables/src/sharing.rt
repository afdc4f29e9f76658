//! Whether another row shares a set of fields with one that no two may share. How the other one is
//! found may change here at will: the rows whose values have the same digest are compared.

ghost use Rattle.std.specs.Prelude.{◌↔◌, All, Contains, IfOk, IsSomeAnd, IsTrue};
ghost use Rattle.ob_base.specs.declared.id.RecId.{RecId};
ghost use Rattle.ob_schema.specs.Broken.{SharesWith};
ghost use Rattle.ob_schema.specs.Models.{model_at};
ghost use Rattle.ob_schema.specs.Tables.{row_at};
ghost use Rattle.ob_tables.specs.Rooms.{shown_row};
ghost use Rattle.ob_tables.specs.Sets.{AreKeptAlike};

use crate::digests::digest_in;
use crate::row::PlainRow;
use crate::tables::Tables;
use crate::unique::is_unset;
use ob_base::{FieldNo, ModelNo, NoMemory, RecId, value_eq};

impl<'a> Tables<'a> {
    /// Whether another row of a model has the same values in one of its sets that no two rows may
    /// share, none of them unset.
    pub fn shares_set(&self, model: ModelNo, set: &[FieldNo], id: RecId) -> Result<bool, NoMemory>
        requires { IsSomeAnd (model_at self.now.models model) (λ info. Contains info.unique set.now) }
        ensures { IfOk result (λ shares. IsTrue shares
            ↔ ((other : RecId) × SharesWith self.now.models self.now.tables model set.now id other)) }
    {
        self.fit_together();
        let Some(own) = self.row(model, id) else {
            return Ok(false);
        };
        let Some(digest) = digest_in(own, set) else {
            return Ok(false);
        };
        for (entry, _) in self.digested(model, digest) {
            if entry.id != id && self.is_alike(own, model, entry.id, set) {
                return Ok(true);
            }
        }
        Ok(false)
    }

    /// Whether a row is there that keeps the same values as another in a set of fields, none of
    /// them unset.
    fn is_alike(&self, row: &PlainRow, model: ModelNo, other: RecId, set: &[FieldNo]) -> bool
        ensures { IsTrue result ↔ IsSomeAnd (row_at self.now.tables model other)
            (λ found. All (AreKeptAlike (shown_row row.now) found) set.now) }
    {
        let Some(found) = self.row(model, other) else {
            return false;
        };
        are_alike(row, found, set)
    }
}

/// Whether two rows keep the same values in a set of fields, none of them unset.
fn are_alike(row: &PlainRow, other: &PlainRow, set: &[FieldNo]) -> bool
    ensures { IsTrue result ↔ All (AreKeptAlike (shown_row row.now) (shown_row other.now)) set.now }
{
    set.iter().all(|field| are_alike_in(row, other, *field))
}

/// Whether two rows keep the same value for a field, and it isn't unset.
fn are_alike_in(row: &PlainRow, other: &PlainRow, field: FieldNo) -> bool
    ensures { IsTrue result ↔ AreKeptAlike (shown_row row.now) (shown_row other.now) field }
{
    let Some(value) = row.get(&field.0) else {
        return false;
    };
    let Some(same) = other.get(&field.0) else {
        return false;
    };
    if is_unset(value) {
        return false;
    }
    value_eq(value, same)
}
