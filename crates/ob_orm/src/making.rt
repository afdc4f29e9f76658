//! How rows are made of given values, with rows of their parents: the edits, and the ids. A call
//! that makes rows begins with the next ids (`begun`), makes its rows one behind another, and hands
//! all edits to the engine at once.
//!
//! Rooms: `next_ids` (the ids that rows take), `filling` (the values of a row from those that are
//! given), `parents` (what becomes of a row's parents) and `limits` (ids past their limit). What a
//! row is made of is `made_row`: a change begins there.

ghost use Rattle.std.specs.Prelude.{◌≡◌, ◌++◌, ◌∷◌, [], All, IfOk, OnOk, map};
ghost use Rattle.ob_base.specs.Times.{IsMoment};
ghost use Rattle.ob_orm.specs.NewRows as spec;
ghost use Rattle.ob_orm.specs.NewRows.{made_row, made_rows};
ghost use Rattle.ob_orm.specs.NewRowSteps.{AddsEdits, HoldsNextIds, IsReady, IsTyped, so_far};
ghost use Rattle.ob_schema.specs.Models.{HasModel};
ghost use Rattle.ob_schema.specs.Tables.{Tables, next_of};
ghost use Rattle.ob_tables.specs.Fitting.{IsFitId};

pub(crate) mod filling;
pub(crate) mod limits;
pub(crate) mod next_ids;
pub(crate) mod parents;

use crate::making::filling::filled;
use crate::making::next_ids::{Making, take_id};
use crate::making::parents::{make_parents, parent_changes};
use ob_base::{FieldNo, ModelNo, NoMemory, RecId, Sequence, Value};
use ob_rows::Author;
use ob_schema::Schema;
use ob_tables::Edit;
use std::alloc::Global;

/// What rows are made with: the registry, who makes them and when, and memory.
#[derive(Clone, Copy)]
pub struct Maker<'s> {
    pub alloc: Global,
    pub schema: &'s Schema,
    pub author: Author,
}

/// Makes rows of given values one behind another, and answers their ids.
pub(crate) fn make_rows(
    maker: &Maker<'_>,
    making: &mut Making,
    model: ModelNo,
    each: Vec<Sequence<(FieldNo, Value)>>,
) -> Result<Vec<RecId>, NoMemory>
    requires model { HasModel maker.now.schema.now model }
    requires moment { IsMoment maker.now.author.now }
    requires typed { All (All (IsTyped maker.now.schema.now model)) each.items }
    requires ready { IsReady maker.now.schema.now making.old }
    ensures ready { OnOk result (IsReady maker.entry.now.schema.now making.new) }
    ensures made { IfOk result (λ ids. (old : Tables) → HoldsNextIds maker.entry.now.schema.now old making.old
        → let made = made_rows maker.entry.now.schema.now maker.entry.now.author (so_far maker.entry.now.schema.now old making.old) model each.items in
        (making.new.edits.items ≡ making.old.edits.items ++ made.edits) × (map (λ id. id.0) ids.items ≡ made.ids) × HoldsNextIds maker.entry.now.schema.now old making.new) }
{
    let mut ids = Vec::new(maker.alloc);
    for given in each {
        let id = make_row(maker, making, model, given.into_vec())?;
        ids.push(id)?;
    }
    Ok(ids)
}

/// Makes a row of given values, by the numbers of the model's fields, behind those that were made so
/// far, with rows of its parents, and answers its id, which is the model's next one: one past the
/// limit is told where the rows are settled (`settle_rows`). The caller sees to it that the registry
/// has the model, that each value is one of its field, and that the moment lies within the years 0001
/// to 9999. Where memory is wanting the rows so far are of no use.
pub fn make_row(
    maker: &Maker<'_>,
    making: &mut Making,
    model: ModelNo,
    given: Vec<(FieldNo, Value)>,
) -> Result<RecId, NoMemory>
    requires model { HasModel maker.now.schema.now model }
    requires moment { IsMoment maker.now.author.now }
    requires typed { All (IsTyped maker.now.schema.now model) given.items }
    requires ready { IsReady maker.now.schema.now making.old }
    ensures low { IfOk result IsFitId }
    ensures adds { OnOk result (AddsEdits making.old making.new) }
    ensures ready { OnOk result (IsReady maker.entry.now.schema.now making.new) }
    ensures made { IfOk result (λ id. (old : Tables) → HoldsNextIds maker.entry.now.schema.now old making.old
        → let made = made_row maker.entry.now.schema.now maker.entry.now.author (so_far maker.entry.now.schema.now old making.old) model given.items in
        (making.new.edits.items ≡ making.old.edits.items ++ made.edits) × (id.0 ≡ made.id) × HoldsNextIds maker.entry.now.schema.now old making.new) }
{
    let mut given = given;
    let mut changes = parent_changes(maker, model, given.as_slice())?;
    make_parents(maker, making, model, &mut given)?;
    let id = make_one(maker, making, model, given.as_slice())?;
    making.edits.append(&mut changes)?;
    Ok(id)
}

/// Makes a row of given values, whatever its parents are, and answers its id.
pub(crate) fn make_one(
    maker: &Maker<'_>,
    making: &mut Making,
    model: ModelNo,
    given: &[(FieldNo, Value)],
) -> Result<RecId, NoMemory>
    requires model { HasModel maker.now.schema.now model }
    requires moment { IsMoment maker.now.author.now }
    requires typed { All (IsTyped maker.now.schema.now model) given.now }
    requires ready { IsReady maker.now.schema.now making.old }
    ensures low { IfOk result IsFitId }
    ensures adds { OnOk result (AddsEdits making.old making.new) }
    ensures ready { OnOk result (IsReady maker.entry.now.schema.now making.new) }
    ensures made { IfOk result (λ id. (old : Tables) → HoldsNextIds maker.entry.now.schema.now old making.old
        → let before = so_far maker.entry.now.schema.now old making.old in
        (making.new.edits.items ≡ making.old.edits.items ++ spec.making maker.entry.now.schema.now maker.entry.now.author before model given.now ∷ []) × (id.0 ≡ next_of before model) × HoldsNextIds maker.entry.now.schema.now old making.new) }
{
    let values = filled(maker, true, model, given)?;
    let id = take_id(making, model)?;
    making.edits.push(Edit::Make { model, id, values })?;
    Ok(id)
}
