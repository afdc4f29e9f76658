//! The edits that make rows which modules bring, one behind another, and the ids of the rows.

ghost use Rattle.std.specs.Prelude.{◌≡◌, ◌≤◌, [], All, IfOk, OnOk, length, map};
ghost use Rattle.ob_base.specs.Times.{IsMoment};
ghost use Rattle.ob_install.specs.Install as spec;
ghost use Rattle.ob_install.specs.Install.{course_by, with_row};
ghost use Rattle.ob_install.specs.InstallSteps.{ArePlaced, IsPlacedBehind, IsWhole, NamesAmong, course_of, edits_of, made_by};
ghost use Rattle.ob_orm.specs.NewRowSteps.{HoldsNextIds, IsReady, IsTyped};
ghost use Rattle.ob_schema.specs.Models.{HasModel};
ghost use Rattle.ob_schema.specs.Presets.{IsPreset};
ghost use Rattle.ob_schema.specs.Tables.{empty_tables};
ghost use Rattle.ob_tables.specs.After.{after};
ghost use Rattle.ob_tables.specs.Fitting.{IsFitEdit};

use crate::installing::bringing::given_by;
use ob_base::{NoMemory, RecId};
use ob_orm::{Maker, Making, make_row};
use ob_schema::PresetRow;
use ob_tables::{Edit, Tables};

/// Rows that are made so far of those that modules bring: the edits, the rows' ids, and how many
/// edits there were before the first of them and behind each.
#[derive(Drop)]
pub(crate) struct Placed<'r> {
    pub(crate) rows: &'r [PresetRow],
    pub(crate) making: Making,
    pub(crate) ids: Vec<RecId>,
    pub(crate) counts: Vec<usize>,
}

/// Makes the rows one behind another.
pub(crate) fn place_rows<'r>(
    maker: &Maker<'_>,
    making: Making,
    rows: &'r [PresetRow],
) -> Result<Placed<'r>, NoMemory>
    requires preset { IsPreset maker.now.schema.now rows.now }
    requires moment { IsMoment maker.now.author.now }
    requires ready { IsReady maker.now.schema.now making }
    requires none { making.edits.items ≡ [] }
    ensures whole { IfOk result (IsWhole maker.entry.now.schema.now) }
    ensures rows { IfOk result (λ placed. placed.rows.now ≡ rows.now) }
    ensures made { IfOk result (λ placed. HoldsNextIds maker.entry.now.schema.now (empty_tables maker.entry.now.schema.now) making
        → course_of maker.entry.now.schema.now placed ≡ course_by maker.entry.now.schema.now maker.entry.now.author rows.now) }
{
    let mut counts = Vec::new(maker.alloc);
    counts.push(0)?;
    let mut placed = Placed {
        rows,
        making,
        ids: Vec::new(maker.alloc),
        counts,
    };
    for row in rows {
        place_row(maker, &mut placed, row)?;
    }
    Ok(placed)
}

/// Makes a row behind others.
fn place_row(maker: &Maker<'_>, placed: &mut Placed<'_>, row: &PresetRow) -> Result<(), NoMemory>
    requires model { HasModel maker.now.schema.now row.now.model }
    requires moment { IsMoment maker.now.author.now }
    requires named { All (λ given. NamesAmong (length placed.old.ids.items) given.1) row.now.values }
    requires typed { All (IsTyped maker.now.schema.now row.now.model) (spec.given_by (map (λ id. id.0) placed.old.ids.items) row.now.values) }
    requires placed { ArePlaced maker.now.schema.now placed.old }
    ensures placed { OnOk result (ArePlaced maker.entry.now.schema.now placed.new) }
    ensures behind { OnOk result (IsPlacedBehind placed.old placed.new) }
    ensures made { OnOk result (HoldsNextIds maker.entry.now.schema.now (empty_tables maker.entry.now.schema.now) placed.old.making
        → (made_by maker.entry.now.schema.now placed.new ≡ with_row maker.entry.now.schema.now maker.entry.now.author (made_by maker.entry.now.schema.now placed.old) row.now)
        × HoldsNextIds maker.entry.now.schema.now (empty_tables maker.entry.now.schema.now) placed.new.making) }
{
    let given = given_by(maker.alloc, placed.ids.as_slice(), row.values.as_slice())?;
    let id = make_row(maker, &mut placed.making, row.model, given)?;
    placed.ids.push(id)?;
    placed.counts.push(placed.making.edits.len())?;
    Ok(())
}

/// The tables with the first so many rows, where there were none.
pub(crate) fn tables_of<'s>(
    maker: &Maker<'s>,
    placed: &Placed<'_>,
    count: usize,
) -> Result<Tables<'s>, NoMemory>
    requires placed { ArePlaced maker.now.schema.now placed.now }
    requires within { count ≤ length placed.now.ids.items }
    ensures { IfOk result (λ tables. tables ≡ record {
      models = maker.entry.now.schema.now;
      tables = after maker.entry.now.schema.now (empty_tables maker.entry.now.schema.now) (edits_of placed.entry.now count);
    }) }
{
    let edits = &placed.making.edits.as_slice()[..placed.counts[count]];
    tables_with(maker, edits)
}

/// The tables that edits make of none.
fn tables_with<'s>(maker: &Maker<'s>, edits: &[Edit]) -> Result<Tables<'s>, NoMemory>
    requires { All (IsFitEdit maker.now.schema.now) edits.now }
    ensures { IfOk result (λ tables. tables ≡ record {
      models = maker.entry.now.schema.now;
      tables = after maker.entry.now.schema.now (empty_tables maker.entry.now.schema.now) edits.entry.now;
    }) }
{
    Tables::empty(maker.alloc, maker.schema).after(edits)
}
