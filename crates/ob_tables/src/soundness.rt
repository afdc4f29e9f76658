//! What is broken in tables: in single cells, among the rows of a model, and in what
//! formulas give. A room that looks for a further kind is asked here.

ghost use Rattle.std.specs.Prelude.{◌≡◌, IfOk, OnOk, true};
ghost use Rattle.ob_tables.specs.Applying.{IsFirstOrSound};
ghost use Rattle.ob_tables.specs.Finding.{Anywhere, BreaksIn, Finds, IsOf, is_of_formulas, is_of_rows};
ghost use Rattle.ob_schema.specs.Tied.{IsTied};

use crate::cells::find_in_cells;
use crate::findings::{Findings, no_findings};
use crate::forest::find_in_tree;
use crate::formulas::find_in_formulas;
use crate::tables::Tables;
use crate::unique::find_in_sets;
use ob_base::limits::MAX_MODELS;
use ob_base::{Broken, ModelNo, NoMemory};

/// The first that is broken in tables, by cell, then kind; none where they are sound.
pub(crate) fn first_broken(tables: &Tables<'_>) -> Result<Option<Broken>, NoMemory>
    ensures { IfOk result (IsFirstOrSound tables.now.models tables.now.tables) }
{
    let mut findings = no_findings();
    find_in_rows(tables, &mut findings)?;
    if findings.is_tied {
        find_in_formulas(tables, &mut findings)?;
        return Ok(findings.first);
    }
    Ok(findings.first)
}

/// Finds what rows break by what they keep.
fn find_in_rows(tables: &Tables<'_>, findings: &mut Findings) -> Result<(), NoMemory>
    ensures { OnOk result (Finds (BreaksIn tables.now.models tables.now.tables is_of_rows Anywhere) findings.old findings.new) }
{
    tables.fit_together();
    for place in 0..MAX_MODELS {
        find_in_model(tables, ModelNo(place as u16 + 1), findings)?;
    }
    Ok(())
}

/// Finds what the rows of a model break, if it is there.
fn find_in_model(
    tables: &Tables<'_>,
    model: ModelNo,
    findings: &mut Findings,
) -> Result<(), NoMemory>
    ensures { OnOk result (Finds (BreaksIn tables.now.models tables.now.tables is_of_rows (IsOf model)) findings.old findings.new) }
{
    tables.fit_together();
    let Some(info) = tables.schema.find_model(model) else {
        return Ok(());
    };
    let ids = tables.ids(model)?;
    find_in_cells(tables, model, ids.as_slice(), findings)?;
    find_in_sets(tables, model, ids.as_slice(), findings)?;
    match info.parent {
        Some(parent) => find_in_tree(tables, model, parent, ids.as_slice(), findings),
        None => Ok(()),
    }
}
