//! For which of the rows that modules bring a row is made: it or a parent of it.

ghost use Rattle.std.specs.Prelude.{◌≡◌, IfNone, IfSome, None, nat_lt, position};
ghost use Rattle.ob_install.specs.InstallSteps.{AreCounted, IsOwner, makes};

use crate::installing::placing::Placed;
use ob_base::Cell;
use ob_tables::Edit;

/// The number of the row for which the row of a cell is made.
pub(crate) fn owner(placed: &Placed<'_>, cell: Cell) -> Option<usize>
    requires { AreCounted placed.now }
    ensures found { IfSome result (IsOwner placed.entry.now cell) }
    ensures none { IfNone result (position (makes cell) placed.entry.now.making.edits.items ≡ None) }
{
    let place = first_maker(placed.making.edits.as_slice(), cell)?;
    let behind = first_above(placed.counts.as_slice(), place)?;
    behind.checked_sub(1)
}

/// The place of the first edit that makes the row of a cell.
fn first_maker(edits: &[Edit], cell: Cell) -> Option<usize>
    ensures { result ≡ position (makes cell) edits.now }
{
    edits.iter().position(|edit| makes(edit, cell))
}

/// The place of the first count above a place.
fn first_above(counts: &[usize], place: usize) -> Option<usize>
    ensures { result ≡ position (nat_lt place) counts.now }
{
    counts.iter().position(|count| place < *count)
}

/// Whether an edit makes the row of a cell.
fn makes(edit: &Edit, cell: Cell) -> bool
    ensures { result ≡ makes cell edit.now }
{
    match edit {
        Edit::Make { model, id, .. } => model.0 == cell.model.0 && id.0 == cell.id.0,
        _ => false,
    }
}
