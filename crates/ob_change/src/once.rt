//! Cells that come up several times, each once, so that whoever goes over the cells of a change
//! meets each of them one time. The contract says which cells these are; that none is listed twice
//! it leaves out, and their order too. How those that came up before are known may change here at
//! will.

ghost use Rattle.std.specs.Prelude.{◌≡◌, ◌↔◌, Contains, IfOk, OnOk};
ghost use Rattle.ob_change.specs.EditedSteps.{Gains};

use ob_base::{Cell, NoMemory};
use std::alloc::Global;
use std::collections::BTreeSet;

/// The cells of a list, each once.
pub(crate) fn once_each(alloc: Global, cells: &[Cell]) -> Result<Vec<Cell>, NoMemory>
    ensures { IfOk result (λ once. (cell : Cell) → Contains once.items cell
        ↔ Contains cells.now cell) }
{
    let mut met = BTreeSet::new(alloc);
    let mut once = Vec::new(alloc);
    for cell in cells {
        add_new(*cell, &mut met, &mut once)?;
    }
    Ok(once)
}

/// Adds a cell that wasn't met before.
fn add_new(cell: Cell, met: &mut BTreeSet<Cell>, once: &mut Vec<Cell>) -> Result<(), NoMemory>
    requires met { (other : Cell) → Contains met.old.keys other → Contains once.old.items other }
    ensures added { OnOk result (Gains (λ other. other ≡ cell) once.old.items once.new.items) }
    ensures met { OnOk result ((other : Cell) → Contains met.new.keys other
        → Contains once.new.items other) }
{
    if met.insert(cell)? {
        once.push(cell)?;
    }
    Ok(())
}
