//! Cells in their order, as what a change reaches is told. How they are kept may change here.

ghost use Rattle.std.specs.Prelude.{◌≡◌, ◌↔◌, [], IfOk, IsTrue, length};
ghost use Rattle.ob_trigger.specs.CellSets.{CellsRise};

use ob_base::{Cell, NoMemory};
use std::alloc::Global;
use std::collections::BTreeSet;
use std::marker::Model;

/// Cells by model, then id, then field, each once.
#[derive(Debug, Drop)]
pub struct CellSet {
    cells: Vec<Cell>,
}

impl Model for CellSet {
    ghost use Rattle.std.specs.Prelude.{List};
    ghost use Rattle.ob_base.specs.declared.id.Cell.{Cell};
    ghost use Rattle.ob_trigger.specs.CellSets.{CellsRise};

    ghost Value = { List Cell };

    ghost view = { λ s. s.cells.items };

    ghost invariant = { λ s. CellsRise s.cells.items };
}

impl CellSet {
    /// The cells of a set.
    pub(crate) fn of(alloc: Global, cells: &BTreeSet<Cell>) -> Result<CellSet, NoMemory>
        ensures { IfOk result (λ set. set ≡ cells.now.keys) }
    {
        // The law of each such set: its cells rise.
        let _ = cells.len();
        let cells = listed(alloc, cells)?;
        Ok(CellSet { cells })
    }

    /// The cells, which rise.
    pub fn as_slice(&self) -> &[Cell]
        ensures same { result.now ≡ self.now }
        ensures rising { CellsRise result.now }
    {
        self.cells.as_slice()
    }

    /// How many cells there are.
    pub fn len(&self) -> usize
        ensures { result ≡ length self.now }
    {
        self.cells.len()
    }

    /// Whether there is no cell.
    pub fn is_empty(&self) -> bool
        ensures { IsTrue result ↔ (self.now ≡ []) }
    {
        self.cells.is_empty()
    }
}

/// Cells as a list of their own.
pub(crate) fn copied(alloc: Global, cells: &[Cell]) -> Result<Vec<Cell>, NoMemory>
    ensures { IfOk result (λ list. list.items ≡ cells.now) }
{
    Ok(cells.to_vec(alloc)?)
}

/// The cells of a set as a list.
pub(crate) fn listed(alloc: Global, cells: &BTreeSet<Cell>) -> Result<Vec<Cell>, NoMemory>
    ensures { IfOk result (λ list. list.items ≡ cells.now.keys) }
{
    Ok(cells.iter().copied().collect(alloc)?)
}
