//! Numbers of models and fields, ids of rows, and the row and the cell that they name.
//! Plain data: nothing here checks a range, since the limits belong to the calls. The
//! order of cells is that in which an answer names the least of several: change it
//! nowhere but here and in specs/BrokenOrder.

ghost use Rattle.std.specs.Prelude.{◌≡◌};
ghost use Rattle.std.specs.Cmp.{IsTotalOrder};
ghost use Rattle.std.specs.FinMap.{IsAntisymmetric};
ghost use Rattle.ob_base.specs.BrokenOrder.{cell_order};

use std::cmp::Ordering;

/// The number of a model, from 1 in the order in which the modules declare them.
#[derive(Clone, Copy, Debug, PartialEq, Eq, PartialOrd, Ord, Hash)]
pub struct ModelNo(pub u16);

/// The number of a field of its model, from 1 in byte order of the names.
#[derive(Clone, Copy, Debug, PartialEq, Eq, PartialOrd, Ord, Hash)]
pub struct FieldNo(pub u16);

/// The id of a row of its model.
#[derive(Clone, Copy, Debug, PartialEq, Eq, PartialOrd, Ord, Hash)]
pub struct RecId(pub u64);

/// Names a row of all models. Keys are ordered by model, then id.
#[derive(Clone, Copy, Debug, PartialEq, Eq, PartialOrd, Ord, Hash)]
pub struct RowKey {
    pub model: ModelNo,
    pub id: RecId,
}

/// One field of one row. Cells are ordered by model, then id, then field.
#[derive(Clone, Copy, Debug, PartialEq, Eq, PartialOrd, Ord, Hash)]
pub struct Cell {
    pub model: ModelNo,
    pub id: RecId,
    pub field: FieldNo,
}

/// Compares cells by model, then by id, then by field, each by its number. The order is
/// total, and only the same cell compares as equal.
#[tactic(auto, using(crate::proofs::BrokenOrderLaws::cell_order_total, crate::proofs::BrokenOrderLaws::cell_order_exact))]
pub fn cell_cmp(a: &Cell, b: &Cell) -> Ordering
    ensures order { result ≡ cell_order a.now b.now }
    ensures total { IsTotalOrder cell_order }
    ensures exact { IsAntisymmetric cell_order }
{
    a.cmp(b)
}
