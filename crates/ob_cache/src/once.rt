//! The rows of a list, each once: however many edits touched a row, it is looked at once. How they
//! are told apart, and in which order they come, may change here at will.

ghost use Rattle.std.specs.Prelude.{◌≡◌, Contains, IfOk, OnOk};
ghost use Rattle.ob_base.specs.declared.id.RowKey.{RowKey};

use ob_base::{NoMemory, RowKey};
use std::alloc::Global;
use std::collections::BTreeSet;

/// The rows of a list, each once.
pub(crate) fn once_each(alloc: Global, rows: &[RowKey]) -> Result<Vec<RowKey>, NoMemory>
    ensures { IfOk result (λ once. (row : RowKey) → Contains rows.now row → Contains once.items row) }
{
    let mut met = BTreeSet::new(alloc);
    let mut once = Vec::new(alloc);
    for row in rows {
        add_new(*row, &mut met, &mut once)?;
    }
    Ok(once)
}

/// Adds a row to a list, if it wasn't met yet.
fn add_new(row: RowKey, met: &mut BTreeSet<RowKey>, once: &mut Vec<RowKey>) -> Result<(), NoMemory>
    requires met { (other : RowKey) → Contains met.old.keys other → Contains once.old.items other }
    ensures kept { OnOk result ((other : RowKey) → Contains once.old.items other → Contains once.new.items other) }
    ensures added { OnOk result (Contains once.new.items row) }
    ensures met { OnOk result ((other : RowKey) → Contains met.new.keys other → Contains once.new.items other) }
{
    if met.insert(row)? {
        once.push(row)?;
    }
    Ok(())
}
