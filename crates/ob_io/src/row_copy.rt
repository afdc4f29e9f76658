//! Copies of rows and of changes, and a row's links put in order. Plain work over
//! the values of `store`: nothing here knows where they are kept.

ghost use Rattle.std.specs.Prelude.{◌≡◌, ◌≢◌, ◌++◌, AllPairs, map, IfOk, OnOk};
ghost use Rattle.std.specs.FinSet as set;
ghost use Rattle.ob_io.specs.Store.{link_cmp, in_order as row_in_order};
ghost use Rattle.ob_io.specs.Kept.{starting_changes as all_starting};

use crate::store::{Change, KeptRow, Link};
use ob_base::{ModelNo, NoMemory, Sequence};
use std::alloc::Global;

/// The same row again.
pub(crate) fn copy_row(alloc: Global, row: &KeptRow) -> Result<KeptRow, NoMemory>
    ensures { IfOk result (λ copy. copy ≡ row.now) }
{
    Ok(KeptRow {
        id: row.id,
        body: copy_items(alloc, &row.body)?,
        links: copy_items(alloc, &row.links)?,
    })
}

/// The same changes again.
pub(crate) fn copy_changes(alloc: Global, changes: &[Change]) -> Result<Vec<Change>, NoMemory>
    ensures { IfOk result (λ copies. copies.items ≡ changes.now) }
{
    let mut copies = Vec::new(alloc);
    for change in changes {
        copies.push(copy_change(alloc, change)?)?;
    }
    Ok(copies)
}

/// The changes that put these rows, in this order, and then set these next ids.
pub(crate) fn starting_changes(
    alloc: Global,
    rows: Vec<(ModelNo, KeptRow)>,
    next_ids: Vec<(ModelNo, u64)>,
) -> Result<Vec<Change>, NoMemory>
    ensures { IfOk result (λ changes. changes.items ≡ all_starting rows.items next_ids.items) }
{
    let mut changes = Vec::new(alloc);
    push_puts(&mut changes, rows)?;
    push_nexts(&mut changes, next_ids)?;
    Ok(changes)
}

fn push_puts(changes: &mut Vec<Change>, rows: Vec<(ModelNo, KeptRow)>) -> Result<(), NoMemory>
    ensures { OnOk result (changes.new.items ≡ changes.old.items ++ map (λ p. Change.Put p.0 p.1) rows.items) }
{
    for (model, row) in rows {
        changes.push(Change::Put { model, row })?;
    }
    Ok(())
}

fn push_nexts(changes: &mut Vec<Change>, next_ids: Vec<(ModelNo, u64)>) -> Result<(), NoMemory>
    ensures { OnOk result (changes.new.items ≡ changes.old.items ++ map (λ p. Change.Next p.0 p.1) next_ids.items) }
{
    for (model, next) in next_ids {
        changes.push(Change::Next { model, next })?;
    }
    Ok(())
}

fn copy_change(alloc: Global, change: &Change) -> Result<Change, NoMemory>
    ensures { IfOk result (λ copy. copy ≡ change.now) }
{
    Ok(match change {
        Change::Put { model, row } => Change::Put {
            model: *model,
            row: copy_row(alloc, row)?,
        },
        Change::Gone { model, id } => Change::Gone {
            model: *model,
            id: *id,
        },
        Change::Next { model, next } => Change::Next {
            model: *model,
            next: *next,
        },
    })
}

fn copy_items<T: Copy>(alloc: Global, items: &Sequence<T>) -> Result<Sequence<T>, NoMemory>
    ensures { IfOk result (λ copy. copy ≡ items.now) }
{
    Ok(Sequence::from_vec(Vec::from_slice(alloc, items.as_slice())?))
}

/// The row with its links rising by field, then target. It needs no memory.
pub(crate) fn in_order(row: KeptRow) -> KeptRow
    requires { AllPairs (λ a b. a ≢ b) row.links }
    ensures { result ≡ row_in_order row }
{
    let KeptRow { id, body, links } = row;
    let mut links = links.into_vec();
    links.sort_unstable();
    KeptRow {
        id,
        body,
        links: Sequence::from_vec(links),
    }
}
