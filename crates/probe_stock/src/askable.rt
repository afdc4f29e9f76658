//! What quants and lines `move_lines` may be asked for: ids that differ and lie below the
//! next one, which leaves room for those of new quants.

ghost use Rattle.std.specs.Prelude.{◌≡◌, true, ◌<◌, ◌≤◌, ◌^◌, nat_eq, map, length, All, IfOk};
ghost use Rattle.std.specs.List.{IsDistinct};
ghost use Rattle.std.specs.Ordering.{nat_cmp};
ghost use Rattle.std.specs.BTreeSet.{IsFromIterResult};

use ob_base::NoMemory;
use std::alloc::Global;
use std::collections::BTreeSet;
use wh_quant::{Line, Quant};

/// The greatest number of lines: 2^20.
const MOST_LINES: usize = 1 << 20;

/// The greatest next id: 2^63.
const GREATEST_NEXT: u64 = 1 << 63;

/// Whether `move_lines` may be asked for these.
pub(crate) fn may_be_asked(
    alloc: Global,
    quants: &[Quant],
    lines: &[Line],
    next: u64,
) -> Result<bool, NoMemory>
    ensures distinct { IfOk result (λ may. may ≡ true → IsDistinct nat_eq (map (λ q. q.id.0) quants.now)) }
    ensures below { IfOk result (λ may. may ≡ true → All (λ q. q.id.0 < next) quants.now) }
    ensures ids { IfOk result (λ may. may ≡ true → next ≤ 2 ^ 63) }
    ensures few { IfOk result (λ may. may ≡ true → length lines.now ≤ 2 ^ 20) }
{
    let differ = ids_differ(alloc, quants)?;
    Ok(differ && are_below(quants, next) && next <= GREATEST_NEXT && lines.len() <= MOST_LINES)
}

/// Whether no two quants share an id.
fn ids_differ(alloc: Global, quants: &[Quant]) -> Result<bool, NoMemory>
    ensures { IfOk result (λ may. may ≡ true → IsDistinct nat_eq (map (λ q. q.id.0) quants.now)) }
{
    let ids = ids_of(alloc, quants)?;
    Ok(ids.len() == quants.len())
}

/// The ids of the quants.
fn ids_of(alloc: Global, quants: &[Quant]) -> Result<BTreeSet<u64>, NoMemory>
    ensures { IfOk result (IsFromIterResult nat_cmp (map (λ q. q.id.0) quants.now)) }
{
    Ok(quants.iter().map(|quant| quant.id.0).collect(alloc)?)
}

/// Whether each id is below the next one.
fn are_below(quants: &[Quant], next: u64) -> bool
    ensures { result ≡ true → All (λ q. q.id.0 < next) quants.now }
{
    quants.iter().all(|quant| quant.id.0 < next)
}
