//! What lines of goods that move make of quants, one line after the other.

ghost use Rattle.std.specs.Prelude.{◌≡◌, ℕ, ℤ, pos, ◌+◌, ◌*◌, ◌<◌, ◌≤◌, ◌+ℤ◌, ◌-ℤ◌, ◌≤ℤ◌, ◌^◌, nat_eq, Bool, List, map, length, All, count_by, filter, IfOk, OnOk};
ghost use Rattle.std.specs.List.{IsDistinct};
ghost use Rattle.ob_base.specs.declared.id.RecId.{RecId};
ghost use Rattle.wh_quant.specs.declared.quant.Quant.{Quant};
ghost use Rattle.wh_quant.specs.declared.quant.Line.{Line};
ghost use Rattle.wh_quant.specs.declared.quant.LineFault.{LineFault};
ghost use Rattle.wh_quant.specs.declared.spot.Spot.{Spot};
ghost use Rattle.wh_quant.specs.Spots.{is_at};
ghost use Rattle.wh_quant.specs.Moves.{IsMoved, IsShortAt, IsOverflowAt, IsFault, AreGuardedBy, RiseById};
ghost use Rattle.wh_quant.specs.Moves.{source_quant, after_line, Suffices, FallsShort, OverflowsAt, MovesGoods};
ghost use Rattle.wh_quant.specs.Sums.{sum_of, quantity_at, reserved_at, taken_from, released_from, brought_to, IsCovered, IsFreeOutside};
ghost use Rattle.wh_quant.specs.Indexed.{holdings_of, IsIndexed, AreTouched, stays_beside};

use crate::indexed::IndexedQuants;
use crate::quant::{Line, LineFault, Quant};
use crate::spot::Spot;
use ob_base::{NoMemory, Sequence};
use std::alloc::Global;
use std::collections::BTreeSet;

/// The quants after the lines, rising by id. Each line lowers the quant at its source and
/// raises the one at its destination; where there are several of one product, place and
/// lot, the least id is meant, and where there is none a new one takes the next id, from
/// `next` on. Afterwards those of quantity zero are left out where a line took or brought
/// goods; all others stay as they are. `now` is the in_date of goods that come from a place
/// that isn't guarded. `Short` and `Overflow` name the first line that can't move its goods,
/// and the quant at which it can't.
pub fn move_lines(
    alloc: Global,
    quants: &[Quant],
    lines: &[Line],
    now: i64,
    next: u64,
) -> Result<Sequence<Quant>, LineFault>
    requires distinct { IsDistinct nat_eq (map (λ q. q.id.0) quants.now) }
    requires below { All (λ q. q.id.0 < next) quants.now }
    requires ids { next + 2 * length lines.now < 2 ^ 64 }
    ensures moved { IfOk result (IsMoved now next quants.now lines.now) }
    ensures short { (i : ℕ) (q : RecId) → result ≡ Err (LineFault.Short i q)
        → IsShortAt now next quants.now lines.now i q }
    ensures overflow { (i : ℕ) (q : RecId) → result ≡ Err (LineFault.Overflow i q)
        → IsOverflowAt now next quants.now lines.now i q }

    // No other list is the quants after the lines, no other fault is theirs, and never both.
    ensures only { (a b : List Quant) → IsMoved now next quants.now lines.now a
        → IsMoved now next quants.now lines.now b → a ≡ b }
    ensures only_fault { (a b : LineFault) → IsFault now next quants.now lines.now a
        → IsFault now next quants.now lines.now b → a ≡ b }
    ensures apart { (a : List Quant) (fault : LineFault) → IsMoved now next quants.now lines.now a
        → IsFault now next quants.now lines.now fault → ⊥ }

    // What follows: ids rise, sums stay, and what covers a reservation still does.
    ensures rising { IfOk result RiseById }
    ensures new_ids { IfOk result (All (λ q. q.id.0 < next + 2 * length lines.now)) }
    ensures sums { IfOk result (λ moved. (product : RecId)
        → sum_of product moved ≡ sum_of product quants.now) }
    ensures covered { IfOk result (λ moved. (guards : RecId → Bool)
        → AreGuardedBy guards quants.now lines.now
        → All (λ line. pos 0 ≤ℤ line.amount) lines.now
        → All IsCovered quants.now → All IsCovered moved) }

    // The books: what stands at a spot is what stood there, less what left, and what came.
    ensures quantities { IfOk result (λ moved. (spot : Spot)
        → quantity_at spot moved
        ≡ ((quantity_at spot quants.now -ℤ taken_from spot lines.now) +ℤ brought_to spot lines.now)) }
    ensures reservations { IfOk result (λ moved. (guards : RecId → Bool)
        → AreGuardedBy guards quants.now lines.now
        → All (λ line. pos 0 ≤ℤ line.amount) lines.now
        → All IsCovered quants.now → All IsFreeOutside quants.now → (spot : Spot)
        → reserved_at spot moved ≡ (reserved_at spot quants.now -ℤ released_from spot lines.now)) }
    ensures single { IfOk result (λ moved. (spot : Spot)
        → count_by (is_at spot) quants.now ≤ 1 → count_by (is_at spot) moved ≤ 1) }
{
    let mut stock = IndexedQuants::open(alloc, quants, next)?;
    for (number, line) in lines.iter().enumerate() {
        move_line(&mut stock, line, now, number as u64)?;
    }
    let touched = touched_spots(alloc, lines)?;
    Ok(left_after(alloc, stock.quants.as_slice(), &touched)?)
}

/// Moves the goods of one line.
fn move_line(stock: &mut IndexedQuants, line: &Line, now: i64, number: u64) -> Result<(), LineFault>
    requires indexed { IsIndexed stock.old }
    requires ids { stock.old.next + 2 < 2 ^ 64 }
    ensures moved { OnOk result (holdings_of stock.new ≡ after_line now (holdings_of stock.old) line.now) }
    ensures moves { OnOk result (MovesGoods now line.now (holdings_of stock.old)) }
    ensures still { OnOk result (IsIndexed stock.new) }
    ensures short { (i : ℕ) (q : RecId) → result ≡ Err (LineFault.Short i q)
        → let source = source_quant now line.now (holdings_of stock.old)
        in (i ≡ number) × FallsShort line.now source × (q ≡ source.id) }
    ensures overflow { (i : ℕ) (q : RecId) → result ≡ Err (LineFault.Overflow i q)
        → (i ≡ number) × Suffices line.now (source_quant now line.now (holdings_of stock.old))
        × OverflowsAt now line.now (holdings_of stock.old) q }
{
    let absent = Quant::empty(stock.next, line.source(), now, line.guarded_from);
    let source = stock.find(line.source()).unwrap_or(absent);
    if line.takes_too_much(&source) {
        return Err(LineFault::Short(number, source.id));
    }
    let Some(lowered) = line.lowered(source) else {
        return Err(LineFault::Overflow(number, source.id));
    };
    stock.put(lowered)?;
    let in_date = line.incoming_date(now, &source);
    let absent = Quant::empty(stock.next, line.destination(), in_date, line.guarded_to);
    let destination = stock.find(line.destination()).unwrap_or(absent);
    let Some(raised) = line.raised(&source, destination) else {
        return Err(LineFault::Overflow(number, destination.id));
    };
    stock.put(raised)?;
    Ok(())
}

/// The spots where the lines take and bring goods.
fn touched_spots(alloc: Global, lines: &[Line]) -> Result<BTreeSet<Spot>, NoMemory>
    ensures { IfOk result (λ spots. AreTouched spots lines.now) }
{
    let mut spots = BTreeSet::new(alloc);
    for line in lines {
        spots.insert(line.source())?;
        spots.insert(line.destination())?;
    }
    Ok(spots)
}

/// The quants that are left after lines that took and brought goods at these spots.
fn left_after(
    alloc: Global,
    quants: &[Quant],
    touched: &BTreeSet<Spot>,
) -> Result<Sequence<Quant>, NoMemory>
    ensures { IfOk result (λ left. left ≡ filter (stays_beside touched.now) quants.now) }
{
    let mut left = Sequence::new(alloc);
    for quant in quants {
        if stays(quant, touched) {
            left.push(*quant)?;
        }
    }
    Ok(left)
}

/// Whether a quant is left after lines that took and brought goods at these spots.
fn stays(quant: &Quant, touched: &BTreeSet<Spot>) -> bool
    ensures { result ≡ stays_beside touched.now quant.now }
{
    quant.quantity != 0 || !touched.contains(&quant.spot())
}
