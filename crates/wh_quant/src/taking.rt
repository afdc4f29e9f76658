//! What candidates give of a wanted quantity: they are sorted once, then asked in turn.

ghost use Rattle.std.specs.Prelude.{◌≡◌, pos, nat_eq, List, map, IfOk, All};
ghost use Rattle.std.specs.List.{IsDistinct};
ghost use Rattle.std.specs.Int.{int_min, int_max};
ghost use Rattle.wh_quant.specs.declared.stock.Take.{Take};
ghost use Rattle.wh_quant.specs.Takes.{HasFree, IsRanked, takes_from, AreTakes, IsTakeOf};
ghost use Rattle.wh_quant.specs.Sums.{total};

use crate::stock::{Removal, Stock, Take};
use ob_base::{NoMemory, Sequence};
use std::alloc::Global;

/// What the stocks give of the wanted units, in the order of removal: each gives the
/// lesser of what it has free and what is still wanted, and those that give nothing are
/// left out. Stocks that tie in the whole order, as two of one id do, give in any order.
pub fn takes(
    alloc: Global,
    free: &[Stock],
    want: i64,
    order: Removal,
) -> Result<Sequence<Take>, NoMemory>
    ensures taken { IfOk result (AreTakes order free.now want) }

    // Where no two stocks share an id, no other list is so taken.
    ensures only { IsDistinct nat_eq (map (λ s. s.quant.0) free.now) → (a b : List Take) → AreTakes order free.now want a → AreTakes order free.now want b → a ≡ b }

    // And each gives once.
    ensures distinct { IsDistinct nat_eq (map (λ s. s.quant.0) free.now)
        → IfOk result (λ taken. IsDistinct nat_eq (map (λ t. t.quant.0) taken)) }

    // No take is of more than is free, and together they give all that is wanted, where it is there, and no more.
    ensures within { IfOk result (All (IsTakeOf free.now)) }
    ensures whole { IfOk result (λ taken. total (λ t. t.amount) taken ≡ int_min (int_max (pos 0) want) (total (λ s. int_max (pos 0) s.free) free.now)) }
{
    let candidates = ranked(alloc, free, order)?;
    given(alloc, candidates.as_slice(), want)
}

/// What the candidates give in turn, as long as something is wanted.
fn given(alloc: Global, candidates: &[&Stock], want: i64) -> Result<Sequence<Take>, NoMemory>
    requires { All HasFree (map (λ s. s.now) candidates.now) }
    ensures { IfOk result (λ taken. taken ≡ takes_from want (map (λ s. s.now) candidates.now)) }
{
    let mut left = want;
    let mut taken = Sequence::new(alloc);
    for stock in candidates {
        if left <= 0 {
            return Ok(taken);
        }
        let amount = stock.free.min(left);
        taken.push(Take {
            quant: stock.quant,
            amount,
        })?;
        left -= amount;
    }
    Ok(taken)
}

/// The stocks that have something free, in the order of removal.
fn ranked<'a>(alloc: Global, free: &'a [Stock], order: Removal) -> Result<Vec<&'a Stock>, NoMemory>
    ensures { IfOk result (λ v. IsRanked order free.now (map (λ s. s.now) v.items)) }
{
    let mut candidates = Vec::new(alloc);
    for stock in free {
        if stock.free > 0 {
            candidates.push(stock)?;
        }
    }
    candidates.sort_by(|a, b| order.compare(a, b))?;
    Ok(candidates)
}
