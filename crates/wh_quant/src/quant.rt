//! Quants and lines as plain data, and what one line makes of one quant.

ghost use Rattle.std.specs.Prelude.{◌≡◌, true, false, SomeIff};
ghost use Rattle.wh_quant.specs.Spots.{spot_of, source_spot, destination_spot};
ghost use Rattle.wh_quant.specs.Moves.{Fits64, Suffices, FallsShort, lowered, raised, empty_quant, incoming_date};

use crate::spot::Spot;
use ob_base::{NoMemory, RecId};
use thiserror::Error;

/// The goods of a product, and of a lot or of none, at a place. `guarded` tells whether
/// quantities there never go below zero.
#[derive(Clone, Copy, Debug, PartialEq, Eq)]
pub struct Quant {
    pub id: RecId,
    pub product: RecId,
    pub place: RecId,
    pub lot: Option<RecId>,
    pub quantity: i64,
    pub reserved: i64,
    pub in_date: i64,
    pub guarded: bool,
}

/// Goods that move from a place to another, with whether each of the two is guarded.
#[derive(Clone, Copy, Debug, PartialEq, Eq)]
pub struct Line {
    pub product: RecId,
    pub from: RecId,
    pub to: RecId,
    pub lot: Option<RecId>,
    pub amount: i64,
    pub guarded_from: bool,
    pub guarded_to: bool,
}

/// Why lines don't move.
#[derive(Clone, Copy, Debug, PartialEq, Eq, Error)]
pub enum LineFault {
    /// The line of this number, from 0, takes more than is there or reserved at this quant,
    /// or at the one that would be new.
    #[error("line {0} takes more than is there")]
    Short(u64, RecId),
    /// The line of this number, from 0, leads a number of this quant out of 64 bits.
    #[error("line {0} leads a quantity out of 64 bits")]
    Overflow(u64, RecId),
    /// An allocation failed, so what is left isn't known.
    #[error("no memory")]
    NoMemory,
}

impl From<NoMemory> for LineFault {
    ghost use Rattle.wh_quant.specs.declared.quant.LineFault.TheVariants as fault;

    ghost from_gives = { λ _ e. e ≡ fault.NoMemory };

    fn from(_error: NoMemory) -> LineFault {
        LineFault::NoMemory
    }
}

impl Quant {
    /// Where it stands.
    pub(crate) fn spot(&self) -> Spot
        ensures { result ≡ spot_of self.now }
    {
        Spot {
            product: self.product,
            place: self.place,
            lot: self.lot,
        }
    }

    /// A new one at the spot, with nothing in it yet.
    pub(crate) fn empty(id: u64, spot: Spot, in_date: i64, guarded: bool) -> Quant
        ensures { result ≡ empty_quant id spot in_date guarded }
    {
        Quant {
            id: RecId(id),
            product: spot.product,
            place: spot.place,
            lot: spot.lot,
            quantity: 0,
            reserved: 0,
            in_date,
            guarded,
        }
    }
}

impl Line {
    /// Where it takes its goods.
    pub(crate) fn source(&self) -> Spot
        ensures { result ≡ source_spot self.now }
    {
        Spot {
            product: self.product,
            place: self.from,
            lot: self.lot,
        }
    }

    /// Where it brings them.
    pub(crate) fn destination(&self) -> Spot
        ensures { result ≡ destination_spot self.now }
    {
        Spot {
            product: self.product,
            place: self.to,
            lot: self.lot,
        }
    }

    /// Whether it takes more from a guarded place than is there, or than is reserved.
    pub(crate) fn takes_too_much(&self, source: &Quant) -> bool
        ensures yes { result ≡ true → FallsShort self.now source.now }
        ensures no { result ≡ false → Suffices self.now source.now }
    {
        self.guarded_from && (source.quantity < self.amount || source.reserved < self.amount)
    }

    /// The in_date of its goods where they make a new quant.
    pub(crate) fn incoming_date(&self, now: i64, source: &Quant) -> i64
        ensures { result ≡ incoming_date now self.now source.now }
    {
        if self.guarded_from {
            source.in_date
        } else {
            now
        }
    }

    /// The quant that it takes from, afterwards; none where a number of it leaves 64 bits.
    pub(crate) fn lowered(&self, quant: Quant) -> Option<Quant>
        ensures { SomeIff result (Fits64 (lowered self.now quant)) (lowered self.now quant) }
    {
        let mut left = quant;
        left.quantity = quant.quantity.checked_sub(self.amount)?;
        if self.guarded_from {
            left.reserved = quant.reserved.checked_sub(self.amount)?;
        }
        Some(left)
    }

    /// The quant that it brings its goods to, afterwards; none where its quantity leaves 64 bits.
    pub(crate) fn raised(&self, source: &Quant, quant: Quant) -> Option<Quant>
        ensures { SomeIff result (Fits64 (raised self.now source.now quant)) (raised self.now source.now quant) }
    {
        let mut more = quant;
        more.quantity = quant.quantity.checked_add(self.amount)?;
        if self.guarded_from {
            more.in_date = source.in_date.min(quant.in_date);
        }
        Some(more)
    }
}
