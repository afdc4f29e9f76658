//! Quants by id with an index by spot, so that a line finds its quants in the time of a
//! look-up. The index is no part of what contracts see (`IsIndexed` ties it).

ghost use Rattle.std.specs.Prelude.{◌≡◌, ◌+◌, ◌<◌, ◌^◌, nat_eq, map, find, OnOk, IfOk};
ghost use Rattle.wh_quant.specs.Spots.{spot_of, is_at};
ghost use Rattle.std.specs.List.{IsDistinct};
ghost use Rattle.wh_quant.specs.Moves.{with_quant, IsStart};
ghost use Rattle.wh_quant.specs.Indexed.{holdings_of, IsIndexed, AreFirstPlaces};

use crate::quant::Quant;
use crate::spot::Spot;
use ob_base::NoMemory;
use std::alloc::Global;
use std::collections::BTreeMap;

/// Quants that rise by id, the first place of each spot among them, and the next id.
#[derive(Debug, Drop)]
pub(crate) struct IndexedQuants {
    pub(crate) quants: Vec<Quant>,
    pub(crate) places: BTreeMap<Spot, usize>,
    pub(crate) next: u64,
}

impl IndexedQuants {
    /// The quants by id.
    pub(crate) fn open(alloc: Global, quants: &[Quant], next: u64) -> Result<Self, NoMemory>
        requires { IsDistinct nat_eq (map (λ q. q.id.0) quants.now) }
        ensures start { IfOk result (λ stock. IsStart quants.now next (holdings_of stock)) }
        ensures indexed { IfOk result IsIndexed }
    {
        let mut by_id = Vec::from_slice(alloc, quants)?;
        by_id.sort_by_key(|quant| quant.id.0)?;
        let places = first_places(alloc, by_id.as_slice())?;
        Ok(IndexedQuants {
            quants: by_id,
            places,
            next,
        })
    }

    /// The quant of least id at the spot, where there is one.
    pub(crate) fn find(&self, spot: Spot) -> Option<Quant>
        requires { IsIndexed self.now }
        ensures { result ≡ find (is_at spot) (holdings_of self.now).quants }
    {
        match self.places.get(&spot) {
            Some(place) => Some(self.quants[*place]),
            None => None,
        }
    }

    /// Puts the quant in place of the one of least id at its spot, or adds it there.
    /// After a fault nothing is known of it.
    pub(crate) fn put(&mut self, quant: Quant) -> Result<(), NoMemory>
        requires indexed { IsIndexed self.old }
        requires room { self.old.next + 1 < 2 ^ 64 }
        ensures put { OnOk result (holdings_of self.new ≡ with_quant quant (holdings_of self.old)) }
        ensures still { OnOk result (IsIndexed self.new) }
    {
        match self.places.get(&quant.spot()) {
            Some(place) => {
                let at = *place;
                self.quants[at] = quant;
            }
            None => {
                self.places.insert(quant.spot(), self.quants.len())?;
                self.quants.push(quant)?;
                self.next += 1;
            }
        }
        Ok(())
    }
}

/// The first place of each spot.
fn first_places(alloc: Global, quants: &[Quant]) -> Result<BTreeMap<Spot, usize>, NoMemory>
    ensures { IfOk result (λ places. AreFirstPlaces places quants.now) }
{
    let mut places = BTreeMap::new(alloc);
    for (place, quant) in quants.iter().enumerate() {
        if !places.contains_key(&quant.spot()) {
            places.insert(quant.spot(), place)?;
        }
    }
    Ok(places)
}
