//! Places among the arguments of a call: by position they begin with `args`, by name with
//! `kw`. Whoever knows where a call's arguments stand in a request makes them places of it.

ghost use Rattle.std.specs.Prelude.{◌≡◌, ◌∷◌, ◌++◌, [], IfOk};
ghost use Rattle.ob_base.specs.declared.place.PathStep.TheVariants.{Key};
ghost use Rattle.ob_call.specs.Places.{IsMalformedAt, below_steps, spot_place};

use ob_base::{NoMemory, PathStep, Place, Refusal};
use std::alloc::Global;

/// Where an argument stands: at a position from 0, or under its name.
#[derive(Clone, Copy, Debug)]
pub enum Spot<'a> {
    Position(usize),
    Name(&'a str),
}

/// Where in an argument something is wrong: the whole of it, an item of a list from 0, a key
/// of an object, or a place of any depth.
#[derive(Debug, Drop)]
pub enum Below<'a> {
    Whole,
    Item(usize),
    Key(&'a str),
    Place(Place),
}

impl Spot<'_> {
    /// The place that the spot is.
    fn place(self, alloc: Global) -> Result<Place, NoMemory>
        ensures { IfOk result (λ place. place ≡ spot_place self.entry) }
    {
        let mut place = Place::whole(alloc);
        match self {
            Spot::Position(number) => {
                place.push_key(alloc, "args")?;
                place.push(PathStep::Item(number as u64))?;
            }
            Spot::Name(name) => {
                place.push_key(alloc, "kw")?;
                place.push_key(alloc, name)?;
            }
        }
        Ok(place)
    }
}

/// The refusal of a call whose argument at a spot is wrong there; or want of memory for it.
pub fn malformed(alloc: Global, spot: Spot<'_>, below: Below<'_>) -> Refusal
    ensures { IsMalformedAt (spot_place spot.entry ++ below_steps below.entry) result }
{
    match place_below(alloc, spot, below) {
        Ok(place) => Refusal::Request(place),
        Err(NoMemory) => Refusal::NoMemory,
    }
}

/// The refusal of a call whose argument at a spot is wrong at a place below that; or want
/// of memory for it.
pub fn malformed_below(alloc: Global, spot: Spot<'_>, below: Below<'_>, place: &Place) -> Refusal
    ensures { IsMalformedAt ((spot_place spot.entry ++ below_steps below.entry) ++ place.now) result }
{
    match place_further(alloc, spot, below, place) {
        Ok(place) => Refusal::Request(place),
        Err(NoMemory) => Refusal::NoMemory,
    }
}

/// The refusal of a call whose arguments are wrong as a whole: `args` or `kw` itself.
pub(crate) fn malformed_whole(alloc: Global, name: &str) -> Refusal
    ensures { IsMalformedAt (Key name.now ∷ []) result }
{
    let mut place = Place::whole(alloc);
    match place.push_key(alloc, name) {
        Ok(()) => Refusal::Request(place),
        Err(NoMemory) => Refusal::NoMemory,
    }
}

/// The place below a spot.
fn place_below(alloc: Global, spot: Spot<'_>, below: Below<'_>) -> Result<Place, NoMemory>
    ensures { IfOk result (λ place. place ≡ spot_place spot.entry ++ below_steps below.entry) }
{
    let mut place = spot.place(alloc)?;
    match below {
        Below::Whole => {}
        Below::Item(number) => place.push(PathStep::Item(number as u64))?,
        Below::Key(name) => place.push_key(alloc, name)?,
        Below::Place(further) => place.extend(alloc, &further)?,
    }
    Ok(place)
}

/// A place below a place below a spot.
fn place_further(
    alloc: Global,
    spot: Spot<'_>,
    below: Below<'_>,
    further: &Place,
) -> Result<Place, NoMemory>
    ensures { IfOk result
        (λ place. place ≡ (spot_place spot.entry ++ below_steps below.entry) ++ further.now) }
{
    let mut place = place_below(alloc, spot, below)?;
    place.extend(alloc, further)?;
    Ok(place)
}
