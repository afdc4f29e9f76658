//! Where a form is wrong, and how. A place has the numbers of the items from the value
//! on, since no object is read here: a fault inside one is told by whoever reads it.

ghost use Rattle.std.specs.Prelude.{◌≡◌, IfOk};
ghost use Rattle.ob_codec.specs.Steps.{IsFault, place_of};

use crate::fault::CodecFault;
use ob_base::{NoMemory, PathStep, Place};
use std::alloc::Global;

/// The fault of another kind of JSON value at the item of these numbers.
pub(crate) fn shape(alloc: Global, numbers: &[usize]) -> CodecFault
    ensures { IsFault result (CodecFault.Shape (place_of numbers.now)) }
{
    match place_of(alloc, numbers) {
        Ok(place) => CodecFault::Shape(place),
        Err(error) => CodecFault::from(error),
    }
}

/// The fault of a value outside its range at the item of these numbers.
pub(crate) fn range(alloc: Global, numbers: &[usize]) -> CodecFault
    ensures { IsFault result (CodecFault.Range (place_of numbers.now)) }
{
    match place_of(alloc, numbers) {
        Ok(place) => CodecFault::Range(place),
        Err(error) => CodecFault::from(error),
    }
}

/// The place of the item of these numbers, each in the one before it.
fn place_of(alloc: Global, numbers: &[usize]) -> Result<Place, NoMemory>
    ensures { IfOk result (λ place. place ≡ place_of numbers.now) }
{
    let mut place = Place::whole(alloc);
    for number in numbers {
        place.push(PathStep::Item(*number as u64))?;
    }
    Ok(place)
}
