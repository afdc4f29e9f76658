//! Places of a body: those of an envelope's elements, and those of a call's arguments, which
//! stand in its elements 5 (by position) and 6 (by name), or are its elements from 5 on.

ghost use Rattle.std.specs.Prelude.{◌≡◌, ◌++◌, IfOk};
ghost use Rattle.ob_rpc.specs.Envelope.{element_place};
ghost use Rattle.ob_server.specs.Texts.{body_place, spread_place};

use crate::request::Layout;
use ob_base::{NoMemory, PathStep, Place};
use std::alloc::Global;

/// The place of an element of the arguments of an envelope.
pub(crate) fn element_place(alloc: Global, number: u64) -> Result<Place, NoMemory>
    ensures { IfOk result (λ place. place ≡ element_place number) }
{
    let mut place = Place::whole(alloc);
    place.push_key(alloc, "params")?;
    place.push_key(alloc, "args")?;
    place.push(PathStep::Item(number))?;
    Ok(place)
}

/// A place among the arguments of a call as a place of the body.
pub(crate) fn body_place(alloc: Global, layout: Layout, place: &Place) -> Result<Place, NoMemory>
    ensures { IfOk result (λ told. told ≡ body_place layout place.now) }
{
    let [PathStep::Key(name), below @ ..] = place.steps() else {
        return place_of(alloc, Place::whole(alloc), place.steps());
    };
    match layout {
        Layout::Listed => {
            let number = if name.as_str() == "kw" { 6 } else { 5 };
            place_of(alloc, element_place(alloc, number)?, below)
        }
        Layout::Spread => spread_place(alloc, below),
    }
}

/// A place among arguments that are elements by themselves as a place of the body.
fn spread_place(alloc: Global, place: &[PathStep]) -> Result<Place, NoMemory>
    ensures { IfOk result (λ told. told ≡ spread_place place.now) }
{
    let [PathStep::Item(argument), below @ ..] = place else {
        return place_of(alloc, element_place(alloc, 5)?, place);
    };
    let number = argument.saturating_add(5);
    place_of(alloc, element_place(alloc, number)?, below)
}

/// The place below a place.
fn place_of(alloc: Global, above: Place, below: &[PathStep]) -> Result<Place, NoMemory>
    ensures { IfOk result (λ place. place ≡ above ++ below.now) }
{
    let mut place = above;
    for step in below {
        place.push(step.try_clone(alloc)?)?;
    }
    Ok(place)
}
