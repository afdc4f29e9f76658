//! Objects of values that one argument gives: one object, or a list of them. Where each stands, and
//! the form of such an argument.

ghost use Rattle.std.specs.Prelude.{◌≡◌, ◌∷◌, ◌++◌, [], IfOk, map, option_map};
ghost use Rattle.serde_json.specs.View.{view};
ghost use Rattle.ob_base.specs.declared.place.PathStep.TheVariants.{Item, Key};
ghost use Rattle.ob_call.specs.Forms.{fields_at};
ghost use Rattle.ob_call.specs.Places.{IsMalformedAt, below_steps};
ghost use Rattle.ob_orm.specs.ObjectSteps.{object_place};
ghost use Rattle.ob_orm.specs.Objects.{first_wrong};
ghost use Rattle.ob_rows.specs.Values.{new_values_fault};

use crate::creating::given::NewValues;
use ob_base::{NoMemory, PathStep, Place, Refusal};
use ob_call::{Below, Form, Json, Spot, malformed_below};
use std::alloc::Global;

/// Where an object of values stands: it is an argument, or an item of one, from 0.
#[derive(Clone, Copy)]
pub(crate) enum ObjectSpot<'a> {
    Argument(Spot<'a>),
    Item(Spot<'a>, usize),
}

impl ObjectSpot<'_> {
    /// The refusal of a call whose object is wrong at a place below one of its keys.
    pub(crate) fn malformed_below_key(self, alloc: Global, name: &str, place: &Place) -> Refusal
        ensures { IsMalformedAt ((object_place self.entry ++ Key name.now ∷ []) ++ place.now) result }
    {
        match self {
            ObjectSpot::Argument(spot) => malformed_below(alloc, spot, Below::Key(name), place),
            ObjectSpot::Item(spot, number) => match below_key(alloc, name, place) {
                Ok(below) => malformed_below(alloc, spot, Below::Item(number), &below),
                Err(NoMemory) => Refusal::NoMemory,
            },
        }
    }
}

/// A place below a key.
fn below_key(alloc: Global, name: &str, place: &Place) -> Result<Place, NoMemory>
    ensures { IfOk result (λ below. below ≡ Key name.now ∷ place.now) }
{
    let mut below = Place::whole(alloc);
    below.push_key(alloc, name)?;
    below.extend(alloc, place)?;
    Ok(below)
}

/// An object of values of a row that is made, or a list of such objects.
#[derive(Clone, Copy)]
pub(crate) struct Objects<'s> {
    pub(crate) values: NewValues<'s>,
}

impl Form for Objects<'_> {
    ghost use Rattle.ob_call.specs.Forms.{fields_at};
    ghost use Rattle.ob_orm.specs.Objects.{objects_fault};

    ghost fault = { λ objects json. objects_fault objects.values.schema.now (fields_at objects.values.schema.now objects.values.model) json };

    fn fault<'j>(&self, alloc: Global, json: &'j Json) -> Result<Option<Below<'j>>, NoMemory> {
        match json.as_array() {
            Some(items) => first_wrong(alloc, &self.values, items.as_slice()),
            None => self.values.fault(alloc, json),
        }
    }
}

/// Where the first item that is no object of values is wrong.
fn first_wrong<'j>(
    alloc: Global,
    values: &NewValues<'_>,
    items: &'j [Json],
) -> Result<Option<Below<'j>>, NoMemory>
    ensures { IfOk result (λ told. option_map below_steps told
        ≡ first_wrong (new_values_fault values.now.schema.now (fields_at values.now.schema.now values.now.model)) 0 (map view items.now)) }
{
    for (number, item) in items.iter().enumerate() {
        let wrong = values.fault(alloc, item)?;
        if let Some(below) = wrong {
            let place = below_item(alloc, number, &below)?;
            return Ok(Some(Below::Place(place)));
        }
    }
    Ok(None)
}

/// The steps from a list down to a place in one of its items.
fn below_item(alloc: Global, number: usize, below: &Below<'_>) -> Result<Place, NoMemory>
    ensures { IfOk result (λ place. place ≡ Item number ∷ below_steps below.now) }
{
    let mut place = Place::whole(alloc);
    place.push(PathStep::Item(number as u64))?;
    match below {
        Below::Whole => {}
        Below::Item(inner) => place.push(PathStep::Item(*inner as u64))?,
        Below::Key(name) => place.push_key(alloc, name)?,
        Below::Place(further) => place.extend(alloc, further)?,
    }
    Ok(place)
}
