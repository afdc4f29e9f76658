//! The way from a value down to the part of it that is wrong. It is found from its end, so
//! it is kept from its end.

ghost use Rattle.std.specs.Prelude.{◌≡◌, ◌∷◌, [], IfOk};
ghost use Rattle.ob_base.specs.declared.place.PathStep.TheVariants.{Key, Item};

use ob_base::{NoMemory, PathStep, Place, Word};
use std::alloc::Global;
use std::marker::Model;

/// Steps from a value down to what is wrong in it.
#[derive(Drop)]
pub struct Wrong {
    steps: Vec<PathStep>,
}

impl Model for Wrong {
    ghost use Rattle.std.specs.Prelude.{List, reverse};
    ghost use Rattle.ob_base.specs.declared.place.PathStep.{PathStep};

    ghost Value = { List PathStep };

    ghost view = { λ w. reverse w.steps.items };
}

impl Wrong {
    /// The value itself is wrong.
    pub fn here(alloc: Global) -> Wrong
        ensures { result ≡ [] }
    {
        Wrong {
            steps: Vec::new(alloc),
        }
    }

    /// The same, told from the table that has the value at this key.
    pub fn under_key(self, alloc: Global, key: &str) -> Result<Wrong, NoMemory>
        ensures { IfOk result (λ wrong. wrong ≡ Key key.now ∷ self) }
    {
        self.under(PathStep::Key(Word::from_text(alloc, key)?))
    }

    /// The same, told from the list that has the value as this item.
    pub fn under_item(self, number: u64) -> Result<Wrong, NoMemory>
        ensures { IfOk result (λ wrong. wrong ≡ Item number ∷ self) }
    {
        self.under(PathStep::Item(number))
    }

    fn under(self, step: PathStep) -> Result<Wrong, NoMemory>
        ensures { IfOk result (λ wrong. wrong ≡ step ∷ self) }
    {
        let mut steps = self.steps;
        steps.push(step)?;
        Ok(Wrong { steps })
    }

    /// The steps as a place.
    pub fn into_place(self, alloc: Global) -> Result<Place, NoMemory>
        ensures { IfOk result (λ place. place ≡ self) }
    {
        let mut steps = self.steps;
        steps.reverse();
        let mut place = Place::whole(alloc);
        for step in steps {
            place.push(step)?;
        }
        Ok(place)
    }
}
