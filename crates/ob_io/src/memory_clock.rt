//! A clock that gives moments at one distance from each other, told beforehand. It
//! never leaves the years that a clock may give.

ghost use Rattle.std.specs.Prelude.{◌≡◌, Ok, Some};
ghost use Rattle.ob_io.specs.Moments.{IsMoment};
ghost use Rattle.ob_io.specs.Memory.{moments_from, next_moment};

use crate::clock::Clock;
use ob_base::NoMemory;
use ob_base::limits::{MAX_MOMENT, MIN_MOMENT};
use std::marker::Model;

/// A clock that goes on by so many seconds at each call, and stands still where that
/// would lead out of the years 0001 to 9999.
#[derive(Debug, Drop)]
pub struct MemClock {
    moment: i64,
    step: i64,
}

impl Model for MemClock {
    ghost use Rattle.ob_io.specs.Moments.{IsMoment};
    ghost use Rattle.ob_io.specs.Memory.{Ticks};

    ghost Value = { Ticks };

    ghost view = { λ c. record { moment = c.moment; step = c.step } };

    ghost invariant = { λ c. IsMoment c.moment };
}

impl MemClock {
    /// Gives `start`, then a moment `step` seconds on, and so forth.
    pub fn new(start: i64, step: i64) -> Result<MemClock, NoMemory>
        requires { IsMoment start }
        ensures { result ≡ Ok (record { moment = start; step = step }) }
    {
        Ok(MemClock {
            moment: start,
            step,
        })
    }
}

impl Clock for MemClock {
    ghost coming = { λ c. Some (moments_from c.step c.moment) };

    ghost faults = { λ _. 0 };

    fn now(&mut self) -> i64
        ensures answer { result ≡ self.old.moment }
        ensures within { IsMoment result }
        ensures after { self.new ≡ record {
          moment = next_moment self.old.step self.old.moment;
          step = self.old.step;
        } }
    {
        let moment = self.moment;
        self.moment = match moment.checked_add(self.step) {
            Some(next) if (MIN_MOMENT..=MAX_MOMENT).contains(&next) => next,
            _ => moment,
        };
        moment
    }
}
