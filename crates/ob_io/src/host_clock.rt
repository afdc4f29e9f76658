//! The clock of the real thing: the host's, in whole seconds.

ghost use Rattle.std.specs.Prelude.{◌≡◌, ◌≤◌, ◌⊎◌, pos, None, Ok, IfSome};
ghost use Rattle.ob_io.specs.Host.{after_moment, moment_after, moment_told};
ghost use Rattle.ob_io.specs.Moments.{IsMoment};
ghost use Rattle.ob_io.specs.Plan.{one_more};

use crate::clock::Clock;
use ob_base::NoMemory;
use ob_base::limits::MAX_MOMENT;
use std::marker::Model;
use std::time::SystemTime;
use std::{io, rt};

/// The host's clock. Where the host fails or gives no moment of the years 1970 to 9999,
/// which is counted, it gives its last moment again, at first 1970-01-01 00:00:00 UTC.
#[derive(Drop)]
pub struct HostClock<R: rt::Clock> {
    rt: R,
    last: i64,
    faults: u64,
}

impl<R: rt::Clock> Model for HostClock<R> {
    ghost use Rattle.ob_io.specs.Moments.{IsMoment};
    ghost use Rattle.ob_io.specs.Host.{HostTime};

    ghost Value = { HostTime };

    ghost view = { λ c. record { last = c.last; faults = c.faults } };

    ghost invariant = { λ c. IsMoment c.last };
}

impl<R: rt::Clock> HostClock<R> {
    /// Gives the moments of this runtime.
    pub fn new(rt: R) -> Result<HostClock<R>, NoMemory>
        ensures { result ≡ Ok (record { last = pos 0; faults = 0 }) }
    {
        Ok(HostClock {
            rt,
            last: 0,
            faults: 0,
        })
    }

    /// Gives this moment, or where there is none counts that and gives the last one again.
    fn give(&mut self, moment: Option<i64>) -> i64
        requires { IfSome moment IsMoment }
        ensures answer { result ≡ self.new.last }
        ensures after { self.new ≡ after_moment moment self.old }
    {
        match moment {
            Some(moment) => self.last = moment,
            None => self.faults = self.faults.saturating_add(1),
        }
        self.last
    }
}

/// The moment of the host's answer, where that is one of the years to 9999.
fn moment_of(told: io::Result<SystemTime>) -> Option<i64>
    ensures told { result ≡ moment_told told }
    ensures within { IfSome result IsMoment }
{
    let since = told.ok()?.duration_since(SystemTime::UNIX_EPOCH).ok()?;
    moment_at(since.as_secs())
}

/// The moment so many seconds after 1970-01-01 00:00:00 UTC, within the years to 9999.
fn moment_at(seconds: u64) -> Option<i64>
    ensures value { result ≡ moment_after seconds }
    ensures within { IfSome result IsMoment }
{
    let moment = i64::try_from(seconds).ok()?;
    (moment <= MAX_MOMENT).then_some(moment)
}

impl<R: rt::Clock> Clock for HostClock<R> {
    ghost coming = { λ _. None };

    ghost faults = { λ c. c.faults };

    fn now(&mut self) -> i64
        ensures within { IsMoment result }
        ensures last { self.new.last ≡ result }
        ensures counted { (self.new.faults ≡ self.old.faults)
            ⊎ ((result ≡ self.old.last) × (self.new.faults ≡ one_more self.old.faults)) }
        ensures count { self.old.faults ≤ self.new.faults }
    {
        let moment = moment_of(SystemTime::now(&self.rt));
        self.give(moment)
    }
}
