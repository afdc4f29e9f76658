//! Which calls of an object in memory fail. A test names them by number, so that
//! each place of a run can be made to fail once.

ghost use Rattle.std.specs.Prelude.{◌≡◌, ◌+◌, ◌↔◌, IsTrue, Contains};
ghost use Rattle.ob_io.specs.Cause.{HasCause};

use std::marker::Model;

/// The calls that fail, and how many there were.
#[derive(Debug, Drop)]
pub(crate) struct FailPlan {
    fail: Vec<u64>,
    made: u64,
    faults: u64,
}

impl Model for FailPlan {
    ghost use Rattle.ob_io.specs.Plan.{Plan};

    ghost Value = { Plan };

    ghost view = { λ p. record { fail = p.fail.items; made = p.made; faults = p.faults } };
}

impl FailPlan {
    ghost use Rattle.ob_io.specs.Plan.{FailsNext, after_call};

    /// The calls of these numbers fail, counted from 1.
    pub(crate) fn new(fail: Vec<u64>) -> FailPlan
        ensures { result ≡ record { fail = fail.items; made = 0; faults = 0 } }
    {
        FailPlan {
            fail,
            made: 0,
            faults: 0,
        }
    }

    /// Counts one more call, and says whether it fails.
    pub(crate) fn next_fails(&mut self) -> bool
        ensures fails { IsTrue result ↔ FailsNext self.old }
        ensures counted { self.new ≡ after_call result self.old }
        ensures cause { HasCause self.old.faults self.new.faults (IsTrue result) }
    {
        let failed = follows_listed(&self.fail, self.made);
        self.made = self.made.saturating_add(1);
        if failed {
            self.faults = self.faults.saturating_add(1);
        }
        failed
    }
}

/// Whether the number after this one is listed.
fn follows_listed(numbers: &[u64], number: u64) -> bool
    ensures { IsTrue result ↔ Contains numbers.now (number + 1) }
{
    match number.checked_add(1) {
        Some(next) => numbers.contains(&next),
        None => false,
    }
}
