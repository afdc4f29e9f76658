//! How slowly a connection may send: the time that its reads take is cut into windows, and
//! each asks for some bytes. How long a window lasts, and how many bytes it asks for, may be
//! changed here, with their definition.

ghost use Rattle.std.specs.Prelude.{◌≡◌};
ghost use Rattle.std.specs.Duration.{as_nanos};
ghost use Rattle.ob_io.specs.Pace.{new_window, after_read, is_too_slow, next_window};

use std::marker::Model;
use std::time::Duration;

/// How many seconds of reads a window lasts.
const WINDOW_SECONDS: u64 = 30;

/// How many bytes a connection has to give in each window.
const LEAST_BYTES: usize = 256;

/// What a connection gave since its window began, and how long its reads took.
#[derive(Debug, Drop)]
pub(crate) struct Pace {
    gave: usize,
    spent: Duration,
}

impl Model for Pace {
    ghost use Rattle.std.specs.Duration.{as_nanos};
    ghost use Rattle.ob_io.specs.Pace as spec;

    ghost Value = { spec.Pace };

    ghost view = { λ p. record { gave = p.gave; spent = as_nanos p.spent } };
}

impl Pace {
    /// The pace of a connection that wasn't read yet.
    pub(crate) fn new() -> Pace
        ensures { result ≡ new_window }
    {
        Pace {
            gave: 0,
            spent: Duration::ZERO,
        }
    }

    /// Counts a read that gave so many bytes and took so long, and says whether it ends a
    /// window with too few of them.
    pub(crate) fn falls_short(&mut self, count: usize, took: Duration) -> bool
        ensures answer { result ≡ is_too_slow (after_read count (as_nanos took) self.old) }
        ensures window { self.new ≡ next_window (after_read count (as_nanos took) self.old) }
    {
        self.gave = self.gave.saturating_add(count);
        self.spent = self.spent.saturating_add(took);
        if self.spent < Duration::from_secs(WINDOW_SECONDS) {
            return false;
        }
        let too_slow = self.gave < LEAST_BYTES;
        *self = Pace::new();
        too_slow
    }
}
