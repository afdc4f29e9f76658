//! Where moments come from.

ghost use Rattle.std.specs.Prelude.{◌≡◌, ℕ, ◌≤◌, ℤ, Option, option_map, IfSome};
ghost use Rattle.ob_io.specs.Moments.{IsMoment, later};

/// A clock. It takes no memory and its call doesn't fail: a form that has no moment to
/// give may count that and give its last one again.
pub trait Clock {
    /// The moments that the clock will give, the next one at 0, where it tells them.
    ghost coming: { Self → Option (ℕ → ℤ) };

    /// How often the host gave no moment.
    ghost faults: { Self → ℕ };

    /// The moment, in seconds from 1970-01-01 00:00:00 UTC, within the years 0001 to 9999.
    fn now(&mut self) -> i64
        ensures within { IsMoment result }
        ensures told { IfSome (coming self.old) (λ moments. result ≡ moments 0) }
        ensures rest { coming self.new ≡ option_map later (coming self.old) }
        ensures count { faults self.old ≤ faults self.new };
}
