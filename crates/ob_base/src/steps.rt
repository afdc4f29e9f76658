//! Counting of evaluations. The count itself is seen by contracts alone, so that
//! it has no end; a ledger tells as much of it as the caller wants to pay for.

ghost use Rattle.std.specs.Prelude.{◌≡◌, ◌+◌, ℕ};
ghost use Rattle.std.specs.Coded.{coded_ℕ};
ghost use Rattle.ob_base.specs.Tally.{ticked};

use std::marker::Model;

/// Hears of each step.
pub trait Ledger {
    /// What one note makes of the ledger.
    ghost noted: { Self → Self };

    fn note(&mut self)
        ensures { self.new ≡ noted self.old };
}

/// A ledger that keeps nothing.
#[derive(Clone, Copy, Debug, PartialEq, Eq)]
pub struct Silent;

impl Ledger for Silent {
    ghost noted = { λ ledger. ledger };

    fn note(&mut self) {}
}

/// A ledger that counts, up to the greatest u64 and no further.
#[derive(Clone, Copy, Debug, PartialEq, Eq)]
pub struct Counted {
    pub total: u64,
}

impl Counted {
    ghost use Rattle.std.specs.Prelude.{min, ◌<◌, ◌-◌, ◌^◌};
    ghost use Rattle.ob_base.specs.Tally.{Tally, ticked_times};

    /// A law for the crates above: so many ticks add that number to the count, and to the
    /// total up to the greatest u64. It does nothing.
    pub fn counts_each_tick()
        ensures count { (n : ℕ) (tally : Tally Counted) → (ticked_times n ⟦<Counted as Ledger>⟧.noted tally).count ≡ tally.count + n }
        ensures total { (n : ℕ) (tally : Tally Counted) → tally.ledger.total < 2 ^ 64
            → (ticked_times n ⟦<Counted as Ledger>⟧.noted tally).ledger.total ≡ min (tally.ledger.total + n) (2 ^ 64 - 1) }
    {}
}

impl Ledger for Counted {
    ghost use Rattle.std.specs.Prelude.{min, ◌+◌, ◌-◌, ◌^◌};

    ghost noted = { λ ledger. record { total = min (ledger.total + 1) (2 ^ 64 - 1) } };

    fn note(&mut self) {
        self.total = self.total.saturating_add(1);
    }
}

/// How many ticks there were. It exists only in proofs.
#[derive(Drop)]
struct Ticks {
    ghost count: { ℕ } by { coded_ℕ },
}

impl Model for Ticks {
    ghost use base.Fml.{ftrue};

    ghost also_owns = { λ _. ftrue };
}

impl Ticks {
    fn none() -> Ticks
        ensures { result.count ≡ 0 }
    {
        Ticks {}
    }

    fn one_more(&self) -> Ticks
        ensures { result.count ≡ self.now.count + 1 }
    {
        Ticks {}
    }
}

/// A counter of steps over a ledger.
#[derive(Drop)]
pub struct Steps<L: Ledger> {
    ledger: L,
    ticks: Ticks,
}

impl<L: Ledger> Model for Steps<L> {
    ghost use Rattle.ob_base.specs.Tally.{Tally};

    ghost Value = { Tally L };

    ghost view = { λ s. record { count = s.ticks.count; ledger = s.ledger } };
}

impl<L: Ledger> Steps<L> {
    /// No tick yet.
    pub fn new(ledger: L) -> Self
        ensures { result ≡ record { count = 0; ledger = ledger } }
    {
        Steps {
            ledger,
            ticks: Ticks::none(),
        }
    }

    /// Counts one step, and notes it in the ledger.
    pub fn tick(&mut self)
        ensures { self.new ≡ ticked L.noted self.old }
    {
        self.ticks = self.ticks.one_more();
        self.ledger.note();
    }

    /// The ledger, which tells what it keeps of the count.
    pub fn ledger(&self) -> &L
        ensures { result.now ≡ self.now.ledger }
    {
        &self.ledger
    }
}
