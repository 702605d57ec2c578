ghost use Rattle.std.specs.Prelude.{◌≡◌, ◌≤◌, ◌+◌, ◌-◌, ◌^◌, ℕ, min};

use std::marker::Model;

/// A count of steps of a computation. It is seen as its number. The ledger is whatever the caller
/// keeps beside it.
#[derive(Drop)]
pub struct Steps<L> {
    count: u64,
    ledger: L,
}

impl<L> Model for Steps<L> {
    ghost use Rattle.std.specs.Prelude.{ℕ};

    ghost Value = { ℕ };

    ghost view = { λ s. s.count };
}

impl<L> Steps<L> {
    /// No steps yet.
    pub fn new(ledger: L) -> Steps<L>
        ensures { result ≡ 0 }
    {
        Steps { count: 0, ledger }
    }

    /// One step more. At the end of the count's type it stays there.
    pub fn tick(&mut self)
        ensures { self.new ≡ min (self.old + 1) (2 ^ 64 - 1) }
    {
        self.count = self.count.saturating_add(1);
    }

    /// Nothing to do: a count fits 64 bits.
    pub fn is_bounded(&self)
        ensures { self.now ≤ 2 ^ 64 - 1 }
    {
        let _ = self.count(); // for the proof
    }

    /// The number of steps.
    pub fn count(&self) -> u64
        ensures { result ≡ self.now }
    {
        self.count
    }
}
