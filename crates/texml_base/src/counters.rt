//! Counters: an allowance that is used up, and steps that are taken.
ghost use Rattle.std.specs.Prelude.{◌≡◌, ◌≤◌, ◌+◌, nat_le};
ghost use Rattle.texml_base.specs.Counters.{BeginsOne};
ghost use Rattle.texml_base.specs.Rising.{add_up};

use std::marker::Model;

/// How many of so many may still be begun.
#[derive(Debug, Drop)]
pub struct Budget {
    limit: u64,
    begun: u64,
}

impl Model for Budget {
    ghost use Rattle.std.specs.Prelude.{◌≤◌};
    ghost use Rattle.texml_base.specs.Counters.{Allowance};

    ghost Value = { Allowance };

    ghost view = { λ b. record { limit = b.limit; begun = b.begun } };

    ghost invariant = { λ b. b.begun ≤ b.limit };
}

impl Budget {
    /// So many may be begun, and none is yet.
    pub fn new(limit: u64) -> Self
        ensures { result ≡ record { limit = limit; begun = 0 } }
    {
        Budget { limit, begun: 0 }
    }

    /// Begins one more, or answers that the limit is reached and changes nothing.
    pub fn begin(&mut self) -> bool
        ensures { BeginsOne self.old result self.new }
    {
        if self.begun == self.limit {
            return false;
        }
        self.begun += 1;
        true
    }

    /// Whether as many were begun as may be.
    pub fn is_spent(&self) -> bool
        ensures { result ≡ nat_le self.now.limit self.now.begun }
    {
        self.begun >= self.limit
    }

    /// How many were begun.
    pub fn begun(&self) -> u64
        ensures count { result ≡ self.now.begun }
        ensures within { result ≤ self.now.limit }
    {
        self.begun
    }
}

/// How many steps were taken, up to the greatest u64.
#[derive(Debug, Drop)]
pub struct Steps {
    taken: u64,
}

impl Model for Steps {
    ghost use Rattle.std.specs.Prelude.{ℕ};

    ghost Value = { ℕ };

    ghost view = { λ s. s.taken };
}

impl Steps {
    /// No step yet.
    pub fn new() -> Self
        ensures { result ≡ 0 }
    {
        Steps { taken: 0 }
    }

    /// Takes a step.
    pub fn tick(&mut self)
        ensures taken { self.new ≡ add_up self.old 1 }
        ensures grows { self.old ≤ self.new }
        ensures at_most_one { self.new ≤ self.old + 1 }
    {
        self.taken = self.taken.saturating_add(1);
    }

    /// How many steps were taken.
    pub fn taken(&self) -> u64
        ensures { result ≡ self.now }
    {
        self.taken
    }
}
