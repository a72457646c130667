// Counts of faults, and faults on demand.
ghost use Rattle.std.specs.Prelude.{◌≡◌, ◌≤◌, ◌↔◌, IsTrue};
ghost use Rattle.texml_base.specs.Rising.{Rose, add_up};

// How often something has failed, up to the greatest u64.
#[derive(Drop)]
pub struct FaultCount {
    pub count: u64,
}

impl FaultCount {
    pub fn new() -> Self
        ensures { result.count ≡ 0 }
    {
        FaultCount { count: 0 }
    }

    pub fn raise(&mut self)
        ensures { self.new.count ≡ add_up self.old.count 1 }
    {
        self.count = self.count.saturating_add(1);
    }
}

// The call of one number, counted from 1, is to fail; 0 means none.
#[derive(Drop)]
pub struct Alarm {
    pub at: u64,
    pub calls: u64,
}

impl Alarm {
    pub fn new(at: u64) -> Self
        ensures { result ≡ record { at = at; calls = 0 } }
    {
        Alarm { at, calls: 0 }
    }

    // Counts a call, and says whether it is the one.
    pub fn rings(&mut self) -> bool
        ensures calls { self.new.calls ≡ add_up self.old.calls 1 }
        ensures at { self.new.at ≡ self.old.at }
        ensures rings { IsTrue result ↔ (self.new.calls ≡ self.new.at) }
    {
        self.calls = self.calls.saturating_add(1);
        self.calls == self.at
    }
}
