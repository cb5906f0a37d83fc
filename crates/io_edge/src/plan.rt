//! Which calls of an object in memory fail.
ghost use Rattle.std.specs.Prelude.{◌≡◌, ◌≤◌, ◌<◌, ◌+◌, ◌-◌, ◌^◌, ◌==◌, [], min};
ghost use Rattle.std.specs.Bool.{OnTrue, OnFalse};
ghost use Rattle.std.specs.List.{list_any};
ghost use Rattle.io_edge.specs.Outside.{Rose, after_call, is_planned, with_fault};

use std::alloc::Global;
use std::marker::Model;

/// Which calls of an object in memory fail: their numbers, counted from 0. It counts the calls and
/// the failures; each count stays at 2^64 - 1 once it is there.
#[derive(Drop)]
pub struct FaultPlan {
    failing: Vec<u64>,
    calls: u64,
    faults: u64,
}

impl Model for FaultPlan {
    ghost use Rattle.io_edge.specs.Outside.{Plan};
    ghost use Rattle.std.specs.Prelude.{◌<◌, ◌^◌};

    ghost Value = { Plan };

    ghost view = { λ p. record { failing = p.failing.items; calls = p.calls; faults = p.faults } };

    ghost invariant = { λ p. p.faults < 2 ^ 64 };
}

impl FaultPlan {
    /// No call fails.
    pub fn none(alloc: Global) -> FaultPlan
        ensures plan { result ≡ record { failing = []; calls = 0; faults = 0 } }
    {
        FaultPlan {
            failing: Vec::new(alloc),
            calls: 0,
            faults: 0,
        }
    }

    /// The calls of these numbers fail.
    pub fn new(failing: Vec<u64>) -> FaultPlan
        ensures plan { result ≡ record { failing = failing.items; calls = 0; faults = 0 } }
    {
        FaultPlan {
            failing,
            calls: 0,
            faults: 0,
        }
    }

    /// How many calls failed so far.
    pub fn faults(&self) -> u64
        ensures count { result ≡ self.now.faults }
    {
        self.faults
    }

    /// Counts a call, and says whether it is to fail; then it is counted as a fault too.
    pub fn fails(&mut self) -> bool
        ensures planned { result ≡ is_planned self.old }
        ensures after { self.new ≡ after_call self.old }
        ensures counted { OnTrue result (Rose self.old.faults self.new.faults) }
        ensures kept { OnFalse result (self.new.faults ≡ self.old.faults) }
        ensures never_falls { self.old.faults ≤ self.new.faults }
    {
        let fails = self.failing.contains(&self.calls);
        self.calls = self.calls.saturating_add(1);
        if fails {
            self.count();
        }
        fails
    }

    /// Counts a fault.
    pub fn count(&mut self)
        ensures after { self.new ≡ with_fault self.old }
        ensures counted { Rose self.old.faults self.new.faults }
        ensures never_falls { self.old.faults ≤ self.new.faults }
    {
        self.faults = self.faults.saturating_add(1);
    }
}
