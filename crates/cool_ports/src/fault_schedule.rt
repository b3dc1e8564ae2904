//! `FaultSchedule` decides which calls of a file system or stream in memory fail in a test.

ghost use Rattle.std.specs.Prelude.{◌≡◌, ◌≤◌, ◌↔◌, IsTrue, OnOk, OnErr};
ghost use Rattle.cool_ports.specs.Counts.{last_count};
ghost use Rattle.cool_ports.specs.MemoryObjects.{no_faults, IsToFail, called, faulted, failing_at};

use std::alloc::{AllocError, Global};
use std::marker::Model;

/// The numbers of the calls that are to fail, and the number of those that failed.
#[derive(Drop)]
pub struct FaultSchedule {
    failing: Vec<u64>,
    calls: u64,
    faults: u64,
}

impl Model for FaultSchedule {
    ghost use Rattle.std.specs.Prelude.{◌≤◌};
    ghost use Rattle.cool_ports.specs.Counts.{last_count};
    ghost use Rattle.cool_ports.specs.MemoryObjects.{Schedule};

    ghost Value = { Schedule };

    ghost view = { λ s. record { failing = s.failing.items; calls = s.calls; faults = s.faults } };

    ghost invariant = { λ s. s.faults ≤ last_count };
}

impl FaultSchedule {
    /// No call is to fail.
    pub fn new(alloc: Global) -> Self
        ensures { result ≡ no_faults }
    {
        FaultSchedule {
            failing: Vec::new(alloc),
            calls: 0,
            faults: 0,
        }
    }

    /// Makes the call of this number fail, the first being 1. Returns `Err` only if memory runs out; then nothing changes.
    pub fn fail_call(&mut self, number: u64) -> Result<(), AllocError>
        ensures ok { OnOk result (self.new ≡ failing_at self.old number) }
        ensures err { OnErr result (self.new ≡ self.old) }
    {
        self.failing.push(number)?;
        Ok(())
    }

    /// Counts a call, and answers whether it is to fail.
    pub fn begin_call(&mut self) -> bool
        ensures answer { IsTrue result ↔ IsToFail self.old }
        ensures counted { self.new ≡ called self.old }
        ensures bounded { self.new.faults ≤ last_count }
    {
        self.calls = self.calls.saturating_add(1);
        self.failing.contains(&self.calls)
    }

    /// Counts a fault.
    pub fn count_fault(&mut self)
        ensures { self.new ≡ faulted self.old }
    {
        self.faults = self.faults.saturating_add(1);
    }
}
