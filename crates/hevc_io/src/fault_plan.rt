//! Which calls of a source or a sink over memory fail.
ghost use Rattle.std.specs.Prelude.{◌≡◌, ◌+◌, ◌↔◌, IsTrue, IsErr, OnOk, Contains};
ghost use Rattle.hevc_fault_counts.specs.Faults.{HasCause};
ghost use Rattle.hevc_io.specs.Memory.{Plan, CountsCall};

use crate::source::Failed;
use std::marker::Model;

/// The numbers, from 1, of the calls that fail, how many calls were made, and how many failed.
#[derive(Drop)]
pub(crate) struct FaultPlan {
    failing: Vec<u64>,
    calls: u64,
    faults: u64,
}

impl Model for FaultPlan {
    ghost Value = { Plan };

    ghost view = { λ plan. record { failing = plan.failing.items; calls = plan.calls; faults = plan.faults } };
}

impl FaultPlan {
    pub(crate) fn new(failing: Vec<u64>) -> FaultPlan
        ensures { result ≡ record { failing = failing.items; calls = 0; faults = 0 } }
    {
        FaultPlan {
            failing,
            calls: 0,
            faults: 0,
        }
    }

    /// Counts a call, and refuses it where its number is one of those that fail.
    pub(crate) fn count_call(&mut self) -> Result<(), Failed>
        ensures planned { CountsCall (IsErr result) self.old self.new }
        ensures ok { OnOk result (self.new.faults ≡ self.old.faults) }
        ensures cause { HasCause self.old.faults self.new.faults result }
    {
        let fails = is_planned(&self.failing, self.calls);
        self.calls = self.calls.saturating_add(1);
        if fails {
            self.faults = self.faults.saturating_add(1);
            return Err(Failed);
        }
        Ok(())
    }
}

/// Whether the call after so many is one of those that fail. After 2^64 - 1 calls there is none.
fn is_planned(failing: &[u64], calls: u64) -> bool
    ensures { IsTrue result ↔ Contains failing.now (calls + 1) }
{
    match calls.checked_add(1) {
        Some(number) => failing.contains(&number),
        None => false,
    }
}
