//! A source and a sink over memory, whose calls fail as planned.
ghost use Rattle.std.specs.Prelude.{◌≡◌, ◌≤◌, IsErr, OnOk, IsErrOf, vec_len};
ghost use Rattle.std.specs.Prelude.{drop, []};
ghost use Rattle.std.specs.declared.option.Option.TheVariants.{Some};
ghost use Rattle.std.specs.Io.{ReadsAtMost, WritesAtMost};
ghost use Rattle.std.specs.Io.KnownBytes.{ReadConsumes, WriteAppends};
ghost use Rattle.hevc_fault_counts.specs.Faults.{HasCause, Rose};
ghost use Rattle.hevc_io.specs.Writes.{TakesSome};
ghost use Rattle.hevc_io.specs.Memory.{CountsCall, Supply, Store};

use crate::fault_plan::FaultPlan;
use crate::sink::{Sink, SinkError};
use crate::source::{Failed, Source};
use std::alloc::Global;
use std::marker::Model;

/// A source of known bytes.
#[derive(Drop)]
pub struct MemorySource {
    bytes: Vec<u8>,
    position: usize,
    plan: FaultPlan,
}

impl Model for MemorySource {
    ghost Value = { Supply };

    ghost view = { λ source. record { left = drop source.position source.bytes.items; plan = source.plan } };

    ghost invariant = { λ source. source.position ≤ vec_len source.bytes };
}

impl MemorySource {
    /// A source of these bytes. Exactly the calls of `read` whose numbers, from 1, are in
    /// `failing` fail.
    pub fn new(bytes: Vec<u8>, failing: Vec<u64>) -> MemorySource
        ensures left { result.left ≡ bytes.items }
        ensures plan { result.plan ≡ record { failing = failing.items; calls = 0; faults = 0 } }
    {
        MemorySource {
            bytes,
            position: 0,
            plan: FaultPlan::new(failing),
        }
    }
}

impl Source for MemorySource {
    ghost left = { λ source. Some source.left };

    ghost faults = { λ source. source.plan.faults };

    /// `Failed` exactly where the call's number is one of those that fail; every other call leaves
    /// the count of faults.
    fn read(&mut self, buf: &mut [u8]) -> Result<usize, Failed>
        ensures bound { ReadsAtMost result buf.new }
        ensures bytes { ReadConsumes (Some self.old.left) (Some self.new.left) result buf.new }
        ensures cause { HasCause self.old.plan.faults self.new.plan.faults result }
        ensures planned { CountsCall (IsErr result) self.old.plan self.new.plan }
        ensures ok { OnOk result (self.new.plan.faults ≡ self.old.plan.faults) }
    {
        self.plan.count_call()?;
        let rest = &self.bytes[self.position..];
        let count = rest.len().min(buf.len());
        buf[..count].copy_from_slice(&rest[..count]);
        self.position += count;
        Ok(count)
    }
}

/// A sink that keeps what is written.
#[derive(Drop)]
pub struct MemorySink {
    bytes: Vec<u8>,
    plan: FaultPlan,
}

impl Model for MemorySink {
    ghost Value = { Store };

    ghost view = { λ sink. record { written = sink.bytes.items; plan = sink.plan } };
}

impl MemorySink {
    /// A sink in which nothing is written yet. Exactly the calls of `write` whose numbers, from 1,
    /// are in `failing` fail.
    pub fn new(alloc: Global, failing: Vec<u64>) -> MemorySink
        ensures written { result.written ≡ [] }
        ensures plan { result.plan ≡ record { failing = failing.items; calls = 0; faults = 0 } }
    {
        MemorySink {
            bytes: Vec::new(alloc),
            plan: FaultPlan::new(failing),
        }
    }

    /// What was written so far.
    pub fn written(&self) -> &[u8]
        ensures { result.now ≡ self.now.written }
    {
        self.bytes.as_slice()
    }
}

impl Sink for MemorySink {
    ghost written = { λ sink. Some sink.written };

    ghost faults = { λ sink. sink.plan.faults };

    /// `Failed` exactly where the call's number is one of those that fail; every other call leaves
    /// the count of faults.
    fn write(&mut self, bytes: &[u8]) -> Result<usize, SinkError>
        ensures bound { WritesAtMost result bytes.now }
        ensures some { TakesSome result bytes.now }
        ensures bytes { WriteAppends (Some self.old.written)
            (Some self.new.written) result bytes.now }
        ensures later { self.old.plan.faults ≤ self.new.plan.faults }
        ensures failed { IsErrOf result SinkError.Failed
            → Rose self.old.plan.faults self.new.plan.faults }
        ensures no_memory { IsErrOf result SinkError.NoMemory
            → self.new.plan.faults ≡ self.old.plan.faults }
        ensures planned { CountsCall (IsErrOf result SinkError.Failed) self.old.plan
            self.new.plan }
        ensures ok { OnOk result (self.new.plan.faults ≡ self.old.plan.faults) }
    {
        if self.plan.count_call().is_err() {
            return Err(SinkError::Failed);
        }
        match self.bytes.extend_from_slice(bytes) {
            Ok(()) => Ok(bytes.len()),
            Err(_) => Err(SinkError::NoMemory),
        }
    }
}
