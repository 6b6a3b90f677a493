//! A sink in memory.

ghost use Rattle.std.specs.Prelude.{◌≡◌, OnOk, OnErr};
ghost use Rattle.gj_base.specs.Counts.{Rose};
ghost use Rattle.gj_base.specs.Plan.{with_failure};
ghost use Rattle.gj_base.specs.Sink.{Writes};
ghost use Rattle.gj_base.specs.MemorySink.{sink_state, empty_sink, after_write, after_failure, after_refusal, WritesInMemory};

use crate::memory::NoMemory;
use crate::plan::{Plan, counted, prefix};
use crate::sink::{Sink, SinkError};
use std::alloc::Global;
use std::marker::Model;

/// A sink that keeps its bytes, and whose writes fail where it was told so.
///
/// Writes are numbered from 0. One that memory was refused to keeps its number for the next.
#[derive(Drop)]
pub struct VecSink {
    bytes: Vec<u8>,
    faults: u64,
    refusals: u64,
    calls: u64,
    plan: Plan,
}

impl Model for VecSink {
    ghost use Rattle.gj_base.specs.MemorySink.{MemorySink, memory_sink_code};

    ghost Value = { MemorySink };

    ghost coded = { memory_sink_code };

    ghost view = { λ s. record { bytes = s.bytes.items; faults = s.faults; refusals = s.refusals; calls = s.calls; plan = s.plan } };
}

impl VecSink {
    /// No bytes, and no write is told to fail.
    pub fn new(alloc: Global) -> VecSink
        ensures { result ≡ empty_sink }
    {
        VecSink {
            bytes: Vec::new(alloc),
            faults: 0,
            refusals: 0,
            calls: 0,
            plan: Plan::new(alloc),
        }
    }

    /// Tells the write with this number to fail once it has taken `after` bytes, or all where
    /// there are fewer. The later of two for one write holds. A refusal leaves all as it was.
    pub fn fail(&mut self, call: u64, after: u64) -> Result<(), NoMemory>
        ensures value { OnOk result (self.new ≡ record self.old { plan = with_failure self.old.plan call after }) }
        ensures same { OnErr result (self.new ≡ self.old) }
    {
        self.plan.fail(call, after)
    }

    /// All bytes that the sink has taken.
    pub fn bytes(&self) -> &[u8]
        ensures { result.now ≡ self.now.bytes }
    {
        self.bytes.as_slice()
    }

    // Takes these bytes and counts the call, or counts the refusal.
    fn take(&mut self, bytes: &[u8]) -> Result<(), NoMemory>
        ensures value { OnOk result (self.new ≡ after_write self.old bytes.now) }
        ensures refused { OnErr result (self.new ≡ after_refusal self.old) }
        ensures refusals_rose { OnErr result (Rose self.old.refusals self.new.refusals) }
    {
        if self.bytes.extend_from_slice(bytes).is_err() {
            self.refusals = counted(self.refusals);
            return Err(NoMemory);
        }
        self.calls = counted(self.calls);
        Ok(())
    }

    // Takes the first `after` of these bytes, or all where there are fewer, and counts the call
    // and the fault, or counts the refusal.
    fn take_in_part(&mut self, bytes: &[u8], after: u64) -> Result<(), NoMemory>
        ensures value { OnOk result (self.new ≡ after_failure self.old bytes.now after) }
        ensures rose { OnOk result (Rose self.old.faults self.new.faults) }
        ensures refused { OnErr result (self.new ≡ after_refusal self.old) }
        ensures refusals_rose { OnErr result (Rose self.old.refusals self.new.refusals) }
    {
        self.take(prefix(bytes, after))?;
        self.faults = counted(self.faults);
        Ok(())
    }
}

impl Sink for VecSink {
    ghost state = { sink_state };

    fn write(&mut self, piece: &[u8]) -> Result<(), SinkError>
        ensures writes { Writes result piece.now (sink_state self.old) (sink_state self.new) }
        ensures exact { WritesInMemory result piece.now self.old self.new }
    {
        match self.plan.failure_at(self.calls) {
            None => match self.take(piece) {
                Ok(()) => Ok(()),
                Err(NoMemory) => Err(SinkError::NoMemory),
            },
            Some(after) => match self.take_in_part(piece, after) {
                Ok(()) => Err(SinkError::Failed),
                Err(NoMemory) => Err(SinkError::NoMemory),
            },
        }
    }
}
