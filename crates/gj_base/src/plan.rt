//! Plans of failures, and counters, for the outside in memory.

ghost use Rattle.std.specs.Prelude.{◌≡◌, ℕ, OnOk, OnErr, take};
ghost use Rattle.std.specs.Ordering.{nat_cmp};
ghost use Rattle.std.specs.FinMap as map;
ghost use Rattle.std.specs.Coded.{coded_ℕ};
ghost use Rattle.gj_base.specs.Counts.{counted, Rose};
ghost use Rattle.gj_base.specs.Plan.{failure_at, with_failure};

use crate::memory::NoMemory;
use std::alloc::Global;
use std::collections::BTreeMap;
use std::marker::Model;

/// Which calls are told to fail, by their numbers from 0, and after how many bytes.
#[derive(Drop)]
pub struct Plan {
    failures: BTreeMap<u64, u64>,
}

impl Model for Plan {
    ghost Value = { map.FinMap nat_cmp ℕ };

    ghost coded = { map.code coded_ℕ coded_ℕ };

    ghost view = { λ plan. map.from_entries plan.failures.entries };
}

impl Plan {
    /// No call is told to fail.
    pub fn new(alloc: Global) -> Plan
        ensures { result ≡ map.empty }
    {
        Plan {
            failures: BTreeMap::new(alloc),
        }
    }

    /// After how many bytes this call fails, where it is told to.
    pub fn failure_at(&self, call: u64) -> Option<u64>
        ensures { result ≡ failure_at self.now call }
    {
        self.failures.get(&call).copied()
    }

    /// Tells this call to fail after so many bytes; a refusal leaves the plan as it was.
    pub fn fail(&mut self, call: u64, after: u64) -> Result<(), NoMemory>
        ensures value { OnOk result (self.new ≡ with_failure self.old call after) }
        ensures same { OnErr result (self.new ≡ self.old) }
    {
        self.failures.insert(call, after)?;
        Ok(())
    }
}

/// One more; stands still at the last value.
pub fn counted(count: u64) -> u64
    ensures value { result ≡ counted count }
    ensures rose { Rose count result }
{
    count.saturating_add(1)
}

/// The first `count` bytes, or all where there are fewer.
pub fn prefix(bytes: &[u8], count: u64) -> &[u8]
    ensures { result.now ≡ take count bytes.now }
{
    if count < bytes.len() as u64 {
        &bytes[..count as usize]
    } else {
        bytes
    }
}
