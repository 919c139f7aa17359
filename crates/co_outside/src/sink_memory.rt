//! A sink in memory.
ghost use Rattle.std.specs.Prelude.{◌≡◌, ◌≤◌, ◌-◌, ◌↔◌, ◌++◌, [], List, ℕ, Some, length, map, IfOk, IsErrOf, Contains};

use crate::failing::is_due;
use crate::sink::{Sink, SinkFault};
use std::alloc::Global;

/// A sink that keeps in memory what it takes, tells it, and fails at named calls.
#[derive(Drop)]
pub struct SinkMemory {
    bytes: Vec<u8>,
    fail: Vec<u32>,
    faults: u64,
    lacks: u64,
}

impl SinkMemory {
    ghost use Rattle.co_outside.specs.SinkMemory.{memory_held, puts_to_fail};

    /// A sink that holds nothing. `fail` names the calls that are to fail, counted from 1. Takes no
    /// memory.
    pub fn new(alloc: Global, fail: Vec<u32>) -> SinkMemory
        ensures held { memory_held result ≡ [] }
        ensures fails { puts_to_fail result ≡ fail.items }
        ensures faults { result.faults ≡ 0 }
        ensures lacks { result.lacks ≡ 0 }
    {
        SinkMemory {
            bytes: Vec::new(alloc),
            fail,
            faults: 0,
            lacks: 0,
        }
    }

    /// The bytes that it holds.
    pub fn bytes(&self) -> &[u8]
        ensures { result.now ≡ memory_held self.now }
    {
        &self.bytes
    }
}

impl Sink for SinkMemory {
    ghost use Rattle.co_outside.specs.Faults.{HasRisen};
    ghost use Rattle.co_outside.specs.Sink.{accepted};
    ghost use Rattle.co_outside.specs.SinkMemory.{memory_held, puts_to_fail};

    ghost told = { λ s. Some (memory_held s) };

    ghost took = { memory_held };

    ghost faults = { λ s. s.faults };

    ghost lacks = { λ s. s.lacks };

    fn put(&mut self, _alloc: Global, piece: &[u8]) -> Result<u32, SinkFault>
        ensures count { IfOk result (λ n. n ≤ length piece.now) }
        ensures some { 1 ≤ length piece.now → IfOk result (λ n. 1 ≤ n) }
        ensures appended { memory_held self.new ≡ memory_held self.old ++ accepted piece.now result }
        ensures took { memory_held self.new ≡ memory_held self.old ++ accepted piece.now result }
        ensures counts { self.old.faults ≤ self.new.faults }
        ensures failed { IsErrOf result SinkFault.Failed → HasRisen self.old.faults self.new.faults }
        ensures quiet { (IsErrOf result SinkFault.Failed → ⊥) → self.new.faults ≡ self.old.faults }
        ensures lacks { self.old.lacks ≤ self.new.lacks }
        ensures memory { IsErrOf result SinkFault.Memory → HasRisen self.old.lacks self.new.lacks }
        ensures fed { (IsErrOf result SinkFault.Memory → ⊥) → self.new.lacks ≡ self.old.lacks }
        ensures fails { IsErrOf result SinkFault.Failed ↔ Contains (puts_to_fail self.old) 1 }
        ensures counted { puts_to_fail self.new ≡ map (λ n. n - 1) (puts_to_fail self.old) }
    {
        if is_due(&mut self.fail) {
            self.faults = self.faults.saturating_add(1);
            return Err(SinkFault::Failed);
        }
        let count = u32::try_from(piece.len()).unwrap_or(u32::MAX);
        match self.bytes.extend_from_slice(&piece[..count as usize]) {
            Ok(()) => Ok(count),
            Err(_) => {
                self.lacks = self.lacks.saturating_add(1);
                Err(SinkFault::Memory)
            }
        }
    }
}
