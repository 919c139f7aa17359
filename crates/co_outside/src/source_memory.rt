//! A source in memory.
ghost use Rattle.std.specs.Prelude.{◌≡◌, ◌≤◌, ◌-◌, ◌↔◌, ◌++◌, true, false, [], List, ℕ, length, take, drop, map, Some, IfOk, IsErrOf, Contains};

use crate::failing::is_due;
use crate::source::{Source, SourceFault, Taken};
use co_base::Bytes;
use std::alloc::Global;

/// A source over bytes in memory, which tells what it has left and fails at named calls.
#[derive(Drop)]
pub struct SourceMemory {
    bytes: Vec<u8>,
    at: usize,
    ended: bool,
    fail: Vec<u32>,
    faults: u64,
    ghost within: { at ≤ length bytes.items },
    ghost over: { ended ≡ true → at ≡ length bytes.items },
}

impl SourceMemory {
    ghost use Rattle.co_outside.specs.SourceMemory.{memory_left, memory_gave, calls_to_fail};

    /// A source of these bytes. `fail` names the calls that are to fail, counted from 1. Takes no
    /// memory.
    pub fn new(bytes: Vec<u8>, fail: Vec<u32>) -> SourceMemory
        ensures left { memory_left result ≡ bytes.items }
        ensures gave { memory_gave result ≡ [] }
        ensures ended { result.ended ≡ false }
        ensures fails { calls_to_fail result ≡ fail.items }
        ensures faults { result.faults ≡ 0 }
    {
        SourceMemory {
            bytes,
            at: 0,
            ended: false,
            fail,
            faults: 0,
        }
    }
}

impl Source for SourceMemory {
    ghost use Rattle.co_outside.specs.declared.source.Taken.TheVariants.{End};
    ghost use Rattle.co_outside.specs.Faults.{HasRisen};
    ghost use Rattle.co_outside.specs.Source.{given, ended_by, went_on_by, HasSize};
    ghost use Rattle.co_outside.specs.SourceMemory.{memory_left, memory_gave, calls_to_fail};

    ghost left = { λ s. Some (memory_left s) };

    ghost gave = { memory_gave };

    ghost ended = { λ s. s.ended };

    ghost went_on = { λ _. false };

    ghost faults = { λ s. s.faults };

    fn take(&mut self, alloc: Global, most: u32) -> Result<Taken, SourceFault>
        requires { 1 ≤ most }
        ensures size { IfOk result (HasSize most) }
        ensures front { given result ≡ take (length (given result)) (memory_left self.old) }
        ensures rest { memory_left self.new ≡ drop (length (given result)) (memory_left self.old) }
        ensures end { IfOk result (λ taken. (taken ≡ End) ↔ (memory_left self.old ≡ [])) }
        ensures gave { memory_gave self.new ≡ memory_gave self.old ++ given result }
        ensures ended { self.new.ended ≡ ended_by result self.old.ended }
        ensures went_on { false ≡ went_on_by result self.old.ended false }
        ensures counts { self.old.faults ≤ self.new.faults }
        ensures failed { IsErrOf result SourceFault.Failed → HasRisen self.old.faults self.new.faults }
        ensures quiet { (IsErrOf result SourceFault.Failed → ⊥) → self.new.faults ≡ self.old.faults }
        ensures fails { IsErrOf result SourceFault.Failed ↔ Contains (calls_to_fail self.old) 1 }
        ensures counted { calls_to_fail self.new ≡ map (λ n. n - 1) (calls_to_fail self.old) }
    {
        if is_due(&mut self.fail) {
            self.faults = self.faults.saturating_add(1);
            return Err(SourceFault::Failed);
        }
        let rest = &self.bytes[self.at..];
        if rest.is_empty() {
            self.ended = true;
            return Ok(Taken::End);
        }
        let count = rest.len().min(most as usize);
        let front = Vec::from_slice(alloc, &rest[..count])?;
        self.at += count;
        self.ended = false;
        Ok(Taken::Bytes(Bytes::of(front)))
    }
}
