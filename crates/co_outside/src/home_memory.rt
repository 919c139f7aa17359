//! The directory of logs in memory.
ghost use Rattle.std.specs.Prelude.{◌≡◌, ◌≢◌, ◌≤◌, ◌<◌, ◌↔◌, ◌+◌, [], List, ℕ, None, Some, length, take, OnOk, OnErr, IfErr, IfOk, IsErrOf, Contains, true};

use crate::failing::is_call_due;
use crate::home::{FailAt, Home, HomeCall, HomeFault};
use crate::spot::Spot;
use crate::stored::{Stored, all_clean, bytes_of, cut_at, lay_at, mark, put_at};
use std::alloc::{AllocError, Global};

/// A directory of logs in memory, which tells its files and fails at named calls.
///
/// It tells the files of part `a` and part `b` of every node.
#[derive(Drop)]
pub struct HomeMemory {
    files: Vec<Stored>,
    clean: [bool; 512],
    fail: Vec<FailAt>,
    entered: Option<String>,
    last_failed: Spot,
    faults: u64,
}

impl HomeMemory {
    ghost use Rattle.co_outside.specs.declared.spot.Spot.{Spot};
    ghost use Rattle.co_outside.specs.Home.{IsCounted, FailsAsDue, empty_file};
    ghost use Rattle.co_outside.specs.HomeMemory.{memory_file, memory_bytes, memory_entered, HasSameFiles, HasSameCounts, memory_seen};

    /// No files, each of them clean. `fail` names the calls that are to fail. Takes no memory.
    pub fn new(alloc: Global, fail: Vec<FailAt>) -> HomeMemory
        ensures files { (s : Spot) → s.part < 2 → memory_file result s ≡ Some empty_file }
        ensures empty { (s : Spot) → memory_bytes result s ≡ [] }
        ensures entered { memory_entered result ≡ None }
        ensures fails { result.fail.items ≡ fail.items }
        ensures faults { result.faults ≡ 0 }
        ensures last_failed { result.last_failed ≡ record { node = 1; part = 0 } }
    {
        HomeMemory {
            files: Vec::new(alloc),
            clean: all_clean(),
            fail,
            entered: None,
            last_failed: Spot::FIRST,
            faults: 0,
        }
    }

    /// The bytes of the file at a spot; an absent file is empty.
    pub fn bytes(&self, spot: Spot) -> &[u8]
        ensures { result.now ≡ memory_bytes self.now spot }
    {
        bytes_of(&self.files, spot)
    }

    /// Puts these bytes in the place of the file at a spot, which is clean then. It is no call of the
    /// home: it does not fail, and nothing is counted. Want of memory leaves the file as it was.
    pub fn put(&mut self, spot: Spot, bytes: Vec<u8>) -> Result<(), AllocError>
        ensures file { OnOk result (spot.part < 2 → memory_file self.new spot ≡ Some (record { bytes = bytes.items; clean = true })) }
        ensures bytes { OnOk result (memory_bytes self.new spot ≡ bytes.items) }
        ensures stays { OnErr result (memory_file self.new spot ≡ memory_file self.old spot) }
        ensures others { (s : Spot) → s ≢ spot → memory_file self.new s ≡ memory_file self.old s }
        ensures entered { memory_entered self.new ≡ memory_entered self.old }
        ensures counts { HasSameCounts self.old self.new }
    {
        put_at(&mut self.files, spot, bytes)?;
        mark(&mut self.clean, spot, true);
        Ok(())
    }

    /// Begins a call, which fails where it is one of those that are to fail.
    fn begin(&mut self, spot: Spot, call: HomeCall) -> Result<(), HomeFault>
        ensures same { HasSameFiles self.old self.new }
        ensures counted { IsCounted spot (memory_seen self.old) (memory_seen self.new) result }
        ensures fault { IfErr result (λ e. e ≡ HomeFault.Failed) }
        ensures due { FailsAsDue spot call (memory_seen self.old) (memory_seen self.new) result }
    {
        if is_call_due(&mut self.fail, spot, call) {
            self.faults = self.faults.saturating_add(1);
            self.last_failed = spot;
            return Err(HomeFault::Failed);
        }
        Ok(())
    }
}

impl Home for HomeMemory {
    ghost use Rattle.co_outside.specs.HomeMemory.{memory_seen, memory_bytes};
    ghost use Rattle.co_outside.specs.HomeMemoryLaws.{gives_front, reaches_end};

    ghost seen = { memory_seen };

    ghost gives = { λ h s most bytes. bytes ≡ take most (memory_bytes h s) };

    ghost told_gives = { gives_front };

    ghost told_reach = { reaches_end };

    fn enter(&mut self, alloc: Global, dir: &str) -> Result<(), HomeFault> {
        self.begin(Spot::FIRST, HomeCall::Enter)?;
        self.entered = Some(String::from_str(alloc, dir)?);
        Ok(())
    }

    fn read_all(&mut self, alloc: Global, spot: Spot, most: u32) -> Result<Vec<u8>, HomeFault> {
        self.begin(spot, HomeCall::ReadAll)?;
        let bytes = bytes_of(&self.files, spot);
        let front = Vec::from_slice(alloc, &bytes[..bytes.len().min(most as usize)])?;
        Ok(front)
    }

    fn write_at(
        &mut self,
        alloc: Global,
        spot: Spot,
        at: u32,
        piece: &[u8],
    ) -> Result<(), HomeFault> {
        mark(&mut self.clean, spot, false);
        self.begin(spot, HomeCall::WriteAt)?;
        lay_at(alloc, &mut self.files, spot, at as usize, piece)?;
        Ok(())
    }

    fn set_len(&mut self, spot: Spot, len: u32) -> Result<(), HomeFault> {
        mark(&mut self.clean, spot, false);
        self.begin(spot, HomeCall::SetLen)?;
        cut_at(&mut self.files, spot, len as usize);
        Ok(())
    }

    fn sync(&mut self, spot: Spot) -> Result<(), HomeFault> {
        self.begin(spot, HomeCall::Sync)?;
        mark(&mut self.clean, spot, true);
        Ok(())
    }
}
