//! A directory of logs at which no call fails.
ghost use Rattle.std.specs.Prelude.{◌≡◌, ◌<◌, [], None, Some, IsErrOf};
ghost use Rattle.co_outside.specs.declared.home.HomeFault.TheVariants.{Failed};
ghost use Rattle.co_outside.specs.declared.spot.Spot.{Spot};
ghost use Rattle.co_outside.specs.Home.{empty_file};
ghost use Rattle.co_outside.specs.HomeMemory.{memory_file, memory_entered};

use co_outside::{Home, HomeFault, HomeMemory, Spot};
use std::alloc::Global;

/// A directory of logs in memory at which no call fails but for want of memory.
#[derive(Drop)]
pub struct CalmHome {
    /// The directory.
    pub memory: HomeMemory,
    pub ghost never_fails: { memory.fail.items ≡ [] },
}

/// What a call answers that does not fail.
fn answered<T>(answer: Result<T, HomeFault>) -> Result<T, HomeFault>
    requires { IsErrOf answer Failed → ⊥ }
    ensures { result ≡ answer }
{
    match answer {
        Ok(value) => Ok(value),
        Err(HomeFault::Memory) => Err(HomeFault::Memory),
        Err(HomeFault::Failed) => unreachable!(),
    }
}

impl CalmHome {
    /// No files, each of them clean. Takes no memory.
    pub fn new(alloc: Global) -> CalmHome
        ensures files { (s : Spot) → s.part < 2 → memory_file result.memory s ≡ Some empty_file }
        ensures entered { memory_entered result.memory ≡ None }
    {
        CalmHome {
            memory: HomeMemory::new(alloc, Vec::new(alloc)),
        }
    }
}

impl Home for CalmHome {
    ghost use Rattle.std.specs.Prelude.{◌≡◌, take};
    ghost use Rattle.co_outside.specs.HomeMemory.{memory_bytes};
    ghost use Rattle.co_trial.specs.Calm.{calm_seen};
    ghost use Rattle.co_outside.specs.HomeMemoryLaws.{gives_front, reaches_end};

    ghost seen = { λ h. calm_seen h.memory };

    ghost gives = { λ h s most bytes. bytes ≡ take most (memory_bytes h.memory s) };

    ghost told_gives = { λ h. gives_front h.memory };

    ghost told_reach = { λ h. reaches_end h.memory };

    fn enter(&mut self, alloc: Global, dir: &str) -> Result<(), HomeFault> {
        answered(self.memory.enter(alloc, dir))
    }

    fn read_all(&mut self, alloc: Global, spot: Spot, most: u32) -> Result<Vec<u8>, HomeFault> {
        answered(self.memory.read_all(alloc, spot, most))
    }

    fn write_at(
        &mut self,
        alloc: Global,
        spot: Spot,
        at: u32,
        piece: &[u8],
    ) -> Result<(), HomeFault> {
        answered(self.memory.write_at(alloc, spot, at, piece))
    }

    fn set_len(&mut self, spot: Spot, len: u32) -> Result<(), HomeFault> {
        answered(self.memory.set_len(spot, len))
    }

    fn sync(&mut self, spot: Spot) -> Result<(), HomeFault> {
        answered(self.memory.sync(spot))
    }
}
