//! A home that changes one byte of what it reads.
ghost use Rattle.std.specs.Prelude.{◌≡◌, length, None};

use crate::home::{Home, HomeFault};
use crate::home_memory::HomeMemory;
use crate::spot::Spot;
use std::alloc::Global;

/// A home over a home in memory, which gives a wrong byte from a certain read of one file on. It
/// tells no file, but what each read of it gives.
#[derive(Drop)]
pub struct HomeTwist {
    inner: HomeMemory,
    spot: Spot,
    at: u32,
    byte: u8,
    from: u32,
    reads: u32,
}

impl HomeTwist {
    ghost use Rattle.co_outside.specs.HomeTwist.{twisted, reads_after};

    /// Passes every call on to `inner`. From its `read_all` with the number `from` on `spot`,
    /// counted from 1, it gives `byte` at the place `at` where the file has that place.
    pub fn new(inner: HomeMemory, spot: Spot, at: u32, byte: u8, from: u32) -> HomeTwist
        ensures { result ≡ record { inner = inner; spot = spot; at = at; byte = byte; from = from; reads = 0 } }
    {
        HomeTwist {
            inner,
            spot,
            at,
            byte,
            from,
            reads: 0,
        }
    }

    /// Counts a read at a spot, and twists what it gave.
    fn twist(&mut self, spot: Spot, bytes: &mut [u8])
        ensures bytes { bytes.new ≡ twisted self.old spot bytes.old }
        ensures reads { self.new.reads ≡ reads_after self.old spot }
        ensures inner { self.new.inner ≡ self.old.inner }
    {
        if spot.node != self.spot.node || spot.part != self.spot.part {
            return;
        }
        self.reads = self.reads.saturating_add(1);
        let at = self.at as usize;
        if self.reads >= self.from && at < bytes.len() {
            bytes[at] = self.byte;
        }
    }
}

impl Home for HomeTwist {
    ghost use Rattle.std.specs.Prelude.{◌≡◌, take};
    ghost use Rattle.co_outside.specs.Untold.{none_is_no_file};
    ghost use Rattle.co_outside.specs.HomeMemory.{memory_bytes, memory_entered};
    ghost use Rattle.co_outside.specs.HomeTwist.{twisted};

    ghost seen = { λ h. record { file = λ _. None; reach = λ s. length (memory_bytes h.inner s); entered = memory_entered h.inner; last_failed = h.inner.last_failed; faults = h.inner.faults; due = None } };

    ghost gives = { λ h s most bytes. bytes ≡ twisted h s (take most (memory_bytes h.inner s)) };

    ghost told_gives = { λ h s most bytes f told gives. absurd (none_is_no_file f told) };

    ghost told_reach = { λ h s f told. absurd (none_is_no_file f told) };

    fn enter(&mut self, alloc: Global, dir: &str) -> Result<(), HomeFault> {
        self.inner.enter(alloc, dir)
    }

    fn read_all(&mut self, alloc: Global, spot: Spot, most: u32) -> Result<Vec<u8>, HomeFault> {
        let mut bytes = self.inner.read_all(alloc, spot, most)?;
        self.twist(spot, &mut bytes);
        Ok(bytes)
    }

    fn write_at(
        &mut self,
        alloc: Global,
        spot: Spot,
        at: u32,
        piece: &[u8],
    ) -> Result<(), HomeFault> {
        self.inner.write_at(alloc, spot, at, piece)
    }

    fn set_len(&mut self, spot: Spot, len: u32) -> Result<(), HomeFault> {
        self.inner.set_len(spot, len)
    }

    fn sync(&mut self, spot: Spot) -> Result<(), HomeFault> {
        self.inner.sync(spot)
    }
}
