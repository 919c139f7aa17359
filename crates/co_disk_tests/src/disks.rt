//! A disk over part `a` of member 1 in a home in memory.
ghost use Rattle.std.specs.Prelude.{◌≡◌, OnOk, IfOk, length};
ghost use Rattle.co_outside.specs.HomeMemory.{memory_seen};
ghost use Rattle.co_disk.specs.DiskModel.{read_of};
ghost use Rattle.co_outside.specs.Home.{Agrees};

use co_base::{Bytes, Leaves};
use co_disk::{Disk, DiskFault};
use co_outside::{HomeMemory, Spot};
use std::alloc::{AllocError, Global};

/// Part `a` of the log of member 1.
pub(crate) const M1_A: Spot = Spot { node: 1, part: 0 };

/// A home in memory without files.
pub(crate) fn no_files(alloc: Global) -> HomeMemory {
    HomeMemory::new(alloc, Vec::new(alloc))
}

/// A few bytes from a place on.
#[derive(Drop)]
pub(crate) struct Piece {
    pub(crate) at: u32,
    pub(crate) bytes: &'static [u8],
}

/// The choice of an image.
#[derive(Drop)]
pub(crate) enum Choice {
    Old,
    New,
    Filled(&'static [u8]),
}

/// The same as a disk takes it.
pub(crate) fn leaves_of(alloc: Global, choice: &Choice) -> Result<Leaves, AllocError> {
    match choice {
        Choice::Old => Ok(Leaves::Old),
        Choice::New => Ok(Leaves::New),
        Choice::Filled(bytes) => Ok(Leaves::Filled(Bytes::of(bytes.to_vec(alloc)?))),
    }
}

/// The disk over a file of these bytes.
pub(crate) fn attached(
    alloc: Global,
    home: &mut HomeMemory,
    bytes: &[u8],
) -> Result<Disk, DiskFault>
    ensures { IfOk result (λ d. Agrees (memory_seen home.new) d.spot (read_of d.state)) }
{
    home.put(M1_A, bytes.to_vec(alloc)?)?;
    Disk::attach(alloc, home, M1_A)
}

/// Writes a piece where it has its place; where it has none, the file is called too long.
pub(crate) fn write(disk: &mut Disk, home: &mut HomeMemory, piece: &Piece) -> Result<(), DiskFault>
    requires { Agrees (memory_seen home.old) disk.old.spot (read_of disk.old.state) }
    ensures { OnOk result (Agrees (memory_seen home.new) disk.new.spot (read_of disk.new.state)) }
{
    if piece.at as usize > disk.bytes().len() || piece.at > 99 || piece.bytes.len() > 99 {
        return Err(DiskFault::Long);
    }
    disk.write_at(home, piece.at, piece.bytes)
}

/// Whether the disk gives these bytes, and its file has them.
pub(crate) fn holds(disk: &Disk, home: &HomeMemory, bytes: &[u8]) -> bool {
    disk.bytes() == bytes && home.bytes(M1_A) == bytes
}

/// A fault in a word.
pub(crate) fn word(fault: DiskFault) -> &'static str {
    match fault {
        DiskFault::Device => "device",
        DiskFault::Stopped { .. } => "stopped",
        DiskFault::Differs { .. } => "differs",
        DiskFault::Long => "long",
        DiskFault::Memory => "memory",
    }
}
