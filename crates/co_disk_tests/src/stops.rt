//! Disks that are written through, stopped at a call, and read again.
ghost use Rattle.std.specs.Prelude.{OnOk, length};
ghost use Rattle.co_outside.specs.HomeMemory.{memory_seen};
ghost use Rattle.co_disk.specs.DiskModel.{read_of};
ghost use Rattle.co_outside.specs.Home.{Agrees};

use crate::disks::{Choice, M1_A, Piece, attached, holds, leaves_of, no_files, write};
use co_base::Leaves;
use co_disk::{Disk, DiskFault};
use co_outside::{HomeMemory, HomeTwist};
use std::alloc::Global;

/// Writes twice, the second time over the end.
fn write_twice(disk: &mut Disk, home: &mut HomeMemory) -> Result<(), DiskFault>
    requires { Agrees (memory_seen home.old) disk.old.spot (read_of disk.old.state) }
    ensures { OnOk result (Agrees (memory_seen home.new) disk.new.spot (read_of disk.new.state)) }
{
    write(disk, home, &Piece { at: 1, bytes: b"X" })?;
    write(
        disk,
        home,
        &Piece {
            at: 2,
            bytes: b"YZ",
        },
    )
}

/// Makes the writes stable and reads the file again.
fn sync_and_reread(disk: &mut Disk, home: &mut HomeMemory) -> Result<(), DiskFault>
    requires { Agrees (memory_seen home.old) disk.old.spot (read_of disk.old.state) }
{
    disk.sync(home)?;
    disk.reread(home)
}

/// Whether the disk and its file hold both writes, before a sync and behind it.
fn is_written_through(disk: &mut Disk, home: &mut HomeMemory) -> bool
    requires { Agrees (memory_seen home.old) disk.old.spot (read_of disk.old.state) }
{
    if write_twice(disk, home).is_err() || !holds(disk, home, b"aXYZ") {
        return false;
    }
    sync_and_reread(disk, home).is_ok() && holds(disk, home, b"aXYZ")
}

/// The device call at which a sync behind a write is stopped; 0 where the write is, or nothing.
fn stopped_sync(disk: &mut Disk, home: &mut HomeMemory, leaves: Leaves) -> u8
    requires { Agrees (memory_seen home.old) disk.old.spot (read_of disk.old.state) }
{
    disk.arm(2, leaves);
    let piece = Piece {
        at: 1,
        bytes: b"XY",
    };
    if write(disk, home, &piece).is_err() {
        return 0;
    }
    match disk.sync(home) {
        Err(DiskFault::Stopped { call }) => call,
        _ => 0,
    }
}

/// Arms a stop, takes it away, writes and syncs.
fn write_disarmed(disk: &mut Disk, home: &mut HomeMemory) -> Result<(), DiskFault>
    requires { Agrees (memory_seen home.old) disk.old.spot (read_of disk.old.state) }
{
    disk.arm(1, Leaves::Old);
    disk.disarm();
    write(disk, home, &Piece { at: 0, bytes: b"X" })?;
    disk.sync(home)
}

/// Whether a disk over a file has its bytes, writes through and reads back.
fn writes_through(alloc: Global) -> bool {
    let mut home = no_files(alloc);
    match attached(alloc, &mut home, b"abc") {
        Ok(disk) => {
            let mut disk = disk;
            holds(&disk, &home, b"abc") && is_written_through(&mut disk, &mut home)
        }
        Err(_) => false,
    }
}

#[test]
fn a_disk_writes_through_and_reads_back(rt: HostRuntime) {
    assert!(rt; writes_through(rt.alloc()));
}

/// Whether the sync of a disk stops at its call and leaves this image.
fn stops_at_its_call(alloc: Global, leaves: Leaves) -> bool {
    let mut home = no_files(alloc);
    match attached(alloc, &mut home, b"abc") {
        Ok(disk) => {
            let mut disk = disk;
            stopped_sync(&mut disk, &mut home, leaves) == 2 && holds(&disk, &home, b"aPc")
        }
        Err(_) => false,
    }
}

/// The same with an image of one byte.
fn leaves_its_image(alloc: Global) -> bool {
    match leaves_of(alloc, &Choice::Filled(b"P")) {
        Ok(leaves) => stops_at_its_call(alloc, leaves),
        Err(_) => false,
    }
}

#[test]
fn an_armed_call_stops_and_leaves_its_image(rt: HostRuntime) {
    assert!(rt; leaves_its_image(rt.alloc()));
}

/// Whether a disk whose stop is taken away writes.
fn writes_disarmed(alloc: Global) -> bool {
    let mut home = no_files(alloc);
    match Disk::attach(alloc, &mut home, M1_A) {
        Ok(disk) => {
            let mut disk = disk;
            write_disarmed(&mut disk, &mut home).is_ok() && home.bytes(M1_A) == b"X".as_slice()
        }
        Err(_) => false,
    }
}

#[test]
fn a_disarmed_disk_does_not_stop(rt: HostRuntime) {
    assert!(rt; writes_disarmed(rt.alloc()));
}

/// Attaches a disk and reads its file again.
fn reread(alloc: Global, home: &mut HomeTwist) -> Result<(), DiskFault> {
    let mut disk = Disk::attach(alloc, home, M1_A)?;
    disk.reread(home)
}

/// What a disk tells of a file of which the last byte has changed.
fn told_of_change(alloc: Global) -> Result<(), DiskFault> {
    let mut inner = no_files(alloc);
    inner.put(M1_A, b"abc".to_vec(alloc)?)?;
    let mut home = HomeTwist::new(inner, M1_A, 2, b'?', 2);
    reread(alloc, &mut home)
}

/// Whether it names the byte.
fn names_the_byte(alloc: Global) -> bool {
    matches!(
        told_of_change(alloc),
        Err(DiskFault::Differs {
            at: 2,
            kept: Some(b'c'),
            read: Some(b'?')
        })
    )
}

#[test]
fn a_changed_byte_is_named(rt: HostRuntime) {
    assert!(rt; names_the_byte(rt.alloc()));
}
