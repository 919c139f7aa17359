//! The images that a cut leaves of two pending writes.
ghost use Rattle.std.specs.Prelude.{length};
ghost use Rattle.co_outside.specs.HomeMemory.{memory_seen};
ghost use Rattle.co_disk.specs.DiskModel.{read_of};
ghost use Rattle.co_outside.specs.Home.{Agrees};

use crate::disks::{Choice, Piece, attached, holds, leaves_of, word, write};
use co_disk::{Disk, DiskFault};
use co_outside::HomeMemory;
use std::alloc::Global;

/// Two writes over stable bytes, and the image that each choice leaves of them.
#[derive(Drop)]
struct Writes {
    stable: &'static [u8],
    one: Piece,
    two: Piece,
    images: &'static [(Choice, &'static [u8])],
}

/// Two writes that overlap, past the old end.
static OVERLAPPING: Writes = Writes {
    stable: b"abcdef",
    one: Piece {
        at: 2,
        bytes: b"WXYZ",
    },
    two: Piece {
        at: 4,
        bytes: b"12345",
    },
    images: &[
        (Choice::Filled(b""), b"abcdef"),
        (Choice::Filled(b"PQ"), b"abPQef"),
        (Choice::Filled(b"PQRS"), b"abPQRS"),
        (Choice::Filled(b"PQRSTU"), b"abPQRSTU"),
        (Choice::Filled(b"PQRSTUV"), b"abPQRSTUV"),
        (Choice::Filled(b"PQRSTUV??"), b"abPQRSTUV"),
        (Choice::Old, b"abcdef"),
        (Choice::New, b"abWX12345"),
    ],
};

/// Two writes with a gap between them.
static APART: Writes = Writes {
    stable: b"abcdef",
    one: Piece { at: 4, bytes: b"Y" },
    two: Piece { at: 1, bytes: b"X" },
    images: &[
        (Choice::Old, b"abcdef"),
        (Choice::New, b"aXcdYf"),
        (Choice::Filled(b"P"), b"aPcdef"),
        (Choice::Filled(b"PQ"), b"aPcdQf"),
        (Choice::Filled(b"PQR"), b"aPcdQf"),
    ],
};

/// Two writes behind the old end.
static BEHIND: Writes = Writes {
    stable: b"ab",
    one: Piece {
        at: 2,
        bytes: b"cd",
    },
    two: Piece {
        at: 4,
        bytes: b"ef",
    },
    images: &[
        (Choice::Old, b"ab"),
        (Choice::New, b"abcdef"),
        (Choice::Filled(b"PQR"), b"abPQR"),
    ],
};

/// Writes twice, and cuts.
fn write_and_cut(
    alloc: Global,
    disk: &mut Disk,
    home: &mut HomeMemory,
    writes: &Writes,
    choice: &Choice,
) -> Result<(), DiskFault>
    requires { Agrees (memory_seen home.old) disk.old.spot (read_of disk.old.state) }
{
    write(disk, home, &writes.one)?;
    write(disk, home, &writes.two)?;
    let leaves = leaves_of(alloc, choice)?;
    disk.power_cut(home, &leaves)
}

/// Whether the cut leaves this image, in the disk and in the home.
fn left(alloc: Global, writes: &Writes, choice: &Choice, image: &[u8]) -> &'static str {
    let mut home = HomeMemory::new(alloc, Vec::new(alloc));
    let mut disk = match attached(alloc, &mut home, writes.stable) {
        Ok(disk) => disk,
        Err(fault) => return word(fault),
    };
    match write_and_cut(alloc, &mut disk, &mut home, writes, choice) {
        Ok(()) if holds(&disk, &home, image) => "these",
        Ok(()) => "others",
        Err(fault) => word(fault),
    }
}

/// Whether each choice leaves its image.
fn are_left(alloc: Global, writes: &Writes) -> bool {
    for (choice, image) in writes.images {
        if left(alloc, writes, choice, image) != "these" {
            return false;
        }
    }
    true
}

#[test]
fn images_of_two_writes_are_those_of_the_choice(rt: HostRuntime) {
    for writes in [&OVERLAPPING, &APART, &BEHIND] {
        assert!(rt; are_left(rt.alloc(), writes));
    }
}
