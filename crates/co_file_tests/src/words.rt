//! Spots of files, and answers of homes in words.

use co_outside::{Home, HomeFault, Spot};
use std::alloc::Global;

/// Part `a` of the log of member 1.
pub(crate) const M1_A: Spot = Spot { node: 1, part: 0 };

/// Part `b` of the log of coordinator 2.
pub(crate) const C2_B: Spot = Spot {
    node: 0x82,
    part: 1,
};

/// The answer of a call of a home, in a word.
pub(crate) fn answer(answer: Result<(), HomeFault>) -> &'static str {
    match answer {
        Ok(()) => "done",
        Err(HomeFault::Failed) => "failed",
        Err(HomeFault::Memory) => "memory",
    }
}

/// Enters a directory.
pub(crate) fn entered<H: Home>(alloc: Global, home: &mut H, dir: &str) -> &'static str {
    answer(home.enter(alloc, dir))
}

/// Whether a read gives these bytes; where it gives none, why.
pub(crate) fn read<H: Home>(
    alloc: Global,
    home: &mut H,
    spot: Spot,
    most: u32,
    wanted: &[u8],
) -> &'static str {
    match home.read_all(alloc, spot, most) {
        Ok(bytes) if bytes.as_slice() == wanted => "these",
        Ok(_) => "others",
        Err(HomeFault::Failed) => "failed",
        Err(HomeFault::Memory) => "memory",
    }
}

/// Makes a file stable.
pub(crate) fn synced<H: Home>(home: &mut H, spot: Spot) -> &'static str {
    answer(home.sync(spot))
}
