//! Where two files differ.
ghost use Rattle.std.specs.Prelude.{◌≡◌, slice_get, MatchOption};
ghost use Rattle.co_disk.specs.Faults.{IsFirstDifference};

/// The first place where the bytes differ, where there is one; a missing byte differs from any.
pub(crate) fn first_difference(kept: &[u8], read: &[u8]) -> Option<usize>
    ensures { MatchOption result (kept.now ≡ read.now) (IsFirstDifference kept.now read.now) }
{
    for place in 0..kept.len().max(read.len()) {
        if kept.get(place).copied() != read.get(place).copied() {
            return Some(place);
        }
    }
    None
}

/// The byte at a place, where there is one.
pub(crate) fn byte_at(bytes: &[u8], place: usize) -> Option<u8>
    ensures { result ≡ slice_get bytes.now place }
{
    bytes.get(place).copied()
}
