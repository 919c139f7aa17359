//! The image that a crash leaves, made in the one buffer.
ghost use Rattle.std.specs.Prelude.{◌≡◌, ◌≤◌, ◌<◌, ◌+◌, length, take, drop, map, vec_len};
ghost use Rattle.co_base.specs.declared.leaves.Leaves.TheVariants.{Filled};
ghost use Rattle.co_disk.specs.DiskModel.{IsChosen, IsSound, read_of};
ghost use Rattle.co_disk.specs.Kept.{entries, entry_of, undone, state_of, disk_over, AreFit, IsKept};

use crate::touched::{FirstByte, Touched, is_covered, take_back};
use co_base::Leaves;

/// Lays the stable bytes back, and answers how many there are.
fn take_back_touched(bytes: &mut [u8], touched: &[Touched]) -> usize
    requires { AreFit bytes.old (map entry_of touched.now) }
    ensures back { take result bytes.new ≡ undone bytes.old (map entry_of touched.now) }
    ensures less { result ≤ length bytes.new }
{
    let mut len = bytes.len();
    let mut left = touched.len();
    while left > 0 {
        left -= 1;
        let t = &touched[left];
        len = take_back(bytes, len, t.at as usize, t.piece.len(), &t.before);
    }
    len
}

/// The same with the first byte, which was written before the others.
fn take_back_all(bytes: &mut [u8], first: &Option<FirstByte>, touched: &[Touched]) -> usize
    requires { AreFit bytes.old (entries first.now touched.now) }
    ensures back { take result bytes.new ≡ undone bytes.old (entries first.now touched.now) }
    ensures less { result ≤ length bytes.new }
{
    let len = take_back_touched(bytes, touched);
    match first {
        Some(f) => take_back(bytes, len, f.at as usize, 1, &[f.before]),
        None => len,
    }
}

/// Gives bytes to the covered places in ascending order, over stable bytes, and answers the length
/// of the image.
fn fill(
    bytes: &mut [u8],
    stable: usize,
    first: &Option<FirstByte>,
    touched: &[Touched],
    with: &[u8],
) -> usize
    requires { stable ≤ length bytes.old }
    ensures chosen { let disk = disk_over bytes.old stable (entries first.now touched.now) in
        IsSound disk → length (read_of disk) ≡ length bytes.old → IsChosen disk (Filled with.now) (take result bytes.new) }
    ensures less { result ≤ length bytes.new }
{
    let mut place = 0;
    let mut used = 0;
    while place < bytes.len() && used < with.len() {
        if is_covered(first, touched, place) {
            bytes[place] = with[used];
            used += 1;
        }
        place += 1;
    }
    place.max(stable)
}

/// Makes the chosen image of the writes, in the bytes that a read gives with them.
pub(crate) fn choose(
    bytes: &mut Vec<u8>,
    first: &Option<FirstByte>,
    touched: &[Touched],
    leaves: &Leaves,
)
    requires { IsKept bytes.old.items (entries first.now touched.now) }
    ensures { IsChosen (state_of bytes.old.items (entries first.now touched.now)) leaves.now bytes.new.items }
{
    let with: &[u8] = match leaves {
        Leaves::New => return,
        Leaves::Old => &[],
        Leaves::Filled(with) => with.as_slice(),
    };
    let stable = take_back_all(bytes, first, touched);
    let len = fill(bytes, stable, first, touched, with);
    bytes.truncate(len);
}
