//! Where the two bounds of a range part.
ghost use Rattle.std.specs.Prelude.{◌≡◌, ℕ, ◌+◌, ◌*◌, ◌/◌, ◌^◌, ◌<◌, ◌≤◌, true, length, slice_index};
ghost use Rattle.co_base.specs.Span.{span_has};
ghost use Rattle.co_locktab.specs.Forks.{byte_at, common_length, shared_height, middle_of, word, fork_with, with_middle, fork_of, IsOnPath};
ghost use Rattle.co_locktab.specs.Places.{are_beside};

use co_base::Range;

/// Where the bounds of a range part: behind the first bytes that they share, at the middle of the least block of
/// bytes that has the next byte of each.
///
/// The blocks of height `h` are the runs of `2^(h + 1)` bytes from 0 on. A bound that ends counts as byte 0 there.
#[derive(Clone, Copy, PartialEq, Eq, PartialOrd, Ord, Drop)]
pub struct Fork {
    /// The shared bytes, and 0 behind them: eight in a word, the first the highest.
    prefix: [u64; 4],
    /// The middle of the block.
    pub middle: u16,
}

/// The byte at a place, or 0 behind the last one.
pub fn byte_at(text: &[u8], place: usize) -> u8
    ensures { result ≡ byte_at text.now place }
{
    text.get(place).copied().unwrap_or(0)
}

/// The eight bytes from a place on, the first the highest.
fn word(bytes: &[u8; 32], at: usize) -> u64
    requires { at + 8 ≤ 32 }
    ensures { result ≡ word bytes.now at }
{
    u64::from_be_bytes([
        bytes[at],
        bytes[at + 1],
        bytes[at + 2],
        bytes[at + 3],
        bytes[at + 4],
        bytes[at + 5],
        bytes[at + 6],
        bytes[at + 7],
    ])
}

/// The middle of the block of a height that has a byte.
pub fn middle_of(height: u8, byte: u8) -> u16
    requires { height < 8 }
    ensures { result ≡ middle_of height byte }
{
    ((u16::from(byte) >> height) / 2 * 2 + 1) << height
}

/// How many first bytes two texts share.
fn common_length(one: &[u8], other: &[u8]) -> usize
    ensures value { result ≡ common_length one.now other.now }
    ensures within { result ≤ length one.now }
{
    one.iter()
        .zip(other)
        .take_while(|(x, y)| **x == **y)
        .count()
}

/// The height of the least block that has both bytes.
fn shared_height(one: u8, other: u8) -> u8
    ensures value { result ≡ shared_height 7 one other }
    ensures bound { result < 8 }
{
    let mut height = 7;
    while height > 0 && (one >> (height - 1)) / 2 == (other >> (height - 1)) / 2 {
        height -= 1;
    }
    height
}

impl Fork {
    /// Above the middles of all blocks.
    pub const END: u16 = 256;

    /// Where texts part that share these bytes, at the block with a middle.
    pub fn at(prefix: &[u8], middle: u16) -> Fork
        requires { length prefix.now ≤ 32 }
        ensures { result ≡ fork_with prefix.now middle }
    {
        let mut padded = [0; 32];
        padded[..prefix.len()].copy_from_slice(prefix);
        Fork {
            prefix: [
                word(&padded, 0),
                word(&padded, 8),
                word(&padded, 16),
                word(&padded, 24),
            ],
            middle,
        }
    }

    /// Where texts part that share the same bytes, at the block with another middle.
    pub fn with_middle(&self, middle: u16) -> Fork
        ensures { result ≡ with_middle self.now middle }
    {
        Fork {
            prefix: self.prefix,
            middle,
        }
    }

    /// Whether two forks stand behind the same bytes.
    pub fn is_beside(&self, other: &Fork) -> bool
        ensures { result ≡ are_beside self.now other.now }
    {
        self.prefix.cmp(&other.prefix).is_eq()
    }

    /// Where the bounds of a range part. Each key of the range has it on its path.
    pub fn of(range: &Range) -> Fork
        ensures value { result ≡ fork_of range.now }
        ensures path { (key : _) → span_has range.now key ≡ true → IsOnPath key result }
    {
        let lo = range.lo().text();
        let hi = range.hi().text();
        let shared = common_length(lo, hi);
        let byte = byte_at(lo, shared);
        let height = shared_height(byte, byte_at(hi, shared));
        Fork::at(&lo[..shared], middle_of(height, byte))
    }
}
