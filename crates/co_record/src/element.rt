//! The elements of lists: ranges, rows, changes, members and transactions.
ghost use Rattle.std.specs.Prelude.{◌≡◌, option_copied};
ghost use Rattle.co_record.specs.Reading.{Gives, bounds_at, entry_at, held_at, change_at, member_at, pair_at};

use crate::field::{read_byte_within, read_key, read_value};
use crate::miss::Miss;
use crate::order::is_key_above;
use co_base::MOST_MEMBERS;

/// The two bounds of a range, or the key and the value of a row.
pub type Pair<'a> = (&'a [u8], &'a [u8]);

/// A key, and its value where it has one.
pub type Change<'a> = (&'a [u8], Option<&'a [u8]>);

/// What a pair is.
#[derive(Clone, Copy)]
pub enum PairKind {
    /// The bounds of a range.
    Bounds,
    /// The key and the value of a row, of a version.
    Entry { version: u8 },
}

/// The bounds of a range. An upper bound below the lower one is a fault at the upper one.
#[tactic(auto, unfolding(crate::specs::Reading::bounds_at))]
pub fn read_bounds(bytes: &[u8]) -> Result<(Pair<'_>, &[u8]), Miss>
    ensures { Gives (λ x. ((x.0.0.now, x.0.1.now), x.1.now)) result (bounds_at bytes.now) }
{
    let (lo, behind_lo) = read_key(bytes)?;
    let (hi, rest) = read_key(behind_lo)?;
    if is_key_above(lo, hi) {
        return Err(Miss::Outside {
            left: behind_lo.len(),
        });
    }
    Ok(((lo, hi), rest))
}

/// The key and the value of a row of a version.
#[tactic(auto, unfolding(crate::specs::Reading::entry_at))]
pub fn read_entry(version: u8, bytes: &[u8]) -> Result<(Pair<'_>, &[u8]), Miss>
    ensures { Gives (λ x. ((x.0.0.now, x.0.1.now), x.1.now)) result (entry_at version bytes.now) }
{
    let (key, rest) = read_key(bytes)?;
    let (value, rest) = read_value(version, rest)?;
    Ok(((key, value), rest))
}

/// A pair of this kind.
pub fn read_pair(kind: PairKind, bytes: &[u8]) -> Result<(Pair<'_>, &[u8]), Miss>
    ensures { Gives (λ x. ((x.0.0.now, x.0.1.now), x.1.now)) result (pair_at kind bytes.now) }
{
    match kind {
        PairKind::Bounds => read_bounds(bytes),
        PairKind::Entry { version } => read_entry(version, bytes),
    }
}

/// A tag of 0 for no value, or of 1 and a value.
#[tactic(auto, unfolding(crate::specs::Reading::held_at))]
fn read_held(version: u8, bytes: &[u8]) -> Result<(Option<&[u8]>, &[u8]), Miss>
    ensures { Gives (λ x. (option_copied x.0, x.1.now)) result (held_at version bytes.now) }
{
    match bytes {
        [] => Err(Miss::Short),
        [0, rest @ ..] => Ok((None, rest)),
        [1, rest @ ..] => {
            let (value, rest) = read_value(version, rest)?;
            Ok((Some(value), rest))
        }
        [_, ..] => Err(Miss::Outside { left: bytes.len() }),
    }
}

/// A change of a version: its key, then none or a value.
#[tactic(auto, unfolding(crate::specs::Reading::change_at))]
pub fn read_change(version: u8, bytes: &[u8]) -> Result<(Change<'_>, &[u8]), Miss>
    ensures { Gives (λ x. (record { key = x.0.0.now; value = option_copied x.0.1 }, x.1.now)) result (change_at version bytes.now) }
{
    let (key, rest) = read_key(bytes)?;
    let (value, rest) = read_held(version, rest)?;
    Ok(((key, value), rest))
}

/// The number of a member: 1 to 16.
pub fn read_member(bytes: &[u8]) -> Result<(u8, &[u8]), Miss>
    ensures { Gives (λ x. (x.0, x.1.now)) result (member_at bytes.now) }
{
    read_byte_within(1, MOST_MEMBERS, bytes)
}
