//! Ranges and changes in their places among others.
ghost use Rattle.std.specs.Prelude.{◌≡◌, ◌≤◌, ◌<◌, ◌++◌, ◌∷◌, take, drop, length, slice_set, OnOk, MatchResult};
ghost use Rattle.co_state.specs.Changes.{put_span, put_change};

use co_base::{Range, Written};
use std::alloc::AllocError;
use std::cmp::Ordering;

/// Where the range stands among others, or else the place where it belongs.
fn place_of_range(ranges: &[Range], range: &Range) -> Result<usize, usize>
    ensures within { MatchResult result (λ place. place < length ranges.now) (λ place. place ≤ length ranges.now) }
    ensures put { MatchResult result (λ _. put_span range.now ranges.now ≡ ranges.now) (λ place. put_span range.now ranges.now ≡ take place ranges.now ++ range.now ∷ drop place ranges.now) }
{
    for (place, other) in ranges.iter().enumerate() {
        match range.cmp(other) {
            Ordering::Less => return Err(place),
            Ordering::Equal => return Ok(place),
            Ordering::Greater => {}
        }
    }
    Err(ranges.len())
}

/// Lays in a range in its place. A range that is there already is not laid in again.
pub fn put_range(ranges: &mut Vec<Range>, range: Range) -> Result<(), AllocError>
    ensures { OnOk result (ranges.new.items ≡ put_span range ranges.old.items) }
{
    match place_of_range(ranges.as_slice(), &range) {
        Ok(_) => {}
        Err(place) => ranges.insert(place, range)?,
    }
    Ok(())
}

/// Where a change of the key stands among others, or else the place where the change belongs.
fn place_of_change(changes: &[Written], change: &Written) -> Result<usize, usize>
    ensures within { MatchResult result (λ place. place < length changes.now) (λ place. place ≤ length changes.now) }
    ensures put { MatchResult result (λ place. put_change change.now changes.now ≡ slice_set changes.now place change.now) (λ place. put_change change.now changes.now ≡ take place changes.now ++ change.now ∷ drop place changes.now) }
{
    for (place, other) in changes.iter().enumerate() {
        match change.key.cmp(&other.key) {
            Ordering::Less => return Err(place),
            Ordering::Equal => return Ok(place),
            Ordering::Greater => {}
        }
    }
    Err(changes.len())
}

/// Lays in a change in its place. It replaces an earlier one of its key.
pub fn put_change(changes: &mut Vec<Written>, change: Written) -> Result<(), AllocError>
    ensures { OnOk result (changes.new.items ≡ put_change change changes.old.items) }
{
    match place_of_change(changes.as_slice(), &change) {
        Ok(place) => changes[place] = change,
        Err(place) => changes.insert(place, change)?,
    }
    Ok(())
}
