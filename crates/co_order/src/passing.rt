//! What the scans of a transaction pass over: every record of their ranges that they do not give is read as missing. Records are told by
//! ranges of their numbers, so that a scan takes the room of a few of them, however many records it passes over.
use std::alloc::{AllocError, Global};
use std::collections::BTreeMap;

/// Records in the range of a scan.
#[derive(Clone, Copy, PartialEq, Eq, PartialOrd, Ord)]
pub(crate) struct Span {
    /// The first one.
    pub(crate) first: usize,
    /// The place of the scan among the operations of its transaction.
    pub(crate) place: usize,
    /// The one past the last.
    pub(crate) past: usize,
    /// The event.
    pub(crate) line: u32,
}

/// Parts the records of scans by the first scan that has each. The parts ascend.
pub(crate) fn by_first_scan(alloc: Global, mut scans: Vec<Span>) -> Result<Vec<Span>, AllocError> {
    scans.as_mut_slice().sort_unstable();
    let mut parts = Vec::new(alloc);
    let mut open: BTreeMap<usize, Span> = BTreeMap::new(alloc);
    let mut next = 0usize;
    let mut at = 0usize;
    // Each scan is opened and shut once, and ends a gap and two parts at most.
    for _ in 0..=scans.len().saturating_mul(5) {
        let behind = match scans.get(next) {
            Some(scan) => Some(*scan),
            None => None,
        };
        if let Some(scan) = behind {
            if scan.first <= at {
                open.insert(scan.place, scan)?;
                next = next.saturating_add(1);
                continue;
            }
        }
        let now = match open.iter().next() {
            Some((_, scan)) => Some(*scan),
            None => None,
        };
        match (now, behind) {
            (None, None) => break,
            (None, Some(scan)) => at = scan.first,
            (Some(scan), _) => {
                if scan.past <= at {
                    let _ = open.remove(&scan.place);
                    continue;
                }
                let past = match behind {
                    Some(then) => then.first.min(scan.past),
                    None => scan.past,
                };
                parts.push(Span {
                    first: at,
                    past,
                    place: scan.place,
                    line: scan.line,
                })?;
                at = past;
            }
        }
    }
    Ok(parts)
}

/// The part of a record, of parts that ascend.
pub(crate) fn part_of(parts: &[Span], record: usize) -> Option<Span> {
    let place = match parts.binary_search_by(|part| part.first.cmp(&record)) {
        Ok(place) => place,
        Err(place) => place.saturating_sub(1),
    };
    let part = parts.get(place)?;
    if part.first <= record && record < part.past {
        Some(*part)
    } else {
        None
    }
}
