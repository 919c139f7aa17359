//! Where what a transaction read from others comes from.
use std::alloc::AllocError;
use std::collections::BTreeMap;

/// A record with what stood there: 0 where it was missing, else the number of a value, from 1 on.
#[derive(Clone, Copy, PartialEq, Eq, PartialOrd, Ord)]
pub(crate) struct Version {
    pub(crate) record: usize,
    pub(crate) content: usize,
}

/// The first transactions that left a version.
#[derive(Clone, Copy)]
pub(crate) struct Writers {
    first: usize,
    second: Option<usize>,
    third: bool,
}

/// Where what was read from others comes from.
#[derive(Clone, Copy, PartialEq, Eq)]
pub(crate) enum Source {
    /// No transaction left anything there.
    Start,
    /// This transaction left it.
    One(usize),
    /// More than one may have.
    Many,
}

/// Adds a transaction to those that left a version.
pub(crate) fn add_writer(
    versions: &mut BTreeMap<Version, Writers>,
    version: Version,
    txn: usize,
) -> Result<(), AllocError> {
    let writers = match versions.get(&version) {
        None => Writers {
            first: txn,
            second: None,
            third: false,
        },
        Some(found) => match found.second {
            None => Writers {
                first: found.first,
                second: Some(txn),
                third: false,
            },
            Some(second) => Writers {
                first: found.first,
                second: Some(second),
                third: true,
            },
        },
    };
    versions.insert(version, writers)?;
    Ok(())
}

/// Which other transaction left a version; none where no other did.
fn other_writer(writers: &Writers, reader: usize) -> Option<Source> {
    match writers.second {
        None => {
            if writers.first == reader {
                None
            } else {
                Some(Source::One(writers.first))
            }
        }
        Some(second) => {
            if writers.third {
                Some(Source::Many)
            } else if writers.first == reader {
                Some(Source::One(second))
            } else if second == reader {
                Some(Source::One(writers.first))
            } else {
                Some(Source::Many)
            }
        }
    }
}

/// Where a version comes from that a transaction read; none where no other left it.
pub(crate) fn source_of(
    versions: &BTreeMap<Version, Writers>,
    record: usize,
    content: usize,
    reader: usize,
) -> Option<Source> {
    let found = match versions.get(&Version { record, content }) {
        None => None,
        Some(writers) => other_writer(writers, reader),
    };
    if content > 0 {
        return found;
    }
    match found {
        None => Some(Source::Start),
        Some(_) => Some(Source::Many),
    }
}
