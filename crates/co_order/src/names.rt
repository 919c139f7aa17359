//! Numbers of the records and the values that transactions left.
use co_base::{Key, Op, Range, Value};
use co_check::{Answered, Committed};
use co_order_check::RecordId;
use std::alloc::{AllocError, Global};
use std::cmp::Ordering;
use std::collections::BTreeMap;

/// The records that are written, and the values that were left.
#[derive(Drop)]
pub(crate) struct Names {
    /// The records: the members ascending, and the keys of each. Its place is the number of a record.
    pub(crate) records: Vec<RecordId>,
    /// How many records were written before each, in the order of the transactions and their operations.
    pub(crate) turns: Vec<usize>,
    values: BTreeMap<Value, usize>,
}

/// How a record stands to that of a key of a member.
fn standing(record: &RecordId, member: u8, key: &Key) -> Ordering {
    let members = record.member.cmp(&member);
    if members.is_eq() {
        record.key.cmp(key)
    } else {
        members
    }
}

impl Names {
    /// The place of a record, or else the one where it belongs.
    fn place(&self, member: u8, key: &Key) -> Result<usize, usize> {
        self.records
            .as_slice()
            .binary_search_by(|record| standing(record, member, key))
    }

    /// The number of a record that is written.
    pub(crate) fn record(&self, member: u8, key: &Key) -> Option<usize> {
        match self.place(member, key) {
            Ok(record) => Some(record),
            Err(_) => None,
        }
    }

    /// The number of the first written record of a range, and the one past its last.
    pub(crate) fn span(&self, member: u8, range: &Range) -> (usize, usize) {
        let (lo, hi) = range.bounds();
        let first = match self.place(member, lo) {
            Ok(record) => record,
            Err(place) => place,
        };
        let past = match self.place(member, hi) {
            Ok(record) => record.saturating_add(1),
            Err(place) => place,
        };
        (first, past)
    }

    /// The number of a value that was left, from 1 on.
    pub(crate) fn value(&self, value: &Value) -> Option<usize> {
        let number = self.values.get(value)?;
        Some(*number)
    }
}

/// The keys that are written at each member, with how many records were written before, and the numbers of the values.
#[derive(Drop)]
struct Written {
    alloc: Global,
    members: Vec<BTreeMap<Key, usize>>,
    count: usize,
    values: BTreeMap<Value, usize>,
}

impl Written {
    /// Takes in a record.
    fn add_record(&mut self, member: u8, key: &Key) -> Result<(), AllocError> {
        for _ in 0..256 {
            if self.members.len() > usize::from(member) {
                break;
            }
            self.members.push(BTreeMap::new(self.alloc))?;
        }
        let copy = key.copy()?;
        if let Some(keys) = self.members.get_mut(usize::from(member)) {
            if keys.get(key).is_none() {
                keys.insert(copy, self.count)?;
                self.count = self.count.saturating_add(1);
            }
        }
        Ok(())
    }

    /// Takes in a value.
    fn add_value(&mut self, value: &Value) -> Result<(), AllocError> {
        if self.values.get(value).is_some() {
            return Ok(());
        }
        let number = self.values.len().saturating_add(1);
        self.values.insert(value.copy()?, number)?;
        Ok(())
    }

    /// Takes in what operations write.
    fn add_all(&mut self, told: &[Answered]) -> Result<(), AllocError> {
        for operation in told {
            match &operation.site.op {
                Op::Write(key, value) => {
                    self.add_record(operation.site.member, key)?;
                    self.add_value(value)?;
                }
                Op::Erase(key) => self.add_record(operation.site.member, key)?,
                _ => {}
            }
        }
        Ok(())
    }

    /// Numbers the records.
    fn numbered(self) -> Result<Names, AllocError> {
        let mut records = Vec::new(self.alloc);
        let mut turns = Vec::new(self.alloc);
        for member in 0..=u8::MAX {
            if let Some(keys) = self.members.get(usize::from(member)) {
                for (key, turn) in keys.iter() {
                    let key = key.copy()?;
                    records.push(RecordId { member, key })?;
                    turns.push(*turn)?;
                }
            }
        }
        Ok(Names {
            records,
            turns,
            values: self.values,
        })
    }
}

/// The records and the values that the transactions wrote, in the order of these places.
pub(crate) fn names_of(
    alloc: Global,
    history: &[Committed],
    places: &[usize],
) -> Result<Names, AllocError> {
    let mut written = Written {
        alloc,
        members: Vec::new(alloc),
        count: 0,
        values: BTreeMap::new(alloc),
    };
    for place in places {
        if let Some(committed) = history.get(*place) {
            written.add_all(committed.told.oldest_first())?;
        }
    }
    written.numbered()
}
