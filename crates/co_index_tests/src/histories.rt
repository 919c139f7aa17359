//! Histories that look random, each played on the index and on plain tables, whose answers are compared.
use co_base::{BaseFault, Key, Op, Range, Txn, Value};
use co_engine::grow;
use co_index::Index;
use co_pairs::{Prepared, Sets};
use co_state::Table;
use std::alloc::{AllocError, Global};

/// The number that a history is made of, and how many steps it has.
type Row = (u64, u32);

const ROWS: [Row; 6] = [
    (1, 400),
    (2, 400),
    (3, 400),
    (17, 800),
    (99_991, 800),
    (18_446_744_073_709_551_615, 1_200),
];

/// How many transactions and keys there are: so few that most of them meet.
const TXNS: u64 = 6;

const KEYS: u64 = 5;

/// The index, and the same as plain tables: what each undecided transaction did, and who of them has voted.
#[derive(Drop)]
struct Played {
    alloc: Global,
    index: Index,
    sets: Table<Sets>,
    voted: Table<()>,
}

/// What happens to a transaction.
#[derive(Clone, Copy)]
enum Step {
    Reads,
    Writes,
    Scans,
    Erases,
    Votes,
    Leaves,
    Enters,
}

/// The next number of a history.
fn next(number: u64) -> u64 {
    number
        .wrapping_mul(6_364_136_223_846_793_005)
        .wrapping_add(1_442_695_040_888_963_407)
}

/// A step by a number: reads and writes most of all, and of the rest as many as keep some votes open.
fn step_of(number: u64) -> Step {
    match number / 1_073_741_824 % 16 {
        0 | 1 | 2 | 3 => Step::Reads,
        4 | 5 | 6 | 7 => Step::Writes,
        8 | 9 => Step::Scans,
        10 => Step::Erases,
        11 | 12 => Step::Votes,
        13 | 14 => Step::Leaves,
        _ => Step::Enters,
    }
}

/// One of the transactions, by a number.
fn txn_of(number: u64) -> Txn {
    let place = number / 34_359_738_368 % TXNS;
    Txn(place as u32)
}

/// One of the keys, by a number.
fn key_of(alloc: Global, number: u64) -> Result<Key, BaseFault> {
    let place = number / 549_755_813_888 % KEYS;
    Key::new(alloc, &[b'a' + place as u8])
}

/// A range from one key to another one.
fn range_of(alloc: Global, number: u64, other: u64) -> Result<Range, BaseFault> {
    let lo = key_of(alloc, number)?;
    let hi = key_of(alloc, other)?;
    if lo <= hi {
        Range::new(lo, hi)
    } else {
        Range::new(hi, lo)
    }
}

impl Played {
    fn new(alloc: Global) -> Played {
        Played {
            alloc,
            index: Index::new(alloc),
            sets: Table::new(alloc),
            voted: Table::new(alloc),
        }
    }

    /// A transaction that has not voted does an operation.
    fn does(&mut self, t: Txn, op: &Op) -> Result<(), AllocError> {
        if self.voted.contains(t) {
            return Ok(());
        }
        self.index.note(self.alloc, op, t)?;
        grow(self.alloc, &mut self.sets, t, op)
    }

    fn votes(&mut self, t: Txn) -> Result<(), AllocError> {
        match self.sets.get(t) {
            Some(own) => self.index.cast(own, t),
            None => return Ok(()),
        }
        self.voted.insert(t, ())
    }

    fn leaves(&mut self, t: Txn) {
        if let Some(own) = self.sets.remove(t) {
            self.index.forget(&own, t);
        }
        let _ = self.voted.remove(t);
    }

    /// A transaction that is not there enters, voted, with what it read and wrote.
    fn enters(&mut self, t: Txn, reads: Range, writes: Key) -> Result<(), AllocError> {
        if self.sets.contains(t) {
            return Ok(());
        }
        grow(self.alloc, &mut self.sets, t, &Op::Scan(reads))?;
        grow(self.alloc, &mut self.sets, t, &Op::Erase(writes))?;
        let sets = match self.sets.get(t) {
            Some(own) => own.copy(self.alloc)?,
            None => return Ok(()),
        };
        let vote = Prepared {
            txn: t,
            coord: 1,
            count: 2,
            sets,
        };
        self.index.enter(self.alloc, &vote)?;
        self.voted.insert(t, ())
    }

    /// One step, by two numbers of the history.
    fn goes(&mut self, number: u64, other: u64) -> Result<(), BaseFault> {
        let t = txn_of(number);
        let key = key_of(self.alloc, other)?;
        match step_of(number) {
            Step::Reads => self.does(t, &Op::Read(key))?,
            Step::Writes => {
                let value = Value::new(self.alloc, b"v")?;
                self.does(t, &Op::Write(key, value))?;
            }
            Step::Scans => {
                let range = range_of(self.alloc, number, other)?;
                self.does(t, &Op::Scan(range))?;
            }
            Step::Erases => self.does(t, &Op::Erase(key))?,
            Step::Votes => self.votes(t)?,
            Step::Leaves => self.leaves(t),
            Step::Enters => {
                let range = range_of(self.alloc, number, other)?;
                self.enters(t, range, key)?;
            }
        }
        Ok(())
    }

    /// Whether another transaction is in the way of one that did this.
    fn is_in_way(&self, u: Txn, other: &Sets, own: &Sets) -> bool {
        other.meets(own) || self.voted.contains(u) && (other.both(own) || own.meets(other))
    }

    /// The least other one in the way, looked for among all.
    fn plain_holder(&self, t: Txn, own: &Sets) -> Option<Txn> {
        for (u, other) in self.sets.iter() {
            if *u != t && self.is_in_way(*u, other, own) {
                return Some(*u);
            }
        }
        None
    }

    /// Whether the index finds for each transaction what is found among all.
    fn agrees(&self) -> bool {
        for (t, own) in self.sets.iter() {
            if self.index.holder(*t, own) != self.plain_holder(*t, own) {
                return false;
            }
        }
        true
    }

    /// Whether it does so after each step of a history.
    fn agrees_throughout(&mut self, row: &Row) -> Result<bool, BaseFault> {
        let mut number = row.0;
        for _ in 0..row.1 {
            let other = next(number);
            self.goes(number, other)?;
            if !self.agrees() {
                return Ok(false);
            }
            number = next(other);
        }
        Ok(true)
    }
}

/// Whether the index agrees throughout every history.
fn all_agree(alloc: Global) -> Result<bool, BaseFault> {
    for row in &ROWS {
        let mut played = Played::new(alloc);
        if !played.agrees_throughout(row)? {
            return Ok(false);
        }
    }
    Ok(true)
}

#[test]
fn the_index_finds_who_is_in_the_way(rt: HostRuntime) {
    assert!(rt; all_agree(rt.alloc()).unwrap_or(false));
}
