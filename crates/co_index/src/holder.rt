//! Who is in the way of a vote.
ghost use Rattle.std.specs.Prelude.{◌≡◌};
ghost use Rattle.std.specs.FinMap as map;
ghost use Rattle.std.specs.FinMap.{entries};
ghost use Rattle.co_index.specs.Holding.{first_other, first_scanner, by_key, by_writes, by_range, by_reads, by_written};
ghost use Rattle.co_index.specs.Indexed.{IsIndexOf, AreApart};
ghost use Rattle.co_index.specs.Touching.{or_nobody};
ghost use Rattle.co_state.specs.Table.{lesser};
ghost use Rattle.co_state.specs.VotingRule.{holder_of};
ghost use Rattle.co_state.specs.declared.engine_state.EngineState.{EngineState};

use crate::index::Index;
use crate::touchers::no_greater;
use co_base::{Key, Range, Ranges, Txn, Written};
use co_pairs::Sets;
use co_state::{Table, lesser, reads_key, reads_meet};

/// The least other transaction of which a wide range has a key that was written, or the one that was found before
/// where that is less.
fn first_scanner(
    found: Option<Txn>,
    scanners: &Table<Ranges>,
    t: Txn,
    writes: &[Written],
) -> Option<Txn>
    ensures { result ≡ lesser found (first_scanner t writes.now scanners.now) }
{
    for (u, ranges) in scanners.iter() {
        if let Some(least) = no_greater(&found, *u) {
            return Some(least);
        }
        if *u != t && reads_meet(ranges.as_slice(), writes) {
            return Some(*u);
        }
    }
    found
}

impl Index {
    /// The least other one that read a key alone.
    fn first_reader(&self, t: Txn, key: &Key) -> Option<Txn>
        ensures { result ≡ first_other t (or_nobody (map.get self.now.readers key.now)) }
    {
        match self.readers.get(key) {
            Some(readers) => readers.first_other(t),
            None => None,
        }
    }

    /// The least of the one that was found before, the others that read a key alone, and the voted others that wrote
    /// it.
    fn by_key(&self, found: Option<Txn>, t: Txn, key: &Key) -> Option<Txn>
        ensures { result ≡ by_key self.now t found key.now }
    {
        let least = lesser(found, self.first_reader(t, key));
        match self.writers.get(key) {
            Some(writers) => writers.first_marked(least, t),
            None => least,
        }
    }

    /// The same for each key that was written.
    fn by_writes(&self, found: Option<Txn>, t: Txn, writes: &[Written]) -> Option<Txn>
        ensures { result ≡ by_writes self.now t found writes.now }
    {
        let mut least = found;
        for change in writes {
            least = self.by_key(least, t, &change.key);
        }
        least
    }

    /// The least of the one that was found before and the voted others that wrote a key of a range.
    fn by_range(&self, found: Option<Txn>, t: Txn, range: &Range) -> Option<Txn>
        ensures { result ≡ by_range self.now t found range.now }
    {
        let mut least = found;
        for (_, writers) in self.writers.within(range) {
            least = writers.first_marked(least, t);
        }
        least
    }

    /// The same for each range that was read.
    fn by_ranges(&self, found: Option<Txn>, t: Txn, reads: &[Range]) -> Option<Txn>
        ensures { result ≡ by_reads self.now t found reads.now }
    {
        let mut least = found;
        for range in reads {
            least = self.by_range(least, t, range);
        }
        least
    }

    /// The same, by each key that was written.
    fn by_written(&self, found: Option<Txn>, t: Txn, reads: &[Range]) -> Option<Txn>
        ensures { result ≡ by_written t reads.now found (entries self.now.writers) }
    {
        let mut least = found;
        for (key, writers) in self.writers.iter() {
            let lesser = writers.first_marked(least, t);
            if lesser != least && reads_key(reads, key) {
                least = lesser;
            }
        }
        least
    }

    /// The same, by the fewer of the ranges that were read and the keys that were written.
    fn by_reads(&self, found: Option<Txn>, t: Txn, reads: &[Range]) -> Option<Txn>
        ensures { result ≡ by_reads self.now t found reads.now }
    {
        if self.writers.len() < reads.len() {
            self.by_written(found, t, reads)
        } else {
            self.by_ranges(found, t, reads)
        }
    }

    /// The least transaction in the way of the vote of one that read and wrote this: another one that read a key
    /// which it wrote, or a voted one that wrote a key which it read or wrote. Takes no memory.
    pub fn holder(&self, t: Txn, own: &Sets) -> Option<Txn>
        ensures { (b : EngineState) → IsIndexOf self.now b → AreApart b → result ≡ holder_of b t own.now }
    {
        let by_writes = self.by_writes(None, t, own.writes());
        let by_reads = self.by_reads(by_writes, t, own.reads());
        first_scanner(by_reads, &self.scanners, t, own.writes())
    }
}
