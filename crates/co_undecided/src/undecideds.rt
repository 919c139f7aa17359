//! The undecided transactions.
ghost use Rattle.std.specs.Prelude.{◌≡◌, ◌<◌, ◌+◌, IsTrue, false, List, ◌∷◌, ◌++◌, Some, IfOk, OnOk};
ghost use Rattle.co_pairs.specs.Free.{are_free, clashes_with};
ghost use Rattle.co_pairs.specs.Votes.{voted_of};
ghost use Rattle.co_pairs.specs.declared.prepared.Prepared.{Prepared};
ghost use Rattle.co_engine.specs.Calls.{may_operate, seen_of, votes_of};
ghost use Rattle.co_plain.specs.declared.member_state.AskedMark.{AskedMark};
ghost use Rattle.co_state.specs.declared.engine_state.EngineState.{EngineState};
ghost use Rattle.co_state.specs.Effects.{after_operation, after_cast, after_install, after_drop, restored, records_from, dumped_rows, dumped_undos};
ghost use Rattle.co_state.specs.EngineState.{is_undecided, sets_at};
ghost use Rattle.co_state.specs.Table.{Table, no_entries, look, put, without, holds};
ghost use Rattle.co_state.specs.VotingRule.{kept_count, vote_of};
ghost use Rattle.co_vote.specs.Ballots.{verdict_of};
ghost use Rattle.co_undecided.specs.Kept.{asked_in, coord_asked, kept_in, mark_at, next_open, vote_told};
ghost use Rattle.co_undecided.specs.Pins.{pins_in};
ghost use Rattle.co_undecided.specs.Represented.{Represents, HaveEntered, kept_at};

use crate::entries::Entries;
use crate::entry::{Entry, asked_of, coord_of, voted_of};
use co_base::{Kind, Op, Rows, Txn};
use co_engine::{Dump, Engine, Seen};
use co_index::Index;
use co_pairs::{Prepared, PreparedList, Sets};
use co_plain::AskedMark;
use co_vote::{Ballot, ballot};
use std::alloc::{AllocError, Global};

/// The undecided transactions of one member: those that are active or voted.
///
/// `Represents` says for which engine states and marks they stand. Each clause holds for every such state in which the call may be made. After want
/// of memory they are only dropped.
#[derive(Drop)]
pub struct Undecideds<E> {
    pub(crate) alloc: Global,
    pub(crate) engine: E,
    index: Index,
    entries: Entries,
}

/// An operation at an engine.
fn operate<E: Engine>(alloc: Global, engine: &mut E, t: Txn, op: &Op) -> Result<Seen, AllocError>
    ensures seen { (b : EngineState) → E.stands_for engine.old b → IsTrue (may_operate b t) → IfOk result (λ seen. seen ≡ seen_of b t op.now) }
    ensures state { (b : EngineState) → E.stands_for engine.old b → IsTrue (may_operate b t) → OnOk result (E.stands_for engine.new (after_operation b t op.now)) }
    ensures pins { E.pins engine.new ≡ E.pins engine.old }
{
    match op {
        Op::Read(key) => engine.read(alloc, t, key),
        Op::Write(key, value) => engine.write(alloc, t, key, Some(value)),
        Op::Erase(key) => engine.write(alloc, t, key, None),
        Op::Scan(range) => engine.scan(alloc, t, range),
    }
}

/// The entry of an active transaction after one more operation.
fn one_more(entry: Option<Entry>) -> Entry
    requires { kept_in entry < 65535 }
    ensures { result ≡ Entry.Active (kept_in entry + 1) (asked_in entry) }
{
    match entry {
        None => Entry::Active {
            kept: 1,
            asked: None,
        },
        Some(Entry::Active { kept, asked }) => Entry::Active {
            kept: kept + 1,
            asked,
        },
        Some(Entry::Voted { coord: _, count: _ }) => Entry::Active {
            kept: 1,
            asked: None,
        },
    }
}

/// A voted transaction enters, before those that entered so far, with which it has no conflict.
fn enter(
    alloc: Global,
    index: &mut Index,
    entries: &mut Entries,
    vote: &Prepared,
) -> Result<(), AllocError>
    ensures { (ps : List Prepared) → HaveEntered index.old entries.old ps → clashes_with vote.now ps ≡ false → OnOk result (HaveEntered index.new entries.new (vote.now ∷ ps)) }
{
    index.enter(alloc, vote)?;
    let entry = Entry::Voted {
        coord: vote.coord,
        count: vote.count,
    };
    entries.put(vote.txn, entry)
}

impl<E: Engine> Undecideds<E> {
    /// The undecided transactions of an engine with these records, where these have voted and none are active.
    pub fn restore(
        alloc: Global,
        kind: Kind,
        rows: Rows,
        voted: &[Prepared],
    ) -> Result<Undecideds<E>, AllocError>
        requires taken { E.takes kind }
        requires free { IsTrue (are_free voted.now) }
        ensures stands { IfOk result (λ u. Represents E.stands_for u (restored kind (records_from rows) (votes_of voted.now)) no_entries) }
        ensures pins { IfOk result (λ u. pins_in E.pins u ≡ no_entries) }
    {
        let mut index = Index::new(alloc);
        let mut entries = Entries::new(alloc);
        let mut left = voted.len();
        while left > 0 {
            left -= 1;
            match voted.get(left) {
                Some(vote) => enter(alloc, &mut index, &mut entries, vote)?,
                None => unreachable!(),
            }
        }
        let engine = E::restore(alloc, kind, rows, voted)?;
        Ok(Undecideds {
            alloc,
            engine,
            index,
            entries,
        })
    }

    /// How many operations of an active transaction were answered here; none of another one. Takes no memory.
    pub fn kept(&self, t: Txn) -> u16
        ensures shown { result ≡ kept_at self.now t }
        ensures counted { (b : EngineState) (asked : Table AskedMark) → Represents E.stands_for self.now b asked → result ≡ kept_count b t }
    {
        match self.entries.get(t) {
            Some(Entry::Active { kept, asked: _ }) => kept,
            Some(Entry::Voted { coord: _, count: _ }) => 0,
            None => 0,
        }
    }

    /// What asked for the vote of an active transaction, where that is held. Takes no memory.
    pub fn mark_of(&self, t: Txn) -> Option<AskedMark>
        ensures { (b : EngineState) (asked : Table AskedMark) → Represents E.stands_for self.now b asked → result ≡ look asked t }
    {
        asked_of(self.entries.get(t))
    }

    /// The coordinator that asked for the vote of a voted transaction. Takes no memory.
    pub fn coord_of(&self, t: Txn) -> Option<u8>
        ensures { (b : EngineState) (asked : Table AskedMark) → Represents E.stands_for self.now b asked → result ≡ coord_asked (look b.voted t) }
    {
        coord_of(self.entries.get(t))
    }

    /// Whether an undecided transaction has voted. Takes no memory.
    pub fn has_voted(&self, t: Txn) -> Option<bool>
        ensures { (b : EngineState) (asked : Table AskedMark) → Represents E.stands_for self.now b asked → result ≡ mark_at b t }
    {
        voted_of(self.entries.get(t))
    }

    /// The least undecided transaction above a number. Takes no memory.
    pub fn open_after(&self, after: Txn) -> Option<Txn>
        ensures { (b : EngineState) (asked : Table AskedMark) → Represents E.stands_for self.now b asked → result ≡ next_open b after }
    {
        let (t, _) = self.entries.above(after).next()?;
        Some(*t)
    }

    /// What an undecided transaction read and wrote here. Takes no memory.
    pub fn sets(&self, t: Txn) -> &Sets
        ensures { (b : EngineState) (asked : Table AskedMark) → Represents E.stands_for self.now b asked → IsTrue (is_undecided b t) → result.now ≡ sets_at b t }
    {
        self.engine.sets(t)
    }

    /// The records that a checkpoint has: those of the engine, and what undoes the ones that undecided transactions wrote in place.
    pub fn dump(&self) -> Result<Dump, AllocError>
        ensures rows { (b : EngineState) (asked : Table AskedMark) → Represents E.stands_for self.now b asked → IfOk result (λ dump. dump.rows ≡ dumped_rows b.kind b) }
        ensures undos { (b : EngineState) (asked : Table AskedMark) → Represents E.stands_for self.now b asked → IfOk result (λ dump. dump.undos ≡ dumped_undos b.kind b) }
    {
        self.engine.dump(self.alloc)
    }

    /// Adds the vote of an entry, where it has one.
    fn add_vote(&self, votes: &mut PreparedList, t: Txn, entry: &Entry) -> Result<(), AllocError>
        ensures { (b : EngineState) (asked : Table AskedMark) → Represents E.stands_for self.now b asked → look self.now.entries t ≡ Some entry.now →
            OnOk result (votes.new ≡ votes.old ++ vote_told (sets_at b) t entry.now) }
    {
        match entry {
            Entry::Active { kept: _, asked: _ } => Ok(()),
            Entry::Voted { coord, count } => votes.push(Prepared {
                txn: t,
                coord: *coord,
                count: *count,
                sets: self.sets(t).copy(self.alloc)?,
            }),
        }
    }

    /// The voted transactions, ascending by number, each with what it read and wrote here.
    pub fn voted(&self) -> Result<PreparedList, AllocError>
        ensures { (b : EngineState) (asked : Table AskedMark) → Represents E.stands_for self.now b asked → IfOk result (λ votes. votes ≡ voted_of b.voted) }
    {
        let mut votes = PreparedList::new(self.alloc);
        for (t, entry) in self.entries.iter() {
            self.add_vote(&mut votes, *t, entry)?;
        }
        Ok(votes)
    }

    /// An operation of a transaction that has neither voted nor been installed; fewer than 65,535 of its operations are kept.
    pub fn op(&mut self, t: Txn, op: &Op) -> Result<Seen, AllocError>
        requires { kept_at self.old t < 65535 }
        ensures seen { (b : EngineState) (asked : Table AskedMark) → Represents E.stands_for self.old b asked → IsTrue (may_operate b t) → IfOk result (λ seen. seen ≡ seen_of b t op.now) }
        ensures stands { (b : EngineState) (asked : Table AskedMark) → Represents E.stands_for self.old b asked → IsTrue (may_operate b t) → OnOk result (Represents E.stands_for self.new (after_operation b t op.now) asked) }
        ensures pins { pins_in E.pins self.new ≡ pins_in E.pins self.old }
    {
        let entry = one_more(self.entries.get(t));
        let seen = operate(self.alloc, &mut self.engine, t, op)?;
        match seen {
            Seen::Blocked(u) => Ok(Seen::Blocked(u)),
            Seen::Answer(reply) => {
                self.index.note(self.alloc, op, t)?;
                self.entries.put(t, entry)?;
                Ok(Seen::Answer(reply))
            }
        }
    }

    /// The ballot on a transaction that has not voted, where its client saw so many operations answered here: the voting rule of
    /// commitment ordering (Raz, VLDB 1992). Takes no memory.
    pub fn ballot(&self, t: Txn, carried: u16) -> Ballot<'_>
        ensures { (b : EngineState) (asked : Table AskedMark) → Represents E.stands_for self.now b asked → holds b.voted t ≡ false → verdict_of result ≡ vote_of b t carried }
    {
        let kept = self.kept(t);
        if kept == 0 {
            return ballot(kept, carried, None, None);
        }
        let holder = self.index.holder(t, self.engine.sets(t));
        ballot(kept, carried, self.engine.stale(t), holder)
    }

    /// An active transaction was asked for its vote, which is held. Takes no memory.
    pub fn mark(&mut self, t: Txn, mark: AskedMark)
        ensures stands { (b : EngineState) (asked : Table AskedMark) → Represents E.stands_for self.old b asked → IsTrue (holds b.active t) → holds b.voted t ≡ false → Represents E.stands_for self.new b (put asked t mark) }
        ensures pins { pins_in E.pins self.new ≡ pins_in E.pins self.old }
    {
        let kept = self.kept(t);
        self.entries.change(
            t,
            Entry::Active {
                kept,
                asked: Some(mark),
            },
        );
    }

    /// An active transaction votes yes, as this coordinator asked, with so many operations. Takes no memory.
    pub fn cast(&mut self, t: Txn, coord: u8, count: u16)
        ensures stands { (b : EngineState) (asked : Table AskedMark) → Represents E.stands_for self.old b asked → IsTrue (holds b.active t) → holds b.voted t ≡ false → Represents E.stands_for self.new (after_cast b t coord count) (without asked t) }
        ensures pins { pins_in E.pins self.new ≡ pins_in E.pins self.old }
    {
        self.index.cast(self.engine.sets(t), t);
        self.engine.cast(t);
        self.entries.change(t, Entry::Voted { coord, count });
    }

    /// A voted transaction is committed.
    pub fn install(&mut self, t: Txn) -> Result<(), AllocError>
        ensures stands { (b : EngineState) (asked : Table AskedMark) → Represents E.stands_for self.old b asked → IsTrue (holds b.voted t) → holds b.active t ≡ false → OnOk result (Represents E.stands_for self.new (after_install b t) asked) }
        ensures pins { pins_in E.pins self.new ≡ pins_in E.pins self.old }
    {
        self.index.forget(self.engine.sets(t), t);
        self.engine.install(self.alloc, t)?;
        self.entries.take(t);
        Ok(())
    }

    /// An undecided transaction is dropped. Takes no memory.
    pub fn drop_txn(&mut self, t: Txn)
        ensures stands { (b : EngineState) (asked : Table AskedMark) → Represents E.stands_for self.old b asked → IsTrue (is_undecided b t) → Represents E.stands_for self.new (after_drop b t) (without asked t) }
        ensures pins { pins_in E.pins self.new ≡ pins_in E.pins self.old }
    {
        self.index.forget(self.engine.sets(t), t);
        self.engine.drop_txn(t);
        self.entries.take(t);
    }
}
