//! The contract of all engines.
use crate::answers::{Dump, Seen};
use co_base::{Key, Kind, Range, Rows, Txn, Value};
use co_pairs::{Prepared, Sets};
use std::alloc::{AllocError, Global};

/// An engine keeps the records of one member and what its undecided transactions did.
///
/// `stands_for` says for which states an engine stands. Each clause holds for every such state in which
/// the call may be made; where it may not be made, a call is safe and promises nothing. After want of
/// memory an engine is only dropped.
pub trait Engine: Sized {
    ghost use Rattle.std.specs.Prelude.{◌≡◌, ℕ, IsTrue, IfOk, OnOk, option_copied};
    ghost use Rattle.co_base.specs.declared.head.Kind.{Kind};
    ghost use Rattle.co_base.specs.declared.op.Op.TheVariants.{Read, Scan};
    ghost use Rattle.co_pairs.specs.Free.{are_free};
    ghost use Rattle.co_state.specs.declared.engine_state.EngineState.{EngineState};
    ghost use Rattle.co_state.specs.EngineState.{is_undecided, sets_at};
    ghost use Rattle.co_state.specs.Effects.{after_operation, after_cast, after_install, after_drop, restored, records_from, dumped_rows, dumped_undos};
    ghost use Rattle.co_state.specs.StaleRead.{stale_key};
    ghost use Rattle.co_state.specs.Table.{Table, holds, no_entries};
    ghost use Rattle.co_engine.specs.Calls.{may_operate, seen_of, writing, votes_of};

    /// Which kinds of engines this one can be.
    ghost takes: { Kind → Type 0 };

    /// For which states the engine stands.
    ghost stands_for: { Self → EngineState → Type 0 };

    /// For each id that is pinned, how many installs there were at its pin. Only a `Pinning` engine has any.
    ghost pins: { Self → Table ℕ };

    /// A new engine with these records, no installs, no active transactions, no pins and these voted ones.
    fn restore(
        alloc: Global,
        kind: Kind,
        rows: Rows,
        voted: &[Prepared],
    ) -> Result<Self, AllocError>
        requires taken { takes kind }
        requires free { IsTrue (are_free voted.now) }
        ensures state { IfOk result (λ engine. stands_for engine (restored kind (records_from rows) (votes_of voted.now))) }
        ensures pins { IfOk result (λ engine. pins engine ≡ no_entries) };

    /// Reads a record, by a transaction that has neither voted nor been installed.
    fn read(&mut self, alloc: Global, t: Txn, key: &Key) -> Result<Seen, AllocError>
        ensures seen { (b : EngineState) → stands_for self.old b → IsTrue (may_operate b t) → IfOk result (λ seen. seen ≡ seen_of b t (Read key.now)) }
        ensures state { (b : EngineState) → stands_for self.old b → IsTrue (may_operate b t) → OnOk result (stands_for self.new (after_operation b t (Read key.now))) }
        ensures pins { pins self.new ≡ pins self.old };

    /// Reads the records of a range, by a transaction that has neither voted nor been installed.
    fn scan(&mut self, alloc: Global, t: Txn, range: &Range) -> Result<Seen, AllocError>
        ensures seen { (b : EngineState) → stands_for self.old b → IsTrue (may_operate b t) → IfOk result (λ seen. seen ≡ seen_of b t (Scan range.now)) }
        ensures state { (b : EngineState) → stands_for self.old b → IsTrue (may_operate b t) → OnOk result (stands_for self.new (after_operation b t (Scan range.now))) }
        ensures pins { pins self.new ≡ pins self.old };

    /// Writes a record, or takes it away where there is no value, by a transaction that has neither
    /// voted nor been installed.
    fn write(
        &mut self,
        alloc: Global,
        t: Txn,
        key: &Key,
        value: Option<&Value>,
    ) -> Result<Seen, AllocError>
        ensures seen { (b : EngineState) → stands_for self.old b → IsTrue (may_operate b t) → IfOk result (λ seen. seen ≡ seen_of b t (writing key.now (option_copied value.entry))) }
        ensures state { (b : EngineState) → stands_for self.old b → IsTrue (may_operate b t) → OnOk result (stands_for self.new (after_operation b t (writing key.now (option_copied value.entry)))) }
        ensures pins { pins self.new ≡ pins self.old };

    /// What an active or voted transaction read and wrote. Takes no memory.
    fn sets(&self, t: Txn) -> &Sets
        ensures { (b : EngineState) → stands_for self.now b → IsTrue (is_undecided b t) → result.now ≡ sets_at b t };

    /// The least key that an install wrote after an active transaction read it. Takes no memory.
    fn stale(&self, t: Txn) -> Option<&Key>
        ensures { (b : EngineState) → stands_for self.now b → IsTrue (holds b.active t) → option_copied result ≡ stale_key b t };

    /// Makes an active transaction a voted one, whatever coordinator asked and however many operations
    /// it counted. Takes no memory.
    fn cast(&mut self, t: Txn)
        ensures state { (b : EngineState) (coord count : ℕ) → stands_for self.old b → IsTrue (holds b.active t) → stands_for self.new (after_cast b t coord count) }
        ensures pins { pins self.new ≡ pins self.old };

    /// Commits a voted transaction.
    fn install(&mut self, alloc: Global, t: Txn) -> Result<(), AllocError>
        ensures state { (b : EngineState) → stands_for self.old b → IsTrue (holds b.voted t) → OnOk result (stands_for self.new (after_install b t)) }
        ensures pins { pins self.new ≡ pins self.old };

    /// Forgets an active or voted transaction. Takes no memory.
    fn drop_txn(&mut self, t: Txn)
        ensures state { (b : EngineState) → stands_for self.old b → IsTrue (is_undecided b t) → stands_for self.new (after_drop b t) }
        ensures pins { pins self.new ≡ pins self.old };

    /// The records as the engine keeps them, and the changes that lead back to the installed ones.
    fn dump(&self, alloc: Global) -> Result<Dump, AllocError>
        ensures rows { (b : EngineState) → stands_for self.now b → IfOk result (λ dump. dump.rows ≡ dumped_rows b.kind b) }
        ensures undos { (b : EngineState) → stands_for self.now b → IfOk result (λ dump. dump.undos ≡ dumped_undos b.kind b) };
}
