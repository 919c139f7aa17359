//! The engine of any kind.
ghost use Rattle.co_any.specs.Standing.{StandsFor, pins_of};

use co_base::{Key, Kind, Range, Rows, Txn, Value};
use co_engine::{Dump, Engine, Pinned, Pinning, Seen};
use co_lock::LockEngine;
use co_mv::MvEngine;
use co_occ::OccEngine;
use co_pairs::{Prepared, Sets};
use std::alloc::{AllocError, Global};

/// An engine of one of the three kinds. It is restored with every kind, and each call goes to the engine of
/// that kind. Only the engine that keeps versions has pins.
#[derive(Drop)]
pub enum AnyEngine {
    /// Strict locking.
    Lock(LockEngine),
    /// Backward validation.
    Occ(OccEngine),
    /// Versions.
    Mv(MvEngine),
}

impl Engine for AnyEngine {
    ghost takes = { λ kind. Unit {0} };

    ghost stands_for = { StandsFor };

    ghost pins = { pins_of };

    fn restore(
        alloc: Global,
        kind: Kind,
        rows: Rows,
        voted: &[Prepared],
    ) -> Result<Self, AllocError> {
        match kind {
            Kind::Lock => Ok(AnyEngine::Lock(LockEngine::restore(alloc, kind, rows, voted)?)),
            Kind::Occ => Ok(AnyEngine::Occ(OccEngine::restore(alloc, kind, rows, voted)?)),
            Kind::Mv => Ok(AnyEngine::Mv(MvEngine::restore(alloc, kind, rows, voted)?)),
        }
    }

    fn read(&mut self, alloc: Global, t: Txn, key: &Key) -> Result<Seen, AllocError> {
        match self {
            AnyEngine::Lock(engine) => engine.read(alloc, t, key),
            AnyEngine::Occ(engine) => engine.read(alloc, t, key),
            AnyEngine::Mv(engine) => engine.read(alloc, t, key),
        }
    }

    fn scan(&mut self, alloc: Global, t: Txn, range: &Range) -> Result<Seen, AllocError> {
        match self {
            AnyEngine::Lock(engine) => engine.scan(alloc, t, range),
            AnyEngine::Occ(engine) => engine.scan(alloc, t, range),
            AnyEngine::Mv(engine) => engine.scan(alloc, t, range),
        }
    }

    fn write(
        &mut self,
        alloc: Global,
        t: Txn,
        key: &Key,
        value: Option<&Value>,
    ) -> Result<Seen, AllocError> {
        match self {
            AnyEngine::Lock(engine) => engine.write(alloc, t, key, value),
            AnyEngine::Occ(engine) => engine.write(alloc, t, key, value),
            AnyEngine::Mv(engine) => engine.write(alloc, t, key, value),
        }
    }

    fn sets(&self, t: Txn) -> &Sets {
        match self {
            AnyEngine::Lock(engine) => engine.sets(t),
            AnyEngine::Occ(engine) => engine.sets(t),
            AnyEngine::Mv(engine) => engine.sets(t),
        }
    }

    fn stale(&self, t: Txn) -> Option<&Key> {
        match self {
            AnyEngine::Lock(engine) => engine.stale(t),
            AnyEngine::Occ(engine) => engine.stale(t),
            AnyEngine::Mv(engine) => engine.stale(t),
        }
    }

    fn cast(&mut self, t: Txn) {
        match self {
            AnyEngine::Lock(engine) => engine.cast(t),
            AnyEngine::Occ(engine) => engine.cast(t),
            AnyEngine::Mv(engine) => engine.cast(t),
        }
    }

    fn install(&mut self, alloc: Global, t: Txn) -> Result<(), AllocError> {
        match self {
            AnyEngine::Lock(engine) => engine.install(alloc, t),
            AnyEngine::Occ(engine) => engine.install(alloc, t),
            AnyEngine::Mv(engine) => engine.install(alloc, t),
        }
    }

    fn drop_txn(&mut self, t: Txn) {
        match self {
            AnyEngine::Lock(engine) => engine.drop_txn(t),
            AnyEngine::Occ(engine) => engine.drop_txn(t),
            AnyEngine::Mv(engine) => engine.drop_txn(t),
        }
    }

    fn dump(&self, alloc: Global) -> Result<Dump, AllocError> {
        match self {
            AnyEngine::Lock(engine) => engine.dump(alloc),
            AnyEngine::Occ(engine) => engine.dump(alloc),
            AnyEngine::Mv(engine) => engine.dump(alloc),
        }
    }
}

impl Pinning for AnyEngine {
    fn pin(&mut self, alloc: Global, id: u32) -> Result<Pinned, AllocError> {
        match self {
            AnyEngine::Lock(_) => Ok(Pinned::NotMv),
            AnyEngine::Occ(_) => Ok(Pinned::NotMv),
            AnyEngine::Mv(engine) => engine.pin(alloc, id),
        }
    }

    fn look(&self, alloc: Global, id: u32, range: &Range) -> Result<Option<Rows>, AllocError> {
        match self {
            AnyEngine::Lock(_) => Ok(None),
            AnyEngine::Occ(_) => Ok(None),
            AnyEngine::Mv(engine) => engine.look(alloc, id, range),
        }
    }

    fn unpin(&mut self, id: u32) {
        match self {
            AnyEngine::Lock(_) => {}
            AnyEngine::Occ(_) => {}
            AnyEngine::Mv(engine) => engine.unpin(id),
        }
    }
}
