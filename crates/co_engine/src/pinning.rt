//! Readers that stay.
use crate::engine::Engine;
use co_base::{Range, Rows};
use std::alloc::{AllocError, Global};

/// What a pin comes to.
#[derive(Drop)]
pub enum Pinned {
    /// The records are kept as they were installed then.
    Kept,
    /// The id is pinned already, and nothing is changed.
    Taken,
    /// The engine keeps no versions, and nothing is changed.
    NotMv,
}

/// An engine whose readers may stay at one number of installs: each sees the records as they were installed at its pin, for as
/// long as it stays. A pin is no transaction: it changes no state that the engine stands for, casts no vote and holds nobody's.
///
/// Each clause holds for every state that the engine stands for. After want of memory an engine is only dropped.
pub trait Pinning: Engine {
    ghost use Rattle.std.specs.Prelude.{◌≡◌, IfOk, OnOk};
    ghost use Rattle.co_engine.specs.Pins.{HasPinned, pinned_rows};
    ghost use Rattle.co_state.specs.declared.engine_state.EngineState.{EngineState};
    ghost use Rattle.co_state.specs.Table.{look, without};

    /// Pins the installed records under an id, which its user chooses.
    fn pin(&mut self, alloc: Global, id: u32) -> Result<Pinned, AllocError>
        ensures pinned { (b : EngineState) → Self.stands_for self.old b → IfOk result (HasPinned b id (Self.pins self.old) (Self.pins self.new)) }
        ensures state { (b : EngineState) → Self.stands_for self.old b → OnOk result (Self.stands_for self.new b) };

    /// The records of a range as they were installed at the pin of an id, or none where the id is not pinned.
    fn look(&self, alloc: Global, id: u32, range: &Range) -> Result<Option<Rows>, AllocError>
        ensures { (b : EngineState) → Self.stands_for self.now b → IfOk result (λ rows. rows ≡ pinned_rows b range.now (look (Self.pins self.now) id)) };

    /// Ends the pin of an id; does nothing where it is not pinned. Takes no memory.
    fn unpin(&mut self, id: u32)
        ensures pins { Self.pins self.new ≡ without (Self.pins self.old) id }
        ensures state { (b : EngineState) → Self.stands_for self.old b → Self.stands_for self.new b };
}
