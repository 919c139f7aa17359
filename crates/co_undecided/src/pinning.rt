//! Readers that stay.
ghost use Rattle.std.specs.Prelude.{◌≡◌, IfOk, OnOk};
ghost use Rattle.co_engine.specs.Pins.{HasPinned, pinned_rows};
ghost use Rattle.co_plain.specs.declared.member_state.AskedMark.{AskedMark};
ghost use Rattle.co_state.specs.declared.engine_state.EngineState.{EngineState};
ghost use Rattle.co_state.specs.Table.{Table, look, without};
ghost use Rattle.co_undecided.specs.Pins.{pins_in};
ghost use Rattle.co_undecided.specs.Represented.{Represents};

use crate::undecideds::Undecideds;
use co_base::{Range, Rows};
use co_engine::{Pinned, Pinning};
use std::alloc::AllocError;

impl<E: Pinning> Undecideds<E> {
    /// Pins the installed records under an id, which its user chooses. No transaction is changed.
    pub fn pin(&mut self, id: u32) -> Result<Pinned, AllocError>
        ensures pinned { (b : EngineState) (asked : Table AskedMark) → Represents E.stands_for self.old b asked → IfOk result (HasPinned b id (pins_in E.pins self.old) (pins_in E.pins self.new)) }
        ensures stands { (b : EngineState) (asked : Table AskedMark) → Represents E.stands_for self.old b asked → OnOk result (Represents E.stands_for self.new b asked) }
    {
        self.engine.pin(self.alloc, id)
    }

    /// The records of a range as they were installed at the pin of an id, or none where the id is not pinned.
    pub fn look(&self, id: u32, range: &Range) -> Result<Option<Rows>, AllocError>
        ensures { (b : EngineState) (asked : Table AskedMark) → Represents E.stands_for self.now b asked → IfOk result (λ rows. rows ≡ pinned_rows b range.now (look (pins_in E.pins self.now) id)) }
    {
        self.engine.look(self.alloc, id, range)
    }

    /// Ends the pin of an id; does nothing where it is not pinned. Takes no memory.
    pub fn unpin(&mut self, id: u32)
        ensures pins { pins_in E.pins self.new ≡ without (pins_in E.pins self.old) id }
        ensures stands { (b : EngineState) (asked : Table AskedMark) → Represents E.stands_for self.old b asked → Represents E.stands_for self.new b asked }
    {
        self.engine.unpin(id);
    }
}
