//! A list of calls that only clauses read.
ghost use Rattle.std.specs.Prelude.{◌≡◌, List, [], ◌∷◌};

use crate::past::Past;
use std::marker::Model;
use std::mem;
use std::snapshot::Snapshot;

/// The calls that were noted, the newest first. It has no bytes.
#[derive(Drop)]
pub struct Trace<C> {
    past: Snapshot<Past<C>>,
}

impl<C> Model for Trace<C> {
    ghost use Rattle.std.specs.Prelude.{List};
    ghost use Rattle.co_trace.specs.Past.{noted_in};

    ghost Value = { List C };

    ghost view = { λ trace. noted_in trace.past.value };
}

impl<C: Drop> Trace<C> {
    /// No call was noted.
    pub fn new() -> Trace<C>
        ensures { result ≡ [] }
    {
        Trace {
            past: Snapshot::of(&Past::Nothing),
        }
    }

    /// Notes a call.
    pub fn note(&mut self, call: C)
        ensures { self.new ≡ call ∷ self.old }
    {
        let earlier = mem::replace(&mut self.past, Snapshot::of(&Past::Nothing));
        self.past = Snapshot::of(&Past::Then(earlier, call));
    }
}
