//! A text that only clauses read.
ghost use Rattle.std.specs.Prelude.{◌≡◌, ◌++◌, List, ℕ, []};
ghost use Rattle.co_trace.specs.Past.{in_order};

use crate::trace::Trace;
use std::marker::Model;

/// The bytes that were noted, the oldest first. It has no bytes of its own.
#[derive(Drop)]
pub struct Text {
    bytes: Trace<u8>,
}

impl Model for Text {
    ghost Value = { List ℕ };

    ghost view = { λ text. in_order text.bytes };
}

impl Text {
    /// No byte was noted.
    pub fn new() -> Text
        ensures { result ≡ [] }
    {
        Text {
            bytes: Trace::new(),
        }
    }

    /// These bytes.
    pub fn of(bytes: &[u8]) -> Text
        ensures { result ≡ bytes.now }
    {
        let mut text = Text::new();
        text.note(bytes);
        text
    }

    /// Notes bytes, behind those before.
    pub fn note(&mut self, bytes: &[u8])
        ensures { self.new ≡ self.old ++ bytes.now }
    {
        for byte in bytes {
            self.bytes.note(*byte);
        }
    }
}
