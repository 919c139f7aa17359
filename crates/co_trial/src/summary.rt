//! What a trial comes to.
ghost use Rattle.std.specs.Prelude.{◌≡◌, ◌++◌, string_bytes, IfOk, OnOk, OnErr};
ghost use Rattle.serde_json.specs.View.{view};
ghost use Rattle.serde_json.specs.Written.{compact_text};
ghost use Rattle.co_trial.specs.Line.{summary_value, summary_line};

use serde_json::{Value, json};
use std::alloc::{AllocError, Global};

/// The summary of a trial.
#[derive(Drop)]
pub struct Summary {
    /// How many transactions were begun.
    pub begun: u64,
    /// How many of them were decided commit.
    pub committed: u64,
    /// The SHA-256 of the whole transcript, as 64 hexadecimal digits in lower case.
    pub digest: String,
    /// Whether the durable records of every member are those of the serial run.
    pub equal: bool,
    /// How many events the trial had before it was settled.
    pub events: u32,
    /// The number of the trial.
    pub number: u64,
    /// How many transactions are open after settling.
    pub open: u64,
    /// How many events settling took.
    pub settled: u64,
}

impl Summary {
    /// What the summary says, as a value of JSON.
    fn value(&self, alloc: Global) -> Result<Value, AllocError>
        ensures { IfOk result (λ value. view value ≡ summary_value self.now) }
    {
        let digest = self.digest.as_str();
        json!(in alloc; {
            "begun": self.begun,
            "committed": self.committed,
            "digest": digest,
            "equal": self.equal,
            "events": self.events,
            "number": self.number,
            "open": self.open,
            "settled": self.settled
        })
    }

    /// The text of the summary, without a newline.
    fn text(&self, alloc: Global) -> Result<String, AllocError>
        ensures { IfOk result (λ text. string_bytes text ≡ compact_text (summary_value self.now)) }
    {
        self.value(alloc)?.to_string(alloc)
    }

    /// Appends the one line of the summary: compact JSON and a newline. Want of memory leaves the bytes as they were.
    pub fn put(&self, alloc: Global, into: &mut Vec<u8>) -> Result<(), AllocError>
        ensures ok { OnOk result (into.new.items ≡ into.old.items ++ summary_line self.now) }
        ensures err { OnErr result (into.new.items ≡ into.old.items) }
    {
        let mut line = self.text(alloc)?.into_bytes();
        line.push(b'\n')?;
        into.extend_from_slice(&line)
    }
}
