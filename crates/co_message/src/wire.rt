//! The messages that were sent.
ghost use Rattle.std.specs.Prelude.{◌≡◌, ◌≢◌, ◌↔◌, ◌<◌, Some, [], true, false, length, reverse, slice_get, OnOk, OnErr, IsOk, IsErrOf};
ghost use Rattle.co_message.specs.Sent.{was_sent, send_one};

use crate::message::Message;
use indexmap::IndexSet;
use std::alloc::{AllocError, Global};
use std::marker::Model;
use thiserror::Error;

/// Why a message cannot be delivered.
#[derive(Debug, Drop, Error)]
pub enum WireFault {
    /// The message was never sent.
    #[error("the message was never sent")]
    Unsent,
}

/// The set of the messages that were sent, in the order of their first sending.
///
/// It forgets nothing, since a message may be delivered late and again. A contract sees the list of the
/// distinct messages, the newest one first.
#[derive(Drop)]
pub struct Wire {
    sent: IndexSet<Message>,
}

impl Model for Wire {
    ghost use Rattle.std.specs.Prelude.{List, reverse};
    ghost use Rattle.co_message.specs.declared.message.Message.{Message};

    ghost Value = { List Message };

    ghost view = { λ w. reverse w.sent.keys };
}

impl Wire {
    /// No message was sent. Takes no memory.
    pub fn new(alloc: Global) -> Wire
        ensures { result ≡ [] }
    {
        Wire {
            sent: IndexSet::new(alloc),
        }
    }

    /// Adds a message. One that was sent before keeps its place. Want of memory leaves the wire as it was.
    pub fn send(&mut self, message: Message) -> Result<(), AllocError>
        ensures ok { OnOk result (self.new ≡ send_one self.old message) }
        ensures err { OnErr result (self.new ≡ self.old) }
    {
        self.sent.insert(message)?;
        Ok(())
    }

    /// How many distinct messages were sent.
    pub fn len(&self) -> usize
        ensures { result ≡ length self.now }
    {
        self.sent.len()
    }

    /// The message at a place, counted from 0 in the order of first sending.
    pub fn at(&self, place: usize) -> &Message
        requires { place < length self.now }
        ensures { slice_get (reverse self.now) place ≡ Some result.now }
    {
        &self.sent.as_slice()[place]
    }

    /// Asks for a message, to deliver it: `Unsent` exactly where it was never sent. Takes no memory.
    pub fn get(&self, message: &Message) -> Result<(), WireFault>
        ensures ok { IsOk result ↔ (was_sent self.now message.now ≡ true) }
        ensures unsent { IsErrOf result WireFault.Unsent ↔ (was_sent self.now message.now ≡ false) }
    {
        if self.sent.contains(message) {
            Ok(())
        } else {
            Err(WireFault::Unsent)
        }
    }
}
