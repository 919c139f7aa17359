//! Changes of the records of one member.
ghost use Rattle.std.specs.Prelude.{◌≡◌, ℕ, take, IfOk, OnOk, OnErr};
ghost use Rattle.co_serial.specs.Records.{with_change, with_changes};

use crate::record_map::RecordMap;
use co_base::{Key, Value, Written};
use std::alloc::{AllocError, Global};

impl RecordMap {
    /// Makes one change: a value is laid in, and no value takes the record away. Want of memory leaves
    /// the records as they were.
    pub fn change(&mut self, key: Key, value: Option<Value>) -> Result<(), AllocError>
        ensures ok { OnOk result (self.new ≡ with_change self.old key value) }
        ensures err { OnErr result (self.new ≡ self.old) }
    {
        match value {
            Some(value) => self.set(key, value),
            None => {
                self.remove(&key);
                Ok(())
            }
        }
    }

    /// Makes changes one after another, the first one first. After want of memory the records hold the
    /// first so many of them.
    pub fn lay(&mut self, changes: &[Written]) -> Result<(), AllocError>
        ensures ok { OnOk result (self.new ≡ with_changes self.old changes.now) }
        ensures err { OnErr result ((done : ℕ) × (self.new ≡ with_changes self.old (take done changes.now))) }
    {
        for change in changes {
            let change = change.copy()?;
            self.change(change.key, change.value)?;
        }
        Ok(())
    }
}
