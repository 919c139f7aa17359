//! Changes of records.
ghost use Rattle.std.specs.Prelude.{◌≡◌, IfOk};

use crate::key::Key;
use crate::sequence::Sequence;
use crate::value::Value;
use std::alloc::AllocError;

/// One change of a record. A missing value is an erased or absent record.
#[derive(Drop)]
pub struct Written {
    /// The name of the record.
    pub key: Key,
    /// What it holds after the change.
    pub value: Option<Value>,
}

impl Written {
    /// An equal change.
    pub fn copy(&self) -> Result<Written, AllocError>
        ensures { IfOk result (λ change. change ≡ self.now) }
    {
        let value = match &self.value {
            Some(value) => Some(value.copy()?),
            None => None,
        };
        Ok(Written {
            key: self.key.copy()?,
            value,
        })
    }
}

/// A list of changes.
pub type Writes = Sequence<Written>;
