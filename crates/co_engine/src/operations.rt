//! Operations of an engine's calls, and values that they give.
ghost use Rattle.std.specs.Prelude.{◌≡◌, IfOk, option_copied};
ghost use Rattle.co_engine.specs.Calls.{writing};

use co_base::{Key, Op, Value};
use std::alloc::AllocError;

/// The operation that writes a record, or takes it away where there is no value.
pub fn writing(key: &Key, value: Option<&Value>) -> Result<Op, AllocError>
    ensures { IfOk result (λ op. op ≡ writing key.now (option_copied value.entry)) }
{
    match value {
        Some(value) => Ok(Op::Write(key.copy()?, value.copy()?)),
        None => Ok(Op::Erase(key.copy()?)),
    }
}

/// An equal value, if there is one.
pub fn copy_value(value: Option<&Value>) -> Result<Option<Value>, AllocError>
    ensures { IfOk result (λ copy. copy ≡ option_copied value.entry) }
{
    match value {
        Some(value) => Ok(Some(value.copy()?)),
        None => Ok(None),
    }
}
