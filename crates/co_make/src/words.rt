//! Keys and values of a trial.
ghost use Rattle.std.specs.Prelude.{◌≡◌, ◌<◌, ◌^◌, IfOk};
ghost use Rattle.co_base.specs.Letters.{IsText, most_key_bytes, most_value_bytes};
ghost use Rattle.co_make.specs.Making.{key_text, value_text};

use co_base::{BaseFault, Key, Value};
use itoa::Buffer;
use std::alloc::{AllocError, Global};

/// The key `k00` to `k19`.
pub(crate) fn key(alloc: Global, number: u8) -> Result<Key, AllocError>
    requires { number < 20 }
    ensures { IfOk result (λ key. key ≡ key_text number) }
{
    match Key::new(alloc, &[b'k', b'0' + number / 10, b'0' + number % 10]) {
        Ok(key) => Ok(key),
        Err(BaseFault::Memory) => Err(AllocError),
        Err(BaseFault::Length) => unreachable!(),
        Err(BaseFault::Letter) => unreachable!(),
        Err(BaseFault::Order) => unreachable!(),
    }
}

/// The value of the write with this number.
pub(crate) fn value(alloc: Global, number: u32) -> Result<Value, AllocError>
    ensures { IfOk result (λ value. value ≡ value_text number) }
{
    let mut text = Vec::from_slice(alloc, b"v")?;
    text.extend_from_slice(Buffer::new().format(number).as_bytes())?;
    match Value::new(alloc, &text) {
        Ok(value) => Ok(value),
        Err(BaseFault::Memory) => Err(AllocError),
        Err(BaseFault::Length) => unreachable!(),
        Err(BaseFault::Letter) => unreachable!(),
        Err(BaseFault::Order) => unreachable!(),
    }
}
