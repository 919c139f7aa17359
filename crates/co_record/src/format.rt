//! The limits of records, and what the two versions of their format differ in.
ghost use Rattle.std.specs.Prelude.{◌≡◌};
ghost use Rattle.co_record.specs.Format.{most_value};

use co_base::{Key, Value};

/// The version of a log that is still read.
pub const OLDEST_VERSION: u8 = 1;

/// The version of a log that is written.
pub const NEWEST_VERSION: u8 = 2;

/// The most letters of a key.
pub const MOST_KEY: u8 = Key::MOST as u8;

/// The most letters of a value in a version.
pub fn most_value(version: u8) -> u16
    ensures { result ≡ most_value version }
{
    if version == OLDEST_VERSION {
        256
    } else {
        Value::MOST as u16
    }
}
