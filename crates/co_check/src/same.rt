//! Replies that are the same.
ghost use Rattle.std.specs.Prelude.{◌≡◌, ◌≢◌, true, false};

use co_base::{Reply, Row, Value};

/// Whether two texts are the same.
fn same_text(one: &[u8], other: &[u8]) -> bool
    ensures same { result ≡ true → one.now ≡ other.now }
    ensures differs { result ≡ false → one.now ≢ other.now }
{
    one == other
}

/// Whether two values are the same, or both are missing.
pub fn same_value(one: &Option<Value>, other: &Option<Value>) -> bool
    ensures same { result ≡ true → one.now ≡ other.now }
    ensures differs { result ≡ false → one.now ≢ other.now }
{
    match one {
        None => other.is_none(),
        Some(value) => match other {
            None => false,
            Some(found) => same_text(value.text(), found.text()),
        },
    }
}

/// Whether two records are the same.
fn same_row(one: &Row, other: &Row) -> bool
    ensures same { result ≡ true → one.now ≡ other.now }
    ensures differs { result ≡ false → one.now ≢ other.now }
{
    same_text(one.key.text(), other.key.text()) && same_text(one.value.text(), other.value.text())
}

/// Whether two lists of records are the same.
fn same_rows(one: &[Row], other: &[Row]) -> bool
    ensures same { result ≡ true → one.now ≡ other.now }
    ensures differs { result ≡ false → one.now ≢ other.now }
{
    if one.len() != other.len() {
        return false;
    }
    for place in 0..one.len() {
        if !same_row(&one[place], &other[place]) {
            return false;
        }
    }
    true
}

/// Whether two replies are the same.
pub fn is_same(one: &Reply, other: &Reply) -> bool
    ensures same { result ≡ true → one.now ≡ other.now }
    ensures differs { result ≡ false → one.now ≢ other.now }
{
    match one {
        Reply::Done => match other {
            Reply::Done => true,
            _ => false,
        },
        Reply::Got(value) => match other {
            Reply::Got(found) => same_value(value, found),
            _ => false,
        },
        Reply::Rows(rows) => match other {
            Reply::Rows(found) => same_rows(rows.as_slice(), found.as_slice()),
            _ => false,
        },
    }
}
