//! What a transaction was told of a record, and what it leaves there.
ghost use Rattle.std.specs.Prelude.{◌≡◌, ◌≢◌, true, false, ◌||◌, is_some, Some, Option};
ghost use Rattle.co_order_check.specs.Reads.{Content, left, left_by, value_in, tells, Reflects};

use crate::record_id::{RecordId, same_text};
use co_base::{Key, Op, Reply, Row, Value};
use co_check::{Answered, same_value};
use co_serial::Site;

/// Whether an operation writes or erases the record.
fn changes(id: &RecordId, site: &Site) -> bool
    ensures { (held : Option Content) → is_some (left_by id.now held site.now.member site.now.op) ≡ (is_some held || result) }
{
    match &site.op {
        Op::Write(key, _) => id.is(site.member, key),
        Op::Erase(key) => id.is(site.member, key),
        _ => false,
    }
}

/// Whether operations write or erase the record.
pub(crate) fn leaves(id: &RecordId, told: &[Answered]) -> bool
    ensures { result ≡ is_some (left id.now told.now) }
{
    let mut leaves = false;
    for operation in told {
        if changes(id, &operation.site) {
            leaves = true;
        }
    }
    leaves
}

/// Whether this is the value that stands there.
fn is_value(content: &Option<Value>, value: &Value) -> bool
    ensures same { result ≡ true → content.now ≡ Some value.now }
    ensures differs { result ≡ false → content.now ≢ Some value.now }
{
    match content {
        Some(found) => same_text(found.text(), value.text()),
        None => false,
    }
}

/// Whether it is left so by one more operation, where it was left so before or not.
fn is_left_by(id: &RecordId, site: &Site, content: &Option<Value>, was: bool) -> bool
    ensures { (held : Option Content) → Reflects was held content.now → Reflects result (left_by id.now held site.now.member site.now.op) content.now }
{
    match &site.op {
        Op::Write(key, value) => {
            if id.is(site.member, key) {
                is_value(content, value)
            } else {
                was
            }
        }
        Op::Erase(key) => {
            if id.is(site.member, key) {
                content.is_none()
            } else {
                was
            }
        }
        _ => was,
    }
}

/// Whether operations leave this in the record.
pub(crate) fn is_left(id: &RecordId, told: &[Answered], content: &Option<Value>) -> bool
    ensures { Reflects result (left id.now told.now) content.now }
{
    let mut is = false;
    for operation in told {
        is = is_left_by(id, &operation.site, content, is);
    }
    is
}

/// Whether rows give this for a key.
fn is_value_in(rows: &[Row], key: &Key, content: &Option<Value>) -> bool
    ensures { result ≡ true → value_in rows.now key.now ≡ content.now }
{
    for row in rows {
        if key.cmp(&row.key).is_eq() {
            return is_value(content, &row.value);
        }
    }
    content.is_none()
}

/// Whether an operation was told this of the record.
pub(crate) fn is_told(id: &RecordId, operation: &Answered, content: &Option<Value>) -> bool
    ensures { result ≡ true → tells id.now operation.now ≡ Some content.now }
{
    match &operation.site.op {
        Op::Read(key) => match &operation.reply {
            Reply::Got(value) => { id.is(operation.site.member, key) && same_value(value, content) }
            _ => false,
        },
        Op::Scan(range) => match &operation.reply {
            Reply::Rows(rows) => {
                operation.site.member == id.member
                    && range.has(&id.key)
                    && is_value_in(rows.as_slice(), &id.key, content)
            }
            _ => false,
        },
        _ => false,
    }
}
