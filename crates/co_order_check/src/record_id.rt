//! Names of records.
ghost use Rattle.std.specs.Prelude.{◌≡◌, ◌≢◌, true, false, IfOk};
ghost use Rattle.co_order_check.specs.Reads.{is_record};

use co_base::Key;
use std::alloc::AllocError;

/// A record of one of the members.
#[derive(Drop)]
pub struct RecordId {
    /// The number of the member.
    pub member: u8,
    /// The key.
    pub key: Key,
}

impl RecordId {
    /// Whether it is the record of this key of the member.
    pub fn is(&self, member: u8, key: &Key) -> bool
        ensures { result ≡ is_record self.now member key.now }
    {
        member == self.member && self.key.cmp(key).is_eq()
    }

    /// The same record.
    pub fn copy(&self) -> Result<RecordId, AllocError>
        ensures { IfOk result (λ copy. copy ≡ self.now) }
    {
        Ok(RecordId {
            member: self.member,
            key: self.key.copy()?,
        })
    }

    /// Whether two records are the same.
    pub(crate) fn is_same(&self, other: &RecordId) -> bool
        ensures { result ≡ true → self.now ≡ other.now }
    {
        self.member == other.member && same_text(self.key.text(), other.key.text())
    }
}

/// Whether two texts are the same.
pub(crate) fn same_text(one: &[u8], other: &[u8]) -> bool
    ensures same { result ≡ true → one.now ≡ other.now }
    ensures differs { result ≡ false → one.now ≢ other.now }
{
    one == other
}
