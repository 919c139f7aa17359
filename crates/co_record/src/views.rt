//! The walk over the records of a log text.
ghost use Rattle.std.specs.Prelude.{◌≡◌, ℕ, ◌+◌, ◌-◌, ◌<◌, ◌≤◌, List, [], length, IfSome, MatchOption};
ghost use Rattle.co_base.specs.Limits.{most_log_bytes};
ghost use Rattle.co_frame.specs.LogText.{IsLogText};
ghost use Rattle.co_record.specs.declared.record.Record.{Record};
ghost use Rattle.co_record.specs.Lent.{record_of};
ghost use Rattle.co_record.specs.Spelling.{IsSpelled};
ghost use Rattle.co_record.specs.Format.{IsVersion};
ghost use Rattle.co_record.specs.Stored.{RecordWalk, HasRecords, HasLeft, Lends, unread, version_of, version_in};

use crate::format::{NEWEST_VERSION, OLDEST_VERSION};
use crate::read::read_record;
use crate::view::RecordView;
use co_frame::Batches;
use std::marker::Model;

/// The version of the file that begins with this batch: the byte behind the kind of its first record says it.
fn version_of(batch: &[u8]) -> u8
    ensures { result ≡ version_of batch.now }
{
    match batch {
        [_, version, ..] if *version == NEWEST_VERSION => NEWEST_VERSION,
        _ => OLDEST_VERSION,
    }
}

/// The version in which all records of a log text are read, of at most 268,435,456 bytes: 2 where the second byte
/// of its first record is `02`, or where it has no batch, and else 1.
pub fn text_version(bytes: &[u8]) -> u8
    requires { length bytes.now ≤ most_log_bytes }
    ensures version { IsVersion result }
    ensures text { (batches : List (List ℕ)) → IsLogText bytes.now batches → result ≡ version_in batches }
{
    match Batches::new(bytes).next() {
        Some(Ok(batch)) => version_of(batch.records),
        Some(Err(_)) => NEWEST_VERSION,
        None => NEWEST_VERSION,
    }
}

/// A walk over the records of a log text, each lent with its place. A contract sees the version of the records, the
/// walk over the batches, and the place and the bytes that are left of the batch at hand.
#[derive(Drop)]
pub struct Views<'a> {
    version: u8,
    batches: Batches<'a>,
    at: usize,
    rest: &'a [u8],
}

impl<'a> Model for Views<'a> {
    ghost use Rattle.std.specs.Prelude.{◌≤◌, ◌+◌, length};
    ghost use Rattle.co_base.specs.Limits.{most_log_bytes};
    ghost use Rattle.co_record.specs.Format.{IsVersion};
    ghost use Rattle.co_record.specs.Stored.{RecordWalk};

    ghost Value = { RecordWalk };

    ghost view = { λ v. record { version = v.version; gates = v.batches; at = v.at; rest = v.rest.now } };

    ghost invariant = { λ v. IsVersion v.version × (length v.batches.source ≤ most_log_bytes) × (v.at + length v.rest.now ≤ most_log_bytes) };
}

/// The place and the bytes where the next record stands: what is left of the batch at hand, or the next
/// batch.
fn next_bytes<'a>(batches: &mut Batches<'a>, at: usize, rest: &'a [u8]) -> Option<(usize, &'a [u8])>
    requires source { length batches.old.source ≤ most_log_bytes }
    requires size { at + length rest.now ≤ most_log_bytes }
    ensures source { batches.new.source ≡ batches.old.source }
    ensures size { IfSome result (λ found. found.0 + length found.1.now ≤ most_log_bytes) }
    ensures shorter { IfSome result (λ found. (0 < length found.1.now) × ((length batches.new.source - batches.new.at) + length found.1.now ≤ (length batches.old.source - batches.old.at) + length rest.now)) }
    ensures left { (version : ℕ) (items : List (ℕ × Record)) → HasLeft (record { version = version; gates = batches.old; at = at; rest = rest.now }) items →
        MatchOption result (items ≡ []) (λ found. HasLeft (record { version = version; gates = batches.new; at = found.0; rest = found.1.now }) items × (0 < length found.1.now)) }
{
    if rest.len() > 0 {
        return Some((at, rest));
    }
    match batches.next() {
        Some(Ok(batch)) => Some((batch.at as usize, batch.records)),
        Some(Err(_)) => None,
        None => None,
    }
}

impl<'a> Views<'a> {
    /// A walk from the front of a log text whose records are in the grammar, of at most 268,435,456 bytes.
    pub fn new(bytes: &'a [u8]) -> Views<'a>
        requires most { length bytes.now ≤ most_log_bytes }
        requires records { (items : List (ℕ × Record)) × HasRecords bytes.now items }
        ensures { (items : List (ℕ × Record)) → HasRecords bytes.now items → HasLeft result items }
    {
        Views {
            version: text_version(bytes),
            batches: Batches::new(bytes),
            at: 0,
            rest: &bytes[..0],
        }
    }

    /// Lends the next record and its place in the text. Takes no memory. Each record leaves less to be read, so
    /// a walk ends.
    pub fn next(&mut self) -> Option<(u32, RecordView<'a>)>
        ensures shorter { IfSome result (λ lent. unread self.new < unread self.old) }
        ensures spelled { IfSome result (λ lent. IsSpelled (record_of lent.1)) }
        ensures lends { (items : List (ℕ × Record)) → HasLeft self.old items → Lends result self.new items }
    {
        match next_bytes(&mut self.batches, self.at, self.rest) {
            None => None,
            Some((at, rest)) => match read_record(rest, self.version) {
                Ok((view, length)) => {
                    self.at = at + length as usize;
                    self.rest = &rest[length as usize..];
                    Some((at as u32, view))
                }
                Err(_) => None,
            },
        }
    }
}
