//! Records of logs.
ghost use Rattle.std.specs.Prelude.{◌≤◌};

use co_record::{RecordFault, read_record};
use std::alloc::{AllocError, Global};

/// The version that a word names: 1, and else 2.
fn version_of(word: &[u8]) -> u8
    ensures { (1 ≤ result) × (result ≤ 2) }
{
    match word {
        b"1" => 1,
        _ => 2,
    }
}

/// Appends a word and a number.
fn put_number(
    alloc: Global,
    word: &[u8],
    number: u32,
    out: &mut Vec<u8>,
) -> Result<(), AllocError> {
    out.extend_from_slice(word)?;
    let text = format!(in alloc; " {number}")?;
    out.extend_from_slice(text.as_bytes())
}

/// Appends what reading in a version gives: a word, and how many bytes are read, or the place of the field outside its set.
fn put_read(alloc: Global, bytes: &[u8], version: u8, out: &mut Vec<u8>) -> Result<(), AllocError>
    requires { (1 ≤ version) × (version ≤ 2) }
{
    if bytes.len() > 8192 {
        return out.extend_from_slice(b"long");
    }
    match read_record(bytes, version) {
        Ok((_, length)) => put_number(alloc, b"read", length, out),
        Err(RecordFault::Short) => out.extend_from_slice(b"short"),
        Err(RecordFault::Kind) => out.extend_from_slice(b"kind"),
        Err(RecordFault::Field { at }) => put_number(alloc, b"field", at, out),
    }
}

/// Appends what reading the record at the front of some bytes gives: of two words, a version, and the bytes in hex.
pub(crate) fn put_record(alloc: Global, words: &[u8], out: &mut Vec<u8>) -> Result<(), AllocError> {
    let mut words = words.split(|b| *b == b' ');
    let version = version_of(words.next().unwrap_or(b""));
    let Ok(bytes) = hex::decode(alloc, words.next().unwrap_or(b"")) else {
        return out.extend_from_slice(b"no hex");
    };
    put_read(alloc, &bytes, version, out)
}
