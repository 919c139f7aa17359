//! Files of a log, read at the start.
ghost use Rattle.std.specs.Prelude.{◌≡◌, ◌≤◌, ◌<◌, ◌+◌, ◌∷◌, ◌++◌, [], ℕ, List, length, OnOk, IfOk, IfErr, IfSome, IfNone, None, Some};
ghost use Rattle.co_base.specs.Limits.{most_log_bytes};
ghost use Rattle.co_frame.specs.LogText.{IsLogText, IsBrokenAt};
ghost use Rattle.co_record.specs.declared.record.Record.TheVariants.{Header};
ghost use Rattle.co_record.specs.Format.{IsVersion};
ghost use Rattle.co_record.specs.Lent.{record_of};
ghost use Rattle.co_log.specs.Scanning.{IsFound, IsReadTo, IsUnreadable, IsLogFileIn, IsBadAt};

use co_base::Node;
use co_frame::{Batches, FrameFault};
use co_record::{RecordView, read_record, text_version};

/// A file as it was read: its version, the place of its first gate that is not open, and its generation, where it has
/// a batch.
#[derive(Clone, Copy)]
pub(crate) struct Found {
    pub(crate) version: u8,
    pub(crate) gate: u32,
    pub(crate) generation: Option<u32>,
}

/// The generation that is found with one record more: the first record of a file is a header of the node.
fn found_with(node: Node, found: Option<u32>, view: &RecordView<'_>) -> Option<u32>
    ensures found { IfSome result (λ g. IsFound node found (record_of view.now) (Some g)) }
    ensures wrong { IfNone result ((found ≡ None) × ((g : ℕ) → record_of view.now ≡ Header node g → ⊥)) }
{
    if found.is_some() {
        return found;
    }
    match view {
        RecordView::Header {
            node: owner,
            generation,
        } if *owner == node => Some(*generation),
        _ => None,
    }
}

/// Reads the records of a batch at a place in a version, and gives the generation of the file. A fault is the place of
/// the first thing that is no record, or of a first record that is no header of the node.
fn read_batch(
    version: u8,
    node: Node,
    at: u32,
    batch: &[u8],
    before: Option<u32>,
) -> Result<Option<u32>, u32>
    requires version { IsVersion version }
    requires most { at + length batch.now ≤ most_log_bytes }
    ensures read { IfOk result (λ found. IsReadTo version node at batch.now before [] (at + length batch.now) found) }
    ensures bad { IfErr result (λ place. IsUnreadable version node at batch.now before place) }
{
    let mut rest = batch;
    let mut place = at;
    let mut found = before;
    while rest.len() > 0 {
        match read_record(rest, version) {
            Ok((view, length)) => match found_with(node, found, &view) {
                Some(generation) => {
                    found = Some(generation);
                    place += length;
                    rest = &rest[length as usize..];
                }
                None => return Err(place),
            },
            Err(_) => return Err(place),
        }
    }
    Ok(found)
}

/// Walks a file to its last gate. A fault is the place of the open gate of a batch that is not whole.
fn check_text(bytes: &[u8]) -> Result<(), u32>
    requires { length bytes.now ≤ most_log_bytes }
    ensures text { OnOk result ((batches : List (List ℕ)) × IsLogText bytes.now batches) }
    ensures broken { IfErr result (IsBrokenAt bytes.now) }
{
    let mut batches = Batches::new(bytes);
    for _turn in 0..=bytes.len() {
        match batches.next() {
            None => return Ok(()),
            Some(Ok(_)) => {}
            Some(Err(FrameFault::Broken { at })) => return Err(at),
        }
    }
    unreachable!()
}

/// Reads a whole file of a node's log. A fault is the place of its first fault: the open gate of a batch that
/// is not whole, or else the first thing that is no record or no header of the node in front of all others.
pub(crate) fn scan(node: Node, bytes: &[u8]) -> Result<Found, u32>
    requires { length bytes.now ≤ most_log_bytes }
    ensures found { IfOk result (λ f. IsLogFileIn f.version node bytes.now f.gate f.generation) }
    ensures bad { IfErr result (IsBadAt node bytes.now) }
{
    check_text(bytes)?;
    let version = text_version(bytes);
    let mut batches = Batches::new(bytes);
    let mut generation = None;
    for _turn in 0..=bytes.len() {
        match batches.next() {
            None => {
                return Ok(Found {
                    version,
                    gate: batches.gate(),
                    generation,
                });
            }
            Some(Ok(batch)) => {
                match read_batch(version, node, batch.at, batch.records, generation) {
                    Ok(found) => generation = found,
                    Err(place) => return Err(place),
                }
            }
            Some(Err(FrameFault::Broken { at })) => return Err(at),
        }
    }
    unreachable!()
}
