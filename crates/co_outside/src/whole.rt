//! Whole inputs and whole outputs, over the calls that move a piece at a time.
ghost use Rattle.std.specs.Prelude.{◌≡◌, ◌≤◌, ◌<◌, ◌++◌, true, List, ℕ, Some, length, take, drop, IfOk, OnOk, OnErr, IsErrOf};
ghost use Rattle.co_outside.specs.Faults.{HasRisen};

use crate::sink::{Sink, SinkFault};
use crate::source::{Source, SourceFault, Taken};
use std::alloc::Global;

/// The most bytes that are asked for at a time.
const PIECE: u32 = 65_536;

/// The bytes of the source up to its end, or its first `most` bytes where it has more.
///
/// `Failed` comes where the source failed and its count of faults rose, and only there; `Memory`
/// comes where there was none for the bytes. With either fault a front of the bytes is taken and lost.
pub fn read_all<S: Source>(alloc: Global, source: &mut S, most: u32) -> Result<Vec<u8>, SourceFault>
    ensures bytes { (held : List ℕ) → S.left source.old ≡ Some held → IfOk result (λ v. v.items ≡ take most held) }
    ensures size { IfOk result (λ v. length v.items ≤ most) }
    ensures rest { (held : List ℕ) → S.left source.old ≡ Some held → OnOk result (S.left source.new ≡ Some (drop most held)) }
    ensures lost { (held : List ℕ) → S.left source.old ≡ Some held → OnErr result ((count : ℕ) × (S.left source.new ≡ Some (drop count held))) }
    ensures gave { IfOk result (λ v. S.gave source.new ≡ S.gave source.old ++ v.items) }
    ensures gave_more { OnErr result ((more : List ℕ) × (S.gave source.new ≡ S.gave source.old ++ more)) }
    ensures ended { IfOk result (λ v. length v.items < most → S.ended source.new ≡ true) }
    ensures counts { S.faults source.old ≤ S.faults source.new }
    ensures failed { IsErrOf result SourceFault.Failed → HasRisen (S.faults source.old) (S.faults source.new) }
    ensures quiet { (IsErrOf result SourceFault.Failed → ⊥) → S.faults source.new ≡ S.faults source.old }
{
    let mut input = Vec::new(alloc);
    'reading: while input.len() < most as usize {
        let room = most - input.len() as u32;
        match source.take(alloc, room.min(PIECE))? {
            Taken::Bytes(bytes) => input.extend_from_slice(bytes.as_slice())?,
            Taken::End => return Ok(input),
        }
    }
    Ok(input)
}

/// Puts the whole piece into the sink.
///
/// `Failed` comes where the sink failed and its count of faults rose, and only there; `Memory`
/// comes where the sink had none, and says so by its other count. With either fault the sink took a front of the piece.
pub fn put_all<K: Sink>(alloc: Global, sink: &mut K, piece: &[u8]) -> Result<(), SinkFault>
    ensures appended { (held : List ℕ) → K.told sink.old ≡ Some held → OnOk result (K.told sink.new ≡ Some (held ++ piece.now)) }
    ensures front { (held : List ℕ) → K.told sink.old ≡ Some held → OnErr result ((count : ℕ) × (K.told sink.new ≡ Some (held ++ take count piece.now))) }
    ensures took { OnOk result (K.took sink.new ≡ K.took sink.old ++ piece.now) }
    ensures took_front { OnErr result ((count : ℕ) × (K.took sink.new ≡ K.took sink.old ++ take count piece.now)) }
    ensures counts { K.faults sink.old ≤ K.faults sink.new }
    ensures failed { IsErrOf result SinkFault.Failed → HasRisen (K.faults sink.old) (K.faults sink.new) }
    ensures quiet { (IsErrOf result SinkFault.Failed → ⊥) → K.faults sink.new ≡ K.faults sink.old }
    ensures lacks { K.lacks sink.old ≤ K.lacks sink.new }
    ensures memory { IsErrOf result SinkFault.Memory → HasRisen (K.lacks sink.old) (K.lacks sink.new) }
{
    let mut done: usize = 0;
    'writing: while done < piece.len() {
        let count = sink.put(alloc, &piece[done..])?;
        done += count as usize;
    }
    Ok(())
}
