//! The durable records of a directory of logs.
ghost use Rattle.std.specs.Prelude.{◌≡◌, ℕ, List, Some};
ghost use Rattle.co_outside.specs.declared.spot.Spot.{Spot};
ghost use Rattle.co_outside.specs.Faults.{HasRisen};
ghost use Rattle.co_outside.specs.Home.{HasFailed};
ghost use Rattle.co_top.specs.Records.{status_of_put, HasCause, HoldsRecords};

use crate::status::{Status, of_world};
use co_durable::{put_records, read_directory};
use co_outside::{Home, Sink, SinkFault};
use std::alloc::Global;

/// The status that stands for how the records were put.
fn status_of_put(put: Result<(), SinkFault>) -> Status
    ensures { result ≡ status_of_put put }
{
    match put {
        Ok(()) => Status::Done,
        Err(SinkFault::Failed) => Status::Write,
        Err(SinkFault::Memory) => Status::Memory,
    }
}

/// Writes the durable records of all logs in a directory. No file is changed.
pub(crate) fn records<K: Sink, H: Home>(
    alloc: Global,
    directory: &str,
    out: &mut K,
    home: &mut H,
) -> Status
    ensures cause { HasCause (H.seen home.old).file result }
    ensures durable { (held : List ℕ) → K.told out.old ≡ Some held → HoldsRecords (H.seen home.old).file held (K.told out.new) result }
    ensures write { result ≡ Status.Write → HasRisen (K.faults out.old) (K.faults out.new) }
    ensures device { (spot : Spot) → result ≡ Status.Device spot → HasFailed spot (H.seen home.old) (H.seen home.new) }
    ensures quiet_sink { (result ≡ Status.Write → ⊥) → K.faults out.new ≡ K.faults out.old }
    ensures quiet_home { ((spot : Spot) → result ≡ Status.Device spot → ⊥) → (H.seen home.new).faults ≡ (H.seen home.old).faults }
    ensures files { (s : Spot) → (H.seen home.new).file s ≡ (H.seen home.old).file s }
    ensures entered { result ≡ Status.Done → (H.seen home.new).entered ≡ Some directory.now }
{
    match read_directory(alloc, home, directory) {
        Ok(rows) => {
            let put = put_records(alloc, out, rows.as_slice());
            status_of_put(put)
        }
        Err(fault) => of_world(fault),
    }
}
