//! Logs that are attached: both files are read, and the current one is chosen.
ghost use Rattle.std.specs.Prelude.{◌+◌, ◌≡◌, ◌≢◌, ◌≤◌, ◌<◌, [], ℕ, List, length, OnOk, OnErr, IfOk, IfErr, IfSome, IfNone, IsErrOf, None, Some, true, false, nat_lt};
ghost use Rattle.co_base.specs.Limits.{most_log_bytes};
ghost use Rattle.co_base.specs.Nodes.{IsValidNode};
ghost use Rattle.co_outside.specs.declared.spot.Spot.{Spot};
ghost use Rattle.co_disk.specs.DiskModel.{read_of};
ghost use Rattle.co_outside.specs.Home.{Agrees, RestStays, HasFailed};
ghost use Rattle.co_log.specs.Fresh.{IsOfDevice};
ghost use Rattle.co_log.specs.Attaching.{built, used_of, IsAttached, AreTwins, IsBadPair, IsLonger, IsWithin, IsToldAs, IsOfAttach};
ghost use Rattle.co_log.specs.LogView.{IsShort, spot_of};
ghost use Rattle.co_log.specs.Scanning.{IsLogFileIn};

use crate::fault::LogFault;
use crate::log::Log;
use crate::scanning::{Found, scan};
use co_base::Node;
use co_disk::{Disk, DiskFault};
use co_outside::{Home, Spot};
use co_record::NEWEST_VERSION;
use std::alloc::Global;

/// The spot of a part of the log of a node.
fn spot_of(node: Node, part: u8) -> Spot
    requires { IsValidNode node }
    ensures { result ≡ spot_of node part }
{
    Spot {
        node: node.byte(),
        part,
    }
}

/// Attaches the disk of a file. None is a file with more than 268,435,456 bytes.
fn open_file<H: Home>(alloc: Global, home: &mut H, spot: Spot) -> Result<Option<Disk>, LogFault>
    ensures spot { IfOk result (λ o. IfSome o (λ d. d.spot ≡ spot)) }
    ensures still { IfOk result (λ o. IfSome o (λ d. d.state.pending ≡ [])) }
    ensures agrees { IfOk result (λ o. IfSome o (λ d. Agrees (H.seen home.new) spot (read_of d.state))) }
    ensures long { IfOk result (λ o. IfNone o ((bytes : List ℕ) × H.gives home.old spot (most_log_bytes + 1) bytes × (most_log_bytes < length bytes))) }
    ensures told_long { IfOk result (λ o. IfNone o (IsLonger most_log_bytes ((H.seen home.old).file spot))) }
    ensures told { IfOk result (λ o. IfSome o (λ d. IsToldAs spot ((H.seen home.old).file spot) d)) }
    ensures short { IfOk result (λ o. IfSome o IsShort) }
    ensures told_short { IfOk result (λ o. IfSome o (λ d. IsWithin most_log_bytes ((H.seen home.old).file spot))) }
    ensures file { (H.seen home.new).file spot ≡ (H.seen home.old).file spot }
    ensures rest { RestStays spot (H.seen home.old) (H.seen home.new) }
    ensures faults { IfErr result (IsOfDevice spot) }
    ensures device { IsErrOf result (LogFault.Device spot) → HasFailed spot (H.seen home.old) (H.seen home.new) }
    ensures quiet { (IsErrOf result (LogFault.Device spot) → ⊥) → (H.seen home.new).faults ≡ (H.seen home.old).faults }
{
    match Disk::attach(alloc, home, spot) {
        Ok(disk) => Ok(Some(disk)),
        Err(DiskFault::Long) => Ok(None),
        Err(DiskFault::Device) => Err(LogFault::Device { spot }),
        Err(DiskFault::Memory) => Err(LogFault::Memory),
        Err(DiskFault::Stopped { .. }) => unreachable!(),
        Err(DiskFault::Differs { .. }) => unreachable!(),
    }
}

/// The log of a node over two files.
fn build(
    alloc: Global,
    node: Node,
    version: u8,
    current: Disk,
    spare: Disk,
    gate: u32,
    generation: u32,
) -> Log
    requires { IsShort current × IsShort spare }
    ensures { result ≡ built node version current spare gate generation }
{
    Log {
        alloc,
        node,
        version,
        current,
        spare,
        gate,
        generation,
        waiting: Vec::new(alloc),
        stop: None,
    }
}

/// The log over two read files of which these were found: the one with the greater generation is current.
fn choose(
    alloc: Global,
    node: Node,
    a: Disk,
    b: Disk,
    in_a: Found,
    in_b: Found,
) -> Result<Log, LogFault>
    requires stable { (a.state.pending ≡ []) × (b.state.pending ≡ []) }
    requires short { IsShort a × IsShort b }
    requires a { IsLogFileIn in_a.version node a.state.stable in_a.gate in_a.generation }
    requires b { IsLogFileIn in_b.version node b.state.stable in_b.gate in_b.generation }
    ensures chosen { IfOk result (IsAttached node a b) }
    ensures twins { IfErr result (λ e. (e ≡ LogFault.Bad b.spot 0) × AreTwins node a.state.stable b.state.stable) }
{
    match (in_a.generation, in_b.generation) {
        (None, None) => Ok(build(alloc, node, NEWEST_VERSION, a, b, 0, 0)),
        (Some(generation), None) => Ok(build(
            alloc,
            node,
            in_a.version,
            a,
            b,
            in_a.gate,
            generation,
        )),
        (None, Some(generation)) => Ok(build(
            alloc,
            node,
            in_b.version,
            b,
            a,
            in_b.gate,
            generation,
        )),
        (Some(this), Some(that)) => {
            if this == that {
                return Err(LogFault::Bad {
                    spot: b.spot(),
                    at: 0,
                });
            }
            if this < that {
                Ok(build(alloc, node, in_b.version, b, a, in_b.gate, that))
            } else {
                Ok(build(alloc, node, in_a.version, a, b, in_a.gate, this))
            }
        }
    }
}

/// The log over two read files. `Bad` names the first fault of the first file, else that of the second one,
/// else place 0 of the second one where both have one generation.
fn read_both(alloc: Global, node: Node, a: Disk, b: Disk) -> Result<Log, LogFault>
    requires stable { (a.state.pending ≡ []) × (b.state.pending ≡ []) }
    requires short { IsShort a × IsShort b }
    ensures chosen { IfOk result (IsAttached node a b) }
    ensures bad { IfErr result (IsBadPair node a b) }
{
    let in_a = match scan(node, a.bytes()) {
        Ok(found) => found,
        Err(at) => return Err(LogFault::Bad { spot: a.spot(), at }),
    };
    let in_b = match scan(node, b.bytes()) {
        Ok(found) => found,
        Err(at) => return Err(LogFault::Bad { spot: b.spot(), at }),
    };
    choose(alloc, node, a, b, in_a, in_b)
}

/// Whether a file has more than one byte.
fn is_used(file: &Option<Disk>) -> bool
    ensures { result ≡ used_of file.now }
{
    match file {
        Some(disk) => disk.bytes().len() > 1,
        None => true,
    }
}

impl Log {
    ghost use Rattle.co_log.specs.Calls.{HasAttached};
    ghost use Rattle.co_disk.specs.DiskView.{DiskView};
    ghost use Rattle.co_log.specs.Fresh.{IsFresh};
    ghost use Rattle.co_log.specs.LogView.{IsHeld};
    ghost use Rattle.co_log.specs.Others.{OtherNodesStay};

    /// Reads both files of a node, that of part `a` first, and chooses the current one: the one with a batch,
    /// and of two such files the one with the greater generation; part `a` where neither has one. Writes
    /// nothing.
    ///
    /// Part `a` is named before part `b`. `InUse` comes where the log is not resumed and a file has more than
    /// one byte. Where it is resumed, `Full` comes where a file has more than 268,435,456 bytes; then `Bad`
    /// where a file is no log text, a record is not in the grammar, a first record is no header of the node,
    /// or two files have one generation, at place 0 of part `b`. `Device` comes where the home failed, and only
    /// there; `Memory` where there was none. A log that is not resumed is fresh, of every home.
    pub fn attach<H: Home>(
        alloc: Global,
        home: &mut H,
        node: Node,
        resume: bool,
    ) -> Result<Log, LogFault>
        requires { IsValidNode node }
        ensures { HasAttached node resume (H.seen home.old) (H.seen home.new) result }
    {
        Log::open(alloc, home, node, resume)
    }

    /// Reads both files, and builds the log over them.
    fn open<H: Home>(alloc: Global, home: &mut H, node: Node, resume: bool) -> Result<Log, LogFault>
        requires { IsValidNode node }
        ensures attached { IfOk result (λ log. (a : DiskView) × (b : DiskView) × IsToldAs (spot_of node 0) ((H.seen home.old).file (spot_of node 0)) a
            × IsToldAs (spot_of node 1) ((H.seen home.old).file (spot_of node 1)) b × IsAttached node a b log) }
        ensures unused { resume ≡ false → OnOk result (IsWithin 1 ((H.seen home.old).file (spot_of node 0)) × IsWithin 1 ((H.seen home.old).file (spot_of node 1))) }
        ensures fresh { resume ≡ false → IfOk result IsFresh }
        ensures short { OnOk result (IsWithin most_log_bytes ((H.seen home.old).file (spot_of node 0)) × IsWithin most_log_bytes ((H.seen home.old).file (spot_of node 1))) }
        ensures held { IfOk result (λ log. IsHeld (H.seen home.new) log) }
        ensures faults { IfErr result (IsOfAttach node resume ((H.seen home.old).file (spot_of node 0)) ((H.seen home.old).file (spot_of node 1))) }
        ensures file_a { (H.seen home.new).file (spot_of node 0) ≡ (H.seen home.old).file (spot_of node 0) }
        ensures file_b { (H.seen home.new).file (spot_of node 1) ≡ (H.seen home.old).file (spot_of node 1) }
        ensures rest { OtherNodesStay node (H.seen home.old) (H.seen home.new) }
        ensures device { (spot : Spot) → IsErrOf result (LogFault.Device spot) → HasFailed spot (H.seen home.old) (H.seen home.new) }
        ensures quiet { ((spot : Spot) → IsErrOf result (LogFault.Device spot) → ⊥) → (H.seen home.new).faults ≡ (H.seen home.old).faults }
    {
        let spot_a = spot_of(node, 0);
        let spot_b = spot_of(node, 1);
        let a = open_file(alloc, home, spot_a)?;
        let b = match open_file(alloc, home, spot_b) {
            Ok(b) => b,
            Err(fault) => {
                drop(a);
                return Err(fault);
            }
        };
        if resume {
            let Some(a) = a else {
                drop(b);
                return Err(LogFault::Full { spot: spot_a });
            };
            let Some(b) = b else {
                drop(a);
                return Err(LogFault::Full { spot: spot_b });
            };
            return read_both(alloc, node, a, b);
        }
        if is_used(&a) {
            drop(a);
            drop(b);
            return Err(LogFault::InUse { spot: spot_a });
        }
        if is_used(&b) {
            drop(a);
            drop(b);
            return Err(LogFault::InUse { spot: spot_b });
        }
        match (a, b) {
            (Some(a), Some(b)) => Ok(build(alloc, node, NEWEST_VERSION, a, b, 0, 0)),
            (None, _) => unreachable!(),
            (Some(_), None) => unreachable!(),
        }
    }
}
