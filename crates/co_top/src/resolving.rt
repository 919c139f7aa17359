//! A schedule is replayed, and then the members that are in doubt ask each other (cooperative termination: Skeen, Nonblocking commit protocols,
//! SIGMOD 1981).
ghost use Rattle.std.specs.Prelude.{◌≡◌, ◌≤◌, ◌++◌, ◌⊎◌, ℕ, length, decimal, IfOk, IsErrOf, OnOk};
ghost use Rattle.co_base.specs.declared.head.Kind.{Kind};
ghost use Rattle.co_coop.specs.Resolution.{AreDoubts};
ghost use Rattle.co_coop.specs.Turn.{MayAsk};
ghost use Rattle.co_opening.specs.Rest.{OnlyOwnFilesChange};
ghost use Rattle.co_outside.specs.Faults.{HasRisen};
ghost use Rattle.co_outside.specs.Home.{IsClean};
ghost use Rattle.co_outside.specs.declared.spot.Spot.{Spot};
ghost use Rattle.co_plain.specs.Federation.{Federation};
ghost use Rattle.co_replay.specs.Transcript.{items_text};
ghost use Rattle.co_settle.specs.Reached.{IsReached};
ghost use Rattle.co_world.specs.Standing.{RepresentsWorld, AreHeld};
ghost use Rattle.co_top.specs.Replayed.{status_of};
ghost use Rattle.co_top.specs.Resolving.{AreListed, ResolvesAs, doubt_line, doubts_text};
ghost use Rattle.co_top.specs.Running.{IsBetween};
ghost use Rattle.co_top.specs.Telling.{HasEnded, IsTextPut};
ghost use Rattle.co_top.specs.Turns.{AreResolved, AreTurnsTold, IsTurnTold, last_number};
ghost use Rattle.co_top.specs.Views.{source_seen, sink_seen};

use crate::playing::put;
use crate::replay::replay_to_end;
use crate::status::{Status, of_world};
use co_cluster::Doubt;
use co_coop::consult_others;
use co_engine::Engine;
use co_message::Item;
use co_outside::{Home, Sink, Source};
use co_replay::put_items;
use co_world::World;
use itoa::Buffer;
use std::alloc::{AllocError, Global};

/// The number of the last of these items, or this one where there is none.
fn last_number(number: u32, items: &[Item]) -> u32
    ensures { result ≡ last_number number items.now }
{
    match items {
        [] => number,
        [.., last] => last.number,
    }
}

/// Puts the text of items.
fn tell_items<K: Sink>(alloc: Global, out: &mut K, items: &[Item]) -> Result<(), Status>
    ensures put { IsTextPut (items_text items.now) (K.told out.old) (K.told out.new) result }
    ensures failed { IsErrOf result Status.Write → HasRisen (K.faults out.old) (K.faults out.new) }
    ensures quiet { (IsErrOf result Status.Write → ⊥) → K.faults out.new ≡ K.faults out.old }
{
    let mut text = Vec::new(alloc);
    put_items(items, &mut text)?;
    put(alloc, out, &text)
}

/// The member in doubt asks the others, and what they told is put. Gives the number of the last event, where the one before had this number.
fn take_turn<E: Engine + Drop, K: Sink, H: Home>(
    alloc: Global,
    world: &mut World<E>,
    home: &mut H,
    out: &mut K,
    members: u8,
    number: u32,
    doubt: &Doubt,
) -> Result<u32, Status>
    requires number { number ≤ 4000000000 }
    requires held { AreHeld (H.seen home.old) world.old }
    requires asks { (s : Federation) × RepresentsWorld E.takes E.stands_for world.old s × IsReached s × MayAsk s doubt.now × (members ≡ length s.kinds) }
    ensures told { (s : Federation) → RepresentsWorld E.takes E.stands_for world.old s → IsReached s → MayAsk s doubt.now →
        IsTurnTold E.takes E.stands_for s number doubt.now (K.told out.old) (K.told out.new) (H.seen home.new) world.new result }
    ensures rest { (s : Federation) → RepresentsWorld E.takes E.stands_for world.old s → OnlyOwnFilesChange (length s.kinds) s.coordinators (H.seen home.old) (H.seen home.new) }
    ensures clean { IsBetween (status_of result) → (s : Spot) → IsClean (H.seen home.old) s → IsClean (H.seen home.new) s }
    ensures ended { HasEnded (H.seen home.old) (H.seen home.new) (status_of result) }
    ensures failed { IsErrOf result Status.Write → HasRisen (K.faults out.old) (K.faults out.new) }
    ensures quiet { (IsErrOf result Status.Write → ⊥) → K.faults out.new ≡ K.faults out.old }
{
    match consult_others(alloc, world, home, members, number, doubt) {
        Ok(items) => {
            tell_items(alloc, out, items.as_slice())?;
            Ok(last_number(number, items.as_slice()))
        }
        Err(fault) => Err(of_world(fault)),
    }
}

/// Every doubt takes its turn, one after the other, where the last event before had this number.
fn take_turns<E: Engine + Drop, K: Sink, H: Home>(
    alloc: Global,
    world: &mut World<E>,
    home: &mut H,
    out: &mut K,
    members: u8,
    number: u32,
    doubts: &[Doubt],
) -> Result<(), Status>
    requires number { (number ≤ 262144) × (length doubts.now ≤ 1048576) }
    requires held { AreHeld (H.seen home.old) world.old }
    requires asks { (s : Federation) × RepresentsWorld E.takes E.stands_for world.old s × IsReached s × AreDoubts s doubts.now × (members ≡ length s.kinds) }
    ensures told { (s : Federation) → RepresentsWorld E.takes E.stands_for world.old s → IsReached s → AreDoubts s doubts.now →
        AreTurnsTold E.takes E.stands_for s number doubts.now (K.told out.old) (K.told out.new) (H.seen home.new) world.new result }
    ensures rest { (s : Federation) → RepresentsWorld E.takes E.stands_for world.old s → OnlyOwnFilesChange (length s.kinds) s.coordinators (H.seen home.old) (H.seen home.new) }
    ensures clean { IsBetween (status_of result) → (s : Spot) → IsClean (H.seen home.old) s → IsClean (H.seen home.new) s }
    ensures ended { HasEnded (H.seen home.old) (H.seen home.new) (status_of result) }
    ensures failed { IsErrOf result Status.Write → HasRisen (K.faults out.old) (K.faults out.new) }
    ensures quiet { (IsErrOf result Status.Write → ⊥) → K.faults out.new ≡ K.faults out.old }
{
    let mut last = number;
    for doubt in doubts {
        last = take_turn(alloc, world, home, out, members, last, doubt)?;
    }
    Ok(())
}

/// Appends a number in decimal digits.
fn append_digits(number: u64, into: &mut Vec<u8>) -> Result<(), AllocError>
    ensures { OnOk result (into.new.items ≡ into.old.items ++ decimal number) }
{
    into.extend_from_slice(Buffer::new().format(number).as_bytes())
}

/// Appends the line of a doubt.
fn append_doubt(doubt: &Doubt, into: &mut Vec<u8>) -> Result<(), AllocError>
    ensures { OnOk result (into.new.items ≡ into.old.items ++ doubt_line doubt.now) }
{
    into.extend_from_slice(b"doubt ")?;
    append_digits(u64::from(doubt.txn.0), into)?;
    into.extend_from_slice(b" m")?;
    append_digits(u64::from(doubt.member), into)?;
    into.extend_from_slice(b"\n")
}

/// The lines of doubts.
fn doubts_text(alloc: Global, remaining: &[Doubt]) -> Result<Vec<u8>, AllocError>
    ensures { IfOk result (λ text. text.items ≡ doubts_text remaining.now) }
{
    let mut text = Vec::new(alloc);
    for doubt in remaining {
        append_doubt(doubt, &mut text)?;
    }
    Ok(text)
}

/// Puts the lines of doubts.
fn tell_doubts<K: Sink>(alloc: Global, out: &mut K, doubts: &[Doubt]) -> Result<(), Status>
    ensures put { IsTextPut (doubts_text doubts.now) (K.told out.old) (K.told out.new) result }
    ensures failed { IsErrOf result Status.Write → HasRisen (K.faults out.old) (K.faults out.new) }
    ensures quiet { (IsErrOf result Status.Write → ⊥) → K.faults out.new ≡ K.faults out.old }
{
    let text = doubts_text(alloc, doubts)?;
    put(alloc, out, &text)
}

/// The members in doubt ask each other, where the last line had this number, and the doubts that remain are put.
fn consult_all<E: Engine + Drop, K: Sink, H: Home>(
    alloc: Global,
    world: &mut World<E>,
    home: &mut H,
    out: &mut K,
    members: u8,
    number: u32,
) -> Result<(), Status>
    requires number { number ≤ 262144 }
    requires held { AreHeld (H.seen home.old) world.old }
    requires asks { (s : Federation) × RepresentsWorld E.takes E.stands_for world.old s × IsReached s × (members ≡ length s.kinds) }
    ensures resolved { (s : Federation) → RepresentsWorld E.takes E.stands_for world.old s → IsReached s → AreResolved s number (K.told out.old) (K.told out.new) (H.seen home.new).file result }
    ensures rest { (s : Federation) → RepresentsWorld E.takes E.stands_for world.old s → OnlyOwnFilesChange (length s.kinds) s.coordinators (H.seen home.old) (H.seen home.new) }
    ensures clean { IsBetween (status_of result) → (s : Spot) → IsClean (H.seen home.old) s → IsClean (H.seen home.new) s }
    ensures ended { HasEnded (H.seen home.old) (H.seen home.new) (status_of result) }
    ensures failed { IsErrOf result Status.Write → HasRisen (K.faults out.old) (K.faults out.new) }
    ensures quiet { (IsErrOf result Status.Write → ⊥) → K.faults out.new ≡ K.faults out.old }
{
    let doubts = world.doubts()?;
    take_turns(alloc, world, home, out, members, number, doubts.as_slice())?;
    let remaining = world.doubts()?;
    tell_doubts(alloc, out, remaining.as_slice())
}

/// Replays the schedule of the source over fresh logs in a directory; where it is done to its end, the members that are in doubt then ask each other.
fn resolved<E: Engine + Drop, S: Source, K: Sink, H: Home>(
    alloc: Global,
    directory: &str,
    source: &mut S,
    out: &mut K,
    home: &mut H,
) -> Result<(), Status>
    requires kinds { (kind : Kind) → E.takes kind }
    ensures resolves { ResolvesAs H.seen directory.now (source_seen (S.left source.old) (S.faults source.old)) (source_seen (S.left source.new) (S.faults source.new))
        (sink_seen (K.told out.old) (K.faults out.old)) (sink_seen (K.told out.new) (K.faults out.new)) home.old home.new (status_of result) }
    ensures own { status_of result ≡ Status.Usage → ⊥ }
{
    let mut ended = replay_to_end::<E, S, K, H>(alloc, directory, false, source, out, home)?;
    let told = consult_all(
        alloc,
        &mut ended.world,
        home,
        out,
        ended.members,
        ended.number,
    );
    drop(ended);
    told
}

/// Replays the schedule of the source over fresh logs in a directory; where it is done to its end, the members that are in doubt then ask each other.
/// The engine is one that takes every kind.
pub(crate) fn resolve<E: Engine + Drop, S: Source, K: Sink, H: Home>(
    alloc: Global,
    directory: &str,
    source: &mut S,
    out: &mut K,
    home: &mut H,
) -> Status
    requires kinds { (kind : Kind) → E.takes kind }
    ensures resolves { ResolvesAs H.seen directory.now (source_seen (S.left source.old) (S.faults source.old)) (source_seen (S.left source.new) (S.faults source.new))
        (sink_seen (K.told out.old) (K.faults out.old)) (sink_seen (K.told out.new) (K.faults out.new)) home.old home.new result }
    ensures own { result ≡ Status.Usage → ⊥ }
{
    match resolved::<E, S, K, H>(alloc, directory, source, out, home) {
        Ok(()) => Status::Done,
        Err(status) => status,
    }
}
