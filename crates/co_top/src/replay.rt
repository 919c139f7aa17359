//! A schedule is replayed over a directory of logs: its head is read, the federation is opened, and one line at a time is read, done and told.
ghost use Rattle.std.specs.Prelude.{length, ◌≡◌, ◌≤◌, ◌⊎◌, ◌++◌, ◌∷◌, [], ℕ, List, Some, Ok, IfOk, IfErr, IsErrOf, OnOk, OnErr};
ghost use Rattle.co_base.specs.Lent.{Begins};
ghost use Rattle.co_outside.specs.Faults.{HasRisen};
ghost use Rattle.co_outside.specs.declared.spot.Spot.{Spot};
ghost use Rattle.co_outside.specs.Home.{HasFailed, IsClean};
ghost use Rattle.co_base.specs.declared.head.Head.{Head};
ghost use Rattle.co_base.specs.declared.head.Kind.{Kind};
ghost use Rattle.co_message.specs.declared.item.ItemKind.TheVariants as item;
ghost use Rattle.co_plain.specs.Runs.{numbered};
ghost use Rattle.co_replay.specs.Transcript.{items_text};
ghost use Rattle.co_world.specs.Attached.{IsAttachedOver};
ghost use Rattle.co_world.specs.Standing.{AreHeld};
ghost use Rattle.co_schedule.specs.Lines.{ahead};
ghost use Rattle.co_top.specs.Front.{HasRead, IsHeadFault, IsStreamed};
ghost use Rattle.co_top.specs.Heads.{IsEnding, IsHeadRead, IsReadStatus};
ghost use Rattle.co_top.specs.PlayedOut.{HasPlayedOut};
ghost use Rattle.co_top.specs.Ran.{IsRunEnd};
ghost use Rattle.co_top.specs.Running.{AreOthersKept, IsBetween};
ghost use Rattle.co_opening.specs.Rest.{AreFoundOrMade, OnlyOpens};
ghost use Rattle.co_top.specs.Replayed.{status_of, given_back, opening_text, IsUnopenedAs, IsOfFiles, IsOpeningTold};

use crate::lines::head_of;
use crate::playing::{put, replay_lines};
use crate::status::{Status, of_world};
use co_base::Head;
use co_engine::Engine;
use co_message::{Item, ItemKind, Items};
use co_outside::{Home, HomeFault, Sink, Source, Spot};
use co_replay::put_items;
use co_schedule::{LONGEST_LINE, Lines};
use co_transcript::put_item;
use co_world::World;
use std::alloc::{AllocError, Global};

/// The most lines, the head among them.
pub(crate) const LINES: u32 = 262_144;

/// Enters the directory.
fn enter<H: Home>(alloc: Global, home: &mut H, directory: &str) -> Result<(), Status>
    ensures entered { OnOk result ((H.seen home.new).entered ≡ Some directory.now) }
    ensures files { (s : Spot) → (H.seen home.new).file s ≡ (H.seen home.old).file s }
    ensures device { (spot : Spot) → IsErrOf result (Status.Device spot) → HasFailed spot (H.seen home.old) (H.seen home.new) }
    ensures quiet { ((spot : Spot) → IsErrOf result (Status.Device spot) → ⊥) → (H.seen home.new).faults ≡ (H.seen home.old).faults }
    ensures faults { IfErr result (λ why. ((spot : Spot) × (why ≡ Status.Device spot)) ⊎ (why ≡ Status.Memory)) }
{
    match home.enter(alloc, directory) {
        Ok(()) => Ok(()),
        Err(HomeFault::Failed) => Err(Status::Device { spot: Spot::FIRST }),
        Err(HomeFault::Memory) => Err(Status::Memory),
    }
}

/// Opens the federation of a head over the logs in the directory that was entered.
pub(crate) fn attach<E: Engine + Drop, H: Home>(
    alloc: Global,
    home: &mut H,
    head: &Head,
    resume: bool,
) -> Result<(World<E>, Items), Status>
    requires kinds { (kind : Kind) → E.takes kind }
    ensures opened { IfOk result (λ r. IsAttachedOver E.takes E.stands_for (H.seen home.old).file head.now resume r.0 r.1) }
    ensures held { IfOk result (λ r. AreHeld (H.seen home.new) r.0) }
    ensures clean { OnOk result ((s : Spot) → IsClean (H.seen home.old) s → IsClean (H.seen home.new) s) }
    ensures refused { IfErr result (IsUnopenedAs (H.seen home.old).file head.now resume) }
    ensures untouched { IfErr result (λ why. IsOfFiles why → (s : Spot) → (H.seen home.new).file s ≡ (H.seen home.old).file s) }
    ensures opens { OnlyOpens (length head.now.kinds) head.now.coords (H.seen home.old) (H.seen home.new) }
    ensures device { (spot : Spot) → IsErrOf result (Status.Device spot) → HasFailed spot (H.seen home.old) (H.seen home.new) }
    ensures quiet { ((spot : Spot) → IsErrOf result (Status.Device spot) → ⊥) → (H.seen home.new).faults ≡ (H.seen home.old).faults }
{
    match World::<E>::attach(alloc, home, head, resume) {
        Ok(opened) => Ok(opened),
        Err(fault) => Err(of_world(fault)),
    }
}

/// Opens the federation of a head over the logs of a directory.
fn open<E: Engine + Drop, H: Home>(
    alloc: Global,
    home: &mut H,
    directory: &str,
    head: &Head,
    resume: bool,
) -> Result<(World<E>, Items), Status>
    requires kinds { (kind : Kind) → E.takes kind }
    ensures opened { IfOk result (λ r. IsAttachedOver E.takes E.stands_for (H.seen home.old).file head.now resume r.0 r.1) }
    ensures held { IfOk result (λ r. AreHeld (H.seen home.new) r.0) }
    ensures clean { OnOk result ((s : Spot) → IsClean (H.seen home.old) s → IsClean (H.seen home.new) s) }
    ensures refused { IfErr result (IsUnopenedAs (H.seen home.old).file head.now resume) }
    ensures untouched { IfErr result (λ why. IsOfFiles why → (s : Spot) → (H.seen home.new).file s ≡ (H.seen home.old).file s) }
    ensures made { AreFoundOrMade (length head.now.kinds) head.now.coords (H.seen home.old).file (H.seen home.new).file }
    ensures entered { OnOk result ((H.seen home.new).entered ≡ Some directory.now) }
    ensures device { (spot : Spot) → IsErrOf result (Status.Device spot) → HasFailed spot (H.seen home.old) (H.seen home.new) }
    ensures quiet { ((spot : Spot) → IsErrOf result (Status.Device spot) → ⊥) → (H.seen home.new).faults ≡ (H.seen home.old).faults }
{
    enter(alloc, home, directory)?;
    attach(alloc, home, head, resume)
}

/// The head that an item tells.
fn head_in(told: Item) -> Head
    requires { (head : Head) × (told.what ≡ item.Head head) }
    ensures { told.what ≡ item.Head result }
{
    match told.what {
        ItemKind::Head(head) => head,
        _ => unreachable!(),
    }
}

/// Appends the text of the first line: the head, and what opening told. After want of memory the list begins with what it held.
fn put_opening(head: Head, items: &[Item], into: &mut Vec<u8>) -> Result<Head, AllocError>
    ensures text { OnOk result (into.new.items ≡ into.old.items ++ opening_text head items.now) }
    ensures head { IfOk result (λ same. same ≡ head) }
    ensures err { OnErr result (Begins into.old.items into.new.items) }
{
    let first = Item {
        number: 1,
        what: ItemKind::Head(head),
    };
    put_item(&first, into)?;
    put_items(items, into)?;
    Ok(head_in(first))
}

/// The head again, where the text of the first line was put.
fn given_back(head: Head, put: Result<(), Status>) -> Result<Head, Status>
    ensures { result ≡ given_back head put }
{
    match put {
        Ok(()) => Ok(head),
        Err(why) => Err(why),
    }
}

/// Puts the text of the first line.
fn tell_opening<K: Sink>(
    alloc: Global,
    out: &mut K,
    head: Head,
    items: &[Item],
) -> Result<Head, Status>
    ensures told { IsOpeningTold head items.now (K.told out.old) (K.told out.new) result }
    ensures failed { IsErrOf result Status.Write → HasRisen (K.faults out.old) (K.faults out.new) }
    ensures quiet { (IsErrOf result Status.Write → ⊥) → K.faults out.new ≡ K.faults out.old }
{
    let mut text = Vec::new(alloc);
    let head = put_opening(head, items, &mut text)?;
    let told = put(alloc, out, &text);
    given_back(head, told)
}

/// Reads the first line of the source: a reader of the lines behind it, and the head.
pub(crate) fn read_first<S: Source>(alloc: Global, source: &mut S) -> Result<(Lines, Head), Status>
    ensures read { (text : List ℕ) → S.left source.old ≡ Some text → IfOk result (λ r. IsHeadRead text (ahead r.0 (S.left source.new)) (Ok r.1)) }
    ensures fault { (text : List ℕ) → S.left source.old ≡ Some text → IfErr result (IsHeadFault text) }
    ensures streamed { (text : List ℕ) → S.left source.old ≡ Some text → IsStreamed text (S.left source.new) }
    ensures one { IfOk result (λ r. HasRead 1 r.0) }
    ensures own { IfErr result IsReadStatus }
    ensures counts { S.faults source.old ≤ S.faults source.new }
    ensures failed { IsErrOf result Status.Read → HasRisen (S.faults source.old) (S.faults source.new) }
    ensures quiet { (IsErrOf result Status.Read → ⊥) → S.faults source.new ≡ S.faults source.old }
{
    let mut lines = Lines::new(alloc, LONGEST_LINE as u32, LINES)?;
    let head = head_of(alloc, &mut lines, source)?;
    Ok((lines, head))
}

/// A federation behind the last line of its schedule.
#[derive(Drop)]
pub(crate) struct Ended<E> {
    /// What the lines left.
    pub(crate) world: World<E>,
    /// How many members the head has.
    pub(crate) members: u8,
    /// The number of the last line.
    pub(crate) number: u32,
}

/// Replays the schedule of the source over the logs of a directory, up to its end or to what ends it before. Gives what its last line left.
pub(crate) fn replay_to_end<E: Engine + Drop, S: Source, K: Sink, H: Home>(
    alloc: Global,
    directory: &str,
    resume: bool,
    source: &mut S,
    out: &mut K,
    home: &mut H,
) -> Result<Ended<E>, Status>
    requires kinds { (kind : Kind) → E.takes kind }
    ensures end { (input held : List ℕ) → S.left source.old ≡ Some input → K.told out.old ≡ Some held →
        IsRunEnd H.seen resume input (S.left source.new) held (K.told out.new) home.old home.new (status_of result) }
    ensures others { (input : List ℕ) → S.left source.old ≡ Some input → AreOthersKept input (H.seen home.old).file (H.seen home.new).file }
    ensures reached { IfOk result (HasPlayedOut E.takes E.stands_for resume (S.left source.old) (S.left source.new) (K.told out.old) (K.told out.new) (H.seen home.old).file (H.seen home.new)) }
    ensures own { IfErr result IsEnding }
    ensures entered { OnOk result ((H.seen home.new).entered ≡ Some directory.now) }
    ensures read { IsErrOf result Status.Read → HasRisen (S.faults source.old) (S.faults source.new) }
    ensures write { IsErrOf result Status.Write → HasRisen (K.faults out.old) (K.faults out.new) }
    ensures device { (spot : Spot) → IsErrOf result (Status.Device spot) → HasFailed spot (H.seen home.old) (H.seen home.new) }
    ensures quiet_source { (IsErrOf result Status.Read → ⊥) → S.faults source.new ≡ S.faults source.old }
    ensures quiet_sink { (IsErrOf result Status.Write → ⊥) → K.faults out.new ≡ K.faults out.old }
    ensures quiet_home { ((spot : Spot) → IsErrOf result (Status.Device spot) → ⊥) → (H.seen home.new).faults ≡ (H.seen home.old).faults }
    ensures clean { IsBetween (status_of result) → (s : Spot) → IsClean (H.seen home.old) s → IsClean (H.seen home.new) s }
{
    let (mut lines, head) = read_first(alloc, source)?;
    let (mut world, items) = open::<E, H>(alloc, home, directory, &head, resume)?;
    let head = tell_opening(alloc, out, head, items.as_slice())?;
    match replay_lines(alloc, &mut lines, source, &head, &mut world, home, out) {
        Ok(number) => Ok(Ended {
            world,
            members: head.kinds.len() as u8,
            number,
        }),
        Err(status) => {
            drop(world);
            Err(status)
        }
    }
}

/// Replays the schedule of the source over the logs of a directory: over fresh ones, or over those that a run left. The engine is one that takes every kind.
pub(crate) fn replay<E: Engine + Drop, S: Source, K: Sink, H: Home>(
    alloc: Global,
    directory: &str,
    resume: bool,
    source: &mut S,
    out: &mut K,
    home: &mut H,
) -> Status
    requires kinds { (kind : Kind) → E.takes kind }
    ensures end { (input held : List ℕ) → S.left source.old ≡ Some input → K.told out.old ≡ Some held →
        IsRunEnd H.seen resume input (S.left source.new) held (K.told out.new) home.old home.new result }
    ensures others { (input : List ℕ) → S.left source.old ≡ Some input → AreOthersKept input (H.seen home.old).file (H.seen home.new).file }
    ensures own { result ≡ Status.Usage → ⊥ }
    ensures entered { result ≡ Status.Done → (H.seen home.new).entered ≡ Some directory.now }
    ensures read { result ≡ Status.Read → HasRisen (S.faults source.old) (S.faults source.new) }
    ensures write { result ≡ Status.Write → HasRisen (K.faults out.old) (K.faults out.new) }
    ensures device { (spot : Spot) → result ≡ Status.Device spot → HasFailed spot (H.seen home.old) (H.seen home.new) }
    ensures quiet_source { (result ≡ Status.Read → ⊥) → S.faults source.new ≡ S.faults source.old }
    ensures quiet_sink { (result ≡ Status.Write → ⊥) → K.faults out.new ≡ K.faults out.old }
    ensures quiet_home { ((spot : Spot) → result ≡ Status.Device spot → ⊥) → (H.seen home.new).faults ≡ (H.seen home.old).faults }
    ensures clean { IsBetween result → (s : Spot) → IsClean (H.seen home.old) s → IsClean (H.seen home.new) s }
{
    match replay_to_end::<E, S, K, H>(alloc, directory, resume, source, out, home) {
        Ok(ended) => {
            drop(ended);
            Status::Done
        }
        Err(status) => status,
    }
}
