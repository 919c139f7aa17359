//! The events of a schedule, one at a time: each is done, and then told.
ghost use Rattle.std.specs.Prelude.{◌≡◌, ◌≤◌, ◌++◌, ◌∷◌, [], ℕ, Ok, Err, length, IfOk, IsErrOf};
ghost use Rattle.co_outside.specs.Faults.{HasRisen};
ghost use Rattle.co_outside.specs.declared.spot.Spot.{Spot};
ghost use Rattle.co_outside.specs.Home.{IsClean};
ghost use Rattle.co_plain.specs.Federation.{Federation};
ghost use Rattle.co_schedule.specs.Lines.{ahead};
ghost use Rattle.co_schedule.specs.View.{IsEventFor};
ghost use Rattle.co_cluster.specs.Conditions.{IsReady};
ghost use Rattle.co_world.specs.Standing.{RepresentsWorld, AreHeld};
ghost use Rattle.co_top.specs.Ends.{of_world};
ghost use Rattle.co_top.specs.Front.{HasRead};
ghost use Rattle.co_top.specs.Played.{StaysReady, IsOver};
ghost use Rattle.co_top.specs.Replayed.{status_of};
ghost use Rattle.co_top.specs.Running.{IsBetween};
ghost use Rattle.co_top.specs.Telling.{IsToldOf, IsTextPut, HasEnded};
ghost use Rattle.co_opening.specs.Rest.{OnlyOwnFilesChange};
ghost use Rattle.co_replay.specs.Transcript.{items_text};
ghost use Rattle.co_message.specs.declared.item.ItemKind.TheVariants as item;
ghost use Rattle.co_plain.specs.Runs.{numbered};

use crate::lines::event_of;
use crate::replay::LINES;
use crate::status::{Status, of_world};
use co_base::Head;
use co_durable::WorldFault;
use co_engine::Engine;
use co_message::{Event, Item};
use co_outside::{Home, Sink, SinkFault, Source, put_all};
use co_replay::{put_event, put_items};
use co_schedule::Lines;
use co_world::World;
use std::alloc::{AllocError, Global};

/// Puts a text to the sink of the transcript.
pub(crate) fn put<K: Sink>(alloc: Global, out: &mut K, text: &[u8]) -> Result<(), Status>
    ensures put { IsTextPut text.now (K.told out.old) (K.told out.new) result }
    ensures failed { IsErrOf result Status.Write → HasRisen (K.faults out.old) (K.faults out.new) }
    ensures quiet { (IsErrOf result Status.Write → ⊥) → K.faults out.new ≡ K.faults out.old }
{
    match put_all(alloc, out, text) {
        Ok(()) => Ok(()),
        Err(SinkFault::Failed) => Err(Status::Write),
        Err(SinkFault::Memory) => Err(Status::Memory),
    }
}

/// The text of an event and of what came of it.
fn text_of(alloc: Global, number: u32, event: Event, items: &[Item]) -> Result<Vec<u8>, AllocError>
    ensures { IfOk result (λ text. text.items ≡ items_text (numbered number (item.Event event ∷ []) ++ items.now)) }
{
    let mut text = Vec::new(alloc);
    let _ = put_event(number, event, &mut text)?;
    put_items(items, &mut text)?;
    Ok(text)
}

/// Puts the text of an event and of what came of it.
fn tell<K: Sink>(
    alloc: Global,
    out: &mut K,
    number: u32,
    event: Event,
    items: &[Item],
) -> Result<(), Status>
    ensures put { IsTextPut (items_text (numbered number (item.Event event ∷ []) ++ items.now)) (K.told out.old) (K.told out.new) result }
    ensures failed { IsErrOf result Status.Write → HasRisen (K.faults out.old) (K.faults out.new) }
    ensures quiet { (IsErrOf result Status.Write → ⊥) → K.faults out.new ≡ K.faults out.old }
{
    let text = text_of(alloc, number, event, items)?;
    put(alloc, out, &text)
}

/// The status of an event that was not done.
fn undone(_event: Event, fault: WorldFault) -> Status
    ensures { result ≡ of_world fault }
{
    of_world(fault)
}

/// Does the event of the line of this number, and tells it.
fn tell_event<E: Engine + Drop, K: Sink, H: Home>(
    alloc: Global,
    world: &mut World<E>,
    home: &mut H,
    out: &mut K,
    number: u32,
    event: Event,
) -> Result<(), Status>
    requires event { IsEventFor (length world.old.cluster.members.items) (length world.old.cluster.coords.items) event }
    requires held { AreHeld (H.seen home.old) world.old }
    requires stands { (s : Federation) × RepresentsWorld E.takes E.stands_for world.old s × IsReady s }
    ensures told { (s : Federation) → RepresentsWorld E.takes E.stands_for world.old s → IsReady s →
        IsToldOf E.takes E.stands_for s number event (K.told out.old) (K.told out.new) (H.seen home.new) world.new result }
    ensures rest { OnlyOwnFilesChange (length world.old.cluster.members.items) (length world.old.cluster.coords.items) (H.seen home.old) (H.seen home.new) }
    ensures clean { IsBetween (status_of result) → (s : Spot) → IsClean (H.seen home.old) s → IsClean (H.seen home.new) s }
    ensures ended { HasEnded (H.seen home.old) (H.seen home.new) (status_of result) }
    ensures failed { IsErrOf result Status.Write → HasRisen (K.faults out.old) (K.faults out.new) }
    ensures quiet { (IsErrOf result Status.Write → ⊥) → K.faults out.new ≡ K.faults out.old }
{
    match world.step(home, number, &event) {
        Ok(items) => tell(alloc, out, number, event, items.as_slice()),
        Err(fault) => Err(undone(event, fault)),
    }
}

/// Does and tells the lines behind the head, up to the end or to the first line that gives no event. Gives the number of the last line.
pub(crate) fn replay_lines<E: Engine + Drop, S: Source, K: Sink, H: Home>(
    alloc: Global,
    lines: &mut Lines,
    source: &mut S,
    head: &Head,
    world: &mut World<E>,
    home: &mut H,
    out: &mut K,
) -> Result<u32, Status>
    requires read { HasRead 1 lines.old }
    requires held { AreHeld (H.seen home.old) world.old }
    requires stands { (s0 : Federation) × RepresentsWorld E.takes E.stands_for world.old s0 × StaysReady head.now s0 }
    ensures over { (s0 : Federation) → RepresentsWorld E.takes E.stands_for world.old s0 → StaysReady head.now s0 →
        IsOver E.takes E.stands_for head.now s0 (ahead lines.old (S.left source.old)) (S.left source.new) (K.told out.old) (K.told out.new) (H.seen home.new) world.new result }
    ensures few { IfOk result (λ number. number ≤ 262144) }
    ensures rest { OnlyOwnFilesChange (length head.now.kinds) head.now.coords (H.seen home.old) (H.seen home.new) }
    ensures clean { IsBetween (status_of result) → (s : Spot) → IsClean (H.seen home.old) s → IsClean (H.seen home.new) s }
    ensures ended { HasEnded (H.seen home.old) (H.seen home.new) (status_of result) }
    ensures failed { IsErrOf result Status.Write → HasRisen (K.faults out.old) (K.faults out.new) }
    ensures read { IsErrOf result Status.Read → HasRisen (S.faults source.old) (S.faults source.new) }
    ensures quiet_source { (IsErrOf result Status.Read → ⊥) → S.faults source.new ≡ S.faults source.old }
    ensures quiet_sink { (IsErrOf result Status.Write → ⊥) → K.faults out.new ≡ K.faults out.old }
{
    for number in 2..LINES + 2 {
        match event_of(alloc, lines, source, head, number)? {
            Some(event) => tell_event(alloc, world, home, out, number, event)?,
            None => return Ok(number - 1),
        }
    }
    unreachable!()
}
