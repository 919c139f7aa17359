//! The events of a trial, one at a time.
ghost use Rattle.std.specs.Prelude.{IfErr, ◌≡◌, ◌≤◌, ◌∷◌, length, OnOk};
ghost use Rattle.co_plain.specs.Federation.{Federation};
ghost use Rattle.co_schedule.specs.View.{IsEventFor};
ghost use Rattle.co_cluster.specs.Conditions.{IsReady};
ghost use Rattle.co_world.specs.Counting.{MeetsPlainLimit};
ghost use Rattle.co_world.specs.Standing.{RepresentsWorld, AreHeld};
ghost use Rattle.co_trial.specs.Decisions.{AreRun};
ghost use Rattle.co_settle.specs.Progress.{IsUntoldFor};
ghost use Rattle.co_trial.specs.Ended.{Ended};
ghost use Rattle.co_trial.specs.Playing.{HasRoom, HasPlayed, HasGone};
ghost use Rattle.co_trial.specs.Trials.{Opened, most_trial_events, start_of};
ghost use Rattle.std.specs.Prelude.{ℕ, List, [], ◌++◌};
ghost use Rattle.sha2.specs.Hashers.{Holds256};
ghost use Rattle.co_message.specs.declared.item.ItemKind.TheVariants as item;
ghost use Rattle.co_plain.specs.Runs.{numbered};
ghost use Rattle.co_replay.specs.Transcript.{items_text};

use crate::deciding::Decisions;
use crate::making::fields_in_sets;
use crate::tally::Told;
use co_durable::WorldFault;
use co_engine::Engine;
use co_make::Maker;
use co_message::{Event, Item};
use co_outside::Home;
use co_world::World;
use std::alloc::{AllocError, Global};

/// Tells an event and what came of it.
fn tell(told: &mut Told, number: u32, event: Event, items: &[Item]) -> Result<(), AllocError>
    ensures { (text : List ℕ) → Holds256 told.old.hasher text → OnOk result (Holds256 told.new.hasher (text ++ items_text (numbered number (item.Event event ∷ []) ++ items.now))) }
{
    told.tell_event(number, event)?;
    told.tell_all(items)
}

/// The fault of an event that was not done.
fn undone(_event: Event, fault: WorldFault) -> WorldFault
    ensures { result ≡ fault }
{
    fault
}

/// Does the event of the line of this number, tells it, and runs what it decided.
fn play<E: Engine + Drop, H: Home>(
    world: &mut World<E>,
    home: &mut H,
    told: &mut Told,
    decisions: &mut Decisions,
    number: u32,
    event: Event,
) -> Result<(), WorldFault>
    requires event { IsEventFor (length world.old.cluster.members.items) (length world.old.cluster.coords.items) event }
    requires held { AreHeld (H.seen home.old) world.old }
    requires stands { (s : Federation) × RepresentsWorld E.takes E.stands_for world.old s × IsReady s × (MeetsPlainLimit s event → ⊥) × HasRoom s event }
    ensures played { (s : Federation) → RepresentsWorld E.takes E.stands_for world.old s → IsReady s →
        OnOk result (HasPlayed E.takes E.stands_for s number event told.old told.new decisions.old decisions.new world.new) }
    ensures held { OnOk result (AreHeld (H.seen home.new) world.new) }
    ensures ended { Ended (H.seen home.old).faults (H.seen home.new).faults result }
    ensures untold { IfErr result (IsUntoldFor H.seen) }
{
    match world.step(home, number, &event) {
        Ok(items) => {
            tell(told, number, event, items.as_slice())?;
            decisions.note_all(world, items.as_slice())?;
            Ok(())
        }
        Err(fault) => Err(undone(event, fault)),
    }
}

/// Makes so many events of the trial with this number, does and tells them.
pub(crate) fn play_all<E: Engine + Drop, H: Home>(
    alloc: Global,
    number: u64,
    events: u32,
    world: &mut World<E>,
    home: &mut H,
    told: &mut Told,
    decisions: &mut Decisions,
) -> Result<(), WorldFault>
    requires events { events ≤ most_trial_events }
    requires held { AreHeld (H.seen home.old) world.old }
    requires stands { (o : Opened) × RepresentsWorld E.takes E.stands_for world.old (start_of o) × AreRun (start_of o) decisions.old (start_of o).decided }
    ensures gone { (o : Opened) → RepresentsWorld E.takes E.stands_for world.old (start_of o) → AreRun (start_of o) decisions.old (start_of o).decided →
        OnOk result (HasGone E.takes E.stands_for o number events told.old told.new decisions.new world.new) }
    ensures held { OnOk result (AreHeld (H.seen home.new) world.new) }
    ensures ended { Ended (H.seen home.old).faults (H.seen home.new).faults result }
    ensures untold { IfErr result (IsUntoldFor H.seen) }
{
    let mut maker = Maker::new(alloc, number);
    for place in 0..events {
        let event = maker.next(world.wire())?;
        fields_in_sets(&event);
        play(world, home, told, decisions, place + 2, event)?;
    }
    Ok(())
}
