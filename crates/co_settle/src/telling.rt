//! One event of settling: it is done, told and counted.
ghost use Rattle.std.specs.Prelude.{IfErr, ◌≡◌, ◌<◌, ◌+◌, ◌++◌, ◌∷◌, [], length, OnOk};
ghost use Rattle.co_message.specs.declared.item.ItemKind.TheVariants as item;
ghost use Rattle.co_plain.specs.Federation.{Federation};
ghost use Rattle.co_plain.specs.Runs.{numbered};
ghost use Rattle.co_plain.specs.Step.{step_line};
ghost use Rattle.co_schedule.specs.View.{IsEventFor};
ghost use Rattle.co_session.specs.Clients.{Clients};
ghost use Rattle.co_cluster.specs.Conditions.{IsReady};
ghost use Rattle.co_world.specs.Counting.{MeetsLimit};
ghost use Rattle.co_world.specs.Standing.{RepresentsWorld, AreHeld};
ghost use Rattle.co_law_settle.specs.SettlingTurns.{note_in};
ghost use Rattle.co_settle.specs.Notes.{wanted_by};
ghost use Rattle.co_settle.specs.Progress.{DoesAll, EndsAs, IsUntoldFor};

use crate::counting::Steps;
use crate::notes::{Want, first_wanted};
use co_durable::WorldFault;
use co_engine::Engine;
use co_message::{Event, Item, ItemKind, Items, Message};
use co_outside::Home;
use co_world::World;
use std::alloc::AllocError;

/// What was told so far.
#[derive(Drop)]
pub(crate) struct Told {
    /// The number of the last event.
    pub(crate) number: u32,
    pub(crate) items: Items,
}

impl Told {
    /// Adds an event and what came of it.
    fn tell(&mut self, event: Event, items: Items) -> Result<(), AllocError>
        requires { self.old.number < 4294967295 }
        ensures { OnOk result ((self.new.number ≡ self.old.number + 1) × (self.new.items ≡ self.old.items ++ numbered (self.old.number + 1) (item.Event event ∷ []) ++ items)) }
    {
        self.number += 1;
        self.items.push(Item {
            number: self.number,
            what: ItemKind::Event(event),
        })?;
        for item in items.into_vec() {
            self.items.push(item)?;
        }
        Ok(())
    }
}

/// The fault of an event that was not done.
fn undone(_event: Event, fault: WorldFault) -> WorldFault
    ensures { result ≡ fault }
{
    fault
}

/// Does an event, tells it, and counts it. Gives the first message that the event sent and that is wanted.
pub(crate) fn take_step<E: Engine + Drop, H: Home>(
    world: &mut World<E>,
    home: &mut H,
    told: &mut Told,
    steps: &mut Steps,
    event: Event,
    want: Want,
    member: u8,
) -> Result<Option<Message>, WorldFault>
    requires event { IsEventFor (length world.old.cluster.members.items) (length world.old.cluster.coords.items) event }
    requires limit { (x : Clients) → MeetsLimit x event → ⊥ }
    requires number { told.old.number < 4294967295 }
    requires count { steps.old.count < 18446744073709551615 }
    requires held { AreHeld (H.seen home.old) world.old }
    requires stands { (s : Federation) × RepresentsWorld E.takes E.stands_for world.old s × IsReady s }
    ensures did { (s : Federation) → RepresentsWorld E.takes E.stands_for world.old s → IsReady s →
        DoesAll E.takes E.stands_for s (event ∷ []) told.old told.new steps.old steps.new world.new (H.seen home.new).file (λ note. note ≡ note_in (wanted_by want member) (step_line s event).items) result }
    ensures ended { EndsAs world.new (H.seen home.old) (H.seen home.new) result }
    ensures untold { IfErr result (IsUntoldFor H.seen) }
    ensures entered { (H.seen home.new).entered ≡ (H.seen home.old).entered }
{
    match world.step(home, told.number + 1, &event) {
        Ok(items) => {
            let note = first_wanted(want, member, items.as_slice());
            told.tell(event, items)?;
            steps.count += 1;
            Ok(note)
        }
        Err(fault) => Err(undone(event, fault)),
    }
}
