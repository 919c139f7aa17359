//! One turn of settling: a restart, an exchange or a timer.
ghost use Rattle.std.specs.Prelude.{IfErr, ◌≡◌, ◌<◌};
ghost use Rattle.co_plain.specs.Federation.{Federation};
ghost use Rattle.co_world.specs.Standing.{RepresentsWorld, AreHeld};
ghost use Rattle.co_law_settle.specs.SettlingTurns.{SomethingOpen};
ghost use Rattle.co_settle.specs.Busy.{AreKnown};
ghost use Rattle.co_settle.specs.Progress.{EndsAs, IsUntoldFor};
ghost use Rattle.co_settle.specs.Reached.{IsReached};
ghost use Rattle.co_settle.specs.Turning.{TakesTurn};

use crate::candidates::Candidates;
use crate::counting::Steps;
use crate::exchanges::do_exchange;
use crate::notes::{Want, numbers_in_range};
use crate::telling::{Told, take_step};
use co_durable::WorldFault;
use co_engine::Engine;
use co_message::Event;
use co_outside::Home;
use co_world::World;

/// Takes the turn that the federation calls for, in which something is open.
pub(crate) fn take_turn<E: Engine + Drop, H: Home>(
    world: &mut World<E>,
    home: &mut H,
    told: &mut Told,
    steps: &mut Steps,
    candidates: &mut Candidates,
) -> Result<(), WorldFault>
    requires number { told.old.number < 4294967293 }
    requires count { steps.old.count < 18446744073709551613 }
    requires held { AreHeld (H.seen home.old) world.old }
    requires stands { (s : Federation) × RepresentsWorld E.takes E.stands_for world.old s × IsReached s × SomethingOpen s × AreKnown s candidates.old.numbers }
    ensures did { (s : Federation) → RepresentsWorld E.takes E.stands_for world.old s → IsReached s → AreKnown s candidates.old.numbers →
        TakesTurn E.takes E.stands_for s told.old told.new steps.old steps.new world.new (H.seen home.new).file result }
    ensures busy { (s : Federation) → RepresentsWorld E.takes E.stands_for world.old s → IsReached s → AreKnown s candidates.old.numbers → AreKnown s candidates.new.numbers }
    ensures ended { EndsAs world.new (H.seen home.old) (H.seen home.new) result }
    ensures untold { IfErr result (IsUntoldFor H.seen) }
    ensures entered { (H.seen home.new).entered ≡ (H.seen home.old).entered }
{
    if let Some(node) = world.first_down() {
        let _ = take_step(
            world,
            home,
            told,
            steps,
            Event::Restart(node),
            Want::Nothing,
            0,
        )?;
        return Ok(());
    }
    if let Some(exchange) = candidates.first_exchange(world) {
        return do_exchange(world, home, told, steps, exchange);
    }
    match world.first_timer() {
        Some(due) => {
            numbers_in_range(due.txn, 0);
            let event = Event::Timer {
                txn: due.txn,
                node: due.node,
            };
            let _ = take_step(world, home, told, steps, event, Want::Nothing, 0)?;
            Ok(())
        }
        None => unreachable!(),
    }
}
