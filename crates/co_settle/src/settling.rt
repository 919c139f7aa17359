//! What is open is brought to its end.
ghost use Rattle.std.specs.Prelude.{IfErr, ◌≡◌, ◌≤◌};
ghost use Rattle.co_base.specs.Limits.{most_transactions};
ghost use Rattle.co_plain.specs.Federation.{Federation};
ghost use Rattle.co_plain.specs.Quiet.{open_count};
ghost use Rattle.co_world.specs.Standing.{RepresentsWorld, AreHeld};
ghost use Rattle.co_settle.specs.Progress.{EndsAs, IsUntoldFor};
ghost use Rattle.co_settle.specs.Reached.{IsReached};
ghost use Rattle.co_settle.specs.Settled.{SettlesAs};

use crate::candidates::Candidates;
use crate::counting::Steps;
use crate::telling::Told;
use crate::turns::take_turn;
use co_durable::WorldFault;
use co_engine::Engine;
use co_message::Items;
use co_outside::Home;
use co_world::World;
use std::alloc::Global;

/// More turns than settling ever takes: each has an event, and with 65,536 open transactions, 16 members and 8 coordinators there are at most
/// `24 + 3 * (4 * 16 * 65,536 + 3 * 65,536)`.
const TURNS: u32 = 13_172_761;

/// Takes the armed stop of every node away, and then settles: starts nodes that are down again, carries out exchanges that can help, and lets
/// a timer fire where none can, until nothing is open. Where nothing is open no step is taken, though a node may be down.
///
/// Gives each event and what came of it, with the numbers that follow the given one. `steps` rises by one for each event, and the events are
/// no more than `24 + 3 * (4 * pairs + 3 * transactions)`, counted over what is open at the start.
///
/// The federation is one that a run over sound logs left, with at most 65,536 open transactions. `Device`, `Differs`, `Full` and `Memory`
/// come as a step of the federation says; the other faults never come. A fault leaves in the files what some of the events left.
pub fn settle<E: Engine + Drop, H: Home>(
    alloc: Global,
    world: &mut World<E>,
    home: &mut H,
    number: u32,
    steps: &mut Steps,
) -> Result<Items, WorldFault>
    requires number { number ≤ 4000000000 }
    requires count { steps.old.count ≤ 4000000000 }
    requires held { AreHeld (H.seen home.old) world.old }
    requires stands { (s : Federation) × RepresentsWorld E.takes E.stands_for world.old s × IsReached s × (open_count s ≤ most_transactions) }
    ensures settled { (s : Federation) → RepresentsWorld E.takes E.stands_for world.old s → IsReached s → open_count s ≤ most_transactions →
        SettlesAs E.takes E.stands_for s number steps.old.count world.new steps.new.count (H.seen home.new).file result }
    ensures ended { EndsAs world.new (H.seen home.old) (H.seen home.new) result }
    ensures untold { IfErr result (IsUntoldFor H.seen) }
    ensures entered { (H.seen home.new).entered ≡ (H.seen home.old).entered }
{
    world.disarm();
    let mut told = Told {
        number,
        items: Items::new(alloc),
    };
    let mut candidates = Candidates::new();
    for _turn in 0..TURNS {
        if !world.anything_open()? {
            return Ok(told.items);
        }
        candidates.collect(alloc, world)?;
        take_turn(world, home, &mut told, steps, &mut candidates)?;
    }
    unreachable!()
}
