//! The turn of one doubt: its member asks one other member after the other.
ghost use Rattle.std.specs.Prelude.{◌≡◌, ◌≤◌, length, IfErr};
ghost use Rattle.co_opening.specs.Rest.{OnlyOwnFilesChange};
ghost use Rattle.co_plain.specs.Federation.{Federation};
ghost use Rattle.co_world.specs.Standing.{RepresentsWorld, AreHeld};
ghost use Rattle.co_settle.specs.Reached.{IsReached};
ghost use Rattle.co_settle.specs.Progress.{EndsAs};
ghost use Rattle.co_coop.specs.Consulted.{FaultLeaves};
ghost use Rattle.co_coop.specs.Turn.{is_verdict, MayAsk, AsksAs};

use crate::consulting::consult;
use co_cluster::Doubt;
use co_durable::WorldFault;
use co_engine::Engine;
use co_law_coop::Told;
use co_message::Items;
use co_outside::Home;
use co_world::World;
use std::alloc::Global;

/// Whether what was told is a verdict.
fn is_verdict(told: Told) -> bool
    ensures { result ≡ is_verdict told }
{
    match told {
        Told::Commit | Told::Abort => true,
        Told::Settled | Told::Down | Told::InDoubt | Told::Stranger | Told::Reachable => false,
    }
}

/// A member in doubt asks the other members of the head, ascending, until one tells a verdict. Gives the items of the consultation that told
/// it; none where none did. Conditions and faults are those of [`consult`].
pub fn consult_others<E: Engine + Drop, H: Home>(
    alloc: Global,
    world: &mut World<E>,
    home: &mut H,
    members: u8,
    number: u32,
    doubt: &Doubt,
) -> Result<Items, WorldFault>
    requires number { number ≤ 4000000000 }
    requires held { AreHeld (H.seen home.old) world.old }
    requires asks { (s : Federation) × RepresentsWorld E.takes E.stands_for world.old s × IsReached s × MayAsk s doubt.now × (members ≡ length s.kinds) }
    ensures did { (s : Federation) → RepresentsWorld E.takes E.stands_for world.old s → IsReached s → MayAsk s doubt.now →
        AsksAs E.takes E.stands_for s number doubt.now world.new (H.seen home.new).file result }
    ensures ended { EndsAs world.new (H.seen home.old) (H.seen home.new) result }
    ensures fault { IfErr result (FaultLeaves (H.seen home.old) (H.seen home.new)) }
    ensures rest { (s : Federation) → RepresentsWorld E.takes E.stands_for world.old s → OnlyOwnFilesChange (length s.kinds) s.coordinators (H.seen home.old) (H.seen home.new) }
{
    for place in 0..members {
        let other = place + 1;
        if other != doubt.member {
            let same = Doubt {
                txn: doubt.txn,
                member: doubt.member,
                coord: doubt.coord,
            };
            let consulted = consult(alloc, world, home, number, same, other)?;
            if is_verdict(consulted.told) {
                return Ok(consulted.items);
            }
        }
    }
    Ok(Items::new(alloc))
}
