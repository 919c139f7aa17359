//! One consultation: what the other member tells is done and told.
ghost use Rattle.std.specs.Prelude.{◌≡◌, ◌≤◌, ◌<◌, ◌+◌, ◌++◌, ◌∷◌, [], true, length, IfErr, OnOk};
ghost use Rattle.co_base.specs.declared.node.Node.TheVariants as node;
ghost use Rattle.co_message.specs.declared.event.Event.TheVariants as event;
ghost use Rattle.co_message.specs.declared.item.ItemKind.TheVariants as item;
ghost use Rattle.co_opening.specs.Rest.{OnlyOwnFilesChange};
ghost use Rattle.co_plain.specs.Federation.{Federation};
ghost use Rattle.co_plain.specs.Quiet.{IsMember};
ghost use Rattle.co_plain.specs.Runs.{numbered};
ghost use Rattle.co_plain.specs.declared.happening.Happening.TheVariants as happening;
ghost use Rattle.co_world.specs.Standing.{RepresentsWorld, AreHeld};
ghost use Rattle.co_settle.specs.Reached.{IsReached};
ghost use Rattle.co_settle.specs.Progress.{EndsAs};
ghost use Rattle.co_coop.specs.Consulted.{MayConsult, IsVotedFor, FaultLeaves, ConsultsAs, DoesAlong, told_of_doubt, abort_happenings, consultation_of};

use crate::asking::{is_active, told_at_turn};
use co_base::{Node, Txn};
use co_cluster::Doubt;
use co_durable::WorldFault;
use co_engine::Engine;
use co_law_coop::Told;
use co_message::{Event, Item, ItemKind, Items, Message};
use co_outside::Home;
use co_world::World;
use std::alloc::{AllocError, Global};

/// What came of a consultation.
#[derive(Drop)]
pub struct Consulted {
    /// What the other member told.
    pub told: Told,
    /// The events that were done for it, and what came of them; none where no verdict was told.
    pub items: Items,
}

/// Adds an event and what came of it.
fn tell(items: &mut Items, number: u32, event: Event, told: Items) -> Result<(), AllocError>
    ensures { OnOk result (items.new ≡ items.old ++ numbered number (item.Event event ∷ []) ++ told) }
{
    items.push(Item {
        number,
        what: ItemKind::Event(event),
    })?;
    for item in told.into_vec() {
        items.push(item)?;
    }
    Ok(())
}

/// Hands a verdict to the member in doubt, as the decision that its coordinator would have sent, with this number.
fn hand<E: Engine + Drop, H: Home>(
    world: &mut World<E>,
    home: &mut H,
    number: u32,
    doubt: &Doubt,
    commit: bool,
    items: &mut Items,
) -> Result<(), WorldFault>
    requires held { AreHeld (H.seen home.old) world.old }
    requires voted { (s : Federation) × RepresentsWorld E.takes E.stands_for world.old s × IsVotedFor s doubt.now }
    ensures did { (s : Federation) → RepresentsWorld E.takes E.stands_for world.old s → IsVotedFor s doubt.now →
        DoesAlong E.takes E.stands_for s number (happening.Hand doubt.now.txn doubt.now.member commit ∷ []) items.old items.new world.new (H.seen home.new).file result }
    ensures ended { EndsAs world.new (H.seen home.old) (H.seen home.new) result }
    ensures fault { IfErr result (FaultLeaves (H.seen home.old) (H.seen home.new)) }
    ensures rest { (s : Federation) → RepresentsWorld E.takes E.stands_for world.old s → OnlyOwnFilesChange (length s.kinds) s.coordinators (H.seen home.old) (H.seen home.new) }
{
    let told = world.hand(home, number, doubt.member, doubt.txn, commit)?;
    let decision = Message::Decide {
        txn: doubt.txn,
        coord: doubt.coord,
        member: doubt.member,
        commit,
    };
    tell(items, number, Event::Deliver(decision), told)?;
    Ok(())
}

/// Has another member let go of an active transaction, with this number: its timer fires there.
fn let_go<E: Engine + Drop, H: Home>(
    world: &mut World<E>,
    home: &mut H,
    number: u32,
    t: Txn,
    other: u8,
    items: &mut Items,
) -> Result<(), WorldFault>
    requires held { AreHeld (H.seen home.old) world.old }
    requires stands { (s : Federation) × RepresentsWorld E.takes E.stands_for world.old s × IsReached s × IsMember s other }
    ensures did { (s : Federation) → RepresentsWorld E.takes E.stands_for world.old s → IsReached s →
        DoesAlong E.takes E.stands_for s number (happening.Line (event.Timer t (node.Member other)) ∷ []) items.old items.new world.new (H.seen home.new).file result }
    ensures ended { EndsAs world.new (H.seen home.old) (H.seen home.new) result }
    ensures fault { IfErr result (FaultLeaves (H.seen home.old) (H.seen home.new)) }
    ensures rest { (s : Federation) → RepresentsWorld E.takes E.stands_for world.old s → OnlyOwnFilesChange (length s.kinds) s.coordinators (H.seen home.old) (H.seen home.new) }
{
    let event = Event::Timer {
        txn: t,
        node: Node::Member(other),
    };
    match world.step(home, number, &event) {
        Ok(told) => {
            tell(items, number, event, told)?;
            Ok(())
        }
        Err(fault) => Err(undone(event, fault)),
    }
}

/// The fault of an event that was not done.
fn undone(_event: Event, fault: WorldFault) -> WorldFault
    ensures { result ≡ fault }
{
    fault
}

/// Hands an abort to the member in doubt; where the transaction is active at the other member, that lets go of it first.
fn abort<E: Engine + Drop, H: Home>(
    world: &mut World<E>,
    home: &mut H,
    number: u32,
    doubt: &Doubt,
    other: u8,
    items: &mut Items,
) -> Result<(), WorldFault>
    requires number { number < 4294967295 }
    requires held { AreHeld (H.seen home.old) world.old }
    requires asks { (s : Federation) × RepresentsWorld E.takes E.stands_for world.old s × IsReached s × MayConsult s doubt.now other × IsVotedFor s doubt.now × ((s.member other).up ≡ true) }
    ensures did { (s : Federation) → RepresentsWorld E.takes E.stands_for world.old s → IsReached s → MayConsult s doubt.now other → IsVotedFor s doubt.now →
        DoesAlong E.takes E.stands_for s number (abort_happenings s doubt.now other) items.old items.new world.new (H.seen home.new).file result }
    ensures ended { EndsAs world.new (H.seen home.old) (H.seen home.new) result }
    ensures fault { IfErr result (FaultLeaves (H.seen home.old) (H.seen home.new)) }
    ensures rest { (s : Federation) → RepresentsWorld E.takes E.stands_for world.old s → OnlyOwnFilesChange (length s.kinds) s.coordinators (H.seen home.old) (H.seen home.new) }
{
    if is_active(world.knows(other, doubt.txn)) {
        let_go(world, home, number, doubt.txn, other, items)?;
        return hand(world, home, number + 1, doubt, false, items);
    }
    hand(world, home, number, doubt, false, items)
}

/// Does what follows from what was told.
fn follow<E: Engine + Drop, H: Home>(
    world: &mut World<E>,
    home: &mut H,
    number: u32,
    doubt: &Doubt,
    other: u8,
    told: Told,
    items: &mut Items,
) -> Result<(), WorldFault>
    requires number { number < 4294967295 }
    requires held { AreHeld (H.seen home.old) world.old }
    requires asks { (s : Federation) × RepresentsWorld E.takes E.stands_for world.old s × IsReached s × MayConsult s doubt.now other × (told ≡ told_of_doubt s doubt.now other) }
    ensures did { (s : Federation) → RepresentsWorld E.takes E.stands_for world.old s → IsReached s → MayConsult s doubt.now other → told ≡ told_of_doubt s doubt.now other →
        DoesAlong E.takes E.stands_for s number (consultation_of s doubt.now other) items.old items.new world.new (H.seen home.new).file result }
    ensures ended { EndsAs world.new (H.seen home.old) (H.seen home.new) result }
    ensures fault { IfErr result (FaultLeaves (H.seen home.old) (H.seen home.new)) }
    ensures rest { (s : Federation) → RepresentsWorld E.takes E.stands_for world.old s → OnlyOwnFilesChange (length s.kinds) s.coordinators (H.seen home.old) (H.seen home.new) }
{
    match told {
        Told::Commit => hand(world, home, number, doubt, true, items),
        Told::Abort => abort(world, home, number, doubt, other, items),
        Told::Settled | Told::Down | Told::InDoubt | Told::Stranger | Told::Reachable => Ok(()),
    }
}

/// A member in doubt asks another member about its transaction, and takes the verdict that this one tells. What is told is the first of these
/// that applies: `Settled` where the member is down or has not voted the transaction, `Down` where the other one is down, `Commit` where the
/// transaction is installed there, `InDoubt` where it is voted there, `Stranger` where the client was told of no operations of it there in
/// this run, `Reachable` where its coordinator is up, and else `Abort`.
///
/// With `Commit` the member is handed a commit. With `Abort` the other one first lets go of the transaction where it is active there, by its
/// timer, and then the member is handed an abort. With the others nothing happens. Each event is an item, followed by those of what came of it,
/// with the numbers behind the given one. Every verdict that is told is true, as [`co_law_coop::handed_verdicts_are_true`] says.
///
/// The two members are different ones of the head, the federation is one that a run over sound logs left, and the doubt names the coordinator
/// of its transaction. `Device` comes where the directory failed, `Full` where a log would be too long, `Memory` where there was none, and
/// `Differs` only for a file that the directory does not tell; the other faults never come. A fault leaves in the files what some of the events left.
pub fn consult<E: Engine + Drop, H: Home>(
    alloc: Global,
    world: &mut World<E>,
    home: &mut H,
    number: u32,
    doubt: Doubt,
    other: u8,
) -> Result<Consulted, WorldFault>
    requires number { number ≤ 4000000000 }
    requires held { AreHeld (H.seen home.old) world.old }
    requires asks { (s : Federation) × RepresentsWorld E.takes E.stands_for world.old s × IsReached s × MayConsult s doubt other }
    ensures did { (s : Federation) → RepresentsWorld E.takes E.stands_for world.old s → IsReached s → MayConsult s doubt other →
        ConsultsAs E.takes E.stands_for s number doubt other world.new (H.seen home.new).file result }
    ensures ended { EndsAs world.new (H.seen home.old) (H.seen home.new) result }
    ensures fault { IfErr result (FaultLeaves (H.seen home.old) (H.seen home.new)) }
    ensures rest { (s : Federation) → RepresentsWorld E.takes E.stands_for world.old s → OnlyOwnFilesChange (length s.kinds) s.coordinators (H.seen home.old) (H.seen home.new) }
{
    let told = told_at_turn(world, &doubt, other);
    let mut items = Items::new(alloc);
    follow(world, home, number + 1, &doubt, other, told, &mut items)?;
    Ok(Consulted { told, items })
}
