//! An exchange: its first event, and the messages that it then delivers.
ghost use Rattle.std.specs.Prelude.{IfErr, ◌≡◌, ◌<◌, true, length};
ghost use Rattle.co_plain.specs.Federation.{Federation};
ghost use Rattle.co_plain.specs.Quiet.{IsEnabled};
ghost use Rattle.co_cluster.specs.Readings.{exchange_as, exchange_of};
ghost use Rattle.co_world.specs.Standing.{RepresentsWorld, AreHeld};
ghost use Rattle.co_law_settle.specs.SettlingTurns.{Exchanges, turn_events, first_event};
ghost use Rattle.co_settle.specs.Notes.{first_want, next_want, next_note, passed, MayPass};
ghost use Rattle.co_settle.specs.Progress.{DoesAll, EndsAs, IsUntoldFor};
ghost use Rattle.co_settle.specs.Reached.{IsReached};

use crate::counting::Steps;
use crate::notes::{Want, in_range, numbers_in_range};
use crate::telling::{Told, take_step};
use co_base::Txn;
use co_cluster::{Exchange, ExchangeKind};
use co_durable::WorldFault;
use co_engine::Engine;
use co_message::{Event, Message};
use co_outside::Home;
use co_world::World;

/// The event with which an exchange begins.
fn first_event(kind: ExchangeKind, txn: Txn, member: u8, coord: u8) -> Event
    ensures { result ≡ first_event (exchange_as kind txn member coord) }
{
    match kind {
        ExchangeKind::Prepare => Event::Resend { txn, coord },
        ExchangeKind::Vote => Event::Vote { txn, member },
        ExchangeKind::Commit => Event::Resend { txn, coord },
        ExchangeKind::Ask => Event::Ask { txn, member },
    }
}

/// The message that an exchange waits for first.
fn first_want(kind: ExchangeKind) -> Want
    ensures { result ≡ first_want kind }
{
    match kind {
        ExchangeKind::Prepare => Want::Prepare,
        ExchangeKind::Vote => Want::Vote,
        ExchangeKind::Commit => Want::Decide,
        ExchangeKind::Ask => Want::Ask,
    }
}

/// And the one that it waits for then.
fn next_want(kind: ExchangeKind) -> Want
    ensures { result ≡ next_want kind }
{
    match kind {
        ExchangeKind::Prepare => Want::Vote,
        ExchangeKind::Vote => Want::Nothing,
        ExchangeKind::Commit => Want::Ack,
        ExchangeKind::Ask => Want::Decide,
    }
}

/// Delivers a message, where there is one. Gives the first message that this sent and that is wanted.
fn pass_on<E: Engine + Drop, H: Home>(
    world: &mut World<E>,
    home: &mut H,
    told: &mut Told,
    steps: &mut Steps,
    sent: Option<Message>,
    want: Want,
    member: u8,
) -> Result<Option<Message>, WorldFault>
    requires in_head { MayPass (length world.old.cluster.members.items) (length world.old.cluster.coords.items) sent }
    requires number { told.old.number < 4294967295 }
    requires count { steps.old.count < 18446744073709551615 }
    requires held { AreHeld (H.seen home.old) world.old }
    requires stands { (s : Federation) × RepresentsWorld E.takes E.stands_for world.old s × IsReached s }
    ensures did { (s : Federation) → RepresentsWorld E.takes E.stands_for world.old s → IsReached s →
        DoesAll E.takes E.stands_for s (passed sent) told.old told.new steps.old steps.new world.new (H.seen home.new).file (λ note. note ≡ next_note want member s sent) result }
    ensures ended { EndsAs world.new (H.seen home.old) (H.seen home.new) result }
    ensures untold { IfErr result (IsUntoldFor H.seen) }
    ensures entered { (H.seen home.new).entered ≡ (H.seen home.old).entered }
{
    match sent {
        Some(note) => {
            in_range(&note);
            take_step(world, home, told, steps, Event::Deliver(note), want, member)
        }
        None => Ok(None),
    }
}

/// Carries an exchange out.
pub(crate) fn do_exchange<E: Engine + Drop, H: Home>(
    world: &mut World<E>,
    home: &mut H,
    told: &mut Told,
    steps: &mut Steps,
    exchange: Exchange,
) -> Result<(), WorldFault>
    requires number { told.old.number < 4294967293 }
    requires count { steps.old.count < 18446744073709551613 }
    requires held { AreHeld (H.seen home.old) world.old }
    requires stands { (s : Federation) × RepresentsWorld E.takes E.stands_for world.old s × IsReached s × IsEnabled s (exchange_of exchange) }
    ensures did { (s : Federation) → RepresentsWorld E.takes E.stands_for world.old s → IsReached s → IsEnabled s (exchange_of exchange) →
        DoesAll E.takes E.stands_for s (turn_events s (Exchanges (exchange_of exchange))) told.old told.new steps.old steps.new world.new (H.seen home.new).file (λ u. Unit {0}) result }
    ensures ended { EndsAs world.new (H.seen home.old) (H.seen home.new) result }
    ensures untold { IfErr result (IsUntoldFor H.seen) }
    ensures entered { (H.seen home.new).entered ≡ (H.seen home.old).entered }
{
    let Exchange {
        kind,
        txn,
        member,
        coord,
    } = exchange;
    numbers_in_range(txn, 0);
    let event = first_event(kind, txn, member, coord);
    let first = first_want(kind);
    let next = next_want(kind);
    let sent = take_step(world, home, told, steps, event, first, member)?;
    let answer = pass_on(world, home, told, steps, sent, next, member)?;
    let _ = pass_on(world, home, told, steps, answer, Want::Nothing, member)?;
    Ok(())
}
