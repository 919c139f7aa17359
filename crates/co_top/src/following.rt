//! A schedule is followed to its end over a directory in memory, and nothing is told of it. A reader may come behind one of its lines.
ghost use Rattle.std.specs.Prelude.{◌≡◌, ℕ, List, [], None, Some, length, IfErr, IfOk, OnOk, IsErrOf};
ghost use Rattle.co_base.specs.declared.head.Kind.{Kind};
ghost use Rattle.co_outside.specs.Faults.{HasRisen};
ghost use Rattle.co_plain.specs.Federation.{Federation};
ghost use Rattle.co_plain.specs.Step.{step_line};
ghost use Rattle.co_schedule.specs.Lines.{ahead};
ghost use Rattle.co_schedule.specs.View.{IsEventFor};
ghost use Rattle.co_trial.specs.Calm.{calm_seen};
ghost use Rattle.co_cluster.specs.Conditions.{IsReady};
ghost use Rattle.co_world.specs.Standing.{RepresentsWorld, AreHeld};
ghost use Rattle.co_top.specs.Ends.{of_world};
ghost use Rattle.co_top.specs.Following.{HasReached, IsFollowed, IsUnreached, IsOfSchedule, IsOfEvent};
ghost use Rattle.co_top.specs.Front.{HasRead};
ghost use Rattle.co_top.specs.Played.{StaysReady};
ghost use Rattle.co_top.specs.Sights.{SeesIf, SeesNextIf, IsAskIf, IsOwnIf};
ghost use Rattle.co_top.specs.Telling.{IsToldOf};

use crate::lines::event_of;
use crate::reader::{Ask, Looked, see_line, seen_of_head};
use crate::replay::{LINES, attach, read_first};
use crate::status::{Status, of_world};
use co_base::Head;
use co_durable::WorldFault;
use co_engine::Engine;
use co_message::Event;
use co_outside::Source;
use co_schedule::Lines;
use co_trial::CalmHome;
use co_world::World;
use std::alloc::Global;

/// The status of an event that was not done.
fn undone(_event: Event, fault: WorldFault) -> Status
    ensures { result ≡ of_world fault }
{
    of_world(fault)
}

/// Does the event of the line of this number.
fn do_event<E: Engine + Drop>(
    world: &mut World<E>,
    home: &mut CalmHome,
    number: u32,
    event: Event,
) -> Result<(), Status>
    requires event { IsEventFor (length world.old.cluster.members.items) (length world.old.cluster.coords.items) event }
    requires held { AreHeld (calm_seen home.old.memory) world.old }
    requires stands { (s : Federation) × RepresentsWorld E.takes E.stands_for world.old s × IsReady s }
    ensures done { (s : Federation) → RepresentsWorld E.takes E.stands_for world.old s → IsReady s →
        IsToldOf E.takes E.stands_for s number event None None (calm_seen home.new.memory) world.new result }
    ensures own { IfErr result IsOfEvent }
{
    match world.step(home, number, &event) {
        Ok(_) => Ok(()),
        Err(fault) => Err(undone(event, fault)),
    }
}

/// Does the event of the line of this number, and tells what the reader sees then.
fn follow_event<E: Engine + Drop>(
    alloc: Global,
    world: &mut World<E>,
    home: &mut CalmHome,
    number: u32,
    event: Event,
    ask: &Option<Ask>,
    seen: &mut Looked,
) -> Result<(), Status>
    requires event { IsEventFor (length world.old.cluster.members.items) (length world.old.cluster.coords.items) event }
    requires held { AreHeld (calm_seen home.old.memory) world.old }
    requires stands { (s : Federation) × RepresentsWorld E.takes E.stands_for world.old s × IsReady s × IsOwnIf (length (step_line s event).state.kinds) ask.now seen.old }
    requires ask { IsAskIf ask.now }
    ensures done { (s : Federation) → RepresentsWorld E.takes E.stands_for world.old s → IsReady s →
        IsToldOf E.takes E.stands_for s number event None None (calm_seen home.new.memory) world.new result }
    ensures seen { (s : Federation) → RepresentsWorld E.takes E.stands_for world.old s → IsReady s → OnOk result (SeesNextIf number (step_line s event).state ask.now seen.old seen.new) }
    ensures own { IfErr result IsOfEvent }
{
    do_event(world, home, number, event)?;
    see_line(alloc, world, number, ask, seen)?;
    Ok(())
}

/// Does the lines behind the head, up to the end or to the first line that gives no event. Gives the number of the last line.
fn follow_lines<E: Engine + Drop, S: Source>(
    alloc: Global,
    lines: &mut Lines,
    source: &mut S,
    head: &Head,
    world: &mut World<E>,
    home: &mut CalmHome,
    ask: &Option<Ask>,
    seen: &mut Looked,
) -> Result<u32, Status>
    requires read { HasRead 1 lines.old }
    requires held { AreHeld (calm_seen home.old.memory) world.old }
    requires stands { (s0 : Federation) × RepresentsWorld E.takes E.stands_for world.old s0 × StaysReady head.now s0 }
    requires ask { IsAskIf ask.now }
    requires seen { (s0 : Federation) → RepresentsWorld E.takes E.stands_for world.old s0 → SeesIf (length head.now.kinds) s0 [] ask.now seen.old }
    ensures over { (s0 : Federation) → RepresentsWorld E.takes E.stands_for world.old s0 → StaysReady head.now s0 →
        IsFollowed E.takes E.stands_for head.now s0 (ahead lines.old (S.left source.old)) (S.left source.new) (calm_seen home.new.memory) world.new ask.now seen.new result }
    ensures own { IfErr result IsOfSchedule }
    ensures read { IsErrOf result Status.Read → HasRisen (S.faults source.old) (S.faults source.new) }
    ensures quiet { (IsErrOf result Status.Read → ⊥) → S.faults source.new ≡ S.faults source.old }
{
    for number in 2..LINES + 2 {
        match event_of(alloc, lines, source, head, number)? {
            Some(event) => follow_event(alloc, world, home, number, event, ask, seen)?,
            None => return Ok(number - 1),
        }
    }
    unreachable!()
}

/// The federation at the end of the schedule of the source, over fresh logs in memory, and what the reader has come to, where there is one.
pub(crate) fn reached<E: Engine + Drop, S: Source>(
    alloc: Global,
    source: &mut S,
    ask: &Option<Ask>,
) -> Result<(World<E>, Looked), Status>
    requires kinds { (kind : Kind) → E.takes kind }
    requires ask { IsAskIf ask.now }
    ensures stands { IfOk result (λ r. (s : Federation) × RepresentsWorld E.takes E.stands_for r.0 s) }
    ensures reached { (input : List ℕ) → S.left source.old ≡ Some input → IfOk result (λ r. HasReached E.takes E.stands_for input ask.now r.0 r.1) }
    ensures unreached { (input : List ℕ) → S.left source.old ≡ Some input → IfErr result (IsUnreached input) }
    ensures own { IfErr result IsOfSchedule }
    ensures read { IsErrOf result Status.Read → HasRisen (S.faults source.old) (S.faults source.new) }
    ensures quiet { (IsErrOf result Status.Read → ⊥) → S.faults source.new ≡ S.faults source.old }
{
    let (mut lines, head) = read_first(alloc, source)?;
    let mut home = CalmHome::new(alloc);
    let (mut world, _) = attach::<E, CalmHome>(alloc, &mut home, &head, false)?;
    let mut seen = seen_of_head(alloc, &world, head.kinds.len() as u8, ask)?;
    match follow_lines(
        alloc, &mut lines, source, &head, &mut world, &mut home, ask, &mut seen,
    ) {
        Ok(_) => Ok((world, seen)),
        Err(status) => {
            drop(world);
            drop(seen);
            Err(status)
        }
    }
}
