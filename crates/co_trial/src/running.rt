//! One trial.
ghost use Rattle.std.specs.Prelude.{IfErr, ◌≡◌, ◌<◌, ◌≤◌, [], Some, IfOk, OnOk};
ghost use Rattle.sha2.specs.Hashers.{Holds256};
ghost use Rattle.co_base.specs.declared.head.Kind.{Kind};
ghost use Rattle.co_law_settle.specs.SettlingTurns.{NothingOpen};
ghost use Rattle.co_outside.specs.declared.spot.Spot.{Spot};
ghost use Rattle.co_outside.specs.Home.{empty_file};
ghost use Rattle.co_plain.specs.Federation.{Federation};
ghost use Rattle.co_replay.specs.Transcript.{items_text};
ghost use Rattle.co_cluster.specs.Conditions.{IsReady};
ghost use Rattle.co_world.specs.Standing.{RepresentsWorld, AreHeld};
ghost use Rattle.co_trial.specs.Decisions.{AreRun};
ghost use Rattle.co_settle.specs.Progress.{IsUntoldFor};
ghost use Rattle.co_trial.specs.Ended.{Ended};
ghost use Rattle.co_trial.specs.Playing.{IsDone};
ghost use Rattle.co_trial.specs.Trials.{IsTrial, Opened, most_trial_events, start_of, opening_told};

use crate::calm::CalmHome;
use crate::deciding::Decisions;
use crate::making::trial_head;
use crate::playing::play_all;
use crate::summary::Summary;
use crate::tally::Told;
use co_any::AnyEngine;
use co_durable::WorldFault;
use co_engine::Engine;
use co_outside::Home;
use co_settle::{Steps, settle};
use co_world::World;
use std::alloc::{AllocError, Global};

/// Runs the events of the trial with this number, and settles it. Gives how many events settling took.
fn run_events<E: Engine + Drop, H: Home>(
    alloc: Global,
    number: u64,
    events: u32,
    world: &mut World<E>,
    home: &mut H,
    told: &mut Told,
    decisions: &mut Decisions,
) -> Result<u64, WorldFault>
    requires events { events ≤ most_trial_events }
    requires held { AreHeld (H.seen home.old) world.old }
    requires stands { (o : Opened) × RepresentsWorld E.takes E.stands_for world.old (start_of o) × AreRun (start_of o) decisions.old (start_of o).decided × Holds256 told.old.hasher (items_text (opening_told o)) }
    ensures done { IfOk result (λ settled. (o : Opened) × IsDone E.takes E.stands_for o number events told.new decisions.new world.new settled) }
    ensures ended { Ended (H.seen home.old).faults (H.seen home.new).faults result }
    ensures untold { IfErr result (IsUntoldFor H.seen) }
{
    play_all(alloc, number, events, world, home, told, decisions)?;
    let mut steps = Steps::new();
    let items = settle(alloc, world, home, events + 1, &mut steps)?;
    told.tell_all(items.as_slice())?;
    decisions.note_all(world, items.as_slice())?;
    Ok(steps.count())
}

/// How many transactions are open, where none is.
fn left_open<E: Engine + Drop>(world: &World<E>) -> Result<u64, AllocError>
    requires { (s : Federation) × RepresentsWorld E.takes E.stands_for world.now s × IsReady s × NothingOpen s }
    ensures { IfOk result (λ count. count ≡ 0) }
{
    let open = world.still_open()?;
    Ok(open.as_slice().len() as u64)
}

/// Sums up a trial that was run to its end.
fn sum_up<E: Engine + Drop>(
    alloc: Global,
    number: u64,
    events: u32,
    settled: u64,
    told: Told,
    decisions: &Decisions,
    world: &World<E>,
) -> Result<Summary, AllocError>
    requires { (o : Opened) × IsDone E.takes E.stands_for o number events told decisions.now world.now settled }
    ensures { IfOk result (IsTrial number events) }
{
    let durable = world.durable()?;
    let equal = decisions.leave(alloc, 3, &durable)?;
    let open = left_open(world)?;
    let digest = told.digest(alloc)?;
    Ok(Summary {
        begun: world.begun() as u64,
        committed: decisions.count(),
        digest,
        equal,
        events,
        number,
        open,
        settled,
    })
}

/// Opens the federation of a trial over an empty directory, and tells its head.
fn open<E: Engine + Drop, H: Home>(
    alloc: Global,
    home: &mut H,
    told: &mut Told,
) -> Result<World<E>, WorldFault>
    requires kinds { (kind : Kind) → E.takes kind }
    requires empty { (s : Spot) → s.part < 2 → (H.seen home.old).file s ≡ Some empty_file }
    requires nothing { Holds256 told.old.hasher [] }
    ensures opened { IfOk result (λ world. (o : Opened) × RepresentsWorld E.takes E.stands_for world (start_of o) × Holds256 told.new.hasher (items_text (opening_told o))) }
    ensures held { IfOk result (AreHeld (H.seen home.new)) }
    ensures ended { Ended (H.seen home.old).faults (H.seen home.new).faults result }
    ensures untold { IfErr result (IsUntoldFor H.seen) }
{
    let head = trial_head(alloc)?;
    match World::<E>::attach(alloc, home, &head, false) {
        Ok((world, items)) => {
            let put = told.tell_opening(head, items.as_slice());
            drop(items);
            match put {
                Ok(()) => Ok(world),
                Err(AllocError) => {
                    drop(world);
                    Err(WorldFault::Memory)
                }
            }
        }
        Err(fault) => Err(fault),
    }
}

/// Runs the trial of this number over an empty directory.
fn trial_in<E: Engine + Drop, H: Home>(
    alloc: Global,
    home: &mut H,
    number: u64,
    events: u32,
) -> Result<Summary, WorldFault>
    requires kinds { (kind : Kind) → E.takes kind }
    requires few { events ≤ most_trial_events }
    requires empty { (s : Spot) → s.part < 2 → (H.seen home.old).file s ≡ Some empty_file }
    ensures trial { IfOk result (IsTrial number events) }
    ensures ended { Ended (H.seen home.old).faults (H.seen home.new).faults result }
    ensures untold { IfErr result (IsUntoldFor H.seen) }
{
    let mut told = Told::new(alloc);
    let mut decisions = Decisions::new(alloc);
    let mut world = open::<E, H>(alloc, home, &mut told)?;
    match run_events(
        alloc,
        number,
        events,
        &mut world,
        home,
        &mut told,
        &mut decisions,
    ) {
        Ok(settled) => {
            let summary = sum_up(alloc, number, events, settled, told, &decisions, &world);
            drop(world);
            Ok(summary?)
        }
        Err(fault) => {
            drop(world);
            drop(told);
            Err(fault)
        }
    }
}

/// Runs the trial of this number, with so many events before it is settled, over a directory in memory that never fails. No log gets too long.
///
/// There is an error only where there was no memory.
pub fn trial(alloc: Global, number: u64, events: u32) -> Result<Summary, AllocError>
    requires some { 1 ≤ events }
    requires few { events ≤ most_trial_events }
    ensures trial { IfOk result (IsTrial number events) }
{
    let mut home = CalmHome::new(alloc);
    match trial_in::<AnyEngine, CalmHome>(alloc, &mut home, number, events) {
        Ok(summary) => Ok(summary),
        Err(WorldFault::Memory) => Err(AllocError),
        Err(_) => unreachable!(),
    }
}
