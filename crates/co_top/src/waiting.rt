//! The held votes at the end of a schedule, and their knot.
ghost use Rattle.std.specs.Prelude.{◌≡◌, ◌↔◌, ℕ, List, Some, AllPairs, Contains, IfErr, IfOk, IsErrOf};
ghost use Rattle.co_base.specs.declared.head.Kind.{Kind};
ghost use Rattle.co_cluster.specs.Listed.{IsWait};
ghost use Rattle.co_outside.specs.Faults.{HasRisen};
ghost use Rattle.co_plain.specs.Federation.{Federation};
ghost use Rattle.co_wait.specs.Chains.{IsWaitBefore};
ghost use Rattle.co_wait.specs.Text.{waits_text};
ghost use Rattle.co_wait.specs.declared.wait.Wait.{Wait};
ghost use Rattle.co_world.specs.Standing.{RepresentsWorld};
ghost use Rattle.co_top.specs.Replayed.{status_of};
ghost use Rattle.co_top.specs.Telling.{IsTextPut};
ghost use Rattle.co_top.specs.Following.{IsFollowedEnd, IsOfFollowed};
ghost use Rattle.co_top.specs.Waiting.{HasWaits, text_of_waits};

use crate::following::reached;
use crate::playing::put;
use crate::status::Status;
use co_engine::Engine;
use co_outside::{Sink, Source};
use co_wait::{Knot, Waits, untangle, waits_text};
use co_world::World;
use std::alloc::{AllocError, Global};

/// The held votes of a federation, which is let go.
fn held_votes<E: Engine + Drop>(world: World<E>) -> Result<Waits, AllocError>
    requires stands { (s : Federation) × RepresentsWorld E.takes E.stands_for world s }
    ensures ascending { IfOk result (AllPairs IsWaitBefore) }
    ensures waits { (s : Federation) → RepresentsWorld E.takes E.stands_for world s → IfOk result (λ waits. (w : Wait) → Contains waits w ↔ IsWait s w) }
{
    let waits = world.waits();
    drop(world);
    waits
}

/// Puts the text of waits and of their knot.
fn tell_waits<K: Sink>(alloc: Global, out: &mut K, waits: &Waits, knot: &Knot) -> Result<(), Status>
    ensures told { IsTextPut (waits_text waits.now knot.now) (K.told out.old) (K.told out.new) result }
    ensures failed { IsErrOf result Status.Write → HasRisen (K.faults out.old) (K.faults out.new) }
    ensures quiet { (IsErrOf result Status.Write → ⊥) → K.faults out.new ≡ K.faults out.old }
{
    let text = waits_text(alloc, waits, knot)?;
    put(alloc, out, &text)
}

/// Follows the schedule of the source, and puts the held votes of its end and their knot.
fn told_waits<E: Engine + Drop, S: Source, K: Sink>(
    alloc: Global,
    source: &mut S,
    out: &mut K,
) -> Result<(), Status>
    requires kinds { (kind : Kind) → E.takes kind }
    ensures end { (input held : List ℕ) → S.left source.old ≡ Some input → K.told out.old ≡ Some held → IsFollowedEnd input HasWaits text_of_waits held (K.told out.new) (status_of result) }
    ensures own { IsOfFollowed (status_of result) }
    ensures read { IsErrOf result Status.Read → HasRisen (S.faults source.old) (S.faults source.new) }
    ensures write { IsErrOf result Status.Write → HasRisen (K.faults out.old) (K.faults out.new) }
    ensures quiet_source { (IsErrOf result Status.Read → ⊥) → S.faults source.new ≡ S.faults source.old }
    ensures quiet_sink { (IsErrOf result Status.Write → ⊥) → K.faults out.new ≡ K.faults out.old }
{
    let (world, _) = reached::<E, S>(alloc, source, &None)?;
    let waits = held_votes(world)?;
    let knot = untangle(alloc, &waits)?;
    tell_waits(alloc, out, &waits, &knot)
}

/// Follows the schedule of the source over fresh logs in memory, and puts the held votes of its end and their knot. The engine is one that takes every
/// kind.
pub(crate) fn waits<E: Engine + Drop, S: Source, K: Sink>(
    alloc: Global,
    source: &mut S,
    out: &mut K,
) -> Status
    requires kinds { (kind : Kind) → E.takes kind }
    ensures end { (input held : List ℕ) → S.left source.old ≡ Some input → K.told out.old ≡ Some held → IsFollowedEnd input HasWaits text_of_waits held (K.told out.new) result }
    ensures own { IsOfFollowed result }
    ensures read { result ≡ Status.Read → HasRisen (S.faults source.old) (S.faults source.new) }
    ensures write { result ≡ Status.Write → HasRisen (K.faults out.old) (K.faults out.new) }
    ensures quiet_source { (result ≡ Status.Read → ⊥) → S.faults source.new ≡ S.faults source.old }
    ensures quiet_sink { (result ≡ Status.Write → ⊥) → K.faults out.new ≡ K.faults out.old }
{
    match told_waits::<E, S, K>(alloc, source, out) {
        Ok(()) => Status::Done,
        Err(status) => status,
    }
}
