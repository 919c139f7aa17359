//! A trial, and the line that it comes to.
ghost use Rattle.std.specs.Prelude.{◌≡◌, ◌≤◌, ℕ, List, Some, IfErr, IsErrOf, OnOk};
ghost use Rattle.co_outside.specs.Faults.{HasRisen};
ghost use Rattle.co_trial.specs.Trials.{IsTrial, most_trial_events};
ghost use Rattle.co_top.specs.Replayed.{status_of};
ghost use Rattle.co_top.specs.Trials.{IsSummaryTold, IsOfTrial, IsTrialEnd};

use crate::playing::put;
use crate::status::Status;
use co_outside::Sink;
use co_trial::Summary;
use std::alloc::{AllocError, Global};

/// Puts the line of a summary.
fn tell_summary<K: Sink>(alloc: Global, out: &mut K, summary: &Summary) -> Result<(), Status>
    ensures told { IsSummaryTold summary.now (K.told out.old) (K.told out.new) result }
    ensures failed { IsErrOf result Status.Write → HasRisen (K.faults out.old) (K.faults out.new) }
    ensures quiet { (IsErrOf result Status.Write → ⊥) → K.faults out.new ≡ K.faults out.old }
{
    let mut line = Vec::new(alloc);
    summary.put(alloc, &mut line)?;
    put(alloc, out, &line)
}

/// How putting the line of a summary ended, as a status.
fn ended(told: Result<(), Status>) -> Status
    ensures { result ≡ status_of told }
{
    match told {
        Ok(()) => Status::Done,
        Err(status) => status,
    }
}

/// Runs the trial with this number and so many events, and puts the line of its summary.
pub(crate) fn trial<K: Sink>(alloc: Global, number: u64, events: u32, out: &mut K) -> Status
    requires { (1 ≤ events) × (events ≤ most_trial_events) }
    ensures end { (held : List ℕ) → K.told out.old ≡ Some held → IsTrialEnd number events held (K.told out.new) result }
    ensures own { IsOfTrial result }
    ensures write { result ≡ Status.Write → HasRisen (K.faults out.old) (K.faults out.new) }
    ensures quiet { (result ≡ Status.Write → ⊥) → K.faults out.new ≡ K.faults out.old }
{
    match co_trial::trial(alloc, number, events) {
        Ok(summary) => ended(tell_summary(alloc, out, &summary)),
        Err(AllocError) => Status::Memory,
    }
}
