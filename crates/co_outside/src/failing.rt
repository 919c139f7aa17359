//! Calls that are to fail, for the forms in memory.
ghost use Rattle.std.specs.Prelude.{◌≡◌, ◌-◌, ◌↔◌, IsTrue, Contains, map};
ghost use Rattle.co_outside.specs.Home.{nearer};

use crate::home::{FailAt, HomeCall};
use crate::spot::Spot;

/// Counts one call: whether it is one of those that are to fail.
///
/// Each number says how many calls there are until one that is to fail, itself included; 0 says
/// that it is past.
pub(crate) fn is_due(calls: &mut [u32]) -> bool
    ensures due { IsTrue result ↔ Contains calls.old 1 }
    ensures counted { calls.new ≡ map (λ n. n - 1) calls.old }
{
    let due = calls.iter().any(|n| *n == 1);
    for n in calls.iter_mut() {
        *n = n.saturating_sub(1);
    }
    due
}

/// A call that is to fail, after one call of this kind on this spot.
fn count_call(at: FailAt, spot: Spot, call: HomeCall) -> FailAt
    ensures { result ≡ nearer spot call at }
{
    if at.spot != spot || at.call != call {
        return at;
    }
    FailAt {
        spot,
        call,
        number: at.number.saturating_sub(1),
    }
}

/// The same for the calls of one kind on one spot.
pub(crate) fn is_call_due(calls: &mut [FailAt], spot: Spot, call: HomeCall) -> bool
    ensures due { IsTrue result ↔ Contains calls.old (record { spot = spot; call = call; number = 1 }) }
    ensures counted { calls.new ≡ map (nearer spot call) calls.old }
{
    let due = calls.contains(&FailAt {
        spot,
        call,
        number: 1,
    });
    for at in calls.iter_mut() {
        *at = count_call(*at, spot, call);
    }
    due
}
