//! Whether waits are in their order.
ghost use Rattle.std.specs.Prelude.{◌≡◌, ◌↔◌, AllPairs, IsTrue};
ghost use Rattle.co_wait.specs.Chains.{IsWaitBefore};
ghost use Rattle.co_wait.specs.Testing.{is_wait_before, goes_up, ascends};

use crate::wait::{Wait, Waits};

/// Whether a wait comes before another one.
fn is_wait_before(wait: &Wait, next: &Wait) -> bool
    ensures { result ≡ is_wait_before wait.now next.now }
{
    wait.held < next.held || (wait.held == next.held && wait.member < next.member)
}

/// Whether waits go up from one on.
fn goes_up(first: &Wait, rest: &[Wait]) -> bool
    ensures { result ≡ goes_up first.now rest.now }
{
    let mut last = *first;
    for wait in rest {
        if !is_wait_before(&last, wait) {
            return false;
        }
        last = *wait;
    }
    true
}

/// Whether each wait comes before the next one.
fn ascend(waits: &[Wait]) -> bool
    ensures { result ≡ ascends waits.now }
{
    match waits {
        [] => true,
        [first, rest @ ..] => goes_up(first, rest),
    }
}

/// Whether waits ascend by the held transaction, and then by member.
pub fn are_ascending(waits: &Waits) -> bool
    ensures { IsTrue result ↔ AllPairs IsWaitBefore waits.now }
{
    ascend(waits.as_slice())
}
