//! A device call that is to be stopped.
ghost use Rattle.std.specs.Prelude.{◌≡◌};
ghost use Rattle.co_disk.specs.Stops.{stop_here, after_call};

use co_base::Leaves;

/// An armed stop: the number of its device call, how many calls there are until it, itself
/// included, and the image that it leaves.
#[derive(Drop)]
pub(crate) struct Armed {
    pub(crate) call: u8,
    pub(crate) left: u8,
    pub(crate) leaves: Leaves,
}

/// Counts a device call, and gives the armed stop where this is its call.
pub(crate) fn count(armed: &mut Option<Armed>) -> Option<Armed>
    ensures here { result ≡ stop_here armed.old }
    ensures after { armed.new ≡ after_call armed.old }
{
    let stop = armed.take()?;
    if stop.left <= 1 {
        return Some(stop);
    }
    *armed = Some(Armed {
        call: stop.call,
        left: stop.left - 1,
        leaves: stop.leaves,
    });
    None
}
