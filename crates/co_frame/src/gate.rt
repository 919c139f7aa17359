//! What the image of a gate byte says.
ghost use Rattle.std.specs.Prelude.{◌≡◌};
ghost use Rattle.co_frame.specs.Gate.{begins_open, begins_closed, opens_gate, closes_spare, batch_is_stable};

use crate::batches::OPEN_GATE;
use co_base::Leaves;

/// Whether the bytes begin with an open gate.
fn begins_open(bytes: &[u8]) -> bool
    ensures { result ≡ begins_open bytes.now }
{
    match bytes {
        [] => false,
        [first, ..] => *first == OPEN_GATE,
    }
}

/// Whether the bytes begin with a gate that is not open.
pub fn begins_closed(bytes: &[u8]) -> bool
    ensures { result ≡ begins_closed bytes.now }
{
    match bytes {
        [] => false,
        [first, ..] => *first != OPEN_GATE,
    }
}

/// Whether the image of a gate that is being opened has it open.
fn opens_gate(leaves: &Leaves) -> bool
    ensures { result ≡ opens_gate leaves.now }
{
    match leaves {
        Leaves::Old => false,
        Leaves::New => true,
        Leaves::Filled(bytes) => begins_open(bytes.as_slice()),
    }
}

/// Whether the image of a spare file that is being closed has it closed.
pub fn closes_spare(leaves: &Leaves) -> bool
    ensures { result ≡ closes_spare leaves.now }
{
    match leaves {
        Leaves::Old => false,
        Leaves::New => true,
        Leaves::Filled(bytes) => begins_closed(bytes.as_slice()),
    }
}

/// Whether the batch of a log write counts that was stopped in this device call, 1 to 4.
pub fn batch_is_stable(call: u8, leaves: &Leaves) -> bool
    ensures { result ≡ batch_is_stable call leaves.now }
{
    3 <= call && opens_gate(leaves)
}
