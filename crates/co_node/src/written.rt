//! How log writes end for a node.
ghost use Rattle.co_log.specs.NodeFaults.{IsOfNode};
ghost use Rattle.co_node.specs.Ended.{IsPassedOn};

use co_base::Marks;
use co_log::{LogFault, NodeFault};

/// How a log write ended, after which the node goes on or is down.
#[derive(Drop)]
pub enum Written {
    /// Every device call was done.
    Done {
        /// What became stable.
        marks: Marks,
    },
    /// The armed device call was reached. What the node had in memory is lost.
    Stopped {
        /// The number of the device call within its log write, counted from 1.
        call: u8,
        /// What became stable: all that the write would have told where the image has the gate open, and else nothing.
        marks: Marks,
    },
}

/// Takes a stopped write for one that ended, and passes a fault of the node on.
pub(crate) fn stopped(fault: LogFault) -> Result<Written, NodeFault>
    requires { IsOfNode fault }
    ensures { IsPassedOn fault result }
{
    let stop = fault.split()?;
    Ok(Written::Stopped {
        call: stop.call,
        marks: stop.marks,
    })
}
