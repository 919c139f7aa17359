//! What an event of a node gives to its log.
ghost use Rattle.co_base.specs.declared.node.Node.{Node};
ghost use Rattle.co_log.specs.LogView.{IsHeld};
ghost use Rattle.co_log.specs.Others.{OtherNodesStay};
ghost use Rattle.co_plain.specs.declared.log_state.LogState.{LogState};
ghost use Rattle.co_node.specs.NodeLog.{RepresentsLog};
ghost use Rattle.co_node.specs.Writing.{MayWriteOne, IsAnsweredFor, HasWrittenFor};

use crate::forcing::force;
use crate::going::keep_waiting;
use crate::written::Written;
use co_base::Marks;
use co_log::{Log, NodeFault};
use co_outside::Home;
use co_record::Record;
use std::alloc::Global;

/// What the log of a node is to get from one event.
#[derive(Drop)]
pub enum Writes {
    /// Nothing.
    Nothing,
    /// This record waits for the next log write.
    Keeps(Record),
    /// This record is forced, and the waiting ones in front of it.
    Forces(Record),
    /// These two records are forced in one log write, and the waiting ones in front of them. `write` takes no such two: they are spelled out first,
    /// by `spell_both`.
    ForcesBoth(Record, Record),
}

/// Writes what an event gives to the log: its record is forced, or waits, or there is none.
///
/// A log write is done, or stopped in the armed device call, as in `force`. `Full` comes where the file would have more than 268,435,456 bytes, and
/// changes nothing; `Device` where the directory failed, and only there; `Memory` leaves the old records.
pub fn write<H: Home>(
    alloc: Global,
    log: &mut Log,
    home: &mut H,
    writes: Writes,
) -> Result<Written, NodeFault>
    requires held { IsHeld (H.seen home.old) log.old }
    requires stands { (owner : Node) × (l : LogState) × RepresentsLog owner log.old l }
    requires may { MayWriteOne writes }
    ensures written { (owner : Node) (l : LogState) → RepresentsLog owner log.old l → HasWrittenFor writes owner l log.new result }
    ensures answered { (owner : Node) (l : LogState) → RepresentsLog owner log.old l →
        IsAnsweredFor writes owner l log.old log.new
        (H.seen home.old) (H.seen home.new) result }
    ensures rest { OtherNodesStay log.old.node (H.seen home.old) (H.seen home.new) }
{
    // What is read of either file is within its bounds, also where nothing is written.
    let _ = log.lengths();
    match writes {
        Writes::Nothing => Ok(Written::Done {
            marks: Marks::new(alloc),
        }),
        Writes::Keeps(item) => {
            keep_waiting(log, item)?;
            Ok(Written::Done {
                marks: Marks::new(alloc),
            })
        }
        Writes::Forces(item) => force(log, home, item),
        Writes::ForcesBoth(_, _) => unreachable!(),
    }
}
