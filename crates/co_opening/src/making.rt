//! Fresh logs are made.
ghost use Rattle.std.specs.Prelude.{◌≡◌, ◌++◌, IfErr, IsErrOf, OnOk};
ghost use Rattle.co_base.specs.declared.node.Node.{Node};
ghost use Rattle.co_outside.specs.declared.spot.Spot.{Spot};
ghost use Rattle.co_outside.specs.Home.{HasFailed, IsClean};
ghost use Rattle.co_node.specs.NodeLog.{RepresentsLog};
ghost use Rattle.co_plain.specs.Opening.{Found, header_mark, opened_log};
ghost use Rattle.co_opening.specs.Judged.{IsOfMaking};
ghost use Rattle.co_opening.specs.Kept.{IsOwnLog};
ghost use Rattle.co_opening.specs.Rest.{OnlyOneIsMade};
ghost use Rattle.co_opening.specs.Standing.{IsStanding};

use co_base::Marks;
use co_durable::WorldFault;
use co_log::{Log, LogFault};
use co_outside::Home;

/// Makes a log where it is fresh; its header is marked. It stands for the plain log that is opened over what was found then.
pub(crate) fn make_fresh<H: Home>(
    home: &mut H,
    log: &mut Log,
    marks: &mut Marks,
) -> Result<(), WorldFault>
    requires stands { (owner : Node) × (found : Found) × IsStanding owner log.old found }
    requires kept { IsOwnLog (H.seen home.old) log.old.node log.old }
    ensures stands { (owner : Node) (found : Found) → IsStanding owner log.old found → OnOk result (RepresentsLog owner log.new (opened_log owner found)) }
    ensures marks { (owner : Node) (found : Found) → IsStanding owner log.old found → OnOk result (marks.new ≡ marks.old ++ header_mark owner found.records) }
    ensures kept { OnOk result (IsOwnLog (H.seen home.new) log.old.node log.new) }
    ensures clean { OnOk result ((s : Spot) → IsClean (H.seen home.old) s → IsClean (H.seen home.new) s) }
    ensures rest { OnlyOneIsMade log.old.node (H.seen home.old) (H.seen home.new) }
    ensures fault { IfErr result IsOfMaking }
    ensures device { (spot : Spot) → IsErrOf result (WorldFault.Device spot) → HasFailed spot (H.seen home.old) (H.seen home.new) }
    ensures quiet { ((spot : Spot) → IsErrOf result (WorldFault.Device spot) → ⊥) → (H.seen home.new).faults ≡ (H.seen home.old).faults }
{
    if !log.fresh() {
        return Ok(());
    }
    match log.make(home) {
        Ok(mark) => {
            marks.push(mark)?;
            Ok(())
        }
        Err(LogFault::Device { spot }) => Err(WorldFault::Device { spot }),
        Err(LogFault::Memory) => Err(WorldFault::Memory),
        Err(LogFault::Bad { .. }) => unreachable!(),
        Err(LogFault::Full { .. }) => unreachable!(),
        Err(LogFault::InUse { .. }) => unreachable!(),
        Err(LogFault::Stopped { .. }) => unreachable!(),
        Err(LogFault::Differs { .. }) => unreachable!(),
    }
}
