//! The logs of a federation are opened.
ghost use Rattle.std.specs.Prelude.{◌≡◌, ◌≤◌, Bool, Option, IfOk, IfErr, IsErrOf, OnOk, length};
ghost use Rattle.std.specs.FinMap.{keys};
ghost use Rattle.std.specs.List.{AllByRecursion};
ghost use Rattle.co_base.specs.Limits.{most_transactions};
ghost use Rattle.co_base.specs.declared.node.Node.TheVariants as node;
ghost use Rattle.co_outside.specs.Home.{File, HasFailed, IsClean};
ghost use Rattle.co_outside.specs.declared.spot.Spot.{Spot};
ghost use Rattle.co_state.specs.Table.{no_entries};
ghost use Rattle.co_opening.specs.Counted.{with_members, with_coords};
ghost use Rattle.co_opening.specs.Judged.{AreJudged, IsOfMaking};
ghost use Rattle.co_opening.specs.Kept.{AreOwnLogs};
ghost use Rattle.co_opening.specs.Nodes.{AreKept};
ghost use Rattle.co_opening.specs.Opened.{AreOpened, IsUnopened, IsOfFound};
ghost use Rattle.co_opening.specs.Rest.{OnlyOpens};

use crate::attaching::{Logs, attach_all};
use crate::coords::open_coords;
use crate::judging::{Pasts, judge};
use crate::members::open_members;
use crate::nodes::Nodes;
use crate::numbers::used_numbers;
use co_base::{Head, Marks, Txns};
use co_durable::WorldFault;
use co_engine::Engine;
use co_outside::Home;
use std::alloc::Global;

/// The nodes of a federation on their logs, members before coordinators. Fresh logs are made, and their headers marked.
fn make_nodes<E: Engine + Drop, H: Home>(
    alloc: Global,
    home: &mut H,
    head: &Head,
    logs: Logs,
    pasts: Pasts,
    used: Txns,
) -> Result<Nodes<E>, WorldFault>
    requires takes { AllByRecursion E.takes head.now.kinds }
    requires judged { (file : Spot → Option File) × (resume : Bool) × AreJudged file resume head.now logs.members.items logs.coords.items pasts.members.items pasts.coords.items }
    requires kept_members { AreOwnLogs (H.seen home.old) node.Member 0 logs.members.items }
    requires kept_coords { AreOwnLogs (H.seen home.old) node.Coord 0 logs.coords.items }
    requires used { used ≡ keys (with_coords (with_members no_entries pasts.members.items) pasts.coords.items) }
    requires few { length used ≤ most_transactions }
    ensures opened { (file : Spot → Option File) (resume : Bool) → AreJudged file resume head.now logs.members.items logs.coords.items pasts.members.items pasts.coords.items →
        IfOk result (AreOpened E.takes E.stands_for file head.now resume) }
    ensures kept { IfOk result (λ n. AreKept (H.seen home.new) n.members.items n.coords.items) }
    ensures clean { OnOk result ((s : Spot) → IsClean (H.seen home.old) s → IsClean (H.seen home.new) s) }
    ensures opens { OnlyOpens (length head.now.kinds) head.now.coords (H.seen home.old) (H.seen home.new) }
    ensures fault { IfErr result IsOfMaking }
    ensures device { (spot : Spot) → IsErrOf result (WorldFault.Device spot) → HasFailed spot (H.seen home.old) (H.seen home.new) }
    ensures quiet { ((spot : Spot) → IsErrOf result (WorldFault.Device spot) → ⊥) → (H.seen home.new).faults ≡ (H.seen home.old).faults }
{
    let count = head.kinds.len() as u8;
    let mut marks = Marks::new(alloc);
    let kinds = head.kinds.as_slice();
    let members = open_members(
        alloc,
        home,
        kinds,
        head.coords,
        logs.members,
        pasts.members,
        &mut marks,
    )?;
    let coords = open_coords(alloc, home, count, logs.coords, pasts.coords, &mut marks)?;
    Ok(Nodes {
        members,
        coords,
        used,
        marks,
    })
}

/// Opens the logs of all nodes of a federation in the directory that was entered: over fresh logs, or, where it is resumed, over those that a run
/// left.
///
/// The logs of all nodes are read, members before coordinators; then their records are told, in the same order; then their versions and the numbers
/// in them are looked at; then the fresh ones are made. `InUse` comes exactly where a file has more than one byte and the run is not resumed. Where
/// it is resumed, `Bad` and `Full` come as `read_durable` says, `Old` where all records are allowed and a current file is of version 1, and then
/// `Count` where more than 65,536 numbers stand in the logs; with these nothing is written. `Device` comes where the directory failed, and only
/// there. `Differs` never comes.
pub fn open_nodes<E: Engine + Drop, H: Home>(
    alloc: Global,
    home: &mut H,
    head: &Head,
    resume: bool,
) -> Result<Nodes<E>, WorldFault>
    requires kinds { AllByRecursion E.takes head.now.kinds }
    ensures opened { IfOk result (AreOpened E.takes E.stands_for (H.seen home.old).file head.now resume) }
    ensures kept { IfOk result (λ n. AreKept (H.seen home.new) n.members.items n.coords.items) }
    ensures clean { IfOk result (λ n. (s : Spot) → IsClean (H.seen home.old) s → IsClean (H.seen home.new) s) }
    ensures refused { IfErr result (IsUnopened (H.seen home.old).file head.now resume) }
    ensures untouched { IfErr result (λ fault. IsOfFound fault → (s : Spot) → (H.seen home.new).file s ≡ (H.seen home.old).file s) }
    ensures opens { OnlyOpens (length head.now.kinds) head.now.coords (H.seen home.old) (H.seen home.new) }
    ensures device { (spot : Spot) → IsErrOf result (WorldFault.Device spot) → HasFailed spot (H.seen home.old) (H.seen home.new) }
    ensures quiet { ((spot : Spot) → IsErrOf result (WorldFault.Device spot) → ⊥) → (H.seen home.new).faults ≡ (H.seen home.old).faults }
{
    let logs = attach_all(alloc, home, head, resume)?;
    let pasts = judge(alloc, head, &logs)?;
    let used = used_numbers(alloc, pasts.members.as_slice(), pasts.coords.as_slice())?;
    make_nodes(alloc, home, head, logs, pasts, used)
}
