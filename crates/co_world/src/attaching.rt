//! A federation is opened over a directory of logs.
ghost use Rattle.std.specs.Prelude.{◌≡◌, [], length, IfOk, IfErr, IsErrOf};
ghost use Rattle.co_message.specs.declared.answer.Answer.TheVariants as answer;
ghost use Rattle.co_plain.specs.Federation.{items_of};
ghost use Rattle.co_plain.specs.Runs.{numbered};
ghost use Rattle.co_session.specs.Clients.{none_begun};
ghost use Rattle.std.specs.List.{AllByRecursion};
ghost use Rattle.co_outside.specs.declared.spot.Spot.{Spot};
ghost use Rattle.co_outside.specs.Home.{HasFailed, IsClean};
ghost use Rattle.co_durable.specs.Told.{AreTold};
ghost use Rattle.co_opening.specs.Opened.{IsUnopened, IsOfFound, IsExact};
ghost use Rattle.co_opening.specs.Rest.{OnlyOpens};
ghost use Rattle.co_world.specs.Attached.{IsAttachedOver};
ghost use Rattle.co_world.specs.Standing.{AreHeld};

use crate::telling::items_of;
use crate::world::World;
use co_base::Head;
use co_cluster::Cluster;
use co_durable::WorldFault;
use co_engine::Engine;
use co_message::{Answer, Items, Wire};
use co_opening::{Nodes, open_nodes};
use co_outside::Home;
use co_session::Sessions;
use std::alloc::{AllocError, Global};

/// The federation over opened nodes, and what its opening tells.
fn over<E: Engine + Drop>(alloc: Global, nodes: Nodes<E>) -> Result<(World<E>, Items), AllocError>
    ensures nodes { IfOk result (λ r. (r.0.cluster.members.items ≡ nodes.members.items) × (r.0.cluster.coords.items ≡ nodes.coords.items)) }
    ensures clients { IfOk result (λ r. (r.0.sessions ≡ none_begun nodes.used) × (r.0.wire ≡ [])) }
    ensures told { IfOk result (λ r. r.1 ≡ numbered 1 (items_of nodes.marks [] answer.Opened)) }
{
    let Nodes {
        members,
        coords,
        used,
        marks,
    } = nodes;
    let items = items_of(alloc, 1, marks.as_slice(), &[], Answer::Opened)?;
    let sessions = Sessions::attach(alloc, used)?;
    let world = World {
        alloc,
        cluster: Cluster::new(alloc, members, coords),
        sessions,
        wire: Wire::new(alloc),
    };
    Ok((world, items))
}

impl<E: Engine + Drop> World<E> {
    /// Opens the federation of a head over the logs in the directory that was entered: over fresh ones, or, where it is resumed, over those that a
    /// run left. Gives the headers that were made, and the answer `open`, as items of the first line.
    ///
    /// `InUse` comes exactly where a file has more than one byte and the run is not resumed. Where it is resumed, `Bad` and `Full` come as
    /// `read_durable` says, `Old` where a current file is of version 1, and `Count` where more than 65,536 numbers stand in the logs; with these
    /// nothing is written. Over a directory that tells its files each comes where its cause is, unless `Device` or `Memory` does. `Device` comes
    /// where the directory failed, and only there. `Differs` never comes.
    pub fn attach<H: Home>(
        alloc: Global,
        home: &mut H,
        head: &Head,
        resume: bool,
    ) -> Result<(World<E>, Items), WorldFault>
        requires kinds { AllByRecursion E.takes head.now.kinds }
        ensures opened { IfOk result (λ r. IsAttachedOver E.takes E.stands_for (H.seen home.old).file head.now resume r.0 r.1) }
        ensures held { IfOk result (λ r. AreHeld (H.seen home.new) r.0) }
        ensures clean { IfOk result (λ r. (s : Spot) → IsClean (H.seen home.old) s → IsClean (H.seen home.new) s) }
        ensures head { IfOk result (λ r. (length r.0.cluster.members.items ≡ length head.now.kinds) × (length r.0.cluster.coords.items ≡ head.now.coords)) }
        ensures refused { IfErr result (IsUnopened (H.seen home.old).file head.now resume) }
        ensures exact { AreTold (H.seen home.old).file (length head.now.kinds) head.now.coords → IsExact (H.seen home.old).file head.now resume result }
        ensures untouched { IfErr result (λ fault. IsOfFound fault → (s : Spot) → (H.seen home.new).file s ≡ (H.seen home.old).file s) }
        ensures opens { OnlyOpens (length head.now.kinds) head.now.coords (H.seen home.old) (H.seen home.new) }
        ensures device { (spot : Spot) → IsErrOf result (WorldFault.Device spot) → HasFailed spot (H.seen home.old) (H.seen home.new) }
        ensures quiet { ((spot : Spot) → IsErrOf result (WorldFault.Device spot) → ⊥) → (H.seen home.new).faults ≡ (H.seen home.old).faults }
    {
        let nodes = open_nodes(alloc, home, head, resume)?;
        let opened = over(alloc, nodes)?;
        Ok(opened)
    }
}
