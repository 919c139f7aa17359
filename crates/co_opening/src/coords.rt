//! Coordinators are opened on their logs.
ghost use Rattle.std.specs.Prelude.{ℕ, suc, ◌≡◌, ◌≤◌, ◌++◌, length, IfOk, IfErr, IsErrOf, OnOk};
ghost use Rattle.co_base.specs.Nodes.{IsValidNode};
ghost use Rattle.co_base.specs.declared.node.Node.TheVariants as node;
ghost use Rattle.co_base.specs.Limits.{most_coordinators};
ghost use Rattle.co_outside.specs.declared.spot.Spot.{Spot};
ghost use Rattle.co_outside.specs.Home.{HasFailed, IsClean};
ghost use Rattle.co_log.specs.Others.{NodeStays};
ghost use Rattle.co_plain.specs.Opening.{Found, header_mark, coord_headers, opened_coord};
ghost use Rattle.co_opening.specs.Judged.{IsOfMaking};
ghost use Rattle.co_opening.specs.Kept.{IsOwnLog, AreOwnLogs};
ghost use Rattle.co_opening.specs.Rest.{OnlyOneIsMade, OnlyOpens};
ghost use Rattle.co_opening.specs.Nodes.{IsCoordAt};
ghost use Rattle.co_opening.specs.Standing.{IsCoordFound, AreCoordsFound};
ghost use Rattle.co_opening.specs.Running.{AreCoordsAt, AreOwnCoords};

use crate::making::make_fresh;
use co_base::Marks;
use co_coord::Coord;
use co_durable::WorldFault;
use co_log::Log;
use co_outside::Home;
use co_recover::CoordPast;
use std::alloc::Global;

/// The coordinator behind so many others on its log. A fresh log is made, and its header marked.
fn open_coord<H: Home>(
    alloc: Global,
    home: &mut H,
    place: u8,
    members: u8,
    mut log: Log,
    past: CoordPast,
    marks: &mut Marks,
) -> Result<Coord, WorldFault>
    requires few { place ≤ 7 }
    requires found { (found : Found) × IsCoordFound members (suc place) log past found }
    requires kept { IsOwnLog (H.seen home.old) (node.Coord (suc place)) log }
    ensures opened { (found : Found) → IsCoordFound members (suc place) log past found →
        IfOk result (λ c. IsCoordAt members place c (opened_coord (suc place) found)) }
    ensures marks { (found : Found) → IsCoordFound members (suc place) log past found → OnOk result (marks.new ≡ marks.old ++ header_mark (node.Coord (suc place)) found.records) }
    ensures kept { IfOk result (λ c. IsOwnLog (H.seen home.new) (node.Coord (suc place)) c.log) }
    ensures clean { OnOk result ((s : Spot) → IsClean (H.seen home.old) s → IsClean (H.seen home.new) s) }
    ensures rest { OnlyOneIsMade (node.Coord (suc place)) (H.seen home.old) (H.seen home.new) }
    ensures fault { IfErr result IsOfMaking }
    ensures device { (spot : Spot) → IsErrOf result (WorldFault.Device spot) → HasFailed spot (H.seen home.old) (H.seen home.new) }
    ensures quiet { ((spot : Spot) → IsErrOf result (WorldFault.Device spot) → ⊥) → (H.seen home.new).faults ≡ (H.seen home.old).faults }
{
    make_fresh(home, &mut log, marks)?;
    Ok(Coord::attach(alloc, place + 1, members, log, past)?)
}

/// The coordinators of a federation on their logs, from coordinator 1 on. Fresh logs are made, and their headers marked.
pub(crate) fn open_coords<H: Home>(
    alloc: Global,
    home: &mut H,
    members: u8,
    logs: Vec<Log>,
    pasts: Vec<CoordPast>,
    marks: &mut Marks,
) -> Result<Vec<Coord>, WorldFault>
    requires few { length logs.items ≤ most_coordinators }
    requires found { (found : ℕ → Found) × AreCoordsFound members found 0 logs.items pasts.items }
    requires kept { AreOwnLogs (H.seen home.old) node.Coord 0 logs.items }
    ensures opened { (found : ℕ → Found) → AreCoordsFound members found 0 logs.items pasts.items →
        IfOk result (λ coords. AreCoordsAt members found coords.items) }
    ensures many { IfOk result (λ coords. length coords.items ≡ length logs.items) }
    ensures marks { (found : ℕ → Found) → AreCoordsFound members found 0 logs.items pasts.items →
        OnOk result (marks.new ≡ marks.old ++ coord_headers (length logs.items) found) }
    ensures kept { IfOk result (λ coords. AreOwnCoords (H.seen home.new) coords.items) }
    ensures clean { OnOk result ((s : Spot) → IsClean (H.seen home.old) s → IsClean (H.seen home.new) s) }
    ensures others { (m : ℕ) → IsValidNode (node.Member m) → NodeStays (node.Member m) (H.seen home.old) (H.seen home.new) }
    ensures opens { OnlyOpens members (length logs.items) (H.seen home.old) (H.seen home.new) }
    ensures fault { IfErr result IsOfMaking }
    ensures device { (spot : Spot) → IsErrOf result (WorldFault.Device spot) → HasFailed spot (H.seen home.old) (H.seen home.new) }
    ensures quiet { ((spot : Spot) → IsErrOf result (WorldFault.Device spot) → ⊥) → (H.seen home.new).faults ≡ (H.seen home.old).faults }
{
    let mut coords = Vec::new(alloc);
    let mut pasts = pasts.into_iter();
    let mut place = 0;
    for log in logs {
        let Some(past) = pasts.next() else {
            unreachable!()
        };
        let coord = open_coord(alloc, home, place, members, log, past, marks)?;
        coords.push(coord)?;
        place += 1;
    }
    Ok(coords)
}
