//! Members are opened on their logs.
ghost use Rattle.std.specs.Prelude.{ℕ, suc, List, ◌≡◌, ◌≤◌, ◌++◌, length, IfOk, IfErr, IsErrOf, OnOk};
ghost use Rattle.std.specs.List.{AllByRecursion};
ghost use Rattle.co_base.specs.declared.head.Kind.{Kind};
ghost use Rattle.co_base.specs.Nodes.{IsValidNode};
ghost use Rattle.co_base.specs.declared.node.Node.TheVariants as node;
ghost use Rattle.co_base.specs.Limits.{most_members};
ghost use Rattle.co_outside.specs.declared.spot.Spot.{Spot};
ghost use Rattle.co_outside.specs.Home.{HasFailed, IsClean};
ghost use Rattle.co_log.specs.Others.{NodeStays};
ghost use Rattle.co_plain.specs.Opening.{Found, header_mark, member_headers, kind_of, opened_member};
ghost use Rattle.co_opening.specs.Judged.{IsOfMaking};
ghost use Rattle.co_opening.specs.Kept.{IsOwnLog, AreOwnLogs};
ghost use Rattle.co_opening.specs.Rest.{OnlyOneIsMade, OnlyOpens};
ghost use Rattle.co_opening.specs.Nodes.{IsMemberAt};
ghost use Rattle.co_opening.specs.Standing.{IsMemberFound, AreMembersFound};
ghost use Rattle.co_opening.specs.Running.{AreMembersAt, AreOwnMembers};

use crate::making::make_fresh;
use co_base::{Kind, Marks};
use co_durable::WorldFault;
use co_engine::Engine;
use co_log::Log;
use co_member::Member;
use co_outside::Home;
use co_recover::MemberPast;
use std::alloc::Global;

/// The member behind so many others, of this kind, on its log. A fresh log is made, and its header marked.
fn open_member<E: Engine + Drop, H: Home>(
    alloc: Global,
    home: &mut H,
    place: u8,
    kind: Kind,
    coords: u8,
    mut log: Log,
    past: MemberPast,
    marks: &mut Marks,
) -> Result<Member<E>, WorldFault>
    requires takes { E.takes kind }
    requires few { place ≤ 15 }
    requires found { (found : Found) × IsMemberFound coords (suc place) log past found }
    requires kept { IsOwnLog (H.seen home.old) (node.Member (suc place)) log }
    ensures opened { (kinds : List Kind) (found : Found) → kind ≡ kind_of kinds (suc place) → IsMemberFound coords (suc place) log past found →
        IfOk result (λ m. IsMemberAt E.takes E.stands_for coords place m (opened_member kinds (suc place) found)) }
    ensures marks { (found : Found) → IsMemberFound coords (suc place) log past found → OnOk result (marks.new ≡ marks.old ++ header_mark (node.Member (suc place)) found.records) }
    ensures kept { IfOk result (λ m. IsOwnLog (H.seen home.new) (node.Member (suc place)) m.log) }
    ensures clean { OnOk result ((s : Spot) → IsClean (H.seen home.old) s → IsClean (H.seen home.new) s) }
    ensures rest { OnlyOneIsMade (node.Member (suc place)) (H.seen home.old) (H.seen home.new) }
    ensures fault { IfErr result IsOfMaking }
    ensures device { (spot : Spot) → IsErrOf result (WorldFault.Device spot) → HasFailed spot (H.seen home.old) (H.seen home.new) }
    ensures quiet { ((spot : Spot) → IsErrOf result (WorldFault.Device spot) → ⊥) → (H.seen home.new).faults ≡ (H.seen home.old).faults }
{
    make_fresh(home, &mut log, marks)?;
    Ok(Member::attach(alloc, place + 1, kind, coords, log, past)?)
}

/// The members of a federation on their logs, from member 1 on. Fresh logs are made, and their headers marked.
pub(crate) fn open_members<E: Engine + Drop, H: Home>(
    alloc: Global,
    home: &mut H,
    kinds: &[Kind],
    coords: u8,
    logs: Vec<Log>,
    pasts: Vec<MemberPast>,
    marks: &mut Marks,
) -> Result<Vec<Member<E>>, WorldFault>
    requires takes { AllByRecursion E.takes kinds.now }
    requires few { length kinds.now ≤ most_members }
    requires many { length logs.items ≡ length kinds.now }
    requires found { (found : ℕ → Found) × AreMembersFound coords found 0 logs.items pasts.items }
    requires kept { AreOwnLogs (H.seen home.old) node.Member 0 logs.items }
    ensures opened { (found : ℕ → Found) → AreMembersFound coords found 0 logs.items pasts.items →
        IfOk result (λ members. AreMembersAt E.takes E.stands_for kinds.now coords found members.items) }
    ensures many { IfOk result (λ members. length members.items ≡ length kinds.now) }
    ensures marks { (found : ℕ → Found) → AreMembersFound coords found 0 logs.items pasts.items →
        OnOk result (marks.new ≡ marks.old ++ member_headers (length kinds.now) found) }
    ensures kept { IfOk result (λ members. AreOwnMembers (H.seen home.new) members.items) }
    ensures clean { OnOk result ((s : Spot) → IsClean (H.seen home.old) s → IsClean (H.seen home.new) s) }
    ensures others { (c : ℕ) → IsValidNode (node.Coord c) → NodeStays (node.Coord c) (H.seen home.old) (H.seen home.new) }
    ensures opens { OnlyOpens (length kinds.now) coords (H.seen home.old) (H.seen home.new) }
    ensures fault { IfErr result IsOfMaking }
    ensures device { (spot : Spot) → IsErrOf result (WorldFault.Device spot) → HasFailed spot (H.seen home.old) (H.seen home.new) }
    ensures quiet { ((spot : Spot) → IsErrOf result (WorldFault.Device spot) → ⊥) → (H.seen home.new).faults ≡ (H.seen home.old).faults }
{
    let mut members = Vec::new(alloc);
    let mut pasts = pasts.into_iter();
    let mut place = 0;
    for log in logs {
        let Some(past) = pasts.next() else {
            unreachable!()
        };
        let kind = kinds[usize::from(place)];
        let member = open_member(alloc, home, place, kind, coords, log, past, marks)?;
        members.push(member)?;
        place += 1;
    }
    Ok(members)
}
