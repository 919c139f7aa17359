//! What another member tells.
ghost use Rattle.std.specs.Prelude.{ℕ, ◌≡◌};
ghost use Rattle.co_member.specs.Reading.{phase_of};
ghost use Rattle.co_plain.specs.Federation.{Federation};
ghost use Rattle.co_plain.specs.declared.standing.Standing.{Standing};
ghost use Rattle.co_world.specs.Standing.{RepresentsWorld};
ghost use Rattle.co_law_coop.specs.Consulting.{is_in_doubt, told_unvoted, told_standing};
ghost use Rattle.co_coop.specs.Consulted.{MayConsult, told_of_doubt, is_voted_there, is_active_there};
ghost use Rattle.co_settle.specs.Reached.{IsReached};

use co_base::Node;
use co_cluster::Doubt;
use co_engine::Engine;
use co_law_coop::Told;
use co_vote::Phase;
use co_world::World;

/// What a member tells at which the transaction has not voted.
fn told_unvoted(carried: u16, coord_up: bool) -> Told
    ensures { result ≡ told_unvoted carried coord_up }
{
    if carried == 0 {
        return Told::Stranger;
    }
    if coord_up {
        return Told::Reachable;
    }
    Told::Abort
}

/// What a member tells that is up.
fn told_standing(phase: Phase, carried: u16, coord_up: bool) -> Told
    ensures { (x : Standing) → phase ≡ phase_of x → result ≡ told_standing x carried coord_up }
{
    match phase {
        Phase::Installed => Told::Commit,
        Phase::Voted => Told::InDoubt,
        Phase::Active => told_unvoted(carried, coord_up),
        Phase::Absent => told_unvoted(carried, coord_up),
    }
}

/// Whether it has voted there.
fn is_voted(phase: Phase) -> bool
    ensures { (x : Standing) → phase ≡ phase_of x → result ≡ is_voted_there x }
{
    match phase {
        Phase::Voted => true,
        Phase::Active | Phase::Installed | Phase::Absent => false,
    }
}

/// Whether it is active there.
pub(crate) fn is_active(phase: Phase) -> bool
    ensures { (x : Standing) → phase ≡ phase_of x → result ≡ is_active_there x }
{
    match phase {
        Phase::Active => true,
        Phase::Voted | Phase::Installed | Phase::Absent => false,
    }
}

/// Whether the member still is in doubt.
fn is_in_doubt<E: Engine + Drop>(world: &World<E>, doubt: &Doubt) -> bool
    requires asks { (s : Federation) × (other : ℕ) × RepresentsWorld E.takes E.stands_for world.now s × IsReached s × MayConsult s doubt.now other }
    ensures { (s : Federation) → RepresentsWorld E.takes E.stands_for world.now s → IsReached s → result ≡ is_in_doubt s doubt.now.txn doubt.now.member }
{
    if !world.up(Node::Member(doubt.member)) {
        return false;
    }
    is_voted(world.knows(doubt.member, doubt.txn))
}

/// What another member tells a member that asks it.
pub(crate) fn told_at_turn<E: Engine + Drop>(world: &World<E>, doubt: &Doubt, other: u8) -> Told
    requires asks { (s : Federation) × RepresentsWorld E.takes E.stands_for world.now s × IsReached s × MayConsult s doubt.now other }
    ensures { (s : Federation) → RepresentsWorld E.takes E.stands_for world.now s → IsReached s → result ≡ told_of_doubt s doubt.now other }
{
    if !is_in_doubt(world, doubt) {
        return Told::Settled;
    }
    if !world.up(Node::Member(other)) {
        return Told::Down;
    }
    let phase = world.knows(other, doubt.txn);
    let carried = world.carried(doubt.txn, other);
    let coord_up = world.up(Node::Coord(doubt.coord));
    told_standing(phase, carried, coord_up)
}
