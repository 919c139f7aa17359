//! A reader that comes to a member behind a line of a schedule: what it sees, and whether it lasts.
ghost use Rattle.std.specs.Prelude.{◌≡◌, ◌≤◌, length, true, IfOk, OnOk};
ghost use Rattle.co_base.specs.declared.head.Kind.TheVariants.{Mv};
ghost use Rattle.co_plain.specs.Federation.{Federation};
ghost use Rattle.co_world.specs.Standing.{RepresentsWorld};
ghost use Rattle.co_top.specs.Sights.{is_up_at, kind_at, rows_asked, SeesFirst, SeesAt, SeesHead, SeesNext, SeesHeadIf, SeesNextIf, IsAskIf, IsOwnIf};

use co_base::{Kind, Node, Range, Rows};
use co_engine::Engine;
use co_state::records_from;
use co_world::World;
use std::alloc::{AllocError, Global};

/// What a reader asks for: the records of a range, as a member has installed them behind a line of a schedule.
#[derive(Drop)]
pub struct Ask {
    /// The number of the member, from 1 on.
    pub member: u8,
    /// The number of the line, from 1 on; line 1 is the head.
    pub line: u32,
    /// The keys of the records.
    pub range: Range,
}

/// What a reader comes to.
#[derive(Drop)]
pub enum Looked {
    /// These records, ascending by key.
    Rows(Rows),
    /// The head has no such member.
    NoMember,
    /// The schedule ends before the line.
    Unopened,
    /// The member keeps no versions, since its engine is not multiversion.
    NotMv,
    /// The member is down behind the line.
    Down,
    /// The member is down behind a later line, and the reader has gone with it.
    Lost,
}

/// The installed records that the reader asks for of a multiversion member which is up.
fn rows_asked<E: Engine + Drop>(
    alloc: Global,
    world: &World<E>,
    ask: &Ask,
) -> Result<Rows, AllocError>
    requires in_head { (1 ≤ ask.now.member) × (ask.now.member ≤ length world.now.cluster.members.items) }
    requires up { (s : Federation) × RepresentsWorld E.takes E.stands_for world.now s × (is_up_at s ask.now.member ≡ true) }
    ensures { (s : Federation) → RepresentsWorld E.takes E.stands_for world.now s → kind_at s ask.now.member ≡ Mv → IfOk result (λ rows. rows ≡ rows_asked s ask.now) }
{
    let dump = world.dump(ask.member)?;
    records_from(alloc, dump.rows.into_vec())?.rows_within(alloc, &ask.range)
}

/// What a reader sees that comes to a member of the federation now.
fn first_sight<E: Engine + Drop>(
    alloc: Global,
    world: &World<E>,
    ask: &Ask,
) -> Result<Looked, AllocError>
    requires in_head { (1 ≤ ask.now.member) × (ask.now.member ≤ length world.now.cluster.members.items) }
    requires stands { (s : Federation) × RepresentsWorld E.takes E.stands_for world.now s }
    ensures { (s : Federation) → RepresentsWorld E.takes E.stands_for world.now s → IfOk result (SeesFirst s ask.now) }
{
    match world.kind_of(ask.member) {
        Kind::Lock | Kind::Occ => return Ok(Looked::NotMv),
        Kind::Mv => {}
    }
    if world.up(Node::Member(ask.member)) {
        Ok(Looked::Rows(rows_asked(alloc, world, ask)?))
    } else {
        Ok(Looked::Down)
    }
}

/// What a reader sees behind a line who has not come before it.
fn sight_at<E: Engine + Drop>(
    alloc: Global,
    world: &World<E>,
    line: u32,
    ask: &Ask,
) -> Result<Looked, AllocError>
    requires in_head { (1 ≤ ask.now.member) × (ask.now.member ≤ length world.now.cluster.members.items) }
    requires stands { (s : Federation) × RepresentsWorld E.takes E.stands_for world.now s }
    ensures { (s : Federation) → RepresentsWorld E.takes E.stands_for world.now s → IfOk result (SeesAt line s ask.now) }
{
    if line == ask.line {
        first_sight(alloc, world, ask)
    } else {
        Ok(Looked::Unopened)
    }
}

/// What a reader sees behind the head of a federation of so many members.
fn sight_of_head<E: Engine + Drop>(
    alloc: Global,
    world: &World<E>,
    members: u8,
    ask: &Ask,
) -> Result<Looked, AllocError>
    requires member { 1 ≤ ask.now.member }
    requires members { members ≡ length world.now.cluster.members.items }
    requires stands { (s : Federation) × RepresentsWorld E.takes E.stands_for world.now s }
    ensures { (s : Federation) → RepresentsWorld E.takes E.stands_for world.now s → IfOk result (SeesHead members s ask.now) }
{
    if ask.member > members {
        Ok(Looked::NoMember)
    } else {
        sight_at(alloc, world, 1, ask)
    }
}

/// What a reader sees behind the next line, of this number.
fn sight_of_line<E: Engine + Drop>(
    alloc: Global,
    world: &World<E>,
    line: u32,
    ask: &Ask,
    seen: &mut Looked,
) -> Result<(), AllocError>
    requires member { 1 ≤ ask.now.member }
    requires in_head { (seen.old ≡ Looked.NoMember → ⊥) → ask.now.member ≤ length world.now.cluster.members.items }
    requires stands { (s : Federation) × RepresentsWorld E.takes E.stands_for world.now s }
    ensures { (s : Federation) → RepresentsWorld E.takes E.stands_for world.now s → OnOk result (SeesNext line s ask.now seen.old seen.new) }
{
    match seen {
        Looked::Unopened => *seen = sight_at(alloc, world, line, ask)?,
        Looked::Rows(_) => {
            if !world.up(Node::Member(ask.member)) {
                *seen = Looked::Lost;
            }
        }
        Looked::NoMember | Looked::NotMv | Looked::Down | Looked::Lost => {}
    }
    Ok(())
}

/// What is seen behind the head of a federation of so many members; nothing where there is no reader.
pub(crate) fn seen_of_head<E: Engine + Drop>(
    alloc: Global,
    world: &World<E>,
    members: u8,
    ask: &Option<Ask>,
) -> Result<Looked, AllocError>
    requires ask { IsAskIf ask.now }
    requires members { members ≡ length world.now.cluster.members.items }
    requires stands { (s : Federation) × RepresentsWorld E.takes E.stands_for world.now s }
    ensures { (s : Federation) → RepresentsWorld E.takes E.stands_for world.now s → IfOk result (SeesHeadIf members s ask.now) }
{
    match ask {
        Some(ask) => sight_of_head(alloc, world, members, ask),
        None => Ok(Looked::Unopened),
    }
}

/// What is seen behind the next line, of this number.
pub(crate) fn see_line<E: Engine + Drop>(
    alloc: Global,
    world: &World<E>,
    line: u32,
    ask: &Option<Ask>,
    seen: &mut Looked,
) -> Result<(), AllocError>
    requires ask { IsAskIf ask.now }
    requires in_head { IsOwnIf (length world.now.cluster.members.items) ask.now seen.old }
    requires stands { (s : Federation) × RepresentsWorld E.takes E.stands_for world.now s }
    ensures { (s : Federation) → RepresentsWorld E.takes E.stands_for world.now s → OnOk result (SeesNextIf line s ask.now seen.old seen.new) }
{
    match ask {
        Some(ask) => sight_of_line(alloc, world, line, ask, seen),
        None => Ok(()),
    }
}
