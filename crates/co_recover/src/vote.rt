//! Votes as they stand in a log.
use co_record::{ChangeWalk, PairWalk};
use std::marker::Model;

/// What a transaction read and wrote, lent from its prepare record.
#[derive(Drop)]
pub(crate) struct LentSets<'a> {
    pub(crate) reads: PairWalk<'a>,
    pub(crate) writes: ChangeWalk<'a>,
}

impl<'a> Model for LentSets<'a> {
    ghost use Rattle.std.specs.Prelude.{map};
    ghost use Rattle.std.specs.List.{AllByRecursion};
    ghost use Rattle.co_record.specs.Reading.{span_of};
    ghost use Rattle.co_record.specs.Spelling.{IsRange, IsChange};
    ghost use Rattle.co_state.specs.declared.engine_state.Sets.{Sets};

    ghost Value = { Sets };

    ghost view = { λ s. record { reads = map span_of s.reads; writes = s.writes } };

    ghost invariant = { λ s. AllByRecursion IsRange (map span_of s.reads) × AllByRecursion IsChange s.writes };
}

/// A vote, lent from its prepare record.
#[derive(Drop)]
pub(crate) struct LentVote<'a> {
    pub(crate) coord: u8,
    pub(crate) count: u16,
    pub(crate) sets: LentSets<'a>,
}

impl<'a> Model for LentVote<'a> {
    ghost use Rattle.co_state.specs.declared.engine_state.Vote.{Vote};

    ghost Value = { Vote };

    ghost view = { λ v. record { coord = v.coord; count = v.count; sets = v.sets } };
}
