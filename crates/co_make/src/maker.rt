//! The maker, and its choices.
ghost use Rattle.std.specs.Prelude.{◌≡◌, ◌<◌, ◌≤◌, ◌-◌, ◌^◌, length, get_or, IfOk};
ghost use Rattle.co_make.specs.Making.{making_of, picked, member, coord, recent, chosen, next_event, HasChosen};

use co_base::Txn;
use co_message::{Event, Wire};
use rand_core::utils::NextWord;
use rand_pcg::Lcg64Xsh32;
use std::alloc::{AllocError, Global};
use std::marker::Model;

/// Makes the events of a trial.
///
/// A contract sees its generator, how many events it made, the least number that it has not begun, and the window: the
/// numbers that it began and has not asked to end.
#[derive(Drop)]
pub struct Maker {
    pub(crate) alloc: Global,
    generator: Lcg64Xsh32,
    made: u32,
    pub(crate) fresh: u32,
    pub(crate) window: Vec<Txn>,
}

impl Model for Maker {
    ghost use Rattle.co_make.specs.Making.{Making, IsWithin, making_code};

    ghost Value = { Making };

    ghost coded = { making_code };

    ghost view = { λ m. record { generator = m.generator; made = m.made; fresh = m.fresh; window = m.window.items } };

    ghost invariant = { λ m. IsWithin (record { generator = m.generator; made = m.made; fresh = m.fresh; window = m.window.items }) };
}

impl Maker {
    /// The most events that a maker makes, so that each has a number.
    pub const MOST: u32 = 4_000_000_000;

    /// The maker of the trial with this number. Takes no memory.
    pub fn new(alloc: Global, number: u64) -> Maker
        ensures { result ≡ making_of number }
    {
        Maker {
            alloc,
            generator: Lcg64Xsh32::new(number, 54),
            made: 0,
            fresh: 1,
            window: Vec::new(alloc),
        }
    }

    /// How many events were made.
    pub fn made(&self) -> u32
        ensures { result ≡ self.now.made }
    {
        self.made
    }

    /// The next event, where these messages were sent. Fewer than `MOST` were made, as `made` tells.
    ///
    /// Want of memory leaves a maker that is only dropped.
    pub fn next(&mut self, wire: &Wire) -> Result<Event, AllocError>
        requires { self.old.made < Self.MOST }
        ensures { IfOk result (λ event. (event, self.new) ≡ next_event wire.now self.old) }
    {
        self.made += 1;
        let which = self.pick(100);
        self.choose(wire, which)
    }

    /// The event of this choice among a hundred.
    fn choose(&mut self, wire: &Wire, which: u64) -> Result<Event, AllocError>
        requires within { self.old.made < 2 ^ 32 - 1 }
        requires fresh { self.old.fresh ≤ self.old.made }
        requires window { length self.old.window < self.old.made }
        ensures { IfOk result (λ event. (event, self.new) ≡ chosen wire.now which self.old) }
    {
        match which {
            0..=11 => self.begin_or_operate(),
            12..=46 => self.operate(),
            47..=54 => self.commit(),
            55..=56 => self.abort(),
            57..=84 => self.deliver(wire),
            85..=98 => self.befall(which),
            _ => self.check_or_arm(),
        }
    }

    /// One of so many choices.
    #[tactic(auto, unfolding(crate::specs::Making::picked))]
    pub(crate) fn pick(&mut self, count: u64) -> u64
        requires { 0 < count }
        ensures picked { (result, self.new) ≡ picked count self.old }
        ensures below { result < count }
        ensures rest { HasChosen self.old self.new }
    {
        let word: u32 = self.generator.next_word();
        u64::from(word) % count
    }

    /// A member, 1 to 3.
    #[tactic(auto, unfolding(crate::specs::Making::member))]
    pub(crate) fn member(&mut self) -> u8
        ensures member { (result, self.new) ≡ member self.old }
        ensures rest { HasChosen self.old self.new }
    {
        1 + self.pick(3) as u8
    }

    /// A coordinator, 1 or 2.
    #[tactic(auto, unfolding(crate::specs::Making::coord))]
    pub(crate) fn coord(&mut self) -> u8
        ensures coord { (result, self.new) ≡ coord self.old }
        ensures rest { HasChosen self.old self.new }
    {
        1 + self.pick(2) as u8
    }

    /// One of the last sixteen numbers that were begun.
    #[tactic(auto, unfolding(crate::specs::Making::recent))]
    pub(crate) fn recent(&mut self) -> Txn
        requires { 2 ≤ self.old.fresh }
        ensures recent { (result, self.new) ≡ recent self.old }
        ensures rest { HasChosen self.old self.new }
    {
        let begun = self.fresh - 1;
        let back = self.pick(u64::from(begun.min(16))) as u32;
        Txn(begun - back)
    }

    /// The transaction at a place of the window.
    pub(crate) fn in_window(&self, place: usize) -> Txn
        requires { place < length self.now.window }
        ensures { result ≡ get_or self.now.window place 0 }
    {
        self.window[place]
    }
}
