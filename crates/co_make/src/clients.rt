//! What clients do: they begin transactions, operate, and ask for their end.
ghost use Rattle.std.specs.Prelude.{◌≡◌, ◌<◌, ◌≤◌, ◌-◌, ◌^◌, nat_lt, if◌then◌else◌, length, IfOk};
ghost use Rattle.co_message.specs.declared.event.Event.TheVariants as event;
ghost use Rattle.co_make.specs.Making.{begun, operation, operated, operated_in, asked, taken, key_text};

use crate::maker::Maker;
use crate::words::{key, value};
use co_base::{Key, Range, Txn};
use co_message::Event;
use std::alloc::{AllocError, Global};

/// An operation of a transaction at a member on one of twenty keys, by one of ten choices.
fn operation(
    alloc: Global,
    number: u32,
    txn: Txn,
    member: u8,
    at: u8,
    which: u64,
) -> Result<Event, AllocError>
    requires { at < 20 }
    ensures { IfOk result (λ e. e ≡ operation number txn member (key_text at) which) }
{
    let key = key(alloc, at)?;
    match which {
        0..=4 => Ok(Event::Read { txn, member, key }),
        5..=7 => {
            let value = value(alloc, number)?;
            Ok(Event::Write {
                txn,
                member,
                key,
                value,
            })
        }
        8 => Ok(Event::Erase { txn, member, key }),
        _ => {
            let range = from_key(alloc, at)?;
            Ok(Event::Scan { txn, member, range })
        }
    }
}

/// The range from one of twenty keys to the last of them.
fn from_key(alloc: Global, at: u8) -> Result<Range, AllocError>
    requires { at < 20 }
    ensures { IfOk result (λ range. range ≡ record { lo = key_text at; hi = key_text 19 }) }
{
    match Range::new(key(alloc, at)?, key(alloc, 19)?) {
        Ok(range) => Ok(range),
        Err(_) => unreachable!(),
    }
}

impl Maker {
    /// A transaction begins.
    #[tactic(auto, unfolding(crate::specs::Making::begun))]
    pub(crate) fn begin(&mut self) -> Result<Event, AllocError>
        requires fresh { self.old.fresh ≤ self.old.made }
        requires window { length self.old.window < self.old.made }
        requires within { self.old.made < 2 ^ 32 - 1 }
        ensures { IfOk result (λ e. (e, self.new) ≡ begun self.old) }
    {
        let coord = self.coord();
        let txn = Txn(self.fresh);
        self.window.push(txn)?;
        self.fresh += 1;
        Ok(Event::Begin { txn, coord })
    }

    /// A transaction of the window operates.
    pub(crate) fn operate(&mut self) -> Result<Event, AllocError>
        requires fresh { self.old.fresh ≤ self.old.made }
        requires window { length self.old.window < self.old.made }
        requires within { self.old.made < 2 ^ 32 - 1 }
        ensures { IfOk result (λ e. (e, self.new) ≡ operated self.old) }
    {
        if self.window.is_empty() {
            self.begin()
        } else {
            self.operate_in()
        }
    }

    /// The same where the window has one.
    #[tactic(auto, unfolding(crate::specs::Making::operated_in))]
    fn operate_in(&mut self) -> Result<Event, AllocError>
        requires some { 0 < length self.old.window }
        requires within { self.old.made < 2 ^ 32 - 1 }
        ensures { IfOk result (λ e. (e, self.new) ≡ operated_in self.old) }
    {
        let count = self.window.len() as u64;
        let place = self.pick(count) as usize;
        let txn = self.in_window(place);
        let member = self.member();
        let key = self.pick(20) as u8;
        let which = self.pick(10);
        operation(self.alloc, self.made() + 1, txn, member, key, which)
    }

    /// A transaction begins where the window has fewer than eight, else one of them operates.
    pub(crate) fn begin_or_operate(&mut self) -> Result<Event, AllocError>
        requires fresh { self.old.fresh ≤ self.old.made }
        requires window { length self.old.window < self.old.made }
        requires within { self.old.made < 2 ^ 32 - 1 }
        ensures { IfOk result (λ e. (e, self.new) ≡ (if nat_lt (length self.old.window) 8 then begun self.old else operated self.old)) }
    {
        if self.window.len() < 8 {
            self.begin()
        } else {
            self.operate()
        }
    }

    /// A transaction of the window is asked to end, and leaves it.
    #[tactic(auto, unfolding(crate::specs::Making::taken))]
    fn ask(&mut self) -> Txn
        requires { 0 < length self.old.window }
        ensures { (result, self.new) ≡ taken self.old }
    {
        let count = self.window.len() as u64;
        let place = self.pick(count) as usize;
        self.window.remove(place)
    }

    /// A transaction of the window is asked to commit.
    pub(crate) fn commit(&mut self) -> Result<Event, AllocError>
        requires fresh { self.old.fresh ≤ self.old.made }
        requires window { length self.old.window < self.old.made }
        requires within { self.old.made < 2 ^ 32 - 1 }
        ensures { IfOk result (λ e. (e, self.new) ≡ asked event.Commit self.old) }
    {
        if self.window.is_empty() {
            return self.begin();
        }
        let txn = self.ask();
        Ok(Event::Commit { txn })
    }

    /// A transaction of the window is asked to abort.
    pub(crate) fn abort(&mut self) -> Result<Event, AllocError>
        requires fresh { self.old.fresh ≤ self.old.made }
        requires window { length self.old.window < self.old.made }
        requires within { self.old.made < 2 ^ 32 - 1 }
        ensures { IfOk result (λ e. (e, self.new) ≡ asked event.Abort self.old) }
    {
        if self.window.is_empty() {
            return self.begin();
        }
        let txn = self.ask();
        Ok(Event::Abort { txn })
    }
}
