//! The sessions of this run.
ghost use Rattle.std.specs.Prelude.{◌≡◌, ◌<◌, ◌≤◌, true, false, length, map, reverse, OnOk, OnErr, IfOk};
ghost use Rattle.co_base.specs.Limits.{most_members, most_operations};
ghost use Rattle.co_state.specs.Table.{holds};
ghost use Rattle.co_session.specs.Clients.{is_used, is_full, none_begun, with_begun, with_answered, with_asked, carried_in, decider_in, parts_in, told_in};
ghost use Rattle.co_session.specs.Leaves.{IsLeave, IsLeaveToBegin, leave_in};

use crate::client::Client;
use crate::fault::SessionFault;
use co_base::{MOST_TRANSACTIONS, Node, Parts, Reply, Txn, Txns};
use co_serial::Site;
use indexmap::IndexMap;
use std::alloc::{AllocError, Global};
use std::marker::Model;

/// The transactions that clients began in this run, in the order of their begin, and the numbers that stand
/// in the opened logs.
///
/// A contract sees a table of sessions, the begun numbers in order, and the used numbers.
#[derive(Drop)]
pub struct Sessions {
    alloc: Global,
    begun: IndexMap<Txn, Client>,
    used: Txns,
}

impl Model for Sessions {
    ghost use Rattle.std.specs.FinMap.{from_entries};
    ghost use Rattle.indexmap.specs.IndexMap.{keys};
    ghost use Rattle.co_session.specs.Clients.{Clients};
    ghost use Rattle.co_base.specs.Order.{IsAscending};
    ghost use Rattle.std.specs.FinMap as map;
    ghost use Rattle.std.specs.Ordering.{nat_cmp};
    ghost use Rattle.std.specs.Coded.{codes, coded_ℕ};
    ghost use Rattle.co_plain.specs.contracts.session.Session as session;

    ghost Value = { Clients };

    ghost coded = { Prim.hlevel (codes, map.code {R = nat_cmp} coded_ℕ session.the_row.coded) };

    ghost view = { λ s. record { sessions = from_entries s.begun.entries; begun = keys s.begun; used = s.used } };

    ghost invariant = { λ s. IsAscending s.used };
}

impl Sessions {
    /// No transaction was begun in this run. `used` has the numbers that stand in the opened logs.
    pub fn attach(alloc: Global, used: Txns) -> Result<Sessions, AllocError>
        ensures { IfOk result (λ sessions. sessions ≡ none_begun used) }
    {
        let _ = used.as_slice();
        Ok(Sessions {
            alloc,
            begun: IndexMap::new(alloc),
            used,
        })
    }

    /// Whether a client may begin the transaction: `Used` exactly where it was begun in this run or stands in
    /// an opened log, else `Count` exactly where 65,536 numbers or more are begun or used.
    pub fn may_begin(&self, t: Txn) -> Result<(), SessionFault>
        ensures { IsLeaveToBegin self.now t result }
    {
        if self.is_used(t) {
            return Err(SessionFault::Used);
        }
        if self.is_full() {
            return Err(SessionFault::Count);
        }
        Ok(())
    }

    /// Whether the transaction was begun in this run, or stands in an opened log.
    fn is_used(&self, t: Txn) -> bool
        ensures { result ≡ is_used self.now t }
    {
        if self.begun.contains_key(&t) {
            return true;
        }
        self.used.as_slice().binary_search(&t).is_ok()
    }

    /// Whether as many numbers are begun or used as there may be.
    fn is_full(&self) -> bool
        ensures { result ≡ is_full self.now }
    {
        let used = self.used.as_slice().len();
        self.begun.len() + used >= MOST_TRANSACTIONS
    }

    /// A client begins the transaction at the node that is to decide it: a coordinator, or the only member that it visits. `may_begin`
    /// said yes. Want of memory leaves the sessions as they were.
    pub fn begin(&mut self, t: Txn, by: Node) -> Result<(), AllocError>
        requires unused { is_used self.old t ≡ false }
        requires room { is_full self.old ≡ false }
        ensures ok { OnOk result (self.new ≡ with_begun self.old t by) }
        ensures err { OnErr result (self.new ≡ self.old) }
    {
        self.begun.insert(t, Client::begun(self.alloc, by))?;
        Ok(())
    }

    /// Whether a client may act in the transaction, at this member or to end it, and which node decides it: `NotBegun` exactly where it was not
    /// begun in this run, or is local and the member is another one; else `Asked` exactly where it was asked to end.
    pub fn may_act(&self, t: Txn, at: Option<u8>) -> Result<Node, SessionFault>
        ensures leave { IsLeave (leave_in self.now t at) result }
        ensures begun { OnOk result (holds self.now.sessions t ≡ true) }
    {
        match self.begun.get(&t) {
            None => Err(SessionFault::NotBegun),
            Some(client) => client.may_act(at),
        }
    }

    /// The operations of the transaction that were answered, the first one first; none where it was not begun in this run. Takes no memory.
    pub fn operations(&self, t: Txn) -> &[Site]
        ensures { result.now ≡ map (λ o. o.site) (reverse (told_in self.now t)) }
    {
        match self.begun.get(&t) {
            None => &[],
            Some(client) => client.operations(),
        }
    }

    /// How many transactions were begun in this run. Takes no memory.
    pub fn count(&self) -> usize
        ensures { result ≡ length self.now.begun }
    {
        self.begun.len()
    }

    /// The node that decides the transaction; none where it was not begun in this run. Takes no memory.
    pub fn decider(&self, t: Txn) -> Option<Node>
        ensures { result ≡ decider_in self.now t }
    {
        match self.begun.get(&t) {
            None => None,
            Some(client) => Some(client.by()),
        }
    }

    /// How many operations of the transaction were answered at the member: 0 where it was not begun in this
    /// run. Takes no memory.
    pub fn carried(&self, t: Txn, member: u8) -> u16
        ensures { result ≡ carried_in self.now t member }
    {
        match self.begun.get(&t) {
            None => 0,
            Some(client) => client.carried(member),
        }
    }

    /// An operation of the transaction was answered. Want of memory leaves the sessions as they were.
    pub fn answered(&mut self, t: Txn, site: Site, reply: Reply) -> Result<(), AllocError>
        requires begun { holds self.old.sessions t ≡ true }
        requires member { (1 ≤ site.member) × (site.member ≤ most_members) }
        requires count { carried_in self.old t site.member < most_operations }
        ensures ok { OnOk result (self.new ≡ with_answered self.old t (record { site = site; reply = reply })) }
        ensures err { OnErr result (self.new ≡ self.old) }
    {
        let Some(client) = self.begun.get_mut(&t) else {
            unreachable!()
        };
        client.tell(site, reply)
    }

    /// The participants of the transaction, ascending by member, each with its count.
    pub fn parts(&self, t: Txn) -> Result<Parts, AllocError>
        requires begun { holds self.now.sessions t ≡ true }
        ensures { IfOk result (λ parts. parts ≡ parts_in self.now t) }
    {
        match self.begun.get(&t) {
            None => Ok(Parts::new(self.alloc)),
            Some(client) => client.parts(),
        }
    }

    /// The transaction was asked to end, and its deciding node answered. Takes no memory.
    pub fn asked(&mut self, t: Txn)
        requires begun { holds self.old.sessions t ≡ true }
        ensures { self.new ≡ with_asked self.old t }
    {
        let Some(client) = self.begun.get_mut(&t) else {
            unreachable!()
        };
        client.ask();
    }
}
