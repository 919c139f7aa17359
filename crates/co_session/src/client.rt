//! The client's side of one transaction.
ghost use Rattle.std.specs.Prelude.{◌≡◌, ◌+◌, ◌<◌, ◌^◌, map, reverse, OnOk, OnErr, IfOk};
ghost use Rattle.co_plain.specs.Sessions.{count_at, parts_of, begun_by, with_told, asked_to_end};
ghost use Rattle.co_session.specs.Leaves.{IsLeave, leave_of, may_be_at};

use crate::fault::SessionFault;
use co_base::{Node, Part, Parts, Reply, count_among, count_one};
use co_serial::Site;
use co_trace::Trace;
use std::alloc::{AllocError, Global};
use std::marker::Model;

/// What is kept of one transaction: the node that decides it, the answered operations, how many of them each
/// member answered, and whether it was asked to end. Replies were told; they are not kept.
///
/// A contract sees the session, with the newest operation first, and with the replies.
#[derive(Drop)]
pub struct Client {
    by: Node,
    sites: Vec<Site>,
    replies: Trace<Reply>,
    counts: Vec<Part>,
    asked: bool,
}

impl Model for Client {
    ghost use Rattle.std.specs.Prelude.{reverse, length, ◌≡◌};
    ghost use Rattle.co_plain.specs.declared.session.Session.{Session};
    ghost use Rattle.co_plain.specs.Sessions.{parts_of};
    ghost use Rattle.co_session.specs.Clients.{joined};

    ghost Value = { Session };

    ghost view = { λ c. record { by = c.by; told = joined (reverse c.sites.items) c.replies; asked = c.asked } };

    ghost invariant = { λ c. (length c.replies ≡ length c.sites.items) × (c.counts.items ≡ parts_of (joined (reverse c.sites.items) c.replies)) };
}

/// Whether a transaction that this node decides may act at a member, or may end: a local one stays at its own member.
fn may_be_at(by: Node, at: Option<u8>) -> bool
    ensures { result ≡ may_be_at by at }
{
    match (by, at) {
        (Node::Member(own), Some(member)) => own == member,
        _ => true,
    }
}

impl Client {
    /// A transaction that was just begun, and that this node decides. Takes no memory.
    pub(crate) fn begun(alloc: Global, by: Node) -> Client
        ensures { result ≡ begun_by by }
    {
        Client {
            by,
            sites: Vec::new(alloc),
            replies: Trace::new(),
            counts: Vec::new(alloc),
            asked: false,
        }
    }

    /// The node that decides the transaction.
    pub(crate) fn by(&self) -> Node
        ensures { result ≡ self.now.by }
    {
        self.by
    }

    /// The answered operations, the first one first.
    pub(crate) fn operations(&self) -> &[Site]
        ensures { result.now ≡ map (λ o. o.site) (reverse self.now.told) }
    {
        self.sites.as_slice()
    }

    /// Whether its client may act at this member, or may ask for its end, and which node decides it.
    pub(crate) fn may_act(&self, at: Option<u8>) -> Result<Node, SessionFault>
        ensures { IsLeave (leave_of self.now at) result }
    {
        if !may_be_at(self.by, at) {
            return Err(SessionFault::NotBegun);
        }
        if self.asked {
            return Err(SessionFault::Asked);
        }
        Ok(self.by)
    }

    /// How many operations were answered at the member.
    pub(crate) fn carried(&self, member: u8) -> u16
        ensures { result ≡ count_at self.now.told member }
    {
        count_among(self.counts.as_slice(), member)
    }

    /// The participants, ascending by member, each with its count.
    pub(crate) fn parts(&self) -> Result<Parts, AllocError>
        ensures { IfOk result (λ parts. parts ≡ parts_of self.now.told) }
    {
        let parts = self.counts.clone()?;
        Ok(Parts::of(parts))
    }

    /// One more operation was answered. Want of memory leaves the session as it was.
    pub(crate) fn tell(&mut self, site: Site, reply: Reply) -> Result<(), AllocError>
        requires { count_at self.old.told site.member + 1 < 2 ^ 16 }
        ensures ok { OnOk result (self.new ≡ with_told self.old (record { site = site; reply = reply })) }
        ensures err { OnErr result (self.new ≡ self.old) }
    {
        let member = site.member;
        self.sites.reserve(1)?;
        count_one(&mut self.counts, member)?;
        self.sites.push(site)?;
        self.replies.note(reply);
        Ok(())
    }

    /// The transaction was asked to end.
    pub(crate) fn ask(&mut self)
        ensures { self.new ≡ asked_to_end self.old }
    {
        self.asked = true;
    }
}
