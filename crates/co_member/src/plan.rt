//! The plan of an event.
ghost use Rattle.std.specs.Prelude.{◌≡◌};
ghost use Rattle.co_member.specs.Plans.{says, sends, drops};
ghost use Rattle.co_member.specs.Standing.{told};
ghost use Rattle.co_node.specs.declared.writing.Writes.TheVariants.{Nothing};

use crate::step::MemberStep;
use co_base::Marks;
use co_message::{Answer, Message};
use co_node::Writes;
use std::alloc::Global;

/// What becomes of a transaction.
#[derive(Clone, Copy)]
pub enum Change {
    /// It stays what it is.
    Stays,
    /// It votes yes, as this coordinator asked, with so many operations.
    Casts {
        /// The coordinator that asked.
        coord: u8,
        /// How many operations were answered here.
        count: u16,
    },
    /// It is dropped, where it is undecided.
    Drops,
    /// A voted one is committed.
    Installs,
    /// It votes yes and is committed at once.
    CastsAndInstalls {
        /// The coordinator that its record names.
        coord: u8,
        /// How many operations were answered here.
        count: u16,
    },
}

/// What an event does.
#[derive(Drop)]
pub struct Plan {
    /// What the log is to get. Where its write is stopped, nothing else of the plan is left.
    pub writes: Writes,
    /// What becomes of the transaction.
    pub change: Change,
    /// What is answered.
    pub answer: Answer,
    /// What is sent.
    pub sent: Option<Message>,
}

/// How an event goes on.
#[derive(Drop)]
pub(crate) enum Course {
    /// As this plan says.
    Carries(Plan),
    /// With the vote yes, for this coordinator and over so many operations. Its record is forced from the sets of the
    /// transaction, of which nothing is copied.
    Grants { coord: u8, count: u16 },
    /// With the commit of a local transaction, over so many operations. Its two records are spelled out from the sets of the transaction, of
    /// which nothing is copied, and forced in one log write.
    GrantsLocal { count: u16 },
}

/// An answer alone.
pub(crate) fn says(answer: Answer) -> Plan
    ensures { result ≡ says answer }
{
    Plan {
        writes: Writes::Nothing,
        change: Change::Stays,
        answer,
        sent: None,
    }
}

/// An answer and a message.
pub(crate) fn sends(answer: Answer, message: Message) -> Plan
    ensures { result ≡ sends answer message }
{
    Plan {
        writes: Writes::Nothing,
        change: Change::Stays,
        answer,
        sent: Some(message),
    }
}

/// A transaction is dropped, and this is answered and sent.
pub(crate) fn drops(answer: Answer, sent: Option<Message>) -> Plan
    ensures { result ≡ drops answer sent }
{
    Plan {
        writes: Writes::Nothing,
        change: Change::Drops,
        answer,
        sent,
    }
}

/// What a plan that writes nothing tells.
pub(crate) fn told(alloc: Global, plan: Plan) -> MemberStep
    requires { plan.writes ≡ Nothing }
    ensures { result ≡ told plan }
{
    let Plan {
        writes,
        change: _,
        answer,
        sent,
    } = plan;
    match writes {
        Writes::Nothing => MemberStep {
            answer,
            sent,
            marks: Marks::new(alloc),
        },
        Writes::Keeps(_) | Writes::Forces(_) | Writes::ForcesBoth(_, _) => unreachable!(),
    }
}
