//! Timers and questions.
ghost use Rattle.std.specs.Prelude.{◌≡◌};
ghost use Rattle.co_member.specs.Plans.{timer_plan, ask_plan};

use crate::plan::{Plan, drops, says, sends};
use co_base::Txn;
use co_message::{Answer, Message};
use co_plain::Standing;

/// The timer of a transaction fires: only what has not voted may be dropped.
pub(crate) fn timer_plan(standing: Standing) -> Plan
    ensures { result ≡ timer_plan standing }
{
    match standing {
        Standing::IsActive => drops(Answer::Dropped, None),
        Standing::IsVoted => says(Answer::Kept),
        Standing::IsInstalled => says(Answer::Already),
        Standing::IsAbsent => says(Answer::Absent),
    }
}

/// A member in doubt asks the coordinator of the vote.
pub(crate) fn ask_plan(member: u8, t: Txn, coord: u8, standing: Standing) -> Plan
    ensures { result ≡ ask_plan member t coord standing }
{
    match standing {
        Standing::IsActive => says(Answer::Unvoted),
        Standing::IsVoted => sends(
            Answer::Asking,
            Message::Ask {
                txn: t,
                member,
                coord,
            },
        ),
        Standing::IsInstalled => says(Answer::Already),
        Standing::IsAbsent => says(Answer::Absent),
    }
}
