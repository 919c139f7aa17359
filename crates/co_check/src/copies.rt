//! Equal operations and replies.
ghost use Rattle.std.specs.Prelude.{◌≡◌, IfOk};

use crate::client::Answered;
use co_base::{Reply, Rows, copy_rows};
use co_serial::Site;
use co_state::History;
use std::alloc::{AllocError, Global};

/// An equal reply.
fn copy_reply(alloc: Global, reply: &Reply) -> Result<Reply, AllocError>
    ensures { IfOk result (λ copy. copy ≡ reply.now) }
{
    match reply {
        Reply::Got(None) => Ok(Reply::Got(None)),
        Reply::Got(Some(value)) => Ok(Reply::Got(Some(value.copy()?))),
        Reply::Rows(rows) => {
            let copy = copy_rows(alloc, rows.as_slice())?;
            Ok(Reply::Rows(Rows::of(copy)))
        }
        Reply::Done => Ok(Reply::Done),
    }
}

/// An equal operation with its reply.
fn copy_answered(alloc: Global, operation: &Answered) -> Result<Answered, AllocError>
    ensures { IfOk result (λ copy. copy ≡ operation.now) }
{
    let reply = copy_reply(alloc, &operation.reply)?;
    let op = operation.site.op.copy()?;
    Ok(Answered {
        number: operation.number,
        site: Site {
            member: operation.site.member,
            op,
        },
        reply,
    })
}

/// Equal operations with their replies.
pub(crate) fn copy_told(
    alloc: Global,
    told: &History<Answered>,
) -> Result<History<Answered>, AllocError>
    ensures { IfOk result (λ copy. copy ≡ told.now) }
{
    let mut copy = History::new(alloc);
    for operation in told.oldest_first() {
        copy.push(copy_answered(alloc, operation)?)?;
    }
    Ok(copy)
}
