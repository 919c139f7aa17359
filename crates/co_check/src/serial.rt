//! The serial run of one committed transaction.
ghost use Rattle.std.specs.Prelude.{◌≡◌, IfOk};
ghost use Rattle.co_serial.specs.Family.{family_of};
ghost use Rattle.co_check.specs.Runs.{IsRunOf};

use crate::client::Answered;
use crate::same::is_same;
use co_base::Reply;
use co_serial::SerialMap;
use std::alloc::AllocError;

/// An operation that was not answered as in the serial run.
#[derive(Drop)]
pub struct Unlike {
    /// The number of its event.
    pub number: u32,
    /// What was told.
    pub told: Reply,
    /// What the serial run answers.
    pub serial: Reply,
}

/// Runs the operations of a transaction, the first one first, on the records of the serial run, up to the first whose reply is not the one
/// that was told.
pub(crate) fn first_unlike(
    map: &mut SerialMap,
    told: Vec<Answered>,
) -> Result<Option<Unlike>, AllocError>
    ensures { IfOk result (IsRunOf (family_of map.old) (family_of map.new) told.items) }
{
    for operation in told {
        let serial = map.apply(&operation.site)?;
        if !is_same(&serial, &operation.reply) {
            return Ok(Some(differing(operation, serial)));
        }
    }
    Ok(None)
}

/// What is told of an operation that the serial run answers so.
fn differing(operation: Answered, serial: Reply) -> Unlike
    ensures { result ≡ record { number = operation.number; told = operation.reply; serial = serial } }
{
    let Answered {
        number,
        site: _,
        reply,
    } = operation;
    Unlike {
        number,
        told: reply,
        serial,
    }
}
