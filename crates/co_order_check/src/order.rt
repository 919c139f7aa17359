//! Whether the committed transactions run serially in an order.
ghost use Rattle.std.specs.Prelude.{◌≡◌, true, IfOk};
ghost use Rattle.co_serial.specs.Family.{family_of};
ghost use Rattle.co_check.specs.Runs.{sites, replies};
ghost use Rattle.co_serial.specs.SerialRun.{run_whole, after_whole};
ghost use Rattle.co_order_check.specs.Order.{IsPermuted, IsSerialOrder};

use co_check::{Answered, Committed, is_same};
use co_serial::SerialMap;
use std::alloc::{AllocError, Global};

/// Whether each place below a count stands once in the order, and no other.
fn is_permuted(alloc: Global, count: usize, order: &[usize]) -> Result<bool, AllocError>
    ensures { IfOk result (λ is. is ≡ true → IsPermuted count order.now) }
{
    let mut seen = vec![in alloc; false; count]?;
    for place in order {
        if *place >= count || seen[*place] {
            return Ok(false);
        }
        seen[*place] = true;
    }
    for is_seen in seen.as_slice() {
        if !*is_seen {
            return Ok(false);
        }
    }
    Ok(true)
}

/// Runs a transaction whole on the records of the serial run. Gives whether it was answered so.
fn is_served(map: &mut SerialMap, told: &[Answered]) -> Result<bool, AllocError>
    ensures { IfOk result (λ is. is ≡ true → (replies told.now ≡ run_whole (family_of map.old) (sites told.now)) × (family_of map.new ≡ after_whole (family_of map.old) (sites told.now))) }
{
    for operation in told {
        let serial = map.apply(&operation.site)?;
        if !is_same(&serial, &operation.reply) {
            return Ok(false);
        }
    }
    Ok(true)
}

/// Whether these places are an order of the transactions in which each is answered as when they run whole, one by one.
pub fn order_holds(
    alloc: Global,
    history: &[Committed],
    order: &[usize],
) -> Result<bool, AllocError>
    ensures { IfOk result (λ holds. holds ≡ true → IsSerialOrder history.now order.now) }
{
    if !is_permuted(alloc, history.len(), order)? {
        return Ok(false);
    }
    let mut map = SerialMap::new(alloc);
    for place in order {
        if *place >= history.len() || !is_served(&mut map, history[*place].told.oldest_first())? {
            return Ok(false);
        }
    }
    Ok(true)
}
