//! Changes laid over others.
ghost use Rattle.std.specs.Prelude.{◌≡◌, OnOk};
ghost use Rattle.co_state.specs.Effects.{joined};

use crate::places::put_change;
use co_base::Written;
use std::alloc::AllocError;

/// Lays changes over others, the last one first.
pub fn join(changes: &mut Vec<Written>, others: &[Written]) -> Result<(), AllocError>
    ensures { OnOk result (changes.new.items ≡ joined others.now changes.old.items) }
{
    let mut place = others.len();
    while 0 < place {
        place -= 1;
        put_change(changes, others[place].copy()?)?;
    }
    Ok(())
}
