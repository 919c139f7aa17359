//! What is told in no order, and which of it stands first.
use co_order_check::Refutation;

/// A transaction was told what it is told in no order.
#[derive(Drop)]
pub(crate) struct Odd {
    /// The event.
    pub(crate) line: u32,
    /// The place of the transaction in the order of decisions.
    pub(crate) txn: usize,
    /// Why.
    pub(crate) why: Refutation,
}

/// Whether it is by a value that no other left.
fn is_unwritten(why: &Refutation) -> bool {
    match why {
        Refutation::Unwritten(_) => true,
        _ => false,
    }
}

/// The one of two reasons that stands first at a line.
pub(crate) fn first_of(one: Option<Refutation>, other: Option<Refutation>) -> Option<Refutation> {
    match one {
        None => other,
        Some(why) => {
            if is_unwritten(&why) {
                return Some(why);
            }
            match other {
                None => Some(why),
                Some(then) => {
                    if is_unwritten(&then) {
                        Some(then)
                    } else {
                        Some(why)
                    }
                }
            }
        }
    }
}

/// The one at the lesser line.
pub(crate) fn least_odd(one: Option<Odd>, other: Odd) -> Option<Odd> {
    match one {
        None => Some(other),
        Some(found) => {
            if found.line <= other.line {
                Some(found)
            } else {
                Some(other)
            }
        }
    }
}
