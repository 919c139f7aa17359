//! Every transaction ends: from any state of a run what is open can be ended.
//!
//! Each law is the contract of a function without a body.
//!
//! **What is proved.**
//!
//! - **Every transaction ends**. Any state of a run can be settled: some events of nodes and of the network, no client's, no more than a bound that
//!   is read off the state, end all that is open, and leave the serial records (`any_state_can_be_settled`). Where no stop is armed, no event of a
//!   node raises what is left, nor a delivery, late or again (`node_events_raise_nothing`), so however many come in between, settling stays within
//!   the bound of the state before them (`disturbances_do_not_delay_settling`). And with all nodes up every transaction ends in at most three rounds
//!   for each open pair and one for each open transaction (`every_transaction_ends`): a round has any such events, and among them one exchange that
//!   can help, without interruption, or one timer that ends a transaction. That a scheduler makes rounds is asked of it, and no infinite run is
//!   spoken of.
//! - **Fair rounds**. A round is fair where first each member tries again to vote on each open transaction, then each coordinator sends again and each
//!   member asks, and each message that is sent in the round is delivered in it, with any other events of nodes in between; only a round that begins
//!   where no exchange can help has to have a timer. Each such round lowers what is left (`fair_rounds_lower`), so as many as the bound end every
//!   transaction (`fair_rounds_end_every_transaction`), and there is one in every state in which all nodes are up (`there_is_a_fair_round`).
#![tactic(auto)]

mod any_state;
mod disturbed;
mod fair;
mod rounds;

pub use any_state::any_state_can_be_settled;
pub use disturbed::{disturbances_do_not_delay_settling, node_events_raise_nothing};
pub use fair::{fair_rounds_end_every_transaction, fair_rounds_lower, there_is_a_fair_round};
pub use rounds::every_transaction_ends;
