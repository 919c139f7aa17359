//! The words that the whole federation speaks: transaction numbers, nodes, keys, values, ranges,
//! operations, replies and the small lists of these.
//!
//! A `Key`, a `Value`, a `Range`, `Rows` and `Txns` are valid from the moment they are made, and a
//! contract sees each as what it stands for: text as its bytes, a list as a list.
//!
//! **What is proved.** Keys, values and ranges are valid; `new` accepts exactly what is valid and names the first fault; orders by bytes; node bytes both ways; equal
//! copies; the counts of participants, by member.
#![tactic(auto)]

mod copies;
mod fault;
mod head;
mod key;
mod leaves;
mod letters;
mod limits;
mod mark;
mod node;
mod op;
mod part;
mod range;
mod reply;
mod row;
mod rows;
mod sequence;
mod txn;
mod txns;
mod value;
mod words;
mod written;

pub use copies::{copy_bytes, copy_rows};
pub use fault::BaseFault;
pub use head::{Head, Kind, Kinds};
pub use key::Key;
pub use leaves::{Bytes, Leaves, Stop};
pub use limits::{
    MOST_COORDINATORS, MOST_LOG_BYTES, MOST_MEMBERS, MOST_OPERATIONS, MOST_TRANSACTIONS,
};
pub use mark::{Mark, MarkKind, Marks};
pub use node::Node;
pub use op::Op;
pub use part::{Part, Parts, count_among, count_one};
pub use range::{Range, Ranges};
pub use reply::{Replies, Reply};
pub use row::Row;
pub use rows::Rows;
pub use sequence::Sequence;
pub use txn::Txn;
pub use txns::Txns;
pub use value::Value;
pub use written::{Writes, Written};
