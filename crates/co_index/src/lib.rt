//! Who of the undecided transactions touched which key, and who of them is in the way of a vote.
//!
//! An index keeps the transactions by the keys that they touched: those that wrote a key, those that read it alone, and the wider ranges of each. An
//! operation lays in what it touched and looks at no other transaction. The least transaction in the way of a vote is found when it is asked for, by
//! the keys and ranges of the asked one alone, each list ascending and left once it cannot give a lesser number.
//!
//! Tables by key, which the engines share, stand here too.
//!
//! **What is proved.** The index is exactly that of an engine state: what each undecided transaction read and wrote, and whether it has voted. It stays so
//! with operations, votes and transactions that are gone. The transaction that it finds in the way of a vote is that of the voting rule.
#![tactic(auto)]

mod holder;
mod index;
mod key_map;
mod lesser;
mod overlay;
mod touched;
mod touchers;

pub use index::Index;
pub use key_map::KeyMap;
pub use lesser::lesser_key;
pub use overlay::value_after;
