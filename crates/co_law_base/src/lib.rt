//! What the laws stand on: tables, clients' replies, views of a member and images of the serial run; and how each move of a member, of a
//! coordinator, of clients and of the network keeps the facts, a decision among them.
#![tactic(auto)]
