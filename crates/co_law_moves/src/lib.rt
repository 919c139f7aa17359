//! Each event of the federation is a list of moves, so it keeps the facts; what each node keeps by itself, over any opened logs; and what a
//! federation over sound opened logs begins with.
#![tactic(auto)]
