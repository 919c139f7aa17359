//! What holds of whole runs: no two members decide a transaction differently; where nothing but timers is enabled, a timer ends an open
//! transaction for good; and the run is commitment ordered (Raz, *The Principle of Commitment Ordering*, VLDB 1992).
#![tactic(auto)]
