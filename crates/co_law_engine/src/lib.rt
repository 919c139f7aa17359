//! What the laws need of one engine: records under changes, reads that agree, and what a vote tells.
#![tactic(auto)]
