//! What sources, sinks and homes over real files do. Those in memory are what the cases of `co_conform` run over.
#![tactic(auto)]

#[cfg(test)]
mod real_files;
#[cfg(test)]
mod sinks;
#[cfg(test)]
mod sources;
#[cfg(test)]
mod words;
