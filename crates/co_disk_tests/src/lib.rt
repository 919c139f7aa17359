//! What the crates of files do with bytes: batches in a log text, and the images that cuts and stops leave of a disk.
#![tactic(auto)]

#[cfg(test)]
mod disks;
#[cfg(test)]
mod frames;
#[cfg(test)]
mod images;
#[cfg(test)]
mod stops;
