//! The disk model over the directory of logs: stable bytes, pending writes, and what a crash may
//! leave of them.
//!
//! **What is proved.**
//!
//! - A read is the stable bytes with the pending writes laid over
//! - after a sync it is stable
//! - after any answer the told file is an image, and what the disk gives is within 268,435,456 bytes
//! - a fault of the home is never tried again and forgotten
//! - an armed stop comes at exactly its device call and leaves exactly the chosen image, as a power cut does, here and in the home
//! - every chosen image is an image, and every image is some filling
//! - `Differs` names the first differing place and never comes over a home that tells its bytes.
#![tactic(auto)]

mod difference;
mod disk;
mod fault;
mod image;
mod laws;
mod laying;
mod stop;
mod touched;

pub use disk::Disk;
pub use fault::DiskFault;
pub use laws::chosen_are_images;
