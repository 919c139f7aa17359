//! A column of a picture.
use crate::lane::Lane;
use co_base::Bytes;

/// A lane with its title.
#[derive(Drop)]
pub struct Column {
    /// Where its items are drawn.
    pub lane: Lane,
    /// What stands above it.
    pub title: Bytes,
    /// How wide it is, in pixels.
    pub width: u16,
}
