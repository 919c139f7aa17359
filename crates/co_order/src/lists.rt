//! Lists of numbers, read and written at any place.
use std::alloc::{AllocError, Global};

/// The number at a place, or 0 past the end.
pub(crate) fn number_at(xs: &[usize], place: usize) -> usize {
    match xs.get(place) {
        Some(x) => *x,
        None => 0,
    }
}

/// Writes a number at a place, where there is one.
pub(crate) fn put_at(xs: &mut [usize], place: usize, x: usize) {
    if place < xs.len() {
        xs[place] = x;
    }
}

/// So many zeros.
pub(crate) fn zeros(alloc: Global, count: usize) -> Result<Vec<usize>, AllocError> {
    vec![in alloc; 0usize; count]
}
