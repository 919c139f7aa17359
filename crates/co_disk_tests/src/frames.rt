//! A batch is written, and lent again from the text that it stands in.
use co_frame::{Batches, OPEN_GATE, put_batch};
use std::alloc::{AllocError, Global};

/// One batch behind an open gate.
static TEXT: [u8; 9] = [0xa5, 0, 0, 0, 3, 111, 110, 101, 0];

/// The text of one batch behind an open gate.
fn written(alloc: Global) -> Result<Vec<u8>, AllocError> {
    let mut file = Vec::new(alloc);
    file.push(OPEN_GATE)?;
    put_batch(b"one", &mut file)?;
    Ok(file)
}

/// The place and the records of the next batch; no place where there is none.
fn next_of<'a>(batches: &mut Batches<'a>) -> (u32, &'a [u8]) {
    match batches.next() {
        Some(Ok(batch)) => (batch.at, batch.records),
        Some(Err(_)) => (1, b"fault"),
        None => (0, b"none"),
    }
}

/// Whether the text is written.
fn is_written(alloc: Global) -> bool {
    match written(alloc) {
        Ok(file) => file.as_slice() == TEXT.as_slice(),
        Err(_) => false,
    }
}

#[test]
fn a_batch_is_written(rt: HostRuntime) {
    assert!(rt; is_written(rt.alloc()));
}

/// Whether its batch is lent, and no other.
fn is_lent() -> bool {
    let mut batches = Batches::new(TEXT.as_slice());
    next_of(&mut batches) == (5, b"one".as_slice())
        && next_of(&mut batches) == (0, b"none".as_slice())
        && batches.gate() == 8
}

#[test]
fn a_written_batch_is_lent_again(rt: HostRuntime) {
    assert!(rt; is_lent());
}
