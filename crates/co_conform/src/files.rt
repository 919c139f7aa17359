//! The log files of a directory, in hex.
use crate::fault::CaseFault;
use crate::words::NODES;
use co_outside::{Home, HomeTwist, Spot};
use std::alloc::{AllocError, Global};

/// The most bytes of a file.
const MOST_BYTES: u32 = 0x1000_0000;

/// A log file: its place and its bytes.
#[derive(Drop)]
pub(crate) struct LogFile {
    pub(crate) spot: Spot,
    pub(crate) bytes: Vec<u8>,
}

impl LogFile {
    /// Appends the file in hex, a line; nothing where it is empty.
    fn put(&self, alloc: Global, out: &mut Vec<u8>) -> Result<(), AllocError> {
        if self.bytes.is_empty() {
            return Ok(());
        }
        out.extend_from_slice(self.spot.to_string(alloc)?.as_bytes())?;
        out.push(b' ')?;
        out.extend_from_slice(hex::encode(alloc, &self.bytes)?.as_bytes())?;
        Ok(out.push(b'\n')?)
    }
}

/// Appends files in hex.
pub(crate) fn put_files(
    alloc: Global,
    files: &[LogFile],
    out: &mut Vec<u8>,
) -> Result<(), AllocError> {
    for file in files {
        file.put(alloc, out)?;
    }
    Ok(())
}

/// The file at a spot.
fn file_at(alloc: Global, home: &mut HomeTwist, spot: Spot) -> Result<LogFile, CaseFault> {
    match home.read_all(alloc, spot, MOST_BYTES) {
        Ok(bytes) => Ok(LogFile { spot, bytes }),
        Err(_) => Err(CaseFault::Files),
    }
}

/// Both files of each node, by the nodes.
pub(crate) fn files_of(alloc: Global, home: &mut HomeTwist) -> Result<Vec<LogFile>, CaseFault> {
    let mut files = Vec::new(alloc);
    for node in NODES {
        files.push(file_at(alloc, home, Spot { node, part: 0 })?)?;
        files.push(file_at(alloc, home, Spot { node, part: 1 })?)?;
    }
    Ok(files)
}

/// Whether one of the files of this node has bytes.
fn is_used(files: &[LogFile], node: u8) -> bool {
    files
        .iter()
        .any(|file| file.spot.node == node && !file.bytes.is_empty())
}

/// Both spots of each node that has bytes in one of its files.
pub(crate) fn spots_of(alloc: Global, files: &[LogFile]) -> Result<Vec<Spot>, AllocError> {
    let mut spots = Vec::new(alloc);
    for file in files {
        if is_used(files, file.spot.node) {
            spots.push(file.spot)?;
        }
    }
    Ok(spots)
}
