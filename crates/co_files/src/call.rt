//! The calls of the operating system on an open file or directory, as its history has them.
use co_trace::Text;

/// What a call asks for.
#[derive(Drop)]
pub(crate) enum Work {
    /// To look at this path, where nothing stands.
    Miss(Text),
    /// To open the file at this path.
    Open(Text),
    /// To make the file at this path.
    Make(Text),
    /// To read from the front of the file. These are the bytes that it gave.
    Read(Text),
    /// To lay this piece at this place of the file.
    Write(u32, Text),
    /// To cut the file to this length.
    Cut(u32),
    /// To make the file stable.
    Sync,
    /// To make the name of the file stable, by a sync of the directory that has it.
    SyncName,
    /// To make the directory at this path stable, which is above.
    SyncAbove(Text),
    /// To lock the directory.
    Lock,
    /// To hand the lock of another descriptor of the directory on to this one.
    HandOn,
}

/// A call, and whether it was done.
#[derive(Drop)]
pub(crate) struct Call {
    pub(crate) work: Work,
    pub(crate) done: bool,
}
