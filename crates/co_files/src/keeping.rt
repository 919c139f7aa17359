//! The log files that are kept open, each at its spot.
ghost use Rattle.std.specs.Prelude.{◌≡◌, ◌≢◌, ◌≤◌, [], position, Some, None, IfOk, OnOk, OnErr, length};
ghost use Rattle.co_outside.specs.declared.spot.Spot.{Spot};
ghost use Rattle.co_files.specs.declared.call.Work.TheVariants.{Read, Write, Cut, Sync};
ghost use Rattle.co_files.specs.Calls.{IsOneCall};
ghost use Rattle.co_files.specs.Folder.{calls_at, is_of};

use crate::log_file::LogFile;
use co_outside::Spot;
use std::alloc::Global;
use std::io::{self, ErrorKind};

/// The place of the file of a spot.
pub(crate) fn kept(files: &[LogFile], spot: Spot) -> Option<usize>
    ensures { result ≡ position (is_of spot) files.now }
{
    files.iter().position(|log| log.spot.node == spot.node && log.spot.part == spot.part)
}

/// The first `most` bytes of the file at a place, or all of a shorter one.
pub(crate) fn read_at(
    rt: &HostRuntime,
    alloc: Global,
    files: &mut [LogFile],
    place: usize,
    path: &str,
    spot: Spot,
    most: u32,
) -> io::Result<Vec<u8>>
    requires { Some place ≡ position (is_of spot) files.old }
    ensures most { IfOk result (λ v. length v.items ≤ most) }
    ensures called { IsOneCall (λ v. Read v.items) (Read []) (calls_at files.old spot) (calls_at files.new spot) result }
    ensures others { (s : Spot) → s ≢ spot → calls_at files.new s ≡ calls_at files.old s }
{
    files[place].read(rt, alloc, path, most)
}

/// Lays a piece into the file at a place.
pub(crate) fn write_at(
    files: &mut [LogFile],
    place: usize,
    spot: Spot,
    at: u32,
    piece: &[u8],
) -> io::Result<()>
    requires { Some place ≡ position (is_of spot) files.old }
    ensures called { IsOneCall (λ _. Write at piece.now) (Write at piece.now) (calls_at files.old spot) (calls_at files.new spot) result }
    ensures others { (s : Spot) → s ≢ spot → calls_at files.new s ≡ calls_at files.old s }
{
    files[place].write(at, piece)
}

/// Cuts the file at a place.
pub(crate) fn cut_at(files: &mut [LogFile], place: usize, spot: Spot, len: u32) -> io::Result<()>
    requires { Some place ≡ position (is_of spot) files.old }
    ensures called { IsOneCall (λ _. Cut len) (Cut len) (calls_at files.old spot) (calls_at files.new spot) result }
    ensures others { (s : Spot) → s ≢ spot → calls_at files.new s ≡ calls_at files.old s }
{
    files[place].cut(len)
}

/// Makes the file at a place stable.
pub(crate) fn sync_at(
    rt: &HostRuntime,
    files: &mut [LogFile],
    place: usize,
    path: &str,
    spot: Spot,
) -> io::Result<()>
    requires { Some place ≡ position (is_of spot) files.old }
    ensures called { IsOneCall (λ _. Sync) Sync (calls_at files.old spot) (calls_at files.new spot) result }
    ensures others { (s : Spot) → s ≢ spot → calls_at files.new s ≡ calls_at files.old s }
{
    files[place].sync(rt, path)
}

/// Keeps a file of a spot, of which none is kept. A file that is kept for another spot is refused.
pub(crate) fn keep(files: &mut Vec<LogFile>, log: LogFile, spot: Spot) -> io::Result<()>
    requires none { None ≡ position (is_of spot) files.old.items }
    requires spot { log.spot ≡ spot }
    ensures kept { OnOk result (calls_at files.new.items spot ≡ log.file) }
    ensures stays { OnErr result (calls_at files.new.items spot ≡ calls_at files.old.items spot) }
    ensures others { (s : Spot) → s ≢ spot → calls_at files.new.items s ≡ calls_at files.old.items s }
{
    if files.iter().any(|other| other.is_same(&log)) {
        return Err(ErrorKind::AlreadyExists.into());
    }
    files.push(log)?;
    Ok(())
}
