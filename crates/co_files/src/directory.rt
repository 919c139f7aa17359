//! Directories by their paths: made, locked, and made stable.
ghost use Rattle.std.specs.Prelude.{◌≡◌, ◌⊎◌, [], ◌∷◌, false, IfOk, OnOk};
ghost use Rattle.co_files.specs.declared.call.Work.TheVariants.{Open, SyncAbove};
ghost use Rattle.co_files.specs.Calls.{called, did};
ghost use Rattle.co_files.specs.Climb.{IsClimb};
ghost use Rattle.co_files.specs.Paths.{dir_name};

use crate::call::Call;
use crate::descriptor::{self, Descriptor};
use co_trace::Trace;
use std::fs::{self, Metadata, OpenOptions};
use std::io::{self, ErrorKind};
use std::os::unix::fs::MetadataExt;
use std::path::Path;

/// What tells a file or a directory from all others, while it is open: its device, and its number there.
#[derive(Clone, Copy, PartialEq, Eq)]
pub(crate) struct Identity {
    device: u64,
    number: u64,
}

impl Identity {
    /// The identity of what the metadata is of.
    pub(crate) fn of(found: &Metadata) -> Identity {
        Identity {
            device: found.dev(),
            number: found.ino(),
        }
    }
}

/// The name of a directory; the empty path is the working directory.
pub(crate) fn name_of(dir: &str) -> &str
    ensures { result.now ≡ dir_name dir.now }
{
    if dir.is_empty() { "." } else { dir }
}

/// Makes a directory and its missing parents, and gives how many were missing.
pub(crate) fn make(rt: &HostRuntime, dir: &str) -> io::Result<usize> {
    let mut missing = 0usize;
    for part in Path::new(dir).ancestors() {
        if is_directory(rt, part.as_str()) {
            break;
        }
        missing = missing.saturating_add(1);
    }
    if missing > 0 {
        fs::create_dir_all(rt, dir)?;
    }
    Ok(missing)
}

/// Opens a directory. One that takes the place of a closed standard stream is refused: the next file might take it too, and what is printed would land there.
pub(crate) fn open(rt: &HostRuntime, dir: &str) -> io::Result<Descriptor>
    ensures { IfOk result (λ d. d ≡ did (Open (dir_name dir.now)) ∷ []) }
{
    let mut how = OpenOptions::new();
    how.read(true);
    let directory = Descriptor::open(rt, name_of(dir), &how)?;
    if directory.is_stream() {
        return Err(ErrorKind::Unsupported.into());
    }
    Ok(directory)
}

/// Makes the directories above one stable, each in that above it, as far as they are on its device: the process that made them may have ended before they were.
pub(crate) fn sync_above(
    rt: &HostRuntime,
    dir: &str,
    missing: usize,
    entered: Identity,
) -> io::Result<Trace<Call>>
    ensures { IfOk result (IsClimb missing dir.now) }
{
    let mut above = Trace::new();
    let mut owed = missing;
    let mut parents = Path::new(dir).ancestors();
    parents.next();
    for parent in parents {
        let name = name_of(parent.as_str());
        if owed == 0 && !is_beside(rt, name, entered)? {
            break;
        }
        climb(rt, name, owed > 0, &mut above)?;
        owed = owed.saturating_sub(1);
    }
    Ok(above)
}

/// Makes a directory above stable. One that may be traversed and not read is passed over where nothing was missing below it.
fn climb(rt: &HostRuntime, name: &str, is_owed: bool, above: &mut Trace<Call>) -> io::Result<()>
    ensures { OnOk result ((above.new ≡ did (SyncAbove name.now) ∷ above.old) ⊎ ((is_owed ≡ false) × (above.new ≡ called (SyncAbove name.now) false ∷ above.old))) }
{
    match descriptor::sync_above(rt, name, above) {
        Err(e) if !is_owed && e.kind() == ErrorKind::PermissionDenied => Ok(()),
        synced => synced,
    }
}

/// Whether a directory is on the device of another one.
fn is_beside(rt: &HostRuntime, name: &str, other: Identity) -> io::Result<bool> {
    Ok(fs::metadata(rt, name)?.dev() == other.device)
}

fn is_directory(rt: &HostRuntime, path: &str) -> bool {
    match fs::metadata(rt, name_of(path)) {
        Ok(found) => found.is_dir(),
        Err(_) => false,
    }
}
