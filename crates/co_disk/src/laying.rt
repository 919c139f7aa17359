//! A chosen image on its way into the home.
ghost use Rattle.std.specs.Prelude.{◌≡◌, ◌≤◌, ◌<◌, ◌+◌, ◌++◌, ◌∷◌, [], ℕ, List, length, map, true, All, IfSome, OnOk, OnErr, IsErrOf};
ghost use Rattle.co_outside.specs.Home.{File, OthersStay, Agrees, IsClean, RestStays, HasFailed};
ghost use Rattle.co_disk.specs.DiskModel.{Write, DiskState, covers, is_touched, any_covers, read_of, IsImage};
ghost use Rattle.co_disk.specs.Homes.{IsImageIn};
ghost use Rattle.co_disk.specs.Kept.{write_of, entry_of, entries};
ghost use Rattle.co_disk.specs.Laying.{IsLaidTo, IsToLay, BeginWithin, EndWithin};

use crate::touched::{FirstByte, Touched};
use co_outside::{Home, HomeFault, Spot};
use std::alloc::Global;

/// Lays the part of the image in one written range into the home.
fn lay_part<H: Home>(
    alloc: Global,
    home: &mut H,
    spot: Spot,
    image: &[u8],
    at: u32,
    count: usize,
) -> Result<(), HomeFault>
    requires at { at ≤ (H.seen home.old).reach spot }
    ensures laid { (disk : DiskState) (done : List Write) (w : Write) → w.at ≡ at → length w.piece ≡ count
        → ((place : ℕ) → covers place w ≡ true → is_touched disk place ≡ true) → length image.now ≤ length (read_of disk)
        → IsLaidTo disk image.now done ((H.seen home.old).file spot) ((H.seen home.old).reach spot)
        → OnOk result (IsLaidTo disk image.now (done ++ w ∷ []) ((H.seen home.new).file spot) ((H.seen home.new).reach spot)) }
    ensures failed { (disk : DiskState) (w : Write) → w.at ≡ at → length w.piece ≡ count
        → ((place : ℕ) → covers place w ≡ true → is_touched disk place ≡ true) → length image.now ≤ length (read_of disk)
        → IsImageIn disk ((H.seen home.old).file spot) → OnErr result (IsImageIn disk ((H.seen home.new).file spot)) }
    ensures memory { at + count ≤ (H.seen home.old).reach spot → IsErrOf result HomeFault.Memory → ⊥ }
    ensures reach { (H.seen home.old).reach spot ≤ (H.seen home.new).reach spot }
    ensures rest { RestStays spot (H.seen home.old) (H.seen home.new) }
    ensures fault { IsErrOf result HomeFault.Failed → HasFailed spot (H.seen home.old) (H.seen home.new) }
    ensures quiet { (IsErrOf result HomeFault.Failed → ⊥) → (H.seen home.new).faults ≡ (H.seen home.old).faults }
{
    let from = at as usize;
    if from >= image.len() {
        return Ok(());
    }
    let inside = count.min(image.len() - from);
    home.write_at(alloc, spot, at, &image[from..from + inside])
}

/// Lays the parts of the image in all written ranges into the home.
fn lay_parts<H: Home>(
    alloc: Global,
    home: &mut H,
    spot: Spot,
    image: &[u8],
    touched: &[Touched],
) -> Result<(), HomeFault>
    requires at { All (λ t. t.at ≤ (H.seen home.old).reach spot) touched.now }
    ensures laid { (disk : DiskState) (done : List Write)
        → ((place : ℕ) → any_covers place (map write_of (map entry_of touched.now)) ≡ true → is_touched disk place ≡ true) → length image.now ≤ length (read_of disk)
        → IsLaidTo disk image.now done ((H.seen home.old).file spot) ((H.seen home.old).reach spot)
        → OnOk result (IsLaidTo disk image.now (done ++ map write_of (map entry_of touched.now)) ((H.seen home.new).file spot) ((H.seen home.new).reach spot)) }
    ensures failed { (disk : DiskState)
        → ((place : ℕ) → any_covers place (map write_of (map entry_of touched.now)) ≡ true → is_touched disk place ≡ true) → length image.now ≤ length (read_of disk)
        → IsImageIn disk ((H.seen home.old).file spot) → OnErr result (IsImageIn disk ((H.seen home.new).file spot)) }
    ensures memory { All (λ t. t.at + length t.piece.items ≤ (H.seen home.old).reach spot) touched.now → IsErrOf result HomeFault.Memory → ⊥ }
    ensures reach { (H.seen home.old).reach spot ≤ (H.seen home.new).reach spot }
    ensures rest { RestStays spot (H.seen home.old) (H.seen home.new) }
    ensures fault { IsErrOf result HomeFault.Failed → HasFailed spot (H.seen home.old) (H.seen home.new) }
    ensures quiet { (IsErrOf result HomeFault.Failed → ⊥) → (H.seen home.new).faults ≡ (H.seen home.old).faults }
{
    for t in touched {
        lay_part(alloc, home, spot, image, t.at, t.piece.len())?;
    }
    Ok(())
}

/// Lays the part of the image at the first byte into the home, where there is one.
fn lay_first<H: Home>(
    alloc: Global,
    home: &mut H,
    spot: Spot,
    image: &[u8],
    first: &Option<FirstByte>,
) -> Result<(), HomeFault>
    requires at { IfSome first.now (λ f. f.at ≤ (H.seen home.old).reach spot) }
    ensures laid { (disk : DiskState)
        → ((place : ℕ) → any_covers place (map write_of (entries first.now [])) ≡ true → is_touched disk place ≡ true) → length image.now ≤ length (read_of disk)
        → IsLaidTo disk image.now [] ((H.seen home.old).file spot) ((H.seen home.old).reach spot)
        → OnOk result (IsLaidTo disk image.now (map write_of (entries first.now [])) ((H.seen home.new).file spot) ((H.seen home.new).reach spot)) }
    ensures failed { (disk : DiskState)
        → ((place : ℕ) → any_covers place (map write_of (entries first.now [])) ≡ true → is_touched disk place ≡ true) → length image.now ≤ length (read_of disk)
        → IsImageIn disk ((H.seen home.old).file spot) → OnErr result (IsImageIn disk ((H.seen home.new).file spot)) }
    ensures memory { IfSome first.now (λ f. f.at + 1 ≤ (H.seen home.old).reach spot) → IsErrOf result HomeFault.Memory → ⊥ }
    ensures reach { (H.seen home.old).reach spot ≤ (H.seen home.new).reach spot }
    ensures rest { RestStays spot (H.seen home.old) (H.seen home.new) }
    ensures fault { IsErrOf result HomeFault.Failed → HasFailed spot (H.seen home.old) (H.seen home.new) }
    ensures quiet { (IsErrOf result HomeFault.Failed → ⊥) → (H.seen home.new).faults ≡ (H.seen home.old).faults }
{
    match first {
        Some(f) => lay_part(alloc, home, spot, image, f.at, 1),
        None => Ok(()),
    }
}

/// Lays the parts of the image in the ranges of all pending writes into the home.
fn lay_all<H: Home>(
    alloc: Global,
    home: &mut H,
    spot: Spot,
    image: &[u8],
    first: &Option<FirstByte>,
    touched: &[Touched],
) -> Result<(), HomeFault>
    requires first { IfSome first.now (λ f. f.at ≤ (H.seen home.old).reach spot) }
    requires at { All (λ t. t.at ≤ (H.seen home.old).reach spot) touched.now }
    ensures laid { (disk : DiskState)
        → disk.pending ≡ map write_of (entries first.now touched.now) → length image.now ≤ length (read_of disk)
        → IsImageIn disk ((H.seen home.old).file spot)
        → OnOk result (IsLaidTo disk image.now disk.pending ((H.seen home.new).file spot) ((H.seen home.new).reach spot)) }
    ensures failed { (disk : DiskState)
        → disk.pending ≡ map write_of (entries first.now touched.now) → length image.now ≤ length (read_of disk)
        → IsImageIn disk ((H.seen home.old).file spot) → OnErr result (IsImageIn disk ((H.seen home.new).file spot)) }
    ensures memory { IfSome first.now (λ f. f.at + 1 ≤ (H.seen home.old).reach spot) → All (λ t. t.at + length t.piece.items ≤ (H.seen home.old).reach spot) touched.now
        → IsErrOf result HomeFault.Memory → ⊥ }
    ensures reach { (H.seen home.old).reach spot ≤ (H.seen home.new).reach spot }
    ensures rest { RestStays spot (H.seen home.old) (H.seen home.new) }
    ensures fault { IsErrOf result HomeFault.Failed → HasFailed spot (H.seen home.old) (H.seen home.new) }
    ensures quiet { (IsErrOf result HomeFault.Failed → ⊥) → (H.seen home.new).faults ≡ (H.seen home.old).faults }
{
    lay_first(alloc, home, spot, image, first)?;
    lay_parts(alloc, home, spot, image, touched)
}

/// Makes the file of the home the image of a disk with these pending writes, and syncs it.
pub(crate) fn lay_image<H: Home>(
    alloc: Global,
    home: &mut H,
    spot: Spot,
    image: &[u8],
    first: &Option<FirstByte>,
    touched: &[Touched],
) -> Result<(), HomeFault>
    requires ready { (disk : DiskState) × IsToLay disk image.now (map write_of (entries first.now touched.now)) ((H.seen home.old).file spot) ((H.seen home.old).reach spot) }
    ensures agrees { OnOk result (Agrees (H.seen home.new) spot image.now) }
    ensures clean { OnOk result (IsClean (H.seen home.new) spot) }
    ensures images { (disk : DiskState) → IsToLay disk image.now (map write_of (entries first.now touched.now)) ((H.seen home.old).file spot) ((H.seen home.old).reach spot)
        → IsImageIn disk ((H.seen home.new).file spot) }
    ensures memory { EndWithin ((H.seen home.old).reach spot) (map write_of (entries first.now touched.now)) → IsErrOf result HomeFault.Memory → ⊥ }
    ensures rest { RestStays spot (H.seen home.old) (H.seen home.new) }
    ensures fault { IsErrOf result HomeFault.Failed → HasFailed spot (H.seen home.old) (H.seen home.new) }
    ensures quiet { (IsErrOf result HomeFault.Failed → ⊥) → (H.seen home.new).faults ≡ (H.seen home.old).faults }
{
    lay_all(alloc, home, spot, image, first, touched)?;
    home.set_len(spot, image.len() as u32)?;
    home.sync(spot)
}
