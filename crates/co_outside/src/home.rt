//! The directory of logs.
ghost use Rattle.std.specs.Prelude.{◌≡◌, ◌≢◌, ◌≤◌, ◌+◌, List, ℕ, Option, None, Some, length, take, max, option_map, OnOk, OnErr, IfOk, IsErrOf};
ghost use Rattle.co_outside.specs.declared.spot.Spot.{Spot};
ghost use Rattle.co_outside.specs.declared.home.FailAt.{FailAt};
ghost use Rattle.co_outside.specs.declared.home.HomeFault.TheVariants.{Memory};
ghost use Rattle.co_outside.specs.Home.{File, HomeView, written, shortened, unclean, cleaned, OthersStay, IsCounted, IsTornFile, FailsAsDue};

use crate::spot::Spot;
use std::alloc::{AllocError, Global};
use thiserror::Error;

/// Why a call of a home did not do its work.
#[derive(Debug, Drop, Error)]
pub enum HomeFault {
    /// The outside failed.
    #[error("the directory of logs failed")]
    Failed,
    /// There was no memory.
    #[error("out of memory")]
    Memory,
}

impl From<AllocError> for HomeFault {
    ghost use Rattle.co_outside.specs.declared.home.HomeFault.TheVariants.{Memory};

    ghost from_gives = { λ _ e. e ≡ Memory };

    fn from(_e: AllocError) -> HomeFault {
        HomeFault::Memory
    }
}

/// A call of a home.
#[derive(Clone, Copy, PartialEq, Eq)]
pub enum HomeCall {
    /// `Home::enter`, which counts on the spot `m1.a`.
    Enter,
    /// `Home::read_all`.
    ReadAll,
    /// `Home::write_at`.
    WriteAt,
    /// `Home::set_len`.
    SetLen,
    /// `Home::sync`.
    Sync,
}

/// A call that is to fail: the one of this kind on this spot with this number, counted from 1.
#[derive(Clone, Copy, PartialEq, Eq)]
pub struct FailAt {
    /// Where the call is made.
    pub spot: Spot,
    /// Its kind.
    pub call: HomeCall,
    /// Its number among the calls of this kind on this spot.
    pub number: u32,
}

/// The directory of logs: a file for each spot, where an absent file is empty.
///
/// After a write or a cut with any answer the file is not clean; after a successful `sync` it is.
/// Between two syncs a crash may leave any bytes in each written range and past the old end, and
/// no others; a crash after a successful `sync` leaves what a read gives.
///
/// `Failed` comes where the count of faults rose in that call, and only there; the home then keeps
/// the call's spot as that of its last failed call. So a call that answers anything else met no
/// fault.
pub trait Home {
    /// What contracts see of the home.
    ghost seen: { Self → HomeView };

    /// What a read of at most so many bytes may give now.
    ghost gives: { Self → Spot → ℕ → List ℕ → Type 0 };

    /// Selects the directory, and makes it where it is missing. It counts as a call on `m1.a`.
    fn enter(&mut self, alloc: Global, dir: &str) -> Result<(), HomeFault>
        ensures entered { OnOk result ((seen self.new).entered ≡ Some dir.now) }
        ensures stays { OnErr result ((seen self.new).entered ≡ (seen self.old).entered) }
        ensures files { (s : Spot) → (seen self.new).file s ≡ (seen self.old).file s }
        ensures reaches { (s : Spot) → (seen self.new).reach s ≡ (seen self.old).reach s }
        ensures counted { IsCounted (record { node = 1; part = 0 }) (seen self.old) (seen self.new) result }
        ensures due { FailsAsDue (record { node = 1; part = 0 }) HomeCall.Enter (seen self.old) (seen self.new) result };

    /// The first `most` bytes of the file, or all of a shorter one.
    fn read_all(&mut self, alloc: Global, spot: Spot, most: u32) -> Result<Vec<u8>, HomeFault>
        ensures bytes { IfOk result (λ v. gives self.old spot most v.items) }
        ensures most { IfOk result (λ v. length v.items ≤ most) }
        ensures reached { IfOk result (λ v. length v.items ≤ (seen self.old).reach spot) }
        ensures file { (seen self.new).file spot ≡ (seen self.old).file spot }
        ensures reach { (seen self.new).reach spot ≡ (seen self.old).reach spot }
        ensures others { OthersStay spot (seen self.old) (seen self.new) }
        ensures counted { IsCounted spot (seen self.old) (seen self.new) result }
        ensures due { FailsAsDue spot HomeCall.ReadAll (seen self.old) (seen self.new) result };

    /// Lays the piece into the file at `at`, which is at most the length; the file is made where it
    /// is absent. A failed write may leave any bytes in the range and past the old end. A write
    /// inside the present length never answers `Memory`.
    fn write_at(
        &mut self,
        alloc: Global,
        spot: Spot,
        at: u32,
        piece: &[u8],
    ) -> Result<(), HomeFault>
        requires { at ≤ (seen self.old).reach spot }
        ensures written { OnOk result ((seen self.new).file spot ≡ option_map (written at piece.now) ((seen self.old).file spot)) }
        ensures reach { OnOk result (max ((seen self.old).reach spot) (at + length piece.now) ≤ (seen self.new).reach spot) }
        ensures torn { OnErr result (IsTornFile at (length piece.now) ((seen self.old).file spot) ((seen self.new).file spot)) }
        ensures untold { OnErr result ((seen self.old).file spot ≡ None → (seen self.new).file spot ≡ None) }
        ensures kept { OnErr result ((seen self.old).reach spot ≤ (seen self.new).reach spot) }
        ensures memory { at + length piece.now ≤ (seen self.old).reach spot → IsErrOf result HomeFault.Memory → ⊥ }
        ensures others { OthersStay spot (seen self.old) (seen self.new) }
        ensures counted { IsCounted spot (seen self.old) (seen self.new) result }
        ensures due { FailsAsDue spot HomeCall.WriteAt (seen self.old) (seen self.new) result };

    /// Cuts the file to a length, which is at most the present one. Never answers `Memory`.
    fn set_len(&mut self, spot: Spot, len: u32) -> Result<(), HomeFault>
        requires { len ≤ (seen self.old).reach spot }
        ensures shortened { OnOk result ((seen self.new).file spot ≡ option_map (shortened len) ((seen self.old).file spot)) }
        ensures reach { OnOk result (len ≤ (seen self.new).reach spot) }
        ensures unclean { OnErr result ((seen self.new).file spot ≡ option_map unclean ((seen self.old).file spot)) }
        ensures kept { OnErr result ((seen self.new).reach spot ≡ (seen self.old).reach spot) }
        ensures memory { IsErrOf result HomeFault.Memory → ⊥ }
        ensures others { OthersStay spot (seen self.old) (seen self.new) }
        ensures counted { IsCounted spot (seen self.old) (seen self.new) result }
        ensures due { FailsAsDue spot HomeCall.SetLen (seen self.old) (seen self.new) result };

    /// Makes the file stable. Never answers `Memory`.
    fn sync(&mut self, spot: Spot) -> Result<(), HomeFault>
        ensures cleaned { OnOk result ((seen self.new).file spot ≡ option_map cleaned ((seen self.old).file spot)) }
        ensures stays { OnErr result ((seen self.new).file spot ≡ (seen self.old).file spot) }
        ensures reach { (seen self.new).reach spot ≡ (seen self.old).reach spot }
        ensures memory { IsErrOf result HomeFault.Memory → ⊥ }
        ensures others { OthersStay spot (seen self.old) (seen self.new) }
        ensures counted { IsCounted spot (seen self.old) (seen self.new) result }
        ensures due { FailsAsDue spot HomeCall.Sync (seen self.old) (seen self.new) result };

    /// A home that tells a file gives its front.
    ghost told_gives: { (h : Self) (s : Spot) (most : ℕ) (bytes : List ℕ) (f : File) → (seen h).file s ≡ Some f → gives h s most bytes → bytes ≡ take most f.bytes };

    /// A home that tells a file reaches to its end.
    ghost told_reach: { (h : Self) (s : Spot) (f : File) → (seen h).file s ≡ Some f → (seen h).reach s ≡ length f.bytes };
}
