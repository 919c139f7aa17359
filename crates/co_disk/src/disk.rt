//! A disk over one file of the directory of logs.
ghost use Rattle.std.specs.Prelude.{◌≡◌, ◌≤◌, ◌<◌, ◌+◌, ◌↔◌, [], List, ℕ, None, Some, length, slice_get, OnOk, OnErr, IfOk, IfErr, IsOk, IsErrOf};
ghost use Rattle.co_base.specs.Limits.{most_log_bytes};

use crate::difference::{byte_at, first_difference};
use crate::fault::DiskFault;
use crate::image::choose;
use crate::laying::lay_image;
use crate::stop::{Armed, count};
use crate::touched::{FirstByte, Touched, note};
use co_base::{Leaves, MOST_LOG_BYTES};
use co_outside::{Home, HomeFault, Spot};
use std::alloc::Global;
use std::marker::Model;

/// The stable bytes and the pending writes of one file, which are written through to the home.
///
/// It keeps one buffer, what a read gives, and of each pending write its bytes and those that
/// stood there before; a write costs its piece, and a sync no copy of the file.
#[derive(Drop)]
pub struct Disk {
    alloc: Global,
    spot: Spot,
    bytes: Vec<u8>,
    first: Option<FirstByte>,
    touched: Vec<Touched>,
    armed: Option<Armed>,
}

impl Model for Disk {
    ghost use Rattle.co_disk.specs.DiskView.{DiskView};
    ghost use Rattle.co_disk.specs.Kept.{entries, state_of, IsKept};

    ghost Value = { DiskView };

    ghost view = { λ d. record { spot = d.spot; state = state_of d.bytes.items (entries d.first d.touched.items); armed = d.armed } };

    ghost invariant = { λ d. IsKept d.bytes.items (entries d.first d.touched.items) };
}

impl Disk {
    ghost use Rattle.co_outside.specs.Home.{File, Agrees, IsClean, RestStays, HasFailed};
    ghost use Rattle.co_disk.specs.DiskModel.{read_of, stable_disk, after_write, after_sync, IsImage, IsSound};
    ghost use Rattle.co_disk.specs.Calls.{HasAttached, MayWrite, HasCalled, MayWant, HasCut, HasReread};
    ghost use Rattle.co_disk.specs.Faults.{IsOfAttach, IsOfWrite, IsOfSync, IsOfReread};
    ghost use Rattle.co_disk.specs.Homes.{IsImageIn};
    ghost use Rattle.co_disk.specs.Laying.{BeginWithin, EndWithin};
    ghost use Rattle.co_disk.specs.Stops.{armed_for, stop_here, after_call, IsLeft, IsStopped};

    /// Reads the file of a spot. All its bytes count as stable: a home settles a file before it gives its
    /// first bytes. `Long` comes where it has more than 268,435,456 bytes, `Device` only where the home
    /// failed, `Memory` where there was none.
    pub fn attach<H: Home>(alloc: Global, home: &mut H, spot: Spot) -> Result<Disk, DiskFault>
        ensures { HasAttached (H.gives home.old spot (most_log_bytes + 1)) spot (H.seen home.old) (H.seen home.new) result }
    {
        Disk::read_file(alloc, home, spot)
    }

    /// Reads the file, and takes its bytes for stable.
    fn read_file<H: Home>(alloc: Global, home: &mut H, spot: Spot) -> Result<Disk, DiskFault>
        ensures spot { IfOk result (λ d. d.spot ≡ spot) }
        ensures state { IfOk result (λ d. H.gives home.old spot (most_log_bytes + 1) d.state.stable × (d.state ≡ stable_disk d.state.stable)) }
        ensures short { IfOk result (λ d. length d.state.stable ≤ most_log_bytes) }
        ensures disarmed { IfOk result (λ d. d.armed ≡ None) }
        ensures agrees { IfOk result (λ d. Agrees (H.seen home.new) spot d.state.stable) }
        ensures faults { IfErr result (IsOfAttach (H.gives home.old spot (most_log_bytes + 1))) }
        ensures long { IsErrOf result DiskFault.Long → (f : File) → (H.seen home.old).file spot ≡ Some f → most_log_bytes < length f.bytes }
        ensures file { (H.seen home.new).file spot ≡ (H.seen home.old).file spot }
        ensures rest { RestStays spot (H.seen home.old) (H.seen home.new) }
        ensures device { IsErrOf result DiskFault.Device → HasFailed spot (H.seen home.old) (H.seen home.new) }
        ensures quiet { (IsErrOf result DiskFault.Device → ⊥) → (H.seen home.new).faults ≡ (H.seen home.old).faults }
    {
        let bytes = home.read_all(alloc, spot, MOST_LOG_BYTES + 1)?;
        if bytes.len() > MOST_LOG_BYTES as usize {
            return Err(DiskFault::Long);
        }
        Ok(Disk {
            alloc,
            spot,
            bytes,
            first: None,
            touched: Vec::new(alloc),
            armed: None,
        })
    }

    /// What a read gives: the stable bytes with the pending writes laid over them in order.
    pub fn bytes(&self) -> &[u8]
        ensures read { result.now ≡ read_of self.now.state }
        ensures short { length result.now ≤ most_log_bytes }
        ensures sound { IsSound self.now.state }
    {
        self.bytes.as_slice()
    }

    /// The spot of its file.
    pub fn spot(&self) -> Spot
        ensures { result ≡ self.now.spot }
    {
        self.spot
    }

    /// Writes a piece, which is pending until a sync. `Device` comes only where the home failed;
    /// `Stopped` where this is the device call of an armed stop: the write counts as pending, it does
    /// not reach the home, and the image that was chosen is left; `Memory` where there was none.
    pub fn write_at<H: Home>(
        &mut self,
        home: &mut H,
        at: u32,
        piece: &[u8],
    ) -> Result<(), DiskFault>
        requires { MayWrite (H.seen home.old) self.old at piece.now }
        ensures { HasCalled (after_write self.old.state at piece.now) (after_write self.old.state at piece.now) (MayWant self.old.state at piece.now) self.old self.new (H.seen home.old) (H.seen home.new) result }
    {
        self.write(home, at, piece)
    }

    /// Notes the write, and writes it through or leaves the image of a stop.
    fn write<H: Home>(&mut self, home: &mut H, at: u32, piece: &[u8]) -> Result<(), DiskFault>
        requires agrees { Agrees (H.seen home.old) self.old.spot (read_of self.old.state) }
        requires at { at ≤ length (read_of self.old.state) }
        requires end { at + length piece.now ≤ most_log_bytes }
        ensures spot { self.new.spot ≡ self.old.spot }
        ensures written { OnOk result (self.new.state ≡ after_write self.old.state at piece.now) }
        ensures passed { OnOk result (stop_here self.old.armed ≡ None) }
        ensures counted { OnOk result (self.new.armed ≡ after_call self.old.armed) }
        ensures stopped { (call : ℕ) → IsErrOf result (DiskFault.Stopped call) → IsStopped self.old.armed call (after_write self.old.state at piece.now) self.new }
        ensures left { (call : ℕ) → IsErrOf result (DiskFault.Stopped call) → Agrees (H.seen home.new) self.old.spot (read_of self.new.state) × IsClean (H.seen home.new) self.old.spot }
        ensures faults { IfErr result IsOfWrite }
        ensures agrees { OnOk result (Agrees (H.seen home.new) self.old.spot (read_of self.new.state)) }
        ensures image { IsImageIn (after_write self.old.state at piece.now) ((H.seen home.new).file self.old.spot) }
        ensures memory { length piece.now ≡ 1 → at < length (read_of self.old.state) → self.old.state.pending ≡ [] → IsErrOf result DiskFault.Memory → ⊥ }
        ensures short { length (read_of self.new.state) ≤ most_log_bytes }
        ensures rest { RestStays self.old.spot (H.seen home.old) (H.seen home.new) }
        ensures device { IsErrOf result DiskFault.Device → HasFailed self.old.spot (H.seen home.old) (H.seen home.new) }
        ensures quiet { (IsErrOf result DiskFault.Device → ⊥) → (H.seen home.new).faults ≡ (H.seen home.old).faults }
    {
        note(
            self.alloc,
            &mut self.bytes,
            &mut self.first,
            &mut self.touched,
            at,
            piece,
        )?;
        if let Some(stop) = count(&mut self.armed) {
            self.leave(home, &stop.leaves)?;
            return Err(DiskFault::Stopped { call: stop.call });
        }
        home.write_at(self.alloc, self.spot, at, piece)?;
        Ok(())
    }

    /// Makes every pending write stable. `Device` comes only where the home failed; `Stopped` where
    /// this is the device call of an armed stop: all writes are pending still, and the image that was
    /// chosen is left. Never answers `Memory`.
    pub fn sync<H: Home>(&mut self, home: &mut H) -> Result<(), DiskFault>
        requires agrees { Agrees (H.seen home.old) self.old.spot (read_of self.old.state) }
        ensures called { HasCalled (after_sync self.old.state) self.old.state ⊥ self.old self.new (H.seen home.old) (H.seen home.new) result }
        ensures clean { OnOk result (IsClean (H.seen home.new) self.old.spot) }
    {
        self.make_stable(home)
    }

    /// Syncs the file, or leaves the image of a stop.
    fn make_stable<H: Home>(&mut self, home: &mut H) -> Result<(), DiskFault>
        requires agrees { Agrees (H.seen home.old) self.old.spot (read_of self.old.state) }
        ensures spot { self.new.spot ≡ self.old.spot }
        ensures synced { OnOk result (self.new.state ≡ after_sync self.old.state) }
        ensures passed { OnOk result (stop_here self.old.armed ≡ None) }
        ensures counted { OnOk result (self.new.armed ≡ after_call self.old.armed) }
        ensures stopped { (call : ℕ) → IsErrOf result (DiskFault.Stopped call) → IsStopped self.old.armed call self.old.state self.new }
        ensures left { (call : ℕ) → IsErrOf result (DiskFault.Stopped call) → Agrees (H.seen home.new) self.old.spot (read_of self.new.state) × IsClean (H.seen home.new) self.old.spot }
        ensures faults { IfErr result IsOfSync }
        ensures agrees { OnOk result (Agrees (H.seen home.new) self.old.spot (read_of self.new.state)) }
        ensures clean { OnOk result (IsClean (H.seen home.new) self.old.spot) }
        ensures image { IsImageIn self.old.state ((H.seen home.new).file self.old.spot) }
        ensures short { length (read_of self.new.state) ≤ most_log_bytes }
        ensures rest { RestStays self.old.spot (H.seen home.old) (H.seen home.new) }
        ensures device { IsErrOf result DiskFault.Device → HasFailed self.old.spot (H.seen home.old) (H.seen home.new) }
        ensures quiet { (IsErrOf result DiskFault.Device → ⊥) → (H.seen home.new).faults ≡ (H.seen home.old).faults }
    {
        if let Some(stop) = count(&mut self.armed) {
            self.leave(home, &stop.leaves)?;
            return Err(DiskFault::Stopped { call: stop.call });
        }
        home.sync(self.spot)?;
        self.first = None;
        self.touched.clear();
        Ok(())
    }

    /// Arms a stop: the device call with this number, counted from 1 on, answers `Stopped` and leaves
    /// this image. An armed stop is replaced.
    pub fn arm(&mut self, stop: u8, leaves: Leaves)
        requires { (1 ≤ stop) × (stop ≤ 4) }
        ensures { self.new ≡ record { spot = self.old.spot; state = self.old.state; armed = Some (armed_for stop leaves) } }
    {
        self.armed = Some(Armed {
            call: stop,
            left: stop,
            leaves,
        });
    }

    /// Takes the armed stop away.
    pub fn disarm(&mut self)
        ensures { self.new ≡ record { spot = self.old.spot; state = self.old.state; armed = None } }
    {
        self.armed = None;
    }

    /// A crash: replaces the bytes by the chosen image, here and in the home, and syncs the home. An
    /// armed stop is lost. `Device` comes only where the home failed, and no other fault does.
    pub fn power_cut<H: Home>(&mut self, home: &mut H, leaves: &Leaves) -> Result<(), DiskFault>
        requires agrees { Agrees (H.seen home.old) self.old.spot (read_of self.old.state) }
        ensures { HasCut leaves.now self.old self.new (H.seen home.old) (H.seen home.new) result }
    {
        self.cut(home, leaves)
    }

    /// Takes the armed stop away, and leaves the image.
    fn cut<H: Home>(&mut self, home: &mut H, leaves: &Leaves) -> Result<(), DiskFault>
        requires agrees { Agrees (H.seen home.old) self.old.spot (read_of self.old.state) }
        ensures spot { self.new.spot ≡ self.old.spot }
        ensures left { IsLeft self.old.state leaves.now self.new.state }
        ensures disarmed { self.new.armed ≡ None }
        ensures agrees { OnOk result (Agrees (H.seen home.new) self.old.spot (read_of self.new.state)) }
        ensures clean { OnOk result (IsClean (H.seen home.new) self.old.spot) }
        ensures image { IsImageIn self.old.state ((H.seen home.new).file self.old.spot) }
        ensures faults { IfErr result (λ e. e ≡ DiskFault.Device) }
        ensures short { length (read_of self.new.state) ≤ most_log_bytes }
        ensures rest { RestStays self.old.spot (H.seen home.old) (H.seen home.new) }
        ensures device { IsErrOf result DiskFault.Device → HasFailed self.old.spot (H.seen home.old) (H.seen home.new) }
        ensures quiet { (IsErrOf result DiskFault.Device → ⊥) → (H.seen home.new).faults ≡ (H.seen home.old).faults }
    {
        self.armed = None;
        self.leave(home, leaves)?;
        Ok(())
    }

    /// Reads the file again. `Differs` comes exactly where it is not what a read of the disk gives,
    /// with the first place and both bytes there; never over a home that tells the file. `Device` comes
    /// only where the home failed, `Memory` where there was none.
    pub fn reread<H: Home>(&mut self, home: &mut H) -> Result<(), DiskFault>
        requires agrees { Agrees (H.seen home.old) self.old.spot (read_of self.old.state) }
        ensures disk { self.new ≡ self.old }
        ensures reread { HasReread (H.gives home.old self.old.spot (most_log_bytes + 1)) self.old (H.seen home.old) (H.seen home.new) result }
    {
        self.compare(home)
    }

    /// Compares what the file gives with what a read of the disk gives.
    fn compare<H: Home>(&mut self, home: &mut H) -> Result<(), DiskFault>
        requires agrees { Agrees (H.seen home.old) self.old.spot (read_of self.old.state) }
        ensures disk { self.new ≡ self.old }
        ensures same { OnOk result (H.gives home.old self.old.spot (most_log_bytes + 1) (read_of self.old.state)) }
        ensures file { (H.seen home.new).file self.old.spot ≡ (H.seen home.old).file self.old.spot }
        ensures agrees { Agrees (H.seen home.new) self.old.spot (read_of self.old.state) }
        ensures faults { IfErr result (IsOfReread (H.gives home.old self.old.spot (most_log_bytes + 1)) (read_of self.old.state) ((H.seen home.old).file self.old.spot)) }
        ensures rest { RestStays self.old.spot (H.seen home.old) (H.seen home.new) }
        ensures device { IsErrOf result DiskFault.Device → HasFailed self.old.spot (H.seen home.old) (H.seen home.new) }
        ensures quiet { (IsErrOf result DiskFault.Device → ⊥) → (H.seen home.new).faults ≡ (H.seen home.old).faults }
    {
        let read = home.read_all(self.alloc, self.spot, MOST_LOG_BYTES + 1)?;
        match first_difference(&self.bytes, &read) {
            None => Ok(()),
            Some(place) => Err(DiskFault::Differs {
                at: place as u32,
                kept: byte_at(&self.bytes, place),
                read: byte_at(&read, place),
            }),
        }
    }

    /// Replaces the bytes by the chosen image, here and in the home, and syncs the home. Whatever
    /// the answer is, nothing is pending then.
    fn leave<H: Home>(&mut self, home: &mut H, leaves: &Leaves) -> Result<(), HomeFault>
        requires reach { length self.old.state.stable ≤ (H.seen home.old).reach self.old.spot }
        requires begins { BeginWithin ((H.seen home.old).reach self.old.spot) self.old.state.pending }
        requires images { IsImageIn self.old.state ((H.seen home.old).file self.old.spot) }
        ensures spot { self.new.spot ≡ self.old.spot }
        ensures armed { self.new.armed ≡ self.old.armed }
        ensures left { IsLeft self.old.state leaves.now self.new.state }
        ensures agrees { OnOk result (Agrees (H.seen home.new) self.old.spot (read_of self.new.state)) }
        ensures clean { OnOk result (IsClean (H.seen home.new) self.old.spot) }
        ensures image { IsImageIn self.old.state ((H.seen home.new).file self.old.spot) }
        ensures memory { EndWithin ((H.seen home.old).reach self.old.spot) self.old.state.pending → IsErrOf result HomeFault.Memory → ⊥ }
        ensures short { length (read_of self.new.state) ≤ most_log_bytes }
        ensures rest { RestStays self.old.spot (H.seen home.old) (H.seen home.new) }
        ensures fault { IsErrOf result HomeFault.Failed → HasFailed self.old.spot (H.seen home.old) (H.seen home.new) }
        ensures quiet { (IsErrOf result HomeFault.Failed → ⊥) → (H.seen home.new).faults ≡ (H.seen home.old).faults }
    {
        choose(&mut self.bytes, &self.first, &self.touched, leaves);
        let laid = lay_image(
            self.alloc,
            home,
            self.spot,
            &self.bytes,
            &self.first,
            &self.touched,
        );
        self.first = None;
        self.touched.clear();
        laid
    }
}
