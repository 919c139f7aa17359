//! Logs that are made.
ghost use Rattle.std.specs.Prelude.{◌≡◌, [], OnOk, IfOk, IfErr, IsErrOf, Some};
ghost use Rattle.co_outside.specs.Home.{File};
ghost use Rattle.co_disk.specs.DiskModel.{read_of};
ghost use Rattle.co_base.specs.Nodes.{IsValidNode};
ghost use Rattle.co_base.specs.declared.mark.MarkKind.TheVariants as kind;

use crate::append::{Ending, append};
use crate::closing::close_unmade;
use crate::fault::LogFault;
use crate::log::Log;
use co_base::{Mark, MarkKind};
use co_outside::Home;
use co_record::Record;

impl Log {
    ghost use Rattle.co_log.specs.Calls.{MayMake, HasMade};
    ghost use Rattle.co_outside.specs.Home.{IsClean, RestStays, HasFailed};
    ghost use Rattle.co_log.specs.Fresh.{IsFresh, IsMade, IsMaking, IsOfDevice, header_alone};
    ghost use Rattle.co_log.specs.LogView.{IsHeld};
    ghost use Rattle.co_log.specs.Current.{IsCurrentMade};
    ghost use Rattle.co_log.specs.Others.{BothWithin};

    /// Makes a fresh log: closes the first gate of its current file, where that is empty or open, and
    /// writes a header of generation 1 behind it. An armed stop stays for a later log write.
    ///
    /// A file has no second byte before its closed gate is stable, whatever the answer is.
    ///
    /// `Device` comes where the home failed, and only there, and `Memory` where there was none. Whatever the answer is,
    /// the file is current with its header alone, or neither file has a batch, and both are within 268,435,456 bytes.
    pub fn make<H: Home>(&mut self, home: &mut H) -> Result<Mark, LogFault>
        requires { MayMake (H.seen home.old) self.old }
        ensures { HasMade self.old self.new (H.seen home.old) (H.seen home.new) result }
    {
        self.make_current(home)
    }

    /// Closes the gate of the current file, and writes the header behind it.
    fn make_current<H: Home>(&mut self, home: &mut H) -> Result<Mark, LogFault>
        requires held { IsHeld (H.seen home.old) self.old }
        requires fresh { IsFresh self.old }
        requires node { IsValidNode self.old.node }
        ensures made { OnOk result (IsMade self.old self.new) }
        ensures mark { IfOk result (λ m. m ≡ record { node = self.old.node; kind = kind.Header; number = 1 }) }
        ensures held { OnOk result (IsHeld (H.seen home.new) self.new) }
        ensures clean { OnOk result (IsClean (H.seen home.new) self.old.current.spot) }
        ensures told { (f : File) → (H.seen home.new).file self.old.current.spot ≡ Some f → IsMaking f.bytes (header_alone self.old.node) }
        ensures current { (c s : File) → (H.seen home.new).file self.old.current.spot ≡ Some c → (H.seen home.new).file self.old.spare.spot ≡ Some s → IsCurrentMade self.old c.bytes s.bytes result }
        ensures short { BothWithin (H.seen home.new).file self.old }
        ensures faults { IfErr result (IsOfDevice self.old.current.spot) }
        ensures rest { RestStays self.old.current.spot (H.seen home.old) (H.seen home.new) }
        ensures device { IsErrOf result (LogFault.Device self.old.current.spot) → HasFailed self.old.current.spot (H.seen home.old) (H.seen home.new) }
        ensures quiet { (IsErrOf result (LogFault.Device self.old.current.spot) → ⊥) → (H.seen home.new).faults ≡ (H.seen home.old).faults }
    {
        close_unmade(&mut self.current, home)?;
        let header = [Record::Header {
            node: self.node,
            generation: 1,
        }];
        let mut unarmed = None;
        let ending = append(
            self.alloc,
            &mut self.current,
            home,
            0,
            &header,
            &[],
            &[],
            &mut unarmed,
        )?;
        match ending {
            Ending::Whole { next } => self.gate = next,
            Ending::Stopped { .. } => unreachable!(),
        }
        self.generation = 1;
        Ok(Mark {
            node: self.node,
            kind: MarkKind::Header,
            number: 1,
        })
    }
}
