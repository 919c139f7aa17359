//! A transcript that is checked line by line.
ghost use Rattle.std.specs.Prelude.{◌≡◌, ◌<◌, ◌≤◌, ◌+◌, ◌^◌, IfOk, IsErrOf};
ghost use Rattle.co_check.specs.Checked.{IsTakenAs, IsEnd};
ghost use Rattle.co_check.specs.Kept.{Follows};
ghost use Rattle.co_check.specs.Serial.{no_records};
ghost use Rattle.co_check.specs.Shape.{Read, unread};
ghost use Rattle.co_serial.specs.SerialRun.{AllRecords};

use crate::fault::CheckFault;
use crate::ledger::Ledger;
use crate::place::Place;
use crate::shaping::next;
use crate::verdict::Ending;
use co_message::Item;
use std::alloc::Global;

/// Where the transcript stands, and what it told so far.
#[derive(Drop)]
pub(crate) struct Checker {
    /// Where the transcript stands.
    pub(crate) place: Place,
    /// What it told.
    pub(crate) ledger: Ledger,
}

impl Checker {
    /// Nothing was read. Decided transactions are kept where that is asked for.
    pub(crate) fn new(alloc: Global, keeps: bool) -> Checker
        ensures follows { Follows no_records result unread }
        ensures none { result.ledger.transactions ≡ 0 }
    {
        Checker {
            place: Place::AtFront,
            ledger: Ledger::new(alloc, keeps),
        }
    }

    /// Takes one more item, which is on the line of this number.
    pub(crate) fn take(self, alloc: Global, number: u32, item: Item) -> Result<Checker, CheckFault>
        requires { self.ledger.transactions + 1 < 2 ^ 32 }
        ensures taken { (start : AllRecords) (r : Read) → Follows start self r → IsTakenAs start r number item result }
        ensures never { IsErrOf result CheckFault.Read → ⊥ }
        ensures few { IfOk result (λ after. after.ledger.transactions ≤ self.ledger.transactions + 1) }
    {
        let mut ledger = self.ledger;
        match next(alloc, self.place, &mut ledger, item) {
            Ok(Some(place)) => Ok(Checker { place, ledger }),
            Ok(None) => {
                drop(ledger);
                Err(CheckFault::Text { line: number })
            }
            Err(_) => {
                drop(ledger);
                Err(CheckFault::Memory)
            }
        }
    }

    /// The verdict and what was kept, where the input ends before the line of this number.
    pub(crate) fn end(self, number: u32) -> Result<Ending, CheckFault>
        ensures judged { (start : AllRecords) (r : Read) → Follows start self r → IsEnd start r number result }
        ensures never { IsErrOf result CheckFault.Read → ⊥ }
    {
        let Checker { place, ledger } = self;
        let whole = place.is_whole();
        drop(place);
        if whole {
            return Ok(ledger.ending());
        }
        drop(ledger);
        Err(CheckFault::Text { line: number })
    }
}
