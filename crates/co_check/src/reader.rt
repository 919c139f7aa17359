//! The lines of a transcript, which may stand behind the records from which its run started.
ghost use Rattle.std.specs.Prelude.{◌≡◌, ◌<◌, ◌≤◌, ◌+◌, ◌++◌, ◌^◌, length, Option, IfOk, IsErrOf, OnOk};
ghost use Rattle.co_serial.specs.SerialRun.{AllRecords};
ghost use Rattle.co_check.specs.Account.{no_account};
ghost use Rattle.co_check.specs.Kept.{Keeps, Follows};
ghost use Rattle.co_check.specs.Resumed.{IsEntryTaken, IsLineTaken, IsEndAt, Stands};
ghost use Rattle.co_check.specs.Shape.{Read};
ghost use Rattle.co_check.specs.Stages.{Stage, InRecords, InTranscript, at_records, members_to, coords_to, nodes_of, first_head};
ghost use Rattle.co_check.specs.Taking.{decided_by};
ghost use Rattle.co_check.specs.declared.entry.Entry.TheVariants as entry;
ghost use Rattle.co_check.specs.declared.starting.RecordName.{RecordName};

use crate::checker::Checker;
use crate::entry::{Entry, read_entry};
use crate::fault::CheckFault;
use crate::ledger::Ledger;
use crate::place::Place;
use crate::starting::{RecordName, is_behind};
use crate::verdict::Ending;
use co_base::{Head, Node, Sequence};
use co_message::{Item, ItemKind};
use co_serial::MemberRow;
use std::alloc::{AllocError, Global};

/// What was read so far.
#[derive(Drop)]
pub(crate) enum Reader {
    /// Records alone.
    Records {
        /// The last of them.
        last: Option<RecordName>,
        /// A ledger in which they are laid.
        ledger: Ledger,
    },
    /// Lines of a transcript.
    Transcript(Checker),
}

fn push_members(into: &mut Sequence<Node>, count: u8) -> Result<(), AllocError>
    ensures { OnOk result (into.new ≡ into.old ++ members_to count) }
{
    let mut member = 0;
    while member < count {
        member += 1;
        into.push(Node::Member(member))?;
    }
    Ok(())
}

fn push_coords(into: &mut Sequence<Node>, count: u8) -> Result<(), AllocError>
    ensures { OnOk result (into.new ≡ into.old ++ coords_to count) }
{
    let mut coord = 0;
    while coord < count {
        coord += 1;
        into.push(Node::Coord(coord))?;
    }
    Ok(())
}

/// Every node of the head.
fn nodes_of(alloc: Global, head: &Head) -> Result<Sequence<Node>, AllocError>
    ensures { IfOk result (λ nodes. nodes ≡ nodes_of head.now) }
{
    let mut nodes = Sequence::new(alloc);
    push_members(&mut nodes, head.kinds.len() as u8)?;
    push_coords(&mut nodes, head.coords)?;
    Ok(nodes)
}

/// The head that an item is, where it is the first one of a transcript.
fn first_head(item: Item) -> Option<Head>
    ensures { result ≡ first_head item }
{
    let Item { number, what } = item;
    match what {
        ItemKind::Head(head) if number == 1 => Some(head),
        other => {
            drop(other);
            None
        }
    }
}

/// Takes one more record, which is on the line of this number.
fn laid(
    last: Option<RecordName>,
    ledger: Ledger,
    number: u32,
    row: MemberRow,
) -> Result<Reader, CheckFault>
    ensures taken { (start : AllRecords) → Keeps start ledger no_account → IsEntryTaken (InRecords last start) number (entry.Record row) result }
    ensures never { IsErrOf result CheckFault.Read → ⊥ }
    ensures few { IfOk result (λ after. decided_by after ≡ ledger.transactions) }
{
    if !is_behind(&last, &row) {
        drop((last, ledger, row));
        return Err(CheckFault::Text { line: number });
    }
    let last = RecordName {
        member: row.member,
        key: row.row.key.copy()?,
    };
    let mut ledger = ledger;
    ledger.lay_in(row)?;
    Ok(Reader::Records {
        last: Some(last),
        ledger,
    })
}

/// Takes the first line behind the records, which has this number: the head of the transcript. The logs of a resumed run are not new, so a
/// header of no node is wanted.
fn begun(alloc: Global, ledger: Ledger, number: u32, item: Item) -> Result<Reader, CheckFault>
    ensures taken { (last : Option RecordName) (start : AllRecords) → Keeps start ledger no_account → IsEntryTaken (InRecords last start) number (entry.Item item) result }
    ensures never { IsErrOf result CheckFault.Read → ⊥ }
    ensures few { IfOk result (λ after. decided_by after ≡ ledger.transactions) }
{
    match first_head(item) {
        Some(head) => {
            let seen = nodes_of(alloc, &head)?;
            let place = Place::InHead {
                head,
                seen,
                sending: false,
            };
            Ok(Reader::Transcript(Checker { place, ledger }))
        }
        None => {
            drop(ledger);
            Err(CheckFault::Text { line: number })
        }
    }
}

/// Takes one more item of a transcript.
fn told(alloc: Global, checker: Checker, number: u32, item: Item) -> Result<Reader, CheckFault>
    requires { checker.ledger.transactions + 1 < 2 ^ 32 }
    ensures taken { (start : AllRecords) (r : Read) → Follows start checker r → IsEntryTaken (InTranscript start r) number (entry.Item item) result }
    ensures never { IsErrOf result CheckFault.Read → ⊥ }
    ensures few { IfOk result (λ after. decided_by after ≤ checker.ledger.transactions + 1) }
{
    Ok(Reader::Transcript(checker.take(alloc, number, item)?))
}

impl Reader {
    /// Nothing was read of the records.
    pub(crate) fn new(alloc: Global) -> Reader
        ensures stands { Stands result at_records }
        ensures none { decided_by result ≡ 0 }
    {
        Reader::Records {
            last: None,
            ledger: Ledger::new(alloc, false),
        }
    }

    /// Takes one more record or item, which is on the line of this number.
    fn take(self, alloc: Global, number: u32, entry: Entry) -> Result<Reader, CheckFault>
        requires { decided_by self + 1 < 2 ^ 32 }
        ensures taken { (s : Stage) → Stands self s → IsEntryTaken s number entry result }
        ensures never { IsErrOf result CheckFault.Read → ⊥ }
        ensures few { IfOk result (λ after. decided_by after ≤ decided_by self + 1) }
    {
        match (self, entry) {
            (Reader::Records { last, ledger }, Entry::Record(row)) => {
                laid(last, ledger, number, row)
            }
            (Reader::Records { last, ledger }, Entry::Item(item)) => {
                drop(last);
                begun(alloc, ledger, number, item)
            }
            (Reader::Transcript(checker), Entry::Item(item)) => told(alloc, checker, number, item),
            (Reader::Transcript(checker), Entry::Record(row)) => {
                drop((checker, row));
                Err(CheckFault::Text { line: number })
            }
        }
    }

    /// Takes one more line, which has this number.
    pub(crate) fn line(self, alloc: Global, number: u32, line: &[u8]) -> Result<Reader, CheckFault>
        requires long { length line.now < 4294967296 }
        requires few { decided_by self + 1 < 2 ^ 32 }
        ensures taken { (s : Stage) → Stands self s → IsLineTaken s number line.now result }
        ensures never { IsErrOf result CheckFault.Read → ⊥ }
        ensures few { IfOk result (λ after. decided_by after ≤ decided_by self + 1) }
    {
        match read_entry(alloc, line)? {
            Some(entry) => self.take(alloc, number, entry),
            None => {
                drop(self);
                Err(CheckFault::Text { line: number })
            }
        }
    }

    /// The verdict and what was kept, where the input ends before the line of this number.
    pub(crate) fn end(self, number: u32) -> Result<Ending, CheckFault>
        ensures judged { (s : Stage) → Stands self s → IsEndAt s number result }
        ensures never { IsErrOf result CheckFault.Read → ⊥ }
    {
        match self {
            Reader::Records { last, ledger } => {
                drop((last, ledger));
                Err(CheckFault::Text { line: number })
            }
            Reader::Transcript(checker) => checker.end(number),
        }
    }
}
