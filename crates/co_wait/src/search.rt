//! The search through chains of waits, depth first.
ghost use Rattle.std.specs.Prelude.{◌≡◌, ◌+◌, ◌-◌, ◌^◌, ◌<◌, ◌≤◌, ℕ, List, None, max, nat_lt, length, AllPairs, IfOk, OnOk, MatchOption};
ghost use Rattle.co_state.specs.Table.{look, put};
ghost use Rattle.co_wait.specs.Chains.{IsWaitBefore};
ghost use Rattle.co_wait.specs.Searching.{IsAtPlace, BeginsAt, HasNoneAt, IsKnownToEnd, KeepsEnded, IsSearching, StepsOn, work_left};

use crate::wait::Wait;
use co_base::Txn;
use co_state::Table;
use std::alloc::AllocError;

/// How far a transaction is gone through.
#[derive(Clone, Copy)]
pub(crate) enum Progress {
    /// Not all of its chains are gone through.
    Open,
    /// All of its chains end.
    Ended {
        /// The length of the longest.
        rank: u32,
    },
}

/// The transaction that is gone through.
#[derive(Clone, Copy)]
pub(crate) struct Visit {
    /// Which transaction.
    pub(crate) txn: Txn,
    /// The place of the next of its waits.
    pub(crate) place: usize,
    /// The length of the longest chain so far.
    pub(crate) longest: u32,
}

/// A wait that was followed, and how far its transaction was gone through.
#[derive(Clone, Copy)]
pub(crate) struct Pause {
    /// Which wait.
    pub(crate) wait: Wait,
    /// Its place.
    pub(crate) place: usize,
    /// The length of the longest chain so far.
    pub(crate) longest: u32,
}

/// What is known of the transactions, by number.
pub(crate) type Known = Table<Progress>;

/// What comes of one step of the search.
#[derive(Clone, Copy)]
pub(crate) enum Next {
    /// The search goes on here.
    Visit(Visit),
    /// All chains of the first transaction end.
    Ended,
    /// The waits that were followed come again to this transaction.
    Again(Txn),
}

/// The first place of a transaction's waits.
fn first_place(waits: &[Wait], txn: Txn) -> usize
    requires { AllPairs IsWaitBefore waits.now }
    ensures { BeginsAt waits.now txn result }
{
    waits.partition_point(
        |wait: &Wait| -> bool
            ensures { result ≡ nat_lt wait.now.held txn }
        { wait.held < txn },
    )
}

/// The wait of a transaction at a place.
fn own_wait(waits: &[Wait], txn: Txn, place: usize) -> Option<Wait>
    ensures { MatchOption result (HasNoneAt waits.now txn place) (λ w. IsAtPlace waits.now place w × (w.held ≡ txn)) }
{
    let wait = waits.get(place)?;
    if wait.held == txn { Some(*wait) } else { None }
}

/// Begins to go through a transaction.
pub(crate) fn enter(waits: &[Wait], known: &mut Known, txn: Txn) -> Result<Visit, AllocError>
    requires { AllPairs IsWaitBefore waits.now }
    ensures opened { OnOk result (known.new ≡ put known.old txn Progress.Open) }
    ensures visit { IfOk result (λ visit. (visit.txn ≡ txn) × (visit.longest ≡ 0) × BeginsAt waits.now txn visit.place) }
{
    known.insert(txn, Progress::Open)?;
    Ok(Visit {
        txn,
        place: first_place(waits, txn),
        longest: 0,
    })
}

/// Goes on behind a wait that leads to an ended transaction.
fn pass(visit: Visit, rank: u32) -> Visit
    requires rank { rank + 1 < 2 ^ 32 }
    requires place { visit.place + 1 < 2 ^ 64 }
    ensures { result ≡ record { txn = visit.txn; place = visit.place + 1; longest = max visit.longest (rank + 1) } }
{
    Visit {
        txn: visit.txn,
        place: visit.place + 1,
        longest: visit.longest.max(rank + 1),
    }
}

/// The wait that is followed, and how far its transaction was gone through.
fn pause_at(visit: Visit, wait: Wait) -> Pause
    ensures { result ≡ record { wait = wait; place = visit.place; longest = visit.longest } }
{
    Pause {
        wait,
        place: visit.place,
        longest: visit.longest,
    }
}

/// Follows a wait to a transaction that is not known.
fn follow(
    waits: &[Wait],
    known: &mut Known,
    path: &mut Vec<Pause>,
    visit: Visit,
    wait: Wait,
) -> Result<Visit, AllocError>
    requires ordered { AllPairs IsWaitBefore waits.now }
    requires here { IsAtPlace waits.now visit.place wait }
    requires own { wait.held ≡ visit.txn }
    requires unknown { look known.old wait.by ≡ None }
    ensures next { (first : ℕ) → IsSearching waits.now first known.old path.old.items visit →
        IfOk result (λ next. StepsOn waits.now first known.new path.new.items (work_left waits.now known.old path.old.items visit.place) (Next.Visit next)) }
    ensures kept { OnOk result (KeepsEnded known.old known.new) }
{
    let onward = wait.by;
    path.push(pause_at(visit, wait))?;
    enter(waits, known, onward)
}

/// Goes back from a transaction whose waits were all taken.
fn leave(known: &mut Known, path: &mut Vec<Pause>, visit: Visit) -> Result<Next, AllocError>
    ensures next { (waits : List Wait) (first : ℕ) → AllPairs IsWaitBefore waits → HasNoneAt waits visit.txn visit.place → IsSearching waits first known.old path.old.items visit →
        IfOk result (StepsOn waits first known.new path.new.items (work_left waits known.old path.old.items visit.place)) }
    ensures kept { (first : ℕ) (waits : List Wait) → IsSearching waits first known.old path.old.items visit → OnOk result (KeepsEnded known.old known.new) }
{
    known.insert(
        visit.txn,
        Progress::Ended {
            rank: visit.longest,
        },
    )?;
    match path.pop() {
        Some(pause) => Ok(Next::Visit(Visit {
            txn: pause.wait.held,
            place: pause.place,
            longest: pause.longest,
        })),
        None => Ok(Next::Ended),
    }
}

/// Takes a wait of the transaction that is gone through.
fn take(
    waits: &[Wait],
    known: &mut Known,
    path: &mut Vec<Pause>,
    visit: Visit,
    wait: Wait,
) -> Result<Next, AllocError>
    requires ordered { AllPairs IsWaitBefore waits.now }
    requires searching { (first : ℕ) × IsSearching waits.now first known.old path.old.items visit }
    requires here { IsAtPlace waits.now visit.place wait }
    requires own { wait.held ≡ visit.txn }
    ensures next { (first : ℕ) → IsSearching waits.now first known.old path.old.items visit →
        IfOk result (StepsOn waits.now first known.new path.new.items (work_left waits.now known.old path.old.items visit.place)) }
    ensures kept { OnOk result (KeepsEnded known.old known.new) }
{
    match known.get(wait.by).copied() {
        None => Ok(Next::Visit(follow(waits, known, path, visit, wait)?)),
        Some(Progress::Ended { rank }) => Ok(Next::Visit(pass(visit, rank))),
        Some(Progress::Open) => {
            let again = wait.by;
            path.push(pause_at(visit, wait))?;
            Ok(Next::Again(again))
        }
    }
}

/// One step of the search.
pub(crate) fn go_on(
    waits: &[Wait],
    known: &mut Known,
    path: &mut Vec<Pause>,
    visit: Visit,
) -> Result<Next, AllocError>
    requires ordered { AllPairs IsWaitBefore waits.now }
    requires searching { (first : ℕ) × IsSearching waits.now first known.old path.old.items visit }
    ensures next { (first : ℕ) → IsSearching waits.now first known.old path.old.items visit →
        IfOk result (StepsOn waits.now first known.new path.new.items (work_left waits.now known.old path.old.items visit.place)) }
    ensures kept { OnOk result (KeepsEnded known.old known.new) }
{
    match own_wait(waits, visit.txn, visit.place) {
        Some(wait) => take(waits, known, path, visit, wait),
        None => leave(known, path, visit),
    }
}
