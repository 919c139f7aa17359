//! The top call.
ghost use Rattle.std.specs.Prelude.{◌≡◌, ◌≤◌, ◌↔◌, ℕ, Bool, List, [], Some, length};
ghost use Rattle.co_durable.specs.Told.{AreTold};
ghost use Rattle.co_top.specs.Checking.{ChecksAs};
ghost use Rattle.co_top.specs.Command.{AsksRun, AsksRecords, AsksResolve, AsksMigrate, AsksCheck, AsksWaits, AsksTrial, AsksLook, AsksNothing, asked_by};
ghost use Rattle.co_outside.specs.Sink.{HasNoted};
ghost use Rattle.co_top.specs.Ends.{note_of};
ghost use Rattle.co_top.specs.Headline.{IsWholeRun};
ghost use Rattle.co_top.specs.Looking.{LooksAs};
ghost use Rattle.co_top.specs.Migrating.{MigratesAs};
ghost use Rattle.co_top.specs.Ran.{Ran};
ghost use Rattle.co_top.specs.Records.{WritesRecords};
ghost use Rattle.co_top.specs.Resolving.{ResolvesAs};
ghost use Rattle.co_top.specs.Running.{RunsAs};
ghost use Rattle.co_top.specs.Trials.{TriesAs};
ghost use Rattle.co_top.specs.declared.reader.Ask.{Ask};
ghost use Rattle.co_top.specs.Views.{source_seen, sink_seen};
ghost use Rattle.co_top.specs.Waiting.{WaitsAs};

use crate::checking::check;
use crate::looking::look;
use crate::migrating::migrate;
use crate::note::note_of;
use crate::records::records;
use crate::replay::replay;
use crate::resolving::resolve;
use crate::status::Status;
use crate::trials::trial;
use crate::waiting::waits;
use crate::words::{Command, command_of};
use co_any::AnyEngine;
use co_outside::{Home, Sink, SinkFault, Source, put_all};
use std::alloc::Global;

/// Runs a command: its words, without the name of the program, the source of a schedule or a transcript, the sink of what the command writes, the
/// sink of notes and the directory of logs.
///
/// `run DIR` replays the schedule of the source over fresh logs in the directory, `run --resume DIR` and `run DIR --resume` over logs that a run left
/// there, and writes the transcript. Over a source, a sink and a directory that tell what they have, `run` says of every status what was done and
/// told then: each line in its turn, up to the end or to the line that ended the run; and of what was done, that committed transactions read what
/// they read when run whole, one by one, in the order of their decisions (commitment ordering: Raz, VLDB 1992), that each acknowledged one is
/// decided, and once, that no two members decide one differently, and that the logs alone give the records of that serial run. `Schedule` comes at
/// the first line outside the grammar, `Limit` at a long line, at line 262,145, at 65,536 transactions and where a log would be too long; `InUse`,
/// `BadLog` and `OldLog` where the logs cannot be opened, and exactly there, over files that are told and unless the source or the directory failed
/// or there was no memory; `Read`, `Write` and `Device` only where the source, the sink or the directory failed; and `Differs` only for a file that the
/// directory does not tell. Where the head is refused, the directory is as it was, and where the logs are, no file is changed; where opening them failed,
/// each is as it was found, or has its header alone where there was none. After a fault within an event the files have what the lines before it left, or
/// with them what it leaves. No file is changed of a node that the head does not have, and what is told of an event is synced before.
///
/// `records DIR` enters the directory, and makes it where it is missing, and writes the durable records that the logs of 16 members and 8
/// coordinators alone give: a line `NODE KEY VALUE` for each, members ascending and the keys of each member ascending. It reads no schedule and
/// writes no file. `Device` comes only where the home failed, `Limit` where a file is too long and `BadLog` where the files of a node are no
/// log, or a record stands where it may not, each at the first such file; `Write` only where the sink of the records failed.
///
/// `resolve DIR` does what `run DIR` does over fresh logs, with its statuses by the same causes. Where the schedule was done to its end, the members that are in doubt then take their turns, listed once, ascending by
/// transaction and then by member: each asks the other members, ascending, until one tells a commit or an abort (cooperative termination: Skeen, Nonblocking commit protocols, SIGMOD 1981). A verdict is told as the
/// message `decide` that the coordinator would have sent, behind the timer that lets the other member go where the transaction is active there; the numbers follow that of the last line. Every verdict is true, so all
/// that is promised of a run holds of the run with its verdicts. Last comes a line `doubt T M` for each doubt that remains, of members that are up. Where the schedule was not done to its end nobody is asked.
///
/// `migrate DIR` enters the directory, and makes it where it is missing, and fills the logs of version 1 of 16 members and 8 coordinators there: the spare file of each such node is closed where it is not,
/// and filled in version 2 with what the log tells, as a checkpoint does, members ascending and then coordinators; it writes `migrated N`, N the number of nodes that were filled. All files are read and judged before the
/// first write: `BadLog` and `Limit` come then as of `records`, and no file is changed. `Limit` comes also at a node whose filled file would be too long, or that has no next generation, with the earlier nodes filled.
/// `Device` comes only where the home failed, `Write` only where the sink failed. A node of version 2, and one without a log, stays as it is.
///
/// `check` reads a transcript from the source, and trusts nothing that wrote it. Where its lines are items, and well shaped, as those of a run over
/// fresh logs are, it judges the committed transactions: each has to have been answered, before its decision, as when run whole behind the earlier
/// decisions. Where all were, it writes `serial N` and then the records of that serial run, N the number of decisions; else `not serial T LINE`, and
/// `NotSerial` tells the first transaction in the order of decisions that was not, and the number of the event of its first such operation.
/// `Transcript` comes at the first line that is no item or breaks the shape, and at the line past the end where the last event has no reply; `Limit`
/// at a line of more than 16,777,216 bytes and behind as many lines; `Read` and `Write` only where the source or the sink failed. The directory is
/// not touched.
///
/// `waits` replays the schedule of the source over fresh logs in a directory in memory, and writes the held votes of its end, each with the least transaction that it waits for, and their
/// knot: a cycle, or an order in which every wait leads to a lesser rank. A schedule that is not done to its end writes nothing, with the status that `run` has over fresh logs. The directory is not
/// touched.
///
/// `look M LINE LO HI` replays the schedule of the source over fresh logs in a directory in memory, and writes what a reader sees that comes to the member M behind that line and stays to the end: `rows N` and the
/// records from LO to HI as the member had installed them then, told as the reply of a scan is. They are the records of the serial run of exactly the transactions that the member had installed by then. The first of
/// these comes where there are none: `no member`, where the head has no M; `unopened`, where the schedule ends before the line; `not mv`, where the member is not multiversion; `down`, where it is down behind the
/// line; `lost`, where it is down behind a later one. M is `m1` to `m16`, LINE 1 to 262,144, and neither LO nor HI begins with a dash. A schedule that is not done to its end writes nothing, as with `waits`. The
/// directory is not touched.
///
/// `trial NUMBER EVENTS` makes a federation of a member of each kind and two coordinators, and a schedule of so many events from the number, runs it
/// over a directory in memory, settles what is open then, and writes one line of JSON: how many transactions were begun and committed, the SHA-256 of
/// the transcript, whether the durable records are those of the serial run (they are), the two numbers, how many transactions are open (none), and
/// how many events settling took. NUMBER is 0 to 18,446,744,073,709,551,615 and EVENTS 1 to 60,000, in decimal digits. It reads nothing, and the
/// directory is not touched; `Write` comes only where the sink failed.
///
/// Every other list of words is `Usage`, and changes nothing but the sink of notes. A note is put whole, or its sink failed or had no memory; it wants none itself.
pub fn run<S: Source, K: Sink, N: Sink, H: Home>(
    alloc: Global,
    words: &[String],
    source: &mut S,
    out: &mut K,
    notes: &mut N,
    home: &mut H,
) -> Status
    ensures headline { (directory input held : List ℕ) (resume : Bool) → asked_by words.now ≡ AsksRun directory resume → S.left source.old ≡ Some input → K.told out.old ≡ Some held → result ≡ Status.Done →
        (r : Ran resume input (H.seen home.old).file) → AreTold (H.seen home.old).file (length r.head.kinds) r.head.coords → r.rest ≡ [] → IsWholeRun r held (H.seen home.new).file (K.told out.new) }
    ensures usage { ((result ≡ Status.Usage) ↔ (asked_by words.now ≡ AsksNothing)) × (result ≡ Status.Usage → (source.new ≡ source.old) × (out.new ≡ out.old) × (home.new ≡ home.old)) }
    ensures run { (directory : List ℕ) (resume : Bool) → asked_by words.now ≡ AsksRun directory resume →
        RunsAs H.seen resume directory (source_seen (S.left source.old) (S.faults source.old)) (source_seen (S.left source.new) (S.faults source.new))
        (sink_seen (K.told out.old) (K.faults out.old)) (sink_seen (K.told out.new) (K.faults out.new)) home.old home.new result }
    ensures records { (directory : List ℕ) → asked_by words.now ≡ AsksRecords directory → (source.new ≡ source.old)
        × WritesRecords directory (sink_seen (K.told out.old) (K.faults out.old)) (sink_seen (K.told out.new) (K.faults out.new)) (H.seen home.old) (H.seen home.new) result }
    ensures resolve { (directory : List ℕ) → asked_by words.now ≡ AsksResolve directory →
        ResolvesAs H.seen directory (source_seen (S.left source.old) (S.faults source.old)) (source_seen (S.left source.new) (S.faults source.new))
        (sink_seen (K.told out.old) (K.faults out.old)) (sink_seen (K.told out.new) (K.faults out.new)) home.old home.new result }
    ensures migrate { (directory : List ℕ) → asked_by words.now ≡ AsksMigrate directory → (source.new ≡ source.old)
        × MigratesAs directory (sink_seen (K.told out.old) (K.faults out.old)) (sink_seen (K.told out.new) (K.faults out.new)) (H.seen home.old) (H.seen home.new) result }
    ensures check { asked_by words.now ≡ AsksCheck → (home.new ≡ home.old)
        × ChecksAs (source_seen (S.left source.old) (S.faults source.old)) (source_seen (S.left source.new) (S.faults source.new))
        (sink_seen (K.told out.old) (K.faults out.old)) (sink_seen (K.told out.new) (K.faults out.new)) result }
    ensures trial { (number events : ℕ) → asked_by words.now ≡ AsksTrial number events → (source.new ≡ source.old) × (home.new ≡ home.old)
        × TriesAs number events (sink_seen (K.told out.old) (K.faults out.old)) (sink_seen (K.told out.new) (K.faults out.new)) result }
    ensures waits { asked_by words.now ≡ AsksWaits → (home.new ≡ home.old)
        × WaitsAs (source_seen (S.left source.old) (S.faults source.old)) (source_seen (S.left source.new) (S.faults source.new))
        (sink_seen (K.told out.old) (K.faults out.old)) (sink_seen (K.told out.new) (K.faults out.new)) result }
    ensures look { (ask : Ask) → asked_by words.now ≡ AsksLook ask → (home.new ≡ home.old)
        × LooksAs ask (source_seen (S.left source.old) (S.faults source.old)) (source_seen (S.left source.new) (S.faults source.new))
        (sink_seen (K.told out.old) (K.faults out.old)) (sink_seen (K.told out.new) (K.faults out.new)) result }
    ensures noted { (held : List ℕ) → N.told notes.old ≡ Some held →
        HasNoted held (note_of result) (N.told notes.new) (N.faults notes.old) (N.faults notes.new) (N.lacks notes.old) (N.lacks notes.new) }
    ensures counts { N.faults notes.old ≤ N.faults notes.new }
{
    match command_of(words) {
        Command::Run { directory, resume } => {
            let status = replay::<AnyEngine, S, K, H>(alloc, directory, resume, source, out, home);
            told(alloc, notes, status)
        }
        Command::Records { directory } => {
            let status = records(alloc, directory, out, home);
            told(alloc, notes, status)
        }
        Command::Resolve { directory } => {
            let status = resolve::<AnyEngine, S, K, H>(alloc, directory, source, out, home);
            told(alloc, notes, status)
        }
        Command::Migrate { directory } => {
            let status = migrate(alloc, directory, out, home);
            told(alloc, notes, status)
        }
        Command::Check => {
            let status = check(alloc, source, out);
            told(alloc, notes, status)
        }
        Command::Waits => {
            let status = waits::<AnyEngine, S, K>(alloc, source, out);
            told(alloc, notes, status)
        }
        Command::Look {
            member,
            line,
            low,
            high,
        } => {
            let status = look::<AnyEngine, S, K>(alloc, member, line, low, high, source, out);
            told(alloc, notes, status)
        }
        Command::Trial { number, events } => {
            let status = trial(alloc, number, events, out);
            told(alloc, notes, status)
        }
        Command::Unknown => told(alloc, notes, Status::Usage),
    }
}

/// The status again, with its note put: whole, or a front of it where the sink failed or had no memory. That changes nothing else.
fn told<N: Sink>(alloc: Global, notes: &mut N, status: Status) -> Status
    ensures same { result ≡ status }
    ensures noted { (held : List ℕ) → N.told notes.old ≡ Some held →
        HasNoted held (note_of status) (N.told notes.new) (N.faults notes.old) (N.faults notes.new) (N.lacks notes.old) (N.lacks notes.new) }
    ensures counts { N.faults notes.old ≤ N.faults notes.new }
{
    let note = note_of(&status);
    match put_all(alloc, notes, note.as_slice()) {
        Ok(()) | Err(SinkFault::Failed) | Err(SinkFault::Memory) => {}
    }
    status
}
