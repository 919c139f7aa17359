//! The top call: a schedule is replayed over a directory of logs, the records that the logs alone give are written, or a transcript is judged.
//!
//! **What is proved.**
//!
//! - `run` has a clause for each command (`run`, `records`, `migrate`, `check`, `waits`, `look`, `trial`), each one relation over what is seen of source,
//!   sink and directory (`RunsAs`, `WritesRecords`, `MigratesAs`, `ChecksAs`, `WaitsAs`, `LooksAs`, `TriesAs`); what stands in brackets below is a part of it.
//! - **The program.** Of `run DIR` and `run --resume DIR`, over every input that the source tells, every directory, and every sink that tells what it
//!   holds (`end`): there are the head and the events of the lines that were done, and the logs that were found in the files; what was put is the
//!   text of the run of the definitions over these logs, all of it, or a front where the sink failed or there was no memory.
//! - Over new logs, and over logs that were sound, **committed transactions read what they read when run whole, one by one, in decision order**
//!   (`serial_reads`); **each one that was acknowledged is decided, once** (`acknowledged`); **no two members decide one differently** (`agreement`);
//!   the transcript is commitment ordered (`ordered`).
//! - **The files that are left have the stable records of the run's last state** (`left`), after any loss, repeat and delay of messages, crashes and
//!   stops inside a log write; where they are told, **they alone give the records of that serial run** (`logs_alone`), and they are sound
//!   (`sound_logs`). A run over what a sound run left, at its end or behind a fault, with as many nodes, finds sound logs again (the law
//!   `runs_go_on`), so that all this holds of it.
//! - Where the head is refused or not read, the directory is as it was (`NoHead`). Where its federation is not opened, each log is as it was found,
//!   or it had no record and has its header alone, and a refusal of what was found changes no file (`Unopened`).
//! - From the moment the logs are open so it is however the run ends: after a failed device, a differing byte, a full log and want of memory for the
//!   lines that were done, or with the next line's event, as a stop that was armed has it or as if none were (`AreLeftByFault`).
//! - No file is changed of a node that the head does not have (`others`). A file that was clean is clean again, but after a fault within an event
//!   (`clean`).
//! - **Where the input is a schedule, the logs are not refused, neither source nor sink nor directory failed, the directory tells its files, and no
//!   line would leave a log too long or begin one transaction too many, the run is done**, or there was no memory (`complete`).
//! - At every ending no more of the input was taken, behind the lines that were done, than one line with its newline may have (`streamed`).
//! - Over files that are told there is one run to the end of an input (the law `there_is_one_run`).
//! - What the files tell then is such as a resumed run opens (`may_resume`, a part of `left`).
//! - Each status comes only for its cause: outside the grammar, long, one line too many, in use, no log, old, more transactions in the logs than
//!   there may be (`usage`, `read`, `write`, `device`, `end`); a byte that differs comes only in a file that the directory does not tell, and a full
//!   log names a file of the node that is full, with every file as it was (which of its two parts is not said); and where the told files of the
//!   head's nodes are refused, the status is that of the refusal, unless the source or the directory fails or there is no memory (`refused`).
//! - Of a schedule that was replayed to its end the promises stand in one clause (`headline`).
//! - Of `records DIR`: what is put is the text of the durable records that the bytes of the log files say (`durable`); `device`, `bad log` and
//!   `limit` come for the first cause in the order of nodes and parts, with its file and place (`cause`, `device`), and `done` where there are
//!   durable records; over files that are told the command ends as they have it, unless the outside fails or there is no memory (`exact`); no file is
//!   changed (`files`), and the directory is entered (`entered`).
//! - What the words ask for is one definition (`asked_by`); words that are no command change nothing (`usage`); `records` reads no schedule. The note
//!   of the status is put whole, or its sink failed or had no memory, and took a front of it (`noted`); it wants no memory itself, and lowers no
//!   count of faults (`counts`).
//! - Of `check`: over a transcript that is told it ends as the text has it, unless the source or the sink fails or there is no memory (`judged`),
//!   with the text of the verdict, or a front of it where the sink failed (`end`); the directory is left alone.
//! - Of `migrate DIR`, over files that are told: with `done` the nodes that were filled are exactly those of version 1, and the line that tells how
//!   many was put; with `bad log` no file is changed; with `limit: log`, a fault of the directory and want of memory it is as `migrate` of
//!   `co_migrate` has it (`IsMigrateEnd`), and nothing is put but where the sink or memory failed behind the last node. Over sound logs each of these
//!   leaves sound logs with the same durable records (`migrations_keep_records`).
//! - Of `trial NUMBER EVENTS`: the line of the summary of that trial was put, or a front of it where the sink failed or there was no memory (`end`),
//!   and neither source nor directory is touched.
//! - `waits` reads the schedule to its end before it writes anything. Where each line was done over new logs, the text is that of the held votes of
//!   what they leave, in their order, and of their one knot (`Written`); where the sink failed or there was no memory it is a front of it (`CutOff`);
//!   and where the head is none, or a line behind it was not done, nothing is written, and the status tells why (`Unwritten`). The directory is as it
//!   was. Where the input is a schedule, neither source nor sink failed, and no line would leave a log too long or begin one transaction too many, it
//!   is done, or there was no memory (`complete`). With an order no list of the waits goes round; with a cycle the timer of each leg's transaction at
//!   its member answers `dropped`, and no commit record of it becomes stable in any continuation (`KnotTells`, a part of `Written`).
//! - `look` ends as `waits` does, with the line of what the reader came to in place of the text of the waits. Its cases are those of `Sees`, of which no two come together: rows come exactly where the head
//!   has the member, the schedule has the line, the engine is multiversion, and the member is up behind that line and all later ones. The rows are those of the range that the member had installed behind the
//!   line, and these the serial run, in decision order, of exactly what it had installed by then, over the opened votes that were committed first (`serial`).
//! - Of every command: no source, sink or directory met a fault but the one that the status names, and that one did (`read`, `write`, `device`); a
//!   run that ends at the limit of transactions ends at an event that begins a number which was not used before, where 65,536 are, with the files
//!   that the lines before it left (`IsAtLimit`); and one that ends for a log that would be too long, not refused at the start, ends at an event that
//!   would leave such a log, were no stop armed (`IsOutgrown`).
#![tactic(auto)]

mod checking;
mod following;
mod lines;
mod looking;
mod migrating;
mod note;
mod playing;
mod reader;
mod records;
mod replay;
mod resolving;
mod runs;
mod status;
mod top;
mod trials;
mod waiting;
mod words;

pub use looking::look_after;
pub use reader::{Ask, Looked};
pub use runs::{runs_go_on, there_is_one_run};
pub use status::{LimitKind, Status};
pub use top::run;
