//! Rows that are given to the player as one list.
ghost use Rattle.std.specs.Prelude.{IsTrue};
ghost use Rattle.co_pairs.specs.Free.{are_free};

use crate::asks::{call, put_dump};
use crate::commands::command;
use crate::rows::RowFault;
use crate::setups::{is_setup, rows_of};
use crate::texts::put_all_played;
use co_base::{Kind, Rows, Sequence};
use co_engine::{Answers, Command, Engine, Played, play};
use co_pairs::Prepared;
use std::alloc::{AllocError, Global};

/// The commands of the rows.
fn commands(alloc: Global, lines: &[&[u8]]) -> Result<Sequence<Command>, RowFault> {
    let mut commands = Sequence::new(alloc);
    for line in lines {
        if !is_setup(line) {
            commands.push(command(alloc, line)?)?;
        }
    }
    Ok(commands)
}

/// Makes the calls of those commands that were not refused.
fn drive<E: Engine>(
    alloc: Global,
    engine: &mut E,
    commands: &[Command],
    answers: &[Played],
) -> Result<(), AllocError> {
    for (command, answer) in commands.iter().zip(answers) {
        if !matches!(answer, Played::Refused) {
            let _ = call(alloc, engine, command)?;
        }
    }
    Ok(())
}

/// Appends what an engine that begins so dumps after those commands that were not refused.
fn put_driven<E: Engine + Drop>(
    alloc: Global,
    kind: Kind,
    rows: Rows,
    voted: &[Prepared],
    commands: &[Command],
    answers: &[Played],
    into: &mut Vec<u8>,
) -> Result<(), AllocError>
    requires taken { E.takes kind }
    requires free { IsTrue (are_free voted.now) }
{
    let mut engine = E::restore(alloc, kind, rows, voted)?;
    drive(alloc, &mut engine, commands, answers)?;
    put_dump(alloc, &engine, into)
}

/// Appends what commands come to, a line each.
fn put_answers<E: Engine + Drop>(
    alloc: Global,
    kind: Kind,
    rows: Rows,
    voted: &[Prepared],
    commands: &[Command],
    into: &mut Vec<u8>,
) -> Result<Answers, AllocError>
    requires taken { E.takes kind }
    requires free { IsTrue (are_free voted.now) }
{
    let answers = play::<E>(alloc, kind, rows, voted, commands)?;
    put_all_played(answers.as_slice(), into)?;
    Ok(answers)
}

/// Appends what the rows come to on an engine that begins so, a line each, and in a last line what such an engine dumps
/// after the same calls.
pub(crate) fn put_told_by_play<E: Engine + Drop>(
    alloc: Global,
    kind: Kind,
    voted: &[Prepared],
    lines: &[&[u8]],
    into: &mut Vec<u8>,
) -> Result<(), RowFault>
    requires taken { E.takes kind }
    requires free { IsTrue (are_free voted.now) }
{
    let commands = commands(alloc, lines)?;
    let commands = commands.as_slice();
    let rows = rows_of(alloc, lines)?;
    let answers = put_answers::<E>(alloc, kind, rows, voted, commands, into)?;
    let rows = rows_of(alloc, lines)?;
    Ok(put_driven::<E>(alloc, kind, rows, voted, commands, answers.as_slice(), into)?)
}
