//! The words of the command line.
ghost use Rattle.std.specs.Prelude.{◌≡◌};
ghost use Rattle.co_top.specs.Command.{IsCommand, asked_by, asked_alone, asked_of_directory, asked_with, asked_with_two, asked_with_four, asked_to_resume, asked_to_try, asked_to_look, are_bounds, is_argument, is_resume, word_text, word_named};
ghost use Rattle.std.specs.String.{string_bytes};

use crate::replay::LINES;
use co_base::{Key, MOST_MEMBERS};
use co_schedule::{is_text_of, long_number_within, named_within};

/// The most events of a trial.
const MOST_TRIAL_EVENTS: u64 = 60_000;

/// What the words of the command line ask for.
#[derive(Clone, Copy)]
pub(crate) enum Command<'a> {
    /// A schedule is replayed over the logs of a directory: over fresh ones, or over those that a run left.
    Run {
        /// Which directory.
        directory: &'a str,
        /// Whether the logs are those that a run left.
        resume: bool,
    },
    /// The durable records of the logs in a directory are written.
    Records {
        /// Which directory.
        directory: &'a str,
    },
    /// A schedule is replayed over fresh logs in a directory, and then members in doubt ask each other.
    Resolve {
        /// Which directory.
        directory: &'a str,
    },
    /// The logs of version 1 in a directory are filled in version 2.
    Migrate {
        /// Which directory.
        directory: &'a str,
    },
    /// The transcript of the source is judged.
    Check,
    /// The held votes at the end of the schedule of the source are written, and their knot.
    Waits,
    /// A trial is run.
    Trial {
        /// The number that its schedule is made from.
        number: u64,
        /// How many events the schedule has, 1 to 60,000.
        events: u32,
    },
    /// What a reader comes to that comes to a member behind a line of the schedule of the source is written.
    Look {
        /// The number of the member, 1 to 16.
        member: u8,
        /// The number of the line, 1 to 262,144.
        line: u32,
        /// The least key that it asks for.
        low: &'a str,
        /// The greatest one.
        high: &'a str,
    },
    /// Nothing that is a command.
    Unknown,
}

/// Whether the word is no option: it has a byte, and does not begin with a dash.
fn is_argument(word: &[u8]) -> bool
    ensures { result ≡ is_argument word.now }
{
    match word {
        [] => false,
        [first, ..] => *first != b'-',
    }
}

/// The words that begin a command.
#[derive(Clone, Copy)]
enum Word {
    Run,
    Records,
    Resolve,
    Migrate,
    Check,
    Waits,
    Trial,
    Look,
}

const WORDS: [Word; 8] = [
    Word::Run,
    Word::Records,
    Word::Resolve,
    Word::Migrate,
    Word::Check,
    Word::Waits,
    Word::Trial,
    Word::Look,
];

fn text_of(word: Word) -> &'static [u8]
    ensures { result.now ≡ word_text word }
{
    match word {
        Word::Run => b"run",
        Word::Records => b"records",
        Word::Resolve => b"resolve",
        Word::Migrate => b"migrate",
        Word::Check => b"check",
        Word::Waits => b"waits",
        Word::Trial => b"trial",
        Word::Look => b"look",
    }
}

/// The word that this text is.
fn word_of(text: &[u8]) -> Option<Word>
    ensures { result ≡ word_named text.now }
{
    WORDS.iter().copied().find(|word| text_of(*word) == text)
}

/// Whether this is the word for logs that a run left.
fn is_resume(word: &String) -> bool
    ensures { result ≡ is_resume (string_bytes word.now) }
{
    word.as_bytes() == b"--resume".as_slice()
}

/// A trial, where these are its number and the number of its events.
fn trial_of<'a>(number: &String, events: &String) -> Command<'a>
    ensures { IsCommand (asked_to_try number.now events.now) result }
{
    match (
        long_number_within(number.as_bytes(), 0, u64::MAX),
        long_number_within(events.as_bytes(), 1, MOST_TRIAL_EVENTS),
    ) {
        (Some(number), Some(events)) => Command::Trial {
            number,
            events: events as u32,
        },
        _ => Command::Unknown,
    }
}

/// A run that is resumed, with the name of a directory behind the word for that or before it.
fn resumed<'a>(first: &'a String, second: &'a String) -> Command<'a>
    ensures { IsCommand (asked_to_resume first.now second.now) result }
{
    if is_resume(first) && is_argument(second.as_bytes()) {
        return Command::Run {
            directory: second.as_str(),
            resume: true,
        };
    }
    if is_resume(second) && is_argument(first.as_bytes()) {
        return Command::Run {
            directory: first.as_str(),
            resume: true,
        };
    }
    Command::Unknown
}

/// A word, with the name of a directory behind it.
fn with_directory(word: Word, directory: &String) -> Command<'_>
    ensures { IsCommand (asked_of_directory word (string_bytes directory.now)) result }
{
    if !is_argument(directory.as_bytes()) {
        return Command::Unknown;
    }
    let directory = directory.as_str();
    match word {
        Word::Run => Command::Run {
            directory,
            resume: false,
        },
        Word::Records => Command::Records { directory },
        Word::Resolve => Command::Resolve { directory },
        Word::Migrate => Command::Migrate { directory },
        Word::Check | Word::Waits | Word::Trial | Word::Look => Command::Unknown,
    }
}

/// A word alone.
fn alone<'a>(word: Word) -> Command<'a>
    ensures { IsCommand (asked_alone word) result }
{
    match word {
        Word::Check => Command::Check,
        Word::Waits => Command::Waits,
        Word::Run | Word::Records | Word::Resolve | Word::Migrate | Word::Trial | Word::Look =>
            Command::Unknown,
    }
}

/// A word, with two others behind it.
fn with_two<'a>(word: Word, first: &'a String, second: &'a String) -> Command<'a>
    ensures { IsCommand (asked_with_two word first.now second.now) result }
{
    match word {
        Word::Trial => trial_of(first, second),
        Word::Run => resumed(first, second),
        Word::Records | Word::Resolve | Word::Migrate | Word::Check | Word::Waits | Word::Look =>
            Command::Unknown,
    }
}

/// Whether the words are the least and the greatest key of a range, and none is an option.
fn are_bounds(low: &[u8], high: &[u8]) -> bool
    ensures { result ≡ are_bounds low.now high.now }
{
    is_text_of(low, Key::MOST)
        && is_text_of(high, Key::MOST)
        && is_argument(low)
        && is_argument(high)
        && !low.cmp(high).is_gt()
}

/// A reader, where these are its member, its line and the bounds of its range.
fn look_of<'a>(member: &String, line: &String, low: &'a String, high: &'a String) -> Command<'a>
    ensures { IsCommand (asked_to_look member.now line.now low.now high.now) result }
{
    if !are_bounds(low.as_bytes(), high.as_bytes()) {
        return Command::Unknown;
    }
    match (
        named_within(member.as_bytes(), b'm', MOST_MEMBERS),
        long_number_within(line.as_bytes(), 1, u64::from(LINES)),
    ) {
        (Some(member), Some(line)) => Command::Look {
            member,
            line: line as u32,
            low: low.as_str(),
            high: high.as_str(),
        },
        _ => Command::Unknown,
    }
}

/// A word, with four others behind it.
fn with_four<'a>(
    word: Word,
    first: &String,
    second: &String,
    third: &'a String,
    fourth: &'a String,
) -> Command<'a>
    ensures { IsCommand (asked_with_four word first.now second.now third.now fourth.now) result }
{
    match word {
        Word::Look => look_of(first, second, third, fourth),
        Word::Run
        | Word::Records
        | Word::Resolve
        | Word::Migrate
        | Word::Check
        | Word::Waits
        | Word::Trial => Command::Unknown,
    }
}

/// A word, with those behind it.
fn with_words(word: Word, behind: &[String]) -> Command<'_>
    ensures { IsCommand (asked_with word behind.now) result }
{
    match behind {
        [] => alone(word),
        [directory] => with_directory(word, directory),
        [first, second] => with_two(word, first, second),
        [first, second, third, fourth] => with_four(word, first, second, third, fourth),
        _ => Command::Unknown,
    }
}

/// The command that the words are.
pub(crate) fn command_of(words: &[String]) -> Command<'_>
    ensures { IsCommand (asked_by words.now) result }
{
    match words {
        [] => Command::Unknown,
        [first, behind @ ..] => match word_of(first.as_bytes()) {
            Some(word) => with_words(word, behind),
            None => Command::Unknown,
        },
    }
}
