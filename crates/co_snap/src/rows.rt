//! Readers of two small schedules, and what they come to.
use crate::look::{LookFault, look_after};
use co_base::{BaseFault, Key, Range};
use co_outside::SourceMemory;
use co_top::{Ask, Looked};
use std::alloc::Global;

/// A multiversion member installs a record, and then another value of it.
const INSTALLS: &[u8] = b"members mv coords 1
begin 1 c1
write 1 m1 a 1
commit 1
deliver prepare 1 c1 m1 1
deliver vote 1 m1 c1 yes
deliver decide 1 c1 m1 commit
begin 2 c1
write 2 m1 a 2
commit 2
deliver prepare 2 c1 m1 1
deliver vote 2 m1 c1 yes
deliver decide 2 c1 m1 commit
";

/// It crashes at the end.
const CRASH: &[u8] = b"members mv coords 1
begin 1 c1
crash m1
";

/// It keeps no versions.
const LOCKS: &[u8] = b"members lock coords 1
begin 1 c1
";

/// A line is outside the grammar.
const BAD: &[u8] = b"members mv coords 1
begun 1 c1
";

/// A schedule, the member and the line of the reader, and the word for what it comes to.
const ROWS: [(&[u8], u8, u32, &str); 11] = [
    (INSTALLS, 1, 1, "no rows"),
    (INSTALLS, 1, 6, "no rows"),
    (INSTALLS, 1, 7, "1"),
    (INSTALLS, 1, 13, "2"),
    (INSTALLS, 1, 14, "unopened"),
    (INSTALLS, 2, 7, "no member"),
    (INSTALLS, 0, 7, "no member"),
    (CRASH, 1, 2, "lost"),
    (CRASH, 1, 3, "down"),
    (LOCKS, 1, 2, "not mv"),
    (BAD, 1, 1, "line 2"),
];

/// The word for what a reader comes to: its first value, where it sees rows.
fn word_of(seen: &Result<Looked, LookFault>) -> &str {
    match seen {
        Ok(Looked::Rows(rows)) => match rows.as_slice().first() {
            Some(row) => str::from_utf8(row.value.text()).unwrap_or("no text"),
            None => "no rows",
        },
        Ok(Looked::NoMember) => "no member",
        Ok(Looked::Unopened) => "unopened",
        Ok(Looked::NotMv) => "not mv",
        Ok(Looked::Down) => "down",
        Ok(Looked::Lost) => "lost",
        Err(LookFault::Schedule { line: 2, .. }) => "line 2",
        Err(_) => "another fault",
    }
}

/// Whether a reader of all keys comes to this.
fn is_told(
    alloc: Global,
    schedule: &[u8],
    member: u8,
    line: u32,
    word: &str,
) -> Result<bool, BaseFault> {
    let lo = Key::new(alloc, b"a")?;
    let range = Range::new(lo, Key::new(alloc, b"z")?)?;
    let ask = Ask {
        member,
        line: line.max(1),
        range,
    };
    let mut source = SourceMemory::new(Vec::from_slice(alloc, schedule)?, Vec::new(alloc));
    let seen = look_after(alloc, &mut source, ask);
    Ok(word_of(&seen) == word)
}

#[test]
fn readers_come_to_what_the_rows_say(rt: HostRuntime) {
    for (schedule, member, line, word) in ROWS {
        assert!(rt; matches!(is_told(rt.alloc(), schedule, member, line, word), Ok(true)));
    }
}
