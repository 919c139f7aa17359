//! Two runs of a federation of two members.
use crate::runs::run_twice;
use co_outside::{HomeMemory, SinkMemory, SourceMemory};
use co_top::{Status, run};
use std::alloc::{AllocError, Global};

/// A transaction that both members commit.
const FIRST: &[u8] = b"members lock mv coords 1
begin 1 c1
write 1 m1 alice 100
write 1 m2 bob 20
commit 1
deliver prepare 1 c1 m1 1
deliver prepare 1 c1 m2 1
deliver vote 1 m1 c1 yes
deliver vote 1 m2 c1 yes
deliver decide 1 c1 m1 commit
deliver decide 1 c1 m2 commit
";

/// Another one, which reads what the first one wrote; its second member hears of no decision.
const SECOND: &[u8] = b"members lock mv coords 1
begin 2 c1
read 2 m1 alice
write 2 m1 alice 70
write 2 m2 bob 50
commit 2
deliver prepare 2 c1 m1 2
deliver prepare 2 c1 m2 1
deliver vote 2 m1 c1 yes
deliver vote 2 m2 c1 yes
deliver decide 2 c1 m1 commit
";

/// What the logs alone give behind both.
const RECORDS: &[u8] = b"m1 alice 70
m2 bob 50
";

/// Whether both runs are done, and the logs then give these records.
fn is_played(alloc: Global) -> Result<bool, AllocError> {
    let mut home = HomeMemory::new(alloc, Vec::new(alloc));
    let first = Vec::from_slice(alloc, FIRST)?;
    let second = Vec::from_slice(alloc, SECOND)?;
    let runs = run_twice(alloc, first, second, &mut home)?;
    let mut words = Vec::new(alloc);
    words.push(String::from_str(alloc, "records")?)?;
    words.push(String::from_str(alloc, "logs")?)?;
    let mut source = SourceMemory::new(Vec::new(alloc), Vec::new(alloc));
    let mut out = SinkMemory::new(alloc, Vec::new(alloc));
    let mut notes = SinkMemory::new(alloc, Vec::new(alloc));
    let status = run(alloc, &words, &mut source, &mut out, &mut notes, &mut home);
    Ok(
        matches!(runs.first, Status::Done)
            && matches!(runs.second, Status::Done)
            && matches!(status, Status::Done)
            && out.bytes() == RECORDS,
    )
}

#[test]
fn a_run_goes_on_over_what_another_one_left(rt: HostRuntime) {
    assert!(rt; matches!(is_played(rt.alloc()), Ok(true)));
}
