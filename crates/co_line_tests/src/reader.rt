//! A source of one byte a call, one that fails amid a schedule, and the limit of a schedule's lines.
ghost use Rattle.std.specs.Prelude.{None, false};

use co_base::Bytes;
use co_outside::{Source, SourceFault, SourceMemory, Taken};
use co_schedule::{Lines, LinesFault};
use co_trace::Text;
use std::alloc::Global;
use std::process::Abort;
use std::test::Fail;

// A source that gives one byte a call.
#[derive(Drop)]
struct Drip {
    bytes: Vec<u8>,
    at: usize,
    gave: Text,
    ended: bool,
    went_on: bool,
}

impl Source for Drip {
    ghost left = { λ _. None };

    ghost gave = { λ s. s.gave };

    ghost ended = { λ s. s.ended };

    ghost went_on = { λ s. s.went_on };

    ghost faults = { λ _. 0 };

    fn take(&mut self, alloc: Global, _most: u32) -> Result<Taken, SourceFault> {
        if self.at >= self.bytes.len() {
            self.ended = true;
            return Ok(Taken::End);
        }
        let piece = Vec::from_slice(alloc, &[self.bytes[self.at]])?;
        self.at += 1;
        self.gave.note(&piece);
        self.went_on = self.ended || self.went_on;
        self.ended = false;
        Ok(Taken::Bytes(Bytes::of(piece)))
    }
}

// A source that gives a line or its newline a call, and fails in its fifth call.
#[derive(Drop)]
struct Failing {
    calls: u64,
    faults: u64,
    gave: Text,
}

impl Source for Failing {
    ghost left = { λ _. None };

    ghost gave = { λ s. s.gave };

    ghost ended = { λ _. false };

    ghost went_on = { λ _. false };

    ghost faults = { λ s. s.faults };

    fn take(&mut self, alloc: Global, most: u32) -> Result<Taken, SourceFault> {
        self.calls = self.calls.saturating_add(1);
        let piece: &[u8] = match self.calls {
            1 => b"members lock coords 1",
            3 => b"begin 1 c1",
            2 | 4 => b"\n",
            _ => {
                self.faults = self.faults.saturating_add(1);
                return Err(SourceFault::Failed);
            }
        };
        let count = piece.len().min(most as usize);
        let front = Vec::from_slice(alloc, &piece[..count])?;
        self.gave.note(&front);
        Ok(Taken::Bytes(Bytes::of(front)))
    }
}

fn is_next<S: Source>(rt: &impl Abort, reader: &mut Lines, source: &mut S, wanted: &[u8]) {
    match reader.next(source) {
        Ok(Some(line)) => assert_eq!(rt; line, wanted),
        _ => assert!(rt; false, "a line is next"),
    }
}

fn is_end<S: Source>(rt: &impl Abort, reader: &mut Lines, source: &mut S) {
    assert!(rt; matches!(reader.next(source), Ok(None)), "the end is next");
}

fn memory(alloc: Global, text: &[u8]) -> Result<SourceMemory, Fail> {
    Ok(SourceMemory::new(Vec::from_slice(alloc, text)?, Vec::new(alloc)))
}

#[test]
fn lines_are_lent_one_byte_at_a_time(rt: HostRuntime) -> Result<(), Fail> {
    let mut source = Drip {
        bytes: Vec::from_slice(rt.alloc(), b"members lock coords 1\n\nread 1 m1 a")?,
        at: 0,
        gave: Text::new(),
        ended: false,
        went_on: false,
    };
    let mut reader = Lines::new(rt.alloc(), 8192, 262144)?;
    is_next(&rt, &mut reader, &mut source, b"members lock coords 1");
    is_next(&rt, &mut reader, &mut source, b"");
    is_next(&rt, &mut reader, &mut source, b"read 1 m1 a");
    is_end(&rt, &mut reader, &mut source);
    Ok(())
}

#[test]
fn a_fault_comes_behind_the_lines_taken_before_it(rt: HostRuntime) -> Result<(), Fail> {
    let mut source = Failing {
        calls: 0,
        faults: 0,
        gave: Text::new(),
    };
    let mut reader = Lines::new(rt.alloc(), 8192, 262144)?;
    is_next(&rt, &mut reader, &mut source, b"members lock coords 1");
    is_next(&rt, &mut reader, &mut source, b"begin 1 c1");
    assert!(rt; matches!(reader.next(&mut source), Err(LinesFault::Read)));
    assert_eq!(rt; source.calls, 5);
    Ok(())
}

#[test]
fn a_byte_behind_the_last_line_is_too_many(rt: HostRuntime) -> Result<(), Fail> {
    for (text, too_many) in [
        (b"a\nb\n".as_slice(), false),
        (b"a\nb".as_slice(), false),
        (b"a\nb\n\n".as_slice(), true),
        (b"a\nb\nlonger".as_slice(), true),
    ] {
        let mut source = memory(rt.alloc(), text)?;
        let mut reader = Lines::new(rt.alloc(), 3, 2)?;
        is_next(&rt, &mut reader, &mut source, b"a");
        is_next(&rt, &mut reader, &mut source, b"b");
        let many = matches!(reader.next(&mut source), Err(LinesFault::Many));
        assert_eq!(rt; many, too_many);
    }
    Ok(())
}
