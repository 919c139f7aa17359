//! Sinks over memory of std and over a real file.
use co_outside::{Sink, SinkFault, SinkStd, put_all};
use std::alloc::Global;
use std::fs::File;
use std::{fs, io};

/// Whether the next call takes so many bytes; where it takes none, why.
fn put<K: Sink>(alloc: Global, sink: &mut K, piece: &[u8], count: u32) -> &'static str {
    match sink.put(alloc, piece) {
        Ok(taken) if taken == count => "taken",
        Ok(_) => "another count",
        Err(SinkFault::Failed) => "failed",
        Err(SinkFault::Memory) => "memory",
    }
}

/// Whether a whole piece is taken, or why not.
fn put_whole<K: Sink>(alloc: Global, sink: &mut K, piece: &[u8]) -> &'static str {
    match put_all(alloc, sink, piece) {
        Ok(()) => "taken",
        Err(SinkFault::Failed) => "failed",
        Err(SinkFault::Memory) => "memory",
    }
}

/// What a sink over memory of std answers.
fn written_to_memory(alloc: Global) -> &'static str {
    let mut sink = SinkStd::new(Vec::new(alloc));
    put_whole(alloc, &mut sink, b"abc")
}

#[test]
fn a_sink_writes_memory_of_std(rt: HostRuntime) {
    assert!(rt; written_to_memory(rt.alloc()) == "taken");
}

/// What a sink over a real file answers.
fn written_to_file(alloc: Global, file: File) -> [&'static str; 2] {
    let mut sink = SinkStd::new(file);
    [
        put(alloc, &mut sink, b"abc", 3),
        put(alloc, &mut sink, b"de", 2),
    ]
}

/// Whether it writes both pieces.
fn writes_a_file(rt: &HostRuntime) -> io::Result<bool> {
    let answers = written_to_file(rt.alloc(), File::create(rt, "sink_std_file")?);
    let written = fs::read(rt, "sink_std_file")?;
    fs::remove_file(rt, "sink_std_file")?;
    Ok(answers == ["taken", "taken"] && written.as_slice() == b"abcde".as_slice())
}

#[test]
fn a_sink_writes_a_real_file(rt: HostRuntime) {
    assert!(rt; matches!(writes_a_file(&rt), Ok(true)));
}
