//! Sources over memory of std and over a real file, and one in memory that is read whole.
ghost use Rattle.std.specs.Prelude.{◌≤◌};

use co_outside::{Source, SourceFault, SourceMemory, SourceStd, Taken, read_all};
use std::alloc::{AllocError, Global};
use std::fs::File;
use std::{fs, io};

/// Whether the next call gives these bytes; where it gives none, why.
fn taken<S: Source>(alloc: Global, source: &mut S, most: u32, wanted: &[u8]) -> &'static str
    requires { 1 ≤ most }
{
    match source.take(alloc, most) {
        Ok(Taken::Bytes(bytes)) if bytes.as_slice() == wanted => "these",
        Ok(Taken::Bytes(_)) => "others",
        Ok(Taken::End) => "end",
        Err(SourceFault::Failed) => "failed",
        Err(SourceFault::Memory) => "memory",
    }
}

/// Whether so many bytes are read whole, and these are the first ones; where none are, why.
fn read<S: Source>(
    alloc: Global,
    source: &mut S,
    most: u32,
    count: usize,
    first: &[u8],
) -> &'static str {
    match read_all(alloc, source, most) {
        Ok(bytes) if bytes.len() == count && bytes.starts_with(first) => "these",
        Ok(_) => "others",
        Err(SourceFault::Failed) => "failed",
        Err(SourceFault::Memory) => "memory",
    }
}

/// The answers where a text of 70,000 bytes is read whole, up to a limit.
fn whole_reads(alloc: Global, source: &mut SourceMemory) -> [&'static str; 4] {
    [
        read(alloc, source, 0, 0, b""),
        read(alloc, source, 69_998, 69_998, b""),
        read(alloc, source, 9, 2, b"xx"),
        read(alloc, source, 9, 0, b""),
    ]
}

/// A source of so many bytes.
fn long_source(alloc: Global) -> Result<SourceMemory, AllocError> {
    let text = vec![in alloc; b'x'; 70_000]?;
    Ok(SourceMemory::new(text, Vec::new(alloc)))
}

/// Whether each read gives the bytes that are left, up to its limit.
fn is_read_in_pieces(alloc: Global) -> bool {
    match long_source(alloc) {
        Ok(source) => {
            let mut source = source;
            whole_reads(alloc, &mut source) == ["these"; 4]
        }
        Err(_) => false,
    }
}

#[test]
fn a_whole_source_is_read_in_pieces_up_to_a_limit(rt: HostRuntime) {
    assert!(rt; is_read_in_pieces(rt.alloc()));
}

/// What a source over memory of std answers.
fn read_from_memory(alloc: Global) -> &'static str {
    let mut source = SourceStd::new(b"abc".as_slice());
    read(alloc, &mut source, 9, 3, b"abc")
}

#[test]
fn a_source_reads_memory_of_std(rt: HostRuntime) {
    assert!(rt; read_from_memory(rt.alloc()) == "these");
}

/// What a source over a real file answers.
fn read_from_file(alloc: Global, file: File) -> [&'static str; 3] {
    let mut source = SourceStd::new(file);
    [
        taken(alloc, &mut source, 2, b"ab"),
        taken(alloc, &mut source, 2, b"c"),
        taken(alloc, &mut source, 2, b""),
    ]
}

/// Whether it gives all three bytes and then the end.
fn reads_a_file(rt: &HostRuntime) -> io::Result<bool> {
    fs::write(rt, "source_std_file", b"abc".as_slice())?;
    let answers = read_from_file(rt.alloc(), File::open(rt, "source_std_file")?);
    fs::remove_file(rt, "source_std_file")?;
    Ok(answers == ["these", "these", "end"])
}

#[test]
fn a_source_reads_a_real_file(rt: HostRuntime) {
    assert!(rt; matches!(reads_a_file(&rt), Ok(true)));
}
