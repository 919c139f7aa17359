//! What a case begins with: the files of its directory, and which calls fail.
use crate::fault::CaseFault;
use crate::files::LogFile;
use crate::words::{call_of, number_of, spot_of, word};
use co_outside::{FailAt, HomeMemory, HomeTwist, SinkMemory, SourceMemory, Spot};
use std::alloc::{AllocError, Global};

/// A byte that is read wrongly: from this read of the file on, at this place.
#[derive(Clone, Copy)]
struct Twist {
    spot: Spot,
    at: u32,
    byte: u8,
    from: u32,
}

/// No byte is read wrongly.
const NONE: Twist = Twist {
    spot: Spot::FIRST,
    at: 0,
    byte: 0,
    from: u32::MAX,
};

/// The settings of a case.
#[derive(Drop)]
pub(crate) struct Settings {
    pub(crate) files: Vec<LogFile>,
    fail: Vec<FailAt>,
    twist: Twist,
    take: u32,
    put: u32,
}

/// A call of the source or of the sink that fails; none where it is 0.
#[derive(Clone, Copy)]
pub(crate) struct Failing {
    pub(crate) take: u32,
    pub(crate) put: u32,
}

impl Settings {
    /// Which calls of the source and of the sink fail.
    pub(crate) fn failing(&self) -> Failing {
        Failing {
            take: self.take,
            put: self.put,
        }
    }

    /// No file is there, and no call fails.
    fn new(alloc: Global) -> Settings {
        Settings {
            files: Vec::new(alloc),
            fail: Vec::new(alloc),
            twist: NONE,
            take: 0,
            put: 0,
        }
    }

    /// A log file is there.
    fn add_file(&mut self, alloc: Global, words: &[u8]) -> Result<(), CaseFault> {
        let (name, digits) = word(words);
        let spot = spot_of(alloc, name)?;
        let Ok(bytes) = hex::decode(alloc, digits) else {
            return Err(CaseFault::Word);
        };
        Ok(self.files.push(LogFile { spot, bytes })?)
    }

    /// A call of the directory fails.
    fn add_failure(&mut self, alloc: Global, words: &[u8]) -> Result<(), CaseFault> {
        let (call, rest) = word(words);
        let (name, number) = word(rest);
        let failing = FailAt {
            spot: spot_of(alloc, name)?,
            call: call_of(call)?,
            number: number_of(number),
        };
        Ok(self.fail.push(failing)?)
    }

    /// A byte is read wrongly.
    fn set_twist(&mut self, alloc: Global, words: &[u8]) -> Result<(), CaseFault> {
        let (name, rest) = word(words);
        let (at, rest) = word(rest);
        let (byte, from) = word(rest);
        self.twist = Twist {
            spot: spot_of(alloc, name)?,
            at: number_of(at),
            byte: number_of(byte).min(255) as u8,
            from: number_of(from),
        };
        Ok(())
    }

    /// One setting.
    fn add(&mut self, alloc: Global, line: &[u8]) -> Result<(), CaseFault> {
        let (kind, rest) = word(line);
        match kind {
            b"#" => {}
            b"file" => self.add_file(alloc, rest)?,
            b"fail" => self.add_failure(alloc, rest)?,
            b"twist" => self.set_twist(alloc, rest)?,
            b"take" => self.take = number_of(rest),
            b"put" => self.put = number_of(rest),
            _ => return Err(CaseFault::Word),
        }
        Ok(())
    }
}

/// The settings that these lines are.
pub(crate) fn settings_of(alloc: Global, lines: &[&[u8]]) -> Result<Settings, CaseFault> {
    let mut settings = Settings::new(alloc);
    for line in lines {
        settings.add(alloc, line)?;
    }
    Ok(settings)
}

/// A directory with these files, that fails at these calls and reads a byte wrongly.
fn home_with(
    alloc: Global,
    files: &[LogFile],
    fail: Vec<FailAt>,
    twist: Twist,
) -> Result<HomeTwist, AllocError> {
    let mut home = HomeMemory::new(alloc, fail);
    for file in files {
        home.put(file.spot, file.bytes.to_vec(alloc)?)?;
    }
    let Twist {
        spot,
        at,
        byte,
        from,
    } = twist;
    Ok(HomeTwist::new(home, spot, at, byte, from))
}

/// The directory of a case.
pub(crate) fn home_of(alloc: Global, settings: &Settings) -> Result<HomeTwist, AllocError> {
    let fail = settings.fail.to_vec(alloc)?;
    home_with(alloc, &settings.files, fail, settings.twist)
}

/// The directory of a case, where this call fails, and no other.
pub(crate) fn home_that_fails(
    alloc: Global,
    settings: &Settings,
    failing: FailAt,
) -> Result<HomeTwist, AllocError> {
    let mut fail = Vec::new(alloc);
    fail.push(failing)?;
    home_with(alloc, &settings.files, fail, NONE)
}

/// A directory with these files, which does not fail.
pub(crate) fn home_with_files(alloc: Global, files: &[LogFile]) -> Result<HomeTwist, AllocError> {
    home_with(alloc, files, Vec::new(alloc), NONE)
}

/// This number alone, or none where it is 0.
fn alone(alloc: Global, number: u32) -> Result<Vec<u32>, AllocError> {
    let mut numbers = Vec::new(alloc);
    if number > 0 {
        numbers.push(number)?;
    }
    Ok(numbers)
}

/// A source of these bytes.
pub(crate) fn source_of(
    alloc: Global,
    failing: Failing,
    input: Vec<u8>,
) -> Result<SourceMemory, AllocError> {
    Ok(SourceMemory::new(input, alone(alloc, failing.take)?))
}

/// An empty sink.
pub(crate) fn sink_of(alloc: Global, failing: Failing) -> Result<SinkMemory, AllocError> {
    Ok(SinkMemory::new(alloc, alone(alloc, failing.put)?))
}
