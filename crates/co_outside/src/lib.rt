//! The outside of the program: where bytes come from, where they go, and the directory of logs.
//!
//! Each trait says what its calls tell of the content, where it can be told, and that the count of
//! faults rises exactly in the calls that answer `Failed`. A form in memory tells its content
//! and fails at named calls; a form over std's readers and writers tells nothing of what is still to
//! come, nor does the one over files, which stands in a crate of its own. What a source gave and
//! what a sink took is told by every form.
//!
//! **What is proved.** Sources, sinks and the directory of logs: a call fails where the count of faults rose, and only there; what is told changes exactly as each call
//! says. Proved for the forms in memory, for `HomeTwist` and for the adapters of std's readers and writers. A home in memory fails exactly at the
//! named calls. `HomeTwist` gives the wrong byte from the named read on, and else what the home in it gives. Whole inputs are read and whole pieces
//! put; the adapters tell what std's reader or writer is known to hold. Every source, a file, a pipe or a terminal too, has the history of the bytes
//! that it gave, and whether its last answer was the end; every sink that of the bytes that it took. A source tells also whether it gave bytes behind
//! an end, and a sink how often it had no memory. What a call answers is what it adds to them; a whole piece that is put is added whole, and a whole
//! input that is read is what was given. That a call of `heard.rt` is the call of the system that it notes is trusted, and nothing else there.
#![tactic(auto)]

mod failing;
mod heard;
mod home;
mod home_memory;
mod home_twist;
mod laying;
mod sink;
mod sink_memory;
mod sink_std;
mod source;
mod source_memory;
mod source_std;
mod spot;
mod stored;
mod whole;

pub use home::{FailAt, Home, HomeCall, HomeFault};
pub use home_memory::HomeMemory;
pub use home_twist::HomeTwist;
pub use laying::lay;
pub use sink::{Sink, SinkFault};
pub use sink_memory::SinkMemory;
pub use sink_std::SinkStd;
pub use source::{Source, SourceFault, Taken};
pub use source_memory::SourceMemory;
pub use source_std::SourceStd;
pub use spot::Spot;
pub use whole::{put_all, read_all};
