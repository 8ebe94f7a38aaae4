//! The program's outside: named files, sinks for what it writes, and gates that its threads tell where they are.
//!
//! Each is a trait whose contract says what a call may do, over a record of what can be told of the object (`state`).
//! Its one idea: an object over the real thing tells no contents, yet what its reads gave, which writes were tried and what
//! its puts took is told by every object, so that a theorem on code that is generic over the traits speaks of real runs too.
//! A call fails only where the object's count of faults rose, or where told contents lack the name.
//! `MemFiles` and `MemSink` hold bytes and fail at the calls that their maker lists; `HostFiles` and `HostSink` are the
//! few trusted lines over the system. The layer above may rely on the traits' clauses, on `read_whole` and `put_all`.
#![tactic(auto)]

mod failed;
mod files;
mod gate;
mod host_files;
mod host_sink;
mod mem_files;
mod mem_sink;
mod named_file;
mod put;
mod replacing;
mod sink;
mod trace;
mod whole;

pub use failed::Failed;
pub use files::Files;
pub use gate::{Gate, OpenGate};
pub use host_files::HostFiles;
pub use host_sink::HostSink;
pub use mem_files::{MemFiles, names_differ};
pub use mem_sink::MemSink;
pub use named_file::NamedFile;
pub use put::put_all;
pub use sink::Sink;
pub use whole::{WholeError, read_whole};
