//! What the jobs of the program are asked to do, their streams and sockets, and their ends by a fault. This crate runs
//! no job and has no listener, and parses no command line (crate `cli` does).
//!
//! A [`Job`] has the values of its options, each in its range. A value is read from its word (`Port::read`), and
//! `specs/OptionValues` defines which words are values. [`behind`] and [`number_of`] take apart a line of a script, words
//! separated by one blank each; [`bytes_of_line`] reads a line of `show`, bytes in hexadecimal. `specs/LineParts` and
//! `specs/HexLines` define their results.
//!
//! A job reads from a [`Source`] and writes to a [`Sink`], which count failures. [`CountedReader`] and
//! [`CountedWriter`] make these from any reader and writer, through single calls that contracts can name ([`RawRead`],
//! [`RawWrite`]). [`read_whole`] reads an input as text. A [`Fault`] that ends a job prints as one line and has an exit
//! status; [`report_and_exit_code`] prints the one and returns the other.
//!
//! A [`SocketSlot`] is a connection with its counts, and [`Sockets`] has one slot for each connection number of a host,
//! as the `Links` through which host_core serves. A read or a write makes at most one call of the socket.
//!
//! ```rust
//! let mut input = CountedReader::new(rt.stdin());
//! let mut faults = CountedWriter::new(rt.stderr());
//! let status = match read_whole(rt.alloc(), &mut input) {
//!     Ok(text) => 0,
//!     Err(fault) => report_and_exit_code(fault, &mut faults),
//! };
//! ```
//!
//! `specs/Counting` defines what a stream counts, `RawCalls` what the answers of readers and writers mean, `Runs` what
//! an input is and how a run ends, `Sockets` when a socket is called, and `Faults`, `LiveFaults` and `FileFaults` the
//! exit status of each fault. The printed lines have no definitions; tests compare them.
#![tactic(auto)]

mod ending;
mod endpoint;
mod fault;
mod file_fault;
mod hex_line;
mod input;
mod job;
mod live_fault;
mod number;
mod raw;
mod service;
mod socket_slot;
mod sockets;
mod streams;
mod tty_size;
mod waiting;
mod word;

pub use ending::report_and_exit_code;
pub use endpoint::HostEndpoint;
pub use fault::Fault;
pub use file_fault::{FileFault, refuse_file, refuse_keymap};
pub use hex_line::bytes_of_line;
pub use input::{MOST_BYTES, MOST_READS, read_whole};
pub use job::{CommandWords, HelpTopic, Job, Operand, OperateOptions, WebOptions, model_of};
pub use live_fault::LiveFault;
pub use number::{
    AddressCount, BoundedU16, BoundedU32, EscapeTime, Port, ReplyTime, Seconds, ServicePort,
    SessionCount, Turns,
};
pub use raw::{RawRandom, RawRead, RawWrite};
pub use service::{ApplicationChoice, ControlChoice, Service, TimeLimits, address_of};
pub use socket_slot::{SocketSlot, is_transient, read_once, write_once};
pub use sockets::Sockets;
pub use streams::{
    Answer, CHUNK, CountedReader, CountedWriter, Sink, Source, UntilClosed, WriteFailed, read_chunk,
};
pub use tty_size::TtySize;
pub use waiting::poll_timeout;
pub use word::{behind, number_of};
