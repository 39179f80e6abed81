//! A log that never blocks the program that writes it.
//!
//! The lines of a log go to a descriptor such as the standard error stream, which may be a pipe that nobody reads, or a
//! terminal that has been stopped. A program with one thread must not wait for that. So [`NonBlockingLog`] keeps lines in
//! [`WaitingLines`], which holds at most [`MOST_WAITING`] bytes, writes them when the system says that it can take them,
//! and counts the lines that it has no room for.
//!
//! `specs/Waiting` says what waits after each call. That the system can take up to [`CHUNK`] bytes when it says that it is
//! ready isn't proved: it is what POSIX says of a pipe.
#![tactic(auto)]

mod gate;
mod log;
mod waiting;

pub use log::NonBlockingLog;
pub use waiting::{CHUNK, MOST_WAITING, WaitingLines};
