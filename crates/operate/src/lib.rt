//! The job `operate`: a terminal for an operator at a tty.
//!
//! It has no thread and no timer. A [`LiveTerminal`] takes the bytes of the host and of the keys, and produces the
//! bytes that draw the changes. An [`OperatorSession`] reads the connection and the keys once in each turn, and writes
//! to both. This crate does not decode keys or compose the tty's screen (crate `tty`), or define the terminal
//! (`term_core`). `specs/Live` and `LiveSessions` define a turn.
#![tactic(auto)]

mod live;
mod live_session;
mod meaning;
mod settings;
mod typed;

pub use live::{LiveTerminal, OperatorRequest, Overlay};
pub use live_session::{OperatorSession, run_operate};
pub use typed::{Paste, Typed};
