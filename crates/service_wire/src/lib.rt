//! What a service and its peers send each other beside TN3270E, as bytes: the header by which a proxy names its client,
//! and the lines by which an operator controls the service. This crate does no input or output.
//!
//! The header is that of the PROXY protocol of HAProxy, versions 1 and 2, at the front of a connection ("The PROXY
//! protocol, Versions 1 & 2", sections 2.1 and 2.2). A [`HeaderReader`] takes received bytes, and says how many are
//! missing at least, until a header is complete or a [`HeaderFault`] is found.
//!
//! An operator controls a running service over a local socket (our profile): a client sends one command, and the service
//! replies with one answer. Both are lines in UTF-8 that end in LF. A [`LineBuffer`] takes received bytes in any pieces
//! until a line is complete, and [`Command::read`] or [`Answer::read`] reads that line. Both print as their line without
//! LF.
//!
//! `specs/Header` says which bytes have a header, by `HeaderLine` for version 1 and `HeaderBlock` for version 2, and
//! `HeaderReader` what a reader holds. `specs/Lines` says which bytes have a line, `specs/Texts` which texts a screen can
//! show, `specs/Commands` which line is which command, and `specs/Answers` which line is which answer.
#![tactic(auto)]

mod answer;
mod command;
mod fronts;
mod header;
mod header_block;
mod header_fault;
mod header_line;
mod header_reader;
pub mod laws;
mod line_buffer;
mod line_fault;
mod note_text;

pub use answer::{Answer, Status};
pub use command::{Command, Recipient};
pub use header::Header;
pub use header_fault::HeaderFault;
pub use header_reader::{HeaderReader, MOST_BYTES};
pub use line_buffer::{ANSWER_LIMIT, COMMAND_LIMIT, LineBuffer};
pub use line_fault::LineFault;
pub use note_text::NoteText;
