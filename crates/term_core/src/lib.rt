//! A whole TN3270E display terminal: Telnet bytes and keystrokes go in, Telnet bytes and a printed screen come out. It
//! has no socket and no clock: its caller feeds it the host's bytes ([`Terminal::feed`]) and keys
//! ([`Terminal::press`]), and sends what is in [`Terminal::out`]. It joins `telnet_wire` (the stream), `tn3270e_msg`
//! (the negotiation), `presentation` (the screen) and `keyboard`. Drawing on a tty and reading its keys are the part of
//! `tty`.
//!
//! ```rust
//! let mut terminal = Terminal::new(alloc, Model::M2)?;
//! terminal.connected(Lu::read(b"PNL01"));
//!
//! // The host says DO TN3270E; the terminal has WILL TN3270E to send.
//! let fed = terminal.feed(b"\xff\xfd\x28");
//! assert_eq!(rt; fed, Fed { taken: 3, stop: Stop::Going });
//! assert_eq!(rt; terminal.out(), b"\xff\xfb\x28".as_slice());
//! let count = terminal.out().len();
//! terminal.sent(count);
//!
//! // Once the host has granted an LU and written a panel, the operator types.
//! if terminal.phase().is_bound() && terminal.lock() == Lock::Free {
//!     terminal.press(Key::Char('A'))?;
//!     terminal.press(Key::Enter)?;
//! }
//!
//! // What the operator sees: here blank rows, and below them `cursor 0 lock wait aid 60`.
//! println!(rt; "{}", terminal.screen_text(alloc)?)?;
//! ```
//!
//! The repository's `tests/cases` has whole dialogues with a terminal, byte for byte. `specs/Feeds` defines feeding;
//! `Bytes`, `Items` and `Records` what bytes do to a terminal; `Presses` what keys do; `Says` what is sent; and
//! `ScreenText` what is printed. [`laws::one_machine`] has the laws of these as its contract, and
//! [`laws::room_suffices`] those of the output buffer's capacity (`Room`).
#![tactic(auto)]

mod feeding;
pub mod laws;
mod outcome;
mod phase;
mod room;
mod screen_text;
mod station;
mod terminal;

pub use codes3270::Model;
pub use keyboard::{Key, Lock, Pressed, Refusal};
pub use outcome::Outcome;
pub use phase::TermPhase;
pub use presentation::Screen;
pub use room::OUT_ROOM;
pub use screen_text::screen_lines;
pub use telnet_wire::Memory;
pub use terminal::Terminal;
pub use tn3270e_msg::{Cause, Fed, Lu, Stop};
