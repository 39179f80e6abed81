//! What a host knows of a terminal's screen, of any size, and the writes that turn it into a wanted screen.
//!
//! A `Shadow` is a host's record of one screen. `sent_taken` takes each plain write once the terminal has answered it
//! positively; `heard` takes each inbound data stream; `paint` appends the bytes of the write that makes a wanted
//! screen. The host must call the first two in the order in which the terminal carried the writes out and sent the
//! data. Parsing is datastream's; the terminal's own screen is presentation's; sessions are host_core's.
//!
//! ```rust
//! let size = Size::base();
//! let mut shadow = Shadow::blank();
//!
//! // The write that makes the wanted screen. Nothing is known yet, so it is an Erase/Write.
//! let mut write = Vec::new(alloc);
//! shadow.paint(&mut write, &wanted)?;
//!
//! // The terminal has answered positively. The screen has WHO? at row 1, column 2, and an input field from address 7.
//! shadow.sent_taken(&read_command(write.as_slice(), size, size)?);
//! assert!(rt; shadow.size() == Some(size));
//! assert!(rt; shadow.known(Addr::first().next(size)) == Some(Cell::Char(0xe6)));
//!
//! // The operator typed ANN and pressed Enter. Nulls aren't sent, so which cells hold the letters isn't known.
//! let inbound = read_inbound(b"\x7d\x40\xc9\x11\x40\xc7\xc1\xd5\xd5", Form::Modified, size)?;
//! assert!(rt; shadow.heard(&inbound).is_ok());
//! assert!(rt; shadow.fact(attr) == Some(Fact::Text));
//! assert!(rt; shadow.value(attr, 0) == Some(0xc1));
//! ```
//!
//! `specs/Belief` defines a belief, `Meets` which screens it allows, `Heard` and `AfterReadBuffer` how inbound data
//! changes it, `Taken` how a write changes it, and `Paint` the bytes of a paint. The laws say that what is known is on
//! the screen, whatever was sent and heard.
#![tactic(auto)]

mod apply_inbound;
mod apply_write;
mod buffer;
mod cell_belief;
mod cell_beliefs;
mod fact;
mod fault;
mod field_text;
mod field_update;
mod fitting;
mod known;
pub mod laws;
mod mdt_state;
mod painting;
mod queries;
mod returned_cursor;
mod rule_break;
mod searching;
mod shadow;
mod verifying;
mod writing;

pub use fact::Fact;
pub use fault::HeardFault;
pub use field_text::FieldText;
pub use fitting::any_keep;
pub use mdt_state::MdtState;
pub use rule_break::{Rule, RuleBreak};
pub use shadow::Shadow;
pub use writing::plain;
