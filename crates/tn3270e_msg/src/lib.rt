//! TN3270E (RFC 1647): the header of a record, the messages of a negotiation, and both ends' sides of it (their talks),
//! from the host's offer to agreement. Bytes of Telnet are the crate `telnet_wire`'s, and pools of LUs `lu_pool`'s.
//!
//! A talk takes the items of the wire one by one, and returns what its end must do about each. It
//! sends nothing itself, and doesn't allocate:
//!
//! ```text
//! let mut talk = TermTalk::new(Model::M2, Lu::read(b"PNL01"));
//! ..
//! match talk.take(&decoder.item()) {
//!     Reply::Opt(verb, code) => put_option(&mut out, verb, code)?,
//!     Reply::Sub(sending, after) => {
//!         put_sub_message(&mut out, &sending.message())?;
//!         stand(after);
//!     }
//!     Reply::Agreed => serve(talk.lu()),
//!     ..
//! }
//! ```
//!
//! `specs/` has the definitions that contracts cite: `Header`, `Message` (the messages, and their payloads), `Talk`
//! (what an item means), `HostTable` and `TermTable` (one equation for each line of a talk's table), `Pair` (both talks
//! with each other, for [`laws::talks_agree`]) and `Words` (the names of causes and reasons, and what `{}` prints).
#![tactic(auto)]

mod cause;
mod codes;
mod device;
mod functions;
mod header;
mod hearing;
mod host_talk;
pub mod laws;
mod lu;
mod message;
mod reading;
mod reply;
mod term_talk;
mod writing;

pub use cause::{Cause, Fed, Stop};
pub use device::Device;
pub use header::{
    ALWAYS_RESPONSE, DataType, ERROR_RESPONSE, HEADER_LENGTH, HeadFault, Header, NEGATIVE,
    NO_RESPONSE, POSITIVE, RECORD_LIMIT, header_bytes, next_seq, read_header,
};
pub use host_talk::{HostState, HostTalk};
pub use lu::Lu;
pub use message::{Name, SubFault, SubMessage};
pub use reading::read_sub;
pub use reply::{After, OwnedMessage, Reason, Reply};
pub use term_talk::{TermState, TermTalk};
pub use writing::{REPLY_ROOM, put_reply, put_sub_message};
