//! The Telnet protocol's wire format (RFC 854, 855 and 885): bytes as records, option negotiations and
//! subnegotiations, and back. What these mean is the crate `tn3270e_msg`'s.
//!
//! A [`Decoder`] reads a stream byte by byte, cut anywhere, and lends each item that a byte completes.
//! [`Decoder::push_data`] reads the bytes of data up to the next IAC at once. `new` allocates the decoder's memory; its
//! other calls allocate none. The `put_` functions append an item's bytes to a vector, which may have to grow.
//!
//! ```text
//! let mut decoder = Decoder::new(alloc, 16_384)?;
//! for byte in arrived {
//!     match decoder.push(*byte)? {
//!         Step::More => {}
//!         Step::Ready => match decoder.item() {
//!             Item::Record(data) => handle(data)?,
//!             Item::Opt { verb: Verb::Do, code } => put_option(&mut out, Verb::Wont, code)?,
//!             Item::Opt { .. } | Item::Sub(_) | Item::Other(_) => {}
//!         },
//!     }
//! }
//! ```
//!
//! `specs/` defines the format: `Token` (the tokens and their spellings), `Items` (the items of a list of tokens),
//! `Reading` (how bytes are read, and which are wrong), `DecoderValue` (how a byte changes a decoder), `Runs` (how many
//! bytes are decoded at once). [`laws::one_reading`] has the laws for a caller that feeds a stream in pieces.
#![tactic(auto)]

mod buffer;
mod codes;
mod decoding;
pub mod laws;
mod wire;
mod writing;

pub use decoding::Decoder;
pub use wire::{Item, Memory, Step, Verb, WireFault};
pub use writing::{put_option, put_record, put_sub, put_sub_parts};
