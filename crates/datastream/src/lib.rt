//! The 3270 data stream (GA23-0059-07): reading and writing commands, what commands do to a screen, and reading the
//! inbound data that terminals send. What a terminal stores and how it executes orders is the crate `presentation`'s.
//!
//! [`read_command`] checks a whole command before it returns anything. It returns the command, whose orders an iterator
//! yields, or the first fault in reading order. It takes two sizes, the screen's present one and its alternate one,
//! since addresses are checked against the size that the screen has after the erase. A [`CommandWriter`] appends
//! commands to a vector.
//!
//! ```text
//! let bytes = [0xF5, 0xC3, 0x11, 0x40, 0x40, 0x1D, 0x60, 0xC8, 0xC9];
//! for order in read_command(&bytes, Size::base(), Model::M5.alternate())?.orders() {
//!     match order {
//!         Order::Sba(addr) => ..,
//!         Order::Sf(attr) => ..,
//!         Order::Char(byte) => ..,
//!         ..
//!     }
//! }
//! ```
//!
//! [`read_inbound`] reads what a terminal sends, in one of three [`Form`]s, and returns it or the first fault in it.
//! [`WithoutEscapes`] replaces the graphic escapes in it, which are a fault there.
//!
//! This crate and those above it store a screen of any size as one [`PackedCell`] per cell, or as [`PackedCells`] with
//! [`CellBits`] beside them. A [`Ring`] iterates over its cells and wraps round at the end.
//!
//! `specs/` has the definitions: `Grammar` says which bytes are commands and which fault others have, `Writing` which
//! bytes are written, `InboundText` which bytes are inbound data, `Escapes` what replaces graphic escapes in them,
//! `Screen`, `Fields` and `Span` what a screen is, `Meaning` what a command does to it, `Inbound` what a terminal sends
//! of it, `KeptByKeys` which changes operator keys can make, `Note` which writes replace characters only, and `Laws`
//! and the other files named so how these relate. The functions in [`laws`] have these laws as their contracts.
#![tactic(auto)]

mod cell_store;
mod characters;
mod command;
mod command_code;
mod escapes;
mod fault;
mod inbound;
mod inbound_fields;
mod inbound_part;
mod inbound_reader;
pub mod laws;
mod order;
mod order_codes;
mod orders;
mod wanted;
mod writer;

pub use cell_store::{CellBits, HasCells, PackedCell, PackedCells, Ring};
pub use command::{Command, read_command};
pub use command_code::CommandCode;
pub use escapes::{WithoutEscapes, has_escapes};
pub use fault::{CommandFault, Sense};
pub use inbound::{Inbound, read_inbound};
pub use inbound_fields::{ReturnedField, ReturnedFields};
pub use inbound_part::{Form, InboundFault, Part};
pub use inbound_reader::{Cells, Parts};
pub use order::Order;
pub use order_codes::{SET_BUFFER_ADDRESS, START_FIELD};
pub use orders::Orders;
pub use wanted::{Want, Wanted, Wants};
pub use writer::{CommandWriter, Memory};
