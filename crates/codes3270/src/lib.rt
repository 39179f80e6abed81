//! The codes of the 3270 data stream (GA23-0059-07), for the 3278 models 2 to 5: their screens'
//! sizes, buffer addresses, field attributes, write control characters, attention identifiers, and
//! characters in EBCDIC code page 037.
//!
//! Each code has a function that encodes and one that decodes. The encoder's contract says that its
//! bytes decode to the same value. No call allocates. A function returns `None` or an error only if the
//! number, byte or character has no meaning in our profile. Codes in these documents are hexadecimal.
//! Commands, orders and inbound data are the crate `datastream`'s.
#![tactic(auto)]

mod address;
mod attention;
mod attribute;
mod code_page;
pub mod laws;
mod six_bit;
mod size;
mod storable_codes;
mod write_control;

pub use address::{Addr, AddrFault, Addrs, addr_from_bytes, addr_to_bytes};
pub use attention::{Aid, PaNo, PfNo, aid_byte, aid_from_byte};
pub use attribute::{Attr, Cell, Display, attr_code};
pub use code_page::{from_latin1, to_latin1};
pub use size::{MOST_CELLS, MOST_COLUMNS, Model, Size};
pub use storable_codes::storable;
pub use write_control::Wcc;
