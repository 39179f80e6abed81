//! The codes of the orders (GA23-0059-07, "Buffer Control Orders and Order Codes"). Inbound data also uses SBA and SF.

/// Start Field (SF): one byte follows, the attribute.
pub const START_FIELD: u8 = 0x1D;

/// Set Buffer Address (SBA): two bytes follow, the address.
pub const SET_BUFFER_ADDRESS: u8 = 0x11;

/// Insert Cursor (IC).
pub(crate) const INSERT_CURSOR: u8 = 0x13;

/// Program Tab (PT).
pub(crate) const PROGRAM_TAB: u8 = 0x05;

/// Repeat to Address (RA): an address of two bytes and a character follow.
pub(crate) const REPEAT_TO_ADDRESS: u8 = 0x3C;

/// Erase Unprotected to Address (EUA): two bytes follow, the address.
pub(crate) const ERASE_UNPROTECTED_TO_ADDRESS: u8 = 0x12;
