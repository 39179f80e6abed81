//! Orders.
use codes3270::{Addr, Attr};

/// An order of a write (GA23-0059-07, "Buffer Control Orders and Order Codes"). Each data character is an order here.
#[derive(Clone, Copy, Debug, PartialEq, Eq)]
pub enum Order {
    /// Start Field: stores an attribute at the current address, which advances.
    Sf(Attr),
    /// Set Buffer Address: sets the current buffer address.
    Sba(Addr),
    /// Insert Cursor: puts the cursor at the current address.
    Ic,
    /// Program Tab: moves the current address to the next unprotected field; after data, nulls cells up to an
    /// attribute.
    Pt,
    /// Repeat to Address: stores the character from the current address up to this address, which is excluded.
    Ra(Addr, u8),
    /// Erase Unprotected to Address: nulls the unprotected cells from the current address up to this one, excluded.
    Eua(Addr),
    /// Data: stores the character at the current address, which advances.
    Char(u8),
}
