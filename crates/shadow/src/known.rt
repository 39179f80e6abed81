//! What is known of a cell, for paints and contracts.
use crate::mdt_state::MdtState;
use codes3270::Attr;

/// What is known of a cell.
#[derive(Clone, Copy)]
pub(crate) enum Known {
    /// An attribute with MDT off, and what is known of its MDT.
    Attr(Attr, MdtState),
    /// A character, if it is known, and whether the current write stored it.
    Char(Option<u8>, bool),
}

impl Default for Known {
    fn default() -> Known {
        Known::Char(None, false)
    }
}
