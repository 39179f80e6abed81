//! The parts of inbound data, and why bytes are no inbound data.
ghost use Rattle.std.specs.Prelude.{◌≡◌};
ghost use Rattle.datastream.specs.InboundFields.{cell_of_part};

use codes3270::{Addr, Attr, Cell};
use std::error::Error;
use std::fmt;

/// Which read the data answers (GA23-0059-07 on read commands).
#[derive(Clone, Copy, Debug, PartialEq, Eq)]
pub enum Form {
    /// Read Modified, or data that a key sends: the modified fields. A PA key or Clear sends its AID alone.
    Modified,
    /// Read Modified All: the modified fields, whichever key was pressed.
    All,
    /// Read Buffer: every cell.
    Buffer,
}

/// One part of inbound data after its AID and cursor address.
#[derive(Clone, Copy, Debug, PartialEq, Eq)]
pub enum Part {
    /// The address of a field's first cell; the field's characters follow.
    At(Addr),
    /// A character, of a field or of a cell.
    Char(u8),
    /// A cell that holds an attribute.
    Attr(Attr),
}

impl Part {
    /// The cell that this part is, or `None` for an address.
    pub fn cell(self) -> Option<Cell>
        ensures { result ≡ cell_of_part self }
    {
        match self {
            Part::At(_) => None,
            Part::Char(byte) => Some(Cell::Char(byte)),
            Part::Attr(attr) => Some(Cell::Attr(attr)),
        }
    }
}

/// Why bytes are no inbound data of a form: the first fault in reading order (our profile).
#[derive(Clone, Copy, Debug, PartialEq, Eq, Hash)]
pub enum InboundFault {
    /// There are no bytes, the cursor's address is missing or cut, or form Buffer has fewer cells than the screen.
    Short,
    /// The first byte is no key's AID.
    BadAid,
    /// The cursor's address or a field's is not on the screen. It is checked once both its bytes are there.
    BadAddress,
    /// A byte is out of place or not storable, a field's text has a null, a field's address is cut short, there are
    /// more cells than the screen has, or something follows an AID that must be alone.
    BadForm,
}

impl fmt::Display for InboundFault {
    ghost use Rattle.std.specs.Prelude.{Some};
    ghost use Rattle.datastream.specs.Messages.{inbound_fault_text};

    ghost output = { λ fault. Some (inbound_fault_text fault) };

    fn fmt<W: fmt::Write>(&self, f: &mut fmt::Formatter<W>) -> fmt::Result {
        match self {
            InboundFault::Short => f.write_str("the inbound data ends too early"),
            InboundFault::BadAid => f.write_str("the inbound data begins with no AID"),
            InboundFault::BadAddress => {
                f.write_str("the inbound data has an address beyond the screen")
            }
            InboundFault::BadForm => f.write_str("the inbound data has something out of place"),
        }
    }
}

impl Error for InboundFault {}
