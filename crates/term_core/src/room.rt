//! The capacity that a terminal's output needs, in bytes.
use codes3270::MOST_CELLS;
use tn3270e_msg::HEADER_LENGTH;

/// The most bytes of data that a read returns on any screen: an AID, a cursor address, and at most three bytes a cell.
const LONGEST_READING: usize = 3 + 3 * MOST_CELLS;

/// The most bytes of a record that a terminal sends: a header and the longest data.
pub(crate) const RECORD_ROOM: usize = HEADER_LENGTH + LONGEST_READING;

/// The most bytes that a data record takes on the wire: each byte doubled, and IAC EOR.
pub(crate) const DATA_ROOM: usize = 2 * RECORD_ROOM + 2;

/// The most bytes of a reply: a data record, and a response.
pub(crate) const REPLY_ROOM: usize = DATA_ROOM + 14;

/// The capacity, in bytes, that `Terminal::new` gives the output buffer: the largest reply has room while up to 1,024
/// bytes wait unsent.
pub const OUT_ROOM: usize = REPLY_ROOM + 1024;
