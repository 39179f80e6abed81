//! How much room commands take, in bytes.
use codes3270::{MOST_CELLS, MOST_COLUMNS};
use tn3270e_msg::HEADER_LENGTH;

/// The most bytes of a record that a host sends: a header, and a paint of the largest screen at three bytes a cell.
pub(crate) const RECORD_ROOM: usize = HEADER_LENGTH + (9 + 3 * MOST_CELLS);

/// The most bytes of a command on the wire: such a record with each byte doubled, and IAC EOR.
pub(crate) const COMMAND_ROOM: usize = 2 * RECORD_ROOM + 2;

/// The most bytes of a Read Buffer on the wire: a header and a code, with each byte doubled, and IAC EOR.
pub(crate) const READ_BUFFER_ROOM: usize = 2 * (HEADER_LENGTH + 1) + 2;

/// A note on the wire: a header, code, WCC, SBA, and the longest last row, with each byte doubled, and IAC EOR.
pub(crate) const NOTE_ROOM: usize = 2 * (HEADER_LENGTH + (4 + MOST_COLUMNS)) + 2;

/// The room for output that [`Host::open`](crate::Host::open) makes and that the connection keeps, in bytes (our
/// profile): the largest command, and 1,024 bytes beside it.
pub const OUT_ROOM: usize = 1024 + COMMAND_ROOM;
