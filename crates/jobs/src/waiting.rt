//! How long a turn waits for its sockets.
use std::time::Duration;

/// The longest wait of a turn, in milliseconds.
const LONGEST_WAIT: u64 = 10;

/// The longest wait of a turn: 0 if a byte was read or written in the turn before (`moved`), otherwise 10 milliseconds.
pub fn poll_timeout(moved: bool) -> Duration {
    let millis = if moved { 0 } else { LONGEST_WAIT };
    Duration::from_millis(millis)
}
