//! What the server decides by times.
ghost use Rattle.std.specs.Prelude.{◌≡◌};
ghost use Rattle.web.specs.Limits.{time_after, time_kept};

use web_wire::Closing;

/// How long a session is kept whose page closed its WebSocket, in milliseconds: a reload takes less.
const RELOAD_TIME: u64 = 5_000;

/// The most milliseconds for which a turn counts.
const LONGEST_TURN: u64 = 1_000;

/// How long a session is kept whose WebSocket was closed, in milliseconds: 5 seconds at most if its page did that, as
/// when it is left or loaded again, and else for the time of the options (`keep`).
pub(crate) fn time_kept(closing: Closing, keep: u64) -> u64
    ensures { result ≡ time_kept closing keep }
{
    match closing {
        Closing::ByPage => keep.min(RELOAD_TIME),
        _ => keep,
    }
}

/// The server's time after a turn, by the clock before and after it, in milliseconds. A turn counts for a second at
/// most: a program that was stopped for long takes nobody for silent.
pub(crate) fn time_after(now: u64, before: u64, after: u64) -> u64
    ensures { result ≡ time_after now before after }
{
    now.saturating_add(after.saturating_sub(before).min(LONGEST_TURN))
}
