//! The words in the status row.
ghost use Rattle.std.specs.Prelude.{◌≡◌};
ghost use Rattle.tty.specs.StatusRow.{connection_word, digit_or_blank, error_reason, free_reason, graphic_or_blank, reason, refusal_reason, seconds_text, signs, wait_reason};

use keyboard::{Lock, Refusal};

/// Where a picture has the status row.
#[derive(Clone, Copy, PartialEq, Eq)]
pub enum StatusPlace {
    /// In a row of its own, below those of the screen.
    Below,
    /// Over the last row of the screen.
    Over,
    /// Nowhere.
    Nowhere,
}

/// Why what an operator did last had no effect, or not all of it.
#[derive(Clone, Copy, Debug, PartialEq, Eq)]
pub enum Trouble {
    /// The keyboard refused the key.
    Refused(Refusal),
    /// The rest of a pasted text had no room.
    PasteCut,
    /// A screen couldn't be saved.
    NotSaved,
    /// The host refuses a connection.
    HostRefuses,
    /// The host doesn't answer.
    NoAnswer,
    /// No connection to the host can be made, for another reason.
    Unreachable,
}

/// Where the status row is, and what it shows in addition to the state of screen and keyboard.
#[derive(Clone, Copy)]
pub struct Status<'a> {
    /// Where the status row is.
    pub place: StatusPlace,
    /// Whether the terminal is connected to a host.
    pub connected: bool,
    /// What the operator must be told: the refusal that set the lock to `Error`, or why the last key had no effect.
    pub trouble: Option<Trouble>,
    /// The name of the LU in ASCII, of which the first 15 bytes are shown; empty if there is none.
    pub lu: &'a [u8],
    /// Whether keys are held that were typed ahead.
    pub held: bool,
    /// For how many seconds the keyboard has waited, of which the last three digits are shown from 2 on.
    pub seconds: u16,
}

/// Which key shows the table of keys.
pub(crate) const KEYS_HINT: &[u8] = b"ESC ? shows keys";

/// The word for whether the terminal is connected.
pub(crate) fn connection_word(connected: bool) -> &'static [u8]
    ensures { result.now ≡ connection_word connected }
{
    if connected {
        b"connected"
    } else {
        b"not connected"
    }
}

/// The reason for a refusal that set the lock.
fn refusal_reason(refusal: Refusal) -> &'static [u8]
    ensures { result.now ≡ refusal_reason refusal }
{
    match refusal {
        Refusal::Protected => b"X PROTECTED",
        Refusal::NotNumeric => b"X NUMERIC",
        Refusal::NoRoom => b"X NO ROOM",
        Refusal::NoCode => b"X NO CODE",
        Refusal::Locked => b"X",
    }
}

/// The reason that is shown while the lock is `Error`.
fn error_reason(trouble: Option<Trouble>) -> &'static [u8]
    ensures { result.now ≡ error_reason trouble }
{
    match trouble {
        Some(Trouble::Refused(refusal)) => refusal_reason(refusal),
        Some(Trouble::PasteCut) => b"X PASTE CUT",
        Some(Trouble::NotSaved) => b"X NOT SAVED",
        Some(Trouble::HostRefuses | Trouble::NoAnswer | Trouble::Unreachable) | None => b"X",
    }
}

/// The reason that is shown while the lock is free.
fn free_reason(trouble: Option<Trouble>) -> &'static [u8]
    ensures { result.now ≡ free_reason trouble }
{
    match trouble {
        Some(Trouble::Refused(Refusal::NoCode)) => b"X NO CODE",
        Some(Trouble::PasteCut) => b"X PASTE CUT",
        Some(Trouble::NotSaved) => b"X NOT SAVED",
        _ => b"",
    }
}

/// The reason that is shown while the keyboard waits for the host.
fn wait_reason(trouble: Option<Trouble>) -> &'static [u8]
    ensures { result.now ≡ wait_reason trouble }
{
    match trouble {
        Some(Trouble::HostRefuses) => b"X REFUSED",
        Some(Trouble::NoAnswer) => b"X NO ANSWER",
        Some(Trouble::Unreachable) => b"X UNREACHABLE",
        _ => b"X SYSTEM",
    }
}

/// Why the keyboard accepts no keys, or why the last one had no effect.
pub(crate) fn reason(lock: Lock, trouble: Option<Trouble>) -> &'static [u8]
    ensures { result.now ≡ reason lock trouble }
{
    match lock {
        Lock::Free => free_reason(trouble),
        Lock::Wait => wait_reason(trouble),
        Lock::Error => error_reason(trouble),
    }
}

/// The last digit of a number; a blank if the number is 0.
fn digit_or_blank(number: u16) -> u8
    ensures { result ≡ digit_or_blank number }
{
    if number == 0 {
        b' '
    } else {
        b'0' + (number % 10) as u8
    }
}

/// The last three digits of how long the keyboard has waited, without zeros in front, if that is 2 seconds or more.
pub(crate) fn seconds_text(seconds: u16) -> [u8; 3]
    ensures { result ≡ seconds_text seconds }
{
    if seconds < 2 {
        return [b' ', b' ', b' '];
    }
    [
        digit_or_blank(seconds / 100),
        digit_or_blank(seconds / 10),
        b'0' + (seconds % 10) as u8,
    ]
}

/// The signs of insert mode, `^`, and of keys that are held, `T`.
pub(crate) fn signs(inserting: bool, held: bool) -> &'static [u8]
    ensures { result.now ≡ signs inserting held }
{
    match (inserting, held) {
        (true, true) => b"^ T",
        (true, false) => b"^",
        (false, true) => b"  T",
        (false, false) => b"",
    }
}

/// A byte of a text in ASCII; a blank if it isn't a graphic character.
pub(crate) fn graphic_or_blank(byte: u8) -> u8
    ensures { result ≡ graphic_or_blank byte }
{
    if 0x20 < byte && byte < 0x7F {
        byte
    } else {
        b' '
    }
}
