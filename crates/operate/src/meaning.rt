//! What keystrokes mean to a live terminal, and what its status row says.
ghost use Rattle.std.specs.Prelude.{◌≡◌, ◌<◌};
ghost use Rattle.operate.specs.Live.{after_help, asks_after, connects, cut_trouble, can_edit, follows_attribute, is_connected, is_enter, is_idle, is_keys, is_quit, is_refused, is_reset, is_reset_action, is_status, is_unlocked, is_wait, lu_place, pasted_control, pasted_key, seconds_of, status_place, trouble_after, waits};
ghost use Rattle.keyboard.specs.Places.{is_free_at};
ghost use Rattle.codes3270.specs.Size.{cells_in};

use crate::live::{OperatorRequest, Overlay};
use crate::typed::Typed;
use codes3270::Addr;
use keyboard::{Key, Lock, Pressed, Refusal};
use presentation::Screen;
use term_core::{TermPhase, Terminal};
use tty::{Action, Keystroke, StatusPlace, Trouble};

// ---- what a keystroke means

/// Whether the operator asked to end the program.
pub(crate) fn is_quit(asked: OperatorRequest) -> bool
    ensures { result ≡ is_quit asked }
{
    matches!(asked, OperatorRequest::Quit)
}

/// Whether there is no connection.
fn is_idle(phase: &TermPhase) -> bool
    ensures { result ≡ is_idle phase.now }
{
    matches!(phase, TermPhase::Idle)
}

/// Whether a key is Enter.
fn is_enter(key: &Key) -> bool
    ensures { result ≡ is_enter key.now }
{
    matches!(key, Key::Enter)
}

/// Whether a key is Reset.
pub(crate) fn is_reset(typed: &Typed) -> bool
    ensures { result ≡ is_reset typed.now }
{
    matches!(typed, Typed::Key(Key::Reset))
}

/// Whether a keyboard with this lock is free.
pub(crate) fn is_unlocked(lock: Lock) -> bool
    ensures { result ≡ is_unlocked lock }
{
    matches!(lock, Lock::Free)
}

/// Whether a keyboard with this lock waits for the host.
fn is_wait(lock: Lock) -> bool
    ensures { result ≡ is_wait lock }
{
    matches!(lock, Lock::Wait)
}

/// Whether the keyboard of a connected terminal waits for the host.
pub(crate) fn waits(terminal: &Terminal) -> bool
    ensures { result ≡ waits terminal.now.terminal }
{
    !is_idle(&terminal.phase()) && is_wait(terminal.lock())
}

/// Whether the table of keys is shown.
pub(crate) fn is_keys(overlay: Overlay) -> bool
    ensures { result ≡ is_keys overlay }
{
    matches!(overlay, Overlay::Keys)
}

/// Whether the status row is asked for.
fn is_status(overlay: Overlay) -> bool
    ensures { result ≡ is_status overlay }
{
    matches!(overlay, Overlay::Status)
}

/// What is shown after the key that shows the table of keys: if that is shown, the screen.
pub(crate) fn after_help(overlay: Overlay) -> Overlay
    ensures { result ≡ after_help overlay }
{
    if is_keys(overlay) {
        Overlay::Nothing
    } else {
        Overlay::Keys
    }
}

/// Where the status row is, if this screen is shown on a tty with this many rows.
pub(crate) fn status_place(overlay: Overlay, tty_rows: u16, screen: &Screen) -> StatusPlace
    ensures { result ≡ status_place overlay tty_rows screen.now.size.rows }
{
    if screen.size().rows() < tty_rows {
        StatusPlace::Below
    } else if is_status(overlay) {
        StatusPlace::Over
    } else {
        StatusPlace::Nowhere
    }
}

/// What the status row says after a key; None if nothing.
pub(crate) fn trouble_after(pressed: &Pressed, shown: Option<Trouble>) -> Option<Trouble>
    ensures { result ≡ trouble_after pressed.now shown }
{
    match pressed {
        Pressed::Refused(Refusal::Locked) => shown,
        Pressed::Refused(why) => Some(Trouble::Refused(*why)),
        Pressed::Done | Pressed::Send(_) => None,
    }
}

/// Whether a key was refused.
pub(crate) fn is_refused(pressed: &Pressed) -> bool
    ensures { result ≡ is_refused pressed.now }
{
    matches!(pressed, Pressed::Refused(_))
}

/// Whether a key asks for a connection: Enter without one.
pub(crate) fn connects(key: &Key, terminal: &Terminal) -> bool
    ensures { result ≡ connects key.now terminal.now.terminal }
{
    is_idle(&terminal.phase()) && is_enter(key)
}

/// Whether a cell can be typed into.
fn is_free_at(screen: &Screen, at: Addr) -> bool
    requires { at < cells_in screen.now.size }
    ensures { result ≡ is_free_at screen.now.screen.cells at }
{
    let is_protected = screen.attribute_over(at).is_some_and(|attr| attr.protected);
    screen.cell(at).is_character() && !is_protected
}

/// Whether the cursor is at a character that the keyboard lets an operator change.
pub(crate) fn can_edit(terminal: &Terminal) -> bool
    ensures { result ≡ can_edit terminal.now.terminal }
{
    let screen = terminal.screen();
    is_unlocked(terminal.lock()) && is_free_at(screen, screen.cursor())
}

/// Whether the cell before the cursor has an attribute.
pub(crate) fn follows_attribute(terminal: &Terminal) -> bool
    ensures { result ≡ follows_attribute terminal.now.terminal }
{
    let screen = terminal.screen();
    let before = screen.cursor().backward(1, screen.size());
    !screen.cell(before).is_character()
}

/// What the status row says of a text that was cut, given the keyboard's lock and what it said before.
pub(crate) fn cut_trouble(lock: Lock, shown: Option<Trouble>) -> Option<Trouble>
    ensures { result ≡ cut_trouble lock shown }
{
    match lock {
        Lock::Free => Some(Trouble::PasteCut),
        Lock::Wait | Lock::Error => shown,
    }
}

/// The key that a control character is in a pasted text.
fn pasted_control(byte: u8) -> Option<Key>
    ensures { result ≡ pasted_control byte }
{
    match byte {
        0x09 => Some(Key::Tab),
        0x0A | 0x0D => Some(Key::NewLine),
        _ => None,
    }
}

/// The key that a keystroke is in a pasted text.
pub(crate) fn pasted_key(keystroke: Keystroke) -> Option<Key>
    ensures { result ≡ pasted_key keystroke }
{
    match keystroke {
        Keystroke::Char(letter) => Some(Key::Char(letter)),
        Keystroke::Control(byte) => pasted_control(byte),
        _ => None,
    }
}

/// Whether an action is the key Reset.
pub(crate) fn is_reset_action(action: Action) -> bool
    ensures { result ≡ is_reset_action action }
{
    matches!(action, Action::Key(Key::Reset))
}

/// The whole seconds in a number of milliseconds, below 60,000.
pub(crate) fn seconds_of(millis: u32) -> u16
    ensures { result ≡ seconds_of millis }
{
    (millis / 1000 % 60_000) as u16
}

/// What the operator asks for after a key, given the terminal's phase before it.
pub(crate) fn asks_after(key: &Key, phase: &TermPhase, asked: OperatorRequest) -> OperatorRequest
    ensures { result ≡ asks_after key.now phase.now asked }
{
    if is_idle(phase) && is_enter(key) {
        OperatorRequest::Connect
    } else {
        asked
    }
}

// ---- what the status row says

/// Whether there is a connection.
pub(crate) fn is_connected(phase: &TermPhase) -> bool
    ensures { result ≡ is_connected phase.now }
{
    !matches!(phase, TermPhase::Idle | TermPhase::Closed(_))
}

/// The text in the status row's place for the LU: the LU's name, or what Enter does if there is no connection.
pub(crate) fn lu_place(phase: &TermPhase) -> &[u8]
    ensures { result.now ≡ lu_place phase.now }
{
    match phase {
        TermPhase::Bound(lu) => lu.as_bytes(),
        TermPhase::Idle => b"Enter connects",
        TermPhase::Talking | TermPhase::Refused(_) | TermPhase::Closed(_) => b"",
    }
}
