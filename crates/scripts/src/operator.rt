//! An operator at a terminal: presses keys, types text, waits for the host, and prints the screen.
ghost use Rattle.std.specs.Prelude.{◌≡◌, ◌++◌, IfOk, OnOk, chars, false, length, string_bytes};
ghost use Rattle.term_core.specs.Presses.{after_key, answer_to_key};
ghost use Rattle.term_core.specs.ScreenText.{screen_text};
ghost use Rattle.term_core.specs.State.{phase_of};
ghost use Rattle.scripts.specs.Operating.{after_text, is_wait_over, phase_line, refusal_in, refusal_text, said_of_key, said_of_text};
ghost use Rattle.jobs.specs.Counting.{GivesWithin, bytes_given};
ghost use Rattle.scripts.specs.Waits.{HasExchanged, HasWaited, IsFed, SendsAll, read_room};

use jobs::{Answer, Sink, Source};
use keyboard::{Key, Lock, Pressed, Refusal};
use std::alloc::{AllocError, Global};
use term_core::{TermPhase, Terminal};
use tn3270e_msg::Stop;

/// The most reads of one wait.
const MOST_READS: usize = 1000;

/// The size of the buffer of each read of a wait, in bytes: as large as a record may be, so that one read usually gets
/// a screen.
const READ_ROOM: usize = 16_384;

// ---- keys

/// Presses a key. Returns the reason if it is refused. An error if memory is refused.
fn press_once(terminal: &mut Terminal, key: Key) -> Result<Option<Refusal>, AllocError>
    ensures pressed { OnOk result (terminal.new.terminal ≡ after_key key terminal.old.terminal) }
    ensures refusal { IfOk result (λ refusal. refusal ≡ refusal_in (answer_to_key key terminal.old.terminal)) }
{
    match terminal.press(key) {
        Ok(Pressed::Refused(why)) => Ok(Some(why)),
        Ok(Pressed::Done | Pressed::Send(_)) => Ok(None),
        Err(error) => Err(error),
    }
}

/// Adds the line of a refused key: `refused N`, with the number of the reason.
pub(crate) fn put_refusal(text: &mut String, why: Refusal) -> Result<(), AllocError>
    ensures { OnOk result (string_bytes text.new ≡ string_bytes text.old ++ refusal_text why) }
{
    let number = why.number();
    write!(text, "refused {number}\n")
}

/// Presses a key, and adds `refused N` if it is refused.
pub(crate) fn press(terminal: &mut Terminal, key: Key, text: &mut String) -> Result<(), AllocError>
    ensures pressed { OnOk result (terminal.new.terminal ≡ after_key key terminal.old.terminal) }
    ensures said { OnOk result
        (string_bytes text.new ≡ string_bytes text.old ++ said_of_key (answer_to_key key terminal.old.terminal)) }
{
    match press_once(terminal, key)? {
        Some(why) => put_refusal(text, why),
        None => Ok(()),
    }
}

/// Types the characters of a text, up to the first that is refused, and adds `refused N` for that one.
pub(crate) fn type_text(
    terminal: &mut Terminal,
    typed: &str,
    text: &mut String,
) -> Result<(), AllocError>
    ensures typed { OnOk result (terminal.new.terminal ≡ after_text (chars typed.now) terminal.old.terminal) }
    ensures said { OnOk result
        (string_bytes text.new ≡ string_bytes text.old ++ said_of_text (chars typed.now) terminal.old.terminal) }
{
    for letter in typed.chars() {
        if let Some(why) = press_once(terminal, Key::Char(letter))? {
            return put_refusal(text, why);
        }
    }
    Ok(())
}

/// Adds the rows of the terminal's screen and the line of its cursor. An error if memory is refused.
pub fn put_display(alloc: Global, terminal: &Terminal, text: &mut String) -> Result<(), AllocError>
    ensures { OnOk result (string_bytes text.new ≡ string_bytes text.old ++ screen_text terminal.now.terminal.station) }
{
    let screen = terminal.screen_text(alloc)?;
    text.push_str(screen.as_str())
}

/// Adds the line of the terminal's phase: `idle`, `talking`, `bound LU`, `refused N` or `closed N`.
pub fn put_phase(terminal: &Terminal, text: &mut String) -> Result<(), AllocError>
    ensures { OnOk result
        (string_bytes text.new ≡ string_bytes text.old ++ phase_line (phase_of terminal.now.terminal.link)) }
{
    let phase = terminal.phase();
    write!(text, "{phase}\n")
}

// ---- waits for the host

/// Whether a wait is over: the keyboard is not locked to wait for the host, the host refused an LU, or the connection
/// is closed or lost.
fn is_wait_over(terminal: &Terminal) -> bool
    ensures { result ≡ is_wait_over (phase_of terminal.now.terminal.link) terminal.now.terminal.station.keyboard.lock }
{
    match terminal.phase() {
        TermPhase::Bound(_) => terminal.lock() != Lock::Wait,
        TermPhase::Talking => false,
        TermPhase::Refused(_) | TermPhase::Closed(_) | TermPhase::Idle => true,
    }
}

/// Sends all output of a terminal. If the write fails, detaches the terminal from the connection and returns false.
fn send_all<U: Sink>(terminal: &mut Terminal, up: &mut U) -> bool
    ensures { SendsAll result terminal.old.terminal terminal.new.terminal (U.seen up.old) (U.seen up.new) }
{
    match up.write_all(terminal.out()) {
        Ok(()) => {
            let count = terminal.out().len();
            terminal.sent(count);
            true
        }
        Err(_) => {
            terminal.lost();
            false
        }
    }
}

/// Reads a connection once, into a buffer of `READ_ROOM` bytes.
fn read_host<D: Source>(down: &mut D, buffer: &mut [u8]) -> Answer
    requires { length buffer.old ≡ read_room }
    ensures within { GivesWithin result (length buffer.new) }
    ensures gave { D.gave down.old read_room (bytes_given result buffer.new) result down.new }
    ensures length { length buffer.new ≡ read_room }
{
    down.read(buffer)
}

/// Feeds a terminal the bytes of one read, during a wait. An error if memory is refused.
fn take(terminal: &mut Terminal, bytes: &[u8]) -> Result<(), AllocError>
    requires { is_wait_over (phase_of terminal.old.terminal.link) terminal.old.terminal.station.keyboard.lock ≡ false }
    ensures { OnOk result (IsFed terminal.old.terminal bytes.now terminal.new.terminal) }
{
    match terminal.feed(bytes).stop {
        Stop::Memory => Err(AllocError),
        Stop::Going | Stop::Closed(_) => Ok(()),
    }
}

/// How the reads of a wait ended.
#[derive(Clone, Copy)]
pub(crate) enum WaitEnd {
    /// The wait is over, or the connection is.
    Over,
    /// The wait used all of its reads. The output since the last read isn't sent yet.
    ReadsUsedUp,
}

/// Repeats: sends all output of a terminal, reads once, and feeds the terminal the bytes. Ends when the wait is over or
/// after `MOST_READS` reads.
fn exchange<D: Source, U: Sink>(
    terminal: &mut Terminal,
    down: &mut D,
    up: &mut U,
) -> Result<WaitEnd, AllocError>
    ensures { IfOk result (λ exchanged. HasExchanged D.gave exchanged terminal.old.terminal terminal.new.terminal
        down.old down.new (U.seen up.old) (U.seen up.new)) }
{
    let mut buffer = [0; READ_ROOM];
    for _ in 0..MOST_READS {
        if !send_all(terminal, up) {
            return Ok(WaitEnd::Over);
        }
        if is_wait_over(terminal) {
            return Ok(WaitEnd::Over);
        }
        match read_host(down, &mut buffer) {
            Answer::Gave(count) => take(terminal, &buffer[..count])?,
            Answer::Interrupted => {}
            Answer::Ended | Answer::Failed => {
                terminal.lost();
                return Ok(WaitEnd::Over);
            }
        }
    }
    Ok(WaitEnd::ReadsUsedUp)
}

/// Waits for the host until the keyboard is free, the host refuses an LU or closes the connection, the connection is
/// lost, or 1,000 reads are made. After that all output has been sent. A terminal is detached if its connection ends or
/// fails.
pub(crate) fn wait<D: Source, U: Sink>(
    terminal: &mut Terminal,
    down: &mut D,
    up: &mut U,
) -> Result<(), AllocError>
    ensures { OnOk result (HasWaited D.gave terminal.old.terminal terminal.new.terminal down.old down.new
        (U.seen up.old) (U.seen up.new)) }
{
    if let WaitEnd::ReadsUsedUp = exchange(terminal, down, up)? {
        let _ = send_all(terminal, up);
    }
    Ok(())
}
