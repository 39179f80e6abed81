//! What each key does unless a keymap says otherwise.
ghost use Rattle.std.specs.Prelude.{◌≡◌, ◌==◌, ◌<◌, IfSome, position};
ghost use Rattle.tty.specs.StandardKeys.{of_alt, of_control, of_named, of_shifted, pa, pf, shifted_digits, standard};

use crate::action::Action;
use crate::keystroke::Keystroke;
use codes3270::{PaNo, PfNo};
use keyboard::Key;

/// The PF key with a number; nothing if there is none.
fn pf(number: u8) -> Action
    ensures { result ≡ pf number }
{
    match PfNo::new(number) {
        Some(number) => Action::Key(Key::Pf(number)),
        None => Action::Nothing,
    }
}

/// The PA key with a number; nothing if there is none.
fn pa(number: u8) -> Action
    ensures { result ≡ pa number }
{
    match PaNo::new(number) {
        Some(number) => Action::Key(Key::Pa(number)),
        None => Action::Nothing,
    }
}

/// What a control character does.
fn of_control(byte: u8) -> Action
    ensures { result ≡ of_control byte }
{
    match byte {
        0x03 => Action::Key(Key::Clear),
        0x05 => Action::Key(Key::EraseEof),
        0x08 => Action::Key(Key::Backspace),
        0x09 => Action::Key(Key::Tab),
        0x0A => Action::Key(Key::NewLine),
        0x0C => Action::Redraw,
        0x0D => Action::Key(Key::Enter),
        0x10 => Action::Save,
        0x12 => Action::Key(Key::Reset),
        0x14 => Action::Status,
        0x15 => Action::Key(Key::EraseInput),
        0x1D => Action::Quit,
        0x7F => Action::Erase,
        _ => Action::Nothing,
    }
}

/// The place of a byte among the digits' characters with Shift on a US keyboard.
fn shifted_place(byte: u8) -> Option<usize>
    ensures place { result ≡ position (λ other. other == byte) shifted_digits }
    ensures in_range { IfSome result (λ place. place < 12) }
{
    b"!@#$%^&*()_+".iter().position(|other| *other == byte)
}

/// What Alt and the digits' characters with Shift do: PF13 to PF24.
fn of_shifted(byte: u8) -> Action
    ensures { result ≡ of_shifted (position (λ other. other == byte) shifted_digits) }
{
    match shifted_place(byte) {
        Some(place) => pf(place as u8 + 13),
        None => Action::Nothing,
    }
}

/// What Alt and a character do.
fn of_alt(byte: u8) -> Action
    ensures { result ≡ of_alt byte }
{
    match byte {
        b'?' => Action::Help,
        b'1'..=b'3' => pa(byte - b'0'),
        _ => of_shifted(byte),
    }
}

/// What a key with a sequence does, by its place in the table of sequences.
fn of_named(place: u8) -> Action
    ensures { result ≡ of_named place }
{
    match place {
        0..=23 => pf(place + 1),
        24 => pf(7),
        25 => pf(8),
        26 => Action::Key(Key::CursorUp),
        27 => Action::Key(Key::CursorDown),
        28 => Action::Key(Key::CursorRight),
        29 => Action::Key(Key::CursorLeft),
        30 => Action::Key(Key::Home),
        31 => Action::Key(Key::Insert),
        32 => Action::Key(Key::Delete),
        33 => Action::Key(Key::BackTab),
        34..=36 => Action::Key(Key::EraseEof),
        37 => Action::Key(Key::Enter),
        _ => Action::Nothing,
    }
}

/// What a keystroke does that is a key, and no character.
pub(crate) fn standard(keystroke: Keystroke) -> Action
    ensures { result ≡ standard keystroke }
{
    match keystroke {
        Keystroke::Control(byte) => of_control(byte),
        Keystroke::Alt(byte) => of_alt(byte),
        Keystroke::Named(place) => of_named(place),
        Keystroke::Char(_) | Keystroke::Size { .. } => Action::Nothing,
        Keystroke::PasteBegins | Keystroke::PasteEnds | Keystroke::Unknown => Action::Nothing,
    }
}
