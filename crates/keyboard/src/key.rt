//! Keys, and the results of pressing them.
ghost use Rattle.std.specs.Prelude.{◌≡◌};
ghost use Rattle.keyboard.specs.Names.{refusal_number};

use codes3270::{Aid, PaNo, PfNo};
use std::fmt;

/// A key that the operator can press (GA23-0059-07 on keyboard operation). A start is a cell after the attribute of an
/// unprotected field that isn't an attribute itself. Searches for one wrap round at the end of the screen.
#[derive(Clone, Copy, Debug, PartialEq, Eq)]
pub enum Key {
    /// Types a character at the cursor, if code page 037 has it.
    Char(char),
    /// Moves the cursor to the first start after it; the cursor's own cell is tested last. Goes to 0 if there is none.
    Tab,
    /// Moves the cursor to the first start before it; the cursor's own cell is tested last. Goes to 0 if there is none.
    BackTab,
    /// Moves the cursor to the first unprotected cell that isn't an attribute, from the beginning of the next row on;
    /// the last cell of the cursor's own row is tested last. Goes to 0 if there is none.
    NewLine,
    /// Moves the cursor to the start with the lowest address, or to 0 if there is none.
    Home,
    /// Moves the cursor one row up, from the first row to the last.
    CursorUp,
    /// Moves the cursor one row down, from the last row to the first.
    CursorDown,
    /// Moves the cursor one cell to the left, from the first cell to the last.
    CursorLeft,
    /// Moves the cursor one cell to the right, from the last cell to the first.
    CursorRight,
    /// Moves the cursor one cell to the left, from the first cell to the last.
    Backspace,
    /// Turns insert mode on.
    Insert,
    /// Deletes the character at the cursor: the rest of its field, within the cursor's row, moves left by one cell.
    Delete,
    /// Stores nulls from the cursor to the end of its field.
    EraseEof,
    /// Stores nulls in all unprotected cells, resets their fields' MDT, and moves the cursor as Home does.
    EraseInput,
    /// Ends insert mode, and the lock that a refused key set.
    Reset,
    /// Sends its AID with the modified fields.
    Enter,
    /// A program function key: sends its AID with the modified fields.
    Pf(PfNo),
    /// A program attention key: sends its AID alone.
    Pa(PaNo),
    /// Clears the screen and sends its AID alone.
    Clear,
}

/// The keyboard lock: whether keys are accepted (our profile). `{}` prints it as `free`, `wait` or `error`.
#[derive(Clone, Copy, Debug, PartialEq, Eq)]
pub enum Lock {
    /// All keys are accepted.
    Free,
    /// The keyboard waits for the host. No key ends that.
    Wait,
    /// A key was refused, and Reset must be pressed first.
    Error,
}

impl fmt::Display for Lock {
    ghost use Rattle.std.specs.Prelude.{Some};
    ghost use Rattle.keyboard.specs.Names.{lock_name};

    ghost output = { λ lock. Some (lock_name lock) };

    fn fmt<W: fmt::Write>(&self, f: &mut fmt::Formatter<W>) -> fmt::Result {
        match self {
            Lock::Free => f.write_str("free"),
            Lock::Wait => f.write_str("wait"),
            Lock::Error => f.write_str("error"),
        }
    }
}

/// Why a key was refused (our profile). If several reasons hold, the first of `Locked`, `NoCode`, `Protected`,
/// `NotNumeric`, `NoRoom` is given. The first two change nothing; the others only set the lock to `Error`.
#[derive(Clone, Copy, Debug, PartialEq, Eq)]
pub enum Refusal {
    /// The keyboard is locked, and the key isn't Reset.
    Locked,
    /// The cursor is on an attribute or in a protected cell.
    Protected,
    /// The field is numeric, and the character isn't a digit, a point or a minus sign.
    NotNumeric,
    /// Insert mode is on, and the field has no null from the cursor to its end.
    NoRoom,
    /// Code page 037 has no such character.
    NoCode,
}

impl Refusal {
    /// Its number, 1 to 5, in the order in which the refusals are declared.
    pub const fn number(self) -> u8
        ensures { result ≡ refusal_number self }
    {
        match self {
            Refusal::Locked => 1,
            Refusal::Protected => 2,
            Refusal::NotNumeric => 3,
            Refusal::NoRoom => 4,
            Refusal::NoCode => 5,
        }
    }
}

/// Prints the refusal as `locked`, `protected`, `not-numeric`, `no-room` or `no-code`.
impl fmt::Display for Refusal {
    ghost use Rattle.std.specs.Prelude.{Some};
    ghost use Rattle.keyboard.specs.Names.{refusal_name};

    ghost output = { λ refusal. Some (refusal_name refusal) };

    fn fmt<W: fmt::Write>(&self, f: &mut fmt::Formatter<W>) -> fmt::Result {
        match self {
            Refusal::Locked => f.write_str("locked"),
            Refusal::Protected => f.write_str("protected"),
            Refusal::NotNumeric => f.write_str("not-numeric"),
            Refusal::NoRoom => f.write_str("no-room"),
            Refusal::NoCode => f.write_str("no-code"),
        }
    }
}

/// The result of pressing a key.
#[derive(Clone, Copy, Debug, PartialEq, Eq)]
pub enum Pressed {
    /// The key was done, and sends nothing.
    Done,
    /// The key was refused.
    Refused(Refusal),
    /// The key sends this AID. The caller must send the screen's data.
    Send(Aid),
}
