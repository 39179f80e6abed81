//! What keystrokes do.
use keyboard::Key;

/// What an operator's key does (our profile).
#[derive(Clone, Copy, Debug, PartialEq, Eq)]
pub enum Action {
    /// Presses a key of the 3278.
    Key(Key),
    /// Erases the character before the cursor, as c3270's `Erase`: Cursor Left and Delete, unless the cursor is at the
    /// first character of a field.
    Erase,
    /// Draws the whole screen again.
    Redraw,
    /// Saves the screen, if there is a file for it.
    Save,
    /// Shows the status row, if the tty has no row for it.
    Status,
    /// Shows the table of keys.
    Help,
    /// Ends the program.
    Quit,
    /// Does nothing.
    Nothing,
}
