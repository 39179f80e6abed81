//! The colours and renditions of a screen's cells.
ghost use Rattle.std.specs.Prelude.{◌≡◌};
ghost use Rattle.tty.specs.Looks.{number_of, look_under, look_of, protected_look, unprotected_look};

use codes3270::{Attr, Cell, Display};

/// How a cell looks on the tty (our profile): as c3270 shows a host that names no colours. Unprotected cells are
/// underlined, so that an empty field can be seen. [`Colors`](crate::Colors) says which colour each look has.
#[derive(Clone, Copy, PartialEq, Eq)]
pub enum Look {
    /// For attributes, cells outside of any field, and the status row.
    Plain,
    /// Unprotected at normal intensity, or hidden: green, underlined.
    UnprotectedNormal,
    /// Unprotected at high intensity: red, underlined.
    UnprotectedBright,
    /// Protected at normal intensity, or hidden: blue.
    ProtectedNormal,
    /// Protected at high intensity: bold, white or black.
    ProtectedBright,
    /// Not drawn since the tty was erased: no cell of a screen looks so.
    Erased,
}

impl Look {
    /// Its number, from 0 on in the order of the declaration.
    pub(crate) fn number(self) -> u8
        ensures { result ≡ number_of self }
    {
        match self {
            Look::Plain => 0,
            Look::UnprotectedNormal => 1,
            Look::UnprotectedBright => 2,
            Look::ProtectedNormal => 3,
            Look::ProtectedBright => 4,
            Look::Erased => 5,
        }
    }
}

/// The look of the characters of a protected field.
fn protected_look(display: Display) -> Look
    ensures { result ≡ protected_look display }
{
    match display {
        Display::Bright => Look::ProtectedBright,
        Display::Normal | Display::Detectable | Display::Hidden => Look::ProtectedNormal,
    }
}

/// The look of the characters of an unprotected field.
fn unprotected_look(display: Display) -> Look
    ensures { result ≡ unprotected_look display }
{
    match display {
        Display::Bright => Look::UnprotectedBright,
        Display::Normal | Display::Detectable | Display::Hidden => Look::UnprotectedNormal,
    }
}

/// The look of the characters that an attribute governs; plain if there is none.
fn look_under(over: Option<Attr>) -> Look
    ensures { result ≡ look_under over }
{
    match over {
        None => Look::Plain,
        Some(attr) => {
            if attr.protected {
                protected_look(attr.display)
            } else {
                unprotected_look(attr.display)
            }
        }
    }
}

/// The look of a cell that an attribute governs; plain if the cell is an attribute.
pub(crate) fn look_of(cell: Cell, over: Option<Attr>) -> Look
    ensures { result ≡ look_of cell over }
{
    match cell {
        Cell::Attr(_) => Look::Plain,
        Cell::Char(_) => look_under(over),
    }
}
