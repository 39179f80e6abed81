//! The colours in which a tty shows each look.
ghost use Rattle.std.specs.Prelude.{◌≡◌};
ghost use Rattle.tty.specs.Looks.{colors_named};
ghost use Rattle.tty.specs.Spelling.{spelt_look};

use crate::look::Look;

/// In which colours pictures are drawn (our profile). `Dark` and `Light` name colours of the palette of 256 that xterm
/// and others share, so that neither the tty's own background nor its palette makes a text hard to read.
#[derive(Clone, Copy, Debug, PartialEq, Eq)]
pub enum Colors {
    /// Light colours on black.
    Dark,
    /// Dark colours on white.
    Light,
    /// The tty's own background, and the green, red and blue of its palette.
    Terminal,
    /// The tty's own two colours: bright is bold.
    Mono,
}

/// The SGR of a look in light colours on black.
fn dark(look: Look) -> &'static [u8]
    ensures { result.now ≡ spelt_look Colors.Dark look }
{
    match look {
        Look::Erased => b"\x1b[0m",
        Look::Plain => b"\x1b[0;38;5;252;48;5;16m",
        Look::UnprotectedNormal => b"\x1b[0;4;38;5;40;48;5;16m",
        Look::UnprotectedBright => b"\x1b[0;4;38;5;203;48;5;16m",
        Look::ProtectedNormal => b"\x1b[0;38;5;75;48;5;16m",
        Look::ProtectedBright => b"\x1b[0;1;38;5;231;48;5;16m",
    }
}

/// The SGR of a look in dark colours on white.
fn light(look: Look) -> &'static [u8]
    ensures { result.now ≡ spelt_look Colors.Light look }
{
    match look {
        Look::Erased => b"\x1b[0m",
        Look::Plain => b"\x1b[0;38;5;16;48;5;231m",
        Look::UnprotectedNormal => b"\x1b[0;4;38;5;22;48;5;231m",
        Look::UnprotectedBright => b"\x1b[0;4;38;5;124;48;5;231m",
        Look::ProtectedNormal => b"\x1b[0;38;5;19;48;5;231m",
        Look::ProtectedBright => b"\x1b[0;1;38;5;16;48;5;231m",
    }
}

/// The SGR of a look in the tty's own colours.
fn own(look: Look) -> &'static [u8]
    ensures { result.now ≡ spelt_look Colors.Terminal look }
{
    match look {
        Look::Erased | Look::Plain => b"\x1b[0m",
        Look::UnprotectedNormal => b"\x1b[0;4;32m",
        Look::UnprotectedBright => b"\x1b[0;4;31m",
        Look::ProtectedNormal => b"\x1b[0;34m",
        Look::ProtectedBright => b"\x1b[0;1m",
    }
}

/// The SGR of a look without colours.
fn mono(look: Look) -> &'static [u8]
    ensures { result.now ≡ spelt_look Colors.Mono look }
{
    match look {
        Look::Erased | Look::Plain | Look::ProtectedNormal => b"\x1b[0m",
        Look::UnprotectedNormal => b"\x1b[0;4m",
        Look::UnprotectedBright => b"\x1b[0;1;4m",
        Look::ProtectedBright => b"\x1b[0;1m",
    }
}

impl Colors {
    /// The colours with a name: `dark`, `light`, `terminal` or `mono`.
    pub fn named(name: &str) -> Option<Colors>
        ensures { result ≡ colors_named name.now }
    {
        match name {
            "dark" => Some(Colors::Dark),
            "light" => Some(Colors::Light),
            "terminal" => Some(Colors::Terminal),
            "mono" => Some(Colors::Mono),
            _ => None,
        }
    }

    /// The SGR that makes the characters after it look like this (ECMA-48, 8.3.117).
    pub(crate) fn sgr(self, look: Look) -> &'static [u8]
        ensures { result.now ≡ spelt_look self look }
    {
        match self {
            Colors::Dark => dark(look),
            Colors::Light => light(look),
            Colors::Terminal => own(look),
            Colors::Mono => mono(look),
        }
    }
}
