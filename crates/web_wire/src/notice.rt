//! The texts that a page is sent beside drawings (our profile).
ghost use Rattle.std.specs.Prelude.{◌≡◌, IfOk, string_bytes};
ghost use Rattle.web_wire.specs.Notices.{notice_text};

use crate::token::Token;
use std::alloc::{AllocError, Global};

/// A text for a page.
#[derive(Clone, Copy)]
pub enum Notice<'a> {
    /// `size ROWS COLUMNS`: the size of the tty that the next drawings are for.
    Size(u16, u16),
    /// `token TOKEN`: the page may resume the session by it.
    Token(Token),
    /// `heard COUNT`: the server has so many bytes of keys from the pages of the session. It says that it is there, too.
    Heard(u64),
    /// `keymap KEY=ACTION ..`: what keys do that don't do what is usual. The text begins with a blank.
    Keymap(&'a str),
    /// `busy`: all terminals are in use, and the page tries again by itself.
    Busy,
    /// `ended REASON`: the session has ended, and the page doesn't connect again by itself.
    Ended(&'a str),
}

impl Notice<'_> {
    /// Its text. An error if memory is refused.
    pub(crate) fn text(&self, alloc: Global) -> Result<String, AllocError>
        ensures { IfOk result (λ text. string_bytes text ≡ notice_text self.now) }
    {
        match self {
            Notice::Size(rows, columns) => format!(in alloc; "size {rows} {columns}"),
            Notice::Token(token) => token_text(alloc, *token),
            Notice::Heard(count) => format!(in alloc; "heard {count}"),
            Notice::Keymap(words) => format!(in alloc; "keymap{words}"),
            Notice::Busy => format!(in alloc; "busy"),
            Notice::Ended(reason) => format!(in alloc; "ended {reason}"),
        }
    }
}

/// `token TOKEN`.
fn token_text(alloc: Global, token: Token) -> Result<String, AllocError>
    ensures { IfOk result (λ text. string_bytes text ≡ notice_text (Notice.Token token)) }
{
    let digits = token.digits(alloc)?;
    format!(in alloc; "token {digits}")
}
