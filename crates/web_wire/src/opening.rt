//! The first message of a page (our profile).
ghost use Rattle.std.specs.Prelude.{◌≡◌};
ghost use Rattle.web_wire.specs.Openings.{model_of, new_session, session_of, opening_of};

use crate::token::Token;
use codes3270::Model;
use tn3270e_msg::Lu;

/// What a page asks for in its first message.
#[derive(Clone, Copy)]
pub enum Opening {
    /// `open MODEL [LU]`: a new session, of this model, and for this LU if the page names one.
    New(Model, Option<Lu>),
    /// `resume TOKEN`: the session that has this token.
    Resume(Token),
}

impl Opening {
    /// Reads `open` with the digit of a model, 2 to 5, and then the name of an LU or nothing, or `resume` with a token
    /// of 32 hexadecimal digits. There is one blank between the words. `None` if the text isn't that.
    pub fn read(text: &[u8]) -> Option<Opening>
        ensures { result ≡ opening_of text.now }
    {
        if text.starts_with(b"open ") {
            session_of(&text[5..])
        } else if text.starts_with(b"resume ") {
            Some(Opening::Resume(Token::read(&text[7..])?))
        } else {
            None
        }
    }
}

/// The session that the words after `open` ask for.
fn session_of(words: &[u8]) -> Option<Opening>
    ensures { result ≡ session_of words.now }
{
    match words {
        [] => None,
        [digit, rest @ ..] => new_session(model_of(*digit)?, rest),
    }
}

/// A session of this model, for the LU that the rest names.
fn new_session(model: Model, rest: &[u8]) -> Option<Opening>
    ensures { result ≡ new_session model rest.now }
{
    match rest {
        [] => Some(Opening::New(model, None)),
        [b' ', name @ ..] => Some(Opening::New(model, Some(Lu::read(name)?))),
        _ => None,
    }
}

/// The model with this digit.
fn model_of(digit: u8) -> Option<Model>
    ensures { result ≡ model_of digit }
{
    match digit {
        b'2' => Some(Model::M2),
        b'3' => Some(Model::M3),
        b'4' => Some(Model::M4),
        b'5' => Some(Model::M5),
        _ => None,
    }
}
