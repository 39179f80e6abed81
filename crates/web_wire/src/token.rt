//! The token by which a page resumes its session (our profile).
ghost use Rattle.std.specs.Prelude.{◌≡◌, IfOk, string_bytes};
ghost use Rattle.hex.specs.Hex.{encode_lower};
ghost use Rattle.web_wire.specs.Openings.{token_of};

use hex::FromHex;
use std::alloc::{AllocError, Global};
use std::marker::Model;

/// A token of 128 bits. Contracts see its 16 bytes.
#[derive(Clone, Copy, PartialEq, Eq)]
pub struct Token {
    bytes: [u8; 16],
}

impl Model for Token {
    ghost use Rattle.std.specs.Prelude.{ℕ, List};

    ghost Value = { List ℕ };

    ghost view = { λ token. token.bytes };

    ghost inverse = { λ bytes. record { bytes = bytes } };
}

impl Token {
    /// The token with these bytes, which should be random.
    pub fn new(bytes: [u8; 16]) -> Token
        ensures { result ≡ bytes }
    {
        Token { bytes }
    }

    /// Reads 32 hexadecimal digits, in upper or lower case. `None` if the text isn't that.
    pub fn read(text: &[u8]) -> Option<Token>
        ensures { result ≡ token_of text.now }
    {
        match <[u8; 16] as FromHex>::from_hex(text) {
            Ok(bytes) => Some(Token { bytes }),
            Err(_) => None,
        }
    }

    /// Its bytes.
    pub fn as_bytes(&self) -> &[u8; 16]
        ensures { result.now ≡ self.now }
    {
        &self.bytes
    }

    /// Its 32 hexadecimal digits, in lower case. They are read back as this token.
    pub fn digits(self, alloc: Global) -> Result<String, AllocError>
        ensures { IfOk result (λ digits. string_bytes digits ≡ encode_lower self) }
    {
        hex::encode(alloc, self.bytes)
    }
}
