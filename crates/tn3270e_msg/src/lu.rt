//! Names of logical units (our profile).
ghost use Rattle.std.specs.Prelude.{◌≡◌, ◌≤◌, IsTrue, IfSome, Some, length};
ghost use Rattle.tn3270e_msg.specs.Lu.{is_lu, lu_of, is_lu_letter};

use std::fmt;
use std::marker::Model;

/// The name of a logical unit: one to eight of `A` to `Z`, `0` to `9`, `@`, `#` and `$`, the first
/// not a digit. Contracts see it as the list of its bytes.
#[derive(Clone, Copy, Debug, PartialEq, Eq)]
pub struct Lu {
    letters: [u8; 8],
    size: usize,
}

impl Model for Lu {
    ghost use Rattle.std.specs.Prelude.{ℕ, List, take, length};
    ghost use Rattle.tn3270e_msg.specs.Lu.{padded, IsPadded};

    ghost Value = { List ℕ };

    ghost view = { λ lu. take lu.size lu.letters };

    ghost invariant = { λ lu. IsPadded lu.letters lu.size };

    ghost inverse = { λ name. record { letters = padded name; size = length name } };
}

impl Lu {
    /// Reads a name in upper or lower case. Returns `None` unless it is one to eight of these
    /// characters, the first not a digit.
    pub fn read(bytes: &[u8]) -> Option<Lu>
        ensures value { result ≡ lu_of bytes.now }
        ensures is_lu { IfSome result (λ lu. IsTrue (is_lu lu)) }
    {
        if bytes.len() > 8 {
            return None;
        }
        let mut letters = [0; 8];
        for (place, byte) in bytes.iter().enumerate() {
            letters[place] = byte.to_ascii_uppercase();
        }
        let size = bytes.len();
        if !is_name(&letters[..size]) {
            return None;
        }
        Some(Lu { letters, size })
    }

    /// Its one to eight bytes, in upper case. They are read back as this name.
    pub fn as_bytes(&self) -> &[u8]
        ensures value { result.now ≡ self.now }
        ensures is_lu { IsTrue (is_lu self.now) }
        ensures read_back { lu_of self.now ≡ Some self.now }
    {
        &self.letters[..self.size]
    }
}

/// Prints the name, in upper case.
impl fmt::Display for Lu {
    ghost use Rattle.std.specs.Prelude.{Some};
    ghost use Rattle.tn3270e_msg.specs.Words.{lu_text};

    ghost output = { λ lu. Some (lu_text lu) };

    fn fmt<W: fmt::Write>(&self, f: &mut fmt::Formatter<W>) -> fmt::Result {
        for letter in self.as_bytes() {
            f.write_char(char::from(*letter))?;
        }
        Ok(())
    }
}

fn is_name(name: &[u8]) -> bool
    requires { length name.now ≤ 8 }
    ensures { result ≡ is_lu name.now }
{
    match name {
        [] => false,
        [first, ..] => !first.is_ascii_digit() && name.iter().all(|letter| is_lu_letter(*letter)),
    }
}

fn is_lu_letter(letter: u8) -> bool
    ensures { result ≡ is_lu_letter letter }
{
    matches!(letter, b'A'..=b'Z' | b'0'..=b'9' | b'@' | b'#' | b'$')
}
