//! Texts in the host's code (code page 037).
ghost use Rattle.std.specs.Prelude.{◌≡◌, ◌<◌, [], List, ℕ, IfOk, OnOk, OnErr, chars, length};
ghost use Rattle.panels.specs.Characters.{AreCharacters, codes_of};

use codes3270::from_latin1;
use std::alloc::{AllocError, Global};
use std::marker::Model;

/// A text in the host's code (code page 037): bytes that a cell can hold, without nulls.
#[derive(Debug, Drop)]
pub struct Characters {
    bytes: Vec<u8>,
}

impl Model for Characters {
    ghost Value = { List ℕ };

    ghost view = { λ characters. characters.bytes.items };

    ghost invariant = { λ characters. AreCharacters characters.bytes.items };
}

impl Clone for Characters {
    ghost is_clone = { λ old new. new ≡ old };

    fn clone(&self) -> Result<Characters, AllocError> {
        let bytes = self.bytes.clone()?;
        Ok(Characters { bytes })
    }
}

impl Characters {
    /// A copy of these bytes. Each must be storable in a cell and not null. Err only if memory is refused.
    pub fn copy(alloc: Global, bytes: &[u8]) -> Result<Characters, AllocError>
        requires { AreCharacters bytes.now }
        ensures { IfOk result (λ characters. characters ≡ bytes.now) }
    {
        let bytes = bytes.to_vec(alloc)?;
        Ok(Characters { bytes })
    }

    /// No characters. This takes no memory.
    pub(crate) fn new(alloc: Global) -> Characters
        ensures { result ≡ [] }
    {
        let bytes = Vec::new(alloc);
        Characters { bytes }
    }

    /// Replaces the text by a copy of these bytes, each of which must be storable and not null. Memory is needed only
    /// if they are more than before; if it is refused, nothing changes.
    pub(crate) fn replace(&mut self, bytes: &[u8]) -> Result<(), AllocError>
        requires { AreCharacters bytes.now }
        ensures ok { OnOk result (self.new ≡ bytes.now) }
        ensures memory { OnErr result (length self.old < length bytes.now) }
        ensures err { OnErr result (self.new ≡ self.old) }
    {
        let more = bytes.len().saturating_sub(self.bytes.len());
        self.bytes.reserve(more)?;
        self.bytes.clear();
        self.bytes.extend_from_slice(bytes).unwrap();
        Ok(())
    }

    /// The codes of a text's characters; a character without a code is left out.
    pub(crate) fn of_text(alloc: Global, text: &str) -> Result<Characters, AllocError>
        ensures { IfOk result (λ characters. characters ≡ codes_of (chars text.now)) }
    {
        let bytes = text
            .chars()
            .filter_map(|character| from_latin1(character))
            .collect(alloc)?;
        Ok(Characters { bytes })
    }

    /// The bytes, one for each character.
    pub fn as_slice(&self) -> &[u8]
        ensures bytes { result.now ≡ self.now }
        ensures characters { AreCharacters result.now }
    {
        self.bytes.as_slice()
    }
}
