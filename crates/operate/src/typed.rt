//! What an operator types, and the keys that are typed ahead.
ghost use Rattle.std.specs.Prelude.{◌≡◌, ◌<◌, ◌∷◌, ◌++◌, [], length};

use keyboard::Key;
use std::marker;

/// What an operator types: a key of the 3278, or the action Erase, which is keys of the 3278 when it is done.
#[derive(Clone, Copy, Debug)]
pub enum Typed {
    /// Erase.
    Erase,
    /// A key.
    Key(Key),
}

/// How far a pasted text is.
#[derive(Clone, Copy, Debug)]
pub enum Paste {
    /// There is none.
    Off,
    /// Its last key was pressed with the cursor at this address.
    From(u16),
    /// The rest of it is left out.
    Cut,
}

/// The most keys that are kept while the keyboard waits for the host.
pub(crate) const MOST_AHEAD: usize = 256;

/// Keys that were typed ahead, at most 256, for which there is room from the start. Contracts see the list.
#[derive(Drop)]
pub(crate) struct Typeahead {
    keys: [Typed; MOST_AHEAD],
    count: usize,
}

impl marker::Model for Typeahead {
    ghost use Rattle.std.specs.Prelude.{List, take, ◌≤◌};
    ghost use Rattle.operate.specs.declared.typed.Typed.{Typed};

    ghost Value = { List Typed };

    ghost view = { λ ahead. take ahead.count ahead.keys };

    ghost invariant = { λ ahead. ahead.count ≤ 256 };
}

impl Typeahead {
    /// No key.
    pub(crate) fn new() -> Typeahead
        ensures { result ≡ [] }
    {
        Typeahead {
            keys: [Typed::Erase; MOST_AHEAD],
            count: 0,
        }
    }

    /// The number of keys.
    pub(crate) fn len(&self) -> usize
        ensures { result ≡ length self.now }
    {
        self.as_slice().len()
    }

    /// The keys.
    pub(crate) fn as_slice(&self) -> &[Typed]
        ensures { result.now ≡ self.now }
    {
        &self.keys[..self.count]
    }

    /// Adds a key.
    pub(crate) fn push(&mut self, typed: Typed)
        requires { length self.old < 256 }
        ensures { self.new ≡ self.old ++ typed ∷ [] }
    {
        self.keys[self.count] = typed;
        self.count += 1;
    }

    /// Drops all keys.
    pub(crate) fn clear(&mut self)
        ensures { self.new ≡ [] }
    {
        self.count = 0;
    }
}
