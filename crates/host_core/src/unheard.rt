ghost use Rattle.std.specs.Prelude.{◌≡◌};
ghost use Rattle.host_core.specs.Takes.{may_be_read, may_have_changed};

/// What may have happened to a terminal's screen since the host last heard of it (our profile). What the host
/// believes when it shows a panel depends on it.
#[derive(Clone, Copy, Debug, PartialEq, Eq)]
pub enum Unheard {
    /// Nothing: the terminal waits.
    Nothing,
    /// Input may have been changed.
    Input,
    /// The screen was cleared, out of turn.
    Clear,
}

impl Unheard {
    /// Whether anything may have happened.
    pub(crate) fn may_have_changed(self) -> bool
        ensures { result ≡ may_have_changed self }
    {
        match self {
            Unheard::Nothing => false,
            Unheard::Input | Unheard::Clear => true,
        }
    }

    /// Whether the screen may still be read: it wasn't cleared.
    pub(crate) fn may_be_read(self) -> bool
        ensures { result ≡ may_be_read self }
    {
        match self {
            Unheard::Nothing | Unheard::Input => true,
            Unheard::Clear => false,
        }
    }
}
