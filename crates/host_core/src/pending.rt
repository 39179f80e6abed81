ghost use Rattle.std.specs.Prelude.{◌≡◌, ℕ, List};
ghost use Rattle.codes3270.specs.Size.{ScreenSize};
ghost use Rattle.host_core.specs.Does.{is_paint};
ghost use Rattle.host_core.specs.Items.{is_paint_or_read};
ghost use Rattle.host_core.specs.Representation.{number_kept, pending_in};

/// The command that waits for its answer, with its sequence number (our profile).
#[derive(Clone, Copy, PartialEq, Eq)]
pub(crate) enum Pending {
    /// There is none.
    Nothing,
    /// A paint.
    Writing(u16),
    /// A Read Buffer.
    Reading(u16),
    /// A note.
    Noting(u16),
}

impl Pending {
    /// The command's sequence number, if there is one.
    pub(crate) fn number(self) -> Option<u16>
        ensures { result ≡ number_kept self }
    {
        match self {
            Pending::Nothing => None,
            Pending::Writing(number) | Pending::Reading(number) | Pending::Noting(number) => {
                Some(number)
            }
        }
    }

    /// Whether a paint waits for its answer.
    pub(crate) fn is_paint(self) -> bool
        ensures { (size : ScreenSize) (sent : List ℕ) → result ≡ is_paint (pending_in size self sent) }
    {
        match self {
            Pending::Writing(_) => true,
            Pending::Nothing | Pending::Reading(_) | Pending::Noting(_) => false,
        }
    }

    /// Whether a paint or a Read Buffer waits for its answer.
    pub(crate) fn is_paint_or_read(self) -> bool
        ensures { (size : ScreenSize) (sent : List ℕ) → result ≡ is_paint_or_read (pending_in size self sent) }
    {
        match self {
            Pending::Writing(_) | Pending::Reading(_) => true,
            Pending::Nothing | Pending::Noting(_) => false,
        }
    }
}
