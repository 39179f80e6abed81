use codes3270::Aid;

/// Why it is the host's turn (our profile). What the host does then depends on it.
#[derive(Clone, Copy, Debug, PartialEq, Eq)]
pub enum TurnReason {
    /// The ends agreed on a session.
    Agreement,
    /// A key was pressed; the flag says whether its screen was read since, by Read Buffer. A key without a meaning for
    /// panels, as a light pen's, is `NoAid`.
    Key(Aid, bool),
    /// The terminal refused the last command, by a negative response.
    Refusal,
    /// The data of a key couldn't be believed ([`Disbelief`](crate::Disbelief)), so that the screen is restored.
    Restoration,
}
