/// Whose turn it is to send a command or a key's data (our profile).
#[derive(Clone, Copy, Debug, PartialEq, Eq)]
pub enum Turn {
    /// The host's: from agreement, from a key's data, or from a command's refusal, until it shows a panel.
    Host,
    /// The terminal's: the operator may press keys.
    Terminal,
}
