/// The result of [`Host::act`](crate::Host::act), `answer`, `note` and `keep_alive` (our profile).
#[derive(Clone, Copy, Debug, PartialEq, Eq)]
pub enum Acted {
    /// A command, or NOP, was appended to the connection's output.
    Sent,
    /// There was nothing to do; nothing has changed.
    Nothing,
    /// Memory was refused; nothing has changed.
    Memory,
}
