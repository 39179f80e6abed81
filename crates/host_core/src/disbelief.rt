/// Why the data of a terminal can't be believed (our profile).
#[derive(Clone, Copy, Debug, PartialEq, Eq)]
pub enum Disbelief {
    /// It can't be read as inbound data.
    Unreadable,
    /// It has no key.
    NoKey,
    /// It contradicts what the host believes of the screen.
    Contradicts,
}

// Fills the unused slots of an array.
impl Default for Disbelief {
    fn default() -> Disbelief {
        Disbelief::Unreadable
    }
}
