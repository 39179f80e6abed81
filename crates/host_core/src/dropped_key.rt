use codes3270::Aid;

/// A key that the operator pressed out of turn, so that the host dropped its data (our profile).
#[derive(Clone, Copy, Debug, PartialEq, Eq)]
pub struct DroppedKey {
    /// The key's attention identifier; `NoAid` for a key without a meaning for panels, as a light pen's.
    pub aid: Aid,
}

// Fills the unused slots of an array of keys.
impl Default for DroppedKey {
    fn default() -> DroppedKey {
        DroppedKey { aid: Aid::NoAid }
    }
}
