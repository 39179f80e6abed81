/// Why `Shadow::heard` rejects inbound data.
#[derive(Clone, Copy, Debug, PartialEq, Eq)]
pub enum HeardFault {
    /// An address in the data isn't that of any believed field's first cell.
    NoSuchField,
    /// No screen that is so believed can have sent the data.
    Contradiction,
}
