/// What is known of the modified data tag (MDT) of a field attribute.
#[derive(Clone, Copy, Debug, PartialEq, Eq)]
pub enum MdtState {
    On,
    Off,
    Unknown,
}
