/// What is believed of a field's characters, with respect to the text that `Shadow::text` gives.
#[derive(Clone, Copy, Debug, PartialEq, Eq)]
pub enum Fact {
    /// They are that text.
    Exact,
    /// They are that text, or all nulls.
    ExactOrNulls,
    /// They are that text once nulls are left out.
    Text,
    /// They are that text once nulls are left out, or all nulls.
    TextOrNulls,
    /// There is no such text: single characters may be known (`Shadow::known`), others may be anything.
    Any,
}
