/// The rules of our profile for terminals: of a terminal that keeps all three the host's belief is always true.
#[derive(Clone, Copy, Debug, PartialEq, Eq)]
pub enum Rule {
    /// The terminal applies each write that it answers positively, as a whole and in order.
    Applies,
    /// The operator changes only unprotected fields; each change but Erase Input turns MDT on.
    Edits,
    /// The terminal returns with a key exactly the fields with MDT on.
    Sends,
}

/// A break of a rule, and where the terminal's screen shows it (our profile).
#[derive(Clone, Copy, Debug, PartialEq, Eq)]
pub struct RuleBreak {
    /// The rule that the terminal has broken.
    pub rule: Rule,
    /// The address (0-based) of the field attribute at which its screen shows it.
    pub cell: usize,
}
