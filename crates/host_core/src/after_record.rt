//! What a record from the terminal leads to.
ghost use Rattle.std.specs.Prelude.{◌≡◌};
ghost use Rattle.host_core.specs.Representation.{silent, step_of};
ghost use Rattle.host_core.specs.Session.{Session as SessionValue};

use crate::disbelief::Disbelief;
use codes3270::Aid;
use shadow::RuleBreak;
use tn3270e_msg::Cause;

/// What a record leads to, beside the session's new state.
#[derive(Clone, Copy)]
pub(crate) enum AfterRecord {
    /// The session goes on.
    GoesOn,
    /// The record closes the connection for this cause.
    Closes(Cause),
    /// The data of a second key was dropped; this is its AID.
    Drops(Aid),
    /// The screen in the record shows that the terminal broke this rule, so the connection closes.
    Breaks(RuleBreak),
    /// The data was dropped, since it can't be believed for this reason.
    Restores(Disbelief),
}

impl AfterRecord {
    /// The effect of a record that drops no key and shows no broken rule.
    pub(crate) fn of(closes: Option<Cause>) -> AfterRecord
        ensures { (conn : SessionValue) → step_of conn result ≡ silent conn closes }
    {
        match closes {
            None => AfterRecord::GoesOn,
            Some(cause) => AfterRecord::Closes(cause),
        }
    }
}
