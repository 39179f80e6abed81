use crate::disbelief::Disbelief;
use crate::dropped_key::DroppedKey;
use crate::rejection::Rejection;
use shadow::RuleBreak;
use tn3270e_msg::{Cause, Lu};

/// What happened on a connection ([`Host::next_event`](crate::Host::next_event)).
#[derive(Clone, Copy)]
pub enum HostEvent {
    /// The host rejected a request for an LU (DEVICE-TYPE REJECT; RFC 1647, section 7).
    Rejected(Rejection),
    /// Both ends agreed, and the terminal is bound to this LU.
    Bound(Lu),
    /// The host dropped the data of a key that was pressed out of turn. With
    /// [`Terminals::Waiting`](crate::Terminals::Waiting) it never does: it closes the connection instead.
    KeyDropped(DroppedKey),
    /// The terminal broke this rule, so the host closes the connection. Only with
    /// [`Terminals::Verified`](crate::Terminals::Verified).
    RuleBroken(RuleBreak),
    /// The client sent characters that its code page lacks (Graphic Escape); each was replaced by SUB. Not with
    /// [`Terminals::Waiting`](crate::Terminals::Waiting), where it closes the connection.
    CharacterReplaced,
    /// The client's data can't be believed for this reason, so the host paints over what it can't believe of the
    /// screen. Only with [`Terminals::Any`](crate::Terminals::Any): else it closes the connection.
    ScreenRestored(Disbelief),
    /// In a turn of serving ([`serve_turn`](crate::serve_turn)) the host began to wait for the answer to a question
    /// ([`Host::question`](crate::Host::question)).
    Asked,
    /// The host sent a screen, or several, since this was last reported.
    Shown,
    /// The host closed the connection for this cause, that of [`Phase::Closed`](crate::Phase::Closed).
    Closed(Cause),
}
