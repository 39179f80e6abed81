//! The time limits of a connection: when it is sent IAC NOP, and when it is dropped.
ghost use Rattle.std.specs.Prelude.{◌≡◌};
ghost use Rattle.service_events.specs.Timing.{are_applied, awaited_on, due, heard, is_agreed, is_host, is_operator, is_over, is_unanswered, kept_alive, new_activity};

use host_core::{Phase, Turn};
use jobs::{Seconds, TimeLimits};

/// The milliseconds after which the time limits are applied again although no byte moved.
const LIMITS_INTERVAL: u64 = 100;

/// The limit that ends a connection.
#[derive(Clone, Copy)]
pub enum Overdue {
    /// The ends did not agree on a session in time.
    NoAgreement,
    /// It sent nothing for too long while it didn't wait for the host.
    Idle,
}

/// What the time limits require on a connection.
#[derive(Clone, Copy)]
pub enum Due {
    /// Nothing.
    Nothing,
    /// Send IAC NOP (RFC 854), so that TCP notices if the peer is gone.
    KeepAlive,
    /// Drop the connection.
    Disconnect(Overdue),
}

/// What a connection waits for.
#[derive(Clone, Copy)]
pub enum Awaited {
    /// The end of the TN3270E negotiation.
    Agreement,
    /// A key of the operator, who has the turn.
    Operator,
    /// The decision of the host, which has the turn; an application makes it.
    Decision,
    /// The terminal's response to a pending command of the host, such as a write.
    Response,
}

/// When a connection began, and when it was last active. Times are milliseconds of the server's time.
#[derive(Clone, Copy)]
pub struct Activity {
    /// When it began.
    pub began: u64,
    /// The start of the terminal's silence: the latest of the last received byte, the last time it waited for the host,
    /// and its begin.
    pub silent_since: u64,
    /// When IAC NOP was last due, or when bytes were last received, whichever is later.
    pub kept_alive: u64,
    /// The number of bytes received when the limits were last applied.
    pub received: u64,
    /// The number of bytes sent when the limits were last applied.
    pub sent: u64,
}

/// Whether a limit is reached after this number of milliseconds. A limit of 0 seconds is never reached.
fn is_over(limit: Seconds, millis: u64) -> bool
    ensures { result ≡ is_over limit millis }
{
    let seconds = limit.get() as u64;
    0 < seconds && seconds * 1000 <= millis
}

/// Whether the time limits are applied after a turn: a byte moved in it, or they were last applied long enough before.
pub fn are_applied(moved: bool, applied: u64, now: u64) -> bool
    ensures { result ≡ are_applied moved applied now }
{
    moved || now.saturating_sub(applied) >= LIMITS_INTERVAL
}

/// What a connection waits for, given the phase of its session, whose turn it is, and the number of the command that
/// awaits its response.
pub fn awaited_on(phase: &Phase, turn: Turn, pending: Option<u16>) -> Awaited
    ensures { result ≡ awaited_on phase.now turn pending }
{
    match phase {
        Phase::Bound(_) => match (turn, pending) {
            (Turn::Terminal, None) => Awaited::Operator,
            (Turn::Host, None) => Awaited::Decision,
            (Turn::Terminal | Turn::Host, Some(_)) => Awaited::Response,
        },
        Phase::Free | Phase::Talking | Phase::Closed(_) => Awaited::Agreement,
    }
}

impl Awaited {
    /// Whether the ends have agreed on a session.
    fn is_agreed(self) -> bool
        ensures { result ≡ is_agreed self }
    {
        !matches!(self, Awaited::Agreement)
    }

    /// Whether the connection waits for the operator.
    pub fn is_operator(self) -> bool
        ensures { result ≡ is_operator self }
    {
        matches!(self, Awaited::Operator)
    }

    /// Whether the connection waits for the host: for its decision, or until its command is answered.
    fn is_host(self) -> bool
        ensures { result ≡ is_host self }
    {
        matches!(self, Awaited::Decision | Awaited::Response)
    }
}

impl Activity {
    /// The activity of a connection that begins at `now`.
    pub fn new(now: u64) -> Activity
        ensures { result ≡ new_activity now }
    {
        Activity {
            began: now,
            silent_since: now,
            kept_alive: now,
            received: 0,
            sent: 0,
        }
    }

    /// What the limits require now on a connection that waits for `awaited`. If more than one limit is reached, the
    /// first of `negotiate`, `idle` and `keepalive` counts. A connection that waits for the host isn't idle.
    pub fn due(&self, limits: &TimeLimits, awaited: Awaited, now: u64) -> Due
        ensures { result ≡ due limits.now awaited self.now now }
    {
        let agreed = awaited.is_agreed();
        if !agreed && is_over(limits.negotiate, now.saturating_sub(self.began)) {
            return Due::Disconnect(Overdue::NoAgreement);
        }
        if !awaited.is_host() && is_over(limits.idle, now.saturating_sub(self.silent_since)) {
            return Due::Disconnect(Overdue::Idle);
        }
        if agreed && is_over(limits.keepalive, now.saturating_sub(self.kept_alive)) {
            return Due::KeepAlive;
        }
        Due::Nothing
    }

    /// Whether bytes were received and none were sent since the last `hear`. The peer's TCP then waits for an
    /// acknowledgement that the system delays, since no data carries it. Never while a decision is awaited: what the
    /// host then sends will carry it.
    pub fn is_unanswered(&self, received: u64, sent: u64, awaited: Awaited) -> bool
        ensures { result ≡ is_unanswered self.now received sent awaited }
    {
        !matches!(awaited, Awaited::Decision) && self.received != received && self.sent == sent
    }

    /// Records the number of bytes received and sent until now, and what the connection waits for.
    pub fn hear(&mut self, received: u64, sent: u64, awaited: Awaited, now: u64)
        ensures { self.new ≡ heard received sent awaited now self.old }
    {
        if self.received != received {
            self.received = received;
            self.silent_since = now;
            self.kept_alive = now;
        }
        if awaited.is_host() {
            self.silent_since = now;
        }
        self.sent = sent;
    }

    /// Records that IAC NOP was due at `now`.
    pub fn keep_alive(&mut self, now: u64)
        ensures { self.new ≡ kept_alive now self.old }
    {
        *self = Activity {
            kept_alive: now,
            ..*self
        };
    }
}
