//! The counts that `serve` keeps.
ghost use Rattle.std.specs.Prelude.{◌≡◌, ◌-◌, ◌<◌};
ghost use Rattle.tn3270e_msg.specs.Words.{cause_number};
ghost use Rattle.service_events.specs.Metrics.{bucket_of, counted, failure_place, nothing_counted, raised, reason_place, with_end, with_failure, with_paint, with_usage};

use crate::limits::Overdue;
use crate::notice::{Ending, Notice};
use application_http::ReplyFault;
use applications::{Absence, AnswerFault, ApplicationFault};
use tn3270e_msg::{Cause, Reason};

/// The bounds of the times from a question to its answer, in milliseconds.
const BOUNDS: [u64; 12] = [
    5, 10, 25, 50, 100, 250, 500, 1_000, 2_500, 5_000, 10_000, 30_000,
];

/// What a service has counted since it began. A count stops at its greatest value, 2^64 - 1.
#[derive(Clone, Copy)]
pub struct Metrics {
    /// Terminal connections that are open now.
    pub current: u64,
    /// Terminal connections that were opened.
    pub begun: u64,
    /// Connections that the host closed, by cause, in the order of the causes' numbers.
    pub closed: [u64; 10],
    /// Connections that were lost.
    pub lost: u64,
    /// Connections that were dropped by the time limit `idle`.
    pub idle: u64,
    /// Connections that were dropped by the time limit `negotiate`.
    pub no_agreement: u64,
    /// Connections that were closed because the application ended the session.
    pub by_application: u64,
    /// Connections that were closed at once, because no number was free.
    pub turned_away: u64,
    /// Rejected requests for an LU, by reason: DEVICE-IN-USE, INV-NAME, INV-DEVICE-TYPE, UNSUPPORTED-REQ (RFC 1647,
    /// section 3), and any other, which our host doesn't give.
    pub rejected: [u64; 5],
    /// Keys that were dropped, because an earlier key wasn't answered yet.
    pub dropped_keys: u64,
    /// Terminals that broke a rule, if the host verifies them.
    pub rule_breaks: u64,
    /// Screens that were painted over, since a client's data couldn't be believed.
    pub restored_screens: u64,
    /// Screens sent after the first one of a connection.
    pub turns: u64,
    /// Screens sent.
    pub paints: u64,
    /// Bytes received.
    pub received: u64,
    /// Bytes sent.
    pub sent: u64,
    /// Questions to the application.
    pub asked: u64,
    /// Questions that it didn't answer, by reason: refused, broken, timeout, no memory, a status that isn't 200, any
    /// other fault of the reply, and an operator who left.
    pub failed: [u64; 7],
    /// Answers, by the time from the question to the answer: those at most the first bound, those above each bound but
    /// not the next one, and those above the last bound.
    pub answered: [u64; 13],
    /// The sum of these times, in milliseconds.
    pub answer_millis: u64,
}

/// Raises a count, to at most 2^64 - 1.
fn raise(count: &mut u64, by: u64)
    ensures { count.new ≡ raised count.old by }
{
    *count = count.saturating_add(by);
}

/// The place of a cause among the causes.
fn cause_place(cause: Cause) -> usize
    ensures place { result ≡ cause_number cause - 1 }
    ensures range { result < 10 }
{
    usize::from(cause.number() - 1)
}

/// The place of a reason among those of `rejected`.
fn reason_place(reason: Reason) -> usize
    ensures place { result ≡ reason_place reason }
    ensures range { result < 5 }
{
    match reason.0 {
        1 => 0,
        3 => 1,
        4 => 2,
        7 => 3,
        _ => 4,
    }
}

/// The place of a failure's reason among those of `failed`.
fn failure_place(fault: &ApplicationFault) -> usize
    ensures place { result ≡ failure_place fault.now }
    ensures range { result < 7 }
{
    use ApplicationFault::{Absent, Answer, Left, Reply};
    match fault {
        Absent(Absence::Refused) => 0,
        Absent(Absence::Broken) | Reply(ReplyFault::CutShort) => 1,
        Absent(Absence::Late) => 2,
        Absent(Absence::NoMemory) | Reply(ReplyFault::Memory) | Answer(AnswerFault::Memory) => 3,
        Reply(ReplyFault::Status(_)) => 4,
        Reply(_) | Answer(_) => 5,
        Left => 6,
    }
}

/// The place of a time in milliseconds among those of `answered`: the number of bounds below it.
fn bucket_of(millis: u64) -> usize
    ensures place { result ≡ bucket_of millis }
    ensures range { result < 13 }
{
    BOUNDS.iter().filter(|bound| **bound < millis).count()
}

impl Metrics {
    /// All counts are 0.
    pub fn new() -> Metrics
        ensures { result ≡ nothing_counted }
    {
        Metrics {
            current: 0,
            begun: 0,
            closed: [0; 10],
            lost: 0,
            idle: 0,
            no_agreement: 0,
            by_application: 0,
            turned_away: 0,
            rejected: [0; 5],
            dropped_keys: 0,
            rule_breaks: 0,
            restored_screens: 0,
            turns: 0,
            paints: 0,
            received: 0,
            sent: 0,
            asked: 0,
            failed: [0; 7],
            answered: [0; 13],
            answer_millis: 0,
        }
    }

    /// Counts a session that ends.
    fn end(&mut self, ending: Ending)
        ensures { self.new ≡ with_end ending self.old }
    {
        self.current = self.current.saturating_sub(1);
        match ending {
            Ending::Closed(cause) => raise(&mut self.closed[cause_place(cause)], 1),
            Ending::Lost => raise(&mut self.lost, 1),
            Ending::Dropped(Overdue::Idle) => raise(&mut self.idle, 1),
            Ending::Dropped(Overdue::NoAgreement) => raise(&mut self.no_agreement, 1),
            Ending::ByApplication => raise(&mut self.by_application, 1),
            // The service ends, or no LU was granted.
            Ending::Stopped | Ending::Reloaded => {}
        }
    }

    /// Counts a notice.
    pub fn count(&mut self, notice: &Notice)
        ensures { self.new ≡ counted notice.now self.old }
    {
        match notice {
            Notice::TurnedAway(_) => raise(&mut self.turned_away, 1),
            Notice::Connected(_) => {
                raise(&mut self.current, 1);
                raise(&mut self.begun, 1);
            }
            Notice::Rejected(_, rejection) => {
                raise(&mut self.rejected[reason_place(rejection.reason)], 1)
            }
            Notice::KeyDropped(_, _) => raise(&mut self.dropped_keys, 1),
            Notice::RuleBroken(_, _) => raise(&mut self.rule_breaks, 1),
            Notice::ScreenRestored(_, _) => raise(&mut self.restored_screens, 1),
            Notice::Ended(_, ending, usage) => {
                self.end(*ending);
                self.count_usage(usage.turns, usage.received, usage.sent);
            }
            Notice::Asked => raise(&mut self.asked, 1),
            Notice::Answered(millis) => {
                raise(&mut self.answered[bucket_of(*millis)], 1);
                raise(&mut self.answer_millis, *millis);
            }
            Notice::Listening(_)
            | Notice::BadProxyHeader(_, _)
            | Notice::Bound(_, _)
            | Notice::CharacterReplaced(_)
            | Notice::Commanded(_)
            | Notice::Reloaded(_)
            | Notice::LogLinesDropped(_) => {}
        }
    }

    /// Counts a question that the application didn't answer.
    pub fn count_failure(&mut self, fault: &ApplicationFault)
        ensures { self.new ≡ with_failure fault.now self.old }
    {
        raise(&mut self.failed[failure_place(fault)], 1);
    }

    /// Counts a screen that was sent.
    pub fn count_paint(&mut self)
        ensures { self.new ≡ with_paint self.old }
    {
        raise(&mut self.paints, 1);
    }

    /// Counts what a connection used: turns, and bytes in each direction.
    pub fn count_usage(&mut self, turns: u64, received: u64, sent: u64)
        ensures { self.new ≡ with_usage turns received sent self.old }
    {
        raise(&mut self.turns, turns);
        raise(&mut self.received, received);
        raise(&mut self.sent, sent);
    }
}
