//! The events that a connection keeps until they are reported.
ghost use Rattle.std.specs.Prelude.{◌≡◌, None, Some, false};
ghost use Rattle.host_core.specs.Reports.{events_of, kept_with, newly_bound, no_reports, oldest, reported, with_bound, with_cause, with_question, with_replaced, with_restored, with_sent, without_oldest};

use crate::disbelief::Disbelief;
use crate::dropped_key::DroppedKey;
use crate::event::HostEvent;
use crate::rejection::Rejection;
use arrayvec::ArrayVec;
use codes3270::Aid;
use shadow::RuleBreak;
use std::marker::Model;
use tn3270e_msg::{Cause, Lu, Reason};

/// The most rejections, dropped keys and restorations that are kept. A negotiation sends no more rejections, and no
/// more screens are restored in a row.
const MOST_REPORTS: usize = 8;

/// The unreported events of a connection: rejected requests for an LU, dropped keys and restored screens, each the
/// oldest first; the LU that the terminal was bound to, the rule that it broke, whether characters were replaced in its
/// data, a question was asked and a screen shown, and why the connection was closed. Beside these, whether a question
/// waits for its answer, so that it is asked once.
#[derive(Drop)]
pub(crate) struct Reports {
    rejections: ArrayVec<Rejection, MOST_REPORTS>,
    bound: Option<Lu>,
    dropped_keys: ArrayVec<DroppedKey, MOST_REPORTS>,
    rule_break: Option<RuleBreak>,
    replaced: bool,
    restorations: ArrayVec<Disbelief, MOST_REPORTS>,
    asked: bool,
    shown: bool,
    closed: Option<Cause>,
    waits: bool,
}

impl Model for Reports {
    ghost use Rattle.host_core.specs.Reports.{Reports as ReportsValue};

    ghost Value = { ReportsValue };

    ghost view = { λ reports. record {
      rejections = reports.rejections.items;
      bound = reports.bound;
      dropped_keys = reports.dropped_keys.items;
      rule_break = reports.rule_break;
      replaced = reports.replaced;
      restorations = reports.restorations.items;
      asked = reports.asked;
      shown = reports.shown;
      closed = reports.closed;
      waits = reports.waits;
    } };
}

/// Adds a rejection at the end, unless there are 8.
fn add_rejection(rejections: &mut ArrayVec<Rejection, MOST_REPORTS>, lu: Option<Lu>, reason: Reason)
    ensures { rejections.new.items ≡ kept_with (Some (record { lu = lu; reason = reason })) rejections.old.items }
{
    if rejections.len() < MOST_REPORTS {
        rejections.push(Rejection { lu, reason });
    }
}

/// Adds a dropped key at the end, unless there are 8.
fn add_dropped_key(dropped_keys: &mut ArrayVec<DroppedKey, MOST_REPORTS>, aid: Aid)
    ensures { dropped_keys.new.items ≡ kept_with (Some (record { aid = aid })) dropped_keys.old.items }
{
    if dropped_keys.len() < MOST_REPORTS {
        dropped_keys.push(DroppedKey { aid });
    }
}

/// Adds a restoration at the end, unless there are 8.
fn add_restoration(restorations: &mut ArrayVec<Disbelief, MOST_REPORTS>, why: Disbelief)
    ensures { restorations.new.items ≡ kept_with (Some why) restorations.old.items }
{
    if restorations.len() < MOST_REPORTS {
        restorations.push(why);
    }
}

impl Reports {
    /// No events.
    pub(crate) fn new() -> Reports
        ensures { result ≡ no_reports }
    {
        Reports {
            rejections: ArrayVec::new(),
            bound: None,
            dropped_keys: ArrayVec::new(),
            rule_break: None,
            replaced: false,
            restorations: ArrayVec::new(),
            asked: false,
            shown: false,
            closed: None,
            waits: false,
        }
    }

    /// Keeps the rejection of a request for an LU.
    pub(crate) fn keep_rejection(&mut self, lu: Option<Lu>, reason: Reason)
        ensures { self.new ≡ reported (Some (record { lu = lu; reason = reason })) None None self.old }
    {
        add_rejection(&mut self.rejections, lu, reason);
    }

    /// Keeps a key that was dropped.
    pub(crate) fn keep_dropped_key(&mut self, aid: Aid)
        ensures { self.new ≡ reported None (Some (record { aid = aid })) None self.old }
    {
        add_dropped_key(&mut self.dropped_keys, aid);
    }

    /// Keeps the rule that the terminal broke.
    pub(crate) fn keep_rule_break(&mut self, broken: RuleBreak)
        ensures { self.new ≡ reported None None (Some broken) self.old }
    {
        self.rule_break = Some(broken);
    }

    /// Keeps that characters were replaced in data, if they were.
    pub(crate) fn keep_replaced(&mut self, replaced: bool)
        ensures { self.new ≡ with_replaced replaced self.old }
    {
        if replaced {
            self.replaced = true;
        }
    }

    /// Keeps that data can't be believed for this reason.
    pub(crate) fn keep_restored(&mut self, why: Disbelief)
        ensures { self.new ≡ with_restored (Some why) self.old }
    {
        add_restoration(&mut self.restorations, why);
    }

    /// Keeps the LU that both ends agreed on, if they hadn't agreed before.
    pub(crate) fn keep_bound(&mut self, before: Option<Lu>, after: Option<Lu>)
        ensures { self.new ≡ with_bound (newly_bound before after) self.old }
    {
        if before.is_none() && after.is_some() {
            self.bound = after;
        }
    }

    /// Keeps that the host waits for the answer to a question, if `asks` is set, and it wasn't waiting for it before.
    pub(crate) fn keep_asked(&mut self, asks: bool)
        ensures { self.new ≡ with_question asks self.old }
    {
        self.asked = (asks && !self.waits) || self.asked;
        self.waits = asks || self.waits;
    }

    /// Records that something was sent, a screen if `shown` is set, so that no question waits for its answer.
    pub(crate) fn keep_sent(&mut self, shown: bool)
        ensures { self.new ≡ with_sent shown self.old }
    {
        self.shown = shown || self.shown;
        self.waits = false;
    }

    /// Keeps the cause for which the connection was closed.
    pub(crate) fn keep_closed(&mut self, cause: Cause)
        ensures { self.new ≡ with_cause (Some cause) self.old }
    {
        self.closed = Some(cause);
    }

    /// Removes and returns the oldest rejection.
    fn next_rejection(&mut self) -> Option<Rejection>
        ensures next { result ≡ oldest self.old.rejections }
        ensures removed { self.new ≡ record self.old { rejections = without_oldest self.old.rejections } }
    {
        self.rejections.pop_at(0)
    }

    /// Removes and returns the LU that the terminal was bound to.
    fn next_bound(&mut self) -> Option<Lu>
        ensures next { result ≡ self.old.bound }
        ensures removed { self.new ≡ record self.old { bound = None } }
    {
        std::mem::replace(&mut self.bound, None)
    }

    /// Removes and returns the oldest dropped key.
    fn next_dropped_key(&mut self) -> Option<DroppedKey>
        ensures next { result ≡ oldest self.old.dropped_keys }
        ensures removed { self.new ≡ record self.old { dropped_keys = without_oldest self.old.dropped_keys } }
    {
        self.dropped_keys.pop_at(0)
    }

    /// Removes and returns the rule that the terminal broke.
    fn next_rule_break(&mut self) -> Option<RuleBreak>
        ensures next { result ≡ self.old.rule_break }
        ensures removed { self.new ≡ record self.old { rule_break = None } }
    {
        std::mem::replace(&mut self.rule_break, None)
    }

    /// Forgets that characters were replaced, and answers whether they were.
    fn next_replaced(&mut self) -> bool
        ensures next { result ≡ self.old.replaced }
        ensures removed { self.new ≡ record self.old { replaced = false } }
    {
        std::mem::replace(&mut self.replaced, false)
    }

    /// Removes and returns why the oldest data that can't be believed can't.
    fn next_restoration(&mut self) -> Option<Disbelief>
        ensures next { result ≡ oldest self.old.restorations }
        ensures removed { self.new ≡ record self.old { restorations = without_oldest self.old.restorations } }
    {
        self.restorations.pop_at(0)
    }

    /// Forgets that a question was asked, and answers whether one was.
    fn next_asked(&mut self) -> bool
        ensures next { result ≡ self.old.asked }
        ensures removed { self.new ≡ record self.old { asked = false } }
    {
        std::mem::replace(&mut self.asked, false)
    }

    /// Forgets that a screen was shown, and answers whether it was.
    fn next_shown(&mut self) -> bool
        ensures next { result ≡ self.old.shown }
        ensures removed { self.new ≡ record self.old { shown = false } }
    {
        std::mem::replace(&mut self.shown, false)
    }

    /// Removes and returns the cause for which the connection was closed.
    fn next_closed(&mut self) -> Option<Cause>
        ensures next { result ≡ self.old.closed }
        ensures removed { self.new ≡ record self.old { closed = None } }
    {
        std::mem::replace(&mut self.closed, None)
    }

    /// Removes and returns the next event, in the order of [`HostEvent`].
    pub(crate) fn next_event(&mut self) -> Option<HostEvent>
        ensures next { result ≡ oldest (events_of self.old) }
        ensures removed { events_of self.new ≡ without_oldest (events_of self.old) }
        ensures waits { self.new.waits ≡ self.old.waits }
    {
        if let Some(rejection) = self.next_rejection() {
            return Some(HostEvent::Rejected(rejection));
        }
        if let Some(lu) = self.next_bound() {
            return Some(HostEvent::Bound(lu));
        }
        if let Some(key) = self.next_dropped_key() {
            return Some(HostEvent::KeyDropped(key));
        }
        if let Some(broken) = self.next_rule_break() {
            return Some(HostEvent::RuleBroken(broken));
        }
        if self.next_replaced() {
            return Some(HostEvent::CharacterReplaced);
        }
        if let Some(why) = self.next_restoration() {
            return Some(HostEvent::ScreenRestored(why));
        }
        if self.next_asked() {
            return Some(HostEvent::Asked);
        }
        if self.next_shown() {
            return Some(HostEvent::Shown);
        }
        match self.next_closed() {
            Some(cause) => Some(HostEvent::Closed(cause)),
            None => None,
        }
    }

    /// Drops all events.
    pub(crate) fn clear(&mut self)
        ensures { self.new ≡ no_reports }
    {
        self.rejections.clear();
        self.bound = None;
        self.dropped_keys.clear();
        self.rule_break = None;
        self.replaced = false;
        self.restorations.clear();
        self.asked = false;
        self.shown = false;
        self.closed = None;
        self.waits = false;
    }
}
