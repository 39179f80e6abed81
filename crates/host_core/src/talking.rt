//! How the host takes the items of the Telnet stream: the negotiation's, and records.
ghost use Rattle.std.specs.Prelude.{◌≡◌, ◌≤◌, IfNone, None};
ghost use Rattle.std.specs.Vec.{vec_capacity};
ghost use Rattle.lu_pool.specs.Asking.{answer_to};
ghost use Rattle.lu_pool.specs.Holders.{granted_if};
ghost use Rattle.lu_pool.specs.Pool.{HoldsNone};
ghost use Rattle.telnet_wire.specs.Items.{IsWithin, item_of};
ghost use Rattle.tn3270e_msg.specs.Header.{record_limit};
ghost use Rattle.tn3270e_msg.specs.HostTable.{granted};
ghost use Rattle.tn3270e_msg.specs.Writing.{HasRoomForReply};
ghost use Rattle.host_core.specs.Representation.{ItemTaken, step_of};
ghost use Rattle.host_core.specs.Parts.{TalkTaken};
ghost use Rattle.host_core.specs.Reports.{reported, with_restored};
ghost use Rattle.host_core.specs.Session.{Session as SessionValue};
ghost use Rattle.host_core.specs.Sound.{HoldsJust, OthersHold};
ghost use Rattle.host_core.specs.Takes.{granted_by};

use crate::after_record::AfterRecord;
use crate::rejection::keep_rejection;
use crate::reports::Reports;
use crate::session::Session;
use lu_pool::Pool;
use telnet_wire::Item;
use tn3270e_msg::{Cause, HostTalk, Lu, Reason, Reply, put_reply};

/// Takes an item of the connection's stream, and answers the cause if it closes the connection; its LU is still held
/// then. Records before agreement are dropped.
pub(crate) fn take_item(
    pool: &mut Pool,
    conn: usize,
    session: &mut Session,
    out: &mut Vec<u8>,
    reports: &mut Reports,
    item: &Item<'_>,
) -> Option<Cause>
    requires room { HasRoomForReply out.old }
    requires holder { HoldsJust conn pool.old (granted session.old.talk.state) }
    requires few { IsWithin record_limit (item_of item.now) }
    ensures taken { ItemTaken conn pool.old session.old
        (item_of item.now) out.old out.new result pool.new session.new reports.old reports.new }
    ensures holds { IfNone result (HoldsJust conn pool.new (granted session.new.talk.state)) }
    ensures others { OthersHold conn pool.old pool.new }
    ensures panel { session.new.panel ≡ session.old.panel }
    ensures size { session.new.size ≡ session.old.size }
    ensures capacity { vec_capacity out.old ≤ vec_capacity out.new }
{
    let Item::Record(bytes) = item else {
        let before = session.lu();
        let closes = talk_on(pool, conn, &mut session.talk, out, reports, item);
        reports.keep_bound(before, session.lu());
        return closes;
    };
    if session.talk.is_agreed() {
        let (after, replaces) = session.take_record(bytes);
        reports.keep_replaced(replaces);
        keep_report(reports, after)
    } else {
        None
    }
}

/// Records a dropped key, a broken rule or a restored screen for a report, and answers the cause if the record closes
/// the connection.
fn keep_report(reports: &mut Reports, after: AfterRecord) -> Option<Cause>
    ensures closes { (conn : SessionValue) → result ≡ (step_of conn after).closes }
    ensures kept { (conn : SessionValue)
        → reports.new ≡ with_restored (step_of conn after).restores
        (reported None (step_of conn after).drops (step_of conn after).breaks reports.old) }
{
    match after {
        AfterRecord::GoesOn => None,
        AfterRecord::Closes(cause) => Some(cause),
        AfterRecord::Drops(aid) => {
            reports.keep_dropped_key(aid);
            None
        }
        AfterRecord::Breaks(broken) => {
            reports.keep_rule_break(broken);
            Some(Cause::RuleBroken)
        }
        AfterRecord::Restores(why) => {
            reports.keep_restored(why);
            None
        }
    }
}

/// Takes an item of the negotiation, keeps a rejection for a report, and answers the cause if the connection closes.
fn talk_on(
    pool: &mut Pool,
    conn: usize,
    talk: &mut HostTalk,
    out: &mut Vec<u8>,
    reports: &mut Reports,
    item: &Item<'_>,
) -> Option<Cause>
    requires room { HasRoomForReply out.old }
    requires holder { HoldsJust conn pool.old (granted talk.old.state) }
    ensures taken { TalkTaken conn pool.old talk.old
        (item_of item.now) out.old out.new result pool.new talk.new reports.old reports.new }
    ensures holds { IfNone result (HoldsJust conn pool.new (granted talk.new.state)) }
    ensures others { OthersHold conn pool.old pool.new }
    ensures capacity { vec_capacity out.old ≤ vec_capacity out.new }
{
    match talk.take(item) {
        Reply::AskPool(name) => {
            let answer = ask(pool, conn, &name);
            let reply = talk.answered(answer);
            keep_rejection(reports, &reply, item);
            put_reply(out, &reply)
        }
        reply => {
            keep_rejection(reports, &reply, item);
            put_reply(out, &reply)
        }
    }
}

/// Asks the pool for the LU of this name, or for any if there is no name.
fn ask(pool: &mut Pool, conn: usize, name: &Option<Lu>) -> Result<Lu, Reason>
    requires { HoldsNone pool.old conn }
    ensures answer { result ≡ answer_to pool.old name.now }
    ensures becomes { pool.new ≡ granted_if conn (granted_by result) pool.old }
    ensures holds { HoldsJust conn pool.new (granted_by result) }
    ensures others { OthersHold conn pool.old pool.new }
{
    match name {
        Some(lu) => pool.ask(conn, Some(lu.as_bytes())),
        None => pool.ask(conn, None),
    }
}
