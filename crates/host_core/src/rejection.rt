//! The requests for an LU that the host rejected.
ghost use Rattle.std.specs.Prelude.{◌≡◌, None};
ghost use Rattle.telnet_wire.specs.Items.{item_of};
ghost use Rattle.tn3270e_msg.specs.Lent.{message_of, name_of};
ghost use Rattle.tn3270e_msg.specs.Talk.{Comes, Hears, message_says};
ghost use Rattle.host_core.specs.Rejections.{lu_asked, lu_named, reason_in, reason_of, rejection_by};
ghost use Rattle.host_core.specs.Reports.{reported};

use crate::reports::Reports;
use telnet_wire::Item;
use tn3270e_msg::{Lu, Name, OwnedMessage, Reason, Reply, SubMessage, read_sub};

/// A DEVICE-TYPE REQUEST that the host rejected (RFC 1647, section 7).
#[derive(Clone, Copy)]
pub struct Rejection {
    /// The LU that the request names with CONNECT; None if it names none, or if the name isn't that of an LU.
    pub lu: Option<Lu>,
    /// Why the request was rejected.
    pub reason: Reason,
}

// Fills the unused slots of an array of rejections.
impl Default for Rejection {
    fn default() -> Rejection {
        Rejection {
            lu: None,
            reason: Reason(0),
        }
    }
}

/// The LU that CONNECT names; None after ASSOCIATE, if no name is given, or if it isn't the name of an LU.
fn lu_named(name: Option<Name<'_>>) -> Option<Lu>
    ensures { result ≡ lu_named (name_of name.entry) }
{
    match name {
        Some(Name::Connect(name)) => Lu::read(name),
        Some(Name::Associate(_)) => None,
        None => None,
    }
}

/// The LU that a message asks for, if it is a DEVICE-TYPE REQUEST that names one.
fn lu_asked_in(message: SubMessage<'_>) -> Option<Lu>
    ensures { result ≡ lu_asked (message_says (message_of message.entry)) }
{
    match message {
        SubMessage::TypeRequest { name, .. } => lu_named(name),
        SubMessage::SendType => None,
        SubMessage::TypeIs { .. } => None,
        SubMessage::TypeReject(_) => None,
        SubMessage::FunRequest(_) => None,
        SubMessage::FunIs(_) => None,
    }
}

/// The LU that an item asks for, if it is a DEVICE-TYPE REQUEST that names one.
fn lu_asked(item: &Item<'_>) -> Option<Lu>
    ensures { (comes : Comes) → Hears (item_of item.now) comes → result ≡ lu_asked comes }
{
    let Item::Sub(bytes) = *item else {
        return None;
    };
    match read_sub(bytes) {
        Ok(message) => lu_asked_in(message),
        Err(_) => None,
    }
}

/// Why a message rejects a request, if it is DEVICE-TYPE REJECT.
fn reason_of(message: &OwnedMessage) -> Option<Reason>
    ensures { result ≡ reason_of message.now }
{
    match message {
        OwnedMessage::TypeReject(reason) => Some(*reason),
        OwnedMessage::SendType => None,
        OwnedMessage::TypeRequest(_, _) => None,
        OwnedMessage::TypeIs(_, _) => None,
        OwnedMessage::FunRequest => None,
        OwnedMessage::FunIs => None,
    }
}

/// Why a reply rejects a request, if it is DEVICE-TYPE REJECT.
fn reason_in(reply: &Reply) -> Option<Reason>
    ensures { result ≡ reason_in reply.now }
{
    match reply {
        Reply::Sub(message, _) => reason_of(message),
        Reply::Nothing => None,
        Reply::Opt(_, _) => None,
        Reply::AskPool(_) => None,
        Reply::Agreed => None,
        Reply::Refused(_) => None,
        Reply::Close(_) => None,
    }
}

/// Keeps the rejection of what an item asks for, if this reply to the item rejects it.
pub(crate) fn keep_rejection(reports: &mut Reports, reply: &Reply, item: &Item<'_>)
    ensures { (comes : Comes) → Hears (item_of item.now) comes
        → reports.new ≡ reported (rejection_by (lu_asked comes) reply.now) None None reports.old }
{
    match reason_in(reply) {
        Some(reason) => reports.keep_rejection(lu_asked(item), reason),
        None => {}
    }
}
