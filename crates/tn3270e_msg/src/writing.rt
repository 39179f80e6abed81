//! Appends messages, as bytes, to a vector.
ghost use Rattle.std.specs.Prelude.{◌≡◌, ◌≤◌, ◌∷◌, ◌++◌};
ghost use Rattle.std.specs.Vec.{vec_capacity};
ghost use Rattle.telnet_wire.specs.Items.{sent_bytes};
ghost use Rattle.telnet_wire.specs.Token.{spelling, Sub};
ghost use Rattle.telnet_wire.specs.Writing.{Appends};
ghost use Rattle.tn3270e_msg.specs.Talk.{closing, items_sent};
ghost use Rattle.tn3270e_msg.specs.Writing.{HasRoomForReply, PutsMessage};
ghost use Rattle.tn3270e_msg.specs.Message.{IsMessage, Says, name_part};
ghost use Rattle.tn3270e_msg.specs.Lent.{message_of, name_of, payload};

use crate::cause::Cause;
use crate::codes::{
    ASSOCIATE, CONNECT, DEVICE_TYPE, FUNCTIONS, IS, REASON, REJECT, REQUEST, SEND, TN3270E,
};
use crate::message::{Name, SubMessage};
use crate::reply::{After, Reply};
use telnet_wire::{Memory, put_option, put_sub, put_sub_parts};

/// Appends a message as a subnegotiation, with the texts and lists that it borrows (RFC 1647, section 3).
///
/// Its device types and names must be one or more bytes from X'21' to X'7E'. It succeeds if the vector has room
/// for the message. If memory is refused, the vector is unchanged.
pub fn put_sub_message(out: &mut Vec<u8>, message: &SubMessage) -> Result<(), Memory>
    requires { IsMessage (message_of message.now) }
    ensures put { PutsMessage out.old message.now result out.new }
    ensures read_back { Says (payload message.now) (message_of message.now) }
{
    match *message {
        SubMessage::SendType => put_sub(out, &[TN3270E, SEND, DEVICE_TYPE]),
        SubMessage::TypeRequest { device, name } => put_type_request(out, device, name),
        SubMessage::TypeIs { device, name } => {
            put_sub_parts(
                out,
                &[&[TN3270E, DEVICE_TYPE, IS], device, &[CONNECT], name],
            )
        }
        SubMessage::TypeReject(reason) => {
            put_sub(out, &[TN3270E, DEVICE_TYPE, REJECT, REASON, reason.0])
        }
        SubMessage::FunRequest(list) => {
            put_sub_parts(out, &[&[TN3270E, FUNCTIONS, REQUEST], list])
        }
        SubMessage::FunIs(list) => put_sub_parts(out, &[&[TN3270E, FUNCTIONS, IS], list]),
    }
}

fn put_type_request(out: &mut Vec<u8>, device: &[u8], name: Option<Name<'_>>) -> Result<(), Memory>
    ensures { Appends out.old (spelling (Sub (0x28 ∷ 2 ∷ 7 ∷ (device.now ++ name_part (name_of name.entry)))))
        result out.new }
{
    let request = [TN3270E, DEVICE_TYPE, REQUEST];
    match name {
        None => put_sub_parts(out, &[&request, device]),
        Some(Name::Connect(name)) => put_sub_parts(out, &[&request, device, &[CONNECT], name]),
        Some(Name::Associate(name)) => put_sub_parts(out, &[&request, device, &[ASSOCIATE], name]),
    }
}

/// The most bytes that [`put_reply`] appends: a subnegotiation of 256 bytes, each doubled, with its begin and end.
pub const REPLY_ROOM: usize = 2 * 256 + 4;

/// Appends the item that a reply sends, if any. Returns the cause with which the reply
/// closes the connection, if it does. The vector must have [`REPLY_ROOM`] bytes of room.
pub fn put_reply(out: &mut Vec<u8>, reply: &Reply) -> Option<Cause>
    requires { HasRoomForReply out.old }
    ensures sent { out.new.items ≡ out.old.items ++ sent_bytes (items_sent reply.now) }
    ensures closes { result ≡ closing reply.now }
    ensures capacity { vec_capacity out.old ≤ vec_capacity out.new }
{
    match reply {
        Reply::Opt(verb, code) => {
            put_option(out, *verb, *code).unwrap();
            None
        }
        Reply::Sub(sending, after) => {
            put_sub_message(out, &sending.message()).unwrap();
            match after {
                After::Close(cause) => Some(*cause),
                After::Going | After::Agreed => None,
            }
        }
        Reply::Close(cause) => Some(*cause),
        Reply::Nothing | Reply::AskPool(_) | Reply::Agreed | Reply::Refused(_) => None,
    }
}
