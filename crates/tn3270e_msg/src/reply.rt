//! What both ends' talks ask their ends to do.
ghost use Rattle.std.specs.Prelude.{◌≡◌, ◌≤◌, length, option_map};
ghost use Rattle.tn3270e_msg.specs.Message.{IsMessage};
ghost use Rattle.tn3270e_msg.specs.Lent.{message_of, payload};
ghost use Rattle.tn3270e_msg.specs.Talk.{message_sent, payload_sent, IsOwnedMessage};
ghost use Rattle.tn3270e_msg.specs.Words.{reason_name};

use crate::cause::Cause;
use crate::codes::RESPONSES;
use crate::device::Device;
use crate::lu::Lu;
use crate::message::{Name, SubMessage};
use codes3270::Model;
use std::fmt;
use telnet_wire::Verb;

/// Why a host rejects a device request: a code of RFC 1647, section 3, or any other byte.
#[derive(Clone, Copy, Debug, PartialEq, Eq)]
pub struct Reason(pub u8);

impl Reason {
    /// DEVICE-IN-USE: the named LU is held or, without a name, all LUs are held.
    pub const DEVICE_IN_USE: Reason = Reason(1);

    /// INV-NAME: there is no such LU.
    pub const INV_NAME: Reason = Reason(3);

    /// INV-DEVICE-TYPE: the host doesn't serve the device type.
    pub const INV_DEVICE_TYPE: Reason = Reason(4);

    /// UNSUPPORTED-REQ: the host doesn't serve printers.
    pub const UNSUPPORTED_REQ: Reason = Reason(7);

    /// The reason's name in RFC 1647, section 3, if it is one of these constants; `None` for any other code.
    pub fn name(self) -> Option<&'static str>
        ensures { option_map (λ name. name.now) result ≡ reason_name self }
    {
        match self.0 {
            1 => Some("DEVICE-IN-USE"),
            3 => Some("INV-NAME"),
            4 => Some("INV-DEVICE-TYPE"),
            7 => Some("UNSUPPORTED-REQ"),
            _ => None,
        }
    }
}

/// Prints the reason's name, or its code in decimal if it has none.
impl fmt::Display for Reason {
    ghost use Rattle.std.specs.Prelude.{Some};
    ghost use Rattle.tn3270e_msg.specs.Words.{reason_text};

    ghost output = { λ reason. Some (reason_text reason) };

    fn fmt<W: fmt::Write>(&self, f: &mut fmt::Formatter<W>) -> fmt::Result {
        match self.name() {
            Some(name) => f.write_str(name),
            None => write!(f, "{}", self.0),
        }
    }
}

/// A message that an end sends. It owns its parts; a `SubMessage` borrows them.
#[derive(Clone, Copy, Debug, PartialEq, Eq)]
pub enum OwnedMessage {
    /// SEND DEVICE-TYPE.
    SendType,
    /// DEVICE-TYPE REQUEST of this model's type without extended attributes, with CONNECT and this LU if there is one.
    TypeRequest(Model, Option<Lu>),
    /// DEVICE-TYPE IS, with CONNECT and the granted LU.
    TypeIs(Device, Lu),
    /// DEVICE-TYPE REJECT REASON.
    TypeReject(Reason),
    /// FUNCTIONS REQUEST of RESPONSES alone.
    FunRequest,
    /// FUNCTIONS IS of RESPONSES alone.
    FunIs,
}

impl OwnedMessage {
    /// The message, which borrows its parts. Its payload has at most 256 bytes.
    pub fn message(&self) -> SubMessage<'_>
        ensures value { message_of result ≡ message_sent self.now }
        ensures bytes { payload result ≡ payload_sent self.now }
        ensures is_message { IsMessage (message_sent self.now) }
        ensures is_sending { IsOwnedMessage self.now }
        ensures short { length (payload_sent self.now) ≤ 256 }
    {
        match self {
            OwnedMessage::SendType => SubMessage::SendType,
            OwnedMessage::TypeRequest(model, lu) => SubMessage::TypeRequest {
                device: Device::of(*model).text(),
                name: match lu {
                    Some(lu) => Some(Name::Connect(lu.as_bytes())),
                    None => None,
                },
            },
            OwnedMessage::TypeIs(device, lu) => SubMessage::TypeIs {
                device: device.text(),
                name: lu.as_bytes(),
            },
            OwnedMessage::TypeReject(reason) => SubMessage::TypeReject(*reason),
            OwnedMessage::FunRequest => SubMessage::FunRequest(&[RESPONSES]),
            OwnedMessage::FunIs => SubMessage::FunIs(&[RESPONSES]),
        }
    }
}

/// How the talk continues after a message is sent.
#[derive(Clone, Copy, Debug, PartialEq, Eq)]
pub enum After {
    /// The negotiation continues.
    Going,
    /// The ends agreed.
    Agreed,
    /// The end closes.
    Close(Cause),
}

/// What an end must do about an item.
#[derive(Clone, Copy, Debug, PartialEq, Eq)]
pub enum Reply {
    /// It does nothing.
    Nothing,
    /// It sends this verb with this option's code.
    Opt(Verb, u8),
    /// It sends a message, and then the talk continues as `After` says.
    Sub(OwnedMessage, After),
    /// The host asks its pool for an LU, of this name if there is one;
    /// [`HostTalk::answered`](crate::HostTalk::answered) takes the answer.
    AskPool(Option<Lu>),
    /// The ends agreed.
    Agreed,
    /// The host rejected the device request. The terminal's talk ends; its connection stays open.
    Refused(Reason),
    /// The end closes.
    Close(Cause),
}
