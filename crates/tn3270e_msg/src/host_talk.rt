//! The host's talk: its side of the negotiation, from its offer to agreement (RFC 1647, section 7; the choice
//! among replies is our profile).
ghost use Rattle.std.specs.Prelude.{◌≡◌, ◌↔◌, IsTrue};
ghost use Rattle.telnet_wire.specs.Items.{item_of};
ghost use Rattle.telnet_wire.specs.Token.{spelling};
ghost use Rattle.telnet_wire.specs.Writing.{Appends};
ghost use Rattle.tn3270e_msg.specs.Talk.{message_says, RequestsFunctions};
ghost use Rattle.tn3270e_msg.specs.Hearing.{heard_says};
ghost use Rattle.tn3270e_msg.specs.Lent.{name_of, message_of};
ghost use Rattle.tn3270e_msg.specs.HostTable.{host_transition, request_transition, host_start, HostTakes, HostAnswered, IsAsking, granted, device_granted, model_asked, agreed_lu, is_agreed, offer_token};
ghost use Rattle.tn3270e_msg.specs.declared.host_talk.HostState.TheVariants.{Named, Countered};

use crate::cause::Cause;
use crate::codes::TN3270E;
use crate::device::Device;
use crate::functions::FunctionsOffer;
use crate::hearing::{Heard, MOST_REFUSALS, TalkState, Transition, follow, hear};
use crate::lu::Lu;
use crate::message::{Name, SubMessage};
use crate::reply::{After, OwnedMessage, Reason, Reply};
use codes3270::Model;
use std::marker;
use telnet_wire::{Item, Memory, Verb, put_option};

/// The state of a host's talk (RFC 1647, section 7).
#[derive(Clone, Copy, Debug, PartialEq, Eq)]
pub enum HostState {
    /// TN3270E was offered.
    Offered,
    /// The host asked for the terminal's device type.
    Asked,
    /// The host asks the pool for an LU, for this device type.
    Asking(Device),
    /// The pool granted this LU, for the device type that the terminal requested.
    Named(Device, Lu),
    /// The pool granted this LU, and the host countered the terminal's functions by RESPONSES alone.
    Countered(Device, Lu),
    /// Both ends agreed. The terminal has this LU and this device type.
    Agreed(Device, Lu),
    /// The host closes.
    Closed(Cause),
}

impl TalkState for HostState {
    ghost use Rattle.tn3270e_msg.specs.declared.host_talk.HostState.TheVariants.{Closed};

    ghost closed = { λ cause. Closed cause };

    fn closed_by(cause: Cause) -> HostState {
        HostState::Closed(cause)
    }
}

impl HostState {
    // The table's transition.
    fn transition(self, heard: Heard) -> Transition<HostState>
        ensures { result ≡ host_transition self (heard_says heard.entry) }
    {
        if let HostState::Closed(cause) = self {
            return Transition::Closes(cause);
        }
        match heard {
            Heard::Will => match self {
                HostState::Offered => Transition::Goes(
                    HostState::Asked,
                    Reply::Sub(OwnedMessage::SendType, After::Going),
                ),
                _ => Transition::Stays(Reply::Nothing),
            },
            Heard::Wont => Transition::Closes(Cause::NoTn3270e),
            Heard::Do => Transition::Stays(Reply::Opt(Verb::Wont, TN3270E)),
            Heard::Dont | Heard::NoTalk => Transition::Stays(Reply::Nothing),
            Heard::OtherDo(code) => Transition::Stays(Reply::Opt(Verb::Wont, code)),
            Heard::OtherWill(code) => Transition::Stays(Reply::Opt(Verb::Dont, code)),
            Heard::Message(message) => self.message_transition(message),
            Heard::Malformed => Transition::Closes(Cause::BadTalk),
        }
    }

    // The table's transition for a message.
    fn message_transition(self, message: SubMessage) -> Transition<HostState>
        ensures { result ≡ host_transition self (message_says (message_of message.entry)) }
    {
        match self {
            HostState::Closed(cause) => Transition::Closes(cause),
            HostState::Asked => match message {
                SubMessage::TypeRequest { device, name } => {
                    request_transition(Device::read(device), name)
                }
                _ => Transition::Closes(Cause::BadTalk),
            },
            HostState::Named(device, lu) => match message {
                SubMessage::FunRequest(list) => functions_transition(
                    device,
                    lu,
                    FunctionsOffer::of(list),
                ),
                _ => Transition::Closes(Cause::BadTalk),
            },
            HostState::Countered(device, lu) => match message {
                SubMessage::FunRequest(list) => functions_transition(
                    device,
                    lu,
                    FunctionsOffer::of(list),
                ),
                SubMessage::FunIs(list)
                    if matches!(FunctionsOffer::of(list), FunctionsOffer::ResponsesAlone) => {
                    Transition::Goes(HostState::Agreed(device, lu), Reply::Agreed)
                }
                _ => Transition::Closes(Cause::BadTalk),
            },
            HostState::Offered | HostState::Asking(_) | HostState::Agreed(_, _) => {
                Transition::Closes(Cause::BadTalk)
            }
        }
    }
}

fn request_transition(device: Option<Device>, name: Option<Name>) -> Transition<HostState>
    ensures { result ≡ request_transition device (name_of name.entry) }
{
    let Some(device) = device else {
        return Transition::Refuses(
            HostState::Asked,
            OwnedMessage::TypeReject(Reason::INV_DEVICE_TYPE),
        );
    };
    match name {
        None => Transition::Goes(HostState::Asking(device), Reply::AskPool(None)),
        Some(Name::Associate(_)) => {
            Transition::Refuses(
                HostState::Asked,
                OwnedMessage::TypeReject(Reason::UNSUPPORTED_REQ),
            )
        }
        Some(Name::Connect(name)) => match Lu::read(name) {
            Some(lu) => Transition::Goes(HostState::Asking(device), Reply::AskPool(Some(lu))),
            None => Transition::Refuses(
                HostState::Asked,
                OwnedMessage::TypeReject(Reason::INV_NAME),
            ),
        },
    }
}

// A functions request, once this LU is granted for this device.
fn functions_transition(device: Device, lu: Lu, offer: FunctionsOffer) -> Transition<HostState>
    ensures named { result ≡ host_transition (Named device lu) (RequestsFunctions offer) }
    ensures countered { result ≡ host_transition (Countered device lu) (RequestsFunctions offer) }
{
    match offer {
        FunctionsOffer::ResponsesAlone => Transition::Goes(
            HostState::Agreed(device, lu),
            Reply::Sub(OwnedMessage::FunIs, After::Agreed),
        ),
        FunctionsOffer::ResponsesAndMore => Transition::Refuses(
            HostState::Countered(device, lu),
            OwnedMessage::FunRequest,
        ),
        FunctionsOffer::NoResponses => Transition::Closes(Cause::NoResponses),
    }
}

/// The host's side of the negotiation with one terminal. Contracts see its state, and how many
/// rejections and counter-requests it may still send.
#[derive(Drop)]
pub struct HostTalk {
    state: HostState,
    refusals_left: u8,
}

impl marker::Model for HostTalk {
    ghost use Rattle.tn3270e_msg.specs.declared.host_talk.HostState.{HostState};
    ghost use Rattle.tn3270e_msg.specs.Talk.{Talk};

    ghost Value = { Talk HostState };

    ghost view = { λ talk. record { state = talk.state; refusals_left = talk.refusals_left } };
}

impl HostTalk {
    /// A talk after the host sent its offer, DO TN3270E.
    pub fn new() -> HostTalk
        ensures { result ≡ host_start }
    {
        HostTalk {
            state: HostState::Offered,
            refusals_left: MOST_REFUSALS,
        }
    }

    /// Processes an item from the terminal, and returns what the host must do. A message that
    /// the talk doesn't expect closes it, with BadTalk. The eighth rejection or counter-request is
    /// sent and closes it, with TooMany. A closed talk returns its cause again.
    pub fn take(&mut self, item: &Item) -> Reply
        ensures { HostTakes self.old (item_of item.now) (result) self.new }
    {
        let transition = self.state.transition(hear(item));
        follow(&mut self.state, &mut self.refusals_left, transition)
    }

    /// Processes the pool's answer. The reply is DEVICE-TYPE IS with the granted LU, or a rejection with its
    /// reason, the eighth of which closes the talk with TooMany. [`HostTalk::asking`] must hold.
    pub fn answered(&mut self, answer: Result<Lu, Reason>) -> Reply
        requires { IsAsking self.old.state }
        ensures { HostAnswered self.old answer (result) self.new }
    {
        let HostState::Asking(device) = self.state else {
            unreachable!()
        };
        let transition = match answer {
            Ok(lu) => Transition::Goes(
                HostState::Named(device, lu),
                Reply::Sub(OwnedMessage::TypeIs(device, lu), After::Going),
            ),
            Err(reason) => Transition::Refuses(HostState::Asked, OwnedMessage::TypeReject(reason)),
        };
        follow(&mut self.state, &mut self.refusals_left, transition)
    }

    /// Appends the talk's first item, DO TN3270E: IAC, DO and the option's code 40, three bytes (RFC 1647, section 7).
    ///
    /// If memory is refused, the vector keeps the bytes that it had.
    pub fn put_offer(out: &mut Vec<u8>) -> Result<(), Memory>
        ensures { Appends out.old (spelling offer_token) result out.new }
    {
        put_option(out, Verb::Do, TN3270E)
    }

    /// The talk's state.
    pub fn state(&self) -> HostState
        ensures { result ≡ self.now.state }
    {
        self.state
    }

    /// Whether the talk waits for the pool's answer: after [`Reply::AskPool`], until the answer is
    /// given or the talk closes.
    pub fn asking(&self) -> bool
        ensures { IsTrue result ↔ IsAsking self.now.state }
    {
        matches!(self.state, HostState::Asking(_))
    }

    /// The LU that was granted. `None` before that, and after the talk closed.
    pub fn lu(&self) -> Option<Lu>
        ensures { result ≡ granted self.now.state }
    {
        match self.state {
            HostState::Named(_, lu) | HostState::Countered(_, lu) | HostState::Agreed(_, lu) => {
                Some(lu)
            }
            _ => None,
        }
    }

    /// The LU on which both ends agreed. `None` before that, and after the talk closed.
    pub fn agreed_lu(&self) -> Option<Lu>
        ensures { result ≡ agreed_lu self.now.state }
    {
        match self.state {
            HostState::Agreed(_, lu) => Some(lu),
            _ => None,
        }
    }

    /// Whether both ends agreed and the talk isn't closed.
    pub fn is_agreed(&self) -> bool
        ensures { result ≡ is_agreed self.now.state }
    {
        matches!(self.state, HostState::Agreed(_, _))
    }

    /// The device type that the terminal requested and for which its LU was granted. `None` before that, and
    /// after the talk closed.
    pub fn device(&self) -> Option<Device>
        ensures { result ≡ device_granted self.now.state }
    {
        match self.state {
            HostState::Named(device, _)
            | HostState::Countered(device, _)
            | HostState::Agreed(device, _) => Some(device),
            _ => None,
        }
    }

    /// The model of the device type that the terminal requested, with or without extended attributes. `None` before the
    /// request, after it was rejected, and after the talk closed.
    pub fn model(&self) -> Option<Model>
        ensures { result ≡ model_asked self.now.state }
    {
        match self.state {
            HostState::Asking(device)
            | HostState::Named(device, _)
            | HostState::Countered(device, _)
            | HostState::Agreed(device, _) => Some(device.model()),
            _ => None,
        }
    }
}
