//! The terminal's talk: its side of the negotiation, from the host's offer to agreement (RFC 1647, section 7; the
//! choice among replies is our profile).
ghost use Rattle.std.specs.Prelude.{◌≡◌, ℕ, List, Option};
ghost use Rattle.codes3270.specs.declared.size.Model.{Model as ModelOf};
ghost use Rattle.telnet_wire.specs.Items.{item_of};
ghost use Rattle.tn3270e_msg.specs.Talk.{message_says, IsFunctions, RequestsFunctions, IsLuIfSome};
ghost use Rattle.tn3270e_msg.specs.Hearing.{heard_says};
ghost use Rattle.tn3270e_msg.specs.Lent.{message_of};
ghost use Rattle.tn3270e_msg.specs.Device.{device_for, has_text};
ghost use Rattle.tn3270e_msg.specs.TermTable.{term_transition, grant_transition, term_start, TermTakes, bound, agreed_lu, is_agreed, reason_refused};
ghost use Rattle.tn3270e_msg.specs.declared.term_talk.TermState.TheVariants.{FunctionsAsked};

use crate::cause::Cause;
use crate::codes::TN3270E;
use crate::device::Device;
use crate::functions::FunctionsOffer;
use crate::hearing::{Heard, MOST_REFUSALS, TalkState, Transition, follow, hear};
use crate::lu::Lu;
use crate::message::SubMessage;
use crate::reply::{After, OwnedMessage, Reason, Reply};
use codes3270::Model;
use std::marker;
use telnet_wire::{Item, Verb};

/// The state of a terminal's talk (RFC 1647, section 7).
#[derive(Clone, Copy, Debug, PartialEq, Eq)]
pub enum TermState {
    /// The host hasn't offered TN3270E yet.
    Waiting,
    /// The terminal agreed to TN3270E, and the host hasn't asked for its device type yet.
    Willing,
    /// The terminal requested its device type, and waits for an LU.
    TypeAsked,
    /// The host granted this LU, and the terminal requested RESPONSES.
    FunctionsAsked(Lu),
    /// Both ends agreed. The terminal has this LU.
    Agreed(Lu),
    /// The host rejected the device request. Every later item is ignored.
    Refused(Reason),
    /// The terminal closes.
    Closed(Cause),
}

impl TalkState for TermState {
    ghost use Rattle.tn3270e_msg.specs.declared.term_talk.TermState.TheVariants.{Closed};

    ghost closed = { λ cause. Closed cause };

    fn closed_by(cause: Cause) -> TermState {
        TermState::Closed(cause)
    }
}

impl TermState {
    // The table's transition.
    fn transition(self, model: Model, wanted: Option<Lu>, heard: Heard) -> Transition<TermState>
        ensures { result ≡ term_transition model wanted self (heard_says heard.entry) }
    {
        match self {
            TermState::Closed(cause) => return Transition::Closes(cause),
            TermState::Refused(_) => return Transition::Stays(Reply::Nothing),
            _ => {}
        }
        match heard {
            Heard::Do => match self {
                TermState::Waiting => {
                    Transition::Goes(TermState::Willing, Reply::Opt(Verb::Will, TN3270E))
                }
                _ => Transition::Stays(Reply::Nothing),
            },
            Heard::Wont | Heard::NoTalk => Transition::Stays(Reply::Nothing),
            Heard::Dont => Transition::Closes(Cause::NoTn3270e),
            Heard::Will => Transition::Stays(Reply::Opt(Verb::Dont, TN3270E)),
            Heard::OtherDo(code) => Transition::Stays(Reply::Opt(Verb::Wont, code)),
            Heard::OtherWill(code) => Transition::Stays(Reply::Opt(Verb::Dont, code)),
            Heard::Message(message) => self.message_transition(model, wanted, message),
            Heard::Malformed => Transition::Closes(Cause::BadTalk),
        }
    }

    // The table's transition for a message.
    fn message_transition(
        self,
        model: Model,
        wanted: Option<Lu>,
        message: SubMessage,
    ) -> Transition<TermState>
        ensures { result ≡ term_transition model wanted self (message_says (message_of message.entry)) }
    {
        match self {
            TermState::Closed(cause) => Transition::Closes(cause),
            TermState::Refused(_) => Transition::Stays(Reply::Nothing),
            TermState::Willing => match message {
                SubMessage::SendType => Transition::Goes(
                    TermState::TypeAsked,
                    Reply::Sub(OwnedMessage::TypeRequest(model, wanted), After::Going),
                ),
                _ => Transition::Closes(Cause::BadTalk),
            },
            TermState::TypeAsked => match message {
                SubMessage::TypeIs { device, name } => {
                    grant_transition(wanted, is_type_of(model, device), Lu::read(name))
                }
                SubMessage::TypeReject(reason) => {
                    Transition::Goes(TermState::Refused(reason), Reply::Refused(reason))
                }
                _ => Transition::Closes(Cause::BadTalk),
            },
            TermState::FunctionsAsked(lu) => match message {
                SubMessage::FunIs(list) => agreement_transition(lu, FunctionsOffer::of(list)),
                SubMessage::FunRequest(list) => functions_transition(lu, FunctionsOffer::of(list)),
                _ => Transition::Closes(Cause::BadTalk),
            },
            TermState::Waiting | TermState::Agreed(_) => Transition::Closes(Cause::BadTalk),
        }
    }
}

// The host's functions, once this LU is granted.
fn agreement_transition(lu: Lu, offer: FunctionsOffer) -> Transition<TermState>
    ensures { (model : ModelOf) (wanted : Option (List ℕ))
        → result ≡ term_transition model wanted (FunctionsAsked lu) (IsFunctions offer) }
{
    match offer {
        FunctionsOffer::ResponsesAlone => Transition::Goes(TermState::Agreed(lu), Reply::Agreed),
        _ => Transition::Closes(Cause::NoResponses),
    }
}

// The host's functions request, once this LU is granted.
fn functions_transition(lu: Lu, offer: FunctionsOffer) -> Transition<TermState>
    ensures { (model : ModelOf) (wanted : Option (List ℕ))
        → result ≡ term_transition model wanted (FunctionsAsked lu) (RequestsFunctions offer) }
{
    match offer {
        FunctionsOffer::ResponsesAlone => Transition::Goes(
            TermState::Agreed(lu),
            Reply::Sub(OwnedMessage::FunIs, After::Agreed),
        ),
        FunctionsOffer::ResponsesAndMore => {
            Transition::Refuses(TermState::FunctionsAsked(lu), OwnedMessage::FunRequest)
        }
        FunctionsOffer::NoResponses => Transition::Closes(Cause::NoResponses),
    }
}

// Whether this is the type that a terminal of this model asks for.
fn is_type_of(model: Model, text: &[u8]) -> bool
    ensures { result ≡ has_text (device_for model) text.now }
{
    Device::of(model).has_text(text)
}

// A DEVICE-TYPE IS. `is_own_type` says whether it has the requested type; `name` is its LU, if that is an LU name.
fn grant_transition(
    wanted: Option<Lu>,
    is_own_type: bool,
    name: Option<Lu>,
) -> Transition<TermState>
    ensures { result ≡ grant_transition wanted is_own_type name }
{
    let (true, Some(lu)) = (is_own_type, name) else {
        return Transition::Closes(Cause::BadTalk);
    };
    match wanted {
        Some(wanted) if wanted != lu => Transition::Closes(Cause::BadTalk),
        _ => Transition::Goes(
            TermState::FunctionsAsked(lu),
            Reply::Sub(OwnedMessage::FunRequest, After::Going),
        ),
    }
}

/// The terminal's side of the negotiation. Contracts see its model, the LU that it wants, its
/// state, and how many counter-requests it may still send.
#[derive(Drop)]
pub struct TermTalk {
    model: Model,
    wanted: Option<Lu>,
    state: TermState,
    refusals_left: u8,
}

impl marker::Model for TermTalk {
    ghost use Rattle.tn3270e_msg.specs.TermTable.{Term};

    ghost Value = { Term };

    ghost view = { λ talk. record {
      model = talk.model;
      wanted = talk.wanted;
      talk = record { state = talk.state; refusals_left = talk.refusals_left };
    } };
}

impl TermTalk {
    /// A talk before the first item, of a terminal of this model that wants this LU, if any. It requests its model's
    /// device type without extended attributes, IBM-3278-2 to IBM-3278-5, and accepts no other type.
    pub fn new(model: Model, wanted: Option<Lu>) -> TermTalk
        ensures start { result ≡ term_start model wanted }
        ensures wanted { IsLuIfSome wanted }
    {
        if let Some(lu) = &wanted {
            // For the contract: the letters are those of an LU.
            let _ = lu.as_bytes();
        }
        TermTalk {
            model,
            wanted,
            state: TermState::Waiting,
            refusals_left: MOST_REFUSALS,
        }
    }

    /// Processes an item from the host, and returns what the terminal must do. A message that
    /// the talk doesn't expect closes it, with BadTalk. The eighth counter-request is sent and closes
    /// it, with TooMany. A closed talk returns its cause again, and a rejected one returns `Nothing`.
    pub fn take(&mut self, item: &Item) -> Reply
        ensures { TermTakes self.old (item_of item.now) (result) self.new }
    {
        let transition = self.state.transition(self.model, self.wanted, hear(item));
        follow(&mut self.state, &mut self.refusals_left, transition)
    }

    /// The talk's state.
    pub fn state(&self) -> TermState
        ensures { result ≡ self.now.talk.state }
    {
        self.state
    }

    /// The LU on which both ends agreed. `None` before that, and after the talk closed.
    pub fn agreed_lu(&self) -> Option<Lu>
        ensures { result ≡ agreed_lu self.now.talk.state }
    {
        match self.state {
            TermState::Agreed(lu) => Some(lu),
            _ => None,
        }
    }

    /// Whether both ends agreed and the talk isn't closed.
    pub fn is_agreed(&self) -> bool
        ensures { result ≡ is_agreed self.now.talk.state }
    {
        matches!(self.state, TermState::Agreed(_))
    }

    /// Why the host rejected the device request. `None` unless it did.
    pub fn reason_refused(&self) -> Option<Reason>
        ensures { result ≡ reason_refused self.now.talk.state }
    {
        match self.state {
            TermState::Refused(reason) => Some(reason),
            _ => None,
        }
    }

    /// The LU that was granted. `None` before that, and after the talk closed.
    pub fn lu(&self) -> Option<Lu>
        ensures { result ≡ bound self.now.talk.state }
    {
        match self.state {
            TermState::FunctionsAsked(lu) | TermState::Agreed(lu) => Some(lu),
            _ => None,
        }
    }
}
