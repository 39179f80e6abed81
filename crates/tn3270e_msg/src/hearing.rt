//! What the negotiations of both ends have in common.
ghost use Rattle.std.specs.Prelude.{◌≡◌};
ghost use Rattle.telnet_wire.specs.Items.{item_of};
ghost use Rattle.tn3270e_msg.specs.Talk.{Hears, option_says, follow as followed};
ghost use Rattle.tn3270e_msg.specs.Hearing.{heard_says};

use crate::cause::Cause;
use crate::codes::TN3270E;
use crate::message::{SubFault, SubMessage};
use crate::reading::read_sub;
use crate::reply::{After, OwnedMessage, Reply};
use telnet_wire::{Item, Verb};

/// The most rejections and counter-requests that a talk sends; it closes with the last (our profile).
pub const MOST_REFUSALS: u8 = 8;

/// What an item of the wire means for a talk.
#[derive(Clone, Copy)]
pub enum Heard<'a> {
    /// WILL TN3270E.
    Will,
    /// WONT TN3270E.
    Wont,
    /// DO TN3270E.
    Do,
    /// DONT TN3270E.
    Dont,
    /// WILL of another option, with this code.
    OtherWill(u8),
    /// DO of another option, with this code.
    OtherDo(u8),
    /// A message of TN3270E.
    Message(SubMessage<'a>),
    /// A subnegotiation of TN3270E that is no message.
    Malformed,
    /// Anything else: a record, a command, or a message of another option.
    NoTalk,
}

/// How a talk reacts to an item.
pub enum Transition<S> {
    /// It replies, and its state stays as it is.
    Stays(Reply),
    /// It replies, and goes to this state.
    Goes(S, Reply),
    /// It sends a rejection or a counter-request, and goes to this state.
    Refuses(S, OwnedMessage),
    /// The end closes.
    Closes(Cause),
}

/// The state of a talk. One of the states is closed.
pub trait TalkState: Copy {
    ghost use Rattle.tn3270e_msg.specs.declared.cause.Cause.{Cause};

    ghost closed: { Cause → Self };

    /// The closed state with this cause.
    fn closed_by(cause: Cause) -> Self
        ensures { result ≡ closed cause };
}

/// Applies a transition to a talk, which closes with the last rejection or counter-request that it may send.
pub fn follow<S: TalkState>(
    state: &mut S,
    refusals_left: &mut u8,
    transition: Transition<S>,
) -> Reply
    ensures { (record { state = state.new; refusals_left = refusals_left.new }, result)
        ≡ followed S.closed (record { state = state.old; refusals_left = refusals_left.old }) transition }
{
    match transition {
        Transition::Stays(reply) => reply,
        Transition::Goes(next, reply) => {
            *state = next;
            reply
        }
        Transition::Refuses(next, sending) => {
            *refusals_left = refusals_left.saturating_sub(1);
            if *refusals_left == 0 {
                *state = S::closed_by(Cause::TooMany);
                Reply::Sub(sending, After::Close(Cause::TooMany))
            } else {
                *state = next;
                Reply::Sub(sending, After::Going)
            }
        }
        Transition::Closes(cause) => {
            *state = S::closed_by(cause);
            Reply::Close(cause)
        }
    }
}

/// What an item of the wire means for a talk.
pub fn hear<'a>(item: &Item<'a>) -> Heard<'a>
    ensures { Hears (item_of item.now) (heard_says result) }
{
    match *item {
        Item::Opt { verb, code } => option_heard(verb, code),
        Item::Sub(bytes) => match read_sub(bytes) {
            Ok(message) => Heard::Message(message),
            Err(SubFault::NotOurs) => Heard::NoTalk,
            Err(SubFault::Malformed) => Heard::Malformed,
        },
        Item::Record(_) | Item::Other(_) => Heard::NoTalk,
    }
}

fn option_heard<'a>(verb: Verb, code: u8) -> Heard<'a>
    ensures { heard_says result ≡ option_says verb code }
{
    match verb {
        Verb::Will if code == TN3270E => Heard::Will,
        Verb::Wont if code == TN3270E => Heard::Wont,
        Verb::Do if code == TN3270E => Heard::Do,
        Verb::Dont if code == TN3270E => Heard::Dont,
        Verb::Will => Heard::OtherWill(code),
        Verb::Do => Heard::OtherDo(code),
        Verb::Wont | Verb::Dont => Heard::NoTalk,
    }
}
