//! Reading messages from bytes.
ghost use Rattle.std.specs.Prelude.{◌≡◌, ◌∷◌, Option, IfOk, IfErr, IsOkAnd, IfSome, IfNone, Err};
ghost use Rattle.tn3270e_msg.specs.declared.message.SubFault.{SubFault};
ghost use Rattle.tn3270e_msg.specs.Text.{is_text, IsFront, IsEnd};
ghost use Rattle.tn3270e_msg.specs.Message.{Message, Name as NameOf, IsName, Says, HasFault, name_part};
ghost use Rattle.tn3270e_msg.specs.Lent.{LiesIn, message_of, name_of};

use crate::codes::{
    ASSOCIATE, CONNECT, DEVICE_TYPE, FUNCTIONS, IS, REASON, REJECT, REQUEST, SEND, TN3270E,
};
use crate::message::{Name, SubFault, SubMessage};
use crate::reply::Reason;

/// Reads the payload of a subnegotiation as a message (RFC 1647, sections 3 and 7); the message's
/// texts and lists are lent from the payload.
///
/// It fails with [`SubFault::NotOurs`] if the first byte isn't X'28' or there is none, and with
/// [`SubFault::Malformed`] if the bytes after it are no message.
pub fn read_sub(bytes: &[u8]) -> Result<SubMessage<'_>, SubFault>
    ensures found { IfOk result (LiesIn bytes.now) }
    ensures fault { IfErr result (HasFault bytes.now) }
    // If the bytes spell a message, that message is found.
    ensures all { (message : Message) → Says bytes.now message → IsOkAnd result (λ found. message_of found ≡ message) }
    ensures refused { (fault : SubFault) → HasFault bytes.now fault → result ≡ Err fault }
{
    find_message(bytes)
}

fn find_message(bytes: &[u8]) -> Result<SubMessage<'_>, SubFault>
    ensures found { IfOk result (LiesIn bytes.now) }
    ensures fault { IfErr result (HasFault bytes.now) }
{
    let [TN3270E, rest @ ..] = bytes else {
        return Err(SubFault::NotOurs);
    };
    read_ours(rest).ok_or(SubFault::Malformed)
}

// Reads a message after the option's code.
fn read_ours(bytes: &[u8]) -> Option<SubMessage<'_>>
    ensures found { IfSome result (LiesIn (40 ∷ bytes.now)) }
    ensures none { IfNone result ((message : Message) → ¬ Says (40 ∷ bytes.now) message) }
{
    match bytes {
        [SEND, DEVICE_TYPE] => Some(SubMessage::SendType),
        [DEVICE_TYPE, REQUEST, rest @ ..] => type_request(rest),
        [DEVICE_TYPE, IS, rest @ ..] => type_is(rest),
        [DEVICE_TYPE, REJECT, REASON, code] => Some(SubMessage::TypeReject(Reason(*code))),
        [FUNCTIONS, REQUEST, list @ ..] => Some(SubMessage::FunRequest(list)),
        [FUNCTIONS, IS, list @ ..] => Some(SubMessage::FunIs(list)),
        _ => None,
    }
}

fn type_request(bytes: &[u8]) -> Option<SubMessage<'_>>
    ensures found { IfSome result (LiesIn (40 ∷ 2 ∷ 7 ∷ bytes.now)) }
    ensures none { IfNone result ((message : Message) → ¬ Says (40 ∷ 2 ∷ 7 ∷ bytes.now) message) }
{
    let (device, rest) = text_at(bytes)?;
    let name = name_at(rest)?;
    Some(SubMessage::TypeRequest { device, name })
}

fn type_is(bytes: &[u8]) -> Option<SubMessage<'_>>
    ensures found { IfSome result (LiesIn (40 ∷ 2 ∷ 4 ∷ bytes.now)) }
    ensures none { IfNone result ((message : Message) → ¬ Says (40 ∷ 2 ∷ 4 ∷ bytes.now) message) }
{
    let (device, rest) = text_at(bytes)?;
    match name_at(rest)? {
        Some(Name::Connect(name)) => Some(SubMessage::TypeIs { device, name }),
        Some(Name::Associate(_)) => None,
        None => None,
    }
}

// Reads the name after a device type's text, if there is one.
fn name_at(bytes: &[u8]) -> Option<Option<Name<'_>>>
    ensures found { IfSome result (λ name. IsName (name_of name) × (bytes.now ≡ name_part (name_of name))) }
    ensures none { IfNone result ((name : Option NameOf) → IsName name → bytes.now ≡ name_part name → ⊥) }
{
    match bytes {
        [] => Some(None),
        [CONNECT, name @ ..] if is_text(name) => Some(Some(Name::Connect(name))),
        [ASSOCIATE, name @ ..] if is_text(name) => Some(Some(Name::Associate(name))),
        _ => None,
    }
}

// The longest text at the front, and the bytes after it.
fn text_at(bytes: &[u8]) -> Option<(&[u8], &[u8])>
    ensures found { IfSome result (λ found. IsFront bytes.now found.0.now found.1.now) }
    ensures none { IfNone result (IsEnd bytes.now) }
{
    let length = bytes
        .iter()
        .position(|byte| !byte.is_ascii_graphic())
        .unwrap_or(bytes.len());
    if length == 0 {
        return None;
    }
    Some(bytes.split_at(length))
}

fn is_text(bytes: &[u8]) -> bool
    ensures { result ≡ is_text bytes.now }
{
    !bytes.is_empty() && bytes.iter().all(|byte| byte.is_ascii_graphic())
}
