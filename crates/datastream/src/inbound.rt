//! Inbound data.
ghost use Rattle.std.specs.Prelude.{◌≡◌, [], ◌∷◌, Some, true, false, All as AllOf, MatchOption, MatchResult, IfSome, length, ◌<◌, ◌^◌};
ghost use Rattle.std.specs.List.{prefix_len};
ghost use Rattle.codes3270.specs.Aid.{aid_of};
ghost use Rattle.codes3270.specs.Size.{cells_in};
ghost use Rattle.codes3270.specs.Storable.{is_storable};
ghost use Rattle.datastream.specs.declared.inbound_part.Form.TheVariants.{Modified, Buffer};
ghost use Rattle.datastream.specs.declared.inbound_part.InboundFault.{InboundFault as Fault};
ghost use Rattle.datastream.specs.InboundText.{AreParts, InboundParts, IsInbound, IsSent, IsNoInbound, IsProperPart, is_text_char, stands_alone};
ghost use Rattle.datastream.specs.InboundReading.{parts_in};
ghost use Rattle.datastream.specs.InboundFields.{leading_text, returned, cells_sent, IsProperReturned, IsStorableCell};

use crate::characters::count_characters;
use crate::inbound_fields::ReturnedFields;
use crate::inbound_part::{Form, InboundFault};
use crate::inbound_reader::{Cells, Parts, check_parts};
use codes3270::{Addr, Aid, Size, addr_from_bytes, aid_from_byte};
use std::marker::Model;

/// Inbound data that borrows its bytes. Contracts see its form, the size of the screen, its AID, cursor
/// address and parts.
#[derive(Drop)]
pub struct Inbound<'a> {
    form: Form,
    size: Size,
    aid: Aid,
    cursor: Option<Addr>,
    text: &'a [u8],
    /// The number of leading characters of the text, counted once.
    leading_text: usize,
}

impl<'a> Model for Inbound<'a> {
    ghost use Rattle.std.specs.Prelude.{◌≡◌, ◌≤◌, length};
    ghost use Rattle.std.specs.List.{prefix_len};
    ghost use Rattle.codes3270.specs.Size.{cells_in};
    ghost use Rattle.codes3270.specs.Storable.{is_storable};
    ghost use Rattle.datastream.specs.InboundText.{InboundParts, IsSent, AreParts};
    ghost use Rattle.datastream.specs.InboundReading.{parts_in};

    ghost Value = { InboundParts };

    ghost view = { λ inbound. record {
      form = inbound.form;
      size = inbound.size;
      aid = inbound.aid;
      cursor = inbound.cursor;
      parts = parts_in (cells_in inbound.size) inbound.form inbound.text.now;
    } };

    ghost invariant = { λ inbound.
        IsSent (record {
          form = inbound.form;
          size = inbound.size;
          aid = inbound.aid;
          cursor = inbound.cursor;
          parts = parts_in (cells_in inbound.size) inbound.form inbound.text.now;
        })
        × AreParts (cells_in inbound.size) inbound.form
        (parts_in (cells_in inbound.size) inbound.form inbound.text.now) inbound.text.now
        × (inbound.leading_text ≡ prefix_len is_storable inbound.text.now)
        × (inbound.leading_text ≤ length inbound.text.now) };
}

impl<'a> Inbound<'a> {
    /// Which kind of read it answers.
    pub fn form(&self) -> Form
        ensures form { result ≡ self.now.form }
        // Some bytes are this inbound data.
        ensures sent { IsSent self.now }
    {
        self.form
    }

    /// The size of the screen against which it was read.
    pub fn size(&self) -> Size
        ensures size { result ≡ self.now.size }
        ensures sent { IsSent self.now }
    {
        self.size
    }

    /// The AID: which key caused it.
    pub fn aid(&self) -> Aid
        ensures aid { result ≡ self.now.aid }
        ensures sent { IsSent self.now }
    {
        self.aid
    }

    /// The cursor's address, or `None` if the data is the AID alone (a PA key or Clear in form Modified).
    pub fn cursor(&self) -> Option<Addr>
        ensures cursor { result ≡ self.now.cursor }
        ensures in_range { IfSome result (λ cursor. cursor < cells_in self.now.size) }
        ensures alone { MatchOption result (stands_alone self.now.form self.now.aid ≡ true)
            (λ _. stands_alone self.now.form self.now.aid ≡ false) }
        ensures sent { IsSent self.now }
    {
        self.cursor
    }

    /// The parts after the cursor's address. In form Buffer there is one part for each cell.
    pub fn parts(&self) -> Parts<'a>
        ensures parts { result ≡ self.now.parts }
        ensures proper { AllOf (IsProperPart (cells_in self.now.size) self.now.form) result }
        ensures whole { self.now.form ≡ Buffer → length result ≡ cells_in self.now.size }
        ensures alone { stands_alone self.now.form self.now.aid ≡ true → result ≡ [] }
        ensures few { length result < 2 ^ 64 }
        ensures sent { IsSent self.now }
    {
        let text = self.text;
        // For the contract: the text has less than 2^64 bytes.
        let _bytes = text.len();
        Parts {
            size: self.size,
            form: self.form,
            text,
        }
    }

    /// The characters before the first address or, in form Buffer, before the first attribute.
    pub fn leading_text(&self) -> &'a [u8]
        ensures leading_text { result.now ≡ leading_text self.now.parts }
        ensures proper { (self.now.form ≡ Buffer → ⊥) → AllOf (λ char. is_text_char char ≡ true) result.now }
        ensures sent { IsSent self.now }
    {
        &self.text[..self.leading_text]
    }

    /// The returned fields, each with the address of its first cell. Form Buffer has none: use [`Inbound::cells`].
    pub fn returned(&self) -> ReturnedFields<'a>
        ensures returned { result ≡ returned self.now.parts }
        ensures proper { AllOf (IsProperReturned (cells_in self.now.size)) result }
        ensures few { length result < 2 ^ 64 }
        ensures sent { IsSent self.now }
    {
        // For the contract: the text has less than 2^64 bytes.
        let _bytes = self.text.len();
        ReturnedFields {
            size: self.size,
            text: self.field_bytes(),
        }
    }

    /// The cells of the screen, in the order of their addresses. The form must be Buffer.
    pub fn cells(&self) -> Cells<'a>
        requires { self.now.form ≡ Buffer }
        ensures cells { result ≡ cells_sent self.now.parts }
        ensures whole { length result ≡ cells_in self.now.size }
        ensures proper { AllOf IsStorableCell result }
        ensures sent { IsSent self.now }
    {
        Cells {
            size: self.size,
            text: self.text,
        }
    }

    /// The bytes of the returned fields, from the first one's SBA on. It is empty in form Buffer.
    fn field_bytes(&self) -> &'a [u8]
        ensures parts { AreParts (cells_in self.now.size) Modified
            (parts_in (cells_in self.now.size) Modified result.now) result.now }
        ensures start { prefix_len is_storable result.now ≡ 0 }
        ensures fields { returned (parts_in (cells_in self.now.size) Modified result.now) ≡ returned self.now.parts }
    {
        let fields = &self.text[self.leading_text..];
        match self.form {
            Form::Modified => fields,
            Form::All => fields,
            Form::Buffer => &[],
        }
    }
}

/// Whether inbound data of this form with this AID consists of the AID alone.
fn is_alone(form: Form, aid: &Aid) -> bool
    ensures { result ≡ stands_alone form aid.now }
{
    match form {
        Form::Modified => aid.is_short(),
        Form::All => false,
        Form::Buffer => false,
    }
}

fn inbound_of(bytes: &[u8], form: Form, size: Size) -> Result<Inbound<'_>, InboundFault>
    ensures { MatchResult result (λ inbound. (inbound.form ≡ form) × (inbound.size ≡ size)
        × IsInbound inbound bytes.now) (λ fault. IsNoInbound size form fault bytes.now) }
{
    let [byte, rest @ ..] = bytes else {
        return Err(InboundFault::Short);
    };
    let Some(aid) = aid_from_byte(*byte) else {
        return Err(InboundFault::BadAid);
    };
    if is_alone(form, &aid) {
        short_read(form, aid, *byte, rest, size)
    } else {
        long_inbound(form, aid, *byte, rest, size)
    }
}

/// Reads data that consists of its AID alone. `rest` is what follows the AID.
fn short_read(
    form: Form,
    aid: Aid,
    byte: u8,
    rest: &[u8],
    size: Size,
) -> Result<Inbound<'_>, InboundFault>
    requires known { aid_of byte ≡ Some aid }
    requires alone { stands_alone form aid ≡ true }
    ensures { MatchResult result (λ inbound. (inbound.form ≡ form) × (inbound.size ≡ size)
        × IsInbound inbound (byte ∷ rest.now)) (λ fault. IsNoInbound size form fault (byte ∷ rest.now)) }
{
    if rest.is_empty() {
        Ok(Inbound {
            form,
            size,
            aid,
            cursor: None,
            text: rest,
            leading_text: 0,
        })
    } else {
        Err(InboundFault::BadForm)
    }
}

/// Reads data that has a cursor address and parts. `rest` is what follows the AID.
fn long_inbound(
    form: Form,
    aid: Aid,
    byte: u8,
    rest: &[u8],
    size: Size,
) -> Result<Inbound<'_>, InboundFault>
    requires known { aid_of byte ≡ Some aid }
    requires long { stands_alone form aid ≡ false }
    ensures { MatchResult result (λ inbound. (inbound.form ≡ form) × (inbound.size ≡ size)
        × IsInbound inbound (byte ∷ rest.now)) (λ fault. IsNoInbound size form fault (byte ∷ rest.now)) }
{
    let [high, low, text @ ..] = rest else {
        return Err(InboundFault::Short);
    };
    let Ok(cursor) = addr_from_bytes([*high, *low], size) else {
        return Err(InboundFault::BadAddress);
    };
    check_parts(form, text, size)?;
    Ok(Inbound {
        form,
        size,
        aid,
        cursor: Some(cursor),
        text,
        leading_text: count_characters(text),
    })
}

/// Reads inbound data of a form, for a screen of this size, or returns the first fault in it.
///
/// Forms Modified and All have the AID, the cursor's address, any characters, and for each field SBA, the address of
/// its first cell and its characters. In form Modified a PA key or Clear has the AID alone. Form Buffer has the AID,
/// the cursor's address and a part for each cell (GA23-0059-07 on read commands). Our profile excludes nulls in a
/// field's text and defines the order in which faults are found.
pub fn read_inbound(bytes: &[u8], form: Form, size: Size) -> Result<Inbound<'_>, InboundFault>
    ensures found { MatchResult result (λ inbound. (inbound.form ≡ form) × (inbound.size ≡ size)
        × IsInbound inbound bytes.now) (λ fault. IsNoInbound size form fault bytes.now) }
    // There is no other inbound data of the form and the size, and no other fault.
    ensures only { (inbound : InboundParts) → inbound.form ≡ form → inbound.size ≡ size → IsInbound inbound bytes.now
        → result ≡ Ok inbound }
    ensures first { (fault : Fault) → IsNoInbound size form fault bytes.now → result ≡ Err fault }
{
    inbound_of(bytes, form, size)
}
