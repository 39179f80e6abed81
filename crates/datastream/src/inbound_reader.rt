//! Reading the parts of inbound data.
ghost use Rattle.std.specs.Prelude.{◌≡◌, ◌<◌, ◌≤◌, ℕ, Err, MatchResult, drop, length};
ghost use Rattle.std.specs.Iterator.{YieldsFirst, item_count};
ghost use Rattle.codes3270.specs.Size.{cells_in};
ghost use Rattle.datastream.specs.declared.inbound_part.Form.TheVariants.{Buffer};
ghost use Rattle.datastream.specs.InboundText.{AreParts, IsWhole, HasPartFault};
ghost use Rattle.datastream.specs.InboundReading.{Gives, address_at, attribute_at, text_part_at, cell_part_at, part_at, parts_in, IsReadTo};
ghost use Rattle.datastream.specs.Screen.{text_before_attribute};

use crate::characters::{behind_words, count_characters};
use crate::inbound_part::{Form, InboundFault, Part};
use crate::order_codes::{SET_BUFFER_ADDRESS, START_FIELD};
use codes3270::{Attr, Cell, Size, addr_from_bytes, storable};
use std::marker::Model;

/// An iterator over the remaining parts of inbound data. Contracts see their list.
#[derive(Drop)]
pub struct Parts<'a> {
    pub(crate) size: Size,
    pub(crate) form: Form,
    pub(crate) text: &'a [u8],
}

impl<'a> Model for Parts<'a> {
    ghost use Rattle.std.specs.Prelude.{List};
    ghost use Rattle.codes3270.specs.Size.{cells_in};
    ghost use Rattle.datastream.specs.declared.inbound_part.Part.{Part};
    ghost use Rattle.datastream.specs.InboundReading.{parts_in};

    ghost Value = { List Part };

    ghost view = { λ parts. parts_in (cells_in parts.size) parts.form parts.text.now };
}

impl<'a> Iterator for Parts<'a> {
    type Item = Part;

    ghost next_gives = { YieldsFirst (λ parts. parts) };

    ghost remaining = { item_count (λ parts. parts) };

    fn next(&mut self) -> Option<Part> {
        match part_of(self.form, self.text, self.size) {
            Ok((part, rest)) => {
                self.text = rest;
                Some(part)
            }
            Err(_) => None,
        }
    }
}

/// An iterator over the remaining cells of a buffer. Contracts see their list.
#[derive(Drop)]
pub struct Cells<'a> {
    pub(crate) size: Size,
    pub(crate) text: &'a [u8],
}

impl<'a> Model for Cells<'a> {
    ghost use Rattle.std.specs.Prelude.{List};
    ghost use Rattle.codes3270.specs.Size.{cells_in};
    ghost use Rattle.codes3270.specs.declared.attribute.Cell.{Cell};
    ghost use Rattle.datastream.specs.declared.inbound_part.Form.TheVariants.{Buffer};
    ghost use Rattle.datastream.specs.InboundReading.{parts_in};
    ghost use Rattle.datastream.specs.InboundFields.{cells_sent};

    ghost Value = { List Cell };

    ghost view = { λ cells. cells_sent (parts_in (cells_in cells.size) Buffer cells.text.now) };
}

impl<'a> Cells<'a> {
    /// A second iterator over the remaining cells. Advancing one doesn't advance the other.
    pub fn copy(&self) -> Cells<'a>
        ensures { result ≡ self.now }
    {
        Cells {
            size: self.size,
            text: self.text,
        }
    }

    /// Removes the characters at the front, up to the next attribute, and returns them.
    #[inline(always)]
    pub fn characters(&mut self) -> &'a [u8]
        ensures characters { result.now ≡ text_before_attribute self.old }
        ensures left { self.new ≡ drop (length result.now) self.old }
    {
        let (characters, others) = self.text.split_at(count_characters(self.text));
        self.text = others;
        characters
    }
}

impl<'a> Iterator for Cells<'a> {
    type Item = Cell;

    ghost next_gives = { YieldsFirst (λ cells. cells) };

    ghost remaining = { item_count (λ cells. cells) };

    fn next(&mut self) -> Option<Cell> {
        match cell_part_of(self.text) {
            Ok((part, rest)) => {
                self.text = rest;
                part.cell()
            }
            Err(_) => None,
        }
    }
}

// Each of these functions reads something from the front of the bytes and returns it with the bytes after it.

/// Reads an address, after the code of its order.
fn address_part_of(bytes: &[u8], size: Size) -> Result<(Part, &[u8]), InboundFault>
    ensures { Gives (λ x. (x.0, x.1.now)) result (address_at (cells_in size) bytes.now) }
{
    match bytes {
        [high, low, rest @ ..] => match addr_from_bytes([*high, *low], size) {
            Ok(addr) => Ok((Part::At(addr), rest)),
            Err(_) => Err(InboundFault::BadAddress),
        },
        _ => Err(InboundFault::BadForm),
    }
}

/// Reads an attribute, after the code of its order.
fn attribute_part_of(bytes: &[u8]) -> Result<(Part, &[u8]), InboundFault>
    ensures { Gives (λ x. (x.0, x.1.now)) result (attribute_at bytes.now) }
{
    match bytes {
        [code, rest @ ..] => Ok((Part::Attr(Attr::from_code(*code)), rest)),
        [] => Err(InboundFault::Short),
    }
}

/// Reads an SBA with its address, or a character, of the modified fields.
#[tactic(auto, unfolding(crate::specs::InboundReading::text_part_at))]
fn text_part_of(bytes: &[u8], size: Size) -> Result<(Part, &[u8]), InboundFault>
    ensures { Gives (λ x. (x.0, x.1.now)) result (text_part_at (cells_in size) bytes.now) }
{
    match bytes {
        [] => Err(InboundFault::Short),
        [SET_BUFFER_ADDRESS, rest @ ..] => address_part_of(rest, size),
        [byte, rest @ ..] => {
            if storable(*byte) && *byte != 0 {
                Ok((Part::Char(*byte), rest))
            } else {
                Err(InboundFault::BadForm)
            }
        }
    }
}

/// Reads a cell of the buffer: a character, or SF with its attribute.
#[tactic(auto, unfolding(crate::specs::InboundReading::cell_part_at))]
fn cell_part_of(bytes: &[u8]) -> Result<(Part, &[u8]), InboundFault>
    ensures { Gives (λ x. (x.0, x.1.now)) result (cell_part_at bytes.now) }
{
    match bytes {
        [] => Err(InboundFault::Short),
        [START_FIELD, rest @ ..] => attribute_part_of(rest),
        [byte, rest @ ..] => {
            if storable(*byte) {
                Ok((Part::Char(*byte), rest))
            } else {
                Err(InboundFault::BadForm)
            }
        }
    }
}

fn part_of(form: Form, bytes: &[u8], size: Size) -> Result<(Part, &[u8]), InboundFault>
    ensures { Gives (λ x. (x.0, x.1.now)) result (part_at (cells_in size) form bytes.now) }
{
    match form {
        Form::Modified => text_part_of(bytes, size),
        Form::All => text_part_of(bytes, size),
        Form::Buffer => cell_part_of(bytes),
    }
}

/// Checks that a text consists of parts of modified fields. Fails with the first fault.
fn check_fields(form: Form, text: &[u8], size: Size) -> Result<(), InboundFault>
    requires { form ≡ Buffer → ⊥ }
    ensures { MatchResult result (λ _. AreParts (cells_in size) form (parts_in (cells_in size) form text.now) text.now)
        (λ fault. HasPartFault (cells_in size) form fault text.now) }
{
    let mut rest = behind_words(text);
    while !rest.is_empty() {
        match part_of(form, rest, size) {
            Ok((_, after)) => rest = behind_words(after),
            Err(fault) => return Err(fault),
        }
    }
    Ok(())
}

/// Passes over cells at the front of a text, from one to `most`. Returns how many, and the bytes after them.
#[inline(always)]
fn pass_cells(text: &[u8], most: usize) -> Result<(usize, &[u8]), InboundFault>
    requires { 0 < most }
    ensures { MatchResult result (λ passed. (0 < passed.0) × (passed.0 ≤ most) × ((size : ℕ)
        → IsReadTo size Buffer text.now passed.0 passed.1.now)) (λ fault. cell_part_at text.now ≡ Err fault) }
{
    let count = count_characters(text).min(most);
    if count > 0 {
        let (_, rest) = text.split_at(count);
        return Ok((count, rest));
    }
    match cell_part_of(text) {
        Ok((_, rest)) => Ok((1, rest)),
        Err(fault) => Err(fault),
    }
}

/// Checks that a text consists of exactly as many cells as the screen has. Fails with the first fault.
fn check_cells(text: &[u8], size: Size) -> Result<(), InboundFault>
    ensures { MatchResult result (λ _. AreParts (cells_in size) Buffer (parts_in (cells_in size) Buffer text.now)
        text.now × IsWhole (cells_in size) Buffer (parts_in (cells_in size) Buffer text.now))
        (λ fault. HasPartFault (cells_in size) Buffer fault text.now) }
{
    let mut rest = text;
    let mut left = usize::from(size.cells());
    while left > 0 {
        match pass_cells(rest, left) {
            Ok((count, after)) => {
                left -= count;
                rest = after;
            }
            Err(fault) => return Err(fault),
        }
    }
    if rest.is_empty() {
        Ok(())
    } else {
        Err(InboundFault::BadForm)
    }
}

/// Checks that a text is what a form has after the AID and the cursor's address. Fails with the first fault.
pub(crate) fn check_parts(form: Form, text: &[u8], size: Size) -> Result<(), InboundFault>
    ensures { MatchResult result (λ _. AreParts (cells_in size) form (parts_in (cells_in size) form text.now) text.now
        × IsWhole (cells_in size) form (parts_in (cells_in size) form text.now))
        (λ fault. HasPartFault (cells_in size) form fault text.now) }
{
    match form {
        Form::Modified => check_fields(Form::Modified, text, size),
        Form::All => check_fields(Form::All, text, size),
        Form::Buffer => check_cells(text, size),
    }
}
