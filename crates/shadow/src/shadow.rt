//! What a host believes of a terminal's screen.
ghost use Rattle.std.specs.Prelude.{◌≡◌, ◌<◌, ◌≤◌, ◌+◌, ◌++◌, ◌==◌, ◌&&◌, true, false, Ok, Err, Some, MatchResult, MatchOption, OnOk, OnErr, length, replicate, option_map, vec_len, vec_capacity, if◌then◌else◌, IfSome};
ghost use Rattle.codes3270.specs.Size.{cells_in, most_cells};
ghost use Rattle.datastream.specs.Grammar.{is_write};
ghost use Rattle.datastream.specs.InboundFields.{cells_sent};
ghost use Rattle.datastream.specs.declared.command_code.CommandCode.TheVariants.{Write};
ghost use Rattle.datastream.specs.declared.inbound_part.Form.TheVariants.{Buffer};
ghost use Rattle.shadow.specs.Appending.{WritesSome};
ghost use Rattle.shadow.specs.Queries.{known_at, fact_at, value_at, text_at};
ghost use Rattle.shadow.specs.Belief.{cells_believed, IsOfSize, HasCell};
ghost use Rattle.shadow.specs.Belief.Shadow.{NothingKnown, Unformatted};
ghost use Rattle.shadow.specs.Doubt.{doubted};
ghost use Rattle.shadow.specs.Fits.{fits, is_paintable};
ghost use Rattle.shadow.specs.Heard.{heard, heard_parts, heard_short};
ghost use Rattle.shadow.specs.InPlace.{shadow_held, has_fields, IsHeld};
ghost use Rattle.shadow.specs.Paint.{paint_bytes, writes_over, is_base_size, erase_code};
ghost use Rattle.shadow.specs.RuleBreaks.{rule_break};
ghost use Rattle.shadow.specs.Settled.{is_settled};
ghost use Rattle.shadow.specs.AfterReadBuffer.{heard_buffer};
ghost use Rattle.shadow.specs.Stores.{is_plain};
ghost use Rattle.shadow.specs.Taken.{taken, taken_write, taken_erase};

use crate::apply_inbound::{after_attention, check_fields, take_fields};
use crate::apply_write::{erase_over, write_over};
use crate::buffer::{any_other, put_read};
use crate::cell_beliefs::CellBeliefs;
use crate::fact::Fact;
use crate::fault::HeardFault;
use crate::field_text::FieldText;
use crate::fitting::{fits_fields, fits_over};
use crate::painting::{Base, put_cells};
use crate::queries::{
    all_settled, fact_held_at, has_attribute, known_held_at, text_held_at, value_held_at,
};
use crate::rule_break::RuleBreak;
use crate::verifying::first_break;
use crate::writing::stores_unplaced;
use codes3270::{Addr, Aid, Cell, Size, Wcc};
use datastream::{Command, CommandCode, CommandWriter, Form, Inbound, Memory, Wanted};
use std::marker::Model;

/// What a host believes of a terminal's screen: nothing, the characters of an unformatted screen, or its fields.
/// Contracts see it as data, from which the number of cells follows. It is held cell by cell, with room for the largest
/// screen, and changed in place.
#[derive(Drop)]
pub struct Shadow {
    /// Whether something is known.
    knows: bool,
    beliefs: CellBeliefs,
}

impl Model for Shadow {
    ghost use Rattle.shadow.specs.Belief.{Shadow as ShadowValue};
    ghost use Rattle.shadow.specs.InPlace.{shadow_held, IsHeld};

    ghost Value = { ShadowValue };

    ghost view = { λ shadow. shadow_held shadow.knows shadow.beliefs };

    ghost invariant = { λ shadow. IsHeld shadow.beliefs };
}

impl Shadow {
    /// The shadow of a screen of which nothing is known, not even the size.
    pub fn blank() -> Shadow
        ensures { result ≡ NothingKnown }
    {
        Shadow {
            knows: false,
            beliefs: CellBeliefs::unknown(Size::base()),
        }
    }

    /// The size of the believed screen; `None` if nothing is known.
    pub fn size(&self) -> Option<Size>
        ensures { option_map cells_in result ≡ cells_believed self.now }
    {
        match self.held() {
            Some(beliefs) => Some(beliefs.size()),
            None => None,
        }
    }

    /// Updates the belief once the terminal has carried out a command, which must be a plain write (`plain`). A Write
    /// must have been read for the believed size, unless nothing is known; an erase sets the size.
    pub fn sent_taken(&mut self, command: &Command<'_>)
        requires plain { is_plain command.now ≡ true }
        requires size { command.now.code ≡ Write → IsOfSize (cells_in command.now.size) self.old }
        ensures taken { self.new ≡ taken (cells_in command.now.size) command.now self.old }
        ensures size { IsOfSize (cells_in command.now.size) self.new }
    {
        match command.code() {
            CommandCode::Write => self.take_write(command),
            CommandCode::EraseWrite => self.take_erase(command),
            CommandCode::EraseWriteAlternate => self.take_erase(command),
            CommandCode::ReadBuffer => {}
            CommandCode::ReadModified => {}
            CommandCode::ReadModifiedAll => {}
            CommandCode::EraseAllUnprotected => {}
        }
    }

    /// Updates the belief from inbound data, which must have been read for the believed size, unless nothing is known;
    /// then Clear and the answer to Read Buffer give the size. `NoSuchField` if an address is that of no field's first
    /// cell; `Contradiction` if the data can't come from a screen that is so believed. An error changes nothing.
    pub fn heard(&mut self, inbound: &Inbound<'_>) -> Result<(), HeardFault>
        requires { IsOfSize (cells_in inbound.now.size) self.old }
        ensures { let heard = heard (cells_in inbound.now.size) self.old inbound.now in
            MatchResult result (λ _. heard ≡ Ok self.new) (λ fault. (heard ≡ Err fault) × (self.new ≡ self.old)) }
    {
        match inbound.form() {
            Form::Modified => {
                if inbound.aid().is_short() {
                    self.hear_key(inbound.aid(), inbound.size());
                    Ok(())
                } else {
                    self.hear_fields(inbound)
                }
            }
            Form::All => self.hear_fields(inbound),
            Form::Buffer => self.hear_buffer(inbound),
        }
    }

    /// The rule that a terminal has broken, if the answer to Read Buffer shows one; `None` if it shows none, or nothing
    /// is known. The operator may have changed input since the last key. The data must have been read for the believed
    /// size, unless nothing is known.
    pub fn rule_break(&self, inbound: &Inbound<'_>) -> Option<RuleBreak>
        requires form { inbound.now.form ≡ Buffer }
        requires size { IsOfSize (cells_in inbound.now.size) self.now }
        ensures { result ≡ rule_break self.now (cells_sent inbound.now.parts) }
    {
        match self.held() {
            Some(beliefs) => first_break(beliefs, inbound.cells()),
            None => None,
        }
    }

    /// Notes that the operator may have changed input since the last inbound data: each unprotected field may then hold
    /// any characters, and its MDT is unknown. Attributes (but for that MDT) and protected characters stay known. Of an
    /// unformatted screen, in which every cell takes input, nothing stays known.
    pub fn doubt(&mut self)
        ensures { self.new ≡ doubted self.old }
    {
        if self.is_formatted() {
            after_attention(&mut self.beliefs);
        } else {
            self.knows = false;
        }
    }

    /// The cell at an address (0-based), or `None` if it isn't known. An attribute whose MDT isn't known is returned
    /// with MDT off. Unless nothing is known, the address must be below the believed number of cells.
    pub fn known(&self, addr: Addr) -> Option<Cell>
        requires { HasCell addr self.now }
        ensures { result ≡ known_at self.now addr }
    {
        match self.held() {
            Some(beliefs) => known_held_at(beliefs, addr.get() as usize),
            None => None,
        }
    }

    /// What is believed of the text of the field whose attribute is at an address; `None` if no attribute is believed
    /// to be there. Unless nothing is known, the address must be below the believed number of cells.
    pub fn fact(&self, attr: Addr) -> Option<Fact>
        requires { HasCell attr self.now }
        ensures { result ≡ fact_at attr self.now }
    {
        match self.held() {
            Some(beliefs) => fact_held_at(beliefs, attr.get() as usize),
            None => None,
        }
    }

    /// One character of the text in a field's fact, by its 0-based index; `None` past the end of the text, if the fact
    /// is `Any`, or if no attribute is believed to be at the address. Unless nothing is known, the address must be
    /// below the believed number of cells.
    pub fn value(&self, attr: Addr, index: usize) -> Option<u8>
        requires { HasCell attr self.now }
        ensures value { result ≡ value_at attr index self.now }
        ensures few { IfSome result (λ char. index < most_cells) }
    {
        match self.held() {
            Some(beliefs) => value_held_at(beliefs, attr.get() as usize, index),
            None => None,
        }
    }

    /// The text in the fact of the field whose attribute is at an address, as an iterator over its characters. It is
    /// empty if the fact is `Any` or no attribute is believed to be there. Unless nothing is known, the address must be
    /// below the believed number of cells.
    pub fn text(&self, attr: Addr) -> FieldText<'_>
        requires { HasCell attr self.now }
        ensures text { result ≡ text_at attr self.now }
        ensures few { length result < most_cells }
    {
        match self.held() {
            Some(beliefs) => text_held_at(beliefs, attr.get() as usize),
            None => FieldText::none(&self.beliefs),
        }
    }

    /// Whether the text of each field is known, but for its nulls: each fact is `Exact` or `Text`. True if the belief has
    /// no fields.
    pub fn is_settled(&self) -> bool
        ensures { result ≡ is_settled self.now }
    {
        match self.held() {
            Some(beliefs) => all_settled(beliefs),
            None => true,
        }
    }

    /// Whether a wanted screen has the believed size (any, if nothing is known) and has Keep only in unprotected fields
    /// that are believed to be there, with the same attribute (but for MDT) and length.
    pub fn fits(&self, wanted: &Wanted) -> bool
        ensures { result ≡ fits self.now wanted.now }
    {
        match self.held() {
            Some(beliefs) => fits_over(beliefs, wanted),
            None => fits_fields(None, wanted),
        }
    }

    /// Appends the bytes of the write that makes a wanted screen, which must fit (`fits`) or have no Keep. It is a
    /// Write if the belief has fields and the wanted size; else an Erase/Write (24 by 80) or Erase/Write Alternate (any
    /// other size). Its orders store each cell that isn't known to be right, in order of address, with an SBA before
    /// each run, and set the cursor (SBA, IC). `Memory` if an allocation fails, which can't happen if the vector has
    /// room; `out` is unchanged then.
    pub fn paint(&self, out: &mut Vec<u8>, wanted: &Wanted) -> Result<(), Memory>
        requires { is_paintable self.now wanted.now ≡ true }
        ensures painted { OnOk result
            (out.new.items ≡ out.old.items ++ paint_bytes (cells_in wanted.now.size) self.now wanted.now) }
        ensures unchanged { OnErr result (out.new.items ≡ out.old.items) }
        ensures room { OnErr result (vec_capacity out.old
            < vec_len out.old + length (paint_bytes (cells_in wanted.now.size) self.now wanted.now)) }
        ensures capacity { vec_capacity out.old ≤ vec_capacity out.new }
    {
        let len = out.len();
        let mut writer = CommandWriter::new(out);
        match self.put_paint(&mut writer, wanted) {
            Ok(()) => Ok(()),
            Err(error) => {
                writer.out.truncate(len);
                Err(error)
            }
        }
    }
    /// What is held of each cell; `None` if nothing is known.
    fn held(&self) -> Option<&CellBeliefs>
        ensures { MatchOption result (self.now ≡ NothingKnown)
            (λ beliefs. (self.now ≡ shadow_held true beliefs.now) × IsHeld beliefs.now) }
    {
        if self.knows {
            Some(&self.beliefs)
        } else {
            None
        }
    }

    /// Whether something is known, and the screen has fields.
    fn is_formatted(&self) -> bool
        ensures { result ≡ has_fields self.now }
    {
        self.knows && has_attribute(&self.beliefs)
    }
}

impl Shadow {
    /// Whether something is known, and the screen has fields and this many cells.
    fn has_fields_of(&self, cells: usize) -> bool
        ensures { result ≡ writes_over cells self.now }
    {
        is_filled(self.is_formatted(), self.beliefs.len(), cells)
    }
}

// How writes and inbound data change it.
impl Shadow {
    /// Updates the belief for a plain Write.
    fn take_write(&mut self, command: &Command<'_>)
        requires { IsOfSize (cells_in command.now.size) self.old }
        ensures taken { self.new ≡ taken_write (cells_in command.now.size) command.now.wcc command.now.orders self.old }
        ensures size { IsOfSize (cells_in command.now.size) self.new }
    {
        if !self.knows {
            return;
        }
        if stores_unplaced(command.orders()) {
            self.knows = false;
            return;
        }
        write_over(&mut self.beliefs, command);
    }

    /// Updates the belief for a plain Erase/Write or Erase/Write Alternate.
    fn take_erase(&mut self, command: &Command<'_>)
        requires { is_plain command.now ≡ true }
        ensures taken { self.new ≡ taken_erase command.now }
        ensures size { IsOfSize (cells_in command.now.size) self.new }
    {
        erase_over(&mut self.beliefs, command);
        self.knows = true;
    }

    /// Updates the belief for a key that sends its AID alone.
    fn hear_key(&mut self, aid: Aid, size: Size)
        ensures { self.new ≡ heard_short (cells_in size) aid self.old }
    {
        match aid {
            Aid::Clear => self.hear_clear(size),
            Aid::Pa(_) => self.doubt(),
            Aid::NoAid => self.doubt(),
            Aid::Enter => self.doubt(),
            Aid::Pf(_) => self.doubt(),
        }
    }

    /// Updates the belief for the Clear key on a screen of this size.
    fn hear_clear(&mut self, size: Size)
        ensures { self.new ≡ Unformatted (replicate (cells_in size) (Some 0)) }
    {
        self.beliefs.clear(size);
        self.knows = true;
    }

    /// Updates the belief from data that returns fields.
    fn hear_fields(&mut self, inbound: &Inbound<'_>) -> Result<(), HeardFault>
        requires { IsOfSize (cells_in inbound.now.size) self.old }
        ensures { let heard = heard_parts (cells_in inbound.now.size) self.old inbound.now.parts in
            MatchResult result (λ _. heard ≡ Ok self.new) (λ fault. (heard ≡ Err fault) × (self.new ≡ self.old)) }
    {
        if !self.is_formatted() {
            return self.hear_unformatted(inbound);
        }
        match check_fields(&self.beliefs, inbound) {
            Ok(erased) => {
                take_fields(&mut self.beliefs, erased, inbound.returned());
                Ok(())
            }
            Err(fault) => Err(fault),
        }
    }

    /// Updates the belief from data that returns fields, if no field is believed to be there.
    fn hear_unformatted(&mut self, inbound: &Inbound<'_>) -> Result<(), HeardFault>
        requires { has_fields self.old ≡ false }
        ensures { let heard = heard_parts (cells_in inbound.now.size) self.old inbound.now.parts in
            MatchResult result (λ _. heard ≡ Ok self.new) (λ fault. (heard ≡ Err fault) × (self.new ≡ self.old)) }
    {
        match inbound.returned().next() {
            Some(_) => Err(HeardFault::NoSuchField),
            None if self.knows && self.beliefs.len() < inbound.leading_text().len() => {
                Err(HeardFault::Contradiction)
            }
            None => {
                self.knows = false;
                Ok(())
            }
        }
    }

    /// Updates the belief from the answer to Read Buffer, which has every cell.
    fn hear_buffer(&mut self, inbound: &Inbound<'_>) -> Result<(), HeardFault>
        requires form { inbound.now.form ≡ Buffer }
        requires size { IsOfSize (cells_in inbound.now.size) self.old }
        ensures { let heard = heard_buffer self.old (cells_sent inbound.now.parts) in
            MatchResult result (λ _. heard ≡ Ok self.new) (λ fault. (heard ≡ Err fault) × (self.new ≡ self.old)) }
    {
        if self.knows && any_other(&self.beliefs, inbound.cells()) {
            return Err(HeardFault::Contradiction);
        }
        put_read(&mut self.beliefs, inbound.cells(), inbound.size());
        self.knows = true;
        Ok(())
    }

    /// Writes the command that paints a wanted screen.
    fn put_paint(&self, writer: &mut CommandWriter<'_>, wanted: &Wanted) -> Result<(), Memory>
        ensures { WritesSome writer.old.out writer.new.out result
            (paint_bytes (cells_in wanted.now.size) self.now wanted.now) }
    {
        let size = wanted.size();
        let cells = usize::from(size.cells());
        let formatted = self.has_fields_of(cells);
        let reset = wanted.reset();
        let wcc = Wcc {
            alarm: false,
            restore: true,
            reset,
        };
        let base = Base {
            beliefs: &self.beliefs,
            formatted,
            cells,
            reset,
        };
        match writer.begin(paint_code(formatted, size), wcc) {
            Ok(()) => put_cells(writer, wanted, &base, wanted.cursor()),
            Err(error) => Err(error),
        }
    }
}

/// Whether a screen has fields, and as many cells (`count`) as are wanted (`cells`).
fn is_filled(formatted: bool, count: usize, cells: usize) -> bool
    ensures { result ≡ (formatted && count == cells) }
{
    formatted && count == cells
}

/// The code of a paint: Write over a formatted screen, or the erase that sets this size.
fn paint_code(formatted: bool, size: Size) -> CommandCode
    ensures code { result ≡ (if formatted then Write else erase_code size) }
    ensures write { is_write result ≡ true }
{
    if formatted {
        CommandCode::Write
    } else if is_base(size) {
        CommandCode::EraseWrite
    } else {
        CommandCode::EraseWriteAlternate
    }
}

/// Whether a size is 24 by 80, which Erase/Write sets.
fn is_base(size: Size) -> bool
    ensures { result ≡ is_base_size size }
{
    size.rows() == Size::base().rows() && size.cols() == Size::base().cols()
}
