//! The screens that panels ask for.
ghost use Rattle.std.specs.Prelude.{◌≡◌, ◌<◌, ℕ, [], All, true, false, IfSome, option_and_then, option_map, unwrap_or, replicate, slice_index_or, option_copied};
ghost use Rattle.std.specs.Option.{option_map_or};
ghost use Rattle.codes3270.specs.CodePage.{code_of};
ghost use Rattle.codes3270.specs.Size.{cells_in};
ghost use Rattle.codes3270.specs.Storable.{is_storable};
ghost use Rattle.datastream.specs.Wanted.{IsProper};
ghost use Rattle.datastream.specs.declared.wanted.Want.{Want as WantValue};
ghost use Rattle.datastream.specs.declared.wanted.Want.TheVariants.{Char};
ghost use Rattle.panels.specs.Characters.{AreCharacters};
ghost use Rattle.panels.specs.Screen.{distance_in, autoskip_attr, text_cell, first_some, field_cell, field_numbered, stopper_cell, IsWantedOf, screen_of};
ghost use Rattle.panels.specs.declared.message.Message.TheVariants.{Fresh};
ghost use Rattle.panels.specs.Panel.{size_of};
ghost use Rattle.panels.specs.Put.{FitsOn, IsPut, cell_with, field_spoken, row_cell, text_with};
ghost use Rattle.panels.specs.Size.{message_start};

use crate::extent::Extent;
use crate::message::Message;
use crate::panel::{Content, Field, Panel, TextItem};
use crate::size::message_start;
use crate::values::Values;
use codes3270::Display::{Bright, Hidden, Normal};
use codes3270::{Attr, from_latin1};
use datastream::{Want, Wanted};

/// The cell of an item at a distance from its attribute. Without a content, the cells after the attribute keep theirs.
fn cell_of(attr: Attr, content: Option<&[u8]>, distance: u16) -> Want
    requires { IfSome content (λ bytes. AreCharacters bytes.now) }
    ensures cell { result ≡ cell_with attr (option_map (λ bytes. bytes.now) content.entry) distance }
    ensures proper { IsProper result }
{
    match content {
        _ if distance == 0 => Want::Attr(attr),
        Some(bytes) => Want::Char(bytes.get(distance as usize - 1).copied().unwrap_or(0)),
        None => Want::Keep,
    }
}

/// Puts the cells of an item, its attribute first, over the cells that are there.
fn put_item(wanted: &mut Wanted, extent: Extent, attr: Attr, content: Option<&[u8]>)
    requires fits { FitsOn wanted.old.size extent }
    requires characters { IfSome content (λ bytes. AreCharacters bytes.now) }
    ensures { IsPut (λ cell. option_map (cell_with attr (option_map (λ bytes. bytes.now) content.entry))
        (distance_in extent cell)) wanted.old wanted.new }
{
    let start = extent.first - 1;
    for distance in 0..extent.length + 1 {
        let cell = start + distance;
        wanted.put(cell as usize, cell_of(attr, content, distance));
    }
}

/// The attribute of a text or a message, and of the cell after a field: the cursor skips it.
fn skipped_attr(bright: bool) -> Attr
    ensures { result ≡ autoskip_attr bright }
{
    Attr {
        protected: true,
        numeric: true,
        display: if bright { Bright } else { Normal },
        mdt: false,
    }
}

/// Puts the cells of texts. If two share a cell, the first has it.
fn put_texts(wanted: &mut Wanted, values: &Values, texts: &[TextItem])
    requires { All (λ text. FitsOn wanted.old.size text.extent) texts.now }
    ensures { IsPut (λ cell. first_some (text_cell values.now cell) texts.now) wanted.old wanted.new }
{
    for index in (0..texts.len()).rev() {
        let text = &texts[index];
        let attr = skipped_attr(text.bright);
        let content = match &text.content {
            Content::Literal(literal) => literal.as_slice(),
            Content::Show(number) => values.get(*number).unwrap_or(&[]),
        };
        put_item(wanted, text.extent, attr, Some(content));
    }
}

/// Puts the cells of a field: its attribute, then its value or its fill; with `keep` only the attribute.
fn put_field(wanted: &mut Wanted, values: &Values, message: &Message, keep: bool, field: &Field)
    requires { FitsOn wanted.old.size field.now.extent }
    ensures { IsPut (λ cell. field_cell values.now message.now keep cell field.now) wanted.old wanted.new }
{
    let value = match message {
        Message::Fresh => None,
        Message::Plain | Message::KeyNotActive | Message::Required(_) | Message::Told(_, _) => {
            values.get(field.number)
        }
    };
    let attr = Attr {
        protected: false,
        numeric: field.numeric,
        display: if field.hidden { Hidden } else { Normal },
        mdt: field.marked || (!keep && value.is_some_and(|value| !value.is_empty())),
    };
    let content = value.unwrap_or(field.fill.as_slice());
    let written = if keep { None } else { Some(content) };
    put_item(wanted, field.extent, attr, written);
}

/// Puts the cells of fields. If two share a cell, the first has it.
fn put_fields(wanted: &mut Wanted, values: &Values, message: &Message, keep: bool, fields: &[Field])
    requires { All (λ field. FitsOn wanted.old.size field.extent) fields.now }
    ensures { IsPut (λ cell. first_some (field_cell values.now message.now keep cell) fields.now) wanted.old
        wanted.new }
{
    for index in (0..fields.len()).rev() {
        put_field(wanted, values, message, keep, &fields[index]);
    }
}

/// Puts the attribute after each field, at which the field ends.
fn put_stoppers(wanted: &mut Wanted, fields: &[Field])
    requires { All (λ field. FitsOn wanted.old.size field.extent) fields.now }
    ensures { IsPut (λ cell. first_some (stopper_cell cell) fields.now) wanted.old wanted.new }
{
    for index in (0..fields.len()).rev() {
        let extent = fields[index].extent;
        let end = extent.first + extent.length;
        wanted.put(end as usize, Want::Attr(skipped_attr(false)));
    }
}

const REQUIRED: &[u8; 10] = b"REQUIRED: ";

/// The code of a byte of Latin-1; a null for none, or for one without a code.
fn code_or_null(byte: Option<u8>) -> u8
    ensures code { result ≡ unwrap_or (option_and_then code_of byte) 0 }
    ensures storable { is_storable result ≡ true }
{
    match byte {
        None | Some(0) => 0,
        Some(byte) => from_latin1(char::from(byte)).unwrap_or(0),
    }
}

/// A byte, in the host's code, of the text of a message that names a field with this title; a null after its end.
fn message_byte(message: &Message, title: &[u8], index: usize) -> u8
    requires { AreCharacters title.now }
    ensures byte { result ≡ slice_index_or (text_with title.now message.now) index 0 }
    ensures storable { is_storable result ≡ true }
{
    match message {
        Message::Fresh | Message::Plain => 0,
        Message::KeyNotActive => code_or_null(b"KEY NOT ACTIVE".get(index).copied()),
        Message::Required(_) if index < REQUIRED.len() => {
            code_or_null(REQUIRED.get(index).copied())
        }
        Message::Required(_) => title.get(index - REQUIRED.len()).copied().unwrap_or(0),
        Message::Told(text, _) => code_or_null(text.characters.get(index).copied()),
    }
}

/// The title of a field, in the host's code; empty without a field.
fn title_of<'a>(field: Option<&'a Field>) -> &'a [u8]
    ensures title { result.now ≡ option_map_or (λ field. field.title) (option_copied field.entry) [] }
    ensures characters { AreCharacters result.now }
{
    match field {
        Some(field) => field.title.as_slice(),
        None => &[],
    }
}

/// Puts the message row; `title` is that of the field that the message names.
fn put_message(wanted: &mut Wanted, message: &Message, title: &[u8])
    requires { AreCharacters title.now }
    ensures { IsPut (row_cell (message_start wanted.old.size) (text_with title.now message.now)) wanted.old wanted.new }
{
    let size = wanted.size();
    let start = usize::from(message_start(size));
    let room = usize::from(size.cols()) - 1;
    wanted.put(start, Want::Attr(skipped_attr(true)));
    for index in 0..room {
        let byte = message_byte(message, title, index);
        wanted.put(start + 1 + index, Want::Char(byte));
    }
}

impl Panel {
    /// The field that a message names, or puts the cursor in, if the panel has it.
    fn field_of(&self, message: &Message) -> Option<&Field>
        ensures { option_copied result ≡ field_spoken self.now.fields message.now }
    {
        match message.field() {
            Some(number) => self.field_numbered(number),
            None => None,
        }
    }

    /// The panel's field with a number, from 0 over the whole text.
    fn field_numbered(&self, number: usize) -> Option<&Field>
        ensures { option_copied result ≡ field_numbered number self.now.fields }
    {
        self.fields.iter().find(|field| field.number == number)
    }

    /// The screen that the panel asks for, of the panel's size, with these values of fields and this message (our
    /// profile). With `keep` it keeps what the operator typed in the fields; for a fresh panel `keep` must be false.
    pub fn wanted(&self, values: &Values, message: Message, keep: bool) -> Wanted
        requires { (message ≡ Fresh) → keep ≡ false }
        ensures wanted { IsWantedOf self.now values.now message keep result }
        ensures screen { result ≡ screen_of self.now values.now message keep }
    {
        let mut wanted = Wanted::filled(Want::Char(0), self.size());
        self.put_wanted(&mut wanted, values, message, keep);
        wanted
    }

    /// Puts the screen that the panel asks for on `wanted`, which must have the panel's size and a null in each cell.
    pub fn put_wanted(&self, wanted: &mut Wanted, values: &Values, message: Message, keep: bool)
        requires size { wanted.old.size ≡ size_of self.now }
        requires nulls { wanted.old.cells ≡ replicate (cells_in wanted.old.size) (Char 0) }
        requires fresh { (message ≡ Fresh) → keep ≡ false }
        ensures wanted { IsWantedOf self.now values.now message keep wanted.new }
        ensures screen { wanted.new ≡ screen_of self.now values.now message keep }
    {
        self.put_items(wanted, values, message, keep);
    }

    /// Puts the screen that the panel asks for; the contract requires the nulls cell by cell.
    fn put_items(&self, wanted: &mut Wanted, values: &Values, message: Message, keep: bool)
        requires size { wanted.old.size ≡ size_of self.now }
        requires nulls { (cell : ℕ) (default : WantValue) → cell < cells_in wanted.old.size
            → slice_index_or wanted.old.cells cell default ≡ Char 0 }
        requires fresh { (message ≡ Fresh) → keep ≡ false }
        ensures wanted { IsWantedOf self.now values.now message keep wanted.new }
        ensures screen { wanted.new ≡ screen_of self.now values.now message keep }
    {
        let fields = self.fields.as_slice();
        let spoken = self.field_of(&message);
        let title = title_of(spoken);
        put_stoppers(wanted, fields);
        put_message(wanted, &message, title);
        put_fields(wanted, values, &message, keep, fields);
        put_texts(wanted, values, self.texts.as_slice());
        // For the contract: there is a want for each cell.
        let _whole = wanted.cells();
        let cursor = spoken.map_or(self.cursor, |field| field.extent.first_cell());
        wanted.set_cursor_and_reset(cursor, message.is_fresh());
    }

    /// Turns the panel's screen that keeps the fields, which `wanted` must be, into the one that writes their values.
    pub fn put_values(&self, wanted: &mut Wanted, values: &Values, message: Message)
        requires { wanted.old ≡ screen_of self.now values.now message true }
        ensures { wanted.new ≡ screen_of self.now values.now message false }
    {
        let (cursor, reset) = (wanted.cursor(), wanted.reset());
        self.put_fields_and_texts(wanted, values, &message);
        wanted.set_cursor_and_reset(cursor, reset);
    }

    /// Puts fields and texts over the screen that keeps the fields. The contract leaves out cursor and reset of MDT.
    fn put_fields_and_texts(&self, wanted: &mut Wanted, values: &Values, message: &Message)
        requires kept { wanted.old ≡ screen_of self.now values.now message.now true }
        ensures size { wanted.new.size ≡ wanted.old.size }
        ensures screen { record wanted.new { cursor = wanted.old.cursor; reset = wanted.old.reset }
            ≡ screen_of self.now values.now message.now false }
    {
        put_fields(wanted, values, message, false, self.fields.as_slice());
        put_texts(wanted, values, self.texts.as_slice());
        // For the contract: there is a want for each cell.
        let _whole = wanted.cells();
    }
}
