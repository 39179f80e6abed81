//! Field attributes and cells (GA23-0059-07 on field attributes).
ghost use Rattle.std.specs.Prelude.{◌≡◌, ◌↔◌, IsTrue, true};
ghost use Rattle.codes3270.specs.Attribute.{attr_of, attr_byte, display_of, display_bits, attribute_in, is_char, is_open_attribute};
ghost use Rattle.codes3270.specs.SixBit.{is_six_bit_code};
ghost use Rattle.codes3270.specs.declared.attribute.Display.TheVariants.{Bright, Hidden};

use crate::six_bit::code_of_value;

/// How a field is displayed: the display bits of its attribute (GA23-0059-07 on field attributes).
#[derive(Clone, Copy, Debug, PartialEq, Eq)]
pub enum Display {
    /// At normal intensity.
    Normal,
    /// At normal intensity; a light pen can detect it.
    Detectable,
    /// At high intensity; a light pen can detect it.
    Bright,
    /// Not displayed and not printed; a light pen can't detect it.
    Hidden,
}

/// The attribute of a field (GA23-0059-07 on field attributes). It occupies the cell before the
/// field's first character.
#[derive(Clone, Copy, Debug, PartialEq, Eq)]
pub struct Attr {
    /// Whether the operator can't change the field.
    pub protected: bool,
    /// Whether the operator can type only numbers. If `protected` is also set, the cursor skips the field.
    pub numeric: bool,
    /// How the field is displayed.
    pub display: Display,
    /// The modified data tag (MDT): whether the field was modified. Read Modified sends fields that have it.
    pub mdt: bool,
}

/// The content of one cell of the screen (GA23-0059-07 on field attributes).
#[derive(Clone, Copy, Debug, PartialEq, Eq)]
pub enum Cell {
    /// A character, as an EBCDIC code for which `storable` is true.
    Char(u8),
    /// The attribute of the field that begins at the next cell.
    Attr(Attr),
}

/// Decodes the display bits of a byte (mask 0C).
fn display_of_byte(byte: u8) -> Display
    ensures { result ≡ display_of byte }
{
    match (byte & 0x08 != 0, byte & 0x04 != 0) {
        (false, false) => Display::Normal,
        (false, true) => Display::Detectable,
        (true, false) => Display::Bright,
        (true, true) => Display::Hidden,
    }
}

/// Encodes the display bits.
fn bits_of_display(display: Display) -> u8
    ensures { result ≡ display_bits display }
{
    match display {
        Display::Normal => 0x00,
        Display::Detectable => 0x04,
        Display::Bright => 0x08,
        Display::Hidden => 0x0C,
    }
}

impl Attr {
    /// Decodes an attribute. Bits 80, 40 and 02 have no meaning and are ignored, so every byte decodes.
    pub fn from_code(code: u8) -> Attr
        ensures { result ≡ attr_of code }
    {
        Attr {
            protected: code & 0x20 != 0,
            numeric: code & 0x10 != 0,
            display: display_of_byte(code),
            mdt: code & 0x01 != 0,
        }
    }

    /// Whether the operator can't change the field.
    pub fn protected(self) -> bool
        ensures { result ≡ self.protected }
    {
        self.protected
    }

    /// Whether the operator can type only numbers.
    pub fn numeric(self) -> bool
        ensures { result ≡ self.numeric }
    {
        self.numeric
    }

    /// Whether the cursor skips the field when typing reaches it: if it is protected and numeric.
    pub fn autoskip(self) -> bool
        ensures { IsTrue result ↔ (IsTrue self.protected × IsTrue self.numeric) }
    {
        self.protected && self.numeric
    }

    /// Whether the field is displayed at high intensity.
    pub fn bright(self) -> bool
        ensures { IsTrue result ↔ (self.display ≡ Bright) }
    {
        self.display == Display::Bright
    }

    /// Whether the field isn't displayed.
    pub fn hidden(self) -> bool
        ensures { IsTrue result ↔ (self.display ≡ Hidden) }
    {
        self.display == Display::Hidden
    }

    /// Whether the modified data tag is on.
    pub fn mdt(self) -> bool
        ensures { result ≡ self.mdt }
    {
        self.mdt
    }

    /// A copy of the attribute with this modified data tag.
    pub fn with_mdt(self, mdt: bool) -> Attr
        ensures { result ≡ record self { mdt = mdt } }
    {
        Attr { mdt, ..self }
    }
}

impl Cell {
    /// The attribute in this cell, if there is one.
    pub fn attribute(self) -> Option<Attr>
        ensures { result ≡ attribute_in self }
    {
        match self {
            Cell::Char(_) => None,
            Cell::Attr(attr) => Some(attr),
        }
    }

    /// Whether the cell holds a character.
    pub fn is_character(self) -> bool
        ensures { result ≡ is_char self }
    {
        match self {
            Cell::Char(_) => true,
            Cell::Attr(_) => false,
        }
    }

    /// Whether the cell holds the attribute of an unprotected field.
    pub fn is_unprotected_attribute(self) -> bool
        ensures { result ≡ is_open_attribute self }
    {
        match self {
            Cell::Char(_) => false,
            Cell::Attr(attr) => !attr.protected,
        }
    }
}

/// Encodes an attribute: the graphic code of its six bits (GA23-0059-07 on graphic codes).
pub fn attr_code(attr: Attr) -> u8
    ensures byte { result ≡ attr_byte attr }
    ensures read_back { attr_of result ≡ attr }
    ensures graphic { is_six_bit_code result ≡ true }
{
    let protected = if attr.protected { 0x20 } else { 0 };
    let numeric = if attr.numeric { 0x10 } else { 0 };
    let mdt = if attr.mdt { 0x01 } else { 0 };
    code_of_value(protected + numeric + bits_of_display(attr.display) + mdt)
}
