//! A cell in two bytes.
ghost use Rattle.std.specs.Prelude.{◌≡◌};
ghost use Rattle.codes3270.specs.declared.attribute.Cell.TheVariants.{Char};
ghost use Rattle.datastream.specs.CellCodes.{code_in};
ghost use Rattle.datastream.specs.Screen.{attribute_in, is_char, is_open_attribute};

use codes3270::{Attr, Cell, attr_code};
use std::marker::Model;

/// A screen's cell in two bytes. Contracts see the cell.
#[derive(Clone, Copy, PartialEq, Eq)]
pub struct PackedCell {
    /// The code of its character, or that which its attribute is written as.
    code: u8,
    is_attribute: bool,
}

impl Model for PackedCell {
    ghost use Rattle.std.specs.Prelude.{◌≡◌, ℕ, Bool, not};
    ghost use Rattle.std.proofs.Common.{ap, ◌∙◌};
    ghost use Rattle.codes3270.specs.declared.attribute.Cell.{Cell};
    ghost use Rattle.datastream.specs.Screen.{is_char};
    ghost use Rattle.datastream.specs.CellCodes.{code_in, cell_of, has_attribute};

    ghost Value = { Cell };

    ghost view = { λ packed. cell_of packed.is_attribute packed.code };

    ghost invariant = { λ packed. code_in (cell_of packed.is_attribute packed.code) ≡ packed.code };

    ghost inverse = { λ cell. record { code = code_in cell; is_attribute = not (is_char cell) } };

    ghost inverse_ok = { λ packed coded.
        ap (λ (code : ℕ).
        record { code = code; is_attribute = not (is_char (cell_of packed.is_attribute packed.code)) }) coded
        ∙ ap (λ (is : Bool). record { code = packed.code; is_attribute = is })
        (has_attribute packed.is_attribute packed.code) };
}

impl PackedCell {
    /// A cell with a character.
    pub const fn character(code: u8) -> PackedCell
        ensures { result ≡ Char code }
    {
        PackedCell {
            code,
            is_attribute: false,
        }
    }

    /// A packed copy of a cell.
    pub fn new(cell: Cell) -> PackedCell
        ensures { result ≡ cell }
    {
        match cell {
            Cell::Char(code) => PackedCell::character(code),
            Cell::Attr(attr) => PackedCell {
                code: attr_code(attr),
                is_attribute: true,
            },
        }
    }

    /// The cell.
    pub fn get(self) -> Cell
        ensures { result ≡ self }
    {
        if self.is_attribute {
            Cell::Attr(Attr::from_code(self.code))
        } else {
            Cell::Char(self.code)
        }
    }

    /// The code of its character, or that which its attribute is written as.
    pub fn code(self) -> u8
        ensures { result ≡ code_in self }
    {
        self.code
    }

    /// Its attribute, or `None` if it has a character.
    pub fn attribute(self) -> Option<Attr>
        ensures { result ≡ attribute_in self }
    {
        self.get().attribute()
    }

    /// Whether the cell has a character, not an attribute.
    pub fn is_character(self) -> bool
        ensures { result ≡ is_char self }
    {
        self.get().is_character()
    }

    /// Whether the cell has the attribute of an unprotected field.
    pub fn is_unprotected_attribute(self) -> bool
        ensures { result ≡ is_open_attribute self }
    {
        self.get().is_unprotected_attribute()
    }
}
