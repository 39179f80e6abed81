//! The fields of a screen.
ghost use Rattle.std.specs.Prelude.{◌≡◌, ◌<◌, ◌≤◌, ◌+◌, ◌%◌, [], length, slice_index_or, false, IsTrue, IfSome, IfNone};
ghost use Rattle.codes3270.specs.Size.{cells_in, most_cells};
ghost use Rattle.std.specs.List.{list_all};
ghost use Rattle.codes3270.specs.declared.attribute.Cell.TheVariants.{Char};
ghost use Rattle.datastream.specs.Screen.{field_text, is_char, attribute_in, attribute_over, IsGoverned};
ghost use Rattle.presentation.specs.Fields.{field_of, listed_fields};
ghost use Rattle.presentation.specs.Index.{AreAscending, IsNearest, place_of};
ghost use Rattle.presentation.specs.Places.{attribute_places};

use crate::screen_cells::ScreenCells;
use crate::{Screen, cells, index};
use codes3270::{Addr, Attr};
use std::marker::Model;

/// A field (GA23-0059-07 on fields).
#[derive(Clone, Copy, Debug, PartialEq, Eq)]
pub struct Field {
    /// The address of its attribute (0-based).
    pub attr: Addr,
    /// Its number of cells: those after its attribute and before the next one, wrapping at the end. It may be 0.
    pub length: u16,
}

/// An iterator over a screen's fields, by the addresses of their attributes. Contracts see the list of those left.
#[derive(Drop)]
pub struct Fields<'a> {
    screen: &'a Screen,
    /// The index of the next one in the list of attributes.
    next: usize,
}

impl<'a> Model for Fields<'a> {
    ghost use Rattle.std.specs.Prelude.{List, drop};
    ghost use Rattle.presentation.specs.Fields.{fields_from};
    ghost use Rattle.presentation.specs.declared.fields.Field.{Field};

    ghost Value = { List Field };

    ghost view = { λ fields. drop fields.next (fields_from fields.screen.now.screen.cells 0) };
}

impl<'a> Iterator for Fields<'a> {
    ghost use Rattle.std.specs.Iterator.{YieldsFirst, item_count};

    type Item = Field;

    ghost next_gives = { YieldsFirst (λ fields. fields) };

    ghost remaining = { item_count (λ fields. fields) };

    fn next(&mut self) -> Option<Field> {
        let screen = self.screen;
        if self.next < screen.field_count() {
            let field = screen.field_number(self.next);
            self.next += 1;
            Some(field)
        } else {
            None
        }
    }
}

/// The number after `number` of the numbers below `count`; 0 follows the last.
fn number_behind(number: usize, count: usize) -> usize
    requires { number < count }
    ensures { result ≡ (number + 1) % count }
{
    if number + 1 < count { number + 1 } else { 0 }
}

impl Screen {
    /// The cells.
    pub(crate) fn cells(&self) -> &ScreenCells
        ensures cells { result.now ≡ self.now.screen.cells }
        ensures count { length result.now ≡ cells_in self.now.size }
    {
        self.buffer.cells()
    }

    /// The addresses of the attributes, ascending.
    #[inline(always)]
    pub(crate) fn places(&self) -> &[u16]
        ensures value { result.now ≡ attribute_places self.now.screen.cells 0 }
        ensures ascending { AreAscending (cells_in self.now.size) result.now }
        ensures few { length result.now ≤ most_cells }
        ensures size { length self.now.screen.cells ≡ cells_in self.now.size }
    {
        let buffer = &self.buffer;
        // For the contract: the cells are those of the size.
        let _cells = buffer.cells();
        self.attributes.places()
    }

    /// How many fields there are.
    fn field_count(&self) -> usize
        ensures count { result ≡ length (attribute_places self.now.screen.cells 0) }
        ensures few { result ≤ most_cells }
        ensures size { length self.now.screen.cells ≡ cells_in self.now.size }
    {
        self.places().len()
    }

    /// The address of a field's attribute, by the field's 0-based number in the list of fields.
    #[inline(always)]
    fn field_place(&self, number: usize) -> Addr
        requires { number < length (attribute_places self.now.screen.cells 0) }
        ensures place { result ≡ place_of self.now.screen.cells number }
        ensures in_range { result < cells_in self.now.size }
    {
        let place = self.places()[number];
        Addr::new(place, self.size()).unwrap_or(Addr::first())
    }

    /// The address after a field's attribute, which must not be in the last cell, by the field's number.
    #[inline(always)]
    pub(crate) fn field_start(&self, number: usize) -> Addr
        requires listed { number < length (attribute_places self.now.screen.cells 0) }
        requires within { place_of self.now.screen.cells number + 1 < cells_in self.now.size }
        ensures start { result ≡ place_of self.now.screen.cells number + 1 }
        ensures in_range { result < cells_in self.now.size }
    {
        let size = self.size();
        // For the contract: the sum has room.
        let _cells = size.cells();
        let place = self.places()[number];
        Addr::new(place + 1, size).unwrap_or(Addr::first())
    }

    /// A field by its number.
    #[inline(always)]
    fn field_number(&self, number: usize) -> Field
        requires { number < length (attribute_places self.now.screen.cells 0) }
        ensures { result ≡ field_of self.now.screen.cells (place_of self.now.screen.cells number) }
    {
        let count = self.field_count();
        let attr = self.field_place(number);
        let next = self.field_place(number_behind(number, count));
        Field {
            attr,
            length: cells::distance_to(attr, next, self.size()) - 1,
        }
    }

    /// The number of the field that a cell lies in, or whose attribute it holds; `None` on an unformatted screen.
    #[inline(always)]
    fn field_number_at(&self, at: Addr) -> Option<usize>
        requires { at < cells_in self.now.size }
        ensures none { IfNone result (attribute_places self.now.screen.cells 0 ≡ []) }
        ensures nearest { IfSome result
            (λ number. IsNearest (cells_in self.now.size) (attribute_places self.now.screen.cells 0) at number) }
        ensures size { length self.now.screen.cells ≡ cells_in self.now.size }
    {
        index::nearest_before(self.places(), at, self.size())
    }

    /// The attribute that governs a cell (GA23-0059-07 on field attributes): its own, or the nearest before it,
    /// wrapping at address 0; `None` on an unformatted screen.
    pub fn attribute_over(&self, at: Addr) -> Option<Attr>
        requires { at < cells_in self.now.size }
        ensures { result ≡ attribute_over self.now.screen.cells at }
    {
        cells::attribute_over(self.cells(), at)
    }

    /// The fields, in the order of their attributes' addresses, each once. An unformatted screen has none.
    pub fn fields(&self) -> Fields<'_>
        ensures { result ≡ listed_fields self.now.screen.cells }
    {
        Fields {
            screen: self,
            next: 0,
        }
    }

    /// The field that a cell lies in, or whose attribute it holds; `None` on an unformatted screen.
    pub fn field_at(&self, at: Addr) -> Option<Field>
        requires { at < cells_in self.now.size }
        ensures none { IfNone result (IsTrue (list_all is_char self.now.screen.cells)) }
        ensures formatted { IfSome result (λ _. list_all is_char self.now.screen.cells ≡ false) }

        // Its attribute is the nearest at or before the cell, wrapping at address 0, and governs it.
        ensures nearest { IfSome result (λ field. IsGoverned self.now.screen.cells at field.attr) }
        ensures governs { IfSome result (λ field.
            attribute_over self.now.screen.cells at
            ≡ attribute_in (slice_index_or self.now.screen.cells field.attr (Char 0))) }

        // Its cells run to the next attribute, wrapping at the end.
        ensures length { IfSome result (λ field. field.length ≡ length (field_text self.now.screen.cells field.attr)) }
    {
        let number = self.field_number_at(at)?;
        Some(self.field_number(number))
    }
}
