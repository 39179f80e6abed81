//! The fields of inbound data, as slices of its bytes.
ghost use Rattle.std.specs.Prelude.{◌≡◌, take, drop};
ghost use Rattle.std.specs.List.{prefix_len};
ghost use Rattle.std.specs.Iterator.{YieldsFirstBy, item_count};
ghost use Rattle.codes3270.specs.Storable.{is_storable};
ghost use Rattle.datastream.specs.InboundReturned.{returned_of_field};

use crate::characters::count_characters;
use codes3270::{Addr, Size, addr_from_bytes};
use std::marker::Model;

/// A returned field (GA23-0059-07 on Read Modified).
#[derive(Clone, Copy, Debug, PartialEq, Eq)]
pub struct ReturnedField<'a> {
    /// The address of its first cell: the one after its attribute, wrapping round at the screen's end.
    pub first: Addr,
    /// Its characters, of which none is null.
    pub text: &'a [u8],
}

/// An iterator over the remaining returned fields, in the order in which they were sent. Contracts see their list.
#[derive(Drop)]
pub struct ReturnedFields<'a> {
    pub(crate) size: Size,
    pub(crate) text: &'a [u8],
}

impl<'a> Model for ReturnedFields<'a> {
    ghost use Rattle.std.specs.Prelude.{◌≡◌, List};
    ghost use Rattle.std.specs.List.{prefix_len};
    ghost use Rattle.codes3270.specs.Size.{cells_in};
    ghost use Rattle.codes3270.specs.Storable.{is_storable};
    ghost use Rattle.datastream.specs.declared.inbound_part.Form.TheVariants.{Modified};
    ghost use Rattle.datastream.specs.InboundText.{AreParts};
    ghost use Rattle.datastream.specs.InboundReading.{parts_in};
    ghost use Rattle.datastream.specs.InboundFields.{Returned, returned};

    ghost Value = { List Returned };

    ghost view = { λ fields. returned (parts_in (cells_in fields.size) Modified fields.text.now) };

    // There is no character before the first address.
    ghost invariant = { λ fields. AreParts (cells_in fields.size) Modified (parts_in (cells_in fields.size) Modified
        fields.text.now) fields.text.now × (prefix_len is_storable fields.text.now ≡ 0) };
}

impl<'a> Iterator for ReturnedFields<'a> {
    type Item = ReturnedField<'a>;

    ghost next_gives = { YieldsFirstBy returned_of_field (λ fields. fields) };

    ghost remaining = { item_count (λ fields. fields) };

    #[inline(always)]
    fn next(&mut self) -> Option<ReturnedField<'a>> {
        let [_, high, low, rest @ ..] = self.text else {
            return None;
        };
        let Ok(first) = addr_from_bytes([*high, *low], self.size) else {
            return None;
        };
        let (text, others) = split_field(rest);
        self.text = others;
        Some(ReturnedField { first, text })
    }
}

/// A field's characters, and the bytes from the next field's SBA on.
#[inline(always)]
fn split_field(text: &[u8]) -> (&[u8], &[u8])
    ensures characters { result.0.now ≡ take (prefix_len is_storable text.now) text.now }
    ensures rest { result.1.now ≡ drop (prefix_len is_storable text.now) text.now }
{
    text.split_at(count_characters(text))
}
