//! Reading orders.
ghost use Rattle.std.specs.Prelude.{◌≡◌, drop, length};
ghost use Rattle.std.specs.Iterator.{YieldsFirst, item_count};
ghost use Rattle.codes3270.specs.Size.{cells_in};
ghost use Rattle.datastream.specs.Grammar.{start_field};
ghost use Rattle.datastream.specs.Reading.{Gives, order_at, order_after, byte_at, address_at, character_at, characters_ahead};

use crate::characters::count_characters;
use crate::fault::CommandFault;
use crate::order::Order;
use crate::order_codes::{
    ERASE_UNPROTECTED_TO_ADDRESS, INSERT_CURSOR, PROGRAM_TAB, REPEAT_TO_ADDRESS,
    SET_BUFFER_ADDRESS, START_FIELD,
};
use codes3270::{Addr, Attr, Size, addr_from_bytes, storable};
use std::marker::Model;

/// An iterator over the remaining orders of a command, which borrows the command's bytes. Contracts see their list.
#[derive(Drop)]
pub struct Orders<'a> {
    /// The size of the screen that the orders act on.
    pub(crate) size: Size,
    pub(crate) text: &'a [u8],
}

impl<'a> Model for Orders<'a> {
    ghost use Rattle.std.specs.Prelude.{List};
    ghost use Rattle.codes3270.specs.Size.{cells_in};
    ghost use Rattle.datastream.specs.declared.order.Order.{Order};
    ghost use Rattle.datastream.specs.Reading.{orders_in};

    ghost Value = { List Order };

    ghost view = { λ orders. orders_in (cells_in orders.size) orders.text.now };
}

impl<'a> Orders<'a> {
    /// Removes the data characters at the front and returns them, up to the first order that is none.
    #[inline(always)]
    pub fn characters(&mut self) -> &'a [u8]
        ensures characters { result.now ≡ characters_ahead self.old }
        ensures left { self.new ≡ drop (length result.now) self.old }
    {
        let (characters, others) = self.text.split_at(count_characters(self.text));
        self.text = others;
        characters
    }
}

impl<'a> Iterator for Orders<'a> {
    type Item = Order;

    ghost next_gives = { YieldsFirst (λ orders. orders) };

    ghost remaining = { item_count (λ orders. orders) };

    #[inline(always)]
    fn next(&mut self) -> Option<Order> {
        match order_of(self.text, self.size) {
            Ok((order, rest)) => {
                self.text = rest;
                Some(order)
            }
            Err(_) => None,
        }
    }
}

// Each of these functions reads something from the front of the bytes and returns it with the bytes after it.

pub(crate) fn byte_of(bytes: &[u8]) -> Result<(u8, &[u8]), CommandFault>
    ensures { Gives (λ x. (x.0, x.1.now)) result (byte_at bytes.now) }
{
    match bytes {
        [byte, rest @ ..] => Ok((*byte, rest)),
        [] => Err(CommandFault::Truncated),
    }
}

fn address_of(bytes: &[u8], size: Size) -> Result<(Addr, &[u8]), CommandFault>
    ensures { Gives (λ x. (x.0, x.1.now)) result (address_at (cells_in size) bytes.now) }
{
    match bytes {
        [high, low, rest @ ..] => match addr_from_bytes([*high, *low], size) {
            Ok(addr) => Ok((addr, rest)),
            Err(_) => Err(CommandFault::BadAddress),
        },
        _ => Err(CommandFault::Truncated),
    }
}

fn character_of(bytes: &[u8]) -> Result<(u8, &[u8]), CommandFault>
    ensures { Gives (λ x. (x.0, x.1.now)) result (character_at bytes.now) }
{
    let (byte, rest) = byte_of(bytes)?;
    if storable(byte) {
        Ok((byte, rest))
    } else {
        Err(CommandFault::BadOrder)
    }
}

/// Reads the rest of an order after its code. The code must not be Start Field.
#[inline(always)]
#[tactic(auto, unfolding(crate::specs::Reading::order_after))]
fn order_behind(code: u8, bytes: &[u8], size: Size) -> Result<(Order, &[u8]), CommandFault>
    requires { code ≡ start_field → ⊥ }
    ensures { Gives (λ x. (x.0, x.1.now)) result (order_after (cells_in size) code bytes.now) }
{
    match code {
        SET_BUFFER_ADDRESS => match address_of(bytes, size) {
            Ok((addr, rest)) => Ok((Order::Sba(addr), rest)),
            Err(fault) => Err(fault),
        },
        ERASE_UNPROTECTED_TO_ADDRESS => match address_of(bytes, size) {
            Ok((stop, rest)) => Ok((Order::Eua(stop), rest)),
            Err(fault) => Err(fault),
        },
        REPEAT_TO_ADDRESS => match address_of(bytes, size) {
            Ok((stop, rest)) => {
                let (character, rest) = character_of(rest)?;
                Ok((Order::Ra(stop, character), rest))
            }
            Err(fault) => Err(fault),
        },
        INSERT_CURSOR => Ok((Order::Ic, bytes)),
        PROGRAM_TAB => Ok((Order::Pt, bytes)),
        _ => Err(CommandFault::BadOrder),
    }
}

/// Reads the order at the front of the bytes.
#[inline(always)]
#[tactic(auto, unfolding(crate::specs::Reading::order_at, crate::specs::Reading::order_after))]
pub(crate) fn order_of(bytes: &[u8], size: Size) -> Result<(Order, &[u8]), CommandFault>
    ensures { Gives (λ x. (x.0, x.1.now)) result (order_at (cells_in size) bytes.now) }
{
    // Start Field is the most frequent order, so it is tested first.
    if let [START_FIELD, code, rest @ ..] = bytes {
        return Ok((Order::Sf(Attr::from_code(*code)), rest));
    }
    match bytes {
        [START_FIELD, ..] => Err(CommandFault::Truncated),
        [byte, rest @ ..] => {
            if storable(*byte) {
                Ok((Order::Char(*byte), rest))
            } else {
                order_behind(*byte, rest, size)
            }
        }
        [] => Err(CommandFault::Truncated),
    }
}
