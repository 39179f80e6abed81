//! Buffer addresses (GA23-0059-07 on buffer addressing).
ghost use Rattle.std.specs.Prelude.{◌≡◌, ◌<◌, ◌≤◌, ◌+◌, ◌-◌, ◌*◌, ◌%◌, true, SomeIff, slice_index, MatchResult};
ghost use Rattle.std.specs.List.{range_with_len};
ghost use Rattle.codes3270.specs.Size.{cells_in, most_cells};
ghost use Rattle.codes3270.specs.Address.{address_bytes, address_of};
ghost use Rattle.codes3270.specs.SixBit.{is_six_bit_code};

use crate::six_bit::code_of_value;
use crate::size::Size;
use std::error::Error;
use std::fmt;
use std::marker::Model;

/// A buffer address: the number of a cell, row by row from 0 on (GA23-0059-07 on buffer
/// addressing). It is less than [`MOST_CELLS`](crate::MOST_CELLS); whether a screen has that cell
/// depends on the screen's size. Contracts see it as a number.
#[derive(Clone, Copy, Debug, PartialEq, Eq)]
pub struct Addr {
    position: u16,
}

impl Model for Addr {
    ghost use Rattle.std.specs.Prelude.{ℕ, ◌<◌};
    ghost use Rattle.codes3270.specs.Size.{most_cells};

    ghost Value = { ℕ };

    ghost view = { λ addr. addr.position };

    ghost invariant = { λ addr. addr.position < most_cells };

    ghost inverse = { λ position. record { position = position } };
}

/// Why two bytes aren't a buffer address of a screen.
#[derive(Clone, Copy, Debug, PartialEq, Eq)]
pub enum AddrFault {
    /// The screen has no such cell.
    TooLarge,
}

impl fmt::Display for AddrFault {
    ghost use Rattle.std.specs.Prelude.{Some, codes};

    ghost output = { λ _. Some (codes "address beyond the screen") };

    fn fmt<W: fmt::Write>(&self, f: &mut fmt::Formatter<W>) -> fmt::Result {
        match self {
            AddrFault::TooLarge => f.write_str("address beyond the screen"),
        }
    }
}

impl Error for AddrFault {}

impl Addr {
    /// The address with a number; `None` if a screen of this size has no such cell.
    pub const fn new(position: u16, size: Size) -> Option<Addr>
        ensures { SomeIff result (position < cells_in size) position }
    {
        if position < size.cells() {
            Some(Addr { position })
        } else {
            None
        }
    }

    /// All addresses of a screen of this size, in ascending order.
    pub fn all(size: Size) -> Addrs
        ensures { result ≡ range_with_len 0 (cells_in size) }
    {
        Addrs { next: 0, size }
    }

    /// The address of the first cell.
    pub const fn first() -> Addr
        ensures { result ≡ 0 }
    {
        Addr { position: 0 }
    }

    /// Its number, below [`MOST_CELLS`](crate::MOST_CELLS).
    pub const fn get(self) -> u16
        ensures value { result ≡ self }
        ensures in_range { result < most_cells }
    {
        self.position
    }

    /// The address `count` cells after this one, on a screen of this size that has this cell.
    /// Address 0 follows the last. `count` is at most the number of cells.
    pub const fn forward(self, count: u16, size: Size) -> Addr
        requires address { self < cells_in size }
        requires count { count ≤ cells_in size }
        ensures value { result ≡ (self + count) % cells_in size }
        ensures in_range { result < cells_in size }
    {
        Addr {
            position: round_the_end(self.position + count, size.cells()),
        }
    }

    /// The address `count` cells before this one, on a screen of this size that has this cell. The
    /// last address precedes 0. `count` is at most the number of cells.
    pub const fn backward(self, count: u16, size: Size) -> Addr
        requires address { self < cells_in size }
        requires count { count ≤ cells_in size }
        ensures value { result ≡ (self + cells_in size - count) % cells_in size }
        ensures in_range { result < cells_in size }
    {
        let cells = size.cells();
        Addr {
            position: round_the_end(self.position + cells - count, cells),
        }
    }

    /// The number of cells from this one to the last, on a screen of this size that has this cell. It
    /// counts this cell, too.
    #[inline(always)]
    pub const fn room(self, size: Size) -> usize
        requires { self < cells_in size }
        ensures room { result + self ≡ cells_in size }
        ensures some { 0 < result }
    {
        (size.cells() - self.position) as usize
    }

    /// The next address on a screen of this size that has this cell; 0 after the last.
    pub const fn next(self, size: Size) -> Addr
        requires { self < cells_in size }
        ensures value { result ≡ (self + 1) % cells_in size }
        ensures in_range { result < cells_in size }
    {
        if self.position + 1 < size.cells() {
            Addr {
                position: self.position + 1,
            }
        } else {
            Addr::first()
        }
    }
}

/// A position modulo the number of cells. The position must be less than twice that number.
const fn round_the_end(position: u16, cells: u16) -> u16
    requires { position < 2 * cells }
    ensures value { result ≡ position % cells }
    ensures in_range { result < cells }
{
    if position < cells {
        position
    } else {
        position - cells
    }
}

/// An iterator over the addresses of the screen, in ascending order. Contracts see the list of the
/// addresses that it has yet to yield.
#[derive(Drop)]
pub struct Addrs {
    next: u16,
    size: Size,
}

impl Model for Addrs {
    ghost use Rattle.std.specs.Prelude.{ℕ, ◌-◌, List};
    ghost use Rattle.std.specs.List.{range_with_len};
    ghost use Rattle.codes3270.specs.Size.{cells_in};

    ghost Value = { List ℕ };

    ghost view = { λ addrs. range_with_len addrs.next (cells_in addrs.size - addrs.next) };
}

impl Iterator for Addrs {
    ghost use Rattle.std.specs.Iterator.{YieldsFirst, item_count};

    type Item = Addr;

    ghost next_gives = { YieldsFirst (λ addrs. addrs) };

    ghost remaining = { item_count (λ addrs. addrs) };

    fn next(&mut self) -> Option<Addr> {
        match Addr::new(self.next, self.size) {
            Some(addr) => {
                self.next += 1;
                Some(addr)
            }
            None => None,
        }
    }
}

/// Encodes an address in two bytes: the graphic codes of its high six bits and of its low six bits
/// (GA23-0059-07 on buffer addressing). Twelve bits hold every address of every screen.
pub fn addr_to_bytes(addr: Addr) -> [u8; 2]
    ensures bytes { result ≡ address_bytes addr }
    ensures read_back { address_of (slice_index result 0) (slice_index result 1) ≡ addr }
    ensures graphic { (is_six_bit_code (slice_index result 0) ≡ true)
        × (is_six_bit_code (slice_index result 1) ≡ true) }
    ensures in_range { addr < most_cells }
{
    let position = addr.position;
    [
        code_of_value((position / 64) as u8),
        code_of_value((position % 64) as u8),
    ]
}

/// Decodes an address from two bytes (GA23-0059-07 on buffer addressing). It has fourteen bits if the top two bits of
/// the first byte are 0. If they aren't, it has twelve: the low six bits of each byte, which needn't be a graphic code.
/// The error is `TooLarge` if a screen of this size has no such cell.
pub fn addr_from_bytes(bytes: [u8; 2], size: Size) -> Result<Addr, AddrFault>
    ensures { let address = address_of (slice_index bytes 0) (slice_index bytes 1) in
        MatchResult result (λ addr. (address < cells_in size) × (addr ≡ address)) (λ _. address < cells_in size → ⊥) }
{
    let [high, low] = bytes;
    let position = if high < 64 {
        u16::from(high) * 256 + u16::from(low)
    } else {
        u16::from(high % 64) * 64 + u16::from(low % 64)
    };
    if position < size.cells() {
        Ok(Addr { position })
    } else {
        Err(AddrFault::TooLarge)
    }
}
