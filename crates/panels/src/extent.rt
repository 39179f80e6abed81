//! Extents: the cells that an item of a panel has.
ghost use Rattle.std.specs.Prelude.{◌≡◌, ◌<◌, ◌≤◌, ◌+◌, ◌&&◌, nat_le};
ghost use Rattle.codes3270.specs.Size.{most_cells};

use codes3270::{Addr, Model};

/// The cells of a text or field of a panel; its attribute is at the address before its first character. It ends before
/// the message row of its panel's screen, and so within the largest screen.
#[derive(Clone, Copy, Debug, PartialEq, Eq)]
pub struct Extent {
    /// The buffer address of its first character, at least 1.
    pub first: u16,
    /// How many characters it has, at least 1.
    pub length: u16,
    ghost after_attribute: { 1 ≤ first },
    ghost has_cells: { 1 ≤ length },
    ghost on_screen: { first + length < most_cells },
}

impl Extent {
    /// The address of its attribute.
    pub fn attr(self) -> Addr
        ensures { result + 1 ≡ self.first }
    {
        Addr::first().forward(self.first - 1, Model::M5.alternate())
    }

    /// The address of its first character.
    pub fn first_cell(self) -> Addr
        ensures { result ≡ self.first }
    {
        Addr::first().forward(self.first, Model::M5.alternate())
    }

    /// Whether it shares a cell with another, their attributes included.
    pub fn meets(self, other: Extent) -> bool
        ensures { result
            ≡ (nat_le self.first (other.first + other.length) && nat_le other.first (self.first + self.length)) }
    {
        self.first <= other.first + other.length && other.first <= self.first + self.length
    }
}
