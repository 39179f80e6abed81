//! Iteration over the cells of a screen, wrapping round at the end.
ghost use Rattle.std.specs.Prelude.{◌≡◌, ◌<◌, ◌≤◌, ◌+◌, ◌*◌, ◌++◌, length, drop};

use std::marker::Model;

/// Something that has a value for each cell of a screen of any size.
pub trait HasCells {
    ghost use Rattle.std.specs.Prelude.{◌≡◌, ◌<◌, ◌≤◌, List, length, slice_index_or};
    ghost use Rattle.codes3270.specs.Size.{most_cells};

    /// The value that it has for each cell.
    type Cell;

    ghost cells: { Self → List Self.Cell };

    /// The value for the cell at an address.
    fn cell_at(&self, at: usize) -> Self::Cell
        requires { at < length (cells self.now) }
        ensures { result ≡ slice_index_or (cells self.now) at result };

    /// How many cells there are.
    fn cell_count(&self) -> usize
        ensures count { result ≡ length (cells self.now) }
        ensures few { result ≤ most_cells };
}

/// An iterator over the values of a screen's cells, which can wrap round at the end. Contracts see those that remain.
#[derive(Drop)]
pub struct Ring<'a, C: HasCells> {
    holder: &'a C,
    /// How many cells there are.
    cells: usize,
    next: usize,
}

impl<'a, C: HasCells> Model for Ring<'a, C> {
    ghost use Rattle.std.specs.Prelude.{◌≡◌, ◌≤◌, ◌++◌, List, length, drop};
    ghost use Rattle.codes3270.specs.Size.{most_cells};

    ghost Value = { List C.Cell };

    ghost view = { λ ring. drop ring.next (C.cells ring.holder.now ++ C.cells ring.holder.now) };

    ghost invariant = { λ ring. (length (C.cells ring.holder.now) ≡ ring.cells) × (ring.cells ≤ most_cells) };
}

impl<'a, C: HasCells> Ring<'a, C> {
    /// The values of all cells, in the order of their addresses.
    pub fn all(holder: &'a C) -> Ring<'a, C>
        ensures { result ≡ C.cells holder.now }
    {
        let cells = holder.cell_count();
        Ring {
            holder,
            cells,
            next: cells,
        }
    }

    /// The values of the cells after an address up to the last cell, then those of all cells.
    pub fn ahead(holder: &'a C, at: usize) -> Ring<'a, C>
        requires { at < length (C.cells holder.now) }
        ensures cells { result ≡ drop (at + 1) (C.cells holder.now) ++ C.cells holder.now }
        ensures few { length result ≤ 2 * length (C.cells holder.now) }
    {
        Ring {
            holder,
            cells: holder.cell_count(),
            next: at + 1,
        }
    }
}

impl<'a, C: HasCells> Iterator for Ring<'a, C> {
    ghost use Rattle.std.specs.Iterator.{YieldsFirst, item_count};

    type Item = C::Cell;

    ghost next_gives = { YieldsFirst (λ ring. ring) };

    ghost remaining = { item_count (λ ring. ring) };

    #[inline(always)]
    #[tactic(auto, using(crate::proofs::Round::step_behind_end))]
    fn next(&mut self) -> Option<C::Cell> {
        let at = self.next;
        if at < self.cells {
            self.next = at + 1;
            Some(self.holder.cell_at(at))
        } else if at < 2 * self.cells {
            self.next = at + 1;
            Some(self.holder.cell_at(at - self.cells))
        } else {
            None
        }
    }
}
