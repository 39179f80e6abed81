//! How commands change the screen.
ghost use Rattle.std.specs.Prelude.{◌≡◌, ◌<◌, ◌≤◌, ◌+◌, All, drop, length, map, false, true};
ghost use Rattle.std.specs.List.{prefix_len};
ghost use Rattle.codes3270.specs.Size.{cells_in};
ghost use Rattle.codes3270.specs.Storable.{is_storable};
ghost use Rattle.codes3270.specs.declared.attribute.Cell.TheVariants.{Char};
ghost use Rattle.datastream.specs.Screen.{is_char};
ghost use Rattle.datastream.specs.Grammar.{IsProper};
ghost use Rattle.datastream.specs.declared.order.Order.TheVariants.{Ic, Ra, Eua, Pt, Char as CharData};
ghost use Rattle.datastream.specs.Meaning.{WriteProgress, filled, stored, executed, all_executed, prepared, restored, cleared, written, unprotected_erased};
ghost use Rattle.presentation.specs.Applied.{asked_by, asked_by_wcc};
ghost use Rattle.presentation.specs.Sizes.{HasSize, IsReadFor, applied};
ghost use Rattle.datastream.specs.InboundFields.{IsStorableCell};

use crate::buffer::Buffer;
use crate::cells;
use codes3270::{Addr, Aid, Cell, Size, Wcc};
use datastream::{Command, CommandCode, Order, Orders};

/// What a command asks of the keyboard and the alarm (GA23-0059-07, "Write Control Character (WCC)").
#[derive(Clone, Copy, Debug, PartialEq, Eq)]
pub struct Applied {
    /// Whether to unlock the keyboard.
    pub restore: bool,
    /// Whether to sound the alarm.
    pub alarm: bool,
}

impl Applied {
    /// Neither.
    const fn nothing() -> Applied
        ensures { result ≡ record { restore = false; alarm = false } }
    {
        Applied {
            restore: false,
            alarm: false,
        }
    }
}

/// The position of a write: the buffer address, and whether a PT as the next order nulls up to the next attribute.
#[derive(Clone, Copy)]
struct WritePosition {
    address: Addr,
    nulls: bool,
}

impl WritePosition {
    /// The position at an address after data.
    const fn after_data(address: Addr) -> WritePosition
        ensures { result ≡ record { address = address; nulls = true } }
    {
        WritePosition {
            address,
            nulls: true,
        }
    }

    /// The position at an address after any other order.
    const fn moved_to(address: Addr) -> WritePosition
        ensures { result ≡ record { address = address; nulls = false } }
    {
        WritePosition {
            address,
            nulls: false,
        }
    }
}

impl Buffer {
    /// Takes a size, nulls all cells, and moves the cursor to 0; the AID stays.
    pub(crate) fn erase(&mut self, size: Size)
        requires { HasSize self.old.model size }
        ensures { self.new ≡ record self.old { size = size; screen = cleared (cells_in size) self.old.screen } }
    {
        self.cells.clear(size);
        self.size = size;
        self.cursor = Addr::first();
    }

    /// Nulls all cells and moves the cursor to 0; the size and the AID stay.
    pub(crate) fn clear(&mut self)
        ensures { self.new ≡ record self.old { screen = cleared (cells_in self.old.size) self.old.screen } }
    {
        self.erase(self.size);
    }

    /// Nulls the unprotected characters, turns MDT off in unprotected attributes, and moves the cursor to `home`.
    pub(crate) fn erase_unprotected(&mut self)
        ensures { self.new ≡ record self.old { screen = unprotected_erased self.old.screen } }
    {
        let size = self.size;
        self.cursor = cells::home_of(&self.cells, size);
        cells::erase_unprotected_in(&mut self.cells, Addr::first(), size.cells(), size);
        cells::reset_open_mdt(&mut self.cells);
    }

    /// Carries out a command, and returns what it asks of the keyboard and the alarm.
    pub(crate) fn apply(&mut self, command: &Command<'_>) -> Applied
        requires { IsReadFor self.old command.now }
        ensures screen { self.new ≡ applied command.now self.old }
        ensures applied { result ≡ asked_by command.now }
    {
        match command.code() {
            CommandCode::Write => self.write(command.wcc(), command.orders()),
            CommandCode::EraseWrite | CommandCode::EraseWriteAlternate => {
                self.erase(command.size());
                self.write(command.wcc(), command.orders())
            }
            CommandCode::EraseAllUnprotected => {
                self.erase_unprotected();
                self.aid = Aid::NoAid;
                Applied {
                    restore: true,
                    alarm: false,
                }
            }
            CommandCode::ReadBuffer | CommandCode::ReadModified | CommandCode::ReadModifiedAll => {
                Applied::nothing()
            }
        }
    }

    /// Carries out the WCC and the orders of a write, from the cursor on.
    fn write(&mut self, wcc: Option<Wcc>, orders: Orders<'_>) -> Applied
        requires { All (IsProper (cells_in self.old.size)) orders }
        ensures screen { self.new ≡ record self.old { screen = written wcc orders.entry self.old.screen } }
        ensures applied { result ≡ asked_by_wcc wcc }
    {
        let Some(wcc) = wcc else {
            return Applied::nothing();
        };
        self.prepare(wcc);
        self.execute_all(orders);
        self.restore(wcc);
        Applied {
            restore: wcc.restore,
            alarm: wcc.alarm,
        }
    }

    fn prepare(&mut self, wcc: Wcc)
        ensures { self.new ≡ record self.old { screen = prepared wcc self.old.screen } }
    {
        if wcc.reset {
            cells::reset_mdt(&mut self.cells);
        }
    }

    fn restore(&mut self, wcc: Wcc)
        ensures { self.new ≡ record self.old { screen = restored wcc self.old.screen } }
    {
        if wcc.restore {
            self.aid = Aid::NoAid;
        }
    }

    /// Carries out the orders of a write, from the cursor on.
    fn execute_all(&mut self, orders: Orders<'_>)
        requires { All (IsProper (cells_in self.old.size)) orders }
        ensures { let start : WriteProgress =
            record { screen = self.old.screen; address = self.old.screen.cursor; after_data = false } in
            self.new ≡ record self.old { screen = (all_executed orders.entry start).screen } }
    {
        // Read once for all orders, so that it needn't be read after each store.
        let size = self.size;
        let mut orders = orders;
        let start = WritePosition::moved_to(self.cursor());
        let mut position = self.put_characters(orders.characters(), start, size);
        while let Some(order) = orders.next() {
            let moved = self.execute(order, position, size);
            position = self.put_characters(orders.characters(), moved, size);
        }
    }

    /// Stores a run of data characters, wrapping at the end, and returns the position after it.
    #[inline(always)]
    fn put_characters(&mut self, text: &[u8], position: WritePosition, size: Size) -> WritePosition
        requires same { size ≡ self.old.size }
        requires storable { All (λ byte. is_storable byte ≡ true) text.now }
        requires address { position.address < cells_in self.old.size }
        ensures write { let write : WriteProgress =
            record { screen = self.old.screen; address = position.address; after_data = position.nulls } in
            record { screen = self.new.screen; address = result.address; after_data = result.nulls }
            ≡ all_executed (map CharData text.now) write }
        ensures in_range { result.address < cells_in self.old.size }
        ensures size { self.new ≡ record self.old { screen = self.new.screen } }
    {
        match text {
            [] => position,
            [byte] => WritePosition::after_data(self.store(
                position.address,
                Cell::Char(*byte),
                size,
            )),
            _ => self.put_run(text, position, size),
        }
    }

    /// Does the work of `put_characters` for at least one character. Usually all of them fit before the end.
    #[inline(always)]
    fn put_run(&mut self, text: &[u8], position: WritePosition, size: Size) -> WritePosition
        requires same { size ≡ self.old.size }
        requires storable { All (λ byte. is_storable byte ≡ true) text.now }
        requires some { 0 < length text.now }
        requires address { position.address < cells_in self.old.size }
        ensures write { let write : WriteProgress =
            record { screen = self.old.screen; address = position.address; after_data = position.nulls } in
            record { screen = self.new.screen; address = result.address; after_data = result.nulls }
            ≡ all_executed (map CharData text.now) write }
        ensures in_range { result.address < cells_in self.old.size }
        ensures size { self.new ≡ record self.old { screen = self.new.screen } }
    {
        if text.len() <= position.address.room(size) {
            self.put_front(text, position, size)
        } else {
            self.put_round(text, position, size)
        }
    }

    /// Does the work of `put_characters` for characters that may wrap at the end.
    #[inline(never)]
    fn put_round(&mut self, text: &[u8], position: WritePosition, size: Size) -> WritePosition
        requires same { size ≡ self.old.size }
        requires storable { All (λ byte. is_storable byte ≡ true) text.now }
        requires address { position.address < cells_in self.old.size }
        ensures write { let write : WriteProgress =
            record { screen = self.old.screen; address = position.address; after_data = position.nulls } in
            record { screen = self.new.screen; address = result.address; after_data = result.nulls }
            ≡ all_executed (map CharData text.now) write }
        ensures in_range { result.address < cells_in self.old.size }
        ensures size { self.new ≡ record self.old { screen = self.new.screen } }
    {
        let mut position = position;
        let mut rest = text;
        while !rest.is_empty() {
            let room = position.address.room(size);
            let (front, behind) = rest.split_at(room.min(rest.len()));
            position = self.put_front(front, position, size);
            rest = behind;
        }
        position
    }

    /// Does the work of `put_characters` for at least one character, all of which must fit before the end.
    #[inline(always)]
    fn put_front(&mut self, text: &[u8], position: WritePosition, size: Size) -> WritePosition
        requires same { size ≡ self.old.size }
        requires storable { All (λ byte. is_storable byte ≡ true) text.now }
        requires some { 0 < length text.now }
        requires room { position.address + length text.now ≤ cells_in self.old.size }
        ensures write { let write : WriteProgress =
            record { screen = self.old.screen; address = position.address; after_data = position.nulls } in
            record { screen = self.new.screen; address = result.address; after_data = result.nulls }
            ≡ all_executed (map CharData text.now) write }
        ensures in_range { result.address < cells_in self.old.size }
        ensures size { self.new ≡ record self.old { screen = self.new.screen } }
    {
        let address = position.address;
        self.cells.put_characters(usize::from(address.get()), text);
        WritePosition::after_data(address.forward(text.len() as u16, size))
    }

    /// Carries out one order of a write, and returns the position after it.
    fn execute(&mut self, order: Order, position: WritePosition, size: Size) -> WritePosition
        requires same { size ≡ self.old.size }
        requires proper { IsProper (cells_in self.old.size) order }
        requires address { position.address < cells_in self.old.size }
        ensures write { let write : WriteProgress =
            record { screen = self.old.screen; address = position.address; after_data = position.nulls } in
            record { screen = self.new.screen; address = result.address; after_data = result.nulls }
            ≡ executed order write }
        ensures in_range { result.address < cells_in self.old.size }
        ensures size { self.new ≡ record self.old { screen = self.new.screen } }
    {
        let address = position.address;
        match order {
            Order::Char(byte) => WritePosition::after_data(self.store(
                address,
                Cell::Char(byte),
                size,
            )),
            Order::Sf(attr) => WritePosition::moved_to(self.store(address, Cell::Attr(attr), size)),
            Order::Sba(address) => WritePosition::moved_to(address),
            Order::Ic => {
                self.place_cursor(address);
                WritePosition::moved_to(address)
            }
            Order::Ra(stop, byte) => {
                self.repeat(address, stop, byte);
                WritePosition::moved_to(stop)
            }
            Order::Eua(stop) => {
                self.erase_up_to(address, stop);
                WritePosition::moved_to(stop)
            }
            Order::Pt => self.tab(position),
        }
    }

    fn store(&mut self, address: Addr, cell: Cell, size: Size) -> Addr
        requires same { size ≡ self.old.size }
        requires storable { IsStorableCell cell }
        requires address { address < cells_in self.old.size }
        ensures write { let write : WriteProgress =
            record { screen = self.old.screen; address = address; after_data = false } in
            record { screen = self.new.screen; address = result; after_data = false } ≡ stored write cell }
        ensures in_range { result < cells_in self.old.size }
        ensures size { self.new ≡ record self.old { screen = self.new.screen } }
    {
        // For the contract: the cells are those of the size.
        let _cells = self.cells();
        self.set_cell(address, cell);
        address.next(size)
    }

    fn place_cursor(&mut self, address: Addr)
        requires { address < cells_in self.old.size }
        ensures write { let write : WriteProgress =
            record { screen = self.old.screen; address = address; after_data = false } in
            record { screen = self.new.screen; address = address; after_data = false } ≡ executed Ic write }
        ensures size { self.new ≡ record self.old { screen = self.new.screen } }
    {
        self.cursor = address;
    }

    fn repeat(&mut self, address: Addr, stop: Addr, byte: u8)
        requires storable { is_storable byte ≡ true }
        requires address { address < cells_in self.old.size }
        requires stop { stop < cells_in self.old.size }
        ensures write { let write : WriteProgress =
            record { screen = self.old.screen; address = address; after_data = false } in
            record { screen = self.new.screen; address = stop; after_data = false } ≡ executed (Ra stop byte) write }
        ensures size { self.new ≡ record self.old { screen = self.new.screen } }
    {
        let size = self.size;
        let count = cells::distance_to(address, stop, size);
        cells::fill(&mut self.cells, address, count, byte, size);
    }

    fn erase_up_to(&mut self, address: Addr, stop: Addr)
        requires address { address < cells_in self.old.size }
        requires stop { stop < cells_in self.old.size }
        ensures write { let write : WriteProgress =
            record { screen = self.old.screen; address = address; after_data = false } in
            record { screen = self.new.screen; address = stop; after_data = false } ≡ executed (Eua stop) write }
        ensures size { self.new ≡ record self.old { screen = self.new.screen } }
    {
        let size = self.size;
        let count = cells::distance_to(address, stop, size);
        cells::erase_unprotected_in(&mut self.cells, address, count, size);
    }

    fn tab(&mut self, position: WritePosition) -> WritePosition
        requires { position.address < cells_in self.old.size }
        ensures write { let write : WriteProgress =
            record { screen = self.old.screen; address = position.address; after_data = position.nulls } in
            record { screen = self.new.screen; address = result.address; after_data = result.nulls }
            ≡ executed Pt write }
        ensures in_range { result.address < cells_in self.old.size }
        ensures size { self.new ≡ record self.old { screen = self.new.screen } }
    {
        let address = position.address;
        let stop = cells::tab_stop_from(self.cells(), address, self.size);
        let to_end = cells::has_only_characters_from(self.cells(), address);
        if position.nulls {
            self.null_field_from(address);
        }
        WritePosition {
            address: stop,
            nulls: position.nulls && to_end,
        }
    }

    /// Nulls from an address up to the next attribute or the last cell.
    fn null_field_from(&mut self, address: Addr)
        requires { address < cells_in self.old.size }
        ensures { let old = self.old.screen.cells in
            self.new ≡ record self.old {
              screen =
                  record self.old.screen {
                    cells = filled address (prefix_len is_char (drop address old)) (Char 0) old;
                  };
            } }
    {
        let ahead = cells::characters_ahead(&self.cells, address);
        cells::fill(&mut self.cells, address, ahead, 0, self.size);
    }
}
