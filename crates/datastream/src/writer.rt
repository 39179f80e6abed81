//! Writing commands.
ghost use Rattle.std.specs.Prelude.{◌≡◌, All, map, true};
ghost use Rattle.codes3270.specs.Storable.{is_storable};
ghost use Rattle.datastream.specs.declared.order.Order.TheVariants.{Sf, Sba, Ic, Ra, Char};
ghost use Rattle.datastream.specs.Writing.{order_bytes, orders_bytes, command_start, Writes};

use crate::command_code::CommandCode;
use crate::order_codes::{INSERT_CURSOR, REPEAT_TO_ADDRESS, SET_BUFFER_ADDRESS, START_FIELD};
use codes3270::{Addr, Attr, Wcc, addr_to_bytes, attr_code};
use std::alloc::AllocError;

/// The allocator failed to grow the vector. A call that fails with it has changed nothing.
pub type Memory = AllocError;

/// Appends a command to a vector: call `begin`, then one method for each order or run of characters.
///
/// A call fails only if memory for the vector's growth is refused, and then leaves the vector unchanged. What the
/// calls append is read back by [`read_command`](crate::read_command) as the orders that they name: see
/// [`written_is_read`](crate::laws::written_is_read).
#[derive(Drop)]
pub struct CommandWriter<'a> {
    /// The vector that the calls append to. Its present content stays. The field is public so that a caller's proof can
    /// say that it is still the caller's own vector, which a model of the writer wouldn't tell.
    pub out: &'a mut Vec<u8>,
}

impl<'a> CommandWriter<'a> {
    /// A writer that appends to this vector. It writes nothing yet.
    pub fn new(out: &'a mut Vec<u8>) -> CommandWriter<'a>
        ensures same_vector { result.out.ghost_name ≡ out.entry.ghost_name }
        ensures same { result.out.now ≡ out.old }
    {
        CommandWriter { out }
    }

    /// Appends the command's code, and for a write its write control character (GA23-0059-07, "Write Control
    /// Character (WCC)"). Other commands have none, and a reader ignores what follows them.
    pub fn begin(&mut self, code: CommandCode, wcc: Wcc) -> Result<(), Memory>
        ensures { Writes self.old.out self.new.out result (command_start code wcc) }
    {
        if code.has_orders() {
            self.out.extend_from_slice(&[code.byte(), wcc.byte()])
        } else {
            self.out.extend_from_slice(&[code.byte()])
        }
    }

    /// Appends an order that sets the current buffer address (GA23-0059-07 on Set Buffer Address (SBA)).
    pub fn sba(&mut self, addr: Addr) -> Result<(), Memory>
        ensures { Writes self.old.out self.new.out result (order_bytes (Sba addr)) }
    {
        let [high, low] = addr_to_bytes(addr);
        self.out.extend_from_slice(&[SET_BUFFER_ADDRESS, high, low])
    }

    /// Appends an order that starts a field with this attribute (GA23-0059-07 on Start Field (SF)).
    pub fn sf(&mut self, attr: Attr) -> Result<(), Memory>
        ensures { Writes self.old.out self.new.out result (order_bytes (Sf attr)) }
    {
        self.out.extend_from_slice(&[START_FIELD, attr_code(attr)])
    }

    /// Appends characters, which must be storable.
    pub fn chars(&mut self, chars: &[u8]) -> Result<(), Memory>
        requires { All (λ char. is_storable char ≡ true) chars.now }
        ensures { Writes self.old.out self.new.out result (orders_bytes (map (λ char. Char char) chars.now)) }
    {
        self.out.extend_from_slice(chars)
    }

    /// Appends an order that stores a character, which must be storable, from the current address up to `stop`, which
    /// is excluded (GA23-0059-07 on Repeat to Address (RA)).
    pub fn ra(&mut self, stop: Addr, char: u8) -> Result<(), Memory>
        requires { is_storable char ≡ true }
        ensures { Writes self.old.out self.new.out result (order_bytes (Ra stop char)) }
    {
        let [high, low] = addr_to_bytes(stop);
        self.out
            .extend_from_slice(&[REPEAT_TO_ADDRESS, high, low, char])
    }

    /// Appends an order that puts the cursor at the current address (GA23-0059-07 on Insert Cursor (IC)).
    pub fn ic(&mut self) -> Result<(), Memory>
        ensures { Writes self.old.out self.new.out result (order_bytes Ic) }
    {
        self.out.extend_from_slice(&[INSERT_CURSOR])
    }
}
