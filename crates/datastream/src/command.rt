//! Reading commands.
ghost use Rattle.std.specs.Prelude.{◌≡◌, MatchResult, IfOk, IfErr, All, length, ◌<◌, ◌^◌};
ghost use Rattle.codes3270.specs.Size.{cells_in};
ghost use Rattle.datastream.specs.Grammar.{CommandParts, IsCommand, IsNoCommand, IsSpelt, IsProper, AreOrders, HasFault, size_after};
ghost use Rattle.datastream.specs.Reading.{orders_in};
ghost use Rattle.datastream.specs.declared.fault.CommandFault.{CommandFault as Fault};

use crate::characters::behind_characters;
use crate::command_code::CommandCode;
use crate::fault::CommandFault;
use crate::orders::{Orders, byte_of, order_of};
use codes3270::{Size, Wcc};
use std::marker::Model;

/// A command (GA23-0059-07, "3270 Data Stream Commands") that borrows its bytes. Contracts see its code, the size that
/// the screen has after it, its write control character and its orders.
#[derive(Drop)]
pub struct Command<'a> {
    code: CommandCode,
    size: Size,
    wcc: Option<Wcc>,
    text: &'a [u8],
}

impl<'a> Model for Command<'a> {
    ghost use Rattle.codes3270.specs.Size.{cells_in};
    ghost use Rattle.datastream.specs.Grammar.{CommandParts, IsSpelt};
    ghost use Rattle.datastream.specs.Reading.{orders_in};

    ghost Value = { CommandParts };

    ghost view = { λ command. record {
      code = command.code;
      size = command.size;
      wcc = command.wcc;
      orders = orders_in (cells_in command.size) command.text.now;
    } };

    ghost invariant = { λ command. IsSpelt (record {
      code = command.code;
      size = command.size;
      wcc = command.wcc;
      orders = orders_in (cells_in command.size) command.text.now;
    }) };
}

impl<'a> Command<'a> {
    /// Which command it is.
    pub fn code(&self) -> CommandCode
        ensures code { result ≡ self.now.code }
        // There are bytes that encode the command.
        ensures encoded { IsSpelt self.now }
    {
        self.code
    }

    /// The size that the screen has after the command. The addresses in its orders are below its number of cells.
    pub fn size(&self) -> Size
        ensures size { result ≡ self.now.size }
        ensures encoded { IsSpelt self.now }
    {
        self.size
    }

    /// The write control character, or `None` if the command is no write.
    pub fn wcc(&self) -> Option<Wcc>
        ensures wcc { result ≡ self.now.wcc }
        ensures encoded { IsSpelt self.now }
    {
        self.wcc
    }

    /// An iterator over all orders. Each data byte is one order. A command that is no write has none.
    pub fn orders(&self) -> Orders<'a>
        ensures orders { result ≡ self.now.orders }
        ensures proper { All (IsProper (cells_in self.now.size)) result }
        ensures few { length result < 2 ^ 64 }
        ensures encoded { IsSpelt self.now }
    {
        // For the contract: the text has less than 2^64 bytes.
        let _bytes = self.text.len();
        Orders {
            size: self.size,
            text: self.text,
        }
    }
}

/// Checks that a text consists of orders, for a screen of this size. Fails with the first fault.
fn check_orders(text: &[u8], size: Size) -> Result<(), CommandFault>
    ensures { MatchResult result (λ _. AreOrders (cells_in size) (orders_in (cells_in size) text.now) text.now)
        (λ fault. HasFault (cells_in size) fault text.now) }
{
    let mut rest = behind_characters(text);
    while !rest.is_empty() {
        match order_of(rest, size) {
            Ok((_, after)) => rest = behind_characters(after),
            Err(fault) => return Err(fault),
        }
    }
    Ok(())
}

/// The size after a write. Fails with the first fault if the text doesn't consist of orders for that size.
fn check_write(
    code: CommandCode,
    text: &[u8],
    now: Size,
    alternate: Size,
) -> Result<Size, CommandFault>
    ensures orders { IfOk result (λ size. (size ≡ size_after code now alternate)
        × AreOrders (cells_in size) (orders_in (cells_in size) text.now) text.now) }
    ensures fault { IfErr result (λ fault. HasFault (cells_in (size_after code now alternate)) fault text.now) }
{
    let size = code.size_after(now, alternate);
    match check_orders(text, size) {
        Ok(()) => Ok(size),
        Err(fault) => Err(fault),
    }
}

fn command_of(bytes: &[u8], now: Size, alternate: Size) -> Result<Command<'_>, CommandFault>
    ensures { MatchResult result (λ command. IsCommand now alternate command bytes.now)
        (λ fault. IsNoCommand now alternate fault bytes.now) }
{
    let (byte, rest) = byte_of(bytes)?;
    let Some(code) = CommandCode::from_byte(byte) else {
        return Err(CommandFault::BadCommand);
    };
    if !code.has_orders() {
        return Ok(Command {
            code,
            size: code.size_after(now, alternate),
            wcc: None,
            text: &[],
        });
    }
    let (wcc, text) = byte_of(rest)?;
    let size = check_write(code, text, now, alternate)?;
    Ok(Command {
        code,
        size,
        wcc: Some(Wcc::from_byte(wcc)),
        text,
    })
}

/// Reads a command, or returns the first fault. `now` and `alternate` are the screen's present and its alternate size.
///
/// Addresses are checked against the size that holds after the erase (our profile): [`Size::base`] for Erase/Write, the
/// alternate size for Erase/Write Alternate, and the present size for any other command.
///
/// All orders are checked before any is executed, so a command with a fault changes nothing. Bytes after the code of a
/// read command or of Erase All Unprotected are ignored (our profile).
pub fn read_command(bytes: &[u8], now: Size, alternate: Size) -> Result<Command<'_>, CommandFault>
    ensures found { MatchResult result (λ command. IsCommand now alternate command bytes.now)
        (λ fault. IsNoCommand now alternate fault bytes.now) }
    ensures size { IfOk result (λ command. command.size ≡ size_after command.code now alternate) }
    // There is no other command, and no other fault.
    ensures only { (command : CommandParts) → IsCommand now alternate command bytes.now → result ≡ Ok command }
    ensures first { (fault : Fault) → IsNoCommand now alternate fault bytes.now → result ≡ Err fault }
{
    command_of(bytes, now, alternate)
}
