//! The commands and their codes.
ghost use Rattle.std.specs.Prelude.{◌≡◌, MatchOption};
ghost use Rattle.datastream.specs.declared.command_code.CommandCode.{CommandCode as Code};
ghost use Rattle.datastream.specs.Grammar.{IsCode, codes_of, is_write, size_after};

use codes3270::Size;

/// Which command it is (GA23-0059-07, "3270 Data Stream Commands").
#[derive(Clone, Copy, Debug, PartialEq, Eq, Hash)]
pub enum CommandCode {
    /// Write: executes its orders from the cursor's address on.
    Write,
    /// Erase/Write: as Write, after it clears the screen and sets the size to 24 rows of 80 columns.
    EraseWrite,
    /// Erase/Write Alternate: as Erase/Write, but sets the screen to its alternate size.
    EraseWriteAlternate,
    /// Read Buffer: asks for all cells.
    ReadBuffer,
    /// Read Modified: asks for the modified fields. A PA key or Clear returns its AID alone.
    ReadModified,
    /// Read Modified All: asks for the modified fields, whichever key was pressed.
    ReadModifiedAll,
    /// Erase All Unprotected (EAU): stores nulls in the unprotected cells.
    EraseAllUnprotected,
}

impl CommandCode {
    /// The command with this code, or `None`. Each command has two codes.
    pub(crate) fn from_byte(byte: u8) -> Option<CommandCode>
        ensures { MatchOption result ((code : Code) → IsCode code byte → ⊥) (λ code. IsCode code byte) }
    {
        match byte {
            0x01 | 0xF1 => Some(CommandCode::Write),
            0x05 | 0xF5 => Some(CommandCode::EraseWrite),
            0x0D | 0x7E => Some(CommandCode::EraseWriteAlternate),
            0x02 | 0xF2 => Some(CommandCode::ReadBuffer),
            0x06 | 0xF6 => Some(CommandCode::ReadModified),
            0x0E | 0x6E => Some(CommandCode::ReadModifiedAll),
            0x0F | 0x6F => Some(CommandCode::EraseAllUnprotected),
            _ => None,
        }
    }

    /// The code that a writer sends: the second of the two.
    pub(crate) fn byte(self) -> u8
        ensures { result ≡ (codes_of self).1 }
    {
        match self {
            CommandCode::Write => 0xF1,
            CommandCode::EraseWrite => 0xF5,
            CommandCode::EraseWriteAlternate => 0x7E,
            CommandCode::ReadBuffer => 0xF2,
            CommandCode::ReadModified => 0xF6,
            CommandCode::ReadModifiedAll => 0x6E,
            CommandCode::EraseAllUnprotected => 0x6F,
        }
    }

    /// The size of a screen after the command, given its present size and its alternate size.
    pub(crate) fn size_after(self, now: Size, alternate: Size) -> Size
        ensures { result ≡ size_after self now alternate }
    {
        match self {
            CommandCode::EraseWrite => Size::base(),
            CommandCode::EraseWriteAlternate => alternate,
            CommandCode::Write => now,
            CommandCode::ReadBuffer => now,
            CommandCode::ReadModified => now,
            CommandCode::ReadModifiedAll => now,
            CommandCode::EraseAllUnprotected => now,
        }
    }

    /// Whether the command is a write, which has a write control character and orders.
    pub fn has_orders(self) -> bool
        ensures { result ≡ is_write self }
    {
        matches!(
            self,
            CommandCode::Write | CommandCode::EraseWrite | CommandCode::EraseWriteAlternate
        )
    }
}
