//! The write control character (GA23-0059-07, "Write Control Character (WCC)").
ghost use Rattle.std.specs.Prelude.{◌≡◌, true};
ghost use Rattle.codes3270.specs.SixBit.{is_six_bit_code};
ghost use Rattle.codes3270.specs.WriteControl.{wcc_of, wcc_byte};

use crate::six_bit::code_of_value;

/// The write control character (WCC): what a write does besides its orders (GA23-0059-07, "Write
/// Control Character (WCC)").
#[derive(Clone, Copy, Debug, PartialEq, Eq)]
pub struct Wcc {
    /// Sound the alarm, after the orders.
    pub alarm: bool,
    /// Restore the keyboard and reset the AID, after the orders.
    pub restore: bool,
    /// Reset the modified data tag of every field, before the orders.
    pub reset: bool,
}

impl Wcc {
    /// Decodes a WCC. The other five bits are ignored, so every byte decodes: they are for
    /// printers, for partitions, or make the byte a graphic code.
    pub fn from_byte(byte: u8) -> Wcc
        ensures { result ≡ wcc_of byte }
    {
        Wcc {
            alarm: byte & 0x04 != 0,
            restore: byte & 0x02 != 0,
            reset: byte & 0x01 != 0,
        }
    }

    /// Encodes the WCC as a graphic code.
    pub fn byte(self) -> u8
        ensures byte { result ≡ wcc_byte self }
        ensures read_back { wcc_of result ≡ self }
        ensures graphic { is_six_bit_code result ≡ true }
    {
        let alarm = if self.alarm { 0x04 } else { 0 };
        let restore = if self.restore { 0x02 } else { 0 };
        let reset = if self.reset { 0x01 } else { 0 };
        code_of_value(alarm + restore + reset)
    }

    /// Whether the alarm sounds.
    pub fn alarm(self) -> bool
        ensures { result ≡ self.alarm }
    {
        self.alarm
    }

    /// Whether the keyboard is restored.
    pub fn restore(self) -> bool
        ensures { result ≡ self.restore }
    {
        self.restore
    }

    /// Whether the modified data tags are reset.
    pub fn reset(self) -> bool
        ensures { result ≡ self.reset }
    {
        self.reset
    }
}
