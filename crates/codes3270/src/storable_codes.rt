//! Which bytes a cell can hold as a character (GA23-0059-07 on character codes; our profile).
ghost use Rattle.std.specs.Prelude.{◌≡◌};
ghost use Rattle.codes3270.specs.Storable.{is_storable};

/// Whether a cell can hold a byte as a character: null, 40 to FE, and eight control codes (GA23-0059-07 on character
/// codes; our profile). Any other byte in a write is an order code or has no meaning.
pub fn storable(byte: u8) -> bool
    ensures { result ≡ is_storable byte }
{
    byte >= 0x40 || matches!(byte, 0x00 | 0x0C | 0x0D | 0x15 | 0x19 | 0x1C | 0x1E | 0x3F)
}
