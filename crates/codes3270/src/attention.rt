//! Attention identifiers (GA23-0059-07 on attention identification).
ghost use Rattle.std.specs.Prelude.{◌≡◌, ◌==◌, ◌-◌, ◌<◌, ◌≤◌, SomeIff, IfSome, length, slice_index, position};
ghost use Rattle.codes3270.specs.Aid.{IsRealAid, byte_of_aid, aid_of, is_short_aid, key_number};

use std::marker::Model;

/// The number of a program function key, 1 to 24 (GA23-0059-07 on attention identification).
/// Contracts see it as a number.
#[derive(Clone, Copy, Debug, PartialEq, Eq)]
pub struct PfNo {
    number: u8,
}

impl Model for PfNo {
    ghost use Rattle.std.specs.Prelude.{ℕ, ◌≤◌};

    ghost Value = { ℕ };

    ghost view = { λ key. key.number };

    ghost invariant = { λ key. (1 ≤ key.number) × (key.number ≤ 24) };

    ghost inverse = { λ number. record { number = number } };
}

/// The number of a program attention key, 1 to 3 (GA23-0059-07 on attention identification).
/// Contracts see it as a number.
#[derive(Clone, Copy, Debug, PartialEq, Eq)]
pub struct PaNo {
    number: u8,
}

impl Model for PaNo {
    ghost use Rattle.std.specs.Prelude.{ℕ, ◌≤◌};

    ghost Value = { ℕ };

    ghost view = { λ key. key.number };

    ghost invariant = { λ key. (1 ≤ key.number) × (key.number ≤ 3) };

    ghost inverse = { λ number. record { number = number } };
}

/// An attention identifier (AID): the key that caused the terminal to send (GA23-0059-07 on attention identification).
#[derive(Clone, Copy, Debug, PartialEq, Eq)]
pub enum Aid {
    /// No key was pressed since the keyboard was restored.
    NoAid,
    /// The Enter key.
    Enter,
    /// The Clear key, which also clears the screen.
    Clear,
    /// A program function key.
    Pf(PfNo),
    /// A program attention key.
    Pa(PaNo),
}

/// The codes of PF1 to PF24.
static PF_CODES: [u8; 24] = [
    0xF1, 0xF2, 0xF3, 0xF4, 0xF5, 0xF6, 0xF7, 0xF8, 0xF9, 0x7A, 0x7B, 0x7C, 0xC1, 0xC2, 0xC3, 0xC4,
    0xC5, 0xC6, 0xC7, 0xC8, 0xC9, 0x4A, 0x4B, 0x4C,
];

/// The codes of PA1 to PA3.
static PA_CODES: [u8; 3] = [0x6C, 0x6E, 0x6B];

impl PfNo {
    /// The key with a number; `None` unless the number is 1 to 24.
    pub fn new(number: u8) -> Option<PfNo>
        ensures { SomeIff result ((1 ≤ number) × (number ≤ 24)) number }
    {
        match number {
            1..=24 => Some(PfNo { number }),
            _ => None,
        }
    }

    /// Its number, 1 to 24.
    pub fn get(self) -> u8
        ensures value { result ≡ self }
        ensures in_range { (1 ≤ result) × (result ≤ 24) }
    {
        let PfNo { number } = self;
        number
    }
}

impl PaNo {
    /// The key with a number; `None` unless the number is 1 to 3.
    pub fn new(number: u8) -> Option<PaNo>
        ensures { SomeIff result ((1 ≤ number) × (number ≤ 3)) number }
    {
        match number {
            1..=3 => Some(PaNo { number }),
            _ => None,
        }
    }

    /// Its number, 1 to 3.
    pub fn get(self) -> u8
        ensures value { result ≡ self }
        ensures in_range { (1 ≤ result) × (result ≤ 3) }
    {
        let PaNo { number } = self;
        number
    }
}

/// Encodes an identifier (GA23-0059-07 on attention identification).
pub fn aid_byte(aid: Aid) -> u8
    ensures byte { result ≡ byte_of_aid aid }
    ensures read_back { aid_of result ≡ Some aid }
    ensures real { IsRealAid aid }
{
    match aid {
        Aid::NoAid => 0x60,
        Aid::Enter => 0x7D,
        Aid::Clear => 0x6D,
        Aid::Pf(key) => PF_CODES[(key.get() - 1) as usize],
        Aid::Pa(key) => PA_CODES[(key.get() - 1) as usize],
    }
}

impl Aid {
    /// Whether the terminal sends the identifier alone for this key: true of Clear and the program
    /// attention keys (GA23-0059-07 on short reads).
    pub fn is_short(self) -> bool
        ensures { result ≡ is_short_aid self }
    {
        matches!(self, Aid::Clear | Aid::Pa(_))
    }
}

/// The index of a code in a list.
fn place_of(codes: &[u8], byte: u8) -> Option<usize>
    ensures place { result ≡ position (λ code. code == byte) codes.now }
    ensures in_range { IfSome result (λ place. place < length codes.now) }
    ensures code { IfSome result (λ place. slice_index codes.now place ≡ byte) }
{
    codes.iter().position(|code| *code == byte)
}

/// The number of the key with a code: its index in the list, plus 1.
fn number_of_key(codes: &[u8], byte: u8) -> Option<u8>
    requires { length codes.now ≤ 24 }
    ensures number { result ≡ key_number codes.now byte }
    ensures in_range { IfSome result (λ number. (1 ≤ number) × (number ≤ length codes.now)) }
    ensures code { IfSome result (λ number. slice_index codes.now (number - 1) ≡ byte) }
{
    let place = place_of(codes, byte)?;
    Some(place as u8 + 1)
}

/// Decodes an identifier; `None` if no key has this byte (GA23-0059-07 on attention
/// identification). Our profile has no light pen, card reader or structured field.
pub fn aid_from_byte(byte: u8) -> Option<Aid>
    ensures aid { result ≡ aid_of byte }
    ensures real { IfSome result IsRealAid }
    ensures read_back { IfSome result (λ aid. byte_of_aid aid ≡ byte) }
{
    match byte {
        0x60 => return Some(Aid::NoAid),
        0x7D => return Some(Aid::Enter),
        0x6D => return Some(Aid::Clear),
        _ => {}
    }
    if let Some(number) = number_of_key(&PF_CODES, byte) {
        return Some(Aid::Pf(PfNo { number }));
    }
    let number = number_of_key(&PA_CODES, byte)?;
    Some(Aid::Pa(PaNo { number }))
}
