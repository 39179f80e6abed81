//! Numbers within bounds, and the bounds of each option.
ghost use Rattle.std.specs.Prelude.{◌≡◌, ◌≤◌};
ghost use Rattle.jobs.specs.OptionValues.{number_in_word};

use crate::word::number_of;
use std::marker;

/// A number in `LOW..=HIGH`. Contracts see the number.
#[derive(Clone, Copy, Debug)]
pub struct BoundedU16<const LOW: u16, const HIGH: u16> {
    number: u16,
}

impl<const LOW: u16, const HIGH: u16> marker::Model for BoundedU16<LOW, HIGH> {
    ghost use Rattle.std.specs.Prelude.{ℕ, ◌≤◌};

    ghost Value = { ℕ };

    ghost view = { λ it. it.number };

    ghost invariant = { λ it. (LOW ≤ it.number) × (it.number ≤ HIGH) };

    ghost inverse = { λ number. record { number = number } };
}

impl<const LOW: u16, const HIGH: u16> BoundedU16<LOW, HIGH> {
    /// The number in decimal digits; None if the word isn't decimal digits, or if the number isn't in `LOW..=HIGH`.
    pub fn read(word: &str) -> Option<BoundedU16<LOW, HIGH>>
        ensures { result ≡ number_in_word LOW HIGH word.now }
    {
        let number = u16::try_from(number_of(word)?).ok()?;
        if LOW <= number && number <= HIGH {
            Some(BoundedU16 { number })
        } else {
            None
        }
    }

    /// The number, in `LOW..=HIGH`.
    pub fn get(self) -> u16
        ensures value { result ≡ self.entry }
        ensures in_range { (LOW ≤ result) × (result ≤ HIGH) }
    {
        let BoundedU16 { number } = self;
        number
    }

    /// This number.
    pub fn of(number: u16) -> BoundedU16<LOW, HIGH>
        requires { (LOW ≤ number) × (number ≤ HIGH) }
        ensures { result ≡ number }
    {
        BoundedU16 { number }
    }
}

/// A number in `LOW..=HIGH`. Contracts see the number.
#[derive(Clone, Copy, Debug)]
pub struct BoundedU32<const LOW: u32, const HIGH: u32> {
    number: u32,
}

impl<const LOW: u32, const HIGH: u32> marker::Model for BoundedU32<LOW, HIGH> {
    ghost use Rattle.std.specs.Prelude.{ℕ, ◌≤◌};

    ghost Value = { ℕ };

    ghost view = { λ it. it.number };

    ghost invariant = { λ it. (LOW ≤ it.number) × (it.number ≤ HIGH) };

    ghost inverse = { λ number. record { number = number } };
}

impl<const LOW: u32, const HIGH: u32> BoundedU32<LOW, HIGH> {
    /// The number in decimal digits; None if the word isn't decimal digits, or if the number isn't in `LOW..=HIGH`.
    pub fn read(word: &str) -> Option<BoundedU32<LOW, HIGH>>
        ensures { result ≡ number_in_word LOW HIGH word.now }
    {
        let number = u32::try_from(number_of(word)?).ok()?;
        if LOW <= number && number <= HIGH {
            Some(BoundedU32 { number })
        } else {
            None
        }
    }

    /// The number, in `LOW..=HIGH`.
    pub fn get(self) -> u32
        ensures value { result ≡ self.entry }
        ensures in_range { (LOW ≤ result) × (result ≤ HIGH) }
    {
        let BoundedU32 { number } = self;
        number
    }

    /// This number.
    pub fn of(number: u32) -> BoundedU32<LOW, HIGH>
        requires { (LOW ≤ number) × (number ≤ HIGH) }
        ensures { result ≡ number }
    {
        BoundedU32 { number }
    }
}

/// A port number that needs no privileges, 1024 to 65535.
pub type Port = BoundedU16<1024, 65535>;

/// A port number of a service, 1 to 65535.
pub type ServicePort = BoundedU16<1, 65535>;

/// A time limit in seconds, 0 to 1,000,000; 0 is no limit.
pub type Seconds = BoundedU32<0, 1_000_000>;

/// How long an application may take for a reply, in seconds, 1 to 3,600.
pub type ReplyTime = BoundedU32<1, 3_600>;

/// The most sessions of `web`, 1 to 64.
pub type SessionCount = BoundedU16<1, 64>;

/// The most sessions of `web` for one address, 0 to 64; 0 is no limit.
pub type AddressCount = BoundedU16<0, 64>;

/// The time without a byte that ends a lone ESC, in milliseconds, 1 to 10,000.
pub type EscapeTime = BoundedU16<1, 10_000>;

/// A number of turns, 1 to 1,000,000.
pub type Turns = BoundedU32<1, 1_000_000>;
