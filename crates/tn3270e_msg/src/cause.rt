//! Why an end closes the connection, and how many of its input bytes it has processed.
ghost use Rattle.std.specs.Prelude.{◌≡◌};
ghost use Rattle.tn3270e_msg.specs.Words.{cause_name, cause_number};

use std::fmt;

/// Why an end closes the connection (our profile). An end is the host or the terminal.
#[derive(Clone, Copy, Debug, PartialEq, Eq)]
pub enum Cause {
    /// 1: the other end refuses TN3270E.
    NoTn3270e,
    /// 2: the other end refuses the function RESPONSES.
    NoResponses,
    /// 3: a message of the other end is malformed or out of order.
    BadTalk,
    /// 4: this end rejected or countered the other end's request for the eighth time.
    TooMany,
    /// 5: the Telnet decoder refused a byte.
    Wire,
    /// 6: a record does not begin with a header.
    BadRecord,
    /// 7: data from a terminal is wrong, or out of turn.
    BadInbound,
    /// 8: a response doesn't match any pending command.
    BadResponse,
    /// 9: the terminal rejected an Erase/Write by a negative response.
    Negative,
    /// 10: the terminal's screen shows that it broke a rule on which the host relies.
    RuleBroken,
}

impl Cause {
    /// Its number, 1 to 10, in the order in which the causes are declared.
    pub fn number(self) -> u8
        ensures { result ≡ cause_number self }
    {
        match self {
            Cause::NoTn3270e => 1,
            Cause::NoResponses => 2,
            Cause::BadTalk => 3,
            Cause::TooMany => 4,
            Cause::Wire => 5,
            Cause::BadRecord => 6,
            Cause::BadInbound => 7,
            Cause::BadResponse => 8,
            Cause::Negative => 9,
            Cause::RuleBroken => 10,
        }
    }

    /// Its name, as it is declared.
    pub fn name(self) -> &'static str
        ensures { result.now ≡ cause_name self }
    {
        match self {
            Cause::NoTn3270e => "NoTn3270e",
            Cause::NoResponses => "NoResponses",
            Cause::BadTalk => "BadTalk",
            Cause::TooMany => "TooMany",
            Cause::Wire => "Wire",
            Cause::BadRecord => "BadRecord",
            Cause::BadInbound => "BadInbound",
            Cause::BadResponse => "BadResponse",
            Cause::Negative => "Negative",
            Cause::RuleBroken => "RuleBroken",
        }
    }
}

/// Prints the cause's name.
impl fmt::Display for Cause {
    ghost use Rattle.std.specs.Prelude.{Some};

    ghost output = { λ cause. Some (cause_name cause) };

    fn fmt<W: fmt::Write>(&self, f: &mut fmt::Formatter<W>) -> fmt::Result {
        f.write_str(self.name())
    }
}

/// How many of its input bytes an end has processed, and what stopped it there.
#[derive(Clone, Copy, Debug, PartialEq, Eq)]
pub struct Fed {
    /// The number of bytes processed. The end's state is that after these.
    pub taken: usize,
    /// What stopped it after these bytes.
    pub stop: Stop,
}

/// What stopped an end from processing more bytes.
#[derive(Clone, Copy, Debug, PartialEq, Eq)]
pub enum Stop {
    /// Nothing: the end continues.
    Going,
    /// The allocator refused memory. The caller may feed the other bytes again.
    Memory,
    /// The end is closed.
    Closed(Cause),
}
