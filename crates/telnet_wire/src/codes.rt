//! The bytes that have a meaning of their own after IAC (RFC 854, "TELNET Command Structure"; EOR: RFC 885).

/// Begins a command ("interpret as command").
pub const IAC: u8 = 255;

/// The sender forbids the other end to use an option.
pub const DONT: u8 = 254;

/// The sender asks the other end to use an option, or agrees that it does.
pub const DO: u8 = 253;

/// The sender refuses to use an option, or stops.
pub const WONT: u8 = 252;

/// The sender offers to use an option, or agrees to.
pub const WILL: u8 = 251;

/// Begins a subnegotiation.
pub const SB: u8 = 250;

/// Ends a subnegotiation.
pub const SE: u8 = 240;

/// Ends a record (RFC 885).
pub const EOR: u8 = 239;
