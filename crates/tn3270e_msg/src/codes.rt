//! The bytes of TN3270E's messages (RFC 1647, section 3).

/// The Telnet option's code, 40.
pub const TN3270E: u8 = 0x28;

/// A terminal's LU follows, with which a printer is to be associated.
pub const ASSOCIATE: u8 = 0x00;

/// The name of an LU follows.
pub const CONNECT: u8 = 0x01;

/// The message negotiates the device type.
pub const DEVICE_TYPE: u8 = 0x02;

/// The message negotiates the functions.
pub const FUNCTIONS: u8 = 0x03;

/// The sender agrees.
pub const IS: u8 = 0x04;

/// The code of a reason follows.
pub const REASON: u8 = 0x05;

/// The host rejects a device request.
pub const REJECT: u8 = 0x06;

/// The sender requests a device type or functions.
pub const REQUEST: u8 = 0x07;

/// The host asks for the device type.
pub const SEND: u8 = 0x08;

/// The function RESPONSES (RFC 1647, section 7.2).
pub const RESPONSES: u8 = 0x02;
