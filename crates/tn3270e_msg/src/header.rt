//! The header of a record (RFC 1647, section 8.1).
ghost use Rattle.std.specs.Prelude.{◌≡◌, ◌↔◌, ◌<◌, ◌≤◌, ◌++◌, ℕ, List, IfOk, IfErr, IsOkAnd, Err};
ghost use Rattle.tn3270e_msg.specs.Header.{type_code, spelling, next_number, IsDataType, IsFlag, IsHeader, Begins, HasFault};
ghost use Rattle.tn3270e_msg.specs.declared.header.Header.{Header};
ghost use Rattle.tn3270e_msg.specs.declared.header.HeadFault.{HeadFault};

use std::error::Error;
use std::fmt;

/// DATA-TYPE: what a record contains (RFC 1647, section 8.1).
#[derive(Clone, Copy, Debug, PartialEq, Eq)]
pub enum DataType {
    /// 3270-DATA, 0.
    Data3270,
    /// SCS-DATA, 1.
    ScsData,
    /// RESPONSE, 2.
    Response,
    /// BIND-IMAGE, 3.
    BindImage,
    /// UNBIND, 4.
    Unbind,
    /// NVT-DATA, 5.
    NvtData,
    /// REQUEST, 6.
    Request,
    /// SSCP-LU-DATA, 7.
    SscpLuData,
    /// A code from 8 on, which has no name.
    Unnamed(u8),
}

impl DataType {
    fn from_code(code: u8) -> DataType
        ensures code { type_code result ≡ code }
        ensures named { IsDataType result }
    {
        match code {
            0 => DataType::Data3270,
            1 => DataType::ScsData,
            2 => DataType::Response,
            3 => DataType::BindImage,
            4 => DataType::Unbind,
            5 => DataType::NvtData,
            6 => DataType::Request,
            7 => DataType::SscpLuData,
            _ => DataType::Unnamed(code),
        }
    }

    fn code(self) -> u8
        ensures { result ≡ type_code self }
    {
        match self {
            DataType::Data3270 => 0,
            DataType::ScsData => 1,
            DataType::Response => 2,
            DataType::BindImage => 3,
            DataType::Unbind => 4,
            DataType::NvtData => 5,
            DataType::Request => 6,
            DataType::SscpLuData => 7,
            DataType::Unnamed(code) => code,
        }
    }

    fn highest_flag(self) -> u8
        ensures { (flag : ℕ) → flag < 256 → IsFlag self flag ↔ (flag ≤ result) }
    {
        match self {
            DataType::Data3270 => 2,
            DataType::Response => 1,
            _ => 255,
        }
    }
}

/// The most data bytes of a record, its header included (our profile).
pub const RECORD_LIMIT: usize = 16_384;

/// The number of bytes of a header (RFC 1647, section 8.1).
pub const HEADER_LENGTH: usize = 5;

/// RESPONSE-FLAG of 3270-DATA whose sender wants no response (RFC 1647, section 8.1.3).
pub const NO_RESPONSE: u8 = 0;

/// RESPONSE-FLAG of 3270-DATA whose sender wants a response only if the data is rejected (RFC 1647, section 8.1.3).
pub const ERROR_RESPONSE: u8 = 1;

/// RESPONSE-FLAG of 3270-DATA whose sender wants a response in any case (RFC 1647, section 8.1.3).
pub const ALWAYS_RESPONSE: u8 = 2;

/// RESPONSE-FLAG of the response to data that was processed (RFC 1647, section 8.1.3).
pub const POSITIVE: u8 = 0;

/// RESPONSE-FLAG of the response to data that was rejected (RFC 1647, section 8.1.3).
pub const NEGATIVE: u8 = 1;

/// The first [`HEADER_LENGTH`] bytes of a record (RFC 1647, section 8.1).
#[derive(Clone, Copy, Debug, PartialEq, Eq)]
pub struct Header {
    /// DATA-TYPE.
    pub kind: DataType,
    /// REQUEST-FLAG, any byte.
    pub request: u8,
    /// RESPONSE-FLAG: at most 2 on 3270-DATA, at most 1 on RESPONSE, else any byte.
    pub flag: u8,
    /// SEQ-NUMBER. Its high byte is sent first.
    pub seq: u16,
}

/// Why bytes don't begin with a header.
#[derive(Clone, Copy, Debug, PartialEq, Eq)]
pub enum HeadFault {
    /// There are fewer than [`HEADER_LENGTH`] bytes.
    Short,
    /// RESPONSE-FLAG is over 2 on 3270-DATA, or over 1 on RESPONSE.
    BadFlag,
}

impl fmt::Display for HeadFault {
    ghost use Rattle.std.specs.Prelude.{Some};
    ghost use Rattle.tn3270e_msg.specs.Printed.{head_fault_text};

    ghost output = { λ fault. Some (head_fault_text fault) };

    fn fmt<W: fmt::Write>(&self, f: &mut fmt::Formatter<W>) -> fmt::Result {
        match self {
            HeadFault::Short => f.write_str("record shorter than a header"),
            HeadFault::BadFlag => f.write_str("response flag out of range"),
        }
    }
}

impl Error for HeadFault {}

/// Reads the header that a record begins with, and the body after it (RFC 1647, section 8.1).
///
/// It fails with [`HeadFault::Short`] if there are fewer than [`HEADER_LENGTH`] bytes, and with [`HeadFault::BadFlag`]
/// if the type has no such RESPONSE-FLAG. It accepts a type without a name, and any REQUEST-FLAG.
pub fn read_header(bytes: &[u8]) -> Result<(Header, &[u8]), HeadFault>
    ensures found { IfOk result (λ found. Begins bytes.now found.0 found.1.now) }
    ensures fault { IfErr result (HasFault bytes.now) }
    // If the bytes begin with a header, that header is found.
    ensures all { (header : Header) (body : List ℕ) → Begins bytes.now header body →
        IsOkAnd result (λ found. (found.0 ≡ header) × (found.1.now ≡ body)) }
    ensures refused { (fault : HeadFault) → HasFault bytes.now fault → result ≡ Err fault }
{
    find_header(bytes)
}

fn find_header(bytes: &[u8]) -> Result<(Header, &[u8]), HeadFault>
    ensures found { IfOk result (λ found. Begins bytes.now found.0 found.1.now) }
    ensures fault { IfErr result (HasFault bytes.now) }
{
    let [code, request, flag, high, low, body @ ..] = bytes else {
        return Err(HeadFault::Short);
    };
    let kind = DataType::from_code(*code);
    let header = Header {
        kind,
        request: *request,
        flag: *flag,
        seq: u16::from_be_bytes([*high, *low]),
    };
    if header.flag > kind.highest_flag() {
        return Err(HeadFault::BadFlag);
    }
    Ok((header, body))
}

/// The [`HEADER_LENGTH`] bytes of a header. They are read back as this header. Its RESPONSE-FLAG must be
/// one that its type has, and `Unnamed` must have a code from 8 on.
pub fn header_bytes(header: &Header) -> [u8; HEADER_LENGTH]
    requires { IsHeader header.now }
    ensures bytes { result ≡ spelling header.now }
    ensures read_back { (body : List ℕ) → Begins (result ++ body) header.now body }
{
    let [high, low] = header.seq.to_be_bytes();
    [header.kind.code(), header.request, header.flag, high, low]
}

/// The SEQ-NUMBER after this one: 0 follows 32767 (our profile).
pub const fn next_seq(seq: u16) -> u16
    ensures { result ≡ next_number seq }
{
    if seq < 32767 { seq + 1 } else { 0 }
}
