//! Why a reply is invalid.
use std::alloc::AllocError;
use thiserror::Error;

/// What is wrong with a key of a reply. Prints as one word.
#[derive(Debug, Clone, Copy, PartialEq, Eq, Drop, Error)]
pub enum KeyFault {
    /// A reply can't have this key.
    #[error("unknown-key")]
    UnknownKey,
    /// The key's value must be a text.
    #[error("not-text")]
    NotText,
    /// The key's value must be true or false.
    #[error("not-boolean")]
    NotBoolean,
    /// The key's value must be an object.
    #[error("not-object")]
    NotObject,
    /// The key is a field's name, and its value must be a text, or an array of texts.
    #[error("field-not-text")]
    FieldNotText,
}

/// Why a reply is invalid. It has no field's value, which may be a password. Prints as one word, without the key.
#[derive(Debug, Drop, PartialEq, Eq, Error)]
pub enum ReplyFault {
    /// Memory was refused. This says nothing about the reply.
    #[error("no-memory")]
    Memory,
    /// More than 65,536 bytes were received before the reply's end.
    #[error("too-long")]
    TooLong,
    /// The connection was closed before the reply's end.
    #[error("broken")]
    CutShort,
    /// The bytes don't begin with a response of HTTP/1.0 or HTTP/1.1 (RFC 9112, section 4).
    #[error("not-http")]
    NotHttp,
    /// The head has more than 64 fields.
    #[error("too-many-fields")]
    TooManyFields,
    /// The status is not 200 (RFC 9110, section 15).
    #[error("status")]
    Status(u16),
    /// The head doesn't state a usable length (RFC 9112, section 6.3).
    #[error("bad-length")]
    BadLength,
    /// The content is badly chunked, or has more than 64 trailers (RFC 9112, section 7.1).
    #[error("bad-chunks")]
    BadChunks,
    /// The content isn't a JSON object (RFC 8259).
    #[error("not-json")]
    NotJson,
    /// A key or its value is wrong. It is the first such key in the order of the keys' bytes.
    #[error("{what}")]
    Key {
        /// What is wrong with it.
        what: KeyFault,
        /// The key, or the name of the field.
        key: String,
    },
}

impl From<AllocError> for ReplyFault {
    ghost use Rattle.std.specs.Prelude.{◌≡◌};
    ghost use Rattle.application_http.specs.declared.fault.ReplyFault.TheVariants.{Memory};

    ghost from_gives = { λ _ fault. fault ≡ Memory };

    fn from(_: AllocError) -> ReplyFault {
        ReplyFault::Memory
    }
}
