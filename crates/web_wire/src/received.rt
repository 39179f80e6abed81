//! What a page's end of a WebSocket is to its server (our profile, over RFC 6455).
use crate::opening::Opening;

/// How far the session of a socket is.
#[derive(Clone, Copy)]
pub enum Stage {
    /// The first message isn't there yet.
    AwaitsOpening,
    /// The first message was an [`Opening`]; messages are keys.
    Open,
    /// The socket is closed: nothing more is read, and nothing more is added to the output.
    Over,
}

/// What one frame was received as.
#[derive(Clone, Copy)]
pub enum Received {
    /// No frame was read: none is complete, more than 4,096 bytes wait to be sent, or the socket is closed.
    Waiting,
    /// A ping, which is answered, or a fragment of a message.
    Handled,
    /// The first message.
    Opened(Opening),
    /// The bytes of keys.
    Keys,
    /// The answer to a ping: the page is there.
    Pong,
    /// The socket is closed.
    Closed(Closing),
}

/// Why a socket was closed, with the code of the close frame (RFC 6455, section 7.4.1).
#[derive(Clone, Copy)]
pub enum Closing {
    /// The page closed it; its close frame is answered.
    ByPage,
    /// 1002: the bytes are no frames of RFC 6455.
    BrokenRule,
    /// 1009: a frame or a message has more than 4,096 bytes.
    TooLong,
    /// 1007: a text isn't UTF-8.
    NotText,
    /// 1008: the first message isn't an [`Opening`].
    NotOpened,
    /// 1003: a text message after the first message.
    TextInSession,
    /// 1011: memory was refused.
    Memory,
    /// 1000: this end closed it, since the session has ended.
    Finished,
}
