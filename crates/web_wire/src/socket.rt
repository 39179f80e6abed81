//! The end of a WebSocket at the server (RFC 6455), for a page with a terminal.
ghost use Rattle.std.specs.Prelude.{◌≡◌, ◌↔◌, ◌+◌, ◌-◌, ◌≤◌, ◌⊎◌, ◌++◌, [], Some, None, true, false, Err, IfErr, IfSome, MatchOption, OnErr, OnOk, length, drop, option_map};
ghost use Rattle.websocket.specs.Content.{message_content, content_payload, received_content, text, binary, ping, IsReceivedInside, HasValidText};
ghost use Rattle.websocket.specs.Connection.{read_step};
ghost use Rattle.websocket.specs.declared.protocol.config.Role.TheVariants.{Server};
ghost use Rattle.websocket.specs.declared.protocol.state.WebSocketState.TheVariants.{Active};
ghost use Rattle.web_wire.specs.Frames.{connection_with, frame_of, IsNoClose};
ghost use Rattle.web_wire.specs.Notices.{notice_text};
ghost use Rattle.web_wire.specs.Steps.{IsOneRead, is_closed};
ghost use Rattle.web_wire.specs.Sockets.{IsRead, IsClosed, IsReceivedAs, close_frame, close_code, closing_of, is_full, is_over, keys_in, meaning_of, meaning_of_text, meaning_of_binary, most_input, opened_by, output_limit, stage_after};

use crate::notice::Notice;
use crate::opening::Opening;
use crate::received::{Closing, Received, Stage};
use std::alloc::{AllocError, Global};
use std::marker::Model;
use thiserror::Error;
use websocket::error::Error as ProtocolFault;
use websocket::protocol::{
    CloseCode, CloseFrame, FrameStatus, Message, NoMask, Role, Step, WebSocketConfig,
    WebSocketContext,
};

/// The most bytes of a message, and of a frame's payload.
const MOST_MESSAGE: usize = 4096;

/// The most bytes that were received and not yet read.
const MOST_INPUT: usize = 8192;

/// The most bytes that wait to be sent while frames are read.
const MOST_WAITING: usize = 4096;

/// The most bytes that wait to be sent, without those of the close.
const MOST_OUTPUT: usize = 131_072 - 256;

/// The most bytes of a frame's header at the server.
const MOST_HEADER: usize = 10;

/// Why a message isn't sent.
#[derive(Debug, Clone, Copy, PartialEq, Eq, Drop, Error)]
pub enum SendFault {
    /// Memory was refused.
    #[error("out of memory")]
    Memory,
    /// With the message more than 130,816 bytes would wait to be sent.
    #[error("too many bytes wait to be sent")]
    Full,
}

impl From<ProtocolFault> for SendFault {
    ghost use Rattle.std.specs.Prelude.{◌≡◌};
    ghost use Rattle.web_wire.specs.declared.socket.SendFault.TheVariants.{Memory};

    ghost from_gives = { λ _ fault. fault ≡ Memory };

    fn from(_fault: ProtocolFault) -> SendFault {
        SendFault::Memory
    }
}

impl From<AllocError> for SendFault {
    ghost use Rattle.std.specs.Prelude.{◌≡◌};
    ghost use Rattle.web_wire.specs.declared.socket.SendFault.TheVariants.{Memory};

    ghost from_gives = { λ _ fault. fault ≡ Memory };

    fn from(_fault: AllocError) -> SendFault {
        SendFault::Memory
    }
}

/// Why an error of the protocol closes the socket.
fn closing_of(fault: ProtocolFault) -> Closing
    ensures { result ≡ closing_of fault }
{
    match fault {
        ProtocolFault::Capacity(_) => Closing::TooLong,
        ProtocolFault::Utf8 => Closing::NotText,
        ProtocolFault::OutOfMemory => Closing::Memory,
        _ => Closing::BrokenRule,
    }
}

/// The code of the close frame.
fn close_code(closing: Closing) -> CloseCode
    ensures { result ≡ close_code closing }
{
    match closing {
        Closing::ByPage | Closing::Finished => CloseCode::Normal,
        Closing::BrokenRule => CloseCode::Protocol,
        Closing::TooLong => CloseCode::Size,
        Closing::NotText => CloseCode::Invalid,
        Closing::NotOpened => CloseCode::Policy,
        Closing::TextInSession => CloseCode::Unsupported,
        Closing::Memory => CloseCode::Error,
    }
}

/// What the first message means.
fn opened_by(opening: Option<Opening>) -> Received
    ensures { result ≡ opened_by opening }
{
    match opening {
        Some(opening) => Received::Opened(opening),
        None => Received::Closed(Closing::NotOpened),
    }
}

/// What a text message means.
fn meaning_of_text(stage: Stage, words: &str) -> Received
    ensures { result ≡ meaning_of_text stage words.now }
{
    match stage {
        Stage::Open => Received::Closed(Closing::TextInSession),
        Stage::AwaitsOpening | Stage::Over => opened_by(Opening::read(words.as_bytes())),
    }
}

/// What a binary message means.
fn meaning_of_binary(stage: Stage) -> Received
    ensures { result ≡ meaning_of_binary stage }
{
    match stage {
        Stage::Open => Received::Keys,
        Stage::AwaitsOpening | Stage::Over => Received::Closed(Closing::NotOpened),
    }
}

/// What a message means.
fn meaning_of(stage: Stage, message: Message<'_>) -> Received
    ensures { result ≡ meaning_of stage (message_content message.entry) }
{
    match message {
        Message::Text(words) => meaning_of_text(stage, words),
        Message::Binary(_) => meaning_of_binary(stage),
        Message::Ping(_) => Received::Handled,
        Message::Pong(_) => Received::Pong,
        Message::Close(_) => Received::Closed(Closing::ByPage),
    }
}

/// The bytes of keys in a message.
fn keys_in<'a>(stage: Stage, message: Message<'a>) -> &'a [u8]
    ensures { result.now ≡ keys_in stage (message_content message.entry) }
{
    match (message, stage) {
        (Message::Binary(bytes), Stage::Open) => bytes,
        _ => &[],
    }
}

/// Takes a message: says what it means, and adds the bytes of its keys.
fn take_message(stage: Stage, message: Message<'_>, keys: &mut Vec<u8>) -> Received
    ensures { IsReceivedAs stage (Some (message_content message.entry)) result keys.old.items keys.new.items }
{
    match keys.extend_from_slice(keys_in(stage, message)) {
        Ok(()) => meaning_of(stage, message),
        Err(AllocError) => Received::Closed(Closing::Memory),
    }
}

/// Takes a frame that was read: says what it is received as, and adds the bytes of its keys.
fn take_step(stage: Stage, step: &Step, input: &[u8], keys: &mut Vec<u8>) -> Received
    requires inside { IfSome step.now.message (IsReceivedInside input.now) }
    requires text { IfSome step.now.message (λ message. HasValidText (received_content input.now message)) }
    ensures { IsReceivedAs stage (option_map (received_content input.now) step.now.message) result keys.old.items
        keys.new.items }
{
    match &step.message {
        None => Received::Handled,
        Some(received) => take_message(stage, received.message(input), keys),
    }
}

/// What one read was.
#[derive(Drop)]
struct FrameRead {
    received: Received,
    /// How many bytes of the input are done with.
    count: usize,
}

/// Reads the next frame, if it is complete: unmasks it in place, answers a ping or a close, and adds the bytes of keys.
fn read_step(
    context: &mut WebSocketContext,
    stage: Stage,
    input: &mut Vec<u8>,
    output: &mut Vec<u8>,
    keys: &mut Vec<u8>,
) -> FrameRead
    requires still_open { context.old ≡ connection_with context.old.fragments }
    ensures read { IsOneRead (read_step context.old input.old.items) stage result.received result.count
        (record { connection = context.old; input = input.old.items; output = output.old.items; keys = keys.old.items })
        (record {
          connection = context.new;
          input = input.new.items;
          output = output.new.items;
          keys = keys.new.items;
        }) }
    ensures length { length input.new.items ≡ length input.old.items }
{
    match context.read(input.as_mut_slice(), output, &mut NoMask) {
        Ok(FrameStatus::Partial(_)) => FrameRead {
            received: Received::Waiting,
            count: 0,
        },
        Ok(FrameStatus::Complete(step)) => FrameRead {
            received: take_step(stage, &step, input.as_slice(), keys),
            count: step.consumed,
        },
        Err(fault) => FrameRead {
            received: Received::Closed(closing_of(fault)),
            count: 0,
        },
    }
}

/// Whether the socket is closed.
fn is_over(stage: Stage) -> bool
    ensures { result ≡ is_over stage }
{
    matches!(stage, Stage::Over)
}

/// Why this closes the socket, if it does.
fn closing_in(received: &Received) -> Option<Closing>
    ensures { MatchOption result (is_closed received.now ≡ false) (λ closing. received.now ≡ Received.Closed closing) }
{
    match received {
        Received::Closed(closing) => Some(*closing),
        _ => None,
    }
}

/// The stage after this.
fn stage_after(stage: Stage, received: &Received) -> Stage
    ensures { result ≡ stage_after stage received.now }
{
    match received {
        Received::Opened(_) => Stage::Open,
        _ => stage,
    }
}

/// Adds the close frame, if memory isn't refused; none if the page has closed.
fn put_close(context: &mut WebSocketContext, output: &mut Vec<u8>, closing: Closing)
    requires { context.old.role ≡ Server }
    ensures { (output.new.items ≡ output.old.items ++ close_frame closing) ⊎ (output.new.items ≡ output.old.items) }
{
    if matches!(closing, Closing::ByPage) {
        return;
    }
    let frame = CloseFrame {
        code: close_code(closing),
        reason: "",
    };
    let _ = context.close(Some(frame), output, &mut NoMask);
}

/// Adds a message as one frame.
fn put_frame(
    context: &mut WebSocketContext,
    output: &mut Vec<u8>,
    message: Message<'_>,
) -> Result<(), SendFault>
    requires role { context.old.role ≡ Server }
    requires active { context.old.state ≡ Active }
    requires short { IsNoClose (message_content message) }
    ensures sent { OnOk result (output.new.items ≡ output.old.items ++ frame_of (message_content message.entry)) }
    ensures unchanged { OnErr result (output.new.items ≡ output.old.items) }
    ensures memory { IfErr result (λ fault. fault ≡ SendFault.Memory) }
    ensures context { context.new ≡ context.old }
{
    Ok(context.write(message, output, &mut NoMask)?)
}

/// Adds a message as one frame, unless too many bytes would wait.
fn put_message(
    context: &mut WebSocketContext,
    output: &mut Vec<u8>,
    message: Message<'_>,
    size: usize,
) -> Result<(), SendFault>
    requires role { context.old.role ≡ Server }
    requires active { context.old.state ≡ Active }
    requires size { size ≡ length (content_payload (message_content message)) }
    requires short { IsNoClose (message_content message) }
    ensures sent { OnOk result (output.new.items ≡ output.old.items ++ frame_of (message_content message.entry)) }
    ensures unchanged { OnErr result (output.new.items ≡ output.old.items) }
    ensures full { (result ≡ Err SendFault.Full) ↔ (is_full output.old.items size ≡ true) }
    ensures context { context.new ≡ context.old }
    ensures within { OnOk result (length output.new.items ≤ output_limit Stage.Open) }
{
    if MOST_OUTPUT - MOST_HEADER < output.len().saturating_add(size) {
        return Err(SendFault::Full);
    }
    put_frame(context, output, message)?;
    Ok(())
}

/// Drops the first bytes, which are done with.
fn drop_front(bytes: &mut Vec<u8>, count: usize)
    requires { count ≤ length bytes.old.items }
    ensures { bytes.new.items ≡ drop count bytes.old.items }
{
    let left = bytes.len() - count;
    bytes.rotate_left(count);
    bytes.truncate(left);
}

/// The end of a WebSocket at the server, for one page: takes received bytes, reads messages from them, and has the
/// bytes to send. At most 8,192 received bytes and 131,072 bytes to send wait in it. Contracts see a `SocketState`.
#[derive(Drop)]
pub struct PageSocket {
    context: WebSocketContext,
    stage: Stage,
    input: Vec<u8>,
    output: Vec<u8>,
}

impl Model for PageSocket {
    ghost use Rattle.web_wire.specs.Sockets.{SocketState, IsSocket, fragments_at};

    ghost Value = { SocketState };

    ghost view = { λ socket. record {
      stage = socket.stage;
      fragments = fragments_at socket.stage socket.context;
      input = socket.input.items;
      output = socket.output.items;
    } };

    ghost invariant = { λ socket. IsSocket socket.stage socket.context socket.input.items socket.output.items };
}

impl PageSocket {
    /// A socket whose handshake is done.
    pub fn new(alloc: Global) -> PageSocket
        ensures { result ≡ record { stage = Stage.AwaitsOpening; fragments = None; input = []; output = [] } }
    {
        let limits = WebSocketConfig {
            max_message_size: Some(MOST_MESSAGE),
            max_frame_size: Some(MOST_MESSAGE),
            accept_unmasked_frames: false,
        };
        PageSocket {
            context: WebSocketContext::new(alloc, Role::Server, limits),
            stage: Stage::AwaitsOpening,
            input: Vec::new(alloc),
            output: Vec::new(alloc),
        }
    }

    /// How far the session is.
    pub fn stage(&self) -> Stage
        ensures { result ≡ self.now.stage }
    {
        self.stage
    }

    /// How many received bytes it can take now.
    pub fn room(&self) -> usize
        ensures { result ≡ most_input - length self.now.input }
    {
        MOST_INPUT - self.input.len()
    }

    /// Takes received bytes. An error if memory is refused: then nothing is taken.
    pub fn take(&mut self, bytes: &[u8]) -> Result<(), AllocError>
        requires room { length self.old.input + length bytes.now ≤ most_input }
        ensures taken { OnOk result (self.new ≡ record self.old { input = self.old.input ++ bytes.now }) }
        ensures unchanged { OnErr result (self.new ≡ self.old) }
    {
        self.input.extend_from_slice(bytes)
    }

    /// Reads the next frame of the received bytes, if it is complete: answers a ping or a close, and adds the bytes of
    /// keys to `keys`. Bytes that break a rule, and refused memory, close the socket.
    pub fn read_frame(&mut self, keys: &mut Vec<u8>) -> Received
        ensures { IsRead self.old result keys.old.items keys.new.items self.new }
    {
        if is_over(self.stage) || self.output.len() > MOST_WAITING {
            return Received::Waiting;
        }
        let read = read_step(
            &mut self.context,
            self.stage,
            &mut self.input,
            &mut self.output,
            keys,
        );
        match closing_in(&read.received) {
            Some(closing) => {
                put_close(&mut self.context, &mut self.output, closing);
                self.stage = Stage::Over;
                self.input.clear();
                read.received
            }
            None => {
                self.stage = stage_after(self.stage, &read.received);
                drop_front(&mut self.input, read.count);
                read.received
            }
        }
    }

    /// Sends what draws a picture, as one binary message. An error if memory is refused, or too many bytes would wait:
    /// then nothing is added.
    pub fn draw(&mut self, drawing: &[u8]) -> Result<(), SendFault>
        requires { is_over self.old.stage ≡ false }
        ensures sent { OnOk result
            (self.new ≡ record self.old { output = self.old.output ++ frame_of (binary drawing.now) }) }
        ensures unchanged { OnErr result (self.new ≡ self.old) }
        ensures full { (result ≡ Err SendFault.Full) ↔ (is_full self.old.output (length drawing.now) ≡ true) }
    {
        let message = Message::Binary(drawing);
        put_message(&mut self.context, &mut self.output, message, drawing.len())
    }

    /// Sends a ping, which the page answers. An error as for [`PageSocket::draw`].
    pub fn ping(&mut self) -> Result<(), SendFault>
        requires { is_over self.old.stage ≡ false }
        ensures sent { OnOk result
            (self.new ≡ record self.old { output = self.old.output ++ frame_of (ping []) }) }
        ensures unchanged { OnErr result (self.new ≡ self.old) }
        ensures full { (result ≡ Err SendFault.Full) ↔ (is_full self.old.output 0 ≡ true) }
    {
        put_message(&mut self.context, &mut self.output, Message::Ping(&[]), 0)
    }

    /// Sends a text message.
    fn put_text(&mut self, words: &str) -> Result<(), SendFault>
        requires { is_over self.old.stage ≡ false }
        ensures sent { OnOk result
            (self.new ≡ record self.old { output = self.old.output ++ frame_of (text words.now) }) }
        ensures unchanged { OnErr result (self.new ≡ self.old) }
    {
        let message = Message::Text(words);
        put_message(&mut self.context, &mut self.output, message, words.len())
    }

    /// Sends a notice, as a text message. An error as for [`PageSocket::draw`].
    pub fn tell(&mut self, alloc: Global, notice: &Notice<'_>) -> Result<(), SendFault>
        requires { is_over self.old.stage ≡ false }
        ensures sent { OnOk result
            (self.new ≡ record self.old { output = self.old.output ++ frame_of (text (notice_text notice.now)) }) }
        ensures unchanged { OnErr result (self.new ≡ self.old) }
    {
        match notice.text(alloc) {
            Ok(text) => self.put_text(text.as_str()),
            Err(AllocError) => Err(SendFault::Memory),
        }
    }

    /// Closes the socket, since the session has ended. What waits is still to be sent, and then the close frame, unless
    /// memory is refused for it.
    pub fn close(&mut self)
        requires { is_over self.old.stage ≡ false }
        ensures { IsClosed Closing.Finished self.old.output self.new }
    {
        put_close(&mut self.context, &mut self.output, Closing::Finished);
        self.stage = Stage::Over;
        self.input.clear();
    }

    /// The bytes to be sent.
    pub fn out(&self) -> &[u8]
        ensures { result.now ≡ self.now.output }
    {
        self.output.as_slice()
    }

    /// Drops the first `count` bytes to be sent, which were sent.
    pub fn sent(&mut self, count: usize)
        requires { count ≤ length self.old.output }
        ensures { self.new ≡ record self.old { output = drop count self.old.output } }
    {
        drop_front(&mut self.output, count);
    }
}
