//! The decoder: bytes in, items out.
ghost use Rattle.std.specs.Prelude.{◌≡◌, ◌≢◌, ◌<◌, ◌≤◌, ℕ, IfOk, IfErr, List, [], ◌==◌, IsSome, Some, Err, length, min, take};
ghost use Rattle.std.specs.List.{AllByRecursion, position_or_len};
ghost use Rattle.telnet_wire.specs.Items.{item_of};
ghost use Rattle.telnet_wire.specs.DecoderValue.{DecoderValue, fresh, broken, Takes, TakesAll, Refuses, step_of};
ghost use Rattle.telnet_wire.specs.Runs.{data_room, run_length};
ghost use Rattle.telnet_wire.specs.DecoderStates.{held, ready_at, unfinished_record, AreWithin};
ghost use Rattle.telnet_wire.specs.declared.decoding.DecoderState.TheVariants as states;
ghost use Rattle.telnet_wire.specs.declared.wire.WireFault.{WireFault};
ghost use Rattle.telnet_wire.specs.declared.wire.WireFault.TheVariants.{Memory};

use crate::buffer::Buffer;
use crate::codes::{DO, DONT, EOR, IAC, SB, SE, WILL, WONT};
use crate::wire::{Item, Step, Verb, WireFault};
use memchr::memchr;
use std::alloc::Global;
use std::marker::Model;

/// The most bytes of a subnegotiation (our profile).
const SUB_LIMIT: usize = 256;

/// Where in a token the stream is.
#[derive(Clone, Copy)]
enum DecoderState {
    /// After a whole token that is no item, or before the first byte.
    Between,
    /// After a whole token that is an item. A record stays in its buffer until the next byte.
    Done(Completed),
    AfterIac,
    AfterVerb(Verb),
    InSub,
    AfterIacInSub,
    Failed,
}

/// The item that the last byte completed.
#[derive(Clone, Copy)]
enum Completed {
    Record,
    Opt(Verb, u8),
    Sub,
    Other(u8),
}

// A byte at which a token may begin.
fn between(
    byte: u8,
    record_buffer: &mut Buffer,
    sub_buffer: &Buffer,
) -> Result<DecoderState, WireFault>
    requires { AreWithin record_buffer.old sub_buffer.now }
    ensures taken { IfOk result (λ next. Takes (held states.Between record_buffer.old sub_buffer.now.bytes) byte
        (held next record_buffer.new sub_buffer.now.bytes)) }
    ensures refused { IfErr result (Refuses (held states.Between record_buffer.old sub_buffer.now.bytes) byte) }
    ensures within { AreWithin record_buffer.new sub_buffer.now }
    ensures limit { record_buffer.new.limit ≡ record_buffer.old.limit }
{
    if byte == IAC {
        return Ok(DecoderState::AfterIac);
    }
    record_buffer.add(byte)?;
    Ok(DecoderState::Between)
}

// The byte after IAC.
fn after_iac(
    code: u8,
    record_buffer: &mut Buffer,
    sub_buffer: &mut Buffer,
) -> Result<DecoderState, WireFault>
    requires { AreWithin record_buffer.old sub_buffer.old }
    ensures taken { IfOk result (λ next. Takes (held states.AfterIac record_buffer.old sub_buffer.old.bytes) code
        (held next record_buffer.new sub_buffer.new.bytes)) }
    ensures refused { IfErr result (Refuses (held states.AfterIac record_buffer.old sub_buffer.old.bytes) code) }
    ensures within { AreWithin record_buffer.new sub_buffer.new }
    ensures limit { record_buffer.new.limit ≡ record_buffer.old.limit }
{
    Ok(match code {
        IAC => {
            record_buffer.add(IAC)?;
            DecoderState::Between
        }
        EOR => DecoderState::Done(Completed::Record),
        SB => {
            sub_buffer.clear();
            DecoderState::InSub
        }
        WILL => DecoderState::AfterVerb(Verb::Will),
        WONT => DecoderState::AfterVerb(Verb::Wont),
        DO => DecoderState::AfterVerb(Verb::Do),
        DONT => DecoderState::AfterVerb(Verb::Dont),
        _ => DecoderState::Done(Completed::Other(code)),
    })
}

// A byte inside a subnegotiation.
fn in_sub(
    byte: u8,
    record_buffer: &Buffer,
    sub_buffer: &mut Buffer,
) -> Result<DecoderState, WireFault>
    requires { AreWithin record_buffer.now sub_buffer.old }
    ensures taken { IfOk result (λ next. Takes (held states.InSub record_buffer.now sub_buffer.old.bytes) byte
        (held next record_buffer.now sub_buffer.new.bytes)) }
    ensures refused { IfErr result (Refuses (held states.InSub record_buffer.now sub_buffer.old.bytes) byte) }
    ensures within { AreWithin record_buffer.now sub_buffer.new }
{
    if byte == IAC {
        return Ok(DecoderState::AfterIacInSub);
    }
    sub_buffer.add(byte)?;
    Ok(DecoderState::InSub)
}

// The byte after IAC inside a subnegotiation.
fn after_iac_in_sub(
    code: u8,
    record_buffer: &Buffer,
    sub_buffer: &mut Buffer,
) -> Result<DecoderState, WireFault>
    requires { AreWithin record_buffer.now sub_buffer.old }
    ensures taken { IfOk result (λ next. Takes (held states.AfterIacInSub record_buffer.now sub_buffer.old.bytes) code
        (held next record_buffer.now sub_buffer.new.bytes)) }
    ensures refused { IfErr result (Refuses (held states.AfterIacInSub record_buffer.now sub_buffer.old.bytes) code) }
    ensures within { AreWithin record_buffer.now sub_buffer.new }
{
    match code {
        IAC => {
            sub_buffer.add(IAC)?;
            Ok(DecoderState::InSub)
        }
        SE => Ok(DecoderState::Done(Completed::Sub)),
        _ => Err(WireFault::BadSub),
    }
}

// The state after the byte.
fn next(
    state: DecoderState,
    byte: u8,
    record_buffer: &mut Buffer,
    sub_buffer: &mut Buffer,
) -> Result<DecoderState, WireFault>
    requires { AreWithin record_buffer.old sub_buffer.old }
    ensures taken { IfOk result (λ next. Takes (held state record_buffer.old sub_buffer.old.bytes) byte
        (held next record_buffer.new sub_buffer.new.bytes)) }
    ensures refused { IfErr result (Refuses (held state record_buffer.old sub_buffer.old.bytes) byte) }
    ensures within { AreWithin record_buffer.new sub_buffer.new }
    ensures limit { record_buffer.new.limit ≡ record_buffer.old.limit }
{
    match state {
        DecoderState::Done(Completed::Record) => {
            record_buffer.clear();
            between(byte, record_buffer, sub_buffer)
        }
        DecoderState::Between | DecoderState::Done(_) => between(byte, record_buffer, sub_buffer),
        DecoderState::AfterIac => after_iac(byte, record_buffer, sub_buffer),
        DecoderState::AfterVerb(verb) => Ok(DecoderState::Done(Completed::Opt(verb, byte))),
        DecoderState::InSub => in_sub(byte, record_buffer, sub_buffer),
        DecoderState::AfterIacInSub => after_iac_in_sub(byte, record_buffer, sub_buffer),
        DecoderState::Failed => Err(WireFault::Failed),
    }
}

// How many bytes of data may follow.
fn room_for_data(state: DecoderState, record_buffer: &Buffer, sub_buffer: &Buffer) -> usize
    ensures { result ≡ data_room (held state record_buffer.now sub_buffer.now.bytes) }
{
    match state {
        DecoderState::Done(Completed::Record) => record_buffer.limit(),
        DecoderState::Between | DecoderState::Done(_) => record_buffer.room(),
        DecoderState::AfterIac
        | DecoderState::AfterVerb(_)
        | DecoderState::InSub
        | DecoderState::AfterIacInSub
        | DecoderState::Failed => 0,
    }
}

// The bytes before the first IAC, and at most `room` of them.
fn data_before_iac(bytes: &[u8], room: usize) -> &[u8]
    ensures length { length result.now ≡ min (position_or_len (λ byte. byte == 255) bytes.now) room }
    ensures front { result.now ≡ take (length result.now) bytes.now }
    ensures plain { AllByRecursion (λ byte. byte ≢ 255) result.now }
{
    let within = &bytes[..bytes.len().min(room)];
    match memchr(IAC, within) {
        Some(end) => &within[..end],
        None => within,
    }
}

// Empties the buffer if its record is complete.
fn drop_complete_record(state: DecoderState, record_buffer: &mut Buffer)
    ensures { record_buffer.new ≡ unfinished_record state record_buffer.old }
{
    match state {
        DecoderState::Done(Completed::Record) => record_buffer.clear(),
        _ => {}
    }
}

// The state after bytes of data, for which there is room.
fn take_data(
    state: DecoderState,
    run: &[u8],
    record_buffer: &mut Buffer,
    sub_buffer: &Buffer,
) -> DecoderState
    requires fits { AreWithin record_buffer.old sub_buffer.now }
    requires some { 0 < length run.now }
    requires plain { AllByRecursion (λ byte. byte ≢ 255) run.now }
    requires room { length run.now ≤ data_room (held state record_buffer.old sub_buffer.now.bytes) }
    ensures taken { TakesAll (held state record_buffer.old sub_buffer.now.bytes) run.now
        [] (held result record_buffer.new sub_buffer.now.bytes) }
    ensures within { AreWithin record_buffer.new sub_buffer.now }
{
    drop_complete_record(state, record_buffer);
    record_buffer.add_all(run);
    DecoderState::Between
}

impl DecoderState {
    fn step(self) -> Step
        ensures { (gathered content : List ℕ) → result ≡ step_of (ready_at self gathered content) }
    {
        match self {
            DecoderState::Done(_) => Step::Ready,
            _ => Step::More,
        }
    }
}

/// Decodes a stream, byte by byte or in runs of data, and lends the items that it completes.
///
/// A byte costs the same however long the record is, and no byte needs memory: [`Decoder::new`] allocates room for
/// a record of `limit` bytes and a subnegotiation of 256. The items don't depend on how the stream is cut into pieces.
#[derive(Drop)]
pub struct Decoder {
    state: DecoderState,
    record_buffer: Buffer,
    sub_buffer: Buffer,
}

impl Model for Decoder {
    ghost Value = { DecoderValue };

    ghost view = { λ d. held d.state d.record_buffer d.sub_buffer.bytes };

    ghost invariant = { λ d. AreWithin d.record_buffer d.sub_buffer };
}

impl Decoder {
    /// A decoder before the first byte, for records of at most `limit` bytes of data. A doubled 255 counts once.
    ///
    /// It allocates all memory that the decoder will need, and fails with [`WireFault::Memory`] if that is refused.
    pub fn new(alloc: Global, limit: usize) -> Result<Decoder, WireFault>
        ensures made { IfOk result (λ d. d ≡ fresh limit) }
        ensures memory { IfErr result (λ fault. fault ≡ Memory) }
    {
        let record_buffer = Buffer::new(alloc, limit)?;
        let sub_buffer = Buffer::new(alloc, SUB_LIMIT)?;
        Ok(Decoder {
            state: DecoderState::Between,
            record_buffer,
            sub_buffer,
        })
    }

    /// Decodes the next byte. Returns [`Step::Ready`] if it completed an item, which [`Decoder::item`] then lends.
    ///
    /// It fails only if the stream is wrong at this byte: with [`WireFault::TooLong`] if the byte completes a data byte
    /// over the limit, or is byte 257 of a subnegotiation; with [`WireFault::BadSub`] if it follows IAC inside a
    /// subnegotiation and is neither IAC nor SE. After that the decoder holds nothing, and every byte fails with
    /// [`WireFault::Failed`] until [`Decoder::reset`]. It never allocates.
    pub fn push(&mut self, byte: u8) -> Result<Step, WireFault>
        ensures taken { IfOk result (λ step. Takes self.old byte self.new × (step ≡ step_of self.new.ready)) }
        ensures refused { IfErr result (λ fault. Refuses self.old byte fault × (self.new ≡ broken self.old.limit)) }
        // If the stream goes wrong, the byte is refused.
        ensures exact { (fault : WireFault) → Refuses self.old byte fault → result ≡ Err fault }
    {
        match next(
            self.state,
            byte,
            &mut self.record_buffer,
            &mut self.sub_buffer,
        ) {
            Ok(state) => {
                self.state = state;
                Ok(state.step())
            }
            Err(fault) => {
                self.state = DecoderState::Failed;
                Err(fault)
            }
        }
    }

    /// Decodes the bytes of data up to the next IAC at once, and returns how many these are.
    ///
    /// It has the effect of [`Decoder::push`] on each of these bytes, up to the first 255 or to the last byte for which
    /// the record has room. They complete no item. It decodes none if the stream is in the middle of a token (after
    /// IAC, or inside a subnegotiation), after a fault, or if [`Decoder::push`] would refuse the next byte. Then
    /// nothing changes, and an item that is ready stays ready. It never allocates.
    pub fn push_data(&mut self, bytes: &[u8]) -> usize
        ensures length { result ≡ run_length self.old bytes.now }
        ensures few { result ≤ length bytes.now }
        ensures taken { TakesAll self.old (take result bytes.now) [] self.new }
    {
        let room = room_for_data(self.state, &self.record_buffer, &self.sub_buffer);
        let run = data_before_iac(bytes, room);
        if !run.is_empty() {
            self.state = take_data(self.state, run, &mut self.record_buffer, &self.sub_buffer);
        }
        run.len()
    }

    /// The item that the last byte completed, lent from the decoder's buffers until the next byte.
    ///
    /// The last call must have returned [`Step::Ready`].
    pub fn item(&self) -> Item<'_>
        requires { IsSome self.now.ready }
        ensures { self.now.ready ≡ Some (item_of result) }
    {
        match self.state {
            DecoderState::Done(Completed::Record) => Item::Record(self.record_buffer.as_slice()),
            DecoderState::Done(Completed::Opt(verb, code)) => Item::Opt { verb, code },
            DecoderState::Done(Completed::Sub) => Item::Sub(self.sub_buffer.as_slice()),
            DecoderState::Done(Completed::Other(code)) => Item::Other(code),
            _ => unreachable!(),
        }
    }

    /// Forgets the stream and any fault: the decoder is again as `new` returns it.
    pub fn reset(&mut self)
        ensures { self.new ≡ fresh self.old.limit }
    {
        self.record_buffer.clear();
        self.state = DecoderState::Between;
    }
}
