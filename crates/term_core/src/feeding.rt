//! Feeding bytes from the host to a terminal that is attached to a connection.
ghost use Rattle.std.specs.Prelude.{◌≡◌, ◌<◌, ◌≤◌, ℕ, false, length, take, None, Vec};
ghost use Rattle.std.specs.declared.alloc.Global.{Global};
ghost use Rattle.std.specs.Vec.{vec_capacity};
ghost use Rattle.telnet_wire.specs.Items.{item_of};
ghost use Rattle.term_core.specs.Room.{HasRoom};
ghost use Rattle.tn3270e_msg.specs.TermTable.{Term, is_agreed};
ghost use Rattle.term_core.specs.Bytes.{TakesByte, TakesBytes};
ghost use Rattle.term_core.specs.Feeds.{StopsFor};
ghost use Rattle.term_core.specs.Over.{ItemTaken, IsRunning, IsLeft, terminal_of, cause_of};

use crate::room::REPLY_ROOM;
use crate::station::Station;
use telnet_wire::{Decoder, Item, Step};
use tn3270e_msg::{Cause, Fed, Stop, TermState, TermTalk, put_reply};

/// Takes bytes until all are taken, one closes the connection, or memory for the largest reply is refused.
pub(crate) fn feed_attached(
    talk: &mut TermTalk,
    decoder: &mut Decoder,
    station: &mut Station,
    out: &mut Vec<u8>,
    bytes: &[u8],
) -> Fed
    requires { IsRunning decoder.old }
    ensures few { result.taken ≤ length bytes.now }
    ensures takes { TakesBytes (terminal_of decoder.old talk.old None station.old out.old) (take result.taken bytes.now)
        (terminal_of decoder.new talk.new (cause_of result.stop) station.new out.new) }
    ensures stops { StopsFor (vec_capacity out.new) result.stop (terminal_of decoder.old talk.old None station.old
        out.old) bytes.now result.taken (terminal_of decoder.new talk.new (cause_of result.stop) station.new out.new) }
    ensures left { IsLeft (cause_of result.stop) decoder.new }
    ensures capacity { vec_capacity out.old ≤ vec_capacity out.new }
{
    let mut taken = 0;
    while taken < bytes.len() {
        if out.reserve(REPLY_ROOM).is_err() {
            return Fed {
                taken,
                stop: Stop::Memory,
            };
        }
        let (count, closes) = take_some(talk, decoder, station, out, &bytes[taken..]);
        taken += count;
        if let Some(cause) = closes {
            return Fed {
                taken,
                stop: Stop::Closed(cause),
            };
        }
    }
    Fed {
        taken,
        stop: Stop::Going,
    }
}

/// Takes the data bytes up to the next IAC, which need no room for a reply, and the byte after them. Returns the number
/// of these bytes, and the cause by which the last one closes the connection, if it does.
fn take_some(
    talk: &mut TermTalk,
    decoder: &mut Decoder,
    station: &mut Station,
    out: &mut Vec<u8>,
    bytes: &[u8],
) -> (usize, Option<Cause>)
    requires running { IsRunning decoder.old }
    requires room { HasRoom out.old }
    requires some { 0 < length bytes.now }
    ensures some { 0 < result.0 }
    ensures few { result.0 ≤ length bytes.now }
    ensures taken { TakesBytes (terminal_of decoder.old talk.old None station.old out.old) (take result.0 bytes.now)
        (terminal_of decoder.new talk.new result.1 station.new out.new) }
    ensures left { IsLeft result.1 decoder.new }
    ensures capacity { vec_capacity out.old ≤ vec_capacity out.new }
{
    let count = take_data(decoder, station, bytes);
    match bytes.get(count) {
        Some(byte) => {
            let closes = take_byte(talk, decoder, station, out, *byte);
            (count + 1, closes)
        }
        None => (count, None),
    }
}

/// Takes the data bytes up to the next IAC, and returns their number. If there is only one byte it takes none.
fn take_data(decoder: &mut Decoder, station: &mut Station, bytes: &[u8]) -> usize
    requires { IsRunning decoder.old }
    ensures few { result ≤ length bytes.now }
    ensures taken { (talk : Term) (out : Vec ℕ Global) → TakesBytes (terminal_of decoder.old talk None station.old out)
        (take result bytes.now) (terminal_of decoder.new talk None station.new out) }
    ensures running { IsRunning decoder.new }
{
    // `take_byte` costs less for a single byte.
    if bytes.len() < 2 {
        return 0;
    }
    let count = decoder.push_data(bytes);
    if count > 0 {
        station.begin_byte();
    }
    count
}

/// Takes a byte, and returns the cause by which it closes the connection, if it does.
fn take_byte(
    talk: &mut TermTalk,
    decoder: &mut Decoder,
    station: &mut Station,
    out: &mut Vec<u8>,
    byte: u8,
) -> Option<Cause>
    requires running { IsRunning decoder.old }
    requires room { HasRoom out.old }
    ensures taken { TakesByte (terminal_of decoder.old talk.old None station.old out.old) byte
        (terminal_of decoder.new talk.new result station.new out.new) }
    ensures left { IsLeft result decoder.new }
    ensures capacity { vec_capacity out.old ≤ vec_capacity out.new }
{
    station.begin_byte();
    match decoder.push(byte) {
        Err(_) => Some(Cause::Wire),
        Ok(Step::More) => None,
        Ok(Step::Ready) => take_item(talk, station, out, &decoder.item()),
    }
}

/// Takes an item that the decoder delivers, and returns the cause by which it closes the connection, if it does.
fn take_item(
    talk: &mut TermTalk,
    station: &mut Station,
    out: &mut Vec<u8>,
    item: &Item<'_>,
) -> Option<Cause>
    requires { HasRoom out.old }
    ensures taken { ItemTaken talk.old station.old (item_of item.now) out.old out.new result talk.new station.new }
    ensures before { is_agreed talk.old.talk.state ≡ false → station.new ≡ station.old }
    ensures capacity { vec_capacity out.old ≤ vec_capacity out.new }
{
    match item {
        Item::Record(bytes) => match talk.state() {
            TermState::Agreed(_) => station.take_record(bytes, out),
            _ => put_reply(out, &talk.take(item)),
        },
        _ => put_reply(out, &talk.take(item)),
    }
}
