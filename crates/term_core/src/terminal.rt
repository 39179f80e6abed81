//! The terminal: a Telnet decoder, a negotiation, a display station, and the bytes that it has to send.
ghost use Rattle.std.specs.Prelude.{◌≡◌, ◌<◌, ◌≤◌, [], length, drop, IfOk, OnOk, OnErr};
ghost use Rattle.term_core.specs.State.{new_terminal, connected, lost, model_of, phase_of, silenced};
ghost use Rattle.term_core.specs.Feeds.{Feeds};
ghost use Rattle.term_core.specs.Presses.{LacksKeyRoom, after_key, answer_to_key};
ghost use Rattle.term_core.specs.Room.{out_room};

use crate::feeding::feed_attached;
use crate::phase::TermPhase;
use crate::room::OUT_ROOM;
use crate::station::Station;
use codes3270::Model;
use keyboard::{Key, Keyboard, Lock, Pressed};
use presentation::Screen;
use std::alloc::{AllocError, Global};
use std::marker;
use telnet_wire::{Decoder, Memory};
use tn3270e_msg::{Cause, Fed, Lu, RECORD_LIMIT, Stop, TermState, TermTalk};

/// Whether the terminal is attached to a connection.
#[derive(Drop)]
enum Attachment {
    Detached,
    Attached(TermTalk),
    Closed(Cause),
}

/// A 3278 display terminal of a model from 2 to 5: Telnet bytes and keys go in, Telnet bytes and a screen come out.
///
/// Contracts see its link (the rest of the stream and the negotiation, while it is attached), its station (screen,
/// keyboard, the sequence number of its next record, `took_write`, and an alarm that wasn't taken), the bytes that it
/// has to send, and `room`, the capacity in bytes of the buffer that holds them.
///
/// `new` gives that buffer room for the largest reply and 1,024 bytes more ([`OUT_ROOM`](crate::OUT_ROOM)), and only
/// `lost` may take it away. So `press` and `feed` need memory only while more than 1,024 bytes wait to be sent, or
/// after a `lost` that wasn't followed by [`make_room`](Terminal::make_room).
#[derive(Drop)]
pub struct Terminal {
    attachment: Attachment,
    decoder: Decoder,
    station: Station,
    out: Vec<u8>,
}

impl marker::Model for Terminal {
    ghost use Rattle.std.specs.Vec.{vec_capacity};
    ghost use Rattle.term_core.specs.State.{TerminalWithRoom};

    ghost Value = { TerminalWithRoom };

    ghost use Rattle.term_core.specs.Over.{link_of, IsSound};

    ghost view = { λ t. record {
      terminal = record { link = link_of t.attachment t.decoder; station = t.station; out = t.out.items };
      room = vec_capacity t.out;
    } };

    ghost invariant = { λ t. IsSound t.attachment t.decoder };
}

impl Terminal {
    /// A terminal of this model that isn't attached: its screen is blank, 24 rows of 80 cells, and its keyboard waits.
    ///
    /// It allocates all that its decoder, its records and its output need. Err only if memory is refused.
    pub fn new(alloc: Global, model: Model) -> Result<Terminal, Memory>
        ensures terminal { IfOk result (λ device. device.terminal ≡ new_terminal model) }
        ensures room { IfOk result (λ device. out_room ≤ device.room) }
    {
        let Ok(decoder) = Decoder::new(alloc, RECORD_LIMIT) else {
            return Err(AllocError);
        };
        let station = Station::new(alloc, model)?;
        let out = Vec::with_capacity(alloc, OUT_ROOM)?;
        Ok(Terminal {
            attachment: Attachment::Detached,
            decoder,
            station,
            out,
        })
    }

    /// Makes room for the largest reply, as `new` does. Only `lost` takes it away, and only if something was unsent.
    ///
    /// Nothing else changes. If the room is there, the call succeeds without memory.
    pub fn make_room(&mut self) -> Result<(), Memory>
        ensures terminal { self.new.terminal ≡ self.old.terminal }
        ensures room { OnOk result (out_room ≤ self.new.room) }
        ensures kept { self.old.room ≤ self.new.room }
        ensures unchanged { OnErr result (self.new ≡ self.old) }
        ensures full { OnErr result (self.old.room < out_room) }
    {
        let waiting = self.out.len();
        self.out.reserve_exact(OUT_ROOM.saturating_sub(waiting))
    }

    /// Begins a connection, with a blank screen of 24 rows of 80 cells and a keyboard that waits. In the negotiation
    /// the terminal will ask for the LU `wanted`, if there is one.
    ///
    /// The terminal must be in phase Idle. The call needs no memory, and keeps the capacity of the output buffer: after
    /// a `lost` call `make_room` first.
    pub fn connected(&mut self, wanted: Option<Lu>)
        requires { phase_of self.old.terminal.link ≡ TermPhase.Idle }
        ensures terminal { self.new.terminal ≡ connected (model_of self.old.terminal) wanted }
        ensures room { self.new.room ≡ self.old.room }
    {
        let model = self.station.screen().model();
        self.decoder.reset();
        self.station.reset();
        self.out.clear();
        self.attachment = Attachment::Attached(TermTalk::new(model, wanted));
    }

    /// Takes bytes of the host, up to one that closes the connection. Returns how many bytes it took, and what stopped
    /// it. The terminal is then in its state after these bytes.
    ///
    /// Before each byte it makes room for the largest reply. It stops with Memory only if that room isn't there and
    /// memory is refused: with the room that `new` makes, only while more than 1,024 bytes wait to be sent. A terminal
    /// that isn't attached takes nothing and returns Going; one that has closed the connection takes nothing and
    /// returns the cause.
    pub fn feed(&mut self, bytes: &[u8]) -> Fed
        ensures fed { Feeds self.new.room self.old.terminal bytes.now result self.new.terminal }
        ensures room { self.old.room ≤ self.new.room }
    {
        match &mut self.attachment {
            Attachment::Detached => Fed {
                taken: 0,
                stop: Stop::Going,
            },
            Attachment::Closed(cause) => Fed {
                taken: 0,
                stop: Stop::Closed(*cause),
            },
            Attachment::Attached(talk) => {
                let fed = feed_attached(
                    talk,
                    &mut self.decoder,
                    &mut self.station,
                    &mut self.out,
                    bytes,
                );
                if let Stop::Closed(cause) = fed.stop {
                    self.attachment = Attachment::Closed(cause);
                }
                fed
            }
        }
    }

    /// Presses a key, and returns the keyboard's answer. If the key sends data and the terminal is bound, a data record
    /// is appended to `out`; in another phase none is.
    ///
    /// Before a key that sends acts, the call makes room for the longest data. It fails only if that room isn't there
    /// and memory is refused; then nothing has changed. A key that sends nothing needs no memory.
    pub fn press(&mut self, key: Key) -> Result<Pressed, Memory>
        ensures pressed { OnOk result (self.new.terminal ≡ after_key key self.old.terminal) }
        ensures answer { IfOk result (λ answer. answer ≡ answer_to_key key self.old.terminal) }
        ensures unchanged { OnErr result (self.new ≡ self.old) }
        ensures full { OnErr result (LacksKeyRoom self.old.room key self.old.terminal) }
        ensures room { self.old.room ≤ self.new.room }
    {
        let bound = self.phase().is_bound();
        let room = self.station.room_for(&key, bound);
        self.out.reserve(room)?;
        Ok(self.station.press(key, bound, &mut self.out))
    }

    /// The bytes that it has to send, as they go over the connection.
    pub fn out(&self) -> &[u8]
        ensures { result.now ≡ self.now.terminal.out }
    {
        self.out.as_slice()
    }

    /// Removes the first `count` bytes of `out`, which were sent. `count` must be at most the length of `out`.
    pub fn sent(&mut self, count: usize)
        requires { count ≤ length self.old.terminal.out }
        ensures terminal { self.new.terminal ≡ record self.old.terminal { out = drop count self.old.terminal.out } }
        ensures room { self.new.room ≡ self.old.room }
    {
        let left = self.out.len() - count;
        self.out.rotate_left(count);
        self.out.truncate(left);
    }

    /// Ends the connection, and returns the bytes that weren't sent. The screen stays, the keyboard is reset and waits,
    /// and the terminal is in phase Idle.
    ///
    /// The bytes are returned in the output buffer itself, so that no memory is needed. If all was sent, the terminal
    /// keeps that buffer.
    pub fn lost(&mut self) -> Vec<u8>
        ensures unsent { result.items ≡ self.old.terminal.out }
        ensures terminal { self.new.terminal ≡ lost self.old.terminal }
        ensures room { self.old.terminal.out ≡ [] → self.new.room ≡ self.old.room }
    {
        self.station.wait();
        self.attachment = Attachment::Detached;
        let empty = Vec::new(*self.out.allocator());
        if self.out.is_empty() {
            empty
        } else {
            std::mem::replace(&mut self.out, empty)
        }
    }

    /// Resets the terminal to its state after `new`. The output buffer keeps its capacity.
    pub fn restart(&mut self)
        ensures terminal { self.new.terminal ≡ new_terminal (model_of self.old.terminal) }
        ensures room { self.new.room ≡ self.old.room }
    {
        self.station.reset();
        self.attachment = Attachment::Detached;
        self.out.clear();
    }

    /// The screen, with its model and its current size.
    pub fn screen(&self) -> &Screen
        ensures { result.now ≡ self.now.terminal.station.screen }
    {
        self.station.screen()
    }

    /// The keyboard lock.
    pub fn lock(&self) -> Lock
        ensures { result ≡ self.now.terminal.station.keyboard.lock }
    {
        self.station.keyboard().lock()
    }

    /// The keyboard: its lock and its insert mode.
    pub fn keyboard(&self) -> Keyboard
        ensures { result ≡ self.now.terminal.station.keyboard }
    {
        self.station.keyboard()
    }

    /// Whether the last byte that `feed` took completed a write with keyboard restore, which was applied, and there was
    /// no `connected`, `lost` or `restart` since.
    pub fn took_write(&self) -> bool
        ensures { result ≡ self.now.terminal.station.took_write }
    {
        self.station.took_write()
    }

    /// Whether a write that was applied asked for the alarm (GA23-0059-07, "Write Control Character (WCC)") since the
    /// last call, `connected`, `lost` or `restart`.
    pub fn take_alarm(&mut self) -> bool
        ensures alarm { result ≡ self.old.terminal.station.alarm }
        ensures terminal { self.new.terminal ≡ silenced self.old.terminal }
        ensures room { self.new.room ≡ self.old.room }
    {
        self.station.take_alarm()
    }

    /// The phase of its connection to the host.
    pub fn phase(&self) -> TermPhase
        ensures { result ≡ phase_of self.now.terminal.link }
    {
        match &self.attachment {
            Attachment::Detached => TermPhase::Idle,
            Attachment::Closed(cause) => TermPhase::Closed(*cause),
            Attachment::Attached(talk) => match talk.state() {
                TermState::Agreed(lu) => TermPhase::Bound(lu),
                TermState::Refused(reason) => TermPhase::Refused(reason),
                _ => TermPhase::Talking,
            },
        }
    }
}
