//! A terminal, with its connection and the history of its screen.
ghost use Rattle.std.specs.Prelude.{◌≡◌, ◌<◌, ◌≤◌, drop, length, IfOk, IfSome, OnOk, OnErr, None};
ghost use Rattle.host_core.specs.State.{most_connections, phase_of, state_at, with_opened};
ghost use Rattle.keyboard.specs.Leaves.{erases};
ghost use Rattle.term_core.specs.Feeds.{IsAttached};
ghost use Rattle.term_core.specs.Presses.{LacksKeyRoom, answer_to_key};
ghost use Rattle.term_core.specs.Room.{out_room};
ghost use Rattle.term_core.specs.State.{model_of};
ghost use Rattle.world3270.specs.model.ByteSteps.{TrackedFeeds};
ghost use Rattle.world3270.specs.model.ByteWorld.{alone, new_slot, attached_slot, is_attached_to};
ghost use Rattle.world3270.specs.model.InFlight.{BlocksInput, TookByte};
ghost use Rattle.world3270.specs.model.TrackedTerminals.{restored_by, tracked_after_key};

use codes3270::Model;
use host_core::{Host, Phase};
use keyboard::{Key, Pressed};
use presentation::Screen;
use std::alloc::Global;
use std::marker;
use telnet_wire::Memory;
use term_core::{TermPhase, Terminal};
use tn3270e_msg::{Fed, Lu, Stop};

/// A terminal, the number of the connection whose end it holds (if it does), and its history: the
/// screens just after and just before the last write that restored its keyboard on its latest
/// connection, and whether Erase Input was done since.
#[derive(Drop)]
pub(crate) struct TerminalSlot {
    terminal: Terminal,
    at: Option<usize>,
    last_restored: Screen,
    before_restored: Screen,
    erased: bool,
}

impl marker::Model for TerminalSlot {
    ghost use Rattle.world3270.specs.model.ByteWorld.{TerminalSlot as TerminalSlotValue};
    ghost use Rattle.world3270.specs.model.InFlight.{IsSoundSlot};

    ghost Value = { TerminalSlotValue };

    ghost view = { λ s. record {
      tracked = record {
        terminal = s.terminal.terminal;
        history = record {
          last_restored = s.last_restored.screen;
          before_restored = s.before_restored.screen;
          erased = s.erased;
        };
      };
      at = s.at;
    } };

    ghost invariant = { λ s. IsSoundSlot s.at s.terminal };
}

impl TerminalSlot {
    /// A new terminal of this model, without a connection.
    pub(crate) fn new(alloc: Global, model: Model) -> Result<TerminalSlot, Memory>
        ensures { IfOk result (λ slot. slot ≡ new_slot model) }
    {
        let terminal = Terminal::new(alloc, model)?;
        Ok(TerminalSlot {
            terminal,
            at: None,
            last_restored: Screen::blank(model),
            before_restored: Screen::blank(model),
            erased: false,
        })
    }

    /// The terminal.
    pub(crate) fn terminal(&self) -> &Terminal
        ensures { result.now.terminal ≡ self.now.tracked.terminal }
    {
        &self.terminal
    }

    /// The screen just after the last write that restored the keyboard, on the latest connection.
    pub(crate) fn last_restored(&self) -> &Screen
        ensures { result.now.screen ≡ self.now.tracked.history.last_restored }
    {
        &self.last_restored
    }

    /// Whether Erase Input was done since the write of `last_restored`.
    pub(crate) fn erased(&self) -> bool
        ensures { result ≡ self.now.tracked.history.erased }
    {
        self.erased
    }

    /// The number of the connection whose end the terminal holds, if it holds one.
    pub(crate) fn at(&self) -> Option<usize>
        ensures at { result ≡ self.now.at }
        ensures number { IfSome result (λ at. at < most_connections) }
    {
        self.at
    }

    /// Whether the terminal holds the end of this connection.
    pub(crate) fn is_at(&self, conn: usize) -> bool
        ensures { result ≡ is_attached_to conn self.now.at }
    {
        match self.at {
            Some(at) => at == conn,
            None => false,
        }
    }

    /// The bytes that the terminal has to send.
    pub(crate) fn out(&self) -> &[u8]
        ensures { result.now ≡ self.now.tracked.terminal.out }
    {
        self.terminal.out()
    }

    /// The first `count` bytes of `out` are sent, and dropped.
    pub(crate) fn sent(&mut self, count: usize)
        requires { count ≤ length self.old.tracked.terminal.out }
        ensures { self.new ≡ record self.old {
          tracked = record self.old.tracked {
            terminal = record self.old.tracked.terminal { out = drop count self.old.tracked.terminal.out };
          };
        } }
    {
        self.terminal.sent(count);
    }

    /// Presses a key, and records an Erase Input that is done. Fails, and changes nothing, if memory is
    /// refused: only for a key that sends data, if the output buffer's room isn't enough.
    pub(crate) fn press(&mut self, key: Key) -> Result<Pressed, Memory>
        ensures pressed { OnOk result
            (self.new ≡ record self.old { tracked = tracked_after_key key self.old.tracked }) }
        ensures answer { IfOk result (λ answer. answer ≡ answer_to_key key self.old.tracked.terminal) }
        ensures unchanged { OnErr result (self.new ≡ self.old) }
        ensures full { OnErr result (LacksKeyRoom out_room key self.old.tracked.terminal) }
    {
        let erases = erases(&key);
        let pressed = self.terminal.press(key)?;
        let done = matches!(pressed, Pressed::Done);
        self.erased = self.erased || (done && erases);
        Ok(pressed)
    }

    /// FirstPaint connection `conn`, here and at the host; the terminal requests the LU `wanted`, if one.
    /// If memory is refused for its output buffer or by the host, nothing has changed.
    pub(crate) fn attach(
        &mut self,
        host: &mut Host,
        conn: usize,
        wanted: Option<Lu>,
    ) -> Result<(), Memory>
        requires alone { self.old.at ≡ None }
        requires number { conn < most_connections }
        requires free { phase_of (state_at conn host.old) ≡ Phase.Free }
        ensures attached_slot { OnOk result
            (self.new ≡ attached_slot (model_of self.old.tracked.terminal) wanted conn) }
        ensures opened { OnOk result (host.new ≡ with_opened conn host.old) }
        ensures unchanged { OnErr result (self.new ≡ self.old) }
        ensures unopened { OnErr result (host.new ≡ host.old) }
    {
        let model = self.model();
        self.terminal.make_room()?;
        host.open(conn)?;
        self.terminal.connected(wanted);
        self.at = Some(conn);
        self.last_restored = Screen::blank(model);
        self.before_restored = Screen::blank(model);
        self.erased = false;
        Ok(())
    }

    /// Leaves the connection, and returns the bytes that weren't sent.
    pub(crate) fn leave(&mut self) -> Vec<u8>
        ensures unsent { result.items ≡ self.old.tracked.terminal.out }
        ensures alone { self.new ≡ alone self.old }
    {
        self.at = None;
        self.terminal.lost()
    }

    /// The terminal's model.
    fn model(&self) -> Model
        ensures { result ≡ model_of self.now.tracked.terminal }
    {
        self.terminal.screen().model()
    }

    /// Restarts, without a connection.
    pub(crate) fn restart(&mut self)
        ensures { self.new ≡ new_slot (model_of self.old.tracked.terminal) }
    {
        let model = self.model();
        self.terminal.restart();
        self.at = None;
        self.last_restored = Screen::blank(model);
        self.before_restored = Screen::blank(model);
        self.erased = false;
    }

    /// Leaves the connection, restarts, and returns the bytes that weren't sent.
    pub(crate) fn leave_and_restart(&mut self) -> Vec<u8>
        ensures unsent { result.items ≡ self.old.tracked.terminal.out }
        ensures anew { self.new ≡ new_slot (model_of self.old.tracked.terminal) }
    {
        let unsent = self.leave();
        self.restart();
        unsent
    }

    /// Why the terminal takes no bytes in its phase; None if it takes them.
    fn stops(&self) -> Option<Stop>
        ensures { BlocksInput result self.now.tracked.terminal.link }
    {
        match self.terminal.phase() {
            TermPhase::Idle => Some(Stop::Going),
            TermPhase::Talking => None,
            TermPhase::Bound(_) => None,
            TermPhase::Refused(_) => None,
            TermPhase::Closed(cause) => Some(Stop::Closed(cause)),
        }
    }

    /// Updates the history after a byte was taken; `before` is the screen before it.
    fn mark(&mut self, before: Screen)
        ensures { self.new ≡ record self.old {
          tracked = record self.old.tracked {
            history = restored_by self.old.tracked.terminal.station.took_write before.screen
                self.old.tracked.terminal.station.screen.screen self.old.tracked.history;
          };
        } }
    {
        if self.terminal.took_write() {
            self.last_restored = copy_of(self.terminal.screen());
            self.before_restored = before;
            self.erased = false;
        }
    }

    /// Takes a byte, and returns what stops the terminal then, or `Going`.
    fn feed_byte(&mut self, byte: u8) -> Stop
        requires attached { IsAttached self.old.tracked.terminal.link }
        ensures took { TookByte result self.old.tracked byte self.new.tracked }
        ensures at { self.new.at ≡ self.old.at }
    {
        let before = copy_of(self.terminal.screen());
        match self.terminal.feed(&[byte]).stop {
            Stop::Going => {
                self.mark(before);
                Stop::Going
            }
            Stop::Memory => Stop::Memory,
            Stop::Closed(cause) => {
                self.mark(before);
                Stop::Closed(cause)
            }
        }
    }

    /// Takes bytes, one after another, and updates the history.
    pub(crate) fn feed(&mut self, bytes: &[u8]) -> Fed
        ensures fed { TrackedFeeds self.old.tracked bytes.now result self.new.tracked }
        ensures at { self.new.at ≡ self.old.at }
    {
        if let Some(stop) = self.stops() {
            return Fed { taken: 0, stop };
        }
        for (taken, byte) in bytes.iter().enumerate() {
            match self.feed_byte(*byte) {
                Stop::Going => {}
                Stop::Memory => {
                    return Fed {
                        taken,
                        stop: Stop::Memory,
                    };
                }
                Stop::Closed(cause) => {
                    return Fed {
                        taken: taken + 1,
                        stop: Stop::Closed(cause),
                    };
                }
            }
        }
        Fed {
            taken: bytes.len(),
            stop: Stop::Going,
        }
    }
}

/// Whether a key is Erase Input.
fn erases(key: &Key) -> bool
    ensures { result ≡ erases key.now }
{
    matches!(key, Key::EraseInput)
}

/// A copy of a screen.
fn copy_of(screen: &Screen) -> Screen
    ensures { result ≡ screen.now }
{
    screen.clone().unwrap()
}
