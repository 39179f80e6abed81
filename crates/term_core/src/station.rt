//! The display station: the screen and the keyboard, and what records and keys do to them.
ghost use Rattle.std.specs.Prelude.{◌≡◌, ◌≤◌, ◌+◌, ◌++◌, ◌∷◌, [], Bool, false, Some, IfOk, MatchResult, length, vec_len};
ghost use Rattle.std.specs.Vec.{vec_capacity};
ghost use Rattle.datastream.specs.Grammar.{is_write};
ghost use Rattle.codes3270.specs.Size.{alternate_of};
ghost use Rattle.presentation.specs.Sizes.{IsReadFor, blank_of};
ghost use Rattle.datastream.specs.Screen.{Screen as ScreenValue};
ghost use Rattle.datastream.specs.Inbound.{read_modified, read_buffer};
ghost use Rattle.term_core.specs.State.{waiting};
ghost use Rattle.term_core.specs.Bytes.{before_byte};
ghost use Rattle.telnet_wire.specs.Items.{sent_bytes};
ghost use Rattle.term_core.specs.Says.{response, data_record};
ghost use Rattle.term_core.specs.Room.{HasRoom, HasRoomForData, HasRoomForResponse, data_room, longest_reading};
ghost use Rattle.term_core.specs.Reads.{data_of, data_if};
ghost use Rattle.term_core.specs.Records.{data_read, numbered, answer_of, obeyed, SpellsCommand, SpellsNoCommand};
ghost use Rattle.term_core.specs.Over.{RecordTaken};
ghost use Rattle.term_core.specs.Presses.{data_of_key, is_sent, key_outcome, room_of, station_after_key, says_of_key};

use crate::outcome::Outcome;
use crate::room::{DATA_ROOM, RECORD_ROOM};
use codes3270::{Model, Size};
use datastream::laws::fields_both_ways;
use datastream::{Command, CommandCode, CommandFault, Sense, read_command};
use keyboard::{Key, Keyboard, Lock, Pressed};
use presentation::Screen;
use std::alloc::Global;
use std::marker;
use telnet_wire::{Memory, put_record};
use tn3270e_msg::{
    ALWAYS_RESPONSE, Cause, DataType, Header, NEGATIVE, NO_RESPONSE, POSITIVE, header_bytes,
    next_seq, read_header,
};

/// The screen, the keyboard, the sequence number of the next data record, and a buffer for a record.
#[derive(Drop)]
pub(crate) struct Station {
    screen: Screen,
    keyboard: Keyboard,
    number: u16,
    took_write: bool,
    alarm: bool,
    // Has room for the largest record that is sent.
    record_buffer: Vec<u8>,
}

impl marker::Model for Station {
    ghost use Rattle.std.specs.Prelude.{◌≤◌};
    ghost use Rattle.std.specs.Vec.{vec_capacity};
    ghost use Rattle.term_core.specs.State.{Station as StationValue};
    ghost use Rattle.term_core.specs.Room.{record_room};

    ghost Value = { StationValue };

    ghost view = { λ s. record {
      screen = s.screen;
      keyboard = s.keyboard;
      number = s.number;
      took_write = s.took_write;
      alarm = s.alarm;
    } };

    ghost invariant = { λ s. record_room ≤ vec_capacity s.record_buffer };
}

/// A read: of the modified fields as the AID asks for them, of all modified fields, or of the buffer.
#[derive(Clone, Copy)]
enum Reading {
    Modified,
    ModifiedAll,
    Buffer,
}

/// The read that a command asks for; `None` if it asks for none.
fn reading_of(code: CommandCode) -> Option<Reading>
    ensures { (screen : ScreenValue) → data_read code screen ≡ data_if result screen }
{
    match code {
        CommandCode::ReadModified => Some(Reading::Modified),
        CommandCode::ReadModifiedAll => Some(Reading::ModifiedAll),
        CommandCode::ReadBuffer => Some(Reading::Buffer),
        CommandCode::Write
        | CommandCode::EraseWrite
        | CommandCode::EraseWriteAlternate
        | CommandCode::EraseAllUnprotected => None,
    }
}

/// Whether a command is a write; Erase All Unprotected isn't.
fn is_write(code: CommandCode) -> bool
    ensures { result ≡ is_write code }
{
    matches!(
        code,
        CommandCode::Write | CommandCode::EraseWrite | CommandCode::EraseWriteAlternate
    )
}

/// Appends the response to the command with this sequence number.
fn send_response(out: &mut Vec<u8>, number: u16, outcome: Outcome)
    requires { HasRoomForResponse out.old }
    ensures sent { out.new.items ≡ out.old.items ++ sent_bytes (response number outcome ∷ []) }
    ensures capacity { vec_capacity out.old ≤ vec_capacity out.new }
{
    let (flag, code) = match outcome {
        Outcome::DeviceEnd => (POSITIVE, 0),
        Outcome::Refused(Sense::CommandReject) => (NEGATIVE, 0),
        Outcome::Refused(Sense::OperationCheck) => (NEGATIVE, 2),
    };
    let header = Header {
        kind: DataType::Response,
        request: 0,
        flag,
        seq: number,
    };
    let [kind, request, flag, high, low] = header_bytes(&header);
    put_record(out, &[kind, request, flag, high, low, code]).unwrap();
}

impl Station {
    /// The station of a terminal of this model: a blank screen, and a keyboard that waits for the host.
    pub(crate) fn new(alloc: Global, model: Model) -> Result<Station, Memory>
        ensures { IfOk result (λ station. station ≡ waiting (blank_of model)) }
    {
        let record_buffer = Vec::with_capacity(alloc, RECORD_ROOM)?;
        Ok(Station {
            screen: Screen::blank(model),
            keyboard: Keyboard::new(),
            number: 0,
            took_write: false,
            alarm: false,
            record_buffer,
        })
    }

    /// Resets all but the screen: the keyboard waits for a host.
    pub(crate) fn wait(&mut self)
        ensures { self.new ≡ waiting self.old.screen }
    {
        self.keyboard = Keyboard::new();
        self.number = 0;
        self.took_write = false;
        self.alarm = false;
    }

    /// Resets everything: the screen is blank, and the keyboard waits for a host.
    pub(crate) fn reset(&mut self)
        ensures { self.new ≡ waiting (blank_of self.old.screen.model) }
    {
        self.screen = Screen::blank(self.screen.model());
        self.wait();
    }

    pub(crate) fn screen(&self) -> &Screen
        ensures { result.now ≡ self.now.screen }
    {
        &self.screen
    }

    pub(crate) fn keyboard(&self) -> Keyboard
        ensures { result ≡ self.now.keyboard }
    {
        self.keyboard
    }

    pub(crate) fn took_write(&self) -> bool
        ensures { result ≡ self.now.took_write }
    {
        self.took_write
    }

    /// Whether a write sounded the alarm since the last call.
    pub(crate) fn take_alarm(&mut self) -> bool
        ensures alarm { result ≡ self.old.alarm }
        ensures taken { self.new ≡ record self.old { alarm = false } }
    {
        std::mem::replace(&mut self.alarm, false)
    }

    /// Clears `took_write` before a byte is taken.
    pub(crate) fn begin_byte(&mut self)
        ensures { self.new ≡ before_byte self.old }
    {
        self.took_write = false;
    }

    /// Appends a data record with what a read returns. The record asks for no response; the sequence number goes up.
    fn send(&mut self, reading: Reading, out: &mut Vec<u8>)
        requires { HasRoomForData out.old }
        ensures station { self.new ≡ numbered (Some (data_of reading self.old.screen.screen)) self.old }
        ensures sent { out.new.items ≡ out.old.items
            ++ sent_bytes (data_record self.old.number (data_of reading self.old.screen.screen) ∷ []) }
        ensures room { vec_len out.new ≤ vec_len out.old + data_room }
        ensures capacity { vec_capacity out.old ≤ vec_capacity out.new }
    {
        let header = Header {
            kind: DataType::Data3270,
            request: 0,
            flag: NO_RESPONSE,
            seq: self.number,
        };
        self.record_buffer.clear();
        self.record_buffer
            .extend_from_slice(&header_bytes(&header))
            .unwrap();
        put_reading(&self.screen, reading, &mut self.record_buffer);
        put_record(out, self.record_buffer.as_slice()).unwrap();
        self.number = next_seq(self.number);
    }

    /// Applies a command, and appends the data that it asks for and then the response that its header asks for.
    fn obey(&mut self, header: &Header, command: &Command<'_>, out: &mut Vec<u8>)
        requires room { HasRoom out.old }
        requires read { IsReadFor self.old.screen command.now }
        ensures station { self.new ≡ obeyed command.now self.old }
        ensures sent { out.new.items ≡ out.old.items ++ sent_bytes (answer_of header.now command.now self.old) }
        ensures capacity { vec_capacity out.old ≤ vec_capacity out.new }
    {
        let applied = self.screen.apply(command);
        if applied.restore {
            self.keyboard.restored();
        }
        self.took_write = applied.restore && is_write(command.code());
        self.alarm |= applied.alarm;
        if let Some(reading) = reading_of(command.code()) {
            self.send(reading, out);
        }
        if header.flag == ALWAYS_RESPONSE {
            send_response(out, header.seq, Outcome::DeviceEnd);
        }
    }

    /// The current size of the screen.
    fn size(&self) -> Size
        ensures { result ≡ self.now.screen.size }
    {
        self.screen.size()
    }

    /// The size that Erase/Write Alternate sets.
    fn alternate(&self) -> Size
        ensures { result ≡ alternate_of self.now.screen.model }
    {
        self.screen.model().alternate()
    }

    /// The command that the bytes encode for this screen, or the first fault in them.
    fn read<'a>(&self, bytes: &'a [u8]) -> Result<Command<'a>, CommandFault>
        ensures found { MatchResult result (λ command. SpellsCommand self.now command bytes.now)
            (λ fault. SpellsNoCommand self.now fault bytes.now) }
        ensures read { IfOk result (λ command. IsReadFor self.now.screen command) }
    {
        read_command(bytes, self.size(), self.alternate())
    }

    /// Takes a record of a bound terminal, and returns the cause by which it closes the connection, if it does.
    pub(crate) fn take_record(&mut self, bytes: &[u8], out: &mut Vec<u8>) -> Option<Cause>
        requires { HasRoom out.old }
        ensures taken { RecordTaken self.old bytes.now out.old out.new result self.new }
        ensures capacity { vec_capacity out.old ≤ vec_capacity out.new }
    {
        let Ok((header, body)) = read_header(bytes) else {
            return Some(Cause::BadRecord);
        };
        let DataType::Data3270 = header.kind else {
            return None;
        };
        match self.read(body) {
            Ok(command) => self.obey(&header, &command, out),
            Err(fault) => {
                if header.flag != NO_RESPONSE {
                    send_response(out, header.seq, Outcome::Refused(fault.sense()));
                }
            }
        }
        None
    }

    /// Whether a key sends data: an attention key while the lock is free.
    fn sends(&self, key: &Key) -> bool
        ensures { result ≡ is_sent (key_outcome key.now self.now).answer }
    {
        match self.keyboard.lock() {
            Lock::Free => matches!(key, Key::Enter | Key::Pf(_) | Key::Pa(_) | Key::Clear),
            Lock::Wait | Lock::Error => false,
        }
    }

    /// The room, in bytes, that a key needs in `out`: that of the longest data record if it sends one, else 0.
    pub(crate) fn room_for(&self, key: &Key, bound: bool) -> usize
        ensures { result ≡ room_of (data_of_key key.now bound self.now) }
    {
        if bound && self.sends(key) {
            DATA_ROOM
        } else {
            0
        }
    }

    /// Presses a key. If it sends data and the terminal is bound, the data record is appended.
    pub(crate) fn press(&mut self, key: Key, bound: bool, out: &mut Vec<u8>) -> Pressed
        requires { vec_len out.old + room_of (data_of_key key bound self.old) ≤ vec_capacity out.old }
        ensures station { self.new ≡ station_after_key key bound self.old }
        ensures sent { out.new.items ≡ out.old.items ++ sent_bytes (says_of_key key bound self.old) }
        ensures answer { result ≡ (key_outcome key self.old).answer }
        ensures capacity { vec_capacity out.old ≤ vec_capacity out.new }
    {
        let pressed = self.keyboard.press(&mut self.screen, key);
        if let Pressed::Send(_) = pressed {
            if bound {
                self.send(Reading::Modified, out);
            }
        }
        pressed
    }
}

/// Law: a read returns at most `longest_reading` bytes.
fn readings_fit(screen: &Screen)
    ensures modified { (all : Bool) → length (read_modified all screen.now.screen) ≤ longest_reading }
    ensures buffer { length (read_buffer screen.now.screen) ≤ longest_reading }
{
    fields_both_ways();
    // For the contract: the cursor is on the screen.
    let _on_the_screen = screen.cursor();
}

/// Appends the data that a read returns.
fn put_reading(screen: &Screen, reading: Reading, body: &mut Vec<u8>)
    requires { vec_len body.old + longest_reading ≤ vec_capacity body.old }
    ensures appended { body.new.items ≡ body.old.items ++ data_of reading screen.now.screen }
    ensures short { length (data_of reading screen.now.screen) ≤ longest_reading }
    ensures capacity { vec_capacity body.old ≤ vec_capacity body.new }
{
    readings_fit(screen);
    match reading {
        Reading::Modified => screen.put_read_modified(body, false).unwrap(),
        Reading::ModifiedAll => screen.put_read_modified(body, true).unwrap(),
        Reading::Buffer => screen.put_read_buffer(body).unwrap(),
    }
}
