//! Notes: short texts in the last row, sent while the operator has the turn (our profile).
ghost use Rattle.std.specs.Prelude.{◌≡◌, ◌-◌, ◌+◌, ◌<◌, ◌≤◌, ◌++◌, take, replicate, length, All, true, vec_len};
ghost use Rattle.std.specs.Vec.{vec_capacity};
ghost use Rattle.codes3270.specs.Size.{most_columns, cells_in};
ghost use Rattle.codes3270.specs.Storable.{is_storable};
ghost use Rattle.shadow.specs.Belief.{IsOfSize};
ghost use Rattle.host_core.specs.Application.{IsValidSize, message_place};
ghost use Rattle.host_core.specs.Notes.{IsNoteText, note_command, may_note, noted, noted_as};
ghost use Rattle.host_core.specs.Says.{written};
ghost use Rattle.host_core.specs.Session.{is_agreed};
ghost use Rattle.host_core.specs.Representation.{DoesOn, IsSentOn};
ghost use Rattle.host_core.specs.Rooms.{HasRoomFor, note_room};

use crate::acted::Acted;
use crate::pending::Pending;
use crate::room::NOTE_ROOM;
use crate::sending::{begin_record, send_record};
use crate::session::Session;
use crate::turn::Turn;
use codes3270::{Addr, MOST_COLUMNS, Size, Wcc};
use datastream::{CommandCode, CommandWriter};
use tn3270e_msg::{ALWAYS_RESPONSE, next_seq};

/// The number of characters that the last row of a screen of this size has after its attribute.
fn room_in(size: Size) -> usize
    ensures room { result ≡ size.columns - 1 }
    ensures few { result < most_columns }
{
    usize::from(size.cols()) - 1
}

/// The buffer address of a note on a screen of this size: after the attribute of the last row.
fn note_place(size: Size) -> Addr
    ensures place { result ≡ message_place size + 1 }
    ensures size { IsValidSize size }
    ensures narrow { size.columns ≤ most_columns }
{
    match Addr::new(size.cells() - size.cols() + 1, size) {
        Some(addr) => addr,
        None => unreachable!(),
    }
}

/// The first `room` characters of a text, or all if there are fewer.
fn front_of(text: &[u8], room: usize) -> &[u8]
    requires { IsNoteText text.now }
    ensures front { result.now ≡ take room text.now }
    ensures short { length result.now ≤ room }
    ensures storable { All (λ byte. is_storable byte ≡ true) result.now }
{
    if text.len() < room {
        text
    } else {
        &text[..room]
    }
}

/// This number of nulls.
fn nulls(count: usize) -> &'static [u8]
    requires { count < most_columns }
    ensures nulls { result.now ≡ replicate count 0 }
    ensures storable { All (λ byte. is_storable byte ≡ true) result.now }
{
    &NULLS[..count]
}

// A row of the largest screen, without its attribute.
static NULLS: [u8; MOST_COLUMNS - 1] = [0; MOST_COLUMNS - 1];

/// Appends characters.
fn put_text(writer: &mut CommandWriter<'_>, text: &[u8])
    requires storable { All (λ byte. is_storable byte ≡ true) text.now }
    requires room { vec_len writer.old.out.now + length text.now ≤ vec_capacity writer.old.out.now }
    ensures same_vector { writer.new.out.ghost_name ≡ writer.old.out.ghost_name }
    ensures appended { writer.new.out.now.items ≡ writer.old.out.now.items ++ text.now }
    ensures capacity { vec_capacity writer.old.out.now ≤ vec_capacity writer.new.out.now }
{
    writer.chars(text).unwrap();
}

/// Appends the command of a note for a screen of this size: a Write that puts a text into the last row and fills the
/// rest of the row with nulls. Its WCC neither sounds the alarm, nor restores the keyboard, nor resets MDT.
fn write_note(writer: &mut CommandWriter<'_>, text: &[u8], size: Size)
    requires text { IsNoteText text.now }
    requires room { vec_len writer.old.out.now + (4 + most_columns) ≤ vec_capacity writer.old.out.now }
    ensures same_vector { writer.new.out.ghost_name ≡ writer.old.out.ghost_name }
    ensures appended { writer.new.out.now.items ≡ writer.old.out.now.items ++ written (note_command size text.now) }
    ensures size { IsValidSize size }
    ensures narrow { size.columns ≤ most_columns }
    ensures capacity { vec_capacity writer.old.out.now ≤ vec_capacity writer.new.out.now }
{
    let quiet = Wcc {
        alarm: false,
        restore: false,
        reset: false,
    };
    let room = room_in(size);
    let front = front_of(text, room);
    writer.begin(CommandCode::Write, quiet).unwrap();
    writer.sba(note_place(size)).unwrap();
    put_text(writer, front);
    put_text(writer, nulls(room - front.len()));
}

/// Appends the command of a note to a record.
pub(crate) fn put_note(bytes: &mut Vec<u8>, text: &[u8], size: Size)
    requires text { IsNoteText text.now }
    requires room { vec_len bytes.old + (4 + most_columns) ≤ vec_capacity bytes.old }
    ensures appended { bytes.new.items ≡ bytes.old.items ++ written (note_command size text.now) }
    ensures size { IsValidSize size }
    ensures narrow { size.columns ≤ most_columns }
    ensures capacity { vec_capacity bytes.old ≤ vec_capacity bytes.new }
{
    let mut writer = CommandWriter::new(bytes);
    write_note(&mut writer, text, size);
}

impl Session {
    /// Whether a note may be sent: it is the operator's turn, and no command waits for its answer.
    fn may_note(&self) -> bool
        ensures may { result ≡ may_note self.now.turn self.now.pending (is_agreed self.now.talk.state) }
        ensures known { result ≡ true → IsOfSize (cells_in self.now.size) self.now.shadow }
    {
        match self.turn {
            Turn::Host => false,
            Turn::Terminal => match self.pending {
                Pending::Nothing => self.agreed(),
                Pending::Writing(_) | Pending::Reading(_) | Pending::Noting(_) => false,
            },
        }
    }

    /// Sends the command of a note; its response is awaited.
    fn send_note(&mut self, text: &[u8], out: &mut Vec<u8>)
        requires text { IsNoteText text.now }
        requires room { HasRoomFor note_room out.old }
        requires known { IsOfSize (cells_in self.old.size) self.old.shadow }
        ensures sent { IsSentOn (noted_as text.now self.old) out.old out.new self.new }
        ensures capacity { vec_capacity out.old ≤ vec_capacity out.new }
    {
        begin_record(&mut self.sent, ALWAYS_RESPONSE, self.next_seq);
        put_note(&mut self.sent, text, self.size);
        send_record(self.sent.as_slice(), out);
        self.pending = Pending::Noting(self.next_seq);
        self.next_seq = next_seq(self.next_seq);
    }

    /// Sends a note, cut to the row, if one may be sent.
    pub(crate) fn note(&mut self, text: &[u8], out: &mut Vec<u8>) -> Acted
        requires text { IsNoteText text.now }
        ensures noted { DoesOn (noted text.now self.old) self.old out.old result self.new out.new }
        ensures panel { self.new.panel ≡ self.old.panel }
        ensures size { self.new.size ≡ self.old.size }
        ensures capacity { vec_capacity out.old ≤ vec_capacity out.new }
    {
        if !self.may_note() {
            return Acted::Nothing;
        }
        if out.reserve(NOTE_ROOM).is_err() {
            return Acted::Memory;
        }
        self.send_note(text, out);
        Acted::Sent
    }
}
