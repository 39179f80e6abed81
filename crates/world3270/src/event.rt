//! The events that may happen to a world, and the answers to them.
ghost use Rattle.std.specs.Prelude.{◌≡◌};
ghost use Rattle.tn3270e_msg.specs.Talk.{IsLuIfSome};
ghost use Rattle.world3270.specs.model.ByteSteps.{answer_pressed};
ghost use Rattle.world3270.specs.refinement.Refines.{AreValidEvents, IsValidEvent};

use crate::note_text::NoteText;
use host_core::{Answer, Ticket};
use keyboard::laws::keys_are_real;
use keyboard::{Key, Pressed, Refusal};
use tn3270e_msg::Lu;

/// An event at a terminal (by its number, from 0) or on a connection (`0..64`).
#[derive(Drop)]
pub enum Event {
    /// The operator of a terminal presses a key.
    Key(usize, Key),
    /// On a connection, this number of the bytes under way to the host are delivered, or all if there are fewer.
    Up(usize, usize),
    /// On a connection, this number of the bytes under way to the terminal are delivered, or all if there are fewer.
    Down(usize, usize),
    /// The host acts on a connection, as by [`Host::act`](host_core::Host::act).
    Act(usize),
    /// The application answers the question that is open on a connection, if it has this ticket.
    Answer(usize, Ticket, Answer),
    /// The host sends a note on a connection, into the last row of the screen.
    Note(usize, NoteText),
    /// The host sends NOP (RFC 854) on a connection, so that TCP notices a peer that is gone.
    KeepAlive(usize),
    /// The connection is lost: what is under way may still be delivered, and nothing is added to it.
    Lose(usize),
    /// The host sees that a connection is lost, and leaves it: its LU is free again.
    HostSees(usize),
    /// A terminal sees that its connection is lost, and leaves it.
    TermSees(usize),
    /// A terminal connects, by the least number that is free, and requests this LU, or any LU if None.
    Connect(usize, Option<Lu>),
    /// A terminal restarts, with a blank screen; its connection, if it has one, is lost.
    RestartTerm(usize),
    /// The host restarts; all its connections are lost.
    RestartHost,
}

/// The outcome of an event.
#[derive(Clone, Copy, Debug, PartialEq, Eq)]
pub enum Stepped {
    /// It happened.
    Done,
    /// The keyboard refused the key, for this reason.
    Refused(Refusal),
    /// It can't happen in this world (as a delivery when no bytes are under way); nothing has changed.
    Skipped,
    /// Memory was refused after this number of bytes, at least one, was delivered; the rest is still under way.
    Part(usize),
    /// Memory was refused; nothing has changed.
    Memory,
}

impl Stepped {
    /// The outcome of a key at a terminal, from the keyboard's answer.
    pub fn of_key(pressed: Pressed) -> Stepped
        ensures { result ≡ answer_pressed pressed }
    {
        match pressed {
            Pressed::Done | Pressed::Send(_) => Stepped::Done,
            Pressed::Refused(why) => Stepped::Refused(why),
        }
    }
}

/// How far a list of events went.
#[derive(Clone, Copy, Debug, PartialEq, Eq)]
pub struct Ran {
    /// How many events happened in full or were skipped, counted from the first.
    pub whole: usize,
    /// How many bytes of the next event were delivered, if it is a delivery for which memory was refused; else 0.
    pub part: usize,
}

/// Law: the key of an event is a key of the keyboard, the LU's name is a name, the values of an answer are characters,
/// and the text of a note is a note's text.
pub(crate) fn events_are_real(event: &Event)
    ensures { IsValidEvent event.now }
{
    match event {
        Event::Key(_, key) => keys_are_real(key),
        Event::Up(_, _) => {}
        Event::Down(_, _) => {}
        Event::Act(_) => {}
        Event::Answer(_, _, answer) => answer.values.values_are_characters(),
        Event::Note(_, text) => {
            // For the contract: by `text`, it is a note's text.
            let _text = text.text();
        }
        Event::KeepAlive(_) => {}
        Event::Lose(_) => {}
        Event::HostSees(_) => {}
        Event::TermSees(_) => {}
        Event::Connect(_, wanted) => names_are_lus(wanted),
        Event::RestartTerm(_) => {}
        Event::RestartHost => {}
    }
}

/// Law: `events_are_real` for each of these events.
pub(crate) fn all_events_are_real(events: &[Event])
    ensures { AreValidEvents events.now }
{
    for event in events {
        events_are_real(event);
    }
}

/// Law: the LU that a terminal wants has the name of an LU.
fn names_are_lus(wanted: &Option<Lu>)
    ensures { IsLuIfSome wanted.now }
{
    if let Some(lu) = wanted {
        // For the contract: by `as_bytes`, it is the name of an LU.
        let _name = lu.as_bytes();
    }
}
