//! The notes that wait for their sessions.
ghost use Rattle.std.specs.Prelude.{◌≡◌, ◌<◌, IfOk, None, replicate};
ghost use Rattle.host_core.specs.State.{most_connections};
ghost use Rattle.server.specs.Control.{DeliversAt, DeliversBelow, Tries, after_try, delivery_of, has_recipient_below, has_session, is_for, is_sent, queued_below, recipient_at, session_if_for, with_waiting};

use crate::connection_info::{ConnectionInfo, none_for_each};
use crate::server::Server;
use host_core::{Acted, MOST_CONNECTIONS};
use jobs::{RawRead, RawWrite};
use service_wire::{NoteText, Recipient};
use std::alloc::{AllocError, Global};
use std::marker::Model;

/// A note that waits until its session's operator has the turn.
#[derive(Drop)]
pub struct WaitingNote {
    /// The number in the session's name.
    session: u64,
    text: NoteText,
}

/// What became of a waiting note.
#[derive(Clone, Copy)]
pub enum Delivery {
    /// It was sent.
    Sent,
    /// It can't be sent now.
    Later,
    /// Its session is over.
    Left,
}

/// The note that waits on each connection number, 0 to 63, if one does.
#[derive(Drop)]
pub struct NoteQueue {
    notes: Vec<Option<WaitingNote>>,
}

impl Model for NoteQueue {
    ghost use Rattle.std.specs.Prelude.{◌≡◌, List, Option, length};
    ghost use Rattle.host_core.specs.State.{most_connections};
    ghost use Rattle.server.specs.declared.note_queue.WaitingNote.{WaitingNote};

    ghost Value = { List (Option WaitingNote) };

    ghost view = { λ queue. queue.notes.items };

    ghost invariant = { λ queue. length queue.notes.items ≡ most_connections };
}

/// Whether a note is for a session.
fn is_for(to: &Recipient, info: &ConnectionInfo) -> bool
    ensures { result ≡ is_for to.now info.now }
{
    let Some(own) = info.lu else {
        return false;
    };
    match to {
        Recipient::Everyone => true,
        Recipient::Only(lu) => own.as_bytes() == lu.as_bytes(),
    }
}

/// The number of a session, if the note is for it.
fn session_if_for(to: &Recipient, info: &ConnectionInfo) -> Option<u64>
    ensures { result ≡ session_if_for to.now info.now }
{
    if is_for(to, info) {
        Some(info.client.session.number)
    } else {
        None
    }
}

/// The session on an open connection, if a note is for it.
fn recipient_at<S: RawRead + RawWrite + Drop>(
    to: &Recipient,
    server: &Server<S>,
    conn: usize,
) -> Option<u64>
    requires { conn < most_connections }
    ensures { result ≡ recipient_at to.now server.entry.now conn }
{
    match server.open_info(conn) {
        Some(info) => session_if_for(to, &info),
        None => None,
    }
}

/// Whether the session with this number is on an open connection.
fn has_session<S: RawRead + RawWrite + Drop>(conn: usize, session: u64, server: &Server<S>) -> bool
    requires { conn < most_connections }
    ensures { result ≡ has_session conn session server.entry.now }
{
    match server.open_info(conn) {
        Some(info) => info.client.session.number == session,
        None => false,
    }
}

/// What is left of a note for the host's answer.
fn delivery_of(acted: Acted) -> Delivery
    ensures { result ≡ delivery_of acted }
{
    match acted {
        Acted::Sent => Delivery::Sent,
        Acted::Nothing | Acted::Memory => Delivery::Later,
    }
}

/// Whether a note was sent.
fn is_sent(delivery: Delivery) -> bool
    ensures { result ≡ is_sent delivery }
{
    matches!(delivery, Delivery::Sent)
}

/// Sends a waiting note if its session is still there and its operator has the turn.
fn try_note<S: RawRead + RawWrite + Drop>(
    conn: usize,
    note: &WaitingNote,
    server: &mut Server<S>,
) -> Delivery
    requires { conn < most_connections }
    ensures { Tries conn note.now server.old result server.new }
{
    if has_session(conn, note.session, server) {
        delivery_of(server.note(conn, &note.text))
    } else {
        Delivery::Left
    }
}

impl NoteQueue {
    /// No note waits. An error if memory is refused.
    pub(crate) fn new(alloc: Global) -> Result<NoteQueue, AllocError>
        ensures { IfOk result (λ queue. queue ≡ replicate most_connections None) }
    {
        Ok(NoteQueue {
            notes: none_for_each(alloc)?,
        })
    }

    /// Has a note wait for a session on number `conn`, in place of an earlier one. Nothing if there is no session.
    fn set(&mut self, conn: usize, session: Option<u64>, text: &NoteText)
        requires { conn < most_connections }
        ensures { self.new ≡ with_waiting session conn text.now self.old }
    {
        if let Some(session) = session {
            self.notes[conn] = Some(WaitingNote {
                session,
                text: text.duplicate(),
            });
        }
    }

    /// Has a note wait for each recipient. Answers whether there is one.
    pub(crate) fn add<S: RawRead + RawWrite + Drop>(
        &mut self,
        to: &Recipient,
        text: &NoteText,
        server: &Server<S>,
    ) -> bool
        ensures queued { self.new ≡ queued_below to.now text.now server.entry.now most_connections self.old }
        ensures found { result ≡ has_recipient_below to.now server.entry.now most_connections }
    {
        let mut found = false;
        for conn in 0..MOST_CONNECTIONS {
            let session = recipient_at(to, server, conn);
            found |= session.is_some();
            self.set(conn, session, text);
        }
        found
    }

    /// Drops a number's note after a try, unless it waits on.
    fn settle(&mut self, conn: usize, delivery: Delivery)
        requires { conn < most_connections }
        ensures { self.new ≡ after_try delivery conn self.old }
    {
        match delivery {
            Delivery::Later => {}
            Delivery::Sent | Delivery::Left => self.notes[conn] = None,
        }
    }

    /// Tries a number's waiting note, if there is one. Answers whether it was sent.
    fn deliver<S: RawRead + RawWrite + Drop>(&mut self, conn: usize, server: &mut Server<S>) -> bool
        requires { conn < most_connections }
        ensures { DeliversAt conn server.old self.old result server.new self.new }
    {
        let Some(note) = &self.notes[conn] else {
            return false;
        };
        let delivery = try_note(conn, note, server);
        self.settle(conn, delivery);
        is_sent(delivery)
    }

    /// Tries each waiting note, in the order of the numbers. Answers whether one was sent.
    pub fn deliver_each<S: RawRead + RawWrite + Drop>(&mut self, server: &mut Server<S>) -> bool
        ensures { DeliversBelow most_connections server.old self.old result server.new self.new }
    {
        let mut sent = false;
        for conn in 0..MOST_CONNECTIONS {
            sent |= self.deliver(conn, server);
        }
        sent
    }
}
