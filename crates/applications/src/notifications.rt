//! The notifications to an application of ended sessions: at most one for each connection. No call waits.
ghost use Rattle.std.specs.Prelude.{◌≡◌, ◌<◌, IfErr, IfOk, None, replicate};
ghost use Rattle.application_http.specs.Requests.{notification_bytes};
ghost use Rattle.applications.specs.ExchangeTurns.{BeginsNotification, CannotBegin, Continues, Notifies, Tells, slot_at, with_slot};
ghost use Rattle.host_core.specs.State.{most_connections};

use crate::application_fault::Absence;
use crate::ended_session::{EndedSession, notification_of};
use crate::exchange::{Exchange, IoProgress, absence_of};
use crate::exchanges::{Asking, AskingServer, empty_slots};
use jobs::{RawRead, RawWrite};
use std::alloc::{AllocError, Global};
use std::marker::Model;

/// A new notification of a session's end.
fn begin<S: RawRead + RawWrite + Drop, A: AskingServer<Stream = S>>(
    asking: Asking<'_>,
    server: &A,
    ended: &EndedSession,
) -> Result<Exchange<S>, Absence>
    ensures begins { IfOk result (BeginsNotification (notification_bytes asking.entry.endpoint.now) asking.entry.now
        (A.connected server.now) ended.now) }
    ensures cannot { IfErr result (CannotBegin (A.connected server.now)) }
{
    match notification_of(asking.alloc, asking.endpoint, ended) {
        Ok(request) => match server.connect() {
            Ok(stream) => Ok(Exchange::new(asking.alloc, stream, request, asking.now)),
            Err(error) => Err(absence_of(&error)),
        },
        Err(_) => Err(Absence::NoMemory),
    }
}

/// Begins a notification in an empty slot, if the session of a connection ended. Answers whether it did.
fn tell<S: RawRead + RawWrite + Drop, A: AskingServer<Stream = S>>(
    slot: &mut Option<Exchange<S>>,
    asking: Asking<'_>,
    server: &mut A,
    conn: usize,
) -> bool
    requires empty { slot.old ≡ None }
    requires number { conn < most_connections }
    ensures { Tells A.ended A.connected (notification_bytes asking.entry.endpoint.now) asking.entry.now conn server.old
        result server.new slot.new }
{
    let Some(ended) = server.take_end(conn) else {
        return false;
    };
    match begin(asking, server, &ended) {
        Ok(exchange) => {
            *slot = Some(exchange);
            true
        }
        Err(_) => false,
    }
}

/// Continues a notification, and puts it back into its empty slot unless it is over. Answers whether it did something.
fn go_on<S: RawRead + RawWrite + Drop>(
    slot: &mut Option<Exchange<S>>,
    mut exchange: Exchange<S>,
    asking: Asking<'_>,
) -> bool
    requires empty { slot.old ≡ None }
    ensures { Continues S.read_gave S.write_took asking.entry.now asking.entry.most exchange result slot.new }
{
    let has_moved = match exchange.go_on(true, asking.now, asking.most) {
        IoProgress::Moved => true,
        IoProgress::Still => false,
        IoProgress::Over(_) => return true,
    };
    *slot = Some(exchange);
    has_moved
}

/// Takes a turn on a connection with this slot.
fn turn_of<S: RawRead + RawWrite + Drop, A: AskingServer<Stream = S>>(
    slot: &mut Option<Exchange<S>>,
    asking: Asking<'_>,
    server: &mut A,
    conn: usize,
) -> bool
    requires { conn < most_connections }
    ensures { Notifies A.ended S.read_gave S.write_took A.connected (notification_bytes asking.entry.endpoint.now)
        asking.entry.now asking.entry.most conn slot.old server.old result server.new slot.new }
{
    match slot.take() {
        Some(exchange) => go_on(slot, exchange, asking),
        None => tell(slot, asking, server, conn),
    }
}

/// The notifications of 64 connections: at most one on each.
#[derive(Drop)]
pub struct Notifications<S> {
    slots: Vec<Option<Exchange<S>>>,
}

impl<S> Model for Notifications<S> {
    ghost use Rattle.std.specs.Prelude.{◌≡◌, List, Option, length};
    ghost use Rattle.host_core.specs.State.{most_connections};
    ghost use Rattle.applications.specs.Exchange.{Exchange as ExchangeValue};

    ghost Value = { List (Option (ExchangeValue S)) };

    ghost view = { λ notifications. notifications.slots.items };

    ghost invariant = { λ notifications. length notifications.slots.items ≡ most_connections };
}

impl<S: RawRead + RawWrite + Drop> Notifications<S> {
    /// No notifications. An error if memory is refused.
    pub fn new(alloc: Global) -> Result<Notifications<S>, AllocError>
        ensures { IfOk result (λ notifications. notifications ≡ replicate most_connections None) }
    {
        Ok(Notifications {
            slots: empty_slots(alloc)?,
        })
    }

    /// Takes a turn on a connection: continues its notification, or begins one if its session ended. A notification is
    /// over with its reply or a fault, and is not repeated; nor is one that can't begin. Answers whether it did
    /// something.
    pub fn turn<A: AskingServer<Stream = S>>(
        &mut self,
        asking: Asking<'_>,
        server: &mut A,
        conn: usize,
    ) -> bool
        requires { conn < most_connections }
        ensures notifies { Notifies A.ended S.read_gave S.write_took A.connected
            (notification_bytes asking.entry.endpoint.now) asking.entry.now asking.entry.most conn
            (slot_at conn self.old) server.old result server.new (slot_at conn self.new) }
        ensures others { self.new ≡ with_slot conn (slot_at conn self.new) self.old }
    {
        turn_of(&mut self.slots[conn], asking, server, conn)
    }
}
