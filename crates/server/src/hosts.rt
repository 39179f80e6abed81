//! The host of the newest panels, and the earlier hosts whose sessions go on.
ghost use Rattle.std.specs.Prelude.{◌≡◌, ◌≢◌, ◌<◌, ℕ, Err, IfOk, IfSome, OnOk, OnErr, IfNone, None, length, replicate};
ghost use Rattle.host_core.specs.Application.{application_of};
ghost use Rattle.host_core.specs.Does.{Does, DoesAnswer, noted_by};
ghost use Rattle.host_core.specs.KeepAlive.{kept_alive, kept_alive_answer};
ghost use Rattle.host_core.specs.Notes.{IsNoteText};
ghost use Rattle.host_core.specs.Questions.{answered_by};
ghost use Rattle.host_core.specs.Reports.{events_of, oldest, without_oldest};
ghost use Rattle.host_core.specs.Serves.{Serves};
ghost use Rattle.host_core.specs.State.{connection_at, most_connections, phase_of, reports_at, session_at, with_connection, with_reports};
ghost use Rattle.host_core.specs.declared.phase.Phase.TheVariants as phase;
ghost use Rattle.server.specs.Apart.{IsApart, KeepsFor, NobodyHolds, NobodyShares, NobodyTalks, Reserves, service_at};
ghost use Rattle.server.specs.Hosts.{AreOwned, IsFreePlace, closed, handed_below, host_at, lu_in, is_owned, is_place, most_earlier, only, opened, owner_after, put_at, reloaded, reserved_below, reserved_for, with_host};
ghost use Rattle.server.specs.declared.hosts.ReloadFault.TheVariants as fault;

use host_core::{
    Acted, Answer, Host, HostEvent, Links, MOST_CONNECTIONS, Phase, Served, Ticket, serve_turn,
};
use std::alloc::{AllocError, Global};
use std::marker::Model;

/// The most earlier hosts whose sessions go on (our profile).
pub const MOST_EARLIER: usize = 8;

/// Why new panels aren't served.
#[derive(Clone, Copy, Debug, PartialEq, Eq, Drop)]
pub enum ReloadFault {
    /// Sessions of [`MOST_EARLIER`] earlier hosts go on.
    TooMany,
    /// Memory was refused.
    Memory,
}

/// A host, and the earlier hosts whose sessions go on. All share the connection numbers, below 64: a new connection
/// begins in the newest host, and stays in its host to its end. No two connections have one LU.
#[derive(Drop)]
pub struct Hosts {
    current: Host,
    earlier: Vec<Host>,
    /// For each number the place of its connection's host among the earlier ones; None: the newest host.
    owners: Vec<Option<usize>>,
}

impl Model for Hosts {
    ghost use Rattle.server.specs.Apart.{IsApart};
    ghost use Rattle.server.specs.Hosts.{Hosts as HostsValue};

    ghost Value = { HostsValue };

    ghost view = { λ hosts. record {
      current = hosts.current;
      earlier = hosts.earlier.items;
      owners = hosts.owners.items;
    } };

    ghost invariant = { λ hosts. IsApart (record {
      current = hosts.current;
      earlier = hosts.earlier.items;
      owners = hosts.owners.items;
    }) };
}

/// The owners of numbers that all belong to the newest host.
fn no_owners(alloc: Global) -> Result<Vec<Option<usize>>, AllocError>
    ensures { IfOk result (λ owners. owners.items ≡ replicate most_connections None) }
{
    let mut owners = Vec::with_capacity(alloc, MOST_CONNECTIONS)?;
    for _ in 0..MOST_CONNECTIONS {
        owners.push(None)?;
    }
    Ok(owners)
}

/// Whether a connection belongs to the earlier host at this place.
fn is_place(owner: Option<usize>, place: usize) -> bool
    ensures { result ≡ is_place place owner }
{
    match owner {
        Some(owner) => owner == place,
        None => false,
    }
}

/// Whether any connection belongs to the earlier host at this place.
fn is_owned(owners: &[Option<usize>], place: usize) -> bool
    ensures { result ≡ is_owned place owners.now }
{
    owners.iter().any(|owner| is_place(*owner, place))
}

/// The first place that no connection belongs to; None if connections belong to all.
fn free_place(owners: &[Option<usize>]) -> Option<usize>
    ensures first { IfSome result (λ place. IsFreePlace place owners.now) }
    ensures none { IfNone result (AreOwned most_earlier owners.now) }
{
    for place in 0..MOST_EARLIER {
        if !is_owned(owners, place) {
            return Some(place);
        }
    }
    None
}

/// Puts a host at a place, or behind the others. If memory is refused, nothing has changed.
fn put_at(hosts: &mut Vec<Host>, place: usize, host: Host) -> Result<(), AllocError>
    ensures put { OnOk result (hosts.new.items ≡ put_at place host hosts.old.items) }
    ensures unchanged { OnErr result (hosts.new.items ≡ hosts.old.items) }
{
    if place < hosts.len() {
        hosts[place] = host;
    } else {
        hosts.push(host)?;
    }
    Ok(())
}

/// A number's owner once the newest host is the earlier one at this place.
fn owner_after(place: usize, owner: Option<usize>, phase: &Phase) -> Option<usize>
    ensures { result ≡ owner_after place owner phase.now }
{
    match owner {
        Some(owner) => Some(owner),
        None => match phase {
            Phase::Free => None,
            Phase::Talking | Phase::Bound(_) | Phase::Closed(_) => Some(place),
        },
    }
}

/// Hands the connections of the newest host over to the earlier one at this place.
fn hand_over(owners: &mut Vec<Option<usize>>, current: &Host, place: usize)
    requires { length owners.old.items ≡ most_connections }
    ensures { owners.new.items ≡ handed_below place current.now owners.old.items most_connections }
{
    for conn in 0..MOST_CONNECTIONS {
        owners[conn] = owner_after(place, owners[conn], &current.phase(conn));
    }
}

/// Reserves the LU of a connection in this phase, if that is bound to one.
fn reserve_for(host: &mut Host, conn: usize, phase: &Phase)
    requires { conn < most_connections }
    ensures reserved { host.new ≡ reserved_for conn phase.now host.old }
    ensures reserves { Reserves conn (lu_in phase.now) host.old.pool host.new.pool }
{
    match phase {
        Phase::Bound(lu) => host.reserve(conn, *lu),
        Phase::Free | Phase::Talking | Phase::Closed(_) => {}
    }
}

impl Hosts {
    /// A host without earlier ones. An error if memory is refused.
    pub fn new(alloc: Global, host: Host) -> Result<Hosts, AllocError>
        ensures { IfOk result (λ hosts. hosts ≡ only host) }
    {
        let owners = no_owners(alloc)?;
        Ok(Hosts {
            current: host,
            earlier: Vec::new(alloc),
            owners,
        })
    }

    /// The newest host.
    pub fn current(&self) -> &Host
        ensures { result.now ≡ self.now.current }
    {
        &self.current
    }

    /// The host that a number's connection belongs to; of a free number the newest.
    pub fn at(&self, conn: usize) -> &Host
        requires { conn < most_connections }
        ensures { result.now ≡ host_at conn self.now }
    {
        match self.owners[conn] {
            Some(place) => &self.earlier[place],
            None => &self.current,
        }
    }

    /// Begins a connection on a number, which must be free, in the newest host (see `Host::open`). If memory is
    /// refused, nothing has changed.
    pub fn open(&mut self, conn: usize) -> Result<(), AllocError>
        requires number { conn < most_connections }
        requires free { phase_of (service_at conn self.old) ≡ phase.Free }
        ensures opened { OnOk result (self.new ≡ opened conn self.old) }
        ensures unchanged { OnErr result (self.new ≡ self.old) }
    {
        self.current.open(conn)
    }

    /// Serves a connection for a turn, in its host (see `serve_turn`).
    pub fn serve<L: Links>(&mut self, links: &mut L, conn: usize) -> Served
        requires number { conn < most_connections }
        ensures serves { Serves L.gave L.took conn (host_at conn self.old) links.old result (host_at conn self.new)
            links.new }
        ensures others { self.new ≡ with_host conn (host_at conn self.new) self.old }
    {
        match self.owners[conn] {
            Some(place) => serve_turn(&mut self.earlier[place], links, conn),
            None => serve_turn(&mut self.current, links, conn),
        }
    }

    /// Takes the application's answer to a question, in the connection's host (see `Host::answer`).
    pub fn answer(&mut self, conn: usize, ticket: Ticket, answer: &Answer) -> Acted
        requires number { conn < most_connections }
        ensures answered { DoesAnswer (application_of (host_at conn self.old).panels) answer.now
            (answered_by (application_of (host_at conn self.old).panels) (session_at conn (host_at conn self.old))
            ticket answer.now (service_at conn self.old)) (connection_at conn (host_at conn self.old)) result
            (connection_at conn (host_at conn self.new)) }
        ensures host { host_at conn self.new
            ≡ with_connection conn (connection_at conn (host_at conn self.new)) (host_at conn self.old) }
        ensures others { self.new ≡ with_host conn (host_at conn self.new) self.old }
    {
        match self.owners[conn] {
            Some(place) => self.earlier[place].answer(conn, ticket, answer),
            None => self.current.answer(conn, ticket, answer),
        }
    }

    /// Sends a note on a connection, in its host (see `Host::note`).
    pub fn note(&mut self, conn: usize, text: &[u8]) -> Acted
        requires number { conn < most_connections }
        requires text { IsNoteText text.now }
        ensures noted { Does (noted_by text.now (service_at conn self.old)) (connection_at conn (host_at conn self.old))
            result (connection_at conn (host_at conn self.new)) }
        ensures host { host_at conn self.new
            ≡ with_connection conn (connection_at conn (host_at conn self.new)) (host_at conn self.old) }
        ensures others { self.new ≡ with_host conn (host_at conn self.new) self.old }
    {
        match self.owners[conn] {
            Some(place) => self.earlier[place].note(conn, text),
            None => self.current.note(conn, text),
        }
    }

    /// Sends IAC NOP on a connection, in its host (see `Host::keep_alive`).
    pub fn keep_alive(&mut self, conn: usize) -> Acted
        requires number { conn < most_connections }
        ensures answer { result ≡ kept_alive_answer (connection_at conn (host_at conn self.old)) }
        ensures kept_alive { self.new ≡ with_host conn
            (with_connection conn (kept_alive (connection_at conn (host_at conn self.old))) (host_at conn self.old))
            self.old }
    {
        match self.owners[conn] {
            Some(place) => self.earlier[place].keep_alive(conn),
            None => self.current.keep_alive(conn),
        }
    }

    /// Removes and returns the next event of a connection, from its host (see `Host::next_event`).
    pub fn next_event(&mut self, conn: usize) -> Option<HostEvent>
        requires number { conn < most_connections }
        ensures next { result ≡ oldest (events_of (reports_at conn (host_at conn self.old))) }
        ensures removed { events_of (reports_at conn (host_at conn self.new))
            ≡ without_oldest (events_of (reports_at conn (host_at conn self.old))) }
        ensures waits { (reports_at conn (host_at conn self.new)).waits
            ≡ (reports_at conn (host_at conn self.old)).waits }
        ensures host { host_at conn self.new
            ≡ with_reports conn (reports_at conn (host_at conn self.new)) (host_at conn self.old) }
        ensures others { self.new ≡ with_host conn (host_at conn self.new) self.old }
    {
        match self.owners[conn] {
            Some(place) => self.earlier[place].next_event(conn),
            None => self.current.next_event(conn),
        }
    }

    /// Frees the number and the LU of a connection that is over, also in the newest host, if that reserved the LU. Its
    /// unsent output is dropped.
    pub fn closed(&mut self, conn: usize)
        requires number { conn < most_connections }
        ensures closed { self.new ≡ closed conn self.old }
        ensures free { phase_of (service_at conn self.new) ≡ phase.Free }
        ensures others { (other : ℕ) → other ≢ conn → service_at other self.new ≡ service_at other self.old }
    {
        match self.owners[conn] {
            Some(place) => {
                self.earlier[place].closed(conn);
                self.owners[conn] = None;
                self.current.release(conn);
            }
            None => {
                self.current.closed(conn);
            }
        }
    }

    /// The place that the newest host would take among the earlier ones; None if sessions of [`MOST_EARLIER`] earlier
    /// hosts go on, so that [`reload`](Hosts::reload) would be refused.
    pub fn free_place(&self) -> Option<usize>
        ensures first { IfSome result (λ place. IsFreePlace place self.now.owners) }
        ensures none { IfNone result (AreOwned most_earlier self.now.owners) }
    {
        free_place(&self.owners)
    }

    /// Reserves in another host the LU of each connection that is bound to one.
    fn reserve_each(&self, host: &mut Host)
        requires nobody { NobodyHolds host.old.pool }
        ensures reserved { host.new ≡ reserved_below self.now host.old most_connections }
        ensures kept { KeepsFor self.now most_connections host.new.pool }
    {
        // For the proof: no two connections have one LU.
        self.hosts_are_apart();
        for conn in 0..MOST_CONNECTIONS {
            reserve_for(host, conn, &self.at(conn).phase(conn));
        }
    }

    /// Serves new connections by this host from now on; what it served before is given up. Open connections stay in
    /// their hosts, and the new host grants no LU that one of them has, until that ends. It counts sessions on.
    ///
    /// No connection may negotiate: its host could still grant it an LU that the new host grants, too. TooMany if
    /// sessions of [`MOST_EARLIER`] earlier hosts go on; Memory if memory is refused. Then nothing has changed.
    pub fn reload(&mut self, host: Host) -> Result<(), ReloadFault>
        requires settled { NobodyTalks self.old }
        ensures reloaded { OnOk result ((place : ℕ) × IsFreePlace place self.old.owners
            × (self.new ≡ reloaded place host self.old)) }
        ensures unchanged { OnErr result (self.new ≡ self.old) }
        ensures too_many { result ≡ Err fault.TooMany → AreOwned most_earlier self.old.owners }
    {
        // For the proof: no two connections have one LU.
        self.hosts_are_apart();
        let Some(place) = free_place(&self.owners) else {
            return Err(ReloadFault::TooMany);
        };
        let mut next = host;
        next.restart();
        next.count_on_from(&self.current);
        self.reserve_each(&mut next);
        match put_at(&mut self.earlier, place, next) {
            Ok(()) => {}
            Err(_) => return Err(ReloadFault::Memory),
        }
        hand_over(&mut self.owners, &self.current, place);
        std::mem::swap(&mut self.current, &mut self.earlier[place]);
        Ok(())
    }

    /// Law: no two connections have one LU, whichever hosts they belong to.
    pub fn hosts_are_apart(&self)
        ensures apart { IsApart self.now }
        ensures unshared { NobodyShares self.now }
    {
        // For the contract: what holds of the newest host.
        self.current.hosts_are_sound();
    }
}
