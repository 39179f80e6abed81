//! The parts of a world: a host, the connections that it serves, and terminals; and how bytes move between them.
ghost use Rattle.std.specs.Prelude.{◌≡◌, ◌<◌, ◌≤◌, None, Some, true, false, is_some, length, IfOk, IfSome, map, replicate, take};
ghost use Rattle.host_core.specs.Feeds.{Feeds, connection_and_pool_at, with_connection_and_pool};
ghost use Rattle.host_core.specs.State.{most_connections};
ghost use Rattle.world3270.specs.model.ByteSteps.{Connects, TrackedFeeds, Steps, answer_acted, answer_fed, down_came, free_number, is_enabled, host_gone, host_gone_below, host_gone_if, host_gone_if_there, host_told, is_held, lost_transits, terminal_gone, terminal_gone_if, terminal_told, up_came};
ghost use Rattle.world3270.specs.model.ByteWorld.{alone, down_of, host_out, host_there, is_senders, model_at, transits_at, new_byte_world, new_slot, slot_at, terminal_at, terminal_out, unused_transits, up_of, with_host, with_slot, with_transits};
ghost use Rattle.world3270.specs.model.InFlight.{out_among};
ghost use Rattle.world3270.specs.model.Enabled.{is_queued};
ghost use Rattle.world3270.specs.declared.event.Event.TheVariants as event;

use crate::event::{Event, Stepped};
use crate::link::{Link, first};
use crate::note_text::NoteText;
use crate::terminal_slot::TerminalSlot;
use codes3270::Model;
use host_core::{Acted, Answer, Host, MOST_CONNECTIONS, Phase, Terminals, Ticket};
use keyboard::Key;
use lu_pool::Pool;
use panels::PanelSet;
use presentation::Screen;
use std::alloc::Global;
use std::marker;
use telnet_wire::Memory;
use term_core::Terminal;
use tn3270e_msg::{Fed, Lu, Stop};

/// A host, the connections that it serves, and terminals. The bytes that an end has to send are the
/// bytes under way: there is no other queue.
#[derive(Drop)]
pub(crate) struct Network {
    host: Host,
    links: Vec<Link>,
    slots: Vec<TerminalSlot>,
}

impl marker::Model for Network {
    ghost use Rattle.std.specs.Prelude.{◌≡◌, length};
    ghost use Rattle.host_core.specs.State.{most_connections};
    ghost use Rattle.world3270.specs.model.ByteWorld.{ByteWorld};

    ghost Value = { ByteWorld };

    ghost view = { λ network.
        record { host = network.host; links = network.links.items; slots = network.slots.items } };

    ghost invariant = { λ network. length network.links.items ≡ most_connections };
}

/// The connections of a new world, never used.
fn unused_links(alloc: Global) -> Result<Vec<Link>, Memory>
    ensures { IfOk result (λ links. links.items ≡ replicate most_connections unused_transits) }
{
    let mut links = Vec::with_capacity(alloc, MOST_CONNECTIONS)?;
    for _ in 0..MOST_CONNECTIONS {
        links.push(Link::unused(alloc))?;
    }
    Ok(links)
}

/// A new terminal of each of these models.
fn new_slots(alloc: Global, models: &[Model]) -> Result<Vec<TerminalSlot>, Memory>
    ensures { IfOk result (λ slots. slots.items ≡ map new_slot models.now) }
{
    let mut slots = Vec::with_capacity(alloc, models.len())?;
    for model in models {
        slots.push(TerminalSlot::new(alloc, *model)?)?;
    }
    Ok(slots)
}

/// The terminal that holds an end of a connection, if one does.
fn terminal_at(slots: &[TerminalSlot], conn: usize) -> Option<usize>
    ensures found { result ≡ terminal_at conn slots.now }
    ensures below { IfSome result (λ terminal. terminal < length slots.now) }
{
    slots.iter().position(|slot| slot.is_at(conn))
}

/// The bytes that the terminal at a connection has to send: none if no terminal is there.
fn out_at(slots: &[TerminalSlot], conn: usize) -> &[u8]
    ensures { result.now ≡ out_among (terminal_at conn slots.now) slots.now }
{
    match terminal_at(slots, conn) {
        Some(terminal) => slots[terminal].out(),
        None => &[],
    }
}

/// The outcome of an act, an answer, a note or NOP of the host.
fn acted_as(acted: Acted) -> Stepped
    ensures { result ≡ answer_acted acted }
{
    match acted {
        Acted::Sent => Stepped::Done,
        Acted::Nothing => Stepped::Skipped,
        Acted::Memory => Stepped::Memory,
    }
}

/// The outcome of a delivery.
fn fed_as(fed: Fed) -> Stepped
    ensures { result ≡ answer_fed fed.stop fed.taken }
{
    match fed.stop {
        Stop::Going => Stepped::Done,
        Stop::Closed(_) => Stepped::Done,
        Stop::Memory => match fed.taken {
            0 => Stepped::Memory,
            taken => Stepped::Part(taken),
        },
    }
}

/// Whether at least one byte is among the first `count` of these.
fn are_queued(bytes: &[u8], count: usize) -> bool
    ensures { result ≡ is_queued (take count bytes.now) }
{
    match first(bytes, count) {
        [] => false,
        [_, ..] => true,
    }
}

impl Network {
    /// A new world: a host that serves the terminals `serves`, and one terminal for each of these models.
    /// No LU is held, and no connection was ever used.
    pub(crate) fn new(
        alloc: Global,
        serves: Terminals,
        panels: PanelSet,
        pool: Pool,
        models: &[Model],
    ) -> Result<Network, Memory>
        ensures { IfOk result (λ network. network ≡ new_byte_world serves panels pool models.now) }
    {
        let links = unused_links(alloc)?;
        let slots = new_slots(alloc, models)?;
        let host = Host::serving(alloc, serves, panels, pool)?;
        Ok(Network { host, links, slots })
    }

    /// The host.
    pub(crate) fn host(&self) -> &Host
        ensures { result.now ≡ self.now.host }
    {
        &self.host
    }

    /// How many terminals there are.
    pub(crate) fn terminals(&self) -> usize
        ensures { result ≡ length self.now.slots }
    {
        self.slots.len()
    }

    /// A terminal, by its number.
    pub(crate) fn terminal(&self, terminal: usize) -> &Terminal
        requires { terminal < length self.now.slots }
        ensures { result.now.terminal ≡ (slot_at terminal self.now).tracked.terminal }
    {
        self.slots[terminal].terminal()
    }

    /// The screen that a terminal had just after the last write that restored its keyboard, on its latest connection.
    pub(crate) fn last_restored(&self, terminal: usize) -> &Screen
        requires { terminal < length self.now.slots }
        ensures { result.now.screen ≡ (slot_at terminal self.now).tracked.history.last_restored }
    {
        self.slots[terminal].last_restored()
    }

    /// Whether Erase Input was done at a terminal since the write of `last_restored`.
    pub(crate) fn erased(&self, terminal: usize) -> bool
        requires { terminal < length self.now.slots }
        ensures { result ≡ (slot_at terminal self.now).tracked.history.erased }
    {
        self.slots[terminal].erased()
    }

    /// The bytes that the terminal at a connection has to send: none if no terminal is there.
    fn terminal_out(&self, conn: usize) -> &[u8]
        ensures { result.now ≡ terminal_out conn self.now }
    {
        out_at(&self.slots, conn)
    }

    /// The bytes under way to the host on a connection.
    pub(crate) fn queued_up(&self, conn: usize) -> &[u8]
        requires { conn < most_connections }
        ensures { result.now ≡ up_of conn self.now }
    {
        self.links[conn].up.under_way(self.terminal_out(conn))
    }

    /// The bytes under way to the terminal on a connection.
    pub(crate) fn queued_down(&self, conn: usize) -> &[u8]
        requires { conn < most_connections }
        ensures { result.now ≡ down_of conn self.now }
    {
        self.links[conn].down.under_way(self.host.out(conn))
    }

    /// Whether the host holds an end of a connection.
    fn host_there(&self, conn: usize) -> bool
        requires { conn < most_connections }
        ensures { result ≡ host_there conn self.now }
    {
        match self.host.phase(conn) {
            Phase::Free => false,
            Phase::Talking => true,
            Phase::Bound(_) => true,
            Phase::Closed(_) => true,
        }
    }

    /// Whether the host or a terminal holds an end of a connection.
    fn is_held(&self, conn: usize) -> bool
        requires { conn < most_connections }
        ensures { result ≡ is_held conn self.now }
    {
        self.host_there(conn) || terminal_at(&self.slots, conn).is_some()
    }

    /// A connection is lost.
    fn cut(&mut self, conn: usize)
        requires { conn < most_connections }
        ensures { self.new ≡ with_transits conn (lost_transits conn self.old) self.old }
    {
        let down = self.host.out(conn).len();
        let up = self.terminal_out(conn).len();
        self.links[conn].cut(down, up);
    }

    /// The host leaves a connection, which is lost.
    fn host_leaves(&mut self, conn: usize)
        requires { conn < most_connections }
        ensures { self.new ≡ host_gone conn self.old }
    {
        let up = self.terminal_out(conn).len();
        let unsent = self.host.closed(conn);
        self.links[conn].host_leaves(unsent, up);
    }

    /// A terminal leaves its connection, which is lost.
    fn terminal_leaves(&mut self, terminal: usize, conn: usize)
        requires terminal { terminal < length self.old.slots }
        requires number { conn < most_connections }
        ensures { self.new ≡ terminal_gone (alone (slot_at terminal self.old)) terminal conn self.old }
    {
        let down = self.host.out(conn).len();
        let unsent = self.slots[terminal].leave();
        self.links[conn].terminal_leaves(down, unsent);
    }

    /// A terminal leaves its connection, which is lost, and restarts.
    fn terminal_leaves_anew(&mut self, terminal: usize, conn: usize)
        requires terminal { terminal < length self.old.slots }
        requires number { conn < most_connections }
        ensures { self.new ≡ terminal_gone (new_slot (model_at terminal self.old)) terminal conn self.old }
    {
        let down = self.host.out(conn).len();
        let unsent = self.slots[terminal].leave_and_restart();
        self.links[conn].terminal_leaves(down, unsent);
    }

    /// Whether a connection is up: it isn't lost, and an end of it is held.
    fn is_up(&self, conn: usize) -> bool
        ensures place { result ≡ is_enabled (event.Lose conn) self.now }
        ensures number { result ≡ true → conn < most_connections }
    {
        conn < MOST_CONNECTIONS && self.links[conn].is_live() && self.is_held(conn)
    }

    /// A connection is lost. Skipped unless it is up.
    pub(crate) fn lose(&mut self, conn: usize) -> Stepped
        ensures { Steps (event.Lose conn) self.old result self.new }
    {
        if self.is_up(conn) {
            self.cut(conn);
            Stepped::Done
        } else {
            Stepped::Skipped
        }
    }

    /// A key is pressed at a terminal. Skipped unless there is such a terminal.
    pub(crate) fn press(&mut self, terminal: usize, key: Key) -> Stepped
        ensures { Steps (event.Key terminal key) self.old result self.new }
    {
        if terminal < self.slots.len() {
            match self.slots[terminal].press(key) {
                Ok(pressed) => Stepped::of_key(pressed),
                Err(_) => Stepped::Memory,
            }
        } else {
            Stepped::Skipped
        }
    }

    /// The host acts on a connection. Skipped if it has nothing to do there.
    pub(crate) fn act(&mut self, conn: usize) -> Stepped
        ensures { Steps (event.Act conn) self.old result self.new }
    {
        if conn < MOST_CONNECTIONS {
            acted_as(self.host.act(conn))
        } else {
            Stepped::Skipped
        }
    }

    /// Whether the host may see that a connection is lost: it is lost, and the host holds its end.
    fn host_may_see(&self, conn: usize) -> bool
        ensures place { result ≡ is_enabled (event.HostSees conn) self.now }
        ensures number { result ≡ true → conn < most_connections }
    {
        conn < MOST_CONNECTIONS && !self.links[conn].is_live() && self.host_there(conn)
    }

    /// The host sees that a connection is lost, and leaves it. Skipped unless `host_may_see`.
    pub(crate) fn host_sees(&mut self, conn: usize) -> Stepped
        ensures { Steps (event.HostSees conn) self.old result self.new }
    {
        if self.host_may_see(conn) {
            self.host_leaves(conn);
            Stepped::Done
        } else {
            Stepped::Skipped
        }
    }

    /// The application answers the question with this ticket. Skipped unless that question is open.
    pub(crate) fn answer(&mut self, conn: usize, ticket: Ticket, answer: &Answer) -> Stepped
        ensures { Steps (event.Answer conn ticket answer.now) self.old result self.new }
    {
        if conn < MOST_CONNECTIONS {
            acted_as(self.host.answer(conn, ticket, answer))
        } else {
            Stepped::Skipped
        }
    }

    /// The host sends a note. Skipped if it may send none now.
    pub(crate) fn note(&mut self, conn: usize, text: &NoteText) -> Stepped
        ensures { Steps (event.Note conn text.now) self.old result self.new }
    {
        if conn < MOST_CONNECTIONS {
            acted_as(self.host.note(conn, text.text()))
        } else {
            Stepped::Skipped
        }
    }

    /// The host keeps a connection alive: it sends NOP. Skipped unless the connection is bound and
    /// nothing is to be sent there.
    pub(crate) fn keep_alive(&mut self, conn: usize) -> Stepped
        ensures { Steps (event.KeepAlive conn) self.old result self.new }
    {
        if conn < MOST_CONNECTIONS {
            acted_as(self.host.keep_alive(conn))
        } else {
            Stepped::Skipped
        }
    }

    /// A terminal sees that its connection is lost, and leaves it. Skipped unless it is at a lost one.
    pub(crate) fn term_sees(&mut self, terminal: usize) -> Stepped
        ensures { Steps (event.TermSees terminal) self.old result self.new }
    {
        if terminal >= self.slots.len() {
            return Stepped::Skipped;
        }
        let Some(conn) = self.slots[terminal].at() else {
            return Stepped::Skipped;
        };
        if self.links[conn].is_live() {
            return Stepped::Skipped;
        }
        self.terminal_leaves(terminal, conn);
        Stepped::Done
    }

    /// A terminal restarts; its connection, if it is at one, is lost.
    pub(crate) fn restart_term(&mut self, terminal: usize) -> Stepped
        ensures { Steps (event.RestartTerm terminal) self.old result self.new }
    {
        if terminal >= self.slots.len() {
            return Stepped::Skipped;
        }
        match self.slots[terminal].at() {
            Some(conn) => {
                self.terminal_leaves_anew(terminal, conn);
                Stepped::Done
            }
            None => {
                self.slots[terminal].restart();
                Stepped::Done
            }
        }
    }

    /// The least number of a connection that neither end holds, if there is one.
    fn free_number(&self) -> Option<usize>
        ensures found { result ≡ free_number self.now }
        ensures below { IfSome result (λ conn. conn < most_connections) }
        ensures free { IfSome result (λ conn. is_held conn self.now ≡ false) }
    {
        for conn in 0..MOST_CONNECTIONS {
            if !self.is_held(conn) {
                return Some(conn);
            }
        }
        None
    }

    /// A terminal without a connection begins one, on a number that neither end holds.
    fn begin(&mut self, terminal: usize, conn: usize, wanted: Option<Lu>) -> Stepped
        requires terminal { terminal < length self.old.slots }
        requires number { conn < most_connections }
        requires alone { (slot_at terminal self.old).at ≡ None }
        requires free { is_held conn self.old ≡ false }
        ensures { Connects terminal wanted conn self.old result self.new }
    {
        match self.slots[terminal].attach(&mut self.host, conn, wanted) {
            Ok(()) => {
                self.links[conn].begin();
                Stepped::Done
            }
            Err(_) => Stepped::Memory,
        }
    }

    /// A terminal connects, and requests the LU `wanted`, if one. Skipped unless the terminal has no
    /// connection and a number is free.
    pub(crate) fn connect(&mut self, terminal: usize, wanted: Option<Lu>) -> Stepped
        ensures { Steps (event.Connect terminal wanted) self.old result self.new }
    {
        if terminal >= self.slots.len() {
            return Stepped::Skipped;
        }
        match self.slots[terminal].at() {
            Some(_) => Stepped::Skipped,
            None => match self.free_number() {
                Some(conn) => self.begin(terminal, conn, wanted),
                None => Stepped::Skipped,
            },
        }
    }

    /// The host leaves a connection, if it holds an end of it.
    fn host_leaves_if_there(&mut self, conn: usize)
        requires { conn < most_connections }
        ensures { self.new ≡ host_gone_if_there conn self.old }
    {
        if self.host_there(conn) {
            self.host_leaves(conn);
        }
    }

    /// The host leaves all its connections.
    fn host_leaves_all(&mut self)
        ensures { self.new ≡ host_gone_below most_connections self.old }
    {
        for conn in 0..MOST_CONNECTIONS {
            self.host_leaves_if_there(conn);
        }
    }

    /// The host restarts; its connections are lost.
    pub(crate) fn restart_host(&mut self) -> Stepped
        ensures { Steps event.RestartHost self.old result self.new }
    {
        self.host_leaves_all();
        self.host.restart();
        Stepped::Done
    }

    /// The host takes the first `count` bytes that are under way to it, or all if there are fewer.
    fn feed_host(&mut self, conn: usize, count: usize) -> Fed
        requires { conn < most_connections }
        ensures fed { Feeds conn (connection_and_pool_at conn self.old.host) (take count (up_of conn self.old)) result
            (connection_and_pool_at conn self.new.host) }
        ensures others { self.new ≡ with_host
            (with_connection_and_pool conn (connection_and_pool_at conn self.new.host) self.old.host) self.old }
    {
        let out = out_at(&self.slots, conn);
        let bytes = first(self.links[conn].up.under_way(out), count);
        self.host.feed(conn, bytes)
    }

    /// Tells the host that its first `count` bytes are sent, if the bytes under way are still the host's (`is_its`).
    fn tell_host(&mut self, is_its: bool, conn: usize, count: usize)
        requires number { conn < most_connections }
        requires count { is_its ≡ true → count ≤ length (host_out conn self.old) }
        ensures { self.new ≡ host_told is_its count conn self.old }
    {
        if is_its {
            self.host.sent(conn, count);
        }
    }

    /// Tells the terminal at a connection that its first `count` bytes are sent, if the bytes under way
    /// are still the terminal's (`is_its`).
    fn tell_terminal(&mut self, is_its: bool, conn: usize, count: usize)
        requires { is_its ≡ true → count ≤ length (terminal_out conn self.old) }
        ensures { self.new ≡ terminal_told is_its count (terminal_at conn self.old.slots) self.old }
    {
        if is_its {
            match terminal_at(&self.slots, conn) {
                Some(terminal) => self.slots[terminal].sent(count),
                None => {}
            }
        }
    }

    /// Removes the first `count` bytes from those under way to the terminal.
    fn came_down(&mut self, conn: usize, count: usize)
        requires number { conn < most_connections }
        requires count { is_senders (transits_at conn self.old).down ≡ true → count ≤ length (host_out conn self.old) }
        ensures { self.new ≡ down_came count conn self.old }
    {
        let is_its = self.links[conn].down.is_senders();
        self.tell_host(is_its, conn, count);
        self.links[conn].came_down(count);
    }

    /// Removes the first `count` bytes from those under way to the host.
    fn came_up(&mut self, conn: usize, count: usize)
        requires number { conn < most_connections }
        requires count { is_senders (transits_at conn self.old).up ≡ true
            → count ≤ length (terminal_out conn self.old) }
        ensures { self.new ≡ up_came count conn self.old }
    {
        let is_its = self.links[conn].up.is_senders();
        self.tell_terminal(is_its, conn, count);
        self.links[conn].came_up(count);
    }

    /// Whether a delivery of `count` bytes to the host can happen: the host is there, and at least one
    /// byte is among them.
    fn comes_up(&self, conn: usize, count: usize) -> bool
        ensures place { result ≡ is_enabled (event.Up conn count) self.now }
        ensures number { result ≡ true → conn < most_connections }
    {
        conn < MOST_CONNECTIONS && self.host_there(conn) && are_queued(self.queued_up(conn), count)
    }

    /// The host leaves a connection if it has closed it.
    fn host_leaves_closed(&mut self, conn: usize, stop: &Stop)
        requires { conn < most_connections }
        ensures { self.new ≡ host_gone_if stop.now conn self.old }
    {
        match stop {
            Stop::Going => {}
            Stop::Memory => {}
            Stop::Closed(_) => self.host_leaves(conn),
        }
    }

    /// The first `count` bytes under way to the host are delivered, or all if there are fewer.
    /// Skipped if there are none, or the host isn't there.
    pub(crate) fn bring_up(&mut self, conn: usize, count: usize) -> Stepped
        ensures { Steps (event.Up conn count) self.old result self.new }
    {
        if !self.comes_up(conn, count) {
            return Stepped::Skipped;
        }
        let fed = self.feed_host(conn, count);
        self.came_up(conn, fed.taken);
        self.host_leaves_closed(conn, &fed.stop);
        fed_as(fed)
    }

    /// The terminal to which a delivery of `count` bytes goes, if it can happen.
    fn comes_down(&self, conn: usize, count: usize) -> Option<usize>
        ensures place { is_some result ≡ is_enabled (event.Down conn count) self.now }
        ensures found { IfSome result (λ terminal. terminal_at conn self.now.slots ≡ Some terminal) }
        ensures below { IfSome result (λ terminal. terminal < length self.now.slots) }
        ensures number { IfSome result (λ terminal. conn < most_connections) }
    {
        if conn < MOST_CONNECTIONS && are_queued(self.queued_down(conn), count) {
            terminal_at(&self.slots, conn)
        } else {
            None
        }
    }

    /// A terminal takes the first `count` bytes that are under way to it, or all if there are fewer.
    fn feed_terminal(&mut self, terminal: usize, conn: usize, count: usize) -> Fed
        requires terminal { terminal < length self.old.slots }
        requires number { conn < most_connections }
        ensures fed { TrackedFeeds (slot_at terminal self.old).tracked (take count (down_of conn self.old)) result
            (slot_at terminal self.new).tracked }
        ensures others { self.new ≡ with_slot terminal
            (record (slot_at terminal self.old) { tracked = (slot_at terminal self.new).tracked }) self.old }
    {
        let bytes = first(self.links[conn].down.under_way(self.host.out(conn)), count);
        self.slots[terminal].feed(bytes)
    }

    /// A terminal leaves a connection if it has closed it.
    fn terminal_leaves_closed(&mut self, terminal: usize, conn: usize, stop: &Stop)
        requires terminal { terminal < length self.old.slots }
        requires number { conn < most_connections }
        ensures { self.new ≡ terminal_gone_if stop.now terminal conn self.old }
    {
        match stop {
            Stop::Going => {}
            Stop::Memory => {}
            Stop::Closed(_) => self.terminal_leaves(terminal, conn),
        }
    }

    /// The first `count` bytes under way to the terminal are delivered, or all if there are fewer.
    /// Skipped if there are none, or no terminal is there.
    pub(crate) fn bring_down(&mut self, conn: usize, count: usize) -> Stepped
        ensures { Steps (event.Down conn count) self.old result self.new }
    {
        match self.comes_down(conn, count) {
            None => Stepped::Skipped,
            Some(terminal) => {
                let fed = self.feed_terminal(terminal, conn, count);
                self.came_down(conn, fed.taken);
                self.terminal_leaves_closed(terminal, conn, &fed.stop);
                fed_as(fed)
            }
        }
    }

    /// An event happens, or is skipped if it can't happen.
    pub(crate) fn happen(&mut self, event: &Event) -> Stepped
        ensures { Steps event.now self.old result self.new }
    {
        match event {
            Event::Key(terminal, key) => self.press(*terminal, *key),
            Event::Up(conn, count) => self.bring_up(*conn, *count),
            Event::Down(conn, count) => self.bring_down(*conn, *count),
            Event::Act(conn) => self.act(*conn),
            Event::Answer(conn, ticket, answer) => self.answer(*conn, *ticket, answer),
            Event::Note(conn, text) => self.note(*conn, text),
            Event::KeepAlive(conn) => self.keep_alive(*conn),
            Event::Lose(conn) => self.lose(*conn),
            Event::HostSees(conn) => self.host_sees(*conn),
            Event::TermSees(terminal) => self.term_sees(*terminal),
            Event::Connect(terminal, wanted) => self.connect(*terminal, *wanted),
            Event::RestartTerm(terminal) => self.restart_term(*terminal),
            Event::RestartHost => self.restart_host(),
        }
    }
}
