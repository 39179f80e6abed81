//! `operate`: a terminal at a host, for an operator at a tty.
ghost use Rattle.std.specs.Prelude.{◌≡◌, ◌≤◌, ◌||◌, [], IfErr, IfOk, OnOk, length, take};
ghost use Rattle.term_core.specs.State.{is_bound, phase_of};
ghost use Rattle.jobs.specs.Counting.{CutShort, Writes, chunk_size};
ghost use Rattle.operate.specs.LiveSessions.{AfterRead, BreaksTurnOver, BreaksTurnTyped, FailsToHear, FailsToReadKeys, FailsToTake, Loses, ReadsHost, ReadsKeys, Rests, SendsOver, TakesBytes, TakesInput, TakesTurnOver, TakesTurnTyped, Works, WritesTty, got_count, is_quiet, loss_result, phase_result, read_result};
ghost use Rattle.host_core.specs.Serves.{GotWithin, bytes_got};
ghost use Rattle.jobs.specs.Sockets.{Gives};

use crate::live::{LiveTerminal, OperatorRequest};
use codes3270::Model;
use host_core::{LinkRead, LinkWrite};
use jobs::{
    Answer, CHUNK, Fault, LiveFault, OperateOptions, RawRead, RawWrite, Sink, SocketSlot, Source,
    TtySize, WriteFailed, poll_timeout, read_chunk, report_and_exit_code,
};
use mio::net::TcpStream;
use mio::unix::SourceFd;
use mio::{Events, Interest, Poll, Token};
use std::alloc::Global;
use std::io::ErrorKind;
use std::marker;
use std::net::{Net, SocketAddr};
use std::os::fd::RawFd;
use std::time::{Clock, Instant};
use term_core::TermPhase;
use tn3270e_msg::Lu;
use tty::{Colors, Keymap, Trouble, check_room};

/// The most events of one poll. A socket without an event is also read.
const MOST_EVENTS: usize = 8;

/// The poll token of the connection.
const CONNECTION: Token = Token(0);

/// The poll token of the tty.
const KEYS: Token = Token(1);

/// The descriptor of the tty from which keys are read: standard input.
const TTY: RawFd = 0;

/// A live terminal with its connection of type `S`, if there is one, the source of its keys, and its tty.
#[derive(Drop)]
pub struct OperatorSession<S, K, T> {
    live: LiveTerminal,
    socket: SocketSlot<S>,
    keys: K,
    tty: T,
    /// The bytes that must be written to the tty.
    drawn: Vec<u8>,
    /// Whether the screen has changed since it was drawn, for another reason than received bytes.
    stale: bool,
    /// Whether the terminal has ever been bound to an LU.
    was_bound: bool,
}

/// Reads a connection once, into a buffer of `CHUNK` bytes.
fn read_socket<S: RawRead + RawWrite + Drop>(
    socket: &mut SocketSlot<S>,
    came: &mut [u8],
) -> LinkRead
    requires { length came.old ≡ chunk_size }
    ensures within { GotWithin result (length came.new) }
    ensures gives { Gives S.read_gave socket.old chunk_size (bytes_got result came.new) result socket.new }
{
    socket.read(came)
}

/// How many bytes a read returned.
fn got_count(answer: LinkRead) -> usize
    ensures { result ≡ got_count answer }
{
    match answer {
        LinkRead::Got(count) => count,
        LinkRead::NotNow | LinkRead::Ended | LinkRead::Failed => 0,
    }
}

impl<S, K, T> marker::Model for OperatorSession<S, K, T> {
    ghost use Rattle.operate.specs.LiveSessions.{Session};

    ghost Value = { Session S K T };

    ghost view = { λ session. record {
      live = session.live;
      socket = session.socket;
      keys = session.keys;
      tty = session.tty;
      drawn = session.drawn.items;
      stale = session.stale;
      was_bound = session.was_bound;
    } };
}

/// Whether nothing was received or typed, and the tty shows the current screen.
fn is_quiet(came: &[u8], typed: &[u8], stale: bool) -> bool
    ensures { result ≡ is_quiet came.now typed.now stale }
{
    came.is_empty() && typed.is_empty() && !stale
}

impl<S: RawRead + RawWrite + Drop, K: Drop, T: Drop> OperatorSession<S, K, T> {
    /// A terminal of a model without a connection, at a tty of this size, which is drawn in these colours. An error if
    /// memory is refused.
    pub fn new(
        alloc: Global,
        model: Model,
        size: TtySize,
        colors: Colors,
        keys: K,
        tty: T,
    ) -> Result<OperatorSession<S, K, T>, Fault> {
        Ok(OperatorSession {
            live: LiveTerminal::new(alloc, model, size, colors)?,
            socket: SocketSlot::unused(),
            keys,
            tty,
            drawn: Vec::new(alloc),
            stale: true,
            was_bound: false,
        })
    }

    /// Uses this keymap from now on, waits for the rest of a keystroke for `escape` milliseconds without a byte, and says
    /// whether the bell doesn't ring for keys. NoMemory if memory is refused for the table of keys.
    pub fn set_up(
        &mut self,
        alloc: Global,
        keymap: Keymap,
        escape: u16,
        quiet: bool,
    ) -> Result<(), Fault> {
        self.live.use_keymap(alloc, keymap)?;
        self.live.wait_for_escape(u32::from(escape));
        self.live.be_quiet(quiet);
        Ok(())
    }

    /// Takes the time that passed since the last call, in milliseconds. If that changes the seconds of the wait, the
    /// next turn draws the screen.
    pub fn pass(&mut self, millis: u32) {
        let before = self.live.seconds();
        self.live.pass(millis);
        let after = self.live.seconds();
        self.stale |= after != before && (after > 1 || before > 1);
    }

    /// Says that there is a file in which screens are saved (see [`save`](OperatorSession::save)).
    pub fn save_screens(&mut self) {
        self.live.save_screens(true);
    }

    /// Tells the operator what failed: why there is no connection to the host, or that a screen isn't saved.
    pub fn fail(&mut self, why: Trouble) {
        self.live.fail(why);
        self.stale = true;
    }

    /// Writes the screens that the operator saved since the last call to a file: a line for each row, in UTF-8, and of a
    /// hidden field blanks.
    pub fn save<F: Sink>(&mut self, file: &mut F) -> Result<(), WriteFailed>
        ensures writes { Writes result (F.seen file.old) (F.seen file.new) self.old.live.seat.saved }
        ensures dropped { self.new ≡ record self.old {
          live = record self.old.live { seat = record self.old.live.seat { saved = [] } };
        } }
    {
        let written = file.write_all(self.live.saved());
        self.live.drop_saved();
        written
    }

    /// Begins a connection, if there is none. The terminal requests this LU, if one is given. NoMemory if memory is
    /// refused.
    pub fn connect(&mut self, socket: S, wanted: Option<Lu>) -> Result<(), Fault> {
        if let TermPhase::Idle = self.live.phase() {
            self.live.connect(wanted)?;
            self.socket.open(socket);
            self.stale = true;
        }
        Ok(())
    }

    /// Ends the connection. Returns this fault if the terminal has never been bound to an LU.
    fn lose(&mut self, fault: Fault) -> Result<(), Fault>
        ensures result { result ≡ loss_result self.old.was_bound fault }
        ensures loses { Loses self.old self.new }
    {
        self.socket.close();
        self.live.lose();
        self.stale = true;
        if self.was_bound { Ok(()) } else { Err(fault) }
    }

    /// Reads the connection once. Answers how many bytes were received.
    fn read_host(&mut self, came: &mut [u8]) -> Result<usize, Fault>
        requires { length came.old ≡ chunk_size }
        ensures within { IfOk result (λ count. count ≤ length came.new) }
        ensures reads { IfOk result (λ count. ReadsHost S.read_gave (take count came.new) self.old self.new) }
        ensures fails { IfErr result (λ fault. FailsToHear S.read_gave fault self.old self.new) }
    {
        let answer = read_socket(&mut self.socket, came);
        self.follow(answer)?;
        Ok(got_count(answer))
    }

    /// Ends the connection if a read found its end or failed.
    fn follow(&mut self, answer: LinkRead) -> Result<(), Fault>
        ensures result { result ≡ read_result self.old.was_bound answer }
        ensures after { AfterRead answer self.old self.new }
    {
        match answer {
            LinkRead::Got(_) | LinkRead::NotNow => Ok(()),
            LinkRead::Ended => self.lose(Fault::Live(LiveFault::HostEnded)),
            LinkRead::Failed => self.lose(Fault::SocketFailed),
        }
    }

    /// Writes the terminal's output to the connection once. Answers whether a byte was taken. A failed connection is
    /// noticed by a read.
    fn send(&mut self) -> bool
        ensures { SendsOver S.write_took self.old self.new result }
    {
        match self.socket.write(self.live.out()) {
            LinkWrite::Took(count) => {
                self.live.sent(count);
                true
            }
            LinkWrite::NotNow | LinkWrite::Failed => false,
        }
    }

    /// Takes the typed bytes, and draws nothing.
    fn rest(&mut self, typed: &[u8]) -> Result<(), Fault>
        ensures rests { OnOk result (Rests typed.now self.old self.new) }
        ensures memory { IfErr result (λ fault. fault ≡ Fault.NoMemory) }
    {
        self.live.take_typed(typed)?;
        Ok(())
    }

    /// Notes whether the terminal is bound. A fault if the host rejected the terminal's request for an LU, or if the
    /// terminal closed the connection.
    fn check_phase(&mut self) -> Result<(), Fault>
        ensures result { result ≡ phase_result (phase_of self.old.live.seat.terminal.link) }
        ensures noted { self.new ≡ record self.old {
          was_bound = self.old.was_bound || is_bound (phase_of self.old.live.seat.terminal.link);
        } }
    {
        let phase = self.live.phase();
        self.was_bound |= phase.is_bound();
        match phase {
            TermPhase::Refused(reason) => Err(Fault::Live(LiveFault::LuRefused(reason))),
            TermPhase::Closed(cause) => Err(Fault::Live(LiveFault::Closed(cause))),
            TermPhase::Bound(_) | TermPhase::Idle | TermPhase::Talking => Ok(()),
        }
    }

    /// Takes the bytes received and those typed, and appends what draws the screen, unless nothing happened.
    fn take_bytes(
        &mut self,
        alloc: Global,
        came: &[u8],
        typed: &[u8],
        drawn: &mut Vec<u8>,
    ) -> Result<(), Fault>
        ensures takes { OnOk result
            (TakesBytes came.now typed.now self.old self.new drawn.old.items drawn.new.items) }
        ensures memory { IfErr result (λ fault. fault ≡ Fault.NoMemory) }
    {
        if is_quiet(came, typed, self.stale || self.live.rings()) {
            return self.rest(typed);
        }
        self.live.turn(alloc, came, typed, drawn)?;
        self.stale = false;
        Ok(())
    }

    /// One turn as [`turn`](OperatorSession::turn) in which these bytes were typed, and in which what draws the screen
    /// is appended to `drawn`: the session's own keys and tty aren't used. Faults are those of the connection and of
    /// memory.
    pub fn turn_typed(
        &mut self,
        alloc: Global,
        typed: &[u8],
        drawn: &mut Vec<u8>,
    ) -> Result<bool, Fault>
        ensures takes { OnOk result (TakesTurnTyped S.read_gave S.write_took typed.now self.old self.new
            drawn.old.items drawn.new.items) }
        ensures breaks { IfErr result (BreaksTurnTyped S.read_gave S.write_took typed.now self.old self.new
            drawn.old.items drawn.new.items) }
    {
        let mut came = [0; CHUNK];
        let came_count = self.read_host(&mut came)?;
        self.take_bytes(alloc, &came[..came_count], typed, drawn)?;
        let sent = self.send();
        self.check_phase()?;
        Ok((came_count > 0) | sent)
    }

    /// The phase of the terminal's connection.
    pub fn phase(&self) -> TermPhase
        ensures { result ≡ phase_of self.now.live.seat.terminal.link }
    {
        self.live.phase()
    }

    /// What the operator has asked for since the last call of this function.
    pub fn take_asked(&mut self) -> OperatorRequest
        ensures asked { result ≡ self.old.live.seat.asks }
    {
        self.live.take_asked()
    }
}

impl<S: RawRead + RawWrite + Drop, K: Source + Drop, T: Sink + Drop> OperatorSession<S, K, T> {
    /// Reads the tty once. Answers how many bytes were typed: 0 if no key was pressed, since the tty is in raw mode.
    fn read_keys(&mut self, typed: &mut [u8]) -> Result<usize, Fault>
        requires { length typed.old ≡ chunk_size }
        ensures within { IfOk result (λ count. count ≤ length typed.new) }
        ensures reads { IfOk result (λ count. ReadsKeys K.gave (take count typed.new) self.old self.new) }
        ensures fails { IfErr result (λ fault. (fault ≡ Fault.InputNotRead) × FailsToReadKeys K.gave self.old self.new) }
    {
        match read_chunk(&mut self.keys, typed) {
            Answer::Gave(count) => Ok(count),
            Answer::Ended | Answer::Interrupted => Ok(0),
            Answer::Failed => Err(Fault::InputNotRead),
        }
    }

    /// Writes `drawn` to the tty.
    fn write_tty(&mut self) -> Result<(), Fault>
        ensures writes { OnOk result (WritesTty T.seen self.old self.new) }
        ensures fails { IfErr result (λ fault. (fault ≡ Fault.OutputFailed)
            × CutShort (T.seen self.old.tty) (T.seen self.new.tty) self.old.drawn) }
    {
        if self.tty.write_all(self.drawn.as_slice()).is_err() {
            return Err(Fault::OutputFailed);
        }
        self.drawn.clear();
        Ok(())
    }

    /// Takes the bytes received and those typed, and draws the screen, unless nothing happened.
    fn take(&mut self, alloc: Global, came: &[u8], typed: &[u8]) -> Result<(), Fault>
        ensures takes { OnOk result (TakesInput T.seen came.now typed.now self.old self.new) }
        ensures fails { IfErr result (λ fault. FailsToTake T.seen fault self.old self.new) }
    {
        if is_quiet(came, typed, self.stale || self.live.rings()) {
            self.rest(typed)
        } else {
            self.work(alloc, came, typed)
        }
    }

    /// Takes a turn of the live terminal, and writes to the tty.
    fn work(&mut self, alloc: Global, came: &[u8], typed: &[u8]) -> Result<(), Fault>
        ensures works { OnOk result (Works T.seen came.now typed.now self.old self.new) }
        ensures fails { IfErr result (λ fault. FailsToTake T.seen fault self.old self.new) }
    {
        self.live.turn(alloc, came, typed, &mut self.drawn)?;
        self.stale = false;
        self.write_tty()
    }

    /// One turn: reads the connection and the tty once, hands the bytes to the terminal, writes the screen to the tty
    /// if something happened, and writes the terminal's output to the connection once. Answers whether a byte was read
    /// from or written to the connection.
    ///
    /// LiveFault::LuRefused if the host rejected the request for an LU; LiveFault::Closed if the terminal closed the
    /// connection; LiveFault::HostEnded or SocketFailed if the connection ended or failed before the terminal was first
    /// bound; InputNotRead or OutputFailed if the tty fails; NoMemory if memory is refused.
    pub fn turn(&mut self, alloc: Global) -> Result<bool, Fault>
        ensures takes { OnOk result (TakesTurnOver S.read_gave S.write_took K.gave T.seen self.old self.new) }
        ensures breaks { IfErr result (BreaksTurnOver S.read_gave S.write_took K.gave T.seen self.old self.new) }
    {
        let mut came = [0; CHUNK];
        let mut typed = [0; CHUNK];
        let came_count = self.read_host(&mut came)?;
        let typed_count = self.read_keys(&mut typed)?;
        self.take(alloc, &came[..came_count], &typed[..typed_count])?;
        let sent = self.send();
        self.check_phase()?;
        Ok((came_count > 0) | sent)
    }
}

// ---- with a socket and a tty

/// Why a connection can't be established; None if that is under way.
fn failure_of(socket: &TcpStream) -> Option<ErrorKind> {
    match socket.take_error() {
        Ok(None) => None,
        Ok(Some(error)) | Err(error) => Some(error.kind()),
    }
}

/// What the operator is told of a connection that can't be established.
fn trouble_of(kind: ErrorKind) -> Trouble {
    match kind {
        ErrorKind::ConnectionRefused => Trouble::HostRefuses,
        ErrorKind::TimedOut => Trouble::NoAnswer,
        _ => Trouble::Unreachable,
    }
}

/// The whole milliseconds between two readings of the clock; 0 if the clock failed.
fn millis_between(start: Option<Instant>, now: Option<Instant>) -> u64 {
    match (start, now) {
        (Some(start), Some(now)) => {
            u64::try_from(now.duration_since(start).as_millis()).unwrap_or(u64::MAX)
        }
        _ => 0,
    }
}

/// A host's address, the poll that waits for connections to it, and the connection that is being established, if any.
/// Until it is established, the session has no connection, and the operator sees the last screen.
#[derive(Drop)]
struct Dialer {
    address: SocketAddr,
    wanted: Option<Lu>,
    poll: Poll,
    events: Events,
    dialed: Option<TcpStream>,
    /// Whether a connection was ever established. If not, a refused one ends the run.
    was_taken: bool,
}

impl Dialer {
    fn new(net: &impl Net, alloc: Global, options: &OperateOptions<'_>) -> Result<Dialer, Fault> {
        let events = Events::with_capacity(alloc, MOST_EVENTS)?;
        let Ok(poll) = Poll::new(net) else {
            return Err(Fault::SocketFailed);
        };
        // If the system can't wait for it, as for a file, a key is read within 10 milliseconds.
        let _ = poll
            .registry()
            .register(&mut SourceFd(&TTY), KEYS, Interest::READABLE);
        Ok(Dialer {
            address: SocketAddr::new(options.host, options.port.get()),
            wanted: options.lu,
            poll,
            events,
            dialed: None,
            was_taken: false,
        })
    }

    /// Begins to connect, unless that is under way. CannotConnect if it fails at once and no connection ever was made.
    fn redial<K: Drop, T: Drop>(
        &mut self,
        net: &impl Net,
        session: &mut OperatorSession<TcpStream, K, T>,
    ) -> Result<(), Fault> {
        if self.dialed.is_some() {
            return Ok(());
        }
        let mut socket = match TcpStream::connect(net, self.address) {
            Ok(socket) => socket,
            Err(error) => return self.give_up(session, error.kind()),
        };
        // As in the server: if one of these calls fails, the socket is used anyway.
        let _ = socket.set_nodelay(true);
        let interest = Interest::READABLE | Interest::WRITABLE;
        let _ = self
            .poll
            .registry()
            .register(&mut socket, CONNECTION, interest);
        self.dialed = Some(socket);
        Ok(())
    }

    /// Tells the operator why there is no connection, if one was established before; otherwise CannotConnect.
    fn give_up<K: Drop, T: Drop>(
        &self,
        session: &mut OperatorSession<TcpStream, K, T>,
        kind: ErrorKind,
    ) -> Result<(), Fault> {
        if self.was_taken {
            session.fail(trouble_of(kind));
            Ok(())
        } else {
            Err(Fault::Live(LiveFault::CannotConnect(self.address, kind)))
        }
    }

    /// Hands the connection to the session once it is established. CannotConnect if it is refused and none ever was.
    fn hand_over<K: Drop, T: Drop>(
        &mut self,
        session: &mut OperatorSession<TcpStream, K, T>,
    ) -> Result<(), Fault> {
        let Some(socket) = self.dialed.take() else {
            return Ok(());
        };
        if socket.peer_addr().is_ok() {
            self.was_taken = true;
            return session.connect(socket, self.wanted);
        }
        match failure_of(&socket) {
            Some(kind) => self.give_up(session, kind),
            None => {
                self.dialed = Some(socket);
                Ok(())
            }
        }
    }

    /// Waits for the connection or a key at most 10 milliseconds, or not at all if bytes moved in the turn before (`moved`).
    fn wait(&mut self, moved: bool) -> Result<(), Fault> {
        match self.poll.poll(&mut self.events, Some(poll_timeout(moved))) {
            Err(error) if error.kind() != ErrorKind::Interrupted => Err(Fault::SocketFailed),
            // If it was interrupted, the program was stopped, and continues.
            _ => Ok(()),
        }
    }
}

/// Saves the screens that the operator saved in a turn, if there is a file for them. If that fails, the operator is told.
fn save_screens<K: Drop, T: Drop, F: Sink>(
    session: &mut OperatorSession<TcpStream, K, T>,
    file: &mut Option<F>,
) {
    if let Some(file) = file {
        if session.save(file).is_err() {
            session.fail(Trouble::NotSaved);
        }
    }
}

/// Connects a session, and takes turns until the operator ends the program.
fn take_turns<N: Net + Clock, K: Source + Drop, T: Sink + Drop, F: Sink>(
    net: &N,
    alloc: Global,
    dialer: &mut Dialer,
    session: &mut OperatorSession<TcpStream, K, T>,
    saves: &mut Option<F>,
) -> Result<(), Fault> {
    dialer.redial(net, session)?;
    let mut moved = true;
    let start = Instant::now(net).ok();
    let mut passed = 0;
    for _ in 0..u64::MAX {
        let millis = millis_between(start, Instant::now(net).ok()).max(passed);
        session.pass((millis - passed).min(3_600_000) as u32);
        passed = millis;
        dialer.hand_over(session)?;
        dialer.wait(moved)?;
        moved = session.turn(alloc)?;
        save_screens(session, saves);
        match session.take_asked() {
            OperatorRequest::Nothing => {}
            OperatorRequest::Quit => return Ok(()),
            OperatorRequest::Connect => dialer.redial(net, session)?,
        }
    }
    Ok(())
}

/// The size of the tty, if it has room for all screens of a model.
fn tty_size(model: Model, tty: Option<TtySize>) -> Result<TtySize, Fault> {
    let Some(size) = tty else {
        return Err(Fault::Live(LiveFault::NotRaw));
    };
    match check_room(model.alternate(), size.rows, size.columns) {
        Ok(()) => Ok(size),
        Err(fault) => Err(Fault::Live(LiveFault::TooSmall(fault))),
    }
}

/// Runs a live terminal.
fn operate<N: Net + Clock, K: Source + Drop, T: Sink + Drop, F: Sink>(
    net: &N,
    alloc: Global,
    options: &OperateOptions<'_>,
    keymap: Keymap,
    saves: &mut Option<F>,
    keys: K,
    tty: T,
) -> Result<(), Fault> {
    let size = tty_size(options.model, options.tty)?;
    let mut dialer = Dialer::new(net, alloc, options)?;
    let mut session = OperatorSession::new(alloc, options.model, size, options.colors, keys, tty)?;
    session.set_up(alloc, keymap, options.escape.get(), options.quiet_keys)?;
    if saves.is_some() {
        session.save_screens();
    }
    take_turns(net, alloc, &mut dialer, &mut session, saves)
}

/// Runs a terminal at the host of the options, until the operator ends it. The operator's keys, which do what the keymap
/// says, are read from a tty in raw mode, and the screen is written there. A read of the keys must return at once, as with
/// `stty min 0 time 0`. Without a connection, Enter connects again. A turn with nothing to do takes at most 10
/// milliseconds, and ends when a key is pressed at the tty of standard input. The key that saves the screen appends its
/// rows to the file `saves`, if there is one; if that fails, the operator is told. A fault that ends the run is written
/// to `faults` as one line.
///
/// Returns the exit status: 0 if the operator ended it; 1 if the keys can't be read; 2 if there is no known tty in raw
/// mode, or if it is too small; 3 if memory is refused; 4 if connecting fails, if the host rejects the request for an
/// LU or ends the connection before the terminal was bound to one, or if the terminal closes the connection because the
/// host breaks the protocol; 6 if the output fails.
pub fn run_operate<N: Net + Clock, K: Source + Drop, T: Sink + Drop, F: Sink, E: Sink>(
    net: &N,
    alloc: Global,
    options: &OperateOptions<'_>,
    keymap: Keymap,
    saves: &mut Option<F>,
    keys: K,
    tty: T,
    faults: &mut E,
) -> u8 {
    match operate(net, alloc, options, keymap, saves, keys, tty) {
        Ok(()) => 0,
        Err(fault) => report_and_exit_code(fault, faults),
    }
}
