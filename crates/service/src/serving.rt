//! The jobs `host` and `serve`: serve the panels of the input to the terminals that connect.
ghost use Rattle.std.specs.Prelude.{◌≡◌};
ghost use Rattle.service.specs.Serving.{is_closed};

use crate::application::Application;
use crate::control_socket::{self, Commanding, ControlSocket};
use crate::log::Log;
use crate::metered::MetricsObserver;
use crate::options::ServeOptions;
use crate::reload::findings_in;
use crate::uptime::Uptime;
use application_http::{Endpoint, EndpointFault};
use applications::{JobWithoutApplication, draw_boot, first_asked, host_of, refuse_asking};
use host_core::{Host, PanelSet, Terminals};
use jobs::{
    ApplicationChoice, ControlChoice, Fault, Port, RawRead, RawWrite, Seconds, Sink, Source,
    TimeLimits, Turns, poll_timeout, read_whole, report_and_exit_code,
};
use mio::net::TcpStream;
use server::{
    Listener, NoListener, Orders, PolledListener, ProxyListener, Server, ServerPort, TurnParts,
    Unwatched, Watcher, take_turns,
};
use service_events::Notice;
use std::alloc::Global;
use std::fs;
use std::io::{self, ErrorKind};
use std::net::{Ipv4Addr, SocketAddr};
use std::time::Instant;

/// A server for the host of a panel text, and its port, of 127.0.0.1. The system picks a free port if `port` is 0.
pub fn server_of(
    rt: &HostRuntime,
    panels: &str,
    port: u16,
) -> Result<(Server<TcpStream>, ServerPort), Fault> {
    let host = host_of(rt.alloc(), Terminals::Waiting, panels)?;
    server_at(rt, host, port)
}

/// A server of a host, and its port, of 127.0.0.1. The system picks a free port if `port` is 0.
fn server_at(
    rt: &HostRuntime,
    host: Host,
    port: u16,
) -> Result<(Server<TcpStream>, ServerPort), Fault> {
    let address = SocketAddr::from((Ipv4Addr::LOCALHOST, port));
    // Its session names are not shown: it has neither a log nor an application.
    let server = Server::new(rt.alloc(), host, 0)?;
    match ServerPort::listen(rt, rt.alloc(), address) {
        Ok(port) => Ok((server, port)),
        Err(Fault::CannotListen(_, _)) => Err(Fault::SocketFailed),
        Err(fault) => Err(fault),
    }
}

/// The host of the panels that the input defines.
fn read_host<I: Source>(alloc: Global, input: &mut I) -> Result<Host, Fault> {
    let text = read_whole(alloc, input)?;
    host_of(alloc, Terminals::Waiting, text.as_str())
}

/// Serves a host for this number of turns, and returns the fault that ended that.
fn serve_host(rt: &HostRuntime, host: Host, port: Port, turns: Turns) -> Result<(), Fault> {
    let (mut server, mut port) = server_at(rt, host, port.get())?;
    serve_unwatched(&mut server, &mut port, turns)
}

/// Takes this number of turns, and returns the fault that ended them.
fn serve_unwatched(
    server: &mut Server<TcpStream>,
    port: &mut ServerPort,
    turns: Turns,
) -> Result<(), Fault> {
    let mut moved = false;
    for _ in 0..turns.get() {
        port.poll(poll_timeout(moved), server.now())?;
        moved = server.turn(&mut port.arrivals, &mut Unwatched)?;
    }
    Err(Fault::TurnsOver)
}

/// Serves the panels of the input on a port of 127.0.0.1, 1024 to 65535, for this number of turns. A turn with nothing
/// to do takes at most 10 milliseconds. Writes the fault that ends the run to `faults` as one line.
///
/// Returns the exit status: 5 if the turns are used up; 1 if the input can't be read (as by [`read_whole`]), if it
/// defines no panels, or if their LUs are no pool; 2 if a panel asks an application about a key, since there is none; 3
/// if memory is refused; 4 if the system refuses a socket, such as for a port in use.
pub fn run_host<I: Source, E: Sink>(
    rt: &HostRuntime,
    port: Port,
    turns: Turns,
    input: &mut I,
    faults: &mut E,
) -> u8 {
    match read_host(rt.alloc(), input) {
        Ok(host) => match first_asked(host.panels()) {
            Some((panel, key)) => refuse_asking(panel, key, JobWithoutApplication::Host, faults),
            None => match serve_host(rt, host, port, turns) {
                Ok(()) => 0,
                Err(fault) => report_and_exit_code(fault, faults),
            },
        },
        Err(fault) => report_and_exit_code(fault, faults),
    }
}

// ---- serve

/// The name of the standard input in reports.
const STANDARD_INPUT: &str = "standard input";

/// A server of a host, with session names that no other start of the host uses.
fn server_with_names(rt: &HostRuntime, host: Host) -> Result<Server<TcpStream>, Fault> {
    match draw_boot(rt) {
        Ok(boot) => Ok(Server::new(rt.alloc(), host, boot)?),
        Err(_) => Err(Fault::NotRandom),
    }
}

/// The chosen application, if there is one. NotAnApplication if its URL isn't one; NoMemory if memory is refused.
fn application_of(
    alloc: Global,
    choice: &ApplicationChoice<'_>,
) -> Result<Option<Application>, Fault> {
    let Some(url) = &choice.url else {
        return Ok(None);
    };
    match Endpoint::parse(alloc, url.as_str()) {
        Ok(endpoint) => Ok(Some(Application::new(alloc, endpoint, choice.reply_time)?)),
        Err(EndpointFault::Memory) => Err(Fault::NoMemory),
        Err(why) => Err(Fault::NotAnApplication(why)),
    }
}

/// How operators command a service.
#[derive(Drop)]
struct Control {
    socket: ControlSocket,
    orders: Orders,
    /// The time for draining.
    drain: Seconds,
}

/// Prints why a control socket can't be made, and returns the exit status.
fn refuse_socket<E: Sink>(name: &str, why: ErrorKind, faults: &mut E) -> u8 {
    let reason = match why {
        ErrorKind::OutOfMemory => return report_and_exit_code(Fault::NoMemory, faults),
        ErrorKind::AddrInUse => "is in use",
        ErrorKind::NotFound => "no such folder",
        ErrorKind::PermissionDenied => "permission denied",
        ErrorKind::InvalidInput => "the name is too long for a socket",
        _ => "refused by the system",
    };
    let _ = faults.write_line(format_args!("--control {name}: {reason}"));
    4
}

/// Makes the control socket with this file name.
fn control_at(rt: &HostRuntime, name: &str, drain: Seconds) -> io::Result<Control> {
    let orders = Orders::new(rt.alloc())?;
    let socket = control_socket::listen(rt, name)?;
    Ok(Control {
        socket,
        orders,
        drain,
    })
}

/// The chosen control socket, if there is one. Prints why it can't be made; Err is then the exit status.
fn control_of<E: Sink>(
    rt: &HostRuntime,
    choice: &ControlChoice<'_>,
    faults: &mut E,
) -> Result<Option<Control>, u8> {
    let Some(socket) = &choice.socket else {
        return Ok(None);
    };
    let name = socket.as_str();
    match control_at(rt, name, choice.drain) {
        Ok(control) => Ok(Some(control)),
        Err(error) => Err(refuse_socket(name, error.kind(), faults)),
    }
}

/// A server and its port, the application that its host asks, and how operators command it.
#[derive(Drop)]
struct Serving {
    server: Server<TcpStream>,
    port: ServerPort,
    application: Option<Application>,
    control: Option<Control>,
}

impl Serving {
    /// Does what operators command, and sends the notes that can be sent. Answers whether it did something.
    fn obey<W: Watcher>(
        &mut self,
        rt: &HostRuntime,
        options: ServeOptions<'_>,
        now: u64,
        watcher: &mut W,
    ) -> Result<bool, Fault> {
        let Some(control) = &mut self.control else {
            return Ok(false);
        };
        control.socket.accept_all(&self.port, now);
        let commanding = Commanding {
            rt,
            options,
            orders: &mut control.orders,
            server: &mut self.server,
            port: &mut self.port,
            watcher,
        };
        let moved = control.socket.serve_all(now, commanding)?;
        Ok(moved | control.orders.notes.deliver_each(&mut self.server))
    }

    /// Whether no new session is taken.
    fn is_closed(&self) -> bool
        ensures { result ≡ is_closed self.now.control }
    {
        match &self.control {
            Some(control) => control.orders.is_closed(),
            None => false,
        }
    }

    /// Reports to the watcher that the server listens, and takes turns. Returns the fault that ended that; Ok if
    /// operators did.
    fn serve_watched<W: Watcher>(
        &mut self,
        rt: &HostRuntime,
        options: ServeOptions<'_>,
        watcher: &mut W,
    ) -> Result<(), Fault> {
        watcher.notice(&Notice::Listening(options.address()))?;
        let mut shift = Shift {
            serving: self,
            rt,
            options,
            limits: &options.service.limits,
            uptime: Uptime::new(),
            watcher,
        };
        take_turns(&mut shift, u64::MAX)
    }

    /// Takes turns, with this log, and with a metrics port if the service has one. Returns the fault that ended that;
    /// Ok if operators did.
    fn serve_logged<E: Sink>(
        &mut self,
        rt: &HostRuntime,
        options: ServeOptions<'_>,
        version: &'static str,
        log: &mut Log<'_, E>,
    ) -> Result<(), Fault> {
        let Some(port) = options.service.metrics else {
            return self.serve_watched(rt, options, log);
        };
        match MetricsObserver::new(rt, &self.port, port, version, log) {
            Ok(mut metered) => self.serve_watched(rt, options, &mut metered),
            Err(fault) => Err(fault),
        }
    }
}

/// A server with its application, the clock, the time limits, and the watcher that logs.
#[derive(Drop)]
struct Shift<'a, W> {
    serving: &'a mut Serving,
    rt: &'a HostRuntime,
    options: ServeOptions<'a>,
    limits: &'a TimeLimits,
    uptime: Uptime,
    watcher: &'a mut W,
}

impl<W: Watcher> TurnParts for Shift<'_, W> {
    ghost use Rattle.std.specs.Prelude.{Bool, Result};
    ghost use Rattle.jobs.specs.declared.fault.Fault.{Fault};
    ghost use Rattle.server.specs.Control.{StopsAt};
    ghost use Rattle.service.specs.Serving.{PollsAndServesBy, is_closed, is_over, nobody};
    ghost use Rattle.server.specs.TimeTurns.{KeepsTime, done};
    ghost use Rattle.service.specs.Uptimes.{IsRead};
    ghost use Rattle.server.specs.Visits.{VisitsEach};

    ghost served = { λ old _ answer new. PollsAndServesBy ⟦<TcpStream as RawRead>⟧.read_gave
        ⟦<TcpStream as RawWrite>⟧.write_took W.noticed W.showed
        ⟦<ProxyListener<TcpStream, PolledListener> as Listener<TcpStream>>⟧.gave
        ⟦<NoListener as Listener<TcpStream>>⟧.gave (is_closed old.serving.now.control)
        nobody old.serving.now.server old.watcher.now answer new.serving.now.server new.watcher.now
        new.serving.now.port.arrivals
        × (new.uptime ≡ old.uptime) × (new.limits ≡ old.limits)
        × (new.serving.now.application ≡ old.serving.now.application)
        × (new.serving.now.control ≡ old.serving.now.control) };

    ghost timed = { λ old moved answer new. IsRead old.uptime new.uptime
        × KeepsTime W.noticed W.showed old.limits.now new.uptime.millis moved old.serving.now.server old.watcher.now
        answer new.serving.now.server new.watcher.now
        × (new.limits ≡ old.limits) × (new.serving.now.application ≡ old.serving.now.application)
        × (new.serving.now.control ≡ old.serving.now.control) };

    ghost consulted = { λ old _ new. (new.uptime ≡ old.uptime) × (new.limits ≡ old.limits) };

    ghost obeyed = { λ old _ new. (new.uptime ≡ old.uptime) × (new.limits ≡ old.limits) };

    ghost told = { λ old answer new. W.ended_turn old.watcher.now old.serving.now.server old.uptime.millis answer
        new.watcher.now
        × (new.serving.now ≡ old.serving.now) × (new.uptime ≡ old.uptime) × (new.limits ≡ old.limits) };

    ghost is_over = { λ shift. is_over shift.serving.now.control shift.serving.now.server };

    ghost finished = { λ old answer new. (did : Result Bool Fault)
        × VisitsEach (StopsAt W.noticed W.showed) old.serving.now.server old.watcher.now did new.serving.now.server
        new.watcher.now
        × (answer ≡ done did) };

    fn serve_all(&mut self, busy: bool) -> Result<bool, Fault> {
        let Serving { server, port, .. } = &mut *self.serving;
        port.poll(poll_timeout(busy), server.now())?;
        if self.serving.is_closed() {
            self.serving.server.turn(&mut NoListener, self.watcher)
        } else {
            let Serving { server, port, .. } = &mut *self.serving;
            server.turn(&mut port.arrivals, self.watcher)
        }
    }

    fn keep_time(&mut self, moved: bool) -> Result<bool, Fault> {
        self.uptime.take(Instant::now(self.rt).ok());
        let now = self.uptime.millis();
        self.serving
            .server
            .keep_time(now, moved, self.limits, self.watcher)
    }

    fn consult(&mut self) -> Result<bool, Fault> {
        let serving = &mut *self.serving;
        match &mut serving.application {
            Some(application) => {
                application.turn(self.rt, &mut serving.server, &serving.port, self.watcher)
            }
            None => Ok(false),
        }
    }

    fn obey(&mut self) -> Result<bool, Fault> {
        let now = self.uptime.millis();
        self.serving.obey(self.rt, self.options, now, self.watcher)
    }

    fn tell(&mut self) -> bool {
        let now = self.uptime.millis();
        let Serving { server, port, .. } = &*self.serving;
        self.watcher.after_turn(server, port, now)
    }

    fn is_over(&self) -> bool {
        match &self.serving.control {
            Some(Control { orders, drain, .. }) => orders.have_ended(*drain, &self.serving.server),
            None => false,
        }
    }

    fn finish(&mut self) -> Result<(), Fault> {
        match self.serving.server.stop_each(self.watcher) {
            Ok(_) => Ok(()),
            Err(fault) => Err(fault),
        }
    }
}

/// Warns if other machines can connect to an address.
fn warn_if_open<E: Sink>(address: SocketAddr, faults: &mut E) {
    if !address.ip().is_loopback() {
        let _ = faults.write_line(format_args!(
            "warning: other machines can connect to {address}, and nothing is encrypted"
        ));
    }
}

/// Opens the port of a service, and has it poll the control socket, too.
fn port_of(
    rt: &HostRuntime,
    options: ServeOptions<'_>,
    control: &mut Option<Control>,
) -> Result<ServerPort, Fault> {
    let mut port = ServerPort::listen(rt, rt.alloc(), options.address())?;
    if let Some(control) = control {
        control.socket.register(&port);
    }
    if options.service.proxy_protocol {
        port.expect_headers();
    }
    Ok(port)
}

/// Opens the service's port for a host that no client has connected to yet.
fn serving_of(
    rt: &HostRuntime,
    options: ServeOptions<'_>,
    application: Option<Application>,
    mut control: Option<Control>,
    host: Host,
) -> Result<Serving, Fault> {
    let server = server_with_names(rt, host)?;
    let port = port_of(rt, options, &mut control)?;
    Ok(Serving {
        server,
        port,
        application,
        control,
    })
}

/// Prints why a panel text with this fault is refused, and returns the exit status. Prints all that `check` prints;
/// prints only this fault if `check` finds none, as in a text with a script after a line `%%`, or if memory is refused.
fn refuse_panels<E: Sink>(
    alloc: Global,
    name: &str,
    text: &str,
    fault: Fault,
    faults: &mut E,
) -> u8 {
    match findings_in(alloc, name, text) {
        Ok(Some(page)) => {
            let _ = faults.write_all(page.as_bytes());
            fault.status()
        }
        Ok(None) | Err(_) => report_and_exit_code(fault, faults),
    }
}

/// The exit status if panels ask an application and there is none, which is printed.
fn refuse_unanswered<E: Sink>(
    options: ServeOptions<'_>,
    panels: &PanelSet,
    faults: &mut E,
) -> Option<u8> {
    match first_asked(panels) {
        Some((panel, key)) if !options.has_application() => Some(refuse_asking(
            panel,
            key,
            JobWithoutApplication::Serve,
            faults,
        )),
        _ => None,
    }
}

/// The host of the panels of a text. Prints why they are refused; Err is then the exit status.
fn host_of_text<E: Sink>(
    alloc: Global,
    options: ServeOptions<'_>,
    text: &str,
    faults: &mut E,
) -> Result<Host, u8> {
    match host_of(alloc, options.service.terminals, text) {
        Ok(host) => match refuse_unanswered(options, host.panels(), faults) {
            Some(status) => Err(status),
            None => Ok(host),
        },
        Err(Fault::NoMemory) => Err(report_and_exit_code(Fault::NoMemory, faults)),
        Err(fault) => {
            let name = options.file.unwrap_or(STANDARD_INPUT);
            Err(refuse_panels(alloc, name, text, fault, faults))
        }
    }
}

/// The host of the panels of the input. Prints why there is none; Err is then the exit status.
fn host_of_input<I: Source, E: Sink>(
    alloc: Global,
    options: ServeOptions<'_>,
    input: &mut I,
    faults: &mut E,
) -> Result<Host, u8> {
    match read_whole(alloc, input) {
        Ok(text) => host_of_text(alloc, options, text.as_str(), faults),
        Err(fault) => Err(report_and_exit_code(fault, faults)),
    }
}

/// Serves a host, with a log on `faults`. Returns the fault that ended that; Ok if operators did.
fn serve<E: Sink>(
    rt: &HostRuntime,
    options: ServeOptions<'_>,
    application: Option<Application>,
    control: Option<Control>,
    host: Host,
    version: &'static str,
    faults: &mut E,
) -> Result<(), Fault> {
    warn_if_open(options.address(), faults);
    let mut serving = serving_of(rt, options, application, control, host)?;
    let mut log = Log::new(rt, options.service.quiet, faults)?;
    let ended = serving.serve_logged(rt, options, version, &mut log);
    log.finish();
    ended
}

/// Serves a host, and makes the control socket for that time, if one is chosen. Returns the exit status.
fn serve_commanded<E: Sink>(
    rt: &HostRuntime,
    options: ServeOptions<'_>,
    application: Option<Application>,
    host: Host,
    version: &'static str,
    faults: &mut E,
) -> u8 {
    let control = match control_of(rt, options.control, faults) {
        Ok(control) => control,
        Err(status) => return status,
    };
    let ended = serve(rt, options, application, control, host, version, faults);
    if let Some(socket) = &options.control.socket {
        let _ = fs::remove_file(rt, socket.as_str());
    }
    match ended {
        Ok(()) => 0,
        Err(fault) => report_and_exit_code(fault, faults),
    }
}

/// Serves the panels of the input at the service's address and port, with its time limits, and with a log on `faults`
/// unless the service is quiet. If other machines can reach the address, `faults` first gets a warning. The log says
/// when the server listens. For each connection it says when it begins, when it is refused an LU or bound to one, when
/// a key is dropped, and when and why it ends. If the service has a metrics port, that port of 127.0.0.1 serves the
/// counts, with this version of the program.
///
/// If an application is chosen, it is asked about the keys that panels ask about. The log says if it fails to answer.
///
/// If the input has faults as a panel text, prints all of them to `faults`, as `check` does.
///
/// If a control socket is chosen, operators command the service there (see crate `service_wire`). `reload` reads the file
/// again. The socket is removed when the service ends. The log has each command.
///
/// Returns the exit status: 0 if operators ended the service; 1 if the input can't be read (as by [`read_whole`]), if
/// it defines no panels, or if their LUs are no pool; 2 if the application's URL is invalid, or if no application is
/// chosen and a panel asks about a key; 3 if memory is refused; 4 if the system can't give random bytes, make the
/// control socket, listen, or wait for sockets; 5 after 2^64 - 1 turns.
pub fn run_serve<I: Source, E: Sink>(
    rt: &HostRuntime,
    options: ServeOptions<'_>,
    version: &'static str,
    input: &mut I,
    faults: &mut E,
) -> u8 {
    let application = match application_of(rt.alloc(), options.application) {
        Ok(application) => application,
        Err(fault) => return report_and_exit_code(fault, faults),
    };
    match host_of_input(rt.alloc(), options, input, faults) {
        Ok(host) => serve_commanded(rt, options, application, host, version, faults),
        Err(status) => status,
    }
}
