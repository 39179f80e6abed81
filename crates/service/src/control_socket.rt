//! The control socket of a service: a Unix socket at which operators command it.
use crate::clients::{Clients, MOST_ACCEPTED, Request, Responder};
use crate::options::ServeOptions;
use crate::reload::{Refusal, host_again};
use host_core::{Host, MOST_CONNECTIONS};
use jobs::Fault;
use mio::net::{TcpStream, UnixListener, UnixStream};
use server::{Orders, Server, ServerPort, Watcher};
use service_events::{Commanded, Notice, PanelCounts};
use service_wire::{Answer, COMMAND_LIMIT, Command, LineBuffer, LineFault, Recipient, Status};
use std::alloc::{AllocError, Global};
use std::fmt::Display;
use std::fs::{self, Permissions};
use std::io::{self, ErrorKind};
use std::os::unix::fs::{FileTypeExt, PermissionsExt};

/// The poll token of the socket and of its clients.
const TOKEN: usize = MOST_CONNECTIONS + 4;

/// The mode of the socket's file: only its owner may connect.
const MODE: u32 = 0o600;

/// The socket, and its clients.
pub(crate) type ControlSocket = Clients<UnixStream, LineBuffer>;

impl Request for LineBuffer {
    fn begin(alloc: Global) -> Result<LineBuffer, AllocError> {
        LineBuffer::new(alloc, COMMAND_LIMIT)
    }
}

/// A service that operators command.
#[derive(Drop)]
pub(crate) struct Commanding<'a, W> {
    pub(crate) rt: &'a HostRuntime,
    pub(crate) options: ServeOptions<'a>,
    pub(crate) orders: &'a mut Orders,
    pub(crate) server: &'a mut Server<TcpStream>,
    pub(crate) port: &'a mut ServerPort,
    pub(crate) watcher: &'a mut W,
}

/// What the log says of a command.
fn commanded(command: &Command, done: bool) -> Commanded {
    let (name, lu) = match command {
        Command::Reload => ("reload", None),
        Command::Drain { .. } => ("drain", None),
        Command::Note {
            to: Recipient::Only(lu),
            ..
        } => ("note", Some(*lu)),
        Command::Note { .. } => ("note", None),
        Command::Sessions => ("sessions", None),
        Command::Stop => ("stop", None),
    };
    Commanded { name, lu, done }
}

/// The text of the answer to a command, but for those that tell more.
fn text_of(command: &Command, done: bool) -> &'static str {
    match command {
        Command::Note {
            to: Recipient::Only(_),
            ..
        } if !done => "no session has this LU",
        Command::Note { .. } if !done => "there is no session",
        Command::Note { .. } => "shown, or as soon as the operator may type",
        Command::Drain { .. } => "draining",
        Command::Stop => "stopping",
        Command::Reload | Command::Sessions => "",
    }
}

/// The line of an answer.
fn line_of(alloc: Global, done: bool, text: impl Display + Drop) -> Result<String, AllocError> {
    let text = format!(in alloc; "{text}")?;
    let status = if done { Status::Done } else { Status::Failed };
    let answer = Answer::new(status, text.as_str());
    format!(in alloc; "{answer}\n")
}

/// The sessions, as one line.
fn sessions_of(alloc: Global, server: &Server<TcpStream>) -> Result<String, AllocError> {
    let mut rows = String::new(alloc);
    let mut count: usize = 0;
    for conn in 0..MOST_CONNECTIONS {
        let Some(row) = server.session_row(conn) else {
            continue;
        };
        let separator = if count == 0 { ": " } else { ", " };
        count += 1;
        let (peer, seconds) = (row.peer, row.seconds);
        match row.lu {
            Some(lu) => write!(rows, "{separator}{lu} {peer} {seconds} s")?,
            None => write!(rows, "{separator}- {peer} {seconds} s")?,
        }
    }
    format!(in alloc; "sessions={count}{rows}")
}

impl<W: Watcher> Commanding<'_, W> {
    /// Serves new sessions by a host, and reports that. Returns how much its panels define.
    fn serve_by(&mut self, host: Host) -> Result<Result<PanelCounts, Refusal>, Fault> {
        let counts = PanelCounts {
            panels: host.panels().len(),
            lus: host.panels().lus().len(),
        };
        if let Err(fault) = self.server.reload(host, self.watcher)? {
            return Ok(Err(fault.into()));
        }
        self.watcher.notice(&Notice::Reloaded(counts))?;
        Ok(Ok(counts))
    }

    /// Reads the panels again. Returns the line of the answer.
    fn reload(&mut self) -> Result<String, Fault> {
        let outcome = match host_again(self.rt, self.options) {
            Ok(host) => self.serve_by(host)?,
            Err(refusal) => Err(refusal),
        };
        let notice = Notice::Commanded(commanded(&Command::Reload, outcome.is_ok()));
        self.watcher.notice(&notice)?;
        Ok(match outcome {
            Ok(counts) => line_of(self.rt.alloc(), true, format_args!("reloaded: {counts}"))?,
            Err(refusal) => line_of(self.rt.alloc(), false, refusal)?,
        })
    }

    /// Does a command. Returns the line of the answer. NoMemory if memory is refused; any fault of the watcher is
    /// returned.
    fn obey(&mut self, command: &Command) -> Result<String, Fault> {
        if let Command::Reload = command {
            return self.reload();
        }
        let done = self.orders.take(command, self.server);
        if let Command::Drain { .. } = command {
            self.port.close();
        }
        let notice = Notice::Commanded(commanded(command, done));
        self.watcher.notice(&notice)?;
        Ok(match command {
            Command::Sessions => {
                let text = sessions_of(self.rt.alloc(), self.server)?;
                line_of(self.rt.alloc(), done, text.as_str())?
            }
            _ => line_of(self.rt.alloc(), done, text_of(command, done))?,
        })
    }

    /// Refuses a line that is no command. Returns the line of the answer.
    fn refuse(&mut self, why: LineFault) -> Result<String, Fault> {
        let notice = Notice::Commanded(Commanded {
            name: "unknown",
            lu: None,
            done: false,
        });
        self.watcher.notice(&notice)?;
        Ok(line_of(self.rt.alloc(), false, why)?)
    }
}

impl<W: Watcher> Responder<LineBuffer> for Commanding<'_, W> {
    fn answer(&mut self, line: &mut LineBuffer, bytes: &[u8]) -> Result<Option<String>, Fault> {
        line.push(bytes);
        let command = match line.line() {
            Ok(Some(text)) => Command::read(text),
            Ok(None) => return Ok(None),
            Err(why) => Err(why),
        };
        Ok(Some(match command {
            Ok(command) => self.obey(&command)?,
            Err(why) => self.refuse(why)?,
        }))
    }
}

/// Removes a socket at which no service listens any more, as one that was killed leaves it.
fn remove_stale(rt: &HostRuntime, name: &str) {
    let is_socket = match fs::symlink_metadata(rt, name) {
        Ok(metadata) => metadata.file_type().is_socket(),
        Err(_) => false,
    };
    if !is_socket {
        return;
    }
    match UnixStream::connect(rt, name) {
        Err(error) if error.kind() == ErrorKind::ConnectionRefused => {
            let _ = fs::remove_file(rt, name);
        }
        _ => {}
    }
}

/// Makes the socket with this file name, which only the owner can connect to, and listens there. Whoever connected
/// before the file had its mode is dropped. An error of the system's kind if that fails.
pub(crate) fn listen(rt: &HostRuntime, name: &str) -> io::Result<ControlSocket> {
    remove_stale(rt, name);
    let listener = UnixListener::bind(rt, name)?;
    fs::set_permissions(rt, name, Permissions::from_mode(MODE))?;
    for _ in 0..MOST_ACCEPTED {
        if listener.accept().is_err() {
            break;
        }
    }
    Ok(Clients::new(rt.alloc(), listener, TOKEN))
}
