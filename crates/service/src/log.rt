//! The log of a server.
use applications::{ApplicationFault, Replaced};
use host_core::Host;
use jiff::Timestamp;
use jobs::{Fault, Sink};
use mio::net::TcpStream;
use nonblocking_log::NonBlockingLog;
use server::{Server, ServerPort, Watcher};
use service_events::{Client, Notice};
use std::alloc::AllocError;
use std::fmt::Display;
use std::os::fd::RawFd;

/// The descriptor of the standard error stream, to which the log is written.
const STDERR: RawFd = 2;

/// Writes each notice as a line that begins with the time; a question and its answer have no line. NoMemory if memory is
/// refused. It never waits for the stream: a line is dropped if too many wait already.
#[derive(Drop)]
pub(crate) struct Log<'a, E> {
    rt: &'a HostRuntime,
    /// The lines; None if no line is written.
    lines: Option<NonBlockingLog<'a, E>>,
    /// How many dropped lines the log tells of.
    told: u64,
}

/// The capacity that is reserved for a line of the usual length, in bytes.
const LINE_ROOM: usize = 256;

/// Adds the start of an event's line: the time in UTC, in whole seconds (RFC 3339); `unknown` if the clock fails.
fn put_time(rt: &HostRuntime, line: &mut String) -> Result<(), AllocError> {
    match Timestamp::now(rt) {
        Ok(now) => write!(line, "time={now:.0} "),
        Err(_) => line.push_str("time=unknown "),
    }
}

impl<'a, E: Sink> Log<'a, E> {
    /// A log on standard error, which `faults` writes to; none if it is quiet.
    pub(crate) fn new(
        rt: &'a HostRuntime,
        quiet: bool,
        faults: &'a mut E,
    ) -> Result<Log<'a, E>, Fault> {
        let lines = if quiet {
            None
        } else {
            Some(NonBlockingLog::new(rt, rt.alloc(), STDERR, faults)?)
        };
        Ok(Log { rt, lines, told: 0 })
    }

    /// Writes the line of an event, which begins with the time if `is_timed` is set.
    fn put(&mut self, is_timed: bool, event: impl Display + Drop) -> Result<(), Fault> {
        let Some(lines) = &mut self.lines else {
            return Ok(());
        };
        let mut line = String::with_capacity(self.rt.alloc(), LINE_ROOM)?;
        if is_timed {
            put_time(self.rt, &mut line)?;
        }
        write!(line, "{event}\n")?;
        lines.put(line.as_bytes());
        Ok(())
    }

    /// Writes what waits, as far as the stream takes it; once it has all, a line says how many were dropped.
    fn catch_up(&mut self) {
        let Some(lines) = &mut self.lines else {
            return;
        };
        lines.flush();
        let dropped = lines.dropped();
        let new = dropped.saturating_sub(self.told);
        if new != 0 && lines.is_empty() && self.notice(&Notice::LogLinesDropped(new)).is_ok() {
            self.told = dropped;
        }
    }

    /// Writes what waits, before the run ends. It waits for the stream for a second at most.
    pub(crate) fn finish(&mut self) {
        if let Some(lines) = &mut self.lines {
            lines.finish();
        }
    }
}

impl<E: Sink> Watcher for Log<'_, E> {
    ghost noticed = { λ _ _ _ _. Unit {0} };

    ghost showed = { λ _ _ _ _ _. Unit {0} };

    ghost reported = { λ _ _ _ _ _. Unit {0} };

    ghost noted = { λ _ _ _ _ _. Unit {0} };

    ghost ended_turn = { λ _ _ _ _ _. Unit {0} };

    fn notice(&mut self, notice: &Notice) -> Result<(), Fault> {
        match notice {
            Notice::Asked | Notice::Answered(_) => Ok(()),
            Notice::Listening(_) => self.put(false, format_args!("{notice}")),
            _ => self.put(true, format_args!("{notice}")),
        }
    }

    fn unanswered(&mut self, client: &Client, fault: &ApplicationFault) -> Result<(), Fault> {
        self.put(true, format_args!("{client} {fault}"))
    }

    fn replaced(&mut self, client: &Client, replaced: &Replaced<'_>) -> Result<(), Fault> {
        self.put(true, format_args!("{client} {replaced}"))
    }

    fn shown(&mut self, _host: &Host, _conn: usize) -> Result<(), Fault> {
        Ok(())
    }

    fn after_turn(&mut self, _server: &Server<TcpStream>, _port: &ServerPort, _now: u64) -> bool {
        self.catch_up();
        false
    }

    fn lines_dropped(&self) -> u64 {
        match &self.lines {
            Some(lines) => lines.dropped(),
            None => 0,
        }
    }
}
