//! The job `tell`: sends a command to a running service over its control socket, and prints the answer.
//!
//! Crate `service_wire` has the lines of commands and answers; `control_socket` is the other end. No contract says
//! what goes over the socket.
use jobs::{
    CHUNK, CommandWords, CountedReader, CountedWriter, Fault, Operand, Sink, Source, read_chunk,
    report_and_exit_code,
};
use service_wire::{ANSWER_LIMIT, Answer, Command, LineBuffer, LineFault, Status};
use std::alloc::{AllocError, Global};
use std::io::{self, ErrorKind};
use std::os::unix::net::UnixStream;
use std::time::Duration;
use thiserror::Error;

/// How long a read or a write of the socket may take, in seconds.
const PATIENCE: u64 = 10;

/// Why there is no answer.
#[derive(Debug, Drop, Error)]
enum NoAnswer {
    /// Memory was refused.
    #[error("no memory")]
    Memory,
    /// The words are no command, for this reason.
    #[error("{0}")]
    NoCommand(LineFault),
    /// The socket can't be connected to, with an error of this kind.
    #[error("{reason}", reason = connect_reason(*.0))]
    CannotConnect(ErrorKind),
    /// The connection ended before the answer's end, or the service took too long.
    #[error("the service gave no answer")]
    NotReceived,
    /// The answer is invalid, for this reason.
    #[error("{0}")]
    Invalid(#[from] LineFault),
}

impl NoAnswer {
    /// The exit status of the program.
    fn status(&self) -> u8 {
        match self {
            NoAnswer::NoCommand(_) => 2,
            NoAnswer::Memory => 3,
            NoAnswer::CannotConnect(_) | NoAnswer::NotReceived | NoAnswer::Invalid(_) => 4,
        }
    }
}

impl From<AllocError> for NoAnswer {
    fn from(_: AllocError) -> NoAnswer {
        NoAnswer::Memory
    }
}

/// Why connecting failed, in words.
fn connect_reason(kind: ErrorKind) -> &'static str {
    match kind {
        ErrorKind::NotFound => "no such file",
        ErrorKind::PermissionDenied => "permission denied",
        ErrorKind::ConnectionRefused => "no service listens there",
        _ => "can't be connected to",
    }
}

/// Adds a blank and a word to a line, if there is a word.
fn add_word(line: &mut String, word: &Option<Operand<'_>>) -> Result<(), AllocError> {
    match word {
        Some(word) => write!(line, " {}", word.as_str()),
        None => Ok(()),
    }
}

/// The command of the words.
fn command_of(alloc: Global, words: &CommandWords<'_>) -> Result<Command, NoAnswer> {
    let mut line = String::new(alloc);
    line.push_str(words.name.as_str())?;
    add_word(&mut line, &words.first)?;
    add_word(&mut line, &words.second)?;
    match Command::read(line.as_str()) {
        Ok(command) => Ok(command),
        Err(fault) => Err(NoAnswer::NoCommand(fault)),
    }
}

/// A connection to a socket, with time limits.
fn connect(rt: &HostRuntime, socket: &str) -> io::Result<UnixStream> {
    let stream = UnixStream::connect(rt, socket)?;
    let patience = Some(Duration::from_secs(PATIENCE));
    stream.set_read_timeout(patience)?;
    stream.set_write_timeout(patience)?;
    Ok(stream)
}

/// Reads until the answer's line is complete, or is invalid.
fn receive<D: Source>(down: &mut D, line: &mut LineBuffer) -> Result<(), NoAnswer> {
    let mut chunk = [0; CHUNK];
    // Each read but the last gives a byte.
    for _ in 0..ANSWER_LIMIT {
        match read_chunk(down, &mut chunk) {
            jobs::Answer::Gave(count) => line.push(&chunk[..count]),
            jobs::Answer::Interrupted => {}
            jobs::Answer::Ended | jobs::Answer::Failed => {
                return Err(NoAnswer::NotReceived);
            }
        }
        if !matches!(line.line(), Ok(None)) {
            return Ok(());
        }
    }
    Err(NoAnswer::NotReceived)
}

/// Sends the command, and receives the line of the answer.
fn exchange(
    rt: &HostRuntime,
    socket: &str,
    words: &CommandWords<'_>,
) -> Result<LineBuffer, NoAnswer> {
    let command = command_of(rt.alloc(), words)?;
    let mut line = LineBuffer::new(rt.alloc(), ANSWER_LIMIT)?;
    let stream = match connect(rt, socket) {
        Ok(stream) => stream,
        Err(error) => return Err(NoAnswer::CannotConnect(error.kind())),
    };
    if CountedWriter::new(&stream).write_line(&command).is_err() {
        return Err(NoAnswer::NotReceived);
    }
    receive(&mut CountedReader::new(&stream), &mut line)?;
    Ok(line)
}

/// Prints the answer of a line, and returns the exit status.
fn print_answer<O: Sink, E: Sink>(
    line: &LineBuffer,
    out: &mut O,
    faults: &mut E,
) -> Result<u8, NoAnswer> {
    let answer = Answer::read(line.line()?.unwrap_or(""))?;
    if out.write_line(answer).is_err() {
        return Ok(report_and_exit_code(Fault::OutputFailed, faults));
    }
    Ok(match answer.status {
        Status::Done => 0,
        Status::Failed => 1,
    })
}

/// Sends the command of these words to the service that has this control socket, and prints its answer as one line. A
/// fault is written to `faults` as one line.
///
/// Returns the exit status: 0 if the service did it; 1 if it didn't; 2 if the words are no command, and then nothing is
/// sent; 3 if memory is refused; 4 if the socket can't be connected to, or if a valid answer isn't received in 10
/// seconds; 6 if the output fails.
pub fn run_tell<O: Sink, E: Sink>(
    rt: &HostRuntime,
    socket: &Operand<'_>,
    words: &CommandWords<'_>,
    out: &mut O,
    faults: &mut E,
) -> u8 {
    let socket = socket.as_str();
    let answered = match exchange(rt, socket, words) {
        Ok(line) => print_answer(&line, out, faults),
        Err(why) => Err(why),
    };
    match answered {
        Ok(status) => status,
        Err(NoAnswer::NoCommand(fault)) => {
            let _ = faults.write_line(fault);
            2
        }
        Err(why) => {
            let status = why.status();
            let _ = faults.write_line(format_args!("{socket}: {why}"));
            status
        }
    }
}
