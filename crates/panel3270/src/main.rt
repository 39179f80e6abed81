//! The program panel3270: TN3270E hosts, terminals and 3270 screens on the command line. It hands the arguments, the
//! standard streams and files to other crates: `cli` parses the arguments and has the help; `scripts`, `service`,
//! `operate` and `web` run the jobs, but for `selfrun`, which takes turns of a server and of terminals.
#![tactic(auto)]

mod selfrun;
mod socket_terminal;

use crate::selfrun::run_selfrun;
use cli::{Refusal, VERSION, WordFault, refuse_words, run_help, run_version, words};
use jobs::{
    CountedReader, CountedWriter, Fault, Job, Operand, OperateOptions, Sink, UntilClosed,
    WebOptions, read_whole, refuse_file, refuse_keymap, report_and_exit_code,
};
use operate::run_operate;
use scripts::{run_check, run_script_with, run_show, run_term};
use service::{ServeOptions, open_panels, run_host, run_serve, run_tell};
use std::env;
use std::fs::{File, OpenOptions};
use std::io::{self, ErrorKind, IsTerminal, Stdout};
use std::os::fd::{AsRawFd, IntoRawFd, RawFd};
use std::process::ExitCode;
use tty::{Keymap, KeymapFault};
use web::run_web;

/// The name of the standard input in reports.
const STANDARD_INPUT: &str = "standard input";

/// The message of `serve` if the panels are read from a tty, so that an operator has to type them.
const WAITS_FOR_PANELS: &str =
    "reading panels from standard input; end with Ctrl-D, or give --panels FILE";

/// The number of the last standard stream, that of errors.
const LAST_STREAM: RawFd = 2;

/// Opens `/dev/null` for each standard stream that is closed. Otherwise the next socket or file would take its number,
/// and be read or written in its place.
fn open_closed_streams(rt: &HostRuntime) {
    for _ in 0..=LAST_STREAM {
        let opened = OpenOptions::new()
            .read(true)
            .write(true)
            .open(rt, "/dev/null");
        match opened {
            // The system gives the lowest number that is free. It stays open.
            Ok(file) if file.as_raw_fd() <= LAST_STREAM => {
                let _ = file.into_raw_fd();
            }
            _ => return,
        }
    }
}

/// The arguments after the program's name.
fn given_words(rt: &HostRuntime) -> io::Result<Vec<String>> {
    Ok(env::args(rt)?.skip(1).collect(rt.alloc())?)
}

/// Prints why a file can't be opened, and returns the exit status.
fn end_without<E: Sink>(name: &str, why: ErrorKind, faults: &mut E) -> u8 {
    match why {
        ErrorKind::OutOfMemory => report_and_exit_code(Fault::NoMemory, faults),
        _ => refuse_file(name, why, faults),
    }
}

/// Serves the panels of a file, or of the standard input if none is given, and returns the exit status.
fn serve(rt: &HostRuntime, options: ServeOptions<'_>) -> u8 {
    let mut faults = CountedWriter::new(rt.stderr());
    let Some(name) = options.file else {
        let stdin = rt.stdin();
        if stdin.is_terminal() {
            let _ = faults.write_line(WAITS_FOR_PANELS);
        }
        let mut input = CountedReader::new(stdin);
        return run_serve(rt, options, VERSION, &mut input, &mut faults);
    };
    match open_panels(rt, name) {
        Ok(file) => {
            let mut input = CountedReader::new(file);
            run_serve(rt, options, VERSION, &mut input, &mut faults)
        }
        Err(error) => end_without(name, error.kind(), &mut faults),
    }
}

/// The standard output of a job whose reader may close it early, as `head -1` does.
fn open_ended(rt: &HostRuntime) -> CountedWriter<UntilClosed<Stdout>> {
    CountedWriter::new(UntilClosed::new(rt.stdout()))
}

/// Checks the panel text of a file, or of the standard input if none is given, and returns the exit status.
fn check(rt: &HostRuntime, file: &Option<Operand<'_>>) -> u8 {
    let alloc = rt.alloc();
    let mut out = open_ended(rt);
    let mut faults = CountedWriter::new(rt.stderr());
    let Some(file) = file else {
        let mut input = CountedReader::new(rt.stdin());
        return run_check(alloc, STANDARD_INPUT, &mut input, &mut out, &mut faults);
    };
    let name = file.as_str();
    match open_panels(rt, name) {
        Ok(opened) => {
            let mut input = CountedReader::new(opened);
            run_check(alloc, name, &mut input, &mut out, &mut faults)
        }
        Err(error) => end_without(name, error.kind(), &mut faults),
    }
}

/// The keymap of a file; each key does what is usual if none is given. Else the exit status: why it is no keymap is
/// printed.
fn keymap_of<E: Sink>(
    rt: &HostRuntime,
    file: &Option<Operand<'_>>,
    faults: &mut E,
) -> Result<Keymap, u8> {
    let alloc = rt.alloc();
    let Some(file) = file else {
        return Ok(Keymap::standard(alloc));
    };
    let name = file.as_str();
    let opened = match open_panels(rt, name) {
        Ok(opened) => opened,
        Err(error) => return Err(end_without(name, error.kind(), faults)),
    };
    let text = match read_whole(alloc, &mut CountedReader::new(opened)) {
        Ok(text) => text,
        Err(fault) => return Err(report_and_exit_code(fault, faults)),
    };
    match Keymap::read(alloc, &text) {
        Ok(keymap) => Ok(keymap),
        Err(KeymapFault::Memory) => Err(report_and_exit_code(Fault::NoMemory, faults)),
        Err(fault) => Err(refuse_keymap(name, &fault, faults)),
    }
}

/// The file to which screens are appended; None if none is given. Else the exit status: why it can't be opened is printed.
fn save_file<E: Sink>(
    rt: &HostRuntime,
    file: &Option<Operand<'_>>,
    faults: &mut E,
) -> Result<Option<CountedWriter<File>>, u8> {
    let Some(file) = file else {
        return Ok(None);
    };
    let name = file.as_str();
    match OpenOptions::new().append(true).create(true).open(rt, name) {
        Ok(opened) => Ok(Some(CountedWriter::new(opened))),
        Err(error) => Err(end_without(name, error.kind(), faults)),
    }
}

/// Runs a terminal for the operator at this tty, and returns the exit status.
fn operate(rt: &HostRuntime, options: &OperateOptions<'_>) -> u8 {
    let mut faults = CountedWriter::new(rt.stderr());
    let keymap = match keymap_of(rt, &options.keymap, &mut faults) {
        Ok(keymap) => keymap,
        Err(status) => return status,
    };
    let mut saves = match save_file(rt, &options.save, &mut faults) {
        Ok(saves) => saves,
        Err(status) => return status,
    };
    let (input, out) = (
        CountedReader::new(rt.stdin()),
        CountedWriter::new(rt.stdout()),
    );
    let alloc = rt.alloc();
    run_operate(
        rt,
        alloc,
        options,
        keymap,
        &mut saves,
        input,
        out,
        &mut faults,
    )
}

/// Serves a page that is a terminal, and returns the exit status.
fn web(rt: &HostRuntime, options: &WebOptions<'_>) -> u8 {
    let mut faults = CountedWriter::new(rt.stderr());
    match keymap_of(rt, &options.keymap, &mut faults) {
        Ok(keymap) => run_web(rt, rt.alloc(), options, &keymap, &mut faults),
        Err(status) => status,
    }
}

/// Runs a job, and returns the exit status.
fn do_job(rt: &HostRuntime, job: &Job<'_>) -> u8 {
    let alloc = rt.alloc();
    let mut input = CountedReader::new(rt.stdin());
    let mut out = CountedWriter::new(rt.stdout());
    let mut faults = CountedWriter::new(rt.stderr());
    match job {
        Job::Script { terminals } => {
            run_script_with(alloc, *terminals, &mut input, &mut out, &mut faults)
        }
        Job::Show { model } => run_show(alloc, *model, &mut input, &mut out, &mut faults),
        Job::Selfrun { turns } => run_selfrun(rt, *turns, &mut input, &mut out, &mut faults),
        Job::Check { file } => check(rt, file),
        Job::Host { port, turns } => run_host(rt, *port, *turns, &mut input, &mut faults),
        Job::Serve {
            service,
            panels,
            application,
            control,
        } => {
            let options = ServeOptions {
                service,
                application,
                control,
                file: panels.as_ref().map(Operand::as_str),
            };
            serve(rt, options)
        }
        Job::Tell { socket, command } => run_tell(rt, socket, command, &mut out, &mut faults),
        Job::Term { port, lu, model } => {
            run_term(rt, *port, *model, *lu, &mut input, &mut out, &mut faults)
        }
        Job::Operate(options) => operate(rt, options),
        Job::Web(options) => web(rt, options),
        Job::Help(topic) => run_help(*topic, &mut open_ended(rt), &mut faults),
        Job::Version => run_version(&mut open_ended(rt), &mut faults),
    }
}

/// The fault for arguments that can't be read.
fn unread(why: ErrorKind) -> WordFault<'static> {
    match why {
        ErrorKind::OutOfMemory => WordFault::Memory,
        _ => WordFault::Refused(Refusal::NotText),
    }
}

/// Runs the job that the arguments ask for, and returns the exit status.
fn run(rt: &HostRuntime, given: &[String]) -> u8 {
    match words(rt.alloc(), given) {
        Ok(job) => do_job(rt, &job),
        Err(fault) => refuse_words(fault, &mut CountedWriter::new(rt.stderr())),
    }
}

fn main(rt: HostRuntime) -> ExitCode {
    open_closed_streams(&rt);
    let status = match given_words(&rt) {
        Ok(given) => run(&rt, given.as_slice()),
        Err(error) => refuse_words(unread(error.kind()), &mut CountedWriter::new(rt.stderr())),
    };
    ExitCode::from(status)
}
