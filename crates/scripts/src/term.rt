//! `term`: runs a terminal at a host, and executes the commands of a script there.
ghost use Rattle.std.specs.Prelude.{◌≡◌, ◌++◌, ℕ, List, OnOk, string_bytes};
ghost use Rattle.scripts.specs.DoneLines.{DoesLine};

use crate::operator::{press, put_display, put_phase, type_text, wait};
use crate::term_line::TerminalCommand;
use codes3270::Model;
use jobs::{
    CountedReader, CountedWriter, Fault, Port, Sink, Source, behind, read_whole,
    report_and_exit_code,
};
use std::alloc::{AllocError, Global};
use std::net::{Ipv4Addr, TcpStream};
use term_core::Terminal;
use tn3270e_msg::Lu;

/// The two streams of a connection to a host.
#[derive(Drop)]
struct Wire<D, U> {
    down: D,
    up: U,
}

/// Executes a command, and adds its output.
fn do_line<D: Source, U: Sink>(
    alloc: Global,
    terminal: &mut Terminal,
    wire: &mut Wire<D, U>,
    command: TerminalCommand,
    line: &str,
    text: &mut String,
) -> Result<(), AllocError>
    ensures { OnOk result ((said : List ℕ)
        × DoesLine D.gave command line.now terminal.old.terminal terminal.new.terminal wire.old.down wire.new.down
        (U.seen wire.old.up) (U.seen wire.new.up) said
        × (string_bytes text.new ≡ string_bytes text.old ++ said)) }
{
    match command {
        TerminalCommand::Nothing => Ok(()),
        TerminalCommand::TypeText => type_text(terminal, behind(line), text),
        TerminalCommand::Press(key) => press(terminal, key, text),
        TerminalCommand::Wait => wait(terminal, &mut wire.down, &mut wire.up),
        TerminalCommand::Show => put_display(alloc, terminal, text),
        TerminalCommand::Status => put_phase(terminal, text),
    }
}

/// Executes the commands of a script, one in each line, and prints the output of each before the next.
fn do_lines<D: Source, U: Sink, O: Sink>(
    alloc: Global,
    script: &str,
    terminal: &mut Terminal,
    wire: &mut Wire<D, U>,
    out: &mut O,
) -> Result<(), Fault> {
    let mut text = String::new(alloc);
    for (index, line) in script.split_terminator('\n').enumerate() {
        let Some(command) = TerminalCommand::read(line) else {
            return Err(Fault::NotUnderstood(index + 1));
        };
        do_line(alloc, terminal, wire, command, line, &mut text)?;
        if out.write_all(text.as_bytes()).is_err() {
            return Err(Fault::OutputFailed);
        }
        text.clear();
    }
    Ok(())
}

/// Reads the script, connects to the host, and executes the commands.
fn term<I: Source, O: Sink>(
    rt: &HostRuntime,
    port: Port,
    model: Model,
    lu: Option<Lu>,
    input: &mut I,
    out: &mut O,
) -> Result<(), Fault> {
    let script = read_whole(rt.alloc(), input)?;
    let Ok(stream) = TcpStream::connect(rt, (Ipv4Addr::LOCALHOST, port.get())) else {
        return Err(Fault::SocketFailed);
    };
    let mut wire = Wire {
        down: CountedReader::new(&stream),
        up: CountedWriter::new(&stream),
    };
    let mut terminal = Terminal::new(rt.alloc(), model)?;
    terminal.connected(lu);
    do_lines(rt.alloc(), script.as_str(), &mut terminal, &mut wire, out)
}

/// Connects a terminal of a model to the host on a port of 127.0.0.1, and executes the commands of the input there, one
/// in each line: presses keys, waits for the host, and prints what the operator sees. The terminal requests this LU, if
/// one is given. A fault that ends the run is written to `faults` as one line.
///
/// Returns the exit status: 0 if all lines were executed, whatever the host did; 1 if the input can't be read (as by
/// [`read_whole`]), or if a line is invalid, after the output of the lines before it; 3 if memory is refused; 4 if the
/// host can't be connected to; 6 if the output fails.
pub fn run_term<I: Source, O: Sink, E: Sink>(
    rt: &HostRuntime,
    port: Port,
    model: Model,
    lu: Option<Lu>,
    input: &mut I,
    out: &mut O,
    faults: &mut E,
) -> u8 {
    match term(rt, port, model, lu, input, out) {
        Ok(()) => 0,
        Err(fault) => report_and_exit_code(fault, faults),
    }
}
