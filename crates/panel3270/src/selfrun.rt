//! `selfrun`: plays a script with a server and terminals in one process, over loopback sockets, by turns.
use crate::socket_terminal::SocketTerminal;
use applications::{answer_in, put_question, question_on, ticket_on};
use host_core::{Acted, Answer, MOST_CONNECTIONS};
use jobs::{Fault, Sink, Source, Turns, poll_timeout, read_whole, report_and_exit_code};
use keyboard::Key;
use mio::net::TcpStream;
use scripts::{
    MODELS, ScriptCommand, command_in_range, parted, put_answer, put_display, put_phase, typed_text,
};
use server::{Server, ServerPort, Unwatched};
use service::server_of;
use std::alloc::{AllocError, Global};
use tn3270e_msg::Lu;
use world3270::{Event, Stepped};

/// A server and its port, the terminals of a script, and the number of turns that are left.
#[derive(Drop)]
struct LoopbackRun {
    server: Server<TcpStream>,
    port: ServerPort,
    terminals: Vec<SocketTerminal>,
    turns: u32,
}

/// A terminal of each model of [`MODELS`], without a connection.
fn idle_terminals(alloc: Global) -> Result<Vec<SocketTerminal>, AllocError> {
    let mut terminals = Vec::with_capacity(alloc, MODELS.len())?;
    for model in &MODELS {
        terminals.push(SocketTerminal::new(alloc, *model)?)?;
    }
    Ok(terminals)
}

impl LoopbackRun {
    /// A server of the panels of a text, on any free port, and idle terminals.
    fn new(rt: &HostRuntime, panels: &str, turns: Turns) -> Result<LoopbackRun, Fault> {
        let (server, port) = server_of(rt, panels, 0)?;
        Ok(LoopbackRun {
            server,
            port,
            terminals: idle_terminals(rt.alloc())?,
            turns: turns.get(),
        })
    }

    /// One turn of the server, and one of each terminal. Answers whether a byte was read or written, or the host acted.
    fn turn(&mut self) -> Result<bool, Fault> {
        self.port.poll(poll_timeout(false), self.server.now())?;
        let mut moved = self.server.turn(&mut self.port.arrivals, &mut Unwatched)?;
        for terminal in &mut self.terminals {
            moved |= terminal.turn()?;
        }
        Ok(moved)
    }

    /// Takes turns until one in which nothing is done. TurnsOver if no turns are left.
    fn run_until_idle(&mut self) -> Result<(), Fault> {
        for _ in 0..self.turns {
            self.turns = self.turns.saturating_sub(1);
            if !self.turn()? {
                return Ok(());
            }
        }
        Err(Fault::TurnsOver)
    }

    /// Connects an idle terminal, which requests this LU, if one is given.
    fn connect(
        &mut self,
        rt: &HostRuntime,
        terminal: usize,
        wanted: Option<Lu>,
    ) -> Result<Stepped, Fault> {
        if terminal >= self.terminals.len() || !self.terminals[terminal].is_idle() {
            return Ok(Stepped::Skipped);
        }
        let Ok(address) = self.port.address() else {
            return Err(Fault::SocketFailed);
        };
        let Ok(mut socket) = TcpStream::connect(rt, address) else {
            return Err(Fault::SocketFailed);
        };
        // As in the server: if one of these calls fails, the socket is used anyway.
        let _ = socket.set_nodelay(true);
        let _ = self
            .port
            .register(&mut socket, MOST_CONNECTIONS.saturating_add(terminal));
        self.terminals[terminal].connect(socket, wanted);
        Ok(Stepped::Done)
    }

    /// Presses a key at a terminal.
    fn press(&mut self, terminal: usize, key: Key) -> Result<Stepped, Fault> {
        match self.terminals.get_mut(terminal) {
            Some(at) => at.press(key),
            None => Ok(Stepped::Skipped),
        }
    }

    /// Types the characters of a text at a terminal, up to the first that is refused.
    fn type_text(&mut self, terminal: usize, typed: &str, text: &mut String) -> Result<(), Fault> {
        for letter in typed.chars() {
            let answer = self.press(terminal, Key::Char(letter))?;
            put_answer(text, answer)?;
            if let Stepped::Refused(_) = answer {
                return Ok(());
            }
        }
        Ok(())
    }

    /// Closes the socket of the terminal on a connection. The server accepts waiting connections first, so that each
    /// has its number.
    fn lose(&mut self, conn: usize) -> Result<Stepped, Fault> {
        self.server
            .accept_all(&mut self.port.arrivals, &mut Unwatched)?;
        if conn >= MOST_CONNECTIONS {
            return Ok(Stepped::Skipped);
        }
        let Some(row) = self.server.session_row(conn) else {
            return Ok(Stepped::Skipped);
        };
        for terminal in &mut self.terminals {
            if terminal.is_at(row.peer) {
                terminal.disconnect();
                return Ok(Stepped::Done);
            }
        }
        Ok(Stepped::Skipped)
    }

    /// Takes an event, unless it is skipped, and adds the answer. False if scripts over sockets don't have this event:
    /// there the sockets deliver bytes and losses.
    fn happen(
        &mut self,
        rt: &HostRuntime,
        event: &Event,
        text: &mut String,
    ) -> Result<bool, Fault> {
        let stepped = match event {
            Event::Connect(terminal, wanted) => self.connect(rt, *terminal, *wanted)?,
            Event::Key(terminal, key) => self.press(*terminal, *key)?,
            Event::Lose(conn) => self.lose(*conn)?,
            _ => return Ok(false),
        };
        put_answer(text, stepped)?;
        Ok(true)
    }

    /// Hands the host an answer to the open question of a connection.
    fn answer(&mut self, conn: usize, answer: &Answer) -> Result<Stepped, Fault> {
        if conn >= MOST_CONNECTIONS {
            return Ok(Stepped::Skipped);
        }
        let ticket = ticket_on(self.server.host(), conn)?;
        match self.server.answer(conn, ticket, answer, &mut Unwatched)? {
            Acted::Sent => Ok(Stepped::Done),
            Acted::Nothing => Ok(Stepped::Skipped),
            Acted::Memory => Err(Fault::NoMemory),
        }
    }

    /// Answers the open question of a connection as a line says, and adds the outcome. False if the line is invalid.
    fn answer_by_line(
        &mut self,
        alloc: Global,
        conn: usize,
        line: &str,
        text: &mut String,
    ) -> Result<bool, Fault> {
        let Some(answer) = answer_in(alloc, self.server.host().panels(), typed_text(line))? else {
            return Ok(false);
        };
        put_answer(text, self.answer(conn, &answer)?)?;
        Ok(true)
    }

    /// Executes a command, and adds its output. False if its line is invalid, or if scripts over sockets don't have
    /// this command.
    fn play_line(
        &mut self,
        rt: &HostRuntime,
        command: &ScriptCommand,
        line: &str,
        text: &mut String,
    ) -> Result<bool, Fault> {
        match command {
            ScriptCommand::Nothing => {}
            ScriptCommand::Happen(event) => return self.happen(rt, event, text),
            ScriptCommand::TypeText(terminal) => {
                self.type_text(*terminal, typed_text(line), text)?;
            }
            ScriptCommand::Answer(conn) => {
                return self.answer_by_line(rt.alloc(), *conn, line, text);
            }
            ScriptCommand::Settle => self.run_until_idle()?,
            ScriptCommand::Show(terminal) => {
                if let Some(at) = self.terminals.get(*terminal) {
                    put_display(rt.alloc(), &at.terminal, text)?;
                }
            }
            ScriptCommand::Status(terminal) => {
                if let Some(at) = self.terminals.get(*terminal) {
                    put_phase(&at.terminal, text)?;
                }
            }
            ScriptCommand::Question(conn) => {
                let host = self.server.host();
                let question = question_on(host, *conn)?;
                put_question(rt.alloc(), text, host.panels(), &question)?;
            }
        }
        Ok(true)
    }

    /// Executes the commands of a script, one in each line, and adds their output.
    fn play(&mut self, rt: &HostRuntime, script: &str, text: &mut String) -> Result<(), Fault> {
        for (index, line) in script.split_terminator('\n').enumerate() {
            let understood = match command_in_range(line) {
                Some(command) => self.play_line(rt, &command, line, text)?,
                None => false,
            };
            if !understood {
                return Err(Fault::NotUnderstood(index + 1));
            }
        }
        Ok(())
    }
}

/// Plays a script, and writes its output, even if it ends early. Writes nothing if memory is refused.
fn play_and_write<O: Sink>(
    rt: &HostRuntime,
    run: &mut LoopbackRun,
    script: &str,
    out: &mut O,
) -> Result<(), Fault> {
    let mut text = String::new(rt.alloc());
    let ending = run.play(rt, script, &mut text);
    if let Err(Fault::NoMemory) = ending {
        return ending;
    }
    if out.write_all(text.as_bytes()).is_err() {
        return Err(Fault::OutputFailed);
    }
    ending
}

/// Plays the script of the input, with a server on any free port of 127.0.0.1.
fn selfrun<I: Source, O: Sink>(
    rt: &HostRuntime,
    turns: Turns,
    input: &mut I,
    out: &mut O,
) -> Result<(), Fault> {
    let input = read_whole(rt.alloc(), input)?;
    let (panels, script) = parted(input.as_str());
    let mut run = LoopbackRun::new(rt, panels, turns)?;
    play_and_write(rt, &mut run, script, out)
}

/// Plays a script like [`run_script`](scripts::run_script), but with loopback sockets between the host and the
/// terminals. The script may have the commands `connect`, `type`, `key`, `lose`, `answer`, `question`, `settle`, `show`
/// and `status`. `lose` closes the terminal's socket, which the host notices in a later turn. `settle` takes turns
/// until one in which no byte is read or written and the host doesn't act; a turn is one turn of the host, and one read
/// and one write of each terminal. A fault that ends the run is written to `faults` as one line.
///
/// Returns the exit status: 0 if the whole page was printed; 1, 3 and 6 as `script` does; 4 if the system can't open or
/// connect a socket; 5 if no turns are left, after the output so far.
pub fn run_selfrun<I: Source, O: Sink, E: Sink>(
    rt: &HostRuntime,
    turns: Turns,
    input: &mut I,
    out: &mut O,
    faults: &mut E,
) -> u8 {
    match selfrun(rt, turns, input, out) {
        Ok(()) => 0,
        Err(fault) => report_and_exit_code(fault, faults),
    }
}
