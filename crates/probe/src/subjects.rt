//! The subjects, each in its own file, and the loop that answers the lines of standard input.
mod belief;
mod cells;
mod codes;
mod commands;
mod host;
mod lines;
mod links;
mod messages;
mod panel;
mod pool;
mod screen;
mod terminal;
mod wire;
mod world;

use crate::subjects::belief::Painter;
use crate::talk::{Answer, Done, Fault, Hex, Made, Subject, Words};
use codes3270::Model;
use host_core::Host;
use std::alloc::AllocError;
use std::io::{self, BufRead, BufReader, Write};
use telnet_wire::Decoder;
use term_core::Terminal;

impl<M: Made + Drop> Subject for Option<M> {
    fn take(&mut self, word: &str, words: &mut Words<'_>, answer: &mut Answer) {
        match self {
            made if word == "new" => match M::new(words) {
                Ok(new) => answer.done(Ok(*made = Some(new))),
                Err(Fault::NoMemory) => answer.done(Err(AllocError)),
                Err(fault) => words.fail(fault),
            },
            Some(made) => made.take(word, words, answer),
            None => words.fail(Fault::Line),
        }
    }
}

/// Executes `vector ROOM BYTES`, `appended` or `capacity`, which are about the vector, or a command of the subject.
fn take<S: Subject>(subject: &mut S, words: &mut Words<'_>, answer: &mut Answer) -> Done {
    match words.word() {
        "vector" => {
            answer.out = Vec::with_capacity(words.alloc, words.number())?;
            answer.out.extend_from_slice(words.bytes())?;
        }
        "appended" => writeln!(answer.text, "appended {}", Hex(answer.out.as_slice()))?,
        "capacity" => writeln!(answer.text, "{}", answer.out.capacity())?,
        word => subject.take(word, words, answer),
    }
    Ok(())
}

/// Answers a line. A command after `! ` is executed between the lines `begin` and `end` on standard error, so that a
/// preloaded library can find its allocations.
fn answer_line<S: Subject>(
    rt: &HostRuntime,
    subject: &mut S,
    line: &str,
    room: &mut Vec<u8>,
    answer: &mut Answer,
) -> io::Result<()> {
    let marked = line.strip_prefix("! ");
    if marked.is_some() {
        rt.eprintln("begin")?;
    }
    let mut words = Words {
        alloc: rt.alloc(),
        rest: marked.unwrap_or(line),
        room,
        fault: None,
    };
    answer.text.clear();
    answer.lacks_memory = false;
    let done = take(subject, &mut words, answer);
    words.note(done);
    answer.end(&words);
    if marked.is_some() {
        rt.eprintln("end")?;
    }
    rt.stdout().write_all(answer.text.as_bytes())
}

/// Answers each line of standard input.
fn serve<S: Subject + Drop>(rt: &HostRuntime, mut subject: S) -> io::Result<bool> {
    let (mut room, mut answer) = (Vec::new(rt.alloc()), Answer::new(rt.alloc())?);
    for line in BufReader::new(rt.alloc(), rt.reader())?.lines(rt.alloc()) {
        answer_line(rt, &mut subject, line?.as_str(), &mut room, &mut answer)?;
    }
    Ok(true)
}

pub(crate) fn run(rt: &HostRuntime, name: &str) -> io::Result<bool> {
    match name {
        "belief" => serve(rt, Painter::new()),
        "codes" => serve(rt, codes::Codes),
        "commands" => serve(rt, commands::Commands),
        "host" => serve(rt, None::<Host>),
        "lines" => serve(rt, lines::Lines),
        "messages" => serve(rt, messages::Messages::new()),
        "panel" => serve(rt, panel::Panels::new(rt.alloc())),
        "pool" => serve(rt, pool::Pools { pool: None }),
        "screen" => serve(rt, screen::Display::blank(Model::M2)),
        "terminal" => serve(rt, None::<Terminal>),
        "wire" => serve(rt, Decoder::new(rt.alloc(), 0).map_err(|_| AllocError)?),
        "world" => serve(rt, None::<world::Worlds>),
        _ => Ok(false),
    }
}
