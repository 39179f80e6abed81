//! What lines ask for, what is wrong with panel texts, and what is printed. Each text is one word of bytes, in UTF-8.
//!
//! ```text
//! words TEXT       the job of a command line, whose words are between blanks, by Debug
//! check TEXT       the report of panel_check on a panel text, and what the readers answer
//! faults           faults of which the system gives few
//! ```
use crate::talk::{Answer, Done, Fault, Subject, Words};
use applications::{Absence, AnswerFault, ApplicationFault, application_of};
use cli::words;
use jobs::{FileFault, LiveFault};
use panel_check::check;
use scripts::{ScriptCommand, TerminalCommand, typed_text};
use std::alloc::Global;
use std::io::ErrorKind;
use std::net::{Ipv4Addr, SocketAddr};
use tn3270e_msg::Cause;
use world3270::Event;

#[derive(Drop)]
pub(crate) struct Lines;

fn put_words(alloc: Global, answer: &mut Answer, text: &str) -> Done {
    let mut given = Vec::new(alloc);
    for word in text.split_whitespace() {
        given.push(String::from_str(alloc, word)?)?;
    }
    Ok(answer.line(&words(alloc, given.as_slice())))
}

fn put_report(alloc: Global, answer: &mut Answer, text: &str) -> Done {
    let report = check(alloc, text)?;
    answer.line(&report.faults());
    answer.page(report.page(alloc, "text"));
    Ok(match application_of(alloc, text) {
        Ok(_) => writeln!(answer, "readers accept"),
        Err(fault) => writeln!(answer, "readers refuse {fault}"),
    })
}

fn put_event(answer: &mut Answer, event: &Event) {
    match event {
        Event::Key(terminal, key) => writeln!(answer, "key {terminal} {key}"),
        Event::Up(conn, count) => writeln!(answer, "up {conn} {count}"),
        Event::Down(conn, count) => writeln!(answer, "down {conn} {count}"),
        Event::Act(conn) => writeln!(answer, "act {conn}"),
        Event::Note(conn, note) => writeln!(answer, "note {conn} {:?}", note.text()),
        Event::Lose(conn) => writeln!(answer, "lose {conn}"),
        Event::HostSees(conn) => writeln!(answer, "hostsees {conn}"),
        Event::TermSees(terminal) => writeln!(answer, "termsees {terminal}"),
        Event::Connect(terminal, None) => writeln!(answer, "connect {terminal}"),
        Event::Connect(terminal, Some(lu)) => writeln!(answer, "connect {terminal} {lu}"),
        Event::RestartTerm(terminal) => writeln!(answer, "restartterm {terminal}"),
        Event::RestartHost => writeln!(answer, "restarthost"),
        _ => writeln!(answer, "another event"),
    }
}

fn put_script(answer: &mut Answer, line: &str) {
    match ScriptCommand::read(line) {
        None => writeln!(answer, "not understood"),
        Some(ScriptCommand::Nothing) => writeln!(answer, "nothing"),
        Some(ScriptCommand::Happen(event)) => put_event(answer, &event),
        Some(ScriptCommand::TypeText(terminal)) => writeln!(answer, "type {terminal}"),
        Some(ScriptCommand::Answer(conn)) => writeln!(answer, "answer {conn}"),
        Some(ScriptCommand::Settle) => writeln!(answer, "settle"),
        Some(ScriptCommand::Show(terminal)) => writeln!(answer, "show {terminal}"),
        Some(ScriptCommand::Status(terminal)) => writeln!(answer, "status {terminal}"),
        Some(ScriptCommand::Question(conn)) => writeln!(answer, "question {conn}"),
    }
}

fn put_faults(alloc: Global, answer: &mut Answer) -> Done {
    // An address for documentation (RFC 5737).
    let peer = SocketAddr::from((Ipv4Addr::new(192, 0, 2, 1), 3270));
    answer.say(&jobs::Fault::SocketFailed);
    answer.say(&jobs::Fault::NotRandom);
    answer.say(&LiveFault::Closed(Cause::Wire));
    for kind in [ErrorKind::PermissionDenied, ErrorKind::InvalidInput] {
        answer.say(&jobs::Fault::CannotListen(peer, kind));
    }
    for kind in [ErrorKind::TimedOut, ErrorKind::PermissionDenied] {
        answer.say(&LiveFault::CannotConnect(peer, kind));
    }
    let name = "a.toml";
    for why in [ErrorKind::PermissionDenied, ErrorKind::InvalidFilename] {
        answer.say(&FileFault { name, why });
    }
    let field = String::from_str(alloc, "a\"b\\c\n")?;
    answer.say(&ApplicationFault::Answer(AnswerFault::UnknownField(field)));
    answer.say(&ApplicationFault::Absent(Absence::NoMemory));
    Ok(answer.say(&ApplicationFault::Answer(AnswerFault::Memory)))
}

impl Subject for Lines {
    fn take(&mut self, word: &str, words: &mut Words<'_>, answer: &mut Answer) {
        let alloc = words.alloc;
        let text = words.text();
        let done = match word {
            "words" => put_words(alloc, answer, text),
            "script" => Ok(put_script(answer, text)),
            "terminal" => Ok(answer.line(&TerminalCommand::read(text))),
            "typed" => Ok(answer.say(&typed_text(text))),
            "check" => put_report(alloc, answer, text),
            "faults" => put_faults(alloc, answer),
            _ => Err(Fault::Line),
        };
        words.note(done)
    }
}
