//! A host: host_core's `Host`, and `serve_turn`, by Debug. C is a connection's number, 0 to 63.
//!
//! ```text
//! answer C SESSION TURN MESSAGE [FIELD BYTES]    a message, and a field's value
//! see C                all that is to be seen
//! turn C TAKES GIVES   a turn of serving, its connection (`links`): how often that was read and written, what it heard
//! ```
ghost use Rattle.std.specs.Prelude.{◌<◌};
ghost use Rattle.host_core.specs.State.{most_connections};

use crate::subjects::cells::put_belief;
use crate::subjects::links::Link;
use crate::subjects::panel::set_value;
use crate::talk::{Answer, Fault, Made, Words};
use applications::application_of;
use codes3270::aid_byte;
use host_core::{
    Answer as Reply, Host, HostEvent, MOST_CONNECTIONS, MessageText, PanelSet, Phase, Pool,
    Question, Terminals, Ticket, Values, serve_turn,
};
use world3270::NoteText;

static TERMINALS: [Terminals; 3] = [Terminals::Waiting, Terminals::Any, Terminals::Verified];

/// What a host serves: the kind of terminals, and the panels of a text, which is one word of bytes.
pub(crate) fn read_service(words: &mut Words<'_>) -> Result<(Terminals, PanelSet, Pool), Fault> {
    let terminals = words.named(&TERMINALS, Terminals::Any);
    match application_of(words.alloc, words.text()) {
        Ok((panels, pool)) => Ok((terminals, panels, pool)),
        Err(jobs::Fault::NoMemory) => Err(Fault::NoMemory),
        Err(_) => Err(Fault::Line),
    }
}

pub(crate) fn put_state(answer: &mut Answer, host: &Host, conn: usize)
    requires { conn < most_connections }
{
    writeln!(answer, "phase {:?}", host.phase(conn));
    writeln!(answer, "model {:?}", host.model(conn));
    writeln!(answer, "turn {:?}", host.turn(conn));
    writeln!(answer, "pending {:?}", host.pending(conn))
}

pub(crate) fn put_all(answer: &mut Answer, host: &Host, conn: usize)
    requires { conn < most_connections }
{
    put_state(answer, host, conn);
    answer.name("out", host.out(conn));
    put_belief(answer, host.shadow(conn))
}

fn put_question(answer: &mut Answer, host: &Host, question: &Question) {
    let Ticket { session, turn } = question.ticket;
    writeln!(answer, "ticket {session} {turn}\nlu {}", question.lu);
    answer.line(&(question.panel, question.cursor, [aid_byte(question.aid)]));
    if let Some(panel) = host.panels().panel(question.panel) {
        for field in panel.fields() {
            if let Some(value) = question.values.get(field.number) {
                answer.name(field.name.as_str(), value);
            }
        }
    }
}

fn answer_on(host: &mut Host, conn: usize, words: &mut Words<'_>, answer: &mut Answer)
    requires { conn < most_connections }
{
    let (session, turn, word) = (words.number(), words.number(), words.word());
    let message = MessageText::new(words.bytes_of(word).as_slice());
    let mut values = Values::new(words.alloc);
    if !words.rest.is_empty() && set_value(words, &mut values).is_err() {
        words.fail(Fault::NoMemory);
    }
    let reply = Reply {
        panel: None,
        values,
        message,
        cursor: None,
    };
    answer.line(&host.answer(conn, Ticket { session, turn }, &reply))
}

fn turn_on(host: &mut Host, conn: usize, words: &mut Words<'_>, answer: &mut Answer)
    requires { conn < most_connections }
{
    let mut link = Link::read_from(words);
    answer.line(&serve_turn(host, &mut link, conn));
    writeln!(answer, "{} {}", link.reads, link.writes);
    answer.name("heard", link.heard.as_slice())
}

fn take_on(host: &mut Host, conn: usize, word: &str, words: &mut Words<'_>, answer: &mut Answer)
    requires { conn < most_connections }
{
    match word {
        "open" if host.phase(conn) == Phase::Free => answer.done(host.open(conn)),
        "feed" => answer.line(&host.feed(conn, words.bytes())),
        "act" => answer.line(&host.act(conn)),
        "note" => match NoteText::new(words.bytes()) {
            Some(note) => answer.line(&host.note(conn, note.text())),
            None => words.fail(Fault::Line),
        },
        "answer" => answer_on(host, conn, words, answer),
        "turn" => turn_on(host, conn, words, answer),
        "sent" => host.sent(conn, words.number::<usize>().min(host.out(conn).len())),
        "closed" => answer.name("unsent", host.closed(conn).as_slice()),
        _ => look(host, conn, word, words, answer),
    }
}

fn put_event(answer: &mut Answer, event: HostEvent) {
    match event {
        HostEvent::Rejected(it) => answer.line(&("Rejected", it.lu, it.reason)),
        HostEvent::Bound(lu) => answer.line(&("Bound", lu)),
        HostEvent::KeyDropped(it) => answer.line(&("KeyDropped", aid_byte(it.aid))),
        HostEvent::RuleBroken(it) => answer.line(&("RuleBroken", it)),
        HostEvent::CharacterReplaced => answer.line(&"CharacterReplaced"),
        HostEvent::ScreenRestored(why) => answer.line(&("ScreenRestored", why)),
        HostEvent::Asked => answer.line(&"Asked"),
        HostEvent::Shown => answer.line(&"Shown"),
        HostEvent::Closed(cause) => answer.line(&("Closed", cause)),
    }
}

fn look(host: &mut Host, conn: usize, word: &str, words: &mut Words<'_>, answer: &mut Answer)
    requires { conn < most_connections }
{
    match word {
        "event" => match host.next_event(conn) {
            Some(event) => put_event(answer, event),
            None => writeln!(answer, "None"),
        },
        "question" => match host.question(conn) {
            Ok(Some(question)) => put_question(answer, host, &question),
            Ok(None) => {}
            Err(fault) => answer.done(Err(fault)),
        },
        "out" => answer.name("out", host.out(conn)),
        "state" => put_state(answer, host, conn),
        "see" => put_all(answer, host, conn),
        _ => words.fail(Fault::Line),
    }
}

impl Made for Host {
    fn new(words: &mut Words<'_>) -> Result<Host, Fault> {
        let (terminals, panels, pool) = read_service(words)?;
        Ok(Host::serving(words.alloc, terminals, panels, pool)?)
    }

    fn take(&mut self, word: &str, words: &mut Words<'_>, answer: &mut Answer) {
        if word == "restart" {
            return self.restart();
        }
        match words.number() {
            conn if conn < MOST_CONNECTIONS => take_on(self, conn, word, words, answer),
            _ => words.fail(Fault::Line),
        }
    }
}
