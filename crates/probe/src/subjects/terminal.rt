//! A terminal: term_core's `Terminal`. `connected` has the LU that it asks for, if one; `lines` are those of `text`
//! without the one below the screen; `see` shows all that is to be seen; a refusal has its number and its name.
use crate::subjects::cells::{key, put_cells};
use crate::talk::{Answer, Fault, Made, Words};
use codes3270::aid_byte;
use keyboard::{Key, Pressed};
use term_core::{TermPhase, Terminal, screen_lines};
use tn3270e_msg::Lu;

fn connect(terminal: &mut Terminal, words: &mut Words<'_>) {
    let name = words.rest();
    match (Lu::read(name.as_bytes()), terminal.phase()) {
        (None, _) if !name.is_empty() => words.fail(Fault::Line),
        (wanted, TermPhase::Idle) => terminal.connected(wanted),
        _ => words.fail(Fault::Line),
    }
}

fn press(answer: &mut Answer, terminal: &mut Terminal, key: Key) {
    match terminal.press(key) {
        Ok(Pressed::Refused(it)) => writeln!(answer, "refused {} {it}", it.number()),
        Ok(Pressed::Send(aid)) => writeln!(answer, "sends {:02X}", aid_byte(aid)),
        Ok(Pressed::Done) => answer.done(Ok(())),
        Err(fault) => answer.done(Err(fault)),
    }
}

fn put_state(answer: &mut Answer, terminal: &Terminal) {
    let screen = terminal.screen();
    writeln!(answer, "phase {}", terminal.phase());
    writeln!(answer, "lock {}", terminal.lock());
    writeln!(answer, "size {:?}", screen.size());
    writeln!(answer, "cursor {}", screen.cursor().get());
    writeln!(answer, "aid {:02X}", aid_byte(screen.aid()));
    writeln!(answer, "inserting {}", terminal.keyboard().inserting());
    writeln!(answer, "took-write {}", terminal.took_write())
}

pub(crate) fn put_all(answer: &mut Answer, terminal: &Terminal) {
    put_state(answer, terminal);
    answer.name("out", terminal.out());
    put_cells(answer, terminal.screen())
}

impl Made for Terminal {
    fn new(words: &mut Words<'_>) -> Result<Terminal, Fault> {
        Ok(Terminal::new(words.alloc, words.model())?)
    }

    fn take(&mut self, word: &str, words: &mut Words<'_>, answer: &mut Answer) {
        match word {
            "connected" => connect(self, words),
            "feed" => answer.line(&self.feed(words.bytes())),
            "key" => press(answer, self, key(words)),
            "type" => for letter in words.rest().chars() {
                press(answer, self, Key::Char(letter));
            },
            "sent" => self.sent(words.number::<usize>().min(self.out().len())),
            "lost" => answer.name("unsent", self.lost().as_slice()),
            "restart" => self.restart(),
            "out" => answer.name("out", self.out()),
            "state" => put_state(answer, self),
            "see" => put_all(answer, self),
            "text" => answer.page(self.screen_text(words.alloc)),
            "lines" => answer.page(screen_lines(words.alloc, self.screen())),
            _ => words.fail(Fault::Line),
        }
    }
}
