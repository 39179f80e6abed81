//! A world: world3270's `World` of a host and four terminals, 0 to 3, of the models 2 to 5, by Debug. T is a terminal's
//! number, C a connection's.
//!
//! ```text
//! step EVENT            an event as a line of a script says it; of `type T TEXT` the first key; or `keepalive C`
//! list EVENT; run       puts an event at the end of a list; the list's events happen, and it is empty then
//! states                how far each terminal is, and the host on each number that isn't free
//! left T                whether input was erased since the last write with restore, and the cells that this left
//! queued C              the bytes under way up to the host, and down to the terminal
//! ```
use crate::subjects::cells::put_cells;
use crate::subjects::host::{self, put_state, read_service};
use crate::subjects::terminal;
use crate::talk::{Answer, Fault, MODELS, Made, Words};
use host_core::{MOST_CONNECTIONS, Phase};
use keyboard::Key;
use scripts::{ScriptCommand, typed_text};
use world3270::{Event, World};

#[derive(Drop)]
pub(crate) struct Worlds {
    world: World,
    events: Vec<Event>,
}

fn read_event(line: &str) -> Result<Event, Fault> {
    if let Some(Ok(conn)) = line.strip_prefix("keepalive ").map(|conn| conn.parse()) {
        return Ok(Event::KeepAlive(conn));
    }
    match (ScriptCommand::read(line), typed_text(line).chars().next()) {
        (Some(ScriptCommand::Happen(event)), _) => Ok(event),
        (Some(ScriptCommand::TypeText(terminal)), Some(letter)) => {
            Ok(Event::Key(terminal, Key::Char(letter)))
        }
        _ => Err(Fault::Line),
    }
}

fn put_states(answer: &mut Answer, world: &World) {
    for terminal in 0..world.terminals() {
        writeln!(answer, "terminal {}", world.terminal(terminal).phase());
    }
    for conn in 0..MOST_CONNECTIONS {
        if world.host().phase(conn) != Phase::Free {
            writeln!(answer, "conn {conn}");
            put_state(answer, world.host(), conn);
        }
    }
}

/// Shows what the commands on a connection or a terminal show.
fn look(world: &World, word: &str, words: &mut Words<'_>, answer: &mut Answer) {
    let number = words.number();
    match word {
        "host" if number < MOST_CONNECTIONS => host::put_all(answer, world.host(), number),
        "queued" if number < MOST_CONNECTIONS => {
            answer.name("up", world.queued_up(number));
            answer.name("down", world.queued_down(number))
        }
        _ if number >= world.terminals() => words.fail(Fault::Line),
        "terminal" => terminal::put_all(answer, world.terminal(number)),
        "left" => {
            writeln!(answer, "erased {}", world.erased(number));
            put_cells(answer, world.last_restored(number))
        }
        "text" => answer.page(world.terminal(number).screen_text(words.alloc)),
        _ => words.fail(Fault::Line),
    }
}

impl Made for Worlds {
    fn new(words: &mut Words<'_>) -> Result<Worlds, Fault> {
        let (terminals, panels, pool) = read_service(words)?;
        let world = World::serving(words.alloc, terminals, panels, pool, &MODELS)?;
        let events = Vec::new(words.alloc);
        Ok(Worlds { world, events })
    }

    fn take(&mut self, word: &str, words: &mut Words<'_>, answer: &mut Answer) {
        match word {
            "step" | "list" => match read_event(words.rest()) {
                Ok(event) if word == "step" => answer.line(&self.world.step(event)),
                Ok(event) => if self.events.push(event).is_err() {
                    words.fail(Fault::NoMemory)
                },
                Err(fault) => words.fail(fault),
            },
            "run" => {
                answer.line(&self.world.run(self.events.as_slice()));
                self.events.clear()
            }
            "states" => put_states(answer, &self.world),
            _ => look(&self.world, word, words, answer),
        }
    }
}
