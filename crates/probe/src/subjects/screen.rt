//! A screen of presentation with a keyboard at it, by Debug.
//!
//! ```text
//! store ADDR BYTES         stores characters from an address on, as far as the cells have characters, and sets MDT in
//!                          the field of the first
//! press NAME; char NUMBER  a key by its name, the key of a character
//! ```
use crate::subjects::cells::{aid, at, form, key, place_on};
use crate::talk::{Answer, Done, Fault, Subject, Words};
use codes3270::{Model, storable};
use datastream::{CommandFault, Form, read_command};
use keyboard::{Key, Keyboard};
use presentation::{Applied, Screen};

#[derive(Drop)]
pub(crate) struct Display {
    screen: Screen,
    keyboard: Keyboard,
}

fn store(screen: &mut Screen, words: &mut Words<'_>) {
    let first = place_on(words, screen.size());
    let mut place = first;
    for code in words.bytes() {
        let here = at(place, screen.size());
        if screen.cell(here).is_character() && storable(*code) {
            screen.set_char(here, *code);
        }
        place = place.saturating_add(1) % screen.size().cells();
    }
    if let Some(field) = screen.field_at(at(first, screen.size())) {
        let attr = at(field.attr.get(), screen.size());
        if !screen.cell(attr).is_character() {
            screen.set_mdt(attr);
        }
    }
}

fn put_looks(answer: &mut Answer, screen: &Screen) {
    let size = screen.size();
    for place in 0..size.cells() {
        let here = at(place, size);
        let (cell, glyph) = (screen.cell(here), u32::from(screen.glyph_at(here)));
        let (field, over) = (screen.field_at(here), screen.attribute_over(here));
        answer.line(&(cell, field, over, glyph));
    }
}

fn look(screen: &Screen, words: &mut Words<'_>, answer: &mut Answer, word: &str) {
    match word {
        "show" => answer.line(&(screen.size(), screen.cursor(), screen.home(), screen.aid())),
        "look" => put_looks(answer, screen),
        "read" => {
            let called = match form(words) {
                Form::Buffer => screen.put_read_buffer(&mut answer.out),
                form => screen.put_read_modified(&mut answer.out, form == Form::All),
            };
            answer.done(called)
        }
        "fields" => answer.each("fields", screen.fields()),
        "glyphs" => answer.each("glyphs", screen.glyphs().map(u32::from)),
        _ => words.fail(Fault::Line),
    }
}

impl Display {
    pub(crate) fn blank(model: Model) -> Display {
        Display {
            screen: Screen::blank(model),
            keyboard: Keyboard::new(),
        }
    }

    fn apply(&mut self, bytes: &[u8]) -> Result<Applied, CommandFault> {
        let alternate = self.screen.model().alternate();
        let command = read_command(bytes, self.screen.size(), alternate)?;
        let applied = self.screen.apply(&command);
        if applied.restore {
            self.keyboard.restored();
        }
        Ok(applied)
    }

    fn press(&mut self, answer: &mut Answer, key: Key) {
        answer.line(&self.keyboard.press(&mut self.screen, key))
    }

    fn copy(&mut self) -> Done {
        Ok(self.screen = self.screen.clone()?)
    }
}

impl Subject for Display {
    fn take(&mut self, word: &str, words: &mut Words<'_>, answer: &mut Answer) {
        let size = self.screen.size();
        match word {
            "apply" => answer.line(&self.apply(words.bytes())),
            "press" => self.press(answer, key(words)),
            "char" => match char::from_u32(words.number()) {
                Some(letter) => self.press(answer, Key::Char(letter)),
                None => words.fail(Fault::Line),
            },
            "copy" => words.note(self.copy()),
            "new" => *self = Display::blank(words.model()),
            "store" => store(&mut self.screen, words),
            "cursor" => self.screen.set_cursor(at(place_on(words, size), size)),
            "aid" => self.screen.set_aid(aid(words)),
            "clear" => self.screen.clear(),
            "erase-input" => self.screen.erase_unprotected(),
            _ => look(&self.screen, words, answer, word),
        }
    }
}
