//! A text of panels, and the screens that its panels ask for, by Debug.
//!
//! ```text
//! panel INDEX          name, model, size and fields of a panel, of which the next two speak; or none
//! wanted BOOL MESSAGE  the screen that it asks for with its fields kept or not: fresh, plain, key-not-active,
//!                      required N; if they are kept, also what it is once their values are put
//! next BYTE            where the key of an AID leads
//! mark                 marks all fields of all panels
//! copy; swap           makes a copy of the values; exchanges them and the copy
//! ```
ghost use Rattle.std.specs.Prelude.{◌≡◌, true};
ghost use Rattle.panels.specs.Characters.{AreCharacters};

use crate::subjects::cells::{aid, put_wanted};
use crate::talk::{Answer, Fault, Put, Subject, Words};
use codes3270::storable;
use panels::{Message, Panel, PanelFault, PanelSet, Values};
use std::alloc::{AllocError, Global};
use std::mem;

#[derive(Drop)]
pub(crate) struct Panels {
    set: Option<PanelSet>,
    index: usize,
    values: Values,
    copy: Values,
}

fn read_message(words: &mut Words<'_>) -> Message {
    match words.word() {
        "fresh" => Message::Fresh,
        "plain" => Message::Plain,
        "key-not-active" => Message::KeyNotActive,
        "required" => Message::Required(words.number()),
        _ => words.or(None, Message::Plain),
    }
}

fn are_characters(bytes: &[u8]) -> bool
    ensures { result ≡ true → AreCharacters bytes.now }
{
    bytes.iter().all(|byte| *byte != 0 && storable(*byte))
}

pub(crate) fn set_value(words: &mut Words<'_>, values: &mut Values) -> Put {
    let (field, bytes) = (words.number(), words.bytes());
    if are_characters(bytes) {
        return values.set(field, bytes);
    }
    Ok(words.fail(Fault::Line))
}

fn put_panel(answer: &mut Answer, panel: &Panel) {
    answer.line(&(panel.name().as_str(), panel.model(), panel.size()));
    for field in panel.fields() {
        let extent = (field.extent.attr(), field.extent.length);
        answer.line(&(field.number, extent, field.required));
    }
    for value in panel.values() {
        let extent = (value.extent.attr(), value.extent.length);
        answer.line(&("value", value.number, extent));
    }
}

fn put_screens(words: &mut Words<'_>, answer: &mut Answer, panel: &Panel, values: &Values) {
    let (keep, message) = (words.number::<bool>(), read_message(words));
    if let (Message::Fresh, true) = (message, keep) {
        return words.fail(Fault::Line);
    }
    let mut wanted = panel.wanted(values, message, keep);
    put_wanted(answer, &wanted);
    if keep {
        panel.put_values(&mut wanted, values, message);
        put_wanted(answer, &wanted)
    }
}

impl Panels {
    pub(crate) fn new(alloc: Global) -> Panels {
        Panels {
            set: None,
            index: 0,
            values: Values::new(alloc),
            copy: Values::new(alloc),
        }
    }

    fn read(&mut self, words: &mut Words<'_>, answer: &mut Answer) {
        match PanelSet::read(words.alloc, words.text()) {
            Ok(set) => {
                answer.line(&(set.start(), set.len(), set.lus()));
                self.set = Some(set);
            }
            Err(PanelFault::Memory) => answer.done(Err(AllocError)),
            Err(fault) => writeln!(answer, "fault {fault}"),
        }
    }

    fn copy(&mut self) -> Put {
        Ok(self.copy = self.values.clone()?)
    }

    fn mark(&mut self, words: &mut Words<'_>) {
        match &mut self.set {
            Some(set) => set.mark_fields(),
            None => words.fail(Fault::Line),
        }
    }

    /// Executes a command on the panel of the index, if there is one.
    fn take_panel(&mut self, word: &str, words: &mut Words<'_>, answer: &mut Answer) {
        if word == "panel" {
            self.index = words.number();
        }
        let Some(set) = &self.set else {
            return words.fail(Fault::Line);
        };
        match (word, set.panel(self.index)) {
            ("panel", Some(panel)) => put_panel(answer, panel),
            ("panel", None) => {}
            ("wanted", Some(panel)) => put_screens(words, answer, panel, &self.values),
            ("next", Some(panel)) => answer.line(&panel.next(aid(words))),
            ("shown", _) => match words.number() {
                index if index < set.len() => answer.line(&set.shown(index, words.model())),
                _ => words.fail(Fault::Line),
            },
            _ => words.fail(Fault::Line),
        }
    }
}

impl Subject for Panels {
    fn take(&mut self, word: &str, words: &mut Words<'_>, answer: &mut Answer) {
        match word {
            "read" => self.read(words, answer),
            "set" => answer.done(set_value(words, &mut self.values)),
            "copy" => answer.done(self.copy()),
            "swap" => mem::swap(&mut self.values, &mut self.copy),
            "mark" => self.mark(words),
            "value" => answer.line(&self.values.get(words.number())),
            _ => self.take_panel(word, words, answer),
        }
    }
}
