//! Calls of telnet_wire.
//!
//! ```text
//! push BYTES     each byte by `push`: the 1-based place of each byte that completes an item, or is refused
//! feed BYTES     as `push`, but bytes that `push_data` takes are taken at once; `data` calls only that
//! ```
use crate::talk::{Answer, Fault, Put, Subject, Words};
use std::alloc::AllocError;
use telnet_wire::{Decoder, Step, Verb, put_option, put_record, put_sub, put_sub_parts};

pub(crate) static VERBS: [Verb; 4] = [Verb::Will, Verb::Wont, Verb::Do, Verb::Dont];

fn put_parts(words: &mut Words<'_>, out: &mut Vec<u8>) -> Result<Put, AllocError> {
    let mut owned = Vec::new(words.alloc);
    for word in words.rest().split_whitespace() {
        owned.push(words.bytes_of(word))?;
    }
    let mut parts = Vec::new(words.alloc);
    for part in &owned {
        parts.push(part.as_slice())?;
    }
    Ok(put_sub_parts(out, parts.as_slice()))
}

fn push_each(decoder: &mut Decoder, bytes: &[u8], is_fed: bool, answer: &mut Answer) {
    let mut next = 0;
    for (index, byte) in bytes.iter().enumerate() {
        if is_fed && next <= index {
            next = index + decoder.push_data(&bytes[index..]);
        }
        if index < next {
            continue;
        }
        match decoder.push(*byte) {
            Ok(Step::More) => {}
            Ok(Step::Ready) => writeln!(answer, "{} {:?}", index + 1, decoder.item()),
            Err(fault) => writeln!(answer, "{} {fault}", index + 1),
        }
    }
}

fn append(words: &mut Words<'_>, answer: &mut Answer, word: &str) {
    let out = &mut answer.out;
    let called = match word {
        "record" => put_record(out, words.bytes()),
        "option" => put_option(out, words.named(&VERBS, Verb::Will), words.byte()),
        "sub" => put_sub(out, words.bytes()),
        "parts" => match put_parts(words, out) {
            Ok(put) => put,
            Err(_) => Ok(words.fail(Fault::NoMemory)),
        },
        _ => Ok(words.fail(Fault::Line)),
    };
    answer.done(called)
}

impl Subject for Decoder {
    fn take(&mut self, word: &str, words: &mut Words<'_>, answer: &mut Answer) {
        match word {
            "new" => match Decoder::new(words.alloc, words.number()) {
                Ok(new) => answer.done(Ok(*self = new)),
                Err(fault) => answer.say(&fault),
            },
            "push" | "feed" => push_each(self, words.bytes(), word == "feed", answer),
            "data" => answer.line(&self.push_data(words.bytes())),
            "reset" => self.reset(),
            _ => append(words, answer, word),
        }
    }
}
