//! Calls of tn3270e_msg: those without state, and the talks of a host and a terminal. What they answer is printed by
//! Debug, and faults, reasons and causes as they are printed.
//!
//! ```text
//! host; terminal MODEL BYTES  a new talk of that end; the terminal wants this LU, or any if there are no bytes
//! told; is                    what the getters of the host's talk answer, or of the terminal's
//! hears ITEM; takes ITEM      the host, or the terminal, takes `record BYTES`, `sub BYTES`, `other BYTE`, `VERB BYTE`
//! granted BYTES; refused BYTE the host's pool grants this LU, or none, for this reason
//! ```
use crate::subjects::wire::VERBS;
use crate::talk::{Answer, Done, Fault, Subject, Words};
use codes3270::Model;
use std::alloc::Global;
use std::fmt::Debug;
use telnet_wire::{Item, Verb};
use tn3270e_msg::{
    ALWAYS_RESPONSE, Cause, Device, ERROR_RESPONSE, HEADER_LENGTH, HostTalk, Lu, NEGATIVE,
    NO_RESPONSE, POSITIVE, RECORD_LIMIT, REPLY_ROOM, Reason, Reply, TermTalk, header_bytes,
    next_seq, put_reply, put_sub_message, read_header, read_sub,
};

#[derive(Drop)]
pub(crate) struct Messages {
    host: HostTalk,
    terminal: TermTalk,
}

static CAUSES: [Cause; 10] = [
    Cause::NoTn3270e,
    Cause::NoResponses,
    Cause::BadTalk,
    Cause::TooMany,
    Cause::Wire,
    Cause::BadRecord,
    Cause::BadInbound,
    Cause::BadResponse,
    Cause::Negative,
    Cause::RuleBroken,
];

fn put_device(answer: &mut Answer, device: Option<Device>, text: &[u8]) {
    answer.line(&device.map(|it| (it.text(), it.model(), it.has_text(text))))
}

fn item_of<'a>(words: &'a mut Words<'_>) -> Item<'a> {
    let line = words.rest;
    match words.word() {
        "record" => Item::Record(words.bytes()),
        "sub" => Item::Sub(words.bytes()),
        "other" => Item::Other(words.byte()),
        _ => {
            words.rest = line;
            let (verb, code) = (words.named(&VERBS, Verb::Will), words.byte());
            Item::Opt { verb, code }
        }
    }
}

/// Adds the line of what a talk answers, with the bytes that it sends, and of how it stands now.
fn put_after<S: Debug>(alloc: Global, answer: &mut Answer, reply: &Reply, state: &S) -> Done {
    let mut out = Vec::with_capacity(alloc, REPLY_ROOM)?;
    let cause = put_reply(&mut out, reply);
    Ok(answer.line(&(out.as_slice(), reply, cause, state)))
}

fn read_lu(words: &mut Words<'_>) -> Option<Lu> {
    let name = words.bytes();
    let lu = Lu::read(name);
    if lu.is_none() && !name.is_empty() {
        words.fail(Fault::Line);
    }
    lu
}

fn put_header(answer: &mut Answer, bytes: &[u8]) {
    match read_header(bytes) {
        Ok((header, data)) => {
            answer.line(&(&header, data));
            answer.line(&header_bytes(&header))
        }
        Err(fault) => answer.say(&fault),
    }
}

fn take_bytes(word: &str, bytes: &[u8], answer: &mut Answer) -> Done {
    match (word, read_sub(bytes)) {
        ("header", _) => put_header(answer, bytes),
        ("sub", Ok(message)) => {
            answer.line(&message);
            answer.out.clear();
            put_sub_message(&mut answer.out, &message)?;
            writeln!(answer.text, "{:?}", answer.out.as_slice())?
        }
        ("sub", Err(fault)) => answer.say(&fault),
        ("put", Ok(message)) => {
            let called = put_sub_message(&mut answer.out, &message);
            answer.done(called)
        }
        ("lu", _) => if let Some(lu) = Lu::read(bytes) {
            writeln!(answer, "{lu} {:?}", lu.as_bytes())
        },
        ("device", _) => put_device(answer, Device::read(bytes), bytes),
        _ => return Err(Fault::Line),
    }
    Ok(())
}

impl Messages {
    pub(crate) fn new() -> Messages {
        Messages {
            host: HostTalk::new(),
            terminal: TermTalk::new(Model::M2, None),
        }
    }

    fn answered(&mut self, alloc: Global, lu: Result<Lu, Reason>, answer: &mut Answer) -> Done {
        if !self.host.asking() {
            return Err(Fault::Line);
        }
        let reply = self.host.answered(lu);
        put_after(alloc, answer, &reply, &self.host.state())
    }

    fn take_item(&mut self, words: &mut Words<'_>, answer: &mut Answer, is_host: bool) -> Done {
        let (alloc, item) = (words.alloc, item_of(words));
        if is_host {
            let reply = self.host.take(&item);
            return put_after(alloc, answer, &reply, &self.host.state());
        }
        let reply = self.terminal.take(&item);
        put_after(alloc, answer, &reply, &self.terminal.state())
    }

    fn put_offer(&mut self, alloc: Global, answer: &mut Answer) -> Done {
        self.host = HostTalk::new();
        let mut out = Vec::new(alloc);
        HostTalk::put_offer(&mut out)?;
        Ok(answer.line(&out.as_slice()))
    }

    fn put_host(&self, answer: &mut Answer) {
        let host = &self.host;
        let (agreed, lu) = ((host.is_agreed(), host.agreed_lu()), host.lu());
        answer.line(&(host.asking(), lu, agreed, host.device(), host.model()))
    }

    fn put_terminal(&self, answer: &mut Answer) {
        let agreed = (self.terminal.is_agreed(), self.terminal.agreed_lu());
        answer.line(&(self.terminal.lu(), agreed, self.terminal.reason_refused()))
    }

    fn take_word(&mut self, word: &str, words: &mut Words<'_>, answer: &mut Answer) -> Done {
        match word {
            "next" => Ok(answer.line(&next_seq(words.number()))),
            "device-of" => {
                let device = Device::of(words.model());
                Ok(put_device(answer, Some(device), device.text()))
            }
            "reason" => {
                let reason = Reason(words.byte());
                Ok(writeln!(answer, "{} {reason}", reason.name().unwrap_or("-")))
            }
            "causes" => Ok(for cause in &CAUSES {
                writeln!(answer, "{} {} {cause}", cause.number(), cause.name());
            }),
            "constants" => {
                answer.line(&(NO_RESPONSE, ERROR_RESPONSE, ALWAYS_RESPONSE));
                Ok(answer.line(&(POSITIVE, NEGATIVE, HEADER_LENGTH, RECORD_LIMIT, REPLY_ROOM)))
            }
            "hears" | "takes" => self.take_item(words, answer, word == "hears"),
            "granted" => match read_lu(words) {
                Some(lu) => self.answered(words.alloc, Ok(lu), answer),
                None => Err(Fault::Line),
            },
            "refused" => self.answered(words.alloc, Err(Reason(words.byte())), answer),
            "host" => self.put_offer(words.alloc, answer),
            "told" => Ok(self.put_host(answer)),
            "terminal" => Ok(self.terminal = TermTalk::new(words.model(), read_lu(words))),
            "is" => Ok(self.put_terminal(answer)),
            _ => take_bytes(word, words.bytes(), answer),
        }
    }
}

impl Subject for Messages {
    fn take(&mut self, word: &str, words: &mut Words<'_>, answer: &mut Answer) {
        let done = self.take_word(word, words, answer);
        words.note(done)
    }
}
