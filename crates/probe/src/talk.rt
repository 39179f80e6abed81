//! The words of a line of standard input, and its answer.
ghost use Rattle.std.specs.Iterator.{IsFinite};

use codes3270::{Model, Size};
use hex::FromHexError;
use std::alloc::{AllocError, AllocFailed, Global};
use std::fmt::{self, Debug, Display, Formatter};
use std::mem;
use std::str::{self, FromStr};

pub(crate) const MODELS: [Model; 4] = [Model::M2, Model::M3, Model::M4, Model::M5];

#[derive(Drop)]
pub(crate) enum Fault {
    /// The line isn't a command of the subject. The text has its words.
    Line,
    /// An allocation by the probe itself failed.
    NoMemory,
}

impl From<AllocError> for Fault {
    fn from(_: AllocError) -> Fault {
        Fault::NoMemory
    }
}

impl<T: Drop> From<AllocFailed<T>> for Fault {
    fn from(_: AllocFailed<T>) -> Fault {
        Fault::NoMemory
    }
}

pub(crate) trait Subject {
    /// Executes the command of a word and those after it, and adds the lines of its answer, each with its newline.
    fn take(&mut self, word: &str, words: &mut Words<'_>, answer: &mut Answer);
}

/// A subject that the command `new` creates, and on which the other commands act.
pub(crate) trait Made {
    /// Creates it from the words after `new`.
    fn new(words: &mut Words<'_>) -> Result<Self, Fault>;

    fn take(&mut self, word: &str, words: &mut Words<'_>, answer: &mut Answer);
}

pub(crate) type Done = Result<(), Fault>;

/// Whether a call got the memory that it needed.
pub(crate) type Put = Result<(), AllocError>;

/// The words of a line that haven't been read yet, and room for the bytes that they encode. In place of what can't be
/// read there is a default, and the line isn't valid.
#[derive(Drop)]
pub(crate) struct Words<'a> {
    pub(crate) alloc: Global,
    pub(crate) rest: &'a str,
    pub(crate) room: &'a mut Vec<u8>,
    /// The first fault.
    pub(crate) fault: Option<Fault>,
}

impl<'a> Words<'a> {
    /// Notes a fault of the line.
    pub(crate) fn fail(&mut self, fault: Fault) {
        if self.fault.is_none() {
            self.fault = Some(fault);
        }
    }

    /// Notes the fault of what was done.
    pub(crate) fn note(&mut self, done: Done) {
        if let Err(fault) = done {
            self.fail(fault);
        }
    }

    pub(crate) fn word(&mut self) -> &'a str {
        let (word, rest) = self.rest.split_once(' ').unwrap_or((self.rest, ""));
        self.rest = rest;
        if word.is_empty() {
            self.fail(Fault::Line);
        }
        word
    }

    /// The rest of the line, unchanged.
    pub(crate) fn rest(&mut self) -> &'a str {
        mem::replace(&mut self.rest, "")
    }

    /// What was read of the line, or the default.
    pub(crate) fn or<T: Copy>(&mut self, read: Option<T>, default: T) -> T {
        if read.is_none() {
            self.fail(Fault::Line);
        }
        read.unwrap_or(default)
    }

    /// The value that `{:?}` prints as the next word, in upper or lower case.
    pub(crate) fn named<T: Copy + Debug>(&mut self, values: &[T], default: T) -> T {
        let word = self.word();
        for value in values {
            match format!(in self.alloc; "{value:?}") {
                Ok(name) if name.eq_ignore_ascii_case(word) => return *value,
                Ok(_) => {}
                Err(_) => self.fail(Fault::NoMemory),
            }
        }
        self.or(None, default)
    }

    /// The next word as a decimal number, or as `true` or `false`.
    pub(crate) fn number<T: FromStr + Default + Copy>(&mut self) -> T
    where
        T::Err: Drop,
    {
        let number = self.word().parse::<T>().ok();
        self.or(number, T::default())
    }

    pub(crate) fn byte_of(&mut self, digits: &str) -> u8 {
        self.or(u8::from_str_radix(digits, 16).ok(), 0)
    }

    pub(crate) fn byte(&mut self) -> u8 {
        let digits = self.word();
        self.byte_of(digits)
    }

    pub(crate) fn model(&mut self) -> Model {
        let place = self.number::<usize>().wrapping_sub(2);
        self.or(MODELS.get(place).copied(), Model::M2)
    }

    pub(crate) fn size(&mut self) -> Size {
        self.model().alternate()
    }

    /// The bytes that a word encodes: pairs of hexadecimal digits, or `-` for none.
    pub(crate) fn bytes_of(&mut self, word: &str) -> Vec<u8> {
        match hex::decode(self.alloc, if word == "-" { "" } else { word }) {
            Ok(bytes) => return bytes,
            Err(FromHexError::OutOfMemory) => self.fail(Fault::NoMemory),
            Err(_) => self.fail(Fault::Line),
        }
        Vec::new(self.alloc)
    }

    /// The bytes of all remaining words, one after the other.
    pub(crate) fn bytes(&mut self) -> &[u8] {
        self.room.clear();
        for word in self.rest().split_whitespace() {
            let bytes = self.bytes_of(word);
            if self.room.extend_from_slice(bytes.as_slice()).is_err() {
                self.fail(Fault::NoMemory);
            }
        }
        self.room.as_slice()
    }

    /// The text that the bytes of all remaining words are.
    pub(crate) fn text(&mut self) -> &str {
        if str::from_utf8(self.bytes()).is_err() {
            self.fail(Fault::Line);
        }
        str::from_utf8(self.room.as_slice()).unwrap_or("")
    }
}

/// Bytes, printed as pairs of hexadecimal digits, or `-` for none.
#[derive(Drop)]
pub(crate) struct Hex<'a>(pub(crate) &'a [u8]);

impl Display for Hex<'_> {
    fn fmt<W: fmt::Write>(&self, f: &mut Formatter<W>) -> fmt::Result {
        if self.0.is_empty() {
            return f.write_str("-");
        }
        Ok(for byte in self.0 {
            write!(f, "{byte:02X}")?;
        })
    }
}

/// The lines of an answer, and the vector to which calls append.
#[derive(Drop)]
pub(crate) struct Answer {
    pub(crate) text: String,
    pub(crate) out: Vec<u8>,
    /// Whether there was no memory for a part of the text.
    pub(crate) lacks_memory: bool,
}

impl Answer {
    /// Room for the text is reserved, so that only the calls themselves can lack memory.
    pub(crate) fn new(alloc: Global) -> Result<Answer, AllocError> {
        Ok(Answer {
            text: String::with_capacity(alloc, 1 << 16)?,
            out: Vec::new(alloc),
            lacks_memory: false,
        })
    }

    /// Adds text, as `write!` and `writeln!` say.
    pub(crate) fn write_fmt<D: Display + Drop>(&mut self, text: D) {
        self.lacks_memory |= self.text.write_fmt(text).is_err();
    }

    /// Adds a line: a name, and bytes in hexadecimal, `-` for none.
    pub(crate) fn name(&mut self, name: &str, bytes: &[u8]) {
        writeln!(self, "{name} {}", Hex(bytes))
    }

    /// Adds a line: a value, printed by `{}`.
    pub(crate) fn say<T: Display>(&mut self, value: &T) {
        writeln!(self, "{value}")
    }

    /// Adds a line: a value, printed by `{:?}`.
    pub(crate) fn line<T: Debug>(&mut self, value: &T) {
        writeln!(self, "{value:?}")
    }

    /// Adds a line: the result of a call, printed by `{:?}`, or its fault, printed by `{}`.
    pub(crate) fn called<T: Debug, F: Display>(&mut self, called: &Result<T, F>) {
        match called {
            Ok(value) => self.line(value),
            Err(fault) => self.say(fault),
        }
    }

    /// Adds a line: a name, and each item, printed by `{:?}`.
    pub(crate) fn each<T: Debug + Drop, I: Iterator<Item = T> + Drop>(
        &mut self,
        name: &str,
        items: I,
    )
        requires can { I.can_next items }
        requires ends { IsFinite (I.remaining items) }
    {
        write!(self, "{name}");
        for item in items {
            write!(self, " {item:?}");
        }
        writeln!(self)
    }

    pub(crate) fn done(&mut self, called: Put) {
        let done = if called.is_ok() { "done" } else { "memory" };
        writeln!(self, "{done}")
    }

    /// Adds the lines of a text, each after `|`, if there was memory for it.
    pub(crate) fn page(&mut self, page: Result<String, AllocError>) {
        match page {
            Ok(text) => for line in text.lines() {
                writeln!(self, "|{line}");
            },
            Err(fault) => self.done(Err(fault)),
        }
    }

    /// Ends the answer. The fault of its line, if there is one, takes its place.
    pub(crate) fn end(&mut self, words: &Words<'_>) {
        let fault = match words.fault {
            Some(Fault::Line) => "? doesn't understand\n",
            None if !words.rest.is_empty() => "? doesn't understand\n",
            None if !self.lacks_memory => "",
            _ => "? no memory\n",
        };
        if !fault.is_empty() {
            self.text.clear();
        }
        write!(self, "{fault}.\n")
    }
}
