//! Single calls of readers, writers and sources of random bytes.
ghost use Rattle.std.specs.Prelude.{◌≡◌, ℕ, List, IfSome, OnOk, length};
ghost use Rattle.std.specs.Io.{ReadsAtMost, WritesAtMost};
ghost use Rattle.std.specs.Io.KnownBytes.{Appends, ReadConsumes, WriteAppends};
ghost use Rattle.std.specs.Fmt.{with_newline};
ghost use Rattle.jobs.specs.RawCalls.{bytes_read};

use std::fmt::Display;
use std::io::{self, Read, Write};
use std::random::RandomSource;

/// A reader whose calls a contract can name.
///
/// `read_gave` relates the reader before a call, the buffer's size in bytes, the bytes that the call put there, its
/// answer, and the reader after it. Generic code obtains a `read_gave` only by a call, so its contract can say that it
/// made that call, and what it did with the answer.
pub trait RawRead {
    ghost use Rattle.std.specs.Prelude.{Option, Result};
    ghost use Rattle.std.specs.declared.io.Error.{Error};

    /// The bytes that later calls return, if they are known.
    ghost remaining: { Self → Option (List ℕ) };

    ghost read_gave: { Self → ℕ → List ℕ → Result ℕ Error → Self → Type 0 };

    /// Reads once. Returns the number of bytes; 0 at the end of the input.
    fn read_once(&mut self, buffer: &mut [u8]) -> io::Result<usize>
        ensures bound { ReadsAtMost result buffer.new }
        ensures bytes { ReadConsumes (remaining self.old) (remaining self.new) result buffer.new }
        ensures gave { read_gave self.old (length buffer.new) (bytes_read result buffer.new) result self.new };
}

/// A writer whose calls a contract can name.
///
/// `write_took` relates the writer before a call, the bytes of the call, its answer, and the writer after it.
/// `line_took` relates these for a line, by its text and newline, if the text is known.
pub trait RawWrite {
    ghost use Rattle.std.specs.Prelude.{Option, Result};
    ghost use Rattle.std.specs.declared.io.Error.{Error};

    /// The bytes that the writer has received, if they are known.
    ghost contents: { Self → Option (List ℕ) };

    ghost write_took: { Self → List ℕ → Result ℕ Error → Self → Type 0 };

    ghost line_took: { Self → Option (List ℕ) → Result Unit Error → Self → Type 0 };

    /// Writes once. Returns how many of the first bytes were taken.
    fn write_once(&mut self, bytes: &[u8]) -> io::Result<usize>
        ensures bound { WritesAtMost result bytes.now }
        ensures bytes { WriteAppends (contents self.old) (contents self.new) result bytes.now }
        ensures took { write_took self.old bytes.now result self.new };

    /// Writes a text and a newline.
    fn write_text_line<D: Display + Drop>(&mut self, text: D) -> io::Result<()>
        ensures bytes { OnOk result
            (IfSome (with_newline (D.output text)) (Appends (contents self.old) (contents self.new))) }
        ensures took { line_took self.old (with_newline (D.output text)) result self.new };
}

/// A source of random bytes whose calls a contract can name.
///
/// `filled` relates the source and the bytes that a call put into a buffer. Generic code obtains a `filled` only by a
/// call, so its contract can say that each bit of a value is one that the source gave.
pub trait RawRandom {
    ghost filled: { Self → List ℕ → Type 0 };

    /// Fills a buffer with random bytes, by one call.
    fn fill_once(&self, buffer: &mut [u8]) -> io::Result<()>
        ensures length { length buffer.new ≡ length buffer.old }
        ensures filled { OnOk result (filled self.now buffer.new) };
}

impl<R: RandomSource> RawRandom for R {
    ghost use Rattle.std.specs.Prelude.{⊤};

    ghost filled = { λ _ _. ⊤ };

    fn fill_once(&self, buffer: &mut [u8]) -> io::Result<()> {
        self.fill_bytes(buffer)
    }
}

// std's contracts say how many bytes a call moved, and which ones if they are known.

impl<R: Read> RawRead for R {
    ghost use Rattle.jobs.specs.RawCalls.{ReadsLeft};

    ghost remaining = { R.remaining };

    ghost read_gave = { λ old room bytes answer new. ReadsLeft (R.remaining old) room bytes answer (R.remaining new) };

    fn read_once(&mut self, buffer: &mut [u8]) -> io::Result<usize> {
        self.read(buffer)
    }
}

impl<W: Write> RawWrite for W {
    ghost use Rattle.jobs.specs.RawCalls.{WritesFront, WritesText};

    ghost contents = { W.contents };

    ghost write_took = { λ old bytes answer new. WritesFront (W.contents old) bytes answer (W.contents new) };

    ghost line_took = { λ old text answer new. WritesText (W.contents old) text answer (W.contents new) };

    fn write_once(&mut self, bytes: &[u8]) -> io::Result<usize> {
        self.write(bytes)
    }

    fn write_text_line<D: Display + Drop>(&mut self, text: D) -> io::Result<()> {
        self.writeln(text)
    }
}
