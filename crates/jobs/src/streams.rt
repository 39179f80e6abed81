//! The streams of a run. They count failures, so that a contract can say that only a failed stream ended a run early.
ghost use Rattle.std.specs.Prelude.{◌≡◌, ◌<◌, ℕ, IsErr, List, Option, Result, length};
ghost use Rattle.jobs.specs.Counted.{reader_in, writer_in};
ghost use Rattle.std.specs.Fmt.{with_newline};
ghost use Rattle.jobs.specs.Counting.{Input, Output, GivesWithin, Gives, Counts, Writes, WritesLine, bytes_given, chunk_size, more};
ghost use Rattle.jobs.specs.RawCalls.{count_taken};

use crate::raw::{RawRead, RawWrite};
use std::fmt::Display;
use std::io::{self, ErrorKind, Write};
use thiserror::Error;

/// The size of the buffer of each read, in bytes.
pub const CHUNK: usize = 4096;

/// The answer to a read.
#[derive(Clone, Copy)]
pub enum Answer {
    /// The read put this number of bytes, at least one, at the start of the buffer.
    Gave(usize),
    /// The end of the input.
    Ended,
    /// The read was interrupted before it did anything.
    Interrupted,
    /// The read failed.
    Failed,
}

/// A write that failed.
#[derive(Clone, Copy, Debug, PartialEq, Eq, Error)]
#[error("output failed")]
pub struct WriteFailed;

/// The input of a run.
///
/// `gave` relates the source before a read, the buffer's size in bytes, the bytes that the read gave, its answer, and
/// the source after it.
pub trait Source {
    ghost use Rattle.jobs.specs.declared.streams.Answer.{Answer};

    /// The bytes that later reads return, if they are known; and the counts of reads, of reads that found the end, and
    /// of failed reads. Only reads raise these counts.
    ghost seen: { Self → Input };

    ghost gave: { Self → ℕ → List ℕ → Answer → Self → Type 0 };

    /// Reads once, into a buffer that isn't empty.
    fn read(&mut self, buffer: &mut [u8]) -> Answer
        requires { 0 < length buffer.old }
        ensures within { GivesWithin result (length buffer.new) }
        ensures bytes { Gives result (seen self.old).left (seen self.new).left buffer.new }
        ensures counts { Counts result (seen self.old) (seen self.new) }
        ensures gave { gave self.old (length buffer.new) (bytes_given result buffer.new) result self.new };
}

/// The output of a run.
///
/// `wrote` relates the sink before a write, the bytes, the result, and the sink after it. `told` relates these for a
/// line, by its text and newline, if the text is known.
pub trait Sink {
    ghost use Rattle.jobs.specs.declared.streams.WriteFailed.{WriteFailed};

    /// The bytes that it has received, if they are known; and the count of failed writes. Only failed writes raise this
    /// count.
    ghost seen: { Self → Output };

    ghost wrote: { Self → List ℕ → Result Unit WriteFailed → Self → Type 0 };

    ghost told: { Self → Option (List ℕ) → Result Unit WriteFailed → Self → Type 0 };

    /// Writes all bytes. If it fails, some of the first bytes may have been written.
    fn write_all(&mut self, bytes: &[u8]) -> Result<(), WriteFailed>
        ensures counts { Writes result (seen self.old) (seen self.new) bytes.now }
        ensures wrote { wrote self.old bytes.now result self.new };

    /// Writes a text and a newline.
    fn write_line<D: Display + Drop>(&mut self, text: D) -> Result<(), WriteFailed>
        ensures counts { WritesLine result (seen self.old) (seen self.new) (D.output text) }
        ensures told { told self.old (with_newline (D.output text)) result self.new };
}

/// Reads once, into a buffer of `CHUNK` bytes.
pub fn read_chunk<I: Source>(source: &mut I, chunk: &mut [u8]) -> Answer
    requires { length chunk.old ≡ chunk_size }
    ensures within { GivesWithin result (length chunk.new) }
    ensures bytes { Gives result (I.seen source.old).left (I.seen source.new).left chunk.new }
    ensures counts { Counts result (I.seen source.old) (I.seen source.new) }
    ensures gave { I.gave source.old chunk_size (bytes_given result chunk.new) result source.new }
    ensures length { length chunk.new ≡ chunk_size }
{
    source.read(chunk)
}

/// A reader as a source, with counts.
#[derive(Drop)]
pub struct CountedReader<R> {
    reader: R,
    reads: u64,
    ends: u64,
    failures: u64,
}

impl<R: RawRead> CountedReader<R> {
    /// A source that reads from this reader. All counts are 0.
    pub fn new(reader: R) -> CountedReader<R>
        ensures reader { reader_in result ≡ reader }
        ensures unread { ⟦<CountedReader<R> as Source>⟧.seen result
            ≡ record { left = R.remaining reader; reads = 0; ends = 0; failures = 0 } }
    {
        CountedReader {
            reader,
            reads: 0,
            ends: 0,
            failures: 0,
        }
    }
}

impl<R: RawRead> Source for CountedReader<R> {
    ghost use Rattle.jobs.specs.RawCalls.{IsAnswered};

    ghost seen = { λ s. record { left = R.remaining s.reader; reads = s.reads; ends = s.ends; failures = s.failures } };

    ghost gave = { λ old room bytes answer new. IsAnswered R.read_gave old.reader room bytes answer new.reader };

    fn read(&mut self, buffer: &mut [u8]) -> Answer {
        self.reads = self.reads.saturating_add(1);
        match self.reader.read_once(buffer) {
            Ok(0) => {
                self.ends = self.ends.saturating_add(1);
                Answer::Ended
            }
            Ok(count) => Answer::Gave(count),
            Err(error) => {
                if error.kind() == ErrorKind::Interrupted {
                    Answer::Interrupted
                } else {
                    self.failures = self.failures.saturating_add(1);
                    Answer::Failed
                }
            }
        }
    }
}

/// A writer that ignores all bytes after the reader has closed the pipe, since a reader that needs no more is no fault.
/// The bytes that it has received aren't known.
#[derive(Drop)]
pub struct UntilClosed<W> {
    writer: W,
}

impl<W: Write> UntilClosed<W> {
    /// Writes to this writer until its pipe is closed.
    pub fn new(writer: W) -> UntilClosed<W> {
        UntilClosed { writer }
    }
}

impl<W: Write> Write for UntilClosed<W> {
    fn write(&mut self, bytes: &[u8]) -> io::Result<usize> {
        match self.writer.write(bytes) {
            Ok(count) => Ok(count),
            Err(error) if error.kind() == ErrorKind::BrokenPipe => Ok(bytes.len()),
            Err(error) => Err(error),
        }
    }

    fn flush(&mut self) -> io::Result<()> {
        self.writer.flush()
    }
}

/// A writer as a sink, with a count.
#[derive(Drop)]
pub struct CountedWriter<W> {
    writer: W,
    failures: u64,
}

/// How many bytes a write of at least one byte took: 0 if it was interrupted; None if it failed.
fn count_taken(answer: io::Result<usize>) -> Option<usize>
    ensures { result ≡ count_taken answer }
{
    match answer {
        Ok(0) => None,
        Ok(count) => Some(count),
        Err(error) if error.kind() == ErrorKind::Interrupted => Some(0),
        Err(_) => None,
    }
}

impl<W: RawWrite> CountedWriter<W> {
    /// A sink that writes to this writer. The count is 0.
    pub fn new(writer: W) -> CountedWriter<W>
        ensures writer { writer_in result ≡ writer }
        ensures unwritten { ⟦<CountedWriter<W> as Sink>⟧.seen result
            ≡ record { got = W.contents writer; failures = 0 } }
    {
        CountedWriter {
            writer,
            failures: 0,
        }
    }

    /// Counts a failure.
    fn fail(&mut self) -> Result<(), WriteFailed>
        ensures failed { IsErr result }
        ensures counted { self.new ≡ record self.old { failures = more self.old.failures 1 } }
    {
        self.failures = self.failures.saturating_add(1);
        Err(WriteFailed)
    }
}

impl<W: RawWrite> Sink for CountedWriter<W> {
    ghost use Rattle.jobs.specs.RawCalls.{WritesAll, WritesOneLine};

    ghost seen = { λ s. record { got = W.contents s.writer; failures = s.failures } };

    ghost wrote = { λ old bytes result new. WritesAll W.write_took old.writer bytes result new.writer };

    ghost told = { λ old text result new. WritesOneLine W.line_took old.writer text result new.writer };

    fn write_all(&mut self, bytes: &[u8]) -> Result<(), WriteFailed> {
        let mut taken = 0;
        for _ in 0..u64::MAX {
            if taken == bytes.len() {
                return Ok(());
            }
            match count_taken(self.writer.write_once(&bytes[taken..])) {
                Some(count) => taken += count,
                None => return self.fail(),
            }
        }
        self.fail()
    }

    fn write_line<D: Display + Drop>(&mut self, text: D) -> Result<(), WriteFailed> {
        match self.writer.write_text_line(text) {
            Ok(()) => Ok(()),
            Err(_) => self.fail(),
        }
    }
}
