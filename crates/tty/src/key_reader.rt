//! The reader: bytes go in, keystrokes come out.
ghost use Rattle.std.specs.Prelude.{◌≡◌, ◌==◌, [], length};
ghost use Rattle.std.specs.Option.{option_to_list};
ghost use Rattle.tty.specs.KeyForms.{breaks_off, front};
ghost use Rattle.tty.specs.KeySequences.{meaning};
ghost use Rattle.tty.specs.KeyReading.{grown, read_byte, after_pause, keystrokes_of};

use crate::key_forms::{ESC, completes, is_late, may_continue, outlasts};
use crate::key_sequences::meaning;
use crate::keystroke::{Keystroke, PushResult};
use arrayvec::ArrayVec;
use std::marker::Model;

/// The most bytes that are kept of an incomplete sequence. Each sequence that has a meaning is shorter.
const MOST_KEPT: usize = 12;

/// Reads keystrokes from bytes, cut anywhere. Contracts see it as the bytes since the last complete
/// keystroke, of which it keeps the first 12.
#[derive(Debug, Drop)]
pub struct KeyReader {
    kept: ArrayVec<u8, MOST_KEPT>,
}

impl Model for KeyReader {
    ghost use Rattle.std.specs.Prelude.{ℕ, List};

    ghost Value = { List ℕ };

    ghost view = { λ reader. reader.kept.items };
}

impl KeyReader {
    /// A reader that has taken no byte.
    pub fn new() -> KeyReader
        ensures { result ≡ [] }
    {
        KeyReader {
            kept: ArrayVec::new(),
        }
    }

    /// Whether no keystroke has begun; then a pause has no meaning.
    pub fn is_empty(&self) -> bool
        ensures { result ≡ (length self.now == 0) }
    {
        self.kept.is_empty()
    }

    /// Takes the next byte, and returns the keystroke that it completes, if it completes one.
    pub fn push(&mut self, byte: u8) -> PushResult
        ensures keystrokes { keystrokes_of result ≡ (read_byte self.old byte).keystrokes }
        ensures kept { self.new ≡ (read_byte self.old byte).kept }
    {
        let interrupted = self.begin(byte);
        let is_last = completes(&self.kept, byte);
        self.keep(byte);
        let keystroke = if is_last { Some(self.take()) } else { None };
        PushResult {
            interrupted,
            keystroke,
        }
    }

    /// Drops the kept bytes, if this one doesn't go on with them. Answers whether it breaks off a keystroke.
    fn begin(&mut self, byte: u8) -> bool
        ensures interrupted { result ≡ breaks_off self.old byte }
        ensures kept { self.new ≡ front self.old byte }
    {
        if may_continue(&self.kept, byte) {
            return false;
        }
        let late = is_late(&self.kept);
        self.kept.clear();
        if late && byte == b'[' {
            self.kept.push(ESC);
        }
        !late
    }

    /// Keeps a byte, if there is room.
    #[tactic(auto, using(crate::proofs::Single::full_stays))]
    fn keep(&mut self, byte: u8)
        ensures { self.new ≡ grown self.old byte }
    {
        if !self.kept.is_full() {
            self.kept.push(byte);
        }
    }

    /// Returns the keystroke that the kept bytes mean, and drops the bytes.
    fn take(&mut self) -> Keystroke
        ensures keystroke { result ≡ meaning self.old }
        ensures kept { self.new ≡ [] }
    {
        let keystroke = meaning(&self.kept);
        self.kept.clear();
        keystroke
    }

    /// Reports that no byte arrived for a while. This ends an incomplete character or control string, as a
    /// [`Keystroke::Unknown`]. A lone ESC is nothing from now on, but a slow line may deliver a sequence in pieces: if
    /// the next byte is `[`, it goes on with the sequence, and so does what comes behind ESC and `[` or `O`.
    ///
    /// The caller decides how long a pause is.
    pub fn pause(&mut self) -> Option<Keystroke>
        ensures keystroke { option_to_list result ≡ (after_pause self.old).keystrokes }
        ensures kept { self.new ≡ (after_pause self.old).kept }
    {
        if self.kept.is_empty() || is_late(&self.kept) || outlasts(&self.kept) {
            return None;
        }
        let escaped = matches!(self.kept.as_slice(), [ESC]);
        if escaped {
            self.kept.push(ESC);
            return None;
        }
        self.kept.clear();
        Some(Keystroke::Unknown)
    }
}
