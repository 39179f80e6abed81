//! Runs of characters, scanned eight bytes at a time.
ghost use Rattle.std.specs.Prelude.{◌≡◌, ◌≤◌, ◌<◌, ◌%◌, ◌/◌, ℕ, true, IsTrue, List, length, drop, slice_index_or};
ghost use Rattle.std.specs.List.{prefix_len};
ghost use Rattle.codes3270.specs.Storable.{is_storable};
ghost use Rattle.datastream.specs.ByteWords.{word, IsWordOf};
ghost use Rattle.datastream.specs.Grammar.{start_field};
ghost use Rattle.datastream.specs.InboundText.{is_text_char};
ghost use Rattle.datastream.specs.InboundReading.{PassesText};

use crate::order_codes::START_FIELD;
use codes3270::storable;

/// Bit 40 of each byte of a word.
const BITS_40: u64 = 0x4040_4040_4040_4040;

/// Eight bytes as a word. The first byte is the lowest.
fn word_of(bytes: [u8; 8]) -> u64
    ensures { result ≡ word bytes }
{
    let [a, b, c, d, e, f, g, h] = bytes;
    u64::from(a)
        + u64::from(b) * 0x100
        + u64::from(c) * 0x1_0000
        + u64::from(d) * 0x100_0000
        + u64::from(e) * 0x1_0000_0000
        + u64::from(f) * 0x100_0000_0000
        + u64::from(g) * 0x1_0000_0000_0000
        + u64::from(h) * 0x100_0000_0000_0000
}

/// The number of bytes of a word, from the lowest on, that are X'40' or above before the first that is below.
#[inline(always)]
fn count_high(word: u64) -> usize
    ensures few { result ≤ 8 }
    ensures high { (bytes : List ℕ) → IsWordOf bytes word → (place : ℕ) → place < result
        → 0x40 ≤ slice_index_or bytes place 0 }
{
    let low = !(word | word >> 1) & BITS_40;
    if low == 0 {
        8
    } else {
        low.trailing_zeros() as usize / 8
    }
}

/// The number of bytes at the front, at most eight, that are X'40' or above; 0 if there are fewer than eight bytes.
#[inline(always)]
fn count_in_word(text: &[u8]) -> usize
    ensures bound { result ≤ length text.now }
    ensures text { (place : ℕ) → place < result → is_text_char (slice_index_or text.now place 0) ≡ true }
{
    match text {
        [a, b, c, d, e, f, g, h, ..] => count_high(word_of([*a, *b, *c, *d, *e, *f, *g, *h])),
        _ => 0,
    }
}

/// The bytes from an index on.
#[inline(always)]
fn bytes_from(text: &[u8], place: usize) -> &[u8]
    requires { place ≤ length text.now }
    ensures { result.now ≡ drop place text.now }
{
    &text[place..]
}

/// The rest of a text after some of its leading characters. None of those passed over is null.
#[inline(always)]
pub(crate) fn behind_words(text: &[u8]) -> &[u8]
    ensures { PassesText text.now result.now }
{
    let mut rest = text;
    let mut count = count_in_word(rest);
    while count == 8 {
        rest = bytes_from(rest, 8);
        count = count_in_word(rest);
    }
    bytes_from(rest, count)
}

/// Whether a cell can hold a byte as a character. A run mostly ends at Start Field, so that is tested first.
#[inline(always)]
fn is_character(byte: u8) -> bool
    ensures { result ≡ is_storable byte }
{
    byte != START_FIELD && storable(byte)
}

/// Whether the first byte of a word is X'40' or above, and the second is Start Field.
#[inline(always)]
fn is_high_before_field(word: u64) -> bool
    ensures { IsTrue result → (0x40 ≤ word % 0x100) × (word % 0x1_0000 / 0x100 ≡ start_field) }
{
    word % 0x1_0000 / 0x100 == u64::from(START_FIELD) && word % 0x100 >= 0x40
}

/// Whether a text of eight bytes or more begins with exactly one character, followed by Start Field.
#[inline(always)]
fn has_one_character(text: &[u8]) -> bool
    ensures some { IsTrue result → 1 ≤ length text.now }
    ensures one { IsTrue result → drop (prefix_len is_storable text.now) text.now ≡ drop 1 text.now }
{
    match text {
        [a, b, c, d, e, f, g, h, ..] => {
            is_high_before_field(word_of([*a, *b, *c, *d, *e, *f, *g, *h]))
        }
        _ => false,
    }
}

/// The rest of a text after all its leading characters. A single character has a fast case: short fields are frequent.
#[inline(always)]
pub(crate) fn behind_characters(text: &[u8]) -> &[u8]
    ensures { result.now ≡ drop (prefix_len is_storable text.now) text.now }
{
    if has_one_character(text) {
        bytes_from(text, 1)
    } else {
        behind_run(text)
    }
}

/// The rest of a text after all its leading characters, however many there are.
#[inline(always)]
fn behind_run(text: &[u8]) -> &[u8]
    ensures { result.now ≡ drop (prefix_len is_storable text.now) text.now }
{
    let mut rest = behind_words(text);
    while let [byte, after @ ..] = rest {
        if !is_character(*byte) {
            return rest;
        }
        rest = after;
    }
    rest
}

/// The number of leading bytes that are characters.
#[inline(always)]
pub(crate) fn count_characters(text: &[u8]) -> usize
    ensures value { result ≡ prefix_len is_storable text.now }
    ensures bound { result ≤ length text.now }
{
    // The fast case for one character is here too, so that callers need not test for it.
    if has_one_character(text) {
        1
    } else {
        text.len() - behind_run(text).len()
    }
}
