//! Which keystroke the bytes of a complete one are.
ghost use Rattle.std.specs.Prelude.{◌≡◌, ◌<◌, [], ◌∷◌, IfSome, Some, bytes_eq, length, position};
ghost use Rattle.std.specs.List.{list_any};
ghost use Rattle.std.specs.Str.{chars};
ghost use Rattle.tty.specs.KeySequences.{character, escaped, first_of, is_alt, is_semicolon, marked, meaning, other_keystroke, reported, side_of, size, size_report};

use crate::key_forms::ESC;
use crate::keystroke::Keystroke;
use std::str;

/// The sequences of the keys that have some, without their ESC. `KEY_NAMES` has their names, in the same order.
static NAMED_SEQUENCES: [&[&str]; 38] = [
    &["OP", "[11~", "[[A"],
    &["OQ", "[12~", "[[B"],
    &["OR", "[13~", "[[C"],
    &["OS", "[14~", "[[D"],
    &["[15~", "[[E"],
    &["[17~"],
    &["[18~"],
    &["[19~"],
    &["[20~"],
    &["[21~"],
    &["[23~"],
    &["[24~"],
    &["[1;2P", "[11;2~", "[25~"],
    &["[1;2Q", "[12;2~", "[26~"],
    &["[1;2R", "[13;2~", "[28~"],
    &["[1;2S", "[14;2~", "[29~"],
    &["[15;2~", "[31~"],
    &["[17;2~", "[32~"],
    &["[18;2~", "[33~"],
    &["[19;2~", "[34~"],
    &["[20;2~"],
    &["[21;2~"],
    &["[23;2~"],
    &["[24;2~"],
    &["[5~"],
    &["[6~"],
    &["[A", "OA"],
    &["[B", "OB"],
    &["[C", "OC"],
    &["[D", "OD"],
    &["[H", "OH", "[1~", "[7~"],
    &["[2~"],
    &["[3~"],
    &["[Z", "\t"],
    &["[F", "OF", "[4~", "[8~"],
    &["[1;2F"],
    &["[1;5F"],
    &["OM"],
];

/// Whether a sequence is one of these.
fn is_among(texts: &[&str], sequence: &[u8]) -> bool
    ensures { result ≡ list_any (λ text. bytes_eq text.now sequence.now) texts.now }
{
    texts.iter().any(|text| text.as_bytes() == sequence)
}

/// The index of the key that has this sequence.
fn place_of(keys: &[&[&str]], sequence: &[u8]) -> Option<usize>
    ensures place { result ≡ position (λ texts. list_any (λ text. bytes_eq text.now sequence.now) texts.now) keys.now }
    ensures in_range { IfSome result (λ place. place < length keys.now) }
{
    keys.iter().position(|texts| is_among(texts, sequence))
}

/// The number in three decimal digits; None if they aren't digits, or if it is 0.
fn side(hundreds: u8, tens: u8, ones: u8) -> Option<u16>
    ensures { result ≡ side_of (hundreds ∷ tens ∷ ones ∷ []) }
{
    if !(hundreds.is_ascii_digit() && tens.is_ascii_digit() && ones.is_ascii_digit()) {
        return None;
    }
    let side = u16::from(hundreds - b'0') * 100
        + u16::from(tens - b'0') * 10
        + u16::from(ones - b'0');
    if side > 0 { Some(side) } else { None }
}

/// The number of rows or columns that one to three decimal digits spell; None if they don't, or if it is 0.
fn side_of(digits: &[u8]) -> Option<u16>
    ensures { result ≡ side_of digits.now }
{
    match digits {
        [ones] => side(b'0', b'0', *ones),
        [tens, ones] => side(b'0', *tens, *ones),
        [hundreds, tens, ones] => side(*hundreds, *tens, *ones),
        _ => None,
    }
}

/// A size; nothing if it is the sequence of F3 with a modifier.
fn size(rows: u16, columns: u16) -> Keystroke
    ensures { result ≡ size (Some rows) (Some columns) }
{
    if rows == 1 && columns < 17 {
        Keystroke::Unknown
    } else {
        Keystroke::Size { rows, columns }
    }
}

/// The size of these numbers of rows and columns.
fn sized(rows: &[u8], columns: &[u8]) -> Keystroke
    ensures { result ≡ size (side_of rows.now) (side_of columns.now) }
{
    let Some(rows) = side_of(rows) else {
        return Keystroke::Unknown;
    };
    let Some(columns) = side_of(columns) else {
        return Keystroke::Unknown;
    };
    size(rows, columns)
}

/// The index of the first semicolon.
fn semicolon(parameters: &[u8]) -> Option<usize>
    ensures place { result ≡ position is_semicolon parameters.now }
    ensures in_range { IfSome result (λ place. place < length parameters.now) }
{
    parameters.iter().position(|byte| *byte == b';')
}

/// The size in the parameters of a report: the rows, `;` and the columns.
fn reported(parameters: &[u8]) -> Keystroke
    ensures { result ≡ reported parameters.now }
{
    match semicolon(parameters) {
        None => Keystroke::Unknown,
        Some(place) => sized(&parameters[..place], &parameters[place + 1..]),
    }
}

/// The size in a tty's report of its cursor's place, which is in the last row and column.
fn size_report(sequence: &[u8]) -> Keystroke
    ensures { result ≡ size_report sequence.now }
{
    match sequence {
        [b'[', parameters @ .., b'R'] => reported(parameters),
        _ => Keystroke::Unknown,
    }
}

/// Whether ESC and this byte are Alt and a key.
fn is_alt(byte: u8) -> bool
    ensures { result ≡ is_alt byte }
{
    matches!(byte, 0x20..=0x7E) && !matches!(byte, b'[' | b'O' | b']' | b'P')
}

/// The mark of a pasted text, or the report, that has this sequence.
fn marked(sequence: &[u8]) -> Keystroke
    ensures { result ≡ marked sequence.now }
{
    if sequence == b"[200~".as_slice() {
        Keystroke::PasteBegins
    } else if sequence == b"[201~".as_slice() {
        Keystroke::PasteEnds
    } else {
        size_report(sequence)
    }
}

/// The keystroke of a sequence that isn't in the table.
fn other_keystroke(sequence: &[u8]) -> Keystroke
    ensures { result ≡ other_keystroke sequence.now }
{
    match sequence {
        [byte] => {
            if is_alt(*byte) {
                Keystroke::Alt(*byte)
            } else {
                Keystroke::Unknown
            }
        }
        _ => marked(sequence),
    }
}

/// The keystroke that the bytes after ESC mean.
#[tactic(auto, unfolding(crate::specs::KeySequences::escaped))]
fn escaped(sequence: &[u8]) -> Keystroke
    ensures { result ≡ escaped sequence.now }
{
    match place_of(&NAMED_SEQUENCES, sequence) {
        Some(place) => Keystroke::Named(place as u8),
        None => other_keystroke(sequence),
    }
}

/// The keystroke for the first character of a text.
fn first_of(text: &str) -> Keystroke
    ensures { result ≡ first_of (chars text.now) }
{
    match text.chars().next() {
        Some(letter) => Keystroke::Char(letter),
        None => Keystroke::Unknown,
    }
}

/// The keystroke for the character that bytes encode in UTF-8.
#[tactic(auto, using(crate::proofs::Characters::well_formed, crate::proofs::Characters::ill_formed))]
fn character(bytes: &[u8]) -> Keystroke
    ensures { result ≡ character bytes.now }
{
    match str::from_utf8(bytes) {
        Ok(text) => first_of(text),
        Err(_) => Keystroke::Unknown,
    }
}

/// The keystroke that the bytes of a complete one mean.
pub(crate) fn meaning(bytes: &[u8]) -> Keystroke
    ensures { result ≡ meaning bytes.now }
{
    match bytes {
        [] => Keystroke::Unknown,
        [ESC, sequence @ ..] => escaped(sequence),
        [first, ..] => {
            if first.is_ascii_control() {
                Keystroke::Control(*first)
            } else {
                character(bytes)
            }
        }
    }
}
