//! Converts a text to characters of EBCDIC code page 037. The codes themselves are the crate `codes3270`'s.
//!
//! [`plain_text`] replaces characters that the code page doesn't have: typographic punctuation by its plain form, a
//! letter by the letters that it consists of without their accents, a control character by a blank, and anything else
//! by a question mark.
ghost use Rattle.std.specs.Prelude.{◌≡◌, ◌<◌, ◌++◌, chars, false, flat_map, length, option_map, string_bytes, IfOk, OnErr, OnOk};
ghost use Rattle.std.specs.List.{list_all};
ghost use Rattle.unicode_normalization.specs.Forms.{nfc};
ghost use Rattle.applications.specs.PlainTexts.{count_without_code, has_code, is_writable, lacks_code, letter, plain_form, plain_text, punctuation, substitute, written};

use codes3270::from_latin1;
use std::alloc::{AllocError, Global};
use unicode_normalization::Form;
use unicode_normalization::char::{decomposition, is_combining_mark};
use unicode_normalization::slice::extend_nfc;

/// What is written for a character that has neither a code nor a plain form.
const UNKNOWN: &str = "?";

/// Whether code page 037 has a character.
fn has_code(character: char) -> bool
    ensures { result ≡ has_code character }
{
    from_latin1(character).is_some()
}

/// Whether some character of a text has no code in code page 037.
pub(crate) fn lacks_code(text: &str) -> bool
    ensures { result ≡ lacks_code text.now }
{
    text.chars().any(|character| !has_code(character))
}

/// The number of characters of a text that have no code in code page 037.
pub(crate) fn count_without_code(text: &str) -> usize
    ensures { result ≡ count_without_code text.now }
{
    text.chars()
        .filter(|character| !has_code(*character))
        .count()
}

/// The plain form of punctuation that Unicode doesn't decompose.
fn punctuation(character: char) -> Option<&'static str>
    ensures { option_map (λ it. it.now) result ≡ punctuation character }
{
    match character {
        '\u{2018}'..='\u{201B}' => Some("'"),
        '\u{201C}'..='\u{201F}' => Some("\""),
        '\u{2039}' => Some("<"),
        '\u{203A}' => Some(">"),
        '\u{02BC}' => Some("'"),
        '\u{2032}' => Some("'"),
        '\u{2010}'..='\u{2015}' => Some("-"),
        '\u{2212}' => Some("-"),
        '\u{2044}' => Some("/"),
        '\u{1680}' => Some(" "),
        '\u{2028}'..='\u{2029}' => Some(" "),
        '\u{200B}'..='\u{200F}' => Some(""),
        '\u{2060}' => Some(""),
        '\u{FEFF}' => Some(""),
        _ => None,
    }
}

/// The plain form of a letter that Unicode doesn't decompose.
fn letter(character: char) -> Option<&'static str>
    ensures { option_map (λ it. it.now) result ≡ letter character }
{
    match character {
        '\u{0110}' => Some("D"),
        '\u{0111}' => Some("d"),
        '\u{0131}' => Some("i"),
        '\u{0141}' => Some("L"),
        '\u{0142}' => Some("l"),
        '\u{0152}' => Some("OE"),
        '\u{0153}' => Some("oe"),
        _ => None,
    }
}

/// The plain form of a character that Unicode doesn't decompose.
fn substitute(character: char) -> Option<&'static str>
    ensures { option_map (λ it. it.now) result ≡ substitute character }
{
    punctuation(character).or(letter(character))
}

/// Whether a part of a decomposition can be written.
fn is_writable(part: char) -> bool
    ensures { result ≡ is_writable part }
{
    has_code(part) || is_combining_mark(part) || substitute(part).is_some()
}

/// Whether each part of a decomposition can be written.
fn are_writable(parts: &[char]) -> bool
    ensures { result ≡ list_all is_writable parts.now }
{
    for part in parts {
        if !is_writable(*part) {
            return false;
        }
    }
    true
}

/// Appends what is written for a part of a decomposition. For a combining mark, such as an accent, that is nothing.
fn put_part(plain: &mut String, part: char) -> Result<(), AllocError>
    ensures { OnOk result (string_bytes plain.new ≡ string_bytes plain.old ++ written part) }
{
    if has_code(part) {
        plain.push(part)
    } else {
        plain.push_str(substitute(part).unwrap_or(""))
    }
}

/// Appends what is written for the parts of a decomposition.
fn put_parts(plain: &mut String, parts: &[char]) -> Result<(), AllocError>
    ensures { OnOk result (string_bytes plain.new ≡ string_bytes plain.old ++ flat_map written parts.now) }
{
    for part in parts {
        put_part(plain, *part)?;
    }
    Ok(())
}

/// Appends the plain form of a character.
fn put_plain_form(plain: &mut String, character: char) -> Result<(), AllocError>
    ensures { OnOk result (string_bytes plain.new ≡ string_bytes plain.old ++ plain_form character) }
{
    if has_code(character) {
        return plain.push(character);
    }
    if character.is_control() {
        return plain.push(' ');
    }
    let mut room = [character; 3];
    let parts = decomposition(character, Form::Nfkd, &mut room);
    if are_writable(parts) {
        put_parts(plain, parts)
    } else {
        plain.push_str(UNKNOWN)
    }
}

/// Appends the plain forms of characters.
fn put_plain_forms(plain: &mut String, characters: &[char]) -> Result<(), AllocError>
    ensures { OnOk result (string_bytes plain.new ≡ string_bytes plain.old ++ flat_map plain_form characters.now) }
{
    for character in characters {
        put_plain_form(plain, *character)?;
    }
    Ok(())
}

/// The characters of a text.
fn characters_of(alloc: Global, text: &str) -> Result<Vec<char>, AllocError>
    ensures { IfOk result (λ characters. characters.items ≡ chars text.now) }
{
    text.chars().collect(alloc)
}

/// The characters of a text in normalization form C, in which letters and accents are composed.
fn composed(alloc: Global, text: &str) -> Result<Vec<char>, AllocError>
    ensures { IfOk result (λ characters. characters.items ≡ nfc (chars text.now)) }
{
    let characters = characters_of(alloc, text)?;
    let mut composed = Vec::new(alloc);
    extend_nfc(&mut composed, characters.as_slice())?;
    Ok(composed)
}

/// Returns a text in the characters of code page 037: the text itself if all its characters have codes, else the text
/// with each other character replaced. Fails if memory runs out. An empty text needs no memory.
#[tactic(auto, using(crate::proofs::PlainForms::plain_lacks_none, crate::proofs::PlainForms::lacking_is_a_text))]
pub(crate) fn plain_text(alloc: Global, text: &str) -> Result<String, AllocError>
    ensures plain { IfOk result (λ plain. string_bytes plain ≡ plain_text text.now) }
    ensures coded { IfOk result (λ plain. lacks_code (string_bytes plain) ≡ false) }
    ensures memory { OnErr result (0 < length text.now) }
{
    let mut plain = String::new(alloc);
    if !lacks_code(text) {
        plain.push_str(text)?;
        return Ok(plain);
    }
    let characters = composed(alloc, text)?;
    put_plain_forms(&mut plain, characters.as_slice())?;
    Ok(plain)
}
