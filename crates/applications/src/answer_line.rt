//! The operand of a script's `answer`: the name of a panel, and pairs name=value (our profile).
ghost use Rattle.std.specs.Prelude.{◌≡◌, ◌<◌, IfOk, drop, false, option_map, take};
ghost use Rattle.std.specs.Str.{IsCharBoundary};
ghost use Rattle.applications.specs.AnswerDrafts.{parts_in};
ghost use Rattle.applications.specs.AnswerLines.{answer_in, answer_of_parts, cut_at, is_quoted_after, message_text, no_parts, pair_of, panel_of_name, taken_as, value_text, with_cursor_in, with_message, with_text_of, with_word, with_words, word_length, words_after};
ghost use Rattle.panels.specs.Names.{field_named, number_named};

use crate::application_reply::{message_bytes, set_text};
use crate::plain_text::lacks_code;
use host_core::Answer;
use panels::{MessageText, PanelSet, Values};
use std::alloc::{AllocError, Global};

// ---- words

/// Whether the text after a character is between quotes, given whether the character was.
fn is_quoted_after(letter: u8, quoted: bool) -> bool
    ensures { result ≡ is_quoted_after letter quoted }
{
    if letter == b'"' { !quoted } else { quoted }
}

/// The length of the first word of a text, in bytes. A blank between quotes belongs to the word.
fn word_length(text: &[u8]) -> usize
    ensures length { result ≡ word_length false text.now }
    ensures boundary { IsCharBoundary text.now result }
{
    let mut quoted = false;
    for (place, letter) in text.iter().enumerate() {
        if *letter == b' ' && !quoted {
            return place;
        }
        quoted = is_quoted_after(*letter, quoted);
    }
    text.len()
}

/// The first word of a text, and the rest, which is empty or begins with a blank.
fn first_word(text: &str) -> (&str, &str)
    ensures word { result.0.now ≡ take (word_length false text.now) text.now }
    ensures rest { result.1.now ≡ drop (word_length false text.now) text.now }
{
    text.split_at(word_length(text.as_bytes()))
}

/// The texts before and after the first occurrence of an ASCII character; None if there is none.
fn cut_at(mark: char, text: &str) -> Option<(&str, &str)>
    requires { mark < 128 }
    ensures { option_map (λ parts. (parts.0.now, parts.1.now)) result ≡ cut_at mark text.now }
{
    text.split_once(mark)
}

/// The text of a value: what is between its two quotes, or the value itself if it has no quotes.
fn value_text(value: &str) -> Option<&str>
    ensures { option_map (λ text. text.now) result ≡ value_text value.now }
{
    let Some((before, quoted)) = cut_at('"', value) else {
        return Some(value);
    };
    if !before.is_empty() {
        return None;
    }
    let (text, after) = cut_at('"', quoted)?;
    if after.is_empty() { Some(text) } else { None }
}

/// A word's name and its text. The name ends before the first `=`.
fn pair_of(word: &str) -> Option<(&str, &str)>
    ensures { option_map (λ pair. (pair.0.now, pair.1.now)) result ≡ pair_of word.now }
{
    let (name, value) = cut_at('=', word)?;
    let text = value_text(value)?;
    Some((name, text))
}

// ---- the parts of an answer

/// The message with this text.
fn message_text(alloc: Global, text: &str) -> Result<MessageText, AllocError>
    ensures { IfOk result (λ message. message ≡ message_text text.now) }
{
    let characters = message_bytes(alloc, text)?;
    Ok(MessageText::new(characters.as_slice()))
}

/// The parts of an answer that the pairs read so far give.
#[derive(Drop)]
struct AnswerDraft {
    values: Values,
    message: Option<MessageText>,
    cursor: Option<usize>,
}

impl AnswerDraft {
    /// No pair is read yet.
    fn new(alloc: Global) -> AnswerDraft
        ensures { parts_in result ≡ no_parts }
    {
        AnswerDraft {
            values: Values::new(alloc),
            message: None,
            cursor: None,
        }
    }

    /// Sets the message. False if there is one already, or if a character has no code in code page 037.
    fn set_message(&mut self, alloc: Global, text: &str) -> Result<bool, AllocError>
        ensures { IfOk result
            (λ taken. with_message text.now (parts_in self.old) ≡ taken_as taken (parts_in self.new)) }
    {
        if self.message.is_some() || lacks_code(text) {
            return Ok(false);
        }
        self.message = Some(message_text(alloc, text)?);
        Ok(true)
    }

    /// Sets the field for the cursor, by its name. False if there is no such field, or if it is already set.
    fn set_cursor(&mut self, panels: &PanelSet, name: &str) -> bool
        ensures { with_cursor_in (field_named name.now panels.now) (parts_in self.old)
            ≡ taken_as result (parts_in self.new) }
    {
        let Some(field) = panels.field_named(name) else {
            return false;
        };
        if self.cursor.is_some() {
            return false;
        }
        self.cursor = Some(field.number);
        true
    }

    /// Sets the text of the field or value with this name. False if there is none, if it has a text already, or if a
    /// character has no code in code page 037.
    fn set_field(
        &mut self,
        alloc: Global,
        panels: &PanelSet,
        name: &str,
        text: &str,
    ) -> Result<bool, AllocError>
        ensures { IfOk result (λ taken. with_text_of (number_named name.now panels.now) text.now (parts_in self.old)
            ≡ taken_as taken (parts_in self.new)) }
    {
        let Some(number) = panels.number_named(name) else {
            return Ok(false);
        };
        if self.values.get(number).is_some() || lacks_code(text) {
            return Ok(false);
        }
        set_text(alloc, number, text, &mut self.values)?;
        Ok(true)
    }

    /// Takes one word, a pair name=value. False if it is invalid.
    fn take(&mut self, alloc: Global, panels: &PanelSet, word: &str) -> Result<bool, AllocError>
        ensures { IfOk result (λ taken. with_word panels.now (pair_of word.now) (parts_in self.old)
            ≡ taken_as taken (parts_in self.new)) }
    {
        match pair_of(word) {
            Some(("message", text)) => self.set_message(alloc, text),
            Some(("cursor", name)) => Ok(self.set_cursor(panels, name)),
            Some((name, text)) => self.set_field(alloc, panels, name, text),
            None => Ok(false),
        }
    }

    /// Takes words, each after a blank. False at the first invalid one.
    fn take_all(&mut self, alloc: Global, panels: &PanelSet, text: &str) -> Result<bool, AllocError>
        ensures { IfOk result (λ taken. with_words panels.now (words_after text.now) (parts_in self.old)
            ≡ taken_as taken (parts_in self.new)) }
    {
        let mut rest = text;
        while let Some(words) = rest.strip_prefix(' ') {
            let (word, behind) = first_word(words);
            if !self.take(alloc, panels, word)? {
                return Ok(false);
            }
            rest = behind;
        }
        Ok(true)
    }

    /// The answer that shows this panel, or the current one if it is None.
    fn into_answer(self, panel: Option<usize>) -> Answer
        ensures { result ≡ answer_of_parts panel (parts_in self) }
    {
        Answer {
            panel,
            values: self.values,
            message: self.message.unwrap_or(MessageText::new(&[])),
            cursor: self.cursor,
        }
    }
}

// ---- the answer

/// The number of the panel with this name; Some(None) for `-`, the panel that is shown; None if there is no such panel.
fn panel_of_name(panels: &PanelSet, name: &str) -> Option<Option<usize>>
    ensures { result ≡ panel_of_name panels.now name.now }
{
    match name {
        "-" => Some(None),
        _ => Some(Some(panels.panel_named(name)?)),
    }
}

/// The answer that a text describes. None if there is no such panel or field, if a name occurs twice, if a character
/// has no code in code page 037, or if the quotes don't match. An error if memory is refused.
pub fn answer_in(alloc: Global, panels: &PanelSet, text: &str) -> Result<Option<Answer>, AllocError>
    ensures { IfOk result (λ answer. answer ≡ answer_in panels.now text.now) }
{
    let (name, words) = first_word(text);
    let Some(panel) = panel_of_name(panels, name) else {
        return Ok(None);
    };
    let mut draft = AnswerDraft::new(alloc);
    if !draft.take_all(alloc, panels, words)? {
        return Ok(None);
    }
    Ok(Some(draft.into_answer(panel)))
}
