//! A terminal's screen as text.
ghost use Rattle.std.specs.Prelude.{◌≡◌, ◌<◌, ◌≤◌, ◌+◌, ◌^◌, ◌++◌, length, take, drop, replicate, IfOk, OnOk, string_bytes};
ghost use Rattle.std.specs.List.{flat_map};
ghost use Rattle.std.specs.Char.{encode_utf8};
ghost use Rattle.presentation.specs.Glyph.{blank};
ghost use Rattle.term_core.specs.ScreenText.{let_out, waiting_behind, line_of, all_lines, insert_word, status_line, screen_text};

use crate::Terminal;
use codes3270::aid_byte;
use keyboard::Keyboard;
use presentation::{Glyphs, Screen};
use std::alloc::Global;
use telnet_wire::Memory;

const HEXADECIMAL: [char; 16] = [
    '0', '1', '2', '3', '4', '5', '6', '7', '8', '9', 'A', 'B', 'C', 'D', 'E', 'F',
];

/// Adds blanks.
fn put_blanks(text: &mut String, count: u16) -> Result<(), Memory>
    ensures { OnOk result
        (string_bytes text.new ≡ string_bytes text.old ++ flat_map encode_utf8 (replicate count blank)) }
{
    for _ in 0..count {
        text.push(' ')?;
    }
    Ok(())
}

/// Adds a character of a row, and before it the blanks that wait. A blank isn't added yet: it waits.
fn put_glyph(text: &mut String, waiting: u16, glyph: char) -> Result<(), Memory>
    ensures { OnOk result
        (string_bytes text.new ≡ string_bytes text.old ++ flat_map encode_utf8 (let_out waiting glyph)) }
{
    if glyph == ' ' {
        return Ok(());
    }
    put_blanks(text, waiting)?;
    text.push(glyph)
}

/// The number of blanks that wait after a character of a row, if `waiting` blanks wait before it.
fn waiting_behind(waiting: u16, glyph: char) -> u16
    requires { waiting + 1 < 2 ^ 16 }
    ensures count { result ≡ waiting_behind waiting glyph }
    ensures few { result ≤ waiting + 1 }
{
    if glyph == ' ' { waiting + 1 } else { 0 }
}

/// Adds the next row without the blanks at its end, and a newline.
fn put_line(text: &mut String, glyphs: &mut Glyphs<'_>, columns: u16) -> Result<(), Memory>
    requires { columns ≤ length glyphs.old }
    ensures text { OnOk result (string_bytes text.new ≡ string_bytes text.old ++ line_of (take columns glyphs.old)) }
    ensures left { OnOk result (glyphs.new ≡ drop columns glyphs.old) }
{
    let mut waiting = 0;
    for _ in 0..columns {
        let glyph = glyphs.next().unwrap_or(' ');
        put_glyph(text, waiting, glyph)?;
        waiting = waiting_behind(waiting, glyph);
    }
    text.push('\n')
}

/// Adds all rows.
fn put_lines(text: &mut String, screen: &Screen) -> Result<(), Memory>
    ensures { OnOk result (string_bytes text.new ≡ string_bytes text.old ++ all_lines screen.now) }
{
    let size = screen.size();
    let mut glyphs = screen.glyphs();
    for _ in 0..size.rows() {
        put_line(text, &mut glyphs, size.cols())?;
    }
    Ok(())
}

/// A screen's rows as text (our profile): a line for each row of the screen's size, without the blanks at the row's
/// end. Each line ends with a newline. Err only if memory is refused.
pub fn screen_lines(alloc: Global, screen: &Screen) -> Result<String, Memory>
    ensures { IfOk result (λ text. string_bytes text ≡ all_lines screen.now) }
{
    let mut text = String::new(alloc);
    put_lines(&mut text, screen)?;
    Ok(text)
}

/// The word after the lock's name: ` insert` in insert mode, else nothing.
fn insert_word(inserting: bool) -> &'static str
    ensures { result.now ≡ insert_word inserting }
{
    if inserting { " insert" } else { "" }
}

/// Adds the line with the cursor address, the keyboard lock and the AID.
fn put_status(text: &mut String, screen: &Screen, keyboard: Keyboard) -> Result<(), Memory>
    ensures { OnOk result (string_bytes text.new ≡ string_bytes text.old ++ status_line screen.now.screen keyboard) }
{
    let cursor = screen.cursor().get();
    let lock = keyboard.lock();
    let insert = insert_word(keyboard.inserting());
    let aid = aid_byte(screen.aid());
    let high = HEXADECIMAL[usize::from(aid / 16)];
    let low = HEXADECIMAL[usize::from(aid % 16)];
    write!(
        text,
        "cursor {cursor} lock {lock}{insert} aid {high}{low}\n"
    )
}

impl Terminal {
    /// The screen as text (our profile): its rows as `screen_lines` returns them, and a line `cursor N lock L aid XX`.
    /// N is the cursor address, L is `free`, `wait` or `error`, followed by ` insert` in insert mode, and XX is the AID
    /// in hexadecimal. Err only if memory is refused.
    pub fn screen_text(&self, alloc: Global) -> Result<String, Memory>
        ensures { IfOk result (λ text. string_bytes text ≡ screen_text self.now.terminal.station) }
    {
        let mut text = screen_lines(alloc, self.screen())?;
        put_status(&mut text, self.screen(), self.keyboard())?;
        Ok(text)
    }
}
