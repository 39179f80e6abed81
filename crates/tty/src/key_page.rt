//! The table of keys, as a page for a screen of 24 rows and 80 columns.
use crate::action::Action;
use crate::action_names::PLAIN;
use crate::key_names::{KEY_COUNT, key_at, name_at};
use crate::keymap::Keymap;
use codes3270::{PaNo, PfNo};
use keyboard::Key;
use std::alloc::{AllocError, Global};

/// The PF key with a number.
fn pf(number: u8) -> Action {
    match PfNo::new(number) {
        Some(number) => Action::Key(Key::Pf(number)),
        None => Action::Nothing,
    }
}

/// The PA key with a number.
fn pa(number: u8) -> Action {
    match PaNo::new(number) {
        Some(number) => Action::Key(Key::Pa(number)),
        None => Action::Nothing,
    }
}

/// The action without a number at a place of `PLAIN`.
fn plain(place: usize) -> Action {
    match PLAIN.get(place) {
        Some((_, action)) => *action,
        None => Action::Nothing,
    }
}

/// The names of the keys that have an action, each behind a blank.
fn keys_of(keymap: &Keymap, alloc: Global, action: Action) -> Result<String, AllocError> {
    let mut names = String::new(alloc);
    for index in 0..KEY_COUNT {
        let name = name_at(alloc, index)?;
        if !name.is_empty() && keymap.action_of(key_at(index)) == action {
            names.push_str(" ")?;
            names.push_str(&name)?;
        }
    }
    Ok(names)
}

/// An action and its keys; nothing for an action that does nothing.
fn entry(keymap: &Keymap, alloc: Global, action: Action) -> Result<String, AllocError> {
    if action == Action::Nothing {
        return Ok(String::new(alloc));
    }
    let keys = keys_of(keymap, alloc, action)?;
    let name = format!(in alloc; "{action}")?;
    format!(in alloc; "{name:<10}{keys}")
}

/// A line of three actions and their keys.
fn line_of_three(
    keymap: &Keymap,
    alloc: Global,
    first: Action,
    second: Action,
    third: Action,
) -> Result<String, AllocError> {
    let first = entry(keymap, alloc, first)?;
    let second = entry(keymap, alloc, second)?;
    let third = entry(keymap, alloc, third)?;
    format!(in alloc; " {first:<22} {second:<27}{third}")
}

/// A line of two actions and their keys.
fn line_of_two(
    keymap: &Keymap,
    alloc: Global,
    first: Action,
    second: Action,
) -> Result<String, AllocError> {
    let first = entry(keymap, alloc, first)?;
    let second = entry(keymap, alloc, second)?;
    format!(in alloc; " {first:<51} {second}")
}

/// The action of the third column in a row of the page.
fn beside(row: u8) -> Action {
    if row < 3 {
        pa(row + 1)
    } else {
        plain(usize::from(row) - 3)
    }
}

/// The lines of the table of keys: each action by its name in a keymap, and the keys that have it.
pub(crate) fn lines_of(keymap: &Keymap, alloc: Global) -> Result<Vec<String>, AllocError> {
    let mut lines = Vec::new(alloc);
    lines.push(format!(in alloc; " Each action, and the keys that have it on this keyboard:")?)?;
    lines.push(String::new(alloc))?;
    for row in 0..12 {
        lines.push(line_of_three(keymap, alloc, pf(row + 1), pf(row + 13), beside(row))?)?;
    }
    lines.push(String::new(alloc))?;
    for row in 0..7 {
        lines.push(line_of_two(keymap, alloc, plain(row + 16), plain(row + 9))?)?;
    }
    lines.push(format!(in alloc; " The next key shows the screen again.")?)?;
    Ok(lines)
}
