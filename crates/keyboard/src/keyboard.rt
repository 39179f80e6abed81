//! The keyboard, and what each key does.
ghost use Rattle.std.specs.Prelude.{◌≡◌, ◌<◌, length};
ghost use Rattle.codes3270.specs.Size.{cells_in};
ghost use Rattle.datastream.specs.Meaning.{cleared};
ghost use Rattle.keyboard.specs.State.{fresh, freed};
ghost use Rattle.keyboard.specs.Keys.{pressed, acted, locked_out, reset, sent, keyboard_after, answer_to};

use crate::{Key, Lock, Pressed, Refusal, edits, places};
use codes3270::{Addr, Aid};
use presentation::Screen;
use std::marker::Model;

/// A keyboard: its lock, and whether insert mode is on. Contracts see these two.
#[derive(Clone, Copy, PartialEq, Eq)]
pub struct Keyboard {
    lock: Lock,
    inserting: bool,
}

impl Model for Keyboard {
    ghost use Rattle.keyboard.specs.State.{Keyboard as KeyboardValue};

    ghost Value = { KeyboardValue };

    ghost view = { λ keyboard. record { lock = keyboard.lock; inserting = keyboard.inserting } };

    ghost inverse = { λ kept. record { lock = kept.lock; inserting = kept.inserting } };
}

impl Keyboard {
    /// A keyboard before any write restored it: its lock is `Wait`, and insert mode is off (our profile).
    pub fn new() -> Keyboard
        ensures { result ≡ fresh }
    {
        Keyboard {
            lock: Lock::Wait,
            inserting: false,
        }
    }

    /// The keyboard lock.
    pub fn lock(&self) -> Lock
        ensures { result ≡ self.now.lock }
    {
        let Keyboard { lock, .. } = *self;
        lock
    }

    /// Whether insert mode is on. In it, a typed character shifts the rest of the field instead of overwriting it.
    pub fn inserting(&self) -> bool
        ensures { result ≡ self.now.inserting }
    {
        let Keyboard { inserting, .. } = *self;
        inserting
    }

    /// Restores the keyboard, as a WCC can ask (GA23-0059-07, "Write Control Character (WCC)"): its lock becomes
    /// `Free`. Insert mode stays as it is (our profile).
    pub fn restored(&mut self)
        ensures { self.new ≡ freed self.old }
    {
        self.lock = Lock::Free;
    }

    /// Presses a key (GA23-0059-07 on keyboard operation).
    ///
    /// If the lock isn't `Free`, only Reset acts, and it never ends `Wait`. Reasons to refuse a key are tested in the
    /// order that [`Refusal`] names. `Locked` and `NoCode` change nothing; other refusals set the lock to `Error` and
    /// change nothing else (our profile). Enter, PF, PA and Clear set the screen's AID, end insert mode and set the
    /// lock to `Wait`; the caller then reads what to send from the screen.
    pub fn press(&mut self, screen: &mut Screen, key: Key) -> Pressed
        ensures keyboard { self.new ≡ (pressed screen.old.size.columns key self.old screen.old.screen).keyboard }
        ensures screen { screen.new
            ≡ record screen.old { screen = (pressed screen.old.size.columns key self.old screen.old.screen).screen } }
        ensures answer { result ≡ (pressed screen.old.size.columns key self.old screen.old.screen).answer }
    {
        match self.lock {
            Lock::Free => self.act(screen, key),
            Lock::Wait | Lock::Error => self.stay_locked(screen, key),
        }
    }

    /// Presses a key while the lock isn't `Free`: all keys but Reset are refused.
    fn stay_locked(&mut self, screen: &Screen, key: Key) -> Pressed
        ensures keyboard { self.new ≡ (locked_out key self.old screen.now.screen).keyboard }
        ensures screen { (locked_out key self.old screen.now.screen).screen ≡ screen.now.screen }
        ensures answer { result ≡ (locked_out key self.old screen.now.screen).answer }
    {
        match key {
            Key::Reset => {
                self.reset();
                Pressed::Done
            }
            _ => Pressed::Refused(Refusal::Locked),
        }
    }

    /// Presses a key while the lock is `Free`.
    fn act(&mut self, screen: &mut Screen, key: Key) -> Pressed
        ensures keyboard { self.new ≡ (acted screen.old.size.columns key self.old screen.old.screen).keyboard }
        ensures screen { screen.new
            ≡ record screen.old { screen = (acted screen.old.size.columns key self.old screen.old.screen).screen } }
        ensures answer { result ≡ (acted screen.old.size.columns key self.old screen.old.screen).answer }
    {
        match key {
            Key::Char(letter) => {
                let typed = edits::type_character(screen, self.inserting(), letter);
                self.finish(typed)
            }
            Key::Delete => {
                let deleted = edits::delete(screen);
                self.finish(deleted)
            }
            Key::EraseEof => {
                let erased = edits::erase_to_field_end(screen);
                self.finish(erased)
            }
            Key::EraseInput => {
                screen.erase_unprotected();
                Pressed::Done
            }
            Key::Insert => {
                self.inserting = true;
                Pressed::Done
            }
            Key::Reset => {
                self.reset();
                Pressed::Done
            }
            Key::Enter => self.send(screen, Aid::Enter),
            Key::Pf(number) => self.send(screen, Aid::Pf(number)),
            Key::Pa(number) => self.send(screen, Aid::Pa(number)),
            Key::Clear => {
                clear(screen);
                self.send(screen, Aid::Clear)
            }
            Key::Tab => go(screen, places::next_start(screen, screen.cursor())),
            Key::BackTab => go(screen, places::start_before(screen, screen.cursor())),
            Key::NewLine => go(screen, places::next_line(screen, screen.cursor())),
            Key::Home => go(screen, screen.home()),
            Key::CursorUp => go(screen, places::up(screen, screen.cursor())),
            Key::CursorDown => go(screen, places::down(screen, screen.cursor())),
            Key::CursorLeft | Key::Backspace => go(screen, places::left(screen, screen.cursor())),
            Key::CursorRight => go(screen, places::right(screen, screen.cursor())),
        }
    }

    /// Ends insert mode, and the lock that a refused key set.
    fn reset(&mut self)
        ensures { self.new ≡ reset self.old }
    {
        self.inserting = false;
        if self.lock == Lock::Error {
            self.lock = Lock::Free;
        }
    }

    /// The result of an edit. If it was refused, this may set the lock.
    fn finish(&mut self, edit: Result<(), Refusal>) -> Pressed
        ensures keyboard { self.new ≡ keyboard_after edit self.old }
        ensures answer { result ≡ answer_to edit }
    {
        match edit {
            Ok(()) => Pressed::Done,
            Err(Refusal::Locked) => Pressed::Refused(Refusal::Locked),
            Err(Refusal::NoCode) => Pressed::Refused(Refusal::NoCode),
            Err(why) => {
                self.lock = Lock::Error;
                Pressed::Refused(why)
            }
        }
    }

    /// Sets the screen's AID, sets the lock to `Wait` and ends insert mode.
    fn send(&mut self, screen: &mut Screen, aid: Aid) -> Pressed
        ensures keyboard { self.new ≡ (sent aid self.old screen.old.screen).keyboard }
        ensures screen { screen.new ≡ record screen.old { screen = (sent aid self.old screen.old.screen).screen } }
        ensures answer { result ≡ (sent aid self.old screen.old.screen).answer }
    {
        screen.set_aid(aid);
        self.lock = Lock::Wait;
        self.inserting = false;
        Pressed::Send(screen.aid())
    }
}

/// Stores nulls in all cells, and puts the cursor at 0.
fn clear(screen: &mut Screen)
    ensures { screen.new ≡ record screen.old { screen = cleared (length screen.old.screen.cells) screen.old.screen } }
{
    // For the contract: there is a cell for each address of the screen's size.
    let _size = screen.size();
    screen.clear();
}

/// Moves the cursor to an address.
fn go(screen: &mut Screen, to: Addr) -> Pressed
    requires { to < cells_in screen.old.size }
    ensures screen { screen.new ≡ record screen.old { screen = record screen.old.screen { cursor = to } } }
    ensures answer { result ≡ Pressed.Done }
{
    screen.set_cursor(to);
    Pressed::Done
}
