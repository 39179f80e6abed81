//! A live terminal: the bytes of an operator's tty and of a host come in, and what the tty is to be written goes out.
ghost use Rattle.std.specs.Prelude.{◌≡◌, ◌<◌, ◌≤◌, [], None, false, IfOk, OnErr, OnOk, drop, length};
ghost use Rattle.term_core.specs.Presses.{after_key, answer_to_key};
ghost use Rattle.term_core.specs.Room.{out_room};
ghost use Rattle.term_core.specs.State.{phase_of, connected, lost, model_of};
ghost use Rattle.tty.specs.KeyReading.{read_byte};
ghost use Rattle.tty.specs.Painting.{notice_of, page_of};
ghost use Rattle.tty.specs.TtyRoom.{too_small_text};
ghost use Rattle.operate.specs.Live.{Draws, DrawsIf, Hears, IsOutOfMemory, PausesIf, ReadsTyped, Resumes, Sounds, TakesTurn, Types, after_action, after_key_at, after_keystroke, after_keystrokes, after_maybe, after_meaning, after_other, after_pasted, after_press, after_save, after_stroke, after_time, after_typed, after_typing, all_typed, cursor_of, cut_off, can_edit, erased, first_seat, follows_attribute, has_bytes, held, is_pause, is_refused, lack_at, page_at, pasted_key, pasting, picture_at, resized, rung, screen_at, seconds_of, told, trouble_after};
ghost use Rattle.std.specs.Option.{option_to_list};
ghost use Rattle.std.specs.Prelude.{Option};

use crate::meaning::{
    after_help, asks_after, can_edit, connects, cut_trouble, follows_attribute, is_connected,
    is_keys, is_quit, is_refused, is_reset, is_reset_action, is_unlocked, lu_place, pasted_key,
    seconds_of, status_place, trouble_after, waits,
};
use crate::settings::Settings;
use crate::typed::{MOST_AHEAD, Paste, Typeahead, Typed};
use codes3270::Model;
use jobs::TtySize;
use keyboard::Key;
use std::alloc::{AllocError, Global};
use std::marker;
use term_core::{TermPhase, Terminal, screen_lines};
use tn3270e_msg::{Lu, Stop};
use tty::{
    Action, Colors, Drawing, KeyReader, Keymap, Keystroke, Picture, Status, TooSmall, Trouble,
    check_room, put_bell,
};

/// What an operator asks of the program.
#[derive(Clone, Copy)]
pub enum OperatorRequest {
    /// Nothing.
    Nothing,
    /// That it connects to the host again.
    Connect,
    /// That it ends.
    Quit,
}

/// What an operator asked to see, until the next key.
#[derive(Clone, Copy)]
pub enum Overlay {
    /// Nothing but the screen.
    Nothing,
    /// The status row over the last row of the screen, if the tty has no row for it.
    Status,
    /// The table of keys in place of the screen.
    Keys,
}

/// A terminal that an operator uses at a tty. It owns neither the tty nor the connection: its caller hands it the bytes
/// of both, and sends and writes what it returns.
///
/// Contracts see its seat (the terminal, the keys that were typed ahead, what the status row says of the last key, what is
/// shown over the screen, the operator's request and settings, the screens that must be saved, the size of the tty, and
/// the picture that it shows), the bytes of an incomplete keystroke, and the capacity of the terminal's output buffer in
/// bytes.
#[derive(Drop)]
pub struct LiveTerminal {
    alloc: Global,
    terminal: Terminal,
    /// The keys that were typed while the keyboard waits for the host.
    typeahead: Typeahead,
    reader: KeyReader,
    drawing: Drawing,
    trouble: Option<Trouble>,
    overlay: Overlay,
    asked: OperatorRequest,
    /// Whether the bell must ring.
    rings: bool,
    paste: Paste,
    /// For how many milliseconds no byte was typed.
    idle: u32,
    /// For how many milliseconds the keyboard has waited.
    waited: u32,
    /// The text of the screens that must be saved.
    saved: Vec<u8>,
    settings: Settings,
    size: TtySize,
}

impl marker::Model for LiveTerminal {
    ghost use Rattle.operate.specs.Live.{Live};

    ghost Value = { Live };

    ghost view = { λ live. record {
      seat = record {
        terminal = live.terminal.terminal;
        typeahead = live.typeahead;
        trouble = live.trouble;
        overlay = live.overlay;
        asks = live.asked;
        rings = live.rings;
        paste = live.paste;
        idle = live.idle;
        waited = live.waited;
        saved = live.saved.items;
        settings = live.settings;
        size = live.size;
        colors = live.drawing.colors;
        shown = live.drawing.shown;
      };
      kept = live.reader;
      room = live.terminal.room;
    } };
}

/// Presses a key. Answers whether it was refused.
fn press(
    terminal: &mut Terminal,
    key: Key,
    trouble: &mut Option<Trouble>,
) -> Result<bool, AllocError>
    ensures pressed { OnOk result (terminal.new.terminal ≡ after_key key terminal.old.terminal) }
    ensures refused { IfOk result (λ refused. refused ≡ is_refused (answer_to_key key terminal.old.terminal)) }
    ensures trouble { OnOk result (trouble.new ≡ trouble_after (answer_to_key key terminal.old.terminal) trouble.old) }
{
    match terminal.press(key) {
        Ok(pressed) => {
            *trouble = trouble_after(&pressed, *trouble);
            Ok(is_refused(&pressed))
        }
        Err(error) => Err(error),
    }
}

impl LiveTerminal {
    /// A terminal of a model without a connection, at a tty of this size, of which it isn't known what it shows, and
    /// which is drawn in these colours. Its keys do what is usual, with a bell, no screen is saved, and a read without a
    /// byte ends an incomplete keystroke. An error if memory is refused.
    pub fn new(
        alloc: Global,
        model: Model,
        size: TtySize,
        colors: Colors,
    ) -> Result<LiveTerminal, AllocError>
        ensures seat { IfOk result (λ live. live.seat ≡ first_seat live.seat.settings model size colors) }
        ensures keys { IfOk result (λ live. live.seat.settings.keymap ≡ []) }
        ensures escape { IfOk result (λ live. live.seat.settings.escape ≡ 0) }
        ensures bell { IfOk result (λ live. live.seat.settings.quiet ≡ false) }
        ensures saves { IfOk result (λ live. live.seat.settings.saves ≡ false) }
        ensures kept { IfOk result (λ live. live.kept ≡ []) }
    {
        let keymap = Keymap::standard(alloc);
        let page = keymap.page(alloc)?;
        let settings = Settings {
            keymap,
            page,
            escape: 0,
            quiet: false,
            saves: false,
        };
        LiveTerminal::with_settings(alloc, model, size, colors, settings)
    }

    /// A terminal with these settings.
    fn with_settings(
        alloc: Global,
        model: Model,
        size: TtySize,
        colors: Colors,
        settings: Settings,
    ) -> Result<LiveTerminal, AllocError>
        ensures seat { IfOk result (λ live. live.seat ≡ first_seat settings model size colors) }
        ensures kept { IfOk result (λ live. live.kept ≡ []) }
    {
        Ok(LiveTerminal {
            alloc,
            terminal: Terminal::new(alloc, model)?,
            typeahead: Typeahead::new(),
            reader: KeyReader::new(),
            drawing: Drawing::new(colors),
            trouble: None,
            overlay: Overlay::Nothing,
            asked: OperatorRequest::Nothing,
            rings: false,
            paste: Paste::Off,
            idle: 0,
            waited: 0,
            saved: Vec::new(alloc),
            settings,
            size,
        })
    }

    /// Uses this keymap from now on. An error if memory is refused for the table of keys; then nothing changes.
    pub fn use_keymap(&mut self, alloc: Global, keymap: Keymap) -> Result<(), AllocError>
        ensures seat { OnOk result (self.new.seat ≡ record self.old.seat {
          settings = record self.old.seat.settings {
            keymap = keymap;
            page = self.new.seat.settings.page;
          };
        }) }
        ensures kept { self.new.kept ≡ self.old.kept }
        ensures unchanged { OnErr result (self.new ≡ self.old) }
    {
        self.settings.page = keymap.page(alloc)?;
        self.settings.keymap = keymap;
        Ok(())
    }

    /// Waits for the rest of a keystroke for this many milliseconds without a byte.
    pub fn wait_for_escape(&mut self, millis: u32)
        ensures seat { self.new.seat
            ≡ record self.old.seat { settings = record self.old.seat.settings { escape = millis } } }
        ensures kept { self.new.kept ≡ self.old.kept }
    {
        self.settings.escape = millis;
    }

    /// Says whether the bell doesn't ring for keys.
    pub fn be_quiet(&mut self, quiet: bool)
        ensures seat { self.new.seat
            ≡ record self.old.seat { settings = record self.old.seat.settings { quiet = quiet } } }
        ensures kept { self.new.kept ≡ self.old.kept }
    {
        self.settings.quiet = quiet;
    }

    /// Says whether there is a file in which screens are saved.
    pub fn save_screens(&mut self, saves: bool)
        ensures seat { self.new.seat
            ≡ record self.old.seat { settings = record self.old.seat.settings { saves = saves } } }
        ensures kept { self.new.kept ≡ self.old.kept }
    {
        self.settings.saves = saves;
    }

    /// The text of the screens that must be saved: a line for each row, in UTF-8. A hidden field is blank in it.
    pub fn saved(&self) -> &[u8]
        ensures { result.now ≡ self.now.seat.saved }
    {
        self.saved.as_slice()
    }

    /// Drops the text of the screens that must be saved.
    pub fn drop_saved(&mut self)
        ensures { self.new ≡ record self.old { seat = record self.old.seat { saved = [] } } }
    {
        self.saved.clear();
    }

    /// Takes the time that passed since the last call, in milliseconds.
    pub fn pass(&mut self, millis: u32)
        ensures seat { self.new.seat ≡ after_time millis self.old.seat }
        ensures kept { self.new.kept ≡ self.old.kept }
    {
        self.idle = self.idle.saturating_add(millis);
        self.waited = if waits(&self.terminal) {
            self.waited.saturating_add(millis)
        } else {
            0
        };
    }

    /// The seconds that the keyboard has waited, below 60,000.
    pub fn seconds(&self) -> u16
        ensures { result ≡ seconds_of self.now.seat.waited }
    {
        seconds_of(self.waited)
    }

    /// Whether the bell must ring for what was typed.
    pub fn rings(&self) -> bool
        ensures { result ≡ self.now.seat.rings }
    {
        self.rings
    }

    /// Tells the operator what failed: why there is no connection to the host, or that a screen isn't saved.
    pub fn fail(&mut self, why: Trouble)
        ensures seat { self.new.seat ≡ told (record self.old.seat { trouble = Option.Some why }) }
        ensures kept { self.new.kept ≡ self.old.kept }
    {
        self.trouble = Some(why);
        self.tell();
    }

    /// The phase of the terminal's connection.
    pub fn phase(&self) -> TermPhase
        ensures { result ≡ phase_of self.now.seat.terminal.link }
    {
        self.terminal.phase()
    }

    /// Begins a connection, on which the terminal requests this LU, if one is given. Must be called only in phase Idle.
    /// Memory is needed only if the terminal's output lacks room; if it is refused, nothing changes.
    pub fn connect(&mut self, wanted: Option<Lu>) -> Result<(), AllocError>
        requires { phase_of self.old.seat.terminal.link ≡ TermPhase.Idle }
        ensures seat { OnOk result (self.new.seat
            ≡ record self.old.seat { terminal = connected (model_of self.old.seat.terminal) wanted; trouble = None }) }
        ensures kept { OnOk result (self.new.kept ≡ self.old.kept) }
        ensures room { OnOk result (out_room ≤ self.new.room) }
        ensures full { OnErr result (self.old.room < out_room) }
        ensures unchanged { OnErr result (self.new ≡ self.old) }
    {
        self.terminal.make_room()?;
        self.terminal.connected(wanted);
        self.trouble = None;
        Ok(())
    }

    /// Takes the loss of the connection. Unsent output and the keys that were typed ahead are lost, too; the screen
    /// stays.
    pub fn lose(&mut self)
        ensures seat { self.new.seat
            ≡ record self.old.seat { terminal = lost self.old.seat.terminal; typeahead = []; trouble = None } }
        ensures kept { self.new.kept ≡ self.old.kept }
    {
        self.terminal.lost();
        self.typeahead.clear();
        self.trouble = None;
    }

    /// The bytes that the terminal has to send.
    pub fn out(&self) -> &[u8]
        ensures { result.now ≡ self.now.seat.terminal.out }
    {
        self.terminal.out()
    }

    /// Drops the first `count` bytes of `out`, which were sent.
    pub fn sent(&mut self, count: usize)
        requires { count ≤ length self.old.seat.terminal.out }
        ensures { self.new ≡ record self.old {
          seat = record self.old.seat {
            terminal = record self.old.seat.terminal { out = drop count self.old.seat.terminal.out };
          };
        } }
    {
        self.terminal.sent(count);
    }

    /// What the operator has asked for since the last call of this function.
    pub fn take_asked(&mut self) -> OperatorRequest
        ensures asked { result ≡ self.old.seat.asks }
        ensures taken { self.new ≡ record self.old { seat = record self.old.seat { asks = OperatorRequest.Nothing } } }
    {
        std::mem::replace(&mut self.asked, OperatorRequest::Nothing)
    }

    /// Has the bell ring, unless keys are quiet.
    fn ring(&mut self)
        ensures seat { self.new.seat ≡ rung self.old.seat }
        ensures kept { self.new.kept ≡ self.old.kept }
    {
        self.rings |= !self.settings.quiet;
    }

    /// Tells the operator that a key was refused.
    fn tell(&mut self)
        ensures seat { self.new.seat ≡ told self.old.seat }
        ensures kept { self.new.kept ≡ self.old.kept }
    {
        self.overlay = Overlay::Status;
        self.ring();
    }

    /// Presses a key.
    fn press(&mut self, key: Key) -> Result<(), AllocError>
        ensures seat { OnOk result (self.new.seat ≡ after_press key self.old.seat) }
        ensures kept { self.new.kept ≡ self.old.kept }
    {
        let connects = connects(&key, &self.terminal);
        let asked = asks_after(&key, &self.terminal.phase(), self.asked);
        let refused = press(&mut self.terminal, key, &mut self.trouble)?;
        self.asked = asked;
        if connects {
            self.trouble = None;
        } else if refused {
            self.tell();
        }
        Ok(())
    }

    /// Erases the character before the cursor: presses Cursor Left and Delete. At the first character of a field it does
    /// nothing, and where nothing can be edited Delete is refused.
    fn erase(&mut self) -> Result<(), AllocError>
        ensures seat { let terminal = self.old.seat.terminal in
            OnOk result (self.new.seat ≡ erased (can_edit terminal) (follows_attribute terminal) self.old.seat) }
        ensures kept { OnOk result (self.new.kept ≡ self.old.kept) }
    {
        if !can_edit(&self.terminal) {
            return self.press(Key::Delete);
        }
        if follows_attribute(&self.terminal) {
            self.trouble = None;
            return Ok(());
        }
        self.press(Key::CursorLeft)?;
        self.press(Key::Delete)
    }

    /// Presses a key, or the keys of Erase.
    fn press_typed(&mut self, typed: Typed) -> Result<(), AllocError>
        ensures seat { OnOk result (self.new.seat ≡ after_typed typed self.old.seat) }
        ensures kept { OnOk result (self.new.kept ≡ self.old.kept) }
    {
        match typed {
            Typed::Key(key) => self.press(key),
            Typed::Erase => self.erase(),
        }
    }

    /// Keeps a key that is typed ahead, if there are fewer than 256; if not, the bell rings. It needs no memory.
    fn keep(&mut self, typed: Typed)
        ensures seat { self.new.seat ≡ held typed self.old.seat }
        ensures kept { self.new.kept ≡ self.old.kept }
    {
        if self.typeahead.len() < MOST_AHEAD {
            self.typeahead.push(typed);
        } else {
            self.ring();
        }
    }

    /// Takes a key: keeps it if the keyboard waits for the host, else presses it. Reset drops the keys that were kept.
    fn type_key(&mut self, typed: Typed) -> Result<(), AllocError>
        ensures seat { OnOk result (self.new.seat ≡ after_typing typed self.old.seat) }
        ensures kept { OnOk result (self.new.kept ≡ self.old.kept) }
    {
        if is_reset(&typed) {
            self.typeahead.clear();
            self.press(Key::Reset)
        } else if waits(&self.terminal) {
            self.keep(typed);
            Ok(())
        } else {
            self.press_typed(typed)
        }
    }

    /// Takes keys in order.
    fn type_keys(&mut self, keys: &[Typed]) -> Result<(), AllocError>
        ensures seat { OnOk result (self.new.seat ≡ all_typed keys.now self.old.seat) }
        ensures kept { OnOk result (self.new.kept ≡ self.old.kept) }
    {
        for typed in keys {
            self.type_key(*typed)?;
        }
        Ok(())
    }

    /// Takes the keys that were typed ahead: presses them in order until the keyboard waits, and keeps the rest.
    fn resume(&mut self) -> Result<(), AllocError>
        ensures { OnOk result (Resumes self.old self.new) }
    {
        let keys = std::mem::replace(&mut self.typeahead, Typeahead::new());
        self.type_keys(keys.as_slice())
    }

    /// Takes a key, and shows the screen again. At the table of keys it does nothing else.
    fn take_key(&mut self, typed: Typed) -> Result<(), AllocError>
        ensures seat { OnOk result (self.new.seat ≡ after_key_at typed self.old.seat) }
        ensures kept { OnOk result (self.new.kept ≡ self.old.kept) }
    {
        let at_keys = is_keys(self.overlay);
        self.overlay = Overlay::Nothing;
        if at_keys {
            return Ok(());
        }
        self.type_key(typed)
    }

    /// Takes the new size of the tty, of which it isn't known any more what it shows.
    fn resize(&mut self, rows: u16, columns: u16)
        ensures seat { self.new.seat ≡ resized rows columns self.old.seat }
        ensures kept { self.new.kept ≡ self.old.kept }
    {
        self.size = TtySize { rows, columns };
        self.drawing.forget();
    }

    /// Adds the rows of the screen to the text that must be saved, if there is a file for it; if not, the bell rings.
    fn save(&mut self) -> Result<(), AllocError>
        ensures seat { OnOk result (self.new.seat ≡ after_save self.old.seat) }
        ensures kept { OnOk result (self.new.kept ≡ self.old.kept) }
    {
        if !self.settings.saves {
            self.ring();
            return Ok(());
        }
        let text = screen_lines(self.alloc, self.terminal.screen())?;
        self.saved.extend_from_slice(text.as_bytes())
    }

    /// Performs an action. The bell rings for a key that does nothing.
    fn perform(&mut self, action: Action) -> Result<(), AllocError>
        ensures seat { OnOk result (self.new.seat ≡ after_action action self.old.seat) }
        ensures kept { OnOk result (self.new.kept ≡ self.old.kept) }
    {
        match action {
            Action::Key(key) => return self.take_key(Typed::Key(key)),
            Action::Erase => return self.take_key(Typed::Erase),
            Action::Redraw => self.drawing.forget(),
            Action::Save => return self.save(),
            Action::Status => self.overlay = Overlay::Status,
            Action::Help => self.overlay = after_help(self.overlay),
            Action::Quit => self.asked = OperatorRequest::Quit,
            Action::Nothing => self.ring(),
        }
        Ok(())
    }

    /// The address of the cursor.
    fn cursor(&self) -> u16
        ensures { result ≡ cursor_of self.now.seat }
    {
        self.terminal.screen().cursor().get()
    }

    /// Begins to take a pasted text.
    fn begin_paste(&mut self)
        ensures seat { self.new.seat ≡ pasting self.old.seat }
        ensures kept { self.new.kept ≡ self.old.kept }
    {
        self.paste = Paste::From(self.cursor());
        self.overlay = Overlay::Nothing;
    }

    /// Leaves out the rest of a pasted text, and tells the operator.
    fn cut_paste(&mut self)
        ensures seat { self.new.seat ≡ cut_off self.old.seat }
        ensures kept { self.new.kept ≡ self.old.kept }
    {
        self.paste = Paste::Cut;
        self.trouble = cut_trouble(self.terminal.lock(), self.trouble);
        self.tell();
    }

    /// Takes a key of a pasted text, of which the key before was pressed with the cursor at `from`.
    fn take_pasted(&mut self, from: u16, key: Key) -> Result<(), AllocError>
        ensures seat { OnOk result (self.new.seat ≡ after_pasted from key self.old.seat) }
        ensures kept { OnOk result (self.new.kept ≡ self.old.kept) }
    {
        let cursor = self.cursor();
        if is_unlocked(self.terminal.lock()) && from <= cursor {
            self.paste = Paste::From(cursor);
            self.press(key)
        } else {
            self.cut_paste();
            Ok(())
        }
    }

    /// Takes a keystroke in a pasted text that is no key of it.
    fn take_other(&mut self, keystroke: Keystroke) -> Result<(), AllocError>
        ensures seat { OnOk result (self.new.seat ≡ after_other keystroke self.old.seat) }
        ensures kept { OnOk result (self.new.kept ≡ self.old.kept) }
    {
        match keystroke {
            Keystroke::PasteEnds => self.paste = Paste::Off,
            Keystroke::Size { rows, columns } => self.resize(rows, columns),
            _ => {
                if is_reset_action(self.settings.keymap.action_of(keystroke)) {
                    self.paste = Paste::Off;
                    return self.take_key(Typed::Key(Key::Reset));
                }
            }
        }
        Ok(())
    }

    /// Takes a keystroke in a pasted text of which the rest isn't left out.
    fn take_in_paste(&mut self, from: u16, keystroke: Keystroke) -> Result<(), AllocError>
        ensures seat { OnOk result
            (self.new.seat ≡ after_maybe (pasted_key keystroke) from keystroke self.old.seat) }
        ensures kept { OnOk result (self.new.kept ≡ self.old.kept) }
    {
        match pasted_key(keystroke) {
            Some(key) => self.take_pasted(from, key),
            None => self.take_other(keystroke),
        }
    }

    /// Takes a keystroke that isn't in a pasted text.
    fn act_on(&mut self, keystroke: Keystroke) -> Result<(), AllocError>
        ensures seat { OnOk result (self.new.seat ≡ after_meaning keystroke self.old.seat) }
        ensures kept { OnOk result (self.new.kept ≡ self.old.kept) }
    {
        match keystroke {
            Keystroke::Char(letter) => return self.take_key(Typed::Key(Key::Char(letter))),
            Keystroke::Size { rows, columns } => self.resize(rows, columns),
            Keystroke::PasteBegins => self.begin_paste(),
            Keystroke::PasteEnds => {}
            Keystroke::Unknown => self.ring(),
            Keystroke::Control(_) | Keystroke::Alt(_) | Keystroke::Named(_) => {
                let action = self.settings.keymap.action_of(keystroke);
                return self.perform(action);
            }
        }
        Ok(())
    }

    /// Takes a keystroke, by how far a pasted text is.
    fn take_stroke(&mut self, keystroke: Keystroke) -> Result<(), AllocError>
        ensures seat { OnOk result (self.new.seat ≡ after_stroke self.old.seat.paste keystroke self.old.seat) }
        ensures kept { OnOk result (self.new.kept ≡ self.old.kept) }
    {
        match self.paste {
            Paste::Off => self.act_on(keystroke),
            Paste::Cut => self.take_other(keystroke),
            Paste::From(from) => self.take_in_paste(from, keystroke),
        }
    }

    /// Takes a keystroke. It is ignored once the operator has asked to end the program.
    fn take(&mut self, keystroke: Keystroke) -> Result<(), AllocError>
        ensures seat { OnOk result (self.new.seat ≡ after_keystroke keystroke self.old.seat) }
        ensures kept { OnOk result (self.new.kept ≡ self.old.kept) }
    {
        if is_quit(self.asked) {
            Ok(())
        } else {
            self.take_stroke(keystroke)
        }
    }

    /// Takes the keystroke that a byte completes or a pause ends, if there is one.
    fn take_some(&mut self, keystroke: Option<Keystroke>) -> Result<(), AllocError>
        ensures seat { OnOk result
            (self.new.seat ≡ after_keystrokes (option_to_list keystroke) self.old.seat) }
        ensures kept { OnOk result (self.new.kept ≡ self.old.kept) }
    {
        match keystroke {
            Some(keystroke) => self.take(keystroke),
            None => Ok(()),
        }
    }

    /// Takes a byte that was typed at the tty.
    fn take_byte(&mut self, byte: u8) -> Result<(), AllocError>
        ensures seat { OnOk result
            (self.new.seat ≡ after_keystrokes (read_byte self.old.kept byte).keystrokes self.old.seat) }
        ensures kept { OnOk result (self.new.kept ≡ (read_byte self.old.kept byte).kept) }
    {
        let pushed = self.reader.push(byte);
        if pushed.interrupted {
            self.take(Keystroke::Unknown)?;
        }
        self.take_some(pushed.keystroke)
    }

    /// Takes bytes that were typed at the tty.
    fn take_bytes(&mut self, typed: &[u8]) -> Result<(), AllocError>
        ensures { OnOk result (ReadsTyped typed.now self.old self.new) }
    {
        for byte in typed {
            self.take_byte(*byte)?;
        }
        Ok(())
    }

    /// Whether no byte was typed for so long that an incomplete keystroke isn't waited for any more.
    fn is_pause(&self) -> bool
        ensures { result ≡ is_pause self.now.seat }
    {
        self.settings.escape <= self.idle
    }

    /// Ends an incomplete keystroke, if no byte was typed for long.
    fn pause(&mut self) -> Result<(), AllocError>
        ensures { OnOk result (PausesIf (is_pause self.old.seat) self.old self.new) }
    {
        if !self.is_pause() {
            return Ok(());
        }
        let keystroke = self.reader.pause();
        self.take_some(keystroke)
    }

    /// Takes the bytes of a read of the tty: presses their keys in order. A read without a byte ends an incomplete
    /// keystroke, if no byte was typed for long.
    pub fn take_typed(&mut self, typed: &[u8]) -> Result<(), AllocError>
        ensures { OnOk result (Types typed.now self.old self.new) }
    {
        if typed.is_empty() {
            return self.pause();
        }
        self.idle = 0;
        self.take_bytes(typed)
    }

    /// Takes bytes received from the host. An error only if memory is refused: a host that breaks the protocol makes
    /// the terminal close the connection, which its phase says.
    fn hear(&mut self, came: &[u8]) -> Result<(), AllocError>
        ensures hears { OnOk result (Hears came.now self.old self.new) }
        ensures memory { OnErr result (IsOutOfMemory came.now self.old self.new) }
    {
        match self.terminal.feed(came).stop {
            Stop::Memory => Err(AllocError),
            Stop::Going | Stop::Closed(_) => Ok(()),
        }
    }

    /// Why the tty has no room for the screens of the terminal's model; None if it has.
    fn lack(&self) -> Option<TooSmall>
        ensures { result ≡ lack_at self.now.seat }
    {
        let TtySize { rows, columns } = self.size;
        let model = self.terminal.screen().model();
        check_room(model.alternate(), rows, columns).err()
    }

    /// What the tty must show.
    fn picture(&self, alloc: Global) -> Result<Picture, AllocError>
        ensures { IfOk result (λ picture. picture ≡ picture_at self.now.seat) }
    {
        match self.lack() {
            Some(lack) => self.notice(alloc, lack),
            None => self.page(alloc),
        }
    }

    /// The picture that says what the tty lacks.
    fn notice(&self, alloc: Global, lack: TooSmall) -> Result<Picture, AllocError>
        ensures { let size = self.now.seat.size in
            IfOk result (λ picture. picture ≡ notice_of size.rows size.columns (too_small_text lack)) }
    {
        let text = format!(in alloc; "{lack}")?;
        let TtySize { rows, columns } = self.size;
        Picture::notice(alloc, rows, columns, &text)
    }

    /// The picture of the screen, or of the table of keys, if that is shown.
    fn page(&self, alloc: Global) -> Result<Picture, AllocError>
        ensures { IfOk result (λ picture. picture ≡ page_at self.now.seat) }
    {
        if is_keys(self.overlay) {
            self.keys_picture(alloc)
        } else {
            self.screen_picture(alloc)
        }
    }

    /// The picture of the table of keys.
    fn keys_picture(&self, alloc: Global) -> Result<Picture, AllocError>
        ensures { IfOk result (λ picture. picture ≡ page_of self.now.seat.terminal.station.screen self.now.seat.settings.page) }
    {
        Picture::page(alloc, self.terminal.screen(), self.settings.lines())
    }

    /// The picture of the screen.
    fn screen_picture(&self, alloc: Global) -> Result<Picture, AllocError>
        ensures { IfOk result (λ picture. picture ≡ screen_at self.now.seat) }
    {
        let screen = self.terminal.screen();
        let phase = self.terminal.phase();
        let status = Status {
            place: status_place(self.overlay, self.size.rows, screen),
            connected: is_connected(&phase),
            trouble: self.trouble,
            lu: lu_place(&phase),
            held: self.typeahead.len() > 0,
            seconds: seconds_of(self.waited),
        };
        Picture::new(alloc, screen, self.terminal.keyboard(), &status)
    }

    /// Appends the bytes with which the tty shows the current picture.
    fn draw(&mut self, alloc: Global, drawn: &mut Vec<u8>) -> Result<(), AllocError>
        ensures { OnOk result (Draws self.old self.new drawn.old.items drawn.new.items) }
    {
        let picture = self.picture(alloc)?;
        self.drawing.draw(picture, drawn)
    }

    /// Appends the bytes with which the tty shows the screen after the host's bytes, if there are any.
    fn show_heard(
        &mut self,
        alloc: Global,
        came: &[u8],
        drawn: &mut Vec<u8>,
    ) -> Result<(), AllocError>
        ensures { OnOk result (DrawsIf (has_bytes came.now) self.old self.new drawn.old.items drawn.new.items) }
    {
        if came.is_empty() {
            return Ok(());
        }
        self.draw(alloc, drawn)
    }

    /// Appends BEL, if a write of the host asked for the alarm, or what was typed has the bell ring.
    fn sound(&mut self, drawn: &mut Vec<u8>) -> Result<(), AllocError>
        ensures { OnOk result (Sounds self.old self.new drawn.old.items drawn.new.items) }
    {
        let alarm = self.terminal.take_alarm();
        let rings = std::mem::replace(&mut self.rings, false);
        if alarm || rings {
            put_bell(drawn)?;
        }
        Ok(())
    }

    /// One turn: takes the bytes received from the host, then the keys that were typed ahead, then the bytes typed at
    /// the tty, and appends to `drawn` the bytes to be written to the tty, with BEL if a write asked for the alarm, or if what was typed has the bell ring. What
    /// the host's bytes show is drawn before a key is pressed on it. The bytes to be sent are then in `out`.
    pub fn turn(
        &mut self,
        alloc: Global,
        came: &[u8],
        typed: &[u8],
        drawn: &mut Vec<u8>,
    ) -> Result<(), AllocError>
        ensures { OnOk result (TakesTurn came.now typed.now self.old self.new drawn.old.items drawn.new.items) }
    {
        self.hear(came)?;
        self.show_heard(alloc, came, drawn)?;
        self.resume()?;
        self.take_typed(typed)?;
        self.draw(alloc, drawn)?;
        self.sound(drawn)
    }
}
