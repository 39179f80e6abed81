//! What an operator's tty sends and shows: its keys and its screen. This crate does no input or output, and what a key
//! does is up to `keyboard`.
//!
//! A [`KeyReader`] takes the bytes of a tty in raw mode one by one, cut anywhere. Most keys are one byte, or the bytes
//! of one character in UTF-8; the others are escape sequences. Only a pause distinguishes a lone ESC from the first
//! byte of a sequence: the program calls [`KeyReader::pause`] if no byte arrives for a while. No call of it allocates.
//! What a key does a [`Keymap`] says.
//!
//! ```text
//! let mut reader = KeyReader::new();
//! for byte in typed {
//!     let pushed = reader.push(*byte);
//!     if pushed.interrupted {
//!         ring_the_bell();
//!     }
//!     if let Some(keystroke) = pushed.keystroke {
//!         act_on(keystroke);
//!     }
//! }
//! ```
//!
//! A [`Picture`] is what an operator sees of a screen, a keyboard and a [`Status`], or a page of text, or a notice: a
//! list of cells, each a character and a [`Look`]. A [`Drawing`] remembers the picture that an ANSI tty (xterm, tmux, the
//! Linux console) shows, and [`Drawing::draw`] appends the bytes that turn it into the next picture: in each row only the
//! cells that changed are written. [`Drawing::forget`] makes the next call draw all.
//!
//! ```text
//! let mut drawing = Drawing::new(Colors::Dark);
//! check_room(screen.model().alternate(), rows, columns)?;
//! let picture = Picture::new(alloc, &screen, keyboard, &status)?;
//! drawing.draw(picture, &mut out)?;
//! ```
//!
//! `specs/` has the definitions. `KeySequences` says what each sequence means, `KeyForms` which byte ends a keystroke,
//! and `KeyReading` which keystrokes a list of bytes is. [`laws::cut_anywhere`] has the law that it makes no difference
//! how the bytes are cut, and [`laws::keys_are_read`] laws about `KeyForms`: it lets each sequence of the table and each
//! character through, and no unknown sequence types a character. `Tty` says what a tty does with the control functions
//! that are used here (ECMA-48), `Spelling` how they are encoded, `Painting` what a picture shows, `StatusRow` its status
//! row, and `Drawn` when a tty shows a picture. `Changes` is the list of what is written.
#![tactic(auto)]

mod action;
mod action_names;
mod colors;
mod drawing;
mod key_forms;
mod key_names;
mod key_page;
mod key_reader;
mod key_sequences;
mod keymap;
mod keystroke;
pub mod laws;
mod look;
mod output;
mod picture;
mod place;
mod room;
mod standard_keys;
mod status;

pub use action::Action;
pub use colors::Colors;
pub use drawing::Drawing;
pub use key_reader::KeyReader;
pub use keymap::{Binding, Keymap, KeymapFault};
pub use keystroke::{Keystroke, PushResult};
pub use look::Look;
pub use output::put_bell;
pub use picture::{Picture, PictureCell};
pub use place::Place;
pub use room::{TooSmall, check_room};
pub use status::{Status, StatusPlace, Trouble};
