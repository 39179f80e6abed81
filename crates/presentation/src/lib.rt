//! The screen of a 3278, models 2 to 5: `Screen` holds the cells, the cursor and the AID. `apply` carries out a parsed
//! command, `put_read_buffer` and `put_read_modified` append the answers to reads, `glyphs` and `glyph_at` give the
//! displayed characters, `fields` and `field_at` the fields, and the other calls make the changes that keys make. Only
//! the two calls that append an answer allocate. Parsing is datastream's; keys are keyboard's; the host's record
//! of a screen is shadow's.
//!
//! ```text
//! let mut screen = Screen::blank(Model::M5);
//! let applied = screen.apply(&read_command(bytes, screen.size(), screen.model().alternate())?);
//! let glyph = screen.glyph_at(screen.cursor());
//! screen.put_read_modified(&mut out, false)?;
//! ```
//!
//! What commands, reads and fields mean is defined in datastream's `specs/`. Those here add the model and the size of a
//! screen (`Sizes`), what a command asks of the keyboard (`Applied`), the displayed characters (`Glyph`), and how
//! fields are listed (`Fields`).
#![tactic(auto)]

mod buffer;
mod cells;
mod fields;
mod glyph;
mod index;
mod read;
mod screen;
mod screen_cells;
mod write;

pub use fields::{Field, Fields};
pub use glyph::Glyphs;
pub use screen::Screen;
pub use write::Applied;
