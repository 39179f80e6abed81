//! Panels: the screens that a host shows, defined by a TOML text (docs/PROTOCOL.md, "Panel texts").
//!
//! [`PanelSet::read`] turns a text into panels, or refuses it for its first fault. [`Panel::wanted`] turns a panel, the
//! values of its fields and a message into the screen that the host wants, and [`Panel::next`] says where a key leads.
//! The crate `shadow` writes the command for that screen; `panel_check` reports all faults of a text, with their lines.
//!
//! ```rust
//! // start = "ASK"
//! // lus = ["DESK01"]
//! //
//! // [[panel]]
//! // name = "ASK"
//! // text = [{ row = 1, col = 2, text = "WHO?" }]
//! // field = [{ name = "visitor", row = 1, col = 8, length = 20 }]
//! // keys = { enter = "ASK" }
//! //
//! // A text with a fault is refused for the first one, which prints as `panel 0 field 0: Overlap`.
//! let panels = PanelSet::read(alloc, text)?;
//!
//! // The screen that the first panel asks for while no field has a value.
//! if let Some(panel) = panels.panel(panels.start()) {
//!     let wanted = panel.wanted(&Values::new(alloc), Message::Fresh, false);
//!     assert!(rt; wanted.want(Addr::first().next(wanted.size())) == Want::Char(0xe6));
//!
//!     // Where Enter leads.
//!     assert!(rt; panel.next(Aid::Enter) == Next::Go(panels.start()));
//! }
//! ```
//!
//! [`Draft`] has what the tables of a text say, with [`Draft::faults`] all its faults. `specs/Panel` says what panels are,
//! `Defines` which text defines them, `Faults`, `Passes` and `Turns` which fault is reported, `Listing` what all faults
//! of a text are, and `Screen` what a panel asks for.
#![tactic(auto)]

mod build;
mod characters;
mod checks;
mod decode;
mod draft;
mod extent;
mod fault;
mod index;
mod input;
mod items;
pub mod laws;
mod message;
mod message_text;
mod name;
mod names;
mod next;
mod panel;
mod panel_set;
mod read;
pub mod rules;
mod screen;
mod size;
mod stated;
mod tree;
mod values;

pub use characters::Characters;
pub use checks::{MOST_FIELDS, MOST_PANELS, MOST_TEXTS};
pub use draft::{Draft, ItemDraft, PanelDraft};
pub use extent::Extent;
pub use fault::{At, LocatedFault, Location, PanelFault, TreeFault};
pub use input::split_input;
pub use message::Message;
pub use message_text::{MOST_MESSAGE, MessageText};
pub use name::Name;
pub use names::key_names;
pub use next::Next;
pub use panel::{Field, Panel, Value};
pub use panel_set::PanelSet;
pub use values::Values;
