//! The keyboard of a 3278 of model 2 to 5: what each key does to the screen and to the keyboard (GA23-0059-07 on
//! keyboard operation; the order of refusals and what a refused key leaves are our profile). No call allocates. The
//! screen itself, and the data that a terminal sends, are the crate `presentation`'s.
//!
//! A [`Keyboard`] starts in [`Lock::Wait`], and [`Keyboard::restored`] unlocks it when a write's WCC does.
//! [`Keyboard::press`] changes a screen as a key does, and returns whether the key was done, refused, or sends its AID.
//!
//! `specs/` has the definitions: `Keys` says what each key does to the keyboard and the screen, `Edits` what typing and
//! erasing do to a field's text, `Places` where the cursor goes, `Leaves` what a key keeps of the cells, and `Laws`,
//! `Sending` and `Sendable` how these relate. The functions in [`laws`] have these laws as their contracts.
#![tactic(auto)]

mod edits;
mod key;
mod key_names;
mod keyboard;
pub mod laws;
mod places;

pub use codes3270::{PaNo, PfNo};
pub use key::{Key, Lock, Pressed, Refusal};
pub use keyboard::Keyboard;
