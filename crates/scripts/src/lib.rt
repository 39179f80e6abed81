//! The jobs that print what operators see: `show` (commands on a blank screen), `script` (a script in a world of a host
//! and terminals), `check` (the faults of a panel text), and `term` (a script of one terminal at a host).
//!
//! Only `term` opens a socket. The other jobs read their whole input, build the page, and write it in one piece. This
//! crate defines no terminal and no world (crates `term_core` and `world3270` do). [`page_of`] builds the page of
//! `show`; [`ScriptCommand`] and [`TerminalCommand`] are the commands of the two kinds of script. `specs/Pages`,
//! `Scripts` and `Checks` define the pages, and `PageJobRuns` how a run ends; `DoneLines` defines what a line of `term`
//! does, `Operating` what its keys do and print, and `Waits` what a wait reads and sends.
#![tactic(auto)]

mod check;
mod idle;
pub mod laws;
mod operator;
mod page;
mod page_job;
mod player;
mod script;
mod script_line;
mod term;
mod term_line;

pub use check::run_check;
pub use operator::{put_display, put_phase};
pub use page::{Page, page_of};
pub use page_job::{run_script, run_script_with, run_show};
pub use player::{MODELS, command_in_range, put_answer};
pub use script::parted;
pub use script_line::{ScriptCommand, typed_text};
pub use term::run_term;
pub use term_line::TerminalCommand;
