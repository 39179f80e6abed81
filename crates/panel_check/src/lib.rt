//! Checks a panel text (our profile): reports all its faults at once, with lines, names and keys, and warnings. A panel
//! text goes in, a [`Report`] comes out, and [`Report::page`] prints it.
//!
//! ```rust
//! // name = "option"
//! // requird = true
//! let report = check(alloc, text)?;
//! // panels.toml:33: panel MENU, field option: unknown key 'requird' (did you mean 'required'?)
//! // 1 fault
//! let page = report.page(alloc, "panels.toml")?;
//! ```
//!
//! `panels::Draft` lists the faults of a text's tables, `lu_pool::faults` those of its LUs; this crate finds words and
//! lines. `specs/Report`: a report has each of these faults, and no other; `specs/Page`: how it is printed. Words, lines
//! and warnings are only tested.
#![tactic(auto)]

mod lines;
mod parts;
mod report;
mod telling;
mod words;

pub use report::{Cause, Finding, Report, Sizes, check};
