//! The refusal of panels that ask an application, by a job that has none.
ghost use Rattle.std.specs.Prelude.{◌≡◌, map, option_map};
ghost use Rattle.std.specs.List.{range_with_len};
ghost use Rattle.codes3270.specs.declared.attention.Aid.TheVariants.{Pa, Pf};
ghost use Rattle.panels.specs.Panel.{is_asked};
ghost use Rattle.applications.specs.AskedKeys.{advice_of, asked_among, asked_key, asked_text, first_asked, panels_ask};
ghost use Rattle.jobs.specs.Runs.{IsToldIn};

use crate::application_request::KeyName;
use codes3270::{Aid, PaNo, PfNo};
use jobs::Sink;
use panels::{Next, Panel, PanelSet};
use std::fmt;

/// The exit status of a job that refuses such panels.
const PANELS_ASK: u8 = 2;

/// A job that has no application.
#[derive(Clone, Copy)]
pub enum JobWithoutApplication {
    /// `serve` without the option `--application`.
    Serve,
    /// `host`, which takes none.
    Host,
}

/// A key about which a panel asks, or NoAid if it asks at connect, in a job that has no application. Prints as the line
/// that refuses the panels.
#[derive(Clone, Copy)]
pub struct AskedKey<'a> {
    /// The panel's name.
    pub panel: &'a str,
    /// The key.
    pub key: Aid,
    /// The job.
    pub by: JobWithoutApplication,
}

/// The advice at the end of the line.
fn advice_of(by: JobWithoutApplication) -> &'static str
    ensures { result.now ≡ advice_of by }
{
    match by {
        JobWithoutApplication::Serve => "; give --application URL",
        JobWithoutApplication::Host => "; host has no application: use serve --application URL",
    }
}

impl fmt::Display for AskedKey<'_> {
    ghost use Rattle.std.specs.Prelude.{Some};
    ghost use Rattle.applications.specs.AskedKeys.{asked_text};

    ghost output = { λ asked. Some (asked_text asked.panel.now asked.key asked.by) };

    fn fmt<W: fmt::Write>(&self, f: &mut fmt::Formatter<W>) -> fmt::Result {
        let panel = self.panel;
        let key = KeyName(self.key);
        let advice = advice_of(self.by);
        write!(f, "panel {panel} asks the application about {key}{advice}")
    }
}

/// Whether a panel asks about a key.
fn is_asked(panel: &Panel, key: Aid) -> bool
    ensures { result ≡ is_asked panel.now key }
{
    matches!(panel.next(key), Next::Ask)
}

/// The first PA key that a panel asks about, if there is one.
fn asked_pa(panel: &Panel) -> Option<Aid>
    ensures { result ≡ asked_among panel.now (map Pa (range_with_len 1 3)) }
{
    for number in 1..=3 {
        let key = Aid::Pa(PaNo::new(number)?);
        if is_asked(panel, key) {
            return Some(key);
        }
    }
    None
}

/// The first PF key that a panel asks about, if there is one.
fn asked_pf(panel: &Panel) -> Option<Aid>
    ensures { result ≡ asked_among panel.now (map Pf (range_with_len 1 24)) }
{
    for number in 1..=24 {
        let key = Aid::Pf(PfNo::new(number)?);
        if is_asked(panel, key) {
            return Some(key);
        }
    }
    None
}

/// The first key that a panel asks about, in the order Enter, Clear, PA1 to PA3, PF1 to PF24; before all keys NoAid, if
/// it asks at connect. None if it asks about none.
fn asked_key(panel: &Panel) -> Option<Aid>
    ensures { result ≡ asked_key panel.now }
{
    if is_asked(panel, Aid::NoAid) {
        return Some(Aid::NoAid);
    }
    if is_asked(panel, Aid::Enter) {
        return Some(Aid::Enter);
    }
    if is_asked(panel, Aid::Clear) {
        return Some(Aid::Clear);
    }
    asked_pa(panel).or(asked_pf(panel))
}

/// The name of the first panel that asks the application, and its first such key; None if no panel asks.
pub fn first_asked(panels: &PanelSet) -> Option<(&str, Aid)>
    ensures { option_map (λ asked. (asked.0.now, asked.1)) result ≡ first_asked panels.now.panels }
{
    for index in 0..panels.len() {
        let panel = panels.panel(index)?;
        match asked_key(panel) {
            Some(key) => return Some((panel.name().as_str(), key)),
            None => {}
        }
    }
    None
}

/// Prints that a panel asks an application about a key, and returns the exit status. A line that can't be written is
/// left out.
pub fn refuse_asking<E: Sink>(
    panel: &str,
    key: Aid,
    by: JobWithoutApplication,
    faults: &mut E,
) -> u8
    ensures status { result ≡ panels_ask }
    ensures told { IsToldIn (E.seen faults.old) (E.seen faults.new) (asked_text panel.now key by) }
{
    let _ = faults.write_line(AskedKey { panel, key, by });
    PANELS_ASK
}
