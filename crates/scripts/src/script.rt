//! `script`: plays a script in a world of panels and terminals, and prints what the operators see.
ghost use Rattle.std.specs.Prelude.{◌≡◌, string_bytes, IfOk, IfErr};
ghost use Rattle.jobs.specs.Runs.{ending_of};
ghost use Rattle.scripts.specs.PageJobRuns.{EndsPrinting};
ghost use Rattle.applications.specs.PanelHosts.{DefinesNoHost};
ghost use Rattle.panels.specs.PanelText.{panel_text};
ghost use Rattle.scripts.specs.Scripts.{IsScriptPage, IsWorldOf, behind_line, script_text};
ghost use Rattle.scripts.specs.declared.page_job.PageJob.TheVariants.{Script};

use crate::player::{MODELS, play};
use applications::application_of;
use host_core::Terminals;
use jobs::{Fault, Sink};
use panels::split_input;
use std::alloc::Global;
use world3270::World;

/// Prints the page of a text.
pub(crate) fn print_script<O: Sink>(
    alloc: Global,
    terminals: Terminals,
    text: &str,
    out: &mut O,
) -> Result<(), Fault>
    ensures { EndsPrinting (Script terminals) (ending_of result) text.now (O.seen out.old) (O.seen out.new) }
{
    let page = page_of_script(alloc, terminals, text)?;
    if out.write_all(page.text.as_bytes()).is_err() {
        return Err(Fault::OutputFailed);
    }
    match page.stopped {
        Some(line) => Err(Fault::NotUnderstood(line)),
        None => Ok(()),
    }
}

/// The page of an input.
#[derive(Drop)]
struct ScriptPage {
    text: String,
    /// The 1-based number of the first invalid line, if there is one.
    stopped: Option<usize>,
}

/// Plays the script of an input in the world of its panel text.
fn page_of_script(alloc: Global, terminals: Terminals, input: &str) -> Result<ScriptPage, Fault>
    ensures page { IfOk result (λ page. IsScriptPage terminals input.now (string_bytes page.text) page.stopped) }
    ensures fault { IfErr result (DefinesNoHost (panel_text input.now)) }
{
    let (panel_text, script) = parted(input);
    let mut world = world_of(alloc, terminals, panel_text)?;
    let mut text = String::new(alloc);
    let stopped = play(alloc, &mut world, script, &mut text)?;
    Ok(ScriptPage { text, stopped })
}

// ---- the two parts of an input

/// The text after the first line.
fn behind_line(text: &str) -> &str
    ensures { result.now ≡ behind_line text.now }
{
    match text.split_once('\n') {
        Some((_, behind)) => behind,
        None => "",
    }
}

/// The panel text and the script of an input.
pub fn parted(input: &str) -> (&str, &str)
    ensures panels { result.0.now ≡ panel_text input.now }
    ensures script { result.1.now ≡ script_text input.now }
{
    let (panels, marked) = split_input(input);
    (panels, behind_line(marked))
}

// ---- what a panel text defines

/// The world of a panel text: its panels, a pool of their LUs, a host for these terminals, and a script's terminals.
fn world_of(alloc: Global, terminals: Terminals, text: &str) -> Result<World, Fault>
    ensures world { IfOk result (IsWorldOf terminals text.now) }
    ensures fault { IfErr result (DefinesNoHost text.now) }
{
    let (panels, pool) = application_of(alloc, text)?;
    Ok(World::serving(alloc, terminals, panels, pool, &MODELS)?)
}
