//! `script` and `show`: read the whole input, print a page, and open no socket.
ghost use Rattle.host_core.specs.declared.terminals.Terminals.TheVariants.{Waiting};
ghost use Rattle.jobs.specs.Runs.{InPieces, ending_of};
ghost use Rattle.scripts.specs.PageJobRuns.{EndsPrinting, HasCause, IsEnd};
ghost use Rattle.scripts.specs.declared.page_job.PageJob.TheVariants.{Script, Show};

use crate::page::print_page;
use crate::script::print_script;
use codes3270::Model;
use host_core::Terminals;
use jobs::{Fault, Sink, Source, read_whole, report_and_exit_code};
use std::alloc::Global;

/// A job that prints one page for its whole input.
#[derive(Clone, Copy)]
pub(crate) enum PageJob {
    /// `script`, with a host for these terminals.
    Script(Terminals),
    /// `show`, with a screen of this model.
    Show(Model),
}

/// Serves the panels of the input to four terminals, of models 2 to 5, executes the script's commands, one in each
/// line, and prints what the operators see. The input is the panel text, a line `%%` and the script. The host relies on
/// the terminals to wait for it. A fault that ends the run is written to `faults` as one line.
///
/// Returns the exit status: 0 if the whole page was printed; 1 if the input can't be read, has more than `MOST_BYTES`
/// bytes, takes more than `MOST_READS` reads, isn't UTF-8, defines no panels, or has LUs that are no pool; 1 also for
/// an invalid line, after the page of the lines before it; 3 if memory is refused; 6 if the output fails.
pub fn run_script<I: Source, O: Sink, E: Sink>(
    alloc: Global,
    input: &mut I,
    out: &mut O,
    faults: &mut E,
) -> u8
    ensures { IsEnd (Script Waiting) (InPieces I.gave input.old input.new) (I.seen input.old) (I.seen input.new)
        (O.seen out.old) (O.seen out.new) (E.seen faults.old) (E.seen faults.new) result }
{
    run_script_with(alloc, Terminals::Waiting, input, out, faults)
}

/// Plays a script like [`run_script`], with a host for these terminals: it may also serve terminals that don't wait.
pub fn run_script_with<I: Source, O: Sink, E: Sink>(
    alloc: Global,
    terminals: Terminals,
    input: &mut I,
    out: &mut O,
    faults: &mut E,
) -> u8
    ensures { IsEnd (Script terminals) (InPieces I.gave input.old input.new) (I.seen input.old) (I.seen input.new)
        (O.seen out.old) (O.seen out.new) (E.seen faults.old) (E.seen faults.new) result }
{
    run(alloc, PageJob::Script(terminals), input, out, faults)
}

/// Applies the commands of the input, one in each line in hexadecimal, in order to a blank screen of a model, and
/// prints the screen, a line for each row, and the cursor. A refused command is reported in the output and changes
/// nothing. A fault that ends the run is written to `faults` as one line.
///
/// Returns the exit status: 0 if the whole page was printed; 1 if the input can't be read, has more than `MOST_BYTES`
/// bytes, takes more than `MOST_READS` reads, isn't UTF-8, or has a line that isn't hexadecimal; 3 if memory is
/// refused; 6 if the output fails.
pub fn run_show<I: Source, O: Sink, E: Sink>(
    alloc: Global,
    model: Model,
    input: &mut I,
    out: &mut O,
    faults: &mut E,
) -> u8
    ensures { IsEnd (Show model) (InPieces I.gave input.old input.new) (I.seen input.old) (I.seen input.new)
        (O.seen out.old) (O.seen out.new) (E.seen faults.old) (E.seen faults.new) result }
{
    run(alloc, PageJob::Show(model), input, out, faults)
}

/// Runs a job, and returns the exit status.
fn run<I: Source, O: Sink, E: Sink>(
    alloc: Global,
    job: PageJob,
    input: &mut I,
    out: &mut O,
    faults: &mut E,
) -> u8
    ensures { IsEnd job (InPieces I.gave input.old input.new) (I.seen input.old) (I.seen input.new) (O.seen out.old)
        (O.seen out.new) (E.seen faults.old) (E.seen faults.new) result }
{
    match read_and_print(alloc, job, input, out) {
        Ok(()) => 0,
        Err(fault) => report_and_exit_code(fault, faults),
    }
}

/// Reads the input, and prints its page.
fn read_and_print<I: Source, O: Sink>(
    alloc: Global,
    job: PageJob,
    input: &mut I,
    out: &mut O,
) -> Result<(), Fault>
    ensures { HasCause job (InPieces I.gave input.old input.new) (ending_of result) (I.seen input.old)
        (I.seen input.new) (O.seen out.old) (O.seen out.new) }
{
    match read_whole(alloc, input) {
        Ok(text) => print(alloc, job, text.as_str(), out),
        Err(fault) => Err(fault),
    }
}

/// Prints the page of a text.
fn print<O: Sink>(alloc: Global, job: PageJob, text: &str, out: &mut O) -> Result<(), Fault>
    ensures { EndsPrinting job (ending_of result) text.now (O.seen out.old) (O.seen out.new) }
{
    match job {
        PageJob::Script(terminals) => print_script(alloc, terminals, text, out),
        PageJob::Show(model) => print_page(alloc, model, text, out),
    }
}
