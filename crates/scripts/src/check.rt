//! `check`: prints all faults and warnings of a panel text.
ghost use Rattle.scripts.specs.Checks.{EndsReporting, HasCheckCause, IsCheckEnd};
ghost use Rattle.jobs.specs.Runs.{InPieces};

use jobs::{Fault, Sink, Source, read_whole, report_and_exit_code};
use std::alloc::Global;

/// Prints the report on the panel text of an input with this name. Answers whether the text has no fault.
fn print_report<O: Sink>(alloc: Global, name: &str, input: &str, out: &mut O) -> Result<bool, Fault>
    ensures { EndsReporting result name.now input.now (O.seen out.old) (O.seen out.new) }
{
    let report = panel_check::check(alloc, input)?;
    let page = report.page(alloc, name)?;
    match out.write_all(page.as_bytes()) {
        Ok(()) => Ok(report.faults() == 0),
        Err(_) => Err(Fault::OutputFailed),
    }
}

/// Reads the input, and prints the report on its panel text.
fn read_and_report<I: Source, O: Sink>(
    alloc: Global,
    name: &str,
    input: &mut I,
    out: &mut O,
) -> Result<bool, Fault>
    ensures { HasCheckCause (InPieces I.gave input.old input.new) result name.now (I.seen input.old)
        (I.seen input.new) (O.seen out.old) (O.seen out.new) }
{
    match read_whole(alloc, input) {
        Ok(text) => print_report(alloc, name, text.as_str(), out),
        Err(fault) => Err(fault),
    }
}

/// Prints a report on the panel text of an input, which may have a script after a line `%%`: a line for each fault and
/// each warning, with this name and the line number, and a line with the totals. Writes a fault that ends the run to
/// `faults` as one line.
///
/// Returns the exit status: 0 if the text has no fault, and 1 if it has one, after the whole report; 1 if the input
/// can't be read, has more than `MOST_BYTES` bytes, takes more than `MOST_READS` reads, or isn't UTF-8; 3 if memory is
/// refused; 6 if the output fails.
pub fn run_check<I: Source, O: Sink, E: Sink>(
    alloc: Global,
    name: &str,
    input: &mut I,
    out: &mut O,
    faults: &mut E,
) -> u8
    ensures { IsCheckEnd (InPieces I.gave input.old input.new) name.now (I.seen input.old) (I.seen input.new)
        (O.seen out.old) (O.seen out.new) (E.seen faults.old) (E.seen faults.new) result }
{
    match read_and_report(alloc, name, input, out) {
        Ok(true) => 0,
        Ok(false) => 1,
        Err(fault) => report_and_exit_code(fault, faults),
    }
}
