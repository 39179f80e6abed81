//! Reports the fault that ends a run.
ghost use Rattle.std.specs.Prelude.{◌≡◌};
ghost use Rattle.std.specs.Fmt.{with_newline};
ghost use Rattle.jobs.specs.Counting.{IsTold};
ghost use Rattle.jobs.specs.Faults.{status_of};

use crate::fault::Fault;
use crate::streams::Sink;
use std::fmt::Display;

/// Writes a fault as one line, and returns its exit status. A line that can't be written is left out.
pub fn report_and_exit_code<E: Sink>(fault: Fault, faults: &mut E) -> u8
    ensures status { result ≡ status_of fault }
    ensures told { IsTold E.told (with_newline (⟦<Fault as Display>⟧.output fault)) faults.old faults.new }
{
    let status = fault.status();
    let _ = faults.write_line(fault);
    status
}
