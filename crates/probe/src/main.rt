//! The probe: calls public functions of the libraries as the lines of standard input say, and prints their results.
//!
//! `probe SUBJECT` reads one command in each line, and writes the lines of its answer and a line `.`. The answer to an
//! invalid line is `? REASON`, whatever the line did. The probe asserts nothing: the suites of `tests/` compare its
//! output. The commands of a subject are the arms of its `take`; the head of its file documents what these don't show.
#![tactic(auto)]

mod subjects;
mod talk;

use anyhow::{Result, bail};
use std::env;
use subjects::run;

fn main(rt: HostRuntime) -> Result<()> {
    match env::args(&rt)?.nth(1) {
        Some(name) if run(&rt, name.as_str())? => Ok(()),
        Some(name) => bail!("no subject {name}"),
        None => bail!("the word is a subject"),
    }
}
