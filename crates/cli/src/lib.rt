//! The command line: the job that the arguments ask for, the refusal of others, and the help.
//!
//! This crate runs no job. [`words`] parses the arguments with clap into a [`Job`](jobs::Job), or returns a
//! [`WordFault`], which [`refuse_words`] prints. [`run_help`] prints the help on a topic. All use one table of the jobs
//! and their options (job_table.rt). `specs/Topics` defines each job's options, `Words` which arguments give which job,
//! `Refusals` the exit status of a refusal, and `Helps` how a run of help ends. Printed texts have no definitions;
//! tests compare them.
#![tactic(auto)]

mod command_line;
mod help;
mod job_table;
mod refusal;

pub use command_line::words;
pub use help::{VERSION, run_help, run_version};
pub use refusal::{Refusal, WordFault, refuse_words};
