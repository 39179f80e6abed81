//! Why arguments give no job, and the lines that say so.
ghost use Rattle.std.specs.Prelude.{◌≡◌};
ghost use Rattle.clap.specs.Values.{kind_of};
ghost use Rattle.clap.specs.declared.error.kind.ErrorKind.TheVariants.{OutOfMemory};
ghost use Rattle.cli.specs.Refusals.{status_of};
ghost use Rattle.cli.specs.declared.refusal.WordFault.TheVariants.{Memory};

use crate::command_line::{ends_by_dashes, is_given, topic_of};
use crate::job_table::{ValueKind, name_of, options_of};
use clap::ArgMatches;
use clap::error::ErrorKind;
use jobs::{
    AddressCount, EscapeTime, HelpTopic, HostEndpoint, Port, ReplyTime, Seconds, ServicePort,
    SessionCount, Sink, TtySize, Turns, address_of, model_of,
};
use std::alloc::Global;
use std::fmt;
use thiserror::Error;
use tn3270e_msg::Lu;
use tty::Colors;

/// Prints as the line that says how to get help on the job with this name; on the program if it is empty.
#[derive(Clone, Copy)]
struct SeeHelp<'a>(&'a str);

impl fmt::Display for SeeHelp<'_> {
    fn fmt<W: fmt::Write>(&self, f: &mut fmt::Formatter<W>) -> fmt::Result {
        f.write_str("\nFor more information, try 'panel3270 help")?;
        match self.0 {
            "" => f.write_str("'."),
            name => write!(f, " {name}'."),
        }
    }
}

/// Why the program refuses its arguments. Prints as the error, and how to get help. A `job` is the name of a job, and
/// empty for the whole program.
#[derive(Debug, Drop, PartialEq, Error)]
pub enum Refusal<'a> {
    /// A word isn't UTF-8.
    #[error("error: a word isn't UTF-8{help}", help = SeeHelp(""))]
    NotText,
    /// Clap doesn't accept the arguments, and gives this text.
    #[error("{text}", text = .0.as_str().trim_end())]
    NotTaken(String),
    /// `help` is given a word that isn't the name of a job.
    #[error("error: unknown job '{0}'{help}", help = SeeHelp(""))]
    UnknownJob(&'a str),
    /// The value of a job's option is invalid. `need` says what is needed, if that helps.
    #[error("error: invalid value '{value}' for '--{option}'{need}{help}", help = SeeHelp(*.job))]
    Invalid {
        job: &'static str,
        option: &'static str,
        value: &'a str,
        need: &'static str,
    },
    /// Nothing follows `--`, which ends the options of the job.
    #[error("error: unexpected word '--'{help}", help = SeeHelp(*.job))]
    Dashes {
        job: &'static str,
    },
    /// `--metrics` of `serve` has the port of `--port`.
    #[error("error: '--metrics' has the port of '--port'{help}", help = SeeHelp("serve"))]
    OnePort,
    /// `serve` has both `--own-terminals` and `--verify`.
    #[error("error: '--verify' excludes '--own-terminals'{help}", help = SeeHelp("serve"))]
    OwnVerified,
}

/// Why arguments give no job.
#[derive(Debug, Drop, PartialEq, Error)]
pub enum WordFault<'a> {
    /// The arguments are refused, for this reason.
    #[error(transparent)]
    Refused(Refusal<'a>),
    /// Memory was refused.
    #[error("no memory")]
    Memory,
}

impl WordFault<'_> {
    /// The exit status of the program.
    fn status(&self) -> u8
        ensures { result ≡ status_of self.now }
    {
        match self {
            WordFault::Refused(_) => 2,
            WordFault::Memory => 3,
        }
    }
}

/// The refusal of arguments whose parse failed with this error, which doesn't ask for help or the version.
pub(crate) fn not_taken<'a>(alloc: Global, error: &clap::Error) -> WordFault<'a>
    ensures { kind_of error.now ≡ OutOfMemory → result ≡ Memory }
{
    if error.kind() == ErrorKind::OutOfMemory {
        return WordFault::Memory;
    }
    match format!(in alloc; "{error}") {
        Ok(text) => WordFault::Refused(Refusal::NotTaken(text)),
        Err(_) => WordFault::Memory,
    }
}

/// Whether a word is a valid value of this kind.
fn is_value(kind: ValueKind, word: &str) -> bool {
    match kind {
        ValueKind::Port => Port::read(word).is_some(),
        ValueKind::ServicePort => ServicePort::read(word).is_some(),
        ValueKind::Turns => Turns::read(word).is_some(),
        ValueKind::Seconds => Seconds::read(word).is_some(),
        ValueKind::ReplyTime => ReplyTime::read(word).is_some(),
        ValueKind::Sessions => SessionCount::read(word).is_some(),
        ValueKind::PerAddress => AddressCount::read(word).is_some(),
        ValueKind::LuName => Lu::read(word.as_bytes()).is_some(),
        ValueKind::Address => address_of(word).is_some(),
        ValueKind::Model => model_of(word).is_some(),
        ValueKind::TtySize => TtySize::read(word).is_some(),
        ValueKind::Colors => Colors::named(word).is_some(),
        ValueKind::Millis => EscapeTime::read(word).is_some(),
        ValueKind::Host => HostEndpoint::read(word).is_some(),
        ValueKind::Url | ValueKind::File | ValueKind::Flag | ValueKind::Operand => true,
    }
}

/// What a value of this kind must be, if an operator may well give another.
fn need_of(kind: ValueKind) -> &'static str {
    match kind {
        ValueKind::Host => ": a port is needed, or an IPv4 address, a colon and a port",
        ValueKind::Address => ": an IPv4 or IPv6 address is needed, or localhost",
        ValueKind::Colors => ": dark, light, terminal or mono is needed",
        ValueKind::Millis => ": 1 to 10000 milliseconds are needed",
        _ => "",
    }
}

/// Why the options of a job are refused although clap accepts them: the first invalid value, or otherwise two options
/// that exclude each other.
fn wrong_options<'a>(topic: HelpTopic, options: &ArgMatches<'a>) -> Refusal<'a> {
    for option in options_of(topic) {
        if let Some(word) = options.get_str(option.name) {
            if !is_value(option.kind, word) {
                return Refusal::Invalid {
                    job: name_of(topic),
                    option: option.name,
                    value: word,
                    need: need_of(option.kind),
                };
            }
        }
    }
    if let Some(name) = options.get_str("job") {
        return Refusal::UnknownJob(name);
    }
    if is_given(options, "own-terminals") && is_given(options, "verify") {
        return Refusal::OwnVerified;
    }
    Refusal::OnePort
}

/// Why arguments that were parsed as these matches are refused.
pub(crate) fn refusal_of<'a>(words: &[String], matches: &ArgMatches<'a>) -> Refusal<'a> {
    match matches.subcommand() {
        Some((_, options)) if !ends_by_dashes(words) => wrong_options(topic_of(words), options),
        _ => Refusal::Dashes {
            job: name_of(topic_of(words)),
        },
    }
}

/// Prints why arguments give no job, and returns the exit status: 2, or 3 if memory was refused. A line that can't be
/// written is left out.
pub fn refuse_words<E: Sink>(fault: WordFault<'_>, faults: &mut E) -> u8
    ensures { result ≡ status_of fault.entry }
{
    let status = fault.status();
    let _ = faults.write_line(fault);
    status
}
