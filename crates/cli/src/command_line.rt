//! Parses the program's arguments.
ghost use Rattle.std.specs.Option.{option_and_then};
ghost use Rattle.std.specs.Prelude.{◌≡◌, [], IfOk, IfErr, codes, false, map, option_map, string_bytes, true};
ghost use Rattle.clap.specs.Matches.{found_of};
ghost use Rattle.clap.specs.Simple.{subcommand_rows_of};
ghost use Rattle.clap.specs.Values.{kind_of};
ghost use Rattle.clap.specs.Walk.{first_of, rows_of};
ghost use Rattle.jobs.specs.OptionValues.{endpoint_of};
ghost use Rattle.cli.specs.Topics.{row_of};
ghost use Rattle.cli.specs.Words.{HasNoJob, IsJobOf, program, job_by, job_by_kind, job_named, job_of, given_address, given_colors, given_application, given_command, given_control, given_escape, given_limits, given_live_options, given_lu, given_metrics, given_model, given_per_address, given_port, given_reply_time, given_script_terminals, given_seconds, given_service, given_service_port, given_sessions, given_terminals, given_topic, given_tty, given_turns, given_web, ends_by_dashes, is_given, job_shape, job_taken, option_rule, sound_service, topic_of};
ghost use Rattle.cli.specs.ClapCommands.{AddsArguments, AddsJob, AddsJobs, IsArgument, IsCommand, IsJob, IsMatch, MayFail};

use crate::help::VERSION;
use crate::job_table::{JOBS, JobOption, ValueKind, name_of, options_of, topic_named};
use crate::refusal::{WordFault, not_taken, refusal_of};
use clap::error::ErrorKind;
use clap::{Arg, ArgAction, ArgMatches, Command};
use codes3270::Model;
use host_core::Terminals;
use jobs::{
    AddressCount, ApplicationChoice, CommandWords, ControlChoice, EscapeTime, HelpTopic,
    HostEndpoint, Job, Operand, OperateOptions, Port, ReplyTime, Seconds, Service, ServicePort,
    SessionCount, TimeLimits, TtySize, Turns, WebOptions, address_of, model_of,
};
use std::alloc::{AllocError, Global};
use std::net::{IpAddr, Ipv4Addr};
use tn3270e_msg::Lu;
use tty::Colors;

// ---- the command line

/// The clap argument of an option or operand.
fn argument<'a>(alloc: Global, option: &JobOption<'a>) -> Arg<'a>
    ensures { IsArgument (option_rule (row_of option.now)) result }
{
    let argument = Arg::new(alloc, option.name).required(option.required);
    match option.kind {
        ValueKind::Operand => argument,
        ValueKind::Flag => argument.long(option.name).action(ArgAction::SetTrue),
        _ => argument.long(option.name),
    }
}

/// A job's subcommand with these options added.
fn with_options<'a>(
    alloc: Global,
    job: Command<'a>,
    options: &[JobOption<'a>],
) -> Result<Command<'a>, AllocError>
    ensures { IfOk result (AddsArguments (map (λ option. option_rule (row_of option)) options.now) job.entry) }
{
    let mut job = job;
    for option in options {
        job = job.arg(argument(alloc, option))?;
    }
    Ok(job)
}

/// A job's subcommand with its options and operands.
fn job<'a>(alloc: Global, topic: HelpTopic) -> Result<Command<'a>, AllocError>
    ensures { IfOk result (IsJob (job_shape topic)) }
{
    let bare = Command::new(alloc, name_of(topic));
    with_options(alloc, bare, options_of(topic))
}

/// A command with this job as a subcommand.
fn with_job<'a>(
    alloc: Global,
    command: Command<'a>,
    topic: HelpTopic,
) -> Result<Command<'a>, AllocError>
    ensures { IfOk result (AddsJob (job_shape topic) command.entry) }
{
    command.subcommand(job(alloc, topic)?)
}

/// A command with these jobs as subcommands.
fn with_jobs<'a>(
    alloc: Global,
    command: Command<'a>,
    jobs: &[HelpTopic],
) -> Result<Command<'a>, AllocError>
    ensures { IfOk result (AddsJobs (map job_shape jobs.now) command.entry) }
{
    let mut command = command;
    for topic in jobs {
        command = with_job(alloc, command, *topic)?;
    }
    Ok(command)
}

/// The program without its jobs. Its own job `help` replaces clap's.
fn bare<'a>(alloc: Global) -> Result<Command<'a>, AllocError>
    ensures { IfOk result (IsCommand (record program { top = record program.top { is_leaf = true }; subs = [] })) }
{
    let command = Command::new(alloc, "panel3270").no_binary_name(true);
    let own_help = command.disable_help_subcommand(true).version(VERSION);
    own_help.bin_name("panel3270")
}

/// The program, with its jobs as subcommands.
fn program<'a>(alloc: Global) -> Result<Command<'a>, AllocError>
    ensures { IfOk result (IsCommand program) }
{
    with_jobs(alloc, bare(alloc)?, &JOBS)
}

// ---- the values given

/// The value of an option, if it is given.
fn given<'a>(options: &ArgMatches<'a>, name: &str) -> Option<&'a str>
    ensures { option_map (λ word. word.now) result ≡ first_of name.now (rows_of (found_of options.now)) }
{
    options.get_str(name)
}

/// The value of an option or operand whose value is any text, if it is given.
fn text_in<'a>(options: &ArgMatches<'a>, name: &str) -> Option<Operand<'a>>
    ensures { result ≡ first_of name.now (rows_of (found_of options.now)) }
{
    Some(Operand::new(given(options, name)?))
}

/// The value of `--port`, 1024 to 65535.
fn port_in(options: &ArgMatches<'_>) -> Option<Port>
    ensures { result ≡ given_port (rows_of (found_of options.now)) }
{
    Port::read(given(options, "port")?)
}

/// The value of `--turns`; the default if it isn't given.
fn turns_in(options: &ArgMatches<'_>) -> Option<Turns>
    ensures { result ≡ given_turns (rows_of (found_of options.now)) }
{
    given(options, "turns").map_or(Some(Turns::of(10_000)), Turns::read)
}

/// The value of `--lu`, if it is given. None if it isn't an LU name.
fn lu_in(options: &ArgMatches<'_>) -> Option<Option<Lu>>
    ensures { result ≡ given_lu (rows_of (found_of options.now)) }
{
    match given(options, "lu") {
        Some(word) => Some(Some(Lu::read(word.as_bytes())?)),
        None => Some(None),
    }
}

/// The value of `--model`; model 2 if it isn't given.
fn model_in(options: &ArgMatches<'_>) -> Option<Model>
    ensures { result ≡ given_model (rows_of (found_of options.now)) }
{
    match given(options, "model") {
        Some(word) => model_of(word),
        None => Some(Model::M2),
    }
}

/// The value of `--colors`; dark if it isn't given.
fn colors_in(options: &ArgMatches<'_>) -> Option<Colors>
    ensures { result ≡ given_colors (rows_of (found_of options.now)) }
{
    match given(options, "colors") {
        Some(word) => Colors::named(word),
        None => Some(Colors::Dark),
    }
}

/// The value of `--escape`; 500 if it isn't given.
fn escape_in(options: &ArgMatches<'_>) -> Option<EscapeTime>
    ensures { result ≡ given_escape (rows_of (found_of options.now)) }
{
    match given(options, "escape") {
        Some(word) => EscapeTime::read(word),
        None => Some(EscapeTime::of(500)),
    }
}

/// The value of `--raw`, if it is given. None if it isn't a tty size.
fn tty_in(options: &ArgMatches<'_>) -> Option<Option<TtySize>>
    ensures { result ≡ given_tty (rows_of (found_of options.now)) }
{
    match given(options, "raw") {
        Some(word) => Some(Some(TtySize::read(word)?)),
        None => Some(None),
    }
}

/// The value of `--port` of `serve` or `operate`, 1 to 65535.
fn service_port_in(options: &ArgMatches<'_>) -> Option<ServicePort>
    ensures { result ≡ given_service_port (rows_of (found_of options.now)) }
{
    ServicePort::read(given(options, "port")?)
}

/// The value of an option that is an address; 127.0.0.1 if it isn't given.
fn address_in(options: &ArgMatches<'_>, name: &str) -> Option<IpAddr>
    ensures { result ≡ given_address name.now (rows_of (found_of options.now)) }
{
    match given(options, name) {
        Some(word) => address_of(word),
        None => Some(IpAddr::V4(Ipv4Addr::LOCALHOST)),
    }
}

/// The value of an option in seconds; `usual` if it isn't given.
fn seconds_in(options: &ArgMatches<'_>, name: &str, usual: Seconds) -> Option<Seconds>
    ensures { result ≡ given_seconds name.now usual (rows_of (found_of options.now)) }
{
    given(options, name).map_or(Some(usual), Seconds::read)
}

/// The values of `--negotiate`, `--keepalive` and `--idle`.
fn limits_in(options: &ArgMatches<'_>) -> Option<TimeLimits>
    ensures { result ≡ given_limits (rows_of (found_of options.now)) }
{
    Some(TimeLimits {
        negotiate: seconds_in(options, "negotiate", Seconds::of(30))?,
        keepalive: seconds_in(options, "keepalive", Seconds::of(60))?,
        idle: seconds_in(options, "idle", Seconds::of(0))?,
    })
}

/// The value of `--metrics`, if it is given. None if it isn't a port number.
fn metrics_in(options: &ArgMatches<'_>) -> Option<Option<ServicePort>>
    ensures { result ≡ given_metrics (rows_of (found_of options.now)) }
{
    match given(options, "metrics") {
        Some(word) => Some(Some(ServicePort::read(word)?)),
        None => Some(None),
    }
}

/// Whether a flag is given.
pub(crate) fn is_given(options: &ArgMatches<'_>, flag: &str) -> bool
    ensures { result ≡ is_given flag.now (rows_of (found_of options.now)) }
{
    match given(options, flag) {
        Some(word) => word == "true",
        None => false,
    }
}

/// The terminals that connect: those that wait for the host if `--own-terminals` is given, otherwise any, which the
/// host verifies if `--verify` is given. None if both are given.
fn terminals_in(options: &ArgMatches<'_>) -> Option<Terminals>
    ensures { result ≡ given_terminals (rows_of (found_of options.now)) }
{
    match (
        is_given(options, "own-terminals"),
        is_given(options, "verify"),
    ) {
        (true, true) => None,
        (true, false) => Some(Terminals::Waiting),
        (false, true) => Some(Terminals::Verified),
        (false, false) => Some(Terminals::Any),
    }
}

/// The terminals that the host of a script serves: any if `--any-terminal` is given, otherwise those that wait for the
/// host.
fn script_terminals_in(options: &ArgMatches<'_>) -> Terminals
    ensures { result ≡ given_script_terminals (rows_of (found_of options.now)) }
{
    if is_given(options, "any-terminal") {
        Terminals::Any
    } else {
        Terminals::Waiting
    }
}

/// The service that the options of `serve` describe. None if a value is invalid.
fn service_in(options: &ArgMatches<'_>) -> Option<Service>
    ensures { result ≡ given_service (rows_of (found_of options.now)) }
{
    Some(Service {
        port: service_port_in(options)?,
        listen: address_in(options, "listen")?,
        limits: limits_in(options)?,
        metrics: metrics_in(options)?,
        terminals: terminals_in(options)?,
        proxy_protocol: is_given(options, "proxy-protocol"),
        quiet: is_given(options, "quiet"),
    })
}

/// The service that the options of `serve` describe. None if a value is invalid, or if the metrics port is the port for
/// terminals.
fn sound_service_in(options: &ArgMatches<'_>) -> Option<Service>
    ensures { result ≡ sound_service (rows_of (found_of options.now)) }
{
    let service = service_in(options)?;
    match service.metrics {
        Some(metrics) if metrics.get() == service.port.get() => None,
        _ => Some(service),
    }
}

/// The options of `operate`.
fn live_options_in<'a>(options: &ArgMatches<'a>) -> Option<OperateOptions<'a>>
    ensures { result ≡ given_live_options (rows_of (found_of options.now)) }
{
    Some(OperateOptions {
        host: address_in(options, "host")?,
        port: service_port_in(options)?,
        lu: lu_in(options)?,
        model: model_in(options)?,
        tty: tty_in(options)?,
        colors: colors_in(options)?,
        keymap: text_in(options, "keymap"),
        escape: escape_in(options)?,
        quiet_keys: is_given(options, "quiet-keys"),
        save: text_in(options, "save"),
    })
}

/// The value of `--connect`.
fn endpoint_in(options: &ArgMatches<'_>) -> Option<HostEndpoint>
    ensures { result ≡ option_and_then endpoint_of (first_of (codes "connect") (rows_of (found_of options.now))) }
{
    HostEndpoint::read(given(options, "connect")?)
}

/// The value of `--sessions`; the default if it isn't given.
fn sessions_in(options: &ArgMatches<'_>) -> Option<SessionCount>
    ensures { result ≡ given_sessions (rows_of (found_of options.now)) }
{
    given(options, "sessions").map_or(Some(SessionCount::of(64)), SessionCount::read)
}

/// The value of `--per-address`; no limit if it isn't given.
fn per_address_in(options: &ArgMatches<'_>) -> Option<AddressCount>
    ensures { result ≡ given_per_address (rows_of (found_of options.now)) }
{
    given(options, "per-address").map_or(Some(AddressCount::of(0)), AddressCount::read)
}

/// The options of `web`.
fn web_in<'a>(options: &ArgMatches<'a>) -> Option<WebOptions<'a>>
    ensures { result ≡ given_web (rows_of (found_of options.now)) }
{
    Some(WebOptions {
        listen: address_in(options, "listen")?,
        port: service_port_in(options)?,
        host: endpoint_in(options)?,
        sessions: sessions_in(options)?,
        keep: seconds_in(options, "keep", Seconds::of(120))?,
        origin: text_in(options, "origin"),
        per_address: per_address_in(options)?,
        keymap: text_in(options, "keymap"),
    })
}

/// The value of `--application-timeout`; the default if it isn't given.
fn reply_time_in(options: &ArgMatches<'_>) -> Option<ReplyTime>
    ensures { result ≡ given_reply_time (rows_of (found_of options.now)) }
{
    given(options, "application-timeout").map_or(Some(ReplyTime::of(30)), ReplyTime::read)
}

/// The application that decides for `serve`, and the time for its reply.
fn application_in<'a>(options: &ArgMatches<'a>) -> Option<ApplicationChoice<'a>>
    ensures { result ≡ given_application (rows_of (found_of options.now)) }
{
    Some(ApplicationChoice {
        url: text_in(options, "application"),
        reply_time: reply_time_in(options)?,
    })
}

/// How the service is controlled.
fn control_in<'a>(options: &ArgMatches<'a>) -> Option<ControlChoice<'a>>
    ensures { result ≡ given_control (rows_of (found_of options.now)) }
{
    Some(ControlChoice {
        socket: text_in(options, "control"),
        drain: seconds_in(options, "drain", Seconds::of(0))?,
    })
}

/// The words of the command that `tell` sends.
fn command_in<'a>(options: &ArgMatches<'a>) -> Option<CommandWords<'a>>
    ensures { result ≡ given_command (rows_of (found_of options.now)) }
{
    Some(CommandWords {
        name: text_in(options, "command")?,
        first: text_in(options, "first"),
        second: text_in(options, "second"),
    })
}

/// The topic after `help`: the whole program if no job is named. None if the word isn't the name of a job.
fn topic_in(options: &ArgMatches<'_>) -> Option<HelpTopic>
    ensures { result ≡ given_topic (rows_of (found_of options.now)) }
{
    given(options, "job").map_or(Some(HelpTopic::Program), topic_named)
}

/// The topic of `--help`: the job whose option it is.
pub(crate) fn topic_of(words: &[String]) -> HelpTopic
    ensures { result ≡ topic_of (map string_bytes words.now) }
{
    match words {
        [first, ..] => topic_named(first.as_str()).unwrap_or(HelpTopic::Program),
        [] => HelpTopic::Program,
    }
}

/// The job of a topic with these options.
fn job_of<'a>(topic: HelpTopic, options: &ArgMatches<'a>) -> Option<Job<'a>>
    ensures { result ≡ job_of topic (rows_of (found_of options.now)) }
{
    let job = match topic {
        HelpTopic::Program => return None,
        HelpTopic::Script => Job::Script {
            terminals: script_terminals_in(options),
        },
        HelpTopic::Show => Job::Show {
            model: model_in(options)?,
        },
        HelpTopic::Selfrun => Job::Selfrun {
            turns: turns_in(options)?,
        },
        HelpTopic::Check => Job::Check {
            file: text_in(options, "file"),
        },
        HelpTopic::Host => Job::Host {
            port: port_in(options)?,
            turns: turns_in(options)?,
        },
        HelpTopic::Serve => Job::Serve {
            service: sound_service_in(options)?,
            panels: text_in(options, "panels"),
            application: application_in(options)?,
            control: control_in(options)?,
        },
        HelpTopic::Tell => Job::Tell {
            socket: text_in(options, "socket")?,
            command: command_in(options)?,
        },
        HelpTopic::Term => Job::Term {
            port: port_in(options)?,
            lu: lu_in(options)?,
            model: model_in(options)?,
        },
        HelpTopic::Operate => Job::Operate(live_options_in(options)?),
        HelpTopic::Web => Job::Web(web_in(options)?),
        HelpTopic::Help => Job::Help(topic_in(options)?),
        HelpTopic::Version => Job::Version,
    };
    Some(job)
}

/// The job with this name and these options.
fn job_named<'a>(name: &str, options: &ArgMatches<'a>) -> Option<Job<'a>>
    ensures { result ≡ job_named name.now (rows_of (found_of options.now)) }
{
    job_of(topic_named(name)?, options)
}

/// The job of a parsed command line; `script` if there is no argument.
fn job_in<'a>(matches: &ArgMatches<'a>) -> Option<Job<'a>>
    ensures { result ≡ job_by (subcommand_rows_of matches.now) }
{
    match matches.subcommand() {
        Some((name, options)) => job_named(name, options),
        None => Some(Job::Script {
            terminals: Terminals::Waiting,
        }),
    }
}

/// Whether the last word is the `--` that ends the options, so that nothing follows it.
pub(crate) fn ends_by_dashes(words: &[String]) -> bool
    ensures { result ≡ ends_by_dashes false (map string_bytes words.now) }
{
    let mut dashes = false;
    for word in words {
        dashes = word.as_str() == "--";
    }
    dashes
}

/// The job of words that were parsed as these matches.
fn job_taken<'a>(words: &[String], matches: &ArgMatches<'a>) -> Option<Job<'a>>
    ensures { result ≡ job_taken (map string_bytes words.now) (subcommand_rows_of matches.now) }
{
    if ends_by_dashes(words) {
        None
    } else {
        job_in(matches)
    }
}

// ---- words

/// The job for words whose parse failed with this kind of error: help or the version. None if the words are refused.
fn job_by_kind<'a>(words: &[String], kind: ErrorKind) -> Option<Job<'a>>
    ensures { result ≡ job_by_kind (map string_bytes words.now) kind }
{
    match kind {
        ErrorKind::DisplayHelp => Some(Job::Help(topic_of(words))),
        ErrorKind::DisplayVersion => Some(Job::Version),
        _ => None,
    }
}

/// The arguments, parsed by the command line.
fn matches_of<'a>(alloc: Global, words: &'a [String]) -> Result<ArgMatches<'a>, clap::Error>
    ensures matches { IfOk result (IsMatch (map string_bytes words.now)) }
    ensures kind { IfErr result (λ error. MayFail (map string_bytes words.now) (kind_of error)) }
{
    program(alloc)?.try_get_matches_from(words)
}

/// The job of the program's arguments; `script` if there are none.
///
/// The error is Memory if memory is refused, and otherwise Refused: clap doesn't accept the arguments; a port, a number
/// of turns or seconds, an address, an LU name, a model, a size or a job's name is invalid; `--metrics` has the port of
/// `--port`; `serve` has both `--own-terminals` and `--verify`; or the last word is `--`.
pub fn words<'a>(alloc: Global, words: &'a [String]) -> Result<Job<'a>, WordFault<'a>>
    ensures job { IfOk result (λ job. IsJobOf (map string_bytes words.now) (Some job)) }
    ensures fault { IfErr result (HasNoJob (map string_bytes words.now)) }
{
    match matches_of(alloc, words) {
        Ok(matches) => match job_taken(words, &matches) {
            Some(job) => Ok(job),
            None => Err(WordFault::Refused(refusal_of(words, &matches))),
        },
        Err(error) => match job_by_kind(words, error.kind()) {
            Some(job) => Ok(job),
            None => Err(not_taken(alloc, &error)),
        },
    }
}
