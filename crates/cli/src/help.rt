//! `help` and `--version`: the texts about the use of the program.
ghost use Rattle.cli.specs.Helps.{PrintsLine};

use crate::job_table::{JOBS, JobOption, name_of, options_of};
use jobs::{Fault, HelpTopic, Sink, WriteFailed, report_and_exit_code};
use std::fmt;

/// The program's version.
pub const VERSION: &str = "1.1";

const BEFORE_JOBS: &str = "panel3270: TN3270E hosts and terminals, and 3270 screens

usage: panel3270 [JOB] < INPUT

jobs:";

const BEHIND_JOBS: &str = "

options:
  -h, --help      print this text, or after a job the help of that job
  -V, --version   print the version

INPUT is UTF-8 of at most 1048576 bytes, in lines that end with LF, which the last may lack.
status: 0 done, 1 input refused, 2 words refused, 3 no memory, 4 socket failed, 5 turns over, 6 output failed";

/// The help texts of a job.
#[derive(Clone, Copy)]
struct JobText {
    /// The job's line in the list of jobs.
    summary: &'static str,
    /// The first lines of the job's own help.
    purpose: &'static str,
    /// The last lines of the job's own help.
    notes: &'static str,
}

static SCRIPT_TEXT: JobText = JobText {
    summary: "serve panels to terminals, which do commands; this is the job if no word is given",
    purpose: "Serve panels to four terminals, of models 2 to 5, which do commands, and print what their \
        operators see.",
    notes: "\n\nINPUT is panels in TOML, a line %%, and commands, one a line.",
};

static SELFRUN_TEXT: JobText = JobText {
    summary: "do the same over sockets",
    purpose: "Serve panels to four terminals, of models 2 to 5, over sockets of this machine. The terminals do \
        commands. Print what their operators see.",
    notes: "\n\nINPUT is panels in TOML, a line %%, and commands, one a line.",
};

static SHOW_TEXT: JobText = JobText {
    summary: "apply commands of the data stream, in hexadecimal, to a blank screen, and print it",
    purpose: "Apply commands of the 3270 data stream to a blank screen, and print it.",
    notes: "\n\nINPUT is commands, one a line: pairs of hexadecimal digits, and blanks; no tab, CR or comment.",
};

static CHECK_TEXT: JobText = JobText {
    summary: "print every fault of a panel text",
    purpose: "Print every fault of a panel text, and warnings, each with its line. Without FILE the text is \
        standard input.",
    notes: "\n\nFILE is panels in TOML. A line %% ends them.",
};

static HOST_TEXT: JobText = JobText {
    summary: "serve panels to terminals that connect to 127.0.0.1, for a number of turns",
    purpose: "Serve panels to terminals that connect to 127.0.0.1, for a number of turns.",
    notes: "\n\nINPUT is panels in TOML.",
};

static SERVE_TEXT: JobText = JobText {
    summary: "serve panels to terminals that connect, without end",
    purpose: "Serve panels to terminals that connect, without end, and log each connection on standard error.",
    notes: "\n\nOther SECONDS are 0 to 1000000; 0 is no limit.\nINPUT is panels in TOML.",
};

static TELL_TEXT: JobText = JobText {
    summary: "send a command to a running service, and print its answer",
    purpose: "Send a command to the service that has this control socket, and print its answer.",
    notes: "\n\nCOMMAND is one of:\n  \
        sessions         list the sessions\n  \
        note LU|* TEXT   show TEXT in the last row of an LU's screen, or of each screen\n  \
        drain [TEXT]     take no new session, show TEXT on each screen, and end after the last session\n  \
        reload           read the panels again, for new sessions; old ones keep theirs\n  \
        stop             end\n\
        TEXT is one word: quote it. It has at most 131 characters.",
};

static TERM_TEXT: JobText = JobText {
    summary: "be a terminal of the host at 127.0.0.1, and do commands",
    purpose: "Be a terminal of the host at 127.0.0.1, and do commands.",
    notes: "\n\nINPUT is commands, one a line.",
};

static OPERATE_TEXT: JobText = JobText {
    summary: "be a terminal of a host, for an operator at a tty",
    purpose: "Be a terminal of a host, for an operator at this tty. Start it by the script bin/operate \
        [OPTION ..] [HOST:]PORT [LU].",
    notes: "\n\nThe status row has the keyboard's lock, the LU and the cursor. ESC and ? show the keys; Ctrl-] \
        ends the program.",
};

static WEB_TEXT: JobText = JobText {
    summary: "be terminals of a host, for operators in browsers, without end",
    purpose: "Serve a page that is a terminal at a host, at http://127.0.0.1:P/, and log each session on \
        standard error. Each page is a session of its own.",
    notes: "\n\nThe page of http://127.0.0.1:P/#model=4&lu=NAME has that model, 2 to 5, and asks for that LU.\n\
        The page has buttons for all keys. Passwords cross the network as they are: put TLS and a sign-on \
        before it.",
};

static HELP_TEXT: JobText = JobText {
    summary: "print this text, or with a job's name the help of that job",
    purpose: "Print the help of the program, or of a job.",
    notes: "",
};

static VERSION_TEXT: JobText = JobText {
    summary: "print the version",
    purpose: "Print the version of the program.",
    notes: "",
};

/// The help texts of a topic's job.
fn text_of(topic: HelpTopic) -> &'static JobText {
    match topic {
        HelpTopic::Script => &SCRIPT_TEXT,
        HelpTopic::Selfrun => &SELFRUN_TEXT,
        HelpTopic::Show => &SHOW_TEXT,
        HelpTopic::Check => &CHECK_TEXT,
        HelpTopic::Host => &HOST_TEXT,
        HelpTopic::Serve => &SERVE_TEXT,
        HelpTopic::Tell => &TELL_TEXT,
        HelpTopic::Term => &TERM_TEXT,
        HelpTopic::Operate => &OPERATE_TEXT,
        HelpTopic::Web => &WEB_TEXT,
        HelpTopic::Program | HelpTopic::Help => &HELP_TEXT,
        HelpTopic::Version => &VERSION_TEXT,
    }
}

/// The words after the options in the usage line of a job.
fn after_options(topic: HelpTopic) -> &'static str {
    match topic {
        HelpTopic::Check => " [FILE]",
        HelpTopic::Help => " [JOB]",
        HelpTopic::Tell => " SOCKET COMMAND",
        HelpTopic::Program | HelpTopic::Operate | HelpTopic::Web | HelpTopic::Version => "",
        _ => " < INPUT",
    }
}

/// The most options that a usage line lists. If a job has more, it lists the required ones.
const MOST_LISTED: usize = 4;

/// Prints as the options in a usage line.
#[derive(Clone, Copy)]
struct Usage<'a>(&'a [JobOption<'a>]);

impl fmt::Display for Usage<'_> {
    fn fmt<W: fmt::Write>(&self, f: &mut fmt::Formatter<W>) -> fmt::Result {
        let lists_all = self.0.len() <= MOST_LISTED;
        for option in self.0 {
            if option.kind.is_operand() {
                continue;
            }
            let (name, value) = (option.name, option.kind.placeholder());
            if option.required {
                write!(f, " --{name}{value}")?;
            } else if lists_all {
                write!(f, " [--{name}{value}]")?;
            }
        }
        f.write_str(if lists_all { "" } else { " [OPTION ..]" })
    }
}

/// The width of the column of an option's name and value in a list, in characters.
const OPTION_WIDTH: usize = 17;

/// Prints as the list of a job's options with a heading, or as nothing if there are none.
#[derive(Clone, Copy)]
struct OptionList<'a>(&'a [JobOption<'a>]);

impl fmt::Display for OptionList<'_> {
    fn fmt<W: fmt::Write>(&self, f: &mut fmt::Formatter<W>) -> fmt::Result {
        if self.0.iter().any(|option| !option.kind.is_operand()) {
            f.write_str("\n\noptions:")?;
        }
        for option in self.0 {
            if option.kind.is_operand() {
                continue;
            }
            let (name, value, help) = (option.name, option.kind.placeholder(), option.help);
            let width = OPTION_WIDTH.saturating_sub(name.len());
            write!(f, "\n  --{name}{value:<width$}   {help}")?;
        }
        Ok(())
    }
}

/// Writes the help of the program.
fn write_program<W: fmt::Write>(f: &mut fmt::Formatter<W>) -> fmt::Result {
    f.write_str(BEFORE_JOBS)?;
    for topic in &JOBS {
        let (name, summary) = (name_of(*topic), text_of(*topic).summary);
        write!(f, "\n  {name:<10}{summary}")?;
    }
    f.write_str(BEHIND_JOBS)
}

/// Prints as the help on a topic.
#[derive(Clone, Copy, Drop)]
struct Help(HelpTopic);

impl fmt::Display for Help {
    fn fmt<W: fmt::Write>(&self, f: &mut fmt::Formatter<W>) -> fmt::Result {
        let (name, options) = (name_of(self.0), options_of(self.0));
        if name.is_empty() {
            return write_program(f);
        }
        let (usage, list, rest) = (Usage(options), OptionList(options), after_options(self.0));
        let text = text_of(self.0);
        let (purpose, notes) = (text.purpose, text.notes);
        write!(
            f,
            "usage: panel3270 {name}{usage}{rest}\n\n{purpose}{list}{notes}"
        )
    }
}

/// Prints a line, and returns the exit status: 0, or 6 if the output fails.
fn print_line<D: fmt::Display + Drop, O: Sink, E: Sink>(text: D, out: &mut O, faults: &mut E) -> u8
    ensures { PrintsLine (O.seen out.old) (O.seen out.new) (E.seen faults.old) (E.seen faults.new) result }
{
    match out.write_line(text) {
        Ok(()) => 0,
        Err(WriteFailed) => report_and_exit_code(Fault::OutputFailed, faults),
    }
}

/// Prints the help on a topic, and returns the exit status: 0, or 6 if the output fails.
pub fn run_help<O: Sink, E: Sink>(topic: HelpTopic, out: &mut O, faults: &mut E) -> u8
    ensures { PrintsLine (O.seen out.old) (O.seen out.new) (E.seen faults.old) (E.seen faults.new) result }
{
    print_line(Help(topic), out, faults)
}

/// Prints the program's version, and returns the exit status: 0, or 6 if the output fails.
pub fn run_version<O: Sink, E: Sink>(out: &mut O, faults: &mut E) -> u8
    ensures { PrintsLine (O.seen out.old) (O.seen out.new) (E.seen faults.old) (E.seen faults.new) result }
{
    print_line(format_args!("panel3270 {VERSION}"), out, faults)
}
