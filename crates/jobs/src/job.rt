//! The jobs of the program, with the values of their options.
ghost use Rattle.std.specs.Prelude.{◌≡◌};
ghost use Rattle.jobs.specs.OptionValues.{model_of};

use crate::endpoint::HostEndpoint;
use crate::number::{AddressCount, EscapeTime, Port, Seconds, ServicePort, SessionCount, Turns};
use crate::service::{ApplicationChoice, ControlChoice, Service};
use crate::tty_size::TtySize;
use crate::word::number_of;
use codes3270::Model;
use host_core::Terminals;
use std::marker;
use std::net::IpAddr;
use tn3270e_msg::Lu;
use tty::Colors;

/// The 3278 model with a number in decimal digits, 2 to 5; None if the word isn't such a number.
pub fn model_of(word: &str) -> Option<Model>
    ensures { result ≡ model_of word.now }
{
    match number_of(word)? {
        2 => Some(Model::M2),
        3 => Some(Model::M3),
        4 => Some(Model::M4),
        5 => Some(Model::M5),
        _ => None,
    }
}

/// A word of the command line: a file name, or a URL. Contracts see its text.
#[derive(Debug, Drop)]
pub struct Operand<'a> {
    text: &'a str,
}

impl<'a> marker::Model for Operand<'a> {
    ghost use Rattle.std.specs.Prelude.{ℕ, List};

    ghost Value = { List ℕ };

    ghost view = { λ word. word.text.now };
}

impl<'a> Operand<'a> {
    /// The word with this text.
    pub fn new(text: &'a str) -> Operand<'a>
        ensures { result ≡ text.entry.now }
    {
        Operand { text }
    }

    /// The text of the word.
    pub fn as_str(&self) -> &'a str
        ensures { result.now ≡ self.now }
    {
        self.text
    }
}

/// A topic of the program's help: the whole program, or one job.
#[derive(Clone, Copy, Debug)]
pub enum HelpTopic {
    Program,
    Script,
    Show,
    Selfrun,
    Check,
    Host,
    Serve,
    Tell,
    Term,
    Operate,
    Web,
    Help,
    Version,
}

/// The words of a command to a running service.
#[derive(Debug, Drop)]
pub struct CommandWords<'a> {
    /// The command's name.
    pub name: Operand<'a>,
    /// The words after it.
    pub first: Option<Operand<'a>>,
    pub second: Option<Operand<'a>>,
}

/// The options of `operate`: the host's address and port, the terminal, and its tty.
#[derive(Debug, Drop)]
pub struct OperateOptions<'a> {
    /// The address of the host.
    pub host: IpAddr,
    /// The port of the host.
    pub port: ServicePort,
    /// The LU that the terminal requests; None to get any LU.
    pub lu: Option<Lu>,
    /// The model of the terminal.
    pub model: Model,
    /// The size of the tty, which is then known to be in raw mode; None if it isn't known that there is such a tty.
    pub tty: Option<TtySize>,
    /// In which colours screens are drawn.
    pub colors: Colors,
    /// The file that says what keys do; None if each does what is usual.
    pub keymap: Option<Operand<'a>>,
    /// The time without a byte that ends a lone ESC, in milliseconds.
    pub escape: EscapeTime,
    /// Whether refused keys are silent.
    pub quiet_keys: bool,
    /// The file to which screens are appended that the operator saves; None if there is none.
    pub save: Option<Operand<'a>>,
}

/// The options of `web`: where it listens, the host, and the bounds of its sessions.
#[derive(Debug, Drop)]
pub struct WebOptions<'a> {
    /// The address that it listens on.
    pub listen: IpAddr,
    /// The port that it listens on.
    pub port: ServicePort,
    /// The host to which each session is connected.
    pub host: HostEndpoint,
    /// The origin of the page behind a proxy; None if there is no proxy.
    pub origin: Option<Operand<'a>>,
    /// The most sessions at one time.
    pub sessions: SessionCount,
    /// How long a session without a page is kept, in seconds.
    pub keep: Seconds,
    /// The most sessions of pages at one address; 0 is no limit.
    pub per_address: AddressCount,
    /// The file that says what keys do; None if each does what is usual.
    pub keymap: Option<Operand<'a>>,
}

/// A job of the program.
#[derive(Debug, Drop)]
pub enum Job<'a> {
    /// Plays a script: serves panels to its terminals, with a host for these terminals.
    Script {
        terminals: Terminals,
    },
    /// Applies commands to a screen of this model, and prints it.
    Show {
        model: Model,
    },
    /// Plays a script over loopback sockets.
    Selfrun {
        turns: Turns,
    },
    /// Checks the panel text of a file, or of the standard input if there is none.
    Check {
        file: Option<Operand<'a>>,
    },
    /// Serves panels to terminals that connect, for this number of turns.
    Host {
        port: Port,
        turns: Turns,
    },
    /// Serves the panels of a file, or of the standard input if there is none, to terminals that connect, without end.
    Serve {
        service: Service,
        panels: Option<Operand<'a>>,
        application: ApplicationChoice<'a>,
        control: ControlChoice<'a>,
    },
    /// Sends a command to the service that has this control socket.
    Tell {
        socket: Operand<'a>,
        command: CommandWords<'a>,
    },
    /// Runs a terminal of this model at a host, and executes the commands of a script.
    Term {
        port: Port,
        lu: Option<Lu>,
        model: Model,
    },
    /// Runs a terminal at a host, for an operator at a tty.
    Operate(OperateOptions<'a>),
    /// Serves a page that is a terminal at a host, to browsers, without end.
    Web(WebOptions<'a>),
    /// Prints help.
    Help(HelpTopic),
    /// Prints the program's version.
    Version,
}
