//! The jobs: their names, their options and operands, and the help texts of these.
ghost use Rattle.std.specs.Prelude.{◌≡◌, map};
ghost use Rattle.cli.specs.Topics.{is_operand, name_of, options_of, row_of, topic_named};

use jobs::HelpTopic;

/// The kind of an option's value. A flag has none; an operand is a value without an option's name.
#[derive(Clone, Copy)]
pub(crate) enum ValueKind {
    Port,
    ServicePort,
    Turns,
    LuName,
    Address,
    Seconds,
    ReplyTime,
    Url,
    Model,
    File,
    TtySize,
    Colors,
    Millis,
    Host,
    Sessions,
    PerAddress,
    Flag,
    Operand,
}

impl ValueKind {
    /// Whether this is the kind of an operand.
    pub(crate) fn is_operand(self) -> bool
        ensures { result ≡ is_operand self }
    {
        matches!(self, ValueKind::Operand)
    }

    /// The text for the value in usage lines, with a blank before it.
    pub(crate) fn placeholder(self) -> &'static str {
        match self {
            ValueKind::Port | ValueKind::ServicePort => " P",
            ValueKind::Turns | ValueKind::Sessions | ValueKind::PerAddress => " N",
            ValueKind::Host => " [HOST:]PORT",
            ValueKind::LuName => " NAME",
            ValueKind::Address => " ADDRESS",
            ValueKind::Seconds | ValueKind::ReplyTime => " SECONDS",
            ValueKind::Model => " M",
            ValueKind::Url => " URL",
            ValueKind::File => " FILE",
            ValueKind::TtySize => " ROWSxCOLUMNS",
            ValueKind::Colors => " COLORS",
            ValueKind::Millis => " MS",
            ValueKind::Flag | ValueKind::Operand => "",
        }
    }
}

/// An option of a job, or an operand.
#[derive(Clone, Copy)]
pub(crate) struct JobOption<'a> {
    /// Its name, without the two dashes.
    pub(crate) name: &'a str,
    /// The kind of its value.
    pub(crate) kind: ValueKind,
    /// Whether it must be given.
    pub(crate) required: bool,
    /// Its help text; that of an operand is in the job's help.
    pub(crate) help: &'a str,
}

/// An option that a job `needs` or `takes`: its name, the kind of its value, and its help text. An operand has only a
/// name.
macro_rules! option {
    (needs $name:literal: $kind:ident, $help:literal) => {
        JobOption { name: $name, kind: ValueKind::$kind, required: true, help: $help }
    };
    (takes $name:literal: $kind:ident, $help:literal) => {
        JobOption { name: $name, kind: ValueKind::$kind, required: false, help: $help }
    };
    (needs $name:literal) => {
        JobOption { name: $name, kind: ValueKind::Operand, required: true, help: "" }
    };
    (takes $name:literal) => {
        JobOption { name: $name, kind: ValueKind::Operand, required: false, help: "" }
    };
}

const PORT: JobOption<'static> = option!(needs "port": Port, "the port, 1024 to 65535");

const TURNS: JobOption<'static> =
    option!(takes "turns": Turns, "the number of turns, 1 to 1000000 [default: 10000]");

const LU: JobOption<'static> = option!(takes "lu": LuName,
    "the LU to ask for: 1 to 8 of A to Z, 0 to 9, @, # and $, the first no digit [default: any LU]");

const MODEL: JobOption<'static> =
    option!(takes "model": Model, "the model of the terminal, 2 to 5 [default: 2]");

static SCRIPT: [JobOption<'static>; 1] = [option!(takes "any-terminal": Flag,
    "the host serves any terminal, as that of serve does, and so doesn't rely on these, which wait")];

static SHOW: [JobOption<'static>; 1] = [
    option!(takes "model": Model, "the model of the screen, 2 to 5 [default: 2]"),
];

static SELFRUN: [JobOption<'static>; 1] = [TURNS];

static HOST: [JobOption<'static>; 2] = [PORT, TURNS];

static SERVE: [JobOption<'static>; 15] = [
    option!(needs "port": ServicePort, "the port, 1 to 65535"),
    option!(takes "listen": Address,
        "the IPv4 or IPv6 address to listen on; localhost is 127.0.0.1 [default: 127.0.0.1]"),
    option!(takes "panels": File, "the file that has the panels [default: INPUT]"),
    option!(takes "negotiate": Seconds, "drop a connection without a session after this time [default: 30]"),
    option!(takes "keepalive": Seconds, "test a connection that sends nothing for this time [default: 60]"),
    option!(takes "idle": Seconds, "drop a connection that sends nothing for this time [default: 0]"),
    option!(takes "application": Url,
        "the application of this machine for keys that panels ask about, as http://127.0.0.1:8080/bank"),
    option!(takes "application-timeout": ReplyTime, "the time that an answer may take, 1 to 3600 [default: 30]"),
    option!(takes "metrics": ServicePort,
        "the port of 127.0.0.1 that answers with metrics, 1 to 65535, not that of --port"),
    option!(takes "control": File, "the socket for commands of the job tell: a file that serve makes"),
    option!(takes "drain": Seconds, "end the sessions that are left this time after the command drain [default: 0]"),
    option!(takes "proxy-protocol": Flag,
        "each connection comes from a proxy, and begins with a header of the PROXY protocol, version 1 or 2"),
    option!(takes "own-terminals": Flag,
        "all terminals are this project's own, in which only the host ends the wait after a key"),
    option!(takes "verify": Flag,
        "read the screen after each key, and drop a terminal that broke a rule; without --own-terminals"),
    option!(takes "quiet": Flag, "log no connection"),
];

static CHECK: [JobOption<'static>; 1] = [option!(takes "file")];

static TELL: [JobOption<'static>; 4] = [
    option!(needs "socket"),
    option!(needs "command"),
    option!(takes "first"),
    option!(takes "second"),
];

static HELP: [JobOption<'static>; 1] = [option!(takes "job")];

static TERM: [JobOption<'static>; 3] = [PORT, LU, MODEL];

static OPERATE: [JobOption<'static>; 10] = [
    option!(needs "port": ServicePort, "the port of the host, 1 to 65535"),
    option!(takes "host": Address,
        "the IPv4 or IPv6 address of the host; localhost is 127.0.0.1 [default: 127.0.0.1]"),
    LU,
    MODEL,
    option!(takes "colors": Colors,
        "dark, light, terminal (the tty's own), or mono (bold and underlined alone) [default: dark]"),
    option!(takes "keymap": File, "the file with lines KEY = ACTION for keys that do something else than usual"),
    option!(takes "escape": Millis,
        "a sequence of a key may be cut for this time after ESC, 1 to 10000 milliseconds [default: 500]"),
    option!(takes "quiet-keys": Flag, "don't ring the bell for a key that is refused"),
    option!(takes "save": File, "the file to which Ctrl-P appends the rows of the screen"),
    option!(takes "raw": TtySize, "the size of the tty, which is in raw mode: bin/operate says so"),
];

static WEB: [JobOption<'static>; 8] = [
    option!(needs "port": ServicePort, "the port of the page, 1 to 65535"),
    option!(needs "connect": Host, "the host: a port of this machine, or an IPv4 address and a port"),
    option!(takes "listen": Address,
        "the IPv4 or IPv6 address to listen on; localhost is 127.0.0.1 [default: 127.0.0.1]"),
    option!(takes "origin": Url,
        "the page's origin behind a proxy, as https://terminals.example; without it browsers of this machine are \
            served"),
    option!(takes "sessions": Sessions, "the most sessions at one time, 1 to 64 [default: 64]"),
    option!(takes "keep": Seconds, "keep a session without a page for this time, 0 to 1000000 [default: 120]"),
    option!(takes "per-address": PerAddress,
        "the most sessions of one client address, 0 to 64; 0 is no limit [default: 0]"),
    option!(takes "keymap": File, "the file with lines KEY = ACTION for keys that do something else than usual"),
];

/// The jobs of the program.
pub(crate) static JOBS: [HelpTopic; 12] = [
    HelpTopic::Script,
    HelpTopic::Selfrun,
    HelpTopic::Show,
    HelpTopic::Check,
    HelpTopic::Host,
    HelpTopic::Serve,
    HelpTopic::Tell,
    HelpTopic::Term,
    HelpTopic::Operate,
    HelpTopic::Web,
    HelpTopic::Help,
    HelpTopic::Version,
];

/// The options of a job, and behind them its operands.
pub(crate) fn options_of(topic: HelpTopic) -> &'static [JobOption<'static>]
    ensures { map row_of result.now ≡ options_of topic }
{
    match topic {
        HelpTopic::Script => &SCRIPT,
        HelpTopic::Show => &SHOW,
        HelpTopic::Selfrun => &SELFRUN,
        HelpTopic::Host => &HOST,
        HelpTopic::Check => &CHECK,
        HelpTopic::Serve => &SERVE,
        HelpTopic::Tell => &TELL,
        HelpTopic::Help => &HELP,
        HelpTopic::Term => &TERM,
        HelpTopic::Operate => &OPERATE,
        HelpTopic::Web => &WEB,
        HelpTopic::Program | HelpTopic::Version => &[],
    }
}

/// The name of a topic's job; empty for the whole program.
pub(crate) fn name_of<'a>(topic: HelpTopic) -> &'a str
    ensures { result.now ≡ name_of topic }
{
    match topic {
        HelpTopic::Program => "",
        HelpTopic::Script => "script",
        HelpTopic::Show => "show",
        HelpTopic::Selfrun => "selfrun",
        HelpTopic::Check => "check",
        HelpTopic::Host => "host",
        HelpTopic::Serve => "serve",
        HelpTopic::Tell => "tell",
        HelpTopic::Term => "term",
        HelpTopic::Operate => "operate",
        HelpTopic::Web => "web",
        HelpTopic::Help => "help",
        HelpTopic::Version => "version",
    }
}

/// The topic of the job with this name.
pub(crate) fn topic_named(name: &str) -> Option<HelpTopic>
    ensures { result ≡ topic_named name.now }
{
    match name {
        "script" => Some(HelpTopic::Script),
        "show" => Some(HelpTopic::Show),
        "selfrun" => Some(HelpTopic::Selfrun),
        "check" => Some(HelpTopic::Check),
        "host" => Some(HelpTopic::Host),
        "serve" => Some(HelpTopic::Serve),
        "tell" => Some(HelpTopic::Tell),
        "term" => Some(HelpTopic::Term),
        "operate" => Some(HelpTopic::Operate),
        "web" => Some(HelpTopic::Web),
        "help" => Some(HelpTopic::Help),
        "version" => Some(HelpTopic::Version),
        _ => None,
    }
}
