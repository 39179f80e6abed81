//! Reading the panels again while a service runs.
use crate::options::ServeOptions;
use applications::{AskedKey, JobWithoutApplication, first_asked, host_of};
use host_core::{Host, PanelSet};
use jobs::{CountedReader, Fault, read_whole};
use server::ReloadFault;
use service_wire::ANSWER_LIMIT;
use std::alloc::{AllocError, Global};
use std::fmt;
use std::fs::File;
use std::io::{self, ErrorKind};

/// The most bytes of the findings in an answer: the rest of its line has the status, and how much is left out.
const MOST_FINDINGS: usize = ANSWER_LIMIT - 128;

/// Why panels aren't served. Prints as the text of the answer.
#[derive(Drop)]
pub(crate) enum Refusal {
    /// The panels came from the standard input, which can't be read again.
    StandardInput,
    /// The file can't be opened.
    NotOpened(ErrorKind),
    /// What is wrong with the text, in one line.
    Wrong(String),
    /// Sessions of too many earlier panel texts go on.
    TooMany,
    /// Memory was refused.
    Memory,
}

impl From<AllocError> for Refusal {
    fn from(_: AllocError) -> Refusal {
        Refusal::Memory
    }
}

impl From<ReloadFault> for Refusal {
    fn from(fault: ReloadFault) -> Refusal {
        match fault {
            ReloadFault::TooMany => Refusal::TooMany,
            ReloadFault::Memory => Refusal::Memory,
        }
    }
}

impl fmt::Display for Refusal {
    fn fmt<W: fmt::Write>(&self, f: &mut fmt::Formatter<W>) -> fmt::Result {
        match self {
            Refusal::StandardInput => {
                f.write_str("the panels came from standard input; start serve with --panels FILE")
            }
            Refusal::NotOpened(ErrorKind::NotFound) => f.write_str("the file isn't there"),
            Refusal::NotOpened(ErrorKind::PermissionDenied) => {
                f.write_str("permission to read the file is denied")
            }
            Refusal::NotOpened(_) => f.write_str("the file can't be opened"),
            Refusal::Wrong(text) => f.write_str(text.as_str()),
            Refusal::TooMany => {
                f.write_str("sessions of 8 earlier panel texts go on; wait until those of one end")
            }
            Refusal::Memory => f.write_str("no memory"),
        }
    }
}

/// Opens a file of panels for reading. A directory is refused.
pub fn open_panels(rt: &HostRuntime, name: &str) -> io::Result<File> {
    let file = File::open(rt, name)?;
    if file.metadata()?.is_dir() {
        return Err(ErrorKind::IsADirectory.into());
    }
    Ok(file)
}

/// The lines of a page, joined by `; `. Lines beyond `MOST_FINDINGS` bytes are counted, but the last one has the
/// totals.
fn in_one_line(alloc: Global, page: &str) -> Result<String, AllocError> {
    let page = page.trim_end();
    let (findings, totals) = page.rsplit_once('\n').unwrap_or(("", page));
    let mut joined = String::new(alloc);
    let mut left_out: usize = 0;
    for finding in findings.lines() {
        if left_out > 0 || joined.len().saturating_add(finding.len()) > MOST_FINDINGS {
            left_out = left_out.saturating_add(1);
        } else {
            write!(joined, "{finding}; ")?;
        }
    }
    if left_out > 0 {
        write!(joined, "and {left_out} more; ")?;
    }
    joined.push_str(totals)?;
    Ok(joined)
}

/// What `check` prints of a text with faults; None if it finds none. `name` is the text's name there.
pub(crate) fn findings_in(
    alloc: Global,
    name: &str,
    text: &str,
) -> Result<Option<String>, AllocError> {
    let report = panel_check::check(alloc, text)?;
    if report.faults() == 0 {
        return Ok(None);
    }
    Ok(Some(report.page(alloc, name)?))
}

/// What `check` says of a text that a host refuses for this fault; just the fault if `check` finds none.
fn refusal_of(alloc: Global, name: &str, text: &str, fault: Fault) -> Result<String, AllocError> {
    match findings_in(alloc, name, text)? {
        Some(page) => in_one_line(alloc, page.as_str()),
        None => format!(in alloc; "{fault}"),
    }
}

/// The text that a file has now.
fn text_of(rt: &HostRuntime, name: &str) -> Result<String, Refusal> {
    let alloc = rt.alloc();
    let file = match open_panels(rt, name) {
        Ok(file) => file,
        Err(error) => return Err(Refusal::NotOpened(error.kind())),
    };
    match read_whole(alloc, &mut CountedReader::new(file)) {
        Ok(text) => Ok(text),
        Err(Fault::NoMemory) => Err(Refusal::Memory),
        Err(fault) => Err(Refusal::Wrong(format!(in alloc; "{fault}")?)),
    }
}

/// Refuses panels that ask an application if there is none.
fn refuse_asking(
    alloc: Global,
    options: ServeOptions<'_>,
    panels: &PanelSet,
) -> Result<(), Refusal> {
    if options.has_application() {
        return Ok(());
    }
    match first_asked(panels) {
        Some((panel, key)) => {
            let by = JobWithoutApplication::Serve;
            let asked = AskedKey { panel, key, by };
            Err(Refusal::Wrong(format!(in alloc; "{asked}")?))
        }
        None => Ok(()),
    }
}

/// A host of the panels that a text defines; `name` is the text's in reports.
fn host_of_text(
    alloc: Global,
    options: ServeOptions<'_>,
    name: &str,
    text: &str,
) -> Result<Host, Refusal> {
    match host_of(alloc, options.service.terminals, text) {
        Ok(host) => {
            refuse_asking(alloc, options, host.panels())?;
            Ok(host)
        }
        Err(Fault::NoMemory) => Err(Refusal::Memory),
        Err(fault) => Err(Refusal::Wrong(refusal_of(alloc, name, text, fault)?)),
    }
}

/// A host of the panels that the file has now.
pub(crate) fn host_again(rt: &HostRuntime, options: ServeOptions<'_>) -> Result<Host, Refusal> {
    let Some(name) = options.file else {
        return Err(Refusal::StandardInput);
    };
    let text = text_of(rt, name)?;
    host_of_text(rt.alloc(), options, name, text.as_str())
}
