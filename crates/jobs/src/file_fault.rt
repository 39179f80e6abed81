//! The reports that a file can't be opened, or is no keymap.
ghost use Rattle.std.specs.Prelude.{◌≡◌};
ghost use Rattle.std.specs.Fmt.{with_newline};
ghost use Rattle.jobs.specs.Counting.{IsTold};
ghost use Rattle.jobs.specs.FileFaults.{file_refused};

use crate::streams::Sink;
use std::fmt::Display;
use std::io::ErrorKind;
use thiserror::Error;
use tty::KeymapFault;

/// The exit status if a file can't be opened.
const FILE_REFUSED: u8 = 1;

/// A file that can't be opened. Prints as its name and the reason.
#[derive(Clone, Copy, Debug, PartialEq, Eq, Error)]
#[error("{name}: {reason}", reason = reason_of(*.why))]
pub struct FileFault<'a> {
    /// The file's name.
    pub name: &'a str,
    /// The kind of the system's error.
    pub why: ErrorKind,
}

/// Why a file can't be opened, in words.
fn reason_of(why: ErrorKind) -> &'static str {
    match why {
        ErrorKind::NotFound => "no such file",
        ErrorKind::PermissionDenied => "permission denied",
        ErrorKind::IsADirectory => "is a directory",
        ErrorKind::NotADirectory => "not a directory",
        _ => "can't be opened",
    }
}

/// Prints why a file can't be opened, and returns the exit status, 1. A line that can't be written is left out.
pub fn refuse_file<'a, E: Sink>(name: &'a str, why: ErrorKind, faults: &mut E) -> u8
    ensures status { result ≡ file_refused }
    ensures told { IsTold E.told (with_newline (⟦<FileFault<'a> as Display>⟧.output
        (record { name = name.entry; why = why }))) faults.old faults.new }
{
    let _ = faults.write_line(FileFault { name, why });
    FILE_REFUSED
}

/// Prints why the text of a file is no keymap, with the file's name and the line's number, and returns the exit status,
/// 1. A line that can't be written is left out.
pub fn refuse_keymap<E: Sink>(name: &str, fault: &KeymapFault, faults: &mut E) -> u8
    ensures { result ≡ file_refused }
{
    let _ = faults.write_line(KeymapRefusal { name, fault });
    FILE_REFUSED
}

/// A file that is no keymap, for this reason.
#[derive(Clone, Copy, Debug, Error)]
#[error("{name}:{fault}")]
struct KeymapRefusal<'a> {
    name: &'a str,
    fault: &'a KeymapFault,
}
