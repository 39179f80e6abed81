//! The lines of a panel text's tables and keys. `toml` reports no lines of what it reads, so this walks over the text
//! once more, with the readers of `toml_parser`, of which `toml` is made. Lines count from 1.
//!
//! A path names what has a line, as `.panel#1.field#0.row`: `.` is before a key, `#` before the index of a table in an
//! array, and `'` before the index of a string. Like the panel reader, this counts tables and strings apart.
use panels::Location;
use std::alloc::{AllocError, Global};
use std::collections::BTreeMap;
use std::fmt::Display;
use toml_parser::text::{skip_blank, skip_ws};
use toml_parser::{ParseError, dotted_key, quoted, starts_string, unquoted};

/// The lines of a text, up to where the walk is.
#[derive(Drop)]
pub(crate) struct Lines {
    pub alloc: Global,
    /// The line of each path.
    noted: BTreeMap<String, usize>,
    /// For an array's path and a mark: how many values with this mark the array has up to here.
    counts: BTreeMap<String, usize>,
    /// The path of the last header's table, and those of the arrays (true) and tables in it that haven't ended.
    open: Vec<(String, bool)>,
    /// The path and the line that the walk has reached.
    path: String,
    line: usize,
}

/// How many lines end in the first `length` bytes of a text.
pub(crate) fn line_ends(text: &str, length: usize) -> usize {
    let bytes = text.bytes().take(length);
    bytes.filter(|byte| *byte == b'\n').count()
}

/// The path of a part's table.
fn path_of(alloc: Global, part: Location) -> Result<String, AllocError> {
    match part {
        Location::Top => Ok(String::new(alloc)),
        Location::Panel(panel) => format!(in alloc; ".panel#{panel}"),
        Location::Keys(panel) => format!(in alloc; ".panel#{panel}.keys"),
        Location::Text(panel, text) => format!(in alloc; ".panel#{panel}.text#{text}"),
        Location::Field(panel, field) => format!(in alloc; ".panel#{panel}.field#{field}"),
        Location::Value(panel, value) => format!(in alloc; ".panel#{panel}.value#{value}"),
    }
}

impl Lines {
    /// The lines of a text, up to the first place at which it isn't TOML.
    pub fn of_text(alloc: Global, text: &str) -> Result<Lines, AllocError> {
        let mut lines = Lines {
            alloc,
            noted: BTreeMap::new(alloc),
            counts: BTreeMap::new(alloc),
            open: Vec::new(alloc),
            path: String::new(alloc),
            line: 1,
        };
        match lines.walk(text) {
            Err(ParseError::OutOfMemory) => Err(AllocError),
            Ok(()) | Err(ParseError::At(_, _, _)) => Ok(lines),
        }
    }

    /// The line of a key in a part's table; the table's own if it has no such key, and 1 if there is no such table.
    pub fn of_key(&self, part: Location, key: impl Display + Drop) -> Result<usize, AllocError> {
        let mut path = path_of(self.alloc, part)?;
        let own = self.noted.get(path.as_str()).copied().unwrap_or(1);
        write!(path, ".{key}")?;
        Ok(self.noted.get(path.as_str()).copied().unwrap_or(own))
    }

    fn walk(&mut self, text: &str) -> Result<(), ParseError> {
        self.open.push((String::new(self.alloc), false))?;
        let (mut passed, mut rest) = (text, text.strip_prefix('\u{feff}').unwrap_or(text));
        for _ in 0..=text.len() {
            let start = skip_blank(rest, true);
            if start.is_empty() {
                break;
            }
            let ends = line_ends(passed, passed.len().saturating_sub(start.len()));
            self.line = self.line.saturating_add(ends);
            passed = start;
            rest = self.step(start)?;
        }
        Ok(())
    }

    /// Walks over a header, a comma, the end of an array or a table, a key, or `=` and the value after it.
    fn step<'t>(&mut self, text: &'t str) -> Result<&'t str, ParseError> {
        let mut letters = text.chars();
        match letters.next() {
            Some(',') => Ok(letters.as_str()),
            Some('=') => self.value(skip_ws(letters.as_str())),
            Some(']' | '}') => {
                self.open.pop();
                Ok(letters.as_str())
            }
            Some('[') if self.open.len() == 1 => self.header(letters.as_str()),
            _ => self.entry(text),
        }
    }

    /// Walks over a header, from after its first bracket on.
    fn header<'t>(&mut self, text: &'t str) -> Result<&'t str, ParseError> {
        self.path.clear();
        let after = self.key(skip_ws(text.trim_start_matches('[')))?;
        if text.starts_with('[') {
            self.next_element("{")?;
        }
        self.open.clear();
        self.open.push((self.path.clone()?, false))?;
        Ok(after.trim_start_matches(']'))
    }

    /// Walks over the next value of the array that is open, or the next key of the table that is.
    fn entry<'t>(&mut self, text: &'t str) -> Result<&'t str, ParseError> {
        let Some((path, is_array)) = self.open.last() else {
            return Ok("");
        };
        self.path.clear();
        self.path.push_str(path.as_str())?;
        if !*is_array {
            return self.key(text);
        }
        self.next_element(text)?;
        self.value(text)
    }

    /// Walks over a key, and notes the line of each of its parts. An array on the way means its last table.
    fn key<'t>(&mut self, text: &'t str) -> Result<&'t str, ParseError> {
        let (key, after) = dotted_key(self.alloc, text)?;
        for part in &key.path {
            self.note('.', part.as_str())?;
            let tables = format!(in self.alloc; "{}#", self.path)?;
            if let Some(count) = self.counts.get(tables.as_str()).copied() {
                write!(self.path, "#{}", count.saturating_sub(1))?;
            }
        }
        self.note('.', key.last.as_str())?;
        Ok(after)
    }

    /// Goes on to the next value of an array, and notes its line.
    fn next_element(&mut self, value: &str) -> Result<(), AllocError> {
        let mark = match value.as_bytes().first() {
            Some(b'{') => '#',
            Some(b'"' | b'\'') => '\'',
            _ => '?',
        };
        let kind = format!(in self.alloc; "{}{mark}", self.path)?;
        let count = self.counts.get(kind.as_str()).copied().unwrap_or(0);
        self.counts.insert(kind, count.saturating_add(1))?;
        self.note(mark, count)
    }

    /// Goes on to a part of the value at the path, and notes its line unless it has one.
    fn note(&mut self, mark: char, part: impl Display + Drop) -> Result<(), AllocError> {
        write!(self.path, "{mark}{part}")?;
        if !self.noted.contains_key(self.path.as_str()) {
            self.noted.insert(self.path.clone()?, self.line)?;
        }
        Ok(())
    }

    /// Walks over a value, or the beginning of an array or a table.
    fn value<'t>(&mut self, text: &'t str) -> Result<&'t str, ParseError> {
        if let Some(inside) = text.strip_prefix('[').or(text.strip_prefix('{')) {
            self.open.push((self.path.clone()?, text.starts_with('[')))?;
            return Ok(inside);
        }
        if starts_string(text) {
            return Ok(quoted(self.alloc, text)?.1);
        }
        Ok(unquoted(self.alloc, text)?.1)
    }
}
