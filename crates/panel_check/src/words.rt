//! The messages of a report for each fault whose value is in the text, and for each warning; and how they print names.
ghost use Rattle.std.specs.Prelude.{◌≡◌, ◌≤◌, true, length, IfOk, OnOk};
ghost use Rattle.panel_check.specs.Report.{is_fault};

use crate::lines::Lines;
use crate::report::Cause;
use codes3270::from_latin1;
use lu_pool::PoolFault;
use panels::TreeFault::*;
use panels::rules::{KeyKind, KeyRule, knows_key, table_rules};
use panels::{
    Draft, ItemDraft, Location, MOST_FIELDS, MOST_PANELS, MOST_TEXTS, PanelDraft, TreeFault,
    key_names,
};
use std::alloc::AllocError;
use std::fmt::{self, Display};
use strsim::osa_distance;
use tn3270e_msg::Lu;
use toml::{Table, Value};

/// The most characters of a text that a message prints, and the most bytes of a word that is compared with others.
const MOST_PRINTED: usize = 40;

/// Prints a text on one line: each control character as `?`, and only the first 40 characters, with `..` after them.
#[derive(Clone, Copy)]
pub(crate) struct Cut<'a>(pub &'a str);

impl fmt::Display for Cut<'_> {
    fn fmt<W: fmt::Write>(&self, f: &mut fmt::Formatter<W>) -> fmt::Result {
        for (place, letter) in self.0.chars().enumerate() {
            if place == MOST_PRINTED {
                return f.write_str("..");
            }
            f.write_char(if letter.is_control() { '?' } else { letter })?;
        }
        Ok(())
    }
}

/// The name of the field that an item's table shows, without a copy's number.
pub(crate) fn shown_in<'a>(item: &ItemDraft<'a>) -> Option<&'a str> {
    match item.table.get("show") {
        Some(Value::String(name)) => Some(name.as_str()),
        _ => None,
    }
}

/// How messages name a table, as `panel MENU, field option`; nothing for the text's own table.
#[derive(Clone, Copy)]
pub(crate) struct Place<'s, 'a>(pub &'s Draft<'a>, pub Location);

impl fmt::Display for Place<'_, '_> {
    fn fmt<W: fmt::Write>(&self, f: &mut fmt::Formatter<W>) -> fmt::Result {
        let Place(draft, part) = *self;
        if let Some(index) = part.panel() {
            match draft.panel(index) {
                Some(panel) if panel.is_named => write!(f, "panel {}", Cut(panel.name))?,
                _ => write!(f, "panel #{}", index.saturating_add(1))?,
            }
        }
        let Some(item) = draft.item(part) else {
            return Ok(());
        };
        let own_name = if item.is_named { Some(item.stem) } else { None };
        let (kind, name) = match (part, item.text) {
            (Location::Text(_, _), Some(text)) => return write!(f, ", text '{}'", Cut(text)),
            (Location::Text(_, _), None) if item.has_show => ("show", shown_in(item)),
            (Location::Text(_, _), None) => ("text", None),
            _ if item.is_value => ("value", own_name),
            _ => ("field", own_name),
        };
        match name {
            Some(name) => write!(f, ", {kind} {}", Cut(name)),
            None => write!(f, ", {kind} #{}", item.index.saturating_add(1)),
        }
    }
}

pub(crate) type Done = Result<(), AllocError>;

/// A line, and what is wrong there, in words.
pub(crate) type Said = (usize, String);

/// The findings for a cause so far, each with its line, and the part of the text that further ones are on.
#[derive(Drop)]
pub(crate) struct Words<'s, 'a> {
    pub draft: &'s Draft<'a>,
    pub lines: &'s Lines,
    pub part: Location,
    pub cause: Cause,
    /// The words that may be meant by one that isn't among them.
    pub known: Vec<&'s str>,
    found: Vec<Said>,
}

/// Adds a finding on the part, at the line of one of its keys; at the part's own line if it hasn't this key.
macro_rules! say {
    ($words:expr, $key:expr; $($message:tt)+) => {
        $words.say($key, format_args!($($message)+))
    };
}

pub(crate) use say;

/// The findings for a cause, each with its line. A fault without words has its name.
pub(crate) fn words_on(draft: &Draft, lines: &Lines, cause: Cause) -> Result<Vec<Said>, AllocError>
    ensures { IfOk result (λ found. is_fault cause ≡ true → 1 ≤ length found.items) }
{
    let part = match cause {
        Cause::Tree(_, part) => part,
        _ => Location::Top,
    };
    let mut words = Words {
        draft,
        lines,
        part,
        cause,
        known: Vec::new(lines.alloc),
        found: Vec::new(lines.alloc),
    };
    words.tell()?;
    if words.found.is_empty() && cause.is_fault() {
        say!(words, ""; "{cause:?}")?;
    }
    let Words { found, .. } = words;
    Ok(found)
}

impl<'s, 'a> Words<'s, 'a> {
    pub fn say(&mut self, key: impl Display + Drop, message: impl Display + Drop) -> Done
        ensures { OnOk result (1 ≤ length self.new.found.items) }
    {
        let line = self.lines.of_key(self.draft.table(self.part), key)?;
        let place = Place(self.draft, self.part);
        let is_top = matches!(self.part, Location::Top);
        let behind = if is_top { "" } else { ": " };
        let words = format!(in self.lines.alloc; "{place}{behind}{message}")?;
        self.found.push((line, words))?;
        Ok(())
    }

    /// Says this of a word, and the most similar of the first 500 known ones of at most 40 bytes, if one is similar.
    pub fn say_near(&mut self, key: &str, word: &str, message: impl Display + Drop) -> Done {
        // One edit in three letters. A word of more than 40 bytes is similar to none.
        let (mut guess, mut most) = (None, word.len() / 3 + 1);
        let is_short = word.len() <= MOST_PRINTED && !self.known.contains(&word);
        let short = self.known.iter().filter(|it| it.len() <= MOST_PRINTED);
        for it in short.take(if is_short { 500 } else { 0 }) {
            let distance = osa_distance(self.lines.alloc, word, *it)?;
            if distance <= most && distance < it.len() {
                guess = Some(*it);
                most = distance.saturating_sub(1);
            }
        }
        match guess {
            Some(meant) => say!(self, key; "{message} (did you mean '{}'?)", Cut(meant)),
            None => self.say(key, message),
        }
    }

    fn tell(&mut self) -> Done {
        let (draft, part) = (self.draft, self.part);
        match (self.cause, draft.item(part), part.panel()) {
            (Cause::Tree(fault, _), Some(item), _) => self.tell_item(fault, item),
            (Cause::Tree(fault, _), None, Some(index)) => self.tell_panel(fault, index),
            (Cause::Tree(UnknownKey | Missing | BadKind, _), None, None) => self.keys(draft.table),
            (Cause::Tree(TooMany, _), None, None) => {
                self.most(draft.table, "panel", draft.panels.len(), MOST_PANELS)
            }
            (Cause::Tree(_, _), None, None) if draft.has_start => {
                self.lost_panel("start", draft.start, false)
            }
            (Cause::Lus(fault), _, _) => self.lu_fault(fault),
            (Cause::TextWraps | Cause::FillNotNumeric, _, _) => self.warn_of_items(),
            (Cause::NoKeyLeads, _, _) => self.unreached(),
            (Cause::NotToml | Cause::Tree(_, _), _, _) => Ok(()),
        }
    }

    fn tell_item(&mut self, fault: TreeFault, item: &'s ItemDraft<'a>) -> Done {
        match fault {
            UnknownKey | Missing | BadKind => self.keys(item.table),
            BadName => say!(self, "name";
                "bad name '{}': a name has 1 to 16 of a-z, 0-9 and _", Cut(item.stem)),
            TwiceNamed => self.named_twice(item.stem),
            OutOfPlace => self.misplaced(item),
            Overlap => self.overlap(),
            NoCode => {
                self.no_code("text", item.text.unwrap_or(""))?;
                self.no_code("label", item.label)?;
                self.no_code("fill", item.fill)
            }
            NoTarget => self.lost_shown(item),
            TooMany | BadKey | BadModel => Ok(()),
        }
    }

    fn tell_panel(&mut self, fault: TreeFault, index: usize) -> Done {
        let Some(panel) = self.draft.panel(index) else {
            return Ok(());
        };
        let is_keys = matches!(self.part, Location::Keys(_));
        match fault {
            UnknownKey | Missing | BadKind if is_keys => match panel.table.get("keys") {
                Some(Value::Table(keys)) => self.keys(keys),
                _ => Ok(()),
            },
            UnknownKey | Missing | BadKind => self.keys(panel.table),
            TooMany => {
                self.most(panel.table, "text", panel.texts.len(), MOST_TEXTS)?;
                self.most(panel.table, "field", panel.fields.len(), MOST_FIELDS)
            }
            BadName => say!(self, "name";
                "bad name '{}': a name has 1 to 16 of A-Z and 0-9", Cut(panel.name)),
            BadKey => self.bad_keys(index, panel),
            TwiceNamed if is_keys => self.asked_twice(index, panel),
            TwiceNamed => self.named_twice(panel.name),
            BadModel => say!(self, "model"; "'model' must be 2, 3, 4 or 5, not {}", panel.model),
            NoTarget if is_keys => self.lost_keys(panel),
            NoTarget => self.no_target(panel),
            OutOfPlace | Overlap | NoCode => Ok(()),
        }
    }

    /// Says which keys of a table are wrong or absent, and which of its values have wrong types.
    fn keys(&mut self, table: &'a Table) -> Done {
        let rules = table_rules(self.draft.table(self.part), table);
        for rule in rules {
            self.known.push(rule.key())?;
        }
        for (key, value) in table.iter() {
            if !knows_key(rules, key.as_str()) {
                self.unknown(key.as_str(), value)?;
            }
        }
        for rule in rules {
            self.breach(rule, table)?;
        }
        Ok(())
    }

    fn unknown(&mut self, key: &str, value: &Value) -> Done {
        let rule = match (self.part, key) {
            (Location::Keys(_), _) if value.is_str() => return Ok(()),
            (Location::Keys(_), _) => return say!(self, key;
                "a key must have the name of a panel, not {}", value.type_str()),
            (Location::Text(_, _), "show" | "length") => "can't be used with 'text'",
            (Location::Panel(_), "otherwise") => "can be used only with 'model' 3, 4 or 5",
            _ => return self.lost(key, key, "unknown key"),
        };
        say!(self, key; "key '{key}' {rule}")
    }

    /// Says that a key that must be there is absent, or that its value has another type than the rule says, if so.
    fn breach(&mut self, rule: &KeyRule, table: &Table) -> Done {
        let (key, kind, is_missing) = (rule.key(), rule.kind(), rule.is_missing_in(table));
        let (not, found) = match table.get(key) {
            None if is_missing => return self.missing(key, table),
            Some(_) if is_missing => return say!(self, key; "array '{key}' is empty"),
            None => return Ok(()),
            Some(value) if kind.fits(value) => return Ok(()),
            Some(Value::Integer(number)) if matches!(kind, KeyKind::Count) =>
                return say!(self, key; "'{key}' must be {kind}, not {number}"),
            Some(Value::Array(_)) => ("", ""),
            Some(value) => (", not ", value.type_str()),
        };
        say!(self, key; "'{key}' must be {kind}{not}{found}")
    }

    fn missing(&mut self, key: &str, table: &Table) -> Done {
        let keys = match (self.part, key) {
            (Location::Text(_, _), "show") => "'text', or 'show' with 'length'",
            // The finding for `show` says this, too.
            (Location::Text(_, _), "length") if !table.contains_key("show") => return Ok(()),
            (Location::Panel(_), "otherwise") =>
                "'otherwise': the panel of model 2 for terminals of other models",
            _ => return say!(self, key; "missing key '{key}'"),
        };
        say!(self, key; "missing key {keys}")
    }

    /// Says that a table has more items at a key than it may, if it is so.
    fn most(&mut self, table: &Table, key: &str, count: usize, most: usize) -> Done {
        if count <= most {
            return Ok(());
        }
        let (items, all) = match (table.get(key), key) {
            (Some(Value::Array(tables)), _) if tables.len() == count => ("tables", ""),
            (_, "field") => ("items", " with all copies and values"),
            _ => ("items", " with all copies"),
        };
        say!(self, key; "{count} {items} in '{key}'{all}: at most {most} are allowed")
    }

    /// Says in which line a name that a panel, a field or a value has is already used.
    fn named_twice(&mut self, name: &str) -> Done {
        let Some(earlier) = self.draft.earlier_with_name(self.part) else {
            return Ok(());
        };
        let line = self.lines.of_key(self.draft.table(earlier), "name")?;
        say!(self, "name"; "name '{}' is already used in line {line}", Cut(name))
    }

    /// Says which names in a panel's `keys` and `asks` aren't those of keys; `asks` may have `connect`, too.
    fn bad_keys(&mut self, index: usize, panel: &PanelDraft) -> Done {
        self.known.extend_from_slice(key_names())?;
        if let Some(Value::Table(keys)) = panel.table.get("keys") {
            for key in keys.keys() {
                self.lost(key.as_str(), key.as_str(), "no key is named")?;
            }
        }
        self.part = Location::Panel(index);
        self.known.push("connect")?;
        for name in &panel.asks {
            self.lost("asks", *name, "no key is named")?;
        }
        Ok(())
    }

    /// Says which keys a panel's `asks` have twice, or have although its `keys` have them.
    fn asked_twice(&mut self, index: usize, panel: &PanelDraft) -> Done {
        self.part = Location::Panel(index);
        for index in 0..panel.asks.len() {
            let name = panel.asks[index];
            if (&panel.asks[..index]).contains(&name) {
                say!(self, "asks"; "key '{}' is named twice", Cut(name))?;
            }
            for key in &panel.keys {
                if key.0 == name {
                    say!(self, "asks"; "key '{}' leads to a panel in 'keys', too", Cut(name))?;
                }
            }
        }
        Ok(())
    }

    /// Says which character of the text at a key is the first without a code in code page 037.
    fn no_code(&mut self, key: &str, text: &str) -> Done {
        match text.chars().find(|letter| from_latin1(*letter).is_none()) {
            None => Ok(()),
            Some(letter) if letter < '\u{a0}' => say!(self, key;
                "code page 037 has no character U+{:04X}", u32::from(letter)),
            Some(letter) => say!(self, key;
                "code page 037 has no character '{letter}', U+{:04X}", u32::from(letter)),
        }
    }

    /// Says what is wrong with the list of LUs; of a name that is listed twice, in which line it is first.
    fn lu_fault(&mut self, fault: PoolFault) -> Done {
        let draft = self.draft;
        let lus = draft.lus.as_slice();
        let (PoolFault::BadName(index) | PoolFault::Twice(index)) = fault else {
            return say!(self, "lus"; "{} LUs: there must be 1 to 64", lus.len());
        };
        let text = lus.get(index).copied().unwrap_or("");
        if matches!(fault, PoolFault::BadName(_)) {
            return say!(self, format_args!("lus'{index}");
                "bad LU name '{}': 1 to 8 of A-Z, 0-9, @, # and $, the first no digit", Cut(text));
        }
        let (lu, mut first) = (Lu::read(text.as_bytes()), 0usize);
        for other in lus {
            if Lu::read(other.as_bytes()) == lu {
                break;
            }
            first = first.saturating_add(1);
        }
        let first = format_args!("lus'{first}");
        let line = self.lines.of_key(Location::Top, first)?;
        say!(self, format_args!("lus'{index}"); "LU '{}' is already listed in line {line}", Cut(text))
    }
}
