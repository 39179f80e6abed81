//! The names in a panel text, and the panels, fields and keys that have them.
ghost use Rattle.std.specs.Prelude.{◌≡◌, ◌↔◌, IsTrue, MatchOption, bytes_eq, map, not, option_map, pos};
ghost use Rattle.std.specs.List.{list_any};
ghost use Rattle.panels.specs.Items.{is_name as is_name_by};
ghost use Rattle.panels.specs.Keys.{connect_name, is_asked_name, is_key_name, key_names};
ghost use Rattle.panels.specs.declared.fault.Location.TheVariants as part;
ghost use Rattle.panels.specs.Faults.{HasFieldNamed, HasLostCursor, has_key_twice, has_strange_key, asks_twice};
ghost use Rattle.panels.specs.Index.{IsEarlierIn};
ghost use Rattle.panels.specs.Walk.{is_letter_of};

use crate::draft::{ItemDraft, PanelDraft};
use crate::fault::Location;
use crate::index::NameIndex;

/// Whether a letter may be in the name of a panel, or of a field or a value.
fn is_letter(part: Location, letter: u8) -> bool
    ensures { result ≡ is_letter_of part letter }
{
    match part {
        Location::Panel(_) => matches!(letter, b'A'..=b'Z' | b'0'..=b'9'),
        Location::Top
        | Location::Text(_, _)
        | Location::Field(_, _)
        | Location::Value(_, _)
        | Location::Keys(_) => { matches!(letter, b'a'..=b'z' | b'0'..=b'9' | b'_') }
    }
}

/// Whether a panel, or a field or a value, may have a name: 1 to 16 letters of those that its kind allows.
pub(crate) fn is_name(part: Location, name: &str) -> bool
    ensures { result ≡ is_name_by (is_letter_of part) name.now }
{
    (1..=16).contains(&name.len()) && name.bytes().all(|letter| is_letter(part, letter))
}

static KEY_NAMES: [&str; 29] = [
    "enter", "clear", "pa1", "pa2", "pa3", "pf1", "pf2", "pf3", "pf4", "pf5", "pf6", "pf7", "pf8",
    "pf9", "pf10", "pf11", "pf12", "pf13", "pf14", "pf15", "pf16", "pf17", "pf18", "pf19", "pf20",
    "pf21", "pf22", "pf23", "pf24",
];

/// The name in `asks` by which the application decides what a session shows first.
pub(crate) const CONNECT: &str = "connect";

/// The names of the keys that may lead to a panel: `enter`, `clear`, `pa1` to `pa3`, `pf1` to `pf24`.
pub fn key_names() -> &'static [&'static str]
    ensures { map (λ name. name.now) result.now ≡ key_names }
{
    &KEY_NAMES
}

/// Whether `asks` may have a name: that of a key, or `connect`.
fn is_asked_name(name: &str) -> bool
    ensures { result ≡ is_asked_name name.now }
{
    is_among(key_names(), name) || name == CONNECT
}

/// Whether a name occurs twice.
fn has_repeat(names: &[&str]) -> bool
    ensures { result ≡ asks_twice (map (λ name. name.now) names.now) }
{
    for at in 0..names.len() {
        if is_among(&names[at + 1..], names[at]) {
            return true;
        }
    }
    false
}

pub(crate) fn is_among(names: &[&str], name: &str) -> bool
    ensures { result ≡ list_any (bytes_eq name.now) (map (λ known. known.now) names.now) }
{
    names.iter().any(|known| name == *known)
}

/// The first part with this name, if it comes before another part.
pub(crate) fn earlier_in(index: &NameIndex, name: Option<&str>, part: Location) -> Option<Location>
    ensures { MatchOption result
        ((earlier : Location) → ¬ IsEarlierIn index.now (option_map (λ n. n.now) name.entry) earlier part)
        (λ earlier. IsEarlierIn index.now (option_map (λ n. n.now) name.entry) earlier part) }
{
    match index.get(name?) {
        Some(first) if first.is_before(part) => Some(*first),
        _ => None,
    }
}

impl<'a> ItemDraft<'a> {
    fn is_named(&self, name: &str) -> bool
        ensures { IsTrue result ↔ (self.now.name ≡ name.now) }
    {
        self.name.as_str() == name
    }
}

impl<'a> PanelDraft<'a> {
    /// Whether it is of model 2 and has this name.
    pub(crate) fn is_base_named(&self, name: &str) -> bool
        ensures { IsTrue result ↔ ((self.now.model ≡ pos 2) × (self.now.name ≡ name.now)) }
    {
        self.model == 2 && self.name == name
    }

    /// Whether its `keys` have a name that is of no key.
    fn leads_from_no_key(&self) -> bool
        ensures { result ≡ list_any (λ key. not (is_key_name key.0)) self.now.keys }
    {
        self.keys.iter().any(|key| !is_among(key_names(), key.0))
    }

    /// Whether its `asks` have a name that is neither of a key nor `connect`.
    fn asks_about_no_key(&self) -> bool
        ensures { result ≡ list_any (λ name. not (is_asked_name name)) self.now.asks }
    {
        self.asks.iter().any(|name| !is_asked_name(*name))
    }

    /// Whether its `keys` have a name that is of no key, or its `asks` one that is neither of a key nor `connect`.
    pub(crate) fn has_strange_key(&self) -> bool
        ensures { result ≡ has_strange_key self.now }
    {
        self.leads_from_no_key() || self.asks_about_no_key()
    }

    /// Whether its `asks` have `connect`.
    pub(crate) fn asks_at_connect(&self) -> bool
        ensures { result ≡ list_any (bytes_eq connect_name) self.now.asks }
    {
        is_among(self.asks.as_slice(), CONNECT)
    }

    /// Whether a key is both in its `keys` and in its `asks`.
    fn leads_and_asks(&self) -> bool
        ensures { result ≡ list_any (λ key. list_any (bytes_eq key.0) self.now.asks) self.now.keys }
    {
        self.keys
            .iter()
            .any(|key| is_among(self.asks.as_slice(), key.0))
    }

    /// Whether its `asks` have a name twice, or one that its `keys` have too.
    pub(crate) fn has_key_twice(&self) -> bool
        ensures { result ≡ has_key_twice self.now }
    {
        has_repeat(self.asks.as_slice()) || self.leads_and_asks()
    }

    fn has_field_named(&self, name: &str) -> bool
        ensures { IsTrue result ↔ HasFieldNamed name.now self.now }
    {
        for field in self.field_drafts() {
            if field.is_named(name) {
                return true;
            }
        }
        false
    }

    /// Whether its `cursor` names none of its fields.
    pub(crate) fn has_lost_cursor(&self) -> bool
        ensures { IsTrue result ↔ HasLostCursor self.now }
    {
        match self.cursor {
            Some(name) => !self.has_field_named(name),
            None => false,
        }
    }
}
