//! Which keys the tables of a panel text have, and values of which types. [`PanelSet::read`](crate::PanelSet::read)
//! refuses a text with a table that breaks these rules. A checker of panel texts can find all faults of keys by them.
//!
//! ```rust
//! // The text's own table must have a key `lus`, and its value must be an array of strings.
//! for rule in table_rules(Location::Top, top) {
//!     if rule.is_missing_in(top) {
//!         ..
//!     }
//! }
//! ```
ghost use Rattle.std.specs.Prelude.{◌≡◌, map, option_map};
ghost use Rattle.toml.specs.View.{view, table_view};
ghost use Rattle.panels.specs.Rules.{rule_of, rules_at, rules_of_item};
ghost use Rattle.panels.specs.TableRules.{count_of, is_of_kind, is_known, is_lacking, is_missing, breaks_needs, breaks_kinds, top_rules, panel_rules, text_rules, field_rules, value_rules, wrong_by as fault_by};

use crate::fault::{Location, TreeFault};
use crate::tree::value_at;
use std::fmt;
use toml::{Table, Value};

/// The most copies of an item: the rows of the largest screen without the one for messages.
const MOST_COPIES: i64 = 42;

/// The number of copies that an integer asks for: itself, if it is from 1 to 42.
pub(crate) fn count_of(number: i64) -> Option<u8>
    ensures { result ≡ count_of number }
{
    match number {
        1..=MOST_COPIES => Some(number as u8),
        _ => None,
    }
}

/// The TOML type that the value of a key must have: a string, an integer, a boolean, an array or a table.
#[derive(Clone, Copy, Debug, PartialEq, Eq)]
pub enum KeyKind {
    Text,
    Integer,
    /// An integer from 1 to 42: a number of copies.
    Count,
    Truth,
    /// An array of strings.
    Texts,
    /// An array of tables.
    Tables,
    Table,
}

impl KeyKind {
    /// Whether a value has this type.
    pub fn fits(self, value: &Value) -> bool
        ensures { result ≡ is_of_kind self (view value.now) }
    {
        match (self, value) {
            (KeyKind::Text, Value::String(_)) => true,
            (KeyKind::Integer, Value::Integer(_)) => true,
            (KeyKind::Count, Value::Integer(number)) => count_of(*number).is_some(),
            (KeyKind::Truth, Value::Boolean(_)) => true,
            (KeyKind::Texts, Value::Array(values)) => values.iter().all(|value| value.is_str()),
            (KeyKind::Tables, Value::Array(values)) => values.iter().all(|value| value.is_table()),
            (KeyKind::Table, Value::Table(_)) => true,
            _ => false,
        }
    }
}

/// Prints as messages call a value of this type.
impl fmt::Display for KeyKind {
    fn fmt<W: fmt::Write>(&self, f: &mut fmt::Formatter<W>) -> fmt::Result {
        f.write_str(match self {
            KeyKind::Text => "a string",
            KeyKind::Integer => "an integer",
            KeyKind::Count => "an integer from 1 to 42",
            KeyKind::Truth => "true or false",
            KeyKind::Texts => "an array of strings",
            KeyKind::Tables => "an array of tables",
            KeyKind::Table => "a table",
        })
    }
}

/// A rule for one key of a table: whether the table must have it, and the type of its value.
pub enum KeyRule {
    /// The table must have the key.
    Must(&'static str, KeyKind),
    /// The table may have the key.
    May(&'static str, KeyKind),
}

impl KeyRule {
    /// The key.
    pub fn key(&self) -> &'static str
        ensures { result.now ≡ (rule_of self.now).key }
    {
        match self {
            KeyRule::Must(key, _) | KeyRule::May(key, _) => *key,
        }
    }

    /// The type of its value.
    pub fn kind(&self) -> KeyKind
        ensures { result ≡ (rule_of self.now).kind }
    {
        match self {
            KeyRule::Must(_, kind) | KeyRule::May(_, kind) => *kind,
        }
    }

    /// Whether the table must have the key and lacks it. An empty array counts as absent if the rule asks for tables.
    pub fn is_missing_in(&self, table: &Table) -> bool
        ensures { result ≡ is_missing (rule_of self.now) (table_view table.now) }
    {
        match self {
            KeyRule::Must(key, kind) => is_nothing(*kind, value_at(table, *key)),
            KeyRule::May(_, _) => false,
        }
    }
}

static TOP_RULES: [KeyRule; 3] = [
    KeyRule::Must("start", KeyKind::Text),
    KeyRule::Must("lus", KeyKind::Texts),
    KeyRule::Must("panel", KeyKind::Tables),
];

// Of a panel of model 2.
static BASE_RULES: [KeyRule; 8] = [
    KeyRule::Must("name", KeyKind::Text),
    KeyRule::May("model", KeyKind::Integer),
    KeyRule::May("cursor", KeyKind::Text),
    KeyRule::May("text", KeyKind::Tables),
    KeyRule::May("field", KeyKind::Tables),
    KeyRule::May("value", KeyKind::Tables),
    KeyRule::May("asks", KeyKind::Texts),
    KeyRule::May("keys", KeyKind::Table),
];

// Of a panel of another model.
static ALTERNATE_RULES: [KeyRule; 9] = [
    KeyRule::Must("name", KeyKind::Text),
    KeyRule::May("model", KeyKind::Integer),
    KeyRule::Must("otherwise", KeyKind::Text),
    KeyRule::May("cursor", KeyKind::Text),
    KeyRule::May("text", KeyKind::Tables),
    KeyRule::May("field", KeyKind::Tables),
    KeyRule::May("value", KeyKind::Tables),
    KeyRule::May("asks", KeyKind::Texts),
    KeyRule::May("keys", KeyKind::Table),
];

// Of a panel whose `model` is no whole number.
static UNCLEAR_RULES: [KeyRule; 9] = [
    KeyRule::Must("name", KeyKind::Text),
    KeyRule::May("model", KeyKind::Integer),
    KeyRule::May("otherwise", KeyKind::Text),
    KeyRule::May("cursor", KeyKind::Text),
    KeyRule::May("text", KeyKind::Tables),
    KeyRule::May("field", KeyKind::Tables),
    KeyRule::May("value", KeyKind::Tables),
    KeyRule::May("asks", KeyKind::Texts),
    KeyRule::May("keys", KeyKind::Table),
];

static LITERAL_RULES: [KeyRule; 5] = [
    KeyRule::Must("row", KeyKind::Integer),
    KeyRule::Must("col", KeyKind::Integer),
    KeyRule::Must("text", KeyKind::Text),
    KeyRule::May("bright", KeyKind::Truth),
    KeyRule::May("repeat", KeyKind::Count),
];

static SHOW_RULES: [KeyRule; 6] = [
    KeyRule::Must("row", KeyKind::Integer),
    KeyRule::Must("col", KeyKind::Integer),
    KeyRule::Must("show", KeyKind::Text),
    KeyRule::Must("length", KeyKind::Integer),
    KeyRule::May("bright", KeyKind::Truth),
    KeyRule::May("repeat", KeyKind::Count),
];

static FIELD_RULES: [KeyRule; 11] = [
    KeyRule::Must("name", KeyKind::Text),
    KeyRule::Must("row", KeyKind::Integer),
    KeyRule::Must("col", KeyKind::Integer),
    KeyRule::Must("length", KeyKind::Integer),
    KeyRule::May("fill", KeyKind::Text),
    KeyRule::May("numeric", KeyKind::Truth),
    KeyRule::May("hidden", KeyKind::Truth),
    KeyRule::May("required", KeyKind::Truth),
    KeyRule::May("marked", KeyKind::Truth),
    KeyRule::May("label", KeyKind::Text),
    KeyRule::May("repeat", KeyKind::Count),
];

static VALUE_RULES: [KeyRule; 6] = [
    KeyRule::Must("name", KeyKind::Text),
    KeyRule::Must("row", KeyKind::Integer),
    KeyRule::Must("col", KeyKind::Integer),
    KeyRule::Must("length", KeyKind::Integer),
    KeyRule::May("bright", KeyKind::Truth),
    KeyRule::May("repeat", KeyKind::Count),
];

/// The rules for the text's own table.
pub(crate) fn top_rules() -> &'static [KeyRule]
    ensures { map rule_of result.now ≡ top_rules }
{
    &TOP_RULES
}

/// The rules for a panel's table, which depend on its `model`, 2 if it has none.
pub(crate) fn panel_rules(panel: &Table) -> &'static [KeyRule]
    ensures { map rule_of result.now ≡ panel_rules (table_view panel.now) }
{
    match value_at(panel, "model") {
        None | Some(Value::Integer(2)) => &BASE_RULES,
        Some(Value::Integer(_)) => &ALTERNATE_RULES,
        Some(_) => &UNCLEAR_RULES,
    }
}

/// The rules for a text of a panel: for one with its own text, or for one that shows a field.
pub(crate) fn text_rules(text: &Table) -> &'static [KeyRule]
    ensures { map rule_of result.now ≡ text_rules (table_view text.now) }
{
    if value_at(text, "text").is_some() {
        &LITERAL_RULES
    } else {
        &SHOW_RULES
    }
}

/// The rules for a field of a panel.
pub(crate) fn field_rules() -> &'static [KeyRule]
    ensures { map rule_of result.now ≡ field_rules }
{
    &FIELD_RULES
}

/// The rules for a value of a panel.
pub fn value_rules() -> &'static [KeyRule]
    ensures { map rule_of result.now ≡ value_rules }
{
    &VALUE_RULES
}

/// The rules for the table of a part. A table of keys has none: each of its values must be a string.
pub fn table_rules(part: Location, table: &Table) -> &'static [KeyRule]
    ensures { map rule_of result.now ≡ rules_at part (table_view table.now) }
{
    match part {
        Location::Top => top_rules(),
        Location::Panel(_) => panel_rules(table),
        Location::Text(_, _) => text_rules(table),
        Location::Field(_, _) => field_rules(),
        Location::Value(_, _) => value_rules(),
        Location::Keys(_) => &[],
    }
}

/// The rules for an item of an array: of fields or values if the array's key is `field` or `value`, else of texts.
pub(crate) fn item_rules(array: &str, table: &Table) -> &'static [KeyRule]
    ensures { map rule_of result.now ≡ rules_of_item array.now (table_view table.now) }
{
    if array == "field" {
        field_rules()
    } else if array == "value" {
        value_rules()
    } else {
        text_rules(table)
    }
}

/// Whether one of the rules is for a key.
pub fn knows_key(rules: &[KeyRule], key: &str) -> bool
    ensures { result ≡ is_known (map rule_of rules.now) key.now }
{
    rules.iter().any(|rule| rule.key() == key)
}

/// Whether a value is absent, or is an empty array although the rule asks for tables.
fn is_nothing(kind: KeyKind, value: Option<&Value>) -> bool
    ensures { result ≡ is_lacking kind (option_map (λ value. view value.now) value.entry) }
{
    match (kind, value) {
        (_, None) => true,
        (KeyKind::Tables, Some(Value::Array(values))) => values.is_empty(),
        _ => false,
    }
}

/// Whether the table lacks a key that it must have.
fn any_key_absent(rules: &[KeyRule], table: &Table) -> bool
    ensures { result ≡ breaks_needs (map rule_of rules.now) (table_view table.now) }
{
    rules.iter().any(|rule| rule.is_missing_in(table))
}

/// Whether a key has a value of another type than its rule says.
fn any_value_misfits(rules: &[KeyRule], table: &Table) -> bool
    ensures { result ≡ breaks_kinds (map rule_of rules.now) (table_view table.now) }
{
    rules.iter().any(|rule| match rule {
        KeyRule::Must(key, kind) | KeyRule::May(key, kind) => {
            match value_at(table, *key) {
                Some(value) => !kind.fits(value),
                None => false,
            }
        }
    })
}

/// What is wrong with the keys of a table: a key without a rule; else a key that must be there and is absent; else a
/// value of another type.
pub(crate) fn wrong_by(rules: &[KeyRule], table: &Table) -> Option<TreeFault>
    ensures { result ≡ fault_by (map rule_of rules.now) (table_view table.now) }
{
    if table.keys().any(|key| !knows_key(rules, key.as_str())) {
        Some(TreeFault::UnknownKey)
    } else if any_key_absent(rules, table) {
        Some(TreeFault::Missing)
    } else if any_value_misfits(rules, table) {
        Some(TreeFault::BadKind)
    } else {
        None
    }
}
