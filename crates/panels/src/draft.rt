//! Drafts: what the tables of a panel text say, by the types of their keys, before faults are looked for.
ghost use Rattle.std.specs.Prelude.{◌≡◌, ◌<◌, ◌≤◌, IfSome, length, not, position, option_copied, option_map, slice_get};
ghost use Rattle.panels.specs.Draft.{draft_size, field_count, fields_of, otherwise_of, title_of, values_of};
ghost use Rattle.panels.specs.Faults.{copied_name, copied_name_at, item_at, name_at, size_at, stem_at, table_by, table_of, wrong_at};
ghost use Rattle.panels.specs.Size.{is_model_number, model_numbered};

use crate::fault::{Location, TreeFault};
use crate::index::NameIndex;
use crate::size::model_numbered;
use codes3270::{Model, Size};
use std::marker;
use toml::Table;

/// A text, a field or a value of a panel, or one of its copies, as its table has it. What is absent is 0, false, or
/// no text.
#[derive(Drop)]
pub struct ItemDraft<'a> {
    /// The table, in which messages look for names.
    pub table: &'a Table,
    /// What is wrong with its keys and their values.
    pub wrong: Option<TreeFault>,
    /// The index of its table among those of texts, of fields, or of values.
    pub index: usize,
    /// Its index among the copies; `None` if its table has no `repeat`.
    pub copy: Option<u8>,
    /// Whether it is a value.
    pub is_value: bool,
    /// Whether it has a name.
    pub is_named: bool,
    /// Whether it has a row, a column, and a text or a length.
    pub is_placed: bool,
    /// Whether it has the name of a field to show.
    pub has_show: bool,
    pub row: i64,
    pub column: i64,
    /// Its number of characters: that of its text, or the value at `length`.
    pub length: i64,
    pub text: Option<&'a str>,
    /// The name of the field whose value it shows, if it has no text of its own.
    pub show: String,
    /// The value at `name`, without a copy's number.
    pub stem: &'a str,
    pub name: String,
    /// What messages call it, if it isn't empty.
    pub label: &'a str,
    pub fill: &'a str,
    pub bright: bool,
    pub numeric: bool,
    pub hidden: bool,
    pub required: bool,
    pub marked: bool,
}

impl<'a> marker::Model for ItemDraft<'a> {
    ghost use Rattle.std.specs.Prelude.{option_map, string_bytes};
    ghost use Rattle.panels.specs.Draft.{DraftItem};

    ghost Value = { DraftItem };

    ghost view = { λ item. record {
      wrong = item.wrong;
      index = item.index;
      copy = item.copy;
      is_value = item.is_value;
      named = item.is_named;
      placed = item.is_placed;
      shows = item.has_show;
      row = item.row;
      column = item.column;
      size = item.length;
      text = option_map (λ text. text.now) item.text;
      show = string_bytes item.show;
      stem = item.stem.now;
      name = string_bytes item.name;
      label = item.label.now;
      fill = item.fill.now;
      bright = item.bright;
      numeric = item.numeric;
      hidden = item.hidden;
      required = item.required;
      marked = item.marked;
    } };
}

/// A panel, as its tables have it.
#[derive(Drop)]
pub struct PanelDraft<'a> {
    pub table: &'a Table,
    /// What is wrong with the keys of its own table and their values.
    pub wrong: Option<TreeFault>,
    /// Whether it has a name.
    pub is_named: bool,
    /// Whether its `model` is absent, or an integer.
    pub has_sound_model: bool,
    pub has_otherwise: bool,
    pub name: &'a str,
    /// Its `model`; 2 if it has none.
    pub model: i64,
    /// The name of the panel to show in a session of another model; empty if there is none.
    pub otherwise: &'a str,
    pub cursor: Option<&'a str>,
    pub texts: Vec<ItemDraft<'a>>,
    /// Its fields, and after these its values.
    pub fields: Vec<ItemDraft<'a>>,
    /// The names of the keys that the application decides on.
    pub asks: Vec<&'a str>,
    /// What is wrong with its table of keys.
    pub wrong_keys: Option<TreeFault>,
    /// The names in its table of keys, each with the name of the panel that it leads to.
    pub keys: Vec<(&'a str, &'a str)>,
}

impl<'a> marker::Model for PanelDraft<'a> {
    ghost use Rattle.std.specs.Prelude.{map, option_map};
    ghost use Rattle.panels.specs.Draft.{DraftPanel};

    ghost Value = { DraftPanel };

    ghost view = { λ panel. record {
      wrong = panel.wrong;
      named = panel.is_named;
      sized = panel.has_sound_model;
      replaced = panel.has_otherwise;
      name = panel.name.now;
      model = panel.model;
      otherwise = panel.otherwise.now;
      cursor = option_map (λ name. name.now) panel.cursor;
      texts = panel.texts.items;
      fields = panel.fields.items;
      asks = map (λ name. name.now) panel.asks.items;
      wrong_keys = panel.wrong_keys;
      keys = map (λ key. (key.0.now, key.1.now)) panel.keys.items;
    } };
}

/// What the tables of a panel text say, before faults are looked for. Values in an array of tables that aren't tables, and
/// values in an array of strings that aren't strings, are left out.
#[derive(Drop)]
pub struct Draft<'a> {
    pub table: &'a Table,
    /// What is wrong with the keys of the text's own table and their values.
    pub wrong: Option<TreeFault>,
    pub has_start: bool,
    /// Whether it has an array of LUs.
    pub has_lus: bool,
    pub start: &'a str,
    pub lus: Vec<&'a str>,
    pub panels: Vec<PanelDraft<'a>>,
    // The first part that has each name.
    pub(crate) panel_names: NameIndex,
    pub(crate) field_names: NameIndex,
    pub(crate) copied_names: NameIndex,
}

impl<'a> marker::Model for Draft<'a> {
    ghost use Rattle.std.specs.Prelude.{map};
    ghost use Rattle.panels.specs.Draft.{DraftText};
    ghost use Rattle.panels.specs.Index.{AreIndexes};

    ghost Value = { DraftText };

    ghost view = { λ draft. record {
      wrong = draft.wrong;
      starts = draft.has_start;
      has_lus = draft.has_lus;
      start = draft.start.now;
      lus = map (λ lu. lu.now) draft.lus.items;
      panels = draft.panels.items;
    } };

    ghost invariant = { λ draft. AreIndexes draft.panels.items draft.panel_names draft.field_names draft.copied_names };
}

impl<'a> ItemDraft<'a> {
    /// Its table, if it is at this part.
    fn table(&self, part: Location) -> Location
        ensures { result ≡ table_by part self.now }
    {
        match part {
            Location::Text(panel, _) => Location::Text(panel, self.index),
            Location::Field(panel, _) if self.is_value => Location::Value(panel, self.index),
            Location::Field(panel, _) => Location::Field(panel, self.index),
            Location::Top | Location::Panel(_) | Location::Value(_, _) | Location::Keys(_) => part,
        }
    }

    /// The name in its table, if it is a copy.
    pub(crate) fn copied_name(&self) -> Option<&'a str>
        ensures { option_map (λ name. name.now) result ≡ copied_name self.now }
    {
        match self.copy {
            Some(_) => Some(self.stem),
            None => None,
        }
    }

    /// What messages call it: its label, or its name if it has none.
    pub(crate) fn title(&self) -> &str
        ensures { result.now ≡ title_of self.now }
    {
        if self.label.is_empty() {
            self.name.as_str()
        } else {
            self.label
        }
    }
}

/// The index of the first value among these items.
fn first_value(items: &[ItemDraft]) -> Option<usize>
    ensures index { result ≡ position (λ item. item.is_value) items.now }
    ensures within { IfSome result (λ index. index < length items.now) }
{
    items.iter().position(|item| item.is_value)
}

impl<'a> PanelDraft<'a> {
    /// Its model; model 2 if its number is none of 2 to 5.
    pub(crate) fn model(&self) -> Model
        ensures { result ≡ model_numbered self.now.model }
    {
        model_numbered(self.model)
    }

    /// The size of the screen on which it is laid out.
    pub(crate) fn size(&self) -> Size
        ensures { result ≡ draft_size self.now }
    {
        self.model().alternate()
    }

    /// The name of the panel to show in a session of another model; `None` for model 2, which any session shows.
    pub(crate) fn otherwise(&self) -> Option<&'a str>
        ensures { option_map (λ name. name.now) result ≡ otherwise_of self.now }
    {
        if self.model == 2 {
            None
        } else {
            Some(self.otherwise)
        }
    }

    /// The number of its fields.
    pub(crate) fn field_count(&self) -> usize
        ensures count { result ≡ field_count self.now.fields }
        ensures within { result ≤ length self.now.fields }
    {
        let fields = self.fields.as_slice();
        first_value(fields).unwrap_or(fields.len())
    }

    /// Its fields.
    pub(crate) fn field_drafts(&self) -> &[ItemDraft<'a>]
        ensures { result.now ≡ fields_of self.now }
    {
        &self.fields[..self.field_count()]
    }

    /// Its values.
    pub(crate) fn value_drafts(&self) -> &[ItemDraft<'a>]
        ensures { result.now ≡ values_of self.now }
    {
        &self.fields[self.field_count()..]
    }

    /// Whether the number of its model is none of 2 to 5.
    pub(crate) fn has_bad_model(&self) -> bool
        ensures { result ≡ not (is_model_number self.now.model) }
    {
        !(2..=5).contains(&self.model)
    }
}

impl<'a> Draft<'a> {
    /// The panel with an index.
    pub fn panel(&self, index: usize) -> Option<&PanelDraft<'a>>
        ensures { option_copied result ≡ slice_get self.now.panels index }
    {
        self.panels.as_slice().get(index)
    }

    /// The item at a part; `None` if the part is another table, or isn't there.
    pub fn item(&self, part: Location) -> Option<&ItemDraft<'a>>
        ensures { option_copied result ≡ item_at part self.now.panels }
    {
        match part {
            Location::Text(panel, text) => self.panel(panel)?.texts.as_slice().get(text),
            Location::Field(panel, field) => self.panel(panel)?.fields.as_slice().get(field),
            Location::Top | Location::Panel(_) | Location::Value(_, _) | Location::Keys(_) => None,
        }
    }

    /// The size of the screen on which an item is laid out; that of model 2 for any other part.
    pub fn size(&self, part: Location) -> Size
        ensures { result ≡ size_at part self.now.panels }
    {
        match part {
            Location::Text(panel, _) | Location::Field(panel, _) => {
                match self.panel(panel) {
                    Some(panel) => panel.size(),
                    None => Size::base(),
                }
            }
            Location::Top | Location::Panel(_) | Location::Value(_, _) | Location::Keys(_) => {
                Size::base()
            }
        }
    }

    /// The name of a panel, a field or a value as its table has it; `None` for any other part.
    pub(crate) fn stem(&self, part: Location) -> Option<&'a str>
        ensures { option_map (λ name. name.now) result ≡ stem_at part self.now.panels }
    {
        match part {
            Location::Panel(panel) => Some(self.panel(panel)?.name),
            Location::Field(_, _) => Some(self.item(part)?.stem),
            Location::Top | Location::Text(_, _) | Location::Value(_, _) | Location::Keys(_) =>
                None,
        }
    }

    /// The table of a part: that of which an item is a copy.
    pub fn table(&self, part: Location) -> Location
        ensures { result ≡ table_of part self.now.panels }
    {
        match self.item(part) {
            Some(item) => item.table(part),
            None => part,
        }
    }

    /// The name of a panel, a field or a value; `None` for any other part.
    pub(crate) fn name(&self, part: Location) -> Option<&str>
        ensures { option_map (λ name. name.now) result ≡ name_at part self.now.panels }
    {
        match part {
            Location::Panel(panel) => Some(self.panel(panel)?.name),
            Location::Field(_, _) => Some(self.item(part)?.name.as_str()),
            Location::Top | Location::Text(_, _) | Location::Value(_, _) | Location::Keys(_) =>
                None,
        }
    }

    /// The name in the table of which a field or value is a copy; `None` for a part that is no copy.
    pub(crate) fn copied_name(&self, part: Location) -> Option<&'a str>
        ensures { option_map (λ name. name.now) result ≡ copied_name_at part self.now.panels }
    {
        match part {
            Location::Field(_, _) => self.item(part)?.copied_name(),
            Location::Top
            | Location::Panel(_)
            | Location::Text(_, _)
            | Location::Value(_, _)
            | Location::Keys(_) => None,
        }
    }

    /// What is wrong with the keys of a table and the types of their values.
    pub(crate) fn wrong_keys(&self, part: Location) -> Option<TreeFault>
        ensures { result ≡ wrong_at part self.now }
    {
        match part {
            Location::Top => self.wrong,
            Location::Panel(panel) => self.panel(panel)?.wrong,
            Location::Keys(panel) => self.panel(panel)?.wrong_keys,
            Location::Text(_, _) | Location::Field(_, _) | Location::Value(_, _) => {
                self.item(part)?.wrong
            }
        }
    }
}
