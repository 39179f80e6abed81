//! Panels and their items.
ghost use Rattle.std.specs.Prelude.{◌≡◌, bytes_eq, find, option_copied};
ghost use Rattle.panels.specs.Marked.{marked_panel};
ghost use Rattle.panels.specs.Names.{field_in, number_in, value_in};
ghost use Rattle.panels.specs.Panel.{is_shown, size_of};

use crate::characters::Characters;
use crate::extent::Extent;
use crate::name::Name;
use codes3270::Model::{M2, M3, M4, M5};
use codes3270::{Addr, Model, Size};
use std::marker;

/// What a text item shows.
#[derive(Drop)]
pub(crate) enum Content {
    Literal(Characters),
    /// What the field or value with this number has, from 0 over the whole text.
    Show(usize),
}

/// A text of a panel.
#[derive(Drop)]
pub(crate) struct TextItem {
    pub extent: Extent,
    pub bright: bool,
    pub content: Content,
}

/// A field of a panel.
#[derive(Debug, Drop)]
pub struct Field {
    /// Its number, from 0 on, among the fields and values of the whole text.
    pub number: usize,
    /// 1 to 16 of `a` to `z`, `0` to `9` and `_`, and the number of a copy; unique over the whole text.
    pub name: Name,
    /// What messages call it, in the host's code: its label, or its name if it has none.
    pub title: Characters,
    /// Its cells on the panel's screen.
    pub extent: Extent,
    /// Whether its attribute is numeric.
    pub numeric: bool,
    /// Whether its characters aren't displayed, as those of a password.
    pub hidden: bool,
    /// Whether it must be filled in before Enter.
    pub required: bool,
    /// Whether its attribute always has MDT on when the panel is shown.
    pub marked: bool,
    /// What it is written with if the panel is fresh, or if it has no value.
    pub fill: Characters,
}

/// A value of a panel: protected text that an application's reply fills.
#[derive(Drop)]
pub struct Value {
    /// Its number, from 0 on, among the fields and values of the whole text.
    pub number: usize,
    /// 1 to 16 of `a` to `z`, `0` to `9` and `_`, and the number of a copy; unique over the whole text.
    pub name: Name,
    /// Its cells on the panel's screen.
    pub extent: Extent,
}

/// A panel: the texts, fields and values of a screen, and where each key leads. Its screen has the alternate size of
/// its model.
#[derive(Drop)]
pub struct Panel {
    pub(crate) name: Name,
    pub(crate) model: Model,
    /// The index of the panel that is shown instead in a session of another model; `None` for model 2.
    pub(crate) otherwise: Option<usize>,
    /// Its texts, and after these a text for each value, which shows it.
    pub(crate) texts: Vec<TextItem>,
    pub(crate) fields: Vec<Field>,
    pub(crate) values: Vec<Value>,
    pub(crate) cursor: Addr,
    /// The index of the panel that each key leads to, in the order of `KEY_NAMES`.
    pub(crate) targets: Vec<Option<usize>>,
    /// Whether the application decides on each key, in the same order.
    pub(crate) asked: Vec<bool>,
    /// Whether it decides what a session whose first panel this is shows first.
    pub(crate) asked_at_connect: bool,
}

impl marker::Model for Panel {
    ghost use Rattle.panels.specs.Panel.{PanelParts, IsLaidOut};

    ghost Value = { PanelParts };

    ghost view = { λ panel. record {
      name = panel.name;
      model = panel.model;
      otherwise = panel.otherwise;
      texts = panel.texts.items;
      fields = panel.fields.items;
      values = panel.values.items;
      cursor = panel.cursor;
      targets = panel.targets.items;
      asked = panel.asked.items;
      asked_at_connect = panel.asked_at_connect;
    } };

    ghost invariant = { λ panel. IsLaidOut (record {
      name = panel.name;
      model = panel.model;
      otherwise = panel.otherwise;
      texts = panel.texts.items;
      fields = panel.fields.items;
      values = panel.values.items;
      cursor = panel.cursor;
      targets = panel.targets.items;
      asked = panel.asked.items;
      asked_at_connect = panel.asked_at_connect;
    }) };
}

impl Panel {
    /// Its name: 1 to 16 of `A` to `Z` and `0` to `9`, unique over the whole text.
    pub fn name(&self) -> &Name
        ensures { result.now ≡ self.now.name }
    {
        &self.name
    }

    /// The model whose sessions show it; any session shows a panel of model 2.
    pub fn model(&self) -> Model
        ensures { result ≡ self.now.model }
    {
        self.model
    }

    /// The size of its screen: the alternate size of its model.
    pub fn size(&self) -> Size
        ensures { result ≡ size_of self.now }
    {
        self.model.alternate()
    }

    /// Whether a session of this model shows it: if it is of model 2, or of the session's model.
    pub(crate) fn is_shown(&self, session: Model) -> bool
        ensures { result ≡ is_shown self.now.model session }
    {
        match (self.model, session) {
            (M2, _) | (M3, M3) | (M4, M4) | (M5, M5) => true,
            _ => false,
        }
    }

    /// Its field with a name, if it has one.
    pub fn field_named(&self, name: &str) -> Option<&Field>
        ensures { option_copied result ≡ field_in name.now self.now }
    {
        field_named(self.fields.as_slice(), name)
    }

    /// Its value with a name, if it has one.
    fn value_named(&self, name: &str) -> Option<&Value>
        ensures { option_copied result ≡ value_in name.now self.now }
    {
        self.values.iter().find(|value| value.name.as_str() == name)
    }

    /// The number of its field or value with a name, if it has one.
    pub(crate) fn number_named(&self, name: &str) -> Option<usize>
        ensures { result ≡ number_in name.now self.now }
    {
        match self.field_named(name) {
            Some(field) => Some(field.number),
            None => Some(self.value_named(name)?.number),
        }
    }

    /// Its values, in the order of the text.
    pub fn values(&self) -> &[Value]
        ensures { result.now ≡ self.now.values }
    {
        self.values.as_slice()
    }

    /// Its fields, in the order of the text.
    pub fn fields(&self) -> &[Field]
        ensures { result.now ≡ self.now.fields }
    {
        self.fields.as_slice()
    }

    /// Marks all its fields: from then on each has MDT on whenever it is shown.
    pub(crate) fn mark_fields(&mut self)
        ensures { self.new ≡ marked_panel self.old }
    {
        for field in self.fields.iter_mut() {
            field.marked = true;
        }
    }
}

/// The first of these fields with a name, if one has it.
pub(crate) fn field_named<'a>(fields: &'a [Field], name: &str) -> Option<&'a Field>
    ensures { option_copied result ≡ find (λ field. bytes_eq field.name name.now) fields.now }
{
    fields.iter().find(|field| field.name.as_str() == name)
}
