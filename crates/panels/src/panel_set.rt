//! The panels of a text.
ghost use Rattle.std.specs.Prelude.{◌≡◌, ◌<◌, ℕ, map, length, string_bytes, option_copied, slice_get, IfSome, Some, IsTrue};
ghost use Rattle.codes3270.specs.Size.{cells_in};
ghost use Rattle.codes3270.specs.declared.attention.Aid.{Aid};
ghost use Rattle.panels.specs.Keys.{IsKey};
ghost use Rattle.panels.specs.Marked.{marked_set};
ghost use Rattle.panels.specs.Names.{field_named, number_named, panel_named};
ghost use Rattle.panels.specs.Panel.{Panels, AreSound, is_shown, size_of, shown_in, target_of};

use crate::panel::{Field, Panel};
use codes3270::Model;
use std::marker;

/// The panels that a text defines. The first panel and each key's target are in the set.
#[derive(Drop)]
pub struct PanelSet {
    pub(crate) start: usize,
    pub(crate) lus: Vec<String>,
    pub(crate) panels: Vec<Panel>,
}

impl marker::Model for PanelSet {
    ghost Value = { Panels };

    ghost view = { λ set.
        record { start = set.start; lus = map string_bytes set.lus.items; panels = set.panels.items } };

    ghost invariant = { λ set. AreSound
        (record { start = set.start; lus = map string_bytes set.lus.items; panels = set.panels.items }) };
}

impl PanelSet {
    /// The index of the panel that is shown first.
    pub fn start(&self) -> usize
        ensures start { result ≡ self.now.start }
        ensures in_range { result < length self.now.panels }
    {
        self.start
    }

    /// The names of the LUs, in the order of the text. They aren't checked here; `lu_pool` does that.
    pub fn lus(&self) -> &[String]
        ensures { map string_bytes result.now ≡ self.now.lus }
    {
        self.lus.as_slice()
    }

    /// How many panels there are.
    pub fn len(&self) -> usize
        ensures { result ≡ length self.now.panels }
    {
        self.panels.len()
    }

    /// The panel at an index, from 0 on in the order of the text.
    pub fn panel(&self, index: usize) -> Option<&Panel>
        ensures panel { option_copied result ≡ slice_get self.now.panels index }

        // Its keys lead to panels of the set.
        ensures targets { IfSome result (λ panel. (aid : Aid) (target : ℕ) → IsKey aid
            → target_of panel.now aid ≡ Some target → target < length self.now.panels) }

        // Its cursor is on its screen.
        ensures cursor { IfSome result (λ panel. panel.now.cursor < cells_in (size_of panel.now)) }
    {
        self.panels.as_slice().get(index)
    }

    /// The index of the panel with a name, if there is one.
    pub fn panel_named(&self, name: &str) -> Option<usize>
        ensures { result ≡ panel_named name.now self.now }
    {
        self.panels
            .iter()
            .position(|panel| panel.name.as_str() == name)
    }

    /// The field with a name, of any panel, if there is one.
    pub fn field_named(&self, name: &str) -> Option<&Field>
        ensures { option_copied result ≡ field_named name.now self.now }
    {
        for panel in &self.panels {
            if let Some(field) = panel.field_named(name) {
                return Some(field);
            }
        }
        None
    }

    /// The number of the field or value with a name, of any panel, if there is one.
    pub fn number_named(&self, name: &str) -> Option<usize>
        ensures { result ≡ number_named name.now self.now }
    {
        for panel in &self.panels {
            if let Some(number) = panel.number_named(name) {
                return Some(number);
            }
        }
        None
    }

    /// The index of the panel that a session of this model shows for the one at `index`, which must be below `len`:
    /// that panel if it is of model 2 or of the session's model, else its `otherwise`, which is of model 2.
    pub fn shown(&self, index: usize, session: Model) -> usize
        requires { index < length self.now.panels }
        ensures shown { result ≡ shown_in self.now session index }
        ensures in_range { result < length self.now.panels }
        // A session of this model shows it as it is.
        ensures fits { IfSome (slice_get self.now.panels result) (λ panel. IsTrue (is_shown panel.model session)) }
    {
        let panel = &self.panels[index];
        if panel.is_shown(session) {
            return index;
        }
        panel.otherwise.unwrap_or(index)
    }

    /// Marks all fields of all panels: from then on each has MDT on whenever it is shown, so that each Enter or PF key
    /// returns the text of every input field, whether the operator typed there or not.
    pub fn mark_fields(&mut self)
        ensures { self.new ≡ marked_set self.old }
    {
        for panel in self.panels.iter_mut() {
            panel.mark_fields();
        }
    }

    /// Law: the set has the first panel and each key's target; each panel that isn't of model 2 has one of model 2 as
    /// its `otherwise`; each panel's items lie above the message row of its model's screen, and its cursor is on that
    /// screen; all its texts, fills and titles are characters that a cell can hold; no two of its items share a cell,
    /// and no two of its fields and values have the same number; no field of any panel has that of a value; and each
    /// value is what one of its panel's texts shows.
    pub fn panels_are_sound(&self)
        ensures { AreSound self.now }
    {
        // For the contract: the invariant of the set.
        let _panels = &self.panels;
    }
}
