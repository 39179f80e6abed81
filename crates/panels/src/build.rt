//! Builds the panels that a faultless draft defines.
ghost use Rattle.std.specs.Prelude.{◌≡◌, ◌+◌, ◌<◌, Some, All, Contains, IfOk, IfSome, bytes_eq, map, option_map, slice_get, length};
ghost use Rattle.std.specs.List.{list_any};
ghost use Rattle.panels.specs.Draft.{draft_size, fields_of, otherwise_of, values_of};
ghost use Rattle.panels.specs.Keys.{key_names};
ghost use Rattle.panels.specs.Passes.{IsFaultless};
ghost use Rattle.panels.specs.Defines.{fields_before, first_value, AreTextsOf, IsContentOf, IsFieldOf, IsShownOf, IsTextOf, IsValueOf, IsEachOf, IsCursorBy, IsOtherwiseBy, IsPanelOf, IsTargetBy, Defines, text_at_key};
ghost use Rattle.panels.specs.Building.{IsTextIn, AreTargetsOf};

use crate::characters::Characters;
use crate::draft::{Draft, ItemDraft, PanelDraft};
use crate::name::Name;
use crate::names::{is_among, key_names};
use crate::panel::{Content, Field, Panel, TextItem, Value, field_named};
use crate::panel_set::PanelSet;
use codes3270::Addr;
use std::alloc::{AllocError, Global};

impl<'a> Draft<'a> {
    /// The number of fields and values in the panels before the one at this index.
    fn fields_before(&self, panel: usize) -> usize
        requires faultless { IsFaultless self.now }
        requires there { panel < length self.now.panels }
        ensures { result ≡ fields_before panel self.now.panels }
    {
        let mut count = 0;
        for panel in &self.panels[..panel] {
            count += panel.fields.len();
        }
        count
    }

    /// What a text item shows: its own text, or the value of the field that it names.
    fn content(&self, alloc: Global, text: &ItemDraft) -> Result<Content, AllocError>
        requires faultless { IsFaultless self.now }
        requires is_text { IsTextIn self.now.panels text.now }
        ensures { IfOk result (IsContentOf self.now.panels text.now) }
    {
        if let Some(literal) = text.text {
            return Ok(Content::Literal(Characters::of_text(alloc, literal)?));
        }
        let (panel, field) = self.field_named(text.show.as_str()).unwrap_or((0, 0));
        Ok(Content::Show(self.fields_before(panel) + field))
    }

    /// The texts of a panel's own.
    fn texts(&self, alloc: Global, panel: &PanelDraft) -> Result<Vec<TextItem>, AllocError>
        requires faultless { IsFaultless self.now }
        requires there { Contains self.now.panels panel.now }
        ensures { IfOk result
            (λ texts. IsEachOf (λ i. IsTextOf (draft_size panel.now) self.now.panels) panel.now.texts texts.items) }
    {
        let mut texts = Vec::new(alloc);
        let size = panel.size();
        for text in &panel.texts {
            let Some(extent) = text.extent(size) else {
                continue;
            };
            texts.push(TextItem {
                extent,
                bright: text.bright,
                content: self.content(alloc, text)?,
            })?;
        }
        Ok(texts)
    }

    /// The number of the first value of the panel at an index.
    fn first_value(&self, panel: &PanelDraft, index: usize) -> usize
        requires faultless { IsFaultless self.now }
        requires there { slice_get self.now.panels index ≡ Some panel.now }
        ensures { result ≡ first_value index self.now.panels panel.now }
    {
        self.fields_before(index) + panel.field_count()
    }

    /// The texts that show the values of the panel at an index.
    fn shown_values(
        &self,
        alloc: Global,
        panel: &PanelDraft,
        index: usize,
    ) -> Result<Vec<TextItem>, AllocError>
        requires faultless { IsFaultless self.now }
        requires there { slice_get self.now.panels index ≡ Some panel.now }
        ensures { IfOk result (λ texts. IsEachOf
            (λ i. IsShownOf (draft_size panel.now) (first_value index self.now.panels panel.now + i))
            (values_of panel.now) texts.items) }
    {
        let size = panel.size();
        let first = self.first_value(panel, index);
        let drafts = panel.value_drafts();
        let mut texts = Vec::new(alloc);
        for place in 0..drafts.len() {
            let value = &drafts[place];
            let Some(extent) = value.extent(size) else {
                continue;
            };
            texts.push(TextItem {
                extent,
                bright: value.bright,
                content: Content::Show(first + place),
            })?;
        }
        Ok(texts)
    }

    /// All texts of the panel at an index.
    fn all_texts(
        &self,
        alloc: Global,
        panel: &PanelDraft,
        index: usize,
    ) -> Result<Vec<TextItem>, AllocError>
        requires faultless { IsFaultless self.now }
        requires there { slice_get self.now.panels index ≡ Some panel.now }
        ensures { IfOk result (λ texts. AreTextsOf self.now.panels index panel.now texts.items) }
    {
        let mut texts = self.texts(alloc, panel)?;
        let mut shown = self.shown_values(alloc, panel, index)?;
        texts.append(&mut shown)?;
        Ok(texts)
    }

    /// The values of the panel at an index.
    fn values(
        &self,
        alloc: Global,
        panel: &PanelDraft,
        index: usize,
    ) -> Result<Vec<Value>, AllocError>
        requires faultless { IsFaultless self.now }
        requires there { slice_get self.now.panels index ≡ Some panel.now }
        ensures { IfOk result (λ values. IsEachOf
            (λ i. IsValueOf (draft_size panel.now) (first_value index self.now.panels panel.now + i))
            (values_of panel.now) values.items) }
    {
        let size = panel.size();
        let first = self.first_value(panel, index);
        let drafts = panel.value_drafts();
        let mut values = Vec::new(alloc);
        for place in 0..drafts.len() {
            let value = &drafts[place];
            let Some(extent) = value.extent(size) else {
                continue;
            };
            values.push(Value {
                number: first + place,
                name: Name::of_text(alloc, value.name.as_str())?,
                extent,
            })?;
        }
        Ok(values)
    }

    /// The fields of the panel at an index.
    fn fields(
        &self,
        alloc: Global,
        panel: &PanelDraft,
        index: usize,
    ) -> Result<Vec<Field>, AllocError>
        requires faultless { IsFaultless self.now }
        requires there { slice_get self.now.panels index ≡ Some panel.now }
        ensures { IfOk result (λ fields. IsEachOf
            (λ i. IsFieldOf (draft_size panel.now) (fields_before index self.now.panels + i))
            (fields_of panel.now) fields.items) }
    {
        let size = panel.size();
        let first = self.fields_before(index);
        let drafts = panel.field_drafts();
        let mut fields = Vec::new(alloc);
        for place in 0..drafts.len() {
            let field = &drafts[place];
            let Some(extent) = field.extent(size) else {
                continue;
            };
            fields.push(Field {
                number: first + place,
                name: Name::of_text(alloc, field.name.as_str())?,
                title: Characters::of_text(alloc, field.title())?,
                extent,
                numeric: field.numeric,
                hidden: field.hidden,
                required: field.required,
                marked: field.marked,
                fill: Characters::of_text(alloc, field.fill)?,
            })?;
        }
        Ok(fields)
    }

    /// The panel that the draft at an index defines.
    fn panel_at(&self, alloc: Global, panel: &PanelDraft, index: usize) -> Result<Panel, AllocError>
        requires faultless { IsFaultless self.now }
        requires there { slice_get self.now.panels index ≡ Some panel.now }
        ensures { IfOk result (IsPanelOf self.now.panels index panel.now) }
    {
        let fields = self.fields(alloc, panel, index)?;
        Ok(Panel {
            name: Name::of_text(alloc, panel.name)?,
            model: panel.model(),
            otherwise: self.otherwise(panel),
            texts: self.all_texts(alloc, panel, index)?,
            values: self.values(alloc, panel, index)?,
            cursor: cursor_of(panel.cursor, fields.as_slice()),
            targets: self.targets(alloc, panel)?,
            asked: asked_keys(alloc, panel)?,
            asked_at_connect: panel.asks_at_connect(),
            fields,
        })
    }

    /// The index of the panel that is shown instead of this one in a session of another model; `None` for model 2.
    fn otherwise(&self, panel: &PanelDraft) -> Option<usize>
        requires faultless { IsFaultless self.now }
        requires there { Contains self.now.panels panel.now }
        ensures { IsOtherwiseBy self.now.panels (otherwise_of panel.now) result }
    {
        self.base_panel_named(panel.otherwise()?)
    }

    /// The index of the panel that a key leads to; `None` if the panel's table of keys doesn't have it.
    fn target(&self, panel: &PanelDraft, key: &str) -> Option<usize>
        requires faultless { IsFaultless self.now }
        requires there { Contains self.now.panels panel.now }
        ensures { IsTargetBy self.now.panels (text_at_key key.now panel.now.keys) result }
    {
        let named = panel.keys.iter().find(|named| named.0 == key)?;
        self.panel_named(named.1)
    }

    /// The panel that each key of [`key_names`] leads to, in this order.
    fn targets(&self, alloc: Global, panel: &PanelDraft) -> Result<Vec<Option<usize>>, AllocError>
        requires faultless { IsFaultless self.now }
        requires there { Contains self.now.panels panel.now }
        ensures { IfOk result (λ targets. AreTargetsOf self.now.panels panel.now key_names targets.items) }
    {
        let mut targets = Vec::new(alloc);
        for key in key_names() {
            targets.push(self.target(panel, *key))?;
        }
        Ok(targets)
    }

    /// The panels that the draft defines.
    pub(crate) fn build(&self, alloc: Global) -> Result<PanelSet, AllocError>
        requires { IsFaultless self.now }
        ensures { IfOk result (Defines self.now) }
    {
        let start = self.panel_named(self.start).unwrap_or(0);
        let mut lus = Vec::new(alloc);
        for lu in &self.lus {
            lus.push(String::from_str(alloc, *lu)?)?;
        }
        let mut panels = Vec::new(alloc);
        for index in 0..self.panels.len() {
            panels.push(self.panel_at(alloc, &self.panels[index], index)?)?;
        }
        Ok(PanelSet { start, lus, panels })
    }
}

/// Whether the application decides on each key of [`key_names`], in this order.
fn asked_keys(alloc: Global, panel: &PanelDraft) -> Result<Vec<bool>, AllocError>
    ensures { IfOk result (λ asked. asked.items ≡ map (λ name. list_any (bytes_eq name) panel.now.asks) key_names) }
{
    let mut asked = Vec::new(alloc);
    for key in key_names() {
        asked.push(is_among(panel.asks.as_slice(), *key))?;
    }
    Ok(asked)
}

/// The cursor's address: the first cell of the field with this name, else of the first field; 0 without fields.
fn cursor_of(name: Option<&str>, fields: &[Field]) -> Addr
    requires { IfSome name (λ name. ¬ All (λ field. ¬ (field.name ≡ name.now)) fields.now) }
    ensures { IsCursorBy (option_map (λ n. n.now) name.entry) fields.now result }
{
    let field = match name {
        Some(name) => field_named(fields, name),
        None => fields.first(),
    };
    field.map_or(Addr::first(), |field| field.extent.first_cell())
}
