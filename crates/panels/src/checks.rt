//! Finds the faults of a draft, table by table.
ghost use Rattle.std.specs.Prelude.{◌≡◌, ◌↔◌, ◌+◌, ◌<◌, IfOk, IsTrue, OnOk, length, ℕ, Some, true, false, MatchOption, List, Contains};
ghost use Rattle.panels.specs.Faults.{HasFault, is_part, faults_of, IsOverlapping, Overlaps, item_at, HasLostOtherwise, IsEarlierWithName, IsNamedTwice, IsBasePanelNamed, NamesBasePanel, NamesPanel, NamesField, NamesItem, IsFirstNamed, name_at};
ghost use Rattle.panels.specs.Listing.{AreFaultsOf};
ghost use Rattle.panels.specs.Walk.{turn_at, turn_behind, AreFoundTo, IsAdded, nth};
ghost use Rattle.panels.specs.Draft.{DraftItem};
ghost use Rattle.panels.specs.Items.{IsExtentOf, is_on_screen};
ghost use Rattle.panels.specs.declared.fault.Location.TheVariants as part;

use crate::draft::{Draft, PanelDraft};
use crate::extent::Extent;
use crate::fault::TreeFault::*;
use crate::fault::{LocatedFault, Location, TreeFault};
use crate::names::{earlier_in, is_name};
use codes3270::Size;
use std::alloc::{AllocError, Global};

/// The most panels of a text.
pub const MOST_PANELS: usize = 64;

/// The most texts of a panel.
pub const MOST_TEXTS: usize = 256;

/// The most fields and values of a panel.
pub const MOST_FIELDS: usize = 128;

impl<'a> Draft<'a> {
    /// Whether a table has a fault.
    fn has_fault(&self, fault: TreeFault, part: Location) -> bool
        ensures { IsTrue result ↔ HasFault fault part self.now }
    {
        match (fault, part) {
            (UnknownKey | Missing | BadKind, _) => self.wrong_keys(part) == Some(fault),
            (TooMany, Location::Top) => MOST_PANELS < self.panels.len(),
            (TooMany, Location::Panel(panel)) => match self.panel(panel) {
                Some(panel) => {
                    MOST_TEXTS < panel.texts.len() || MOST_FIELDS < panel.fields.len()
                }
                None => false,
            },
            (BadName, _) => match self.stem(part) {
                Some(name) => !is_name(part, name),
                None => false,
            },
            (BadKey, Location::Keys(panel)) => match self.panel(panel) {
                Some(panel) => panel.has_strange_key(),
                None => false,
            },
            (TwiceNamed, Location::Keys(panel)) => match self.panel(panel) {
                Some(panel) => panel.has_key_twice(),
                None => false,
            },
            (TwiceNamed, _) => self.earlier_with_name(part).is_some(),
            (BadModel, Location::Panel(panel)) => match self.panel(panel) {
                Some(panel) => panel.has_bad_model(),
                None => false,
            },
            (OutOfPlace, _) => match self.item(part) {
                Some(item) => !item.stands_in_place(self.size(part)),
                None => false,
            },
            (NoCode, _) => match self.item(part) {
                Some(item) => item.has_no_codes(),
                None => false,
            },
            (Overlap, _) => self.is_overlapping(part),
            (NoTarget, Location::Top) => self.panel_named(self.start).is_none(),
            (NoTarget, Location::Panel(panel)) => match self.panel(panel) {
                Some(panel) => panel.has_lost_cursor() || self.has_lost_otherwise(panel),
                None => false,
            },
            (NoTarget, Location::Text(_, _)) => match self.item(part) {
                Some(text) => text.text.is_none() && self.field_named(text.show.as_str()).is_none(),
                None => false,
            },
            (NoTarget, Location::Keys(panel)) => match self.panel(panel) {
                Some(panel) => self.has_lost_key(panel),
                None => false,
            },
            _ => false,
        }
    }

    /// Adds a fault to `found`, if the table has it.
    fn add_if_faulty(
        &self,
        fault: TreeFault,
        part: Location,
        found: &mut Vec<LocatedFault>,
    ) -> Result<(), AllocError>
        ensures { OnOk result (IsAdded fault part self.now found.old.items found.new.items) }
    {
        if self.has_fault(fault, part) {
            found.push(LocatedFault { fault, part })?;
        }
        Ok(())
    }

    /// Adds the faults of a table that a pass looks for.
    fn add_of_part(
        &self,
        pass: usize,
        part: Location,
        found: &mut Vec<LocatedFault>,
    ) -> Result<(), AllocError>
        requires there { IsTrue (is_part part self.now.panels) }
        requires found { AreFoundTo (turn_at pass part) self.now found.old.items }
        ensures { OnOk result (AreFoundTo (turn_behind pass part) self.now found.new.items) }
    {
        for fault in faults_in(pass) {
            self.add_if_faulty(*fault, part, found)?;
        }
        Ok(())
    }

    /// Adds the faults of a panel that a pass looks for: of its table, its texts, its fields and values, and its keys.
    fn add_of_panel(
        &self,
        pass: usize,
        panel: usize,
        found: &mut Vec<LocatedFault>,
    ) -> Result<(), AllocError>
        requires there { panel < length self.now.panels }
        requires found { AreFoundTo (turn_at pass (part.Panel panel)) self.now found.old.items }
        ensures { OnOk result (AreFoundTo (turn_at pass (part.Panel (panel + 1))) self.now found.new.items) }
    {
        let PanelDraft { texts, fields, .. } = &self.panels[panel];
        self.add_of_part(pass, Location::Panel(panel), found)?;
        for text in 0..texts.len() {
            self.add_of_part(pass, Location::Text(panel, text), found)?;
        }
        for field in 0..fields.len() {
            self.add_of_part(pass, Location::Field(panel, field), found)?;
        }
        self.add_of_part(pass, Location::Keys(panel), found)?;
        Ok(())
    }

    /// Adds the faults that a pass looks for: of the text's own table, then panel by panel.
    fn add_of_pass(&self, pass: usize, found: &mut Vec<LocatedFault>) -> Result<(), AllocError>
        requires { AreFoundTo (turn_at pass part.Top) self.now found.old.items }
        ensures { OnOk result (AreFoundTo (turn_at (pass + 1) part.Top) self.now found.new.items) }
    {
        self.add_of_part(pass, Location::Top, found)?;
        for panel in 0..self.panels.len() {
            self.add_of_panel(pass, panel, found)?;
        }
        Ok(())
    }

    /// All faults of the text, each once, in the order in which `PanelSet::read` looks for them; that refuses the text for
    /// the first. A value that is absent, or of another type, counts as 0, false or no text, and may have faults for that,
    /// too.
    ///
    /// Err only if memory is refused.
    pub fn faults(&self, alloc: Global) -> Result<Vec<LocatedFault>, AllocError>
        ensures { IfOk result (λ found. AreFaultsOf self.now found.items) }
    {
        let mut found = Vec::new(alloc);
        for pass in 1..=6 {
            self.add_of_pass(pass, &mut found)?;
        }
        Ok(found)
    }

    /// The extent of an item on a screen of this size; `None` if there is none, or it isn't above the message row.
    pub fn extent(&self, size: Size, part: Location) -> Option<Extent>
        ensures { MatchOption result
            ((item : DraftItem) → item_at part self.now.panels ≡ Some item → is_on_screen size item ≡ false)
            (λ extent. (item : DraftItem) × (item_at part self.now.panels ≡ Some item) × (is_on_screen size item ≡ true)
            × IsExtentOf size item extent) }
    {
        self.item(part)?.extent(size)
    }

    /// Whether an extent shares a cell with one of the first `count` items of an array, on a screen of this size.
    /// `array` is any item of that array.
    fn overlaps_any(&self, size: Size, extent: Extent, array: Location, count: usize) -> bool
        ensures { (item : DraftItem) → (is_on_screen size item ≡ true) × IsExtentOf size item extent
            → (IsTrue result ↔ ((j : ℕ) × (other : DraftItem) × (j < count)
            × (item_at (nth array j) self.now.panels ≡ Some other) × Overlaps size item other)) }
    {
        for index in 0..count {
            let Some(other) = self.extent(size, array.nth(index)) else {
                continue;
            };
            if extent.meets(other) {
                return true;
            }
        }
        false
    }

    /// Whether an item shares a cell with an earlier one of its panel.
    pub(crate) fn is_overlapping(&self, part: Location) -> bool
        ensures { IsTrue result ↔ IsOverlapping part self.now.panels }
    {
        let size = self.size(part);
        let Some(extent) = self.extent(size, part) else {
            return false;
        };
        match part {
            Location::Text(_, text) => self.overlaps_any(size, extent, part, text),
            Location::Field(panel, field) => {
                let texts = self.panel(panel).map_or(0, |draft| draft.texts.len());
                self.overlaps_any(size, extent, Location::Text(panel, 0), texts)
                    || self.overlaps_any(size, extent, part, field)
            }
            Location::Top | Location::Panel(_) | Location::Value(_, _) | Location::Keys(_) => false,
        }
    }

    /// An earlier field or value that has the name of this one, or that in the table of which one of both is a copy.
    fn earlier_item_with_name(&self, panel: usize, field: usize) -> Option<Location>
        ensures { MatchOption result (¬ IsNamedTwice (part.Field panel field) self.now.panels)
            (λ earlier. IsEarlierWithName earlier (part.Field panel field) self.now.panels) }
    {
        let part = Location::Field(panel, field);
        let name = self.name(part);
        if let Some(earlier) = earlier_in(&self.field_names, name, part) {
            return Some(earlier);
        }
        if let Some(earlier) = earlier_in(&self.field_names, self.copied_name(part), part) {
            return Some(earlier);
        }
        earlier_in(&self.copied_names, name, part)
    }

    /// An earlier panel, field or value with the name of a panel, a field or a value; `None` if there is none, or the
    /// part is another table. Beside its own name a copy has that in its table, which other copies may have, too.
    pub fn earlier_with_name(&self, part: Location) -> Option<Location>
        ensures { MatchOption result (¬ IsNamedTwice part self.now.panels)
            (λ earlier. IsEarlierWithName earlier part self.now.panels) }
    {
        match part {
            Location::Panel(_) => earlier_in(&self.panel_names, self.name(part), part),
            Location::Field(panel, field) => self.earlier_item_with_name(panel, field),
            Location::Top | Location::Text(_, _) | Location::Value(_, _) | Location::Keys(_) =>
                None,
        }
    }

    /// The index of the first panel with a name.
    pub fn panel_named(&self, name: &str) -> Option<usize>
        ensures { MatchOption result (¬ NamesPanel name.now self.now.panels)
            (λ panel. name_at (part.Panel panel) self.now.panels ≡ Some name.now) }
    {
        match self.panel_names.get(name)? {
            Location::Panel(panel) => Some(*panel),
            _ => None,
        }
    }

    /// The index of the first panel of model 2 with a name.
    pub fn base_panel_named(&self, name: &str) -> Option<usize>
        ensures { MatchOption result (¬ NamesBasePanel name.now self.now.panels)
            (IsBasePanelNamed self.now.panels name.now) }
    {
        for index in 0..self.panels.len() {
            if self.panels[index].is_base_named(name) {
                return Some(index);
            }
        }
        None
    }

    /// Whether a panel's `otherwise` names no panel of model 2.
    pub(crate) fn has_lost_otherwise(&self, panel: &PanelDraft) -> bool
        ensures { IsTrue result ↔ HasLostOtherwise panel.now self.now.panels }
    {
        match panel.otherwise() {
            Some(name) => self.base_panel_named(name).is_none(),
            None => false,
        }
    }

    /// The first field or value with a name: the index of its panel, and its own there.
    fn item_named(&self, name: &str) -> Option<(usize, usize)>
        ensures { MatchOption result (¬ NamesItem name.now self.now.panels)
            (λ at. IsFirstNamed name.now (part.Field at.0 at.1) self.now.panels) }
    {
        match self.field_names.get(name)? {
            Location::Field(panel, field) => Some((*panel, *field)),
            _ => None,
        }
    }

    /// The field with a name: the index of its panel, and its own there. `None` if the first with this name is a value.
    pub fn field_named(&self, name: &str) -> Option<(usize, usize)>
        ensures { MatchOption result (¬ NamesField name.now self.now.panels)
            (λ at. (name_at (part.Field at.0 at.1) self.now.panels ≡ Some name.now)
            × NamesField name.now self.now.panels) }
    {
        let (panel, field) = self.item_named(name)?;
        let item = self.item(Location::Field(panel, field))?;
        if item.is_value {
            return None;
        }
        Some((panel, field))
    }

    /// Whether one of a panel's keys names no panel.
    pub(crate) fn has_lost_key(&self, panel: &PanelDraft) -> bool
        ensures { IsTrue result
            ↔ ((key : List ℕ × List ℕ) × Contains panel.now.keys key × (¬ NamesPanel key.1 self.now.panels)) }
    {
        for key in &panel.keys {
            if self.panel_named(key.1).is_none() {
                return true;
            }
        }
        false
    }
}

/// The faults that a pass looks for.
fn faults_in(pass: usize) -> &'static [TreeFault]
    ensures { result.now ≡ faults_of pass }
{
    match pass {
        1 => &[UnknownKey, Missing, BadKind],
        2 => &[TooMany],
        3 => &[BadName, BadKey, TwiceNamed],
        4 => &[BadModel, OutOfPlace, NoCode],
        5 => &[Overlap],
        6 => &[NoTarget],
        _ => &[],
    }
}
