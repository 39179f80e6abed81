//! Whether the value that a fault is of is in the text.
ghost use Rattle.std.specs.Prelude.{◌≡◌, ◌↔◌, IsTrue};
ghost use Rattle.panels.specs.Stated.{IsStated, IsTargetStated, is_laid_out, is_named, is_on_screen, is_placed, is_sized};

use crate::draft::{Draft, PanelDraft};
use crate::fault::TreeFault::*;
use crate::fault::{Location, TreeFault};

impl<'a> PanelDraft<'a> {
    /// Whether its screen has a known size: its model is absent, or has a model's number.
    fn is_sized(&self) -> bool
        ensures { result ≡ is_sized self.now }
    {
        self.has_sound_model && (2..=5).contains(&self.model)
    }
}

impl<'a> Draft<'a> {
    /// Whether a panel, a text or a field has a name.
    fn is_named(&self, part: Location) -> bool
        ensures { result ≡ is_named part self.now.panels }
    {
        match part {
            Location::Panel(panel) => match self.panel(panel) {
                Some(panel) => panel.is_named,
                None => false,
            },
            _ => match self.item(part) {
                Some(item) => item.is_named,
                None => false,
            },
        }
    }

    /// Whether a text or a field has a row, a column and a length.
    fn is_laid_out(&self, part: Location) -> bool
        ensures { result ≡ is_laid_out part self.now.panels }
    {
        match self.item(part) {
            Some(item) => item.is_placed,
            None => false,
        }
    }

    /// Whether the panel that has the part is of a known size.
    fn is_on_screen(&self, part: Location) -> bool
        ensures { result ≡ is_on_screen part self.now.panels }
    {
        let Some(panel) = part.panel() else {
            return false;
        };
        match self.panel(panel) {
            Some(panel) => panel.is_sized(),
            None => false,
        }
    }

    /// Whether a text or a field has a row, a column and a length, on a screen of a known size.
    pub fn is_placed(&self, part: Location) -> bool
        ensures { result ≡ is_placed part self.now.panels }
    {
        self.is_laid_out(part) && self.is_on_screen(part)
    }

    /// Whether a name in a part's table that is of nothing is there.
    fn is_target_stated(&self, part: Location) -> bool
        ensures { IsTrue result ↔ IsTargetStated part self.now }
    {
        match part {
            Location::Top => self.has_start,
            Location::Panel(panel) => match self.panel(panel) {
                Some(panel) => panel.has_otherwise || panel.has_lost_cursor(),
                None => false,
            },
            Location::Text(_, _) => match self.item(part) {
                Some(text) => text.has_show,
                None => false,
            },
            Location::Field(_, _) | Location::Value(_, _) | Location::Keys(_) => true,
        }
    }

    /// Whether the value that a fault of a part is of is in the text. If it isn't, its key is missing or has a value of
    /// another type, which is another fault.
    pub fn is_stated(&self, fault: TreeFault, part: Location) -> bool
        ensures { IsTrue result ↔ IsStated fault part self.now }
    {
        match (fault, part) {
            (TwiceNamed, Location::Keys(_)) => true,
            (BadName | TwiceNamed, _) => self.is_named(part),
            (OutOfPlace | Overlap, _) => self.is_placed(part),
            (NoTarget, _) => self.is_target_stated(part),
            _ => true,
        }
    }
}
