//! Why a panel text is refused, and where.
ghost use Rattle.std.specs.Prelude.{◌≡◌, ◌↔◌, IsTrue};
ghost use Rattle.panels.specs.Faults.{IsNamedBefore, panel_of_part, place_of};
ghost use Rattle.panels.specs.Walk.{nth};

use std::fmt;

/// What is wrong with a table of a panel text.
#[derive(Clone, Copy, Debug, PartialEq, Eq)]
pub enum TreeFault {
    /// A table has a key that it may not have.
    UnknownKey,
    /// A key that must be there is absent, or the array of panels is empty.
    Missing,
    /// A value isn't of its key's TOML type, or `repeat` isn't from 1 to 42.
    BadKind,
    /// A name isn't 1 to 16 of `A` to `Z` and `0` to `9` for a panel, or of `a` to `z`, `0` to `9` and `_` for a
    /// field or a value.
    BadName,
    /// An earlier panel, or an earlier field or value of any panel, has the name, with `repeat` or without; or `asks` has
    /// a name twice, or one of `keys`. A panel's values come after its fields.
    TwiceNamed,
    /// The item, or one of its copies, doesn't lie above the last row of the panel's screen, or its fill is longer.
    OutOfPlace,
    /// The item shares a cell with an earlier one of its panel; texts come before fields, and these before values.
    Overlap,
    /// A character of a text, a label or a fill has no code in code page 037.
    NoCode,
    /// `start`, `cursor`, `show` or a key names no such panel or field, or `otherwise` names no panel of model 2.
    NoTarget,
    /// A name in `keys` or `asks` is of no key; `asks` may have `connect` as well.
    BadKey,
    /// The text has more than 64 panels, or a panel more than 256 texts, or 128 fields and values, with all copies.
    TooMany,
    /// The number of a panel's model is none of 2 to 5.
    BadModel,
}

/// The place of a fault in a panel text. Panels, texts, fields and values count from 0, in the order of the text.
#[derive(Clone, Copy, Debug, PartialEq, Eq)]
pub enum At {
    /// The text's own table.
    Top,
    Panel(usize),
    /// A text: the index of its panel, and its own in the panel.
    Text(usize, usize),
    /// A field: the index of its panel, and its own in the panel.
    Field(usize, usize),
    /// A value: the index of its panel, and its own in the panel.
    Value(usize, usize),
}

/// A table of a panel text. Panels, texts, fields and values count from 0, in the order of the text. Within this crate
/// each copy of a text or a field counts as one, and each copy of a value as a field, after all fields of its panel.
#[derive(Clone, Copy, Debug, PartialEq, Eq)]
pub enum Location {
    /// The text's own table.
    Top,
    Panel(usize),
    /// A text: the index of its panel, and its own in the panel.
    Text(usize, usize),
    /// A field: the index of its panel, and its own in the panel.
    Field(usize, usize),
    /// A value: the index of its panel, and its own in the panel.
    Value(usize, usize),
    /// The table of a panel's keys.
    Keys(usize),
}

impl Location {
    /// The index of the panel that has this table; `None` for the text's own table.
    pub fn panel(self) -> Option<usize>
        ensures { result ≡ panel_of_part self }
    {
        match self {
            Location::Top => None,
            Location::Panel(panel)
            | Location::Text(panel, _)
            | Location::Field(panel, _)
            | Location::Value(panel, _)
            | Location::Keys(panel) => Some(panel),
        }
    }

    /// The place at which a fault of this table is reported; for a table of keys it is the panel's.
    pub fn place(self) -> At
        ensures { result ≡ place_of self }
    {
        match self {
            Location::Top => At::Top,
            Location::Panel(panel) | Location::Keys(panel) => At::Panel(panel),
            Location::Text(panel, text) => At::Text(panel, text),
            Location::Field(panel, field) => At::Field(panel, field),
            Location::Value(panel, value) => At::Value(panel, value),
        }
    }

    /// Whether both are panels, or both are fields or values, and this one comes before the other in the text.
    pub(crate) fn is_before(self, other: Location) -> bool
        ensures { IsTrue result ↔ IsNamedBefore self other }
    {
        match (self, other) {
            (Location::Panel(panel), Location::Panel(other)) => panel < other,
            (Location::Field(panel, field), Location::Field(other, other_field)) => {
                panel < other || (panel == other && field < other_field)
            }
            _ => false,
        }
    }

    /// The item at another index of the same array; a part that is no item stays as it is.
    pub(crate) fn nth(self, index: usize) -> Location
        ensures { result ≡ nth self index }
    {
        match self {
            Location::Text(panel, _) => Location::Text(panel, index),
            Location::Field(panel, _) => Location::Field(panel, index),
            Location::Top | Location::Panel(_) | Location::Value(_, _) | Location::Keys(_) => self,
        }
    }
}

/// A fault, and the table that has it.
#[derive(Clone, Copy, Debug, PartialEq, Eq)]
pub struct LocatedFault {
    pub fault: TreeFault,
    pub part: Location,
}

/// Why a text can't be read as panels.
#[derive(Clone, Copy, Debug, PartialEq, Eq)]
pub enum PanelFault {
    /// Memory was refused. This says nothing of the text.
    Memory,
    NotToml,
    /// The text is TOML. The first fault in it is this one, at this place.
    Tree(TreeFault, At),
}

impl fmt::Display for TreeFault {
    ghost use Rattle.std.specs.Prelude.{Some};
    ghost use Rattle.panels.specs.Messages.{tree_fault_text};

    ghost output = { λ fault. Some (tree_fault_text fault) };

    fn fmt<W: fmt::Write>(&self, f: &mut fmt::Formatter<W>) -> fmt::Result {
        f.write_str(match self {
            TreeFault::UnknownKey => "UnknownKey",
            TreeFault::Missing => "Missing",
            TreeFault::BadKind => "BadKind",
            TreeFault::BadName => "BadName",
            TreeFault::TwiceNamed => "TwiceNamed",
            TreeFault::OutOfPlace => "OutOfPlace",
            TreeFault::Overlap => "Overlap",
            TreeFault::NoCode => "NoCode",
            TreeFault::NoTarget => "NoTarget",
            TreeFault::BadKey => "BadKey",
            TreeFault::TooMany => "TooMany",
            TreeFault::BadModel => "BadModel",
        })
    }
}

impl fmt::Display for At {
    ghost use Rattle.std.specs.Prelude.{Some};
    ghost use Rattle.panels.specs.Messages.{place_text};

    ghost output = { λ place. Some (place_text place) };

    fn fmt<W: fmt::Write>(&self, f: &mut fmt::Formatter<W>) -> fmt::Result {
        match self {
            At::Top => f.write_str("top"),
            At::Panel(panel) => write!(f, "panel {panel}"),
            At::Text(panel, text) => write!(f, "panel {panel} text {text}"),
            At::Field(panel, field) => write!(f, "panel {panel} field {field}"),
            At::Value(panel, value) => write!(f, "panel {panel} value {value}"),
        }
    }
}

impl fmt::Display for PanelFault {
    ghost use Rattle.std.specs.Prelude.{Some};
    ghost use Rattle.panels.specs.Messages.{fault_text};

    ghost output = { λ fault. Some (fault_text fault) };

    fn fmt<W: fmt::Write>(&self, f: &mut fmt::Formatter<W>) -> fmt::Result {
        match self {
            PanelFault::Memory => f.write_str("no memory"),
            PanelFault::NotToml => f.write_str("not TOML"),
            PanelFault::Tree(fault, place) => write!(f, "{place}: {fault}"),
        }
    }
}

impl std::error::Error for PanelFault {}
