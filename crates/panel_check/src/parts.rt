//! Where texts and fields are on the screens of their panels, names that must be those of a panel or a field, and panels
//! that no keys lead to.
use crate::report::Cause;
use crate::words::{Cut, Done, Place, Words, say, shown_in};
use panels::{Draft, Extent, ItemDraft, Location, PanelDraft};
use std::fmt::Display;

/// Adds the names of a panel's fields; if `stems`, as their tables have them, without the number of a copy.
fn add_fields<'s>(names: &mut Vec<&'s str>, panel: &'s PanelDraft, stems: bool) -> Done {
    for it in &panel.fields {
        if !it.is_value {
            names.push(if stems { it.stem } else { it.name.as_str() })?;
        }
    }
    Ok(())
}

/// An item of a panel: its texts count first, then its fields, and then its values.
fn item_at(panel: usize, draft: &PanelDraft, place: usize) -> Location {
    if place < draft.texts.len() {
        Location::Text(panel, place)
    } else {
        Location::Field(panel, place - draft.texts.len())
    }
}

impl<'s, 'a> Words<'s, 'a> {
    /// The cells of a text or a field, if it lies above the last row of its panel's screen.
    fn extent(&self, part: Location) -> Option<Extent> {
        let extent = self.draft.extent(self.draft.size(part), part)?;
        self.draft.is_placed(part).then_some(extent)
    }

    /// Says why a text or a field is out of place.
    pub(crate) fn misplaced(&mut self, item: &ItemDraft) -> Done {
        let (row, column, length) = (item.row, item.column, item.length);
        let (size, copy) = (self.draft.size(self.part), item.copy.unwrap_or(0));
        let (rows, columns) = (size.rows().saturating_sub(1), size.cols());
        let (rows, columns, copy) = (i64::from(rows), i64::from(columns), i64::from(copy));
        if 1 <= copy {
            let (copy, row) = (copy.saturating_add(1), row.saturating_add(copy));
            say!(self, "repeat"; "copy {copy} is in row {row}, and must end in rows 1 to {rows}")
        } else if row < 1 || rows < row {
            say!(self, "row"; "is not in rows 1 to {rows}")
        } else if column < 1 || columns < column {
            say!(self, "col"; "is not in columns 1 to {columns}")
        } else if row == 1 && column == 1 {
            say!(self, "col"; "has no cell for its attribute: in row 1 the first column is 2")
        } else if length < 1 {
            say!(self, "length"; "has no characters: its length is less than 1")
        } else if self.extent(self.part).is_none() {
            say!(self, ""; "ends below row {rows}: row {row}, col {column}, {length} characters")
        } else {
            let filled = item.fill.chars().count();
            say!(self, "fill"; "'fill' has {filled} characters, and the field {length}")
        }
    }

    /// The first item of the panel that shares a cell with the part, which may be the part itself.
    fn overlapped(&self) -> Option<Location> {
        let (draft, index) = (self.draft, self.part.panel()?);
        let (own, panel) = (self.extent(self.part)?, draft.panel(index)?);
        for place in 0..panel.texts.len().saturating_add(panel.fields.len()) {
            let other = item_at(index, panel, place);
            match self.extent(other) {
                Some(extent) if extent.meets(own) => return Some(other),
                _ => (),
            }
        }
        None
    }

    /// Says with which earlier item of its panel a text or a field shares a cell, and that item's line.
    pub(crate) fn overlap(&mut self) -> Done {
        let Some(other) = self.overlapped() else {
            return Ok(());
        };
        let table = self.draft.table(other);
        if table == self.draft.table(self.part) {
            return say!(self, ""; "two of its copies share a cell");
        }
        let (place, line) = (Place(self.draft, other), self.lines.of_key(table, "")?);
        say!(self, ""; "shares a cell with {place}, in line {line}")
    }

    /// Warns of each text or field that lies above the last row and has what the cause says, once for all copies.
    pub(crate) fn warn_of_items(&mut self) -> Done {
        let draft = self.draft;
        for index in 0..draft.panels.len() {
            let panel = &draft.panels[index];
            for place in 0..panel.texts.len().saturating_add(panel.fields.len()) {
                self.part = item_at(index, panel, place);
                match (self.extent(self.part), draft.item(self.part)) {
                    (Some(_), Some(item)) if item.copy.unwrap_or(0) == 0 => self.warn_of(item)?,
                    _ => (),
                }
            }
        }
        Ok(())
    }

    fn warn_of(&mut self, item: &ItemDraft) -> Done {
        let columns = i64::from(self.draft.size(self.part).cols());
        let below = columns.saturating_sub(item.column).saturating_add(2);
        match (self.cause, self.part) {
            (Cause::TextWraps, Location::Text(_, _)) if below <= item.length =>
                say!(self, ""; "wraps past column {columns} at character {below}"),
            (Cause::FillNotNumeric, _) if item.numeric && !is_numeric(item.fill) =>
                say!(self, "fill";
                "a terminal takes only 0-9, . and - in a numeric field, and 'fill' has others"),
            _ => Ok(()),
        }
    }

    /// Says that a panel's cursor names no field, or `otherwise` no panel of model 2, if it is so.
    pub(crate) fn no_target(&mut self, panel: &'s PanelDraft<'a>) -> Done {
        if let Some(field) = panel.cursor {
            add_fields(&mut self.known, panel, false)?;
            self.lost("cursor", field, "'cursor' names no field of this panel:")?;
        }
        if panel.model == 2 || !panel.has_otherwise {
            return Ok(());
        }
        let (draft, name) = (self.draft, panel.otherwise);
        if draft.base_panel_named(name).is_none() && draft.panel_named(name).is_some() {
            return say!(self, "otherwise";
                "'otherwise' must name a panel of model 2, and '{}' is of another model", Cut(name));
        }
        self.lost_panel("otherwise", name, true)
    }

    /// Says which of a panel's keys lead to no panel.
    pub(crate) fn lost_keys(&mut self, panel: &PanelDraft) -> Done {
        for key in &panel.keys {
            self.lost_panel(key.0, key.1, false)?;
        }
        Ok(())
    }

    /// Says that a text, or a copy of it, shows no field. Fields with a similar name in their tables may be meant.
    pub(crate) fn lost_shown(&mut self, item: &ItemDraft) -> Done {
        let draft = self.draft;
        for panel in &draft.panels {
            add_fields(&mut self.known, panel, item.copy.is_some())?;
        }
        let message = format_args!("'show' names no field: '{}'", Cut(item.show.as_str()));
        self.say_near("show", shown_in(item).unwrap_or(""), message)
    }

    /// Says that a key names no panel, or none of model 2, if it is so.
    pub(crate) fn lost_panel(&mut self, key: &str, name: &str, only_base: bool) -> Done {
        let draft = self.draft;
        self.known.clear();
        for panel in &draft.panels {
            if panel.model == 2 || !only_base {
                self.known.push(panel.name)?;
            }
        }
        self.lost(key, name, format_args!("'{key}' names no panel:"))
    }

    /// Says this of a name at a key, unless the name is known.
    pub(crate) fn lost(&mut self, key: &str, name: &str, what: impl Display + Drop) -> Done {
        if self.known.contains(&name) {
            return Ok(());
        }
        self.say_near(key, name, format_args!("{what} '{}'", Cut(name)))
    }

    /// Warns of each panel that no keys lead to, unless an application may show it.
    pub(crate) fn unreached(&mut self) -> Done {
        let (draft, mut reached) = (self.draft, Vec::new(self.lines.alloc));
        add_reached(&mut reached, draft)?;
        for panel in 0..draft.panels.len() {
            self.part = Location::Panel(panel);
            if !reached.is_empty() && !reached.contains(&panel) {
                say!(self, ""; "no keys lead here from the first panel")?;
            }
        }
        Ok(())
    }
}

/// Adds the panels that keys lead to from the first one, and those that are shown instead of them in some sessions, each
/// once; none if there is no first panel, or an application decides what follows one of them.
fn add_reached(reached: &mut Vec<usize>, draft: &Draft) -> Done {
    if draft.has_start {
        add_panel(reached, draft.panel_named(draft.start))?;
    }
    for place in 0..draft.panels.len() {
        let Some(index) = reached.get(place) else {
            break;
        };
        let Some(panel) = draft.panel(*index) else {
            break;
        };
        if !panel.asks.is_empty() {
            reached.clear();
            break;
        }
        if panel.model != 2 && panel.has_otherwise {
            add_panel(reached, draft.base_panel_named(panel.otherwise))?;
        }
        for key in &panel.keys {
            add_panel(reached, draft.panel_named(key.1))?;
        }
    }
    Ok(())
}

/// Adds a panel, unless it was reached before.
fn add_panel(reached: &mut Vec<usize>, panel: Option<usize>) -> Done {
    Ok(match panel {
        Some(panel) if !reached.contains(&panel) => reached.push(panel)?,
        _ => (),
    })
}

/// Whether a terminal accepts all these characters in a numeric field.
fn is_numeric(fill: &str) -> bool {
    let mut letters = fill.bytes();
    letters.all(|letter| matches!(letter, b'0'..=b'9' | b'.' | b'-'))
}
