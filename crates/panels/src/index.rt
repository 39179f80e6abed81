//! Indexes of the names in a panel text: the first part that has each name.
ghost use Rattle.std.specs.Prelude.{◌≡◌, ℕ, List, IfOk, OnOk, option_map};
ghost use Rattle.panels.specs.Index.{part_named, noted, AreIndexes};

use crate::draft::PanelDraft;
use crate::fault::Location;
use std::alloc::{AllocError, Global};
use std::collections::BTreeMap;

/// Maps each name, of panels, of fields and values, or of those that are copied, to the first part of the text that has
/// it.
pub(crate) type NameIndex = BTreeMap<String, Location>;

/// Adds a part under its name, if it has one, unless an earlier part has this name.
fn note(
    index: &mut NameIndex,
    alloc: Global,
    name: Option<&str>,
    part: Location,
) -> Result<(), AllocError>
    ensures { OnOk result ((other : List ℕ) → part_named index.new other
        ≡ noted (part_named index.old) (option_map (λ n. n.now) name.entry) part other) }
{
    let Some(name) = name else {
        return Ok(());
    };
    if !index.contains_key(name) {
        index.insert(String::from_str(alloc, name)?, part)?;
    }
    Ok(())
}

/// The index of the panels' names, that of the names of all panels' fields and values, and that of the names in the
/// tables of which some of these are copies.
pub(crate) fn name_indexes(
    alloc: Global,
    panels: &[PanelDraft],
) -> Result<(NameIndex, NameIndex, NameIndex), AllocError>
    ensures { IfOk result (λ indexes. AreIndexes panels.now indexes.0 indexes.1 indexes.2) }
{
    let mut of_panels = BTreeMap::new(alloc);
    let mut of_fields = BTreeMap::new(alloc);
    let mut of_copies = BTreeMap::new(alloc);
    for panel in 0..panels.len() {
        let draft = &panels[panel];
        note(
            &mut of_panels,
            alloc,
            Some(draft.name),
            Location::Panel(panel),
        )?;
        for field in 0..draft.fields.len() {
            let item = &draft.fields[field];
            let part = Location::Field(panel, field);
            note(&mut of_fields, alloc, Some(item.name.as_str()), part)?;
            note(&mut of_copies, alloc, item.copied_name(), part)?;
        }
    }
    Ok((of_panels, of_fields, of_copies))
}
