//! Reading a panel text.
ghost use Rattle.std.specs.Prelude.{◌≡◌, IfOk, IfErr, OnOk, slice_get};
ghost use Rattle.toml.specs.View.{table_view};
ghost use Rattle.panels.specs.Draft.{draft_of};
ghost use Rattle.panels.specs.Passes.{IsFaultless, IsReasonIn, IsReason};
ghost use Rattle.panels.specs.Turns.{IsFirstIn, IsFirstOf};
ghost use Rattle.panels.specs.Defines.{Defines, IsReadFrom};

use crate::draft::Draft;
use crate::fault::{LocatedFault, PanelFault};
use crate::panel_set::PanelSet;
use std::alloc::Global;
use toml::Table;

/// The first of these faults, if there is one.
fn first_of(found: &[LocatedFault]) -> Option<LocatedFault>
    ensures { result ≡ slice_get found.now 0 }
{
    found.first().copied()
}

/// Refuses a draft that has a fault, for the first one.
fn check(alloc: Global, draft: &Draft) -> Result<(), PanelFault>
    ensures clean { OnOk result (IsFaultless draft.now) }
    ensures fault { IfErr result (IsReasonIn draft.now) }
    ensures first { IfErr result (IsFirstIn draft.now) }
{
    let Ok(found) = draft.faults(alloc) else {
        return Err(PanelFault::Memory);
    };
    match first_of(found.as_slice()) {
        Some(first) => {
            let table = draft.table(first.part);
            Err(PanelFault::Tree(first.fault, table.place()))
        }
        None => Ok(()),
    }
}

/// The panels that a TOML tree defines, or its first fault.
fn read_tree(alloc: Global, top: &Table) -> Result<PanelSet, PanelFault>
    ensures panels { IfOk result
        (λ set. IsFaultless (draft_of (table_view top.now)) × Defines (draft_of (table_view top.now)) set) }
    ensures fault { IfErr result (IsReasonIn (draft_of (table_view top.now))) }
    ensures first { IfErr result (IsFirstIn (draft_of (table_view top.now))) }
{
    let draft = Draft::of(alloc, top).map_err(|_| PanelFault::Memory)?;
    check(alloc, &draft)?;
    draft.build(alloc).map_err(|_| PanelFault::Memory)
}

impl PanelSet {
    /// The panels that a TOML text defines, or the first fault of the text (our profile). Passes look for faults in
    /// this order: TOML; keys and types; numbers of items; names; models, places and characters; overlaps; targets. A
    /// pass goes from part to part: the text's own table, then panel by panel the panel's, its texts, its fields, its
    /// values and its keys; an item with `repeat` is as many parts as it has copies. Err is `Memory` if memory is
    /// refused.
    pub fn read(alloc: Global, text: &str) -> Result<PanelSet, PanelFault>
        ensures panels { IfOk result (IsReadFrom text.now) }
        ensures fault { IfErr result (IsReason text.now) }

        // It is the first fault: the text has none that is looked for sooner.
        ensures first { IfErr result (IsFirstOf text.now) }
    {
        match toml::table_from_str(alloc, text) {
            Ok(top) => read_tree(alloc, &top),
            Err(error) if error.is_memory() => Err(PanelFault::Memory),
            Err(_) => Err(PanelFault::NotToml),
        }
    }
}
