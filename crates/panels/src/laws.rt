//! Laws of panels: each is the contract of a function that does nothing. Proofs of
//! other crates use them; no program calls them, and the root doesn't export them.
ghost use Rattle.panels.specs.Defines.{DefinesOnce};
ghost use Rattle.panels.specs.KeptFields.{AttributesAreThere, FieldsAreKeptWhole, FieldsAreOnTheScreen, FieldsAreWritten, NothingElseIsKept, TextsAreWritten};
ghost use Rattle.panels.specs.Listing.{FaultsBeginWithTheFirst, NoFaultsAreFaultless};
ghost use Rattle.panels.specs.Marked.{MarkedPanelsReturnInput, MarkedSetsReturnInput, PanelsWithoutFieldsReturnInput};
ghost use Rattle.panels.specs.MessageRow.{PanelsLeaveTheRow, TheRowIsTheMessage, TheRoomIsTheRow};

/// Law: on each screen that a panel asks for, the last row is one protected field with the message: its attribute comes
/// first, then characters up to the end of the row. So a message as long as that room can be written there while the
/// operator types, and no field of the panel changes.
pub fn the_last_row_is_for_messages()
    ensures left { PanelsLeaveTheRow }
    ensures message { TheRowIsTheMessage }
    ensures room { TheRoomIsTheRow }
{}

/// Law: a screen that a panel asks for keeps whole fields, or none. If it keeps what was typed, it has a Keep at each
/// character of each field, between the field's attribute and another. No other cell, and no other screen, has a Keep.
/// For this no two items of the panel may share a cell, as `PanelSet::panels_are_sound` says of all panels.
pub fn kept_fields_are_whole()
    ensures whole { FieldsAreKeptWhole }
    ensures nothing_else { NothingElseIsKept }
{}

/// Law: each screen that a panel asks for, whether it keeps what was typed or not, has each field of the panel: its
/// attribute right before its first cell, another right after its last, and none between them. For this no two items of
/// the panel may share a cell.
pub fn fields_are_on_the_screen()
    ensures { FieldsAreOnTheScreen }
{}

/// Law: each screen that a panel asks for has each field's attribute right before its first cell. If nothing is kept,
/// each cell of a field is written: with the field's value or fill, and after that with nulls. For this no two items of
/// the panel may share a cell.
pub fn fields_are_written()
    ensures attributes { AttributesAreThere }
    ensures characters { FieldsAreWritten }
{}

/// Law: each screen that a panel asks for has each text of the panel, its own or the value that it shows. For this no
/// two items of the panel may share a cell.
pub fn texts_are_written()
    ensures { TextsAreWritten }
{}

/// Law: each screen that a panel asks for has MDT on in each input field, if `PanelSet::mark_fields` marked all fields
/// of the panel, or if it has none. So each Enter or PF key returns the text of every input field that is shown.
pub fn marked_fields_return_input()
    ensures marked { MarkedPanelsReturnInput }
    ensures in_set { MarkedSetsReturnInput }
    ensures no_fields { PanelsWithoutFieldsReturnInput }
{}

/// Law: the head of a draft's list of faults is its first fault, and a draft with an empty list is faultless. So
/// `PanelSet::read` refuses a text for the first fault that `Draft::faults` lists.
pub fn the_first_fault_is_at_the_head()
    ensures first { FaultsBeginWithTheFirst }
    ensures none { NoFaultsAreFaultless }
{}

/// Law: two readings of a text define the same panels.
pub fn a_text_defines_its_panels_once()
    ensures { DefinesOnce }
{}
