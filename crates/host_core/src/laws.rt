//! Laws of hosts over bytes: each is the contract of a function with no effect. Proofs of other crates use them; no
//! program calls them, and the root doesn't export them.
ghost use Rattle.host_core.specs.Answering.{BelievesNoSooner, BelievesNotesNoSooner, CommandsAreNumbered, NotesAreNumbered, OnlyItsResponse};
ghost use Rattle.host_core.specs.Laws.{ActsFit, SizesAreTheModels, ServedIsMarked, UnheardIsAllowed, PanelsAreShown, PanelsAskForScreens, ScreensAreWanted};
ghost use Rattle.host_core.specs.NoteLaws.{HeldTakesNotes, NotesAreNotes, NotesAreOverCharacters, NotesOverwrite, NotesWriteProtected, PaintsTakeNotes, SameAttributesTakeNotes};
ghost use Rattle.host_core.specs.Machine.{OneOutcome, PiecesCompose, PiecesPart};

use datastream::laws::{kept_since_the_write, written_is_read};
use panels::laws::{
    kept_fields_are_whole, marked_fields_return_input, the_last_row_is_for_messages,
};
use shadow::laws::{what_a_note_leaves, what_is_in_doubt_is_allowed};

/// Law: what a connection's bytes make of the pool and of the connection's record is a function of what these were
/// and of the bytes, however the bytes are cut into pieces.
pub fn one_machine()
    ensures outcome { OneOutcome }
    ensures compose { PiecesCompose }
    ensures part { PiecesPart }
{
    telnet_wire::laws::one_reading();
    tn3270e_msg::laws::one_reading();
    datastream::laws::one_reading();
}

/// Law: whatever a host does, what it paints fits its belief or keeps no cell, and has the size that the connection
/// has from then on; the terminal's model allows that size, if it allowed the size before.
pub fn what_is_shown_fits()
    ensures fits { ActsFit }
    ensures sizes { SizesAreTheModels }
{}

/// Law: the belief over which a panel is shown allows each screen that there may be then, after what may have
/// happened since the host last heard of the screen; so what holds of paints holds on each.
pub fn what_may_have_happened_is_allowed()
    ensures { UnheardIsAllowed }
{
    what_is_in_doubt_is_allowed();
}

/// Law: panels are an application if they are laid out on the screens of their models, no two items of a panel share
/// a cell, and each panel of another model has one of model 2 in its place. Each screen that they ask for has the
/// size of its panel's model, with its last row for messages, keeps whole fields or none, and is that of its panel
/// cell by cell; and what is shown to a terminal has a size that the terminal may have. If panels and values have
/// only characters that a cell can hold, so have the screens.
pub fn panels_are_shown()
    ensures application { PanelsAreShown }
    ensures wanted { ScreensAreWanted }
    ensures screens { PanelsAskForScreens }
{
    the_last_row_is_for_messages();
    kept_fields_are_whole();
}

/// Law: a host that doesn't rely on the terminal's wait writes each input field with MDT on, so that each Enter or PF
/// key returns its text.
pub fn what_is_served_is_marked()
    ensures { ServedIsMarked }
{
    marked_fields_return_input();
}

/// Law: what a host shows changes its belief no sooner than it is answered; a command carries the connection's
/// sequence number, by which its response is awaited, and the next command the next number; and a response with
/// another number than the pending command's closes the connection.
pub fn what_is_shown_is_answered()
    ensures no_sooner { BelievesNoSooner }
    ensures notes_no_sooner { BelievesNotesNoSooner }
    ensures numbered { CommandsAreNumbered }
    ensures notes_numbered { NotesAreNumbered }
    ensures only_its { OnlyItsResponse }
{}

/// Law: a note may be written on a screen whose last row is for messages, as on each painted screen and on what keys
/// leave of it, and on a screen without fields. There it writes over characters of that protected field, or of none.
pub fn notes_are_written()
    ensures notes { NotesAreNotes }
    ensures overwrites { NotesOverwrite }
    ensures over_characters { NotesAreOverCharacters }
    ensures protected { NotesWriteProtected }
    ensures painted { PaintsTakeNotes }
    ensures held { HeldTakesNotes }
    ensures same_attributes { SameAttributesTakeNotes }
{
    written_is_read();
    kept_since_the_write();
    what_a_note_leaves();
}
