//! Laws of commands, inbound data, fields and notes. Each is the contract of a function that does nothing. Proofs of
//! other crates use them; no program calls them, and the root doesn't export them.
ghost use Rattle.datastream.specs.InboundFields.{PartsAreFields, SentIsRead};
ghost use Rattle.datastream.specs.Escapes.{EscapeIsOneCharacter, NoLonger, ReadAsItIs, UnchangedWithout};
ghost use Rattle.datastream.specs.FieldLaws.{EachCellHasOneField, FieldsAreListed, FieldsAscend, FieldsTakeAll, Unformatted};
ghost use Rattle.datastream.specs.HeldLaws.{EraseInputHolds, HeldAtFirst, HeldComposes, HeldIsRound};
ghost use Rattle.datastream.specs.Laws.{OneCommand, OneInbound, OnlyByPlace, TabsByPlace, WrittenIsRead};
ghost use Rattle.datastream.specs.NoteLaws.{HeldStaysProtected, NoteKeepsBounds, NoteKeepsForm, NoteKeepsHeld, NoteKeepsSendable, NoteLeavesUnprotected, NotesCompose, ProtectedAreCharacters};
ghost use Rattle.datastream.specs.SpanLaws.{DistancesLead, SpansAreSteps};

/// Law: whatever a [`CommandWriter`](crate::CommandWriter) wrote reads back as the command with the
/// orders that the calls name.
pub fn written_is_read()
    ensures { WrittenIsRead }
{}

/// Law: bytes are at most one command for given screen sizes, and at most one inbound data for a given form and size.
pub fn one_reading()
    ensures command { OneCommand }
    ensures inbound { OneInbound }
{}

/// Law: a write's orders take effect one after another, and a program tab stores nulls if data comes
/// directly before it, or a program tab that stored nulls up to the last cell. No other does.
pub fn tabs_by_place()
    ensures by_place { TabsByPlace }
    ensures only { OnlyByPlace }
{}

/// Law: Repeat to Address and Erase Unprotected to Address act on the addresses that are reached by
/// single steps from the current address up to the stop address, wrapping round at the end. If the
/// two are equal, they act on all addresses.
pub fn spans_are_steps()
    ensures steps { SpansAreSteps }
    ensures lead { DistancesLead }
{}

/// Law: two views of fields agree (GA23-0059-07 on fields): the list of fields in the order of their attributes'
/// addresses, and for each cell the nearest attribute before it, wrapping round at the start.
pub fn fields_both_ways()
    ensures ascend { FieldsAscend }
    ensures listed { FieldsAreListed }
    ensures each_cell { EachCellHasOneField }
    ensures unformatted { Unformatted }
    ensures all_cells { FieldsTakeAll }
{}

/// Law: what operator keys keep of the screen after the last write. It has two equal definitions, by
/// address and by a walk from address 0, and it composes: several keys keep what each of them keeps.
pub fn kept_since_the_write()
    ensures round { HeldIsRound }
    ensures at_first { HeldAtFirst }
    ensures composes { HeldComposes }
    ensures erase_input { EraseInputHolds }
{}

/// Law: a note, which is a Write of characters over characters, keeps the screen's size, cursor and
/// AID, its attributes and all other cells. If it is over characters of protected fields, it keeps
/// all unprotected cells, and what keys kept since the write before.
pub fn what_a_note_keeps()
    ensures bounds { NoteKeepsBounds }
    ensures form { NoteKeepsForm }
    ensures unprotected { NoteLeavesUnprotected }
    ensures sendable { NoteKeepsSendable }
    ensures held { NoteKeepsHeld }
    ensures still_protected { HeldStaysProtected }
    ensures characters { ProtectedAreCharacters }
    ensures composes { NotesCompose }
{}

/// Law: the parts of inbound data and its fields or cells determine each other.
pub fn parts_are_fields()
    ensures { PartsAreFields }
{}

/// Law: what a terminal sends in answer to a read is read back as exactly that screen's data.
pub fn sent_is_read()
    ensures { SentIsRead }
{}

/// Law: where graphic escapes are replaced, each is one character. Inbound data that can be read, and all data without
/// escapes, is unchanged, and no data gets longer.
pub fn escapes_are_replaced()
    ensures one_character { EscapeIsOneCharacter }
    ensures as_it_is { ReadAsItIs }
    ensures unchanged { UnchangedWithout }
    ensures no_longer { NoLonger }
{}
