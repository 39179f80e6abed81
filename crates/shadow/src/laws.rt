//! Laws of beliefs: each is the contract of a function that does nothing. Proofs of
//! other crates use them; no program calls them, and the root doesn't export them.
ghost use Rattle.shadow.specs.Doubt.{DoubtAllowsTheScreen, DoubtAllowsInput, DoubtListsFields, DoubtKeepsTheSize, DoubtStaysExact, DoubtStaysProtected, DoubtCanBeStored, DoubtIsOnce};
ghost use Rattle.shadow.specs.TextUnknown.{LongOpensNothing, ReadLeavesNothingOpen, EraseLeavesNothingOpen, ClearIsHeard, PaintOpensNothing};
ghost use Rattle.shadow.specs.Notes.{NoteOverwritesProtected, NoteOverwritesBare, PlacedStaysKnown, NoteStaysListed, NoteStaysTold, NoteStaysExact, NoteOpensNothing, NoteStaysWhole};
ghost use Rattle.shadow.specs.Laws.{HearsModified, HearsAll, HearsBuffer, WrittenIsTaken, WantedIsPainted, PaintIsTaken, PaintedIsKnown, PaintIsBounded, PaintIsPlain, PaintIsEncoded, KnownIsThere, AttributesAreKnown};
ghost use Rattle.shadow.specs.Exactness.{NothingIsExact, HeardStaysExact, HeardStaysProtected, TakenStaysExact, ErasedIsExact, PaintedIsExact, WrittenStaysProtected, ProtectedIsSeen, ReturnedIsTold};
ghost use Rattle.shadow.specs.RuleBreaks.{RulesAreNotBroken};
ghost use Rattle.shadow.specs.PaintedFields.{KeptStaysThere, WrittenIsThere};
ghost use Rattle.shadow.specs.Sized.{MeetsIsOfSize, HeardIsOfSize, TakenIsOfSize};
ghost use Rattle.shadow.specs.Settled.{SettledIsDecided, ReturnedIsSettled, ReadIsSettled, PaintReturnsInput, NoteReturnsInput, NoteStaysSettled};
ghost use Rattle.shadow.specs.Storable.{HeardCanBeStored, TakenCanBeStored, ToldCanBeStored};

use datastream::laws::written_is_read;

/// Law: if the host knows anything, it doesn't reject data that a terminal sends after keys, nor its answer to Read
/// Modified All, and the belief then is true of the terminal's screen.
pub fn what_is_sent_is_heard()
    ensures modified { HearsModified }
    ensures all { HearsAll }
{}

/// Law: a terminal's answer to Read Buffer isn't rejected, and the belief then is true of its screen.
pub fn what_is_read_is_heard()
    ensures { HearsBuffer }
{}

/// Law: if a screen meets the belief before a plain write, the screen after the write meets the belief after it.
pub fn what_is_written_is_taken()
    ensures { WrittenIsTaken }
{}

/// Law: a paint is a plain write, its bytes spell it and are bounded in number, and it turns every screen that meets
/// the belief into the wanted one, which meets the belief after the paint. Something is known then.
pub fn what_is_wanted_is_painted()
    ensures plain { PaintIsPlain }
    ensures encoded { PaintIsEncoded }
    ensures bounded { PaintIsBounded }
    ensures painted { WantedIsPainted }
    ensures taken { PaintIsTaken }
    ensures known { PaintedIsKnown }
{
    written_is_read();
}

/// Law: a paint, field by field. If there is no Keep, each wanted field is on the painted screen, with its attribute
/// and its characters. A field that is kept has the attribute and the characters that it had before.
pub fn painted_fields_are_there()
    ensures written { WrittenIsThere }
    ensures kept { KeptStaysThere }
{}

/// Law: a known cell is the cell of every screen that meets the belief, but for the MDT of an attribute. If anything is
/// known, so is each attribute.
pub fn what_is_known_is_there()
    ensures cells { KnownIsThere }
    ensures attributes { AttributesAreKnown }
{}

/// Law: a screen that meets the belief has the believed size. After inbound data and after a plain write the believed
/// size is the one that these were read for.
pub fn what_is_believed_has_a_size()
    ensures meets { MeetsIsOfSize }
    ensures heard { HeardIsOfSize }
    ensures taken { TakenIsOfSize }
{}

/// Law: if the fact of each field with all characters known is `Exact`, this stays so whatever is heard or written.
pub fn what_is_known_is_exact()
    ensures heard { HeardStaysExact }
    ensures taken { TakenStaysExact }
{}

/// Law: the fact of each protected field is `Exact` if nothing is known (there is no field), after each erase and after
/// each paint that fits. It stays so whatever is heard, and after writes that store only characters over characters.
pub fn what_is_protected_is_exact()
    ensures nothing { NothingIsExact }
    ensures heard { HeardStaysProtected }
    ensures erased { ErasedIsExact }
    ensures painted { PaintedIsExact }
    ensures written { WrittenStaysProtected }
{}

/// Law: if the facts of protected fields are `Exact`, the host knows their texts. If it also knows the texts of
/// unprotected fields with MDT on, it knows the text of each field with MDT on.
pub fn what_is_exact_is_so()
    ensures protected { ProtectedIsSeen }
    ensures returned { ReturnedIsTold }
{}

/// Law: a note, which is a write over characters of protected fields or of no field, preserves that something is known,
/// the list of fields, the returned texts and exact facts, and opens no field. An unformatted screen that was wholly
/// known stays so. That the new screen meets the new belief is `what_is_written_is_taken`.
pub fn what_a_note_leaves()
    ensures noted { NoteOverwritesProtected }
    ensures bare { NoteOverwritesBare }
    ensures known { PlacedStaysKnown }
    ensures listed { NoteStaysListed }
    ensures told { NoteStaysTold }
    ensures exact { NoteStaysExact }
    ensures unopened { NoteOpensNothing }
    ensures whole { NoteStaysWhole }
{}

/// Law: a field is open if it is unprotected and its fact is `Any`. If no field is open, none is after data of Enter or
/// a PF key, after an answer to Read Modified All, and after a paint that keeps whole fields. After an answer to Read
/// Buffer or an erase none is open in any case. Clear leaves an unformatted screen of known nulls.
pub fn what_leaves_nothing_open()
    ensures long { LongOpensNothing }
    ensures buffer { ReadLeavesNothingOpen }
    ensures erased { EraseLeavesNothingOpen }
    ensures cleared { ClearIsHeard }
    ensures painted { PaintOpensNothing }
{}

/// Law: a field's text is settled if the host knows it, but for its nulls (`Exact` or `Text`). If MDT is known to be on
/// in each input field, and the facts of protected fields are `Exact`, each text is settled after data of Enter or a PF
/// key. MDT is known to be on after a paint without Keep that wants it on, and notes preserve that. After an answer to
/// Read Buffer each text is settled in any case. Notes preserve that too, if the facts of protected fields are `Exact`.
pub fn what_returns_input_is_settled()
    ensures decided { SettledIsDecided }
    ensures returned { ReturnedIsSettled }
    ensures read { ReadIsSettled }
    ensures painted { PaintReturnsInput }
    ensures noted { NoteReturnsInput }
    ensures kept { NoteStaysSettled }
{}

/// Law: if a cell can hold each known character, and returned texts have no nulls, this stays so whatever is heard or
/// written. The texts that the host knows then have only characters that a cell can hold, and no nulls.
pub fn what_is_believed_can_be_stored()
    ensures heard { HeardCanBeStored }
    ensures taken { TakenCanBeStored }
    ensures told { ToldCanBeStored }
{}

/// Law: after `Shadow::doubt` the belief allows each screen that it allowed before, and each one that differs from such
/// a screen only in what the operator may have changed; so the laws of paints hold of both. The list of fields, the
/// size, the exact facts of protected fields and of fields without unknown characters, and that each character can be
/// stored are preserved. A second `doubt` changes nothing.
pub fn what_is_in_doubt_is_allowed()
    ensures allowed { DoubtAllowsTheScreen }
    ensures input { DoubtAllowsInput }
    ensures listed { DoubtListsFields }
    ensures size { DoubtKeepsTheSize }
    ensures exact { DoubtStaysExact }
    ensures protected { DoubtStaysProtected }
    ensures stored { DoubtCanBeStored }
    ensures once { DoubtIsOnce }
{}

/// Law: `Shadow::rule_break` finds nothing on a screen that meets the belief, nor on one that an operator can make of
/// such a screen before it is read. So a terminal of which it reports a break doesn't keep the rules.
pub fn rules_are_not_broken()
    ensures { RulesAreNotBroken }
{}
