//! Laws of reading keys and of drawing: each is the contract of a function that does nothing. Proofs of other crates
//! use them; no program calls them, and the root doesn't export them.
ghost use Rattle.tty.specs.DrawingLaws.{AreShown, AreBlank, AreUntold};
ghost use Rattle.tty.specs.KeyLaws.{CharactersAreRead, ControlSequencesAreOne, ControlsBreakOff, LateRestsAreRead, MouseReportsAreOne, PiecesCompose, SequencesAreRead, SequencesTypeNothing, StringsTypeNothing};

/// Law: bytes have the same meaning however they are cut into pieces.
pub fn cut_anywhere()
    ensures { PiecesCompose }
{}

/// Law: each sequence of the table is read as its key, and each character as itself. A control
/// sequence of any length is one keystroke, and no sequence types a character, nor does a report of
/// the mouse or a control string. A control character breaks off what isn't complete, and then has
/// the meaning that it has alone. What comes after a pause still goes on with a control sequence.
pub fn keys_are_read()
    ensures sequences { SequencesAreRead }
    ensures characters { CharactersAreRead }
    ensures any_length { ControlSequencesAreOne }
    ensures types_nothing { SequencesTypeNothing }
    ensures mouse { MouseReportsAreOne }
    ensures strings { StringsTypeNothing }
    ensures late { LateRestsAreRead }
    ensures breaks_off { ControlsBreakOff }
{}

/// Law: what is written for a picture, over any known one or none, makes a tty with room for it show the picture.
pub fn drawings_are_shown()
    ensures { AreShown }
{}

/// Law: hidden fields are never drawn. Each of their cells is a blank, and two screens that differ only in the
/// characters of hidden fields have the same cells in their pictures.
pub fn hidden_fields_are_not_drawn()
    ensures blank { AreBlank }
    ensures untold { AreUntold }
{}
