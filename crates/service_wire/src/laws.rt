//! Laws of lines: each is the contract of a function that does nothing. Proofs of other crates use them; no program
//! calls them, and the root doesn't export them.
ghost use Rattle.service_wire.specs.Laws.{AnswerIsReadBack, CommandIsReadBack, CutsDontMatter};

/// Law: how received bytes are cut into pieces doesn't matter. A command's line is read as this command, and an
/// answer's line as this answer.
pub fn written_is_read()
    ensures cuts { CutsDontMatter }
    ensures command { CommandIsReadBack }
    ensures answer { AnswerIsReadBack }
{}
