//! Laws of frames: each is the contract of a function that does nothing. Proofs of other crates use them; no program
//! calls them, and the root doesn't export them.
ghost use Rattle.web_wire.specs.Laws.{MessagesAreRead};

/// Law: what one end sends as whole frames, the other end reads, in order and byte for byte, however the bytes are cut.
pub fn messages_are_read()
    ensures { MessagesAreRead }
{}
