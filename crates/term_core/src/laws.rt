//! Laws of terminals over bytes: each is the contract of a function that does nothing. Proofs of
//! other crates use them; no program calls them, and the root doesn't export them.
ghost use Rattle.term_core.specs.Laws.{BytesAreItems, FeedingHasRoom, KeysHaveRoom, OneOutcome, PiecesCompose, PiecesPart};

/// Law: the state of a terminal, and what it sends, are a function of its earlier state and of the bytes,
/// however they are cut into pieces.
pub fn one_machine()
    ensures outcome { OneOutcome }
    ensures compose { PiecesCompose }
    ensures part { PiecesPart }
    // And it is what the Telnet items make of it that the bytes encode.
    ensures items { BytesAreItems }
{
    telnet_wire::laws::one_reading();
    tn3270e_msg::laws::one_reading();
}

/// Law: a terminal whose output buffer has at least the capacity that `new` gives it lacks memory only while more than
/// 1,024 bytes wait to be sent.
pub fn room_suffices()
    ensures feeding { FeedingHasRoom }
    ensures keys { KeysHaveRoom }
{}
