//! Laws of reading, for callers that feed a stream in pieces. Each is the contract of a function that does nothing.
//! Proofs of other crates use them; no program calls them, and the root doesn't export them.
ghost use Rattle.telnet_wire.specs.Laws.{DeliveriesCompose, DeliveryGoesOn, ItemIsRead, ItemsAreRead, ItemsCompose, NothingIsRest, OneDelivery, OneFault, OneReading, OneSpelling, ReadingGoesOn, ReadingNothing, ReadingsCompose, TakenIsRead, WrongIsFinal, WrongPiece};

/// Law: the laws of reading, for proofs about callers that feed a stream in pieces.
///
/// Bytes spell at most one list of tokens, and are read in one way, whole or in any pieces. A
/// stream that is wrong at a byte stays wrong, with one fault. The bytes that a decoder accepted
/// are read without fault, and an item that was written is read as itself.
pub fn one_reading()
    ensures spelling { OneSpelling }
    ensures reading { OneReading }
    ensures delivery { OneDelivery }
    ensures start { NothingIsRest }
    ensures no_bytes { ReadingNothing }
    ensures pieces { ReadingsCompose }
    ensures items { ItemsCompose }
    ensures deliveries { DeliveriesCompose }
    ensures goes_on { ReadingGoesOn }
    ensures delivery_goes_on { DeliveryGoesOn }
    ensures wrong_is_final { WrongIsFinal }
    ensures fault { OneFault }
    ensures wrong_piece { WrongPiece }
    ensures taken { TakenIsRead }
    ensures item { ItemIsRead }
    ensures written { ItemsAreRead }
{}
