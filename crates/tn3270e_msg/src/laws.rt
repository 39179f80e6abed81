//! Laws of headers, messages and talks: each is the contract of a function that does nothing.
//! Proofs of other crates use them; no program calls them, and the root doesn't export them.
ghost use Rattle.std.specs.Prelude.{◌≡◌};
ghost use Rattle.tn3270e_msg.specs.Header.{no_response, error_response, always_response, positive, negative};
ghost use Rattle.tn3270e_msg.specs.Laws.{OneHeader, FaultIsNoHeader, OneHeadFault, OneMessage, FaultIsNoMessage, OneSubFault, OneHearing, NameIsReadAsItself};
ghost use Rattle.tn3270e_msg.specs.Pair.{TalksAlwaysAgree};

use crate::{ALWAYS_RESPONSE, ERROR_RESPONSE, NEGATIVE, NO_RESPONSE, POSITIVE};

/// Law: between a host and a terminal of this crate neither talk closes, whatever the pool answers
/// and however items are delivered. After at most eight events nothing more can happen: both agreed
/// on the LU that the pool granted, or the terminal was rejected for the pool's reason.
pub fn talks_agree()
    ensures { TalksAlwaysAgree }
{}

/// Law: bytes begin with at most one header or have one fault. They are at most one message or have
/// one fault. An item means one thing to a talk. The name of an LU is read as itself.
pub fn one_reading()
    ensures header { OneHeader }
    ensures header_or_fault { FaultIsNoHeader }
    ensures head_fault { OneHeadFault }
    ensures message { OneMessage }
    ensures message_or_fault { FaultIsNoMessage }
    ensures sub_fault { OneSubFault }
    ensures hearing { OneHearing }
    ensures name { NameIsReadAsItself }
{}

/// Law: these constants are the standard's codes.
pub const fn flag_laws()
    ensures no_response { NO_RESPONSE ≡ no_response }
    ensures error_response { ERROR_RESPONSE ≡ error_response }
    ensures always_response { ALWAYS_RESPONSE ≡ always_response }
    ensures positive { POSITIVE ≡ positive }
    ensures negative { NEGATIVE ≡ negative }
{}
