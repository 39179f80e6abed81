//! Sets of functions (RFC 1647, section 7.2).
ghost use Rattle.std.specs.Prelude.{◌≡◌};
ghost use Rattle.tn3270e_msg.specs.Functions.{functions_of, offer};

use crate::codes::RESPONSES;

/// How a set of functions compares with the one that both ends want: RESPONSES alone (our profile).
#[derive(Clone, Copy)]
pub enum FunctionsOffer {
    /// RESPONSES and no other function.
    ResponsesAlone,
    /// RESPONSES and other functions.
    ResponsesAndMore,
    /// Any functions without RESPONSES, or none.
    NoResponses,
}

impl FunctionsOffer {
    /// Compares the set of the functions in this list of codes, which may repeat.
    pub fn of(list: &[u8]) -> FunctionsOffer
        ensures { result ≡ offer (functions_of list.now) }
    {
        if !list.contains(&RESPONSES) {
            return FunctionsOffer::NoResponses;
        }
        if list.iter().all(|function| *function == RESPONSES) {
            FunctionsOffer::ResponsesAlone
        } else {
            FunctionsOffer::ResponsesAndMore
        }
    }
}
