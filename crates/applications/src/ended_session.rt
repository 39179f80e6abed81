//! Turns the end of a session into a notification to an application.
ghost use Rattle.std.specs.Prelude.{IfOk, string_bytes};
ghost use Rattle.application_http.specs.Requests.{notification_bytes};
ghost use Rattle.applications.specs.ApplicationRequests.{IsNotificationOf};

use crate::session_name::{SessionName, session_text};
use application_http::{Ended, Endpoint, notification_text};
use std::alloc::{AllocError, Global};
use tn3270e_msg::Lu;

/// The end of a session in which the application was asked.
#[derive(Clone, Copy)]
pub struct EndedSession {
    /// Its name.
    pub session: SessionName,
    /// The LU that its terminal was bound to.
    pub lu: Lu,
    /// Why it ended.
    pub reason: &'static str,
}

/// The bytes of the notification of a session's end.
pub(crate) fn notification_of(
    alloc: Global,
    endpoint: &Endpoint,
    ended: &EndedSession,
) -> Result<String, AllocError>
    ensures { IfOk result
        (λ text. IsNotificationOf (notification_bytes endpoint.now) ended.now (string_bytes text)) }
{
    let session = session_text(alloc, ended.session)?;
    let lu = ended.lu;
    let lu = format!(in alloc; "{lu}")?;
    let ended = Ended {
        session: session.as_str(),
        lu: lu.as_str(),
        reason: ended.reason,
    };
    let text = notification_text(alloc, endpoint, &ended)?;
    Ok(text)
}
