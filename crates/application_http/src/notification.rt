//! The HTTP request that tells an application of a session's end.
ghost use Rattle.std.specs.Prelude.{◌≡◌, IfOk, string_bytes};
ghost use Rattle.serde_json.specs.View.{view};
ghost use Rattle.application_http.specs.Requests.{ended_data, notification_bytes};

use crate::endpoint::Endpoint;
use crate::request::{post_text, put_texts};
use serde_json::{Map, Value};
use std::alloc::{AllocError, Global};

/// The end of a session.
#[derive(Clone, Copy)]
pub struct Ended<'a> {
    /// The session's name, which no other session has.
    pub session: &'a str,
    /// The name of the LU that its terminal was bound to.
    pub lu: &'a str,
    /// Why it ended.
    pub reason: &'a str,
}

/// The JSON object of a notification.
fn ended_value(alloc: Global, ended: &Ended<'_>) -> Result<Value, AllocError>
    ensures { IfOk result (λ value. view value ≡ ended_data ended.now) }
{
    let texts = [
        ("event", "ended"),
        ("session", ended.session),
        ("lu", ended.lu),
        ("reason", ended.reason),
    ];
    let mut members = Map::new(alloc);
    put_texts(&mut members, alloc, &texts)?;
    Ok(Value::Object(members))
}

/// The bytes of a notification, head and body, for the application at an endpoint.
pub fn notification_text(
    alloc: Global,
    endpoint: &Endpoint,
    ended: &Ended<'_>,
) -> Result<String, AllocError>
    ensures { IfOk result (λ text. string_bytes text ≡ notification_bytes endpoint.now ended.now) }
{
    let value = ended_value(alloc, ended)?;
    post_text(alloc, endpoint, &value)
}
