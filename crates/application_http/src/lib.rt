//! The messages between a host and the application that decides for it: HTTP/1.1 with JSON.
//!
//! This crate does no input or output, and knows nothing of panels or of the host (crate `applications` does).
//! [`request_text`] writes a [`Request`] for an [`Endpoint`]. [`ReplyReader`] takes the received bytes in any pieces
//! and returns a [`Reply`] or a [`ReplyFault`].
#![tactic(auto)]

mod content;
mod endpoint;
mod fault;
mod keeping;
mod notification;
mod reader;
mod reply;
mod request;

pub use endpoint::{Endpoint, EndpointFault};
pub use fault::{KeyFault, ReplyFault};
pub use notification::{Ended, notification_text};
pub use reader::ReplyReader;
pub use reply::{Reply, copy_of};
pub use request::{FieldText, Request, Terminal, request_text};
