//! What a terminal in a browser and its server say to each other, as bytes: the heads of HTTP requests and their
//! responses, the messages of a WebSocket, and the page.
//!
//! This crate has no socket, no clock and no thread. A [`HeadReader`] collects the bytes of a client, and says which
//! [`Answer`] they call for, given the [`Site`]: the origins that are served. [`response_of`] is the response. Once a
//! handshake is answered, a [`PageSocket`] reads the client's messages and writes the server's. [`PAGE`] is the page.
//! `specs/` has the definitions: Heads, Responses, Sockets, Openings, Notices; `laws` says what follows.
#![tactic(auto)]

mod head;
mod head_reader;
pub mod laws;
mod notice;
mod opening;
mod origin;
mod page;
mod received;
mod response;
mod socket;
mod token;

pub use head::{Answer, HttpStatus, only_value};
pub use head_reader::HeadReader;
pub use notice::Notice;
pub use opening::Opening;
pub use origin::{Origin, OriginFault, Site};
pub use page::{PAGE, SCRIPT_HASH, STYLE_HASH};
pub use received::{Closing, Received, Stage};
pub use response::{PageParts, response_of};
pub use socket::{PageSocket, SendFault};
pub use token::Token;
