//! A host that serves connections over sockets: who is accepted, the turns, time limits, notes, and what operators
//! order; and [`Hosts`], the host of the newest panels with earlier hosts whose sessions go on.
//!
//! This crate has no log, no metrics and no application (crate `service`), and doesn't decide what a host does
//! (`host_core`). A [`Server`] opens no socket and reads no clock. Each of its turns accepts waiting connections, serves
//! every connection once (one read, one act, one write), and reports to a [`Watcher`] what happened. A [`ServerPort`]
//! has the system's listener, and the poll.
//!
//! `specs/Hosts` says what hosts are and how calls leave them, and `Apart` what always holds of them. `ServerTurns`
//! defines a turn of a server, `TimeTurns` what the time limits do, `Control` what operators command, and `ServiceTurns`
//! a turn of a service, of which that of its server is a part.
#![tactic(auto)]

mod accepting;
mod answering;
mod commanding;
mod connection_info;
mod hosts;
mod note_queue;
mod orders;
mod proxy_listener;
mod reporting;
mod server;
mod server_port;
mod service_turn;
mod timing;
mod watcher;

pub use accepting::{Accepted, Arrival, Listener, NoListener};
pub use hosts::{Hosts, MOST_EARLIER, ReloadFault};
pub use note_queue::NoteQueue;
pub use orders::Orders;
pub use proxy_listener::ProxyListener;
pub use server::{Server, SessionRow};
pub use server_port::{PolledListener, ServerPort};
pub use service_turn::{TurnParts, take_turns};
pub use watcher::{Unwatched, Watcher};
