//! The job `web`: serves the page of crate `web_wire` to browsers. Each page is a terminal of its own, in this process.
//!
//! It has no thread. A `WebServer` accepts clients, answers their requests, and takes one turn for each of them and for
//! each session. A page and its WebSocket are a `PageLink`; the terminal is an `OperatorSession` of crate `operate`
//! without a tty, whose drawings are sent to the page. `specs/Links` and `Pages` define what a turn reads and sends.
//! Requests, frames and the page itself are in crate `web_wire`.
#![tactic(auto)]

mod departing;
mod limits;
mod log;
mod network;
mod page_link;
mod page_turn;
mod seat;
mod visitor;
mod web_server;

pub use web_server::run_web;
