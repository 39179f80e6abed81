//! The jobs `host` and `serve`: a host over sockets, with its log, metrics and application. Also the job `tell`, which
//! sends a command to `serve`.
//!
//! The connections are those of crate `server`. In each turn `serve` also applies time limits, asks the application
//! and obeys the control socket, and serves clients of the metrics port.
//!
//! `specs/Serving` defines what commands change in a turn of `serve`, and `Uptimes` its time; the turn itself is defined
//! in `server`'s `specs/ServiceTurns`.
#![tactic(auto)]

mod application;
mod clients;
mod control_socket;
mod log;
mod metered;
mod metrics_port;
mod options;
mod reload;
mod serving;
mod session_page;
mod tell;
mod uptime;

pub use options::ServeOptions;
pub use reload::open_panels;
pub use serving::{run_host, run_serve, server_of};
pub use tell::run_tell;
