//! The events of a server: notices, which print as log lines; counts and their page; and the time limits of a
//! connection.
//!
//! This crate has no server and no socket (crate `service` has). A [`Notice`] is written to the log, and counted in
//! [`Metrics`]. [`RequestHead`] collects the bytes of a client that requests the [`MetricsPage`], and [`response_of`]
//! is the response. [`Activity`] decides what a connection's time limits require. `specs/Notices`, `Metrics`, `Scrapes`
//! and `Timing` define these. Printed texts have no definitions; tests compare them.
#![tactic(auto)]

mod limits;
mod metrics;
mod metrics_page;
mod notice;
mod scrape;

pub use limits::{Activity, Awaited, Due, Overdue, are_applied, awaited_on};
pub use metrics::Metrics;
pub use metrics_page::MetricsPage;
pub use notice::{BadHeader, Client, Commanded, Ending, Notice, PanelCounts, Usage, ending_of};
pub use scrape::{HttpStatus, Method, RequestHead, Resource, is_late, response_of};
