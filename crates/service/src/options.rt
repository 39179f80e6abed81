//! What `serve` is asked to do.
use jobs::{ApplicationChoice, ControlChoice, Service};
use std::net::SocketAddr;

/// The options of `serve`, and the file of its panels.
#[derive(Clone, Copy)]
pub struct ServeOptions<'a> {
    /// Where it listens, its time limits, and what it reports.
    pub service: &'a Service,
    /// The application that decides, if one is chosen.
    pub application: &'a ApplicationChoice<'a>,
    /// How operators command it.
    pub control: &'a ControlChoice<'a>,
    /// The name of the file of the panels; None if they come from the standard input.
    pub file: Option<&'a str>,
}

impl ServeOptions<'_> {
    /// The address and the port that the service listens on.
    pub(crate) fn address(&self) -> SocketAddr {
        SocketAddr::new(self.service.listen, self.service.port.get())
    }

    /// Whether an application decides.
    pub(crate) fn has_application(&self) -> bool {
        self.application.url.is_some()
    }
}
