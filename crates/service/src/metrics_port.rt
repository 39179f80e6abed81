//! The port of 127.0.0.1 at which a server serves its metrics and a list of its sessions.
use crate::clients::{Clients, Request, Responder};
use crate::session_page::{session_data, session_page};
use host_core::MOST_CONNECTIONS;
use jobs::{Fault, ServicePort};
use mio::net::{TcpListener, TcpStream};
use server::Server;
use service_events::{HttpStatus, MetricsPage, RequestHead, Resource, response_of};
use std::alloc::{AllocError, Global};
use std::net::{Ipv4Addr, SocketAddr};

/// The poll token of the port and of its clients.
const TOKEN: usize = MOST_CONNECTIONS + 1;

/// The port, and its clients.
pub(crate) type MetricsPort = Clients<TcpStream, RequestHead>;

impl Request for RequestHead {
    fn begin(alloc: Global) -> Result<RequestHead, AllocError> {
        Ok(RequestHead::new(alloc))
    }
}

/// What the port serves.
#[derive(Clone, Copy)]
pub(crate) struct Served<'a> {
    pub(crate) alloc: Global,
    /// The counts, without those of open connections.
    pub(crate) page: &'a MetricsPage,
    pub(crate) server: &'a Server<TcpStream>,
}

impl Served<'_> {
    /// The page, with what open connections have used so far.
    fn whole_page(&self) -> MetricsPage {
        let mut metrics = self.page.metrics;
        for conn in 0..MOST_CONNECTIONS {
            if let Some(usage) = self.server.usage(conn) {
                metrics.count_usage(usage.turns, usage.received, usage.sent);
            }
        }
        MetricsPage {
            metrics,
            ..*self.page
        }
    }

    /// The response with a status, and with the resource if the status is 200.
    fn response(&self, status: HttpStatus) -> Result<String, AllocError> {
        let (alloc, server, started) = (self.alloc, self.server, self.page.started);
        let text = match status {
            HttpStatus::Found(_, Resource::Metrics) => {
                format!(in alloc; "{}", self.whole_page())?
            }
            HttpStatus::Found(_, Resource::Sessions) => session_page(alloc, server, started)?,
            HttpStatus::Found(_, Resource::SessionData) => session_data(alloc, server, started)?,
            _ => String::new(alloc),
        };
        response_of(alloc, status, text.as_str())
    }
}

impl Responder<RequestHead> for Served<'_> {
    fn answer(&mut self, head: &mut RequestHead, bytes: &[u8]) -> Result<Option<String>, Fault> {
        match head.take(bytes)? {
            Some(status) => Ok(Some(self.response(status)?)),
            None => Ok(None),
        }
    }
}

/// Listens on the port. CannotListen if the system refuses that.
pub(crate) fn listen(rt: &HostRuntime, port: ServicePort) -> Result<MetricsPort, Fault> {
    let address = SocketAddr::from((Ipv4Addr::LOCALHOST, port.get()));
    match TcpListener::bind(rt, address) {
        Ok(listener) => Ok(Clients::new(rt.alloc(), listener, TOKEN)),
        Err(error) => Err(Fault::CannotListen(address, error.kind())),
    }
}
