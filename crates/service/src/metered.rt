//! Counts what a server does, and serves the counts at the metrics port.

use crate::metrics_port::{MetricsPort, Served, listen};
use applications::{ApplicationFault, Replaced};
use host_core::Host;
use jiff::Timestamp;
use jobs::{Fault, ServicePort};
use mio::net::TcpStream;
use server::{Server, ServerPort, Watcher};
use service_events::{Client, Metrics, MetricsPage, Notice};

/// Counts notices and screens, serves the counts at a port of 127.0.0.1, and passes each call on to another watcher.
#[derive(Drop)]
pub(crate) struct MetricsObserver<'a, W> {
    watcher: &'a mut W,
    page: MetricsPage,
    port: MetricsPort,
}

impl<'a, W: Watcher> MetricsObserver<'a, W> {
    /// Nothing is counted yet. CannotListen if the system can't listen on the port.
    pub(crate) fn new(
        rt: &HostRuntime,
        polled: &ServerPort,
        port: ServicePort,
        version: &'static str,
        watcher: &'a mut W,
    ) -> Result<MetricsObserver<'a, W>, Fault> {
        let page = MetricsPage {
            metrics: Metrics::new(),
            version,
            started: Timestamp::now(rt).ok().map(|now| now.as_second()),
            lines_dropped: 0,
        };
        let mut port = listen(rt, port)?;
        port.register(polled);
        Ok(MetricsObserver {
            watcher,
            page,
            port,
        })
    }
}

impl<W: Watcher> Watcher for MetricsObserver<'_, W> {
    ghost use Rattle.std.specs.Prelude.{◌≡◌, Bool};
    ghost use Rattle.service_events.specs.Metrics.{counted, with_failure, with_paint};

    ghost noticed = { λ old notice answer new. W.noticed old.watcher.now notice answer new.watcher.now
        × (new.page.metrics ≡ counted notice old.page.metrics) };

    ghost showed = { λ old host conn answer new. W.showed old.watcher.now host conn answer new.watcher.now
        × (new.page.metrics ≡ with_paint old.page.metrics) };

    ghost reported = { λ old client fault answer new. W.reported old.watcher.now client fault answer new.watcher.now
        × (new.page.metrics ≡ with_failure fault old.page.metrics) };

    ghost noted = { λ old client replaced answer new. W.noted old.watcher.now client replaced answer new.watcher.now
        × (new.page.metrics ≡ old.page.metrics) };

    ghost ended_turn = { λ old server now _ new. (moved : Bool)
        × W.ended_turn old.watcher.now server now moved new.watcher.now
        × (new.page.metrics ≡ old.page.metrics) };

    fn notice(&mut self, notice: &Notice) -> Result<(), Fault> {
        self.page.metrics.count(notice);
        self.watcher.notice(notice)
    }

    fn unanswered(&mut self, client: &Client, fault: &ApplicationFault) -> Result<(), Fault> {
        self.page.metrics.count_failure(fault);
        self.watcher.unanswered(client, fault)
    }

    fn replaced(&mut self, client: &Client, replaced: &Replaced<'_>) -> Result<(), Fault> {
        self.watcher.replaced(client, replaced)
    }

    fn shown(&mut self, host: &Host, conn: usize) -> Result<(), Fault> {
        self.page.metrics.count_paint();
        self.watcher.shown(host, conn)
    }

    fn after_turn(&mut self, server: &Server<TcpStream>, port: &ServerPort, now: u64) -> bool {
        let moved = self.watcher.after_turn(server, port, now);
        self.page.lines_dropped = self.watcher.lines_dropped();
        self.port.accept_all(port, now);
        let served = Served {
            alloc: self.port.alloc,
            page: &self.page,
            server,
        };
        moved | self.port.serve_all(now, served).unwrap_or(false)
    }

    fn lines_dropped(&self) -> u64 {
        self.watcher.lines_dropped()
    }
}
